//! Grammars: what of a pattern is read, by what a question asks of it.

ghost use Rattle.std.specs.Prelude.{◌≡◌};
ghost use Rattle.rl_ranges.specs.Text.{IsText};
ghost use Rattle.rl_ask.specs.Grammars.{IsParsedIn, grammar_in, grammar_of_finds};

use rl_asked::Terms;
use rl_lists::Codes;
use rl_pattern::{Dollar, PatError, parse, parse_beyond};
use rl_syntax::{Mode, Pattern};
use std::alloc::Global;

/// What of a pattern is read.
#[derive(Clone, Copy)]
pub enum Grammar {
    /// What `relint` reads.
    Profile,
    /// Lookarounds of one character too, and a `$` without MULTILINE that ends the pattern inside a group or a branch. The
    /// value says what becomes of that `$`.
    Wider(Dollar),
}

/// Returns the grammar of a question about matches in the mode.
pub(crate) fn grammar_in(mode: Mode) -> Grammar
    ensures { result ≡ grammar_in mode }
{
    match mode {
        Mode::Fullmatch => Grammar::Wider(Dollar::Dropped),
        Mode::Match | Mode::Search => Grammar::Wider(Dollar::LastLine),
    }
}

/// Returns the grammar of a question about what patterns find.
pub(crate) fn grammar_of_finds() -> Grammar
    ensures { result ≡ grammar_of_finds }
{
    Grammar::Wider(Dollar::Refused)
}

/// Returns the pattern that the codes spell, by the grammar.
///
/// # Errors
/// [`PatError`] for the first fault, or if there was not enough memory.
pub(crate) fn parse_in(
    alloc: Global,
    codes: &Codes,
    terms: Terms,
    grammar: Grammar,
) -> Result<Pattern, PatError>
    requires { IsText terms.universe codes.now }
    ensures { IsParsedIn grammar terms.flags terms.universe codes.now result }
{
    match grammar {
        Grammar::Profile => parse(alloc, codes, terms.flags, terms.universe),
        Grammar::Wider(dollar) => parse_beyond(alloc, codes, terms.flags, terms.universe, dollar),
    }
}
