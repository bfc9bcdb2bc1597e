//! Texts read as patterns, and patterns with their groups.

ghost use Rattle.std.specs.Prelude.{◌≡◌, ◌≢◌, IfOk};
ghost use Rattle.rl_pattern.specs.declared.parsing.PatError.TheVariants as parsing;
ghost use Rattle.rl_ask.specs.declared.answer.Fault.TheVariants as fault;
ghost use Rattle.rl_ask.specs.declared.patterns.PatternRead.TheVariants as read;
ghost use Rattle.rl_ask.specs.internal.Reads.{IsMarkedRead, IsPatternRead};

use crate::answer::{Fault, Limit};
use crate::codes::{codes_of, is_text};
use crate::grammar::{Grammar, parse_in};
use crate::ungrouped::without_groups;
use rl_asked::Terms;
use rl_lists::OutOfMemory;
use rl_marks::{MarkError, MarkedPattern};
use rl_pattern::PatError;
use rl_syntax::Pattern;
use std::alloc::Global;

/// What comes of a text that is read as a pattern.
#[derive(Drop)]
pub(crate) enum PatternRead {
    /// The text is refused for this.
    Refused(Fault),
    /// The pattern.
    Read(Pattern),
}

/// What comes of a pattern that gets its groups.
#[derive(Drop)]
pub(crate) enum MarkedRead {
    /// The pattern exceeds this limit.
    Exceeds(Limit),
    /// The pattern with its groups, or without them if groups aren't compared.
    Marked(MarkedPattern),
}

/// Returns that a text is refused for an error of the reader of patterns.
///
/// # Errors
/// [`OutOfMemory`] if that is the error.
fn refusal(error: PatError) -> Result<PatternRead, OutOfMemory>
    ensures { IfOk result (λ r. (r ≡ read.Refused (fault.Pattern error)) × (error ≢ parsing.OutOfMemory)) }
{
    match error {
        PatError::OutOfMemory => Err(OutOfMemory),
        _ => Ok(PatternRead::Refused(Fault::Pattern(error))),
    }
}

/// Reads a text as a pattern, by the grammar.
///
/// # Errors
/// [`OutOfMemory`] if there was no memory for the pattern.
pub(crate) fn read_pattern(
    alloc: Global,
    word: &str,
    terms: Terms,
    grammar: Grammar,
) -> Result<PatternRead, OutOfMemory>
    ensures { IfOk result (IsPatternRead grammar terms word.now) }
{
    let codes = codes_of(alloc, word)?;
    if !is_text(terms.universe, codes.as_slice()) {
        return Ok(PatternRead::Refused(Fault::NotBytes));
    }
    match parse_in(alloc, &codes, terms, grammar) {
        Ok(pattern) => Ok(PatternRead::Read(pattern)),
        Err(error) => refusal(error),
    }
}

/// Returns the pattern with its groups, or without them if `groups` is false, or the limit that it exceeds.
///
/// # Errors
/// [`OutOfMemory`] if there was no memory for it.
pub(crate) fn mark_pattern(
    alloc: Global,
    pattern: &Pattern,
    groups: bool,
) -> Result<MarkedRead, OutOfMemory>
    ensures { IfOk result (IsMarkedRead groups pattern.now) }
{
    match MarkedPattern::of(alloc, pattern) {
        Ok(marked) if groups => Ok(MarkedRead::Marked(marked)),
        Ok(marked) => {
            let bare = without_groups(alloc, &marked);
            drop(marked);
            Ok(MarkedRead::Marked(bare?))
        }
        Err(MarkError::TooLarge) => Ok(MarkedRead::Exceeds(Limit::Size)),
        Err(MarkError::TooManyGroups) => Ok(MarkedRead::Exceeds(Limit::Groups)),
        Err(MarkError::OutOfMemory) => Err(OutOfMemory),
    }
}
