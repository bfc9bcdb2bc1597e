//! What patterns have that `relint` refuses and the grammar of their question reads.

ghost use Rattle.std.specs.Prelude.{◌≡◌, IfOk, false, map, true};
ghost use Rattle.rl_syntax.specs.Counting.{branch_tree};
ghost use Rattle.rl_syntax.specs.PatTree.{branches_of, items_of, pat_of};
ghost use Rattle.rl_syntax.specs.declared.pattern.Pattern.{Pattern as APattern};
ghost use Rattle.rl_asked.specs.Questions.{asked};
ghost use Rattle.rl_ask.specs.Beyond.{AreBeyond, IsBeyond, IsBeyondIn, IsRefusedBy, IsTold, branch_look, holds_look, nothing_beyond, some_look, with_both};
ghost use Rattle.rl_ask.specs.Patterns.{IsReadAs};
ghost use Rattle.rl_ask.specs.declared.grammar.Grammar.TheVariants.{Profile};

use crate::answer::Answer;
use crate::grammar::{Grammar, grammar_in, grammar_of_finds};
use crate::patterns::{PatternRead, read_pattern};
use rl_asked::{Question, Terms};
use rl_lists::OutOfMemory;
use rl_syntax::{Branch, Pat};
use std::alloc::Global;

/// What a pattern, or at least one of two patterns, has that `relint` refuses and the grammar of the question reads.
#[derive(Clone, Copy)]
pub struct Beyond {
    /// Whether it has a lookaround.
    pub lookaround: bool,
    /// Whether it has a `$` without MULTILINE that ends the pattern inside a group or a branch.
    pub inner_anchor: bool,
}

/// Returns that there is nothing.
fn nothing_beyond() -> Beyond
    ensures { result ≡ nothing_beyond }
{
    Beyond {
        lookaround: false,
        inner_anchor: false,
    }
}

/// Returns what at least one of two patterns has.
fn with_both(first: Beyond, second: Beyond) -> Beyond
    ensures { result ≡ with_both first second }
{
    Beyond {
        lookaround: first.lookaround || second.lookaround,
        inner_anchor: first.inner_anchor || second.inner_anchor,
    }
}

/// Returns whether a part is a lookaround or contains one.
#[cycle(looks)]
fn holds_look(part: &Pat) -> bool
    ensures { result ≡ holds_look (pat_of part.now) }
{
    match part {
        Pat::Nothing { .. }
        | Pat::Class { .. }
        | Pat::Anchor { .. }
        | Pat::Boundary { .. }
        | Pat::Outside { .. } => false,
        Pat::Look { .. } => true,
        Pat::Seq { items, .. } => items_hold_look(items.as_slice()),
        Pat::Choice { branches, .. } => branches_hold_look(branches.as_slice()),
        Pat::Repeat { body, .. } | Pat::Group { body, .. } => holds_look(body),
    }
}

/// Returns whether at least one of the items is a lookaround or contains one.
#[cycle(looks)]
fn items_hold_look(items: &[Pat]) -> bool
    ensures { result ≡ some_look (items_of (map pat_of items.now)) }
{
    let mut held = false;
    for item in items {
        held = holds_look(item) || held;
    }
    held
}

/// Returns whether at least one of the branches is a lookaround or contains one.
#[cycle(looks)]
fn branches_hold_look(branches: &[Branch]) -> bool
    ensures { result ≡ branch_look (branches_of (map branch_tree branches.now)) }
{
    let mut held = false;
    for branch in branches {
        held = holds_look(&branch.body) || held;
    }
    held
}

/// Returns whether the grammar refuses a text.
fn is_refused(
    alloc: Global,
    word: &str,
    terms: Terms,
    grammar: Grammar,
) -> Result<bool, OutOfMemory>
    ensures yes { IfOk result (λ refused. refused ≡ true → IsRefusedBy grammar terms word.now) }
    ensures no { IfOk result (λ refused. refused ≡ false → (p : APattern) × IsReadAs grammar terms word.now p) }
{
    match read_pattern(alloc, word, terms, grammar)? {
        PatternRead::Refused(_) => Ok(true),
        PatternRead::Read(pattern) => {
            drop(pattern);
            Ok(false)
        }
    }
}

/// Returns what a text has that the profile refuses, if the grammar reads it.
fn beyond_profile(
    alloc: Global,
    word: &str,
    terms: Terms,
    grammar: Grammar,
) -> Result<Beyond, OutOfMemory>
    requires { IsRefusedBy Profile terms word.now }
    ensures { IfOk result (IsBeyond grammar terms word.now) }
{
    match read_pattern(alloc, word, terms, grammar)? {
        PatternRead::Refused(_) => Ok(nothing_beyond()),
        PatternRead::Read(pattern) => {
            let lookaround = holds_look(pattern.body());
            drop(pattern);
            let inner_anchor = is_refused(alloc, word, terms, grammar_of_finds())?;
            Ok(Beyond {
                lookaround,
                inner_anchor,
            })
        }
    }
}

/// Returns what a text has beyond the profile, if the grammar reads it.
fn beyond_in(
    alloc: Global,
    word: &str,
    terms: Terms,
    grammar: Grammar,
) -> Result<Beyond, OutOfMemory>
    ensures { IfOk result (IsBeyond grammar terms word.now) }
{
    let refused = is_refused(alloc, word, terms, Grammar::Profile)?;
    if !refused {
        return Ok(nothing_beyond());
    }
    beyond_profile(alloc, word, terms, grammar)
}

/// Returns what at least one of two texts has beyond the profile, if the grammar reads it.
fn both_beyond(
    alloc: Global,
    first: &str,
    second: &str,
    terms: Terms,
    grammar: Grammar,
) -> Result<Beyond, OutOfMemory>
    ensures { IfOk result (AreBeyond grammar terms first.now second.now) }
{
    let first = beyond_in(alloc, first, terms, grammar)?;
    let second = beyond_in(alloc, second, terms, grammar)?;
    Ok(with_both(first, second))
}

/// Returns what the patterns of a question have beyond the profile.
fn beyond_asked(alloc: Global, question: Question) -> Result<Beyond, OutOfMemory>
    ensures { IfOk result (IsBeyondIn (asked question.entry)) }
{
    match question {
        Question::Class {
            pattern,
            terms,
            mode,
            ..
        } => beyond_in(alloc, pattern, terms, grammar_in(mode)),
        Question::Ways {
            pattern,
            terms,
            mode,
            ..
        } => beyond_in(alloc, pattern, terms, grammar_in(mode)),
        Question::Compare {
            first,
            second,
            terms,
            mode,
            ..
        } => both_beyond(alloc, first, second, terms, grammar_in(mode)),
        Question::Spans {
            first,
            second,
            terms,
            ..
        } => both_beyond(alloc, first, second, terms, grammar_of_finds()),
        Question::Found { pattern, terms, .. } => {
            beyond_in(alloc, pattern, terms, grammar_of_finds())
        }
        Question::Cost {
            pattern,
            terms,
            mode,
            ..
        } => beyond_in(alloc, pattern, terms, grammar_in(mode)),
        Question::CostOfFamily {
            pattern,
            terms,
            mode,
            ..
        } => beyond_in(alloc, pattern, terms, grammar_in(mode)),
        Question::Tree { .. } | Question::Suggest { .. } | Question::Version => {
            Ok(nothing_beyond())
        }
    }
}

/// Returns what is told beside an answer: what the patterns of the question have beyond the profile. Nothing is told beside a
/// refusal or an error.
///
/// # Errors
/// [`OutOfMemory`] if there was no memory to read the patterns.
pub(crate) fn beyond_told(
    alloc: Global,
    question: Question,
    answer: &Answer,
) -> Result<Beyond, OutOfMemory>
    ensures { IfOk result (IsTold (asked question.entry) answer.now) }
{
    match answer {
        Answer::Refused { .. } | Answer::TextTooLong => Ok(nothing_beyond()),
        _ => beyond_asked(alloc, question),
    }
}
