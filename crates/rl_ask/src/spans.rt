//! How questions `spans` are answered: the texts are read as patterns, these get their groups, and then both are compared.

ghost use Rattle.std.specs.Prelude.{◌≡◌, ◌<◌, ◌^◌, IfErr, IfOk, length};
ghost use Rattle.rl_spans.specs.Answers.{DifferOn};
ghost use Rattle.rl_spans.specs.Limits.{IsCause};
ghost use Rattle.rl_ask.specs.Grammars.{grammar_of_finds};
ghost use Rattle.rl_ask.specs.Patterns.{BothReadThen, SecondReadThen};
ghost use Rattle.rl_ask.specs.Spans.{AreFound, IsDecided, IsFoundWith, Shows};
ghost use Rattle.rl_ask.specs.internal.Limits.{limit_named};

use crate::answer::{Answer, Difference, Limit, Which};
use crate::grammar::grammar_of_finds;
use crate::patterns::{MarkedRead, PatternRead, mark_pattern, read_pattern};
use rl_asked::Terms;
use rl_lists::{Codes, OutOfMemory};
use rl_marks::{How, MarkedPattern};
use rl_spans::{SameFinds, SpansError, found_by, same_finds};
use rl_syntax::Pattern;
use std::alloc::Global;

/// How two patterns are compared.
#[derive(Clone, Copy)]
pub(crate) struct Comparing {
    /// How they are asked.
    pub(crate) how: How,
    /// How many pairs of thread lists the search may reach.
    pub(crate) limit: u32,
    /// Whether their groups are compared too.
    pub(crate) groups: bool,
}

/// Runs both patterns on a text on which they differ. Returns the text with what each of them finds there.
///
/// # Errors
/// [`SpansError::Moves`] only if a comparison of the patterns exceeds this limit, [`SpansError::OutOfMemory`] if there was no
/// memory.
fn difference(
    alloc: Global,
    how: How,
    a: &MarkedPattern,
    b: &MarkedPattern,
    text: Codes,
    from: u32,
    advance: bool,
) -> Result<Difference, SpansError>
    requires differ { DifferOn how a.now b.now text from advance }
    requires short { length text < 2 ^ 32 }
    ensures shows { IfOk result (Shows how a.now b.now) }
    ensures causes { IfErr result (IsCause how a.now b.now) }
{
    let place = from as usize;
    let first = found_by(alloc, a, how, text.as_slice(), advance, place)?;
    let second = found_by(alloc, b, how, text.as_slice(), advance, place)?;
    Ok(Difference {
        text,
        from,
        advance,
        first,
        second,
    })
}

/// Returns the limit that the error names. Out of memory names none, and [`SpansError::Text`] never comes of a comparison.
pub(crate) fn limit_of(error: SpansError) -> Option<Limit>
    ensures { result ≡ limit_named error }
{
    match error {
        SpansError::Size => Some(Limit::Size),
        SpansError::Letters => Some(Limit::Letters),
        SpansError::Moves => Some(Limit::Moves),
        SpansError::Text | SpansError::OutOfMemory => None,
    }
}

/// Searches for a difference between two patterns with their groups. Returns what is found.
///
/// # Errors
/// [`SpansError::Size`], [`SpansError::Letters`] or [`SpansError::Moves`] only for a limit that the comparison exceeds,
/// [`SpansError::OutOfMemory`] if there was no memory.
fn searched(
    alloc: Global,
    comparing: Comparing,
    a: &MarkedPattern,
    b: &MarkedPattern,
) -> Result<Answer, SpansError>
    ensures decided { IfOk result (IsDecided comparing.how a.now b.now) }
    ensures causes { IfErr result (IsCause comparing.how a.now b.now) }
{
    match same_finds(alloc, a, b, comparing.how, comparing.limit)? {
        SameFinds::Same(_) => Ok(Answer::Same),
        SameFinds::Differ {
            text,
            from,
            advance,
        } => {
            let difference = difference(alloc, comparing.how, a, b, text, from, advance)?;
            Ok(Answer::Differ(difference))
        }
        SameFinds::Exceeded => Ok(Answer::Exceeded),
    }
}

/// Returns the answer for two patterns with their groups.
fn decided(
    alloc: Global,
    comparing: Comparing,
    a: &MarkedPattern,
    b: &MarkedPattern,
) -> Result<Answer, OutOfMemory>
    ensures { IfOk result (IsDecided comparing.how a.now b.now) }
{
    match searched(alloc, comparing, a, b) {
        Ok(answer) => Ok(answer),
        Err(error) => match limit_of(error) {
            Some(limit) => Ok(Answer::Undecided(limit)),
            None => Err(OutOfMemory),
        },
    }
}

/// Returns the answer for a first pattern, with its groups, and a second one, which gets its groups here.
fn second_found(
    alloc: Global,
    comparing: Comparing,
    first: &MarkedPattern,
    second: &Pattern,
) -> Result<Answer, OutOfMemory>
    ensures { IfOk result (IsFoundWith comparing.how comparing.groups first.now second.now) }
{
    match mark_pattern(alloc, second, comparing.groups)? {
        MarkedRead::Exceeds(limit) => Ok(Answer::Undecided(limit)),
        MarkedRead::Marked(second) => {
            let answer = decided(alloc, comparing, first, &second);
            drop(second);
            answer
        }
    }
}

/// Returns the answer for two patterns.
fn both_found(
    alloc: Global,
    comparing: Comparing,
    first: &Pattern,
    second: &Pattern,
) -> Result<Answer, OutOfMemory>
    ensures { IfOk result (AreFound comparing.how comparing.groups first.now second.now) }
{
    match mark_pattern(alloc, first, comparing.groups)? {
        MarkedRead::Exceeds(limit) => Ok(Answer::Undecided(limit)),
        MarkedRead::Marked(first) => {
            let answer = second_found(alloc, comparing, &first, second);
            drop(first);
            answer
        }
    }
}

/// Returns the answer for a first pattern and the text of a second one.
fn second_read(
    alloc: Global,
    first: &Pattern,
    second: &str,
    terms: Terms,
    comparing: Comparing,
) -> Result<Answer, OutOfMemory>
    ensures { IfOk result (SecondReadThen grammar_of_finds terms second.now (AreFound comparing.how comparing.groups first.now)) }
{
    match read_pattern(alloc, second, terms, grammar_of_finds())? {
        PatternRead::Refused(fault) => Ok(Answer::Refused {
            which: Which::Second,
            fault,
        }),
        PatternRead::Read(second) => {
            let answer = both_found(alloc, comparing, first, &second);
            drop(second);
            answer
        }
    }
}

/// Returns the answer to a question `spans`. If both patterns are refused, it names the first.
///
/// # Errors
/// [`OutOfMemory`] if there was no memory for the answer.
pub(crate) fn spans_answer(
    alloc: Global,
    first: &str,
    second: &str,
    terms: Terms,
    comparing: Comparing,
) -> Result<Answer, OutOfMemory>
    ensures { IfOk result (BothReadThen grammar_of_finds terms first.now second.now (AreFound comparing.how comparing.groups)) }
{
    match read_pattern(alloc, first, terms, grammar_of_finds())? {
        PatternRead::Refused(fault) => Ok(Answer::Refused {
            which: Which::First,
            fault,
        }),
        PatternRead::Read(first) => {
            let answer = second_read(alloc, &first, second, terms, comparing);
            drop(first);
            answer
        }
    }
}
