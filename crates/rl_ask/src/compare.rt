//! How questions `compare` are answered: by a text of each region, which are the texts that only the first pattern, only the
//! second, or both match. A set pair is a set of states of the first automaton with a set of states of the second.

ghost use Rattle.std.specs.Prelude.{◌≡◌, IfErr, IfOk};
ghost use Rattle.rl_syntax.specs.Pattern.{pattern_ending, pattern_tree, universe_of};
ghost use Rattle.rl_syntax.specs.Tree.{IsOver, tree_of};
ghost use Rattle.rl_compare.specs.Exceeded.{IsCompareExceeded};
ghost use Rattle.rl_asked.specs.Questions.{IsBetween};
ghost use Rattle.rl_asked.specs.declared.limits.TheConstants.{LEAST_LIMIT, MOST_COMPARE_LIMIT};
ghost use Rattle.rl_ask.specs.Comparisons.{AreCompared, IsComparison, matched_in};
ghost use Rattle.rl_ask.specs.Grammars.{grammar_in};
ghost use Rattle.rl_ask.specs.Patterns.{BothReadThen, SecondReadThen};
ghost use Rattle.rl_ask.specs.internal.Sizes.{ExceedsSize};

use crate::answer::{Answer, Limit, Which};
use crate::grammar::grammar_in;
use crate::patterns::{PatternRead, read_pattern};
use rl_asked::Terms;
use rl_compare::{CompareError, Compared, compare};
use rl_lists::OutOfMemory;
use rl_syntax::{LowerError, Lowered, Mode, Pattern, lower};
use std::alloc::Global;

/// Returns a pattern lowered in a mode.
fn lowered(alloc: Global, pattern: &Pattern, mode: Mode) -> Result<Lowered, CompareError>
    ensures tree { IfOk result (λ l. tree_of l.tree ≡ pattern_tree pattern.now mode) }
    ensures ending { IfOk result (λ l. l.ending ≡ pattern_ending pattern.now mode) }
    ensures over { IfOk result (λ l. IsOver (universe_of pattern.now) (tree_of l.tree)) }
    ensures exceeded { IfErr result (ExceedsSize (pattern_tree pattern.now mode)) }
{
    match lower(alloc, pattern, mode) {
        Ok(lowered) => Ok(lowered),
        Err(LowerError::TooLarge) => Err(CompareError::Size),
        Err(LowerError::OutOfMemory) => Err(CompareError::OutOfMemory),
    }
}

/// Compares what two patterns of one universe match in a mode, by at most `limit` set pairs.
///
/// # Errors
/// [`CompareError`] names the first limit that one of the two matched trees exceeds, or says that memory runs out.
fn compared(
    alloc: Global,
    first: &Pattern,
    second: &Pattern,
    mode: Mode,
    limit: u32,
) -> Result<Compared, CompareError>
    requires universe { universe_of second.now ≡ universe_of first.now }
    requires limit { IsBetween LEAST_LIMIT MOST_COMPARE_LIMIT limit }
    ensures found { IfOk result (IsComparison mode limit first.now second.now) }
    ensures exceeded { IfErr result (IsCompareExceeded (universe_of first.now) (matched_in (universe_of first.now) mode first.now) (matched_in (universe_of first.now) mode second.now)) }
{
    let universe = first.universe();
    let first = lowered(alloc, first, mode)?;
    match lowered(alloc, second, mode) {
        Ok(second) => compare(alloc, first, second, universe, limit),
        Err(error) => {
            drop(first);
            Err(error)
        }
    }
}

/// Returns the answer for two patterns.
fn both_compared(
    alloc: Global,
    first: &Pattern,
    second: &Pattern,
    mode: Mode,
    limit: u32,
) -> Result<Answer, OutOfMemory>
    requires universe { universe_of second.now ≡ universe_of first.now }
    requires limit { IsBetween LEAST_LIMIT MOST_COMPARE_LIMIT limit }
    ensures { IfOk result (AreCompared mode limit first.now second.now) }
{
    match compared(alloc, first, second, mode, limit) {
        Ok(compared) => Ok(Answer::Compared(compared)),
        Err(CompareError::Size) => Ok(Answer::Undecided(Limit::Size)),
        Err(CompareError::Letters) => Ok(Answer::Undecided(Limit::Letters)),
        Err(CompareError::Moves) => Ok(Answer::Undecided(Limit::Moves)),
        Err(CompareError::OutOfMemory) => Err(OutOfMemory),
    }
}

/// Returns the answer for a first pattern and the text of a second one.
fn second_compared(
    alloc: Global,
    first: &Pattern,
    second: &str,
    terms: Terms,
    mode: Mode,
    limit: u32,
) -> Result<Answer, OutOfMemory>
    requires universe { universe_of first.now ≡ terms.universe }
    requires limit { IsBetween LEAST_LIMIT MOST_COMPARE_LIMIT limit }
    ensures { IfOk result (SecondReadThen (grammar_in mode) terms second.now (AreCompared mode limit first.now)) }
{
    match read_pattern(alloc, second, terms, grammar_in(mode))? {
        PatternRead::Refused(fault) => Ok(Answer::Refused {
            which: Which::Second,
            fault,
        }),
        PatternRead::Read(second) => {
            let answer = both_compared(alloc, first, &second, mode, limit);
            drop(second);
            answer
        }
    }
}

/// Returns the answer to a question `compare`. If both patterns are refused, it names the first.
///
/// # Errors
/// [`OutOfMemory`] if there was no memory for the answer.
pub(crate) fn compare_answer(
    alloc: Global,
    first: &str,
    second: &str,
    terms: Terms,
    mode: Mode,
    limit: u32,
) -> Result<Answer, OutOfMemory>
    requires limit { IsBetween LEAST_LIMIT MOST_COMPARE_LIMIT limit }
    ensures { IfOk result (BothReadThen (grammar_in mode) terms first.now second.now (AreCompared mode limit)) }
{
    match read_pattern(alloc, first, terms, grammar_in(mode))? {
        PatternRead::Refused(fault) => Ok(Answer::Refused {
            which: Which::First,
            fault,
        }),
        PatternRead::Read(first) => {
            let answer = second_compared(alloc, &first, second, terms, mode, limit);
            drop(first);
            answer
        }
    }
}
