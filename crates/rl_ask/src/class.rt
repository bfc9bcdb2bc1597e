//! How questions `class` are answered: by the verdict on the pattern.

ghost use Rattle.std.specs.Prelude.{IfOk};
ghost use Rattle.rl_syntax.specs.Pattern.{universe_of};
ghost use Rattle.rl_pairs.specs.RightVerdict.{RightVerdict};
ghost use Rattle.rl_report.specs.Verdicts.{IsVerdictOf};
ghost use Rattle.rl_asked.specs.Questions.{IsBetween};
ghost use Rattle.rl_asked.specs.declared.limits.TheConstants.{LEAST_LIMIT, MOST_PAIRS};
ghost use Rattle.rl_ask.specs.Grammars.{grammar_in};
ghost use Rattle.rl_ask.specs.Patterns.{ReadThen};
ghost use Rattle.rl_ask.specs.Verdicts.{AreBounds, HasNone, IsClass, verdict_question};

use crate::answer::{Answer, Which};
use crate::grammar::grammar_in;
use crate::patterns::{PatternRead, read_pattern};
use rl_asked::Terms;
use rl_growth::classify;
use rl_lists::OutOfMemory;
use rl_reach::{Bounds, search_bounds};
use rl_syntax::{Limit, LowerError, Mode, Pattern, Verdict, lower};
use std::alloc::Global;

/// Returns the verdict on a pattern in a mode, with at most `pairs` live pairs. It is undecided by size if the pattern is too
/// large to be lowered.
pub(crate) fn verdict_on(
    alloc: Global,
    pattern: &Pattern,
    mode: Mode,
    pairs: u32,
) -> Result<Verdict, OutOfMemory>
    requires pairs { IsBetween LEAST_LIMIT MOST_PAIRS pairs }
    ensures right { IfOk result (RightVerdict (verdict_question mode pairs pattern.now)) }
    ensures texts { IfOk result (IsVerdictOf (universe_of pattern.now)) }
{
    match lower(alloc, pattern, mode) {
        Ok(lowered) => classify(alloc, &lowered, pattern.universe(), pairs),
        Err(LowerError::TooLarge) => Ok(Verdict::Undecided(Limit::Size)),
        Err(LowerError::OutOfMemory) => Err(OutOfMemory),
    }
}

/// Returns what the match of a pattern tells of its search, if the verdict on the search is undecided. Otherwise there are no
/// bounds.
fn bounds_for(
    alloc: Global,
    pattern: &Pattern,
    mode: Mode,
    pairs: u32,
    verdict: &Verdict,
) -> Result<Bounds, OutOfMemory>
    requires pairs { IsBetween LEAST_LIMIT MOST_PAIRS pairs }
    ensures { IfOk result (AreBounds verdict.now mode pairs pattern.now) }
{
    match verdict {
        Verdict::Undecided(_) => match mode {
            Mode::Search => search_bounds(alloc, pattern, pairs),
            Mode::Match | Mode::Fullmatch => Ok(no_bounds()),
        },
        Verdict::Degree(_, _) | Verdict::Expo(_) => Ok(no_bounds()),
    }
}

/// Returns bounds that say nothing.
fn no_bounds() -> Bounds
    ensures { HasNone result }
{
    Bounds {
        at_least: None,
        at_most: None,
    }
}

/// Returns the answer for a pattern.
fn pattern_answer(
    alloc: Global,
    pattern: &Pattern,
    mode: Mode,
    pairs: u32,
) -> Result<Answer, OutOfMemory>
    requires pairs { IsBetween LEAST_LIMIT MOST_PAIRS pairs }
    ensures { IfOk result (IsClass mode pairs pattern.now) }
{
    let verdict = verdict_on(alloc, pattern, mode, pairs)?;
    let bounds = bounds_for(alloc, pattern, mode, pairs, &verdict)?;
    Ok(Answer::Class { verdict, bounds })
}

/// Returns the answer to a question `class`.
///
/// # Errors
/// [`OutOfMemory`] if there was no memory for the answer.
pub(crate) fn class_answer(
    alloc: Global,
    pattern: &str,
    terms: Terms,
    mode: Mode,
    pairs: u32,
) -> Result<Answer, OutOfMemory>
    requires pairs { IsBetween LEAST_LIMIT MOST_PAIRS pairs }
    ensures { IfOk result (ReadThen (grammar_in mode) terms pattern.now (IsClass mode pairs)) }
{
    match read_pattern(alloc, pattern, terms, grammar_in(mode))? {
        PatternRead::Refused(fault) => Ok(Answer::Refused {
            which: Which::Only,
            fault,
        }),
        PatternRead::Read(pattern) => {
            let answer = pattern_answer(alloc, &pattern, mode, pairs);
            drop(pattern);
            answer
        }
    }
}
