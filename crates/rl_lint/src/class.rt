//! The action `class`. It writes the verdict on its pattern, which says how the cost of matching grows with the length of the
//! text. A live pair is a state of the pattern's automaton with the set of states that were tried before it.
ghost use Rattle.std.specs.Prelude.{◌≡◌, ◌≤◌, ◌++◌, IfOk};
ghost use Rattle.std.specs.Str.{chars};
ghost use Rattle.rl_ranges.specs.declared.universe.Universe.TheVariants.{Str};
ghost use Rattle.rl_syntax.specs.Pattern.{pattern_ending, pattern_tree, universe_of};
ghost use Rattle.rl_pairs.specs.RightVerdict.{RightVerdict};
ghost use Rattle.rl_report.specs.Verdicts.{IsVerdictOf, IsFamilyOf, family_text_line};
ghost use Rattle.rl_lint.specs.internal.Plans.{ending_of};
ghost use Rattle.rl_lint.specs.ClassEnding.{ClassEnds, class_text};
ghost use Rattle.rl_lint.specs.Patterns.{ParsesThen, text_question};

use crate::pattern_argument::{PatternArgument, parse_argument};
use crate::plan::Plan;
use rl_growth::classify;
use rl_lists::{Bytes, OutOfMemory};
use rl_report::{family_line, is_finding, verdict_line};
use rl_syntax::{Family, Limit, LowerError, Mode, Pattern, Universe, Verdict, lower};
use std::alloc::Global;

/// Returns a line with the line of a family appended.
fn with_family(alloc: Global, line: Bytes, family: &Family) -> Result<Bytes, OutOfMemory>
    requires { IsFamilyOf Str family.now }
    ensures { IfOk result (λ text. text ≡ line ++ family_text_line Str family.now) }
{
    let mut text = line.into_vec();
    let Ok(more) = family_line(alloc, family, Universe::Str) else {
        drop(text);
        return Err(OutOfMemory);
    };
    let appended = text.extend_from_slice(more.as_slice());
    drop(more);
    appended?;
    Ok(Bytes::from_vec(text))
}

/// Returns the lines that `class` writes for a verdict on a text pattern.
///
/// # Errors
/// [`OutOfMemory`] if memory runs out.
fn class_text(alloc: Global, verdict: &Verdict, max_pairs: u32) -> Result<Bytes, OutOfMemory>
    requires { IsVerdictOf Str verdict.now }
    ensures { IfOk result (λ text. text ≡ class_text max_pairs verdict.now) }
{
    let line = verdict_line(alloc, verdict, max_pairs)?;
    match verdict {
        Verdict::Degree(_, family) | Verdict::Expo(family) => with_family(alloc, line, family),
        Verdict::Undecided(_) => Ok(line),
    }
}

/// Returns the verdict on a text pattern in a mode, with at most `max_pairs` live pairs.
///
/// # Errors
/// [`OutOfMemory`] if memory runs out.
fn verdict_on(
    alloc: Global,
    pattern: &Pattern,
    mode: Mode,
    max_pairs: u32,
) -> Result<Verdict, OutOfMemory>
    requires of_text { universe_of pattern.now ≡ Str }
    requires some { 1 ≤ max_pairs }
    requires few { max_pairs ≤ 1000 }
    ensures { IfOk result (RightVerdict (text_question max_pairs (pattern_tree pattern.now mode) (pattern_ending pattern.now mode))) }
{
    match lower(alloc, pattern, mode) {
        Ok(lowered) => {
            let verdict = classify(alloc, &lowered, Universe::Str, max_pairs);
            drop(lowered);
            verdict
        }
        Err(LowerError::TooLarge) => Ok(Verdict::Undecided(Limit::Size)),
        Err(LowerError::OutOfMemory) => Err(OutOfMemory),
    }
}

/// Returns the plan of `class` for a parsed text pattern in a mode.
///
/// # Errors
/// [`OutOfMemory`] if memory runs out.
fn pattern_plan(
    alloc: Global,
    pattern: &Pattern,
    mode: Mode,
    max_degree: u32,
    max_pairs: u32,
) -> Result<Plan, OutOfMemory>
    requires of_text { universe_of pattern.now ≡ Str }
    requires some { 1 ≤ max_pairs }
    requires few { max_pairs ≤ 1000 }
    ensures { IfOk result (λ plan. ClassEnds max_degree max_pairs
        (pattern_tree pattern.now mode) (pattern_ending pattern.now mode) (ending_of plan)) }
{
    let verdict = verdict_on(alloc, pattern, mode, max_pairs)?;
    let finding = is_finding(&verdict, max_degree);
    let text = class_text(alloc, &verdict, max_pairs);
    drop(verdict);
    Ok(Plan::Writes {
        text: text?,
        finding,
        failed: false,
    })
}

/// Returns the plan of `class`: to refuse a pattern that the reader of patterns refuses; otherwise to write the verdict on the
/// pattern in `mode` and, unless it is undecided, its family. It has a finding if the verdict is exponential or a degree above
/// `max_degree`. At most `max_pairs` live pairs are examined, and `max_pairs` must be from 1 to 1,000.
///
/// # Errors
/// [`OutOfMemory`] if memory runs out.
pub fn class_plan(
    alloc: Global,
    pattern: &str,
    mode: Mode,
    max_degree: u32,
    max_pairs: u32,
) -> Result<Plan, OutOfMemory>
    requires some { 1 ≤ max_pairs }
    requires few { max_pairs ≤ 1000 }
    ensures { IfOk result (λ plan. ParsesThen (chars pattern.now) mode (ClassEnds max_degree max_pairs) (ending_of plan)) }
{
    match parse_argument(alloc, pattern)? {
        PatternArgument::Refused(message) => Ok(Plan::Refuses(message)),
        PatternArgument::Parsed(pattern) => {
            let plan = pattern_plan(alloc, &pattern, mode, max_degree, max_pairs);
            drop(pattern);
            plan
        }
    }
}
