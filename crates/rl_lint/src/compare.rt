//! The action `compare`. It writes how the texts that two patterns match are related. The limits bound the nodes of their
//! trees, the letters (classes of characters that they don't distinguish), and the moves of their automata.
ghost use Rattle.std.specs.Prelude.{◌≡◌, false, IfErr, IfOk};
ghost use Rattle.std.specs.Str.{chars};
ghost use Rattle.rl_ranges.specs.declared.universe.Universe.TheVariants.{Str};
ghost use Rattle.rl_syntax.specs.Pattern.{pattern_ending, pattern_tree, universe_of};
ghost use Rattle.rl_syntax.specs.Tree.{IsOver, tree_of};
ghost use Rattle.rl_compare.specs.Matched.{matched_tree};
ghost use Rattle.rl_compare.specs.Exceeded.{IsCompareExceeded};
ghost use Rattle.rl_lint.specs.Endings.{writes};
ghost use Rattle.rl_lint.specs.internal.Plans.{ending_of};
ghost use Rattle.rl_lint.specs.Messages.{undecided_line};
ghost use Rattle.rl_lint.specs.CompareEnding.{CompareEnds, compared_text, relation_of, is_difference};
ghost use Rattle.rl_lint.specs.internal.Compared.{AreTexts, IsFound, ExceedsSize};
ghost use Rattle.rl_lint.specs.Patterns.{ParsesThen};

use crate::messages::undecided_line;
use crate::pattern_argument::{PatternArgument, parse_argument};
use crate::plan::Plan;
use crate::relation::{Relation, compared_text};
use rl_compare::{CompareError, Compared, compare};
use rl_lists::OutOfMemory;
use rl_syntax::{Limit, LowerError, Lowered, MOST_SET_PAIRS, Mode, Pattern, Universe, lower};
use std::alloc::Global;

/// Returns a text pattern lowered in a mode.
///
/// # Errors
/// [`CompareError::Size`] if the pattern has more than 4,000 nodes; [`CompareError::OutOfMemory`] if memory runs out.
fn lowered(alloc: Global, pattern: &Pattern, mode: Mode) -> Result<Lowered, CompareError>
    requires { universe_of pattern.now ≡ Str }
    ensures tree { IfOk result (λ l. tree_of l.tree ≡ pattern_tree pattern.now mode) }
    ensures ending { IfOk result (λ l. l.ending ≡ pattern_ending pattern.now mode) }
    ensures over { IfOk result (λ l. IsOver Str (tree_of l.tree)) }
    ensures passed { IfErr result (λ e. ExceedsSize (pattern_tree pattern.now mode) e) }
{
    match lower(alloc, pattern, mode) {
        Ok(lowered) => Ok(lowered),
        Err(LowerError::TooLarge) => Err(CompareError::Size),
        Err(LowerError::OutOfMemory) => Err(CompareError::OutOfMemory),
    }
}

/// Compares what two text patterns match in a mode, and returns the texts that were found.
///
/// # Errors
/// [`CompareError`] names the first limit that one of the two matched trees exceeds, or says that memory runs out. The limit
/// of letters applies to both trees together.
fn compared(
    alloc: Global,
    first: &Pattern,
    second: &Pattern,
    mode: Mode,
) -> Result<Compared, CompareError>
    requires first_of_text { universe_of first.now ≡ Str }
    requires second_of_text { universe_of second.now ≡ Str }
    ensures found { IfOk result (IsFound (pattern_tree first.now mode) (pattern_ending first.now mode) (pattern_tree second.now mode) (pattern_ending second.now mode)) }
    ensures passed { IfErr result (IsCompareExceeded Str (matched_tree Str (pattern_tree first.now mode) (pattern_ending first.now mode))
        (matched_tree Str (pattern_tree second.now mode) (pattern_ending second.now mode))) }
{
    let first = lowered(alloc, first, mode)?;
    match lowered(alloc, second, mode) {
        Ok(second) => compare(alloc, first, second, Universe::Str, MOST_SET_PAIRS),
        Err(error) => {
            drop(first);
            Err(error)
        }
    }
}

/// Returns the plan to write the line on an exceeded limit, which isn't a finding. The limit is never the one on live pairs.
///
/// # Errors
/// [`OutOfMemory`] if memory runs out.
fn limit_plan(alloc: Global, limit: Limit) -> Result<Plan, OutOfMemory>
    ensures { IfOk result (λ plan. ending_of plan ≡ writes (undecided_line 0 limit) false false) }
{
    let text = undecided_line(alloc, 0, limit)?;
    Ok(Plan::Writes {
        text,
        finding: false,
        failed: false,
    })
}

/// Returns the plan to write the lines on the result of a comparison.
///
/// # Errors
/// [`OutOfMemory`] if memory runs out.
fn compared_plan(alloc: Global, compared: &Compared) -> Result<Plan, OutOfMemory>
    requires { AreTexts compared.now }
    ensures { IfOk result (λ plan. ending_of plan ≡ writes (compared_text compared.now) (is_difference (relation_of compared.now)) false) }
{
    let relation = Relation::of(compared);
    let text = compared_text(alloc, relation, compared)?;
    Ok(Plan::Writes {
        text,
        finding: relation.is_difference(),
        failed: false,
    })
}

/// Returns the plan of `compare` for two parsed text patterns in a mode.
///
/// # Errors
/// [`OutOfMemory`] if memory runs out.
fn patterns_plan(
    alloc: Global,
    first: &Pattern,
    second: &Pattern,
    mode: Mode,
) -> Result<Plan, OutOfMemory>
    requires first_of_text { universe_of first.now ≡ Str }
    requires second_of_text { universe_of second.now ≡ Str }
    ensures { IfOk result (λ plan. CompareEnds (pattern_tree first.now mode) (pattern_ending first.now mode)
        (pattern_tree second.now mode) (pattern_ending second.now mode) (ending_of plan)) }
{
    match compared(alloc, first, second, mode) {
        Ok(compared) => {
            let plan = compared_plan(alloc, &compared);
            drop(compared);
            plan
        }
        Err(CompareError::Size) => limit_plan(alloc, Limit::Size),
        Err(CompareError::Letters) => limit_plan(alloc, Limit::Letters),
        Err(CompareError::Moves) => limit_plan(alloc, Limit::Moves),
        Err(CompareError::OutOfMemory) => Err(OutOfMemory),
    }
}

/// Returns the plan of `compare` for a parsed first pattern and the argument that gives the second one.
///
/// # Errors
/// [`OutOfMemory`] if memory runs out.
fn second_plan(
    alloc: Global,
    first: &Pattern,
    second: &str,
    mode: Mode,
) -> Result<Plan, OutOfMemory>
    requires { universe_of first.now ≡ Str }
    ensures { IfOk result (λ plan. ParsesThen (chars second.now) mode
        (CompareEnds (pattern_tree first.now mode) (pattern_ending first.now mode)) (ending_of plan)) }
{
    match parse_argument(alloc, second)? {
        PatternArgument::Refused(message) => Ok(Plan::Refuses(message)),
        PatternArgument::Parsed(second) => {
            let plan = patterns_plan(alloc, first, &second, mode);
            drop(second);
            plan
        }
    }
}

/// Returns the plan of `compare`. If the reader of patterns refuses `first`, the plan refuses it; otherwise, if the reader
/// refuses `second`, it refuses that. Otherwise it writes the line on the first limit that the patterns exceed or, if they
/// exceed none, how the texts that they match in `mode` are related. Only a relation that says that they don't match the same
/// texts is a finding. That the search for a difference gave up isn't one.
///
/// # Errors
/// [`OutOfMemory`] if memory runs out.
pub fn compare_plan(
    alloc: Global,
    first: &str,
    second: &str,
    mode: Mode,
) -> Result<Plan, OutOfMemory>
    ensures { IfOk result (λ plan. ParsesThen (chars first.now) mode (λ s e. ParsesThen (chars second.now) mode (CompareEnds s e)) (ending_of plan)) }
{
    match parse_argument(alloc, first)? {
        PatternArgument::Refused(message) => Ok(Plan::Refuses(message)),
        PatternArgument::Parsed(first) => {
            let plan = second_plan(alloc, &first, second, mode);
            drop(first);
            plan
        }
    }
}
