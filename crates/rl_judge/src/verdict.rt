//! The verdict on a pattern. It says how the cost of matching grows with the length of the text. A live pair is a state of the
//! pattern's automaton with the set of states that were tried before it.
ghost use Rattle.std.specs.Prelude.{◌≤◌, IfOk};
ghost use Rattle.rl_syntax.specs.Pattern.{universe_of};
ghost use Rattle.rl_pairs.specs.RightVerdict.{RightVerdict};
ghost use Rattle.rl_report.specs.Verdicts.{IsVerdictOf};
ghost use Rattle.rl_judge.specs.Analysis.{question_of};

use crate::options::AnalysisOptions;
use rl_growth::classify;
use rl_lists::OutOfMemory;
use rl_syntax::{Limit, LowerError, Pattern, Verdict, lower};
use std::alloc::Global;

/// Returns the verdict on a pattern in the mode of the options, with their limit of live pairs, which must be from 1 to 1,000.
/// It is `undecided` by size if the pattern is too large to be lowered.
///
/// # Errors
/// [`OutOfMemory`] if memory runs out.
pub fn verdict_on(
    alloc: Global,
    pattern: &Pattern,
    options: AnalysisOptions,
) -> Result<Verdict, OutOfMemory>
    requires some { 1 ≤ options.max_pairs }
    requires few { options.max_pairs ≤ 1000 }
    ensures right { IfOk result (RightVerdict (question_of pattern.now options)) }
    ensures texts { IfOk result (IsVerdictOf (universe_of pattern.now)) }
{
    match lower(alloc, pattern, options.mode) {
        Ok(lowered) => classify(alloc, &lowered, pattern.universe(), options.max_pairs),
        Err(LowerError::TooLarge) => Ok(Verdict::Undecided(Limit::Size)),
        Err(LowerError::OutOfMemory) => Err(OutOfMemory),
    }
}
