//! Trials of branches: each compares the languages of a body with and without the branch.

ghost use Rattle.std.specs.Prelude.{◌≡◌, ◌≤◌, IfOk};
ghost use Rattle.rl_syntax.specs.Tree.{tree_of, IsOver};
ghost use Rattle.rl_equiv.specs.Bases.{DistinguishesNoMore};
ghost use Rattle.rl_equiv.specs.Limits.{AreWithin, IsWithin};
ghost use Rattle.rl_rewrite.specs.Verdicts.{IsVerdict};
ghost use Rattle.rl_rewrite.specs.internal.Trials.{verdict_of, IsTrueTrial};
ghost use Rattle.rl_syntax.specs.declared.limits.TheConstants.{MOST_SET_PAIRS};

use rl_equiv::{Baseline, SameError, Sameness};
use rl_lists::OutOfMemory;
use rl_ranges::Universe;
use rl_syntax::Re;
use std::alloc::Global;

/// The outcome of a trial.
#[derive(Clone, Copy)]
pub(crate) enum Trial {
    /// The languages are equal.
    Equal,
    /// The languages differ.
    Apart,
    /// The limit on set pairs was exceeded, so nothing is known.
    Exceeded,
}

/// Tries a branch by comparing `before`, the tree of a body with it, and `after`, the tree without it, and returns the
/// outcome. Neither tree may exceed a limit, and the sets of `after` must distinguish no codes that the sets of `before` don't
/// distinguish. At most `limit` set pairs are looked at; `limit` must be from 1 to `MOST_SET_PAIRS`.
pub(crate) fn run_trial(
    alloc: Global,
    before: &mut Baseline,
    after: &Re,
    limit: u32,
) -> Result<Trial, OutOfMemory>
    requires inside { IsOver before.old.universe (tree_of after.now) }
    requires letters { DistinguishesNoMore (tree_of before.old.tree) (tree_of after.now) }
    requires within { AreWithin before.old.universe (tree_of before.old.tree) (tree_of after.now) }
    requires some { 1 ≤ limit }
    requires low { limit ≤ MOST_SET_PAIRS }
    ensures verdict { IfOk result (λ t. IsVerdict before.old.universe limit (tree_of before.old.tree) (tree_of after.now) (verdict_of t)) }
    ensures told { IfOk result (IsTrueTrial before.old.universe (tree_of before.old.tree) (tree_of after.now)) }
    ensures unchanged { before.new ≡ before.old }
{
    match before.compare(alloc, after, limit) {
        Ok(Sameness::Equal(relation)) => {
            drop(relation);
            Ok(Trial::Equal)
        }
        Ok(Sameness::Apart(text)) => {
            drop(text);
            Ok(Trial::Apart)
        }
        Ok(Sameness::Passed) => Ok(Trial::Exceeded),
        Err(SameError::OutOfMemory) => Err(OutOfMemory),
        Err(SameError::Size | SameError::Letters | SameError::Moves) => unreachable!(),
    }
}

/// Returns a tree, which must not exceed a limit, prepared for comparisons with other trees.
pub(crate) fn next_baseline(
    alloc: Global,
    tree: Re,
    universe: Universe,
) -> Result<Baseline, OutOfMemory>
    requires inside { IsOver universe (tree_of tree) }
    requires within { IsWithin universe (tree_of tree) }
    ensures { IfOk result (λ b. b ≡ record { tree = tree; universe = universe }) }
{
    match Baseline::new(alloc, tree, universe) {
        Ok(base) => Ok(base),
        Err(SameError::OutOfMemory) => Err(OutOfMemory),
        Err(SameError::Size | SameError::Letters | SameError::Moves) => unreachable!(),
    }
}
