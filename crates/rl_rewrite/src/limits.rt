//! The limits on the tree of a body in the mode fullmatch: on its nodes, on its letters, and on its moves, which are measured
//! by the length of its longest item list. An item list is the list of what a matcher can try next at one point of the tree.

ghost use Rattle.std.specs.Prelude.{◌≡◌, ◌≤◌, IfOk, IfErr, OnOk};
ghost use Rattle.rl_syntax.specs.Pattern.{body_of, universe_of, pattern_tree};
ghost use Rattle.rl_syntax.specs.Lowering.{lowered};
ghost use Rattle.rl_syntax.specs.Tree.{tree_of, size, IsOver};
ghost use Rattle.rl_syntax.specs.declared.re.Mode.TheVariants.{Fullmatch};
ghost use Rattle.rl_syntax.specs.declared.verdict.Limit.{Limit as AnyLimit};
ghost use Rattle.rl_rewrite.specs.Verdicts.{IsFirstExceeded};
ghost use Rattle.rl_equiv.specs.Limits.{IsWithin};
ghost use Rattle.rl_rewrite.specs.declared.suggesting.SuggestError.TheVariants as error;
ghost use Rattle.rl_syntax.specs.declared.limits.TheConstants.{MOST_NODES};

use crate::suggesting::SuggestError;
use rl_equiv::{Baseline, SameError};
use rl_syntax::{Limit, LowerError, Mode, Pattern, Re, lower};
use std::alloc::Global;

/// Returns the tree of a pattern's body in the mode fullmatch. Fails with [`SuggestError::Limit`] and [`Limit::Size`] if it
/// has more than `MOST_NODES` nodes, and with [`SuggestError::OutOfMemory`] if there is not enough memory.
fn small_tree(alloc: Global, p: &Pattern) -> Result<Re, SuggestError>
    ensures tree { IfOk result (λ re. tree_of re ≡ pattern_tree p.now Fullmatch) }
    ensures small { IfOk result (λ re. size (tree_of re) ≤ MOST_NODES) }
    ensures over { IfOk result (λ re. IsOver (universe_of p.now) (tree_of re)) }
    ensures passed { IfErr result (λ e. (l : AnyLimit) → e ≡ error.Limit l → IsFirstExceeded (universe_of p.now) (pattern_tree p.now Fullmatch) l) }
{
    match lower(alloc, p, Mode::Fullmatch) {
        Ok(lowered) => Ok(lowered.tree),
        Err(LowerError::TooLarge) => Err(SuggestError::Limit(Limit::Size)),
        Err(LowerError::OutOfMemory) => Err(SuggestError::OutOfMemory),
    }
}

/// Returns the tree of a pattern's body in the mode fullmatch, prepared for comparisons with other trees. It exceeds no limit.
///
/// # Errors
/// [`SuggestError::Limit`], with the first limit that the tree exceeds, if there is one; [`SuggestError::OutOfMemory`] if
/// there is not enough memory.
pub(crate) fn baseline_of(alloc: Global, p: &Pattern) -> Result<Baseline, SuggestError>
    ensures tree { IfOk result (λ b. tree_of b.tree ≡ lowered (body_of p.now)) }
    ensures universe { IfOk result (λ b. b.universe ≡ universe_of p.now) }
    ensures within { OnOk result (IsWithin (universe_of p.now) (lowered (body_of p.now))) }
    ensures passed { IfErr result (λ e. (l : AnyLimit) → e ≡ error.Limit l → IsFirstExceeded (universe_of p.now) (pattern_tree p.now Fullmatch) l) }
{
    let tree = small_tree(alloc, p)?;
    match Baseline::new(alloc, tree, p.universe()) {
        Ok(base) => Ok(base),
        Err(SameError::Size) => Err(SuggestError::Limit(Limit::Size)),
        Err(SameError::Letters) => Err(SuggestError::Limit(Limit::Letters)),
        Err(SameError::Moves) => Err(SuggestError::Limit(Limit::Moves)),
        Err(SameError::OutOfMemory) => Err(SuggestError::OutOfMemory),
    }
}
