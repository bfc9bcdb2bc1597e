//! The automata of two trees over the letters of both.

ghost use Rattle.std.specs.Prelude.{◌≡◌, ◌<◌, ◌≤◌, ◌++◌, map, All, length, IfOk, IfErr, OnOk};
ghost use Rattle.rl_ranges.specs.Codes.{has, IsInside};
ghost use Rattle.rl_syntax.specs.Tree.{tree_of, size, IsOver};
ghost use Rattle.rl_equiv.specs.SetPairs.{joint_sets, joint_letters};
ghost use Rattle.rl_equiv.specs.Limits.{AreSmall, AreWithin, IsExceeded};
ghost use Rattle.rl_equiv.specs.Joined.{StandTogether};

use crate::error::SameError;
use rl_lists::OutOfMemory;
use rl_prio::{Prio, PrioError, add_letter_sets};
use rl_ranges::{CodeSet, Universe};
use rl_syntax::{Ending, MOST_NODES, Re};
use std::alloc::Global;

/// The automata of two trees, each matched whole, over the letters of both.
#[derive(Drop)]
pub(crate) struct Joint {
    /// The automaton of the first tree.
    pub first: Prio,
    /// The automaton of the second tree.
    pub second: Prio,
}

impl From<PrioError> for SameError {
    ghost use Rattle.std.specs.Prelude.{◌≡◌};
    ghost use Rattle.rl_equiv.specs.Limits.{same_error};

    ghost from_gives = { λ x e. e ≡ same_error x };

    fn from(error: PrioError) -> Self {
        match error {
            PrioError::Letters => SameError::Letters,
            PrioError::Moves => SameError::Moves,
            PrioError::OutOfMemory => SameError::OutOfMemory,
        }
    }
}

/// Returns the sets that tell the codes of two trees apart: those of the trees and those that their guards use.
///
/// # Errors
/// [`OutOfMemory`] if there was no memory for them.
fn letter_sets(alloc: Global, a: &Re, b: &Re) -> Result<Vec<CodeSet>, OutOfMemory>
    ensures sets { IfOk result
        (λ sets. map has sets.items ≡ joint_sets (tree_of a.now) (tree_of b.now)) }
    ensures inside { IfOk result (λ sets. (u : Universe) → IsOver u (tree_of a.now) → IsOver u (tree_of b.now)
        → All (IsInside u) sets.items) }
{
    let mut sets = Vec::new(alloc);
    add_letter_sets(alloc, a, &mut sets)?;
    add_letter_sets(alloc, b, &mut sets)?;
    Ok(sets)
}

impl Joint {
    /// Returns the automata of two trees, over the letters of both, if no limit is exceeded.
    ///
    /// # Errors
    /// [`SameError::Size`], [`SameError::Letters`] or [`SameError::Moves`] for the first limit that is exceeded, and
    /// [`SameError::OutOfMemory`] if there was no memory for the automata.
    pub(crate) fn new(alloc: Global, a: &Re, b: &Re, u: Universe) -> Result<Joint, SameError>
        requires first_inside { IsOver u (tree_of a.now) }
        requires second_inside { IsOver u (tree_of b.now) }
        ensures stand { IfOk result (λ j. StandTogether u (tree_of a.now) (tree_of b.now) j.first j.second) }
        ensures within { OnOk result (AreWithin u (tree_of a.now) (tree_of b.now)) }
        ensures exceeded { IfErr result (IsExceeded u (tree_of a.now) (tree_of b.now)) }
    {
        if a.nodes() > MOST_NODES || b.nodes() > MOST_NODES {
            return Err(SameError::Size);
        }
        let sets = letter_sets(alloc, a, b)?;
        let first = Prio::build_over(alloc, a, Ending::AtEnd, u, &sets)?;
        let second = Prio::build_beside(alloc, &first, b, Ending::AtEnd, u)?;
        // Reading the numbers of states shows that both are whole automata.
        let _states = (first.states(), second.states());
        Ok(Joint { first, second })
    }
}
