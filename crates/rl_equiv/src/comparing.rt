//! Compares two trees. A set pair is two sets of states, one of each of two automata, to which the same word leads; the
//! letters of the word are those of both trees. It shows a difference if the end letter, which comes after the last letter,
//! leads exactly one of its sets to the accepting state.

ghost use Rattle.std.specs.Prelude.{◌≡◌, ◌≤◌, IfOk, IfErr, OnOk};
ghost use Rattle.rl_syntax.specs.Tree.{tree_of, IsOver};
ghost use Rattle.rl_syntax.specs.declared.limits.TheConstants.{MOST_SET_PAIRS};
ghost use Rattle.rl_equiv.specs.SetPairs.{set_pairs};
ghost use Rattle.rl_equiv.specs.Languages.{IsTrueAnswer};
ghost use Rattle.rl_equiv.specs.Limits.{AreWithin, IsExceeded};
ghost use Rattle.rl_equiv.specs.Numbering.{IsAnswer};
ghost use Rattle.rl_equiv.specs.internal.Machines.{pairs_of};
ghost use Rattle.rl_equiv.specs.internal.Searching.{AreReaders, TellsApart};

use crate::baseline::search_on;
use crate::error::SameError;
use crate::joint::Joint;
use crate::sameness::Sameness;
use rl_lists::OutOfMemory;
use rl_prio::Prio;
use rl_ranges::Universe;
use rl_syntax::Re;
use std::alloc::Global;

/// Compares two automata by their first `limit` set pairs, and returns what they show.
fn sameness(alloc: Global, a: &Prio, b: &Prio, limit: u32) -> Result<Sameness, OutOfMemory>
    requires readers { AreReaders a.now b.now }
    requires some { 1 ≤ limit }
    requires low { limit ≤ MOST_SET_PAIRS }
    ensures answer { IfOk result (IsAnswer (pairs_of a.now b.now) limit) }
    ensures apart { IfOk result (TellsApart a.now b.now) }
{
    let (sameness, walk) = search_on(alloc, a, b, None, limit)?;
    drop(walk);
    Ok(sameness)
}

/// Returns whether two trees, each matched whole, span the same texts of the universe `u`, by their first `limit` set pairs: a
/// breadth-first search of the product of both powerset constructions.
///
/// Returns [`Sameness::Apart`], with a text that only one of the trees spans, if one of the first `limit` set pairs shows a
/// difference. Otherwise returns [`Sameness::Equal`], with all their set pairs, which [`check`](crate::check) accepts, if at
/// most `limit` set pairs are reached, and [`Sameness::Passed`] if more are reached, so that nothing is known about the texts.
///
/// `limit` must be from 1 to 20,000, and the sets of both trees must have only codes of the universe.
///
/// # Errors
/// [`SameError::Size`] if one of the trees has more than [`MOST_NODES`](rl_syntax::MOST_NODES) nodes; otherwise
/// [`SameError::Letters`] if their sets tell more than [`MOST_LETTERS`](rl_syntax::MOST_LETTERS) letters apart; otherwise
/// [`SameError::Moves`] if one of the trees has an item list of more than [`MOST_MOVES`](rl_syntax::MOST_MOVES) items.
/// [`SameError::OutOfMemory`] if there is not enough memory.
pub fn same(alloc: Global, a: &Re, b: &Re, u: Universe, limit: u32) -> Result<Sameness, SameError>
    requires first_inside { IsOver u (tree_of a.now) }
    requires second_inside { IsOver u (tree_of b.now) }
    requires some { 1 ≤ limit }
    requires low { limit ≤ MOST_SET_PAIRS }
    ensures within { OnOk result (AreWithin u (tree_of a.now) (tree_of b.now)) }
    ensures exceeded { IfErr result (IsExceeded u (tree_of a.now) (tree_of b.now)) }
    ensures answer { IfOk result (IsAnswer (set_pairs u (tree_of a.now) (tree_of b.now)) limit) }
    ensures told { IfOk result (IsTrueAnswer u (tree_of a.now) (tree_of b.now)) }
{
    let joint = Joint::new(alloc, a, b, u)?;
    let found = sameness(alloc, &joint.first, &joint.second, limit)?;
    Ok(found)
}
