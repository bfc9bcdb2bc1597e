//! Finds the sets of a walk that hold a state of a branch, by a table that says for each state which sets hold it.

ghost use Rattle.std.specs.Prelude.{◌≡◌, ◌<◌, ◌≤◌, length, All, IfOk};
ghost use Rattle.rl_sets.specs.Walk.{IsMadeFor};
ghost use Rattle.rl_trim.specs.Reached.{AreHolders};
ghost use Rattle.rl_trim.specs.internal.Noting.{IsNoting, IsWide, AreTouched};

use crate::branch::Branch;
use rl_lanes::{BitRow, BitTable};
use rl_lists::OutOfMemory;
use rl_prio::Prio;
use rl_sets::SetWalk;
use std::alloc::Global;

/// Notes in the table, which has a row for each state and in it a bit for each set, that the set with the number `set` holds
/// each of `states`.
fn note(table: &mut BitTable, states: &[u32], set: u32)
    requires rows { All (λ q. q < length table.old) states.now }
    requires wide { IsWide set table.old }
    ensures { IsNoting table.old table.new states.now set }
{
    for state in states {
        table.set(*state as usize, set as usize, true);
    }
}

/// Returns a table that has a row for each state, with a bit for each of the first `count` sets of the walk, which is set if
/// the set holds the state. The walk must have at least `count` sets.
pub(crate) fn holders_of(
    alloc: Global,
    a: &Prio,
    walk: &SetWalk,
    count: u32,
) -> Result<BitTable, OutOfMemory>
    requires made { IsMadeFor walk.now a.now }
    requires few { count ≤ length walk.now.sets }
    ensures { IfOk result (AreHolders a.now walk.now count) }
{
    let mut table = BitTable::zeros(alloc, a.states() as usize, count as usize)?;
    for set in 0..count {
        let members = walk.members(set)?;
        note(&mut table, members.as_slice(), set);
    }
    Ok(table)
}

/// Returns a row with a bit for each of the first `count` sets of the walk, which is set if the set holds a state of the
/// branch, that is, a state that isn't kept. `holders` is the table of these sets that [`holders_of`] returns.
pub(crate) fn touched_sets(
    alloc: Global,
    branch: &Branch,
    holders: &BitTable,
    walk: &SetWalk,
    count: u32,
) -> Result<BitRow, OutOfMemory>
    requires made { IsMadeFor walk.now branch.now.automaton.now }
    requires few { count ≤ length walk.now.sets }
    requires holders { AreHolders branch.now.automaton.now walk.now count holders.now }
    ensures { IfOk result (AreTouched branch.now.keep.now walk.now count) }
{
    let mut touched = BitRow::zeros(alloc, count as usize)?;
    holders.image(&branch.gone, &mut touched);
    Ok(touched)
}
