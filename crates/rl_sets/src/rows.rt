//! Rows of bits for sets of states: the bit with the index `q` says whether the state `q` is a member.

ghost use Rattle.std.specs.Prelude.{◌≡◌, ◌-◌, ◌<◌, ◌≤◌, ◌^◌, All, [], length, slice_index_or, slice_set, IsTrue, IfOk};
ghost use Rattle.rl_prio.specs.Automaton.{letters_count};
ghost use Rattle.rl_sets.specs.Rows.{members_of, marked};
ghost use Rattle.rl_sets.specs.internal.Moves.{targets_of, MoveAlike};

use rl_lanes::{BitRow, BitTable};
use rl_lists::{Items, Members, OutOfMemory};
use rl_prio::Prio;
use std::alloc::Global;

/// Sets the bits of the given states in a row, which must have a bit for each of them. The other bits stay as they are.
pub(crate) fn mark(row: &mut BitRow, states: &[u32])
    requires { All (λ q. q < length row.old) states.now }
    ensures marked { row.new ≡ marked row.old states.now }
    ensures len { length row.new ≡ length row.old }
{
    for q in states {
        row.set(*q as usize, true);
    }
}

/// Sets in `row` the bits of the states to which some member of a set moves on a letter or the end letter. The other bits stay
/// as they are. The set is given by its row.
pub(crate) fn mark_moves(row: &mut BitRow, a: &Prio, set: &BitRow, letter: u32)
    requires letter_in { letter ≤ letters_count a.now }
    requires set_in { length set.now ≡ a.now.states }
    requires wide { length row.old ≡ a.now.states }
    ensures { row.new ≡ marked row.old (targets_of a.now (members_of set.now) letter) }
{
    // Reading the number of states tells the prover that it fits in 32 bits.
    let _states = a.states();
    let mut from = 0;
    while let Some(state) = set.next_from(from) {
        mark(row, a.moves(state as u32, letter));
        from = state + 1;
    }
}

/// Returns whether each member of a set has the same moves, in the same order, on `letter` as on the letter before it. The set
/// is given by its row; `letter` is at least 1 and may be the end letter.
pub(crate) fn move_alike(a: &Prio, set: &BitRow, letter: u32) -> bool
    requires letter_in { letter ≤ letters_count a.now }
    requires later { 0 < letter }
    requires set_in { length set.now ≡ a.now.states }
    ensures { IsTrue result → MoveAlike a.now set.now (length set.now) (letter - 1) letter }
{
    // Reading the number of states tells the prover that it fits in 32 bits.
    let _states = a.states();
    let mut from = 0;
    while let Some(state) = set.next_from(from) {
        if a.moves(state as u32, letter - 1) != a.moves(state as u32, letter) {
            return false;
        }
        from = state + 1;
    }
    true
}

/// Sets the bits of the given states in the row with the index `at` of a table. The row must have a bit for each of them.
pub(crate) fn mark_row(table: &mut BitTable, at: usize, states: &[u32])
    requires row_in { at < length table.old }
    requires states_in { All (λ q. q < length (slice_index_or table.old at [])) states.now }
    ensures { table.new ≡ slice_set table.old at (marked (slice_index_or table.old at []) states.now) }
{
    for q in states {
        table.set(at, *q as usize, true);
    }
}

/// Returns the members of the set that a row represents, in increasing order.
pub(crate) fn members(alloc: Global, row: &BitRow) -> Result<Members, OutOfMemory>
    requires { length row.now < 2 ^ 32 }
    ensures { IfOk result (λ m. m ≡ members_of row.now) }
{
    let mut members = Vec::with_capacity(alloc, row.count())?;
    let mut from = 0;
    while let Some(state) = row.next_from(from) {
        members.push(state as u32)?;
        from = state + 1;
    }
    Ok(Items::from_vec(members))
}
