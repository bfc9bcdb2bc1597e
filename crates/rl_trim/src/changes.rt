//! Finds the changes of states: the letters on which a state has other moves than on the letter before. The first letter,
//! which has none before it, and the end letter are no changes.

ghost use Rattle.std.specs.Prelude.{◌≡◌, ◌<◌, suc, false, length, slice_index_or, IfOk};
ghost use Rattle.rl_sets.specs.Walk.{set_at, IsMadeFor};
ghost use Rattle.rl_trim.specs.Changes.{IsWide, AreRows, AreChanges, AreChangesIf};
ghost use Rattle.rl_trim.specs.internal.Changing.{IsSameOn};
ghost use Rattle.rl_trim.specs.internal.Quick.{IsInside};

use crate::key::Key;
use rl_lanes::{BitRow, BitTable};
use rl_lists::OutOfMemory;
use rl_prio::Prio;
use rl_sets::SetWalk;
use std::alloc::Global;

/// The changes of all states of an automaton.
#[derive(Drop)]
pub(crate) struct Changes {
    /// A row for each state, in the order of the states. It has a bit for each letter, without the end letter, which is set if
    /// the letter is a change of the state.
    pub rows: BitTable,
}

/// Sets in the row of a state the bits of its changes: the letters on which it has other moves than on the letter before.
fn mark_changes(rows: &mut BitTable, a: &Prio, state: u32)
    requires state_in { state < a.now.states }
    requires rows { AreRows a.now state rows.old }
    ensures { AreRows a.now (suc state) rows.new }
{
    for letter in 1..a.letters().count() {
        if a.moves(state, letter - 1) != a.moves(state, letter) {
            rows.set(state as usize, letter as usize, true);
        }
    }
}

/// Returns the changes of all states of an automaton.
fn all_changes(alloc: Global, a: &Prio) -> Result<Changes, OutOfMemory>
    ensures { IfOk result (AreChanges a.now) }
{
    let mut rows = BitTable::zeros(alloc, a.states() as usize, a.letters().count() as usize)?;
    for state in 0..a.states() {
        mark_changes(&mut rows, a, state);
    }
    // This only makes the unions of rows faster.
    rows.find_runs()?;
    Ok(Changes { rows })
}

/// Returns the changes `found` earlier, if they are given; otherwise finds the changes of all states of the automaton `a`.
pub(crate) fn changes_or(
    alloc: Global,
    a: &Prio,
    found: Option<Changes>,
) -> Result<Changes, OutOfMemory>
    requires { AreChangesIf a.now found }
    ensures { IfOk result (AreChanges a.now) }
{
    match found {
        Some(changes) => Ok(changes),
        None => all_changes(alloc, a),
    }
}

/// Returns the row of the letters that are changes of some member of the set with the number `set`.
fn changes_in(
    alloc: Global,
    changes: &Changes,
    a: &Prio,
    walk: &SetWalk,
    set: u32,
) -> Result<BitRow, OutOfMemory>
    requires made { IsMadeFor walk.now a.now }
    requires set_in { set < length walk.now.sets }
    requires changes { AreChanges a.now changes.now }
    ensures wide { IfOk result (IsWide a.now) }
    ensures same { IfOk result (λ row. IsSameOn a.now row (set_at walk.now set)) }
{
    let mut row = BitRow::zeros(alloc, a.letters().count() as usize)?;
    walk.union_of_rows(set, &changes.rows, &mut row);
    Ok(row)
}

/// Returns the row of the letters that are changes of some member of the first or the second set of a pair.
pub(crate) fn changes_on(
    alloc: Global,
    changes: &Changes,
    a: &Prio,
    walk: &SetWalk,
    key: Key,
) -> Result<BitRow, OutOfMemory>
    requires made { IsMadeFor walk.now a.now }
    requires inside { IsInside walk.now key }
    requires changes { AreChanges a.now changes.now }
    ensures wide { IfOk result (IsWide a.now) }
    ensures first { IfOk result (λ row. IsSameOn a.now row (set_at walk.now key.first)) }
    ensures second { IfOk result (λ row. IsSameOn a.now row (set_at walk.now key.second)) }
{
    let mut row = changes_in(alloc, changes, a, walk, key.first)?;
    if key.second == key.first {
        return Ok(row);
    }
    let other = changes_in(alloc, changes, a, walk, key.second)?;
    row.or_into(&other);
    Ok(row)
}

/// Returns whether the bit of a letter is set in a row of changes. For the first letter, which has none before it, returns
/// true.
pub(crate) fn is_changed(row: &BitRow, letter: u32) -> bool
    requires { letter < length row.now }
    ensures { result ≡ false → (0 < letter) × (slice_index_or row.now letter false ≡ false) }
{
    if letter == 0 {
        return true;
    }
    row.get(letter as usize)
}
