//! The moves of an automaton, split into where they lead and on which letters.
//!
//! Each state has a row of targets: the states to which it moves on any letter. Each letter has a row of barred states: those
//! to which no state moves on it. The end letter counts as a letter here. A state is split if on each letter it moves exactly
//! to its targets without the letter's barred states; the other states are unsplit. Moves to the dead state aren't looked at,
//! since no set holds it.

ghost use Rattle.std.specs.Prelude.{◌≡◌, suc, ◌<◌, ◌≤◌, [], All, false, length, replicate, slice_index_or, IsTrue, IfOk};
ghost use Rattle.rl_lanes.specs.Rows.{list_and_not};
ghost use Rattle.rl_prio.specs.Automaton.{letters_count};
ghost use Rattle.rl_sets.specs.Rows.{members_of, marked};
ghost use Rattle.rl_sets.specs.Split.{IsSquare, IsShaped, IsSplit, IsSplitOn, AreSplitAt, AreSplit, AreMovesOf};
ghost use Rattle.rl_sets.specs.internal.Moves.{targets_of};

use crate::rows::{mark, mark_moves, mark_row};
use rl_lanes::{BitRow, BitTable};
use rl_lists::OutOfMemory;
use rl_prio::Prio;
use std::alloc::Global;

/// The split moves of an automaton: the targets of each state, the barred states of each letter, and the unsplit states.
///
/// In the automaton of a regular expression, each state is entered on the same letters from everywhere, unless anchors or word
/// boundaries forbid it. So most states are split.
#[derive(Drop)]
pub struct SplitMoves {
    /// The row of targets of each state.
    targets: BitTable,
    /// The row of barred states of each letter, in the order of the letters, and last the row of the end letter.
    barred: Vec<BitRow>,
    /// The unsplit states.
    unsplit: BitRow,
}

/// The moves of the members of a set, on all letters at once.
#[derive(Drop)]
pub struct SetMoves {
    /// The number of the set.
    pub(crate) set: u32,
    /// The union of the targets of the split members.
    targets: BitRow,
    /// The unsplit members.
    unsplit: BitRow,
}

/// Returns a row of `len` bits that are all set.
fn full_row(alloc: Global, len: usize) -> Result<BitRow, OutOfMemory>
    ensures { IfOk result (λ row. length row ≡ len) }
{
    let mut row = BitRow::zeros(alloc, len)?;
    for i in 0..len {
        row.set(i, true);
    }
    Ok(row)
}

/// Adds the states to which each state moves on a letter to this state's row of `targets`. Returns the row of the letter's
/// barred states.
fn add_targets(
    alloc: Global,
    a: &Prio,
    letter: u32,
    targets: &mut BitTable,
) -> Result<BitRow, OutOfMemory>
    requires letter_in { letter ≤ letters_count a.now }
    requires square { IsSquare a.now.states targets.old }
    ensures square { IsSquare a.now.states targets.new }
    ensures wide { IfOk result (λ barred. length barred ≡ a.now.states) }
{
    let states = a.states() as usize;
    let mut entered = BitRow::zeros(alloc, states)?;
    let mut barred = full_row(alloc, states)?;
    for q in 0..a.states() {
        let moves = a.moves(q, letter);
        mark(&mut entered, moves);
        mark_row(targets, q as usize, moves);
    }
    barred.subtract(&entered);
    Ok(barred)
}

/// Returns whether a state moves on a letter exactly to the states that are in its row `targets` and not in the letter's row
/// `barred`. The dead state isn't looked at.
fn is_split_on(
    alloc: Global,
    a: &Prio,
    state: u32,
    letter: u32,
    targets: &BitRow,
    barred: &BitRow,
) -> Result<bool, OutOfMemory>
    requires state_in { state < a.now.states }
    requires letter_in { letter ≤ letters_count a.now }
    requires targets_wide { length targets.now ≡ a.now.states }
    requires barred_wide { length barred.now ≡ a.now.states }
    ensures { IfOk result (λ r. IsTrue r → IsSplitOn a.now targets.now barred.now state letter) }
{
    let dead = a.dead() as usize;
    let mut own = BitRow::zeros(alloc, a.states() as usize)?;
    mark(&mut own, a.moves(state, letter));
    own.set(dead, false);
    let mut left = targets.copy()?;
    left.subtract(barred);
    left.set(dead, false);
    Ok(own == left)
}

/// Returns a copy of the row with the index `at` of a table that has `states` rows of `states` bits each.
fn row_at(alloc: Global, table: &BitTable, states: usize, at: u32) -> Result<BitRow, OutOfMemory>
    requires row_in { at < states }
    requires square { IsSquare states table.now }
    ensures { IfOk result (λ row. row ≡ slice_index_or table.now at []) }
{
    // A table gives only unions of its rows. The union of a single row is this row.
    let mut alone = BitRow::zeros(alloc, states)?;
    alone.set(at as usize, true);
    let mut row = BitRow::zeros(alloc, states)?;
    table.image(&alone, &mut row);
    Ok(row)
}

/// Returns whether a state is split, given its row of targets and the rows of barred states, with the end letter's row last.
fn is_split(
    alloc: Global,
    a: &Prio,
    state: u32,
    targets: &BitRow,
    barred: &[BitRow],
) -> Result<bool, OutOfMemory>
    requires state_in { state < a.now.states }
    requires targets_wide { length targets.now ≡ a.now.states }
    requires letters { length barred.now ≡ suc (letters_count a.now) }
    requires barred_wide { All (λ row. length row ≡ a.now.states) barred.now }
    ensures { IfOk result (λ r. IsTrue r → AreSplitAt a.now targets.now barred.now state) }
{
    for letter in 0..a.letters().count() as usize + 1 {
        if !is_split_on(alloc, a, state, letter as u32, targets, &barred[letter])? {
            return Ok(false);
        }
    }
    Ok(true)
}

/// Returns the row of the unsplit states, given the rows of targets and the rows of barred states, with the end letter's row
/// last.
fn unsplit_states(
    alloc: Global,
    a: &Prio,
    targets: &BitTable,
    barred: &[BitRow],
) -> Result<BitRow, OutOfMemory>
    requires square { IsSquare a.now.states targets.now }
    requires letters { length barred.now ≡ suc (letters_count a.now) }
    requires barred_wide { All (λ row. length row ≡ a.now.states) barred.now }
    ensures wide { IfOk result (λ row. length row ≡ a.now.states) }
    ensures split { IfOk result (λ row. AreSplit a.now targets.now barred.now row) }
{
    let states = a.states() as usize;
    let mut unsplit = BitRow::zeros(alloc, states)?;
    for q in 0..a.states() {
        let row = row_at(alloc, targets, states, q)?;
        let split = is_split(alloc, a, q, &row, barred)?;
        unsplit.set(q as usize, !split);
    }
    Ok(unsplit)
}

impl SplitMoves {
    /// Returns the split moves of an automaton. This looks at all its moves twice.
    pub(crate) fn of(alloc: Global, a: &Prio) -> Result<SplitMoves, OutOfMemory>
        ensures { IfOk result (IsSplit a.now) }
    {
        let states = a.states() as usize;
        let width = a.letters().count() as usize + 1;
        let mut targets = BitTable::zeros(alloc, states, states)?;
        let mut barred = Vec::with_capacity(alloc, width)?;
        for letter in 0..width {
            let row = add_targets(alloc, a, letter as u32, &mut targets)?;
            barred.push(row)?;
        }
        let unsplit = unsplit_states(alloc, a, &targets, barred.as_slice())?;
        // This only makes images of the table faster.
        targets.find_runs()?;
        Ok(SplitMoves {
            targets,
            barred,
            unsplit,
        })
    }

    /// Returns the moves of the members of the set with the number `set`; `members` is the row of this set.
    pub(crate) fn moves_of(&self, set: u32, members: &BitRow) -> Result<SetMoves, OutOfMemory>
        requires { IsShaped (length members.now) self.now }
        ensures set { IfOk result (λ moves. moves.set ≡ set) }
        ensures moves { IfOk result (AreMovesOf self.now members.now) }
    {
        let mut split = members.copy()?;
        split.subtract(&self.unsplit);
        let mut targets = BitRow::zeros(*self.barred.allocator(), members.len())?;
        self.targets.image(&split, &mut targets);
        let mut unsplit = members.copy()?;
        unsplit.subtract(&split);
        Ok(SetMoves {
            set,
            targets,
            unsplit,
        })
    }

    /// Sets in an empty row the bits of the states to which some member of a set moves on a letter or the end letter; `moves`
    /// are the moves of the set. The dead state's bit has no meaning.
    pub(crate) fn mark(&self, row: &mut BitRow, a: &Prio, moves: &SetMoves, letter: u32)
        requires letter_in { letter ≤ letters_count a.now }
        requires split { IsSplit a.now self.now }
        requires bare { row.old ≡ replicate a.now.states false }
        requires targets_wide { length moves.now.targets ≡ a.now.states }
        requires unsplit_wide { length moves.now.unsplit ≡ a.now.states }
        ensures { row.new ≡ marked (list_and_not moves.now.targets (slice_index_or self.now.barred.items letter [])) (targets_of a.now (members_of moves.now.unsplit) letter) }
    {
        row.or_into(&moves.targets);
        row.subtract(&self.barred[letter as usize]);
        mark_moves(row, a, &moves.unsplit, letter);
    }
}
