//! The moves of a graph as tables of bits, one table for each letter. The row of each state has a bit for each state,
//! which is true if a move on the letter leads there.

ghost use Rattle.std.specs.Prelude.{◌≡◌, ◌<◌, ◌+◌, false, IfOk};
ghost use Rattle.rl_degree.specs.internal.Moves.{IsMoveTable, IsMoveTableUpTo, IsUsed, AreMoveTables};

use rl_graph::Multigraph;
use rl_lanes::BitTable;
use rl_lists::OutOfMemory;
use std::alloc::Global;

/// Sets the bits of the moves of `state` on `letter` in the letter's table.
fn mark_moves(table: &mut BitTable, g: &Multigraph, state: u32, letter: u32)
    requires state_in { state < g.now.states }
    requires letter_in { letter < g.now.letters }
    requires so_far { IsMoveTableUpTo g.now letter state table.old }
    ensures { IsMoveTableUpTo g.now letter (state + 1) table.new }
{
    let targets = g.edges(state, letter);
    for place in 0..targets.len() {
        table.set(state as usize, targets[place] as usize, true);
    }
}

/// Returns the table of the moves of a graph on `letter`.
fn move_table(alloc: Global, g: &Multigraph, letter: u32) -> Result<BitTable, OutOfMemory>
    requires { letter < g.now.letters }
    ensures { IfOk result (IsMoveTable g.now letter) }
{
    let count = g.states() as usize;
    let mut table = BitTable::zeros(alloc, count, count)?;
    for state in 0..g.states() {
        mark_moves(&mut table, g, state, letter);
    }
    Ok(table)
}

/// Returns whether any state has a move on `letter`.
fn is_used(g: &Multigraph, letter: u32) -> bool
    requires { letter < g.now.letters }
    ensures { result ≡ false → IsUsed g.now letter → ⊥ }
{
    for state in 0..g.states() {
        if !g.edges(state, letter).is_empty() {
            return true;
        }
    }
    false
}

/// Returns the table of the moves of `g` on `letter`, or a table without rows if `inner` has no move on `letter`.
fn table_on(
    alloc: Global,
    g: &Multigraph,
    inner: &Multigraph,
    letter: u32,
) -> Result<BitTable, OutOfMemory>
    requires letter_in { letter < g.now.letters }
    requires inner { inner.now.letters ≡ g.now.letters }
    ensures { IfOk result (λ t. IsUsed inner.now letter → IsMoveTable g.now letter t) }
{
    if is_used(inner, letter) {
        move_table(alloc, g, letter)
    } else {
        Ok(BitTable::zeros(alloc, 0, 0)?)
    }
}

/// Returns a table for each letter: the moves of `g` on the letter, or a table without rows if `inner` has no move on
/// it.
///
/// # Errors
/// [`OutOfMemory`] if there is not enough memory for the tables.
pub(crate) fn move_tables(
    alloc: Global,
    g: &Multigraph,
    inner: &Multigraph,
) -> Result<Vec<BitTable>, OutOfMemory>
    requires { inner.now.letters ≡ g.now.letters }
    ensures { IfOk result (λ v. AreMoveTables g.now inner.now v.items) }
{
    let mut tables = Vec::new(alloc);
    for letter in 0..g.letters() {
        tables.push(table_on(alloc, g, inner, letter)?)?;
    }
    Ok(tables)
}
