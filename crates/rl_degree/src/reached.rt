//! The components that may be reached from each component, as rows of bits. A component that is reached from another
//! one has the smaller number.

ghost use Rattle.std.specs.Prelude.{◌≡◌, ℕ, ◌<◌, [], All, length, slice_index_or, IfOk};
ghost use Rattle.rl_lanes.specs.Rows.{IsSubset};
ghost use Rattle.rl_graph.specs.Paths.{Has};
ghost use Rattle.rl_graph.specs.Graph.{edges_of};
ghost use Rattle.rl_graph.specs.Parts.{IsParts, number_of};
ghost use Rattle.rl_degree.specs.internal.Groups.{AreGroupsFrom};
ghost use Rattle.rl_degree.specs.internal.Reached.{HasTargets, IsReachedRow, AreReached};

use crate::groups::{Groups, groups_of};
use rl_graph::{Components, Multigraph};
use rl_lanes::BitRow;
use rl_lists::OutOfMemory;
use std::alloc::Global;

/// Sets all bits in `row` that are true in the row with the index `number`, if there is such a row.
fn join_row(row: &mut BitRow, rows: &[BitRow], number: usize)
    requires { number < length rows.now → length (slice_index_or rows.now number []) ≡ length row.old }
    ensures grows { IsSubset row.old row.new }
    ensures joined { number < length rows.now → IsSubset (slice_index_or rows.now number []) row.new }
    ensures len { length row.new ≡ length row.old }
{
    if number >= rows.len() {
        return;
    }
    row.or_into(&rows[number]);
}

/// Sets all bits in `row` that are true in the rows of the components of the states `targets`. Components without a row
/// are left out.
fn join_targets(row: &mut BitRow, rows: &[BitRow], components: &Components, targets: &[u32])
    requires targets_in { All (λ target. target < length components.now.numbers) targets.now }
    requires wide { (k : ℕ) → k < length rows.now → length (slice_index_or rows.now k []) ≡ length row.old }
    ensures grows { IsSubset row.old row.new }
    ensures joined { (m : ℕ) → Has m targets.now → number_of components.now m < length rows.now → IsSubset (slice_index_or rows.now (number_of components.now m) []) row.new }
    ensures len { length row.new ≡ length row.old }
{
    for place in 0..targets.len() {
        join_row(row, rows, components.of(targets[place]) as usize);
    }
}

/// Sets all bits in `row` that are true in the rows of the components to which the moves of `state` lead. Components
/// without a row are left out.
fn join_moves(
    row: &mut BitRow,
    rows: &[BitRow],
    components: &Components,
    g: &Multigraph,
    state: u32,
)
    requires size { length components.now.numbers ≡ g.now.states }
    requires state_in { state < g.now.states }
    requires wide { (k : ℕ) → k < length rows.now → length (slice_index_or rows.now k []) ≡ length row.old }
    ensures grows { IsSubset row.old row.new }
    ensures joined { HasTargets (edges_of g.now) components.now rows.now state row.new }
    ensures len { length row.new ≡ length row.old }
{
    for letter in 0..g.letters() {
        join_targets(row, rows, components, g.edges(state, letter));
    }
}

/// Returns the row of `component`: its own bit is true, and so are all bits of the rows of the components to which its
/// states move. `rows` has the rows of the components with smaller numbers.
fn reached_row(
    alloc: Global,
    g: &Multigraph,
    components: &Components,
    groups: &Groups,
    rows: &[BitRow],
    component: u32,
) -> Result<BitRow, OutOfMemory>
    requires size { length components.now.numbers ≡ g.now.states }
    requires component_in { component < g.now.states }
    requires groups { AreGroupsFrom components.now g.now.states 0 groups.now.firsts.items groups.now.nexts.items }
    requires wide { (k : ℕ) → k < length rows.now → length (slice_index_or rows.now k []) ≡ g.now.states }
    ensures { IfOk result (IsReachedRow (edges_of g.now) g.now.states components.now rows.now component) }
{
    let count = g.states();
    let mut row = BitRow::zeros(alloc, count as usize)?;
    row.set(component as usize, true);
    let mut state = groups.firsts[component as usize];
    while state < count {
        join_moves(&mut row, rows, components, g, state);
        let next = groups.nexts[state as usize];
        state = next;
    }
    Ok(row)
}

/// Returns, for each component, a row with a bit for each component, which is true if the component is reached.
///
/// # Errors
/// [`OutOfMemory`] if there is not enough memory for the rows.
pub(crate) fn reached_rows(
    alloc: Global,
    g: &Multigraph,
    components: &Components,
) -> Result<Vec<BitRow>, OutOfMemory>
    requires { IsParts (edges_of g.now) g.now.states components.now }
    ensures { IfOk result (λ v. AreReached (edges_of g.now) g.now.states components.now v.items) }
{
    let groups = groups_of(alloc, components, g.states())?;
    let mut rows = Vec::with_capacity(alloc, g.states() as usize)?;
    for component in 0..g.states() {
        let row = reached_row(alloc, g, components, &groups, &rows, component)?;
        rows.push(row)?;
    }
    Ok(rows)
}
