//! The hopeless states for a component: those that can't reach it.

ghost use Rattle.std.specs.Prelude.{◌≡◌, ℕ, ◌<◌, All, length, slice_index, IfOk, OnOk};
ghost use Rattle.rl_graph.specs.Graph.{edges_of};
ghost use Rattle.rl_graph.specs.Parts.{IsParts};
ghost use Rattle.rl_degree.specs.internal.Reached.{AreReached, IsHopeless, IsFilled, AreFilled, AreHopeless};

use crate::rows::copies_of;
use rl_graph::{Components, Multigraph};
use rl_lanes::BitRow;
use rl_lists::OutOfMemory;
use std::alloc::Global;

/// Returns a row with a bit for each state, which is true if the state can't reach `component` according to `reached`.
/// This has, for each component, a row with the components that it may reach.
fn hopeless_row(
    alloc: Global,
    g: &Multigraph,
    components: &Components,
    reached: &[BitRow],
    component: u32,
) -> Result<BitRow, OutOfMemory>
    requires parts { IsParts (edges_of g.now) g.now.states components.now }
    requires reached { AreReached (edges_of g.now) g.now.states components.now reached.now }
    requires component_in { component < g.now.states }
    ensures { IfOk result (IsHopeless g.now.states components.now reached.now component) }
{
    let mut row = BitRow::zeros(alloc, g.states() as usize)?;
    for state in 0..g.states() {
        let from = &reached[components.of(state) as usize];
        row.set(state as usize, !from.get(component as usize));
    }
    Ok(row)
}

/// Puts the row of the hopeless states for `component` into `rows`, unless the row at that index already has bits.
fn fill_row(
    rows: &mut Vec<BitRow>,
    alloc: Global,
    g: &Multigraph,
    components: &Components,
    reached: &[BitRow],
    component: u32,
) -> Result<(), OutOfMemory>
    requires parts { IsParts (edges_of g.now) g.now.states components.now }
    requires reached { AreReached (edges_of g.now) g.now.states components.now reached.now }
    requires component_in { component < g.now.states }
    requires so_far { AreFilled g.now.states components.now reached.now rows.old.items }
    ensures so_far { OnOk result (AreFilled g.now.states components.now reached.now rows.new.items) }
    ensures here { OnOk result (IsFilled rows.new.items component) }
    ensures kept { OnOk result ((k : ℕ) → IsFilled rows.old.items k → IsFilled rows.new.items k) }
{
    if rows[component as usize].len() == 0 {
        rows[component as usize] = hopeless_row(alloc, g, components, reached, component)?;
    }
    Ok(())
}

/// Returns a row for each component. For a component in `listed`, it has a bit for each state, which is true if the
/// state can't reach the component according to `reached`; for any other component, the row is empty. `reached` has,
/// for each component, a row with the components that it may reach.
///
/// # Errors
/// [`OutOfMemory`] if there is not enough memory for the rows.
pub(crate) fn hopeless_rows(
    alloc: Global,
    g: &Multigraph,
    components: &Components,
    reached: &[BitRow],
    listed: &[u32],
) -> Result<Vec<BitRow>, OutOfMemory>
    requires parts { IsParts (edges_of g.now) g.now.states components.now }
    requires reached { AreReached (edges_of g.now) g.now.states components.now reached.now }
    requires listed_in { (i : ℕ) → i < length listed.now → slice_index listed.now i < g.now.states }
    ensures { IfOk result (λ v. AreHopeless g.now.states components.now reached.now listed.now v.items) }
{
    let none = BitRow::zeros(alloc, 0)?;
    let mut rows = copies_of(alloc, &none, g.states() as usize)?;
    for place in 0..listed.len() {
        fill_row(&mut rows, alloc, g, components, reached, listed[place])?;
    }
    Ok(rows)
}
