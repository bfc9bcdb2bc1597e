//! The inner moves of a kernel: the moves between its states that stay within a component. If a kernel has all states
//! of a component, every path from one of them back to itself consists of inner moves.

ghost use Rattle.std.specs.Prelude.{◌≡◌, ℕ, ◌<◌, ◌+◌, ◌^◌, false, length, IfOk, OnOk, MatchOption};
ghost use Rattle.rl_graph.specs.Parts.{number_of};
ghost use Rattle.rl_kernel.specs.Members.{is_member, IsPlace};
ghost use Rattle.rl_kernel.specs.Seats.{seats_of, AreSeats};
ghost use Rattle.rl_kernel.specs.Inner.{IsInner};
ghost use Rattle.rl_kernel.specs.internal.Growing.{IsBareFrom, IsInnerUpTo};

use crate::kernel::Kernel;
use rl_graph::{Components, Multigraph};
use rl_lists::OutOfMemory;
use std::alloc::Global;

/// Returns the place of a state in the kernel, or `None` if the state isn't in the kernel or its component doesn't have
/// the number `own`.
fn place_within(components: &Components, kernel: &Kernel, own: u32, state: u32) -> Option<u32>
    requires size { state < length components.now.numbers }
    requires state_in { state < length kernel.now.places.items }
    ensures { MatchOption result (number_of components.now state ≡ own → is_member kernel.now.states.items kernel.now.places.items state ≡ false) (λ i. (number_of components.now state ≡ own) × IsPlace kernel.now.states.items kernel.now.places.items state i) }
{
    if components.of(state) != own {
        return None;
    }
    kernel.place_of(state)
}

/// Adds to `inner` the inner moves on `letter` of the state at `place` in the kernel.
fn add_inner_on(
    inner: &mut Multigraph,
    g: &Multigraph,
    components: &Components,
    kernel: &Kernel,
    place: u32,
    letter: u32,
) -> Result<(), OutOfMemory>
    requires place_in { place < length kernel.now.states.items }
    requires letter_in { letter < g.now.letters }
    requires size { length components.now.numbers ≡ g.now.states }
    requires seats { AreSeats components.now g.now.states g.now.states (seats_of kernel.now) }
    requires so_far { IsInnerUpTo g.now components.now (seats_of kernel.now) place letter inner.old }
    requires bare { IsBareFrom place letter inner.old }
    ensures so_far { OnOk result (IsInnerUpTo g.now components.now (seats_of kernel.now) place (letter + 1) inner.new) }
    ensures bare { OnOk result (IsBareFrom place (letter + 1) inner.new) }
{
    let state = kernel.states[place as usize];
    let own = kernel.levels[place as usize];
    let row = g.edges(state, letter);
    for number in 0..row.len() {
        if let Some(next) = place_within(components, kernel, own, row[number]) {
            inner.add(place, letter, next)?;
        }
    }
    Ok(())
}

/// Adds to `inner` the inner moves of the state at `place` in the kernel on all letters.
fn add_inner_from(
    inner: &mut Multigraph,
    g: &Multigraph,
    components: &Components,
    kernel: &Kernel,
    place: u32,
) -> Result<(), OutOfMemory>
    requires place_in { place < length kernel.now.states.items }
    requires size { length components.now.numbers ≡ g.now.states }
    requires seats { AreSeats components.now g.now.states g.now.states (seats_of kernel.now) }
    requires so_far { IsInnerUpTo g.now components.now (seats_of kernel.now) place 0 inner.old }
    requires bare { IsBareFrom place 0 inner.old }
    ensures so_far { OnOk result (IsInnerUpTo g.now components.now (seats_of kernel.now) (place + 1) 0 inner.new) }
    ensures bare { OnOk result (IsBareFrom (place + 1) 0 inner.new) }
{
    for letter in 0..g.letters() {
        add_inner_on(inner, g, components, kernel, place, letter)?;
    }
    Ok(())
}

/// Returns the graph of the inner moves of a kernel, that is, of the moves of `g` between its states that stay within a
/// strongly connected component. The states of the new graph are the places in the kernel, and its letters are the
/// letters of `g`. `components` must be the components of `g`. The kernel must have been created for the states of `g`,
/// and must have each state at most once, with the number of its component. Of parallel moves, which have the same
/// state, letter and target, some may be left out.
///
/// # Errors
/// [`OutOfMemory`] if there is not enough memory for the graph.
pub fn inner_graph(
    alloc: Global,
    g: &Multigraph,
    components: &Components,
    kernel: &Kernel,
) -> Result<Multigraph, OutOfMemory>
    requires size { length components.now.numbers ≡ g.now.states }
    requires seats { AreSeats components.now g.now.states g.now.states (seats_of kernel.now) }
    ensures { IfOk result (λ h. IsInner g.now components.now (seats_of kernel.now) h) }
{
    // Reading the number of states tells the prover that the graph is well formed.
    let _states = g.states();
    let count = kernel.states.len() as u32;
    let mut inner = Multigraph::new(alloc, count, g.letters())?;
    for place in 0..count {
        add_inner_from(&mut inner, g, components, kernel, place)?;
    }
    Ok(inner)
}
