//! The search for a fork, one strongly connected component at a time. A fork is two different moves of a state on one
//! letter such that one word leads back to the state from both targets. It lies in one component, together with the
//! paths back.

ghost use Rattle.std.specs.Prelude.{◌≡◌, ◌==◌, length, IfOk, IfSome, IfNone};
ghost use Rattle.rl_graph.specs.Graph.{edges_of};
ghost use Rattle.rl_graph.specs.Parts.{IsParts, number_of};
ghost use Rattle.rl_kernel.specs.Seats.{seats_of, HoldsUpTo};
ghost use Rattle.rl_expo.specs.internal.Forks.{AnyFork};
ghost use Rattle.rl_expo.specs.internal.Search.{AreMoves, LeadsBack};
ghost use Rattle.rl_expo.specs.internal.Blocks.{AreForking, HasNoForkIn, HasNoFork};

use crate::dense::short_fork;
use crate::forks::{Fork, fork_among};
use rl_graph::{Components, Multigraph, product_parts};
use rl_kernel::{Kernel, inner_graph};
use rl_lists::OutOfMemory;
use std::alloc::Global;

/// Returns the list of the states of the component `number`, in ascending order. `count` is the number of states of the
/// graph.
fn states_of(
    alloc: Global,
    components: &Components,
    count: u32,
    number: u32,
) -> Result<Kernel, OutOfMemory>
    requires size { length components.now.numbers ≡ count }
    ensures { IfOk result (λ k. HoldsUpTo (λ q. number_of components.now q == number) components.now count count (seats_of k)) }
{
    let mut kernel = Kernel::new(alloc, count)?;
    for state in 0..count {
        if components.of(state) == number {
            kernel.put(state, number)?;
        }
    }
    Ok(kernel)
}

/// Returns a fork of a state of the component `number`, or `None` if and only if there is none. A short search is tried
/// before the product is built.
fn fork_of(
    alloc: Global,
    g: &Multigraph,
    components: &Components,
    number: u32,
) -> Result<Option<Fork>, OutOfMemory>
    requires parts { IsParts (edges_of g.now) g.now.states components.now }
    ensures moves { IfOk result (λ o. IfSome o (AreMoves g.now)) }
    ensures back { IfOk result (λ o. IfSome o (LeadsBack g.now)) }
    ensures none { IfOk result (λ o. IfNone o (HasNoForkIn (edges_of g.now) components.now number)) }
{
    if let Some(fork) = short_fork(alloc, g, components, number)? {
        return Ok(Some(fork));
    }
    let states = states_of(alloc, components, g.states(), number)?;
    let inner = inner_graph(alloc, g, components, &states)?;
    let parts = product_parts(alloc, &inner)?;
    fork_among(alloc, g, &states, &parts)
}

/// Returns a fork of the graph, or `None` if and only if there is none. `components` must be the strongly connected
/// components of `g`. `marks` must have a mark for each state number. Only components whose mark, at the component's
/// number, is true are searched; the others must have no state with two moves on one letter that stay in the component.
///
/// # Errors
/// [`OutOfMemory`] if there is not enough memory for the search.
pub fn fork_in(
    alloc: Global,
    g: &Multigraph,
    components: &Components,
    marks: &[bool],
) -> Result<Option<Fork>, OutOfMemory>
    requires parts { IsParts (edges_of g.now) g.now.states components.now }
    requires marks { AreForking g.now components.now marks.now }
    ensures moves { IfOk result (λ o. IfSome o (AreMoves g.now)) }
    ensures back { IfOk result (λ o. IfSome o (LeadsBack g.now)) }
    ensures none { IfOk result (λ o. IfNone o (HasNoFork (edges_of g.now))) }
{
    for number in 0..g.states() {
        if marks[number as usize] {
            if let Some(fork) = fork_of(alloc, g, components, number)? {
                return Ok(Some(fork));
            }
        }
    }
    Ok(None)
}
