//! A quick test of the components of a graph, before the product of two copies of a component is searched: a twin
//! begins with two moves of a state on one letter that both stay in the state's component. A twin is a state with two
//! different paths to itself along one word.

ghost use Rattle.std.specs.Prelude.{◌≡◌, ℕ, ◌<◌, length, false, IfOk};
ghost use Rattle.rl_graph.specs.Graph.{edges_of};
ghost use Rattle.rl_graph.specs.Parts.{IsParts};
ghost use Rattle.rl_expo.specs.internal.Search.{NoneStay};
ghost use Rattle.rl_expo.specs.internal.Blocks.{AreForking, AreForkingUpTo};

use rl_graph::{Components, Multigraph};
use rl_lists::OutOfMemory;
use std::alloc::Global;

/// Returns whether at least two moves of `state` on `letter` stay in the state's component. Parallel moves count as
/// different moves.
fn stays_twice(g: &Multigraph, components: &Components, state: u32, letter: u32) -> bool
    requires state_in { state < g.now.states }
    requires letter_in { letter < g.now.letters }
    requires size { length components.now.numbers ≡ g.now.states }
    ensures { result ≡ false → NoneStay g.now components.now state letter }
{
    let own = components.of(state);
    let row = g.edges(state, letter);
    let mut met = false;
    for place in 0..row.len() {
        if components.of(row[place]) == own {
            if met {
                return true;
            }
            met = true;
        }
    }
    false
}

/// Returns whether at least two moves of `state` on one letter stay in the state's component. A state that isn't on a
/// cycle has none, so its moves aren't looked at.
fn stays_twice_from(g: &Multigraph, components: &Components, state: u32) -> bool
    requires parts { IsParts (edges_of g.now) g.now.states components.now }
    requires state_in { state < g.now.states }
    ensures { result ≡ false → (l : ℕ) → l < g.now.letters → NoneStay g.now components.now state l }
{
    // Reading the number of states tells the prover that the graph is well formed.
    let _states = g.states();
    if !components.on_cycle(state) {
        return false;
    }
    for letter in 0..g.letters() {
        if stays_twice(g, components, state, letter) {
            return true;
        }
    }
    false
}

/// Returns a mark for each component, at its number, which says whether one of its states has two moves on one letter
/// that stay in the component. `components` must be the strongly connected components of `g`. There are as many marks
/// as states; those that belong to no component are false.
///
/// # Errors
/// [`OutOfMemory`] if there is not enough memory for the marks.
pub fn forking(
    alloc: Global,
    g: &Multigraph,
    components: &Components,
) -> Result<Vec<bool>, OutOfMemory>
    requires parts { IsParts (edges_of g.now) g.now.states components.now }
    ensures { IfOk result (λ v. AreForking g.now components.now v.items) }
{
    let mut marks = vec![in alloc; false; g.states() as usize]?;
    for state in 0..g.states() {
        if stays_twice_from(g, components, state) {
            marks[components.of(state) as usize] = true;
        }
    }
    Ok(marks)
}
