//! The moves of a graph that lead to states of the same rank.

ghost use Rattle.std.specs.Prelude.{◌≡◌, ℕ, ◌<◌, ◌+◌, length, slice_index, IfOk, OnOk};
ghost use Rattle.rl_numbers.specs.internal.Inner.{IsAddedOnce, IsBareFrom, IsInner, IsInnerUpTo};
ghost use Rattle.rl_graph.specs.Graph.{edges_of};
ghost use Rattle.rl_numbers.specs.Level.{table_of, IsLevelOf};

use rl_graph::Multigraph;
use rl_lists::OutOfMemory;
use std::alloc::Global;

/// Adds a move from `state` on `letter` to `target`, unless there is one already.
fn add_once(inner: &mut Multigraph, state: u32, letter: u32, target: u32) -> Result<(), OutOfMemory>
    requires state_in { state < inner.old.states }
    requires letter_in { letter < inner.old.letters }
    requires target_in { target < inner.old.states }
    requires room { length (edges_of inner.old state letter) < 4294967295 }
    ensures { OnOk result (IsAddedOnce inner.old inner.new state letter target) }
{
    if inner.edges(state, letter).contains(&target) {
        return Ok(());
    }
    inner.add(state, letter, target)?;
    Ok(())
}

/// Adds to `inner` the moves of `state` on `letter` that lead to states of its rank, one to each.
fn add_level_on(
    inner: &mut Multigraph,
    g: &Multigraph,
    ranks: &[u32],
    state: u32,
    letter: u32,
) -> Result<(), OutOfMemory>
    requires state_in { state < g.now.states }
    requires letter_in { letter < g.now.letters }
    requires size { length ranks.now ≡ g.now.states }
    requires so_far { IsInnerUpTo g.now (table_of ranks.now) state letter inner.old }
    requires bare { IsBareFrom state letter inner.old }
    ensures so_far { OnOk result (IsInnerUpTo g.now (table_of ranks.now) state (letter + 1) inner.new) }
    ensures bare { OnOk result (IsBareFrom state (letter + 1) inner.new) }
{
    let own = ranks[state as usize];
    let row = g.edges(state, letter);
    for place in 0..row.len() {
        let target = row[place];
        if ranks[target as usize] == own {
            add_once(inner, state, letter, target)?;
        }
    }
    Ok(())
}

/// Adds to `inner` the moves of `state` on all letters that lead to states of its rank, one to each on a letter.
fn add_level_from(
    inner: &mut Multigraph,
    g: &Multigraph,
    ranks: &[u32],
    state: u32,
) -> Result<(), OutOfMemory>
    requires state_in { state < g.now.states }
    requires size { length ranks.now ≡ g.now.states }
    requires so_far { IsInnerUpTo g.now (table_of ranks.now) state 0 inner.old }
    requires bare { IsBareFrom state 0 inner.old }
    ensures so_far { OnOk result (IsInnerUpTo g.now (table_of ranks.now) (state + 1) 0 inner.new) }
    ensures bare { OnOk result (IsBareFrom (state + 1) 0 inner.new) }
{
    for letter in 0..g.letters() {
        add_level_on(inner, g, ranks, state, letter)?;
    }
    Ok(())
}

/// Returns the graph of the moves of `g` that lead to a state with the rank of the state that they leave: of a state's
/// moves on a letter to the same target only one. `ranks` must have one rank for each state.
pub(crate) fn inner_graph(
    alloc: Global,
    g: &Multigraph,
    ranks: &[u32],
) -> Result<Multigraph, OutOfMemory>
    requires { length ranks.now ≡ g.now.states }
    ensures { IfOk result (IsInner g.now (table_of ranks.now)) }
{
    let mut inner = Multigraph::new(alloc, g.states(), g.letters())?;
    for state in 0..g.states() {
        let Ok(()) = add_level_from(&mut inner, g, ranks, state) else {
            drop(inner);
            return Err(OutOfMemory);
        };
    }
    Ok(inner)
}

/// Returns the graph of the moves of `g` that lead to a state with the rank of the state that they leave. `ranks` must
/// have one rank for each state, and `g` must have fewer than 65,536 states. Of a state's moves on a letter to the same
/// target only one is kept.
///
/// # Errors
/// [`OutOfMemory`] if there is not enough memory for the graph.
pub fn level_graph(alloc: Global, g: &Multigraph, ranks: &[u32]) -> Result<Multigraph, OutOfMemory>
    requires few_states { g.now.states < 65536 }
    requires size { length ranks.now ≡ g.now.states }
    ensures level { IfOk result (λ h. IsLevelOf (edges_of g.now) g.now.states (slice_index ranks.now) h) }
    ensures letters { IfOk result (λ h. h.letters ≡ g.now.letters) }
    ensures few { IfOk result (λ h. (q l : ℕ) → length (edges_of h q l) < 65536) }
{
    // Reading the number of states tells the prover that the graph is well formed.
    let _states = g.states();
    let inner = inner_graph(alloc, g, ranks)?;
    Ok(inner)
}
