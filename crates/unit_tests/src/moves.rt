//! Graphs that are built from lists of moves.

ghost use Rattle.std.specs.Prelude.{◌≡◌, ◌<◌, IfOk};

use rl_graph::Multigraph;
use rl_lists::OutOfMemory;
use std::alloc::Global;

/// A move on the letter 0: the state where it begins, and the state to which it leads.
pub type Move = (u32, u32);

/// Returns a graph with `states` states and one letter, to which `moves` are added in order, `times` times over. A move from
/// or to a number that isn't a state is left out, and so is a move from a state that already has 1,000,000 moves. With `times`
/// 0 the graph has no moves.
///
/// # Errors
/// [`OutOfMemory`] if memory runs out.
pub fn graph_of(
    alloc: Global,
    states: u32,
    moves: &[Move],
    times: u32,
) -> Result<Multigraph, OutOfMemory>
    ensures states { IfOk result (λ g. g.states ≡ states) }
    ensures letters { IfOk result (λ g. g.letters ≡ 1) }
{
    let mut graph = Multigraph::new(alloc, states, 1)?;
    for _turn in 0..times {
        for (from, to) in moves {
            add(&mut graph, *from, *to)?;
        }
    }
    Ok(graph)
}

/// Adds a move on the letter 0, unless it is outside the graph or its state already has 1,000,000 moves.
fn add(graph: &mut Multigraph, from: u32, to: u32) -> Result<(), OutOfMemory>
    requires { graph.old.letters ≡ 1 }
    ensures states { graph.new.states ≡ graph.old.states }
    ensures letters { graph.new.letters ≡ 1 }
{
    let states = graph.states();
    if from < states && to < states && graph.edges(from, 0).len() < 1_000_000 {
        graph.add(from, 0, to)?;
    }
    Ok(())
}
