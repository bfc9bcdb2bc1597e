//! A test of `rl_degree`: many states and no move.

use crate::moves::graph_of;
use rl_degree::{Chain, degree};
use rl_expo::twin;
use rl_graph::Multigraph;
use rl_lists::OutOfMemory;
use std::alloc::Global;

/// Returns the longest chain of a graph, or `None` for a graph with a twin.
fn chain_of(alloc: Global, graph: &Multigraph) -> Result<Option<Chain>, OutOfMemory> {
    match twin(alloc, graph)? {
        Some(_) => Ok(None),
        None => {
            let chain = degree(alloc, graph)?;
            Ok(Some(chain))
        }
    }
}

/// Returns whether a chain has no link and no cycle, and `states` ranks that are all 0.
fn is_still(chain: &Chain, states: usize) -> bool {
    chain.links.is_empty()
        && chain.ranks.len() == states
        && chain.ranks.as_slice().iter().all(|rank| *rank == 0)
        && chain.cycle.is_none()
}

/// Tests a graph of 65,536 states without moves.
#[test]
fn many_states_and_no_move(rt: HostRuntime) -> Result<(), OutOfMemory> {
    let graph = graph_of(rt.alloc(), 65_536, &[], 0)?;
    match chain_of(rt.alloc(), &graph)? {
        Some(chain) => assert!(rt; is_still(&chain, 65_536)),
        None => assert!(rt; false, "a twin"),
    }
    Ok(())
}
