//! A test of `rl_numbers`: many moves that lead to one state.

use crate::moves::graph_of;
use rl_graph::Multigraph;
use rl_lists::OutOfMemory;
use rl_numbers::leveling::level_graph;
use std::alloc::Global;

/// The numbers of moves from the first of two states to the second.
static COUNTS: [u32; 3] = [1, 3, 65_536];

/// Returns whether the first state has one move, which leads to the second.
fn has_one(level: &Multigraph) -> bool {
    level.states() == 2 && level.letters() == 1 && level.edges(0, 0) == [1].as_slice()
}

/// Returns whether one of `count` moves is kept.
fn is_one_kept(alloc: Global, count: u32) -> Result<bool, OutOfMemory> {
    let graph = graph_of(alloc, 2, &[(0, 1)], count)?;
    let level = level_graph(alloc, &graph, &[0, 0])?;
    Ok(has_one(&level))
}

/// Tests that, of several moves of a state on a letter to one state, one is kept.
#[test]
fn parallel_moves_on_a_rank(rt: HostRuntime) -> Result<(), OutOfMemory> {
    for count in &COUNTS {
        assert!(rt; is_one_kept(rt.alloc(), *count)?, "{count}");
    }
    Ok(())
}
