//! A test of `rl_graph`: rows with many moves.

ghost use Rattle.std.specs.Prelude.{◌≡◌};

use crate::moves::graph_of;
use rl_graph::Multigraph;
use rl_lists::OutOfMemory;

/// Returns whether each of the two states has `count` moves, all to itself.
fn lead_back(g: &Multigraph, count: usize) -> bool
    requires states { g.now.states ≡ 2 }
    requires letters { g.now.letters ≡ 1 }
{
    for state in 0..2 {
        let row = g.edges(state, 0);
        if row.len() != count || !row.iter().all(|target| *target == state) {
            return false;
        }
    }
    true
}

/// Tests that two rows which grow in turn don't use much more memory than their moves need.
#[test]
fn many_moves_are_added_in_turn(rt: HostRuntime) -> Result<(), OutOfMemory> {
    let g = graph_of(rt.alloc(), 2, &[(0, 0), (1, 1)], 200_000)?;
    assert!(rt; lead_back(&g, 200_000));
    Ok(())
}
