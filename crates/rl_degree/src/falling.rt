//! The parts of the product of two copies of a graph in which only pairs that fall have moves. A pair falls if its
//! second state is in a component with a smaller number than the first. `levels` has the number of each state's
//! component.

ghost use Rattle.std.specs.Prelude.{◌≡◌, ◌+◌, ◌*◌, ◌<◌, ◌&&◌, not, nat_lt, nat_eq, length, slice_index, IfOk, OnOk};
ghost use Rattle.std.specs.Int.Bits.{bit_and};
ghost use Rattle.rl_graph.specs.Graph.{edges_of, IsWhole};
ghost use Rattle.rl_degree.specs.internal.FallingPairs.{falling_moves, AreFlags, AreFlagsUpTo, IsParted};

use crate::entries::entries_of;
use rl_graph::{Multigraph, Parts, pair_parts};
use rl_lists::OutOfMemory;
use std::alloc::Global;

/// Returns whether the pair of the states `first` and `second` falls and their entries have a bit in common. If they
/// have none, no letter leads to both states, so no move leads to the pair. Letters whose difference is a multiple of
/// 64 share a bit.
fn is_walked(levels: &[u32], entries: &[u64], first: usize, second: usize) -> bool
    requires first_in { first < length levels.now }
    requires second_in { second < length levels.now }
    requires size { length entries.now ≡ length levels.now }
    ensures { result ≡ (nat_lt (slice_index levels.now second) (slice_index levels.now first) && not (nat_eq (bit_and (slice_index entries.now first) (slice_index entries.now second)) 0)) }
{
    levels[second] < levels[first] && entries[first] & entries[second] != 0
}

/// Appends a flag for each pair with the first state `first`, which says whether the pair falls and the entries of its
/// two states have a bit in common.
fn push_flags(
    flags: &mut Vec<bool>,
    levels: &[u32],
    entries: &[u64],
    first: usize,
) -> Result<(), OutOfMemory>
    requires first_in { first < length levels.now }
    requires size { length entries.now ≡ length levels.now }
    requires so_far { AreFlagsUpTo levels.now entries.now (length levels.now) (first * length levels.now) flags.old.items }
    ensures { OnOk result (AreFlagsUpTo levels.now entries.now (length levels.now) ((first + 1) * length levels.now) flags.new.items) }
{
    for second in 0..levels.len() {
        flags.push(is_walked(levels, entries, first, second))?;
    }
    Ok(())
}

/// Returns a flag for each pair of states, which says whether the pair falls and the entries of its two states have a
/// bit in common. In a graph with `n` states, the pair of `p` and `q` has the index `p * n + q`.
fn falling_flags(alloc: Global, levels: &[u32], entries: &[u64]) -> Result<Vec<bool>, OutOfMemory>
    requires { length entries.now ≡ length levels.now }
    ensures { IfOk result (λ v. AreFlags levels.now entries.now (length levels.now) v.items) }
{
    let mut flags = Vec::new(alloc);
    for first in 0..levels.len() {
        push_flags(&mut flags, levels, entries, first)?;
    }
    Ok(flags)
}

/// Returns the parts of the product of two copies of a graph in which only pairs that fall have moves. `levels` has the
/// number of each state's component. The search follows only pairs to which a move may lead, since every other pair is
/// a part by itself.
///
/// # Errors
/// [`OutOfMemory`] if there is not enough memory for the search or the parts.
pub(crate) fn falling_parts(
    alloc: Global,
    g: &Multigraph,
    levels: &[u32],
) -> Result<Parts, OutOfMemory>
    requires whole { IsWhole g.now }
    requires size { length levels.now ≡ g.now.states }
    ensures { IfOk result (IsParted (falling_moves (edges_of g.now) levels.now g.now.states) (g.now.states * g.now.states)) }
{
    let entries = entries_of(alloc, g)?;
    let flags = falling_flags(alloc, levels, &entries)?;
    let parts = pair_parts(alloc, g, &flags)?;
    Ok(parts)
}
