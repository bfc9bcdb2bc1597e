//! The parts of the product of two copies of a graph. A whole step takes a move of the first copy together with a move
//! of the second; two half steps take first a move of the second copy, then a move of the first.

ghost use Rattle.std.specs.Prelude.{◌≡◌, ◌+◌, ◌*◌, ◌<◌, ◌^◌, IsTrue, length, IfOk, IfSome};
ghost use Rattle.rl_graph.specs.Graph.{edges_of};
ghost use Rattle.rl_graph.specs.Parts.{IsParts};
ghost use Rattle.rl_graph.specs.Product.{marked_moves, pair_moves};
ghost use Rattle.rl_graph.specs.internal.Halves.{AreRows};

use crate::dense::dense;
use crate::graph::Multigraph;
use crate::halves::HalfSteps;
use crate::marked::{MarkedPairs, letters_of, loops_of, repeats_of};
use crate::moves::{NextStates, Twice};
use crate::parts::{Parts, parts_of};
use crate::rows::{Rows, rows_of};
use rl_lists::OutOfMemory;
use std::alloc::Global;

/// Half steps are used only if by estimate there are more than this many times as many whole steps.
const GAIN: u64 = 4;

/// The number of moves of a graph, and the sum over all letters of the squared number of moves on the letter, that is,
/// the number of pairs of moves on the same letter. Both stop at the largest `u64`.
#[derive(Clone, Copy)]
struct Counts {
    moves: u64,
    pairs: u64,
}

/// Returns the number of marks that are true.
fn count_of(marks: &[bool]) -> u64 {
    let mut count: u64 = 0;
    for mark in marks {
        if *mark {
            count = count.saturating_add(1);
        }
    }
    count
}

/// Returns the number of moves of all states on `letter`.
fn moves_on(g: &Multigraph, letter: u32) -> u64
    requires { letter < g.now.letters }
{
    let mut moves: u64 = 0;
    for state in 0..g.states() {
        moves = moves.saturating_add(g.edges(state, letter).len() as u64);
    }
    moves
}

/// Returns the number of moves of a graph, and the number of pairs of moves on the same letter.
fn counts_of(g: &Multigraph) -> Counts {
    let mut counts = Counts { moves: 0, pairs: 0 };
    for letter in 0..g.letters() {
        let moves = moves_on(g, letter);
        counts.moves = counts.moves.saturating_add(moves);
        counts.pairs = counts.pairs.saturating_add(moves.saturating_mul(moves));
    }
    counts
}

/// Returns an estimate of the number of pairs of moves that `moving` pairs of states have: `moving` times the average
/// over all pairs of states, rounded down.
fn moving_pairs(g: &Multigraph, counts: Counts, moving: u64) -> u64 {
    let states = u64::from(g.states());
    if states == 0 {
        return 0;
    }
    (counts.pairs / (states * states)).saturating_mul(moving)
}

/// Returns whether `steps` divided by [`GAIN`], rounded down, is greater than the number of states times the number of
/// moves.
fn is_dense(g: &Multigraph, counts: Counts, steps: u64) -> bool {
    steps / GAIN > counts.moves.saturating_mul(u64::from(g.states()))
}

/// Returns whether half steps through `rows` distinct rows pay: whether `steps` divided by [`GAIN`], rounded down, is
/// greater than the product of `rows` and the numbers of states and letters. The result is false if there are no
/// letters, or if the number of a node might not fit a `u64`.
fn is_shared(g: &Multigraph, steps: u64, rows: usize) -> bool
    ensures { IsTrue result → (g.now.states + rows < 2 ^ 32) × (0 < g.now.letters) }
{
    let states = u64::from(g.states());
    let letters = g.letters();
    let nodes = states.saturating_mul(rows as u64);
    letters > 0
        && (rows as u64) < 4_294_967_296 - states
        && steps / GAIN > nodes.saturating_mul(u64::from(letters))
}

/// Returns the numbered rows of a graph if, by estimate, half steps are much cheaper than whole steps when `moving`
/// pairs of states have moves, and `None` otherwise.
fn rows_for_halves(alloc: Global, g: &Multigraph, moving: u64) -> Result<Option<Rows>, OutOfMemory>
    ensures { IfOk result (λ o. IfSome o (λ r. AreRows g.now r.numbers.items r.owners.items)) }
{
    let counts = counts_of(g);
    let steps = moving_pairs(g, counts, moving);
    if !is_dense(g, counts, steps) {
        return Ok(None);
    }
    let rows = rows_of(alloc, g)?;
    if is_shared(g, steps, rows.owners.len()) {
        Ok(Some(rows))
    } else {
        Ok(None)
    }
}

/// Returns the parts of the product in which only the pairs marked in `moving` move, found by whole steps.
fn whole_parts(alloc: Global, g: &Multigraph, moving: &[bool]) -> Result<Parts, OutOfMemory>
    requires { length moving.now ≡ g.now.states * g.now.states }
    ensures { IfOk result (IsParts (marked_moves (edges_of g.now) g.now.states moving.now) (g.now.states * g.now.states)) }
{
    // Reading the number of states tells the prover that the graph is well formed.
    let _states = g.states();
    let letters = letters_of(alloc, g)?;
    let repeats = repeats_of(alloc, g, &letters)?;
    let loops = loops_of(alloc, g)?;
    let pairs = MarkedPairs {
        graph: g,
        marks: moving,
        letters: &letters,
        repeats: &repeats,
        loops: &loops,
    };
    let parts = parts_of(alloc, &pairs)?;
    Ok(parts)
}

/// Returns the parts of the product in which only the pairs marked in `moving` move, found by half steps. `rows` has
/// the numbered rows of the graph.
fn half_parts(
    alloc: Global,
    g: &Multigraph,
    moving: &[bool],
    rows: &Rows,
) -> Result<Parts, OutOfMemory>
    requires size { length moving.now ≡ g.now.states * g.now.states }
    requires rows { AreRows g.now rows.now.numbers.items rows.now.owners.items }
    ensures { IfOk result (IsParts (marked_moves (edges_of g.now) g.now.states moving.now) (g.now.states * g.now.states)) }
{
    let count = u64::from(g.states());
    let steps = HalfSteps {
        graph: g,
        marks: moving,
        rows,
    };
    let parts = parts_of(alloc, &steps)?;
    let cut = dense(alloc, &parts, steps.states(), count * count)?;
    Ok(cut)
}

/// Returns the parts, that is, the strongly connected components, of the product of two copies of `g` in which only
/// marked pairs have moves. In a graph with `n` states, the pair of the states `p` and `q` is the state `p * n + q` of
/// the product, and it is marked if `moving[p * n + q]` is true. `moving` must have `n * n` flags. The flag of a pair
/// says nothing about moves to it. If by estimate that is much cheaper, the search moves the two copies one after the
/// other (half steps) instead of together.
///
/// # Errors
/// [`OutOfMemory`] if there is not enough memory for the search or the parts.
pub fn pair_parts(alloc: Global, g: &Multigraph, moving: &[bool]) -> Result<Parts, OutOfMemory>
    requires { length moving.now ≡ g.now.states * g.now.states }
    ensures { IfOk result (IsParts (marked_moves (edges_of g.now) g.now.states moving.now) (g.now.states * g.now.states)) }
{
    match rows_for_halves(alloc, g, count_of(moving))? {
        Some(rows) => half_parts(alloc, g, moving, &rows),
        None => whole_parts(alloc, g, moving),
    }
}

/// Returns the parts, that is, the strongly connected components, of the product of two copies of `g`, found as by
/// [`pair_parts`] with all pairs marked. In a graph with `n` states, the pair of the states `p` and `q` is the state
/// `p * n + q` of the product.
///
/// # Errors
/// [`OutOfMemory`] if there is not enough memory for the search or the parts.
pub fn product_parts(alloc: Global, g: &Multigraph) -> Result<Parts, OutOfMemory>
    ensures { IfOk result (IsParts (pair_moves (edges_of g.now) g.now.states) (g.now.states * g.now.states)) }
{
    let count = u64::from(g.states());
    match rows_for_halves(alloc, g, count * count)? {
        Some(rows) => {
            let all = vec![in alloc; true; (count * count) as usize]?;
            half_parts(alloc, g, &all, &rows)
        }
        None => parts_of(alloc, &Twice { graph: g }),
    }
}
