//! Longest chains of splits. A twin is a state with two different paths to itself along one word. A split is two
//! different states `r` and `q` with paths from `r` to `r`, from `r` to `q` and from `q` to `q` along one word. In a
//! chain of splits from a state, the state reaches the first state of the first split, and the second state of each
//! split reaches the first state of the next one. The rank of a state is the number of splits in a longest chain from
//! it.

ghost use Rattle.std.specs.Prelude.{◌≡◌, ℕ, ◌<◌, ◌≤◌, List, length, replicate, slice_index, All, IfOk, IfSome, IfNone, IsTrue};
ghost use Rattle.rl_graph.specs.Graph.{edges_of};
ghost use Rattle.rl_graph.specs.Parts.{IsParts, cycle_of, number_of};
ghost use Rattle.rl_graph.specs.Twins.{HasNoTwin, Link, ChainFrom};
ghost use Rattle.rl_degree.specs.internal.Pairs.{IsTable};
ghost use Rattle.rl_degree.specs.internal.Ranks.{AreBests, best_at};
ghost use Rattle.rl_degree.specs.internal.Greatest.{AreLongest, IsGreatest};
ghost use Rattle.rl_degree.specs.Leavers.{HasNoSplit};
ghost use Rattle.rl_degree.specs.Chains.{links_of, IsSplitIn, IsChain, AreRanks, IsLoop, HasNoCycle};

use crate::kernel::has_two;
use crate::pairs::{PairTable, table_of};
use crate::ranks::{Best, all_bests, ranks_of};
use crate::searches::split_word;
use rl_graph::{Components, FoundPath, Multigraph, cycle_through};
use rl_lists::{Items, OutOfMemory, Ranks, Word};
use std::alloc::Global;

/// A split: two different states and a word along which paths lead from the first state to itself, from the first to
/// the second and from the second to itself.
#[derive(Drop)]
pub struct Split {
    /// The first state.
    pub from: u32,
    /// The second state.
    pub to: u32,
    /// The letters of the word.
    pub word: Word,
}

/// A state on a cycle, with a non-empty word that leads from it back to it.
#[derive(Drop)]
pub struct Loop {
    /// The state at which the word starts and ends.
    pub state: u32,
    /// The letters of the word, at least one.
    pub word: Word,
}

/// A list of splits.
pub type Splits = Items<Split>;

/// A longest chain of splits of a graph, with the rank of each state and a loop. A chain from a state begins with a
/// split whose first state is that state or is reached from it.
#[derive(Drop)]
pub struct Chain {
    /// The splits in order. The second state of each reaches the first state of the next one.
    pub links: Splits,
    /// The rank of each state, at the state's index: the number of splits in a longest chain from it.
    pub ranks: Ranks,
    /// A loop through a state that lies on a cycle, or `None` if the graph has no cycle.
    pub cycle: Option<Loop>,
}

/// Returns the index of a greatest rank: the first one.
fn top_place(ranks: &[u32]) -> usize
    requires { 0 < length ranks.now }
    ensures place_in { result < length ranks.now }
    ensures greatest { (q : ℕ) → q < length ranks.now → slice_index ranks.now q ≤ slice_index ranks.now result }
{
    let mut top = 0;
    for place in 0..ranks.len() {
        if ranks[top] < ranks[place] {
            top = place;
        }
    }
    top
}

/// Returns a longest chain of splits from the state `start`. `bests` has the best chain of each component.
fn chain_from(
    alloc: Global,
    g: &Multigraph,
    table: &PairTable,
    bests: &[Best],
    start: u32,
) -> Result<Splits, OutOfMemory>
    requires table { IsTable g.now table.now }
    requires no_twin { HasNoTwin (edges_of g.now) }
    requires bests { AreBests (edges_of g.now) g.now.states table.now.components g.now.states bests.now }
    requires start_in { start < g.now.states }
    ensures chain { IfOk result (λ l. ChainFrom (edges_of g.now) start (links_of l)) }
    ensures long { IfOk result (λ l. length l ≡ (best_at bests.now (number_of table.now.components start)).rank) }
    ensures states { IfOk result (All (IsSplitIn g.now.states)) }
{
    let mut links = Items::new(alloc);
    let mut state = start;
    let mut best = bests[table.components.of(state) as usize];
    while best.rank > 0 {
        match split_word(alloc, g, table, best.from, best.to)? {
            Some(word) => {
                links.push(Split {
                    from: best.from,
                    to: best.to,
                    word,
                })?;
                state = best.to;
                best = bests[table.components.of(state) as usize];
            }
            None => unreachable!(),
        }
    }
    Ok(links)
}

/// Returns a loop through `state`, which lies on a cycle.
fn loop_at(
    alloc: Global,
    g: &Multigraph,
    components: &Components,
    state: u32,
) -> Result<Loop, OutOfMemory>
    requires parts { IsParts (edges_of g.now) g.now.states components.now }
    requires state_in { state < g.now.states }
    requires cycle { IsTrue (cycle_of components.now state) }
    ensures { IfOk result (IsLoop (edges_of g.now) g.now.states) }
{
    match cycle_through(alloc, g, u64::from(state))? {
        Some(path) => {
            let FoundPath { word, moves: _ } = path;
            Ok(Loop { state, word })
        }
        None => unreachable!(),
    }
}

/// Returns a loop through the least state that lies on a cycle, or `None` if the graph has no cycle.
fn some_loop(
    alloc: Global,
    g: &Multigraph,
    components: &Components,
) -> Result<Option<Loop>, OutOfMemory>
    requires parts { IsParts (edges_of g.now) g.now.states components.now }
    ensures cycle { IfOk result (λ o. IfSome o (IsLoop (edges_of g.now) g.now.states)) }
    ensures none { IfOk result (λ o. IfNone o (HasNoCycle (edges_of g.now))) }
{
    for state in 0..g.states() {
        if components.on_cycle(state) {
            let found = loop_at(alloc, g, components, state)?;
            return Ok(Some(found));
        }
    }
    Ok(None)
}

/// Returns `count` ranks of 0.
fn no_ranks(alloc: Global, count: u32) -> Result<Ranks, OutOfMemory>
    ensures { IfOk result (λ r. r ≡ replicate count 0) }
{
    let ranks = vec![in alloc; 0; count as usize]?;
    Ok(Items::from_vec(ranks))
}

/// Returns the result for a graph that has no split: an empty chain, ranks of 0, and a loop if there is a cycle.
fn without_split(
    alloc: Global,
    g: &Multigraph,
    components: &Components,
) -> Result<Chain, OutOfMemory>
    requires parts { IsParts (edges_of g.now) g.now.states components.now }
    requires no_split { HasNoSplit (edges_of g.now) g.now.states }
    ensures { IfOk result (IsGreatest (edges_of g.now) g.now.states) }
{
    let ranks = no_ranks(alloc, g.states())?;
    let cycle = some_loop(alloc, g, components)?;
    Ok(Chain {
        links: Items::new(alloc),
        ranks,
        cycle,
    })
}

/// Returns the splits of a longest chain of a graph: a longest chain from a state of the greatest rank. The list is
/// empty if the graph has no states.
fn longest_links(
    alloc: Global,
    g: &Multigraph,
    table: &PairTable,
    bests: &[Best],
    ranks: &[u32],
) -> Result<Splits, OutOfMemory>
    requires table { IsTable g.now table.now }
    requires no_twin { HasNoTwin (edges_of g.now) }
    requires bests { AreBests (edges_of g.now) g.now.states table.now.components g.now.states bests.now }
    requires ranks { AreRanks (edges_of g.now) g.now.states ranks.now }
    ensures { IfOk result (AreLongest (edges_of g.now) g.now.states) }
{
    if ranks.is_empty() {
        return Ok(Items::new(alloc));
    }
    chain_from(alloc, g, table, bests, top_place(ranks) as u32)
}

/// Returns a longest chain of splits, the ranks and a loop of a graph without a twin, for which `table` was made.
fn chain_by(alloc: Global, g: &Multigraph, table: &PairTable) -> Result<Chain, OutOfMemory>
    requires table { IsTable g.now table.now }
    requires no_twin { HasNoTwin (edges_of g.now) }
    ensures { IfOk result (IsGreatest (edges_of g.now) g.now.states) }
{
    let bests = all_bests(alloc, g, table)?;
    let ranks = ranks_of(alloc, g, &table.components, &bests)?;
    let links = longest_links(alloc, g, table, &bests, ranks.as_slice())?;
    let cycle = some_loop(alloc, g, &table.components)?;
    Ok(Chain {
        links,
        ranks,
        cycle,
    })
}

/// Returns a longest chain of splits, the ranks and a loop of a graph without a twin, which may have a split.
fn with_splits(alloc: Global, g: &Multigraph, components: Components) -> Result<Chain, OutOfMemory>
    requires parts { IsParts (edges_of g.now) g.now.states components }
    requires no_twin { HasNoTwin (edges_of g.now) }
    ensures { IfOk result (IsGreatest (edges_of g.now) g.now.states) }
{
    let table = table_of(alloc, g, components)?;
    chain_by(alloc, g, &table)
}

/// Returns a longest chain of splits, the ranks and a loop of a graph without a twin. Such a graph has no split unless
/// at least two of its components have states on cycles.
fn greatest(alloc: Global, g: &Multigraph, components: Components) -> Result<Chain, OutOfMemory>
    requires parts { IsParts (edges_of g.now) g.now.states components }
    requires no_twin { HasNoTwin (edges_of g.now) }
    ensures { IfOk result (IsGreatest (edges_of g.now) g.now.states) }
{
    if has_two(&components, g.states()) {
        with_splits(alloc, g, components)
    } else {
        without_split(alloc, g, &components)
    }
}

/// Returns the same as [`degree`] for a graph without a twin, whose strongly connected components are `components`, as
/// [`Multigraph::components`] returns them. If all states on cycles are in one component, there is no split, and
/// nothing is searched.
///
/// # Errors
/// [`OutOfMemory`] if there is not enough memory for the search or the result.
pub fn degree_over(
    alloc: Global,
    g: &Multigraph,
    components: Components,
) -> Result<Chain, OutOfMemory>
    requires parts { IsParts (edges_of g.now) g.now.states components }
    requires no_twin { HasNoTwin (edges_of g.now) }
    ensures links { IfOk result (λ c. IsChain (edges_of g.now) c.links) }
    ensures states { IfOk result (λ c. All (IsSplitIn g.now.states) c.links) }
    ensures longest { IfOk result (λ c. (s : ℕ) (ms : List Link) → s < g.now.states → ChainFrom (edges_of g.now) s ms → length ms ≤ length c.links) }
    ensures ranks { IfOk result (λ c. AreRanks (edges_of g.now) g.now.states c.ranks) }
    ensures cycle { IfOk result (λ c. IfSome c.cycle (IsLoop (edges_of g.now) g.now.states)) }
    ensures no_cycle { IfOk result (λ c. IfNone c.cycle (HasNoCycle (edges_of g.now))) }
{
    let chain = greatest(alloc, g, components)?;
    Ok(chain)
}

/// Returns a longest chain of splits of a graph without a twin, the rank of each state, and a loop if the graph has a
/// cycle.
///
/// A split leads from a state on a cycle to a state on a cycle of a lower component, that is, a component with a
/// smaller number. The search takes the moves of the states on cycles that stay in a component, and makes the product
/// of two copies of this graph. Only pairs whose second state is in a lower component than the first have moves.
///
/// Each part of the product that holds a cycle is searched at most once, from one of its pairs (the test for IDA of
/// Weber and Seidl 1991). The search goes over triples of states whose outer two are a pair of that part. Each of these
/// pairs has a row of bits for the middle states, so no triple is met twice. Middle states that can't reach the second
/// state of the split are left out. Ranks and chains are found component by component, and only a split that makes a
/// chain longer is searched for.
///
/// # Errors
/// [`OutOfMemory`] if there is not enough memory for the search or the result.
pub fn degree(alloc: Global, g: &Multigraph) -> Result<Chain, OutOfMemory>
    requires no_twin { HasNoTwin (edges_of g.now) }
    ensures links { IfOk result (λ c. IsChain (edges_of g.now) c.links) }
    ensures states { IfOk result (λ c. All (IsSplitIn g.now.states) c.links) }
    ensures longest { IfOk result (λ c. (s : ℕ) (ms : List Link) → s < g.now.states → ChainFrom (edges_of g.now) s ms → length ms ≤ length c.links) }
    ensures ranks { IfOk result (λ c. AreRanks (edges_of g.now) g.now.states c.ranks) }
    ensures cycle { IfOk result (λ c. IfSome c.cycle (IsLoop (edges_of g.now) g.now.states)) }
    ensures no_cycle { IfOk result (λ c. IfNone c.cycle (HasNoCycle (edges_of g.now))) }
{
    let components = g.components()?;
    degree_over(alloc, g, components)
}
