//! Twins, found from the parts, that is, the strongly connected components, of the products of the components of a
//! graph with themselves. A twin is a state with two different paths to itself along one word. A fork is two different
//! moves of a state on one letter such that one word leads back to the state from both targets; a graph has a twin if
//! and only if it has a fork.

ghost use Rattle.std.specs.Prelude.{◌≡◌, ℕ, ◌+◌, ◌*◌, ◌<◌, List, [], length, All, IfOk, OnOk, IfSome, IfNone};
ghost use Rattle.rl_graph.specs.Graph.{edges_of};
ghost use Rattle.rl_graph.specs.Parts.{IsParts};
ghost use Rattle.rl_graph.specs.Paths.{IsPath};
ghost use Rattle.rl_graph.specs.Product.{pair_moves};
ghost use Rattle.rl_graph.specs.Twins.{IsTwin, HasNoTwin};
ghost use Rattle.rl_expo.specs.internal.Search.{AreMoves, LeadsBack, IsLonger, targets_of};
ghost use Rattle.rl_expo.specs.internal.Sides.{AreSides};

use crate::blocks::fork_in;
use crate::forks::Fork;
use crate::stays::forking;
use rl_graph::{Components, FoundPath, Multigraph, Twice, path_between};
use rl_lists::{Items, OutOfMemory, Path, Word};
use std::alloc::Global;

/// A twin: a state, a word, and two different paths from the state back to itself along the word. A path is given by
/// the number of each move, counted from 0 among the moves of its state and letter. Parallel moves are different moves.
#[derive(Drop)]
pub struct TwinPaths {
    /// The state at which both paths start and end.
    pub state: u32,
    /// The letters of the word.
    pub word: Word,
    /// The move numbers of the first path.
    pub first: Path,
    /// The move numbers of the second path.
    pub second: Path,
}

impl TwinPaths {
    /// Returns the empty word, with two paths of `state` without moves.
    fn new(alloc: Global, state: u32) -> TwinPaths
        ensures state { result.state ≡ state }
        ensures word { result.word ≡ [] }
        ensures first { result.first ≡ [] }
        ensures second { result.second ≡ [] }
    {
        TwinPaths {
            state,
            word: Items::new(alloc),
            first: Items::new(alloc),
            second: Items::new(alloc),
        }
    }

    /// Appends a letter to the word, and a move number to each path.
    fn push(&mut self, letter: u32, first: u32, second: u32) -> Result<(), OutOfMemory>
        ensures { OnOk result (IsLonger letter first second self.old self.new) }
    {
        self.word.push(letter)?;
        self.first.push(first)?;
        self.second.push(second)
    }
}

/// A move of the product, split into a move of each copy: the numbers of the two moves (`first` and `second`) and their
/// targets (`one` and `other`).
#[derive(Clone, Copy)]
struct Sides {
    first: u32,
    second: u32,
    one: u32,
    other: u32,
}

/// Returns the moves of the two copies of which the move with the number `number` of the pair of `one` and `other` on
/// `letter` consists.
fn split_move(g: &Multigraph, one: u32, other: u32, letter: u32, number: u64) -> Sides
    requires one_in { one < g.now.states }
    requires other_in { other < g.now.states }
    requires letter_in { letter < g.now.letters }
    requires number_in { number < length (edges_of g.now one letter) * length (edges_of g.now other letter) }
    ensures { AreSides (edges_of g.now) g.now.states one other letter number result.first result.second result.one result.other }
{
    // Reading the number of states tells the prover that the graph is well formed.
    let _states = g.states();
    let ones = g.edges(one, letter);
    let others = g.edges(other, letter);
    let width = others.len() as u64;
    let first = number / width;
    let second = number % width;
    Sides {
        first: first as u32,
        second: second as u32,
        one: ones[first as usize],
        other: others[second as usize],
    }
}

/// Returns the twin that a fork makes with a path of the product, `back`, from the pair of the targets of its two moves
/// to the pair of its state with itself. Each path of the twin is one of the moves, followed by one side of `back`.
fn twin_along(
    alloc: Global,
    g: &Multigraph,
    fork: Fork,
    back: &FoundPath,
) -> Result<TwinPaths, OutOfMemory>
    requires moves { AreMoves g.now fork }
    requires back { IsPath (pair_moves (edges_of g.now) g.now.states) (targets_of g.now fork) (fork.state * g.now.states + fork.state) back.now.moves back.now.word }
    ensures twin { IfOk result (λ t. IsTwin (edges_of g.now) t.state t.word t.first t.second) }
    ensures state { IfOk result (λ t. t.state < g.now.states) }
    ensures letters { IfOk result (λ t. All (λ l. l < g.now.letters) t.word) }
{
    // Reading the number of states tells the prover that the graph is well formed.
    let _states = g.states();
    let row = g.edges(fork.state, fork.letter);
    let mut one = row[fork.first as usize];
    let mut other = row[fork.second as usize];
    let mut twin = TwinPaths::new(alloc, fork.state);
    twin.push(fork.letter, fork.first, fork.second)?;
    let letters = back.word.as_slice();
    let numbers = back.moves.as_slice();
    for place in 0..letters.len() {
        let letter = letters[place];
        let step = split_move(g, one, other, letter, numbers[place]);
        twin.push(letter, step.first, step.second)?;
        one = step.one;
        other = step.other;
    }
    Ok(twin)
}

/// Returns a twin made from a fork: two moves such that one word leads back from both targets. The result is never
/// `None`.
fn twin_of(alloc: Global, g: &Multigraph, fork: Fork) -> Result<Option<TwinPaths>, OutOfMemory>
    requires moves { AreMoves g.now fork }
    requires back { LeadsBack g.now fork }
    ensures twin { IfOk result (λ o. IfSome o (λ t. IsTwin (edges_of g.now) t.state t.word t.first t.second)) }
    ensures state { IfOk result (λ o. IfSome o (λ t. t.state < g.now.states)) }
    ensures letters { IfOk result (λ o. IfSome o (λ t. All (λ l. l < g.now.letters) t.word)) }
    ensures found { IfOk result (λ o. IfNone o ⊥) }
{
    let count = u64::from(g.states());
    let row = g.edges(fork.state, fork.letter);
    let from = u64::from(row[fork.first as usize]) * count + u64::from(row[fork.second as usize]);
    let to = u64::from(fork.state) * count + u64::from(fork.state);
    match path_between(alloc, &Twice { graph: g }, from, to)? {
        Some(back) => {
            let twin = twin_along(alloc, g, fork, &back)?;
            Ok(Some(twin))
        }
        None => Ok(None),
    }
}

/// Returns the same as [`twin`] for a graph whose strongly connected components are `components`, as
/// [`Multigraph::components`] returns them.
///
/// # Errors
/// [`OutOfMemory`] if there is not enough memory for the search or the twin.
pub fn twin_over(
    alloc: Global,
    g: &Multigraph,
    components: &Components,
) -> Result<Option<TwinPaths>, OutOfMemory>
    requires parts { IsParts (edges_of g.now) g.now.states components.now }
    ensures twin { IfOk result (λ o. IfSome o (λ t. IsTwin (edges_of g.now) t.state t.word t.first t.second)) }
    ensures state { IfOk result (λ o. IfSome o (λ t. t.state < g.now.states)) }
    ensures letters { IfOk result (λ o. IfSome o (λ t. All (λ l. l < g.now.letters) t.word)) }
    ensures none { IfOk result (λ o. IfNone o (HasNoTwin (edges_of g.now))) }
    ensures no_paths { IfOk result (λ o. IfNone o ((q : ℕ) (w p r : List ℕ) → IsTwin (edges_of g.now) q w p r → ⊥)) }
{
    let marks = forking(alloc, g, components)?;
    match fork_in(alloc, g, components, &marks)? {
        Some(fork) => twin_of(alloc, g, fork),
        None => Ok(None),
    }
}

/// Returns a twin of a graph, or `None` if and only if the graph has none.
///
/// A twin lies within one component. For each component in which some state has two moves on one letter that stay in
/// the component, the search finds the parts of the product of two copies of the component. It then looks for two moves
/// of a state on one letter whose targets, as a pair, are in the same part as the pair of the state with itself (the
/// test for EDA of Weber and Seidl 1991). States with many moves on one letter are first searched for a twin whose
/// sides meet after two moves. Once such moves are found, a breadth-first search over pairs of states of the whole
/// graph finds the paths of the twin.
///
/// # Errors
/// [`OutOfMemory`] if there is not enough memory for the search or the twin.
pub fn twin(alloc: Global, g: &Multigraph) -> Result<Option<TwinPaths>, OutOfMemory>
    ensures twin { IfOk result (λ o. IfSome o (λ t. IsTwin (edges_of g.now) t.state t.word t.first t.second)) }
    ensures state { IfOk result (λ o. IfSome o (λ t. t.state < g.now.states)) }
    ensures letters { IfOk result (λ o. IfSome o (λ t. All (λ l. l < g.now.letters) t.word)) }
    ensures none { IfOk result (λ o. IfNone o (HasNoTwin (edges_of g.now))) }
    ensures no_paths { IfOk result (λ o. IfNone o ((q : ℕ) (w p r : List ℕ) → IsTwin (edges_of g.now) q w p r → ⊥)) }
{
    let components = g.components()?;
    twin_over(alloc, g, &components)
}
