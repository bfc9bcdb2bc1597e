//! Paths of the graph of live pairs, and the moves of the automaton that they make. A pair is a state of the automaton with a
//! set: the states that were tried before it.

ghost use Rattle.std.specs.Prelude.{◌≡◌, ℕ, suc, ◌+◌, ◌-◌, ◌^◌, ◌<◌, ◌≤◌, ◌==◌, All, length, map, drop, slice_index_or, IfOk, []};
ghost use Rattle.std.specs.List.{list_any};
ghost use Rattle.rl_ranges.specs.Letters.{place_where};
ghost use Rattle.rl_graph.specs.Graph.{edges_of};
ghost use Rattle.rl_graph.specs.Paths.{paths, IsPath};
ghost use Rattle.rl_prio.specs.Automaton.{moves_at, letters_count};
ghost use Rattle.rl_pairs.specs.PairGraph.{IsPairGraph};
ghost use Rattle.rl_pairs.specs.PairTable.{moves_in, pair_in};
ghost use Rattle.rl_why.specs.internal.Paths.{flag, is_led, path_to, AreFlags};
ghost use Rattle.rl_why.specs.internal.Numbers.{state_in, kept_place, numbers_in};

use rl_graph::Multigraph;
use rl_lists::{Items, OutOfMemory, Path};
use rl_pairs::PairGraph;
use rl_prio::Prio;
use std::alloc::Global;

/// Flags, one for each state.
type Flags = Items<bool>;

/// Returns whether one of the targets has a flag that is set.
fn has_flag(targets: &[u32], flags: &[bool]) -> bool
    requires { All (λ target. target < length flags.now) targets.now }
    ensures { result ≡ list_any (flag flags.now) targets.now }
{
    for target in targets {
        if flags[*target as usize] {
            return true;
        }
    }
    false
}

/// Returns for each state whether it has a move on the letter to a state whose flag is set.
fn flags_before(
    alloc: Global,
    g: &Multigraph,
    letter: u32,
    flags: &[bool],
) -> Result<Flags, OutOfMemory>
    requires letter_in { letter < g.now.letters }
    requires size { length flags.now ≡ g.now.states }
    ensures { IfOk result (AreFlags g.now.states (λ q. list_any (flag flags.now) (edges_of g.now q letter))) }
{
    let mut before = Items::new(alloc);
    for state in 0..g.states() {
        before.push(has_flag(g.edges(state, letter), flags))?;
    }
    Ok(before)
}

/// Returns for each state whether it is the state `to`.
fn flags_at(alloc: Global, g: &Multigraph, to: u32) -> Result<Flags, OutOfMemory>
    ensures { IfOk result (AreFlags g.now.states (λ q. q == to)) }
{
    let mut flags = Items::new(alloc);
    for state in 0..g.states() {
        flags.push(state == to)?;
    }
    Ok(flags)
}

/// Returns for each end of the word, the shortest one first, from which states it leads to the state `to`.
fn flags_along(
    alloc: Global,
    g: &Multigraph,
    to: u32,
    word: &[u32],
) -> Result<Items<Flags>, OutOfMemory>
    requires { All (λ letter. letter < g.now.letters) word.now }
    ensures size { IfOk result (λ layers. length layers ≡ length word.now + 1) }
    ensures right { IfOk result (λ layers. (k : ℕ) → k ≤ length word.now
        → AreFlags g.now.states (is_led (edges_of g.now) to (drop (length word.now - k) word.now)) (slice_index_or layers k [])) }
{
    // Reading the number of states tells the prover that the graph is well formed.
    let _states = g.states();
    let mut layers = Items::new(alloc);
    layers.push(flags_at(alloc, g, to)?)?;
    for k in 0..word.len() {
        let letter = word[word.len() - 1 - k];
        let flags = flags_before(alloc, g, letter, layers.as_slice()[k].as_slice())?;
        layers.push(flags)?;
    }
    Ok(layers)
}

/// Returns the index of the first target whose flag is set, or the number of targets if there is none.
fn first_flag(targets: &[u32], flags: &[bool]) -> u32
    requires inside { All (λ target. target < length flags.now) targets.now }
    requires few { length targets.now < 2 ^ 32 }
    ensures { result ≡ place_where (flag flags.now) targets.now }
{
    let mut place = 0;
    for target in targets {
        if flags[*target as usize] {
            return place;
        }
        place += 1;
    }
    place
}

/// Returns a path from one state to another along a word that leads there.
///
/// # Errors
/// [`OutOfMemory`] if there is not enough memory for the search or the path.
pub(crate) fn path_along(
    alloc: Global,
    g: &Multigraph,
    from: u32,
    to: u32,
    word: &[u32],
) -> Result<Path, OutOfMemory>
    requires from_in { from < g.now.states }
    requires letters { All (λ letter. letter < g.now.letters) word.now }
    requires leads { 1 ≤ paths (edges_of g.now) from to word.now }
    ensures { IfOk result (λ path. IsPath (edges_of g.now) from to path word.now) }
{
    let layers = flags_along(alloc, g, to, word)?;
    let mut path = Items::new(alloc);
    let mut state = from;
    for k in 0..word.len() {
        let flags = &layers.as_slice()[word.len() - 1 - k];
        let targets = g.edges(state, word[k]);
        let number = first_flag(targets, flags.as_slice());
        path.push(number)?;
        state = targets[number as usize];
    }
    Ok(path)
}

/// Returns the number, among the targets of a state of the automaton, of the move that the kept move with the number `number`
/// is. The kept moves lead to pairs, whose states are some of the targets, in the same order.
fn number_of(g: &PairGraph, kept: &[u32], targets: &[u32], number: u32) -> u32
    requires kept_in { All (λ k. k < g.now.graph.states) kept.now }
    requires number_in { number < length kept.now }
    requires few { length targets.now < 2 ^ 32 }
    ensures { result ≡ kept_place (map (state_in g.now) kept.now) targets.now number }
{
    let mut next = 0;
    let mut place = 0;
    for target in targets {
        if *target == g.pair(kept[next as usize]).state {
            if next == number {
                return place;
            }
            next += 1;
        }
        place += 1;
    }
    place
}

/// Returns the move numbers of the automaton of a path of the graph of its live pairs, from the pair `from` along a word.
///
/// # Errors
/// [`OutOfMemory`] if there is not enough memory for them.
pub(crate) fn numbers_of(
    alloc: Global,
    a: &Prio,
    g: &PairGraph,
    from: u32,
    word: &[u32],
    path: &[u32],
) -> Result<Path, OutOfMemory>
    requires graph { IsPairGraph a.now (moves_in g.now) (pair_in g.now) g.now.graph.states }
    requires letters { g.now.graph.letters ≡ letters_count a.now + 1 }
    requires short { (q letter : ℕ) → length (moves_at a.now q letter) < 2 ^ 32 }
    requires from_in { from < g.now.graph.states }
    requires path { (to : ℕ) × IsPath (moves_in g.now) from to path.now word.now }
    ensures { IfOk result (λ numbers. numbers ≡ numbers_in a.now g.now from word.now path.now) }
{
    let mut numbers = Items::new(alloc);
    let mut at = from;
    for k in 0..word.len() {
        let kept = g.graph().edges(at, word[k]);
        let targets = a.moves(g.pair(at).state, word[k]);
        numbers.push(number_of(g, kept, targets, path[k]))?;
        at = kept[path[k] as usize];
    }
    Ok(numbers)
}
