//! The product of two copies of a graph in which only the marked pairs move, on a list of letters.

ghost use Rattle.std.specs.Prelude.{◌≡◌, ℕ, ◌*◌, ◌<◌, ◌≤◌, ◌↔◌, IsTrue, true, false, length, slice_index, slice_index_or, IfOk};
ghost use Rattle.rl_graph.specs.Graph.{edges_of};
ghost use Rattle.rl_graph.specs.Paths.{Has};
ghost use Rattle.rl_graph.specs.internal.Marked.{listed_moves, both_repeat, both_loop, HasMoves, AreLetters, IsRepeat, AreRepeats, HasLoop, AreLoops};

use crate::graph::Multigraph;
use crate::moves::{NextStates, Twice};
use rl_lists::OutOfMemory;
use std::alloc::Global;

/// The product of two copies of a graph in which only the marked pairs move, and only on the letters of a list. In a
/// graph with `n` states, the pair of the states `p` and `q` is the state `p * n + q` of the product, and `marks` has a
/// flag for each pair. A letter of the product is an index in the list `letters`. A pair has no moves on a letter on
/// which both of its states have the same rows as on the letter before it in the list, since they would only repeat
/// moves. `repeats` is the result of [`repeats_of`], and `loops` has a flag for each state, which must be true if the
/// state has a move to itself.
#[derive(Drop)]
pub(crate) struct MarkedPairs<'a> {
    pub(crate) graph: &'a Multigraph,
    pub(crate) marks: &'a [bool],
    pub(crate) letters: &'a [u32],
    pub(crate) repeats: &'a [bool],
    pub(crate) loops: &'a [bool],
    ghost marked: { length marks.now ≡ graph.now.states * graph.now.states },
    ghost few: { length letters.now ≤ graph.now.letters },
    ghost within: { (k : ℕ) → k < length letters.now → slice_index letters.now k < graph.now.letters },
    ghost repeating: { AreRepeats (edges_of graph.now) graph.now.states letters.now repeats.now },
    ghost looped: { length loops.now ≡ graph.now.states },
    ghost looping: { (q l : ℕ) → q < graph.now.states → Has q (edges_of graph.now q l) → slice_index_or loops.now q false ≡ true },
}

impl<'a> MarkedPairs<'a> {
    /// Returns whether both states of the pair `from` have the same rows on the letter as on the letter before it in
    /// the list. `letter` is an index in the list.
    fn repeats_both(&self, from: u64, letter: u32) -> bool
        requires pair_in { from < self.now.graph.now.states * self.now.graph.now.states }
        requires letter_in { letter < length self.now.letters.now }
        ensures { result ≡ both_repeat self.now.graph.now.states (length self.now.letters.now) self.now.repeats.now from letter }
    {
        let count = u64::from(self.graph.states());
        let width = self.letters.len() as u64;
        let first = (from / count) * width + u64::from(letter);
        let second = (from % count) * width + u64::from(letter);
        // Both flags are always read, so that both places are computed outside the loop over the letters.
        self.repeats[first as usize] & self.repeats[second as usize]
    }

    /// Returns whether the flags say that both states of the pair `from` have a move to themselves.
    fn loop_both(&self, from: u64) -> bool
        requires { from < self.now.graph.now.states * self.now.graph.now.states }
        ensures { result ≡ both_loop self.now.graph.now.states self.now.loops.now from }
    {
        let count = u64::from(self.graph.states());
        self.loops[(from / count) as usize] & self.loops[(from % count) as usize]
    }
}

impl<'a> NextStates for MarkedPairs<'a> {
    ghost size = { λ m. m.graph.now.states * m.graph.now.states };

    ghost width = { λ m. length m.letters.now };

    ghost next = { λ m. listed_moves (edges_of m.graph.now) m.graph.now.states m.marks.now m.letters.now m.repeats.now };

    fn states(&self) -> u64 {
        let count = u64::from(self.graph.states());
        count * count
    }

    fn letters(&self) -> u32 {
        // Reading the number of letters tells the prover that it fits in 32 bits. The list has at most as many.
        let _letters = self.graph.letters();
        self.letters.len() as u32
    }

    fn count(&self, from: u64, letter: u32) -> u64 {
        if !self.marks[from as usize] {
            return 0;
        }
        if self.repeats_both(from, letter) {
            return 0;
        }
        let own = self.letters[letter as usize];
        let pairs = Twice { graph: self.graph };
        pairs.count(from, own)
    }

    fn target(&self, from: u64, letter: u32, number: u64) -> u64 {
        let own = self.letters[letter as usize];
        let pairs = Twice { graph: self.graph };
        pairs.target(from, own, number)
    }

    fn end_letter(&self, from: u64) -> u32 {
        if self.marks[from as usize] {
            self.letters()
        } else {
            0
        }
    }

    fn may_loop(&self, from: u64) -> bool {
        // Reading the number of states tells the prover that the graph is well formed.
        let _states = self.graph.states();
        if self.marks[from as usize] {
            self.loop_both(from)
        } else {
            false
        }
    }
}

/// Returns whether any state has a move on `letter`.
fn has_moves(g: &Multigraph, letter: u32) -> bool
    requires { letter < g.now.letters }
    ensures { IsTrue result ↔ HasMoves g.now letter }
{
    for state in 0..g.states() {
        if !g.edges(state, letter).is_empty() {
            return true;
        }
    }
    false
}

/// Returns the letters on which some state has a move, in ascending order.
pub(crate) fn letters_of(alloc: Global, g: &Multigraph) -> Result<Vec<u32>, OutOfMemory>
    ensures { IfOk result (λ v. AreLetters g.now v.items) }
{
    let mut letters = Vec::new(alloc);
    for letter in 0..g.letters() {
        if has_moves(g, letter) {
            letters.push(letter)?;
        }
    }
    Ok(letters)
}

/// Returns whether a state's row on the letter with the index `place` in the list equals its row on the letter before
/// it in the list. The result is false for the first letter.
fn is_repeat(g: &Multigraph, letters: &[u32], state: u32, place: usize) -> bool
    requires state_in { state < g.now.states }
    requires place_in { place < length letters.now }
    requires within { (k : ℕ) → k < length letters.now → slice_index letters.now k < g.now.letters }
    ensures { IsTrue result ↔ IsRepeat (edges_of g.now) letters.now state place }
{
    if place == 0 {
        return false;
    }
    g.edges(state, letters[place]) == g.edges(state, letters[place - 1])
}

/// Returns, for each state and each letter of the list, whether the state's row on the letter equals its row on the
/// letter before it in the list. The flag of the state `q` and the letter with the index `k` has the index
/// `q * letters.len() + k`.
pub(crate) fn repeats_of(
    alloc: Global,
    g: &Multigraph,
    letters: &[u32],
) -> Result<Vec<bool>, OutOfMemory>
    requires { (k : ℕ) → k < length letters.now → slice_index letters.now k < g.now.letters }
    ensures { IfOk result (λ v. AreRepeats (edges_of g.now) g.now.states letters.now v.items) }
{
    let mut repeats = Vec::new(alloc);
    for state in 0..g.states() {
        for place in 0..letters.len() {
            repeats.push(is_repeat(g, letters, state, place))?;
        }
    }
    Ok(repeats)
}

/// Returns whether a state has a move to itself on `letter`.
fn has_loop_on(g: &Multigraph, state: u32, letter: u32) -> bool
    requires state_in { state < g.now.states }
    requires letter_in { letter < g.now.letters }
    ensures { IsTrue result ↔ Has state (edges_of g.now state letter) }
{
    for target in g.edges(state, letter) {
        if *target == state {
            return true;
        }
    }
    false
}

/// Returns whether a state has a move to itself on any letter.
fn has_loop(g: &Multigraph, state: u32) -> bool
    requires { state < g.now.states }
    ensures { IsTrue result ↔ HasLoop (edges_of g.now) state }
{
    for letter in 0..g.letters() {
        if has_loop_on(g, state, letter) {
            return true;
        }
    }
    false
}

/// Returns, for each state, whether it has a move to itself on any letter.
pub(crate) fn loops_of(alloc: Global, g: &Multigraph) -> Result<Vec<bool>, OutOfMemory>
    ensures { IfOk result (λ v. AreLoops (edges_of g.now) g.now.states v.items) }
{
    let mut loops = Vec::new(alloc);
    for state in 0..g.states() {
        loops.push(has_loop(g, state))?;
    }
    Ok(loops)
}
