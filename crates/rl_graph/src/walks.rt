//! Breadth-first search for shortest words. A word is a list of letters. It leads from one state to another if there is
//! a path between them whose moves have its letters in order.

ghost use Rattle.std.specs.Prelude.{◌≡◌, ◌<◌, ◌≤◌, ◌+◌, length, IfOk, OnOk, IfSome, IfNone};
ghost use Rattle.rl_graph.specs.Graph.{edges_of};
ghost use Rattle.rl_graph.specs.Walks.{IsShortest, NoPath, IsShortestWord};
ghost use Rattle.rl_graph.specs.internal.Nodes.{steps_of, node_of, start_steps, IsWalk, IsAt, Missed, IsReached, IsRooted, IsFurther, IsWayTo};

use crate::graph::Multigraph;
use crate::moves::NextStates;
use rl_lists::{Items, OutOfMemory, Word};
use std::alloc::Global;

/// A word, and a path along it.
#[derive(Drop)]
pub struct FoundPath {
    /// The letters of the word.
    pub word: Word,
    /// The number of each move of the path, counted from 0 among the moves of its state and letter.
    pub moves: Items<u64>,
}

/// A state that the search has found: the index of the node from which it was found, the letter and the number of the
/// move from there, and its distance from the first node in moves.
#[derive(Clone, Copy)]
struct Node {
    state: u64,
    parent: u64,
    letter: u32,
    number: u64,
    depth: u64,
}

/// The nodes in the order in which they were found, a flag for each state that says whether it was found, and the least
/// length of the word. This is 0, or 1 if the search looks for a way back to the first node's state; that state's flag
/// is then false until it is found again.
#[derive(Drop)]
struct Walk {
    nodes: Vec<Node>,
    seen: Vec<bool>,
    least: u64,
}

impl Walk {
    /// Appends a node and sets the flag of its state, unless that flag is already set.
    fn reach(&mut self, node: Node) -> Result<(), OutOfMemory>
        requires { node.state < length (steps_of self.old).seen }
        ensures { OnOk result (IsReached node (steps_of self.old) (steps_of self.new)) }
    {
        if !self.seen[node.state as usize] {
            self.nodes.push(node)?;
            self.seen[node.state as usize] = true;
        }
        Ok(())
    }

    /// Returns a walk that starts at the state `from` in a graph with `count` states and looks for a word of at least
    /// `least` letters.
    fn new(alloc: Global, count: u64, from: u64, least: u64) -> Result<Walk, OutOfMemory>
        requires { from < count }
        ensures { IfOk result (λ w. steps_of w ≡ start_steps count from least) }
    {
        let mut nodes = Vec::new(alloc);
        nodes.push(Node {
            state: from,
            parent: 0,
            letter: 0,
            number: 0,
            depth: 0,
        })?;
        let mut seen = vec![in alloc; false; count as usize]?;
        if least == 0 {
            seen[from as usize] = true;
        }
        Ok(Walk { nodes, seen, least })
    }

    /// Adds nodes for the targets of the moves on `letter` of the node with the index `place`, except for states that
    /// were already found.
    fn expand_on<M: NextStates>(
        &mut self,
        m: &M,
        place: u64,
        letter: u32,
    ) -> Result<(), OutOfMemory>
        requires place_in { place < length (steps_of self.old).nodes }
        requires letter_in { letter < M.width m.now }
        requires walk { IsWalk (M.next m.now) (M.size m.now) (steps_of self.old) }
        requires stands { IsAt (M.next m.now) place letter 0 (steps_of self.old) }
        ensures { OnOk result (IsFurther (M.next m.now) (M.size m.now) place (letter + 1) 0 (steps_of self.old) (steps_of self.new)) }
    {
        let node = self.nodes[place as usize];
        let depth = node.depth + 1;
        for number in 0..m.count(node.state, letter) {
            let state = m.target(node.state, letter, number);
            self.reach(Node {
                state,
                parent: place,
                letter,
                number,
                depth,
            })?;
        }
        Ok(())
    }

    /// Adds nodes for the targets of all moves of the node with the index `place`, except for states that were already
    /// found.
    fn expand<M: NextStates>(&mut self, m: &M, place: u64) -> Result<(), OutOfMemory>
        requires place_in { place < length (steps_of self.old).nodes }
        requires walk { IsWalk (M.next m.now) (M.size m.now) (steps_of self.old) }
        requires stands { IsAt (M.next m.now) place 0 0 (steps_of self.old) }
        ensures { OnOk result (IsFurther (M.next m.now) (M.size m.now) (place + 1) 0 0 (steps_of self.old) (steps_of self.new)) }
    {
        // Reading the number of states tells the prover that it fits in 64 bits, and that all moves lead to states.
        let _states = m.states();
        for letter in 0..m.letters() {
            self.expand_on(m, place, letter)?;
        }
        Ok(())
    }

    /// Returns the path from the first node to the node with the index `place`.
    fn path_to(&self, alloc: Global, place: u64) -> Result<FoundPath, OutOfMemory>
        requires place_in { place < length (steps_of self.now).nodes }
        requires rooted { IsRooted (steps_of self.now) }
        ensures { IfOk result (λ f. IsWayTo (steps_of self.now) place f.moves f.word) }
    {
        let mut letters = Vec::new(alloc);
        let mut numbers = Vec::new(alloc);
        let mut at = place;
        while at > 0 {
            let node = self.nodes[at as usize];
            letters.push(node.letter)?;
            numbers.push(node.number)?;
            at = node.parent;
        }
        letters.reverse();
        numbers.reverse();
        Ok(FoundPath {
            word: Items::from_vec(letters),
            moves: Items::from_vec(numbers),
        })
    }
}

/// Returns a shortest word of at least `least` letters from one state to another, with a path along it, or `None` if
/// and only if no such word leads there.
fn shortest<M: NextStates>(
    alloc: Global,
    m: &M,
    from: u64,
    to: u64,
    least: u64,
) -> Result<Option<FoundPath>, OutOfMemory>
    requires from_in { from < M.size m.now }
    requires least_in { least ≤ 1 }
    ensures found { IfOk result (λ o. IfSome o (λ f. IsShortest (M.next m.now) least from to f.moves f.word)) }
    ensures none { IfOk result (λ o. IfNone o (NoPath (M.next m.now) least from to)) }
{
    let mut walk = Walk::new(alloc, m.states(), from, least)?;
    let mut place = 0;
    while place < walk.nodes.len() as u64 {
        if place >= least && walk.nodes[place as usize].state == to {
            let path = walk.path_to(alloc, place)?;
            return Ok(Some(path));
        }
        walk.expand(m, place)?;
        place += 1;
    }
    Ok(None)
}

/// Returns a shortest word from `from` to `to`, which must be states of the graph, with a path along it, or `None` if
/// and only if no word leads there. The word is empty if the two states are the same.
///
/// # Errors
/// [`OutOfMemory`] if there is not enough memory for the search or the word.
pub fn path_between<M: NextStates>(
    alloc: Global,
    m: &M,
    from: u64,
    to: u64,
) -> Result<Option<FoundPath>, OutOfMemory>
    requires from_in { from < M.size m.now }
    requires to_in { to < M.size m.now }
    ensures found { IfOk result (λ o. IfSome o (λ f. IsShortest (M.next m.now) 0 from to f.moves f.word)) }
    ensures none { IfOk result (λ o. IfNone o (NoPath (M.next m.now) 0 from to)) }
{
    shortest(alloc, m, from, to, 0)
}

/// Returns a shortest non-empty word from `state`, which must be a state of the graph, back to itself, with a path
/// along it, or `None` if and only if there is no such word.
///
/// # Errors
/// [`OutOfMemory`] if there is not enough memory for the search or the word.
pub fn cycle_through<M: NextStates>(
    alloc: Global,
    m: &M,
    state: u64,
) -> Result<Option<FoundPath>, OutOfMemory>
    requires { state < M.size m.now }
    ensures found { IfOk result (λ o. IfSome o (λ f. IsShortest (M.next m.now) 1 state state f.moves f.word)) }
    ensures none { IfOk result (λ o. IfNone o (NoPath (M.next m.now) 1 state state)) }
{
    shortest(alloc, m, state, state, 1)
}

impl Multigraph {
    /// Returns a shortest word from `from` to `to`, which must be states of the graph, by breadth-first search, or
    /// `None` if and only if no word leads there. The word is empty if the two states are the same.
    ///
    /// # Errors
    /// [`OutOfMemory`] if there is not enough memory for the search or the word.
    pub fn walk(&self, from: u32, to: u32) -> Result<Option<Word>, OutOfMemory>
        requires from_in { from < self.now.states }
        requires to_in { to < self.now.states }
        ensures found { IfOk result (λ o. IfSome o (λ w. IsShortestWord (edges_of self.now) from to w)) }
        ensures none { IfOk result (λ o. IfNone o (NoPath (edges_of self.now) 0 from to)) }
    {
        match path_between(self.allocator(), self, u64::from(from), u64::from(to))? {
            Some(path) => {
                let FoundPath { word, moves: _ } = path;
                Ok(Some(word))
            }
            None => Ok(None),
        }
    }
}
