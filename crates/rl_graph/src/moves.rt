//! Graphs that can be asked for their moves one at a time, and the product of two copies of a multigraph.

ghost use Rattle.std.specs.Prelude.{◌≡◌, ℕ, ◌+◌, ◌*◌, ◌/◌, ◌%◌, ◌^◌, ◌<◌, ◌≤◌, true, List, [], length, slice_index, map, flat_map};
ghost use Rattle.rl_graph.specs.Paths.{Has, IsBounded};
ghost use Rattle.rl_graph.specs.Graph.{edges_of};
ghost use Rattle.rl_graph.specs.Product.{pair_moves};

use crate::graph::Multigraph;

/// A graph of numbered states and letters that can be asked for its moves one at a time. States, letters, and the moves
/// of a state on a letter are numbered from 0. All moves lead to states below [`NextStates::states`].
pub trait NextStates {
    // The number of states.
    ghost size: { Self → ℕ };

    // The number of letters.
    ghost width: { Self → ℕ };

    // The targets of the moves of a state on a letter, in order.
    ghost next: { Self → ℕ → ℕ → List ℕ };

    /// Returns the number of states.
    fn states(&self) -> u64
        ensures number { result ≡ size self.now }
        ensures bounded { IsBounded (next self.now) (size self.now) (width self.now) };

    /// Returns the number of letters.
    fn letters(&self) -> u32
        ensures { result ≡ width self.now };

    /// Returns the number of moves of the state `from` on `letter`. Both must be in range.
    fn count(&self, from: u64, letter: u32) -> u64
        requires state_in { from < size self.now }
        requires letter_in { letter < width self.now }
        ensures { result ≡ length (next self.now from letter) };

    /// Returns the target of the move with the number `number`, counted from 0, of the state `from` on `letter`. All
    /// three must be in range.
    fn target(&self, from: u64, letter: u32, number: u64) -> u64
        requires state_in { from < size self.now }
        requires letter_in { letter < width self.now }
        requires number_in { number < length (next self.now from letter) }
        ensures target { result ≡ slice_index (next self.now from letter) number }
        ensures inside { result < size self.now };

    /// Returns a letter such that the state `from`, which must be in range, has no moves on it or on any greater
    /// letter. It can be the number of letters, which is the default.
    fn end_letter(&self, from: u64) -> u32
        requires { from < size self.now }
        ensures within { result ≤ width self.now }
        ensures none { (l : ℕ) → result ≤ l → l < width self.now → next self.now from l ≡ [] }
    {
        self.letters()
    }

    /// Returns whether the state `from`, which must be in range, may have a move to itself. The result must be true if
    /// it has one; if it has none, either result is right. By default, it is always true.
    fn may_loop(&self, from: u64) -> bool
        requires { from < size self.now }
        ensures { (l : ℕ) → Has from (next self.now from l) → result ≡ true }
    {
        true
    }
}

impl NextStates for Multigraph {
    ghost size = { λ g. g.states };

    ghost width = { λ g. g.letters };

    ghost next = { edges_of };

    fn states(&self) -> u64 {
        u64::from(Multigraph::states(self))
    }

    fn letters(&self) -> u32 {
        Multigraph::letters(self)
    }

    fn count(&self, from: u64, letter: u32) -> u64 {
        // Reading the number of states tells the prover that the graph is well formed.
        let _count = Multigraph::states(self);
        self.edges(from as u32, letter).len() as u64
    }

    fn target(&self, from: u64, letter: u32, number: u64) -> u64 {
        // Reading the number of states tells the prover that the graph is well formed.
        let _count = Multigraph::states(self);
        u64::from(self.edges(from as u32, letter)[number as usize])
    }
}

/// The product of a multigraph with itself: two copies that move side by side on the same letters. In a graph with `n`
/// states, the pair of the states `p` and `q` is the state `p * n + q` of the product. If `q` has `k` moves on a
/// letter, the move with the number `i` of `p` together with the move with the number `j` of `q` is the move with the
/// number `i * k + j` of the pair.
#[derive(Clone, Copy)]
pub struct Twice<'a> {
    /// The graph of which the product is made.
    pub graph: &'a Multigraph,
}

/// Returns the target of the move with the given number of a pair: `first` and `second` are the targets of its two
/// states, and `count` is the number of states.
fn chosen(first: &[u32], second: &[u32], count: u64, number: u64) -> u64
    requires number_in { number < length first.now * length second.now }
    requires small { count < 2 ^ 32 }
    ensures { result ≡ slice_index (flat_map (λ x. map (λ y. x * count + y) second.now) first.now) number }
{
    let width = second.len() as u64;
    if width == 1 {
        return u64::from(first[number as usize]) * count + u64::from(second[0]);
    }
    u64::from(first[(number / width) as usize]) * count
        + u64::from(second[(number % width) as usize])
}

impl<'a> NextStates for Twice<'a> {
    ghost size = { λ t. t.graph.now.states * t.graph.now.states };

    ghost width = { λ t. t.graph.now.letters };

    ghost next = { λ t q l. pair_moves (edges_of t.graph.now) t.graph.now.states q l };

    fn states(&self) -> u64 {
        let count = u64::from(self.graph.states());
        count * count
    }

    fn letters(&self) -> u32 {
        self.graph.letters()
    }

    fn count(&self, from: u64, letter: u32) -> u64 {
        let count = u64::from(self.graph.states());
        let first = self.graph.edges((from / count) as u32, letter);
        let second = self.graph.edges((from % count) as u32, letter);
        first.len() as u64 * second.len() as u64
    }

    fn target(&self, from: u64, letter: u32, number: u64) -> u64 {
        let count = u64::from(self.graph.states());
        let first = self.graph.edges((from / count) as u32, letter);
        let second = self.graph.edges((from % count) as u32, letter);
        chosen(first, second, count, number)
    }
}
