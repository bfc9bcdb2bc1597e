//! Multigraphs with numbered states and letters.

ghost use Rattle.std.specs.Prelude.{◌≡◌, ◌<◌, ◌≤◌, ◌+◌, ◌*◌, ◌^◌, All, length, IfOk, OnOk, OnErr};
ghost use Rattle.rl_graph.specs.Graph.{edges_of, IsWhole, IsBare, IsAdded};
ghost use Rattle.rl_graph.specs.internal.Halves.{row_at};

use crate::row_list::RowList;
use rl_lists::OutOfMemory;
use std::alloc::Global;
use std::marker::Model;

/// A graph of states whose moves carry letters. States and letters are numbered from 0. A state may have several moves on
/// one letter, even to the same target; a move's number is its position, from 0, among the moves of its state and letter.
#[derive(Drop)]
pub struct Multigraph {
    states: u32,
    letters: u32,
    rows: RowList,
}

impl Model for Multigraph {
    ghost use Rattle.rl_graph.specs.Graph.{Graph, IsWhole};

    ghost Value = { Graph };

    ghost view = { λ g. record { states = g.states; letters = g.letters; rows = g.rows } };

    ghost invariant = { λ g. IsWhole (record { states = g.states; letters = g.letters; rows = g.rows }) };
}

impl Multigraph {
    /// Returns a graph with `states` states, `letters` letters and no moves.
    ///
    /// # Errors
    /// [`OutOfMemory`] if there is not enough memory for its rows.
    pub fn new(alloc: Global, states: u32, letters: u32) -> Result<Multigraph, OutOfMemory>
        ensures { IfOk result (λ g. IsBare g states letters) }
    {
        let rows = RowList::of_empty_rows(alloc, states as usize * letters as usize)?;
        Ok(Multigraph {
            states,
            letters,
            rows,
        })
    }

    /// Returns the graph with these rows of targets. The row of the state `q` and the letter `l` has the index
    /// `q * letters + l`, and lists the targets of the moves in order. There must be a row for each state and letter,
    /// and all targets must be less than `states`.
    pub fn from_rows(states: u32, letters: u32, rows: RowList) -> Multigraph
        requires size { length rows ≡ states * letters }
        requires targets { All (All (λ target. target < states)) rows }
        ensures { result ≡ record { states = states; letters = letters; rows = rows } }
    {
        // Reading the number of rows tells the prover that each row has fewer than 2^32 targets.
        let _count = rows.len();
        Multigraph {
            states,
            letters,
            rows,
        }
    }

    /// Adds a move from `from` to `to` on `letter`, as the last one of its state and letter. `from` and `to` must be
    /// states of the graph, `letter` must be one of its letters, and `from` must have fewer than 2^32 - 1 moves on
    /// `letter`. In whatever order moves are added, filling a graph takes time and memory proportional to the number of
    /// its moves and rows, where a row has the moves of one state on one letter. A row that grows after moves of
    /// another row were stored behind it is copied to memory of its own, at most once, so it is fastest to add moves
    /// row by row.
    ///
    /// # Errors
    /// [`OutOfMemory`] if there is not enough memory for the move; the graph is then unchanged.
    pub fn add(&mut self, from: u32, letter: u32, to: u32) -> Result<(), OutOfMemory>
        requires from_in { from < self.old.states }
        requires letter_in { letter < self.old.letters }
        requires to_in { to < self.old.states }
        requires room { length (edges_of self.old from letter) < 4294967295 }
        ensures added { OnOk result (IsAdded self.old self.new from letter to) }
        ensures unchanged { OnErr result (self.new ≡ self.old) }
    {
        let place = from as usize * self.letters as usize + letter as usize;
        self.rows.push_at(place, to)
    }

    /// Returns the number of states.
    pub fn states(&self) -> u32
        ensures number { result ≡ self.now.states }
        ensures whole { IsWhole self.now }
    {
        self.states
    }

    /// Returns the number of letters.
    pub fn letters(&self) -> u32
        ensures { result ≡ self.now.letters }
    {
        self.letters
    }

    /// Returns the targets of the moves from the state `from` on `letter`, in the order in which they were added. Both
    /// must be in range. The list is empty if there are no such moves.
    pub fn edges(&self, from: u32, letter: u32) -> &[u32]
        requires from_in { from < self.now.states }
        requires letter_in { letter < self.now.letters }
        ensures targets { result.now ≡ edges_of self.now from letter }
        ensures short { length result.now < 2 ^ 32 }
        ensures whole { IsWhole self.now }
    {
        let place = from as usize * self.letters as usize + letter as usize;
        self.rows.row(place)
    }

    /// Returns the number of rows: the number of states times the number of letters.
    pub(crate) fn row_count(&self) -> u64
        ensures { result ≡ self.now.states * self.now.letters }
    {
        u64::from(self.states) * u64::from(self.letters)
    }

    /// Returns the row of targets with the index `place`: the row of the state `q` and the letter `l` has the index
    /// `q * letters + l`. Past the last row, the result is empty.
    pub(crate) fn row(&self, place: u64) -> &[u32]
        ensures targets { result.now ≡ row_at self.now place }
        ensures whole { IsWhole self.now }
    {
        self.rows.row(place as usize)
    }

    /// Returns the allocator of the graph's rows.
    pub(crate) fn allocator(&self) -> Global {
        self.rows.allocator()
    }
}
