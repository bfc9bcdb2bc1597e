//! The product of two copies of a graph in which only the marked pairs move, by half steps: first the second state
//! moves, then the first.

ghost use Rattle.std.specs.Prelude.{◌≡◌, ◌+◌, ◌*◌, ◌<◌, ◌≤◌, ◌^◌, ℕ, true, [], length};
ghost use Rattle.rl_graph.specs.Paths.{Has};
ghost use Rattle.rl_graph.specs.internal.Halves.{halves, AreRows};

use crate::graph::Multigraph;
use crate::moves::NextStates;
use crate::rows::Rows;

/// The product of two copies of a graph in which only the marked pairs move, by half steps. In a graph with `n` states,
/// the pair of the states `p` and `q` is the node `p * n + q`, and the half node of the row number `r` and the state
/// `u` is the node `(n + r) * n + u`. At a marked pair, if the first state has a move on the letter, the second state
/// moves on it, to the half node of the first state's row on that letter. From there, the first state moves, on letter
/// 0, to a target of that row. `marks` has a flag for each pair, and `rows` the row numbers of the graph.
#[derive(Drop)]
pub(crate) struct HalfSteps<'a> {
    pub(crate) graph: &'a Multigraph,
    pub(crate) marks: &'a [bool],
    pub(crate) rows: &'a Rows,
    ghost marked: { length marks.now ≡ graph.now.states * graph.now.states },
    ghost numbered: { AreRows graph.now rows.now.numbers.items rows.now.owners.items },
}

impl<'a> NextStates for HalfSteps<'a> {
    ghost size = { λ h. (h.graph.now.states + length h.rows.now.owners.items) * h.graph.now.states };

    ghost width = { λ h. h.graph.now.letters };

    ghost next = { λ h. halves h.graph.now h.marks.now h.rows.now.numbers.items h.rows.now.owners.items };

    fn states(&self) -> u64 {
        let count = u64::from(self.graph.states());
        (count + self.rows.owners.len() as u64) * count
    }

    fn letters(&self) -> u32 {
        self.graph.letters()
    }

    fn count(&self, from: u64, letter: u32) -> u64 {
        let count = u64::from(self.graph.states());
        let first = from / count;
        if first >= count {
            return if letter == 0 {
                self.graph
                    .row(self.rows.owners[(first - count) as usize])
                    .len() as u64
            } else {
                0
            };
        }
        if !self.marks[from as usize] || self.graph.edges(first as u32, letter).is_empty() {
            return 0;
        }
        self.graph.edges((from % count) as u32, letter).len() as u64
    }

    fn target(&self, from: u64, letter: u32, number: u64) -> u64 {
        let count = u64::from(self.graph.states());
        let first = from / count;
        let second = from % count;
        if first >= count {
            let row = self.graph.row(self.rows.owners[(first - count) as usize]);
            return u64::from(row[number as usize]) * count + second;
        }
        let place = first * u64::from(self.graph.letters()) + u64::from(letter);
        let row = self.rows.numbers[place as usize];
        let targets = self.graph.edges(second as u32, letter);
        (count + row) * count + u64::from(targets[number as usize])
    }

    fn end_letter(&self, from: u64) -> u32 {
        let count = u64::from(self.graph.states());
        if from >= count * count {
            return 1;
        }
        if self.marks[from as usize] {
            self.graph.letters()
        } else {
            0
        }
    }

    fn may_loop(&self, from: u64) -> bool {
        // A pair moves only to half nodes, and a half node only to pairs.
        // Reading the number of states tells the prover that the graph is well formed.
        let _states = self.graph.states();
        false
    }
}
