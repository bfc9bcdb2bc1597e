//! The strongly connected components of a multigraph.

ghost use Rattle.std.specs.Prelude.{◌≡◌, ◌<◌, length, IfOk};
ghost use Rattle.rl_graph.specs.Graph.{edges_of};
ghost use Rattle.rl_graph.specs.Parts.{number_of, cycle_of, IsParts};

use crate::graph::Multigraph;
use crate::parts::{Parts, parts_of};
use rl_lists::OutOfMemory;
use std::marker::Model;

/// The strongly connected components of a multigraph: two states have the same component if and only if each reaches the
/// other.
#[derive(Drop)]
pub struct Components {
    parts: Parts,
}

impl Model for Components {
    ghost use Rattle.std.specs.Prelude.{ℕ, ◌<◌, ◌^◌, length};
    ghost use Rattle.rl_graph.specs.Parts.{PartTable, number_of};

    ghost Value = { PartTable };

    ghost view = { λ c. c.parts };

    ghost invariant = { λ c. (q : ℕ) → q < length c.parts.numbers → number_of c.parts q < 2 ^ 32 };
}

impl Components {
    /// Returns the number of the component of `state`, which must be a state of the graph. The number is less than the
    /// number of states. A component that is reached from another one has the smaller number.
    pub fn of(&self, state: u32) -> u32
        requires { state < length self.now.numbers }
        ensures { result ≡ number_of self.now state }
    {
        self.parts.of(u64::from(state)) as u32
    }

    /// Returns whether `state`, which must be a state of the graph, reaches itself by at least one move.
    pub fn on_cycle(&self, state: u32) -> bool
        requires { state < length self.now.numbers }
        ensures { result ≡ cycle_of self.now state }
    {
        self.parts.on_cycle(u64::from(state))
    }
}

impl Multigraph {
    /// Returns the strongly connected components of the graph. The time is linear in the number of moves plus the
    /// product of the numbers of states and letters, and the memory is linear in the number of states.
    ///
    /// # Errors
    /// [`OutOfMemory`] if there is not enough memory for the search or the components.
    pub fn components(&self) -> Result<Components, OutOfMemory>
        ensures { IfOk result (λ c. IsParts (edges_of self.now) self.now.states c) }
    {
        // Reading the number of states tells the prover that the graph is well formed.
        let _states = self.states();
        let parts = parts_of(self.allocator(), self)?;
        Ok(Components { parts })
    }
}
