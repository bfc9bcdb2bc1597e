//! Kernels: lists of states of a graph in which the place of a state, which is its index in the list, is looked up in
//! constant time. A component is a strongly connected component of the graph.

ghost use Rattle.std.specs.Prelude.{◌≡◌, ◌<◌, ◌^◌, false, length, MatchOption, IfOk, OnOk};
ghost use Rattle.rl_kernel.specs.Members.{is_member, IsPlace};
ghost use Rattle.rl_kernel.specs.Seats.{seats_of, with_seat, IsBareSeats};

use rl_lists::OutOfMemory;
use std::alloc::Global;

/// A list of states of a graph, with the number of each state's component. The place of a state is its index in the
/// list, from 0.
#[derive(Drop)]
pub struct Kernel {
    /// The states of the list, in the order in which they were appended.
    pub states: Vec<u32>,
    /// The number of the component of each state of the list, in the same order.
    pub levels: Vec<u32>,
    /// For each state of the graph, its place in the list. The entry of a state that isn't in the list has no meaning.
    pub places: Vec<u32>,
}

impl Kernel {
    /// Returns an empty list, for a graph with `count` states, which have the numbers below `count`.
    ///
    /// # Errors
    /// [`OutOfMemory`] if there is not enough memory for the places.
    pub fn new(alloc: Global, count: u32) -> Result<Kernel, OutOfMemory>
        ensures { IfOk result (λ k. IsBareSeats count (seats_of k)) }
    {
        let places = vec![in alloc; 0; count as usize]?;
        Ok(Kernel {
            states: Vec::new(alloc),
            levels: Vec::new(alloc),
            places,
        })
    }

    /// Appends `state`, whose component has the number `level`, and makes its index in the list its place. `state` must
    /// be a state of the graph for which the list was created, and the list must have fewer than 2^32 states. A state
    /// that is in the list already is appended again and gets the new place.
    ///
    /// # Errors
    /// [`OutOfMemory`] if there is not enough memory for the state; the list must not be used then.
    pub fn put(&mut self, state: u32, level: u32) -> Result<(), OutOfMemory>
        requires state_in { state < length self.old.places.items }
        requires short { length self.old.states.items < 2 ^ 32 }
        ensures { OnOk result (seats_of self.new ≡ with_seat state level (seats_of self.old)) }
    {
        let place = self.states.len() as u32;
        self.states.push(state)?;
        self.levels.push(level)?;
        self.places[state as usize] = place;
        Ok(())
    }

    /// Returns the place of `state` in the list, that is, its index from 0, or `None` if the state isn't in the list.
    /// `state` must be a state of the graph for which the list was created. If it was appended more than once, its
    /// place is the last index.
    pub fn place_of(&self, state: u32) -> Option<u32>
        requires state_in { state < length self.now.places.items }
        ensures { MatchOption result (is_member self.now.states.items self.now.places.items state ≡ false) (IsPlace self.now.states.items self.now.places.items state) }
    {
        let place = self.places[state as usize];
        if (place as usize) < self.states.len() && self.states[place as usize] == state {
            Some(place)
        } else {
            None
        }
    }
}
