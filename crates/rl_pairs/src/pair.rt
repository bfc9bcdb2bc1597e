//! Pairs of a state and a set of states.

use rl_lists::Members;

/// A state of an automaton, and the set of the states that were tried before it without success.
#[derive(Drop)]
pub struct Pair {
    /// The state.
    pub state: u32,
    /// The states that were tried before it on the same text, in increasing order.
    pub set: Members,
}
