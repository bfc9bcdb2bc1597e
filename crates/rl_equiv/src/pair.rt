//! Pairs of sets of states.

use rl_lists::{Items, Members};

/// Two sets of states: those to which one word leads in each of two automata.
#[derive(Drop)]
pub struct SetPair {
    /// The states of the first automaton, in increasing order.
    pub first: Members,
    /// The states of the second automaton, in increasing order.
    pub second: Members,
}

/// A list of set pairs. In [`Sameness::Equal`](crate::Sameness::Equal) it has all set pairs that are reached.
pub type Relation = Items<SetPair>;
