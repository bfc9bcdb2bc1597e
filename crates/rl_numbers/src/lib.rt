//! Numbers on pairs and triples of states that show, move by move, that a graph has no twin and no split between states
//! of the same rank. They are the part of a certificate that shows an upper bound.
//!
//! Doubles are pairs of states, that is, states of the product of the graph with itself, and triples are states of the
//! product of three copies. A step is one move on the same letter from each state of a double or triple; a triple has
//! only steps to states of its rank. [`doubles_of`] numbers the doubles by the parts, that is, the strongly connected
//! components, of the product. [`triples_of`] finds the triples by breadth-first search and numbers them in the same
//! way, with one more move from each `(r, q, q)` to `(r, r, q)`. [`doubling::doubles_hold`] and
//! [`checking::triples_hold`] check such lists, whoever made them.
//!
//! # What is proved
//!
//! A list is accepted if and only if it has all the entries that it must have, none of them twice, is closed under
//! steps, and has numbers that never rise along a step and fall where they must. Such doubles exclude a twin. Such
//! triples exclude a split between states of the same rank, provided that ranks never rise along a move. [`doubles_of`]
//! and [`triples_of`] return lists that are accepted. [`TriplesError::TooMany`] is returned only if the least closed
//! list has more than 1,000,000 triples, and no list of triples is returned then.
//!
//! # Example
//!
//! ```
//! // both states have a loop, and 0 has a move to 1, all on one letter
//! doubles_hold(alloc, &g, &[double(0, 0, 1), double(0, 1, 0), double(1, 0, 0), double(1, 1, 0)])?; // true
//! doubles_hold(alloc, &g, &[double(0, 0, 0), double(0, 1, 0), double(1, 0, 0), double(1, 1, 0)])?; // false
//! // in the second list, (0, 0) has no greater number than (0, 1), though moves lead from 0 to both 0 and 1
//! ```
//!
//! Read `specs/FallingNumbers.antt` of `rl_degree` first, then `specs/Doubled.antt`, `specs/Numbered.antt` and
//! `specs/Least.antt`.
#![tactic(auto)]

pub mod among;
pub mod checking;
pub mod columns;
mod diagonal;
pub mod double;
pub mod doubling;
mod index;
pub mod laws;
pub mod level;
pub mod leveling;
pub mod listing;
mod numbering;
pub mod reach;
pub mod starts;
pub mod triple;

pub use numbering::{MOST_TRIPLES, TriplesError, doubles_of, limits_are, triples_of};
