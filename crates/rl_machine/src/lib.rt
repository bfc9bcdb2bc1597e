//! The exact number of steps that a backtracking matcher takes on a text.
//!
//! [`cost`] reads the text once, from its end, by dynamic programming: [`Columns`] records, for each state of the ordered
//! automaton, how many steps the matcher takes from that state on the rest of the text, and whether it finds a match. So
//! billions of steps are counted without being taken. The result is a [`Counted`]: the number of steps, which is exact up to
//! 2^128 - 1 and [`Steps::Past`] beyond, and whether the text is matched.
//!
//! # What is proved
//!
//! The number is the cost of the automaton's walk on the text. It is the cost of the text for each tree and ending for which
//! the automaton stands.
//!
//! # Example
//!
//! ```
//! // `automaton` is the automaton of `(a|a)*`, matched to the end of the text
//! cost(alloc, &automaton, &text)?; // for the text `ab`: steps Exact(10), not matched
//! cost(alloc, &automaton, &text)?; // for the text `aab`: steps Exact(22), not matched
//! ```
//!
//! Read `specs/Cost.antt` of `rl_syntax` first, then `specs/Counts.antt` and `specs/Columns.antt`.
#![tactic(auto)]

pub mod columns;
pub mod steps;
pub mod texts;

pub use columns::Columns;
pub use steps::{Counted, Steps};
pub use texts::cost;
