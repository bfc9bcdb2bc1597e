//! A graph whose paths along a text are the steps that a backtracking matcher takes on it, and the definition of a right
//! verdict.
//!
//! A pair is a state of the ordered automaton, together with the set of the states that were tried before it without success.
//! So pairs are the states of a product: the product of the automaton with the powerset construction of the earlier tries. A
//! pair is live as long as its set refuses some rest of a text, since only then can the matcher reach it. The states of the
//! graph are the live pairs. [`pairs`] finds them by breadth-first search and returns a [`PairGraph`]: a multigraph of their
//! moves and, for each pair, a word that leads to it and a rest that its set refuses.
//!
//! # What is proved
//!
//! The graph has exactly the live pairs and their moves, numbered in the order in which they are first seen. The module
//! [`laws`] relates the graph to costs, for every tree and text. The cost is one plus the number of walked paths. A twin
//! gives texts that cost at least `2^k`. A chain of splits that ends on a cycle gives texts that cost at least `k^d`, where
//! `d` is one more than the number of splits. A bound on the number of paths gives a bound on the cost. At most one class of
//! verdicts is right for a pattern.
//!
//! # Example
//!
//! ```
//! let automaton = Prio::build(alloc, &tree, Ending::AtEnd, Universe::Bytes)?; // the tree is that of `(a|a)*`
//! let graph = pairs(alloc, &automaton, 8)?;
//! graph.graph().states(); // 8
//! graph.pair(6); // state 1, set [1, 2]
//! graph.lead(6); // [1, 1], that is `aa`
//! graph.rest(6); // [0, 2], a character other than `a` and the end
//! pairs(alloc, &automaton, 7); // Err(PairsError::Pairs)
//! ```
//!
//! Read `specs/LivePairs.antt` and `specs/PairGraph.antt` first, then `specs/RightVerdict.antt`, `specs/Counted.antt` and
//! `specs/Families.antt`.
#![tactic(auto)]

mod counting;
mod error;
mod finder;
pub mod laws;
pub mod pair;
mod pair_graph;

pub use error::PairsError;
pub use pair::Pair;
pub use pair_graph::{PairGraph, pairs};
