//! Chains of splits: the search that finds the degree of a polynomial growth.
//!
//! A split is a pair of different states `r` and `q` with one word that leads from `r` to `r`, from `r` to `q` and from
//! `q` to `q`. It is a witness of IDA, the criterion of Weber and Seidl (1991) for an infinite degree of ambiguity. In
//! a graph without a twin (a witness of EDA), the ambiguity is polynomial. [`degree`] takes a graph without a twin and
//! returns a [`Chain`]: a longest list of splits each of which is reached from the one before it, the rank of each
//! state, which is the number of splits in a longest chain from it, and a [`Loop`] if the graph has a cycle.
//! [`degree_over`] does the same with components that the caller has already found.
//!
//! The search goes by strongly connected components; a component that is reached from another one has the smaller
//! number and is called lower. The kernel is the list of the states on cycles, and an inner move is a move between them
//! that stays in a component. Triples of states are searched only if a pair of the product of two copies of the inner
//! moves may be a split.
//!
//! # What is proved
//!
//! No chain from any state is longer, and each rank is exact. There is a loop if and only if some state lies on a
//! cycle. The module [`laws`] bounds the number of paths from above: in a graph without a twin, at most `c (m + 1)^d`
//! paths lead from a state of rank `d` to any one state along a word of `m` letters, and `c` depends only on `d` and
//! the size of the graph.
//!
//! # Example
//!
//! ```
//! let mut g = Multigraph::new(alloc, 2, 1)?;
//! g.add(0, 0, 0)?;
//! g.add(0, 0, 1)?;
//! g.add(1, 0, 1)?;
//! let chain = degree(alloc, &g)?;
//! chain.ranks.as_slice(); // [1, 0]
//! chain.links.as_slice(); // one split: from 0, to 1, word [0]
//! ```
//!
//! Read `specs/Twins.antt` of `rl_graph` first, then `specs/Chains.antt`; for the laws `specs/Leavers.antt`,
//! `specs/Passages.antt` and `specs/FallingNumbers.antt`.
#![tactic(auto)]

mod chains;
mod entries;
mod falling;
mod groups;
mod hopeless;
mod kernel;
pub mod laws;
mod moves;
mod pairs;
mod ranks;
mod reached;
mod rows;
mod searches;

pub use chains::{Chain, Loop, Split, Splits, degree, degree_over};
