//! Twins: the search that decides whether the growth is exponential.
//!
//! A twin is a state with two different paths back to itself along one word. It is a witness of EDA, the criterion of
//! Weber and Seidl (1991) for an exponential degree of ambiguity. [`twin`] searches for one: it finds the strongly
//! connected components of a graph, builds the product with itself of each component that may hold a twin, and looks
//! there for a fork, that is, two moves of a state on one letter such that one word leads back from both targets.
//! [`twin_over`] does the same with components that the caller has already found. [`TwinPaths`] holds the state, the
//! word, and both paths as lists of move numbers.
//!
//! # What is proved
//!
//! [`twin`] and [`twin_over`] return a twin, or `None` if and only if the graph has none.
//!
//! # Example
//!
//! ```
//! let mut g = Multigraph::new(alloc, 1, 1)?;
//! g.add(0, 0, 0)?;
//! twin(alloc, &g)?; // None
//! g.add(0, 0, 0)?;
//! twin(alloc, &g)?; // Some: state 0, word [0], first [0], second [1]
//! ```
//!
//! Read `specs/Paths.antt` and `specs/Twins.antt` of `rl_graph`. The definitions of this crate are used only by its private
//! functions.
#![tactic(auto)]

mod blocks;
mod dense;
mod forks;
mod stays;
mod twins;

pub use twins::{TwinPaths, twin, twin_over};
