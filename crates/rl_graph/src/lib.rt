//! Multigraphs whose moves carry letters, like the moves of an automaton: strongly connected components, products and
//! shortest words.
//!
//! A [`Multigraph`] has numbered states and letters, and a state may have several moves to the same target on one letter.
//! [`Multigraph::components`] finds its strongly connected components, and [`Multigraph::walk`] finds a shortest word
//! from one state to another. The same searches work on any graph that implements [`NextStates`], that is, that can be
//! asked for its moves one at a time: [`parts_of`] uses Gabow's path-based algorithm, and [`path_between`] and
//! [`cycle_through`] use breadth-first search. One such graph is [`Twice`], the product of a multigraph with itself,
//! which is never stored; [`product_parts`] finds its components, and [`pair_parts`] finds the components of the product
//! in which only marked pairs move. In this crate, a "part" is a strongly connected component, a "twin" is a witness of
//! EDA, and a "split" is a witness of IDA.
//!
//! # What is proved
//!
//! Two states have the same part if and only if each reaches the other, and a part that is reached from another one has
//! the smaller number. Every word that is found is a shortest one, and no word is found if and only if there is none. The
//! law [`laws::counts_are_paths`] relates the number of paths along a word to the paths themselves.
//!
//! # Example
//!
//! ```
//! let mut g = Multigraph::new(alloc, 3, 2)?;
//! g.add(0, 0, 1)?; // from state 0, on letter 0, to state 1
//! g.add(1, 1, 0)?;
//! g.add(1, 0, 2)?;
//! let components = g.components()?;
//! components.of(0) == components.of(1); // true
//! components.on_cycle(2); // false
//! g.walk(0, 2)?; // Some: the word [0, 0]
//! ```
//!
//! Read `specs/Graph.antt` and `specs/Paths.antt` first, then `specs/Parts.antt` and `specs/Walks.antt`.
//! `specs/Twins.antt` defines the EDA and IDA criteria of Weber and Seidl (1991), and `specs/Bounds.antt` defines the
//! constants of the cost bound.
#![tactic(auto)]

mod components;
mod dense;
mod graph;
mod halves;
pub mod laws;
mod marked;
mod moves;
mod pairs;
mod parts;
mod row_list;
mod rows;
mod walks;

pub use components::Components;
pub use graph::Multigraph;
pub use moves::{NextStates, Twice};
pub use pairs::{pair_parts, product_parts};
pub use parts::{Parts, parts_of};
pub use row_list::RowList;
pub use walks::{FoundPath, cycle_through, path_between};
