//! The moves of a graph that stay within a strongly connected component. The searches for twins and for splits start
//! from them.
//!
//! A [`Kernel`] is a list of states of a multigraph, each with the number of its component and its place in the list.
//! You fill it with [`Kernel::put`]. [`inner_graph`] then makes the graph of the inner moves: the moves that lead from
//! a state of the list to a state of the list in the same component. The states of the new graph are the places in the
//! list, and its letters are the letters of the old one. A move that leaves its component isn't part of any cycle, so
//! the products that later crates build from this graph have all the cycles they need and are smaller.
//!
//! # What is proved
//!
//! The new graph has a move from one place to another on a letter if and only if the old graph has such a move between
//! the states at these places and both states are in the same component.
//!
//! # Example
//!
//! ```
//! // moves from 0 to 1 on letter 0, from 1 to 0 on letter 1, and from 1 to 2 on letter 0; the kernel has all three states
//! let inner = inner_graph(alloc, &g, &components, &kernel)?;
//! inner.edges(1, 1); // [0]
//! inner.edges(1, 0); // []: that move leaves its component
//! ```
//!
//! Read `specs/Seats.antt` first, then `specs/Inner.antt`.
#![tactic(auto)]

mod inner;
mod kernel;

pub use inner::inner_graph;
pub use kernel::Kernel;
