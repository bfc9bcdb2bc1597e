//! Bounds on the cost of a search from the verdict on the match of the same pattern.
//!
//! The graph of live pairs of a search is often far larger than that of the match, so that the search exceeds a limit and is
//! undecided while the match isn't. [`search_bounds`] then says what the match tells of the search. A search costs at least
//! what a match costs, so it grows at least as fast, on the same family of texts. A search is also a match from each place of
//! the text in turn, so it grows by at most one degree more. If a guard of the pattern looks behind, the match of one character
//! followed by the pattern counts too, since it sees what a search sees behind that character.
//!
//! # What is proved
//!
//! The module [`laws`] states these laws, for all trees and texts. What [`search_bounds`] returns is right for the search, and
//! it is all that right verdicts on the match, and on the match behind one character, give.
//!
//! # Example
//!
//! ```
//! // `pattern` is `[0-9a-f]{64}`, whose search has more than 600 live pairs
//! let bounds = search_bounds(alloc, &pattern, 600)?;
//! bounds.at_least; // None: a match costs at most a constant
//! bounds.at_most; // Some(1)
//! ```
//!
//! Read `specs/Bounds.antt` first, then `specs/Behind.antt` and `specs/Places.antt`.
#![tactic(auto)]

mod behind;
pub mod bounds;
pub mod laws;
#[cfg(test)]
mod tests;

pub use behind::looks_behind;
pub use bounds::{AtLeast, Bounds, search_bounds};
