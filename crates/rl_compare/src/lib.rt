//! Compares what two patterns match, each in the mode in which it is used.
//!
//! [`compare`] takes two lowered patterns. If a match may end anywhere, it adds any number of characters to the end of
//! the tree, so that the question becomes one about whole texts. Then it asks `rl_equiv` for a text that only the first
//! pattern matches, one that only the second matches, and one that both match. [`Compared`] has these texts, and says
//! whether more set pairs are reached than were looked at. Two patterns match the same texts if the first two texts are
//! missing and no more set pairs are reached.
//!
//! # What is proved
//!
//! Each text is in its region. If no more set pairs are reached than the limit, a region without a text is empty. An
//! error names the first limit that is exceeded. By the law [`laws::matched_trees_span_matches`], the trees with the
//! added characters span exactly the texts that are matched.
//!
//! # Example
//!
//! ```
//! // `a*` and `a+`, both matched whole
//! compare(alloc, star, plus, Universe::Bytes, 20_000)?;
//! // first: the empty text; second: None; both: `a`; more: false
//! ```
//!
//! Read `specs/Matched.antt` first, then `specs/Comparison.antt` and `specs/Regions.antt` of `rl_equiv`.
#![tactic(auto)]

mod comparing;
mod error;
pub mod laws;

pub use comparing::compare;
pub use error::CompareError;
pub use rl_equiv::Compared;
