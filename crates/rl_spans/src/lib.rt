//! Whether two regular expressions find the same spans and groups.
//!
//! Both patterns are read side by side, as trees with groups of `rl_marks`. Each side keeps a list of threads, which are the
//! states of its tree with what is known of the groups, in the order in which a backtracking matcher would come to them. A
//! pair of such lists steps on a letter to another pair; the places of groups are names in it, so that a pair stands for each
//! pair that other places make. A [`SpanRelation`] is a list of pairs with the step of each pair on each letter. [`check`]
//! goes over it: it says yes only if each step leads to a pair of the list again, and both sides agree wherever a match ends.
//!
//! [`same_finds`] searches for such a relation, breadth first. The search itself is only safe: a relation that it comes to is
//! checked, and if it comes to a text on which both sides part, both are run on the text and have to find different matches.
//!
//! # What is proved
//!
//! If [`check`] says yes, both patterns find the same in every text of their universe: by `fullmatch`, or by `match` from each
//! place, and so by `search`, `finditer`, `findall`, `split` and `sub`, or by one search from the text's start. They end at
//! the same place, give each group the same value, and close the same group last. Nothing is promised if it says no.
//!
//! An error that names a limit comes only if that limit is exceeded: [`SpansError::Size`] if one of the trees has too many
//! nodes, [`SpansError::Letters`] if both tell too many letters apart, and [`SpansError::Moves`] if too many items are tried
//! in one of them. `specs/Limits.antt` says what is counted.
//!
//! [`same_finds`] answers `Same` only if both patterns find the same in this sense, and `Differ` only with a text of fewer
//! than 2^32 codes on which they find different matches from the place on. `Exceeded` promises nothing. If [`check`] says yes,
//! or [`same_finds`] answers `Same` or `Differ`, both patterns are over one universe.
//!
//! # Example
//!
//! ```
//! // the patterns are `(a+)+b` and `(a+)b`, and `relation` holds each pair that they come to
//! check(alloc, &first, &second, How::Match, &relation)?; // true
//! same_finds(alloc, &first, &second, How::Match, 6_000)?; // `Same`, with a relation of 6 pairs
//! ```
//!
//! Read `specs/SameFinds.antt` of `rl_marks` first: it says what finding the same means.
#![tactic(auto)]

mod agreeing;
mod asking;
mod canonical;
mod caps;
mod checking;
mod codes;
pub mod comparing;
mod differing;
pub mod error;
pub mod finding;
mod items;
mod machine;
mod naming;
mod plain;
pub mod relation;
mod running;
mod searching;
mod shown;
mod side;
mod stepping;
mod threads;

pub use checking::check;
pub use comparing::{SameFinds, same_finds};
pub use error::SpansError;
pub use finding::{Sight, found_by};
pub use relation::{Move, Row, SpanRelation};
