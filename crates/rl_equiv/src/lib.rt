//! Whether two regular expressions match the same texts.
//!
//! [`same`] reads the automata of two trees side by side, over the same letters. It searches the product of their
//! powerset constructions breadth first. The states of that product are the set pairs ([`SetPair`]): the two sets of
//! states that one word leads to. It returns a [`Sameness`]. Either the trees are equal, with the [`Relation`] of all
//! set pairs, which is a bisimulation; or they are apart, with a text that only one of them spans; or the limit on set
//! pairs is exceeded. [`check`] checks a relation without a search. [`regions`] gives a text that only the first tree
//! spans, one that only the second spans, and one that both span. A [`Baseline`] compares one tree with many others.
//!
//! # What is proved
//!
//! Trees that are called equal span the same texts of the universe, and a text that is returned is in exactly one of
//! the two languages. [`Sameness::Passed`] comes exactly if more set pairs are reached than the limit, and none of the
//! first ones shows a difference: the word means that the limit is exceeded, not that the comparison succeeded.
//! [`check`] returns true exactly if the limits hold and the relation is closed, and then the trees span the same
//! texts. A set of states is the list of its members, rising; by the law [`laws::sets_are_rising_lists`] you may read a
//! relation as pairs of sets or as pairs of lists.
//!
//! # Example
//!
//! ```
//! same(alloc, &first, &second, Universe::Bytes, 100)?; // for `(?:a|b)*` and `[ab]*`: Equal, with four set pairs
//! same(alloc, &first, &second, Universe::Bytes, 10)?; // for `aab` and `aac`: Apart, with the text `aab`
//! same(alloc, &first, &second, Universe::Bytes, 1)?; // for `aab` and `aac`: Passed
//! ```
//!
//! Read `specs/SetPairs.antt` and `specs/Languages.antt` first, then `specs/Numbering.antt`, `specs/Regions.antt` and
//! `specs/Limits.antt`.
#![tactic(auto)]

mod baseline;
mod checking;
mod compared;
mod comparing;
mod error;
mod index;
mod joint;
pub mod laws;
pub mod pair;
mod region_texts;
mod sameness;
mod searching;
mod sides;
mod walks;

pub use baseline::Baseline;
pub use checking::check;
pub use compared::Compared;
pub use comparing::same;
pub use error::SameError;
pub use pair::{Relation, SetPair};
pub use region_texts::regions;
pub use sameness::Sameness;
