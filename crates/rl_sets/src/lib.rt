//! The powerset construction on demand, here called "set walk": sets of states of an ordered automaton, each of which is
//! stored once and has a number.
//!
//! A [`SetWalk`] is the list of the sets found so far. [`SetWalk::intern`] returns the number of a set, [`SetWalk::step`]
//! returns the number of the image of a set on a letter, and [`SetWalk::join`] returns the number of a set with one more
//! member. [`SetWalk::refused_rest`] searches breadth first for a rest of a text that no member of a set accepts; a set for
//! which there is such a rest is live. A rest is a list of letters followed by the end letter. Sets are stored as rows of
//! bits, and images are computed once and kept. [`SetWalk::union_of_rows`] joins the rows that a table has for the members of a
//! set. [`SetWalk::shorten`] forgets the sets that were found last, which makes room for others.
//!
//! # What is proved
//!
//! Each set has one number. A step returns the image, and a join returns the set with its new member; both fail with
//! [`SetsError::Sets`] only if that set isn't listed and the list is full. A rest that is returned is refused by the set, and
//! `None` is returned only if the set isn't live.
//!
//! # Example
//!
//! ```
//! // `automaton` is the automaton of `(a|a)*`, matched to the end of the text; letter 0 is every code except `a`,
//! // letter 1 is `a`, and letter 2 is the end letter
//! let none = walk.intern(&automaton, &Vec::new(alloc))?; // 0
//! let start = walk.join(none, 0)?; // 1
//! let both = walk.step(&automaton, start, 1)?; // 2
//! walk.members(both)?; // [1, 2]
//! walk.refused_rest(&automaton, both)?; // Some: the rest [0, 2]
//! ```
//!
//! Read `specs/Live.antt` first, then `specs/Walk.antt` and `specs/Rests.antt`.
#![tactic(auto)]

mod error;
mod fill;
mod life;
mod rests;
mod rows;
mod split;
mod walk;

pub use error::SetsError;
pub use walk::SetWalk;
