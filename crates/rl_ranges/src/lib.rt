//! Sets of characters as Python's `re` has them, and the alphabet that a list of such sets needs.
//!
//! A [`CodeSet`] is a set of code points, kept as sorted ranges. A [`Universe`] says which code points exist: those of
//! `str` or those of `bytes`. [`CodeSet::named`] returns `\d`, `\s` or `\w`, and [`CodeSet::case_closed`] returns what
//! IGNORECASE makes of a set. [`Letters::of`] takes the sets of a pattern and finds its alphabet classes: code points that
//! no set tells apart are one letter. So the automata in the crates above read at most 128 letters instead of 1,114,112
//! code points. [`Letters::sample`] returns one code point for a letter, a printable ASCII character if the letter has one.
//!
//! # What is proved
//!
//! Each operation is the operation on sets, code point by code point. The named classes and the rules of case follow the
//! definitions, by ASCII or by Unicode. The letters are exactly the classes, numbered by their least code point, and
//! [`LettersError::TooMany`] is returned only if there are more letters than the limit. The list of ranges of a set is
//! determined by its codes: see [`laws::ranges_stand_for_sets`].
//!
//! # Example
//!
//! ```
//! let sets = vec![in alloc; CodeSet::range(alloc, 97, 99)?, CodeSet::range(alloc, 98, 122)?]?; // [a-c] and [b-z]
//! let letters = Letters::of(alloc, &sets, Universe::Bytes)?;
//! letters.count(); // 4: what neither holds, `a`, `b` and `c`, `d` to `z`
//! letters.letter_of(99); // 2
//! letters.sample(2); // 98
//! ```
//!
//! Read `specs/Text.antt` and `specs/Codes.antt` first, then `specs/Letters.antt`, `specs/Named.antt` and `specs/Case.antt`;
//! for the law `specs/Listed.antt`.
#![tactic(auto)]

mod case;
pub mod code_set;
pub mod laws;
pub mod letters;
pub mod named;
mod range_list;
mod ranges;
mod stretches;
mod tables;
pub mod universe;

pub use code_set::CodeSet;
pub use letters::{Letters, LettersError, MOST_LETTERS};
pub use named::Named;
pub use rl_lists::{Bytes, Codes, Items, Members, OutOfMemory, Path, Places, Ranks, Word};
pub use universe::Universe;
