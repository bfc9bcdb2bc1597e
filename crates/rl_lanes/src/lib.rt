//! Sets of small numbers as rows of bits, and tables of such rows.
//!
//! A [`BitRow`] has a truth value for each place, so it represents the set of the places that are true. A [`BitTable`] is a
//! list of rows of equal length. [`BitTable::image`] is the union of the rows that a set selects. If a table holds the
//! moves of an automaton on one letter, this is one step of the powerset construction. The values are packed into words of
//! 64 bits, and the loops process eight words at a time with `std::simd`. Rows can be compared and hashed, so they can be
//! keys of an `IndexMap`.
//!
//! # What is proved
//!
//! Contracts see a row as the list of its values, and a table as the list of its rows. Each method equals the plain
//! operation on these lists, for every length.
//!
//! # Example
//!
//! ```
//! let mut table = BitTable::zeros(alloc, 3, 70)?;
//! table.set(0, 69, true);
//! table.set(1, 0, true);
//! table.set(2, 64, true);
//! // `chosen` is a row of 3 places in which 0 and 2 are true, and `into` is a row of 70 places
//! table.image(&chosen, &mut into);
//! into.next_from(0); // Some(64)
//! into.next_from(65); // Some(69)
//! ```
//!
//! Read `specs/Rows.antt` first, then `specs/Tables.antt`. `specs/Packed.antt` says how words hold the values.
#![tactic(auto)]

mod bits;
pub mod row;
pub mod table;
mod words;

pub use row::BitRow;
pub use table::BitTable;
