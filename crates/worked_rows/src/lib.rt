//! Worked rows. Each says what one call of a program must answer. They are read from TOML and run with files and outputs in
//! memory, where calls and writes can be made to fail.
//!
//! [`values_of`] takes the rows out of a file's text. [`judge_value`] reads one of them, calls the program and compares the
//! results. The program is a [`Program`], so this crate doesn't depend on any particular one. `crates/rows/data/README.md`
//! explains what a row contains.
//!
//! # What is proved
//!
//! Only that each function is safe and returns: nothing panics, and no sum overflows. There are no contracts, because only the
//! program `rows` uses this crate: if the crate judges wrongly, a row fails there or is never run.
//!
//! # Example
//!
//! ```
//! let values = values_of(alloc, text)?; // where `text` begins with `[[row]]`
//! for value in &values {
//!     judge_value(alloc, &program, &mut names, value)?; // Err(Failure::Message(..)): `the status is 2 and should be 0`
//! }
//! ```
//!
//! Read `row.rt` first: it has the parts of a row.
#![tactic(auto)]

mod answer;
mod failure;
mod families;
mod fields;
mod judge;
mod program;
mod read;
mod row;
mod text;
mod tree;

pub use failure::Failure;
pub use judge::judge_value;
pub use program::Program;
pub use read::{name_of, values_of};
