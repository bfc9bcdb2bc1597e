//! A Python source with many calls of `re`, generated from a seed, for trials and measurements.
//!
//! [`sample_source`] runs a linear congruential generator, with one step for each call. Each number of the generator
//! selects one of eight patterns, and each pattern becomes a call of `re.fullmatch` on a line of its own.
//!
//! # What is proved
//!
//! The bytes are exactly those that the definition of the generator gives for the seed and the number of calls.
//!
//! # Example
//!
//! ```
//! sample_source(alloc, 1, 3)?;
//! // import re
//! // re.fullmatch(r"\d+\.\d+", s)
//! // re.fullmatch(r"\d+\.\d+", s)
//! // re.fullmatch(r"abc", s)
//! ```
//!
//! Read `specs/Generator.antt`: it defines the generator, the eight patterns and the text.
#![tactic(auto)]

mod patterns;
mod source;

pub use source::sample_source;
