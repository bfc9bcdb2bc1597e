//! Explanations of verdicts as values of JSON.
//!
//! [`put_ways`] adds to an object how the pumps of a verdict's family are read: the two ways of a twin, or the splits and the
//! loop of a chain, with the spans of the pattern's parts. An explanation comes from `explain` of `rl_why`.
//!
//! # What is proved
//!
//! The members are the ones that the definition gives for the explanation.
//!
//! # Example
//!
//! ```
//! // `pattern` is `(a|a)*b`
//! let explained = explain(alloc, &pattern, Mode::Fullmatch, 1000)?;
//! put_ways(alloc, &mut members, Universe::Str, &explained)?; // adds `twin`, an object with `parts`, `pump`, `text` and `ways`
//! ```
//!
//! Read `specs/Steps.antt`, and then `specs/Replies.antt`.
#![tactic(auto)]

mod quoted;
mod readings;
mod steps;

pub use readings::put_ways;
