//! Questions about patterns, read from values of JSON.
//!
//! [`question_of`] reads the [`Question`] that a value of JSON asks, or names the [`Mistake`] for which it asks none. A
//! question has one or two patterns, with the [`Terms`] on which they are read, and what else its `ask` takes.
//!
//! # What is proved
//!
//! The question, or the message of the mistake, is exactly the one that the definition gives for the value.
//!
//! # Example
//!
//! ```
//! // for the line {"ask": "class", "pattern": "(a|a)*"}
//! question_of(&value)?; // `Question::Class`, in the mode `search`, with at most 1,000 live pairs
//! ```
//!
//! Read `specs/Reading.antt` first, then `specs/Questions.antt` and `specs/Words.antt`.
#![tactic(auto)]

mod keys;
mod limits;
mod mistake;
mod question;
mod reading;
mod values;
mod words;

pub use limits::{
    LEAST_LIMIT, MOST_COMPARE_LIMIT, MOST_PAIRS, MOST_SPANS_LIMIT, USUAL_COMPARE_LIMIT,
    USUAL_PAIRS, USUAL_SPANS_LIMIT, limits_are,
};
pub use mistake::Mistake;
pub use question::{Question, Terms};
pub use reading::question_of;
