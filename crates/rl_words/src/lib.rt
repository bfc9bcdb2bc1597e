//! The words of the command line: which of them are a valid call, and what a valid call asks for.
//!
//! [`read_words`] takes the words after the program's name and returns [`Words`]: an [`Action`] with its arguments, and the
//! [`Options`] that were given. [`usage_text`] is the text to print if the words aren't a valid call.
//!
//! # What is proved
//!
//! The result is the call that the definitions read from the words, and its numbers are in their ranges.
//! [`WordsError::Invalid`] is returned only if the words aren't a valid call.
//!
//! Read `specs/Call.antt` and `specs/Given.antt` first, then `specs/Values.antt` and `specs/Command.antt`.
#![tactic(auto)]

mod action_name;
mod actions;
mod command;
mod error;
mod options;
mod ranges;
mod read;
mod usage;
mod values;
mod words;

pub use action_name::ActionName;
pub use error::WordsError;
pub use ranges::{COUNTS, MAX_DEGREES, MAX_PAIRS, NumberRange, REPORT_VERSIONS, SEEDS, limits_are};
pub use read::read_words;
pub use usage::usage_text;
pub use values::{format_of, mode_of};
pub use words::{Action, FormatWord, ModeWord, Options, PartialSettings, Paths, Words};
