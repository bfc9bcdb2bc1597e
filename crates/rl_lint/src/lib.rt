//! The whole program as one function, for any tree of files and any outputs.
//!
//! [`relint_main`] does what the words of the command line ask for and returns the exit status. It works out the whole run
//! first: it reads the words, the settings file if one is named, and the files that the action needs, and it builds everything
//! that it will write. Only then does it write. The actions are `check`, `cost`, `class`, `compare`, `prove`, `verify` and
//! `sample`. Each has a module of its own, which calls the crates below. The other functions here serve programs that only
//! judge one source or only read settings.
//!
//! # What is proved
//!
//! This is the headline of the repository. What a run writes to both outputs, and how it ends, follows from the words, the
//! settings, and what the tree of files answered: the clause `run` says so for all actions. A status comes only for its cause,
//! and a run that isn't refused and meets no fault ends with status 0 or 1, or runs out of memory.
//!
//! # Example
//!
//! ```
//! // with the words `cost`, `a*` and `aa`
//! relint_main(alloc, &words, &mut tree, &mut out, &mut err); // 0, and `out` has gained `steps 5 matched` and a line feed
//! ```
//!
//! Read `specs/Runs.antt` and `specs/Endings.antt` first, then `specs/RunEnding.antt`, and then the file of the action that
//! interests you, such as `specs/CheckEnding.antt`.
#![tactic(auto)]

mod baseline;
mod check;
mod class;
mod codes;
mod compare;
mod config;
mod cost;
mod cost_line;
mod files;
mod filter;
pub mod limits;
mod messages;
mod options;
mod pattern_argument;
mod plan;
mod prove;
mod relation;
mod run;
mod sample;
mod settings;
mod stderr;
mod verify;

pub use limits::{MOST_READ, MOST_TEXT_CODES, WHOLE_FILE};
pub use rl_judge::{JudgeError, Layout, Settings, judge, status_of};
pub use rl_sample::sample_source;
pub use rl_settings::SettingsError;
pub use run::relint_main;
pub use settings::settings_from;
