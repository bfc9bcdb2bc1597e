//! Reports in SARIF 2.1.0, which code scanners read, and baselines, which hide the entries that you already know.
//!
//! [`sarif`] writes a list of entries as a SARIF document. [`baseline`] reads an earlier report in JSON as [`KnownKeys`], and
//! [`unknown`] returns the positions of the entries that it doesn't know. The key of an entry is its path with its call, its
//! kind, and its degree, limit or cause. Line numbers aren't part of a key, so an entry stays known when the code above it
//! changes. Entries with the same key are matched one to one.
//!
//! # What is proved
//!
//! The bytes of the document are exactly those of its definition. A baseline gives exactly the keys that its bytes hold, and
//! bytes are refused if and only if they aren't such a report. The positions are exactly those of the unknown entries. By the
//! laws [`reports_are_baselines`] and [`entries_know_themselves`], a report in JSON of at most 67,108,864 bytes is a baseline
//! that hides all of its own entries.
//!
//! # Example
//!
//! ```
//! // the baseline holds one entry of `my s.py`, with the call fullmatch and the kind unreadable
//! // the entries of `my s.py`, all with that call: one undecided, and then two unreadable ones
//! unknown(alloc, &entries, &known)?; // [0, 2]
//! ```
//!
//! Read `specs/Keys.antt` and `specs/Known.antt` first, then `specs/Baseline.antt` and `specs/Sarif.antt`.
#![tactic(auto)]

mod document;
mod key;
mod laws;
pub mod limits;
mod names;
mod positions;
mod reading;
mod tally;
mod uri;

pub use document::sarif;
pub use key::{About, Key, KnownKeys};
pub use laws::{
    baselines_hold_one_list, entries_know_themselves, reports_are_baselines, same_keys_are_equal,
};
pub use limits::MOST_BASELINE_BYTES;
pub use positions::{Positions, unknown};
pub use reading::{BaselineError, baseline};
