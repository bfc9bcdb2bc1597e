//! Reports: what is found for each pattern of a source, and the layouts in which it is written.
//!
//! An [`Entry`] has a path, a place, a call, an [`Outcome`], which is a verdict or the cause of a refusal, and [`Marks`] for
//! the parts of the pattern that a suggestion mentions. [`render`] lays out a list of entries in a [`Format`]: as text, as
//! brief text or as JSON. [`render_shown`] does so for the entries that a baseline doesn't hide. [`place_of`] and [`Cursor`]
//! turn byte places into lines and columns, and tables in this crate name the calls, limits and causes.
//!
//! # What is proved
//!
//! The bytes of each layout are exactly those that its definition gives for the entries. The same goes for lines and columns,
//! for names, and for which verdicts are findings.
//!
//! # Example
//!
//! ```
//! render(alloc, &entries, Format::Text, 1, 600, 2)?;
//! // m.py:2:13: match: degree 1
//! //   family x0 r"" y1 r"a" x1 r"b"
//! //   drop 2:14 r"ab"
//! //   merge 2:20
//! //   suggest r"x"
//! //   becomes undecided pairs over 600
//! // 1 entries, 0 findings, 0 refused, 0 undecided
//! ```
//!
//! Read `specs/Layouts.antt` first, then `specs/Findings.antt`, `specs/Verdicts.antt`, `specs/Places.antt` and
//! `specs/Names.antt`, and `specs/Document.antt` for JSON.
#![tactic(auto)]

mod counts;
mod document;
mod layouts;
mod lines;
mod names;
mod outcomes;
mod pieces;
mod places;
mod report;
mod verdicts;

pub use layouts::{Format, render, render_shown};
pub use lines::summary_line;
pub use names::{
    call_name, feature_name, lexing_cause, limit_name, limit_number, literal_cause, pattern_cause,
    verdict_kind,
};
pub use outcomes::outcome_text;
pub use places::{Cursor, Place, place_of};
pub use report::{Entries, Entry, Mark, MarkList, Marks, Outcome, is_finding};
pub use verdicts::{family_line, verdict_line};
