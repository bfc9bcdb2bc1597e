//! Reports, for each call of `re` in a Python source, how the cost of its pattern grows, or why that isn't known.
//!
//! [`judge`] takes the bytes of one source and the [`Settings`], and returns the entries of its report:
//!
//! 1. `has_no_sites` (`rl_sites`) takes a quick look. A source that surely has no call of `re` has no entries.
//! 2. `tokens` (`rl_pylex`) cuts the source into tokens. If it finds a fault, the only entry names the fault.
//! 3. `sites` (`rl_sites`) finds the calls whose pattern is a literal. Each of them gets one entry.
//! 4. `analyze` finds the outcome of a call, which is the first of these that holds: the argument isn't only literals, the
//!    literals have no value, the flags aren't known, the value isn't a pattern that can be judged, or the pattern has a
//!    verdict.
//! 5. `verdict_on` finds the verdict, `suggestion_beside` finds what can be left out of the pattern, and `suggested_verdict`
//!    finds the verdict on what remains.
//! 6. `some_place_at` and `marks_of` turn byte places into lines and columns.
//!
//! [`Checker`] is the visitor that `walk` (`rl_walk`) calls for each path. It judges the sources and keeps their entries, and
//! adds one entry for each path that has no source to judge. [`has_finding`] says whether one of the entries is a finding;
//! [`status_of`] is 1 if so, and otherwise 0.
//!
//! # What is proved
//!
//! The entries are right. A source that can't be cut into tokens has one entry, which names its first fault. Any other source
//! has exactly one entry for each call with a literal pattern, in order, and its outcome is the first that holds. A verdict is
//! right for every text: no text costs more than a degree allows, and the texts of the family cost as much as the verdict says.
//! The suggested pattern matches the same texts in every mode, and its verdict is right too. All places are exact. Running out
//! of memory is the only answer that no clause ties to a cause.
//!
//! # Example
//!
//! ```text
//! let settings = Settings {
//!     compile_as: Mode::Search,
//!     max_degree: 2,
//!     max_pairs: 600,
//!     format: Layout::Report(Format::Text),
//!     report: 2,
//! };
//! let source = b"import re\nre.fullmatch(r\"(?:x*)*y\", s)\n";
//! let entries = judge(alloc, &path, source.as_slice(), &settings)?;
//! ```
//!
//! There is one entry, at line 2 and column 14. Its verdict is exponential, and the texts `xxx`, `xxxx`, `xxxxx` and so on show
//! it. The suggestion is `(?:x)*y`, without the quantifier at line 2, column 20, and its verdict is degree 1. So
//! `status_of(&entries, &settings)` is 1.
//!
//! # Where to begin
//!
//! `specs/RightEntries.antt` defines which entries are right for a source, `specs/Analysis.antt` which outcome a call has, and
//! `specs/RightReport.antt` which entries are right for a walk. `src/entries.rt` and `src/analysis.rt` follow them.
#![tactic(auto)]

mod analysis;
mod checker;
mod entries;
mod options;
mod parts;
mod places;
mod settings;
mod suggestion;
mod verdict;

pub use checker::Checker;
pub use entries::{JudgeError, has_finding, judge, status_of};
pub use settings::{Layout, Settings};
