//! The whole program `relint-ask` as one function, for any input and any outputs.
//!
//! [`ask_main`] reads questions about patterns from an input, one object of JSON a line, and writes one reply a line, in order.
//! `rl_asked` reads a question; [`answer_to`] finds its [`Answer`].
//!
//! | Question | Its answer |
//! |---|---|
//! | `class` | how the cost of matching a pattern grows with the length of the text; if that is undecided for a search, bounds of the growth |
//! | `ways` | how the cost grows, and the ways in which the pumps of the verdict's family, the texts that it repeats, are read |
//! | `compare` | how the texts are related that two patterns match, with a text of each region |
//! | `spans` | whether two patterns find the same spans and groups, or the same spans alone, and otherwise a text on which they differ |
//! | `found` | the match that a pattern finds on a text |
//! | `tree` | the parts of a pattern: its tree, with the places of its parts, and the letters of its sets |
//! | `suggest` | what can be left out of a pattern |
//! | `cost` | how many steps a match of a text, or of the string of a family, takes |
//! | `version` | the version, and the questions that are answered |
//!
//! The [`Grammar`] of a question says what of its patterns is read. It is wider than what `relint` reads, except for `suggest`:
//! it has lookarounds of one character, and mostly a `$` that ends the pattern inside a group or a branch. What of this a
//! pattern has is told beside the answer, as [`Beyond`]. A pattern that isn't read is refused, with the cause and the position
//! that reports have for it, or with the cause `not-bytes` if it has a character above U+00FF and is to be a bytes pattern.
//!
//! # What is proved
//!
//! Each line of the input has a right reply, and nothing else is written. A pattern is refused exactly if the grammar of its
//! question refuses it. The cost of a family is that of its string. Something is told beside an answer only if `relint` refuses
//! one of the patterns. Verdicts, comparisons, suggestions, costs and matches are right as the crates define it that find them.
//! `same` is answered only if both patterns find the same in every text, and `differ` only with a text on which they are seen
//! to find different matches; `empty` is false there only if matches that aren't empty were compared, and nothing is said of
//! whether the patterns differ if empty ones count too. A limit is named only if it is exceeded. The bounds of an undecided
//! search are all that its match tells of it. Each way is one of the pattern's tree along its pump. Nothing is promised of
//! `exceeded`.
//!
//! It isn't proved when a reply is written: that each is written before the next line is read shows only in the code, since a
//! contract speaks of the input and the outputs after the run. Nor is it said how much memory a line takes. A line is read
//! whole, even if it is too long to be a question.
//!
//! # Example
//!
//! ```
//! // the input has the line {"ask": "spans", "first": "(a+)+b", "second": "(a+)b"}
//! ask_main(alloc, &words, &mut input, &mut out, &mut err); // 0, and `out` has gained {"answer":"same"} and a line feed
//! ```
//!
//! Read `specs/Runs.antt` first, then `specs/Lines.antt`, `specs/Answers.antt` and the files that it names, and
//! `specs/Beyond.antt`.
#![tactic(auto)]

pub mod answer;
mod answering;
pub mod beyond;
mod class;
mod codes;
mod compare;
mod cost;
mod document;
mod family;
mod found;
pub mod grammar;
mod limits;
mod members;
mod messages;
mod patterns;
mod replies;
mod run;
mod sights;
mod spans;
mod suggest;
mod tree;
mod ungrouped;
mod version;
mod ways;

pub use answer::{Answer, Difference, Fault, Limit, Which};
pub use answering::answer_to;
pub use beyond::Beyond;
pub use grammar::Grammar;
pub use limits::{MOST_LINE_BYTES, MOST_TEXT_CODES, limits_are};
pub use run::ask_main;
pub use version::VERSION;
