//! Suggestions: a simpler pattern that matches the same texts.
//!
//! [`suggest`] tries the branches of a pattern, starting with the last one, and drops each branch that the rules allow to be
//! dropped and without which the language stays the same. `rl_trim` decides these trials if it can, and `rl_equiv` decides
//! the others. Then [`suggest`] takes out quantifiers that change nothing below another one, such as the inner one in
//! `(?:x*)*`, and spells the resulting text. The [`Suggestion`](rl_syntax::Suggestion) has this text and the spans of
//! everything that was removed. [`plain_suggestion`] returns at once for a pattern from which nothing can be removed.
//!
//! # What is proved
//!
//! The suggestion is exactly what the rules give. Its text is read as a pattern that has the same outer anchors and matches
//! the same texts in every mode. [`SuggestError::Limit`] is returned only if the body exceeds the limit that it names, and a
//! suggestion is returned only if the body exceeds none. By the law [`laws::every_branch_is_settled`], each branch of a
//! pattern without guards is dropped, given up as too costly, left alone by the rules, or needed.
//!
//! # Example
//!
//! ```
//! // for `(?:ab|a|ab)c`: the text `(?:ab|a)c`; the third branch, at the positions 8 and 9, is dropped
//! suggest(alloc, &pattern, &codes, flags, 600)?;
//! // for `(?:x*)*y`: the text `(?:x)*y`
//! suggest(alloc, &pattern, &codes, flags, 600)?;
//! ```
//!
//! Read `specs/RightSuggestion.antt` first, with `specs/Suggested.antt` and `specs/Cut.antt` of `rl_pattern`, which define
//! the rules; then `specs/Verdicts.antt`, `specs/Settled.antt` and `specs/Plain.antt`.
#![tactic(auto)]

mod going;
mod keeping;
pub mod laws;
mod leaving;
mod limits;
mod merging;
mod parts;
pub mod plain;
mod spelling;
pub mod suggesting;
mod trial;
mod trying;

pub use plain::plain_suggestion;
pub use suggesting::{SuggestError, suggest};
