//! The parts of a pattern as a value of JSON.
//!
//! [`tree_reply`] returns an object with the tree of a [`Pattern`](rl_syntax::Pattern): each part with its kind and its span,
//! repeats with their bounds and quantifiers, groups with their numbers, and sets, also those of lookarounds, by the letters
//! that they hold. A letter is a class of codes that no set of the pattern tells apart; the object has a sample of each.
//! [`members`] has functions that build objects of JSON, for other replies too.
//!
//! # What is proved
//!
//! The value is the one that the definition gives for the pattern. [`PartsError::Letters`] is returned only if the sets have
//! more than 128 letters, and [`PartsError::Groups`] only if there are more than 4,294,967,294 capturing groups. In both cases
//! there is never a value.
//!
//! # Example
//!
//! ```
//! // `pattern` is `a|b`
//! tree_reply(alloc, &pattern)?; // {"answer":"tree","leading":false,"letters":[{"sample":" "},..],..}
//! ```
//!
//! Read `specs/Sets.antt`, `specs/Members.antt`, `specs/Nodes.antt` and `specs/Reply.antt` in this order.
#![tactic(auto)]

pub mod error;
mod letters;
pub mod members;
mod nodes;
pub mod reply;
mod sets;

pub use error::{MOST_NUMBERS, PartsError};
pub use reply::tree_reply;
