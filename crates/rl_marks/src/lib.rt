//! Trees with groups, and what a backtracking matcher finds with them: where matches end, and the spans of their groups.
//!
//! [`MarkedPattern::of`] makes the tree with groups of a [`Pattern`](rl_syntax::Pattern), a [`MarkTree`]. It is the tree of
//! `rl_syntax`, in which each capturing group is marked with its number. Groups are numbered from 1, in the order of their
//! opening parentheses. [`How`] names the calls by which two patterns are compared, and [`ending_of`] says where a match may
//! end then. [`value_of`] returns the value of a group. `rl_spans` decides whether two patterns find the same. It uses the
//! types of [`threads`].
//!
//! # What is proved
//!
//! The tree is the one that the definition gives. [`MarkedPattern::of`] returns one only if it has at most 4,000 nodes and the
//! pattern has at most 100 groups, and its errors say that there are more only if there are. Above all, this crate defines
//! when two patterns find the same: the same matches with the same ends and the same groups, from each position or by one
//! search from the start of a text. [`laws`] states three relations: a tree without its groups is the tree of `rl_syntax`;
//! under a condition the ends of its finds are those of that tree's run; and matchers that find the same from each position
//! find the same in each search and each sequence of searches, such as those of `finditer`.
//!
//! The module `thread_laws` has the theory of a check. A text is read by lists of threads, in which a later thread in the
//! state of an earlier one is dropped, and positions are represented by names. If a relation on pairs of such lists is closed
//! under the next code, two patterns find the same.
//!
//! # Example
//!
//! ```
//! // `pattern` is `(a|b*)*`
//! let marked = MarkedPattern::of(alloc, &pattern)?;
//! marked.groups; // 1
//! marked.tree.nodes(); // 6: two repeats, the group, the choice, `a` and `b`
//! ```
//!
//! Read `specs/Marked.antt`, `specs/Finds.antt`, `specs/Hits.antt`, `specs/Searches.antt` and `specs/SameFinds.antt` in this
//! order, and `specs/Marking.antt` for how the groups of a pattern are numbered.
#![tactic(auto)]

pub mod asked;
pub mod error;
pub mod laws;
pub mod limits;
mod marking;
pub mod pattern;
pub mod seek;
pub mod spans;
mod thread_laws;
pub mod threads;
pub mod tree;

pub use asked::{How, MatchEnding, ending_of};
pub use error::MarkError;
pub use limits::MOST_GROUPS;
pub use pattern::MarkedPattern;
pub use seek::seeking;
pub use spans::{GroupSpan, value_of};
pub use tree::MarkTree;
