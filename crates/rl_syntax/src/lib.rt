//! Patterns as they are written, the trees that they are lowered to, and what both mean: languages, runs and costs.
//!
//! A [`Pattern`] holds the parts of a pattern with their positions. Its outer anchors are removed and noted separately.
//! [`lower`] turns it, in a [`Mode`] such as `search`, into a [`Lowered`]: a [`Re`], which is a tree of six kinds of nodes,
//! and an [`Ending`], which says where a match may end. [`size_after`] counts the nodes beforehand. [`Verdict`], [`Family`]
//! and [`Suggestion`] are what the crates above find out about a pattern.
//!
//! # What is proved
//!
//! The tree is the one that the definition gives, and it has at most 4,000 nodes. [`LowerError::TooLarge`] is returned only if
//! it would have more. This crate also defines what every promise about patterns refers to:
//! which positions of a text a tree spans, the run of the backtracking matcher of Weideman and others (2016), and the cost,
//! which counts the tests of that run up to the first hit. The module [`laws`] states the rule of repetition and the star
//! equations.
//!
//! # Example
//!
//! ```
//! // `pattern` is `a{2,3}`
//! size_after(&pattern, Mode::Fullmatch); // 7: two `a` in a row, then `a` or nothing
//! size_after(&pattern, Mode::Search); // 10: and any number of characters before them
//! lower(alloc, &pattern, Mode::Fullmatch)?.tree.nodes(); // 7
//! ```
//!
//! Read `specs/Tree.antt`, `specs/Language.antt`, `specs/Run.antt` and `specs/Cost.antt` in this order, then
//! `specs/Modes.antt` and `specs/Lowering.antt`, and `specs/Family.antt` for attack strings.
#![tactic(auto)]

pub mod anchors;
pub mod feature;
pub mod laws;
pub mod limits;
pub mod lowering;
pub mod pat;
pub mod pattern;
pub mod re;
pub mod sizes;
pub mod span;
pub mod verdict;

pub use anchors::{AnchorKind, Guard, Trail};
pub use feature::Feature;
pub use limits::{MOST_COUNTED_SETS, MOST_MOVES, MOST_NODES, MOST_PAIRS, MOST_SET_PAIRS};
pub use lowering::lower;
pub use pat::{Branch, Branches, Pat, Pats};
pub use pattern::Pattern;
pub use re::{Ending, LowerError, Lowered, Mode, Re};
pub use rl_ranges::{
    Bytes, CodeSet, Codes, Items, MOST_LETTERS, Members, Named, OutOfMemory, Path, Places, Ranks,
    Universe, Word,
};
pub use sizes::size_after;
pub use span::{Span, Spans};
pub use verdict::{Family, Limit, Suggestion, Texts, Verdict};
