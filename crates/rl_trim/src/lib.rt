//! Quick trials of branches: whether a pattern matches the same texts without some of its branches.
//!
//! The places of a tree are its leaves that match one code each. Removing a branch from a tree removes the states of the
//! branch's places from its automaton. So a [`Trimmer`] builds the automaton once, or takes over one that is already
//! built, and keeps the sets of states that earlier trials found. [`Trimmer::judge`] gets a flag for each place, which
//! says whether it is kept, and searches the pairs of sets with and without the branch: in any order if the limit allows
//! it, otherwise breadth first. One breadth-first search serves all branches that have an equal branch beside them.
//! [`Trimmer::judge`] returns a [`Judgement`], or `None` if there is no room for the trial; the caller then compares both
//! trees with `rl_equiv`. If a branch was left out since it has an equal branch beside it, [`Trimmer::stays_equal`] finds
//! out, without a search, whether further such branches can be left out as well. This crate exists only for speed.
//!
//! # What is proved
//!
//! If [`Trimmer::judge`] returns a judgement, it is the one that the search through the set pairs of both trees finds under
//! the limit, and trees that are judged equal span the same texts. This holds for trees without guards and for branches that
//! can't span the empty text. Nothing is claimed if it returns `None`.
//!
//! If [`Trimmer::stays_equal`] returns true, the search through the set pairs of the tree without the branches left out before
//! and the tree without the further ones too has the result `Equal` under the limit, and these two trees span the same texts;
//! this holds for the same trees and branches.
//!
//! # Example
//!
//! ```
//! // the tree of `ab|ac|ab`, whose six places are numbered from left to right
//! trimmer.judge(alloc, &[false, false, true, true, true, true], 100)?; // Some(Judgement::Equal)
//! trimmer.judge(alloc, &[true, true, false, false, true, true], 100)?; // Some(Judgement::Apart)
//! ```
//!
//! Read `specs/SetPairs.antt` of `rl_equiv` first, then `specs/Without.antt`, `specs/Judged.antt` and `specs/Reached.antt`.
#![tactic(auto)]

mod branch;
mod changes;
mod holders;
mod judgement;
mod key;
mod order;
mod pairs;
mod quick;
mod store;
mod trimmer;
mod twins;
mod word;

pub use judgement::Judgement;
pub use trimmer::Trimmer;
