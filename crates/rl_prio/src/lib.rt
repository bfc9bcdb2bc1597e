//! The automaton of a regular expression whose moves are in the order in which a backtracking matcher tries them: the
//! prioritized NFA of Weideman and others (2016), here called "ordered automaton".
//!
//! [`Prio::build`] builds it from a lowered tree. As in Glushkov's construction, there is a state for each place of the tree
//! that reads a character, and there are no empty moves. More precisely, a place has one state for each kind of letter that
//! anchors, word boundaries and lookarounds distinguish. [`Prio::moves`] returns the targets of a state on a letter in order,
//! and keeps repeated targets, because a matcher tries them again. [`Prio::build_over`] and [`Prio::build_beside`] build
//! automata over given letters, so that two automata can read the same word side by side.
//!
//! # What is proved
//!
//! The letters, states and ordered moves are the ones that the tree defines. By the law [`laws::walk_is_run`], the walk of the
//! automaton on a text is the run of the tree, test by test, for every text. So both match the same texts at the same cost.
//! [`PrioError::Letters`] is returned only if there are more than 128 letters, and [`PrioError::Moves`] only if there are no
//! more letters than that and a list of items would have more than 256 items. In both cases no automaton can be built.
//!
//! # Example
//!
//! ```
//! let automaton = Prio::build(alloc, &tree, Ending::AtEnd, Universe::Bytes)?; // `tree` is the tree of `(a|a)*`
//! automaton.states(); // 5: the start, two places, the accepting state 3 and the dead state 4
//! automaton.moves(0, 1); // [1, 2, 4]: on `a` each branch succeeds, and ending here fails
//! automaton.moves(0, 2); // [4, 4, 3]: at the end of the text both branches fail, and ending here succeeds
//! ```
//!
//! Read `specs/Items.antt` first, then `specs/States.antt`, `specs/StandsFor.antt` and `specs/Walk.antt`.
#![tactic(auto)]

mod build;
mod error;
pub mod laws;
mod prio;
mod rows;

pub use build::add_letter_sets;
pub use error::PrioError;
pub use prio::Prio;
