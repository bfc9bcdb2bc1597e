//! The verdict on a pattern: how the cost of a match grows with the length of the text.
//!
//! [`classify`] builds the ordered automaton of a lowered pattern and the graph of its live pairs. There it searches for a
//! twin, which is a witness of EDA. If there is one, the growth is exponential. Otherwise it finds a longest chain of splits,
//! which are witnesses of IDA. The degree is one more than the length of this chain, or 0 if the graph has no cycle. The
//! modules [`words`] and [`spelling`] turn the twin or the chain into a family of texts that shows the growth: an attack
//! string with its pumps.
//!
//! # What is proved
//!
//! The verdict is right. For a degree `d`, every text of `n` characters costs at most `C (n + 1)^d`, where `C` depends only
//! on `d` and the size of the tree, and the text of the family for `k` costs at least `k^d`. For exponential growth, the text
//! for `k` costs at least `2^k`. An undecided verdict names a limit that is exceeded. The class of growth is also the class
//! that the graph shows.
//!
//! # Example
//!
//! ```
//! // trees over bytes, matched to the end of the text
//! classify(alloc, &lowered, Universe::Bytes, 600)?; // for `a*a*`: Verdict::Degree(2, ..)
//! classify(alloc, &lowered, Universe::Bytes, 8)?; // for `(a|a)*`, which has eight live pairs: Verdict::Expo(..)
//! classify(alloc, &lowered, Universe::Bytes, 7)?; // for `(a|a)*`: Verdict::Undecided(Limit::Pairs)
//! ```
//!
//! Read `specs/RightVerdict.antt` of `rl_pairs` first, then `specs/Degrees.antt`, `specs/Questions.antt` and
//! `specs/Routes.antt`.
#![tactic(auto)]

mod judging;
pub mod laws;
pub mod spelling;
pub mod words;

pub use judging::classify;
