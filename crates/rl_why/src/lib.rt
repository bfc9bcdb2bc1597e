//! Why a verdict is what it is: how the pumps of its family are read, shown in the pattern.
//!
//! A family of attack strings repeats its pumps. The cost grows because a matcher can read the repeated text in several ways.
//! [`explain`] finds the verdict on a pattern, as `classify` of `rl_growth` does, and with it these ways. For exponential growth
//! they are two ways of the pump, each from a place of the pattern back to itself: [`TwinReading`]. For a degree of 2 or more,
//! each pump but the last one can be shared out between two loops: [`SplitReading`] has a way in the first loop, one that goes
//! over to the second, and one in the second. The last pump is read by one loop, and so is the only one for degree 1.
//!
//! A way has a [`Step`] for each character: the character or class of the pattern that reads it, and the decisions before it. Each
//! is where it is written in the pattern, as an `Origin` of `rl_ways`; [`span_of`] gives the span.
//!
//! # What is proved
//!
//! The verdict is right. A reading is given for every verdict that has a pump. Each way is a way of the pattern's tree along the
//! pump, from its first place to its last one, and its steps are shown where they come from. The two ways of a twin are the same up
//! to the step that is named, and differ in the decisions there.
//!
//! The first head leads from the start of the tree to the place where the first pump is read, and each later one from where the
//! pump before it ends to the place of the next. Behind a head, a pump is read as behind itself, any number of times. The loops
//! of a split and of the last pump are always named.
//!
//! # Example
//!
//! ```
//! // `pattern` is `(a|a)*b`
//! let explained = explain(alloc, &pattern, Mode::Fullmatch, 1000)?;
//! explained.verdict; // Verdict::Expo(..): the pump is `aa`
//! explained.reading; // Reading::Twin(..): the first `a` is read at [1, 2] or at [3, 4], and `parts` is 0
//! ```
//!
//! Read `specs/Readings.antt` first, then `specs/Shown.antt` and `specs/Loops.antt`, and those of `rl_ways`. [`laws`] has what
//! follows for all trees.
#![tactic(auto)]

mod explaining;
pub mod laws;
mod loops;
mod paths;
mod reading;
mod shown;

pub use explaining::{Explained, explain};
pub use reading::{ChainReading, Reading, SplitReading, TwinReading};
pub use shown::{Side, Step, Taken, Way, span_of};
