//! Which files are read as Python sources: a walk over a tree of files, beginning at the paths that the user gives.
//!
//! [`walk`] takes the paths one after another and goes depth first. A path that is a file is read, whatever its name. In a
//! folder, the children are taken in the order of the bytes of their names: files whose names end in `.py` are read,
//! folders are entered, and everything else is skipped. A [`Visitor`] receives each [`Visit`]: a source with its bytes, or
//! a path with the reason why there is no source. [`Visits`] is a visitor that keeps the visits in a list. A file or folder
//! that the walk has met before is skipped, and the walk goes on after a call that failed.
//!
//! # What is proved
//!
//! If the tree reveals its map and its trail, the calls of the walk and its visits are exactly those of the rules, in
//! order; each read asks for at most [`MOST_BYTES`](rl_lists::MOST_BYTES) bytes and one more. Some call failed if and only if
//! some visit is [`Visit::Unreadable`]. If no path occurs twice in the map and no name twice in a folder, then by
//! [`walks_are_determined`] the map, the paths, and which calls failed determine the calls and the visits. If the walk runs
//! out of memory, the contract doesn't specify the trail.
//!
//! # Example
//!
//! ```
//! // a folder `p` with the files `b.py`, `a.py` and `a.txt`, a pipe, and a folder `m` that contains `c.py`
//! walk(alloc, &["p"], &mut tree, &mut visits)?;
//! // three visits, each Visit::Source: `p/a.py`, `p/b.py` and `p/m/c.py`
//! ```
//!
//! Read `specs/Visits.antt` first, then `specs/Steps.antt` and `specs/Children.antt`.
#![tactic(auto)]

mod children;
mod laws;
mod met;
mod visits;
mod walking;

pub use laws::walks_are_determined;
pub use visits::{Visit, Visitor, Visits};
pub use walking::{MOST_LEVELS, limits_are, walk};
