//! Certificates: data that shows that a verdict is right, so that the verdict can be checked without the search that found
//! it.
//!
//! [`make`] finds the verdict on a lowered pattern and returns a [`Certificate`]: the family; the states on its path through
//! the graph of live pairs; and, for a degree of 1 or more, ranks, and doubles and triples with numbers that exclude any
//! faster growth. [`write`] writes it as one line of JSON, and [`read`] reads such a line. [`check`] builds the graph of live
//! pairs again and checks the certificate against it, move by move, without searching for a twin, a chain or a family.
//!
//! # What is proved
//!
//! [`check`] returns true if and only if the certificate holds, and then its verdict is right, including the upper bound. A
//! certificate that [`make`] returns holds. If it returns none, it names a limit that is exceeded, or too many triples are
//! needed. [`read`] accepts exactly the bytes that have the form of a certificate. By the law [`laws::one_graph_decides`], it
//! doesn't matter from which automaton the graph was built.
//!
//! # Example
//!
//! ```
//! // the tree is the one of `(a|a)*`, over text, matched to the end of the text
//! let certificate = make(alloc, &lowered, Universe::Str, 600)?;
//! check(alloc, &lowered, Universe::Str, 600, &certificate)?; // true
//! write(alloc, &certificate)?;
//! // {"anchors":[[6,6]],"doubles":[],"heads":[[97,97],[32]],"kind":"exponential",
//! // "pumps":[[97,97]],"ranks":[],"triples":[],"version":1}, in one line
//! ```
//!
//! Read `specs/Holds.antt` first, then `specs/Ways.antt` and `specs/Form.antt`, and `specs/Doubled.antt` and
//! `specs/Numbered.antt` of `rl_numbers`.
#![tactic(auto)]

mod accepting;
mod certificate;
mod checking;
pub mod laws;
mod lettering;
mod leveling;
pub mod limits;
mod making;
mod reading;
mod walking;
mod writing;

pub use certificate::{Anchor, Anchors, Certificate};
pub use checking::check;
pub use limits::MOST_CERTIFICATE_BYTES;
pub use making::{CertError, make};
pub use reading::{ReadError, read};
pub use rl_numbers::double::{Double, Doubles};
pub use rl_numbers::triple::{Triple, Triples};
pub use writing::write;
