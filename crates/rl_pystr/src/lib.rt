//! The values of Python's string and bytes literals, and literals that have a given value.
//!
//! [`value`] takes a run of literal tokens, such as `"ab" r'c'`, and returns a [`Literal`]: the code points of the joined
//! value, the byte place in the source that each of them comes from, and whether it is text or bytes. So a fault in a pattern
//! can be shown at its place in the source. [`quote`] does the reverse: it writes a text as a literal, for reports.
//!
//! # What is proved
//!
//! Unless memory runs out, [`value`] returns exactly the value of the definition, or exactly the first refusal in its order,
//! with its place. [`quote`] is exact byte for byte. By the law [`read_back`], a quoted text of at most 4,194,304 bytes is one
//! literal token, and its value is the original text.
//!
//! # Example
//!
//! ```
//! let source = b"import re as r\nr.match(\"ab\" 'c*')\n";
//! value(alloc, source, &tokens, 9, 2)?; // the code points of `abc*`, their places [24, 25, 29, 30], end 31
//! quote(alloc, &codes, Universe::Str)?; // for the code points 97, 34 and 233: "a\"\u00e9"
//! ```
//!
//! For values, read `specs/Escapes.antt`, `specs/Values.antt` and `specs/Runs.antt` in this order; for quoting, read
//! `specs/Quoting.antt`.
#![tactic(auto)]

mod body;
mod digits;
mod escapes;
mod fault;
mod laws;
mod literal;
mod placed;
mod quoting;
mod run;

pub use fault::StrError;
pub use laws::read_back;
pub use literal::Literal;
pub use quoting::quote;
pub use run::value;
