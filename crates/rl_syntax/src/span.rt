//! Positions in a pattern.

use rl_lists::Items;

/// A range of positions in a pattern, in code points counted from 0.
#[derive(Clone, Copy, PartialEq, Eq)]
pub struct Span {
    /// The position of the first code point.
    pub from: u32,
    /// The position after the last code point.
    pub upto: u32,
}

/// A list of spans.
pub type Spans = Items<Span>;
