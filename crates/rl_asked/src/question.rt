//! Questions.

use rl_marks::How;
use rl_pattern::Flags;
use rl_syntax::{Mode, Universe};
use serde_json::Value;

/// How the patterns of a question are read.
#[derive(Clone, Copy)]
pub struct Terms {
    /// The flags of the call.
    pub flags: Flags,
    /// The universe of their codes: that of bytes patterns or of text patterns.
    pub universe: Universe,
}

/// A question about one pattern or two. Texts are as the value of JSON has them.
#[derive(Clone, Copy)]
pub enum Question<'v> {
    /// How does the cost of matching the pattern grow with the length of the text? At most `pairs` live pairs are examined.
    Class {
        pattern: &'v str,
        terms: Terms,
        mode: Mode,
        pairs: u32,
    },
    /// The same, and by which ways through the pattern does it grow?
    Ways {
        pattern: &'v str,
        terms: Terms,
        mode: Mode,
        pairs: u32,
    },
    /// What are the parts of the pattern?
    Tree {
        pattern: &'v str,
        terms: Terms,
    },
    /// How are the texts related that the patterns match? At most `limit` set pairs are looked at.
    Compare {
        first: &'v str,
        second: &'v str,
        terms: Terms,
        mode: Mode,
        limit: u32,
    },
    /// Do both patterns find the same spans and, if `groups` is true, the same groups? At most `limit` pairs of thread lists
    /// are reached.
    Spans {
        first: &'v str,
        second: &'v str,
        terms: Terms,
        how: How,
        limit: u32,
        groups: bool,
    },
    /// What does the pattern find on the text, from the position `from` on? If `advance` is true, a match at this position
    /// counts only if it isn't empty.
    Found {
        pattern: &'v str,
        terms: Terms,
        mode: Mode,
        text: &'v str,
        from: usize,
        advance: bool,
    },
    /// What can be left out of the pattern? A test of a branch looks at no more than `pairs` set pairs.
    Suggest {
        pattern: &'v str,
        terms: Terms,
        pairs: u32,
    },
    /// How many steps does a match of the text take?
    Cost {
        pattern: &'v str,
        terms: Terms,
        mode: Mode,
        text: &'v str,
    },
    /// How many steps does a match of the string of a family take, in which each pump is repeated `k` times? The heads and
    /// pumps are strings.
    CostOfFamily {
        pattern: &'v str,
        terms: Terms,
        mode: Mode,
        heads: &'v [Value],
        pumps: &'v [Value],
        k: u32,
    },
    /// Which version answers, and which questions does it answer?
    Version,
}
