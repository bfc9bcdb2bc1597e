//! Verdicts on patterns, and suggestions. The cost of a pattern on a text is the number of steps that a backtracking matcher
//! takes. A family of attack strings has a string for each number `k`, on which the cost grows with `k`.

use crate::span::Spans;
use rl_lists::{Codes, Items};

/// A list of texts.
pub type Texts = Items<Codes>;

/// A family of attack strings. Heads and pumps alternate, beginning and ending with a head. The string for a number `k`
/// repeats each pump `k` times.
#[derive(Drop)]
pub struct Family {
    /// The parts before, between and after the pumps. There is one more of them than there are pumps.
    pub heads: Texts,
    /// The parts that are repeated.
    pub pumps: Texts,
}

/// A limit on what is judged. Each variant names the number that is limited.
#[derive(Clone, Copy, Debug, PartialEq, Eq)]
pub enum Limit {
    /// The number of nodes of the tree.
    Size,
    /// The number of letters: classes of characters that no set of the tree or of its guards distinguishes.
    Letters,
    /// The number of moves from one state on one letter.
    Moves,
    /// The number of counted sets, as explained at [`MOST_COUNTED_SETS`](crate::limits::MOST_COUNTED_SETS).
    Sets,
    /// The number of live pairs, as explained at [`MOST_PAIRS`](crate::limits::MOST_PAIRS). The caller sets the limit.
    Pairs,
}

/// How the worst cost of a pattern grows with the length of the text.
#[derive(Drop)]
pub enum Verdict {
    /// Like the length to the power of this number, the degree. On the strings of the family, the cost grows like this.
    Degree(u32, Family),
    /// Exponentially. The cost on the family's string for `k` is at least 2^k.
    Expo(Family),
    /// Unknown, because this limit was exceeded.
    Undecided(Limit),
}

/// What a search for a simpler pattern with the same language found.
#[derive(Drop)]
pub struct Suggestion {
    /// The simpler pattern, as a list of codes, or `None` if nothing was dropped or merged.
    pub text: Option<Codes>,
    /// The spans of the branches that were dropped.
    pub dropped: Spans,
    /// The spans of the quantifiers that were removed.
    pub merged: Spans,
    /// The spans of the branches that are kept because a limit was exceeded before it was known whether they can be dropped.
    pub passed: Spans,
}
