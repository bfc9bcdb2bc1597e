//! Answers: what is found of the patterns of a question.

use rl_compare::Compared;
use rl_lists::Codes;
use rl_machine::Counted;
use rl_pattern::PatError;
use rl_reach::Bounds;
use rl_spans::Sight;
use rl_syntax::{Suggestion, Verdict};
use rl_why::Explained;
use serde_json::Value;

/// A limit that one pattern, or the comparison of two patterns, exceeds.
#[derive(Clone, Copy)]
pub enum Limit {
    /// A tree has more than [`MOST_NODES`](rl_syntax::MOST_NODES) nodes.
    Size,
    /// A pattern, or both patterns together, have more than [`MOST_LETTERS`](rl_ranges::MOST_LETTERS) letters.
    Letters,
    /// At a point of a tree a matcher tries more than [`MOST_MOVES`](rl_syntax::MOST_MOVES) things.
    Moves,
    /// A pattern has more than [`MOST_GROUPS`](rl_marks::MOST_GROUPS) groups.
    Groups,
}

/// Why a text isn't read as a pattern.
#[derive(Clone, Copy)]
pub enum Fault {
    /// It is to be a bytes pattern, and has a character above U+00FF.
    NotBytes,
    /// The reader of patterns refuses it.
    Pattern(PatError),
}

/// Which pattern of a question is meant.
#[derive(Clone, Copy)]
pub enum Which {
    /// The only one.
    Only,
    /// The first of two.
    First,
    /// The second of two.
    Second,
}

/// A text on which two patterns find different matches. Positions are counted in codes from 0.
#[derive(Drop)]
pub struct Difference {
    /// The text.
    pub text: Codes,
    /// The position from which they are asked.
    pub from: u32,
    /// Whether only matches that aren't empty count.
    pub advance: bool,
    /// What the first pattern finds, or `None`.
    pub first: Option<Sight>,
    /// What the second pattern finds, or `None`.
    pub second: Option<Sight>,
}

/// What is answered to a question.
#[derive(Drop)]
pub enum Answer {
    /// A pattern is refused.
    Refused { which: Which, fault: Fault },
    /// A limit is exceeded, so that nothing else is answered.
    Undecided(Limit),
    /// How the cost of a pattern grows, and bounds of its growth if the verdict is undecided.
    Class { verdict: Verdict, bounds: Bounds },
    /// How the cost of a pattern grows, and how the pumps of its verdict's family are read.
    Ways(Explained),
    /// The parts of a pattern, as the reply that gives them.
    Tree(Value),
    /// How the texts are related that two patterns match.
    Compared(Compared),
    /// Two patterns find the same.
    Same,
    /// Two patterns find different matches on a text.
    Differ(Difference),
    /// It isn't known whether two patterns find the same: the search reached more pairs than the limit or took too much work,
    /// or its result couldn't be confirmed.
    Exceeded,
    /// What a pattern finds on a text, or `None`.
    Found(Option<Sight>),
    /// What can be left out of a pattern.
    Suggested(Suggestion),
    /// How many steps a match takes, and whether the text is matched.
    Cost(Counted),
    /// The text has more than [`MOST_TEXT_CODES`](crate::MOST_TEXT_CODES) codes.
    TextTooLong,
    /// The version and the questions that are answered.
    Version,
}
