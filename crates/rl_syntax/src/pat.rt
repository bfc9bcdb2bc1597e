//! Patterns as they are written.

use crate::anchors::AnchorKind;
use crate::feature::Feature;
use crate::span::Span;
use rl_lists::Items;
use rl_ranges::CodeSet;

/// A pattern or a part of one. `span` is the range of positions of the whole part.
#[cycle(pat)]
#[derive(Drop)]
pub enum Pat {
    /// An empty branch.
    Nothing {
        span: Span,
    },
    /// One character of a set.
    Class {
        span: Span,
        set: CodeSet,
    },
    /// A sequence of items.
    Seq {
        span: Span,
        items: Pats,
    },
    /// A choice between branches. Earlier branches are tried first.
    Choice {
        span: Span,
        branches: Branches,
    },
    /// The body repeated `min` to `max` times, or without an upper bound if there is no `max`. A greedy repeat tries more
    /// repetitions first. `mark` is the span of the quantifier, including the `?` that makes it lazy.
    Repeat {
        span: Span,
        mark: Span,
        min: u32,
        max: Option<u32>,
        greedy: bool,
        body: Box<Pat>,
    },
    /// A group. `captures` says whether it captures.
    Group {
        span: Span,
        captures: bool,
        body: Box<Pat>,
    },
    /// An anchor. `multiline` says whether MULTILINE is in force there.
    Anchor {
        span: Span,
        kind: AnchorKind,
        multiline: bool,
    },
    /// A word boundary `\b`, or `\B` if `negated` is set. If `ascii` is set, words are ASCII words.
    Boundary {
        span: Span,
        negated: bool,
        ascii: bool,
    },
    /// A lookaround of one character of the set: a lookbehind if `behind` is set, otherwise a lookahead. If `negated` is set,
    /// there must be no such character.
    Look {
        span: Span,
        behind: bool,
        negated: bool,
        set: CodeSet,
    },
    /// A feature that isn't judged, such as a lookahead of two characters.
    Outside {
        span: Span,
        what: Feature,
    },
}

/// A branch of a choice.
#[cycle(pat)]
#[derive(Drop)]
pub struct Branch {
    /// The span of everything between the branch's delimiters.
    pub span: Span,
    /// What the branch consists of.
    pub body: Pat,
}

/// A list of patterns.
pub type Pats = Items<Pat>;

/// A list of branches.
pub type Branches = Items<Branch>;
