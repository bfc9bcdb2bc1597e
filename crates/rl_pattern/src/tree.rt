//! The syntax tree that codes spell. It still contains what is refused later: features, faults in quantifiers and class
//! members, and duplicate group names. Spans count codes from 0. A branch is one of the alternatives that `|` separates, and a
//! body is what a group or the whole pattern consists of.

use crate::flags::Flags;
use rl_lists::Items;
use rl_ranges::Named;
use rl_syntax::Span;

/// The minimum and maximum of a quantifier. A number greater than 4,294,967,295 is stored as that.
#[derive(Clone, Copy)]
pub(crate) struct Count {
    /// The minimum.
    pub(crate) least: u32,
    /// The maximum, or `None` if there is no bound.
    pub(crate) most: Option<u32>,
}

/// The order in which a quantifier tries its repetitions.
#[derive(Clone, Copy)]
pub(crate) enum Greed {
    /// More repetitions first.
    Greedy,
    /// Fewer repetitions first.
    Lazy,
    /// As many repetitions as possible, without backtracking.
    Possessive,
}

/// The meaning of a character, an escape or a reference, in or outside a class.
#[derive(Clone, Copy)]
pub(crate) enum Escaped {
    /// One code.
    Code(u32),
    /// A number that is too large to be a code.
    TooLarge,
    /// A character by its name: `\N{..}`.
    ByName,
    /// `\d`, `\s` or `\w`, or the complement `\D`, `\S` or `\W` if the flag is `true`.
    Kind(Named, bool),
    /// A reference to the text of a group.
    Reference,
}

/// A member of a class, with its span.
#[derive(Clone, Copy)]
pub(crate) enum Member {
    /// A character or an escape.
    One(Span, Escaped),
    /// A range of characters, from its first to its last side.
    Range(Span, Escaped, Escaped),
}

/// A leaf: a node that matches one character, or a reference to a group.
#[derive(Drop)]
pub(crate) enum Leaf {
    /// `.`.
    Any,
    /// A character, an escape or a reference to a group.
    Glyph(Escaped),
    /// A class. The flag says whether it begins with `^`.
    Members(bool, Items<Member>),
}

/// An anchor or a word boundary.
#[derive(Clone, Copy)]
pub(crate) enum Assertion {
    /// `^`.
    Caret,
    /// `\A`.
    TextStart,
    /// `$`.
    Dollar,
    /// `\Z`.
    TextEnd,
    /// `\b`, or `\B` if the flag is `true`.
    Boundary(bool),
}

/// The kind of a group. Flag letters are stored as flags.
#[derive(Drop)]
pub(crate) enum Kind {
    /// `(..)`.
    Capturing,
    /// `(?P<name>..)`, with the codes of the name.
    Named(Items<u32>),
    /// A group that doesn't capture, with the flag letters before its `-` and those after it. Each may have none.
    Scoped(Flags, Flags),
    /// A lookbehind if `behind` is set, otherwise a lookahead. If `negated` is set, its body must not match there.
    Lookaround { behind: bool, negated: bool },
    /// `(?>..)`.
    Atomic,
    /// `(?(id)..)`.
    Conditional,
}

/// A node of the syntax tree, with its span, and with the flags in force if they matter.
#[cycle(node)]
#[derive(Drop)]
pub(crate) enum SyntaxNode {
    /// A leaf.
    Leaf(Span, Flags, Leaf),
    /// An anchor or a word boundary.
    Assertion(Span, Flags, Assertion),
    /// A repeated body, with its quantifier. The second span is the quantifier's.
    Repeat(Span, Span, Count, Greed, Box<SyntaxNode>),
    /// A group.
    Group(Span, Kind, Box<SyntaxNode>),
    /// An empty body.
    Nothing(Span),
    /// A sequence of items.
    Seq(Span, Items<SyntaxNode>),
    /// A choice between branches.
    Choice(Span, Items<Branch>),
}

/// A branch of a body.
#[cycle(node)]
#[derive(Drop)]
pub(crate) struct Branch {
    /// The span of everything between the branch's delimiters, including ignored white space and comments.
    pub(crate) place: Span,
    /// What the branch consists of.
    pub(crate) body: SyntaxNode,
}

/// A flag group at the front of a pattern.
#[derive(Clone, Copy)]
pub(crate) struct Front {
    /// The span of the group.
    pub(crate) place: Span,
    /// The flags of its letters.
    pub(crate) letters: Flags,
}

/// A whole pattern: the flag groups at its front, and what follows them.
#[derive(Drop)]
pub(crate) struct Whole {
    /// The flag groups at the front.
    pub(crate) fronts: Items<Front>,
    /// The span of the body.
    pub(crate) place: Span,
    /// The body.
    pub(crate) body: SyntaxNode,
}
