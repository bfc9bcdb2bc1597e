//! The state of the reader: what it has read, and what it is in the middle of. The open bodies are those of the groups that
//! aren't closed yet, and the outermost one. The last atom is the one that was read last in the innermost open body, if a
//! quantifier may still follow it.

use crate::flags::Flags;
use crate::lex::{InEscape, InHead, Set};
use crate::tree::{Branch, Count, Front, Kind, SyntaxNode};
use rl_lists::Items;

/// A body that is still open. Positions count codes from 0.
#[derive(Drop)]
pub(crate) struct Frame {
    /// The flags in the body.
    pub(crate) flags: Flags,
    /// The kind of its group.
    pub(crate) kind: Kind,
    /// The position of its group's parenthesis.
    pub(crate) opened: u32,
    /// The position at which the body begins.
    pub(crate) start: u32,
    /// The position at which the last branch, which is still open, begins.
    pub(crate) from: u32,
    /// The branches before the last one.
    pub(crate) branches: Items<Branch>,
    /// The items of the last branch. In the innermost open body, the last atom isn't among them.
    pub(crate) items: Items<SyntaxNode>,
}

/// The last atom of the innermost open body, which may still take a quantifier.
#[derive(Drop)]
pub(crate) enum Last {
    /// There is no such atom.
    NothingYet,
    /// An atom and the position at which it begins.
    AnAtom(u32, SyntaxNode),
}

/// What has been read, apart from what the reader is in the middle of.
#[derive(Drop)]
pub(crate) struct Base {
    /// The innermost open body.
    pub(crate) top: Frame,
    /// Its last atom.
    pub(crate) last: Last,
    /// The other open bodies, from the outermost to the innermost.
    pub(crate) below: Vec<Frame>,
    /// The flag groups at the front.
    pub(crate) fronts: Items<Front>,
}

/// What the reader is in the middle of. The first number, if there is one, is the position at which it began.
#[derive(Drop)]
pub(crate) enum Lex {
    /// Between items.
    Between,
    /// In a comment that ends with its line.
    Line,
    /// In a comment in parentheses.
    Comment,
    /// After a brace and these digits and commas.
    InBraces(u32, Items<u32>),
    /// After this atom and its repeat count. The second position is that at which the quantifier begins.
    Counted(u32, SyntaxNode, u32, Count),
    /// Directly after a backslash.
    AtSlash(u32),
    /// In an escape, in this state.
    InEscape(u32, InEscape),
    /// In the head of a group, in this state.
    InHead(u32, InHead),
    /// Directly after the bracket of a class.
    SetOpen(u32),
    /// In a class, with its members so far and the state within it. The flag says whether it begins with `^`.
    InClass(u32, bool, Set),
}

/// The state of the reader.
#[derive(Drop)]
pub(crate) struct State {
    /// What has been read.
    pub(crate) base: Base,
    /// What the reader is in the middle of.
    pub(crate) lex: Lex,
}
