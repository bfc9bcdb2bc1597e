//! Trees. A pattern is lowered to a tree of a few operators, in a mode: `fullmatch`, `match` or `search`. A guard is a test of
//! a position in a text; it reads no character.

ghost use Rattle.std.specs.Prelude.{◌≡◌, IfOk};
ghost use Rattle.rl_syntax.specs.Tree.{tree_of, size, capped, Tree};

use crate::anchors::Guard;
use rl_lists::OutOfMemory;
use rl_ranges::CodeSet;
use std::alloc::Global;

/// A lowered pattern: a tree of the operators of Python's `re`.
#[derive(Drop)]
pub enum Re {
    /// Matches the empty text.
    Empty,
    /// Matches one character of the set.
    One(CodeSet),
    /// Matches the empty text at each position at which the guard holds.
    Guard(Guard),
    /// The first tree, then the second.
    Both(Box<Re>, Box<Re>),
    /// Either tree. The first one is tried first.
    Either(Box<Re>, Box<Re>),
    /// The body any number of times. If the flag is `true`, one more repetition is tried before stopping.
    Many(Box<Re>, bool),
}

impl Re {
    /// Returns the tree that matches `first` and then `second`.
    ///
    /// # Errors
    /// [`OutOfMemory`] if there is no memory for a node. Both trees are dropped then.
    pub fn both(alloc: Global, first: Re, second: Re) -> Result<Re, OutOfMemory>
        ensures { IfOk result (λ tree. tree_of tree ≡ Tree.both (tree_of first) (tree_of second)) }
    {
        let (first, second) = Re::boxed(alloc, first, second)?;
        Ok(Re::Both(first, second))
    }

    /// Returns the tree of a choice that tries `first` before `second`.
    ///
    /// # Errors
    /// [`OutOfMemory`] if there is no memory for a node. Both trees are dropped then.
    pub fn either(alloc: Global, first: Re, second: Re) -> Result<Re, OutOfMemory>
        ensures { IfOk result (λ tree. tree_of tree ≡ Tree.either (tree_of first) (tree_of second)) }
    {
        let (first, second) = Re::boxed(alloc, first, second)?;
        Ok(Re::Either(first, second))
    }

    /// Puts each of the two trees in a box.
    fn boxed(alloc: Global, first: Re, second: Re) -> Result<(Box<Re>, Box<Re>), OutOfMemory>
        ensures { IfOk result (λ boxes. (boxes.0.value ≡ first) × (boxes.1.value ≡ second)) }
    {
        let Ok(first) = in_box(alloc, first) else {
            drop(second);
            return Err(OutOfMemory);
        };
        let Ok(second) = in_box(alloc, second) else {
            drop(first);
            return Err(OutOfMemory);
        };
        Ok((first, second))
    }

    /// Returns the tree of a loop: the body any number of times. If `greedy` is true, the loop tries one more repetition
    /// before stopping, otherwise it tries to stop first.
    ///
    /// # Errors
    /// [`OutOfMemory`] if there is no memory for a node. The body is dropped then.
    pub fn many(alloc: Global, body: Re, greedy: bool) -> Result<Re, OutOfMemory>
        ensures { IfOk result (λ tree. tree_of tree ≡ Tree.many (tree_of body) greedy) }
    {
        let body = in_box(alloc, body)?;
        Ok(Re::Many(body, greedy))
    }

    /// Returns the number of nodes of the tree, or 2^64 - 1 if there are more.
    pub fn nodes(&self) -> u64
        ensures { result ≡ capped (size (tree_of self.now)) }
    {
        match self {
            Re::Empty | Re::One(_) | Re::Guard(_) => 1,
            Re::Both(first, second) | Re::Either(first, second) => first
                .nodes()
                .saturating_add(second.nodes())
                .saturating_add(1),
            Re::Many(body, _) => body.nodes().saturating_add(1),
        }
    }
}

/// Puts the tree in a box.
fn in_box(alloc: Global, tree: Re) -> Result<Box<Re>, OutOfMemory>
    ensures { IfOk result (λ b. b.value ≡ tree) }
{
    Ok(Box::new(alloc, tree)?)
}

/// How a pattern is matched against a text.
#[derive(Clone, Copy, Debug, PartialEq, Eq)]
pub enum Mode {
    /// The whole text must match.
    Fullmatch,
    /// The match must begin at the start of the text.
    Match,
    /// The match may begin anywhere in the text.
    Search,
}

/// Where a match may end.
#[derive(Clone, Copy)]
pub enum Ending {
    /// Only at the end of the text.
    AtEnd,
    /// Anywhere.
    Anywhere,
}

/// A pattern lowered in a mode.
#[derive(Drop)]
pub struct Lowered {
    /// The tree.
    pub tree: Re,
    /// Where a match may end.
    pub ending: Ending,
}

/// Why a pattern isn't lowered.
#[derive(Clone, Copy, Debug)]
pub enum LowerError {
    /// The tree would have more than 4,000 nodes.
    TooLarge,
    /// There was not enough memory.
    OutOfMemory,
}

impl From<OutOfMemory> for LowerError {
    ghost use Rattle.rl_syntax.specs.declared.re.LowerError.TheVariants as error;

    ghost from_gives = { λ _ e. e ≡ error.OutOfMemory };

    fn from(_: OutOfMemory) -> Self {
        LowerError::OutOfMemory
    }
}
