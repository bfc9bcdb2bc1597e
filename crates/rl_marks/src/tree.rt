//! Trees with groups.

ghost use Rattle.std.specs.Prelude.{◌≡◌, ℕ, IfOk};
ghost use Rattle.rl_syntax.specs.Tree.{capped};
ghost use Rattle.rl_marks.specs.Marked.{Marked, marked_of, nodes};

use rl_lists::OutOfMemory;
use rl_syntax::{CodeSet, Guard};
use std::alloc::Global;

/// A tree of the operators of Python's `re`, with capturing groups.
#[derive(Drop)]
pub enum MarkTree {
    /// Matches the empty text.
    Empty,
    /// Matches one code of the set.
    One(CodeSet),
    /// Tests the position.
    Guard(Guard),
    /// The first tree, then the second.
    Both(Box<MarkTree>, Box<MarkTree>),
    /// Either tree. The first one is tried first.
    Either(Box<MarkTree>, Box<MarkTree>),
    /// The tree any number of times. If the flag is `true` (greedy), one more round is tried before stopping.
    Many(Box<MarkTree>, bool),
    /// The first tree and then, if it took a code, the second. It joins a round of a counted repeat and the rounds after it.
    Further(Box<MarkTree>, Box<MarkTree>),
    /// The body of the capturing group with this number.
    Mark(u32, Box<MarkTree>),
}

impl MarkTree {
    /// Returns the tree that matches `first` and then `second`.
    ///
    /// # Errors
    /// [`OutOfMemory`] if there is not enough memory for the nodes. Both trees are dropped then.
    pub fn both(alloc: Global, first: MarkTree, second: MarkTree) -> Result<MarkTree, OutOfMemory>
        ensures { IfOk result (λ tree. marked_of tree ≡ Marked.both (marked_of first) (marked_of second)) }
    {
        let (first, second) = MarkTree::boxed(alloc, first, second)?;
        Ok(MarkTree::Both(first, second))
    }

    /// Returns the tree that matches either tree and tries `first` first.
    ///
    /// # Errors
    /// [`OutOfMemory`] if there is not enough memory for the nodes. Both trees are dropped then.
    pub fn either(alloc: Global, first: MarkTree, second: MarkTree) -> Result<MarkTree, OutOfMemory>
        ensures { IfOk result (λ tree. marked_of tree ≡ Marked.either (marked_of first) (marked_of second)) }
    {
        let (first, second) = MarkTree::boxed(alloc, first, second)?;
        Ok(MarkTree::Either(first, second))
    }

    /// Returns the tree that matches `first` and then, if that took a code, `second`.
    ///
    /// # Errors
    /// [`OutOfMemory`] if there is not enough memory for the nodes. Both trees are dropped then.
    pub fn further(
        alloc: Global,
        first: MarkTree,
        second: MarkTree,
    ) -> Result<MarkTree, OutOfMemory>
        ensures { IfOk result (λ tree. marked_of tree ≡ Marked.further (marked_of first) (marked_of second)) }
    {
        let (first, second) = MarkTree::boxed(alloc, first, second)?;
        Ok(MarkTree::Further(first, second))
    }

    /// Returns both trees, each in a box. If there is not enough memory, both are dropped.
    fn boxed(
        alloc: Global,
        first: MarkTree,
        second: MarkTree,
    ) -> Result<(Box<MarkTree>, Box<MarkTree>), OutOfMemory>
        ensures { IfOk result (λ boxes. (boxes.0.value ≡ first) × (boxes.1.value ≡ second)) }
    {
        let Ok(first) = in_box(alloc, first) else {
            drop(second);
            return Err(OutOfMemory);
        };
        let Ok(second) = in_box(alloc, second) else {
            drop(first);
            return Err(OutOfMemory);
        };
        Ok((first, second))
    }

    /// Returns the tree that matches `body` any number of times. If `greedy` is `true`, it tries one more round before
    /// stopping.
    ///
    /// # Errors
    /// [`OutOfMemory`] if there is not enough memory for the node. The body is dropped then.
    pub fn many(alloc: Global, body: MarkTree, greedy: bool) -> Result<MarkTree, OutOfMemory>
        ensures { IfOk result (λ tree. marked_of tree ≡ Marked.many (marked_of body) greedy) }
    {
        let body = in_box(alloc, body)?;
        Ok(MarkTree::Many(body, greedy))
    }

    /// Returns the tree with `body` as the body of the capturing group with this number.
    ///
    /// # Errors
    /// [`OutOfMemory`] if there is not enough memory for the node. The body is dropped then.
    pub fn mark(alloc: Global, number: u32, body: MarkTree) -> Result<MarkTree, OutOfMemory>
        ensures { IfOk result (λ tree. marked_of tree ≡ Marked.mark number (marked_of body)) }
    {
        let body = in_box(alloc, body)?;
        Ok(MarkTree::Mark(number, body))
    }

    /// Returns the number of nodes, or 2^64 - 1 if there are more.
    pub fn nodes(&self) -> u64
        ensures { result ≡ capped (nodes (marked_of self.now)) }
    {
        match self {
            MarkTree::Empty | MarkTree::One(_) | MarkTree::Guard(_) => 1,
            MarkTree::Both(first, second)
            | MarkTree::Either(first, second)
            | MarkTree::Further(first, second) => first
                .nodes()
                .saturating_add(second.nodes())
                .saturating_add(1),
            MarkTree::Many(body, _) | MarkTree::Mark(_, body) => body.nodes().saturating_add(1),
        }
    }

    /// Returns a copy of the tree.
    ///
    /// # Errors
    /// [`OutOfMemory`] if there is not enough memory for the copy.
    pub fn copy(&self, alloc: Global) -> Result<MarkTree, OutOfMemory>
        ensures { IfOk result (λ tree. marked_of tree ≡ marked_of self.now) }
    {
        match self {
            MarkTree::Empty => Ok(MarkTree::Empty),
            MarkTree::One(set) => Ok(MarkTree::One(set.copy()?)),
            MarkTree::Guard(guard) => Ok(MarkTree::Guard(guard.copy()?)),
            MarkTree::Both(first, second) => {
                let first = first.copy(alloc)?;
                let second = second.copy(alloc)?;
                MarkTree::both(alloc, first, second)
            }
            MarkTree::Either(first, second) => {
                let first = first.copy(alloc)?;
                let second = second.copy(alloc)?;
                MarkTree::either(alloc, first, second)
            }
            MarkTree::Further(first, second) => {
                let first = first.copy(alloc)?;
                let second = second.copy(alloc)?;
                MarkTree::further(alloc, first, second)
            }
            MarkTree::Many(body, greedy) => MarkTree::many(alloc, body.copy(alloc)?, *greedy),
            MarkTree::Mark(number, body) => MarkTree::mark(alloc, *number, body.copy(alloc)?),
        }
    }
}

/// Returns the tree in a box. If there is not enough memory, the tree is dropped.
fn in_box(alloc: Global, tree: MarkTree) -> Result<Box<MarkTree>, OutOfMemory>
    ensures { IfOk result (λ b. b.value ≡ tree) }
{
    Ok(Box::new(alloc, tree)?)
}
