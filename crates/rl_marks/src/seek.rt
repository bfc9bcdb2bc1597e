//! A search as a match of a tree that takes codes first.

ghost use Rattle.std.specs.Prelude.{◌≡◌, false, IfOk};
ghost use Rattle.rl_syntax.specs.Modes.{is_code};
ghost use Rattle.rl_marks.specs.Marked.{Marked, marked_of};

use crate::tree::MarkTree;
use rl_lists::OutOfMemory;
use rl_syntax::{CodeSet, Universe};
use std::alloc::Global;

/// Returns the tree that first takes codes of the universe, as few as possible, as the group 0, and then matches `tree`. Its
/// match from the start of a text of the universe has the same end and the same values of the groups of `tree` as a search
/// with `tree` from there. The search's match begins where group 0 ends.
///
/// # Errors
/// [`OutOfMemory`] if there is not enough memory for the new nodes. The tree is dropped then.
pub fn seeking(alloc: Global, universe: Universe, tree: MarkTree) -> Result<MarkTree, OutOfMemory>
    ensures { IfOk result (λ t. marked_of t
        ≡ Marked.both (Marked.mark 0 (Marked.many (Marked.one (is_code universe)) false)) (marked_of tree)) }
{
    let any = any_code(alloc, universe)?;
    let any = MarkTree::many(alloc, any, false)?;
    let front = MarkTree::mark(alloc, 0, any)?;
    MarkTree::both(alloc, front, tree)
}

/// Returns the tree that matches one code of the universe.
fn any_code(alloc: Global, universe: Universe) -> Result<MarkTree, OutOfMemory>
    ensures { IfOk result (λ t. marked_of t ≡ Marked.one (is_code universe)) }
{
    let set = CodeSet::range(alloc, 0, universe.count() - 1)?;
    Ok(MarkTree::One(set))
}
