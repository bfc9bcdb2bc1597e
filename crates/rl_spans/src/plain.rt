//! Trees without their groups.

ghost use Rattle.std.specs.Prelude.{◌≡◌, IfOk};
ghost use Rattle.rl_syntax.specs.Tree.{tree_of};
ghost use Rattle.rl_marks.specs.Marked.{marked_of, plain};

use rl_lists::OutOfMemory;
use rl_marks::MarkTree;
use rl_syntax::Re;
use std::alloc::Global;

/// Returns the tree without its groups. `Further`, which joins the rounds of a counted repeat, becomes `Both`.
///
/// # Errors
/// [`OutOfMemory`] if there was no memory for it.
pub(crate) fn plain_of(alloc: Global, tree: &MarkTree) -> Result<Re, OutOfMemory>
    ensures { IfOk result (λ re. tree_of re ≡ plain (marked_of tree.now)) }
{
    match tree {
        MarkTree::Empty => Ok(Re::Empty),
        MarkTree::One(set) => Ok(Re::One(set.copy()?)),
        MarkTree::Guard(guard) => Ok(Re::Guard(guard.copy()?)),
        MarkTree::Both(first, second) | MarkTree::Further(first, second) => {
            let first = plain_of(alloc, first)?;
            let second = plain_of(alloc, second)?;
            Re::both(alloc, first, second)
        }
        MarkTree::Either(first, second) => {
            let first = plain_of(alloc, first)?;
            let second = plain_of(alloc, second)?;
            Re::either(alloc, first, second)
        }
        MarkTree::Many(body, greedy) => {
            let body = plain_of(alloc, body)?;
            Re::many(alloc, body, *greedy)
        }
        MarkTree::Mark(_, body) => plain_of(alloc, body),
    }
}
