//! Patterns without their groups, for questions that compare spans alone.

ghost use Rattle.std.specs.Prelude.{◌≡◌, IfOk};
ghost use Rattle.rl_marks.specs.Marked.{marked_of};
ghost use Rattle.rl_ask.specs.Ungrouped.{ungrouped};

use rl_lists::OutOfMemory;
use rl_marks::{MarkTree, MarkedPattern};
use std::alloc::Global;

/// Returns a copy of the tree in which each group is replaced by its body.
fn tree_without_groups(alloc: Global, tree: &MarkTree) -> Result<MarkTree, OutOfMemory>
    ensures { IfOk result (λ t. marked_of t ≡ ungrouped (marked_of tree.now)) }
{
    match tree {
        MarkTree::Empty => Ok(MarkTree::Empty),
        MarkTree::One(set) => Ok(MarkTree::One(set.copy()?)),
        MarkTree::Guard(guard) => Ok(MarkTree::Guard(guard.copy()?)),
        MarkTree::Both(first, second) => {
            let first = tree_without_groups(alloc, first)?;
            let second = tree_without_groups(alloc, second)?;
            MarkTree::both(alloc, first, second)
        }
        MarkTree::Either(first, second) => {
            let first = tree_without_groups(alloc, first)?;
            let second = tree_without_groups(alloc, second)?;
            MarkTree::either(alloc, first, second)
        }
        MarkTree::Further(first, second) => {
            let first = tree_without_groups(alloc, first)?;
            let second = tree_without_groups(alloc, second)?;
            MarkTree::further(alloc, first, second)
        }
        MarkTree::Many(body, greedy) => {
            let body = tree_without_groups(alloc, body)?;
            MarkTree::many(alloc, body, *greedy)
        }
        MarkTree::Mark(_, body) => tree_without_groups(alloc, body),
    }
}

/// Returns the pattern without its groups: it finds matches at the same positions, and no groups.
///
/// # Errors
/// [`OutOfMemory`] if there was no memory for the copy.
pub(crate) fn without_groups(
    alloc: Global,
    pattern: &MarkedPattern,
) -> Result<MarkedPattern, OutOfMemory>
    ensures tree { IfOk result (λ m. marked_of m.tree ≡ ungrouped (marked_of pattern.now.tree)) }
    ensures trailing { IfOk result (λ m. m.trailing ≡ pattern.now.trailing) }
    ensures universe { IfOk result (λ m. m.universe ≡ pattern.now.universe) }
    ensures groups { IfOk result (λ m. m.groups ≡ 0) }
{
    let tree = tree_without_groups(alloc, &pattern.tree)?;
    Ok(MarkedPattern {
        tree,
        trailing: pattern.trailing,
        universe: pattern.universe,
        groups: 0,
    })
}
