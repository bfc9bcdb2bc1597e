//! Patterns with groups.

ghost use Rattle.std.specs.Prelude.{◌≡◌, IfOk};
ghost use Rattle.rl_marks.specs.Marked.{Marked, marked_of};
ghost use Rattle.rl_marks.specs.Marking.{led as led_tree};
ghost use Rattle.rl_marks.specs.IsMarked.{IsMarked, IsMarked-prop};

use crate::error::MarkError;
use crate::limits::MOST_GROUPS;
use crate::marking::{Part, mark_part};
use crate::tree::MarkTree;
use rl_lists::OutOfMemory;
use rl_syntax::{Guard, MOST_NODES, Mode, Pattern, Trail, Universe, size_after};
use std::alloc::Global;

/// A pattern with groups: its tree, its trailing anchor, and the universe of its codes.
#[derive(Drop)]
pub struct MarkedPattern {
    /// The tree. A leading anchor is part of it.
    pub tree: MarkTree,
    /// The trailing anchor, which isn't part of the tree.
    pub trailing: Trail,
    /// The universe of the codes.
    pub universe: Universe,
    /// The number of capturing groups of the pattern. The body of a repeat counts once. A group in `{0}` counts, but isn't in
    /// the tree.
    pub groups: u32,
    ghost judged: { IsMarked universe (marked_of tree) } by { IsMarked-prop universe (marked_of tree) },
}

impl MarkedPattern {
    ghost use Rattle.std.specs.Prelude.{◌≡◌, ◌<◌, ◌≤◌, IfOk, IfErr};
    ghost use Rattle.rl_syntax.specs.Pattern.{body_of, trail_of, universe_of};
    ghost use Rattle.rl_marks.specs.declared.error.MarkError.TheVariants as error;
    ghost use Rattle.rl_marks.specs.Marked.{marked_of, nodes};
    ghost use Rattle.rl_marks.specs.Marking.{groups_in, pattern_marked};

    /// Returns the pattern with its groups, which are numbered from 1 in the order of their opening parentheses.
    ///
    /// # Errors
    /// [`MarkError::TooLarge`] only if the tree has more than [`MOST_NODES`] nodes, and [`MarkError::TooManyGroups`] only if
    /// the pattern has more than [`MOST_GROUPS`](crate::MOST_GROUPS) groups. A pattern that exceeds a limit always gives an
    /// error. If it exceeds both, either error is possible. [`MarkError::OutOfMemory`] if there is not enough memory for the
    /// tree.
    pub fn of(alloc: Global, p: &Pattern) -> Result<MarkedPattern, MarkError>
        ensures tree { IfOk result (λ m. marked_of m.tree ≡ pattern_marked p.now) }
        ensures trailing { IfOk result (λ m. m.trailing ≡ trail_of p.now) }
        ensures universe { IfOk result (λ m. m.universe ≡ universe_of p.now) }
        ensures groups { IfOk result (λ m. m.groups ≡ groups_in (body_of p.now)) }
        ensures small { IfOk result (λ m. nodes (marked_of m.tree) ≤ MOST_NODES) }
        ensures few { IfOk result (λ m. m.groups ≤ MOST_GROUPS) }
        ensures too_large { IfErr result (λ e. e ≡ error.TooLarge → MOST_NODES < nodes (pattern_marked p.now)) }
        ensures too_many { IfErr result (λ e. e ≡ error.TooManyGroups → MOST_GROUPS < groups_in (body_of p.now)) }
    {
        if size_after(p, Mode::Fullmatch) > MOST_NODES {
            return Err(MarkError::TooLarge);
        }
        let Part { tree, next } = mark_part(alloc, p.body(), 1)?;
        let tree = led(alloc, p.leading(), tree)?;
        if tree.nodes() > MOST_NODES {
            return Err(MarkError::TooLarge);
        }
        Ok(MarkedPattern {
            tree,
            trailing: p.trailing(),
            universe: p.universe(),
            groups: next - 1,
        })
    }
}

/// Returns the tree after a test for the start of the text if `leading` is `true`, and otherwise the tree itself.
fn led(alloc: Global, leading: bool, tree: MarkTree) -> Result<MarkTree, OutOfMemory>
    ensures { IfOk result (λ t. marked_of t ≡ led_tree leading (marked_of tree)) }
{
    if leading {
        MarkTree::both(alloc, MarkTree::Guard(Guard::Start), tree)
    } else {
        Ok(tree)
    }
}
