//! Building the tree with groups of a pattern, in which each capturing group is marked with its number, from 1 on.

ghost use Rattle.std.specs.Prelude.{◌≡◌, ◌≢◌, ◌+◌, ◌<◌, ◌≤◌, ◌∷◌, [], map, IfOk, IfErr};
ghost use Rattle.rl_syntax.specs.PatTree.{pat_of, items_of, branches_of};
ghost use Rattle.rl_syntax.specs.declared.anchors.Guard.TheVariants.{Look};
ghost use Rattle.rl_syntax.specs.Lowering.{guard_of};
ghost use Rattle.rl_syntax.specs.Lowering.{boundary_guard as guard_of_boundary};
ghost use Rattle.rl_syntax.specs.Counting.{branch_tree};
ghost use Rattle.rl_marks.specs.declared.error.MarkError.TheVariants as error;
ghost use Rattle.rl_marks.specs.Marked.{Marked, marked_of};
ghost use Rattle.rl_marks.specs.Marking.{in_turn, in_rounds, one_of, option_of, options, tail_of, times, groups_in, groups_in_items, groups_in_branches, marked, items_marked, branches_marked};
ghost use Rattle.rl_marks.specs.internal.Parts.{marked_of_option};

use crate::error::MarkError;
use crate::limits::MOST_GROUPS;
use crate::tree::MarkTree;
use rl_lists::{Items, OutOfMemory};
use rl_syntax::{AnchorKind, Branch, CodeSet, Guard, Pat};
use std::alloc::Global;

/// The tree with groups of a part of a pattern.
#[derive(Drop)]
pub(crate) struct Part {
    /// The tree.
    pub(crate) tree: MarkTree,
    /// The number that the next group gets.
    pub(crate) next: u32,
}

/// The trees with groups of several parts.
#[derive(Drop)]
struct Parts {
    /// The trees, in the order of the parts.
    trees: Items<MarkTree>,
    /// The number that the next group gets.
    next: u32,
}

/// Returns the tree of a part of a pattern, whose first group gets this number, and the number that the group after it gets.
#[cycle(marking)]
pub(crate) fn mark_part(alloc: Global, part: &Pat, number: u32) -> Result<Part, MarkError>
    ensures tree { IfOk result (λ r. marked_of r.tree ≡ marked (pat_of part.now) number) }
    ensures next { IfOk result (λ r. r.next ≡ number + groups_in (pat_of part.now)) }
    ensures few { IfOk result (λ r. number ≤ MOST_GROUPS + 1 → r.next ≤ MOST_GROUPS + 1) }
    ensures small { IfErr result (λ e. e ≢ error.TooLarge) }
    ensures many { IfErr result (λ e. e ≡ error.TooManyGroups → MOST_GROUPS + 1 < number + groups_in (pat_of part.now)) }
{
    match part {
        Pat::Nothing { .. } | Pat::Outside { .. } => Ok(Part {
            tree: MarkTree::Empty,
            next: number,
        }),
        Pat::Class { set, .. } => {
            let set = set.copy()?;
            Ok(Part {
                tree: MarkTree::One(set),
                next: number,
            })
        }
        Pat::Seq { items, .. } => {
            let Parts { trees, next } = mark_items(alloc, items.as_slice(), number)?;
            let tree = joined(alloc, trees)?;
            Ok(Part { tree, next })
        }
        Pat::Choice { branches, .. } => {
            let Parts { trees, next } = mark_branches(alloc, branches.as_slice(), number)?;
            let tree = preferred(alloc, trees)?;
            Ok(Part { tree, next })
        }
        Pat::Repeat {
            min,
            max,
            greedy,
            body,
            ..
        } => {
            let Part { tree, next } = mark_part(alloc, body, number)?;
            let tree = repeated(alloc, &tree, *min, *max, *greedy)?;
            Ok(Part { tree, next })
        }
        Pat::Group { captures, body, .. } => {
            if *captures {
                mark_group(alloc, body, number)
            } else {
                mark_part(alloc, body, number)
            }
        }
        Pat::Anchor {
            kind,
            multiline,
            ..
        } => Ok(Part {
            tree: MarkTree::Guard(anchor_guard(*kind, *multiline)),
            next: number,
        }),
        Pat::Boundary { negated, ascii, .. } => Ok(Part {
            tree: MarkTree::Guard(boundary_guard(*negated, *ascii)),
            next: number,
        }),
        Pat::Look {
            behind,
            negated,
            set,
            ..
        } => {
            let guard = look_guard(*behind, *negated, set)?;
            Ok(Part {
                tree: MarkTree::Guard(guard),
                next: number,
            })
        }
    }
}

/// Returns the tree of a capturing group with this number. Fails if the number exceeds the limit.
#[cycle(marking)]
fn mark_group(alloc: Global, body: &Pat, number: u32) -> Result<Part, MarkError>
    ensures tree { IfOk result (λ r. marked_of r.tree ≡ Marked.mark number (marked (pat_of body.now) (number + 1))) }
    ensures next { IfOk result (λ r. r.next ≡ number + 1 + groups_in (pat_of body.now)) }
    ensures few { IfOk result (λ r. r.next ≤ MOST_GROUPS + 1) }
    ensures small { IfErr result (λ e. e ≢ error.TooLarge) }
    ensures many { IfErr result (λ e. e ≡ error.TooManyGroups → MOST_GROUPS + 1 < number + 1 + groups_in (pat_of body.now)) }
{
    if number > MOST_GROUPS {
        return Err(MarkError::TooManyGroups);
    }
    let inner = mark_part(alloc, body, number + 1)?;
    let tree = MarkTree::mark(alloc, number, inner.tree)?;
    Ok(Part {
        tree,
        next: inner.next,
    })
}

/// Returns the trees of the items of a sequence, whose first group gets this number.
#[cycle(marking)]
fn mark_items(alloc: Global, items: &[Pat], number: u32) -> Result<Parts, MarkError>
    ensures trees { IfOk result (λ r. map marked_of r.trees ≡ items_marked (items_of (map pat_of items.now)) number) }
    ensures next { IfOk result (λ r. r.next ≡ number + groups_in_items (items_of (map pat_of items.now))) }
    ensures few { IfOk result (λ r. number ≤ MOST_GROUPS + 1 → r.next ≤ MOST_GROUPS + 1) }
    ensures small { IfErr result (λ e. e ≢ error.TooLarge) }
    ensures many { IfErr result (λ e. e ≡ error.TooManyGroups → MOST_GROUPS + 1 < number + groups_in_items (items_of (map pat_of items.now))) }
{
    let mut trees = Items::new(alloc);
    let mut next = number;
    for item in items {
        let part = mark_part(alloc, item, next)?;
        trees.push(part.tree)?;
        next = part.next;
    }
    Ok(Parts { trees, next })
}

/// Returns the trees of the branches of a choice, whose first group gets this number.
#[cycle(marking)]
fn mark_branches(alloc: Global, branches: &[Branch], number: u32) -> Result<Parts, MarkError>
    ensures trees { IfOk result (λ r. map marked_of r.trees ≡ branches_marked (branches_of (map branch_tree branches.now)) number) }
    ensures next { IfOk result (λ r. r.next ≡ number + groups_in_branches (branches_of (map branch_tree branches.now))) }
    ensures few { IfOk result (λ r. number ≤ MOST_GROUPS + 1 → r.next ≤ MOST_GROUPS + 1) }
    ensures small { IfErr result (λ e. e ≢ error.TooLarge) }
    ensures many { IfErr result (λ e. e ≡ error.TooManyGroups → MOST_GROUPS + 1 < number + groups_in_branches (branches_of (map branch_tree branches.now))) }
{
    let mut trees = Items::new(alloc);
    let mut next = number;
    for branch in branches {
        let part = mark_part(alloc, &branch.body, next)?;
        trees.push(part.tree)?;
        next = part.next;
    }
    Ok(Parts { trees, next })
}

/// Returns the trees one after another. An empty list gives the empty tree.
fn joined(alloc: Global, trees: Items<MarkTree>) -> Result<MarkTree, OutOfMemory>
    ensures { IfOk result (λ t. marked_of t ≡ in_turn (map marked_of trees)) }
{
    let mut left = trees.into_vec();
    let Some(mut whole) = left.pop() else {
        return Ok(MarkTree::Empty);
    };
    while let Some(first) = left.pop() {
        whole = MarkTree::both(alloc, first, whole)?;
    }
    Ok(whole)
}

/// Returns a choice between the trees, in which earlier ones are tried first. An empty list gives the empty tree.
fn preferred(alloc: Global, trees: Items<MarkTree>) -> Result<MarkTree, OutOfMemory>
    ensures { IfOk result (λ t. marked_of t ≡ one_of (map marked_of trees)) }
{
    let mut left = trees.into_vec();
    let Some(mut whole) = left.pop() else {
        return Ok(MarkTree::Empty);
    };
    while let Some(first) = left.pop() {
        whole = MarkTree::either(alloc, first, whole)?;
    }
    Ok(whole)
}

/// Returns the tree repeated `min` to `max` times. If `max` is `None`, there is no bound.
fn repeated(
    alloc: Global,
    body: &MarkTree,
    min: u32,
    max: Option<u32>,
    greedy: bool,
) -> Result<MarkTree, OutOfMemory>
    ensures { IfOk result (λ t. marked_of t ≡ times min max greedy (marked_of body.now)) }
{
    let mut copies = Items::new(alloc);
    for _ in 0..min {
        let copy = body.copy(alloc)?;
        copies.push(copy)?;
    }
    if let Some(tail) = tail(alloc, body, min, max, greedy)? {
        copies.push(tail)?;
    }
    joined(alloc, copies)
}

/// Returns what follows the required copies of a repeat: a loop if there is no maximum, otherwise the optional rounds. It is
/// `None` if there are no optional rounds.
fn tail(
    alloc: Global,
    body: &MarkTree,
    min: u32,
    max: Option<u32>,
    greedy: bool,
) -> Result<Option<MarkTree>, OutOfMemory>
    ensures { IfOk result (λ o. marked_of_option o ≡ tail_of greedy (marked_of body.now) min max) }
{
    match max {
        None => {
            let copy = body.copy(alloc)?;
            let many = MarkTree::many(alloc, copy, greedy)?;
            Ok(Some(many))
        }
        Some(max) => rounds(alloc, body, max.saturating_sub(min), greedy),
    }
}

/// Returns up to `count` optional rounds, each of which contains those after it, or `None` if `count` is 0.
fn rounds(
    alloc: Global,
    body: &MarkTree,
    count: u32,
    greedy: bool,
) -> Result<Option<MarkTree>, OutOfMemory>
    ensures { IfOk result (λ o. marked_of_option o ≡ options greedy (marked_of body.now) count) }
{
    let mut rest = None;
    for _ in 0..count {
        let round = body.copy(alloc)?;
        let all = with_rounds(alloc, round, rest)?;
        let option = optional(alloc, all, greedy)?;
        rest = Some(option);
    }
    Ok(rest)
}

/// Returns a round and those after it, which are tried only if the round took a code.
fn with_rounds(
    alloc: Global,
    round: MarkTree,
    rest: Option<MarkTree>,
) -> Result<MarkTree, OutOfMemory>
    ensures { IfOk result (λ t. marked_of t ≡ in_rounds (marked_of round) (marked_of_option rest)) }
{
    match rest {
        None => Ok(round),
        Some(rest) => MarkTree::further(alloc, round, rest),
    }
}

/// Returns the optional tree. If `greedy` is `true`, the tree is tried before nothing, otherwise after it.
fn optional(alloc: Global, tree: MarkTree, greedy: bool) -> Result<MarkTree, OutOfMemory>
    ensures { IfOk result (λ t. marked_of t ≡ option_of greedy (marked_of tree)) }
{
    if greedy {
        MarkTree::either(alloc, tree, MarkTree::Empty)
    } else {
        MarkTree::either(alloc, MarkTree::Empty, tree)
    }
}

/// Returns the guard of an anchor in a body. A `$` without MULTILINE doesn't occur there.
fn anchor_guard(kind: AnchorKind, multiline: bool) -> Guard
    ensures { result ≡ guard_of kind multiline }
{
    match kind {
        AnchorKind::Caret if multiline => Guard::LineStart,
        AnchorKind::Caret | AnchorKind::TextStart => Guard::Start,
        AnchorKind::Dollar => Guard::LineEnd,
        AnchorKind::TextEnd => Guard::TextEnd,
    }
}

/// Returns the guard of a word boundary. `negated` says whether it is `\B`, and `ascii` whether words are ASCII words.
fn boundary_guard(negated: bool, ascii: bool) -> Guard
    ensures { result ≡ guard_of_boundary negated ascii }
{
    if negated {
        Guard::NotWord(ascii)
    } else {
        Guard::Word(ascii)
    }
}

/// Returns the guard of a lookaround of one character of the set. The flags say whether it looks behind, and whether it is
/// negated.
fn look_guard(behind: bool, negated: bool, set: &CodeSet) -> Result<Guard, OutOfMemory>
    ensures { IfOk result (λ g. g ≡ Look behind negated set.now) }
{
    Ok(Guard::Look {
        behind,
        negated,
        set: set.copy()?,
    })
}
