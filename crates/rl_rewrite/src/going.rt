//! The branches of a pattern, and whether the rules allow some of them to be dropped. A branch is identified by its span. The
//! rules allow branches to be dropped if none of them contains a capturing group and each remaining choice keeps at least one
//! branch.

ghost use Rattle.std.specs.Prelude.{◌≡◌, ◌∷◌, [], ◌++◌, map, IfOk, OnOk};
ghost use Rattle.rl_syntax.specs.PatTree.{pat_of, items_of, branches_of};
ghost use Rattle.rl_syntax.specs.Counting.{branch_tree};
ghost use Rattle.rl_pattern.specs.Suggested.{among as lies_among};
ghost use Rattle.rl_pattern.specs.Suggested.{branches_in, items_branches, choice_branches};
ghost use Rattle.rl_pattern.specs.Suggested.{some_kept as is_kept, may_go as goes, items_may_go as items_go, branches_may_go as branches_go};

use crate::parts::{among, holds_capture};
use rl_lists::OutOfMemory;
use rl_syntax::{Branch, Pat, Span, Spans};
use std::alloc::Global;

/// Appends to `found` the spans of all branches in a part, in the order in which they begin, so that a branch is before the
/// branches inside it.
#[cycle(branches)]
fn put_branches(part: &Pat, found: &mut Spans) -> Result<(), OutOfMemory>
    ensures { OnOk result (found.new ≡ found.old ++ branches_in (pat_of part.now)) }
{
    match part {
        Pat::Nothing { .. }
        | Pat::Class { .. }
        | Pat::Anchor { .. }
        | Pat::Boundary { .. }
        | Pat::Look { .. }
        | Pat::Outside { .. } => Ok(()),
        Pat::Seq { items, .. } => put_items_branches(items.as_slice(), found),
        Pat::Choice { branches, .. } => put_choice_branches(branches.as_slice(), found),
        Pat::Repeat { body, .. } | Pat::Group { body, .. } => put_branches(body, found),
    }
}

/// Appends to `found` the spans of all branches in the items, item by item.
#[cycle(branches)]
fn put_items_branches(items: &[Pat], found: &mut Spans) -> Result<(), OutOfMemory>
    ensures { OnOk result (found.new ≡ found.old ++ items_branches (items_of (map pat_of items.now))) }
{
    for item in items {
        put_branches(item, found)?;
    }
    Ok(())
}

/// Appends to `found` the spans of the branches of a choice, each followed by the spans of the branches inside it.
#[cycle(branches)]
fn put_choice_branches(branches: &[Branch], found: &mut Spans) -> Result<(), OutOfMemory>
    ensures { OnOk result (found.new ≡ found.old ++ choice_branches (branches_of (map branch_tree branches.now))) }
{
    for branch in branches {
        found.push(branch.span)?;
        put_branches(&branch.body, found)?;
    }
    Ok(())
}

/// Returns the spans of all branches in a part, in the order in which they begin, so that a branch is before the branches
/// inside it.
pub(crate) fn all_branches(alloc: Global, part: &Pat) -> Result<Spans, OutOfMemory>
    ensures { IfOk result (λ all. all ≡ branches_in (pat_of part.now)) }
{
    let mut all = Spans::new(alloc);
    put_branches(part, &mut all)?;
    Ok(all)
}

/// Returns whether the rules allow the branches whose spans are in `dropped` to be dropped from a part.
#[cycle(going)]
pub(crate) fn may_go(part: &Pat, dropped: &[Span]) -> bool
    ensures { result ≡ goes (lies_among dropped.now) (pat_of part.now) }
{
    match part {
        Pat::Nothing { .. }
        | Pat::Class { .. }
        | Pat::Anchor { .. }
        | Pat::Boundary { .. }
        | Pat::Look { .. }
        | Pat::Outside { .. } => true,
        Pat::Seq { items, .. } => items_may_go(items.as_slice(), dropped),
        Pat::Choice { branches, .. } => {
            let kept = some_kept(branches.as_slice(), dropped);
            branches_may_go(branches.as_slice(), dropped) && kept
        }
        Pat::Repeat { body, .. } | Pat::Group { body, .. } => may_go(body, dropped),
    }
}

/// Returns whether the rules allow the branches whose spans are in `dropped` to be dropped from each of the items.
#[cycle(going)]
fn items_may_go(items: &[Pat], dropped: &[Span]) -> bool
    ensures { result ≡ items_go (lies_among dropped.now) (items_of (map pat_of items.now)) }
{
    let mut all = true;
    for item in items {
        match item {
            // A class contains no branch, so the call is saved.
            Pat::Class { .. } => {}
            _ => all = may_go(item, dropped) && all,
        }
    }
    all
}

/// Returns whether `branch_may_go` returns true for each branch of a choice. Whether the choice keeps a branch isn't looked
/// at.
#[cycle(going)]
fn branches_may_go(branches: &[Branch], dropped: &[Span]) -> bool
    ensures { result ≡ branches_go (lies_among dropped.now) (branches_of (map branch_tree branches.now)) }
{
    let mut all = true;
    for branch in branches {
        all = branch_may_go(branch, dropped) && all;
    }
    all
}

/// Returns whether the branch contains no capturing group, if it is one of the dropped branches. Otherwise, returns whether
/// the rules allow the dropped branches inside it to be dropped.
#[cycle(going)]
fn branch_may_go(branch: &Branch, dropped: &[Span]) -> bool
    ensures { result ≡ branches_go (lies_among dropped.now) (branches_of (map branch_tree (branch.now ∷ []))) }
{
    if among(dropped, branch.span) {
        !holds_capture(&branch.body)
    } else {
        may_go(&branch.body, dropped)
    }
}

/// Returns whether at least one of the branches isn't in `dropped`.
pub(crate) fn some_kept(branches: &[Branch], dropped: &[Span]) -> bool
    ensures { result ≡ is_kept (lies_among dropped.now) (branches_of (map branch_tree branches.now)) }
{
    let mut kept = false;
    for branch in branches {
        kept = kept || !among(dropped, branch.span);
    }
    kept
}
