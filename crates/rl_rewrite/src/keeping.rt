//! The places of a part that are kept if further branches are dropped.
//!
//! The places of a part are the leaves, each of which matches one code, of the tree to which it is lowered. `dropped` has the
//! spans of the branches that are dropped already, and `gone` has the spans of the branches to be dropped next. One of these
//! may be inside another one. A repeat is lowered to several copies of its body.

ghost use Rattle.std.specs.Prelude.{◌≡◌, ◌∷◌, [], ◌++◌, List, true, map, IfOk, OnOk, IfSome};
ghost use Rattle.rl_syntax.specs.PatTree.{pat_of, items_of, branches_of};
ghost use Rattle.rl_syntax.specs.Counting.{branch_tree};
ghost use Rattle.rl_syntax.specs.Lowering.{lowered};
ghost use Rattle.rl_pattern.specs.Cut.{remaining};
ghost use Rattle.rl_pattern.specs.Suggested.{among as lies_among, no_span, may_go as goes};
ghost use Rattle.rl_trim.specs.Without.{Without};
ghost use Rattle.rl_rewrite.specs.internal.Keeping.{copies as copies_of, repeated};
ghost use Rattle.rl_rewrite.specs.internal.Keeping.{spans_empty, items_span_empty, branch_spans_empty};
ghost use Rattle.rl_rewrite.specs.internal.Keeping.{loses_empty, items_lose_empty, branches_lose_empty};
ghost use Rattle.rl_rewrite.specs.internal.Keeping.{flags_in, items_flags, branches_flags};

use crate::going::some_kept;
use crate::parts::among;
use rl_lists::{Items, OutOfMemory};
use rl_syntax::{Branch, Pat, Span};
use std::alloc::Global;

/// A flag for each place, from left to right, which says whether the place is kept.
pub(crate) type Flags = Items<bool>;

/// Returns whether what is left of a part without the dropped branches may span the empty text. Anchors, boundaries,
/// lookarounds and features that aren't judged (`Outside`) count as spanning it, and so does a choice without branches.
#[cycle(empty)]
fn may_be_empty(part: &Pat, dropped: &[Span]) -> bool
    ensures { result ≡ spans_empty (lies_among dropped.now) (pat_of part.now) }
{
    match part {
        Pat::Class { .. } => false,
        Pat::Nothing { .. }
        | Pat::Anchor { .. }
        | Pat::Boundary { .. }
        | Pat::Look { .. }
        | Pat::Outside { .. } => true,
        Pat::Seq { items, .. } => items_may_be_empty(items.as_slice(), dropped),
        Pat::Choice { branches, .. } => {
            let kept = some_kept(branches.as_slice(), dropped);
            branches_may_be_empty(branches.as_slice(), dropped) || !kept
        }
        Pat::Repeat { min, body, .. } => may_be_empty(body, dropped) || *min == 0,
        Pat::Group { body, .. } => may_be_empty(body, dropped),
    }
}

/// Returns whether all items, without the dropped branches, may span the empty text.
#[cycle(empty)]
fn items_may_be_empty(items: &[Pat], dropped: &[Span]) -> bool
    ensures { result ≡ items_span_empty (lies_among dropped.now) (items_of (map pat_of items.now)) }
{
    let mut all = true;
    for item in items {
        all = may_be_empty(item, dropped) && all;
    }
    all
}

/// Returns whether at least one of the branches isn't dropped and may span the empty text.
#[cycle(empty)]
fn branches_may_be_empty(branches: &[Branch], dropped: &[Span]) -> bool
    ensures { result ≡ branch_spans_empty (lies_among dropped.now) (branches_of (map branch_tree branches.now)) }
{
    let mut some = false;
    for branch in branches {
        some = branch_may_be_empty(branch, dropped) || some;
    }
    some
}

/// Returns whether the branch isn't dropped and may span the empty text.
#[cycle(empty)]
fn branch_may_be_empty(branch: &Branch, dropped: &[Span]) -> bool
    ensures { result ≡ branch_spans_empty (lies_among dropped.now) (branches_of (map branch_tree (branch.now ∷ []))) }
{
    if among(dropped, branch.span) {
        false
    } else {
        may_be_empty(&branch.body, dropped)
    }
}

/// Returns whether the part has a branch to be dropped next that may span the empty text. Only branches that aren't inside a
/// dropped branch, nor inside another branch to be dropped next, are looked at.
#[cycle(losing)]
fn may_lose_empty(part: &Pat, dropped: &[Span], gone: &[Span]) -> bool
    ensures { result ≡ loses_empty (lies_among dropped.now) (lies_among gone.now) (pat_of part.now) }
{
    match part {
        Pat::Nothing { .. }
        | Pat::Class { .. }
        | Pat::Anchor { .. }
        | Pat::Boundary { .. }
        | Pat::Look { .. }
        | Pat::Outside { .. } => false,
        Pat::Seq { items, .. } => items_may_lose_empty(items.as_slice(), dropped, gone),
        Pat::Choice { branches, .. } => branches_may_lose_empty(branches.as_slice(), dropped, gone),
        Pat::Repeat { body, .. } | Pat::Group { body, .. } => may_lose_empty(body, dropped, gone),
    }
}

/// Returns whether `may_lose_empty` returns true for one of the items.
#[cycle(losing)]
fn items_may_lose_empty(items: &[Pat], dropped: &[Span], gone: &[Span]) -> bool
    ensures { result ≡ items_lose_empty (lies_among dropped.now) (lies_among gone.now) (items_of (map pat_of items.now)) }
{
    let mut some = false;
    for item in items {
        match item {
            // A class contains no branch, so the call is saved.
            Pat::Class { .. } => {}
            _ => some = may_lose_empty(item, dropped, gone) || some,
        }
    }
    some
}

/// Returns whether `branch_may_lose_empty` returns true for one of these branches.
#[cycle(losing)]
fn branches_may_lose_empty(branches: &[Branch], dropped: &[Span], gone: &[Span]) -> bool
    ensures { result ≡ branches_lose_empty (lies_among dropped.now) (lies_among gone.now) (branches_of (map branch_tree branches.now)) }
{
    let mut some = false;
    for branch in branches {
        some = branch_may_lose_empty(branch, dropped, gone) || some;
    }
    some
}

/// Returns whether this branch may span the empty text, if it is to be dropped next. Otherwise, returns whether its body has
/// such a branch, as `may_lose_empty` does. Returns false if the branch is dropped already.
#[cycle(losing)]
fn branch_may_lose_empty(branch: &Branch, dropped: &[Span], gone: &[Span]) -> bool
    ensures { result ≡ branches_lose_empty (lies_among dropped.now) (lies_among gone.now) (branches_of (map branch_tree (branch.now ∷ []))) }
{
    if among(dropped, branch.span) {
        return false;
    }
    if among(gone, branch.span) {
        may_be_empty(&branch.body, dropped)
    } else {
        may_lose_empty(&branch.body, dropped, gone)
    }
}

/// Returns the number of copies of its body to which a repeat is lowered: the greater of its two bounds, or one more than its
/// lower bound if it has no upper bound.
fn copies(min: u32, max: Option<u32>) -> u64
    ensures { result ≡ copies_of min max }
{
    match max {
        Some(max) => u64::from(min) + u64::from(max.saturating_sub(min)),
        None => u64::from(min) + 1,
    }
}

/// Appends the list of flags to `found`, `times` times.
fn put_copies(flags: &[bool], times: u64, found: &mut Vec<bool>) -> Result<(), OutOfMemory>
    ensures { OnOk result (found.new.items ≡ found.old.items ++ repeated times flags.now) }
{
    for _ in 0..times {
        found.extend_from_slice(flags)?;
    }
    Ok(())
}

/// Appends to `found` a flag for each place of what is left of a part without the dropped branches, which says whether the
/// place is kept if the branches of `gone` are dropped too. `keep` is false if the part is inside one of these; then all flags
/// are false.
#[cycle(keeping)]
fn put_flags(
    alloc: Global,
    part: &Pat,
    dropped: &[Span],
    gone: &[Span],
    keep: bool,
    found: &mut Vec<bool>,
) -> Result<(), OutOfMemory>
    ensures { OnOk result (found.new.items ≡ found.old.items ++ flags_in (lies_among dropped.now) (lies_among gone.now) keep (pat_of part.now)) }
{
    match part {
        Pat::Nothing { .. }
        | Pat::Anchor { .. }
        | Pat::Boundary { .. }
        | Pat::Look { .. }
        | Pat::Outside { .. } => Ok(()),
        Pat::Class { .. } => {
            found.push(keep)?;
            Ok(())
        }
        Pat::Seq { items, .. } => {
            put_items_flags(alloc, items.as_slice(), dropped, gone, keep, found)
        }
        Pat::Choice { branches, .. } => {
            put_branches_flags(alloc, branches.as_slice(), dropped, gone, keep, found)
        }
        Pat::Repeat { min, max, body, .. } => {
            let mut flags = Vec::new(alloc);
            let Ok(()) = put_flags(alloc, body, dropped, gone, keep, &mut flags) else {
                drop(flags);
                return Err(OutOfMemory);
            };
            let copied = put_copies(flags.as_slice(), copies(*min, *max), found);
            drop(flags);
            copied
        }
        Pat::Group { body, .. } => put_flags(alloc, body, dropped, gone, keep, found),
    }
}

/// Appends the flags of the places of the items, as `put_flags` does.
#[cycle(keeping)]
fn put_items_flags(
    alloc: Global,
    items: &[Pat],
    dropped: &[Span],
    gone: &[Span],
    keep: bool,
    found: &mut Vec<bool>,
) -> Result<(), OutOfMemory>
    ensures { OnOk result (found.new.items ≡ found.old.items ++ items_flags (lies_among dropped.now) (lies_among gone.now) keep (items_of (map pat_of items.now))) }
{
    for item in items {
        match item {
            // A class has one place, so the call is saved.
            Pat::Class { .. } => found.push(keep)?,
            _ => put_flags(alloc, item, dropped, gone, keep, found)?,
        }
    }
    Ok(())
}

/// Appends the flags of the places of the branches that aren't dropped, as `put_flags` does.
#[cycle(keeping)]
fn put_branches_flags(
    alloc: Global,
    branches: &[Branch],
    dropped: &[Span],
    gone: &[Span],
    keep: bool,
    found: &mut Vec<bool>,
) -> Result<(), OutOfMemory>
    ensures { OnOk result (found.new.items ≡ found.old.items ++ branches_flags (lies_among dropped.now) (lies_among gone.now) keep (branches_of (map branch_tree branches.now))) }
{
    for branch in branches {
        if !among(dropped, branch.span) {
            let stays = keep && !among(gone, branch.span);
            put_flags(alloc, &branch.body, dropped, gone, stays, found)?;
        }
    }
    Ok(())
}

/// Returns a flag for each place of what is left of a part without the dropped branches, which says whether the place is kept
/// if the branches of `gone` are dropped too. Returns `None` if one of these may span the empty text and isn't inside another
/// one. The rules must allow the branches of `gone` and the dropped branches to be dropped.
pub(crate) fn kept_places(
    alloc: Global,
    part: &Pat,
    dropped: &[Span],
    gone: &[Span],
) -> Result<Option<Flags>, OutOfMemory>
    requires may { goes (lies_among (gone.now ++ dropped.now)) (pat_of part.now) ≡ true }
    ensures { IfOk result (λ o. IfSome o (λ keep. Without keep (lowered (remaining (lies_among (gone.now ++ dropped.now)) no_span (pat_of part.now)))
        (lowered (remaining (lies_among dropped.now) no_span (pat_of part.now))))) }
{
    if may_lose_empty(part, dropped, gone) {
        return Ok(None);
    }
    let mut keep = Vec::new(alloc);
    put_flags(alloc, part, dropped, gone, true, &mut keep)?;
    Ok(Some(Flags::from_vec(keep)))
}
