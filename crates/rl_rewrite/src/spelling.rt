//! The codes of a pattern without the branches that are dropped and the quantifiers that are taken out. Both are identified by
//! their spans, in `dropped` and `merged`. The position of a code is its index in the pattern, from 0.

ghost use Rattle.std.specs.Prelude.{◌≡◌, ◌++◌, false, not, map, IfOk, OnOk};
ghost use Rattle.rl_syntax.specs.PatTree.{pat_of, items_of, branches_of};
ghost use Rattle.rl_syntax.specs.Counting.{branch_tree};
ghost use Rattle.rl_pattern.specs.Suggested.{among as lies_among, text_if as is_text_if};
ghost use Rattle.rl_pattern.specs.Thinned.{kept_from};
ghost use Rattle.rl_rewrite.specs.internal.Holes.{in_holes as lies_in_holes, branch_hole as is_branch_hole, mark_hole as is_mark_hole, holes_in, items_holes, branches_holes};

use crate::parts::among;
use rl_lists::{Items, OutOfMemory};
use rl_ranges::Codes;
use rl_syntax::{Branch, Pat, Span};
use std::alloc::Global;

/// A run of consecutive codes that are removed from a pattern.
#[derive(Clone, Copy)]
pub(crate) struct Hole {
    /// The position of the first code.
    pub(crate) from: usize,
    /// The position after the last code.
    pub(crate) upto: usize,
}

/// Returns the hole of a dropped branch with the given span. `some_before` says whether an earlier branch of its choice is
/// left: if so, the hole includes the `|` before the branch, otherwise the `|` after it.
fn branch_hole(span: Span, some_before: bool) -> Hole
    ensures { result ≡ is_branch_hole span some_before }
{
    if some_before {
        Hole {
            from: span.from.saturating_sub(1) as usize,
            upto: span.upto as usize,
        }
    } else {
        Hole {
            from: span.from as usize,
            upto: span.upto as usize + 1,
        }
    }
}

/// Returns the hole of a quantifier that is taken out; `mark` is its span.
fn mark_hole(mark: Span) -> Hole
    ensures { result ≡ is_mark_hole mark }
{
    Hole {
        from: mark.from as usize,
        upto: mark.upto as usize,
    }
}

/// Appends to `found` the holes of a part: one for each dropped branch and each quantifier that is taken out, except inside
/// dropped branches.
#[cycle(holes)]
fn put_holes(
    part: &Pat,
    dropped: &[Span],
    merged: &[Span],
    found: &mut Items<Hole>,
) -> Result<(), OutOfMemory>
    ensures { OnOk result (found.new ≡ found.old ++ holes_in (lies_among dropped.now) (lies_among merged.now) (pat_of part.now)) }
{
    match part {
        Pat::Nothing { .. }
        | Pat::Class { .. }
        | Pat::Anchor { .. }
        | Pat::Boundary { .. }
        | Pat::Look { .. }
        | Pat::Outside { .. } => Ok(()),
        Pat::Seq { items, .. } => put_items_holes(items.as_slice(), dropped, merged, found),
        Pat::Choice { branches, .. } => {
            put_branches_holes(branches.as_slice(), dropped, merged, found)
        }
        Pat::Repeat { mark, body, .. } => {
            if among(merged, *mark) {
                found.push(mark_hole(*mark))?;
            }
            put_holes(body, dropped, merged, found)
        }
        Pat::Group { body, .. } => put_holes(body, dropped, merged, found),
    }
}

/// Appends to `found` the holes of the items, item by item.
#[cycle(holes)]
fn put_items_holes(
    items: &[Pat],
    dropped: &[Span],
    merged: &[Span],
    found: &mut Items<Hole>,
) -> Result<(), OutOfMemory>
    ensures { OnOk result (found.new ≡ found.old ++ items_holes (lies_among dropped.now) (lies_among merged.now) (items_of (map pat_of items.now))) }
{
    for item in items {
        put_holes(item, dropped, merged, found)?;
    }
    Ok(())
}

/// Appends to `found` the holes of all branches of a choice, branch by branch.
#[cycle(holes)]
fn put_branches_holes(
    branches: &[Branch],
    dropped: &[Span],
    merged: &[Span],
    found: &mut Items<Hole>,
) -> Result<(), OutOfMemory>
    ensures { OnOk result (found.new ≡ found.old ++ branches_holes (lies_among dropped.now) (lies_among merged.now) (branches_of (map branch_tree branches.now)) false) }
{
    let mut some_before = false;
    for branch in branches {
        if among(dropped, branch.span) {
            found.push(branch_hole(branch.span, some_before))?;
        } else {
            put_holes(&branch.body, dropped, merged, found)?;
            some_before = true;
        }
    }
    Ok(())
}

/// Returns whether the code at a position lies in one of the holes.
fn in_holes(holes: &[Hole], place: usize) -> bool
    ensures { result ≡ lies_in_holes holes.now place }
{
    let mut found = false;
    for hole in holes {
        found = found || hole.from <= place && place < hole.upto;
    }
    found
}

/// Returns the codes that lie in none of the holes, in order.
fn without_holes(alloc: Global, codes: &[u32], holes: &[Hole]) -> Result<Codes, OutOfMemory>
    ensures { IfOk result (λ text. text ≡ kept_from (λ t. not (lies_in_holes holes.now t)) 0 codes.now) }
{
    let mut kept = Codes::new(alloc);
    for (place, code) in codes.iter().enumerate() {
        if !in_holes(holes, place) {
            kept.push(*code)?;
        }
    }
    Ok(kept)
}

/// Returns the codes of a pattern without the dropped branches and the quantifiers that are taken out of its body, or `None`
/// if both lists are empty.
pub(crate) fn text_of(
    alloc: Global,
    body: &Pat,
    codes: &Codes,
    dropped: &[Span],
    merged: &[Span],
) -> Result<Option<Codes>, OutOfMemory>
    ensures { IfOk result (λ text. text ≡ is_text_if (pat_of body.now) dropped.now merged.now codes.now) }
{
    if dropped.is_empty() && merged.is_empty() {
        return Ok(None);
    }
    let mut holes = Items::new(alloc);
    put_holes(body, dropped, merged, &mut holes)?;
    let text = without_holes(alloc, codes.as_slice(), holes.as_slice())?;
    Ok(Some(text))
}
