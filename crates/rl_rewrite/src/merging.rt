//! The quantifiers that are taken out because they change nothing, such as the inner one in `(?:x*)*`. A quantifier is
//! identified by its span.

ghost use Rattle.std.specs.Prelude.{◌≡◌, ◌++◌, map, IfOk, OnOk};
ghost use Rattle.rl_syntax.specs.PatTree.{pat_of, items_of, branches_of};
ghost use Rattle.rl_syntax.specs.Counting.{branch_tree};
ghost use Rattle.rl_pattern.specs.Suggested.{is_allowed as allowed_pair, goes_out, content, merged_at, merged_in, items_merged, branches_merged};
ghost use Rattle.rl_rewrite.specs.internal.Merges.{around_of};

use crate::parts::holds_capture;
use rl_lists::OutOfMemory;
use rl_syntax::{Branch, Pat, Spans};
use std::alloc::Global;

/// How many times a repeat repeats its body.
#[derive(Clone, Copy)]
struct Times {
    /// The least number of times.
    least: u32,
    /// The greatest number of times, or `None` if there is no upper bound.
    most: Option<u32>,
}

/// The surroundings of a part.
#[derive(Clone, Copy)]
enum Place {
    /// Any other surroundings.
    Elsewhere,
    /// The part is the body of this repeat.
    Under(Times),
    /// The part is the whole content of a group that is the body of this repeat. The flag says whether the group captures.
    Inside(bool, Times),
}

/// Returns whether the bounds of two nested quantifiers allow the inner one to be taken out: `*`, `+` or `?` inside `*`, or
/// `+` inside `+`.
fn is_allowed(inner: Times, outer: Times) -> bool
    ensures { result ≡ allowed_pair inner.least inner.most outer.least outer.most }
{
    match (inner.most, outer.most) {
        (None, None) => outer.least == 0 && (inner.least == 0 || inner.least == 1)
            || outer.least == 1 && inner.least == 1,
        (Some(most), None) => outer.least == 0 && inner.least == 0 && most == 1,
        (None, Some(_)) | (Some(_), Some(_)) => false,
    }
}

/// Returns whether the quantifier of a repeat with these surroundings, bounds and body is taken out. It is if the repeat is
/// the whole content of a group that doesn't capture and is itself repeated, its body contains no capturing group, and the
/// bounds allow it.
fn goes(place: Place, inner: Times, body: &Pat) -> bool
    ensures { result ≡ goes_out (around_of place) inner.least inner.most (pat_of body.now) }
{
    match place {
        Place::Inside(captures, outer) => !captures
            && !holds_capture(body)
            && is_allowed(inner, outer),
        Place::Elsewhere | Place::Under(_) => false,
    }
}

/// Returns the surroundings of the content of a group, given the surroundings of the group and whether it captures.
fn inside(place: Place, captures: bool) -> Place
    ensures { around_of result ≡ content (around_of place) captures }
{
    match place {
        Place::Under(outer) => Place::Inside(captures, outer),
        Place::Elsewhere | Place::Inside(_, _) => Place::Elsewhere,
    }
}

/// Appends to `found` the spans of the quantifiers that are taken out of a part with these surroundings, in ascending order.
#[cycle(merging)]
fn put_merged(part: &Pat, place: Place, found: &mut Spans) -> Result<(), OutOfMemory>
    ensures { OnOk result (found.new ≡ found.old ++ merged_at (around_of place) (pat_of part.now)) }
{
    match part {
        Pat::Nothing { .. }
        | Pat::Class { .. }
        | Pat::Anchor { .. }
        | Pat::Boundary { .. }
        | Pat::Look { .. }
        | Pat::Outside { .. } => Ok(()),
        Pat::Seq { items, .. } => put_items_merged(items.as_slice(), found),
        Pat::Choice { branches, .. } => put_branches_merged(branches.as_slice(), found),
        Pat::Group { captures, body, .. } => put_merged(body, inside(place, *captures), found),
        Pat::Repeat {
            mark,
            min,
            max,
            body,
            ..
        } => {
            let times = Times {
                least: *min,
                most: *max,
            };
            put_merged(body, Place::Under(times), found)?;
            if goes(place, times, body) {
                return found.push(*mark);
            }
            Ok(())
        }
    }
}

/// Appends to `found` the spans of the quantifiers that are taken out of the items of a sequence, item by item.
#[cycle(merging)]
fn put_items_merged(items: &[Pat], found: &mut Spans) -> Result<(), OutOfMemory>
    ensures { OnOk result (found.new ≡ found.old ++ items_merged (items_of (map pat_of items.now))) }
{
    for item in items {
        put_merged(item, Place::Elsewhere, found)?;
    }
    Ok(())
}

/// Appends to `found` the spans of the quantifiers that are taken out of the branches of a choice, branch by branch.
#[cycle(merging)]
fn put_branches_merged(branches: &[Branch], found: &mut Spans) -> Result<(), OutOfMemory>
    ensures { OnOk result (found.new ≡ found.old ++ branches_merged (branches_of (map branch_tree branches.now))) }
{
    for branch in branches {
        put_merged(&branch.body, Place::Elsewhere, found)?;
    }
    Ok(())
}

/// Returns the spans of the quantifiers that are taken out of a whole body, in ascending order.
pub(crate) fn all_merged(alloc: Global, body: &Pat) -> Result<Spans, OutOfMemory>
    ensures { IfOk result (λ all. all ≡ merged_in (pat_of body.now)) }
{
    let mut all = Spans::new(alloc);
    put_merged(body, Place::Elsewhere, &mut all)?;
    Ok(all)
}
