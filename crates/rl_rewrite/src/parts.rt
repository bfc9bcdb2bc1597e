//! Tests of what a pattern contains: a guard, which is an anchor, a word boundary or a lookaround, or a capturing group.

ghost use Rattle.std.specs.Prelude.{◌≡◌, map};
ghost use Rattle.rl_syntax.specs.PatTree.{pat_of, items_of, branches_of};
ghost use Rattle.rl_syntax.specs.Counting.{branch_tree};
ghost use Rattle.rl_pattern.specs.Suggested.{among as lies_among};
ghost use Rattle.rl_pattern.specs.Suggested.{holds_guard as guard_in, some_guard, branch_guard};
ghost use Rattle.rl_pattern.specs.Suggested.{holds_capture as capture_in, some_capture, branch_capture};

use rl_syntax::{Branch, Pat, Span};

/// Returns whether the span is in the list.
pub(crate) fn among(spans: &[Span], span: Span) -> bool
    ensures { result ≡ lies_among spans.now span }
{
    let mut found = false;
    for other in spans {
        found = found || *other == span;
    }
    found
}

/// Returns whether a part contains an anchor, a word boundary or a lookaround.
#[cycle(guards)]
pub(crate) fn holds_guard(part: &Pat) -> bool
    ensures { result ≡ guard_in (pat_of part.now) }
{
    match part {
        Pat::Nothing { .. } | Pat::Class { .. } | Pat::Outside { .. } => false,
        Pat::Anchor { .. } | Pat::Boundary { .. } | Pat::Look { .. } => true,
        Pat::Seq { items, .. } => items_hold_guard(items.as_slice()),
        Pat::Choice { branches, .. } => branches_hold_guard(branches.as_slice()),
        Pat::Repeat { body, .. } | Pat::Group { body, .. } => holds_guard(body),
    }
}

/// Returns whether at least one of the items contains an anchor, a word boundary or a lookaround.
#[cycle(guards)]
fn items_hold_guard(items: &[Pat]) -> bool
    ensures { result ≡ some_guard (items_of (map pat_of items.now)) }
{
    let mut held = false;
    for item in items {
        held = holds_guard(item) || held;
    }
    held
}

/// Returns whether at least one of the branches contains an anchor, a word boundary or a lookaround.
#[cycle(guards)]
fn branches_hold_guard(branches: &[Branch]) -> bool
    ensures { result ≡ branch_guard (branches_of (map branch_tree branches.now)) }
{
    let mut held = false;
    for branch in branches {
        held = holds_guard(&branch.body) || held;
    }
    held
}

/// Returns whether a part is or contains a capturing group.
#[cycle(captures)]
pub(crate) fn holds_capture(part: &Pat) -> bool
    ensures { result ≡ capture_in (pat_of part.now) }
{
    match part {
        Pat::Nothing { .. }
        | Pat::Class { .. }
        | Pat::Outside { .. }
        | Pat::Anchor { .. }
        | Pat::Boundary { .. }
        | Pat::Look { .. } => false,
        Pat::Seq { items, .. } => items_hold_capture(items.as_slice()),
        Pat::Choice { branches, .. } => branches_hold_capture(branches.as_slice()),
        Pat::Repeat { body, .. } => holds_capture(body),
        Pat::Group { captures, body, .. } => *captures || holds_capture(body),
    }
}

/// Returns whether at least one of the items is or contains a capturing group.
#[cycle(captures)]
fn items_hold_capture(items: &[Pat]) -> bool
    ensures { result ≡ some_capture (items_of (map pat_of items.now)) }
{
    let mut held = false;
    for item in items {
        held = holds_capture(item) || held;
    }
    held
}

/// Returns whether at least one of the branches contains a capturing group.
#[cycle(captures)]
fn branches_hold_capture(branches: &[Branch]) -> bool
    ensures { result ≡ branch_capture (branches_of (map branch_tree branches.now)) }
{
    let mut held = false;
    for branch in branches {
        held = holds_capture(&branch.body) || held;
    }
    held
}
