//! Whether both sides of a comparison found the same.

ghost use Rattle.std.specs.Prelude.{◌≡◌, ◌↔◌, IsTrue};
ghost use Rattle.rl_marks.specs.internal.Caps.{SameCaps};
ghost use Rattle.rl_marks.specs.internal.Pairs.{Agrees};

use rl_marks::GroupSpan;
use rl_marks::threads::Caps;

/// Returns whether both lists have the same spans in the same order.
fn are_same_spans(spans: &[GroupSpan], others: &[GroupSpan]) -> bool
    ensures { IsTrue result → spans.now ≡ others.now }
{
    if spans.len() != others.len() {
        return false;
    }
    for (index, span) in spans.iter().enumerate() {
        if *span != others[index] {
            return false;
        }
    }
    true
}

/// Returns whether the same spans are held, and the same group was closed last. Groups that are still open aren't compared.
fn are_same(caps: &Caps, others: &Caps) -> bool
    ensures { IsTrue result → SameCaps caps.now others.now }
{
    caps.last == others.last && are_same_spans(caps.held.as_slice(), others.held.as_slice())
}

/// Returns whether both sides found the same. `first` and `second` are what is known of the groups where a side stops at this
/// place, or `None` if it doesn't stop here. If neither does, what they found before counts, which is the same if `before` is
/// true.
pub(crate) fn agree(before: bool, first: &Option<Caps>, second: &Option<Caps>) -> bool
    ensures { IsTrue result → Agrees before first.now second.now }
{
    match (first, second) {
        (None, None) => before,
        (Some(caps), Some(others)) => are_same(caps, others),
        _ => false,
    }
}
