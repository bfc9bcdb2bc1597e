//! Spans of groups.

ghost use Rattle.std.specs.Prelude.{◌≡◌};
ghost use Rattle.rl_marks.specs.Finds.{group};

/// A span of a group in a text. Positions count codes from 0.
#[derive(Clone, Copy, Debug, PartialEq, Eq)]
pub struct GroupSpan {
    /// The number of the group.
    pub number: u32,
    /// The position at which the span begins.
    pub from: u32,
    /// The position at which the span ends. The code there isn't part of it.
    pub upto: u32,
}

/// Returns the value of the group with this number: the start and end of its last span in the list, or `None` if it has none
/// there.
pub fn value_of(spans: &[GroupSpan], number: u32) -> Option<(u32, u32)>
    ensures { result ≡ group number spans.now }
{
    let mut known = None;
    for span in spans {
        if span.number == number {
            known = Some((span.from, span.upto));
        }
    }
    known
}
