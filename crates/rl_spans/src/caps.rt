//! What is known of groups on a way through a tree, and how it changes.

ghost use Rattle.std.specs.Prelude.{◌≡◌, ◌∷◌, IfOk};
ghost use Rattle.rl_marks.specs.internal.Caps.{put, opened, closed_at};
ghost use Rattle.rl_marks.specs.internal.MarkItems.{performed};

use rl_lists::{Items, OutOfMemory};
use rl_marks::GroupSpan;
use rl_marks::threads::{Act, Caps};
use std::alloc::Global;

/// Returns the spans, which are by rising numbers of their groups, with one more; it replaces the span of the same group.
///
/// # Errors
/// [`OutOfMemory`] if there was no memory for the list.
pub(crate) fn with_span(
    alloc: Global,
    held: &[GroupSpan],
    span: GroupSpan,
) -> Result<Items<GroupSpan>, OutOfMemory>
    ensures { IfOk result (λ l. l ≡ put span held.now) }
{
    let mut list = Items::new(alloc);
    let mut placed = false;
    for other in held {
        if placed || other.number < span.number {
            list.push(*other)?;
        } else {
            list.push(span)?;
            placed = true;
            if other.number != span.number {
                list.push(*other)?;
            }
        }
    }
    if !placed {
        list.push(span)?;
    }
    Ok(list)
}

/// Returns the list with one more item in front.
pub(crate) fn in_front(alloc: Global, item: u32, items: &[u32]) -> Result<Items<u32>, OutOfMemory>
    ensures { IfOk result (λ l. l ≡ item ∷ items.now) }
{
    let mut list = Items::new(alloc);
    list.push(item)?;
    for other in items {
        list.push(*other)?;
    }
    Ok(list)
}

/// Returns a copy of what is known of groups.
pub(crate) fn copy_of(alloc: Global, caps: &Caps) -> Result<Caps, OutOfMemory>
    ensures { IfOk result (λ c. c ≡ caps.now) }
{
    let opens = Items::from_slice(alloc, caps.opens.as_slice())?;
    let held = Items::from_slice(alloc, caps.held.as_slice())?;
    Ok(Caps {
        opens,
        held,
        last: caps.last,
    })
}

/// Returns what is known of groups once one more is opened at the place.
pub(crate) fn after_open(alloc: Global, place: u32, caps: &Caps) -> Result<Caps, OutOfMemory>
    ensures { IfOk result (λ c. c ≡ opened place caps.now) }
{
    let opens = in_front(alloc, place, caps.opens.as_slice())?;
    let held = Items::from_slice(alloc, caps.held.as_slice())?;
    Ok(Caps {
        opens,
        held,
        last: caps.last,
    })
}

/// Returns what is known of groups once the innermost open group, which has the number, is closed at the place. If no group is
/// open, nothing changes.
pub(crate) fn after_close(
    alloc: Global,
    number: u32,
    place: u32,
    caps: &Caps,
) -> Result<Caps, OutOfMemory>
    ensures { IfOk result (λ c. c ≡ closed_at number place caps.now) }
{
    let Some((from, rest)) = caps.opens.as_slice().split_first() else {
        return copy_of(alloc, caps);
    };
    let span = GroupSpan {
        number,
        from: *from,
        upto: place,
    };
    let held = with_span(alloc, caps.held.as_slice(), span)?;
    let opens = Items::from_slice(alloc, rest)?;
    Ok(Caps {
        opens,
        held,
        last: Some(number),
    })
}

/// Returns what is known of groups once the acts are done at the place, in order. Guards change nothing and aren't tested
/// here.
pub(crate) fn after_acts(
    alloc: Global,
    acts: &[Act],
    place: u32,
    caps: &Caps,
) -> Result<Caps, OutOfMemory>
    ensures { IfOk result (λ c. c ≡ performed acts.now place caps.now) }
{
    let mut known = copy_of(alloc, caps)?;
    for act in acts {
        match act {
            Act::Check(_) => {}
            Act::OpenGroup => {
                known = after_open(alloc, place, &known)?;
            }
            Act::CloseGroup(number) => {
                known = after_close(alloc, *number, place, &known)?;
            }
        }
    }
    Ok(known)
}
