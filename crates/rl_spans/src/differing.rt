//! Whether both sides of a comparison find different matches on one text, which is seen by running both.

ghost use Rattle.std.specs.Prelude.{◌≡◌, ◌≤◌, ◌<◌, ◌^◌, ℕ, IsTrue, IfOk, length};
ghost use Rattle.rl_marks.specs.Hits.{match_at, SameHit};
ghost use Rattle.rl_marks.specs.internal.Caps.{span_of_group};
ghost use Rattle.rl_marks.specs.internal.Runs.{LikeEnds, LikeEnded};
ghost use Rattle.rl_spans.specs.internal.Hits.{ended_of, end_of};
ghost use Rattle.rl_spans.specs.internal.Machines.{IsMachine};
ghost use Rattle.rl_spans.specs.internal.Sides.{matcher_of};

use crate::machine::Machine;
use crate::running::{Hit, found_from};
use crate::stepping::StepError;
use rl_marks::{GroupSpan, MOST_GROUPS};
use std::alloc::Global;

/// Returns the span of the group with the number, as its two positions, or `None` if there is none in the list.
pub(crate) fn span_held(held: &[GroupSpan], number: u32) -> Option<(u32, u32)>
    ensures { result ≡ span_of_group number held.now }
{
    for span in held {
        if number == span.number {
            return Some((span.from, span.upto));
        }
    }
    None
}

/// Returns whether both are the same span, or both are `None`.
fn is_same_span(span: Option<(u32, u32)>, other: Option<(u32, u32)>) -> bool
    ensures { span ≡ other → IsTrue result }
{
    match (span, other) {
        (None, None) => true,
        (Some(first), Some(second)) => first.0 == second.0 && first.1 == second.1,
        _ => false,
    }
}

/// Returns whether some group with a number up to [`MOST_GROUPS`] has different spans in the two lists, or a span in only one
/// of them.
fn holds_otherwise(held: &[GroupSpan], others: &[GroupSpan]) -> bool
    ensures { IsTrue result → ¬ ((n : ℕ) → span_of_group n held.now ≡ span_of_group n others.now) }
{
    for number in 0..=MOST_GROUPS {
        let span = span_held(held, number);
        let other = span_held(others, number);
        if !is_same_span(span, other) {
            return true;
        }
    }
    false
}

/// Returns whether two matches differ: in their end, in the span of a group, or in the group that was closed last.
fn are_ends_unlike(hit: &Hit, other: &Hit) -> bool
    ensures { IsTrue result → ¬ LikeEnds (end_of hit.now) (end_of other.now) }
{
    if hit.end != other.end {
        return true;
    }
    if hit.caps.last != other.caps.last {
        return true;
    }
    holds_otherwise(hit.caps.held.as_slice(), other.caps.held.as_slice())
}

/// Returns whether what two sides found differs: two different matches, or a match of only one side.
fn are_unlike(hit: &Option<Hit>, other: &Option<Hit>) -> bool
    ensures { IsTrue result → ¬ LikeEnded (ended_of hit.now) (ended_of other.now) }
{
    match (hit, other) {
        (None, None) => false,
        (Some(first), Some(second)) => are_ends_unlike(first, second),
        _ => true,
    }
}

/// Returns whether both sides find different matches on the text, as matches that begin at position `start`, which is counted
/// in codes from 0. `advance` says that only matches that aren't empty count. A text for which there is a result has fewer
/// than 2^32 codes.
///
/// # Errors
/// [`StepError::Outside`] if the text has 2^32 codes or more, [`StepError::OutOfMemory`] if there was no memory for the runs.
pub(crate) fn is_difference(
    alloc: Global,
    machine: &Machine,
    text: &[u32],
    advance: bool,
    start: usize,
) -> Result<bool, StepError>
    requires machine { IsMachine machine.now }
    requires start { start ≤ length text.now }
    ensures differ { IfOk result (λ differ. IsTrue differ
        → ¬ SameHit (match_at (matcher_of machine.now.first) text.now advance start) (match_at (matcher_of machine.now.second) text.now advance start)) }
    ensures short { IfOk result (λ _differ. length text.now < 2 ^ 32) }
{
    let codes = machine.codes.as_slice();
    let left = found_from(
        alloc,
        &machine.first,
        codes,
        &machine.words,
        text,
        advance,
        start,
    )?;
    let right = found_from(
        alloc,
        &machine.second,
        codes,
        &machine.words,
        text,
        advance,
        start,
    )?;
    Ok(are_unlike(&left, &right))
}
