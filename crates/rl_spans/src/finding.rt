//! What one pattern finds on a text, with the values of its groups.

ghost use Rattle.std.specs.Prelude.{◌≡◌, ◌≤◌, ◌^◌, ℕ, [], IfErr, IfOk, false, true, length, option_map};
ghost use Rattle.rl_ranges.specs.Codes.{has};
ghost use Rattle.rl_syntax.specs.Guards.{is_word};
ghost use Rattle.rl_marks.specs.SameFinds.{matcher_in};
ghost use Rattle.rl_marks.specs.internal.Caps.{span_of_group};
ghost use Rattle.rl_marks.specs.Marked.{marked_of};
ghost use Rattle.rl_spans.specs.declared.items.ListError.TheVariants as list;
ghost use Rattle.rl_spans.specs.declared.stepping.StepError.TheVariants as error;
ghost use Rattle.rl_spans.specs.Limits.{IsCauseAlone, IsShort};
ghost use Rattle.rl_spans.specs.Sights.{found_in, sight_of};
ghost use Rattle.rl_spans.specs.internal.Hits.{ended_of};
ghost use Rattle.rl_spans.specs.internal.HeldSights.{held_sight, held_values, sight_asked, sight_in, sight_sought_in};
ghost use Rattle.rl_spans.specs.internal.Sides.{IsSide, matcher_of};

use crate::differing::span_held;
use crate::error::SpansError;
use crate::items::ListError;
use crate::running::{Hit, found_from, place_of};
use crate::shown::Words;
use crate::side::Side;
use crate::stepping::StepError;
use rl_lists::{Items, OutOfMemory};
use rl_marks::{GroupSpan, How, MarkedPattern, ending_of};
use std::alloc::Global;

/// A match that a pattern finds on a text. Positions are counted in codes from 0.
#[derive(Drop)]
pub struct Sight {
    /// Where the match begins.
    pub start: u32,
    /// Where it ends.
    pub end: u32,
    /// The value of each group, by rising numbers from 1 on: its last span, or `None`.
    pub groups: Items<Option<(u32, u32)>>,
    /// The number of the group that was closed last, or `None` if no group was closed.
    pub last: Option<u32>,
}

/// Returns the spans in `held` of the groups 1 to `count`, in this order; `None` for a group that has none there.
fn values_held(
    alloc: Global,
    held: &[GroupSpan],
    count: u32,
) -> Result<Items<Option<(u32, u32)>>, OutOfMemory>
    ensures { IfOk result (λ l. l ≡ held_values count held.now) }
{
    let mut values = Items::new(alloc);
    for index in 0..count {
        let value = span_held(held, index + 1);
        values.push(value)?;
    }
    Ok(values)
}

/// Returns the hit, if there is one, as a match that begins at position `start`, with the values of the groups 1 to `count`.
fn sight_held(
    alloc: Global,
    hit: &Option<Hit>,
    start: u32,
    count: u32,
) -> Result<Option<Sight>, OutOfMemory>
    ensures { IfOk result (λ s. s ≡ option_map (held_sight count start) (ended_of hit.now)) }
{
    match hit {
        None => Ok(None),
        Some(hit) => {
            let groups = values_held(alloc, hit.caps.held.as_slice(), count)?;
            Ok(Some(Sight {
                start,
                end: hit.end,
                groups,
                last: hit.caps.last,
            }))
        }
    }
}

/// Returns the match that a side finds from position `start` on, with the values of the groups 1 to `count`, or `None`.
/// `advance` says that only matches that aren't empty count.
fn sight_at(
    alloc: Global,
    side: &Side,
    words: &Words,
    count: u32,
    text: &[u32],
    advance: bool,
    start: usize,
) -> Result<Option<Sight>, StepError>
    requires side { IsSide [] side.now }
    requires all { (c : ℕ) → has words.now.all c ≡ is_word false c }
    requires ascii { (c : ℕ) → has words.now.ascii c ≡ is_word true c }
    requires start { start ≤ length text.now }
    ensures sight { IfOk result (λ s. s ≡ sight_in count side.now text.now advance start) }
    ensures outside { IfErr result (λ e. e ≡ error.Outside → 2 ^ 32 ≤ length text.now) }
{
    let place = place_of(start)?;
    let hit = found_from(alloc, side, &[], words, text, advance, start)?;
    let sight = sight_held(alloc, &hit, place, count)?;
    Ok(sight)
}

/// Returns the first match that a search with a side finds from the start of the text, with the values of the groups 1 to
/// `count`.
fn sight_sought(
    alloc: Global,
    side: &Side,
    words: &Words,
    count: u32,
    text: &[u32],
) -> Result<Option<Sight>, StepError>
    requires side { IsSide [] side.now }
    requires all { (c : ℕ) → has words.now.all c ≡ is_word false c }
    requires ascii { (c : ℕ) → has words.now.ascii c ≡ is_word true c }
    ensures sight { IfOk result (λ s. s ≡ sight_sought_in count side.now text.now 0) }
    ensures outside { IfErr result (λ e. e ≡ error.Outside → 2 ^ 32 ≤ length text.now) }
{
    let size = text.len();
    for start in 0..size {
        let sight = sight_at(alloc, side, words, count, text, false, start)?;
        if sight.is_some() {
            return Ok(sight);
        }
    }
    let last = sight_at(alloc, side, words, count, text, false, size)?;
    Ok(last)
}

/// Returns what a side finds, with the values of the groups 1 to `count`: with `OneSearch` by a search from the text's start,
/// and otherwise as a match from position `from` on.
fn sight_by(
    alloc: Global,
    side: &Side,
    words: &Words,
    how: How,
    count: u32,
    text: &[u32],
    advance: bool,
    from: usize,
) -> Result<Option<Sight>, StepError>
    requires side { IsSide [] side.now }
    requires all { (c : ℕ) → has words.now.all c ≡ is_word false c }
    requires ascii { (c : ℕ) → has words.now.ascii c ≡ is_word true c }
    requires from { from ≤ length text.now }
    ensures sight { IfOk result (λ s. s ≡ sight_asked how count side.now text.now advance from) }
    ensures outside { IfErr result (λ e. e ≡ error.Outside → 2 ^ 32 ≤ length text.now) }
{
    match how {
        How::Fullmatch | How::Match => sight_at(alloc, side, words, count, text, advance, from),
        How::OneSearch => sight_sought(alloc, side, words, count, text),
    }
}

/// Returns the side of a pattern that is run alone, without codes of letters.
fn side_alone(alloc: Global, pattern: &MarkedPattern, how: How) -> Result<Side, ListError>
    ensures side { IfOk result (IsSide []) }
    ensures matcher { IfOk result (λ side. matcher_of side ≡ matcher_in how pattern.now) }
    ensures long { IfErr result (λ e. e ≡ list.TooLong → ¬ IsShort (marked_of pattern.now.tree) 0) }
{
    let tree = pattern.tree.copy(alloc)?;
    Side::new(alloc, tree, ending_of(how, pattern.trailing), &[])
}

/// Returns what a pattern finds on a text, with the values of its groups, or `None`. With `OneSearch` it is the first match of
/// a search from the text's start, whatever `advance` and `from` are. Otherwise it is the match that begins at position
/// `from`, and `advance` says that only matches that aren't empty count.
///
/// # Errors
/// [`SpansError::Moves`] only if too many items are tried in the tree, [`SpansError::Text`] only if the text has 2^32 codes or
/// more, [`SpansError::OutOfMemory`] if there was no memory.
pub fn found_by(
    alloc: Global,
    pattern: &MarkedPattern,
    how: How,
    text: &[u32],
    advance: bool,
    from: usize,
) -> Result<Option<Sight>, SpansError>
    requires { from ≤ length text.now }
    ensures found { IfOk result (λ s. s ≡ option_map (sight_of pattern.now.groups) (found_in how pattern.now text.now advance from)) }
    ensures causes { IfErr result (IsCauseAlone pattern.now text.now) }
{
    let side = side_alone(alloc, pattern, how)?;
    let words = Words::new(alloc)?;
    let count = pattern.groups;
    let sight = sight_by(alloc, &side, &words, how, count, text, advance, from);
    match sight {
        Ok(sight) => Ok(sight),
        Err(StepError::Outside) => Err(SpansError::Text),
        Err(StepError::OutOfMemory) => Err(SpansError::OutOfMemory),
    }
}
