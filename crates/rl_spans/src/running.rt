//! What one side finds on a text, by stepping the list of its threads from code to code. Positions are counted in codes from
//! 0.

ghost use Rattle.std.specs.Prelude.{◌≡◌, ◌<◌, ◌≤◌, ◌∷◌, [], ◌^◌, ℕ, All, IfErr, IfOk, None, Some, length, slice_get, true, false};
ghost use Rattle.rl_ranges.specs.Codes.{has};
ghost use Rattle.rl_syntax.specs.Guards.{is_word, code_before as before_place};
ghost use Rattle.rl_syntax.specs.declared.limits.TheConstants.{MOST_NODES};
ghost use Rattle.rl_marks.specs.Marked.{marked_of};
ghost use Rattle.rl_marks.specs.Hits.{may_end, is_hit_from};
ghost use Rattle.rl_marks.specs.internal.Threads.{spread, moved, halted};
ghost use Rattle.rl_marks.specs.declared.threads.Thread.{Thread};
ghost use Rattle.rl_spans.specs.declared.stepping.StepError.TheVariants as error;
ghost use Rattle.rl_spans.specs.internal.Hits.{ended_of, later_of, found_at};
ghost use Rattle.rl_spans.specs.internal.Shown.{IsShown};
ghost use Rattle.rl_spans.specs.internal.Sides.{IsSide};

use crate::checking::begin_threads;
use crate::shown::{Shown, Words};
use crate::side::{Side, tests_of};
use crate::stepping::{Step, StepError, stop_of};
use crate::threads::{distinct_of, spread_of, taken_of};
use rl_lists::{Items, OutOfMemory};
use rl_marks::MatchEnding;
use rl_marks::threads::{Caps, Thread, Try};
use std::alloc::Global;

/// The end of a match that a side finds on a text.
#[derive(Drop)]
pub(crate) struct Hit {
    /// The position at which the match ends.
    pub end: u32,
    /// What is known of the groups there.
    pub caps: Caps,
}

/// Returns whether a match with this ending may end at a position of the text.
#[tactic(auto, unfolding(rl_syntax::specs::Guards::is_in))]
fn ends_at(ending: MatchEnding, text: &[u32], place: usize) -> bool
    requires { place ≤ length text.now }
    ensures { result ≡ may_end ending text.now place }
{
    match ending {
        MatchEnding::AtEnd => place == text.len(),
        MatchEnding::AtLastLine => match text.get(place) {
            None => true,
            Some(code) => *code == 10 && place + 1 == text.len(),
        },
        MatchEnding::Anywhere => true,
    }
}

/// Returns whether a match from position `start` may end at position `place`. `advance` says that it may not be empty.
fn is_hit(ending: MatchEnding, advance: bool, text: &[u32], start: usize, place: usize) -> bool
    requires { place ≤ length text.now }
    ensures { result ≡ is_hit_from ending advance text.now start place }
{
    ends_at(ending, text, place) && (!advance || start < place)
}

/// Returns the code before a position of the text, or `None` at its start.
fn code_before(text: &[u32], place: usize) -> Option<u32>
    requires { place ≤ length text.now }
    ensures { result ≡ before_place text.now place }
{
    if place == 0 {
        None
    } else {
        Some(text[place - 1])
    }
}

/// Returns what the threads of a side try at a position between the codes `before` and `next`, in order.
fn tries_at_place(
    alloc: Global,
    side: &Side,
    codes: &[u32],
    before: Shown,
    next: Shown,
    place: u32,
    threads: &[Thread],
) -> Result<Items<Try>, OutOfMemory>
    requires side { IsSide codes.now side.now }
    requires before { IsShown before }
    requires next { IsShown next }
    requires inside { All (λ (t : Thread). t.state < length side.now.rows) threads.now }
    ensures { IfOk result (λ l. l ≡ spread (marked_of side.now.tree) before.code next.code place threads.now) }
{
    spread_of(alloc, side.rows.as_slice(), before, next, place, threads)
}

/// Returns what a side's threads come to on the code at a position. `accepts` says whether a match may end before the code.
fn step_at(
    alloc: Global,
    side: &Side,
    codes: &[u32],
    accepts: bool,
    before: Shown,
    next: Shown,
    code: u32,
    place: u32,
    threads: &[Thread],
) -> Result<Step, OutOfMemory>
    requires side { IsSide codes.now side.now }
    requires before { IsShown before }
    requires next { IsShown next }
    requires code { next.code ≡ Some code }
    requires inside { All (λ (t : Thread). t.state < length side.now.rows) threads.now }
    ensures stop { IfOk result (λ r. r.stop ≡ halted (marked_of side.now.tree) accepts before.code (Some code) place threads.now) }
    ensures threads { IfOk result (λ r. r.threads ≡ moved (marked_of side.now.tree) accepts before.code code place threads.now) }
    ensures inside { IfOk result (λ r. All (λ (t : Thread). t.state < length side.now.rows) r.threads) }
{
    let tests = tests_of(alloc, &side.tree, code)?;
    let tries = tries_at_place(alloc, side, codes, before, next, place, threads)?;
    let stop = stop_of(alloc, accepts, tries.as_slice())?;
    let taken = taken_of(alloc, tests.as_slice(), accepts, tries.as_slice())?;
    let threads = distinct_of(alloc, taken.as_slice())?;
    Ok(Step { stop, threads })
}

/// Returns the hit at this position if the threads stop there, and otherwise what was found before.
fn later(place: u32, stop: Option<Caps>, found: Option<Hit>) -> Option<Hit>
    ensures { ended_of result ≡ later_of place stop (ended_of found) }
{
    match stop {
        None => found,
        Some(caps) => {
            drop(found);
            Some(Hit { end: place, caps })
        }
    }
}

/// Returns the position as a `u32`, or [`StepError::Outside`] if it is 2^32 or more.
pub(crate) fn place_of(index: usize) -> Result<u32, StepError>
    ensures place { IfOk result (λ p. p ≡ index) }
    ensures great { IfErr result (λ _. 2 ^ 32 ≤ index) }
{
    match u32::try_from(index) {
        Ok(place) => Ok(place),
        Err(_) => Err(StepError::Outside),
    }
}

/// Returns the code at a position of the text.
fn code_at(text: &[u32], index: usize) -> u32
    requires { index < length text.now }
    ensures { slice_get text.now index ≡ Some result }
{
    text[index]
}

/// Returns the end of the match that a side finds on the text from position `start` on, or `None`. `advance` says that only
/// matches that aren't empty count.
///
/// # Errors
/// [`StepError::Outside`] only if the text has 2^32 codes or more, [`StepError::OutOfMemory`] if there was no memory.
pub(crate) fn found_from(
    alloc: Global,
    side: &Side,
    codes: &[u32],
    words: &Words,
    text: &[u32],
    advance: bool,
    start: usize,
) -> Result<Option<Hit>, StepError>
    requires side { IsSide codes.now side.now }
    requires all { (c : ℕ) → has words.now.all c ≡ is_word false c }
    requires ascii { (c : ℕ) → has words.now.ascii c ≡ is_word true c }
    requires start { start ≤ length text.now }
    ensures found { IfOk result (λ hit. ended_of hit ≡ found_at side.now text.now advance start) }
    ensures short { IfOk result (λ _hit. length text.now < 2 ^ 32) }
    ensures outside { IfErr result (λ e. e ≡ error.Outside → 2 ^ 32 ≤ length text.now) }
{
    let size = text.len();
    let mut threads = begin_threads(alloc)?;
    let mut found = None;
    for index in start..size {
        let place = place_of(index)?;
        let code = code_at(text, index);
        let accepts = is_hit(side.ending, advance, text, start, index);
        let previous = code_before(text, index);
        let before = words.shown(previous);
        let next = words.shown(Some(code));
        let step = step_at(
            alloc,
            side,
            codes,
            accepts,
            before,
            next,
            code,
            place,
            threads.as_slice(),
        )?;
        found = later(place, step.stop, found);
        threads = step.threads;
    }
    let last = place_of(size)?;
    let stops = is_hit(side.ending, advance, text, start, size);
    let final_code = code_before(text, size);
    let behind = words.shown(final_code);
    let end = words.shown(None);
    let tries = tries_at_place(alloc, side, codes, behind, end, last, threads.as_slice())?;
    let stop = stop_of(alloc, stops, tries.as_slice())?;
    Ok(later(last, stop, found))
}
