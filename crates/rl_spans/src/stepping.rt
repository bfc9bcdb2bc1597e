//! The step of one side on a code. In its threads places have names; a step gives its own place the name 0, and each earlier
//! place a name one greater than before.

ghost use Rattle.std.specs.Prelude.{◌≡◌, ◌<◌, ◌≤◌, ◌∷◌, ◌++◌, ℕ, suc, All, IsTrue, IfOk, OnOk, Option, None, Some, map, length};
ghost use Rattle.rl_syntax.specs.Tree.{sets_in};
ghost use Rattle.rl_syntax.specs.declared.limits.TheConstants.{MOST_NODES};
ghost use Rattle.rl_marks.specs.Marked.{marked_of, plain};
ghost use Rattle.rl_marks.specs.internal.MarkItems.{places};
ghost use Rattle.rl_marks.specs.internal.Caps.{span_named};
ghost use Rattle.rl_marks.specs.internal.Threads.{moved, halted, named, spread, stopped, taken, thread_named};
ghost use Rattle.rl_spans.specs.internal.Shown.{IsShown, shown_spread, taken_by};
ghost use Rattle.rl_spans.specs.internal.Sides.{IsSide, HasItems, tests_at};

use crate::shown::Shown;
use crate::side::Side;
use crate::threads::{distinct_of, first_stop, spread_of, taken_of};
use rl_lists::{Items, OutOfMemory};
use rl_marks::GroupSpan;
use rl_marks::threads::{Caps, Thread, Try};
use std::alloc::Global;

/// Why there is no step.
#[derive(Clone, Copy)]
pub(crate) enum StepError {
    /// A thread is in no state of the side, or a name or a position doesn't fit into 32 bits.
    Outside,
    /// Out of memory.
    OutOfMemory,
}

impl From<OutOfMemory> for StepError {
    ghost use Rattle.std.specs.Prelude.{◌≡◌};
    ghost use Rattle.rl_spans.specs.declared.stepping.StepError.TheVariants as error;

    ghost from_gives = { λ _ e. e ≡ error.OutOfMemory };

    fn from(_: OutOfMemory) -> Self {
        StepError::OutOfMemory
    }
}

/// Returns the name one greater, or [`StepError::Outside`] for the greatest `u32`.
fn next_name(name: u32) -> Result<u32, StepError>
    ensures { IfOk result (λ n. n ≡ suc name) }
{
    match name.checked_add(1) {
        Some(next) => Ok(next),
        None => Err(StepError::Outside),
    }
}

/// Returns the places with names one greater.
fn shifted_places(alloc: Global, places: &[u32]) -> Result<Items<u32>, StepError>
    ensures { IfOk result (λ l. l ≡ map suc places.now) }
{
    let mut list = Items::new(alloc);
    for place in places {
        let next = next_name(*place)?;
        list.push(next)?;
    }
    Ok(list)
}

/// Returns the span with names of its two places one greater.
fn shifted_span(span: GroupSpan) -> Result<GroupSpan, StepError>
    ensures { IfOk result (λ s. s ≡ span_named suc span) }
{
    let from = next_name(span.from)?;
    let upto = next_name(span.upto)?;
    Ok(GroupSpan {
        number: span.number,
        from,
        upto,
    })
}

/// Returns the spans with names of places one greater.
fn shifted_spans(alloc: Global, spans: &[GroupSpan]) -> Result<Items<GroupSpan>, StepError>
    ensures { IfOk result (λ l. l ≡ map (span_named suc) spans.now) }
{
    let mut list = Items::new(alloc);
    for span in spans {
        let next = shifted_span(*span)?;
        list.push(next)?;
    }
    Ok(list)
}

/// Returns the thread with names of places one greater, or [`StepError::Outside`] if its state isn't below `states`.
fn shifted_thread(alloc: Global, thread: &Thread, states: usize) -> Result<Thread, StepError>
    ensures named { IfOk result (λ t. t ≡ thread_named suc thread.now) }
    ensures inside { OnOk result (thread.now.state < states) }
{
    if thread.state as usize >= states {
        return Err(StepError::Outside);
    }
    let opens = shifted_places(alloc, thread.caps.opens.as_slice())?;
    let held = shifted_spans(alloc, thread.caps.held.as_slice())?;
    Ok(Thread {
        state: thread.state,
        caps: Caps {
            opens,
            held,
            last: thread.caps.last,
        },
    })
}

/// Returns the threads with names of places one greater, or [`StepError::Outside`] if the state of one isn't below `states`.
fn shifted(alloc: Global, threads: &[Thread], states: usize) -> Result<Items<Thread>, StepError>
    ensures named { IfOk result (λ l. l ≡ named suc threads.now) }
    ensures inside { IfOk result (All (λ (t : Thread). t.state < states)) }
{
    let mut list = Items::new(alloc);
    for thread in threads {
        let next = shifted_thread(alloc, thread, states)?;
        list.push(next)?;
    }
    Ok(list)
}

/// Returns what the threads of a side try at the place between the codes `before` and `next`. The place gets the name 0, and
/// the names in the threads become one greater.
fn tries_at(
    alloc: Global,
    side: &Side,
    codes: &[u32],
    before: Shown,
    next: Shown,
    threads: &[Thread],
) -> Result<Items<Try>, StepError>
    requires side { IsSide codes.now side.now }
    requires before { IsShown before }
    requires next { IsShown next }
    ensures { IfOk result (λ l. l ≡ spread (marked_of side.now.tree) before.code next.code 0 (named suc threads.now)) }
{
    let states = side.rows.len();
    let moved = shifted(alloc, threads, states)?;
    let tries = spread_of(
        alloc,
        side.rows.as_slice(),
        before,
        next,
        0,
        moved.as_slice(),
    )?;
    Ok(tries)
}

/// What the threads of a side come to on a code.
#[derive(Drop)]
pub(crate) struct Step {
    /// What is known of the groups where the threads stop before the code; `None` if they don't, or if no match may end there.
    pub stop: Option<Caps>,
    /// The threads behind the code.
    pub threads: Items<Thread>,
}

/// Returns what is known of the groups at the first end among the tries; `None` if there is none, or if `accepts` says that no
/// match may end here.
pub(crate) fn stop_of(
    alloc: Global,
    accepts: bool,
    tries: &[Try],
) -> Result<Option<Caps>, OutOfMemory>
    ensures { IfOk result (λ o. o ≡ stopped accepts tries.now) }
{
    if accepts {
        first_stop(alloc, tries)
    } else {
        Ok(None)
    }
}

/// Returns what is known of the groups where the threads of a side stop at the end of the text; `None` if they don't, or if
/// `accepts` says that no match may end here.
pub(crate) fn stop_at_end(
    alloc: Global,
    side: &Side,
    codes: &[u32],
    accepts: bool,
    before: Shown,
    end: Shown,
    threads: &[Thread],
) -> Result<Option<Caps>, StepError>
    requires side { IsSide codes.now side.now }
    requires before { IsShown before }
    requires end { IsShown end }
    requires none { end.code ≡ None }
    ensures { IfOk result (λ o. o ≡ halted (marked_of side.now.tree) accepts before.code None 0 (named suc threads.now)) }
{
    let tries = tries_at(alloc, side, codes, before, end, threads)?;
    let stop = stop_of(alloc, accepts, tries.as_slice())?;
    Ok(stop)
}

/// Returns what the threads of a side come to on a code. `tests` says which places take the code, and `accepts` whether a
/// match may end before it.
pub(crate) fn step_on(
    alloc: Global,
    side: &Side,
    codes: &[u32],
    tests: &[bool],
    accepts: bool,
    before: Shown,
    code: u32,
    next: Shown,
    threads: &[Thread],
) -> Result<Step, StepError>
    requires side { IsSide codes.now side.now }
    requires tests { tests.now ≡ tests_at (marked_of side.now.tree) code }
    requires before { IsShown before }
    requires next { IsShown next }
    requires code { next.code ≡ Some code }
    ensures stop { IfOk result (λ r. r.stop ≡ halted (marked_of side.now.tree) accepts before.code (Some code) 0 (named suc threads.now)) }
    ensures threads { IfOk result (λ r. r.threads ≡ moved (marked_of side.now.tree) accepts before.code code 0 (named suc threads.now)) }
{
    let tries = tries_at(alloc, side, codes, before, next, threads)?;
    let stop = stop_of(alloc, accepts, tries.as_slice())?;
    let taken = taken_of(alloc, tests, accepts, tries.as_slice())?;
    let threads = distinct_of(alloc, taken.as_slice())?;
    Ok(Step { stop, threads })
}
