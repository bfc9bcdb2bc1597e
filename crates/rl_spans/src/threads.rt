//! Lists of threads, and what they try at a place. `before` and `next` are what guards see of the codes on both sides of the
//! place.

ghost use Rattle.std.specs.Prelude.{◌≡◌, ◌≤◌, true, ◌∷◌, ◌++◌, length, OnOk, map, slice_index_or, IfOk};
ghost use Rattle.rl_ranges.specs.Codes.{has};
ghost use Rattle.rl_syntax.specs.Guards.{sees};
ghost use Rattle.rl_marks.specs.internal.Caps.{span_named};
ghost use Rattle.rl_marks.specs.internal.Threads.{stopped, distinct, named};
ghost use Rattle.rl_spans.specs.internal.Among.{is_among};
ghost use Rattle.rl_spans.specs.internal.Shown.{met, all_met, shown_tries, shown_spread, taken_by};
ghost use Rattle.rl_syntax.specs.declared.limits.TheConstants.{MOST_NODES};

use crate::caps::{after_acts, copy_of};
use crate::shown::Shown;
use rl_lists::{Items, OutOfMemory};
use rl_marks::threads::{Act, Caps, MarkItem, Thread, Try};
use rl_syntax::{CodeSet, Guard};
use std::alloc::Global;

/// Returns whether a lookaround of the set holds where it looks at this code. At an end of the text there is no code, and no
/// set holds it.
#[tactic(auto, unfolding(rl_syntax::specs::Guards::is_in, rl_syntax::specs::Guards::sees))]
fn is_looked_at(set: &CodeSet, negated: bool, code: Option<u32>) -> bool
    ensures { result ≡ sees negated (has set.now) code }
{
    match code {
        None => negated,
        Some(code) if negated => !set.contains(code),
        Some(code) => set.contains(code),
    }
}

/// Returns whether the guard holds at the place.
pub(crate) fn is_met(guard: &Guard, before: Shown, next: Shown) -> bool
    ensures { result ≡ met guard.now before next }
{
    match guard {
        Guard::Start => before.code.is_none(),
        Guard::LineStart => before.code.is_none() || before.line_feed,
        Guard::LineEnd => next.code.is_none() || next.line_feed,
        Guard::TextEnd => next.code.is_none(),
        Guard::Word(true) => before.ascii_word != next.ascii_word,
        Guard::Word(false) => before.word != next.word,
        Guard::NotWord(true) => before.ascii_word == next.ascii_word,
        Guard::NotWord(false) => before.word == next.word,
        Guard::Look {
            behind,
            negated,
            set,
        } => {
            let seen = if *behind { before.code } else { next.code };
            is_looked_at(set, *negated, seen)
        }
    }
}

/// Returns whether each guard among the acts holds at the place.
pub(crate) fn are_allowed(acts: &[Act], before: Shown, next: Shown) -> bool
    ensures { result ≡ all_met acts.now before next }
{
    for act in acts {
        if let Act::Check(guard) = act {
            if !is_met(guard, before, next) {
                return false;
            }
        }
    }
    true
}

/// Returns a copy of a thread.
pub(crate) fn copy_of_thread(alloc: Global, thread: &Thread) -> Result<Thread, OutOfMemory>
    ensures { IfOk result (λ t. t ≡ thread.now) }
{
    let caps = copy_of(alloc, &thread.caps)?;
    Ok(Thread {
        state: thread.state,
        caps,
    })
}

/// Returns what is known of the groups at the first end among the tries, or `None` if there is none.
pub(crate) fn first_stop(alloc: Global, list: &[Try]) -> Result<Option<Caps>, OutOfMemory>
    ensures { IfOk result (λ c. c ≡ stopped true list.now) }
{
    for item in list {
        if let Try::Stops(caps) = item {
            let known = copy_of(alloc, caps)?;
            return Ok(Some(known));
        }
    }
    Ok(None)
}

/// Returns whether one of the threads is in the state.
fn has_state(threads: &[Thread], state: u32) -> bool
    ensures { result ≡ is_among state threads.now }
{
    for thread in threads {
        if thread.state == state {
            return true;
        }
    }
    false
}

/// Returns the first thread in each state, in order.
pub(crate) fn distinct_of(alloc: Global, threads: &[Thread]) -> Result<Items<Thread>, OutOfMemory>
    ensures { IfOk result (λ l. l ≡ distinct threads.now) }
{
    let mut list = Items::new(alloc);
    for thread in threads {
        if !has_state(list.as_slice(), thread.state) {
            let copy = copy_of_thread(alloc, thread)?;
            list.push(copy)?;
        }
    }
    Ok(list)
}

/// Appends what a thread tries at the place: each of the items whose guards hold, in order, with what is known of the groups
/// after its acts.
pub(crate) fn add_tries(
    list: &mut Items<Try>,
    alloc: Global,
    items: &[MarkItem],
    before: Shown,
    next: Shown,
    place: u32,
    caps: &Caps,
) -> Result<(), OutOfMemory>
    ensures { OnOk result (list.new ≡ list.old ++ shown_tries before next place items.now caps.now) }
{
    for item in items {
        match item {
            MarkItem::Test(acts, number) => {
                if are_allowed(acts.as_slice(), before, next) {
                    let known = after_acts(alloc, acts.as_slice(), place, caps)?;
                    list.push(Try::Goes(*number, known))?;
                }
            }
            MarkItem::Pass(acts) => {
                if are_allowed(acts.as_slice(), before, next) {
                    let known = after_acts(alloc, acts.as_slice(), place, caps)?;
                    list.push(Try::Stops(known))?;
                }
            }
        }
    }
    Ok(())
}

/// Returns what the threads try at the place, one thread after another. `rows` has the items of each state; a state past it
/// has none.
pub(crate) fn spread_of(
    alloc: Global,
    rows: &[Items<MarkItem>],
    before: Shown,
    next: Shown,
    place: u32,
    threads: &[Thread],
) -> Result<Items<Try>, OutOfMemory>
    ensures { IfOk result (λ l. l ≡ shown_spread rows.now before next place threads.now) }
{
    let mut list = Items::new(alloc);
    for thread in threads {
        if let Some(items) = rows.get(thread.state as usize) {
            add_tries(
                &mut list,
                alloc,
                items.as_slice(),
                before,
                next,
                place,
                &thread.caps,
            )?;
        }
    }
    Ok(list)
}

/// Returns the threads behind a letter, one for each try whose test takes it, in order. `takes` says which places take the
/// letter. If `accepts` says that a match may end here, the tries behind the first end are dropped.
pub(crate) fn taken_of(
    alloc: Global,
    takes: &[bool],
    accepts: bool,
    tries: &[Try],
) -> Result<Items<Thread>, OutOfMemory>
    requires { length takes.now ≤ MOST_NODES }
    ensures { IfOk result (λ l. l ≡ taken_by takes.now accepts tries.now) }
{
    let mut list = Items::new(alloc);
    for item in tries {
        match item {
            Try::Goes(place, caps) => {
                let taken = match takes.get(*place as usize) {
                    Some(takes_it) => *takes_it,
                    None => false,
                };
                if taken {
                    let known = copy_of(alloc, caps)?;
                    list.push(Thread {
                        state: *place + 1,
                        caps: known,
                    })?;
                }
            }
            Try::Stops(_) => {
                if accepts {
                    return Ok(list);
                }
            }
        }
    }
    Ok(list)
}
