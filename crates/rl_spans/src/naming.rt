//! Whether lists of threads are the same up to the names of places. In all of these functions the place with the name `n` on
//! the first side is the one with the name `names[n]` on the wanted side.

ghost use Rattle.std.specs.Prelude.{◌≡◌, IsTrue, map, slice_index_or};
ghost use Rattle.rl_marks.specs.internal.Caps.{span_named, caps_named};
ghost use Rattle.rl_marks.specs.internal.Threads.{thread_named, named};
ghost use Rattle.rl_spans.specs.internal.Names.{place_named};

use rl_marks::GroupSpan;
use rl_marks::threads::{Caps, Thread};

/// Returns `names[name]`, or 0 if the list is too short.
fn name_of(names: &[u32], name: u32) -> u32
    ensures { result ≡ place_named names.now name }
{
    match names.get(name as usize) {
        Some(place) => *place,
        None => 0,
    }
}

/// Returns whether the places are the wanted ones, by their other names and in the same order.
fn are_places_named(names: &[u32], places: &[u32], wanted: &[u32]) -> bool
    ensures { IsTrue result → map (place_named names.now) places.now ≡ wanted.now }
{
    if places.len() != wanted.len() {
        return false;
    }
    for (index, place) in places.iter().enumerate() {
        if name_of(names, *place) != wanted[index] {
            return false;
        }
    }
    true
}

/// Returns whether the span is the wanted one, by other names of its two places.
fn is_span_named(names: &[u32], span: GroupSpan, wanted: GroupSpan) -> bool
    ensures { IsTrue result → span_named (place_named names.now) span ≡ wanted }
{
    span.number == wanted.number
        && name_of(names, span.from) == wanted.from
        && name_of(names, span.upto) == wanted.upto
}

/// Returns whether the spans are the wanted ones in the same order, by other names of their places.
fn are_spans_named(names: &[u32], spans: &[GroupSpan], wanted: &[GroupSpan]) -> bool
    ensures { IsTrue result → map (span_named (place_named names.now)) spans.now ≡ wanted.now }
{
    if spans.len() != wanted.len() {
        return false;
    }
    for (index, span) in spans.iter().enumerate() {
        if !is_span_named(names, *span, wanted[index]) {
            return false;
        }
    }
    true
}

/// Returns whether what is known of groups is what is wanted, by other names of the places.
fn are_caps_named(names: &[u32], caps: &Caps, wanted: &Caps) -> bool
    ensures { IsTrue result → caps_named (place_named names.now) caps.now ≡ wanted.now }
{
    caps.last == wanted.last
        && are_places_named(names, caps.opens.as_slice(), wanted.opens.as_slice())
        && are_spans_named(names, caps.held.as_slice(), wanted.held.as_slice())
}

/// Returns whether the thread is the wanted one, by other names of the places.
fn is_thread_named(names: &[u32], thread: &Thread, wanted: &Thread) -> bool
    ensures { IsTrue result → thread_named (place_named names.now) thread.now ≡ wanted.now }
{
    thread.state == wanted.state && are_caps_named(names, &thread.caps, &wanted.caps)
}

/// Returns whether the threads are the wanted ones in the same order, by other names of the places.
pub(crate) fn are_threads_named(names: &[u32], threads: &[Thread], wanted: &[Thread]) -> bool
    ensures { IsTrue result → named (place_named names.now) threads.now ≡ wanted.now }
{
    if threads.len() != wanted.len() {
        return false;
    }
    for (index, thread) in threads.iter().enumerate() {
        if !is_thread_named(names, thread, &wanted[index]) {
            return false;
        }
    }
    true
}
