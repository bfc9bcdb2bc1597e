//! Lists of words of 64 bits. Eight words at a time are processed at once, in the lanes of a vector, and the remaining
//! ones one by one.
ghost use Rattle.std.specs.Prelude.{◌≡◌, ◌≢◌, ℕ, ◌+◌, ◌*◌, ◌^◌, ◌<◌, ◌≤◌, length, map, slice_index, bit_and, bit_or, count_ones, MatchBool};
ghost use Rattle.std.specs.Int.{bit_at};
ghost use Rattle.std.specs.Simd.Lanes.{sum_l, chunk};
ghost use Rattle.rl_lanes.specs.internal.Words.{JoinsAt, JoinsEach, SomePair, NoPair, SomePairAt, NoPairAt, SomeWord, NoWord, IsUnionOf, and_not};

use crate::bits::{lowest, without_lowest};
use std::simd::prelude::*;

/// The number of words that are processed at once.
const LANES: usize = 8;

/// Returns whether any of the eight words isn't 0.
#[inline(always)]
fn any_lane(lanes: u64x8) -> bool
    ensures { MatchBool result (SomeWord lanes) (NoWord lanes) }
{
    lanes.reduce_or() != 0
}

/// Returns whether some bit is set in both lists, within the eight words from the index `at` on.
#[inline(always)]
fn any_both_lanes(a: &[u64], b: &[u64], at: usize) -> bool
    requires a_in { at + 8 ≤ length a.now }
    requires b_in { at + 8 ≤ length b.now }
    ensures { MatchBool result (SomePairAt bit_and at a.now b.now) (NoPairAt bit_and at a.now b.now) }
{
    any_lane(u64x8::from_slice(&a[at..]) & u64x8::from_slice(&b[at..]))
}

/// Returns whether some bit is set in `a` and not in `b`, within the eight words from the index `at` on.
#[inline(always)]
fn any_outside_lanes(a: &[u64], b: &[u64], at: usize) -> bool
    requires a_in { at + 8 ≤ length a.now }
    requires b_in { at + 8 ≤ length b.now }
    ensures { MatchBool result (SomePairAt and_not at a.now b.now) (NoPairAt and_not at a.now b.now) }
{
    any_lane(u64x8::from_slice(&a[at..]) & !u64x8::from_slice(&b[at..]))
}

/// Sets the bits in `into` that are set in `other`, within the eight words from the index `at` on.
#[inline(always)]
fn or_lanes(into: &mut [u64], other: &[u64], at: usize)
    requires into_in { at + 8 ≤ length into.old }
    requires other_in { at + 8 ≤ length other.now }
    ensures { JoinsAt bit_or at into.old other.now into.new }
{
    let joined = u64x8::from_slice(&into[at..]) | u64x8::from_slice(&other[at..]);
    joined.copy_to_slice(&mut into[at..]);
}

/// Clears the bits in `from` that are set in `other`, within the eight words from the index `at` on.
#[inline(always)]
fn subtract_lanes(from: &mut [u64], other: &[u64], at: usize)
    requires from_in { at + 8 ≤ length from.old }
    requires other_in { at + 8 ≤ length other.now }
    ensures { JoinsAt and_not at from.old other.now from.new }
{
    let left = u64x8::from_slice(&from[at..]) & !u64x8::from_slice(&other[at..]);
    left.copy_to_slice(&mut from[at..]);
}

/// Returns the number of bits that are set in the eight words from the index `at` on.
#[inline(always)]
fn count_lanes(words: &[u64], at: usize) -> u64
    requires { at + 8 ≤ length words.now }
    ensures { result ≡ sum_l (map count_ones (chunk at 8 words.now)) }
{
    u64x8::from_slice(&words[at..]).count_ones().reduce_sum()
}

/// Sets the bits in `into` that are set in `other`. Both lists have the same length.
pub(crate) fn or_words(into: &mut [u64], other: &[u64])
    requires { length into.old ≡ length other.now }
    ensures { JoinsEach bit_or into.old other.now into.new }
{
    let len = into.len();
    let mut at = 0;
    'lanes: while len - at >= LANES {
        or_lanes(into, other, at);
        at += LANES;
    }
    'rest: while at < len {
        into[at] |= other[at];
        at += 1;
    }
}

/// Clears the bits in `from` that are set in `other`. Both lists have the same length.
pub(crate) fn subtract_words(from: &mut [u64], other: &[u64])
    requires { length from.old ≡ length other.now }
    ensures { JoinsEach and_not from.old other.now from.new }
{
    let len = from.len();
    let mut at = 0;
    'lanes: while len - at >= LANES {
        subtract_lanes(from, other, at);
        at += LANES;
    }
    'rest: while at < len {
        from[at] &= !other[at];
        at += 1;
    }
}

/// Returns whether some bit is set in both lists, which have the same length.
pub(crate) fn any_both(a: &[u64], b: &[u64]) -> bool
    requires { length a.now ≡ length b.now }
    ensures { MatchBool result (SomePair bit_and a.now b.now) (NoPair bit_and a.now b.now) }
{
    let len = a.len();
    let mut at = 0;
    'lanes: while len - at >= LANES {
        if any_both_lanes(a, b, at) {
            return true;
        }
        at += LANES;
    }
    'rest: while at < len {
        if a[at] & b[at] != 0 {
            return true;
        }
        at += 1;
    }
    false
}

/// Returns whether some bit is set in `a` and not in `b`. Both lists have the same length.
pub(crate) fn any_outside(a: &[u64], b: &[u64]) -> bool
    requires { length a.now ≡ length b.now }
    ensures { MatchBool result (SomePair and_not a.now b.now) (NoPair and_not a.now b.now) }
{
    let len = a.len();
    let mut at = 0;
    'lanes: while len - at >= LANES {
        if any_outside_lanes(a, b, at) {
            return true;
        }
        at += LANES;
    }
    'rest: while at < len {
        if a[at] & !b[at] != 0 {
            return true;
        }
        at += 1;
    }
    false
}

/// Returns the number of bits that are set, summed over all words. It must be less than 2^64.
pub(crate) fn count_words(words: &[u64]) -> usize
    requires { sum_l (map count_ones words.now) < 2 ^ 64 }
    ensures { result ≡ sum_l (map count_ones words.now) }
{
    let len = words.len();
    let mut at = 0;
    let mut count = 0;
    'lanes: while len - at >= LANES {
        count += count_lanes(words, at) as usize;
        at += LANES;
    }
    'rest: while at < len {
        count += words[at].count_ones() as usize;
        at += 1;
    }
    count
}

/// Returns the bitwise union of the words whose indices are set as bits in `chosen`: the bit `i` chooses the word with
/// the index `i`. There must be a word for each set bit. If `chosen` is 0, the result is 0.
pub(crate) fn union_of(words: &[u64], chosen: u64) -> u64
    requires { (i : ℕ) → i < 64 → bit_at chosen i ≡ 1 → i < length words.now }
    ensures { IsUnionOf words.now chosen result }
{
    let mut left = chosen;
    let mut union = 0;
    while left != 0 {
        union |= words[lowest(left)];
        left = without_lowest(left);
    }
    union
}
