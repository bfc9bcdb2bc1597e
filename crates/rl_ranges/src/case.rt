//! The codes that differ only in case from a code of a set.

ghost use Rattle.std.specs.Prelude.{◌≡◌, ℕ, ◌<◌, ◌≤◌, ◌||◌, OnOk, IfOk, length};
ghost use Rattle.std.specs.List.Sorted.{IsNonDecreasing};
ghost use Rattle.rl_ranges.specs.Codes.{has, Above};
ghost use Rattle.rl_ranges.specs.Building.{range_at};
ghost use Rattle.rl_ranges.specs.internal.Images.{is_among, in_image, in_range_image, has_kin, KeysRise, IsLowerBound};

use crate::ranges::append;
use crate::tables::{ASCII_PAIRS, I_PAIRS};
use rl_lists::OutOfMemory;
use std::alloc::Global;
use unicode::case::fold_pairs;

/// Returns the first index whose pair has a first code of at least `key`. Uses binary search.
fn lower_bound(pairs: &[(u32, u32)], key: u32) -> usize
    requires { KeysRise pairs.now }
    ensures { IsLowerBound pairs.now key result }
{
    let mut low = 0;
    let mut high = pairs.len();
    while low < high {
        let middle = low + (high - low) / 2;
        if pairs[middle].0 < key {
            low = middle + 1;
        } else {
            high = middle;
        }
    }
    low
}

/// Adds the second code of each pair whose first code lies between `first` and `last`, both included.
///
/// # Errors
/// [`OutOfMemory`] if there is no memory for another code.
fn add_range_image(
    codes: &mut Vec<u32>,
    pairs: &[(u32, u32)],
    first: u32,
    last: u32,
) -> Result<(), OutOfMemory>
    requires rising { KeysRise pairs.now }
    requires small { last < 4294967295 }
    ensures { OnOk result ((c : ℕ) → is_among codes.new.items c
        ≡ (is_among codes.old.items c || in_range_image pairs.now first last c)) }
{
    let end = lower_bound(pairs, last + 1);
    for place in lower_bound(pairs, first)..end {
        codes.push(pairs[place].1)?;
    }
    Ok(())
}

/// Adds the second code of each pair whose first code is in the ranges.
///
/// # Errors
/// [`OutOfMemory`] if there is no memory for another code.
fn add_image(
    codes: &mut Vec<u32>,
    pairs: &[(u32, u32)],
    ranges: &[(u32, u32)],
) -> Result<(), OutOfMemory>
    requires rising { KeysRise pairs.now }
    requires small { (k : ℕ) → k < length ranges.now → (range_at ranges.now k).1 < 4294967295 }
    ensures { OnOk result ((c : ℕ) → is_among codes.new.items c
        ≡ (is_among codes.old.items c || in_image pairs.now ranges.now c)) }
{
    for &(first, last) in ranges {
        add_range_image(codes, pairs, first, last)?;
    }
    Ok(())
}

/// Returns the ranges of a sorted list of codes, in which a code may occur more than once.
///
/// # Errors
/// [`OutOfMemory`] if there is no memory for the ranges.
fn ranges_of(alloc: Global, codes: &[u32]) -> Result<Vec<(u32, u32)>, OutOfMemory>
    requires { IsNonDecreasing codes.now }
    ensures sorted { IfOk result (λ v. Above 0 v.items) }
    ensures members { IfOk result (λ v. (c : ℕ) → has v.items c ≡ is_among codes.now c) }
{
    let mut ranges = Vec::new(alloc);
    for &code in codes {
        append(&mut ranges, code, code)?;
    }
    Ok(ranges)
}

/// Returns the ranges of the codes that the tables of case pair with a code of `ranges`: the ASCII table if `ascii` is set,
/// otherwise those of Unicode. Except by way of such a pair, the codes of `ranges` themselves aren't among them.
///
/// # Errors
/// [`OutOfMemory`] if there is no memory for the ranges.
pub(crate) fn kin(
    alloc: Global,
    ranges: &[(u32, u32)],
    ascii: bool,
) -> Result<Vec<(u32, u32)>, OutOfMemory>
    requires { (k : ℕ) → k < length ranges.now → (range_at ranges.now k).1 < 4294967295 }
    ensures sorted { IfOk result (λ v. Above 0 v.items) }
    ensures members { IfOk result (λ v. (c : ℕ) → has v.items c ≡ has_kin ascii ranges.now c) }
{
    let mut codes = Vec::new(alloc);
    if ascii {
        add_image(&mut codes, &ASCII_PAIRS, ranges)?;
    } else {
        add_image(&mut codes, fold_pairs(), ranges)?;
        add_image(&mut codes, &I_PAIRS, ranges)?;
    }
    codes.sort_unstable();
    ranges_of(alloc, &codes)
}
