//! Sorted lists of ranges: how to build one from ranges that come in order, and the set operations on them. A range is a pair:
//! its first code and its last code.

ghost use Rattle.std.specs.Prelude.{◌≡◌, ℕ, ◌+◌, ◌≤◌, ◌<◌, ◌||◌, ◌&&◌, not, true, nat_lt, OnOk, IfOk, length, drop};
ghost use Rattle.rl_ranges.specs.Codes.{has, is_between, Above};
ghost use Rattle.rl_ranges.specs.Building.{range_at};
ghost use Rattle.rl_ranges.specs.internal.Ordering.{BeginsBy, ComeInOrder};

use rl_lists::OutOfMemory;
use std::alloc::Global;

/// Adds the codes from `first` to `last`. `first` must not be less than the first code of the last range in the list. A
/// range that touches or overlaps the last one is merged with it.
///
/// # Errors
/// [`OutOfMemory`] if there is no memory for another range.
pub(crate) fn append(ranges: &mut Vec<(u32, u32)>, first: u32, last: u32) -> Result<(), OutOfMemory>
    requires sorted { Above 0 ranges.old.items }
    requires filled { first ≤ last }
    requires begins { BeginsBy ranges.old.items first }
    ensures sorted { OnOk result (Above 0 ranges.new.items) }
    ensures members { OnOk result ((c : ℕ)
        → has ranges.new.items c ≡ (has ranges.old.items c || is_between first last c)) }
    ensures begins { OnOk result (BeginsBy ranges.new.items first) }
{
    let len = ranges.len();
    if len > 0 {
        let (start, end) = ranges[len - 1];
        if first.saturating_sub(end) <= 1 {
            ranges[len - 1] = (start, end.max(last));
            return Ok(());
        }
    }
    ranges.push((first, last))?;
    Ok(())
}

/// Adds the ranges of `more` from index `from` on. They must come in order, and none may begin before the last range in the
/// list.
///
/// # Errors
/// [`OutOfMemory`] if there is no memory for another range.
pub(crate) fn append_from(
    ranges: &mut Vec<(u32, u32)>,
    more: &[(u32, u32)],
    from: usize,
) -> Result<(), OutOfMemory>
    requires sorted { Above 0 ranges.old.items }
    requires ordered { ComeInOrder more.now }
    requires inside { from ≤ length more.now }
    requires begins { from < length more.now → BeginsBy ranges.old.items (range_at more.now from).0 }
    ensures sorted { OnOk result (Above 0 ranges.new.items) }
    ensures members { OnOk result ((c : ℕ)
        → has ranges.new.items c ≡ (has ranges.old.items c || has (drop from more.now) c)) }
    ensures unchanged { OnOk result (length more.now ≤ from → ranges.new.items ≡ ranges.old.items) }
{
    for i in from..more.len() {
        let (first, last) = more[i];
        append(ranges, first, last)?;
    }
    Ok(())
}

/// Returns whether some range of the list holds the code. The ranges must be in ascending order, and they must neither overlap
/// nor touch. Uses binary search.
pub(crate) fn holds(ranges: &[(u32, u32)], code: u32) -> bool
    requires { Above 0 ranges.now }
    ensures { result ≡ has ranges.now code }
{
    let mut low = 0;
    let mut high = ranges.len();
    while low < high {
        let middle = low + (high - low) / 2;
        let (first, last) = ranges[middle];
        if code < first {
            high = middle;
        } else if code <= last {
            return true;
        } else {
            low = middle + 1;
        }
    }
    false
}

/// Returns the union: the codes that at least one of the two lists holds. In each list, every range must have at least one
/// code, and the ranges must come in the order of their first codes. They may overlap.
///
/// # Errors
/// [`OutOfMemory`] if there is no memory for the list.
pub(crate) fn either(
    alloc: Global,
    left: &[(u32, u32)],
    right: &[(u32, u32)],
) -> Result<Vec<(u32, u32)>, OutOfMemory>
    requires left { ComeInOrder left.now }
    requires right { ComeInOrder right.now }
    ensures sorted { IfOk result (λ v. Above 0 v.items) }
    ensures members { IfOk result (λ v. (c : ℕ) → has v.items c ≡ (has left.now c || has right.now c)) }
{
    let mut ranges = Vec::new(alloc);
    let mut i = 0;
    let mut j = 0;
    while i < left.len() && j < right.len() {
        if left[i].0 <= right[j].0 {
            append(&mut ranges, left[i].0, left[i].1)?;
            i += 1;
        } else {
            append(&mut ranges, right[j].0, right[j].1)?;
            j += 1;
        }
    }
    append_from(&mut ranges, left, i)?;
    append_from(&mut ranges, right, j)?;
    Ok(ranges)
}

/// Returns the intersection: the codes that both lists hold. In each list, the ranges must be in ascending order, and they
/// must neither overlap nor touch.
///
/// # Errors
/// [`OutOfMemory`] if there is no memory for the list.
pub(crate) fn both(
    alloc: Global,
    left: &[(u32, u32)],
    right: &[(u32, u32)],
) -> Result<Vec<(u32, u32)>, OutOfMemory>
    requires left { Above 0 left.now }
    requires right { Above 0 right.now }
    ensures sorted { IfOk result (λ v. Above 0 v.items) }
    ensures members { IfOk result (λ v. (c : ℕ) → has v.items c ≡ (has left.now c && has right.now c)) }
{
    let mut ranges = Vec::new(alloc);
    let mut i = 0;
    let mut j = 0;
    while i < left.len() && j < right.len() {
        let first = left[i].0.max(right[j].0);
        let last = left[i].1.min(right[j].1);
        if first <= last {
            append(&mut ranges, first, last)?;
        }
        if left[i].1 <= right[j].1 {
            i += 1;
        } else {
            j += 1;
        }
    }
    Ok(ranges)
}

/// Returns the complement: the codes below `count` that the list doesn't hold. The ranges of the list must be in ascending
/// order and must neither overlap nor touch, and all codes that it holds must be below `count`.
///
/// # Errors
/// [`OutOfMemory`] if there is no memory for the list.
pub(crate) fn gaps(
    alloc: Global,
    held: &[(u32, u32)],
    count: u32,
) -> Result<Vec<(u32, u32)>, OutOfMemory>
    requires held { Above 0 held.now }
    requires inside { (c : ℕ) → has held.now c ≡ true → c < count }
    ensures sorted { IfOk result (λ v. Above 0 v.items) }
    ensures members { IfOk result (λ v. (c : ℕ) → has v.items c ≡ (nat_lt c count && not (has held.now c))) }
{
    let mut ranges = Vec::new(alloc);
    let mut next = 0;
    for &(first, last) in held {
        if next < first {
            append(&mut ranges, next, first - 1)?;
        }
        next = last + 1;
    }
    if next < count {
        append(&mut ranges, next, count - 1)?;
    }
    Ok(ranges)
}
