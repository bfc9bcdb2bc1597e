//! Tests of `rl_lanes`: rows and tables of bits compared with plain lists, at lengths around one word and eight words.

ghost use Rattle.std.specs.Prelude.{◌≡◌, ◌<◌, All, length, IfOk};

use rl_lanes::{BitRow, BitTable};
use rl_lists::OutOfMemory;
use std::alloc::Global;

/// Lengths up to one more than a word, lengths around eight words, and a greater one.
const LENGTHS: [usize; 9] = [0, 1, 63, 64, 65, 511, 512, 513, 1_100];

/// Returns whether a place is the last one of a group of `of` places.
fn is_nth(i: usize, of: usize) -> bool
    requires { 0 < of }
{
    i % of == of - 1
}

/// Returns the row in which the last place of each group of `of` places is true.
fn nths(alloc: Global, len: usize, of: usize) -> Result<BitRow, OutOfMemory>
    requires { 0 < of }
    ensures { IfOk result (λ row. length row ≡ len) }
{
    let mut row = BitRow::zeros(alloc, len)?;
    for i in 0..len {
        row.set(i, is_nth(i, of));
    }
    Ok(row)
}

/// Returns whether the union of the second and third places, and their difference, equal those of the lists.
fn are_lists(len: usize, union: &BitRow, rest: &BitRow) -> bool
    requires union { length union.now ≡ len }
    requires rest { length rest.now ≡ len }
{
    for i in 0..len {
        let second = is_nth(i, 2);
        let third = is_nth(i, 3);
        let is_next = rest.next_from(i) == Some(i);
        if union.get(i) != (second || third) || is_next != (second && !third) {
            return false;
        }
    }
    true
}

/// Returns whether the union, the difference and the third places are related as the lists are.
fn lie(len: usize, union: &BitRow, rest: &BitRow, thirds: &BitRow) -> bool
    requires union { length union.now ≡ len }
    requires rest { length rest.now ≡ len }
    requires thirds { length thirds.now ≡ len }
{
    thirds.is_subset(union)
        && union.is_subset(thirds) == (len <= 1)
        && union.meets(thirds) == (len > 2)
        && !rest.meets(thirds)
        && rest.is_empty() == (len <= 1)
}

/// Returns whether the union of the second and third places, and their difference, equal those of the lists. Both rows begin
/// with the second places.
fn join(
    alloc: Global,
    len: usize,
    union: &mut BitRow,
    rest: &mut BitRow,
) -> Result<bool, OutOfMemory>
    requires union { length union.old ≡ len }
    requires rest { length rest.old ≡ len }
{
    let thirds = nths(alloc, len, 3)?;
    let are_counted = rest.count() == len / 2 && thirds.count() == len / 3;
    union.or_into(&thirds);
    rest.subtract(&thirds);
    Ok(are_counted && lie(len, union, rest, &thirds) && are_lists(len, union, rest))
}

/// Returns whether rows of this length are joined as the lists are.
fn join_as_lists(alloc: Global, len: usize) -> Result<bool, OutOfMemory> {
    let mut union = nths(alloc, len, 2)?;
    let mut rest = nths(alloc, len, 2)?;
    join(alloc, len, &mut union, &mut rest)
}

/// Tests rows of all these lengths.
#[test]
fn rows_are_as_the_lists(rt: HostRuntime) -> Result<(), OutOfMemory> {
    for len in LENGTHS {
        assert!(rt; join_as_lists(rt.alloc(), len)?, "{len}");
    }
    Ok(())
}

/// Places in a row in which every 500th place is true, and the next true place from there.
const NEXT: [(usize, Option<usize>); 5] = [
    (0, Some(499)),
    (499, Some(499)),
    (500, Some(999)),
    (1_000, None),
    (1_200, None),
];

/// Tests the search for the next true place in a row of 1,100 places.
#[test]
fn words_of_zeros_are_passed_over(rt: HostRuntime) -> Result<(), OutOfMemory> {
    let row = nths(rt.alloc(), 1_100, 500)?;
    for (from, next) in &NEXT {
        assert!(rt; row.next_from(*from) == *next, "{from}");
    }
    Ok(())
}

/// Returns whether a place in a row of a table is true. Every fourth row, from the first one on, has all places, so the three
/// rows after it are subsets of it.
fn is_marked(row: usize, i: usize) -> bool {
    is_nth(i, row % 4 + 1)
}

/// Sets a value at a place in a table whose rows have `len` places.
fn put(table: &mut BitTable, len: usize, row: usize, i: usize, to: bool)
    requires row_in { row < length table.old }
    requires place_in { i < len }
    requires wide { All (λ r. length r ≡ len) table.old }
    ensures high { length table.new ≡ length table.old }
    ensures wide { All (λ r. length r ≡ len) table.new }
{
    table.set(row, i, to);
}

/// Returns a table in which all places are false.
fn empty_table(alloc: Global, rows: usize, len: usize) -> Result<BitTable, OutOfMemory>
    ensures high { IfOk result (λ table. length table ≡ rows) }
    ensures wide { IfOk result (λ table. All (λ row. length row ≡ len) table) }
{
    let table = BitTable::zeros(alloc, rows, len)?;
    Ok(table)
}

/// Sets exactly the marked places in a row of a table, or all of them.
fn fill_row(table: &mut BitTable, rows: usize, len: usize, row: usize, all: bool)
    requires row_in { row < rows }
    requires high { length table.old ≡ rows }
    requires wide { All (λ r. length r ≡ len) table.old }
    ensures high { length table.new ≡ rows }
    ensures wide { All (λ r. length r ≡ len) table.new }
{
    for i in 0..len {
        put(table, len, row, i, all || is_marked(row, i));
    }
}

/// Sets exactly the marked places in a table, or all of them.
fn fill(table: &mut BitTable, rows: usize, len: usize, all: bool)
    requires high { length table.old ≡ rows }
    requires wide { All (λ r. length r ≡ len) table.old }
    ensures high { length table.new ≡ rows }
    ensures wide { All (λ r. length r ≡ len) table.new }
{
    for row in 0..rows {
        fill_row(table, rows, len, row, all);
    }
}

/// Returns whether a place is in the image of a marked table, if the last row of each group of `of` rows is chosen.
fn is_joined(rows: usize, of: usize, i: usize) -> bool
    requires { 0 < of }
{
    for row in 0..rows {
        if is_nth(row, of) && is_marked(row, i) {
            return true;
        }
    }
    false
}

/// Returns whether a row is that image.
fn are_joined(rows: usize, len: usize, of: usize, into: &BitRow) -> bool
    requires some { 0 < of }
    requires long { length into.now ≡ len }
{
    for i in 0..len {
        if into.get(i) != is_joined(rows, of, i) {
            return false;
        }
    }
    true
}

/// Returns whether the image of a marked table is right in a row in which every place was true before.
fn is_image(
    alloc: Global,
    rows: usize,
    len: usize,
    of: usize,
    table: &BitTable,
) -> Result<bool, OutOfMemory>
    requires some { 0 < of }
    requires high { length table.now ≡ rows }
    requires wide { All (λ r. length r ≡ len) table.now }
{
    let chosen = nths(alloc, rows, of)?;
    let mut into = nths(alloc, len, 1)?;
    table.image(&chosen, &mut into);
    Ok(are_joined(rows, len, of, &into))
}

/// Returns a marked table. The runs that were found while all its places were true no longer apply.
fn marked_table(alloc: Global, rows: usize, len: usize) -> Result<BitTable, OutOfMemory>
    ensures high { IfOk result (λ table. length table ≡ rows) }
    ensures wide { IfOk result (λ table. All (λ row. length row ≡ len) table) }
{
    let mut table = empty_table(alloc, rows, len)?;
    fill(&mut table, rows, len, true);
    table.find_runs()?;
    fill(&mut table, rows, len, false);
    Ok(table)
}

/// Returns whether the image of a marked table is right both before and after its runs are found.
fn are_images(alloc: Global, rows: usize, len: usize, of: usize) -> Result<bool, OutOfMemory>
    requires { 0 < of }
{
    let mut table = marked_table(alloc, rows, len)?;
    let before = is_image(alloc, rows, len, of, &table)?;
    table.find_runs()?;
    let behind = is_image(alloc, rows, len, of, &table)?;
    Ok(before && behind)
}

/// The number of rows in a table, their length, and the size of the groups of which one row each is chosen. If a table appears
/// twice, no row is chosen the second time.
static IMAGES: [(usize, usize, usize); 8] = [
    (3, 70, 2),
    (3, 70, 4),
    (64, 64, 64),
    (64, 64, 65),
    (130, 130, 1),
    (130, 130, 131),
    (65, 513, 3),
    (0, 65, 1),
];

/// Tests the images of all these tables.
#[test]
fn images_are_unions_of_the_chosen_rows(rt: HostRuntime) -> Result<(), OutOfMemory> {
    for (rows, len, of) in &IMAGES {
        assert!(rt;
            *of > 0 && are_images(rt.alloc(), *rows, *len, *of)?,
            "{rows} {len} {of}"
        );
    }
    Ok(())
}
