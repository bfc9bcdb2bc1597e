//! Lists of rows of numbers, which share one block of memory if they are written in order.

ghost use Rattle.std.specs.Prelude.{◌≡◌, ◌<◌, ◌≤◌, ◌^◌, [], ◌∷◌, ◌++◌, true, false, All, drop, length, replicate, set, slice_index_or, IfOk, OnOk, OnErr};
ghost use Rattle.rl_graph.specs.internal.GrownRows.{IsFilledRowAt, IsGrown, IsPlaced, IsRowAt};

use rl_lists::{Items, OutOfMemory};
use std::alloc::Global;
use std::marker::Model;

/// The largest number of numbers in a row: 2^32 - 1.
const MOST: usize = 4_294_967_295;

/// The range of the shared numbers that a row occupies: from `start` up to, but not including, `end`.
#[derive(Clone, Copy)]
struct Span {
    start: usize,
    end: usize,
}

/// A list of rows of numbers, stored one after another in one block of memory. If a row grows after numbers of another
/// row were stored behind it, it is moved, once, to a block of its own that grows by doubling. So the memory is
/// proportional to the number of numbers and rows, in whatever order the numbers are added.
#[derive(Drop)]
pub struct RowList {
    spans: Vec<Span>,
    numbers: Vec<u32>,
    apart: Vec<Items<u32>>,
}

impl Model for RowList {
    ghost use Rattle.std.specs.Prelude.{ℕ, List};

    ghost Value = { List (List ℕ) };

    ghost use Rattle.rl_graph.specs.Spans.{rows_in, AreWithin};

    ghost view = { λ l. rows_in l.numbers.items l.apart.items l.spans.items };

    ghost invariant = { λ l. AreWithin l.numbers.items l.apart.items l.spans.items };
}

impl RowList {
    /// Returns an empty list. It allocates memory only when it grows.
    pub fn new(alloc: Global) -> RowList
        ensures { result ≡ [] }
    {
        RowList {
            spans: Vec::new(alloc),
            numbers: Vec::new(alloc),
            apart: Vec::new(alloc),
        }
    }

    /// Returns a list of `count` empty rows.
    ///
    /// # Errors
    /// [`OutOfMemory`] if there is not enough memory for the rows.
    pub(crate) fn of_empty_rows(alloc: Global, count: usize) -> Result<RowList, OutOfMemory>
        ensures { IfOk result (λ l. l ≡ replicate count []) }
    {
        let mut spans = Vec::new(alloc);
        spans.resize(count, Span { start: 0, end: 0 })?;
        let numbers = Vec::new(alloc);
        let apart = Vec::new(alloc);
        Ok(RowList {
            spans,
            numbers,
            apart,
        })
    }

    /// Appends a row, with a copy of the numbers of `row`, at the end of the list.
    ///
    /// # Errors
    /// [`OutOfMemory`] if there is not enough memory for the row, or if the row has 2^32 numbers or more; the list is
    /// then unchanged.
    pub fn push_row(&mut self, row: &[u32]) -> Result<(), OutOfMemory>
        ensures pushed { OnOk result (self.new ≡ self.old ++ row.now ∷ []) }
        ensures unchanged { OnErr result (self.new ≡ self.old) }
    {
        if row.len() > MOST {
            return Err(OutOfMemory);
        }
        let span = append(&mut self.numbers, row)?;
        self.spans.push(span)?;
        Ok(())
    }

    /// Appends a number to the row with the index `place`, which must exist and have fewer than 2^32 - 1 numbers.
    ///
    /// # Errors
    /// [`OutOfMemory`] if there is not enough memory for the number; the list is then unchanged.
    pub(crate) fn push_at(&mut self, place: usize, number: u32) -> Result<(), OutOfMemory>
        requires place_in { place < length self.old }
        requires room { length (slice_index_or self.old place []) < 4294967295 }
        ensures pushed { OnOk result (self.new ≡ set self.old place (slice_index_or self.old place [] ++ number ∷ [])) }
        ensures unchanged { OnErr result (self.new ≡ self.old) }
    {
        let span = self.spans[place];
        let count = self.numbers.len();
        if span.start < span.end {
            if span.end < count {
                let row = &self.numbers[span.start..span.end];
                put_apart(&mut self.apart, place, row, number)?;
                self.spans[place] = Span { start: 0, end: 0 };
                return Ok(());
            }
            let longer = lengthened(&mut self.numbers, span.start, number)?;
            self.spans[place] = longer;
            return Ok(());
        }
        if stands_apart(&self.apart, place) {
            push_apart(&mut self.apart, place, number)?;
            return Ok(());
        }
        let begun = lengthened(&mut self.numbers, count, number)?;
        self.spans[place] = begun;
        Ok(())
    }

    /// Returns the number of rows.
    pub fn len(&self) -> usize
        ensures number { result ≡ length self.now }
        ensures short { All (λ row. length row < 2 ^ 32) self.now }
    {
        self.spans.len()
    }

    /// Returns the row with the index `place`. Past the last row, the result is empty.
    pub(crate) fn row(&self, place: usize) -> &[u32]
        ensures { result.now ≡ slice_index_or self.now place [] }
    {
        if place >= self.spans.len() {
            return &[];
        }
        let span = self.spans[place];
        if span.start < span.end {
            return &self.numbers[span.start..span.end];
        }
        if place >= self.apart.len() {
            return &[];
        }
        self.apart[place].as_slice()
    }

    /// Returns the allocator of the rows.
    pub(crate) fn allocator(&self) -> Global {
        *self.numbers.allocator()
    }
}

/// Appends a row to the shared numbers, and returns its span. On an error, the old numbers are still in place.
fn append(numbers: &mut Vec<u32>, row: &[u32]) -> Result<Span, OutOfMemory>
    ensures grown { IsGrown numbers.old.items numbers.new.items }
    ensures row { IfOk result (IsRowAt numbers.new.items row.now) }
{
    let start = numbers.len();
    numbers.extend_from_slice(row)?;
    Ok(Span {
        start,
        end: numbers.len(),
    })
}

/// Appends a number to the shared numbers, and returns the span from `start` to their end: the row that began at
/// `start` and ended with the last number has one number more.
fn lengthened(numbers: &mut Vec<u32>, start: usize, number: u32) -> Result<Span, OutOfMemory>
    requires { start ≤ length numbers.old.items }
    ensures grown { IsGrown numbers.old.items numbers.new.items }
    ensures row { IfOk result (IsFilledRowAt numbers.new.items (drop start numbers.old.items ++ number ∷ [])) }
{
    numbers.push(number)?;
    Ok(Span {
        start,
        end: numbers.len(),
    })
}

/// Returns whether `apart` has a non-empty row at the index `place`.
fn stands_apart(apart: &[Items<u32>], place: usize) -> bool
    ensures some { result ≡ true → place < length apart.now }
    ensures none { result ≡ false → slice_index_or apart.now place [] ≡ [] }
{
    match apart.get(place) {
        Some(row) => !row.is_empty(),
        None => false,
    }
}

/// Appends a number to the row at the index `place` of `apart`.
fn push_apart(apart: &mut Vec<Items<u32>>, place: usize, number: u32) -> Result<(), OutOfMemory>
    requires { place < length apart.old.items }
    ensures pushed { OnOk result (IsPlaced apart.old.items apart.new.items place (slice_index_or apart.old.items place [] ++ number ∷ [])) }
    ensures unchanged { OnErr result (IsPlaced apart.old.items apart.new.items place (slice_index_or apart.old.items place [])) }
{
    apart[place].push(number)
}

/// Puts a copy of `row`, with `number` appended, at the index `place` of `apart`. The list is made longer if it has no
/// such index.
fn put_apart(
    apart: &mut Vec<Items<u32>>,
    place: usize,
    row: &[u32],
    number: u32,
) -> Result<(), OutOfMemory>
    ensures put { OnOk result (IsPlaced apart.old.items apart.new.items place (row.now ++ number ∷ [])) }
    ensures unchanged { OnErr result (IsPlaced apart.old.items apart.new.items place (slice_index_or apart.old.items place [])) }
{
    let alloc = *apart.allocator();
    let mut own = Items::from_slice(alloc, row)?;
    own.push(number)?;
    make_places(apart, place)?;
    apart[place] = own;
    Ok(())
}

/// Appends empty rows to `apart` until it has the index `place`.
fn make_places(apart: &mut Vec<Items<u32>>, place: usize) -> Result<(), OutOfMemory>
    ensures there { OnOk result (place < length apart.new.items) }
    ensures same { IsPlaced apart.old.items apart.new.items place (slice_index_or apart.old.items place []) }
{
    let alloc = *apart.allocator();
    while apart.len() <= place {
        apart.push(Items::new(alloc))?;
    }
    Ok(())
}
