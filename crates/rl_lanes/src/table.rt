//! Tables of truth values, stored as bits. Rows and places are numbered from 0.
ghost use Rattle.std.specs.Prelude.{◌≡◌, ℕ, ◌<◌, ◌≤◌, [], All, Bool, false, length, replicate, slice_index, slice_index_or, slice_set, IfOk, IsTrue};
ghost use Rattle.rl_lanes.specs.Packed.{truths, IsPacked};
ghost use Rattle.rl_lanes.specs.Rows.{IsSubset};
ghost use Rattle.rl_lanes.specs.Tables.{image};
ghost use Rattle.rl_lanes.specs.Runs.{IsRun, AreRuns};

use crate::bits::with_bit;
use crate::row::{BitRow, WORD};
use crate::words::{any_outside, union_of};
use rl_lists::OutOfMemory;
use std::alloc::Global;
use std::marker::Model;

/// A table of truth values. All its rows have the same number of places.
///
/// Contracts see it as the list of its rows. Each row begins with a new word, and its bits after the last value are 0.
///
/// A run of a row consists of rows directly after it that are all subsets of it, and its end is the index of the first
/// row after it. The table stores the end of a run for every row, or for none.
#[derive(Debug, Drop)]
pub struct BitTable {
    words: Vec<u64>,
    rows: usize,
    len: usize,
    ends: Vec<usize>,
}

impl Model for BitTable {
    ghost use Rattle.std.specs.Prelude.{Bool, List};
    ghost use Rattle.rl_lanes.specs.Packed.{table_rows};
    ghost use Rattle.rl_lanes.specs.Runs.{IsPackedWithRuns};

    ghost Value = { List (List Bool) };

    ghost view = { λ t. table_rows t.rows t.len t.words.items };

    ghost invariant = { λ t. IsPackedWithRuns t.rows t.len t.words.items t.ends.items };
}

impl BitTable {
    /// Returns a table of `rows` rows, each with `len` places, all of which are false.
    ///
    /// # Errors
    /// [`OutOfMemory`] if there is not enough memory for the table.
    pub fn zeros(alloc: Global, rows: usize, len: usize) -> Result<BitTable, OutOfMemory>
        ensures { IfOk result (λ table. table ≡ replicate rows (replicate len false)) }
    {
        let Some(count) = rows.checked_mul(len.div_ceil(WORD)) else {
            return Err(OutOfMemory);
        };
        let words = Vec::from_elem(alloc, 0, count)?;
        Ok(BitTable {
            words,
            rows,
            len,
            ends: Vec::new(alloc),
        })
    }

    /// Sets the value at the place `i` of the row with the index `row`, both of which must be in range. The runs that
    /// were found are forgotten.
    pub fn set(&mut self, row: usize, i: usize, to: bool)
        requires row_in { row < length self.old }
        requires place_in { i < length (slice_index_or self.old row []) }
        ensures { self.new ≡ slice_set self.old row (slice_set (slice_index_or self.old row []) i to) }
    {
        self.ends.clear();
        let word = row * self.len.div_ceil(WORD) + i / WORD;
        self.words[word] = with_bit(self.words[word], i % WORD, to);
    }

    /// Finds the runs of the rows, so that images can skip rows that add nothing. This pays off if a table is filled
    /// first and many images are taken afterwards: it costs about as much as two images of all rows. For a table of at
    /// most 64 rows, nothing is done.
    ///
    /// # Errors
    /// [`OutOfMemory`] if there is not enough memory for the ends of the runs.
    pub fn find_runs(&mut self) -> Result<(), OutOfMemory>
        ensures { self.new ≡ self.old }
    {
        if WORD < self.rows {
            self.ends = self.runs()?;
        }
        Ok(())
    }

    /// Sets `into` to the union of the rows whose indices are true in `chosen`. `chosen` must have a place for each
    /// row, and `into` must be as long as the rows. If no row is chosen, all places of `into` become false.
    pub fn image(&self, chosen: &BitRow, into: &mut BitRow)
        requires rows { length chosen.now ≡ length self.now }
        requires places { All (λ row. length row ≡ length into.old) self.now }
        ensures image { into.new ≡ image self.now chosen.now (length into.old) }
        ensures len { length into.new ≡ length into.old }
    {
        if chosen.len() <= WORD && 0 < into.len() && into.len() <= WORD {
            into.put_word(union_of(self.words.as_slice(), chosen.word()));
        } else {
            self.join_chosen(chosen, into);
        }
    }

    /// Sets `into` to the union of the rows whose indices are true in `chosen`, row by row. Rows in the run of a chosen
    /// row are skipped.
    fn join_chosen(&self, chosen: &BitRow, into: &mut BitRow)
        requires rows { length chosen.now ≡ length self.now }
        requires places { All (λ row. length row ≡ length into.old) self.now }
        ensures image { into.new ≡ image self.now chosen.now (length into.old) }
        ensures len { length into.new ≡ length into.old }
    {
        into.clear();
        let mut at = 0;
        while let Some(row) = chosen.next_from(at) {
            into.add_words(self.row_words(row));
            at = self.run_end(row);
        }
    }

    /// Returns the stored end of the run of a row, or `row + 1`, the end of the empty run, if none is stored.
    fn run_end(&self, row: usize) -> usize
        requires { row < length self.now }
        ensures { IsRun self.now row result }
    {
        // Reading the number of rows tells the prover that it fits in 64 bits. The end is at most that number.
        let _rows = self.rows;
        if row < self.ends.len() {
            self.ends[row]
        } else {
            row + 1
        }
    }

    /// Returns the end of a run for each row, as [`Self::run_from`] finds it.
    fn runs(&self) -> Result<Vec<usize>, OutOfMemory>
        ensures { IfOk result (λ ends. AreRuns self.now ends.items) }
    {
        let mut ends = Vec::from_elem(*self.words.allocator(), 0, self.rows)?;
        let mut row = self.rows;
        while 0 < row {
            row -= 1;
            ends[row] = self.run_from(row, ends.as_slice());
        }
        Ok(ends)
    }

    /// Returns the end of a run of the row `row`. `ends` has the ends of runs for all rows after it: the search goes
    /// from `row + 1` to the end of its run, and so on, as long as the row there is a subset of `row`.
    fn run_from(&self, row: usize, ends: &[usize]) -> usize
        requires row_in { row < length self.now }
        requires long { length ends.now ≡ length self.now }
        requires behind { (i : ℕ) → row < i → i < length self.now → IsRun self.now i (slice_index ends.now i) }
        ensures { IsRun self.now row result }
    {
        let mut end = row + 1;
        while end < ends.len() && self.is_within(end, row) {
            end = ends[end];
        }
        end
    }

    /// Returns whether the row with the index `row` is a subset of the row with the index `of`.
    fn is_within(&self, row: usize, of: usize) -> bool
        requires row_in { row < length self.now }
        requires of_in { of < length self.now }
        ensures { IsTrue result → IsSubset (slice_index_or self.now row []) (slice_index_or self.now of []) }
    {
        // The variables tell the prover that each word has 64 bits.
        let words = self.row_words(row);
        let of_words = self.row_words(of);
        !any_outside(words, of_words)
    }

    /// Returns the words that store the row with the index `row`.
    fn row_words(&self, row: usize) -> &[u64]
        requires { row < length self.now }
        ensures packed { IsPacked (length (slice_index_or self.now row [])) result.now }
        ensures shows { truths (length (slice_index_or self.now row [])) result.now ≡ slice_index_or self.now row [] }
        ensures alike { (i : ℕ) → i < length self.now → length (slice_index_or self.now i []) ≡ length (slice_index_or self.now row []) }
    {
        let width = self.len.div_ceil(WORD);
        let start = row * width;
        &self.words[start..start + width]
    }
}
