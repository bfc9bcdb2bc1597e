//! Rows of numbers, stored in one vector.

ghost use Rattle.std.specs.Prelude.{◌≡◌, ◌<◌, ◌≤◌, [], ◌∷◌, ◌++◌, length, slice_index, slice_index_or, IfOk, OnOk, OnErr};
ghost use Rattle.rl_prio.specs.internal.Rows.{rows_from, start_at, RiseTo};

use rl_lists::OutOfMemory;
use std::alloc::Global;
use std::marker::Model;

/// Rows of numbers, stored one after another. The last row is still open. All others are closed.
#[derive(Drop)]
pub(crate) struct RowTable {
    /// The numbers of all rows, one row after another.
    targets: Vec<u32>,
    /// For each closed row, the index in `targets` at which it ends.
    ends: Vec<usize>,
}

impl Model for RowTable {
    ghost use Rattle.std.specs.Prelude.{length};
    ghost use Rattle.rl_prio.specs.internal.Rows.{Rows, rows_of, RiseTo};

    ghost Value = { Rows };

    ghost view = { λ r. rows_of r.ends.items r.targets.items };

    ghost invariant = { λ r. RiseTo (length r.targets.items) 0 r.ends.items };
}

impl RowTable {
    /// Creates a table with no closed row and an empty open row, and with capacity for `count` rows and `count` numbers.
    ///
    /// # Errors
    /// [`OutOfMemory`] if there is not enough memory for it.
    pub(crate) fn with_room(alloc: Global, count: usize) -> Result<RowTable, OutOfMemory>
        ensures { IfOk result (λ r. r ≡ record { rows = []; open_row = [] }) }
    {
        let ends = Vec::with_capacity(alloc, count)?;
        let targets = Vec::with_capacity(alloc, count)?;
        Ok(RowTable { targets, ends })
    }

    /// Appends a number to the open row.
    ///
    /// # Errors
    /// [`OutOfMemory`] if there is not enough memory for it; nothing has changed then.
    pub(crate) fn put(&mut self, target: u32) -> Result<(), OutOfMemory>
        ensures put { OnOk result (self.new ≡ record self.old { open_row = self.old.open_row ++ target ∷ [] }) }
        ensures unchanged { OnErr result (self.new ≡ self.old) }
    {
        self.targets.push(target)?;
        Ok(())
    }

    /// Closes the open row and opens an empty one.
    ///
    /// # Errors
    /// [`OutOfMemory`] if there is not enough memory for it; nothing has changed then.
    pub(crate) fn close(&mut self) -> Result<(), OutOfMemory>
        ensures closed { OnOk result (self.new ≡ record { rows = self.old.rows ++ self.old.open_row ∷ []; open_row = [] }) }
        ensures unchanged { OnErr result (self.new ≡ self.old) }
    {
        let end = self.targets.len();
        self.ends.push(end)?;
        Ok(())
    }

    /// Returns the closed row with the index `i`, counted from 0. There must be one.
    pub(crate) fn row(&self, i: usize) -> &[u32]
        requires { i < length self.now.rows }
        ensures { result.now ≡ slice_index_or self.now.rows i [] }
    {
        part(&self.targets, &self.ends, i)
    }
}

/// Returns the numbers of the row with the index `i`: they end at `ends[i]` and begin where the row before ends.
fn part<'a>(targets: &'a [u32], ends: &[usize], i: usize) -> &'a [u32]
    requires in_ends { i < length ends.now }
    requires rise { RiseTo (length targets.now) 0 ends.now }
    ensures { result.now ≡ slice_index_or (rows_from 0 ends.now targets.now) i [] }
{
    let (start, end) = range_of(ends, i, targets.len());
    &targets[start..end]
}

/// Returns where the row with the index `i` begins and ends in a list of `size` numbers.
fn range_of(ends: &[usize], i: usize, size: usize) -> (usize, usize)
    requires in_ends { i < length ends.now }
    requires rise { RiseTo size 0 ends.now }
    ensures start { result.0 ≡ start_at 0 ends.now i }
    ensures end { result.1 ≡ slice_index ends.now i }
    ensures in_order { result.0 ≤ result.1 }
    ensures within { result.1 ≤ size }
{
    (start_of(ends, i), ends[i])
}

/// Returns where the row with the index `i` begins.
fn start_of(ends: &[usize], i: usize) -> usize
    requires { i < length ends.now }
    ensures { result ≡ start_at 0 ends.now i }
{
    if i == 0 { 0 } else { ends[i - 1] }
}
