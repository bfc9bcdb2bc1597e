//! Lists of ranges that can be copied without allocating memory.

ghost use Rattle.std.specs.Prelude.{◌≡◌, [], ◌∷◌, IfOk};
ghost use Rattle.rl_ranges.specs.Listing.{listed};

use rl_lists::OutOfMemory;
use std::alloc::Global;
use std::rc::Rc;

/// A list of ranges, by where it is kept.
#[derive(Drop)]
pub(crate) enum RangeList {
    /// A single range, kept in place.
    One([(u32, u32); 1]),
    /// A table of the program.
    Table(&'static [(u32, u32)]),
    /// A list that is shared between its copies.
    Shared(Rc<Vec<(u32, u32)>>),
}

impl RangeList {
    /// Returns a list of these ranges, whose copies share them.
    ///
    /// # Errors
    /// [`OutOfMemory`] if there is no memory for it.
    pub(crate) fn shared(alloc: Global, ranges: Vec<(u32, u32)>) -> Result<RangeList, OutOfMemory>
        ensures { IfOk result (λ l. listed l ≡ ranges.items) }
    {
        let shared = Rc::new(alloc, ranges)?;
        Ok(RangeList::Shared(shared))
    }

    /// Returns the ranges.
    pub(crate) fn as_slice(&self) -> &[(u32, u32)]
        ensures { result.now ≡ listed self.now }
    {
        match self {
            RangeList::One(range) => range,
            RangeList::Table(table) => table,
            RangeList::Shared(ranges) => ranges.as_slice(),
        }
    }

    /// Returns a copy of the list. Allocates no memory.
    ///
    /// # Errors
    /// [`OutOfMemory`] if there are too many copies.
    pub(crate) fn copy(&self) -> Result<RangeList, OutOfMemory>
        ensures { IfOk result (λ l. listed l ≡ listed self.now) }
    {
        match self {
            RangeList::One(range) => Ok(RangeList::One(*range)),
            RangeList::Table(table) => Ok(RangeList::Table(table)),
            RangeList::Shared(ranges) => Ok(RangeList::Shared(ranges.clone()?)),
        }
    }
}
