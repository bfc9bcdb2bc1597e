//! Sets of codes, kept as sorted ranges. A code is a code point of a `str` or a byte of a `bytes` object. The universe, `str`
//! or `bytes`, says which codes there are; a set lies in it if it holds only these.

ghost use Rattle.std.specs.Prelude.{◌≡◌, ℕ, ◌≤◌, ◌<◌, ◌&&◌, ◌||◌, not, true, false, nat_lt, List, [], IfOk, IfSome, MatchOption, IsTrue};
ghost use Rattle.rl_ranges.specs.Text.{code_count};
ghost use Rattle.rl_ranges.specs.Codes.{has, is_between, Above, IsInside};
ghost use Rattle.rl_ranges.specs.Listed.{ranges_below};
ghost use Rattle.rl_ranges.specs.Named.{is_named, goes_by_ascii};
ghost use Rattle.rl_ranges.specs.Case.{IsCaseClosed};

use crate::case::kin;
use crate::named::Named;
use crate::range_list::RangeList;
use crate::ranges::{both, either, gaps, holds};
use crate::universe::Universe;
use rl_lists::OutOfMemory;
use std::alloc::Global;
use std::marker::Model;

/// A set of codes, kept as a sorted list of ranges that neither overlap nor touch. Contracts see it as that list.
#[derive(Drop)]
pub struct CodeSet {
    /// The allocator that new sets use.
    alloc: Global,
    /// The first and the last code of each range, in ascending order.
    ranges: RangeList,
}

impl Model for CodeSet {
    ghost use Rattle.std.specs.Prelude.{ℕ, List};
    ghost use Rattle.rl_ranges.specs.Codes.{Above};
    ghost use Rattle.rl_ranges.specs.Listing.{listed};

    ghost Value = { List (ℕ × ℕ) };

    ghost view = { λ s. listed s.ranges };

    ghost invariant = { λ s. Above 0 (listed s.ranges) };
}

impl CodeSet {
    /// Returns the empty set. Allocates no memory.
    pub fn none(alloc: Global) -> CodeSet
        ensures { result ≡ [] }
    {
        CodeSet {
            alloc,
            ranges: RangeList::Table(&[]),
        }
    }

    /// Returns the set that consists of these ranges.
    ///
    /// # Errors
    /// [`OutOfMemory`] if there is no memory for the set.
    fn from_ranges(alloc: Global, ranges: Vec<(u32, u32)>) -> Result<CodeSet, OutOfMemory>
        requires { Above 0 ranges.items }
        ensures { IfOk result (λ s. s ≡ ranges.items) }
    {
        let ranges = RangeList::shared(alloc, ranges)?;
        Ok(CodeSet { alloc, ranges })
    }

    /// Returns the set of the codes from `first` to `last`, both included. `first` must not be greater than `last`, and `last`
    /// must not be greater than 0x10FFFF. Allocates no memory, and the result is always `Ok`.
    pub fn range(alloc: Global, first: u32, last: u32) -> Result<CodeSet, OutOfMemory>
        requires filled { first ≤ last }
        requires inside { last ≤ 0x10_FFFF }
        ensures members { IfOk result (λ s. (c : ℕ) → has s c ≡ is_between first last c) }
        ensures inside { IfOk result (λ s. (u : Universe) → last < code_count u → IsInside u s) }
    {
        let ranges = RangeList::One([(first, last)]);
        Ok(CodeSet { alloc, ranges })
    }

    /// Returns the union: the codes that at least one of the two sets holds. If one of them is empty, this is a copy of the
    /// other.
    ///
    /// # Errors
    /// [`OutOfMemory`] if there is no memory for the set, or if there are too many copies of the set that would be copied.
    pub fn union(&self, other: &CodeSet) -> Result<CodeSet, OutOfMemory>
        ensures members { IfOk result (λ s. (c : ℕ) → has s c ≡ (has self.now c || has other.now c)) }
        ensures inside { IfOk result (λ s. (u : Universe)
            → IsInside u self.now → IsInside u other.now → IsInside u s) }
    {
        match self.whole(other) {
            Some(set) => {
                let set = set.copy()?;
                Ok(set)
            }
            None => self.merged(other),
        }
    }

    /// Returns the other set if one of the two is empty: it is the union then. Returns `None` if neither is empty.
    fn whole<'a>(&'a self, other: &'a CodeSet) -> Option<&'a CodeSet>
        ensures { IfSome result (λ s. (c : ℕ) → has s.now c ≡ (has self.now c || has other.now c)) }
    {
        if other.as_ranges().is_empty() {
            Some(self)
        } else if self.as_ranges().is_empty() {
            Some(other)
        } else {
            None
        }
    }

    /// Returns the union as a list of its own.
    ///
    /// # Errors
    /// [`OutOfMemory`] if there is no memory for the set.
    fn merged(&self, other: &CodeSet) -> Result<CodeSet, OutOfMemory>
        ensures { IfOk result (λ s. (c : ℕ) → has s c ≡ (has self.now c || has other.now c)) }
    {
        let ranges = either(self.alloc, self.as_ranges(), other.as_ranges())?;
        CodeSet::from_ranges(self.alloc, ranges)
    }

    /// Returns the intersection: the codes that both sets hold.
    ///
    /// # Errors
    /// [`OutOfMemory`] if there is no memory for the set.
    pub fn meet(&self, other: &CodeSet) -> Result<CodeSet, OutOfMemory>
        ensures members { IfOk result (λ s. (c : ℕ) → has s c ≡ (has self.now c && has other.now c)) }
        ensures inside_left { IfOk result (λ s. (u : Universe) → IsInside u self.now → IsInside u s) }
        ensures inside_right { IfOk result (λ s. (u : Universe) → IsInside u other.now → IsInside u s) }
    {
        let ranges = both(self.alloc, self.as_ranges(), other.as_ranges())?;
        CodeSet::from_ranges(self.alloc, ranges)
    }

    /// Returns the complement: the codes of the universe that the set doesn't hold. The set must lie in the universe.
    ///
    /// # Errors
    /// [`OutOfMemory`] if there is no memory for the set.
    pub fn complement(&self, universe: Universe) -> Result<CodeSet, OutOfMemory>
        requires { IsInside universe self.now }
        ensures members { IfOk result (λ s. (c : ℕ)
            → has s c ≡ (nat_lt c (code_count universe) && not (has self.now c))) }
        ensures inside { IfOk result (IsInside universe) }
    {
        let ranges = gaps(self.alloc, self.as_ranges(), universe.count())?;
        CodeSet::from_ranges(self.alloc, ranges)
    }

    /// Returns a named class. It follows ASCII if `ascii` is set or the universe is that of `bytes`, and Unicode otherwise.
    /// Allocates no memory, and the result is always `Ok`.
    pub fn named(
        alloc: Global,
        kind: Named,
        ascii: bool,
        universe: Universe,
    ) -> Result<CodeSet, OutOfMemory>
        ensures members { IfOk result (λ s. (c : ℕ)
            → has s c ≡ is_named kind (goes_by_ascii ascii universe) c) }
        ensures inside { IfOk result (IsInside universe) }
    {
        let ranges = RangeList::Table(kind.ranges(universe.goes_by_ascii(ascii)));
        Ok(CodeSet { alloc, ranges })
    }

    /// Returns the set of all codes that IGNORECASE treats as equal to a code of this set, including its own. Case follows
    /// ASCII if `ascii` is set or the universe is that of `bytes`, and Unicode otherwise. The set must lie in the universe.
    ///
    /// # Errors
    /// [`OutOfMemory`] if there is no memory for the set.
    pub fn case_closed(&self, ascii: bool, universe: Universe) -> Result<CodeSet, OutOfMemory>
        requires { IsInside universe self.now }
        ensures members { IfOk result (IsCaseClosed (goes_by_ascii ascii universe) self.now) }
        ensures inside { IfOk result (IsInside universe) }
    {
        let others = kin(self.alloc, self.as_ranges(), universe.goes_by_ascii(ascii))?;
        let ranges = either(self.alloc, self.as_ranges(), &others)?;
        let closed = CodeSet::from_ranges(self.alloc, ranges)?;
        Ok(closed)
    }

    /// Returns a copy of the set. Allocates no memory.
    ///
    /// # Errors
    /// [`OutOfMemory`] if there are too many copies.
    pub fn copy(&self) -> Result<CodeSet, OutOfMemory>
        ensures { IfOk result (λ s. s ≡ self.now) }
    {
        let ranges = self.ranges.copy()?;
        Ok(CodeSet {
            alloc: self.alloc,
            ranges,
        })
    }

    /// Returns the least code of the set, or `None` if the set is empty.
    pub fn first_code(&self) -> Option<u32>
        ensures { MatchOption result ((c : ℕ) → has self.now c ≡ false)
            (λ least. (has self.now least ≡ true) × ((c : ℕ) → c < least → has self.now c ≡ false)) }
    {
        let (first, _) = self.as_ranges().first()?;
        Some(*first)
    }

    /// Does nothing: its contract states that the list is determined by the codes that it holds. Its ranges are in ascending
    /// order and don't touch, and if the set lies in a universe, they are the ranges of its codes.
    pub fn ranges_are_known(&self)
        ensures sorted { Above 0 self.now }
        ensures listed { (u : Universe) → IsInside u self.now → self.now ≡ ranges_below (code_count u) (has self.now) }
    {
        let _ = &self.ranges;
    }

    /// Returns the set's ranges, in ascending order.
    pub(crate) fn as_ranges(&self) -> &[(u32, u32)]
        ensures value { result.now ≡ self.now }
        ensures sorted { Above 0 result.now }
    {
        self.ranges.as_slice()
    }

    /// Returns whether the set holds the code.
    pub fn contains(&self, code: u32) -> bool
        ensures { result ≡ has self.now code }
    {
        holds(self.as_ranges(), code)
    }
}
