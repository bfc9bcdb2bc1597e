//! Finds the pairs of sets that a quick trial looks at.
//!
//! The first set of a pair is reached by the whole automaton, the second one by the automaton without the branch. The root
//! pair of a set is the set and the same set without the states of the branch. The search begins with the root pairs of all
//! sets reached from the start. If no pair shows a difference, it finds each pair that can be reached from the pair of the two
//! starts, except pairs of a set reached from the start and this same set. It may also find pairs that can't be reached.

ghost use Rattle.std.specs.Prelude.{◌≡◌, ◌+◌, ◌<◌, true, None, length, IfOk, OnOk};
ghost use Rattle.rl_prio.specs.Automaton.{letters_count};
ghost use Rattle.rl_trim.specs.internal.Trims.{trim_on};
ghost use Rattle.rl_trim.specs.Reached.{IsClosedTo};
ghost use Rattle.rl_trim.specs.internal.Noting.{AreTouched};
ghost use Rattle.rl_trim.specs.internal.Quick.{IsGrown, IsThere, AreRooted, ArePairs, IsOnward, IsPut, IsDone, AreDone, NoneApart, AreTrims, pair_at};

use crate::branch::{Branch, Trims};
use crate::key::{Key, Way, put};
use indexmap::IndexSet;
use rl_lanes::BitRow;
use rl_lists::OutOfMemory;
use rl_sets::{SetWalk, SetsError};
use std::alloc::Global;

/// A search that finds this many pairs or more is given up.
const MOST_PAIRS: usize = 10_000;

/// The pairs found so far. The pair of a set reached from the start and this same set isn't stored: it shows no difference,
/// and its next pairs are root pairs of sets reached from the start.
#[derive(Drop)]
pub(crate) struct Pairs {
    /// How many sets are reached from the start. They are the first sets of the walk.
    pub count: u32,
    /// The pairs. The first ones are the root pairs of the sets that are reached from the start and hold a state of the
    /// branch.
    pub keys: IndexSet<Key>,
    /// How each pair was found. A root pair has its own place as its parent.
    pub ways: Vec<Way>,
    /// The numbers found so far of sets without the states of the branch.
    pub trims: Trims,
}

impl Pairs {
    /// Appends a pair unless it is already there. It was found on `letter` from the pair at `place`.
    fn add(&mut self, key: Key, place: usize, letter: u32) -> Result<(), OutOfMemory>
        ensures put { OnOk result (IsPut self.old.keys.keys self.new.keys.keys key) }
        ensures count { self.new.count ≡ self.old.count }
        ensures trims { self.new.trims ≡ self.old.trims }
    {
        if put(&mut self.keys, key)? {
            self.ways.push(Way {
                parent: place,
                letter,
            })?;
        }
        Ok(())
    }

    /// Appends the root pair of the set with the number `set` if the set's bit in the row `touched` is set, that is, if it
    /// holds a state of the branch.
    fn plant(
        &mut self,
        branch: &Branch,
        walk: &mut SetWalk,
        touched: &BitRow,
        set: u32,
    ) -> Result<(), SetsError>
        requires touched { AreTouched branch.now.keep.now walk.old self.old.count touched.now }
        requires closed { IsClosedTo branch.now.automaton.now walk.old self.old.count self.old.count }
        requires rooted { AreRooted branch.now.keep.now walk.old set self.old.keys.keys }
        requires set_in { set < self.old.count }
        requires trims { AreTrims branch.now.keep.now walk.old self.old.trims }
        ensures grown { OnOk result (IsGrown branch.now.automaton.now walk.old walk.new) }
        ensures touched { OnOk result (AreTouched branch.now.keep.now walk.new self.new.count touched.now) }
        ensures closed { OnOk result (IsClosedTo branch.now.automaton.now walk.new self.new.count self.new.count) }
        ensures rooted { OnOk result (AreRooted branch.now.keep.now walk.new (set + 1) self.new.keys.keys) }
        ensures count { self.new.count ≡ self.old.count }
        ensures trims { OnOk result (AreTrims branch.now.keep.now walk.new self.new.trims) }
    {
        if !touched.get(set as usize) {
            return Ok(());
        }
        let second = branch.trim(walk, &mut self.trims, set)?;
        let place = self.keys.len();
        self.add(Key { first: set, second }, place, 0)?;
        Ok(())
    }

    /// Returns the pairs with which a search begins: the root pair of each of the first `count` sets that holds a state of the
    /// branch. The row `touched` says which sets these are; the first `count` sets are the sets reached from the start.
    pub(crate) fn new(
        alloc: Global,
        branch: &Branch,
        walk: &mut SetWalk,
        touched: &BitRow,
        count: u32,
    ) -> Result<Pairs, SetsError>
        requires closed { IsClosedTo branch.now.automaton.now walk.old count count }
        requires touched { AreTouched branch.now.keep.now walk.old count touched.now }
        ensures grown { OnOk result (IsGrown branch.now.automaton.now walk.old walk.new) }
        ensures pairs { IfOk result (λ p. ArePairs branch.now.automaton.now branch.now.keep.now walk.new count p.keys.keys) }
        ensures count { IfOk result (λ p. p.count ≡ count) }
        ensures trims { IfOk result (λ p. AreTrims branch.now.keep.now walk.new p.trims) }
    {
        let mut pairs = Pairs {
            count,
            keys: IndexSet::new(alloc),
            ways: Vec::new(alloc),
            trims: Trims::new(alloc),
        };
        for set in 0..count {
            pairs.plant(branch, walk, touched, set)?;
        }
        Ok(pairs)
    }

    /// Appends the next pair, on a letter, of the pair at a place, unless it is already there, or both its sets are the same
    /// set reached from the start.
    fn visit(
        &mut self,
        branch: &Branch,
        walk: &mut SetWalk,
        place: usize,
        letter: u32,
    ) -> Result<(), SetsError>
        requires pairs { ArePairs branch.now.automaton.now branch.now.keep.now walk.old self.old.count self.old.keys.keys }
        requires place_in { place < length self.old.keys.keys }
        requires letter_in { letter < letters_count branch.now.automaton.now }
        requires trims { AreTrims branch.now.keep.now walk.old self.old.trims }
        ensures pairs { OnOk result (ArePairs branch.now.automaton.now branch.now.keep.now walk.new self.new.count self.new.keys.keys) }
        ensures onward { OnOk result (IsOnward branch.now.automaton.now walk.old walk.new self.old.keys.keys self.new.keys.keys) }
        ensures there { OnOk result (IsThere branch.now.keep.now walk.new self.new.count self.new.keys.keys
            (trim_on branch.now.automaton.now branch.now.keep.now (pair_at walk.old self.old.keys.keys place) letter)) }
        ensures count { self.new.count ≡ self.old.count }
        ensures trims { OnOk result (AreTrims branch.now.keep.now walk.new self.new.trims) }
    {
        let key = self.keys[place];
        let next = branch.next(walk, &mut self.trims, key, letter)?;
        if next.first == next.second && next.first < self.count {
            return Ok(());
        }
        self.add(next, place, letter)?;
        Ok(())
    }

    /// Appends the next pairs of the pair at a place, on each letter in order, as [`Pairs::visit`] does.
    fn expand(&mut self, branch: &Branch, walk: &mut SetWalk, place: usize) -> Result<(), SetsError>
        requires pairs { ArePairs branch.now.automaton.now branch.now.keep.now walk.old self.old.count self.old.keys.keys }
        requires place_in { place < length self.old.keys.keys }
        requires trims { AreTrims branch.now.keep.now walk.old self.old.trims }
        ensures pairs { OnOk result (ArePairs branch.now.automaton.now branch.now.keep.now walk.new self.new.count self.new.keys.keys) }
        ensures onward { OnOk result (IsOnward branch.now.automaton.now walk.old walk.new self.old.keys.keys self.new.keys.keys) }
        ensures done { OnOk result (IsDone branch.now.automaton.now branch.now.keep.now walk.new self.new.count self.new.keys.keys place) }
        ensures count { self.new.count ≡ self.old.count }
        ensures trims { OnOk result (AreTrims branch.now.keep.now walk.new self.new.trims) }
    {
        for letter in 0..branch.automaton.letters().count() {
            self.visit(branch, walk, place, letter)?;
        }
        Ok(())
    }

    /// Looks at the pair at a place, and appends its next pairs unless it shows a difference.
    fn look(&mut self, branch: &Branch, walk: &mut SetWalk, place: usize) -> Result<(), SetsError>
        requires pairs { ArePairs branch.now.automaton.now branch.now.keep.now walk.old self.old.count self.old.keys.keys }
        requires place_in { place < length self.old.keys.keys }
        requires trims { AreTrims branch.now.keep.now walk.old self.old.trims }
        ensures pairs { OnOk result (ArePairs branch.now.automaton.now branch.now.keep.now walk.new self.new.count self.new.keys.keys) }
        ensures onward { OnOk result (IsOnward branch.now.automaton.now walk.old walk.new self.old.keys.keys self.new.keys.keys) }
        ensures done { OnOk result (IsDone branch.now.automaton.now branch.now.keep.now walk.new self.new.count self.new.keys.keys place) }
        ensures count { self.new.count ≡ self.old.count }
        ensures trims { OnOk result (AreTrims branch.now.keep.now walk.new self.new.trims) }
    {
        let key = self.keys[place];
        if branch.differs(walk, key) {
            return Ok(());
        }
        self.expand(branch, walk, place)?;
        Ok(())
    }

    /// Looks at the pairs one after another, including those that are appended meanwhile. Returns true once all were looked
    /// at, or false if there are `MOST_PAIRS` or more.
    pub(crate) fn grow(&mut self, branch: &Branch, walk: &mut SetWalk) -> Result<bool, SetsError>
        requires pairs { ArePairs branch.now.automaton.now branch.now.keep.now walk.old self.old.count self.old.keys.keys }
        requires trims { AreTrims branch.now.keep.now walk.old self.old.trims }
        ensures grown { OnOk result (IsGrown branch.now.automaton.now walk.old walk.new) }
        ensures pairs { OnOk result (ArePairs branch.now.automaton.now branch.now.keep.now walk.new self.new.count self.new.keys.keys) }
        ensures done { IfOk result (λ all. all ≡ true
            → AreDone branch.now.automaton.now branch.now.keep.now walk.new self.new.count self.new.keys.keys (length self.new.keys.keys)) }
        ensures count { self.new.count ≡ self.old.count }
        ensures trims { OnOk result (AreTrims branch.now.keep.now walk.new self.new.trims) }
    {
        for place in 0..MOST_PAIRS {
            if place == self.keys.len() {
                return Ok(true);
            }
            self.look(branch, walk, place)?;
        }
        Ok(false)
    }

    /// Returns the place of the first pair that shows a difference, or `None` if none does.
    pub(crate) fn apart(&self, branch: &Branch, walk: &SetWalk) -> Option<usize>
        requires { ArePairs branch.now.automaton.now branch.now.keep.now walk.now self.now.count self.now.keys.keys }
        ensures { result ≡ None → NoneApart branch.now.automaton.now walk.now self.now.keys.keys (length self.now.keys.keys) }
    {
        for place in 0..self.keys.len() {
            let key = self.keys[place];
            if branch.differs(walk, key) {
                return Some(place);
            }
        }
        None
    }
}
