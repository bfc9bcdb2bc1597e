//! Trials in order, which look at pairs breadth first, letter by letter, as a comparison of both trees looks at their set
//! pairs, and so have the same result.
//!
//! The root pair of a set is the set and the same set without the states of the branch. The place of a pair is its index in
//! the list of the pairs found, from 0.

ghost use Rattle.std.specs.Prelude.{◌≡◌, ◌<◌, ◌⊎◌, ◌∷◌, [], ℕ, true, false, length, replicate, slice_index_or, IfOk, OnOk};
ghost use Rattle.rl_prio.specs.Automaton.{letters_count};
ghost use Rattle.rl_equiv.specs.SetPairs.{first_pair};
ghost use Rattle.rl_equiv.specs.Numbering.{with_one, with_more};
ghost use Rattle.rl_trim.specs.Judged.{IsFound};
ghost use Rattle.rl_trim.specs.internal.Trims.{trim_on, trim_nexts, trim_differs, trim_pairs};
ghost use Rattle.rl_trim.specs.internal.Quick.{IsGrown, IsInside, no_key, pair_of, pair_at};
ghost use Rattle.rl_trim.specs.declared.store.TheConstants.{MOST_SETS};
ghost use Rattle.rl_trim.specs.Changes.{AreChanges, AreChangesIf};
ghost use Rattle.rl_trim.specs.internal.Orders.{with_key, pairs_in, AreKeys, AreArrived};

use crate::branch::{Branch, Trims, step};
use crate::changes::{Changes, changes_on, changes_or, is_changed};
use crate::judgement::Judgement;
use crate::key::Key;
use crate::store::MOST_SETS;
use indexmap::IndexSet;
use rl_lanes::BitRow;
use rl_lists::OutOfMemory;
use rl_sets::{SetWalk, SetsError};
use std::alloc::Global;

/// The least number of letters for which it is worth finding out on which of them states have other moves than on the letter
/// before.
const MANY_LETTERS: u32 = 16;

/// For the pairs at this many first places, the next pairs are found on every letter, without finding out which letters can be
/// skipped.
const PLAIN_PLACES: usize = 100;

/// What is known of the sets that the search has found.
#[derive(Drop)]
pub(crate) struct Arrived {
    /// A bit for each number of a set, which is set only if the root pair of the set has been found.
    pub whole: BitRow,
    /// The numbers found so far of sets without the states of the branch.
    pub trims: Trims,
}

/// The pairs found so far, in the order in which they were found.
#[derive(Drop)]
pub(crate) struct Order {
    /// The pairs.
    pub keys: IndexSet<Key>,
    /// What is known of the sets of the pairs.
    pub arrived: Arrived,
}

impl Order {
    /// Returns the search that has found only the first pair, in which both sets are the set with the number 0, the set of
    /// only the start.
    pub(crate) fn new(alloc: Global) -> Result<Order, OutOfMemory>
        ensures keys { IfOk result (λ o. o.keys.keys ≡ no_key ∷ []) }
        ensures whole { IfOk result (λ o. o.arrived.whole ≡ replicate MOST_SETS false) }
        ensures trims { IfOk result (λ o. o.arrived.trims.numbers.items ≡ []) }
    {
        let whole = BitRow::zeros(alloc, MOST_SETS as usize)?;
        let mut keys = IndexSet::new(alloc);
        let first = Key {
            first: 0,
            second: 0,
        };
        let Ok(_) = keys.insert(first) else {
            drop(keys);
            drop(whole);
            return Err(OutOfMemory);
        };
        let arrived = Arrived {
            whole,
            trims: Trims::new(alloc),
        };
        Ok(Order { keys, arrived })
    }

    /// Returns whether the root pair of the set with the number `set` is noted as found.
    fn has_arrived(&self, set: u32) -> bool
        ensures { result ≡ true → slice_index_or self.now.arrived.whole set false ≡ true }
    {
        if set as usize >= self.arrived.whole.len() {
            return false;
        }
        self.arrived.whole.get(set as usize)
    }

    /// Notes that the root pair of the set with the number `set` was found. Does nothing if the row has no bit for the set.
    fn note(&mut self, set: u32)
        ensures whole { (k : ℕ) → slice_index_or self.new.arrived.whole k false ≡ true → (slice_index_or self.old.arrived.whole k false ≡ true) ⊎ (k ≡ set) }
        ensures trims { self.new.arrived.trims ≡ self.old.arrived.trims }
        ensures keys { self.new.keys ≡ self.old.keys }
    {
        if set as usize >= self.arrived.whole.len() {
            return;
        }
        self.arrived.whole.set(set as usize, true);
    }

    /// Appends the pair `key` unless it is already there.
    fn put(&mut self, key: Key) -> Result<(), OutOfMemory>
        ensures keys { OnOk result (self.new.keys.keys ≡ with_key self.old.keys.keys key) }
        ensures arrived { self.new.arrived ≡ self.old.arrived }
    {
        self.keys.insert(key)?;
        Ok(())
    }

    /// Appends the next pair, on a letter, of the pair `key`, both of whose sets are the same, unless it is already there. The
    /// next pair is the root pair of the set's image, so nothing is looked up if this root pair is noted as found.
    fn visit_whole(
        &mut self,
        branch: &Branch,
        walk: &mut SetWalk,
        key: Key,
        letter: u32,
    ) -> Result<(), SetsError>
        requires keys { AreKeys branch.now.automaton.now walk.old self.old.keys.keys }
        requires arrived { AreArrived branch.now.keep.now walk.old self.old.keys.keys self.old.arrived }
        requires inside { IsInside walk.old key }
        requires whole { key.second ≡ key.first }
        requires letter_in { letter < letters_count branch.now.automaton.now }
        ensures grown { OnOk result (IsGrown branch.now.automaton.now walk.old walk.new) }
        ensures keys { OnOk result (AreKeys branch.now.automaton.now walk.new self.new.keys.keys) }
        ensures arrived { OnOk result (AreArrived branch.now.keep.now walk.new self.new.keys.keys self.new.arrived) }
        ensures pairs { OnOk result (pairs_in walk.new self.new.keys.keys
            ≡ with_one (pairs_in walk.old self.old.keys.keys) (trim_on branch.now.automaton.now branch.now.keep.now (pair_of walk.old key) letter)) }
    {
        let first = step(walk, branch.automaton, key.first, letter)?;
        if self.has_arrived(first) {
            return Ok(());
        }
        let second = branch.trim(walk, &mut self.arrived.trims, first)?;
        self.put(Key { first, second })?;
        self.note(first);
        Ok(())
    }

    /// Appends the next pair, on a letter, of the pair at a place, unless it is already there.
    fn visit(
        &mut self,
        branch: &Branch,
        walk: &mut SetWalk,
        place: usize,
        letter: u32,
    ) -> Result<(), SetsError>
        requires keys { AreKeys branch.now.automaton.now walk.old self.old.keys.keys }
        requires arrived { AreArrived branch.now.keep.now walk.old self.old.keys.keys self.old.arrived }
        requires place_in { place < length self.old.keys.keys }
        requires letter_in { letter < letters_count branch.now.automaton.now }
        ensures grown { OnOk result (IsGrown branch.now.automaton.now walk.old walk.new) }
        ensures keys { OnOk result (AreKeys branch.now.automaton.now walk.new self.new.keys.keys) }
        ensures arrived { OnOk result (AreArrived branch.now.keep.now walk.new self.new.keys.keys self.new.arrived) }
        ensures pairs { OnOk result (pairs_in walk.new self.new.keys.keys
            ≡ with_one (pairs_in walk.old self.old.keys.keys) (trim_on branch.now.automaton.now branch.now.keep.now (pair_at walk.old self.old.keys.keys place) letter)) }
    {
        let key = self.keys[place];
        if key.second == key.first {
            return self.visit_whole(branch, walk, key, letter);
        }
        let next = branch.next(walk, &mut self.arrived.trims, key, letter)?;
        self.put(next)?;
        Ok(())
    }

    /// Appends the next pairs of the pair at a place, on each letter in order, unless they are already there.
    fn expand_each(
        &mut self,
        branch: &Branch,
        walk: &mut SetWalk,
        place: usize,
    ) -> Result<(), SetsError>
        requires keys { AreKeys branch.now.automaton.now walk.old self.old.keys.keys }
        requires arrived { AreArrived branch.now.keep.now walk.old self.old.keys.keys self.old.arrived }
        requires place_in { place < length self.old.keys.keys }
        ensures grown { OnOk result (IsGrown branch.now.automaton.now walk.old walk.new) }
        ensures keys { OnOk result (AreKeys branch.now.automaton.now walk.new self.new.keys.keys) }
        ensures arrived { OnOk result (AreArrived branch.now.keep.now walk.new self.new.keys.keys self.new.arrived) }
        ensures pairs { OnOk result (pairs_in walk.new self.new.keys.keys
            ≡ with_more (pairs_in walk.old self.old.keys.keys) (trim_nexts branch.now.automaton.now branch.now.keep.now (pair_at walk.old self.old.keys.keys place))) }
    {
        for letter in 0..branch.automaton.letters().count() {
            self.visit(branch, walk, place, letter)?;
        }
        Ok(())
    }

    /// Appends the next pairs of the pair at a place as `expand_each` does, but skips the letters on which no state of its
    /// sets has other moves than on the letter before: on such a letter, the next pair is the same as on the letter before.
    fn expand_changed(
        &mut self,
        branch: &Branch,
        walk: &mut SetWalk,
        changes: &Changes,
        place: usize,
    ) -> Result<(), SetsError>
        requires changes { AreChanges branch.now.automaton.now changes.now }
        requires keys { AreKeys branch.now.automaton.now walk.old self.old.keys.keys }
        requires arrived { AreArrived branch.now.keep.now walk.old self.old.keys.keys self.old.arrived }
        requires place_in { place < length self.old.keys.keys }
        ensures grown { OnOk result (IsGrown branch.now.automaton.now walk.old walk.new) }
        ensures keys { OnOk result (AreKeys branch.now.automaton.now walk.new self.new.keys.keys) }
        ensures arrived { OnOk result (AreArrived branch.now.keep.now walk.new self.new.keys.keys self.new.arrived) }
        ensures pairs { OnOk result (pairs_in walk.new self.new.keys.keys
            ≡ with_more (pairs_in walk.old self.old.keys.keys) (trim_nexts branch.now.automaton.now branch.now.keep.now (pair_at walk.old self.old.keys.keys place))) }
    {
        let key = self.keys[place];
        let changed = changes_on(branch.alloc, changes, branch.automaton, walk, key)?;
        for letter in 0..branch.automaton.letters().count() {
            if is_changed(&changed, letter) {
                self.visit(branch, walk, place, letter)?;
            }
        }
        Ok(())
    }

    /// Appends the next pairs of the pair at a place, on each letter in order, unless they are already there. At the first
    /// `PLAIN_PLACES` places, and if there are fewer than `MANY_LETTERS` letters, no letter is skipped; otherwise
    /// `expand_changed` is used, and the changes that it needs are found and kept in `changes` if they aren't there yet.
    fn expand(
        &mut self,
        branch: &Branch,
        walk: &mut SetWalk,
        changes: &mut Option<Changes>,
        place: usize,
    ) -> Result<(), SetsError>
        requires changes { AreChangesIf branch.now.automaton.now changes.old }
        requires keys { AreKeys branch.now.automaton.now walk.old self.old.keys.keys }
        requires arrived { AreArrived branch.now.keep.now walk.old self.old.keys.keys self.old.arrived }
        requires place_in { place < length self.old.keys.keys }
        ensures grown { OnOk result (IsGrown branch.now.automaton.now walk.old walk.new) }
        ensures keys { OnOk result (AreKeys branch.now.automaton.now walk.new self.new.keys.keys) }
        ensures arrived { OnOk result (AreArrived branch.now.keep.now walk.new self.new.keys.keys self.new.arrived) }
        ensures pairs { OnOk result (pairs_in walk.new self.new.keys.keys
            ≡ with_more (pairs_in walk.old self.old.keys.keys) (trim_nexts branch.now.automaton.now branch.now.keep.now (pair_at walk.old self.old.keys.keys place))) }
        ensures changes { OnOk result (AreChangesIf branch.now.automaton.now changes.new) }
    {
        if place < PLAIN_PLACES || branch.automaton.letters().count() < MANY_LETTERS {
            return self.expand_each(branch, walk, place);
        }
        let known = changes_or(branch.alloc, branch.automaton, changes.take())?;
        let expanded = self.expand_changed(branch, walk, &known, place);
        drop(changes.replace(known));
        expanded
    }

    /// Returns whether the pair at a place shows a difference: the end letter leads exactly one of its sets to the accepting
    /// state.
    fn differs(&self, branch: &Branch, walk: &SetWalk, place: usize) -> bool
        requires keys { AreKeys branch.now.automaton.now walk.now self.now.keys.keys }
        requires place_in { place < length self.now.keys.keys }
        ensures { result ≡ trim_differs branch.now.automaton.now (pair_at walk.now self.now.keys.keys place) }
    {
        branch.differs(walk, self.keys[place])
    }

    /// Carries out the trial: looks at the first `limit` pairs one after another, and appends the next pairs of each. Returns
    /// `Apart` as soon as one of them shows a difference, `Equal` if there are no more than `limit` pairs and none does, and
    /// `Exceeded` otherwise. Once more than `limit` pairs are found, no further ones are searched for. The search must have
    /// found only the first pair yet. The changes of the states are found and kept in `changes` if they are needed and aren't
    /// there yet.
    pub(crate) fn judge(
        &mut self,
        branch: &Branch,
        walk: &mut SetWalk,
        changes: &mut Option<Changes>,
        limit: usize,
    ) -> Result<Judgement, SetsError>
        requires changes { AreChangesIf branch.now.automaton.now changes.old }
        requires keys { AreKeys branch.now.automaton.now walk.old self.old.keys.keys }
        requires arrived { AreArrived branch.now.keep.now walk.old self.old.keys.keys self.old.arrived }
        requires one { pairs_in walk.old self.old.keys.keys ≡ first_pair ∷ [] }
        ensures found { IfOk result (IsFound (trim_pairs branch.now.automaton.now branch.now.keep.now) limit) }
        ensures grown { OnOk result (IsGrown branch.now.automaton.now walk.old walk.new) }
        ensures changes { OnOk result (AreChangesIf branch.now.automaton.now changes.new) }
    {
        for place in 0..limit {
            if place == self.keys.len() {
                return Ok(Judgement::Equal);
            }
            if self.differs(branch, walk, place) {
                return Ok(Judgement::Apart);
            }
            if self.keys.len() <= limit {
                self.expand(branch, walk, changes, place)?;
            }
        }
        if self.keys.len() > limit {
            return Ok(Judgement::Exceeded);
        }
        Ok(Judgement::Equal)
    }
}
