//! Searches breadth first for a set pair that shows a difference.

ghost use Rattle.std.specs.Prelude.{◌≡◌, ℕ, ◌<◌, ◌≤◌, ◌∷◌, [], true, false, not, ◌&&◌, List, length, map, slice_index_or, IfOk, OnOk};
ghost use Rattle.rl_syntax.specs.declared.limits.TheConstants.{MOST_SET_PAIRS};
ghost use Rattle.rl_prio.specs.Automaton.{letters_count};
ghost use Rattle.rl_equiv.specs.declared.pair.SetPair.{SetPair};
ghost use Rattle.rl_equiv.specs.SetPairs.{first_pair};
ghost use Rattle.rl_equiv.specs.Numbering.{Reached, next_reached, with_all_reached, IsAnswer};
ghost use Rattle.rl_equiv.specs.internal.Machines.{pair_on, pairs_of};
ghost use Rattle.rl_equiv.specs.internal.Searching.{AreReaders, no_way, state_of, pairs_in, pair_at, key_at, way_at, reached_in, reached_at, reached_on, with_reached_within, IsSearch, IsOnward, AreCapped, ends_of, is_apart, IsSeen, IsThrough, IsSeenApart, Leads, sample_of, TellsApart};
ghost use Rattle.rl_equiv.specs.Sides.{IsSide};

use crate::pair::{Relation, SetPair};
use crate::sameness::Sameness;
use crate::sides::{begin_side, ends_at, fresh_side, start_side, step_to};
use indexmap::IndexSet;
use rl_lists::{Codes, Items, OutOfMemory};
use rl_prio::Prio;
use rl_sets::SetWalk;
use std::alloc::Global;

/// A set pair, by the numbers of its sets.
#[derive(Clone, Copy, Debug, PartialEq, Eq, Hash)]
pub(crate) struct PairKey {
    /// The number of the set of the first automaton.
    pub first: u32,
    /// The number of the set of the second automaton.
    pub second: u32,
}

/// How a set pair was found: from which earlier one, and on which letter.
#[derive(Clone, Copy)]
pub(crate) struct Way {
    /// The place of the earlier set pair.
    pub parent: usize,
    /// The letter.
    pub letter: u32,
}

/// Which of the two sets of a set pair the end letter leads to the accepting state.
#[derive(Clone, Copy, Debug, PartialEq, Eq)]
pub(crate) struct Ends {
    /// Whether the end letter leads the first set to the accepting state.
    pub first: bool,
    /// Whether the end letter leads the second set to the accepting state.
    pub second: bool,
}

/// A search: the set pairs in the order in which they were found. Once there are more than the limit, no more are
/// appended.
#[derive(Drop)]
pub(crate) struct PairSearch {
    /// How many set pairs it looks at, at most.
    pub limit: u32,
    /// The sets of the first automaton.
    pub first: SetWalk,
    /// The sets of the second automaton.
    pub second: SetWalk,
    /// The set pairs.
    pub keys: IndexSet<PairKey>,
    /// How each was found.
    pub ways: Vec<Way>,
}

/// Returns whether a search ends at a set pair: it isn't asked to look at all, and this one shows a difference.
fn stops(all: bool, ends: Ends) -> bool
    ensures { result ≡ (not all && is_apart ends) }
{
    !all && ends.first != ends.second
}

/// Returns the set pairs that are found at the beginning, and how: only that of the two starts, whose sets have the given
/// numbers.
fn first_found(
    alloc: Global,
    start: u32,
    other_start: u32,
) -> Result<(IndexSet<PairKey>, Vec<Way>), OutOfMemory>
    ensures keys { IfOk result (λ r. r.0.keys ≡ record { first = start; second = other_start } ∷ []) }
    ensures ways { IfOk result (λ r. r.1.items ≡ no_way ∷ []) }
{
    let ways = vec![in alloc;
        Way {
            parent: 0,
            letter: 0,
        },
    ]?;
    let mut keys = IndexSet::new(alloc);
    keys.insert(PairKey {
        first: start,
        second: other_start,
    })?;
    Ok((keys, ways))
}

impl PairSearch {
    /// Returns a search that has found only the set pair of the start states. `limit` must be from 1 to 20,000.
    pub(crate) fn new(
        alloc: Global,
        a: &Prio,
        b: &Prio,
        limit: u32,
    ) -> Result<PairSearch, OutOfMemory>
        requires readers { AreReaders a.now b.now }
        requires some { 1 ≤ limit }
        requires low { limit ≤ MOST_SET_PAIRS }
        ensures search { IfOk result (λ s. IsSearch a.now b.now (state_of s)) }
        ensures limit { IfOk result (λ s. s.limit ≡ limit) }
        ensures one { IfOk result (λ s. pairs_in (state_of s) ≡ first_pair ∷ []) }
    {
        let walk = begin_side(alloc, a)?;
        PairSearch::go_on(alloc, a, b, walk, limit)
    }

    /// Returns a search that has found only the set pair of the start states. It goes on with `walk`, a walk over the sets of
    /// the first automaton, and the images that this walk has. `limit` must be from 1 to 20,000.
    pub(crate) fn go_on(
        alloc: Global,
        a: &Prio,
        b: &Prio,
        walk: SetWalk,
        limit: u32,
    ) -> Result<PairSearch, OutOfMemory>
        requires readers { AreReaders a.now b.now }
        requires side { IsSide a.now MOST_SET_PAIRS 0 walk }
        requires some { 1 ≤ limit }
        requires low { limit ≤ MOST_SET_PAIRS }
        ensures search { IfOk result (λ s. IsSearch a.now b.now (state_of s)) }
        ensures limit { IfOk result (λ s. s.limit ≡ limit) }
        ensures one { IfOk result (λ s. pairs_in (state_of s) ≡ first_pair ∷ []) }
    {
        let (first, start) = start_side(alloc, a, walk)?;
        let Ok((second, other_start)) = fresh_side(alloc, b) else {
            drop(first);
            return Err(OutOfMemory);
        };
        PairSearch::begun(alloc, first, start, second, other_start, limit)
    }

    /// Returns a search over these walks that has found the set pair of the starts; `start` and `other_start` are the numbers
    /// of their sets.
    fn begun(
        alloc: Global,
        first: SetWalk,
        start: u32,
        second: SetWalk,
        other_start: u32,
        limit: u32,
    ) -> Result<PairSearch, OutOfMemory>
        ensures { IfOk result (λ s. state_of s ≡ record {
          limit = limit;
          first = first;
          second = second;
          keys = record { first = start; second = other_start } ∷ [];
          ways = no_way ∷ [];
        }) }
    {
        let Ok((keys, ways)) = first_found(alloc, start, other_start) else {
            drop(first);
            drop(second);
            return Err(OutOfMemory);
        };
        Ok(PairSearch {
            limit,
            first,
            second,
            keys,
            ways,
        })
    }

    /// Returns the walk over the sets of the first automaton, with the images that the search has computed.
    pub(crate) fn into_first(self) -> SetWalk
        ensures { result ≡ self.first }
    {
        let PairSearch { first, second, .. } = self;
        drop(second);
        first
    }

    /// Returns the ends of the set pair at a place.
    fn ends(&mut self, a: &Prio, b: &Prio, place: usize) -> Result<Ends, OutOfMemory>
        requires readers { AreReaders a.now b.now }
        requires search { IsSearch a.now b.now (state_of self.old) }
        requires place_in { place < length (state_of self.old).keys }
        ensures ends { IfOk result (λ ends. ends ≡ ends_of (pairs_of a.now b.now) (pair_at (state_of self.old) place)) }
        ensures search { OnOk result (IsSearch a.now b.now (state_of self.new)) }
        ensures limit { OnOk result ((state_of self.new).limit ≡ (state_of self.old).limit) }
        ensures pairs { OnOk result (pairs_in (state_of self.new) ≡ pairs_in (state_of self.old)) }
        ensures ways { OnOk result ((state_of self.new).ways ≡ (state_of self.old).ways) }
    {
        let key = self.keys[place];
        let first = ends_at(&mut self.first, a, key.first)?;
        let second = ends_at(&mut self.second, b, key.second)?;
        Ok(Ends { first, second })
    }

    /// Appends the set pair to which a letter leads from the one at a place, unless it was found already or there are more
    /// than the limit.
    fn visit(&mut self, a: &Prio, b: &Prio, place: usize, letter: u32) -> Result<(), OutOfMemory>
        requires readers { AreReaders a.now b.now }
        requires search { IsSearch a.now b.now (state_of self.old) }
        requires place_in { place < length (state_of self.old).keys }
        requires letter_in { letter < letters_count a.now }
        ensures onward { OnOk result (IsOnward a.now b.now (state_of self.old) (state_of self.new)) }
        ensures reached { OnOk result (reached_in (state_of self.new)
            ≡ with_reached_within (state_of self.old).limit (reached_in (state_of self.old)) (reached_on a.now b.now (reached_at (state_of self.old) place) letter)) }
    {
        if self.keys.len() > self.limit as usize {
            return Ok(());
        }
        let key = self.keys[place];
        let first = step_to(&mut self.first, a, key.first, letter)?;
        let second = step_to(&mut self.second, b, key.second, letter)?;
        if self.keys.insert(PairKey { first, second })? {
            self.ways.push(Way {
                parent: place,
                letter,
            })?;
        }
        Ok(())
    }

    /// Appends the next set pairs of the one at a place, letter by letter.
    fn expand(&mut self, a: &Prio, b: &Prio, place: usize) -> Result<(), OutOfMemory>
        requires readers { AreReaders a.now b.now }
        requires search { IsSearch a.now b.now (state_of self.old) }
        requires place_in { place < length (state_of self.old).keys }
        ensures onward { OnOk result (IsOnward a.now b.now (state_of self.old) (state_of self.new)) }
        ensures reached { OnOk result ((whole : List Reached) → AreCapped (state_of self.old).limit (reached_in (state_of self.old)) whole
            → AreCapped (state_of self.old).limit (reached_in (state_of self.new)) (with_all_reached whole (next_reached (pairs_of a.now b.now) (reached_at (state_of self.old) place)))) }
    {
        for letter in 0..a.letters().count() {
            self.visit(a, b, place, letter)?;
        }
        Ok(())
    }

    /// Looks at the first `limit` set pairs, one after another, and returns their ends. Unless `all` is true, it stops after
    /// the first one that shows a difference.
    pub(crate) fn look(
        &mut self,
        alloc: Global,
        a: &Prio,
        b: &Prio,
        all: bool,
    ) -> Result<Vec<Ends>, OutOfMemory>
        requires readers { AreReaders a.now b.now }
        requires search { IsSearch a.now b.now (state_of self.old) }
        requires one { pairs_in (state_of self.old) ≡ first_pair ∷ [] }
        ensures seen { IfOk result (λ seen. IsSeen a.now b.now (state_of self.old).limit (state_of self.new) seen.items) }
        ensures some { IfOk result (λ seen. 0 < length seen.items) }
        ensures through { IfOk result (λ seen. all ≡ true → IsThrough (state_of self.old).limit (state_of self.new) seen.items) }
        ensures apart { IfOk result (λ seen. all ≡ false → IsSeenApart (state_of self.old).limit (state_of self.new) seen.items) }
    {
        let mut seen = Vec::new(alloc);
        while seen.len() < self.keys.len() {
            let place = seen.len();
            if place >= self.limit as usize {
                return Ok(seen);
            }
            let ends = self.ends(a, b, place)?;
            self.expand(a, b, place)?;
            seen.push(ends)?;
            if stops(all, ends) {
                return Ok(seen);
            }
        }
        Ok(seen)
    }

    /// Returns the text of the sample codes of the letters by which the set pair at a place was found.
    pub(crate) fn text_to(
        &self,
        alloc: Global,
        a: &Prio,
        place: usize,
    ) -> Result<Codes, OutOfMemory>
        requires place_in { place < length (state_of self.now).ways }
        requires earlier { (k : ℕ) → 0 < k → k < length (state_of self.now).ways → (way_at (state_of self.now) k).parent < k }
        requires small { (k : ℕ) → 0 < k → k < length (state_of self.now).ways → (way_at (state_of self.now) k).letter < letters_count a.now }
        ensures { IfOk result (λ text. (word : List ℕ) × Leads (state_of self.now).ways place word × (text ≡ map (sample_of a.now) word)) }
    {
        let mut back = Vec::new(alloc);
        let mut at = place;
        while at > 0 {
            let way = self.ways[at];
            back.push(a.letters().sample(way.letter))?;
            at = way.parent;
        }
        back.reverse();
        Ok(Items::from_vec(back))
    }

    /// Returns the set pairs that were found.
    fn relation(&self, alloc: Global) -> Result<Relation, OutOfMemory>
        requires first_in { (k : ℕ) → k < length (state_of self.now).keys → (key_at (state_of self.now) k).first < length (state_of self.now).first.sets }
        requires second_in { (k : ℕ) → k < length (state_of self.now).keys → (key_at (state_of self.now) k).second < length (state_of self.now).second.sets }
        ensures { IfOk result (λ r. r ≡ pairs_in (state_of self.now)) }
    {
        let mut relation = Items::new(alloc);
        for place in 0..self.keys.len() {
            let key = self.keys[place];
            let first = self.first.members(key.first)?;
            let second = self.second.members(key.second)?;
            relation.push(SetPair { first, second })?;
        }
        Ok(relation)
    }

    /// Runs a search that has found only the set pair of the start states, and returns what its first set pairs, up to its
    /// limit, show.
    pub(crate) fn run(&mut self, alloc: Global, a: &Prio, b: &Prio) -> Result<Sameness, OutOfMemory>
        requires readers { AreReaders a.now b.now }
        requires search { IsSearch a.now b.now (state_of self.old) }
        requires one { pairs_in (state_of self.old) ≡ first_pair ∷ [] }
        ensures answer { IfOk result (IsAnswer (pairs_of a.now b.now) (state_of self.old).limit) }
        ensures apart { IfOk result (TellsApart a.now b.now) }
        ensures search { OnOk result (IsSearch a.now b.now (state_of self.new)) }
    {
        let seen = self.look(alloc, a, b, false)?;
        let place = seen.len() - 1;
        let last = seen[place];
        if last.first != last.second {
            let text = self.text_to(alloc, a, place)?;
            return Ok(Sameness::Apart(text));
        }
        if self.keys.len() > self.limit as usize {
            return Ok(Sameness::Passed);
        }
        let relation = self.relation(alloc)?;
        Ok(Sameness::Equal(relation))
    }
}
