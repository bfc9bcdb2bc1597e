//! The search for live pairs.

ghost use Rattle.std.specs.Prelude.{◌≡◌, ◌≢◌, ℕ, suc, ◌+◌, ◌-◌, ◌*◌, ◌^◌, ◌<◌, ◌≤◌, [], ◌∷◌, ◌++◌, All, length, IfOk, IfErr, OnOk, IfSome, IfNone, IsTrue};
ghost use Rattle.rl_prio.specs.Automaton.{letters_count};
ghost use Rattle.rl_graph.specs.Paths.{Has};
ghost use Rattle.rl_sets.specs.Live.{image};
ghost use Rattle.rl_sets.specs.Walk.{set_at};
ghost use Rattle.rl_pairs.specs.LivePairs.{next_pairs};
ghost use Rattle.rl_pairs.specs.internal.Errors.{IsRightError};
ghost use Rattle.rl_pairs.specs.internal.Counting.{IsCounted, IsCounting, IsOnward, IsNumberOf, HasNumber};
ghost use Rattle.rl_pairs.specs.internal.Finding.{found_of, with_row, first_key, key_at, pair_of, pair_at, lead_at, width, next_of, IsFound, Stays, IsMoved, IsNoted, IsFurther, IsWhole, set_for};

use crate::counting::{close, image_of, joined_with, rest_of};
use crate::error::PairsError;
use indexmap::IndexSet;
use rl_graph::RowList;
use rl_lists::{Items, OutOfMemory, Word};
use rl_prio::Prio;
use rl_sets::SetWalk;
use std::alloc::Global;

/// A pair, given by its state and the number of its set.
#[derive(Clone, Copy, Debug, PartialEq, Eq, Hash)]
pub(crate) struct Key {
    /// The state.
    pub state: u32,
    /// The number of the set in the walk.
    pub set: u32,
}

/// The number of pairs for which there is room at first. Many automata have no more live pairs.
const FIRST_ROOM: usize = 18;

/// Returns a list of one item, with room for `room` items.
fn begun_with<T: Drop>(alloc: Global, room: usize, item: T) -> Result<Vec<T>, OutOfMemory>
    ensures { IfOk result (λ list. list.items ≡ item ∷ []) }
{
    let mut list = Vec::with_capacity(alloc, room)?;
    list.push(item)?;
    Ok(list)
}

/// Returns a set that holds only the key of the first pair, with room for `FIRST_ROOM` keys.
fn first_keys(alloc: Global) -> Result<IndexSet<Key>, OutOfMemory>
    ensures { IfOk result (λ keys. keys.keys ≡ first_key ∷ []) }
{
    let mut keys = IndexSet::with_capacity(alloc, FIRST_ROOM)?;
    keys.insert(Key { state: 0, set: 0 })?;
    Ok(keys)
}

/// The pairs found so far, in the order in which they were found, with a lead and a rest for each of them, and the targets of
/// the moves that were looked at, as a row for each pair and letter.
#[derive(Drop)]
pub(crate) struct Finder {
    /// The greatest number of pairs allowed.
    pub limit: u32,
    /// The keys of the pairs.
    pub keys: IndexSet<Key>,
    /// For each pair, a word that leads to it.
    pub leads: Vec<Word>,
    /// For each pair, a rest that its set refuses.
    pub rests: Vec<Word>,
    /// For each pair and letter, the targets of its moves.
    pub rows: RowList,
}

impl Finder {
    /// Returns a search that has found only the first pair, with at most `limit` pairs allowed.
    pub(crate) fn new(alloc: Global, a: &Prio, limit: u32) -> Result<Finder, OutOfMemory>
        ensures { IfOk result (λ f. found_of f ≡ record { limit = limit; keys = first_key ∷ []; leads = [] ∷ []; rests = (letters_count a.now ∷ []) ∷ []; rows = [] }) }
    {
        let end = begun_with(alloc, 1, a.letters().count())?;
        let rests = begun_with(alloc, FIRST_ROOM, Items::from_vec(end))?;
        let Ok(leads) = begun_with(alloc, FIRST_ROOM, Items::new(alloc)) else {
            drop(rests);
            return Err(OutOfMemory);
        };
        let Ok(keys) = first_keys(alloc) else {
            drop(leads);
            drop(rests);
            return Err(OutOfMemory);
        };
        Ok(Finder {
            limit,
            keys,
            leads,
            rests,
            rows: RowList::new(alloc),
        })
    }

    /// Returns the lead of a pair, followed by one more letter.
    fn longer_lead(&self, from: u32, letter: u32) -> Result<Word, OutOfMemory>
        requires { from < length (found_of self.now).leads }
        ensures { IfOk result (λ w. w ≡ lead_at (found_of self.now) from ++ letter ∷ []) }
    {
        let lead = self.leads[from as usize].as_slice();
        let mut letters = Vec::with_capacity(*self.leads.allocator(), lead.len() + 1)?;
        letters.extend_from_slice(lead)?;
        letters.push(letter)?;
        Ok(Items::from_vec(letters))
    }

    /// Appends a pair, given by its key, with its lead and its rest. The pair must be new.
    fn add(&mut self, key: Key, lead: Word, rest: Word) -> Result<(), OutOfMemory>
        requires { (k : ℕ) → k < length (found_of self.old).keys → key_at (found_of self.old) k ≢ key }
        ensures { OnOk result (found_of self.new ≡ record { limit = (found_of self.old).limit; keys = (found_of self.old).keys ++ key ∷ []; leads = (found_of self.old).leads ++ lead ∷ []; rests = (found_of self.old).rests ++ rest ∷ []; rows = (found_of self.old).rows }) }
    {
        self.leads.push(lead)?;
        self.rests.push(rest)?;
        self.keys.insert(key)?;
        Ok(())
    }

    /// Returns the number of pairs found.
    pub(crate) fn count(&self) -> u32
        requires { length (found_of self.now).keys ≤ (found_of self.now).limit }
        ensures count { result ≡ length (found_of self.now).keys }
        ensures limit { (found_of self.now).limit < 2 ^ 32 }
    {
        // Reading the limit tells the prover that it fits in 32 bits. The number of pairs is at most the limit.
        let _limit = self.limit;
        self.keys.len() as u32
    }

    /// Appends a row of targets.
    fn end_row(&mut self, row: &[u32]) -> Result<(), OutOfMemory>
        ensures { OnOk result (found_of self.new ≡ with_row (found_of self.old) row.now) }
    {
        self.rows.push_row(row)
    }

    /// Returns the number of a pair, or `None` if it hasn't been found.
    fn number_of(&self, key: Key) -> Option<u32>
        requires { length (found_of self.now).keys ≤ (found_of self.now).limit }
        ensures found { IfSome result (λ k. (k < length (found_of self.now).keys) × (key_at (found_of self.now) k ≡ key)) }
        ensures none { IfNone result ((k : ℕ) → k < length (found_of self.now).keys → key_at (found_of self.now) k ≢ key) }
    {
        // The number of pairs is at most the limit, so a pair's number fits.
        let _limit = self.limit;
        match self.keys.get_index_of(&key) {
            Some(number) => Some(number as u32),
            None => None,
        }
    }

    /// Handles a move to the pair `key`: if this pair is live, appends its number to the row, and appends the pair itself if
    /// it is new.
    fn visit(
        &mut self,
        a: &Prio,
        walk: &mut SetWalk,
        row: &mut Vec<u32>,
        from: u32,
        letter: u32,
        key: Key,
    ) -> Result<(), PairsError>
        requires counting { IsCounting a.now walk.old }
        requires found { IsFound a.now walk.old (with_row (found_of self.old) row.old.items) }
        requires place { length (found_of self.old).rows ≡ from * width a.now + letter }
        requires from_in { from < length (found_of self.old).keys }
        requires letter_in { letter ≤ letters_count a.now }
        requires set_in { key.set < length walk.old.sets }
        requires state_in { key.state < a.now.states }
        requires reached { Has (pair_of walk.old key) (next_pairs a.now (pair_at walk.old (found_of self.old) from) letter) }
        ensures onward { OnOk result (IsOnward a.now walk.old walk.new) }
        ensures found { OnOk result (IsFound a.now walk.new (with_row (found_of self.new) row.new.items)) }
        ensures stays { OnOk result (Stays (found_of self.old) (found_of self.new)) }
        ensures rows { OnOk result ((found_of self.new).rows ≡ (found_of self.old).rows) }
        ensures noted { OnOk result (IsNoted a.now walk.new (found_of self.new) (pair_of walk.old key) row.old.items row.new.items) }
        ensures errors { IfErr result (IsRightError a.now (found_of self.old).limit) }
    {
        if let Some(number) = self.number_of(key) {
            row.push(number)?;
            return Ok(());
        }
        let Some(rest) = rest_of(walk, a, key.set)? else {
            return Ok(());
        };
        let number = self.keys.len();
        if number == self.limit as usize {
            drop(rest);
            return Err(PairsError::Pairs);
        }
        let Ok(lead) = self.longer_lead(from, letter) else {
            drop(rest);
            return Err(PairsError::OutOfMemory);
        };
        self.add(key, lead, rest)?;
        row.push(number as u32)?;
        Ok(())
    }

    /// Looks at the moves of the pair with the number `from` on a letter: appends the pairs that are found first, and a row of
    /// the targets. `row` then holds these targets, whatever it held before.
    fn expand_on(
        &mut self,
        a: &Prio,
        walk: &mut SetWalk,
        row: &mut Vec<u32>,
        from: u32,
        letter: u32,
    ) -> Result<(), PairsError>
        requires counting { IsCounting a.now walk.old }
        requires found { IsFound a.now walk.old (found_of self.old) }
        requires moved { IsMoved a.now walk.old (found_of self.old) (from * width a.now + letter) }
        requires from_in { from < length (found_of self.old).keys }
        requires letter_in { letter ≤ letters_count a.now }
        ensures further { OnOk result (IsFurther a.now walk.old walk.new (found_of self.old) (found_of self.new) (from * width a.now + suc letter)) }
        ensures row { OnOk result (row.new.items ≡ next_of a.now (found_of self.new) from letter) }
        ensures errors { IfErr result (IsRightError a.now (found_of self.old).limit) }
    {
        // Reading the number of states tells the prover that the automaton is well formed.
        let _states = a.states();
        row.clear();
        let pair = self.keys[from as usize];
        let targets = a.moves(pair.state, letter);
        let mut set = image_of(walk, a, pair.set, letter)?;
        for k in 0..targets.len() {
            set = set_before(walk, a, targets, k, set)?;
            let key = Key {
                state: targets[k],
                set,
            };
            self.visit(a, walk, row, from, letter, key)?;
        }
        self.end_row(row.as_slice())?;
        Ok(())
    }

    /// Returns whether the state of a pair has the same moves on a letter as on the letter before it, and its set the same
    /// image. If so, the pair has the same moves on both letters.
    fn repeats(
        &self,
        a: &Prio,
        walk: &mut SetWalk,
        from: u32,
        letter: u32,
    ) -> Result<bool, PairsError>
        requires counting { IsCounting a.now walk.old }
        requires found { IsFound a.now walk.old (found_of self.now) }
        requires from_in { from < length (found_of self.now).keys }
        requires letter_in { letter ≤ letters_count a.now }
        requires later { 0 < letter }
        ensures onward { OnOk result (IsOnward a.now walk.old walk.new) }
        ensures stands { OnOk result (HasNumber walk.new (image a.now (pair_at walk.old (found_of self.now) from).set letter)) }
        ensures same { IfOk result (λ same. IsTrue same → next_pairs a.now (pair_at walk.old (found_of self.now) from) (letter - 1)
            ≡ next_pairs a.now (pair_at walk.old (found_of self.now) from) letter) }
        ensures errors { IfErr result (IsRightError a.now (found_of self.now).limit) }
    {
        // Reading the number of states tells the prover that the automaton is well formed.
        let _states = a.states();
        let pair = self.keys[from as usize];
        let before = image_of(walk, a, pair.set, letter - 1)?;
        let after = image_of(walk, a, pair.set, letter)?;
        Ok(before == after && a.moves(pair.state, letter - 1) == a.moves(pair.state, letter))
    }

    /// Looks at the moves of a pair on a letter that isn't the first one. `row` holds the row of the letter before, which is
    /// used again if the moves are the same.
    fn expand_next(
        &mut self,
        a: &Prio,
        walk: &mut SetWalk,
        row: &mut Vec<u32>,
        from: u32,
        letter: u32,
    ) -> Result<(), PairsError>
        requires counting { IsCounting a.now walk.old }
        requires found { IsFound a.now walk.old (found_of self.old) }
        requires moved { IsMoved a.now walk.old (found_of self.old) (from * width a.now + letter) }
        requires from_in { from < length (found_of self.old).keys }
        requires letter_in { letter ≤ letters_count a.now }
        requires later { 0 < letter }
        requires before { row.old.items ≡ next_of a.now (found_of self.old) from (letter - 1) }
        ensures further { OnOk result (IsFurther a.now walk.old walk.new (found_of self.old) (found_of self.new) (from * width a.now + suc letter)) }
        ensures row { OnOk result (row.new.items ≡ next_of a.now (found_of self.new) from letter) }
        ensures errors { IfErr result (IsRightError a.now (found_of self.old).limit) }
    {
        if self.repeats(a, walk, from, letter)? {
            self.end_row(row.as_slice())?;
            return Ok(());
        }
        self.expand_on(a, walk, row, from, letter)
    }

    /// Looks at the moves of a pair on all letters in increasing order, with the end letter last.
    fn expand(
        &mut self,
        a: &Prio,
        walk: &mut SetWalk,
        row: &mut Vec<u32>,
        from: u32,
    ) -> Result<(), PairsError>
        requires counting { IsCounting a.now walk.old }
        requires found { IsFound a.now walk.old (found_of self.old) }
        requires moved { IsMoved a.now walk.old (found_of self.old) (from * width a.now) }
        requires from_in { from < length (found_of self.old).keys }
        ensures further { OnOk result (IsFurther a.now walk.old walk.new (found_of self.old) (found_of self.new) (suc from * width a.now)) }
        ensures errors { IfErr result (IsRightError a.now (found_of self.old).limit) }
    {
        self.expand_on(a, walk, row, from, 0)?;
        for letter in 0..a.letters().count() {
            self.expand_next(a, walk, row, from, letter + 1)?;
        }
        Ok(())
    }

    /// Finds all live pairs, and then adds the images of all sets of the walk to it, to find out whether there are too many
    /// counted sets.
    pub(crate) fn find(&mut self, a: &Prio, walk: &mut SetWalk) -> Result<(), PairsError>
        requires counting { IsCounting a.now walk.old }
        requires found { IsFound a.now walk.old (found_of self.old) }
        requires moved { IsMoved a.now walk.old (found_of self.old) 0 }
        ensures whole { OnOk result (IsWhole a.now walk.new (found_of self.new) (found_of self.old).limit) }
        ensures errors { IfErr result (IsRightError a.now (found_of self.old).limit) }
    {
        let mut row = Vec::new(*self.leads.allocator());
        let mut place = 0;
        while place < self.count() {
            self.expand(a, walk, &mut row, place)?;
            place += 1;
        }
        close(walk, a)?;
        Ok(())
    }
}

/// Returns the number of the set for the move `k`, counted from 0: `set` itself for the first move, and otherwise `set`, the
/// set for the move before, joined with the target of that move.
fn set_before(
    walk: &mut SetWalk,
    a: &Prio,
    targets: &[u32],
    k: usize,
    set: u32,
) -> Result<u32, PairsError>
    requires counting { IsCounting a.now walk.old }
    requires k_in { k < length targets.now }
    requires targets_in { All (λ target. target < a.now.states) targets.now }
    requires set_in { set < length walk.old.sets }
    requires counted { IsCounted a.now (set_for a.now targets.now k (set_at walk.old set)) }
    ensures set { IfOk result (IsNumberOf walk.new (set_for a.now targets.now k (set_at walk.old set))) }
    ensures onward { OnOk result (IsOnward a.now walk.old walk.new) }
    ensures errors { (limit : ℕ) → IfErr result (IsRightError a.now limit) }
{
    if k == 0 {
        return Ok(set);
    }
    joined_with(walk, a, set, targets[k - 1])
}
