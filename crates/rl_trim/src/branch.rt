//! Sets of states without the states of a branch.
//!
//! A branch is given by its places: the places of the tree that aren't kept. The place `p` has the state `p + 1` in the
//! automaton of the whole tree; states that belong to no place are kept.

ghost use Rattle.std.specs.Prelude.{◌≡◌, ℕ, ◌<◌, ◌≤◌, ◌⊎◌, [], length, slice_index_or, None, Some, IfOk, OnOk, IfSome};
ghost use Rattle.rl_prio.specs.Automaton.{letters_count};
ghost use Rattle.rl_sets.specs.Live.{image};
ghost use Rattle.rl_sets.specs.Walk.{set_at, IsMadeFor};
ghost use Rattle.rl_trim.specs.Twins.{is_kept as is_kept_in};
ghost use Rattle.rl_trim.specs.Endings.{state_ends as state_ends_in, AreEnding};
ghost use Rattle.rl_trim.specs.internal.Trims.{trimmed, trim_on, set_ends, trim_differs};
ghost use Rattle.rl_trim.specs.internal.Quick.{IsNumbered, IsInside, IsKeyOf, AreGone, AreTrims, pair_of};

use crate::key::Key;
use rl_lanes::BitRow;
use rl_lists::OutOfMemory;
use rl_prio::Prio;
use rl_sets::{SetWalk, SetsError};
use std::alloc::Global;

/// A branch, or several branches, that a trial leaves out of an automaton.
#[derive(Drop)]
pub(crate) struct Branch<'a> {
    /// The allocator.
    pub alloc: Global,
    /// The automaton of the whole tree.
    pub automaton: &'a Prio,
    /// For each place, whether it is kept.
    pub keep: &'a [bool],
    /// A bit for each state, which is set if the state isn't kept.
    pub gone: BitRow,
    /// A bit for each state, which is set if the state moves to the accepting state on the end letter.
    pub ending: &'a BitRow,
    ghost are_gone: { AreGone keep.now automaton.now.states gone },
    ghost are_ending: { AreEnding automaton.now automaton.now.states ending.now },
}

/// The numbers, in a walk, that a trial of a branch has found so far for sets without the states of the branch.
#[derive(Drop)]
pub(crate) struct Trims {
    /// For each set, by its number, the number of the set without these states, or `None` if it isn't known. The list may end
    /// early.
    numbers: Vec<Option<u32>>,
}

/// Returns whether a state is kept. Every state is, except the states of places whose flag in `keep` is false.
pub(crate) fn is_kept(keep: &[bool], state: u32) -> bool
    ensures { result ≡ is_kept_in keep.now state }
{
    if state == 0 {
        return true;
    }
    let place = state as usize - 1;
    if place >= keep.len() {
        return true;
    }
    keep[place]
}

/// Returns a row with a bit for each of the `states` states, which is set if the state isn't kept.
fn gone_of(alloc: Global, keep: &[bool], states: u32) -> Result<BitRow, OutOfMemory>
    ensures { IfOk result (AreGone keep.now states) }
{
    let mut gone = BitRow::zeros(alloc, states as usize)?;
    for state in 0..states {
        if !is_kept(keep, state) {
            gone.set(state as usize, true);
        }
    }
    Ok(gone)
}

/// Returns whether a state moves to the accepting state on the end letter.
fn state_ends(a: &Prio, state: u32) -> bool
    requires { state < a.now.states }
    ensures { result ≡ state_ends_in a.now state }
{
    let accepting = a.accepting();
    for target in a.moves(state, a.letters().count()) {
        if *target == accepting {
            return true;
        }
    }
    false
}

/// Returns a row with a bit for each state, which is set if the state moves to the accepting state on the end letter.
fn ending_of(alloc: Global, a: &Prio) -> Result<BitRow, OutOfMemory>
    ensures { IfOk result (AreEnding a.now a.now.states) }
{
    let states = a.states();
    let mut ending = BitRow::zeros(alloc, states as usize)?;
    for state in 0..states {
        if state_ends(a, state) {
            ending.set(state as usize, true);
        }
    }
    Ok(ending)
}

/// Returns the row `found` earlier, if it is given; otherwise makes the row with a bit for each state of the automaton `a`,
/// which is set if the state moves to the accepting state on the end letter.
pub(crate) fn ending_or(
    alloc: Global,
    a: &Prio,
    found: Option<BitRow>,
) -> Result<BitRow, OutOfMemory>
    requires { IfSome found (AreEnding a.now a.now.states) }
    ensures { IfOk result (AreEnding a.now a.now.states) }
{
    match found {
        Some(ending) => Ok(ending),
        None => ending_of(alloc, a),
    }
}

/// Returns the number of the image of a set on a letter or the end letter. The image is appended to the walk if it is new.
pub(crate) fn step(walk: &mut SetWalk, a: &Prio, set: u32, letter: u32) -> Result<u32, SetsError>
    requires made { IsMadeFor walk.old a.now }
    requires set_in { set < length walk.old.sets }
    requires letter_in { letter ≤ letters_count a.now }
    ensures { IfOk result (IsNumbered a.now walk.old walk.new (image a.now (set_at walk.old set) letter)) }
{
    walk.step(a, set, letter)
}

impl Trims {
    /// Returns the value for a trial that has found no numbers yet. It allocates no memory.
    pub(crate) fn new(alloc: Global) -> Trims
        ensures { result.numbers.items ≡ [] }
    {
        Trims {
            numbers: Vec::new(alloc),
        }
    }

    /// Returns the number of the set `set` without the states of the branch, or `None` if it isn't known.
    fn known(&self, set: u32) -> Option<u32>
        ensures { result ≡ slice_index_or self.now.numbers.items set None }
    {
        match self.numbers.get(set as usize) {
            Some(number) => *number,
            None => None,
        }
    }

    /// Records `number` as the number of the set `set` without the states of the branch.
    fn note(&mut self, set: u32, number: u32) -> Result<(), OutOfMemory>
        ensures { OnOk result ((k n : ℕ) → slice_index_or self.new.numbers.items k None ≡ Some n
            → (slice_index_or self.old.numbers.items k None ≡ Some n) ⊎ ((k ≡ set) × (n ≡ number))) }
    {
        let place = set as usize;
        if place >= self.numbers.len() {
            self.numbers.resize(place + 1, None)?;
        }
        self.numbers[place] = Some(number);
        Ok(())
    }
}

impl<'a> Branch<'a> {
    /// Returns the branch that consists of the places whose flag in `keep` is false. There is one flag for each place of the
    /// tree, from left to right; places without a flag are kept. The row `ending` must have a bit for each state, which is set
    /// if the state moves to the accepting state on the end letter.
    pub(crate) fn new(
        alloc: Global,
        automaton: &'a Prio,
        ending: &'a BitRow,
        keep: &'a [bool],
    ) -> Result<Branch<'a>, OutOfMemory>
        requires { AreEnding automaton.now automaton.now.states ending.now }
        ensures automaton { IfOk result (λ b. b.automaton.now ≡ automaton.now) }
        ensures keep { IfOk result (λ b. b.keep.now ≡ keep.now) }
    {
        let gone = gone_of(alloc, keep, automaton.states())?;
        Ok(Branch {
            alloc,
            automaton,
            keep,
            gone,
            ending,
        })
    }

    /// Returns the number of the set `set` without the states that aren't kept; this set is appended to the walk if it is new.
    /// The function isn't inlined, so that `trim` stays small.
    #[inline(never)]
    fn leave_out(&self, walk: &mut SetWalk, set: u32) -> Result<u32, SetsError>
        requires made { IsMadeFor walk.old self.now.automaton.now }
        requires set_in { set < length walk.old.sets }
        ensures { IfOk result (IsNumbered self.now.automaton.now walk.old walk.new (trimmed self.now.keep.now (set_at walk.old set))) }
    {
        if !walk.meets(set, &self.gone) {
            return Ok(set);
        }
        let number = walk.leave_out(set, &self.gone)?;
        Ok(number)
    }

    /// Returns the number of the set `set` without the states that aren't kept. It is looked up in `trims`, or found and
    /// recorded there; a set that is new is appended to the walk.
    pub(crate) fn trim(
        &self,
        walk: &mut SetWalk,
        trims: &mut Trims,
        set: u32,
    ) -> Result<u32, SetsError>
        requires made { IsMadeFor walk.old self.now.automaton.now }
        requires set_in { set < length walk.old.sets }
        requires trims { AreTrims self.now.keep.now walk.old trims.old }
        ensures numbered { IfOk result (IsNumbered self.now.automaton.now walk.old walk.new (trimmed self.now.keep.now (set_at walk.old set))) }
        ensures trims { OnOk result (AreTrims self.now.keep.now walk.new trims.new) }
    {
        if let Some(number) = trims.known(set) {
            return Ok(number);
        }
        let number = self.leave_out(walk, set)?;
        trims.note(set, number)?;
        Ok(number)
    }

    /// Returns the next pair of the pair `key` on a letter other than the end letter: the image of its first set, and the
    /// image of its second set without the states that aren't kept. Sets that are new are appended to the walk.
    pub(crate) fn next(
        &self,
        walk: &mut SetWalk,
        trims: &mut Trims,
        key: Key,
        letter: u32,
    ) -> Result<Key, SetsError>
        requires made { IsMadeFor walk.old self.now.automaton.now }
        requires inside { IsInside walk.old key }
        requires letter_in { letter < letters_count self.now.automaton.now }
        requires trims { AreTrims self.now.keep.now walk.old trims.old }
        ensures next { IfOk result (IsKeyOf self.now.automaton.now walk.old walk.new
            (trim_on self.now.automaton.now self.now.keep.now (pair_of walk.old key) letter)) }
        ensures trims { OnOk result (AreTrims self.now.keep.now walk.new trims.new) }
    {
        let first = step(walk, self.automaton, key.first, letter)?;
        if key.second == key.first {
            let second = self.trim(walk, trims, first)?;
            return Ok(Key { first, second });
        }
        let whole = step(walk, self.automaton, key.second, letter)?;
        let second = self.trim(walk, trims, whole)?;
        Ok(Key { first, second })
    }

    /// Returns whether some member of a set moves to the accepting state on the end letter.
    fn ends(&self, walk: &SetWalk, set: u32) -> bool
        requires made { IsMadeFor walk.now self.now.automaton.now }
        requires set_in { set < length walk.now.sets }
        ensures { result ≡ set_ends self.now.automaton.now (set_at walk.now set) }
    {
        // Reading the number of states tells the prover that the automaton is well formed.
        let _states = self.automaton.states();
        walk.meets(set, self.ending)
    }

    /// Returns whether a pair shows a difference: the end letter leads exactly one of its two sets to the accepting state.
    pub(crate) fn differs(&self, walk: &SetWalk, key: Key) -> bool
        requires made { IsMadeFor walk.now self.now.automaton.now }
        requires inside { IsInside walk.now key }
        ensures { result ≡ trim_differs self.now.automaton.now (pair_of walk.now key) }
    {
        if key.first == key.second {
            return false;
        }
        self.ends(walk, key.first) != self.ends(walk, key.second)
    }
}
