//! Plans, from which the rows of an automaton are made.

ghost use Rattle.std.specs.Prelude.{◌≡◌, ℕ, ◌+◌, ◌*◌, ◌-◌, ◌<◌, ◌≤◌, ◌++◌, [], None, Some, All, length, map, OnOk, IfOk, IfErr, slice_index_or};
ghost use Rattle.rl_syntax.specs.Tree.{tree_of, sets_in};
ghost use Rattle.rl_syntax.specs.declared.limits.TheConstants.{MOST_MOVES, MOST_NODES};
ghost use Rattle.rl_ranges.specs.Codes.{has};
ghost use Rattle.rl_ranges.specs.Letters.{letter_at};
ghost use Rattle.rl_ranges.specs.declared.letters.TheConstants.{MOST_LETTERS};
ghost use Rattle.rl_prio.specs.internal.GuardSets.{nothing_shown};
ghost use Rattle.rl_prio.specs.internal.Attempts.{width_of, AreEntered};
ghost use Rattle.rl_prio.specs.internal.Plans.{plan_letters, plan_kinds, plan_place_states, plan_states, holds_at, test_goes, may_end, end_goes, target_of, move_of, moves_of, attempts_at, before_at, row_of, each_letter, rows_of_state, IsPlaced, IsSound, AreRows, IsPlan};

use crate::build::attempts::{Attempt, AttemptList, ListError, are_unguarded};
use crate::build::codes::{add_members, kinds_of, samples, shown_around};
use crate::build::guards::{Guards, Shown};
use crate::build::lists::enter;
use crate::rows::RowTable;
use rl_lists::{Items, OutOfMemory};
use rl_ranges::Letters;
use rl_syntax::{Ending, Re};
use std::alloc::Global;

/// The data from which the rows of an automaton are made. Places, letters and kinds are numbered from 0.
#[derive(Drop)]
pub(crate) struct Plan {
    /// The attempts at the start.
    first: AttemptList,
    /// For each place, the attempts after its test has succeeded.
    after: Vec<AttemptList>,
    /// For each place, whether its set holds each letter.
    members: Vec<Items<bool>>,
    /// For each letter, the number of its kind.
    kinds_of: Vec<u32>,
    /// What is shown before the start, and then by each kind.
    before: Vec<Shown>,
    /// What is shown by each letter, and then by the end letter.
    next: Vec<Shown>,
    /// Where a match may end.
    ending: Ending,
}

impl Plan {
    /// Makes the plan of a tree and an ending, over the given letters and kinds. There must be at most
    /// [`MOST_LETTERS`](rl_ranges::MOST_LETTERS) kinds, and the sample codes of letters and kinds must be less than the number
    /// of codes of `kinds`.
    ///
    /// # Errors
    /// [`ListError::TooLong`] only if a list of items would have more than [`MOST_MOVES`] items; [`ListError::OutOfMemory`] if
    /// there is not enough memory for the plan.
    pub(crate) fn new(
        alloc: Global,
        tree: &Re,
        letters: &Letters,
        kinds: &Letters,
        ending: Ending,
    ) -> Result<Plan, ListError>
        requires few { length kinds.now.samples ≤ MOST_LETTERS }
        requires kind_codes { All (λ c. c < kinds.now.codes) kinds.now.samples }
        requires codes { All (λ c. c < kinds.now.codes) letters.now.samples }
        ensures ok { IfOk result (λ p. IsPlan p (tree_of tree.now) letters.now kinds.now ending) }
        ensures short { OnOk result (width_of (tree_of tree.now) 0 ≤ MOST_MOVES) }
        ensures too_long { IfErr result (λ e. e ≡ ListError.TooLong
            → MOST_MOVES < width_of (tree_of tree.now) 0) }
    {
        let mut after = Vec::new(alloc);
        let first = enter(alloc, tree, kinds, &mut after)?;
        let plan = Plan::with_lists(alloc, tree, letters, kinds, ending, first, after)?;
        Ok(plan)
    }

    /// Makes the plan from item lists that are already made.
    ///
    /// # Errors
    /// [`OutOfMemory`] if there is not enough memory for the plan.
    fn with_lists(
        alloc: Global,
        tree: &Re,
        letters: &Letters,
        kinds: &Letters,
        ending: Ending,
        first: AttemptList,
        after: Vec<AttemptList>,
    ) -> Result<Plan, OutOfMemory>
        requires few { length kinds.now.samples ≤ MOST_LETTERS }
        requires kind_codes { All (λ c. c < kinds.now.codes) kinds.now.samples }
        requires codes { All (λ c. c < kinds.now.codes) letters.now.samples }
        requires entered { AreEntered kinds.now (tree_of tree.now) [] after.items first }
        ensures { IfOk result (λ p. IsPlan p (tree_of tree.now) letters.now kinds.now ending) }
    {
        let codes = samples(alloc, letters)?;
        let kinds_of = kinds_of(alloc, kinds, &codes)?;
        let mut members = Vec::new(alloc);
        add_members(alloc, tree, &codes, &mut members)?;
        let (before, next) = shown_around(alloc, kinds, &codes)?;
        Ok(Plan {
            first,
            after,
            members,
            kinds_of,
            before,
            next,
            ending,
        })
    }

    /// Returns the number of states, including the start, the accepting state and the dead state. The parts of the plan must
    /// fit together (`IsSound`).
    pub(crate) fn states(&self) -> usize
        requires { IsSound self.now }
        ensures value { result ≡ plan_states self.now }
        ensures small { result ≤ MOST_NODES * MOST_LETTERS + 3 }
    {
        self.place_states() + 3
    }

    /// Returns the number of kinds.
    fn kinds(&self) -> usize
        requires { IsSound self.now }
        ensures value { result ≡ plan_kinds self.now }
        ensures some { 1 ≤ result }
        ensures few { result ≤ MOST_LETTERS }
    {
        self.before.len() - 1
    }

    /// Returns the number of states of places: one for each place and kind.
    fn place_states(&self) -> usize
        requires { IsSound self.now }
        ensures value { result ≡ plan_place_states self.now }
        ensures small { result ≤ MOST_NODES * MOST_LETTERS }
    {
        self.after.len() * self.kinds()
    }

    /// Returns the attempts of a state: at the start, or after its place has succeeded. The accepting state and the dead state
    /// have none.
    fn attempts(&self, state: usize) -> &[Attempt]
        requires { IsSound self.now }
        ensures value { result.now ≡ attempts_at self.now state }
        ensures placed { All (IsPlaced (length self.now.after.items)) result.now }
    {
        if state == 0 {
            return self.first.as_slice();
        }
        if state - 1 < self.place_states() {
            self.after[(state - 1) / self.kinds()].as_slice()
        } else {
            &[]
        }
    }

    /// Returns what is shown before a state: for the start that there is no code, and for the state of a place what its kind
    /// shows.
    fn shown_before(&self, state: usize) -> Shown
        requires { IsSound self.now }
        ensures { result ≡ before_at self.now state }
    {
        if state == 0 {
            self.before[0]
        } else {
            self.before[1 + (state - 1) % self.kinds()]
        }
    }

    /// Whether the set of a place holds a letter. No set holds the end letter.
    fn holds(&self, place: usize, letter: usize) -> bool
        requires sound { IsSound self.now }
        requires place_in { place < length self.now.after.items }
        ensures { result ≡ holds_at self.now place letter }
    {
        letter < self.kinds_of.len() && self.members[place].as_slice()[letter]
    }

    /// Returns the target of the test of a place on a letter: the state of the place and the letter's kind if the set of the
    /// place holds the letter, and the dead state otherwise.
    fn test_target(&self, place: usize, letter: usize) -> u32
        requires sound { IsSound self.now }
        requires place_in { place < length self.now.after.items }
        ensures { result ≡ test_goes self.now place letter }
    {
        if self.holds(place, letter) {
            let kind = self.kinds_of[letter] as usize;
            (1 + place * self.kinds() + kind) as u32
        } else {
            (self.place_states() + 2) as u32
        }
    }

    /// Whether a match may end before a letter or the end letter.
    fn may_end(&self, letter: usize) -> bool
        ensures { result ≡ may_end self.now.ending letter (plan_letters self.now) }
    {
        match self.ending {
            Ending::AtEnd => letter == self.kinds_of.len(),
            Ending::Anywhere => true,
        }
    }

    /// Returns the target of an end on a letter: the accepting state if a match may end before the letter, and the dead state
    /// otherwise.
    fn end_target(&self, letter: usize) -> u32
        requires { IsSound self.now }
        ensures { result ≡ end_goes self.now letter }
    {
        if self.may_end(letter) {
            (self.place_states() + 1) as u32
        } else {
            (self.place_states() + 2) as u32
        }
    }

    /// Returns the target of an attempt on a letter. Its guards aren't considered.
    fn target(&self, letter: usize, attempt: Attempt) -> u32
        requires sound { IsSound self.now }
        requires placed { IsPlaced (length self.now.after.items) attempt }
        ensures { result ≡ target_of self.now letter attempt }
    {
        match attempt {
            Attempt::Test(_, place) => self.test_target(place, letter),
            Attempt::End(_) => self.end_target(letter),
        }
    }

    /// Appends the move of an attempt on a letter to the open row if the guards of the attempt are all in `held`, the set of
    /// the guards that hold.
    ///
    /// # Errors
    /// [`OutOfMemory`] if there is not enough memory for it.
    fn put_move(
        &self,
        rows: &mut RowTable,
        held: Guards,
        letter: usize,
        attempt: Attempt,
    ) -> Result<(), OutOfMemory>
        requires sound { IsSound self.now }
        requires placed { IsPlaced (length self.now.after.items) attempt }
        ensures { OnOk result (rows.new
            ≡ record rows.old { open_row = rows.old.open_row ++ move_of self.now held letter attempt }) }
    {
        if attempt.guards().are_met(held) {
            rows.put(self.target(letter, attempt))?;
        }
        Ok(())
    }

    /// Appends the moves of the attempts on a letter to the open row, in order. `held` is the set of the guards that hold.
    ///
    /// # Errors
    /// [`OutOfMemory`] if there is not enough memory for them.
    fn put_each(
        &self,
        rows: &mut RowTable,
        held: Guards,
        letter: usize,
        attempts: &[Attempt],
    ) -> Result<(), OutOfMemory>
        requires sound { IsSound self.now }
        requires placed { All (IsPlaced (length self.now.after.items)) attempts.now }
        ensures { OnOk result (rows.new
            ≡ record rows.old { open_row = rows.old.open_row ++ moves_of self.now held letter attempts.now }) }
    {
        for attempt in attempts {
            self.put_move(rows, held, letter, *attempt)?;
        }
        Ok(())
    }

    /// Appends the targets of the attempts on a letter to the open row, ignoring their guards.
    ///
    /// # Errors
    /// [`OutOfMemory`] if there is not enough memory for them.
    fn put_targets(
        &self,
        rows: &mut RowTable,
        letter: usize,
        attempts: &[Attempt],
    ) -> Result<(), OutOfMemory>
        requires sound { IsSound self.now }
        requires placed { All (IsPlaced (length self.now.after.items)) attempts.now }
        ensures { OnOk result (rows.new
            ≡ record rows.old { open_row = rows.old.open_row ++ map (target_of self.now letter) attempts.now }) }
    {
        for attempt in attempts {
            rows.put(self.target(letter, *attempt))?;
        }
        Ok(())
    }

    /// Appends the rows of the attempts, one for each letter, with the end letter last. The guards that hold follow from
    /// `before` and from what the letter shows.
    ///
    /// # Errors
    /// [`OutOfMemory`] if there is not enough memory for them.
    fn put_guarded(
        &self,
        rows: &mut RowTable,
        before: Shown,
        attempts: &[Attempt],
    ) -> Result<(), OutOfMemory>
        requires sound { IsSound self.now }
        requires placed { All (IsPlaced (length self.now.after.items)) attempts.now }
        requires closed { rows.old.open_row ≡ [] }
        ensures { OnOk result (rows.new ≡ record {
          rows = rows.old.rows ++ each_letter self.now (row_of self.now before attempts.now);
          open_row = [];
        }) }
    {
        for letter in 0..self.next.len() {
            let held = Guards::holding(before, self.next[letter]);
            self.put_each(rows, held, letter, attempts)?;
            rows.close()?;
        }
        Ok(())
    }

    /// Appends the rows of attempts without guards, one for each letter, with the end letter last.
    ///
    /// # Errors
    /// [`OutOfMemory`] if there is not enough memory for them.
    fn put_unguarded(&self, rows: &mut RowTable, attempts: &[Attempt]) -> Result<(), OutOfMemory>
        requires sound { IsSound self.now }
        requires placed { All (IsPlaced (length self.now.after.items)) attempts.now }
        requires closed { rows.old.open_row ≡ [] }
        ensures { OnOk result (rows.new ≡ record {
          rows = rows.old.rows ++ each_letter self.now (λ letter. map (target_of self.now letter) attempts.now);
          open_row = [];
        }) }
    {
        for letter in 0..self.next.len() {
            self.put_targets(rows, letter, attempts)?;
            rows.close()?;
        }
        Ok(())
    }

    /// Appends the rows of a state, one for each letter, with the end letter last.
    ///
    /// # Errors
    /// [`OutOfMemory`] if there is not enough memory for them.
    fn put_state(&self, rows: &mut RowTable, state: usize) -> Result<(), OutOfMemory>
        requires sound { IsSound self.now }
        requires closed { rows.old.open_row ≡ [] }
        ensures { OnOk result (rows.new
            ≡ record { rows = rows.old.rows ++ rows_of_state self.now state; open_row = [] }) }
    {
        let attempts = self.attempts(state);
        if are_unguarded(attempts) {
            self.put_unguarded(rows, attempts)
        } else {
            self.put_guarded(rows, self.shown_before(state), attempts)
        }
    }

    /// Makes the rows, state by state and letter by letter, with the end letter last. The parts of the plan must fit together
    /// (`IsSound`).
    ///
    /// # Errors
    /// [`OutOfMemory`] if there is not enough memory for them.
    pub(crate) fn rows(&self, alloc: Global) -> Result<RowTable, OutOfMemory>
        requires { IsSound self.now }
        ensures { IfOk result (λ r. AreRows self.now r.rows) }
    {
        let states = self.states();
        let mut rows = RowTable::with_room(alloc, states * self.next.len())?;
        for state in 0..states {
            self.put_state(&mut rows, state)?;
        }
        Ok(rows)
    }
}
