//! Columns of counted steps, computed from the end of a text to its start. In a step, a matcher either tests a character or
//! has come to an end of the tree; a step is a hit if a match ends with it. The end letter is read at the end of a text.

ghost use Rattle.std.specs.Prelude.{◌≡◌, ℕ, ◌<◌, ◌≤◌, ◌-◌, [], ◌∷◌, List, Bool, ◌++◌, length, All, IfOk, slice_index_or, true, false, ◌==◌, if◌then◌else◌};
ghost use Rattle.rl_prio.specs.Automaton.{Automaton, IsAutomaton, letters_count, accepting_state};
ghost use Rattle.rl_prio.specs.Walk.{stepped, walk, walk_cost, walk_matched};
ghost use Rattle.rl_machine.specs.declared.steps.Counted.{Counted};
ghost use Rattle.rl_machine.specs.Counts.{Shows, Counts};
ghost use Rattle.rl_machine.specs.Columns.{StandAt, StandFor, ShowsWalk};

use crate::steps::{Counted, Steps};
use rl_prio::Prio;
use rl_ranges::OutOfMemory;
use std::alloc::Global;
use std::marker::Model;

/// The column of a list of letters: for each state of an automaton, the number of steps from that state on these letters and
/// the end letter, up to and including the first hit or in all if there is no hit, and whether there is a hit. In contracts, a
/// column is the list of these entries.
#[derive(Drop)]
pub struct Columns {
    /// The column.
    cells: Vec<Counted>,
    /// Memory for the next column, of the same size.
    spare: Vec<Counted>,
}

impl Model for Columns {
    ghost use Rattle.std.specs.Prelude.{◌≡◌, ◌<◌, List, length};
    ghost use Rattle.rl_machine.specs.declared.steps.Counted.{Counted};

    ghost Value = { List Counted };

    ghost view = { λ c. c.cells.items };

    ghost invariant = { λ c. (0 < length c.cells.items) × (length c.spare.items ≡ length c.cells.items) };
}

/// Returns the steps of one move: a single hit if the move leads to the accepting state, and otherwise a miss followed by the
/// steps from its target.
fn one_step(cells: &[Counted], accepting: u32, target: u32) -> Counted
    requires { target < length cells.now }
    ensures { (next : ℕ → List Bool)
        → ((q : ℕ) (other : Counted) → q < length cells.now → Shows (slice_index_or cells.now q other) (next q))
        → Shows result (if target == accepting then true ∷ [] else false ∷ next target) }
{
    if target == accepting {
        Counted {
            steps: Steps::Exact(1),
            matched: true,
        }
    } else {
        cells[target as usize].after_miss()
    }
}

/// Returns the steps of the moves in order, up to and including the first hit.
fn all_steps(cells: &[Counted], accepting: u32, targets: &[u32]) -> Counted
    requires { All (λ target. target < length cells.now) targets.now }
    ensures { (next : ℕ → List Bool)
        → ((q : ℕ) (other : Counted) → q < length cells.now → Shows (slice_index_or cells.now q other) (next q))
        → Shows result (stepped accepting next targets.now) }
{
    match targets {
        [] => Counted::nothing(),
        [target, further @ ..] => {
            one_step(cells, accepting, *target).before(all_steps(cells, accepting, further))
        }
    }
}

/// Computes the column of `letter` followed by the letters of the column `cells`, and writes it to `into`.
fn put_letter(a: &Prio, letter: u32, cells: &[Counted], into: &mut Vec<Counted>)
    requires made_for { length cells.now ≡ a.now.states }
    requires same_size { length into.old.items ≡ length cells.now }
    requires letter_in { letter ≤ letters_count a.now }
    ensures size { length into.new.items ≡ a.now.states }
    ensures in_front { (letters : List ℕ) → StandAt a.now cells.now letters
        → StandAt a.now into.new.items (letter ∷ letters) }
{
    let accepting = a.accepting();
    for state in 0..a.states() {
        into[state as usize] = all_steps(cells, accepting, a.moves(state, letter));
    }
}

/// Returns the column of no letters at all, not even the end letter, for `states` states.
fn nothing_counted(alloc: Global, states: u32) -> Result<Vec<Counted>, OutOfMemory>
    ensures size { IfOk result (λ cells. length cells.items ≡ states) }
    ensures stand { IfOk result (λ cells. (a : Automaton) → a.states ≡ states → StandAt a cells.items []) }
{
    let cells = vec![in alloc; Counted::nothing(); states as usize]?;
    Ok(cells)
}

impl Columns {
    /// Creates the column of the empty list of letters, which has only the steps on the end letter of the automaton `a`.
    ///
    /// # Errors
    /// [`OutOfMemory`] if there is not enough memory for two columns.
    pub fn at_end(alloc: Global, a: &Prio) -> Result<Columns, OutOfMemory>
        ensures { IfOk result (λ c. StandFor a.now c []) }
    {
        let mut columns = Columns {
            cells: nothing_counted(alloc, a.states())?,
            spare: nothing_counted(alloc, a.states())?,
        };
        columns.put(a, a.letters().count());
        Ok(columns)
    }

    /// Puts a letter in front of the letters of this column. The column must be one of the automaton `a`, and `letter` one of
    /// its letters, not the end letter. No memory is allocated.
    pub fn advance(&mut self, a: &Prio, letter: u32)
        requires made_for { length self.old ≡ a.now.states }
        requires letter_in { letter < letters_count a.now }
        ensures made_for { length self.new ≡ a.now.states }
        ensures in_front { (letters : List ℕ) → StandFor a.now self.old letters → StandFor a.now self.new (letter ∷ letters) }
    {
        self.put(a, letter);
    }

    /// Puts a letter, or the end letter, in front of the letters of this column.
    fn put(&mut self, a: &Prio, letter: u32)
        requires made_for { length self.old ≡ a.now.states }
        requires letter_in { letter ≤ letters_count a.now }
        ensures made_for { length self.new ≡ a.now.states }
        ensures in_front { (letters : List ℕ) → StandAt a.now self.old letters → StandAt a.now self.new (letter ∷ letters) }
    {
        put_letter(a, letter, &self.cells, &mut self.spare);
        std::mem::swap(&mut self.cells, &mut self.spare);
    }

    /// Returns the cost of a text that has the letters of this column, and whether the text is matched. The cost is one more
    /// than the number of steps from the start up to and including the first hit, or than the number of all steps if there is
    /// no hit; it is `Steps::Past` if it is 2^128 or more.
    pub fn answer(&self) -> Counted
        ensures { (a : Automaton) (letters : List ℕ) → StandFor a self.now letters → ShowsWalk result a letters }
    {
        let first = self.cells[0];
        first.after_miss()
    }
}
