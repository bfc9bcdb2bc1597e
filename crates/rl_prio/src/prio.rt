//! The ordered automaton. An attempt is what a matcher tries next: the test of a set of the tree, or the end of the tree. The
//! end letter is read at the end of a text.

ghost use Rattle.std.specs.Prelude.{◌≡◌, ◌<◌, ◌≤◌, All, IfOk};
ghost use Rattle.rl_prio.specs.Automaton.{Automaton, IsAutomaton, letters_count, accepting_state, dead_state, moves_at};

use crate::rows::RowTable;
use rl_lists::OutOfMemory;
use rl_ranges::Letters;
use std::marker::Model;
use std::rc::Rc;

/// An ordered automaton, also known as a prioritized NFA (Weideman and others 2016): for each state and letter, the states to
/// which a matcher moves, in the order in which it tries them. States and letters are numbered from 0. After the letters comes
/// the end letter, which is read at the end of a text. State 0 is the start. The second to last state is the accepting state,
/// in which a match has ended. The last state is the dead state, to which the tests and ends that fail lead. Neither of these
/// two has moves.
#[derive(Drop)]
pub struct Prio {
    /// The letters, without the end letter.
    letters: Rc<Letters>,
    /// The number of states.
    states: u32,
    /// The targets, in one row for each state and letter, with the end letter last.
    rows: RowTable,
}

impl Model for Prio {
    ghost use Rattle.rl_prio.specs.Automaton.{Automaton, IsAutomaton};

    ghost Value = { Automaton };

    ghost view = { λ p. record { table = p.letters.value; states = p.states; rows = p.rows.rows } };

    ghost invariant = { λ p. IsAutomaton (record { table = p.letters.value; states = p.states; rows = p.rows.rows }) };
}

impl Prio {
    /// Creates an automaton from its letters, its number of states and its closed rows, one for each state and letter. The row
    /// of the end letter is the last one of each state. There must be at least three states, each target must be a state, and
    /// the last two states must have no moves.
    pub(crate) fn from_parts(letters: Rc<Letters>, states: u32, rows: RowTable) -> Prio
        requires { IsAutomaton (record { table = letters.value; states = states; rows = rows.rows }) }
        ensures { result ≡ record { table = letters.value; states = states; rows = rows.rows } }
    {
        Prio {
            letters,
            states,
            rows,
        }
    }

    /// Returns the number of states.
    pub fn states(&self) -> u32
        ensures count { result ≡ self.now.states }
        ensures automaton { IsAutomaton self.now }
    {
        self.states
    }

    /// Returns the accepting state, in which a match has ended. It is the second to last state and has no moves.
    pub fn accepting(&self) -> u32
        ensures state { result ≡ accepting_state self.now }
        ensures within { result < self.now.states }
        ensures automaton { IsAutomaton self.now }
    {
        self.states - 2
    }

    /// Returns the dead state, in which an attempt has failed. It is the last state and has no moves.
    pub fn dead(&self) -> u32
        ensures state { result ≡ dead_state self.now }
        ensures within { result < self.now.states }
        ensures automaton { IsAutomaton self.now }
    {
        self.states - 1
    }

    /// Returns the letters. The end letter, which isn't among them, has the number after the last one.
    pub fn letters(&self) -> &Letters
        ensures { result.now ≡ self.now.table }
    {
        &self.letters
    }

    /// Returns a shared handle to the letters, for another automaton over them.
    ///
    /// # Errors
    /// [`OutOfMemory`] if too many automata share the letters.
    pub(crate) fn shared_letters(&self) -> Result<Rc<Letters>, OutOfMemory>
        ensures { IfOk result (λ letters. letters.value ≡ self.now.table) }
    {
        let letters = self.letters.clone()?;
        Ok(letters)
    }

    /// Returns the targets of `state` on `letter`, in the order in which a matcher tries them, with repetitions. `state` must
    /// be a state, and `letter` the number of a letter or of the end letter, which has the number after the last letter. The
    /// list is empty if there are no moves.
    pub fn moves(&self, state: u32, letter: u32) -> &[u32]
        requires state_in { state < self.now.states }
        requires letter_in { letter ≤ letters_count self.now }
        ensures moves { result.now ≡ moves_at self.now state letter }
        ensures targets { All (λ target. target < self.now.states) result.now }
    {
        let width = self.letters.count() as usize + 1;
        self.rows.row(state as usize * width + letter as usize)
    }
}
