//! Automata over letters that already exist.

ghost use Rattle.std.specs.Prelude.{◌≡◌, ℕ, ◌<◌, ◌≤◌, Bool, true, List, IfOk, IfErr, OnOk, length};
ghost use Rattle.rl_ranges.specs.Letters.{IsLetters, alike};
ghost use Rattle.rl_ranges.specs.Text.{code_count};
ghost use Rattle.rl_ranges.specs.declared.letters.TheConstants.{MOST_LETTERS};
ghost use Rattle.rl_syntax.specs.Tree.{tree_of, size, IsOver};
ghost use Rattle.rl_syntax.specs.declared.limits.TheConstants.{MOST_MOVES, MOST_NODES};
ghost use Rattle.rl_prio.specs.Automaton.{letters_count};
ghost use Rattle.rl_prio.specs.Items.{longest};
ghost use Rattle.rl_prio.specs.Letters.{all_sets};

use crate::build::kinds;
use crate::build::plan::Plan;
use crate::error::PrioError;
use crate::prio::Prio;
use rl_lists::OutOfMemory;
use rl_ranges::{Letters, Universe};
use rl_syntax::{Ending, Re};
use std::alloc::Global;
use std::rc::Rc;

/// Wraps letters so that several automata can share them. The result is [`OutOfMemory`] if there is not enough memory for
/// that.
pub(crate) fn shared(alloc: Global, letters: Letters) -> Result<Rc<Letters>, OutOfMemory>
    ensures { IfOk result (λ shared. shared.value ≡ letters) }
{
    let shared = Rc::new(alloc, letters)?;
    Ok(shared)
}

impl Prio {
    ghost use Rattle.rl_prio.specs.StandsFor.{StandsOver};

    /// Builds the automaton of a tree and an ending over the given letters of the universe, of which there must be at most
    /// [`MOST_LETTERS`](rl_ranges::MOST_LETTERS). Codes of one letter must not be distinguished by the sets of the tree, or by
    /// those that its guards use. The tree must have at most [`MOST_NODES`](rl_syntax::MOST_NODES) nodes, and its sets and
    /// those that its guards use must hold only codes of the universe.
    ///
    /// # Errors
    /// [`PrioError::Moves`] only if a list of items has more than [`MOST_MOVES`](rl_syntax::MOST_MOVES) items: the list of
    /// what a matcher tries on entering the tree or after one of its sets. There is always an error then.
    /// [`PrioError::OutOfMemory`] if there is not enough memory for the automaton.
    pub(crate) fn over_letters(
        alloc: Global,
        tree: &Re,
        ending: Ending,
        universe: Universe,
        letters: Rc<Letters>,
    ) -> Result<Prio, PrioError>
        requires small { size (tree_of tree.now) ≤ MOST_NODES }
        requires inside { IsOver universe (tree_of tree.now) }
        requires few { length letters.value.samples ≤ MOST_LETTERS }
        requires finer { (sets : List (ℕ → Bool)) × IsLetters letters.value sets (code_count universe)
            × ((c d : ℕ) → alike sets c d ≡ true → alike (all_sets (tree_of tree.now)) c d ≡ true) }
        ensures ok { IfOk result (λ a. (sets : List (ℕ → Bool)) → IsLetters letters.value sets (code_count universe)
            → ((c d : ℕ) → alike sets c d ≡ true → alike (all_sets (tree_of tree.now)) c d ≡ true)
            → StandsOver a (tree_of tree.now) ending sets) }
        ensures table { IfOk result (λ a. a.table ≡ letters.value) }
        ensures short { OnOk result (longest (tree_of tree.now) ≤ MOST_MOVES) }
        ensures moves { IfErr result (λ e. e ≡ PrioError.Moves → MOST_MOVES < longest (tree_of tree.now)) }
        ensures letters { IfErr result (λ e. e ≡ PrioError.Letters → ⊥) }
    {
        let kinds = kinds(alloc, tree, universe)?;
        let plan = Plan::new(alloc, tree, &letters, &kinds, ending)?;
        let rows = plan.rows(alloc)?;
        let states = plan.states() as u32;
        Ok(Prio::from_parts(letters, states, rows))
    }

    /// Builds the automaton of a tree and an ending over the letters of the automaton `other`, so that both can read the same
    /// word. `other` must be an automaton over the same universe with at most [`MOST_LETTERS`](rl_ranges::MOST_LETTERS)
    /// letters. Codes of one of its letters must not be distinguished by the sets of the tree, or by those that its guards
    /// use. The tree must have at most [`MOST_NODES`](rl_syntax::MOST_NODES) nodes, and its sets and those that its guards use
    /// must hold only codes of the universe.
    ///
    /// # Errors
    /// [`PrioError::Moves`] only if a list of items has more than [`MOST_MOVES`](rl_syntax::MOST_MOVES) items: the list of
    /// what a matcher tries on entering the tree or after one of its sets. There is always an error then.
    /// [`PrioError::OutOfMemory`] if there is not enough memory for the automaton.
    pub fn build_beside(
        alloc: Global,
        other: &Prio,
        tree: &Re,
        ending: Ending,
        universe: Universe,
    ) -> Result<Prio, PrioError>
        requires small { size (tree_of tree.now) ≤ MOST_NODES }
        requires inside { IsOver universe (tree_of tree.now) }
        requires few { letters_count other.now ≤ MOST_LETTERS }
        requires finer { (sets : List (ℕ → Bool)) × IsLetters other.now.table sets (code_count universe)
            × ((c d : ℕ) → alike sets c d ≡ true → alike (all_sets (tree_of tree.now)) c d ≡ true) }
        ensures ok { IfOk result (λ a. (sets : List (ℕ → Bool)) → IsLetters other.now.table sets (code_count universe)
            → ((c d : ℕ) → alike sets c d ≡ true → alike (all_sets (tree_of tree.now)) c d ≡ true)
            → StandsOver a (tree_of tree.now) ending sets) }
        ensures table { IfOk result (λ a. a.table ≡ other.now.table) }
        ensures short { OnOk result (longest (tree_of tree.now) ≤ MOST_MOVES) }
        ensures moves { IfErr result (λ e. e ≡ PrioError.Moves → MOST_MOVES < longest (tree_of tree.now)) }
        ensures letters { IfErr result (λ e. e ≡ PrioError.Letters → ⊥) }
    {
        let letters = other.shared_letters()?;
        Prio::over_letters(alloc, tree, ending, universe, letters)
    }
}
