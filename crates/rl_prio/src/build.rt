//! Building the ordered automaton of a tree. Guards are anchors, word boundaries and lookarounds of one character. Codes belong
//! to the same letter if none of the sets in question distinguishes them, and to the same kind if none of the sets that the
//! guards use does. An item is what a matcher tries next: the test of one of the tree's sets, or the end of the tree.

ghost use Rattle.std.specs.Prelude.{◌≡◌, ℕ, ◌<◌, ◌≤◌, ◌++◌, [], true, All, IfOk, IfErr, OnOk, length, map};
ghost use Rattle.rl_ranges.specs.Codes.{has, IsInside};
ghost use Rattle.rl_ranges.specs.Letters.{IsLetters, alike, classes};
ghost use Rattle.rl_ranges.specs.Text.{code_count};
ghost use Rattle.rl_ranges.specs.declared.letters.TheConstants.{MOST_LETTERS};
ghost use Rattle.rl_syntax.specs.Tree.{tree_of, size, guard_sets, IsOver};
ghost use Rattle.rl_syntax.specs.declared.limits.TheConstants.{MOST_MOVES, MOST_NODES};
ghost use Rattle.rl_prio.specs.Items.{longest};
ghost use Rattle.rl_prio.specs.Letters.{all_sets, letters};

mod attempts;
mod codes;
mod guards;
mod lists;
mod plan;
mod sets;
mod shared;

use crate::build::attempts::ListError;
use crate::build::sets::{add_guard_sets, add_sets};
use crate::build::shared::shared;
use crate::error::PrioError;
use crate::prio::Prio;
use rl_lists::OutOfMemory;
use rl_ranges::{CodeSet, Letters, LettersError, Universe};
use rl_syntax::{Ending, Re};
use std::alloc::Global;

impl From<LettersError> for PrioError {
    ghost use Rattle.std.specs.Prelude.{◌≡◌};
    ghost use Rattle.rl_prio.specs.Errors.{letters_error};

    ghost from_gives = { λ x e. e ≡ letters_error x };

    fn from(error: LettersError) -> Self {
        match error {
            LettersError::TooMany => PrioError::Letters,
            LettersError::OutOfMemory => PrioError::OutOfMemory,
        }
    }
}

impl From<ListError> for PrioError {
    ghost use Rattle.std.specs.Prelude.{◌≡◌};
    ghost use Rattle.rl_prio.specs.internal.Errors.{list_error};

    ghost from_gives = { λ x e. e ≡ list_error x };

    fn from(error: ListError) -> Self {
        match error {
            ListError::TooLong => PrioError::Moves,
            ListError::OutOfMemory => PrioError::OutOfMemory,
        }
    }
}

/// Appends the sets that distinguish the codes of a tree to `sets`: the tree's own sets from left to right, and then the sets
/// that its guards use.
///
/// # Errors
/// [`OutOfMemory`] if there is not enough memory for them. Some may have been appended then.
pub fn add_letter_sets(alloc: Global, tree: &Re, sets: &mut Vec<CodeSet>) -> Result<(), OutOfMemory>
    ensures sets { OnOk result
        (map has sets.new.items ≡ map has sets.old.items ++ all_sets (tree_of tree.now)) }
    ensures inside { OnOk result ((u : Universe) → IsOver u (tree_of tree.now)
        → All (IsInside u) sets.old.items → All (IsInside u) sets.new.items) }
{
    add_sets(tree, sets)?;
    add_guard_sets(alloc, tree, sets)?;
    Ok(())
}

/// Returns the kinds of a tree, that is, the letters of the sets that its guards use. There must be at most
/// [`MOST_LETTERS`](rl_ranges::MOST_LETTERS). There are never more than the tree has letters, and at most four if it has no
/// lookaround.
///
/// # Errors
/// [`OutOfMemory`] if there is not enough memory for them.
fn kinds(alloc: Global, tree: &Re, universe: Universe) -> Result<Letters, OutOfMemory>
    requires inside { IsOver universe (tree_of tree.now) }
    requires few { length (classes (guard_sets (tree_of tree.now)) (code_count universe)) ≤ MOST_LETTERS }
    ensures ok { IfOk result
        (λ table. IsLetters table (guard_sets (tree_of tree.now)) (code_count universe)) }
    ensures few { IfOk result (λ table. length table.samples ≤ MOST_LETTERS) }
{
    let mut sets = Vec::new(alloc);
    add_guard_sets(alloc, tree, &mut sets)?;
    match Letters::of(alloc, &sets, universe) {
        Ok(kinds) => Ok(kinds),
        Err(LettersError::OutOfMemory) => Err(OutOfMemory),
        Err(LettersError::TooMany) => unreachable!(),
    }
}

impl Prio {
    ghost use Rattle.rl_prio.specs.StandsFor.{StandsFor, StandsOver};

    /// Builds the automaton of a tree and an ending. Its letters are the classes of codes of the universe that the tree's
    /// sets, and the sets that its guards use, distinguish. The tree must have at most [`MOST_NODES`](rl_syntax::MOST_NODES)
    /// nodes, and its sets and those that its guards use must hold only codes of the universe.
    ///
    /// # Errors
    /// [`PrioError::Letters`] only if there are more than [`MOST_LETTERS`](rl_ranges::MOST_LETTERS) letters.
    /// [`PrioError::Moves`] only if there are no more letters than that, but a list of items has more than
    /// [`MOST_MOVES`](rl_syntax::MOST_MOVES) items: the list of what a matcher tries on entering the tree or after one of its
    /// sets. [`PrioError::OutOfMemory`] if there is not enough memory for the automaton. If a limit is exceeded, there is
    /// always an error.
    pub fn build(
        alloc: Global,
        tree: &Re,
        ending: Ending,
        universe: Universe,
    ) -> Result<Prio, PrioError>
        requires small { size (tree_of tree.now) ≤ MOST_NODES }
        requires inside { IsOver universe (tree_of tree.now) }
        ensures ok { IfOk result (λ a. StandsFor a (tree_of tree.now) ending) }
        ensures codes { IfOk result (λ a. a.table.codes ≡ code_count universe) }
        ensures within { OnOk result
            ((length (letters (tree_of tree.now) (code_count universe)) ≤ MOST_LETTERS) × (longest (tree_of tree.now) ≤ MOST_MOVES)) }
        ensures letters { IfErr result (λ e. e ≡ PrioError.Letters
            → MOST_LETTERS < length (letters (tree_of tree.now) (code_count universe))) }
        ensures moves { IfErr result (λ e. e ≡ PrioError.Moves
            → (length (letters (tree_of tree.now) (code_count universe)) ≤ MOST_LETTERS) × (MOST_MOVES < longest (tree_of tree.now))) }
    {
        let mut sets = Vec::new(alloc);
        add_letter_sets(alloc, tree, &mut sets)?;
        Prio::build_over(alloc, tree, ending, universe, &sets)
    }

    /// Builds the automaton of a tree and an ending over the letters that the given sets distinguish in the universe. Codes
    /// that these sets don't distinguish must not be distinguished by the sets of the tree, or by those that its guards use,
    /// either. The tree must have at most [`MOST_NODES`](rl_syntax::MOST_NODES) nodes, and all of these sets must hold only
    /// codes of the universe.
    ///
    /// # Errors
    /// [`PrioError::Letters`] only if there are more than [`MOST_LETTERS`](rl_ranges::MOST_LETTERS) letters.
    /// [`PrioError::Moves`] only if there are no more letters than that, but a list of items has more than
    /// [`MOST_MOVES`](rl_syntax::MOST_MOVES) items: the list of what a matcher tries on entering the tree or after one of its
    /// sets. [`PrioError::OutOfMemory`] if there is not enough memory for the automaton. If a limit is exceeded, there is
    /// always an error.
    pub fn build_over(
        alloc: Global,
        tree: &Re,
        ending: Ending,
        universe: Universe,
        sets: &Vec<CodeSet>,
    ) -> Result<Prio, PrioError>
        requires small { size (tree_of tree.now) ≤ MOST_NODES }
        requires inside { IsOver universe (tree_of tree.now) }
        requires sets_inside { All (IsInside universe) sets.now.items }
        requires finer { (c d : ℕ) → alike (map has sets.now.items) c d ≡ true
            → alike (all_sets (tree_of tree.now)) c d ≡ true }
        ensures ok { IfOk result
            (λ a. StandsOver a (tree_of tree.now) ending (map has sets.now.items)) }
        ensures codes { IfOk result (λ a. a.table.codes ≡ code_count universe) }
        ensures within { OnOk result
            ((length (classes (map has sets.now.items) (code_count universe)) ≤ MOST_LETTERS) × (longest (tree_of tree.now) ≤ MOST_MOVES)) }
        ensures letters { IfErr result (λ e. e ≡ PrioError.Letters
            → MOST_LETTERS < length (classes (map has sets.now.items) (code_count universe))) }
        ensures moves { IfErr result (λ e. e ≡ PrioError.Moves
            → (length (classes (map has sets.now.items) (code_count universe)) ≤ MOST_LETTERS) × (MOST_MOVES < longest (tree_of tree.now))) }
    {
        let table = Letters::of(alloc, sets, universe)?;
        let letters = shared(alloc, table)?;
        Prio::over_letters(alloc, tree, ending, universe, letters)
    }
}
