//! The sets that distinguish the codes of a tree.

ghost use Rattle.std.specs.Prelude.{◌≡◌, ◌++◌, ◌∷◌, [], All, map, OnOk, IfOk};
ghost use Rattle.rl_ranges.specs.Codes.{has, IsInside};
ghost use Rattle.rl_syntax.specs.Guards.{sets_named, is_word, is_line_feed};
ghost use Rattle.rl_syntax.specs.Tree.{tree_of, sets_in, guard_sets, IsOver};

use rl_lists::OutOfMemory;
use rl_ranges::{CodeSet, Named, Universe};
use rl_syntax::{Guard, Re};
use std::alloc::Global;

/// Adds the sets of a tree, from left to right.
///
/// # Errors
/// [`OutOfMemory`] if there is not enough memory for them.
pub(crate) fn add_sets(tree: &Re, sets: &mut Vec<CodeSet>) -> Result<(), OutOfMemory>
    ensures { OnOk result
        (map has sets.new.items ≡ map has sets.old.items ++ sets_in (tree_of tree.now)) }
{
    match tree {
        Re::Empty | Re::Guard(_) => Ok(()),
        Re::One(set) => put(sets, set.copy()?),
        Re::Both(first, second) | Re::Either(first, second) => {
            add_sets(first, sets)?;
            add_sets(second, sets)
        }
        Re::Many(body, _) => add_sets(body, sets),
    }
}

/// Appends the sets that the guards of a tree use to `sets`, from left to right.
///
/// # Errors
/// [`OutOfMemory`] if there is not enough memory for them. Some may have been appended then.
pub fn add_guard_sets(alloc: Global, tree: &Re, sets: &mut Vec<CodeSet>) -> Result<(), OutOfMemory>
    ensures sets { OnOk result
        (map has sets.new.items ≡ map has sets.old.items ++ guard_sets (tree_of tree.now)) }
    ensures inside { OnOk result ((u : Universe) → IsOver u (tree_of tree.now)
        → All (IsInside u) sets.old.items → All (IsInside u) sets.new.items) }
{
    add_sets_of_guards(alloc, tree, sets)
}

/// Adds the sets that the guards of a tree use, from left to right.
///
/// # Errors
/// [`OutOfMemory`] if there is not enough memory for them.
fn add_sets_of_guards(alloc: Global, tree: &Re, sets: &mut Vec<CodeSet>) -> Result<(), OutOfMemory>
    ensures { OnOk result
        (map has sets.new.items ≡ map has sets.old.items ++ guard_sets (tree_of tree.now)) }
{
    match tree {
        Re::Empty | Re::One(_) => Ok(()),
        Re::Guard(guard) => add_named(alloc, guard, sets),
        Re::Both(first, second) | Re::Either(first, second) => {
            add_sets_of_guards(alloc, first, sets)?;
            add_sets_of_guards(alloc, second, sets)
        }
        Re::Many(body, _) => add_sets_of_guards(alloc, body, sets),
    }
}

/// Adds the set that a guard uses, if it uses one.
///
/// # Errors
/// [`OutOfMemory`] if there is not enough memory for it.
fn add_named(alloc: Global, guard: &Guard, sets: &mut Vec<CodeSet>) -> Result<(), OutOfMemory>
    ensures { OnOk result
        (map has sets.new.items ≡ map has sets.old.items ++ sets_named guard.now) }
{
    match guard {
        Guard::Start | Guard::TextEnd => Ok(()),
        Guard::LineStart | Guard::LineEnd => put(sets, line_feeds(alloc)?),
        Guard::Word(ascii) | Guard::NotWord(ascii) => put(sets, words(alloc, *ascii)?),
        Guard::Look { set, .. } => put(sets, set.copy()?),
    }
}

/// Appends a set.
///
/// # Errors
/// [`OutOfMemory`] if there is not enough memory for it.
fn put(sets: &mut Vec<CodeSet>, set: CodeSet) -> Result<(), OutOfMemory>
    ensures { OnOk result (map has sets.new.items ≡ map has sets.old.items ++ has set ∷ []) }
{
    sets.push(set)?;
    Ok(())
}

/// Creates the set that holds only the line feed.
///
/// # Errors
/// [`OutOfMemory`] if there is not enough memory for it.
fn line_feeds(alloc: Global) -> Result<CodeSet, OutOfMemory>
    ensures { IfOk result (λ set. has set ≡ is_line_feed) }
{
    CodeSet::range(alloc, 10, 10)
}

/// Creates the set of the word characters: only the ASCII ones if `ascii` is true, and all of them otherwise.
///
/// # Errors
/// [`OutOfMemory`] if there is not enough memory for it.
pub(crate) fn words(alloc: Global, ascii: bool) -> Result<CodeSet, OutOfMemory>
    ensures { IfOk result (λ set. has set ≡ is_word ascii) }
{
    CodeSet::named(alloc, Named::Word, ascii, Universe::Str)
}
