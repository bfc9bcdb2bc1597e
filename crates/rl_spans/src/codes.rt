//! One code for each letter of two trees, and the sets of their lookarounds. Two codes are one letter if each set of either
//! tree, and each set that a guard of either names, holds both or neither of them.

ghost use Rattle.std.specs.Prelude.{◌≡◌, ◌++◌, ◌<◌, ℕ, All, map, true, IfErr, IfOk, OnOk, length, slice_index_or};
ghost use Rattle.rl_ranges.specs.Codes.{has, IsInside};
ghost use Rattle.rl_ranges.specs.Letters.{alike, classes, IsLetters};
ghost use Rattle.rl_ranges.specs.declared.letters.TheConstants.{MOST_LETTERS};
ghost use Rattle.rl_ranges.specs.declared.letters.LettersError.TheVariants as error;
ghost use Rattle.rl_ranges.specs.Text.{code_count};
ghost use Rattle.rl_syntax.specs.Tree.{tree_of, IsOver};
ghost use Rattle.rl_prio.specs.Letters.{all_sets};
ghost use Rattle.rl_marks.specs.Marked.{marked_of, plain};
ghost use Rattle.rl_spans.specs.internal.Codes.{AreEnough};
ghost use Rattle.rl_spans.specs.internal.Looks.{look_sets};

use crate::plain::plain_of;
use rl_lists::{Items, OutOfMemory};
use rl_marks::MarkTree;
use rl_prio::add_letter_sets;
use rl_ranges::{CodeSet, Letters, LettersError};
use rl_syntax::{Guard, Universe};
use std::alloc::Global;

/// Returns the sets that tell the codes of two trees apart: those of the trees, and those that their guards name.
fn sets_of(alloc: Global, first: &MarkTree, second: &MarkTree) -> Result<Vec<CodeSet>, OutOfMemory>
    ensures sets { IfOk result
        (λ sets. map has sets.items ≡ all_sets (plain (marked_of first.now)) ++ all_sets (plain (marked_of second.now))) }
    ensures inside { IfOk result (λ sets. (u : Universe) → IsOver u (plain (marked_of first.now)) → IsOver u (plain (marked_of second.now))
        → All (IsInside u) sets.items) }
{
    let mut sets = Vec::new(alloc);
    let left = plain_of(alloc, first)?;
    let right = plain_of(alloc, second)?;
    add_letter_sets(alloc, &left, &mut sets)?;
    add_letter_sets(alloc, &right, &mut sets)?;
    Ok(sets)
}

/// Returns the sample code of each letter, in the order of the letters.
fn samples_of(alloc: Global, letters: &Letters) -> Result<Items<u32>, OutOfMemory>
    ensures { IfOk result (λ codes. codes ≡ letters.now.samples) }
{
    let mut codes = Items::new(alloc);
    for letter in 0..letters.count() {
        codes.push(letters.sample(letter))?;
    }
    Ok(codes)
}

/// Returns one code of each letter of two trees over one universe.
///
/// # Errors
/// [`LettersError::TooMany`] only if there are more than [`MOST_LETTERS`](rl_ranges::MOST_LETTERS),
/// [`LettersError::OutOfMemory`] if there was no memory for them.
pub(crate) fn codes_of(
    alloc: Global,
    first: &MarkTree,
    second: &MarkTree,
    universe: Universe,
) -> Result<Items<u32>, LettersError>
    requires first { IsOver universe (plain (marked_of first.now)) }
    requires second { IsOver universe (plain (marked_of second.now)) }
    ensures enough { IfOk result (AreEnough (all_sets (plain (marked_of first.now)) ++ all_sets (plain (marked_of second.now))) (code_count universe)) }
    ensures many { IfErr result (λ e. e ≡ error.TooMany
        → MOST_LETTERS < length (classes (all_sets (plain (marked_of first.now)) ++ all_sets (plain (marked_of second.now))) (code_count universe))) }
{
    let sets = sets_of(alloc, first, second)?;
    let letters = Letters::of(alloc, &sets, universe)?;
    let codes = samples_of(alloc, &letters)?;
    Ok(codes)
}

/// Appends the sets of a tree's lookarounds, from left to right.
fn add_looks(tree: &MarkTree, looks: &mut Items<CodeSet>) -> Result<(), OutOfMemory>
    ensures { OnOk result (map has looks.new ≡ map has looks.old ++ look_sets (plain (marked_of tree.now))) }
{
    match tree {
        MarkTree::Guard(Guard::Look { set, .. }) => looks.push(set.copy()?),
        MarkTree::Empty | MarkTree::One(_) | MarkTree::Guard(_) => Ok(()),
        MarkTree::Both(first, second)
        | MarkTree::Either(first, second)
        | MarkTree::Further(first, second) => {
            add_looks(first, looks)?;
            add_looks(second, looks)
        }
        MarkTree::Many(body, _) | MarkTree::Mark(_, body) => add_looks(body, looks),
    }
}

/// Returns the sets of the lookarounds of two trees.
///
/// # Errors
/// [`OutOfMemory`] if there was no memory for the list.
pub(crate) fn looks_of(
    alloc: Global,
    first: &MarkTree,
    second: &MarkTree,
) -> Result<Items<CodeSet>, OutOfMemory>
    ensures { IfOk result (λ looks. map has looks ≡ look_sets (plain (marked_of first.now)) ++ look_sets (plain (marked_of second.now))) }
{
    let mut looks = Items::new(alloc);
    add_looks(first, &mut looks)?;
    add_looks(second, &mut looks)?;
    Ok(looks)
}
