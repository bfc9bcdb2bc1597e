//! The sets of a pattern, and their letters.

ghost use Rattle.std.specs.Prelude.{◌≡◌, ◌≢◌, ◌++◌, ◌<◌, ◌≤◌, IfErr, IfOk, OnOk, length, map};
ghost use Rattle.rl_ranges.specs.Codes.{has};
ghost use Rattle.rl_ranges.specs.Letters.{classes};
ghost use Rattle.rl_ranges.specs.Text.{code_count};
ghost use Rattle.rl_ranges.specs.declared.letters.TheConstants.{MOST_LETTERS};
ghost use Rattle.rl_syntax.specs.Counting.{branch_tree};
ghost use Rattle.rl_syntax.specs.PatTree.{branches_of, items_of, pat_of};
ghost use Rattle.rl_syntax.specs.Pattern.{body_of, universe_of};
ghost use Rattle.rl_parts.specs.declared.error.PartsError.TheVariants as error;
ghost use Rattle.rl_parts.specs.Sets.{AreLettersOf, sets_in, sets_in_branches, sets_in_items};

use crate::error::PartsError;
use rl_lists::OutOfMemory;
use rl_ranges::{CodeSet, Letters, LettersError};
use rl_syntax::{Branch, Pat, Pattern};
use std::alloc::Global;

/// Appends the sets of a part of a pattern, from left to right.
#[cycle(sets)]
fn add_sets(part: &Pat, sets: &mut Vec<CodeSet>) -> Result<(), OutOfMemory>
    ensures { OnOk result
        (map has sets.new.items ≡ map has sets.old.items ++ sets_in (pat_of part.now)) }
{
    match part {
        Pat::Class { set, .. } | Pat::Look { set, .. } => {
            sets.push(set.copy()?)?;
            Ok(())
        }
        Pat::Seq { items, .. } => add_item_sets(items.as_slice(), sets),
        Pat::Choice { branches, .. } => add_branch_sets(branches.as_slice(), sets),
        Pat::Repeat { body, .. } | Pat::Group { body, .. } => add_sets(body, sets),
        Pat::Nothing { .. } | Pat::Anchor { .. } | Pat::Boundary { .. } | Pat::Outside { .. } => {
            Ok(())
        }
    }
}

/// Appends the sets of the items of a sequence.
#[cycle(sets)]
fn add_item_sets(items: &[Pat], sets: &mut Vec<CodeSet>) -> Result<(), OutOfMemory>
    ensures { OnOk result
        (map has sets.new.items ≡ map has sets.old.items ++ sets_in_items (items_of (map pat_of items.now))) }
{
    for item in items {
        add_sets(item, sets)?;
    }
    Ok(())
}

/// Appends the sets of the branches of a choice.
#[cycle(sets)]
fn add_branch_sets(branches: &[Branch], sets: &mut Vec<CodeSet>) -> Result<(), OutOfMemory>
    ensures { OnOk result
        (map has sets.new.items ≡ map has sets.old.items ++ sets_in_branches (branches_of (map branch_tree branches.now))) }
{
    for branch in branches {
        add_sets(&branch.body, sets)?;
    }
    Ok(())
}

/// Returns the letters of the sets of a pattern.
///
/// # Errors
/// [`PartsError::Letters`] only if there are more than [`MOST_LETTERS`](rl_ranges::MOST_LETTERS), in which case there is never
/// a result. [`PartsError::OutOfMemory`] if there is no memory for them.
pub(crate) fn letters_of(alloc: Global, pattern: &Pattern) -> Result<Letters, PartsError>
    ensures letters { IfOk result (AreLettersOf pattern.now) }
    ensures few { IfOk result (λ table. length table.samples ≤ MOST_LETTERS) }
    ensures many { IfErr result (λ e. e ≡ error.Letters
        → MOST_LETTERS < length (classes (sets_in (body_of pattern.now)) (code_count (universe_of pattern.now)))) }
    ensures groups { IfErr result (λ e. e ≢ error.Groups) }
{
    let mut sets = Vec::new(alloc);
    add_sets(pattern.body(), &mut sets)?;
    match Letters::of(alloc, &sets, pattern.universe()) {
        Ok(letters) => Ok(letters),
        Err(LettersError::TooMany) => Err(PartsError::Letters),
        Err(LettersError::OutOfMemory) => Err(PartsError::OutOfMemory),
    }
}
