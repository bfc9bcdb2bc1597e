//! Compares what two patterns match. The matched tree of a pattern is a tree that spans a whole text if and only if the
//! pattern matches the text in its mode. A set pair is two sets of states, one of each of two automata, to which the same word
//! leads; the letters of the word are those of both trees. It shows a difference if the end letter, which comes after the last
//! letter, leads exactly one of its sets to the accepting state.

ghost use Rattle.std.specs.Prelude.{◌≡◌, ◌≤◌, IfOk, IfErr, OnOk};
ghost use Rattle.rl_syntax.specs.Tree.{tree_of, IsOver};
ghost use Rattle.rl_syntax.specs.Cost.{matched};
ghost use Rattle.rl_equiv.specs.Limits.{AreWithin};
ghost use Rattle.rl_equiv.specs.Regions.{AreRegions};
ghost use Rattle.rl_compare.specs.Matched.{matched_tree};
ghost use Rattle.rl_compare.specs.Exceeded.{IsCompareExceeded};
ghost use Rattle.rl_compare.specs.Comparison.{IsTrueComparison};
ghost use Rattle.rl_syntax.specs.declared.limits.TheConstants.{MOST_SET_PAIRS};

use crate::error::CompareError;
use rl_equiv::{Compared, regions};
use rl_lists::OutOfMemory;
use rl_ranges::{CodeSet, Universe};
use rl_syntax::{Ending, Lowered, Re};
use std::alloc::Global;

/// Returns the matched tree of a lowered pattern: its tree, followed by any codes of the universe if a match may end anywhere.
fn matched_re(alloc: Global, lowered: Lowered, u: Universe) -> Result<Re, OutOfMemory>
    ensures { IfOk result (λ re. tree_of re ≡ matched_tree u (tree_of lowered.tree) lowered.ending) }
{
    match lowered.ending {
        Ending::AtEnd => Ok(lowered.tree),
        Ending::Anywhere => {
            let any = Re::One(CodeSet::range(alloc, 0, u.count() - 1)?);
            let rest = Re::many(alloc, any, true)?;
            Re::both(alloc, lowered.tree, rest)
        }
    }
}

/// Compares what two lowered patterns match, each with its own ending, by the first `limit` set pairs of their matched trees
/// in breadth-first order. Returns a text that only the first pattern matches, one that only the second matches and one that
/// both match, and whether more than `limit` set pairs are reached. A text is `None` if none of the first `limit` set pairs
/// gives one; if no more set pairs are reached, no such text exists. `limit` must be from 1 to 20,000, and the sets of both
/// patterns must have only codes of the universe `u`.
///
/// # Errors
/// [`CompareError::Size`], [`CompareError::Letters`] or [`CompareError::Moves`] for the first limit, in this order, that the
/// matched trees exceed; [`CompareError::OutOfMemory`] if there is not enough memory.
pub fn compare(
    alloc: Global,
    a: Lowered,
    b: Lowered,
    u: Universe,
    limit: u32,
) -> Result<Compared, CompareError>
    requires first_inside { IsOver u (tree_of a.tree) }
    requires second_inside { IsOver u (tree_of b.tree) }
    requires some { 1 ≤ limit }
    requires low { limit ≤ MOST_SET_PAIRS }
    ensures within { OnOk result (AreWithin u (matched_tree u (tree_of a.tree) a.ending) (matched_tree u (tree_of b.tree) b.ending)) }
    ensures exceeded { IfErr result (IsCompareExceeded u (matched_tree u (tree_of a.tree) a.ending) (matched_tree u (tree_of b.tree) b.ending)) }
    ensures regions { IfOk result (AreRegions u (matched_tree u (tree_of a.tree) a.ending) (matched_tree u (tree_of b.tree) b.ending) limit) }
    ensures told { IfOk result (IsTrueComparison u (matched (tree_of a.tree) a.ending) (matched (tree_of b.tree) b.ending)) }
{
    let first = matched_re(alloc, a, u)?;
    let second = matched_re(alloc, b, u)?;
    let found = regions(alloc, &first, &second, u, limit)?;
    Ok(found)
}
