//! Checks whether a relation is closed. A set pair is two sets of states, one of each of two automata, to which the same word
//! leads; the letters of the word are those of both trees. It shows a difference if the end letter, which comes after the last
//! letter, leads exactly one of its sets to the accepting state. The first set pair has the start, state 0, of each automaton,
//! and the next ones of a set pair are the images of its two sets, one pair for each letter. A relation is a list of set
//! pairs.

ghost use Rattle.std.specs.Prelude.{◌≡◌, ◌↔◌, ℕ, ◌<◌, ◌≤◌, true, IsTrue, length, IfOk, Contains};
ghost use Rattle.rl_syntax.specs.Tree.{tree_of, IsOver};
ghost use Rattle.rl_equiv.specs.SetPairs.{first_pair, set_pairs, IsKept, IsClosed};
ghost use Rattle.rl_equiv.specs.Languages.{SameLanguage};
ghost use Rattle.rl_equiv.specs.Limits.{AreWithin};
ghost use Rattle.rl_equiv.specs.internal.Machines.{ends, pair_on, pairs_of, ShareLetters};
ghost use Rattle.rl_equiv.specs.internal.Index.{HoldTheSame};
ghost use Rattle.rl_equiv.specs.internal.Walks.{IsBegun};
ghost use Rattle.rl_prio.specs.Automaton.{letters_count};
ghost use Rattle.rl_sets.specs.Walk.{set_at, set_of};

use crate::error::SameError;
use crate::index::Index;
use crate::joint::Joint;
use crate::pair::{Relation, SetPair};
use crate::walks::{are_proper, ends_in, image_in, walk_from};
use rl_lists::{Items, OutOfMemory};
use rl_prio::Prio;
use rl_ranges::Universe;
use rl_sets::SetWalk;
use rl_syntax::Re;
use std::alloc::Global;

/// Returns whether both sets of a set pair rise and have no other states than the start and those of places.
fn is_proper(a: &Prio, b: &Prio, pair: &SetPair) -> bool
    ensures { result ≡ (pairs_of a.now b.now).proper pair.now }
{
    let first = are_proper(a, &pair.first);
    let second = are_proper(b, &pair.second);
    first && second
}

/// Returns whether the set pair of the first sets of two walks shows no difference and has its next set pairs in the index.
fn keeps_sets(
    a: &Prio,
    b: &Prio,
    index: &Index,
    first: &mut SetWalk,
    second: &mut SetWalk,
) -> Result<bool, OutOfMemory>
    requires letters { ShareLetters a.now b.now }
    requires first_begun { IsBegun a.now first.old }
    requires second_begun { IsBegun b.now second.old }
    requires first_one { length first.old.sets ≡ 1 }
    requires second_one { length second.old.sets ≡ 1 }
    ensures { IfOk result (λ ok. IsTrue ok ↔ ((ends a.now (set_at first.old 0) ≡ ends b.now (set_at second.old 0))
        × ((letter : ℕ) → letter < letters_count a.now
        → Contains index.now (pair_on a.now b.now (record { first = set_at first.old 0; second = set_at second.old 0 }) letter)))) }
{
    let ended = ends_in(first, a)?;
    let also_ended = ends_in(second, b)?;
    if ended != also_ended {
        return Ok(false);
    }
    let end = a.letters().count();
    for letter in 0..end {
        let left = image_in(first, a, letter)?;
        let right = image_in(second, b, letter)?;
        if !index.has(left, right) {
            return Ok(false);
        }
    }
    Ok(true)
}

/// Returns whether a set pair shows no difference and has its next ones in the index. The walk starts from its first set.
fn keeps_beside(
    alloc: Global,
    a: &Prio,
    b: &Prio,
    index: &Index,
    first: &mut SetWalk,
    pair: &SetPair,
) -> Result<bool, OutOfMemory>
    requires letters { ShareLetters a.now b.now }
    requires proper { (pairs_of a.now b.now).proper pair.now ≡ true }
    requires begun { IsBegun a.now first.old }
    requires one { length first.old.sets ≡ 1 }
    requires set { set_at first.old 0 ≡ set_of a.now pair.now.first }
    ensures { IfOk result (λ ok. IsTrue ok ↔ IsKept (pairs_of a.now b.now) index.now pair.now) }
{
    let mut second = walk_from(alloc, b, &pair.second)?;
    let kept = keeps_sets(a, b, index, first, &mut second);
    drop(second);
    kept
}

/// Returns whether a set pair is proper, shows no difference and has its next ones in the index.
fn keeps(
    alloc: Global,
    a: &Prio,
    b: &Prio,
    index: &Index,
    pair: &SetPair,
) -> Result<bool, OutOfMemory>
    requires { ShareLetters a.now b.now }
    ensures { IfOk result (λ ok. IsTrue ok ↔ IsKept (pairs_of a.now b.now) index.now pair.now) }
{
    if !is_proper(a, b, pair) {
        return Ok(false);
    }
    let mut first = walk_from(alloc, a, &pair.first)?;
    let kept = keeps_beside(alloc, a, b, index, &mut first, pair);
    drop(first);
    kept
}

/// Returns whether the pair of the sets of both starts is in the index.
fn has_start(alloc: Global, index: &Index) -> Result<bool, OutOfMemory>
    ensures { IfOk result (λ has. IsTrue has ↔ Contains index.now first_pair) }
{
    let first = Items::from_slice(alloc, &[0])?;
    let second = Items::from_slice(alloc, &[0])?;
    Ok(index.has(first, second))
}

/// Returns whether a list of set pairs of two automata is closed. The index is that of the list.
fn is_closed_in(
    alloc: Global,
    a: &Prio,
    b: &Prio,
    index: &Index,
    relation: &[SetPair],
) -> Result<bool, OutOfMemory>
    requires letters { ShareLetters a.now b.now }
    requires index { HoldTheSame index.now relation.now }
    ensures { IfOk result (λ ok. IsTrue ok ↔ IsClosed (pairs_of a.now b.now) relation.now) }
{
    let start_in = has_start(alloc, index)?;
    if !start_in {
        return Ok(false);
    }
    for pair in relation {
        if !keeps(alloc, a, b, index, pair)? {
            return Ok(false);
        }
    }
    Ok(true)
}

/// Returns whether a list of set pairs of two automata is closed.
fn is_closed(alloc: Global, a: &Prio, b: &Prio, relation: &[SetPair]) -> Result<bool, OutOfMemory>
    requires { ShareLetters a.now b.now }
    ensures { IfOk result (λ ok. IsTrue ok ↔ IsClosed (pairs_of a.now b.now) relation.now) }
{
    let index = Index::of(alloc, relation)?;
    let closed = is_closed_in(alloc, a, b, &index, relation);
    drop(index);
    closed
}

/// Returns whether two trees, each matched whole, are within the limits on nodes, letters and items, and a relation of their
/// set pairs is closed, as a bisimulation is: it has the first set pair and, for each of its set pairs, the next one on each
/// letter; none of its set pairs shows a difference; and each of its sets is a strictly increasing list of the start and
/// states of places. If so, both trees span the same whole texts of the universe. The sets of both trees must have only codes
/// of the universe `u`.
///
/// # Errors
/// [`OutOfMemory`] if there is not enough memory for the automata or the sets.
pub fn check(alloc: Global, a: &Re, b: &Re, u: Universe, r: &Relation) -> Result<bool, OutOfMemory>
    requires first_inside { IsOver u (tree_of a.now) }
    requires second_inside { IsOver u (tree_of b.now) }
    ensures closed { IfOk result (λ ok. IsTrue ok
        ↔ (AreWithin u (tree_of a.now) (tree_of b.now) × IsClosed (set_pairs u (tree_of a.now) (tree_of b.now)) r.now)) }
    ensures same { IfOk result (λ ok. IsTrue ok → SameLanguage u (tree_of a.now) (tree_of b.now)) }
{
    match Joint::new(alloc, a, b, u) {
        Ok(joint) => {
            let closed = is_closed(alloc, &joint.first, &joint.second, r.as_slice());
            drop(joint);
            closed
        }
        Err(SameError::OutOfMemory) => Err(OutOfMemory),
        Err(_) => Ok(false),
    }
}
