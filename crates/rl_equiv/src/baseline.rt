//! Compares one tree with others whose sets tell no more codes apart. Two codes are told apart by a set that has only one of
//! them. A set pair is two sets of states, one of each of two automata, to which the same word leads; the letters of the word
//! are those of both trees. It shows a difference if the end letter, which comes after the last letter, leads exactly one of
//! its sets to the accepting state.

ghost use Rattle.std.specs.Prelude.{◌≡◌, ◌≤◌, Some, IfOk, IfErr, OnOk};
ghost use Rattle.rl_syntax.specs.Tree.{tree_of, IsOver, Tree};
ghost use Rattle.rl_syntax.specs.declared.limits.TheConstants.{MOST_SET_PAIRS};
ghost use Rattle.rl_equiv.specs.SetPairs.{set_pairs};
ghost use Rattle.rl_equiv.specs.Bases.{Base, IsBase, DistinguishesNoMore};
ghost use Rattle.rl_equiv.specs.Joined.{StandTogether};
ghost use Rattle.rl_equiv.specs.Languages.{IsTrueAnswer};
ghost use Rattle.rl_equiv.specs.Limits.{AreWithin, IsExceeded, IsWithin, IsExceededBy};
ghost use Rattle.rl_equiv.specs.Numbering.{IsAnswer};
ghost use Rattle.rl_equiv.specs.Sides.{IsKeptSide};
ghost use Rattle.rl_equiv.specs.internal.Machines.{pairs_of};
ghost use Rattle.rl_equiv.specs.internal.Searching.{AreReaders, TellsApart};

use crate::error::SameError;
use crate::sameness::Sameness;
use crate::searching::PairSearch;
use crate::sides::kept_side;
use rl_lists::OutOfMemory;
use rl_prio::Prio;
use rl_ranges::Universe;
use rl_sets::SetWalk;
use rl_syntax::{Ending, MOST_NODES, Re};
use std::alloc::Global;
use std::marker::Model;

/// A tree, matched whole, with which other trees are compared one after another. Its letters and its automaton are built once.
/// The images of its sets of states are kept from one comparison to the next, until there are more than 30,000 sets or memory
/// runs out.
#[derive(Drop)]
pub struct Baseline {
    /// The tree.
    tree: Re,
    /// The universe of the texts.
    universe: Universe,
    /// The automaton of the tree, matched to the end of the text.
    automaton: Prio,
    /// The walk over the sets of the automaton, with the images that earlier comparisons computed.
    walk: Option<SetWalk>,
}

impl Model for Baseline {
    ghost use Rattle.rl_syntax.specs.Tree.{tree_of};
    ghost use Rattle.rl_syntax.specs.contracts.re.Re as e;
    ghost use Rattle.rl_equiv.specs.Bases.{Base, IsBase};
    ghost use Rattle.rl_equiv.specs.Sides.{IsKeptSide};
    ghost use Rattle.std.specs.Coded.{codes};

    ghost Value = { Base };

    ghost coded = { Prim.hlevel (codes, e.the_row.coded) };

    ghost view = { λ b. record { tree = b.tree; universe = b.universe } };

    ghost invariant = { λ b. IsBase b.universe (tree_of b.tree) b.automaton × IsKeptSide b.automaton b.walk };
}

/// Returns the automaton of another tree, over the letters of the first automaton.
///
/// # Errors
/// [`SameError::Size`] or [`SameError::Moves`] for the first limit that the other tree exceeds, and [`SameError::OutOfMemory`]
/// if there was no memory for the automaton.
fn beside(alloc: Global, first: &Prio, other: &Re, u: Universe) -> Result<Prio, SameError>
    requires base { (s : Tree) × IsBase u s first.now × DistinguishesNoMore s (tree_of other.now) }
    requires inside { IsOver u (tree_of other.now) }
    ensures stand { IfOk result (λ b. (s : Tree) → IsBase u s first.now → DistinguishesNoMore s (tree_of other.now)
        → StandTogether u s (tree_of other.now) first.now b) }
    ensures within { OnOk result ((s : Tree) → IsBase u s first.now → DistinguishesNoMore s (tree_of other.now)
        → AreWithin u s (tree_of other.now)) }
    ensures exceeded { IfErr result (λ e. (s : Tree) → IsBase u s first.now → DistinguishesNoMore s (tree_of other.now)
        → IsExceeded u s (tree_of other.now) e) }
{
    if other.nodes() > MOST_NODES {
        return Err(SameError::Size);
    }
    let second = Prio::build_beside(alloc, first, other, Ending::AtEnd, u)?;
    // Reading the number of states shows that it is a whole automaton.
    let _states = second.states();
    Ok(second)
}

/// Compares two automata by their first `limit` set pairs. Returns what they show, and the walk over the sets of the first
/// automaton, so that the next comparison can reuse its images. The search goes on with the walk `kept`, if there is one.
pub(crate) fn search_on(
    alloc: Global,
    a: &Prio,
    b: &Prio,
    kept: Option<SetWalk>,
    limit: u32,
) -> Result<(Sameness, SetWalk), OutOfMemory>
    requires readers { AreReaders a.now b.now }
    requires kept { IsKeptSide a.now kept }
    requires some { 1 ≤ limit }
    requires low { limit ≤ MOST_SET_PAIRS }
    ensures answer { IfOk result (λ r. IsAnswer (pairs_of a.now b.now) limit r.0) }
    ensures apart { IfOk result (λ r. TellsApart a.now b.now r.0) }
    ensures kept { IfOk result (λ r. IsKeptSide a.now (Some r.1)) }
{
    let walk = kept_side(alloc, a, kept)?;
    let mut search = PairSearch::go_on(alloc, a, b, walk, limit)?;
    let found = search.run(alloc, a, b);
    let walk = search.into_first();
    match found {
        Ok(found) => Ok((found, walk)),
        Err(OutOfMemory) => {
            drop(walk);
            Err(OutOfMemory)
        }
    }
}

impl Baseline {
    /// Returns the tree with which others are compared. The sets of the tree must have only codes of the universe `u`.
    ///
    /// # Errors
    /// [`SameError::Size`] if the tree has more than [`MOST_NODES`] nodes; otherwise [`SameError::Letters`] if its sets tell
    /// more than [`MOST_LETTERS`](rl_syntax::MOST_LETTERS) letters apart; otherwise [`SameError::Moves`] if it has an item
    /// list of more than [`MOST_MOVES`](rl_syntax::MOST_MOVES) items. [`SameError::OutOfMemory`] if there is not enough
    /// memory.
    pub fn new(alloc: Global, tree: Re, u: Universe) -> Result<Baseline, SameError>
        requires inside { IsOver u (tree_of tree) }
        ensures base { IfOk result (λ b. b ≡ record { tree = tree; universe = u }) }
        ensures within { OnOk result (IsWithin u (tree_of tree)) }
        ensures exceeded { IfErr result (IsExceededBy u (tree_of tree)) }
    {
        if tree.nodes() > MOST_NODES {
            drop(tree);
            return Err(SameError::Size);
        }
        let automaton = Prio::build(alloc, &tree, Ending::AtEnd, u)?;
        // Reading the number of states shows that it is a whole automaton.
        let _states = automaton.states();
        Ok(Baseline {
            tree,
            universe: u,
            automaton,
            walk: None,
        })
    }

    /// Compares the tree with another one over the same universe. Returns what [`same`](crate::same) returns for both trees
    /// and `limit`: [`Sameness::Equal`] if they span the same texts and at most `limit` set pairs are reached,
    /// [`Sameness::Apart`] with a text that only one of them spans if one of the first `limit` set pairs shows a difference,
    /// and [`Sameness::Passed`] if more than `limit` set pairs are reached and none of the first `limit` shows a difference.
    /// The sets of the other tree must have only codes of the universe and tell no more codes apart than the sets of this one,
    /// and `limit` must be from 1 to 20,000. The tree and the universe stay the same; only images of sets are kept for later
    /// comparisons.
    ///
    /// # Errors
    /// [`SameError::Size`] if one of the trees has more than [`MOST_NODES`](rl_syntax::MOST_NODES) nodes; otherwise
    /// [`SameError::Letters`] if their sets tell more than [`MOST_LETTERS`](rl_syntax::MOST_LETTERS) letters apart; otherwise
    /// [`SameError::Moves`] if one of the trees has an item list of more than [`MOST_MOVES`](rl_syntax::MOST_MOVES) items.
    /// [`SameError::OutOfMemory`] if there is not enough memory.
    pub fn compare(&mut self, alloc: Global, other: &Re, limit: u32) -> Result<Sameness, SameError>
        requires inside { IsOver self.old.universe (tree_of other.now) }
        requires letters { DistinguishesNoMore (tree_of self.old.tree) (tree_of other.now) }
        requires some { 1 ≤ limit }
        requires low { limit ≤ MOST_SET_PAIRS }
        ensures within { OnOk result (AreWithin self.old.universe (tree_of self.old.tree) (tree_of other.now)) }
        ensures exceeded { IfErr result (IsExceeded self.old.universe (tree_of self.old.tree) (tree_of other.now)) }
        ensures answer { IfOk result (IsAnswer (set_pairs self.old.universe (tree_of self.old.tree) (tree_of other.now)) limit) }
        ensures told { IfOk result (IsTrueAnswer self.old.universe (tree_of self.old.tree) (tree_of other.now)) }
        ensures unchanged { self.new ≡ self.old }
    {
        let second = beside(alloc, &self.automaton, other, self.universe)?;
        let kept = self.walk.take();
        let Ok((found, walk)) = search_on(alloc, &self.automaton, &second, kept, limit) else {
            drop(second);
            return Err(SameError::OutOfMemory);
        };
        drop(second);
        self.walk = Some(walk);
        Ok(found)
    }

    /// Returns the automaton of the tree, matched to the end of the text. The tree and what earlier comparisons found are
    /// dropped.
    pub fn into_automaton(self) -> Prio
        ensures { IsBase self.universe (tree_of self.tree) result }
    {
        let Baseline {
            tree,
            universe: _,
            automaton,
            walk,
        } = self;
        drop(tree);
        drop(walk);
        // Reading the number of states shows that it is a whole automaton.
        let _states = automaton.states();
        automaton
    }
}
