//! Graphs of live pairs. A pair is a state of an automaton with a set: the states that were tried before it on the same text
//! without success. A rest is a list of letters followed by the end letter; a set refuses it if none of its members accepts
//! it. A live pair is the first pair, or a pair whose set refuses some rest and to which a live pair has a move.

ghost use Rattle.std.specs.Prelude.{◌≡◌, ℕ, ◌+◌, ◌*◌, ◌<◌, ◌≤◌, true, All, length, map, IfOk, IfErr};
ghost use Rattle.rl_prio.specs.Automaton.{letters_count};
ghost use Rattle.rl_graph.specs.Paths.{paths};
ghost use Rattle.rl_sets.specs.Live.{IsRest};
ghost use Rattle.rl_pairs.specs.LivePairs.{LivePair, refused};
ghost use Rattle.rl_pairs.specs.PairGraph.{IsPairGraph, IsNumbered};
ghost use Rattle.rl_pairs.specs.Counted.{CountedSet, MoreThan};
ghost use Rattle.rl_pairs.specs.PairTable.{moves_in, pair_in, lead_in, rest_in, IsFull};
ghost use Rattle.rl_pairs.specs.internal.Rows.{IsBuilt};
ghost use Rattle.rl_pairs.specs.declared.error.PairsError.TheVariants as error;
ghost use Rattle.rl_pairs.specs.internal.Counting.{IsCounting};
ghost use Rattle.rl_pairs.specs.internal.Errors.{IsRightError};
ghost use Rattle.rl_pairs.specs.internal.Finding.{found_of, pair_of, IsWhole};
ghost use Rattle.rl_syntax.specs.declared.limits.TheConstants.{MOST_COUNTED_SETS};

use crate::counting::start;
use crate::error::PairsError;
use crate::finder::{Finder, Key};
use crate::pair::Pair;
use indexmap::IndexSet;
use rl_graph::Multigraph;
use rl_lists::{OutOfMemory, Word};
use rl_prio::Prio;
use rl_sets::SetWalk;
use std::alloc::Global;
use std::marker::Model;

/// The live pairs of an automaton and their moves. The pairs are numbered in the order in which they are first seen: breadth
/// first from the first pair, which has the number 0; for each pair, by letter in increasing order, with the end letter last;
/// and for each letter, in the order of the moves.
#[derive(Drop)]
pub struct PairGraph {
    /// The moves.
    graph: Multigraph,
    /// The pair with each number.
    pairs: Vec<Pair>,
    /// For each pair, a word that leads to it from the first pair.
    leads: Vec<Word>,
    /// For each pair, a rest that its set refuses.
    rests: Vec<Word>,
}

impl Model for PairGraph {
    ghost use Rattle.rl_pairs.specs.PairTable.{PairTable, IsFull};

    ghost Value = { PairTable };

    ghost view = { λ g. record { graph = g.graph; pairs = g.pairs.items; leads = g.leads.items; rests = g.rests.items } };

    ghost invariant = { λ g. IsFull (record { graph = g.graph; pairs = g.pairs.items; leads = g.leads.items; rests = g.rests.items }) };
}

impl PairGraph {
    /// Returns the multigraph of the moves. Its states are the numbers of the pairs. Its letters are the letters of the
    /// automaton, followed by the end letter.
    pub fn graph(&self) -> &Multigraph
        ensures { result.now ≡ self.now.graph }
    {
        &self.graph
    }

    /// Returns the pair with the number `i`, from 0. The graph must have a pair with this number.
    pub fn pair(&self, i: u32) -> &Pair
        requires { i < self.now.graph.states }
        ensures { result.now ≡ pair_in self.now i }
    {
        &self.pairs[i as usize]
    }

    /// Returns a word that leads from the first pair to the pair with the number `i`, as a list of letters. The graph must
    /// have a pair with this number.
    pub fn lead(&self, i: u32) -> &Word
        requires { i < self.now.graph.states }
        ensures { result.now ≡ lead_in self.now i }
    {
        &self.leads[i as usize]
    }

    /// Returns a rest that the set of the pair with the number `i` refuses: a list of letters followed by the end letter that
    /// no state of the set accepts. The graph must have a pair with this number.
    pub fn rest(&self, i: u32) -> &Word
        requires { i < self.now.graph.states }
        ensures { result.now ≡ rest_in self.now i }
    {
        &self.rests[i as usize]
    }
}

/// Returns the pairs that the keys describe.
fn listed(alloc: Global, walk: &SetWalk, keys: &IndexSet<Key>) -> Result<Vec<Pair>, OutOfMemory>
    requires { All (λ key. key.set < length walk.now.sets) keys.now.keys }
    ensures { IfOk result (λ pairs. pairs.items ≡ map (pair_of walk.now) keys.now.keys) }
{
    let mut pairs = Vec::with_capacity(alloc, keys.len())?;
    for k in 0..keys.len() {
        let key = keys[k];
        let set = walk.members(key.set)?;
        pairs.push(Pair {
            state: key.state,
            set,
        })?;
    }
    Ok(pairs)
}

/// Builds the graph of the pairs that were found.
fn built(
    alloc: Global,
    letters: u32,
    walk: &SetWalk,
    finder: Finder,
) -> Result<PairGraph, OutOfMemory>
    requires few { length (found_of finder).keys ≤ (found_of finder).limit }
    requires sets { All (λ key. key.set < length walk.now.sets) (found_of finder).keys }
    requires led { length (found_of finder).leads ≡ length (found_of finder).keys }
    requires refused { length (found_of finder).rests ≡ length (found_of finder).keys }
    requires rows { length (found_of finder).rows ≡ length (found_of finder).keys * letters }
    requires targets { All (All (λ k. k < length (found_of finder).keys)) (found_of finder).rows }
    ensures { IfOk result (IsBuilt walk.now (found_of finder) letters) }
{
    let Ok(pairs) = listed(alloc, walk, &finder.keys) else {
        drop(finder);
        return Err(OutOfMemory);
    };
    let states = finder.count();
    let Finder {
        limit: _,
        keys,
        leads,
        rests,
        rows,
    } = finder;
    drop(keys);
    let graph = Multigraph::from_rows(states, letters, rows);
    Ok(PairGraph {
        graph,
        pairs,
        leads,
        rests,
    })
}

/// Finds all live pairs, at most `max_pairs`, and adds the images of all sets of the walk to it. The walk must begin with the
/// empty set.
fn find_all(
    alloc: Global,
    a: &Prio,
    walk: &mut SetWalk,
    max_pairs: u32,
) -> Result<Finder, PairsError>
    requires counting { IsCounting a.now walk.old }
    requires some { 1 ≤ max_pairs }
    ensures whole { IfOk result (λ finder. IsWhole a.now walk.new (found_of finder) max_pairs) }
    ensures errors { IfErr result (IsRightError a.now max_pairs) }
{
    // Reading the number of states tells the prover that the automaton is well formed.
    let _states = a.states();
    let mut finder = Finder::new(alloc, a, max_pairs)?;
    match finder.find(a, walk) {
        Ok(()) => Ok(finder),
        Err(error) => {
            drop(finder);
            Err(error)
        }
    }
}

/// Builds the graph of the live pairs of an automaton: the product of the automaton with the powerset construction of the
/// earlier tries, as far as breadth-first search over live sets reaches it. `max_pairs` must be from 1 to 1,000. The graph has
/// at most `max_pairs` pairs, with a lead and a rest for each: a word that leads to the pair, and a rest that its set refuses.
///
/// # Errors
/// [`PairsError::Pairs`] if there are more than `max_pairs` live pairs; [`PairsError::Sets`] if there are more than 20,000
/// counted sets, which are the sets of the pairs to which live pairs have moves, and the images of counted sets without the
/// accepting state; [`PairsError::OutOfMemory`] if there is not enough memory for the graph. If either limit is exceeded, no
/// graph is returned.
pub fn pairs(alloc: Global, a: &Prio, max_pairs: u32) -> Result<PairGraph, PairsError>
    requires some { 1 ≤ max_pairs }
    requires few { max_pairs ≤ 1000 }
    ensures graph { IfOk result (λ g. IsPairGraph a.now (moves_in g) (pair_in g) g.graph.states) }
    ensures numbered { IfOk result (λ g. IsNumbered a.now (moves_in g) (pair_in g) g.graph.states) }
    ensures few_pairs { IfOk result (λ g. g.graph.states ≤ max_pairs) }
    ensures few_sets { IfOk result (λ _. MoreThan MOST_COUNTED_SETS (CountedSet a.now) → ⊥) }
    ensures letters { IfOk result (λ g. g.graph.letters ≡ letters_count a.now + 1) }
    ensures leads { IfOk result (λ g. (i : ℕ) → i < g.graph.states → 1 ≤ paths (moves_in g) 0 i (lead_in g i)) }
    ensures rests { IfOk result (λ g. (i : ℕ) → i < g.graph.states → IsRest a.now (rest_in g i)) }
    ensures refused { IfOk result (λ g. (i : ℕ) → i < g.graph.states → refused a.now (pair_in g) i (rest_in g i) ≡ true) }
    ensures lists { IfOk result IsFull }
    ensures too_many_pairs { IfErr result (λ e. e ≡ error.Pairs → MoreThan max_pairs (LivePair a.now)) }
    ensures too_many_sets { IfErr result (λ e. e ≡ error.Sets → MoreThan MOST_COUNTED_SETS (CountedSet a.now)) }
{
    let Some(letters) = a.letters().count().checked_add(1) else {
        return Err(PairsError::OutOfMemory);
    };
    let mut walk = start(alloc, a)?;
    match find_all(alloc, a, &mut walk, max_pairs) {
        Ok(finder) => {
            let graph = built(alloc, letters, &walk, finder);
            drop(walk);
            Ok(graph?)
        }
        Err(error) => {
            drop(walk);
            Err(error)
        }
    }
}
