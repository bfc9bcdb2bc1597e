//! Verdicts, found from the graph of live pairs. A pair is a state of the automaton with a set: the states that were tried
//! before it. A rest is a list of letters followed by the end letter; a set refuses it if none of its members accepts it. A
//! live pair is the first pair, or a pair whose set refuses some rest and to which a live pair has a move. A chain is a list
//! of splits, each of which is reached from the one before it; a split is two different pairs with paths along one word from
//! the first to itself, from the first to the second, and from the second to itself.

ghost use Rattle.std.specs.Prelude.{◌≡◌, ℕ, ◌<◌, ◌≤◌, [], ◌∷◌, IfOk};
ghost use Rattle.rl_graph.specs.Graph.{edges_of};
ghost use Rattle.rl_graph.specs.Parts.{IsParts};
ghost use Rattle.rl_graph.specs.Twins.{HasNoTwin, IsTwin};
ghost use Rattle.rl_syntax.specs.Tree.{tree_of, size, IsOver};
ghost use Rattle.rl_syntax.specs.declared.limits.TheConstants.{MOST_PAIRS};
ghost use Rattle.rl_pairs.specs.PairTable.{moves_in};
ghost use Rattle.rl_pairs.specs.RightVerdict.{RightVerdict};
ghost use Rattle.rl_growth.specs.Texts.{HasTexts};
ghost use Rattle.rl_growth.specs.Questions.{question_of, StandsForSome, IsLed, DecidesFor};
ghost use Rattle.rl_growth.specs.Degrees.{IsClassOf, HasClass};

use crate::spelling::family_of;
use crate::words::{chain_words, twin_words};
use rl_degree::degree_over;
use rl_expo::{TwinPaths, twin_over};
use rl_graph::Components;
use rl_lists::{Items, OutOfMemory};
use rl_pairs::{PairGraph, PairsError, pairs};
use rl_prio::{Prio, PrioError};
use rl_syntax::{Family, Limit, Lowered, MOST_NODES, Universe, Verdict};
use std::alloc::Global;

/// Returns the verdict on a graph of live pairs that has a twin.
fn exponential(
    alloc: Global,
    a: &Prio,
    g: &PairGraph,
    twin: &TwinPaths,
) -> Result<Verdict, OutOfMemory>
    requires stands { StandsForSome a.now }
    requires led { IsLed a.now g.now }
    requires state_in { twin.now.state < g.now.graph.states }
    requires twin { IsTwin (moves_in g.now) twin.now.state twin.now.word twin.now.first twin.now.second }
    ensures right { IfOk result (DecidesFor a.now) }
    ensures class { IfOk result (IsClassOf (moves_in g.now)) }
{
    let words = twin_words(alloc, g, twin)?;
    Ok(Verdict::Expo(family_of(alloc, a, &words)?))
}

/// Returns the family with one empty head and no pump.
fn flat(alloc: Global) -> Result<Family, OutOfMemory>
    ensures heads { IfOk result (λ f. f.heads ≡ [] ∷ []) }
    ensures pumps { IfOk result (λ f. f.pumps ≡ []) }
{
    let mut heads = Items::new(alloc);
    heads.push(Items::new(alloc))?;
    Ok(Family {
        heads,
        pumps: Items::new(alloc),
    })
}

/// Returns the verdict on a graph of live pairs that has no twin, given its components. The degree is one more than the
/// number of splits of its longest chain, or 0 if the graph has no cycle.
fn polynomial(
    alloc: Global,
    a: &Prio,
    g: &PairGraph,
    components: Components,
) -> Result<Verdict, OutOfMemory>
    requires stands { StandsForSome a.now }
    requires led { IsLed a.now g.now }
    requires parts { IsParts (moves_in g.now) g.now.graph.states components }
    requires no_twin { HasNoTwin (moves_in g.now) }
    ensures right { IfOk result (DecidesFor a.now) }
    ensures class { IfOk result (IsClassOf (moves_in g.now)) }
{
    let chain = degree_over(alloc, g.graph(), components)?;
    match &chain.cycle {
        None => Ok(Verdict::Degree(0, flat(alloc)?)),
        Some(cycle) => {
            let words = chain_words(alloc, g, chain.links.as_slice(), cycle)?;
            let power = chain.links.len() as u32 + 1;
            Ok(Verdict::Degree(power, family_of(alloc, a, &words)?))
        }
    }
}

/// Returns the verdict on a graph of live pairs. The components are computed once and used by both searches.
fn judged(alloc: Global, a: &Prio, g: &PairGraph) -> Result<Verdict, OutOfMemory>
    requires stands { StandsForSome a.now }
    requires led { IsLed a.now g.now }
    ensures right { IfOk result (DecidesFor a.now) }
    ensures class { IfOk result (IsClassOf (moves_in g.now)) }
{
    let graph = g.graph();
    let components = graph.components()?;
    match twin_over(alloc, graph, &components)? {
        Some(twin) => exponential(alloc, a, g, &twin),
        None => polynomial(alloc, a, g, components),
    }
}

/// Determines how the cost of a lowered pattern grows with the length of a text of the universe `u`, using at most `max_pairs`
/// live pairs, by the EDA and IDA criteria of Weber and Seidl (1991) on the graph of live pairs. `max_pairs` must be from 1 to
/// [`MOST_PAIRS`](rl_syntax::MOST_PAIRS), and the sets of the pattern must have only codes of the universe.
///
/// Returns [`Verdict::Undecided`] with a limit that is exceeded, if one is: the tree has more than [`MOST_NODES`] nodes;
/// otherwise, more than [`MOST_LETTERS`](rl_syntax::MOST_LETTERS) letters; otherwise, an item list of more than
/// [`MOST_MOVES`](rl_syntax::MOST_MOVES) items; otherwise, there are more than `max_pairs` live pairs or more than
/// [`MOST_COUNTED_SETS`](rl_syntax::MOST_COUNTED_SETS) counted sets, which are the sets of the pairs to which live pairs have
/// moves, and the images of counted sets without the accepting state.
///
/// Otherwise returns [`Verdict::Expo`] if some live pair has two different paths back to itself along one word: the text of
/// the family for `k` costs at least `2^k`. Otherwise returns [`Verdict::Degree`]: 0 if no live pair is on a cycle, and
/// otherwise one more than the number of splits of a longest chain. The degree is exact: the text of the family for `k` costs
/// at least this power of `k`, and every text costs at most a constant, which depends only on the degree and the size of the
/// tree, times this power of its length plus one.
///
/// # Errors
/// [`OutOfMemory`] if there is not enough memory for the automaton, the graph or the family.
pub fn classify(
    alloc: Global,
    l: &Lowered,
    u: Universe,
    max_pairs: u32,
) -> Result<Verdict, OutOfMemory>
    requires some { 1 ≤ max_pairs }
    requires few { max_pairs ≤ MOST_PAIRS }
    requires inside { IsOver u (tree_of l.now.tree) }
    ensures right { IfOk result (RightVerdict (question_of l.now u max_pairs)) }
    ensures texts { IfOk result (HasTexts u) }
    ensures class { IfOk result (HasClass (question_of l.now u max_pairs)) }
{
    if l.tree.nodes() > MOST_NODES {
        return Ok(Verdict::Undecided(Limit::Size));
    }
    let a = match Prio::build(alloc, &l.tree, l.ending, u) {
        Ok(a) => a,
        Err(PrioError::Letters) => return Ok(Verdict::Undecided(Limit::Letters)),
        Err(PrioError::Moves) => return Ok(Verdict::Undecided(Limit::Moves)),
        Err(PrioError::OutOfMemory) => return Err(OutOfMemory),
    };
    // The contract of `states` says that the automaton is well formed.
    let _states = a.states();
    match pairs(alloc, &a, max_pairs) {
        Ok(g) => judged(alloc, &a, &g),
        Err(PairsError::Sets) => Ok(Verdict::Undecided(Limit::Sets)),
        Err(PairsError::Pairs) => Ok(Verdict::Undecided(Limit::Pairs)),
        Err(PairsError::OutOfMemory) => Err(OutOfMemory),
    }
}
