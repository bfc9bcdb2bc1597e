//! Checking whether a certificate holds. A pair is a state of the automaton with a set: the states that were tried before it.
//! A rest is a list of letters followed by the end letter; a set refuses it if none of its members accepts it. A live pair is
//! the first pair, or a pair whose set refuses some rest and to which a live pair has a move. The live pairs are the states of
//! a graph, numbered from 0. A certificate is a verdict with its family, which is made of texts, and lists of numbers that
//! show in this graph that the verdict is right.

ghost use Rattle.std.specs.Prelude.{◌≡◌, ℕ, ◌+◌, ◌<◌, ◌≤◌, ◌↔◌, All, IsTrue, IfOk, length};
ghost use Rattle.rl_graph.specs.Graph.{edges_of};
ghost use Rattle.rl_degree.specs.Chains.{HasNoCycle};
ghost use Rattle.rl_syntax.specs.Tree.{tree_of, size, IsOver};
ghost use Rattle.rl_syntax.specs.declared.limits.TheConstants.{MOST_PAIRS, MOST_MOVES};
ghost use Rattle.rl_ranges.specs.declared.letters.TheConstants.{MOST_LETTERS};
ghost use Rattle.rl_ranges.specs.Text.{code_count};
ghost use Rattle.rl_prio.specs.Automaton.{letters_count};
ghost use Rattle.rl_prio.specs.Items.{longest};
ghost use Rattle.rl_prio.specs.Letters.{letters};
ghost use Rattle.rl_prio.specs.StandsFor.{StandsFor};
ghost use Rattle.rl_pairs.specs.PairTable.{moves_in, pair_in};
ghost use Rattle.rl_pairs.specs.RightVerdict.{Question, RightVerdict};
ghost use Rattle.rl_cert.specs.Ways.{IsWay, IsTwinWay};
ghost use Rattle.rl_cert.specs.Holds.{Holds, Shows, ShowsDegree, words_of, question_of};

use crate::certificate::Certificate;
use crate::lettering::{all_letters, is_family};
use crate::leveling::are_levels;
use crate::walking::{is_twin_way, is_way};
use rl_graph::Multigraph;
use rl_lists::OutOfMemory;
use rl_numbers::checking::triples_hold;
use rl_numbers::doubling::doubles_hold;
use rl_pairs::{PairGraph, PairsError, pairs};
use rl_prio::{Prio, PrioError};
use rl_syntax::{Family, Lowered, MOST_NODES, Universe, Verdict};
use std::alloc::Global;

/// Returns whether no state is on a cycle.
fn is_flat(g: &Multigraph) -> Result<bool, OutOfMemory>
    ensures { IfOk result (λ yes. IsTrue yes ↔ HasNoCycle (edges_of g.now)) }
{
    let components = g.components()?;
    for state in 0..g.states() {
        if components.on_cycle(state) {
            return Ok(false);
        }
    }
    Ok(true)
}

/// Returns whether the anchors of a certificate are on the path of its family.
fn shows_way(
    alloc: Global,
    a: &Prio,
    g: &PairGraph,
    c: &Certificate,
    f: &Family,
) -> Result<bool, OutOfMemory>
    requires some { 0 < g.now.graph.states }
    requires letters { letters_count a.now ≤ g.now.graph.letters }
    requires heads { All (All (λ c. c < a.now.table.codes)) f.now.heads }
    requires pumps { All (All (λ c. c < a.now.table.codes)) f.now.pumps }
    ensures { IfOk result (λ yes. IsTrue yes ↔ IsWay a.now (moves_in g.now) (pair_in g.now) g.now.graph.states 0 c.now.anchors
        (words_of a.now f.now.heads) (words_of a.now f.now.pumps)) }
{
    let heads = all_letters(alloc, a, f.heads.as_slice())?;
    let pumps = all_letters(alloc, a, f.pumps.as_slice())?;
    let anchors = c.anchors.as_slice();
    is_way(alloc, a, g, anchors, heads.as_slice(), pumps.as_slice())
}

/// Returns whether a certificate shows its family and its upper bound, for a degree of 1 or more.
fn shows_degree(
    alloc: Global,
    a: &Prio,
    g: &PairGraph,
    power: u32,
    c: &Certificate,
    f: &Family,
) -> Result<bool, OutOfMemory>
    requires some { 0 < g.now.graph.states }
    requires letters { letters_count a.now ≤ g.now.graph.letters }
    requires heads { All (All (λ c. c < a.now.table.codes)) f.now.heads }
    requires pumps { All (All (λ c. c < a.now.table.codes)) f.now.pumps }
    ensures { IfOk result (λ yes. IsTrue yes ↔ ShowsDegree a.now (moves_in g.now) (pair_in g.now) g.now.graph.states power c.now f.now) }
{
    let way = shows_way(alloc, a, g, c, f)?;
    if !way {
        return Ok(false);
    }
    if !are_levels(g.graph(), power, c.ranks.as_slice()) {
        return Ok(false);
    }
    let apart = doubles_hold(alloc, g.graph(), c.doubles.as_slice())?;
    if !apart {
        return Ok(false);
    }
    triples_hold(alloc, g.graph(), c.ranks.as_slice(), c.triples.as_slice())
}

/// Returns whether a certificate shows its exponential family.
fn shows_expo(
    alloc: Global,
    a: &Prio,
    g: &PairGraph,
    c: &Certificate,
    f: &Family,
) -> Result<bool, OutOfMemory>
    requires letters { letters_count a.now ≤ g.now.graph.letters }
    requires heads { All (All (λ c. c < a.now.table.codes)) f.now.heads }
    requires pumps { All (All (λ c. c < a.now.table.codes)) f.now.pumps }
    ensures { IfOk result (λ yes. IsTrue yes ↔ IsTwinWay a.now (moves_in g.now) (pair_in g.now) g.now.graph.states c.now.anchors
        (words_of a.now f.now.heads) (words_of a.now f.now.pumps)) }
{
    let heads = all_letters(alloc, a, f.heads.as_slice())?;
    let pumps = all_letters(alloc, a, f.pumps.as_slice())?;
    let anchors = c.anchors.as_slice();
    is_twin_way(alloc, a, g, anchors, heads.as_slice(), pumps.as_slice())
}

/// Returns whether a certificate shows, in the graph of live pairs, what its verdict requires.
fn shown(
    alloc: Global,
    u: Universe,
    a: &Prio,
    g: &PairGraph,
    c: &Certificate,
) -> Result<bool, OutOfMemory>
    requires some { 0 < g.now.graph.states }
    requires letters { letters_count a.now ≤ g.now.graph.letters }
    requires codes { a.now.table.codes ≡ code_count u }
    ensures { IfOk result (λ yes. (q : Question) → q.universe ≡ u
        → IsTrue yes ↔ Shows q a.now (moves_in g.now) (pair_in g.now) g.now.graph.states c.now c.now.verdict) }
{
    match &c.verdict {
        Verdict::Degree(power, f) => {
            if !is_family(u, *power, f) {
                return Ok(false);
            }
            if *power == 0 {
                return is_flat(g.graph());
            }
            shows_degree(alloc, a, g, *power, c, f)
        }
        Verdict::Expo(f) => {
            if !is_family(u, 1, f) {
                return Ok(false);
            }
            shows_expo(alloc, a, g, c, f)
        }
        Verdict::Undecided(_) => Ok(false),
    }
}

/// Returns whether a certificate holds for a tree for which an automaton stands.
fn checked_over(
    alloc: Global,
    l: &Lowered,
    u: Universe,
    a: &Prio,
    max_pairs: u32,
    c: &Certificate,
) -> Result<bool, OutOfMemory>
    requires some { 1 ≤ max_pairs }
    requires few { max_pairs ≤ MOST_PAIRS }
    requires small { size (tree_of l.now.tree) ≤ MOST_NODES }
    requires stands { StandsFor a.now (tree_of l.now.tree) l.now.ending }
    requires codes { a.now.table.codes ≡ code_count u }
    requires within { (length (letters (tree_of l.now.tree) (code_count u)) ≤ MOST_LETTERS) × (longest (tree_of l.now.tree) ≤ MOST_MOVES) }
    ensures { IfOk result (λ yes. IsTrue yes ↔ Holds (question_of l.now u max_pairs) c.now) }
{
    // Reading the number of states tells the prover that the automaton is well formed.
    let _states = a.states();
    match pairs(alloc, a, max_pairs) {
        Ok(g) => {
            let holds = shown(alloc, u, a, &g, c);
            drop(g);
            holds
        }
        Err(PairsError::Sets) => Ok(false),
        Err(PairsError::Pairs) => Ok(false),
        Err(PairsError::OutOfMemory) => Err(OutOfMemory),
    }
}

/// Returns whether a certificate holds for a tree that is within the limit on its size.
fn checked_small(
    alloc: Global,
    l: &Lowered,
    u: Universe,
    max_pairs: u32,
    c: &Certificate,
) -> Result<bool, OutOfMemory>
    requires some { 1 ≤ max_pairs }
    requires few { max_pairs ≤ MOST_PAIRS }
    requires inside { IsOver u (tree_of l.now.tree) }
    requires small { size (tree_of l.now.tree) ≤ MOST_NODES }
    ensures { IfOk result (λ yes. IsTrue yes ↔ Holds (question_of l.now u max_pairs) c.now) }
{
    match Prio::build(alloc, &l.tree, l.ending, u) {
        Ok(a) => {
            let holds = checked_over(alloc, l, u, &a, max_pairs, c);
            drop(a);
            holds
        }
        Err(PrioError::Letters) => Ok(false),
        Err(PrioError::Moves) => Ok(false),
        Err(PrioError::OutOfMemory) => Err(OutOfMemory),
    }
}

/// Returns whether a certificate holds for a lowered pattern, over the texts of the universe `u`, with at most `max_pairs`
/// live pairs: whether no limit is exceeded and the certificate's family and lists show, in the graph of live pairs, that its
/// verdict is right. If so, the verdict is right. It returns false if a limit is exceeded. `max_pairs` must be from 1 to
/// [`MOST_PAIRS`](rl_syntax::MOST_PAIRS), and the sets of the pattern must have only codes of the universe.
///
/// # Errors
/// [`OutOfMemory`] if there is not enough memory for the automaton, the graph or the index of the numbers.
pub fn check(
    alloc: Global,
    l: &Lowered,
    u: Universe,
    max_pairs: u32,
    c: &Certificate,
) -> Result<bool, OutOfMemory>
    requires some { 1 ≤ max_pairs }
    requires few { max_pairs ≤ MOST_PAIRS }
    requires inside { IsOver u (tree_of l.now.tree) }
    ensures holds { IfOk result (λ yes. IsTrue yes ↔ Holds (question_of l.now u max_pairs) c.now) }
    ensures sound { IfOk result (λ yes. IsTrue yes → RightVerdict (question_of l.now u max_pairs) c.now.verdict) }
{
    if l.tree.nodes() > MOST_NODES {
        return Ok(false);
    }
    checked_small(alloc, l, u, max_pairs, c)
}
