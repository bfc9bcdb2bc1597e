//! Explanations of verdicts, found with the verdict from the graph of live pairs. A pair is a state of the automaton with a
//! set: the states that were tried before it. A live pair is the first pair, or a pair whose set refuses some rest of a text
//! and to which a live pair has a move. A twin is two different paths from a pair back to itself along one word. A split is two
//! different pairs with paths along one word from the first to itself, from the first to the second, and from the second to
//! itself.

ghost use Rattle.std.specs.Prelude.{◌≡◌, ℕ, ◌-◌, ◌<◌, ◌≤◌, [], ◌∷◌, length, take, IfOk};
ghost use Rattle.rl_graph.specs.Parts.{IsParts};
ghost use Rattle.rl_graph.specs.Twins.{HasNoTwin, IsTwin};
ghost use Rattle.rl_syntax.specs.declared.limits.TheConstants.{MOST_NODES, MOST_PAIRS};
ghost use Rattle.rl_syntax.specs.Tree.{tree_of, size, IsOver};
ghost use Rattle.rl_syntax.specs.Pattern.{pattern_tree, universe_of};
ghost use Rattle.rl_prio.specs.Automaton.{Automaton};
ghost use Rattle.rl_pairs.specs.PairTable.{moves_in, pair_in, rest_in};
ghost use Rattle.rl_pairs.specs.RightVerdict.{RightVerdict};
ghost use Rattle.rl_growth.specs.Texts.{HasTexts};
ghost use Rattle.rl_growth.specs.FamilyWords.{IsTwinWords};
ghost use Rattle.rl_growth.specs.Questions.{question_of, DecidesFor, IsLed};
ghost use Rattle.rl_why.specs.Readings.{IsReadingOf, nodes_of, question_about, Nothing};
ghost use Rattle.rl_why.specs.internal.Sources.{IsSource};
ghost use Rattle.rl_why.specs.internal.Settings.{IsSetting};

use crate::reading::{Reading, chain_reading, twin_reading};
use crate::shown::{Sources, sources_of};
use rl_degree::degree_over;
use rl_expo::{TwinPaths, twin_over};
use rl_graph::Components;
use rl_growth::spelling::family_of;
use rl_growth::words::{FamilyWords, chain_words};
use rl_lists::{Items, OutOfMemory, Word};
use rl_pairs::{PairGraph, PairsError, pairs};
use rl_prio::{Prio, PrioError};
use rl_syntax::{Family, Limit, LowerError, Lowered, Mode, Pattern, Re, Universe, Verdict, lower};
use rl_ways::origins_of;
use std::alloc::Global;

/// A verdict, and how the pumps of its family are read.
#[derive(Drop)]
pub struct Explained {
    /// The verdict.
    pub verdict: Verdict,
    /// How the pumps of its family are read.
    pub reading: Reading,
}

/// Returns an undecided verdict.
fn undecided(limit: Limit) -> Explained
    ensures verdict { result.verdict ≡ Verdict.Undecided limit }
    ensures reading { result.reading ≡ Nothing }
{
    Explained {
        verdict: Verdict::Undecided(limit),
        reading: Reading::Nothing,
    }
}

/// Returns the family with one empty head and no pump.
fn flat(alloc: Global) -> Result<Family, OutOfMemory>
    ensures heads { IfOk result (λ f. f.heads ≡ [] ∷ []) }
    ensures pumps { IfOk result (λ f. f.pumps ≡ []) }
{
    let mut heads = Items::new(alloc);
    heads.push(Items::new(alloc))?;
    Ok(Family {
        heads,
        pumps: Items::new(alloc),
    })
}

/// Returns the rest that the set of the live pair with the number `state` refuses, without the end letter.
fn last_head(alloc: Global, g: &PairGraph, state: u32) -> Result<Word, OutOfMemory>
    requires state_in { state < g.now.graph.states }
    requires some { 0 < length (rest_in g.now state) }
    ensures { IfOk result (λ w. w ≡ take (length (rest_in g.now state) - 1) (rest_in g.now state)) }
{
    let rest = g.rest(state).as_slice();
    Items::from_slice(alloc, &rest[..rest.len() - 1])
}

/// Returns the words of a twin's family, as `twin_words` of `rl_growth` does. The only pump is the word of the twin.
fn words_of_twin(alloc: Global, g: &PairGraph, twin: &TwinPaths) -> Result<FamilyWords, OutOfMemory>
    requires state_in { twin.now.state < g.now.graph.states }
    requires twin { IsTwin (moves_in g.now) twin.now.state twin.now.word twin.now.first twin.now.second }
    requires rests { (i : ℕ) → i < g.now.graph.states → 0 < length (rest_in g.now i) }
    ensures words { IfOk result (λ w. (a : Automaton) → IsLed a g.now → IsTwinWords a (moves_in g.now) (pair_in g.now) twin.now.state w.heads w.pumps) }
    ensures pumps { IfOk result (λ w. w.pumps ≡ twin.now.word ∷ []) }
{
    let mut heads = Items::new(alloc);
    let lead = Items::from_slice(alloc, g.lead(twin.state).as_slice())?;
    heads.push(lead)?;
    let last = last_head(alloc, g, twin.state)?;
    heads.push(last)?;
    let mut pumps = Items::new(alloc);
    let round = Items::from_slice(alloc, twin.word.as_slice())?;
    pumps.push(round)?;
    Ok(FamilyWords { heads, pumps })
}

/// Returns the verdict on a graph of live pairs that has a twin, with its explanation.
fn exponential(
    alloc: Global,
    tree: &Re,
    sources: &Sources,
    a: &Prio,
    g: &PairGraph,
    twin: &TwinPaths,
) -> Result<Explained, OutOfMemory>
    requires setting { IsSetting (tree_of tree.now) a.now g.now }
    requires source { IsSource sources.now.nodes sources.now }
    requires state_in { twin.now.state < g.now.graph.states }
    requires twin { IsTwin (moves_in g.now) twin.now.state twin.now.word twin.now.first twin.now.second }
    ensures right { IfOk result (λ e. DecidesFor a.now e.verdict) }
    ensures reading { IfOk result (λ e. IsReadingOf (tree_of tree.now) sources.now.nodes e.verdict e.reading) }
{
    let words = words_of_twin(alloc, g, twin)?;
    let family = family_of(alloc, a, &words)?;
    let text = family.pumps.as_slice()[0].as_slice();
    let reading = twin_reading(alloc, tree, sources, a, g, twin, text)?;
    Ok(Explained {
        verdict: Verdict::Expo(family),
        reading: Reading::Twin(reading),
    })
}

/// Returns the verdict on a graph of live pairs that has no twin, given its components, with its explanation.
fn polynomial(
    alloc: Global,
    tree: &Re,
    sources: &Sources,
    a: &Prio,
    g: &PairGraph,
    components: Components,
) -> Result<Explained, OutOfMemory>
    requires setting { IsSetting (tree_of tree.now) a.now g.now }
    requires source { IsSource sources.now.nodes sources.now }
    requires parts { IsParts (moves_in g.now) g.now.graph.states components }
    requires no_twin { HasNoTwin (moves_in g.now) }
    ensures right { IfOk result (λ e. DecidesFor a.now e.verdict) }
    ensures reading { IfOk result (λ e. IsReadingOf (tree_of tree.now) sources.now.nodes e.verdict e.reading) }
{
    let chain = degree_over(alloc, g.graph(), components)?;
    match &chain.cycle {
        None => Ok(Explained {
            verdict: Verdict::Degree(0, flat(alloc)?),
            reading: Reading::Nothing,
        }),
        Some(cycle) => {
            let splits = chain.links.as_slice();
            let words = chain_words(alloc, g, splits, cycle)?;
            let power = splits.len() as u32 + 1;
            let family = family_of(alloc, a, &words)?;
            let reading = chain_reading(
                alloc,
                tree,
                sources,
                a,
                g,
                splits,
                cycle.state,
                words.pumps.as_slice(),
                family.pumps.as_slice(),
            )?;
            Ok(Explained {
                verdict: Verdict::Degree(power, family),
                reading: Reading::Chain(reading),
            })
        }
    }
}

/// Returns the verdict on a graph of live pairs with its explanation.
fn over_graph(
    alloc: Global,
    tree: &Re,
    sources: &Sources,
    a: &Prio,
    g: &PairGraph,
) -> Result<Explained, OutOfMemory>
    requires setting { IsSetting (tree_of tree.now) a.now g.now }
    requires source { IsSource sources.now.nodes sources.now }
    ensures right { IfOk result (λ e. DecidesFor a.now e.verdict) }
    ensures reading { IfOk result (λ e. IsReadingOf (tree_of tree.now) sources.now.nodes e.verdict e.reading) }
{
    let graph = g.graph();
    let components = graph.components()?;
    match twin_over(alloc, graph, &components)? {
        Some(twin) => exponential(alloc, tree, sources, a, g, &twin),
        None => polynomial(alloc, tree, sources, a, g, components),
    }
}

/// Returns the verdict on a lowered pattern with its explanation.
fn over_tree(
    alloc: Global,
    l: &Lowered,
    sources: &Sources,
    u: Universe,
    max_pairs: u32,
) -> Result<Explained, OutOfMemory>
    requires some { 1 ≤ max_pairs }
    requires few { max_pairs ≤ MOST_PAIRS }
    requires small { size (tree_of l.now.tree) ≤ MOST_NODES }
    requires inside { IsOver u (tree_of l.now.tree) }
    requires source { IsSource sources.now.nodes sources.now }
    ensures right { IfOk result (λ e. RightVerdict (question_of l.now u max_pairs) e.verdict) }
    ensures texts { IfOk result (λ e. HasTexts u e.verdict) }
    ensures reading { IfOk result (λ e. IsReadingOf (tree_of l.now.tree) sources.now.nodes e.verdict e.reading) }
{
    let a = match Prio::build(alloc, &l.tree, l.ending, u) {
        Ok(a) => a,
        Err(PrioError::Letters) => return Ok(undecided(Limit::Letters)),
        Err(PrioError::Moves) => return Ok(undecided(Limit::Moves)),
        Err(PrioError::OutOfMemory) => return Err(OutOfMemory),
    };
    // The contract of `states` says that the automaton is well formed.
    let _states = a.states();
    match pairs(alloc, &a, max_pairs) {
        Ok(g) => over_graph(alloc, &l.tree, sources, &a, &g),
        Err(PairsError::Sets) => Ok(undecided(Limit::Sets)),
        Err(PairsError::Pairs) => Ok(undecided(Limit::Pairs)),
        Err(PairsError::OutOfMemory) => Err(OutOfMemory),
    }
}

/// Determines how the cost of a pattern in a mode grows with the length of a text, using at most `max_pairs` live pairs, and shows
/// how the pumps of the family are read. `max_pairs` must be from 1 to [`MOST_PAIRS`](rl_syntax::MOST_PAIRS).
///
/// The verdict is right in the same sense as that of `classify` of `rl_growth`, which finds it in the same way. It is
/// [`Verdict::Undecided`] by size if the pattern is too large to be lowered.
///
/// For exponential growth there are two different ways of the pump, each from a place of the pattern back to itself. For a degree
/// `d` of 1 or more there are three ways of each of the first `d - 1` pumps, and the loop that reads the last one. A reading is
/// never missing, and neither is a loop. The heads of the family lead to the places where the ways begin.
///
/// # Errors
/// [`OutOfMemory`] if there is not enough memory for the tree, the automaton, the graph, the family or the ways.
pub fn explain(
    alloc: Global,
    pattern: &Pattern,
    mode: Mode,
    max_pairs: u32,
) -> Result<Explained, OutOfMemory>
    requires some { 1 ≤ max_pairs }
    requires few { max_pairs ≤ MOST_PAIRS }
    ensures right { IfOk result (λ e. RightVerdict (question_about pattern.now mode max_pairs) e.verdict) }
    ensures texts { IfOk result (λ e. HasTexts (universe_of pattern.now) e.verdict) }
    ensures reading { IfOk result (λ e. IsReadingOf (pattern_tree pattern.now mode) (nodes_of pattern.now mode) e.verdict e.reading) }
{
    let lowered = match lower(alloc, pattern, mode) {
        Ok(lowered) => lowered,
        Err(LowerError::TooLarge) => return Ok(undecided(Limit::Size)),
        Err(LowerError::OutOfMemory) => return Err(OutOfMemory),
    };
    let nodes = origins_of(alloc, pattern, mode)?;
    let sources = sources_of(alloc, nodes)?;
    over_tree(alloc, &lowered, &sources, pattern.universe(), max_pairs)
}
