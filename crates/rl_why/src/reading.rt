//! Readings: how the pumps of a verdict's family are read. A pair is a state of the automaton with a set: the states that were tried
//! before it. A twin is two different paths from a pair back to itself along one word. A split is two different pairs with paths
//! along one word from the first to itself, from the first to the second, and from the second to itself.

ghost use Rattle.std.specs.Prelude.{◌≡◌, ℕ, ◌<◌, ◌≤◌, List, All, length, map, slice_get, slice_index_or, Some, [], IfOk};
ghost use Rattle.rl_graph.specs.Paths.{paths};
ghost use Rattle.rl_graph.specs.Twins.{IsTwin, IsSplit};
ghost use Rattle.rl_growth.specs.Routes.{split_at, IsRoute};
ghost use Rattle.rl_syntax.specs.Tree.{tree_of};
ghost use Rattle.rl_prio.specs.Automaton.{letters_count};
ghost use Rattle.rl_pairs.specs.PairTable.{moves_in, pair_in};
ghost use Rattle.rl_pairs.specs.Families.{spelled};
ghost use Rattle.rl_growth.specs.FamilyWords.{AreLetters, IsChainWords};
ghost use Rattle.rl_ways.specs.Ways.{last_of};
ghost use Rattle.rl_why.specs.Shown.{PartAt};
ghost use Rattle.rl_why.specs.Readings.{AreTwinWays, AreSplitWays, AreChainWays};
ghost use Rattle.rl_why.specs.internal.Sources.{IsSource};
ghost use Rattle.rl_why.specs.internal.Settings.{IsSetting, IsWayAlong, IsPumped, place_of, from_at};

use crate::loops::loop_along;
use crate::paths::{numbers_of, path_along};
use crate::shown::{Sources, Step, Way, are_alike, show};
use rl_degree::Split;
use rl_expo::TwinPaths;
use rl_lists::{Codes, Items, OutOfMemory, Word};
use rl_pairs::PairGraph;
use rl_prio::Prio;
use rl_syntax::Re;
use rl_ways::{Origin, ToldItem, place_of_state, twin_ways, way_between};
use std::alloc::Global;

/// Two ways of one text, each from a place back to itself. So there are `2^k` ways of `k` times the text.
#[derive(Drop)]
pub struct TwinReading {
    /// The first way.
    pub first: Way,
    /// The second way.
    pub second: Way,
    /// The index of the first character before which the two ways decide differently.
    pub parts: usize,
}

/// Three ways of one text: from a place back to itself, from there to a second place, and from this back to itself. So `k` times
/// the text are shared out between two loops in `k` ways and more.
#[derive(Drop)]
pub struct SplitReading {
    /// The way that stays before: around the first loop.
    pub before: Way,
    /// The way that goes over, from the first loop to the second.
    pub over: Way,
    /// The way that stays behind: around the second loop.
    pub behind: Way,
    /// The first loop: the innermost one whose body reads all characters of the way before. It is never missing.
    pub first_loop: Option<Origin>,
    /// The second loop: the innermost one whose body reads all characters of the way behind. It is never missing.
    pub second_loop: Option<Origin>,
}

/// How the pumps of a family of polynomial growth are read.
#[derive(Drop)]
pub struct ChainReading {
    /// For each pump but the last one, in order, how it is read.
    pub splits: Items<SplitReading>,
    /// The loop that reads the last pump: the innermost one whose body reads all its characters. It is never missing.
    pub cycle: Option<Origin>,
}

/// How the pumps of a verdict's family are read.
#[derive(Drop)]
pub enum Reading {
    /// There is no pump: the degree is 0, or the verdict is undecided.
    Nothing,
    /// Exponential growth: the only pump is read in two ways.
    Twin(TwinReading),
    /// Polynomial growth of a degree of 1 or more.
    Chain(ChainReading),
}

/// Returns the index of the first step before which two ways decide differently, or the length of the shorter way if there is
/// none.
fn parting(first: &[Step], second: &[Step]) -> usize
    ensures { (k : ℕ) → PartAt k first.now second.now → result ≡ k }
{
    for k in 0..first.len() {
        if k >= second.len() {
            return k;
        }
        let alike = are_alike(first[k].took.as_slice(), second[k].took.as_slice());
        if !alike {
            return k;
        }
    }
    first.len()
}

/// Returns the last code of a text, if the text has any.
fn last_of(text: &[u32]) -> Option<u32>
    ensures { result ≡ last_of text.now }
{
    let mut last = None;
    for code in text {
        last = Some(*code);
    }
    last
}

/// Returns how the pump of a twin is read.
///
/// # Errors
/// [`OutOfMemory`] if there is not enough memory for the ways.
pub(crate) fn twin_reading(
    alloc: Global,
    tree: &Re,
    sources: &Sources,
    a: &Prio,
    g: &PairGraph,
    twin: &TwinPaths,
    text: &[u32],
) -> Result<TwinReading, OutOfMemory>
    requires setting { IsSetting (tree_of tree.now) a.now g.now }
    requires source { IsSource sources.now.nodes sources.now }
    requires state_in { twin.now.state < g.now.graph.states }
    requires twin { IsTwin (moves_in g.now) twin.now.state twin.now.word twin.now.first twin.now.second }
    requires letters { All (λ letter. letter < letters_count a.now) twin.now.word }
    requires text { text.now ≡ spelled a.now twin.now.word }
    ensures { IfOk result (AreTwinWays (tree_of tree.now) sources.now.nodes text.now (place_of (tree_of tree.now) a.now g.now twin.now.state)) }
{
    let word = twin.word.as_slice();
    let first = numbers_of(alloc, a, g, twin.state, word, twin.first.as_slice())?;
    let second = numbers_of(alloc, a, g, twin.state, word, twin.second.as_slice())?;
    let place = place_of_state(tree, a.states(), g.pair(twin.state).state);
    let found = twin_ways(
        alloc,
        tree,
        place,
        last_of(text),
        text,
        first.as_slice(),
        second.as_slice(),
    )?;
    match found {
        Some(ways) => {
            let first = show(alloc, sources, ways.first.as_slice())?;
            let second = show(alloc, sources, ways.second.as_slice())?;
            let parts = parting(first.as_slice(), second.as_slice());
            Ok(TwinReading {
                first,
                second,
                parts,
            })
        }
        None => unreachable!(),
    }
}

/// Returns the way of a text from the state of one pair to that of another one, along the letters of the text. On these letters,
/// paths must lead from each of the pairs back to itself, and from the first to the second.
fn way_along(
    alloc: Global,
    tree: &Re,
    a: &Prio,
    g: &PairGraph,
    from: u32,
    to: u32,
    word: &[u32],
    text: &[u32],
) -> Result<Items<ToldItem>, OutOfMemory>
    requires setting { IsSetting (tree_of tree.now) a.now g.now }
    requires from_in { from < g.now.graph.states }
    requires to_in { to < g.now.graph.states }
    requires some { 1 ≤ length word.now }
    requires before { 1 ≤ paths (moves_in g.now) from from word.now }
    requires over { 1 ≤ paths (moves_in g.now) from to word.now }
    requires behind { 1 ≤ paths (moves_in g.now) to to word.now }
    requires letters { All (λ letter. letter < letters_count a.now) word.now }
    requires text { text.now ≡ spelled a.now word.now }
    ensures { IfOk result (IsWayAlong (tree_of tree.now) a.now g.now from to word.now text.now) }
{
    let path = path_along(alloc, g.graph(), from, to, word)?;
    let numbers = numbers_of(alloc, a, g, from, word, path.as_slice())?;
    let states = a.states();
    let found = way_between(
        alloc,
        tree,
        place_of_state(tree, states, g.pair(from).state),
        place_of_state(tree, states, g.pair(to).state),
        last_of(text),
        text,
        numbers.as_slice(),
    )?;
    match found {
        Some(way) => Ok(way),
        None => unreachable!(),
    }
}

/// Returns how the pump of a split is read.
fn split_reading(
    alloc: Global,
    tree: &Re,
    sources: &Sources,
    a: &Prio,
    g: &PairGraph,
    split: &Split,
    text: &[u32],
) -> Result<SplitReading, OutOfMemory>
    requires setting { IsSetting (tree_of tree.now) a.now g.now }
    requires source { IsSource sources.now.nodes sources.now }
    requires split { IsSplit (moves_in g.now) split.now.from split.now.to split.now.word }
    requires from_in { split.now.from < g.now.graph.states }
    requires to_in { split.now.to < g.now.graph.states }
    requires letters { All (λ letter. letter < letters_count a.now) split.now.word }
    requires text { text.now ≡ spelled a.now split.now.word }
    ensures { IfOk result (AreSplitWays (tree_of tree.now) sources.now.nodes text.now
        (place_of (tree_of tree.now) a.now g.now split.now.from) (place_of (tree_of tree.now) a.now g.now split.now.to)) }
{
    let word = split.word.as_slice();
    let before = way_along(alloc, tree, a, g, split.from, split.from, word, text)?;
    let over = way_along(alloc, tree, a, g, split.from, split.to, word, text)?;
    let behind = way_along(alloc, tree, a, g, split.to, split.to, word, text)?;
    let nodes = sources.nodes.as_slice();
    let first_loop = loop_along(alloc, tree, nodes, before.as_slice())?;
    let second_loop = loop_along(alloc, tree, nodes, behind.as_slice())?;
    Ok(SplitReading {
        before: show(alloc, sources, before.as_slice())?,
        over: show(alloc, sources, over.as_slice())?,
        behind: show(alloc, sources, behind.as_slice())?,
        first_loop,
        second_loop,
    })
}

/// Returns how the pumps of the splits of a chain are read. There may be more pumps.
fn split_readings(
    alloc: Global,
    tree: &Re,
    sources: &Sources,
    a: &Prio,
    g: &PairGraph,
    splits: &[Split],
    pumps: &[Codes],
) -> Result<Items<SplitReading>, OutOfMemory>
    requires setting { IsSetting (tree_of tree.now) a.now g.now }
    requires source { IsSource sources.now.nodes sources.now }
    requires many { length splits.now ≤ length pumps.now }
    requires splits { (k : ℕ) → k < length splits.now → IsPumped a.now g.now (slice_index_or pumps.now k []) (split_at splits.now k) }
    ensures count { IfOk result (λ l. length l ≡ length splits.now) }
    ensures right { IfOk result (λ l. (k : ℕ) (r : SplitReading) → slice_get l k ≡ Some r
        → AreSplitWays (tree_of tree.now) sources.now.nodes (slice_index_or pumps.now k [])
        (place_of (tree_of tree.now) a.now g.now (split_at splits.now k).from) (place_of (tree_of tree.now) a.now g.now (split_at splits.now k).to) r) }
{
    let mut readings = Items::new(alloc);
    for k in 0..splits.len() {
        let text = pumps[k].as_slice();
        let reading = split_reading(alloc, tree, sources, a, g, &splits[k], text)?;
        readings.push(reading)?;
    }
    Ok(readings)
}

/// Returns how the pumps of a chain of splits that ends on a cycle are read. The cycle is at the end of the last split, or at the
/// pair `alone` if there are no splits. `words` has the letters of the pumps.
///
/// # Errors
/// [`OutOfMemory`] if there is not enough memory for the ways.
pub(crate) fn chain_reading(
    alloc: Global,
    tree: &Re,
    sources: &Sources,
    a: &Prio,
    g: &PairGraph,
    splits: &[Split],
    alone: u32,
    words: &[Word],
    pumps: &[Codes],
) -> Result<ChainReading, OutOfMemory>
    requires setting { IsSetting (tree_of tree.now) a.now g.now }
    requires source { IsSource sources.now.nodes sources.now }
    requires alone_in { alone < g.now.graph.states }
    requires route { IsRoute (moves_in g.now) g.now.graph.states splits.now }
    requires words { (heads : List (List ℕ)) × IsChainWords a.now (moves_in g.now) (pair_in g.now) splits.now alone heads words.now }
    requires letters { AreLetters a.now words.now }
    requires texts { pumps.now ≡ map (spelled a.now) words.now }
    ensures { IfOk result (AreChainWays (tree_of tree.now) sources.now.nodes pumps.now
        (λ k. place_of (tree_of tree.now) a.now g.now (from_at splits.now alone k)) (λ k. place_of (tree_of tree.now) a.now g.now (split_at splits.now k).to)) }
{
    let readings = split_readings(alloc, tree, sources, a, g, splits, pumps)?;
    let mut state = alone;
    for split in splits {
        state = split.to;
    }
    let word = words[splits.len()].as_slice();
    let text = pumps[splits.len()].as_slice();
    let way = way_along(alloc, tree, a, g, state, state, word, text)?;
    let cycle = loop_along(alloc, tree, sources.nodes.as_slice(), way.as_slice())?;
    Ok(ChainReading {
        splits: readings,
        cycle,
    })
}
