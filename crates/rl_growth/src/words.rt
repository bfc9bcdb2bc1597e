//! The words of families, as letters of an automaton. A pair is a state of the automaton with a set: the states that were
//! tried before it. A rest is a list of letters followed by the end letter; a set refuses it if none of its members accepts
//! it. A live pair is the first pair, or a pair whose set refuses some rest and to which a live pair has a move. A twin is two
//! different paths from a pair back to itself along one word. A split is two different pairs with paths along one word from
//! the first to itself, from the first to the second, and from the second to itself. The graph has for each live pair a lead,
//! which is a word that leads to it from the first pair, and a rest that its set refuses.

ghost use Rattle.std.specs.Prelude.{◌≡◌, ℕ, ◌+◌, ◌-◌, ◌<◌, ◌≤◌, [], ◌∷◌, ◌++◌, length, take, IfOk, OnOk};
ghost use Rattle.rl_graph.specs.Paths.{paths};
ghost use Rattle.rl_graph.specs.Twins.{IsTwin};
ghost use Rattle.rl_prio.specs.Automaton.{Automaton};
ghost use Rattle.rl_pairs.specs.PairTable.{moves_in, pair_in, lead_in, rest_in};
ghost use Rattle.rl_growth.specs.Questions.{IsLed};
ghost use Rattle.rl_growth.specs.Routes.{split_at, state_before, IsRoute, IsWay};
ghost use Rattle.rl_growth.specs.FamilyWords.{IsTwinWords, IsChainWords};

use rl_degree::{Loop, Split};
use rl_expo::TwinPaths;
use rl_lists::{Items, OutOfMemory, Word};
use rl_pairs::PairGraph;
use std::alloc::Global;

/// The words of a family.
#[derive(Drop)]
pub struct FamilyWords {
    /// The words before, between and after the pumps.
    pub heads: Items<Word>,
    /// The words that are repeated.
    pub pumps: Items<Word>,
}

impl FamilyWords {
    /// Creates a family without words.
    fn new(alloc: Global) -> FamilyWords
        ensures heads { result.heads ≡ [] }
        ensures pumps { result.pumps ≡ [] }
    {
        FamilyWords {
            heads: Items::new(alloc),
            pumps: Items::new(alloc),
        }
    }

    /// Appends a head and the pump that follows it.
    fn push(&mut self, head: Word, pump: Word) -> Result<(), OutOfMemory>
        ensures heads { OnOk result (self.new.heads ≡ self.old.heads ++ head ∷ []) }
        ensures pumps { OnOk result (self.new.pumps ≡ self.old.pumps ++ pump ∷ []) }
    {
        self.heads.push(head)?;
        self.pumps.push(pump)
    }
}

/// Returns a copy of a word.
fn copy(alloc: Global, word: &Word) -> Result<Word, OutOfMemory>
    ensures { IfOk result (λ w. w ≡ word.now) }
{
    Items::from_slice(alloc, word.as_slice())
}

/// Returns the rest that the set of the live pair with the number `state` refuses, without the end letter.
fn last_head(alloc: Global, g: &PairGraph, state: u32) -> Result<Word, OutOfMemory>
    requires state_in { state < g.now.graph.states }
    requires some { 0 < length (rest_in g.now state) }
    ensures { IfOk result (λ w. w ≡ take (length (rest_in g.now state) - 1) (rest_in g.now state)) }
{
    let rest = g.rest(state).as_slice();
    Items::from_slice(alloc, &rest[..rest.len() - 1])
}

/// Returns the words of `twin`, which must be a twin of the graph. The heads are the lead of its state, and the rest that the
/// set of its state refuses, without the end letter; the only pump is the word of the twin. The rests of the graph must not be
/// empty.
///
/// # Errors
/// [`OutOfMemory`] if there is not enough memory for them.
pub fn twin_words(
    alloc: Global,
    g: &PairGraph,
    twin: &TwinPaths,
) -> Result<FamilyWords, OutOfMemory>
    requires state_in { twin.now.state < g.now.graph.states }
    requires twin { IsTwin (moves_in g.now) twin.now.state twin.now.word twin.now.first twin.now.second }
    requires rests { (i : ℕ) → i < g.now.graph.states → 0 < length (rest_in g.now i) }
    ensures { IfOk result (λ w. (a : Automaton) → IsLed a g.now → IsTwinWords a (moves_in g.now) (pair_in g.now) twin.now.state w.heads w.pumps) }
{
    let lead = copy(alloc, g.lead(twin.state))?;
    let mut words = FamilyWords::new(alloc);
    put_cycle(alloc, g, &mut words, lead, twin.state, &twin.word)?;
    Ok(words)
}

/// Returns a word that leads to the split at `place` of a chain, from the first live pair or from the end of the split before
/// it.
fn lead_to(
    alloc: Global,
    g: &PairGraph,
    splits: &[Split],
    place: usize,
) -> Result<Word, OutOfMemory>
    requires place_in { place < length splits.now }
    requires route { IsRoute (moves_in g.now) g.now.graph.states splits.now }
    requires leads { (i : ℕ) → i < g.now.graph.states → 1 ≤ paths (moves_in g.now) 0 i (lead_in g.now i) }
    ensures { IfOk result (λ w. 1 ≤ paths (moves_in g.now) (state_before splits.now place) (split_at splits.now place).from w) }
{
    let to = splits[place].from;
    if place == 0 {
        return copy(alloc, g.lead(to));
    }
    let from = splits[place - 1].to;
    match g.graph().walk(from, to)? {
        Some(word) => Ok(word),
        None => unreachable!(),
    }
}

/// Returns, for each split of a chain, a word that leads to it and the word of the split.
fn split_words(alloc: Global, g: &PairGraph, splits: &[Split]) -> Result<FamilyWords, OutOfMemory>
    requires route { IsRoute (moves_in g.now) g.now.graph.states splits.now }
    requires leads { (i : ℕ) → i < g.now.graph.states → 1 ≤ paths (moves_in g.now) 0 i (lead_in g.now i) }
    ensures { IfOk result (λ w. IsWay (moves_in g.now) splits.now (length splits.now) w.heads w.pumps) }
{
    let mut words = FamilyWords::new(alloc);
    for place in 0..splits.len() {
        let lead = lead_to(alloc, g, splits, place)?;
        let round = copy(alloc, &splits[place].word)?;
        words.push(lead, round)?;
    }
    Ok(words)
}

/// Appends the words of a cycle: the word that leads to it, its own word, and the word that the set of its state refuses.
fn put_cycle(
    alloc: Global,
    g: &PairGraph,
    words: &mut FamilyWords,
    lead: Word,
    state: u32,
    round: &Word,
) -> Result<(), OutOfMemory>
    requires state_in { state < g.now.graph.states }
    requires some { 0 < length (rest_in g.now state) }
    ensures heads { OnOk result (words.new.heads
        ≡ words.old.heads ++ (lead ∷ (take (length (rest_in g.now state) - 1) (rest_in g.now state) ∷ []))) }
    ensures pumps { OnOk result (words.new.pumps ≡ words.old.pumps ++ round.now ∷ []) }
{
    words.push(lead, copy(alloc, round)?)?;
    let last = last_head(alloc, g, state)?;
    words.heads.push(last)
}

/// Returns the words of a chain of splits that ends on a cycle. The cycle is the loop at the end of the last split, or `cycle`
/// if there are no splits. The pumps are the words of the splits and then the word of the cycle; the heads are a word that
/// leads to each of these, and last the rest that the set of the cycle's state refuses, without the end letter. The splits
/// must be a chain from the state 0 of the graph, and `cycle` a cycle of the graph on a non-empty word. The leads of the graph
/// must lead to their pairs, and its rests must not be empty.
///
/// # Errors
/// [`OutOfMemory`] if there is not enough memory for them.
pub fn chain_words(
    alloc: Global,
    g: &PairGraph,
    splits: &[Split],
    cycle: &Loop,
) -> Result<FamilyWords, OutOfMemory>
    requires route { IsRoute (moves_in g.now) g.now.graph.states splits.now }
    requires leads { (i : ℕ) → i < g.now.graph.states → 1 ≤ paths (moves_in g.now) 0 i (lead_in g.now i) }
    requires rests { (i : ℕ) → i < g.now.graph.states → 0 < length (rest_in g.now i) }
    requires state_in { cycle.now.state < g.now.graph.states }
    requires some { 1 ≤ length cycle.now.word }
    requires cycle { 1 ≤ paths (moves_in g.now) cycle.now.state cycle.now.state cycle.now.word }
    ensures { IfOk result (λ w. (a : Automaton) → IsLed a g.now
        → IsChainWords a (moves_in g.now) (pair_in g.now) splits.now cycle.now.state w.heads w.pumps) }
{
    let mut words = split_words(alloc, g, splits)?;
    if splits.is_empty() {
        let lead = copy(alloc, g.lead(cycle.state))?;
        put_cycle(alloc, g, &mut words, lead, cycle.state, &cycle.word)?;
    } else {
        let last = &splits[splits.len() - 1];
        put_cycle(alloc, g, &mut words, Items::new(alloc), last.to, &last.word)?;
    }
    Ok(words)
}
