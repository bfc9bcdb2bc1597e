//! The lengths of the longest chains of splits, found component by component in the order of their numbers. A component
//! that is reached from another one has the smaller number and is called lower.

ghost use Rattle.std.specs.Prelude.{◌≡◌, ℕ, ◌<◌, ◌≤◌, ◌+◌, ◌⊎◌, IfOk, OnOk};
ghost use Rattle.rl_graph.specs.Graph.{edges_of, IsWhole};
ghost use Rattle.rl_graph.specs.Parts.{IsParts, number_of};
ghost use Rattle.rl_graph.specs.Twins.{HasNoTwin};
ghost use Rattle.rl_degree.specs.internal.Groups.{AreGroupsFrom};
ghost use Rattle.rl_degree.specs.internal.Pairs.{IsTable};
ghost use Rattle.rl_degree.specs.internal.Splits.{HasSplit, AreMarks};
ghost use Rattle.rl_degree.specs.internal.Ranks.{best_at, IsGood, IsGoodIn, BeatsLetter, BeatsMoves, BeatsMovesIn, BeatsSplits, BeatsSplitsIn, IsBest, AreBests};
ghost use Rattle.rl_degree.specs.Chains.{AreRanks};

use crate::groups::{Groups, groups_of};
use crate::pairs::PairTable;
use crate::searches::{is_split, no_marks};
use rl_graph::{Components, Multigraph};
use rl_lists::{Items, OutOfMemory, Ranks};
use std::alloc::Global;

/// The best chain of a component: the number of splits in a longest chain from its states (`rank`), and the two states
/// of the first split. If `rank` is 0, `from` and `to` have no meaning.
#[derive(Clone, Copy)]
pub(crate) struct Best {
    pub(crate) rank: u32,
    pub(crate) from: u32,
    pub(crate) to: u32,
}

/// Returns the chain of the greater rank, or `best` if the ranks are equal.
fn better(best: Best, other: Best) -> Best
    ensures one { (result ≡ best) ⊎ (result ≡ other) }
    ensures least { best.rank ≤ result.rank }
    ensures other { other.rank ≤ result.rank }
{
    if best.rank < other.rank { other } else { best }
}

/// Returns the longest of the chain `start` and the best chains of the lower components to which the moves of `state`
/// on `letter` lead.
fn best_by_letter(
    g: &Multigraph,
    components: &Components,
    bests: &[Best],
    state: u32,
    letter: u32,
    start: Best,
) -> Best
    requires state_in { state < g.now.states }
    requires letter_in { letter < g.now.letters }
    requires parts { IsParts (edges_of g.now) g.now.states components.now }
    requires bests { AreBests (edges_of g.now) g.now.states components.now (number_of components.now state) bests.now }
    requires start { IsGood (edges_of g.now) g.now.states components.now bests.now state start }
    ensures good { IsGood (edges_of g.now) g.now.states components.now bests.now state result }
    ensures least { start.rank ≤ result.rank }
    ensures letter { BeatsLetter (edges_of g.now) components.now bests.now state letter result.rank }
{
    let own = components.of(state);
    let mut best = start;
    let row = g.edges(state, letter);
    for place in 0..row.len() {
        let component = components.of(row[place]);
        if component < own {
            best = better(best, bests[component as usize]);
        }
    }
    best
}

/// Returns the longest of the chain `start` and the best chains of the lower components to which the moves of `state`
/// lead.
fn best_by_moves(
    g: &Multigraph,
    components: &Components,
    bests: &[Best],
    state: u32,
    start: Best,
) -> Best
    requires whole { IsWhole g.now }
    requires state_in { state < g.now.states }
    requires parts { IsParts (edges_of g.now) g.now.states components.now }
    requires bests { AreBests (edges_of g.now) g.now.states components.now (number_of components.now state) bests.now }
    requires start { IsGood (edges_of g.now) g.now.states components.now bests.now state start }
    ensures good { IsGood (edges_of g.now) g.now.states components.now bests.now state result }
    ensures least { start.rank ≤ result.rank }
    ensures moves { BeatsMoves (edges_of g.now) components.now bests.now state result.rank }
{
    let mut best = start;
    for letter in 0..g.letters() {
        best = best_by_letter(g, components, bests, state, letter, best);
    }
    best
}

/// Returns the longer of the chain `best` and the chain that begins with the split from `state` to `to`, if these are a
/// split. This is tested only if `to` is in a lower component and its chain would be longer than `best`.
fn best_by_split(
    g: &Multigraph,
    table: &PairTable,
    marks: &mut Vec<Option<bool>>,
    bests: &[Best],
    state: u32,
    to: u32,
    best: Best,
) -> Result<Best, OutOfMemory>
    requires table { IsTable g.now table.now }
    requires no_twin { HasNoTwin (edges_of g.now) }
    requires marks { AreMarks g.now table.now marks.old.items }
    requires state_in { state < g.now.states }
    requires to_in { to < g.now.states }
    requires bests { AreBests (edges_of g.now) g.now.states table.now.components (number_of table.now.components state) bests.now }
    requires best { IsGood (edges_of g.now) g.now.states table.now.components bests.now state best }
    ensures good { IfOk result (IsGood (edges_of g.now) g.now.states table.now.components bests.now state) }
    ensures least { IfOk result (λ b. best.rank ≤ b.rank) }
    ensures split { IfOk result (λ b. HasSplit (edges_of g.now) state to → (best_at bests.now (number_of table.now.components to)).rank + 1 ≤ b.rank) }
    ensures marks { OnOk result (AreMarks g.now table.now marks.new.items) }
{
    let component = table.components.of(to);
    if component >= table.components.of(state) {
        return Ok(best);
    }
    let rest = bests[component as usize];
    if rest.rank < best.rank {
        return Ok(best);
    }
    if !is_split(g, table, marks, state, to)? {
        return Ok(best);
    }
    Ok(Best {
        rank: rest.rank + 1,
        from: state,
        to,
    })
}

/// Returns the longest of the chain `start` and the chains that begin with a split from `state`.
fn best_by_splits(
    g: &Multigraph,
    table: &PairTable,
    marks: &mut Vec<Option<bool>>,
    bests: &[Best],
    state: u32,
    start: Best,
) -> Result<Best, OutOfMemory>
    requires table { IsTable g.now table.now }
    requires no_twin { HasNoTwin (edges_of g.now) }
    requires marks { AreMarks g.now table.now marks.old.items }
    requires state_in { state < g.now.states }
    requires bests { AreBests (edges_of g.now) g.now.states table.now.components (number_of table.now.components state) bests.now }
    requires start { IsGood (edges_of g.now) g.now.states table.now.components bests.now state start }
    ensures good { IfOk result (IsGood (edges_of g.now) g.now.states table.now.components bests.now state) }
    ensures least { IfOk result (λ b. start.rank ≤ b.rank) }
    ensures splits { IfOk result (λ b. BeatsSplits (edges_of g.now) g.now.states table.now.components bests.now state b.rank) }
    ensures marks { OnOk result (AreMarks g.now table.now marks.new.items) }
{
    let mut best = start;
    if table.kernel.place_of(state).is_none() {
        return Ok(best);
    }
    for place in 0..table.kernel.states.len() {
        let to = table.kernel.states[place];
        best = best_by_split(g, table, marks, bests, state, to, best)?;
    }
    Ok(best)
}

/// Returns the longest of the best chains of the lower components to which the moves of a component's states lead, or a
/// chain without splits if there are none.
fn best_by_all_moves(
    g: &Multigraph,
    components: &Components,
    groups: &Groups,
    bests: &[Best],
    component: u32,
) -> Best
    requires parts { IsParts (edges_of g.now) g.now.states components.now }
    requires component_in { component < g.now.states }
    requires groups { AreGroupsFrom components.now g.now.states 0 groups.now.firsts.items groups.now.nexts.items }
    requires bests { AreBests (edges_of g.now) g.now.states components.now component bests.now }
    ensures good { IsGoodIn (edges_of g.now) g.now.states components.now bests.now component result }
    ensures moves { BeatsMovesIn (edges_of g.now) g.now.states components.now bests.now component result.rank }
{
    let mut best = Best {
        rank: 0,
        from: 0,
        to: 0,
    };
    let count = g.states();
    let mut state = groups.firsts[component as usize];
    while state < count {
        best = best_by_moves(g, components, bests, state, best);
        let next = groups.nexts[state as usize];
        state = next;
    }
    best
}

/// Returns the longest of the chain `start` and the chains that begin with a split from a state of `component`.
fn best_by_all_splits(
    g: &Multigraph,
    table: &PairTable,
    groups: &Groups,
    marks: &mut Vec<Option<bool>>,
    bests: &[Best],
    component: u32,
    start: Best,
) -> Result<Best, OutOfMemory>
    requires table { IsTable g.now table.now }
    requires no_twin { HasNoTwin (edges_of g.now) }
    requires marks { AreMarks g.now table.now marks.old.items }
    requires component_in { component < g.now.states }
    requires groups { AreGroupsFrom table.now.components g.now.states 0 groups.now.firsts.items groups.now.nexts.items }
    requires bests { AreBests (edges_of g.now) g.now.states table.now.components component bests.now }
    requires start { IsGoodIn (edges_of g.now) g.now.states table.now.components bests.now component start }
    ensures good { IfOk result (IsGoodIn (edges_of g.now) g.now.states table.now.components bests.now component) }
    ensures least { IfOk result (λ b. start.rank ≤ b.rank) }
    ensures splits { IfOk result (λ b. BeatsSplitsIn (edges_of g.now) g.now.states g.now.states table.now.components bests.now component b.rank) }
    ensures marks { OnOk result (AreMarks g.now table.now marks.new.items) }
{
    let mut best = start;
    let count = g.states();
    let mut state = groups.firsts[component as usize];
    while state < count {
        best = best_by_splits(g, table, marks, bests, state, best)?;
        let next = groups.nexts[state as usize];
        state = next;
    }
    Ok(best)
}

/// Returns the best chain of `component`. `bests` has the best chains of all lower components. Moves come before
/// splits, since only splits that make the chain longer are then searched for.
fn best_of(
    g: &Multigraph,
    table: &PairTable,
    groups: &Groups,
    marks: &mut Vec<Option<bool>>,
    bests: &[Best],
    component: u32,
) -> Result<Best, OutOfMemory>
    requires table { IsTable g.now table.now }
    requires no_twin { HasNoTwin (edges_of g.now) }
    requires marks { AreMarks g.now table.now marks.old.items }
    requires component_in { component < g.now.states }
    requires groups { AreGroupsFrom table.now.components g.now.states 0 groups.now.firsts.items groups.now.nexts.items }
    requires bests { AreBests (edges_of g.now) g.now.states table.now.components component bests.now }
    ensures best { IfOk result (λ b. (q : ℕ) → q < g.now.states → number_of table.now.components q ≡ component → IsBest (edges_of g.now) g.now.states table.now.components bests.now q b) }
    ensures marks { OnOk result (AreMarks g.now table.now marks.new.items) }
{
    let by_moves = best_by_all_moves(g, &table.components, groups, bests, component);
    let best = best_by_all_splits(g, table, groups, marks, bests, component, by_moves)?;
    Ok(best)
}

/// Returns the best chain of each component, at the component's number.
///
/// # Errors
/// [`OutOfMemory`] if there is not enough memory for the search or the chains.
pub(crate) fn all_bests(
    alloc: Global,
    g: &Multigraph,
    table: &PairTable,
) -> Result<Vec<Best>, OutOfMemory>
    requires table { IsTable g.now table.now }
    requires no_twin { HasNoTwin (edges_of g.now) }
    ensures { IfOk result (λ v. AreBests (edges_of g.now) g.now.states table.now.components g.now.states v.items) }
{
    let groups = groups_of(alloc, &table.components, g.states())?;
    let mut marks = no_marks(alloc, table)?;
    let mut bests = Vec::with_capacity(alloc, g.states() as usize)?;
    for component in 0..g.states() {
        let best = best_of(g, table, &groups, &mut marks, &bests, component)?;
        bests.push(best)?;
    }
    Ok(bests)
}

/// Returns the rank of each state: the number of splits in a longest chain from it.
///
/// # Errors
/// [`OutOfMemory`] if there is not enough memory for the ranks.
pub(crate) fn ranks_of(
    alloc: Global,
    g: &Multigraph,
    components: &Components,
    bests: &[Best],
) -> Result<Ranks, OutOfMemory>
    requires parts { IsParts (edges_of g.now) g.now.states components.now }
    requires bests { AreBests (edges_of g.now) g.now.states components.now g.now.states bests.now }
    ensures { IfOk result (λ r. AreRanks (edges_of g.now) g.now.states r) }
{
    let mut ranks = Items::new(alloc);
    for state in 0..g.states() {
        ranks.push(bests[components.of(state) as usize].rank)?;
    }
    Ok(ranks)
}
