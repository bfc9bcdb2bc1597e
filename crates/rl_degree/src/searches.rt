//! Whether two states are a split, and the words of splits.

ghost use Rattle.std.specs.Prelude.{◌≡◌, ◌<◌, ◌+◌, ◌*◌, ◌↔◌, true, replicate, IfOk, OnOk, IfSome, IfNone, IsTrue};
ghost use Rattle.rl_graph.specs.Graph.{edges_of};
ghost use Rattle.rl_graph.specs.Twins.{HasNoTwin, IsSplit};
ghost use Rattle.rl_degree.specs.internal.Pairs.{IsTable};
ghost use Rattle.rl_degree.specs.internal.Reached.{reaches as has_reached};
ghost use Rattle.rl_degree.specs.internal.Rows.{search_state_of, word_at, HasWord};
ghost use Rattle.rl_degree.specs.internal.Splits.{HasSplit, IsPairFor, AreMarks};

use crate::pairs::{PairTable, pair_of, wanted};
use crate::rows::{Found, SplitSearch};
use rl_graph::Multigraph;
use rl_lanes::BitRow;
use rl_lists::{OutOfMemory, Word};
use std::alloc::Global;

/// Returns whether the state `from` may reach the state `to`. If the result is false, it doesn't.
fn reaches(g: &Multigraph, table: &PairTable, from: u32, to: u32) -> bool
    requires table { IsTable g.now table.now }
    requires from_in { from < g.now.states }
    requires to_in { to < g.now.states }
    ensures { result ≡ has_reached table.now.components table.now.reached.items from to }
{
    let row = &table.reached[table.components.of(from) as usize];
    row.get(table.components.of(to) as usize)
}

/// Returns the number of the pair of two states in the product if they may be a split. If the result is `None`, they
/// are not a split.
fn pair_for(g: &Multigraph, table: &PairTable, from: u32, to: u32) -> Option<u64>
    requires table { IsTable g.now table.now }
    requires no_twin { HasNoTwin (edges_of g.now) }
    requires from_in { from < g.now.states }
    requires to_in { to < g.now.states }
    ensures pair { IfSome result (IsPairFor table.now from to) }
    ensures none { IfNone result (HasSplit (edges_of g.now) from to → ⊥) }
{
    if !reaches(g, table, from, to) {
        return None;
    }
    let count = u64::from(table.inner.states());
    let first = match table.kernel.place_of(from) {
        Some(place) => place,
        None => return None,
    };
    let second = match table.kernel.place_of(to) {
        Some(place) => place,
        None => return None,
    };
    let pair = pair_of(count, first, second);
    if wanted(&table.kernel.levels, &table.parts, count, pair) {
        Some(pair)
    } else {
        None
    }
}

/// A search that has met its goal, and what it found there.
#[derive(Drop)]
struct Goal {
    search: SplitSearch,
    found: Found,
}

/// Returns the goal of a search for a word of the split of the states `from` and `to`, or `None` if and only if they
/// are not a split. `pair` is the number of their pair in the product. If `keeps` is true, the search keeps its steps,
/// from which the word can be read.
///
/// # Errors
/// [`OutOfMemory`] if there is not enough memory for the search.
fn search_for(
    alloc: Global,
    g: &Multigraph,
    table: &PairTable,
    keeps: bool,
    pair: u64,
    from: u32,
    to: u32,
) -> Result<Option<Goal>, OutOfMemory>
    requires table { IsTable g.now table.now }
    requires no_twin { HasNoTwin (edges_of g.now) }
    requires from_in { from < g.now.states }
    requires to_in { to < g.now.states }
    requires pair { IsPairFor table.now from to pair }
    ensures word { keeps ≡ true → IfOk result (λ o. IfSome o (λ k. IsSplit (edges_of g.now) from to (word_at (search_state_of k.search).steps k.found.step))) }
    ensures steps { IfOk result (λ o. IfSome o (λ k. HasWord (search_state_of k.search).steps k.found.step)) }
    ensures found { IfOk result (λ o. IfSome o (λ _. HasSplit (edges_of g.now) from to)) }
    ensures none { IfOk result (λ o. IfNone o (HasSplit (edges_of g.now) from to → ⊥)) }
{
    let states = g.states();
    let part = table.parts.of(pair);
    let place = table.placed.places[pair as usize] as usize;
    let pairs = table.members_of(part).len();
    let mut image = BitRow::zeros(alloc, states as usize)?;
    let hopeless = &table.hopeless[table.components.of(to) as usize];
    let mut search = SplitSearch::new(alloc, keeps, hopeless, pairs, place, from, to)?;
    while let Some(found) = search.next() {
        if search.is_goal(&found) {
            return Ok(Some(Goal { search, found }));
        }
        search.follow(g, table, part, &found, &mut image)?;
    }
    Ok(None)
}

/// Returns a word on which two states are a split, or `None` if and only if they are not a split.
///
/// # Errors
/// [`OutOfMemory`] if there is not enough memory for the search or the word.
pub(crate) fn split_word(
    alloc: Global,
    g: &Multigraph,
    table: &PairTable,
    from: u32,
    to: u32,
) -> Result<Option<Word>, OutOfMemory>
    requires table { IsTable g.now table.now }
    requires no_twin { HasNoTwin (edges_of g.now) }
    requires from_in { from < g.now.states }
    requires to_in { to < g.now.states }
    ensures found { IfOk result (λ o. IfSome o (λ w. IsSplit (edges_of g.now) from to w)) }
    ensures none { IfOk result (λ o. IfNone o (HasSplit (edges_of g.now) from to → ⊥)) }
{
    match pair_for(g, table, from, to) {
        Some(pair) => match search_for(alloc, g, table, true, pair, from, to)? {
            Some(goal) => Ok(Some(goal.search.word_to(alloc, &goal.found)?)),
            None => Ok(None),
        },
        None => Ok(None),
    }
}

/// Returns a mark for each part of the product, none of which is known. The mark of a part says whether its pairs are
/// splits.
///
/// # Errors
/// [`OutOfMemory`] if there is not enough memory for the marks.
pub(crate) fn no_marks(alloc: Global, table: &PairTable) -> Result<Vec<Option<bool>>, OutOfMemory>
    ensures { IfOk result (λ v. v.items ≡ replicate (table.now.inner.states * table.now.inner.states) None) }
{
    let count = table.inner.states() as usize;
    let marks = vec![in alloc; None; count * count]?;
    Ok(marks)
}

/// Returns whether two states are a split. Either all pairs of a part are splits or none, so a part is searched only if
/// its mark in `marks` isn't known yet; the mark is then stored.
///
/// # Errors
/// [`OutOfMemory`] if there is not enough memory for the search.
pub(crate) fn is_split(
    g: &Multigraph,
    table: &PairTable,
    marks: &mut Vec<Option<bool>>,
    from: u32,
    to: u32,
) -> Result<bool, OutOfMemory>
    requires table { IsTable g.now table.now }
    requires no_twin { HasNoTwin (edges_of g.now) }
    requires marks { AreMarks g.now table.now marks.old.items }
    requires from_in { from < g.now.states }
    requires to_in { to < g.now.states }
    ensures split { IfOk result (λ b. IsTrue b ↔ HasSplit (edges_of g.now) from to) }
    ensures marks { OnOk result (AreMarks g.now table.now marks.new.items) }
{
    let pair = match pair_for(g, table, from, to) {
        Some(pair) => pair,
        None => return Ok(false),
    };
    let part = table.parts.of(pair) as usize;
    if let Some(known) = marks[part] {
        return Ok(known);
    }
    let alloc = *marks.allocator();
    let split = search_for(alloc, g, table, false, pair, from, to)?.is_some();
    marks[part] = Some(split);
    Ok(split)
}
