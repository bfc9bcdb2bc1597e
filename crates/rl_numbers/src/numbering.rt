//! Making the lists of doubles and of triples, which are pairs and triples of states with a number. In a graph with `n`
//! states, the code of the double of `p` and `q` is `p * n + q`, and the code of the triple of `p`, `q` and `r` is
//! `(p * n + q) * n + r`. A part is a strongly connected component. A twin is a state with two different paths to
//! itself along one word, and a split is two different states `r` and `q` with paths from `r` to `r`, from `r` to `q`
//! and from `q` to `q` along one word. `ranks` gives each state a number, its rank.

ghost use Rattle.std.specs.Prelude.{◌≡◌, ℕ, ◌*◌, ◌<◌, ◌≤◌, All, length, slice_index, IfOk, OnOk, IfErr};
ghost use Rattle.rl_graph.specs.Graph.{edges_of};
ghost use Rattle.rl_graph.specs.Paths.{Each};
ghost use Rattle.rl_graph.specs.Twins.{HasNoTwin};
ghost use Rattle.rl_degree.specs.Leavers.{HasNoEqualSplit};
ghost use Rattle.rl_numbers.specs.Doubled.{AreDoubles};
ghost use Rattle.rl_numbers.specs.Least.{LeastTriple, AreMoreThan};
ghost use Rattle.rl_numbers.specs.Level.{IsLevelOf};
ghost use Rattle.rl_numbers.specs.Numbered.{AreTriples};
ghost use Rattle.rl_numbers.specs.Reached.{IsReached, IsReach, AreMore};
ghost use Rattle.rl_numbers.specs.Starts.{AreStartsUpTo};
ghost use Rattle.rl_numbers.specs.internal.ReachedDoubles.{AreReachedDoubles};
ghost use Rattle.rl_numbers.specs.internal.ReachedTriples.{AreReachedTriples};
ghost use Rattle.rl_graph.specs.Parts.{PartTable, IsParts, cycle_of};
ghost use Rattle.rl_numbers.specs.Triples.{triple_moves};
ghost use Rattle.rl_numbers.specs.declared.numbering.TheConstants.{MOST_TRIPLES};

use crate::among::Among;
use crate::diagonal::{diagonal, listed_doubles};
use crate::double::Doubles;
use crate::level::{Level, Thrice};
use crate::leveling::level_graph;
use crate::listing::listed;
use crate::reach::{ReachError, reached};
use crate::starts::starts_of;
use crate::triple::Triples;
use indexmap::IndexSet;
use rl_graph::{Multigraph, Twice, parts_of, product_parts};
use rl_lists::OutOfMemory;
use std::alloc::Global;

/// The largest number of triples in a list that [`triples_of`] returns.
pub const MOST_TRIPLES: usize = 1_000_000;

/// Does nothing: its contract states the value of the limit, 1,000,000 triples.
pub fn limits_are()
    ensures triples { MOST_TRIPLES ≡ 1000000 }
{}

/// The reason why [`triples_of`] returns no list.
#[derive(Clone, Copy)]
pub enum TriplesError {
    /// The list would have more than 1,000,000 triples: all that are reached from the triples `(r, r, q)` of different
    /// states of equal rank on cycles.
    TooMany,
    /// There is not enough memory.
    OutOfMemory,
}

impl From<OutOfMemory> for TriplesError {
    ghost use Rattle.rl_numbers.specs.declared.numbering.TriplesError.TheVariants as error;

    ghost from_gives = { λ _ e. e ≡ error.OutOfMemory };

    fn from(_: OutOfMemory) -> Self {
        TriplesError::OutOfMemory
    }
}

/// Returns the doubles that are reached from the doubles with the codes `starts` in the product of the graph with
/// itself, each with the number of its part.
fn doubles_by(alloc: Global, g: &Multigraph, starts: &[u64]) -> Result<Doubles, OutOfMemory>
    requires few_states { g.now.states < 65536 }
    requires starts { All (λ s. s < g.now.states * g.now.states) starts.now }
    ensures { IfOk result (AreReachedDoubles g.now starts.now) }
{
    let states = g.states();
    // The search can't find more than `usize::MAX` doubles, so it fails only if memory runs out.
    let Ok(keys) = reached(alloc, &Twice { graph: g }, starts, usize::MAX) else {
        return Err(OutOfMemory);
    };
    let parts = product_parts(alloc, g)?;
    listed_doubles(alloc, states, &keys, &parts)
}

/// Returns a list of doubles that shows that a graph has no twin: all pairs of states that are reached from a pair of a
/// state with itself in the product of the graph with itself, including these pairs, each once, with the number of its
/// part in that product. The graph must have no twin and fewer than 65,536 states. If it has no states, the list is
/// empty.
///
/// # Errors
/// [`OutOfMemory`] if there is not enough memory for the search or the doubles.
pub fn doubles_of(alloc: Global, g: &Multigraph) -> Result<Doubles, OutOfMemory>
    requires few_states { g.now.states < 65536 }
    requires no_twin { HasNoTwin (edges_of g.now) }
    ensures { IfOk result (λ l. AreDoubles (edges_of g.now) g.now.states l) }
{
    let states = g.states();
    // Reading the number of letters tells the prover that it fits in 32 bits.
    let _letters = g.letters();
    let starts = diagonal(alloc, states)?;
    doubles_by(alloc, g, &starts)
}

/// Returns the graph of the moves that lead to states of the same rank. `ranks` has the rank of each state.
fn level(alloc: Global, g: &Multigraph, ranks: &[u32]) -> Result<Level, OutOfMemory>
    requires few_states { g.now.states < 65536 }
    requires size { length ranks.now ≡ g.now.states }
    ensures level { IfOk result (λ h. IsLevelOf (edges_of g.now) g.now.states (slice_index ranks.now) h) }
    ensures letters { IfOk result (λ h. h.letters ≡ g.now.letters) }
{
    let graph = level_graph(alloc, g, ranks)?;
    Ok(Level::of(graph))
}

/// Returns the codes of the triples that are reached from the triples with the codes `starts`, each once. The error is
/// [`TriplesError::TooMany`] if there are more than [`MOST_TRIPLES`].
fn keys_of(alloc: Global, level: &Level, starts: &[u64]) -> Result<IndexSet<u64>, TriplesError>
    requires { All (λ s. s < level.now.states * level.now.states * level.now.states) starts.now }
    ensures reach { IfOk result (λ keys. IsReach (triple_moves (edges_of level.now) level.now.states) starts.now keys.keys) }
    ensures few { IfOk result (λ keys. length keys.keys ≤ MOST_TRIPLES) }
    ensures inside { IfOk result (λ keys. Each (λ x. x < level.now.states * level.now.states * level.now.states) keys.keys) }
    ensures too_many { IfErr result (λ e. e ≡ TriplesError.TooMany → AreMore MOST_TRIPLES (IsReached (triple_moves (edges_of level.now) level.now.states) starts.now)) }
{
    match reached(alloc, &Thrice { level }, starts, MOST_TRIPLES) {
        Ok(keys) => Ok(keys),
        Err(ReachError::TooMany) => Err(TriplesError::TooMany),
        Err(ReachError::OutOfMemory) => Err(TriplesError::OutOfMemory),
    }
}

/// Returns the codes of the starts: the triples `(r, r, q)` of different states that have the same rank and lie on
/// cycles.
fn first_triples(alloc: Global, g: &Multigraph, ranks: &[u32]) -> Result<Vec<u64>, OutOfMemory>
    requires few_states { g.now.states < 65536 }
    requires size { length ranks.now ≡ g.now.states }
    ensures { IfOk result (λ v. (components : PartTable) × IsParts (edges_of g.now) g.now.states components
        × AreStartsUpTo g.now.states (slice_index ranks.now) (cycle_of components) g.now.states 0 v.items) }
{
    let components = g.components()?;
    starts_of(alloc, g.states(), ranks, &components)
}

/// Returns the triples that are reached from the triples with the codes `starts`, each with the number of its part in
/// the graph of these triples. The error is [`TriplesError::TooMany`] if there are more than [`MOST_TRIPLES`].
fn triples_from(alloc: Global, level: &Level, starts: &[u64]) -> Result<Triples, TriplesError>
    requires { All (λ s. s < level.now.states * level.now.states * level.now.states) starts.now }
    ensures triples { IfOk result (AreReachedTriples level.now starts.now) }
    ensures too_many { IfErr result (λ e. e ≡ TriplesError.TooMany → AreMore MOST_TRIPLES (IsReached (triple_moves (edges_of level.now) level.now.states) starts.now)) }
{
    let states = level.graph().states();
    let keys = keys_of(alloc, level, starts)?;
    let parts = parts_of(alloc, &Among { level, keys: &keys })?;
    let triples = listed(alloc, states, &keys, &parts)?;
    Ok(triples)
}

/// Returns a list of triples that shows that a graph has no split between states of the same rank, provided that ranks
/// never rise along a move: the triples that are reached from all `(r, r, q)` of different states of equal rank on
/// cycles, by moves of all three states on one letter to states of that rank, each once. The number of a triple is the
/// number of its part in the graph of these triples, in which each `(p, q, q)` also has a move to `(p, p, q)`. `g` must
/// have no split between states of the same rank and fewer than 65,536 states. `ranks` must have one rank for each
/// state.
///
/// # Errors
/// [`TriplesError::TooMany`] if more than 1,000,000 triples are reached; [`TriplesError::OutOfMemory`] if there is not
/// enough memory for the search or the triples.
pub fn triples_of(alloc: Global, g: &Multigraph, ranks: &[u32]) -> Result<Triples, TriplesError>
    requires few_states { g.now.states < 65536 }
    requires size { length ranks.now ≡ g.now.states }
    requires no_split { HasNoEqualSplit (edges_of g.now) g.now.states (slice_index ranks.now) }
    ensures triples { IfOk result (λ l. AreTriples (edges_of g.now) g.now.states (slice_index ranks.now) l) }
    ensures few { OnOk result (AreMoreThan MOST_TRIPLES (LeastTriple (edges_of g.now) g.now.states (slice_index ranks.now)) → ⊥) }
    ensures too_many { IfErr result (λ e. e ≡ TriplesError.TooMany → AreMoreThan MOST_TRIPLES (LeastTriple (edges_of g.now) g.now.states (slice_index ranks.now))) }
{
    // Reading these numbers makes it known that the graph is well formed.
    let _read = (g.states(), g.letters());
    let starts = first_triples(alloc, g, ranks)?;
    let level = level(alloc, g, ranks)?;
    triples_from(alloc, &level, &starts)
}
