//! Making certificates. A pair is a state of the automaton with a set: the states that were tried before it. A rest is a list
//! of letters followed by the end letter; a set refuses it if none of its members accepts it. A live pair is the first pair,
//! or a pair whose set refuses some rest and to which a live pair has a move. The live pairs are the states of a graph,
//! numbered from 0. A split is two different states with paths along one word from the first to itself, from the first to the
//! second, and from the second to itself. The rank of a state is the length of a longest chain of splits from it.

ghost use Rattle.std.specs.Prelude.{◌≡◌, ℕ, ◌+◌, ◌<◌, ◌≤◌, [], ◌∷◌, List, length, slice_index, IfOk, IfErr, OnOk};
ghost use Rattle.rl_graph.specs.Graph.{edges_of};
ghost use Rattle.rl_graph.specs.Parts.{IsParts};
ghost use Rattle.rl_graph.specs.Paths.{paths};
ghost use Rattle.rl_graph.specs.Twins.{HasNoTwin, IsTwin};
ghost use Rattle.rl_degree.specs.Chains.{links_of, HasNoCycle};
ghost use Rattle.rl_degree.specs.Leavers.{HasNoEqualSplit};
ghost use Rattle.rl_numbers.specs.Doubled.{AreDoubles};
ghost use Rattle.rl_numbers.specs.Least.{LeastTriple, AreMoreThan};
ghost use Rattle.rl_numbers.specs.Numbered.{AreTriples};
ghost use Rattle.rl_numbers.specs.declared.numbering.TheConstants.{MOST_TRIPLES};
ghost use Rattle.rl_pairs.specs.PairTable.{moves_in, pair_in};
ghost use Rattle.rl_growth.specs.Questions.{StandsForSome, IsLed};
ghost use Rattle.rl_growth.specs.Routes.{state_after, IsRoute, IsLongest};
ghost use Rattle.rl_growth.specs.FamilyWords.{IsChainWords, IsTwinWords};
ghost use Rattle.rl_pairs.specs.Families.{Spells};
ghost use Rattle.rl_cert.specs.Ways.{chain_anchors};
ghost use Rattle.rl_cert.specs.internal.Made.{IsMade, IsLarge};
ghost use Rattle.rl_syntax.specs.Tree.{tree_of, size, IsOver};
ghost use Rattle.rl_syntax.specs.declared.limits.TheConstants.{MOST_MOVES};
ghost use Rattle.rl_syntax.specs.declared.verdict.Limit.{Limit};
ghost use Rattle.rl_ranges.specs.Text.{code_count};
ghost use Rattle.rl_ranges.specs.declared.letters.TheConstants.{MOST_LETTERS};
ghost use Rattle.rl_prio.specs.Items.{longest};
ghost use Rattle.rl_prio.specs.Letters.{letters};
ghost use Rattle.rl_prio.specs.StandsFor.{StandsFor};
ghost use Rattle.rl_syntax.specs.declared.limits.TheConstants.{MOST_PAIRS};
ghost use Rattle.rl_pairs.specs.RightVerdict.{IsNamed};
ghost use Rattle.rl_cert.specs.Form.{IsDecided};
ghost use Rattle.rl_cert.specs.Holds.{Holds, question_of};
ghost use Rattle.rl_cert.specs.TooLarge.{IsTooLarge};

use crate::certificate::{Anchor, Anchors, Certificate};
use rl_degree::{Chain, Loop, Split, degree_over};
use rl_expo::{TwinPaths, twin_over};
use rl_graph::{Components, Multigraph};
use rl_growth::spelling::family_of;
use rl_growth::words::{chain_words, twin_words};
use rl_lists::{Items, OutOfMemory, Ranks};
use rl_numbers::double::Doubles;
use rl_numbers::triple::Triples;
use rl_numbers::{TriplesError, doubles_of, triples_of};
use rl_pairs::{PairGraph, PairsError, pairs};
use rl_prio::{Prio, PrioError};
use rl_syntax::{Family, Limit, Lowered, MOST_NODES, Universe, Verdict};
use std::alloc::Global;

/// The reason why no certificate is made. A triple is three states of the graph of live pairs with the same rank. The least
/// closed list of triples has `(r, r, q)` for all different states `r` and `q` of the same rank that lie on cycles, and all
/// triples that moves of the three states on the same letters, to states of the same rank, lead to from these.
#[derive(Clone, Copy, Debug, PartialEq, Eq)]
pub enum CertError {
    /// This limit is exceeded.
    Undecided(Limit),
    /// The degree is 1 or more, and the least closed list of triples has more than 1,000,000 of them.
    TooLarge,
    /// Out of memory.
    OutOfMemory,
}

impl From<OutOfMemory> for CertError {
    ghost use Rattle.rl_cert.specs.declared.making.CertError.TheVariants as error;

    ghost from_gives = { λ _ e. e ≡ error.OutOfMemory };

    fn from(_: OutOfMemory) -> Self {
        CertError::OutOfMemory
    }
}

/// Returns the family of a twin.
fn twin_family(
    alloc: Global,
    a: &Prio,
    g: &PairGraph,
    twin: &TwinPaths,
) -> Result<Family, OutOfMemory>
    requires stands { StandsForSome a.now }
    requires led { IsLed a.now g.now }
    requires state_in { twin.now.state < g.now.graph.states }
    requires twin { IsTwin (moves_in g.now) twin.now.state twin.now.word twin.now.first twin.now.second }
    ensures { IfOk result (λ f. (heads pumps : List (List ℕ))
        × IsTwinWords a.now (moves_in g.now) (pair_in g.now) twin.now.state heads pumps × Spells a.now f heads pumps) }
{
    let words = twin_words(alloc, g, twin)?;
    let family = family_of(alloc, a, &words);
    drop(words);
    family
}

/// Returns a list with one anchor, for a state with a loop.
fn one_anchor(alloc: Global, state: u32) -> Result<Anchors, OutOfMemory>
    ensures { IfOk result (λ l. l ≡ chain_anchors [] state) }
{
    let mut anchors = Items::new(alloc);
    anchors.push(Anchor { r: state, q: state })?;
    Ok(anchors)
}

/// Makes the certificate of a graph of live pairs that has a twin: one anchor, the word that leads to it, and the word of the
/// twin.
fn exponential(
    alloc: Global,
    a: &Prio,
    g: &PairGraph,
    twin: &TwinPaths,
) -> Result<Certificate, CertError>
    requires stands { StandsForSome a.now }
    requires led { IsLed a.now g.now }
    requires state_in { twin.now.state < g.now.graph.states }
    requires twin { IsTwin (moves_in g.now) twin.now.state twin.now.word twin.now.first twin.now.second }
    ensures made { IfOk result (IsMade a.now g.now) }
    ensures told { (limit : Limit) → result ≡ Err (CertError.Undecided limit) → ⊥ }
    ensures too_large { result ≡ Err CertError.TooLarge → IsLarge a.now g.now }
{
    let anchors = one_anchor(alloc, twin.state)?;
    let family = twin_family(alloc, a, g, twin)?;
    Ok(Certificate {
        verdict: Verdict::Expo(family),
        anchors,
        ranks: Items::new(alloc),
        doubles: Items::new(alloc),
        triples: Items::new(alloc),
    })
}

/// Returns the family with one empty head and no pump.
fn flat_family(alloc: Global) -> Result<Family, OutOfMemory>
    ensures heads { IfOk result (λ f. f.heads ≡ [] ∷ []) }
    ensures pumps { IfOk result (λ f. f.pumps ≡ []) }
{
    let mut heads = Items::new(alloc);
    heads.push(Items::new(alloc))?;
    Ok(Family {
        heads,
        pumps: Items::new(alloc),
    })
}

/// Makes the certificate of a graph of live pairs that has no cycle.
fn flat(alloc: Global, a: &Prio, g: &PairGraph) -> Result<Certificate, OutOfMemory>
    requires no_cycle { HasNoCycle (moves_in g.now) }
    ensures { IfOk result (IsMade a.now g.now) }
{
    let family = flat_family(alloc)?;
    Ok(Certificate {
        verdict: Verdict::Degree(0, family),
        anchors: Items::new(alloc),
        ranks: Items::new(alloc),
        doubles: Items::new(alloc),
        triples: Items::new(alloc),
    })
}

/// Returns the end of the last split, or `alone` if there are no splits.
fn state_behind(splits: &[Split], alone: u32) -> u32
    ensures { result ≡ state_after splits.now alone }
{
    if splits.is_empty() {
        return alone;
    }
    splits[splits.len() - 1].to
}

/// Returns the anchors of a chain of splits that ends on a cycle: at the end of its last split, or at the state `alone` if
/// there are no splits.
fn anchors_of(alloc: Global, splits: &[Split], alone: u32) -> Result<Anchors, OutOfMemory>
    ensures { IfOk result (λ l. l ≡ chain_anchors (links_of splits.now) (state_after splits.now alone)) }
{
    let last = state_behind(splits, alone);
    let mut anchors = Items::new(alloc);
    for place in 0..splits.len() {
        let split = &splits[place];
        anchors.push(Anchor {
            r: split.from,
            q: split.to,
        })?;
    }
    anchors.push(Anchor { r: last, q: last })?;
    Ok(anchors)
}

/// Returns the family of a chain of splits that ends on a cycle.
fn chain_family(
    alloc: Global,
    a: &Prio,
    g: &PairGraph,
    splits: &[Split],
    cycle: &Loop,
) -> Result<Family, OutOfMemory>
    requires stands { StandsForSome a.now }
    requires led { IsLed a.now g.now }
    requires route { IsRoute (moves_in g.now) g.now.graph.states splits.now }
    requires state_in { cycle.now.state < g.now.graph.states }
    requires some { 1 ≤ length cycle.now.word }
    requires cycle { 1 ≤ paths (moves_in g.now) cycle.now.state cycle.now.state cycle.now.word }
    ensures { IfOk result (λ f. (heads pumps : List (List ℕ))
        × IsChainWords a.now (moves_in g.now) (pair_in g.now) splits.now cycle.now.state heads pumps × Spells a.now f heads pumps) }
{
    let words = chain_words(alloc, g, splits, cycle)?;
    let family = family_of(alloc, a, &words);
    drop(words);
    family
}

/// Returns the anchors and the ranks of a chain that ends on a cycle, which is at the state `alone` if the chain has no
/// splits.
fn places_of(alloc: Global, chain: &Chain, alone: u32) -> Result<(Anchors, Ranks), OutOfMemory>
    ensures anchors { IfOk result (λ p. p.0 ≡ chain_anchors (links_of chain.now.links) (state_after chain.now.links alone)) }
    ensures ranks { IfOk result (λ p. p.1 ≡ chain.now.ranks) }
{
    let anchors = anchors_of(alloc, chain.links.as_slice(), alone)?;
    let ranks = Items::from_slice(alloc, chain.ranks.as_slice())?;
    Ok((anchors, ranks))
}

/// Returns the doubles and the triples of a graph with the given ranks, which exclude a twin and a split between states of the
/// same rank.
fn numbers_of(alloc: Global, g: &Multigraph, ranks: &[u32]) -> Result<(Doubles, Triples), CertError>
    requires few_states { g.now.states < 65536 }
    requires no_twin { HasNoTwin (edges_of g.now) }
    requires size { length ranks.now ≡ g.now.states }
    requires no_split { HasNoEqualSplit (edges_of g.now) g.now.states (slice_index ranks.now) }
    ensures doubles { IfOk result (λ n. AreDoubles (edges_of g.now) g.now.states n.0) }
    ensures triples { IfOk result (λ n. AreTriples (edges_of g.now) g.now.states (slice_index ranks.now) n.1) }
    ensures few { OnOk result (AreMoreThan MOST_TRIPLES (LeastTriple (edges_of g.now) g.now.states (slice_index ranks.now)) → ⊥) }
    ensures told { IfErr result (λ e. (limit : Limit) → e ≡ CertError.Undecided limit → ⊥) }
    ensures too_many { IfErr result (λ e. e ≡ CertError.TooLarge → AreMoreThan MOST_TRIPLES (LeastTriple (edges_of g.now) g.now.states (slice_index ranks.now))) }
{
    let triples = match triples_of(alloc, g, ranks) {
        Ok(triples) => triples,
        Err(TriplesError::TooMany) => return Err(CertError::TooLarge),
        Err(TriplesError::OutOfMemory) => return Err(CertError::OutOfMemory),
    };
    let doubles = doubles_of(alloc, g)?;
    Ok((doubles, triples))
}

/// Makes the certificate of a longest chain of splits that ends on a cycle.
fn graded(
    alloc: Global,
    a: &Prio,
    g: &PairGraph,
    chain: &Chain,
    cycle: &Loop,
) -> Result<Certificate, CertError>
    requires stands { StandsForSome a.now }
    requires led { IsLed a.now g.now }
    requires no_twin { HasNoTwin (moves_in g.now) }
    requires longest { IsLongest (moves_in g.now) g.now.graph.states chain.now }
    requires state_in { cycle.now.state < g.now.graph.states }
    requires some { 1 ≤ length cycle.now.word }
    requires cycle { 1 ≤ paths (moves_in g.now) cycle.now.state cycle.now.state cycle.now.word }
    ensures made { IfOk result (IsMade a.now g.now) }
    ensures told { (limit : Limit) → result ≡ Err (CertError.Undecided limit) → ⊥ }
    ensures too_large { result ≡ Err CertError.TooLarge → IsLarge a.now g.now }
{
    let splits = chain.links.as_slice();
    let family = chain_family(alloc, a, g, splits, cycle)?;
    let power = splits.len() as u32 + 1;
    let Ok((anchors, ranks)) = places_of(alloc, chain, cycle.state) else {
        drop(family);
        return Err(CertError::OutOfMemory);
    };
    let (doubles, triples) = match numbers_of(alloc, g.graph(), chain.ranks.as_slice()) {
        Ok(numbers) => numbers,
        Err(error) => {
            drop(family);
            return Err(error);
        }
    };
    Ok(Certificate {
        verdict: Verdict::Degree(power, family),
        anchors,
        ranks,
        doubles,
        triples,
    })
}

/// Makes the certificate of a graph of live pairs that has no twin, given its components.
fn polynomial(
    alloc: Global,
    a: &Prio,
    g: &PairGraph,
    components: Components,
) -> Result<Certificate, CertError>
    requires stands { StandsForSome a.now }
    requires led { IsLed a.now g.now }
    requires parts { IsParts (moves_in g.now) g.now.graph.states components }
    requires no_twin { HasNoTwin (moves_in g.now) }
    ensures made { IfOk result (IsMade a.now g.now) }
    ensures told { (limit : Limit) → result ≡ Err (CertError.Undecided limit) → ⊥ }
    ensures too_large { result ≡ Err CertError.TooLarge → IsLarge a.now g.now }
{
    let chain = degree_over(alloc, g.graph(), components)?;
    match &chain.cycle {
        None => {
            drop(chain);
            let certificate = flat(alloc, a, g)?;
            Ok(certificate)
        }
        Some(cycle) => {
            let certificate = graded(alloc, a, g, &chain, cycle);
            drop(chain);
            certificate
        }
    }
}

/// Makes the certificate of a graph of live pairs, given its components.
fn made_by(
    alloc: Global,
    a: &Prio,
    g: &PairGraph,
    components: Components,
) -> Result<Certificate, CertError>
    requires stands { StandsForSome a.now }
    requires led { IsLed a.now g.now }
    requires parts { IsParts (moves_in g.now) g.now.graph.states components }
    ensures made { IfOk result (IsMade a.now g.now) }
    ensures told { (limit : Limit) → result ≡ Err (CertError.Undecided limit) → ⊥ }
    ensures too_large { result ≡ Err CertError.TooLarge → IsLarge a.now g.now }
{
    match twin_over(alloc, g.graph(), &components) {
        Ok(Some(twin)) => {
            drop(components);
            let certificate = exponential(alloc, a, g, &twin);
            drop(twin);
            certificate
        }
        Ok(None) => polynomial(alloc, a, g, components),
        Err(OutOfMemory) => {
            drop(components);
            Err(CertError::OutOfMemory)
        }
    }
}

/// Makes the certificate of a graph of live pairs. The components are computed once and used by both searches.
fn made(alloc: Global, a: &Prio, g: &PairGraph) -> Result<Certificate, CertError>
    requires stands { StandsForSome a.now }
    requires led { IsLed a.now g.now }
    ensures made { IfOk result (IsMade a.now g.now) }
    ensures told { (limit : Limit) → result ≡ Err (CertError.Undecided limit) → ⊥ }
    ensures too_large { result ≡ Err CertError.TooLarge → IsLarge a.now g.now }
{
    let components = g.graph().components()?;
    made_by(alloc, a, g, components)
}

/// Makes the certificate for a tree for which an automaton stands.
fn made_over(
    alloc: Global,
    l: &Lowered,
    u: Universe,
    a: &Prio,
    max_pairs: u32,
) -> Result<Certificate, CertError>
    requires some { 1 ≤ max_pairs }
    requires few { max_pairs ≤ MOST_PAIRS }
    requires small { size (tree_of l.now.tree) ≤ MOST_NODES }
    requires stands { StandsFor a.now (tree_of l.now.tree) l.now.ending }
    requires codes { a.now.table.codes ≡ code_count u }
    requires within { (length (letters (tree_of l.now.tree) (code_count u)) ≤ MOST_LETTERS) × (longest (tree_of l.now.tree) ≤ MOST_MOVES) }
    ensures holds { IfOk result (Holds (question_of l.now u max_pairs)) }
    ensures told { IfOk result (λ c. IsDecided c.verdict) }
    ensures fits { IfOk result (λ c. IsTooLarge (question_of l.now u max_pairs) → ⊥) }
    ensures undecided { IfErr result (λ e. (limit : Limit) → e ≡ CertError.Undecided limit → IsNamed (question_of l.now u max_pairs) limit) }
    ensures too_large { IfErr result (λ e. e ≡ CertError.TooLarge → IsTooLarge (question_of l.now u max_pairs)) }
{
    // Reading the number of states tells the prover that the automaton is well formed.
    let _states = a.states();
    match pairs(alloc, a, max_pairs) {
        Ok(g) => {
            let certificate = made(alloc, a, &g);
            drop(g);
            certificate
        }
        Err(PairsError::Sets) => Err(CertError::Undecided(Limit::Sets)),
        Err(PairsError::Pairs) => Err(CertError::Undecided(Limit::Pairs)),
        Err(PairsError::OutOfMemory) => Err(CertError::OutOfMemory),
    }
}

/// Makes the certificate for a tree that is within the limit on its size.
fn made_small(
    alloc: Global,
    l: &Lowered,
    u: Universe,
    max_pairs: u32,
) -> Result<Certificate, CertError>
    requires some { 1 ≤ max_pairs }
    requires few { max_pairs ≤ MOST_PAIRS }
    requires inside { IsOver u (tree_of l.now.tree) }
    requires small { size (tree_of l.now.tree) ≤ MOST_NODES }
    ensures holds { IfOk result (Holds (question_of l.now u max_pairs)) }
    ensures told { IfOk result (λ c. IsDecided c.verdict) }
    ensures fits { IfOk result (λ c. IsTooLarge (question_of l.now u max_pairs) → ⊥) }
    ensures undecided { IfErr result (λ e. (limit : Limit) → e ≡ CertError.Undecided limit → IsNamed (question_of l.now u max_pairs) limit) }
    ensures too_large { IfErr result (λ e. e ≡ CertError.TooLarge → IsTooLarge (question_of l.now u max_pairs)) }
{
    match Prio::build(alloc, &l.tree, l.ending, u) {
        Ok(a) => {
            let certificate = made_over(alloc, l, u, &a, max_pairs);
            drop(a);
            certificate
        }
        Err(PrioError::Letters) => Err(CertError::Undecided(Limit::Letters)),
        Err(PrioError::Moves) => Err(CertError::Undecided(Limit::Moves)),
        Err(PrioError::OutOfMemory) => Err(CertError::OutOfMemory),
    }
}

/// Returns a certificate for a lowered pattern, over the texts of the universe `u`, with at most `max_pairs` live pairs. It
/// holds, and its verdict, a degree or exponential growth, is right. `max_pairs` must be from 1 to
/// [`MOST_PAIRS`](rl_syntax::MOST_PAIRS), and the sets of the pattern must have only codes of the universe.
///
/// # Errors
/// [`CertError::Undecided`], with the limit, if a limit is exceeded; [`CertError::TooLarge`] if no limit is exceeded, the
/// degree is 1 or more and the least closed list of triples has more than 1,000,000 triples; [`CertError::OutOfMemory`] if
/// there is not enough memory for the automaton, the graph, its products or the certificate.
pub fn make(
    alloc: Global,
    l: &Lowered,
    u: Universe,
    max_pairs: u32,
) -> Result<Certificate, CertError>
    requires some { 1 ≤ max_pairs }
    requires few { max_pairs ≤ MOST_PAIRS }
    requires inside { IsOver u (tree_of l.now.tree) }
    ensures holds { IfOk result (Holds (question_of l.now u max_pairs)) }
    ensures told { IfOk result (λ c. IsDecided c.verdict) }
    ensures fits { IfOk result (λ c. IsTooLarge (question_of l.now u max_pairs) → ⊥) }
    ensures undecided { IfErr result (λ e. (limit : Limit) → e ≡ CertError.Undecided limit → IsNamed (question_of l.now u max_pairs) limit) }
    ensures too_large { IfErr result (λ e. e ≡ CertError.TooLarge → IsTooLarge (question_of l.now u max_pairs)) }
{
    if l.tree.nodes() > MOST_NODES {
        return Err(CertError::Undecided(Limit::Size));
    }
    made_small(alloc, l, u, max_pairs)
}
