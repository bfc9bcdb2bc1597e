//! The pairs of states that may be splits. The graph of inner moves has the states on cycles (the kernel) and those of
//! their moves that stay within a component; its states are the places in the kernel. In the product of two copies of
//! it, the pair of the states `p` and `q` has the number `p * n + q`, where `n` is the number of states. A pair falls
//! if its second state is in a component with a smaller number than the first; only pairs that fall have moves. A part
//! is a strongly connected component of this product.

ghost use Rattle.std.specs.Prelude.{◌≡◌, ℕ, ◌<◌, ◌+◌, ◌*◌, ◌^◌, false, length, slice_index, MatchOption, IfOk, OnOk};
ghost use Rattle.rl_graph.specs.Graph.{edges_of};
ghost use Rattle.rl_graph.specs.Parts.{IsParts, number_of};
ghost use Rattle.rl_kernel.specs.Members.{is_member, IsPlace};
ghost use Rattle.rl_degree.specs.internal.Moves.{AreMoveTables};
ghost use Rattle.rl_degree.specs.internal.Pairs.{is_wanted, lists_of, row_of, HasOwnList, HaveOwnLists, IsOwnList, IsPut, IsBarePlaced, IsPlaced, IsWalked, IsTable};

use crate::falling::falling_parts;
use crate::hopeless::hopeless_rows;
use crate::kernel::kernel_of;
use crate::moves::move_tables;
use crate::reached::reached_rows;
use rl_graph::{Components, Multigraph, Parts};
use rl_kernel::{Kernel, inner_graph};
use rl_lanes::{BitRow, BitTable};
use rl_lists::{Items, OutOfMemory};
use std::alloc::Global;

/// The pairs that fall and lie on a cycle of the product, sorted by parts. `numbers` has, for each part, the index of
/// its list in `members`, and `places` has, for each pair, its index in the list of its part. The list 0 is empty, and
/// belongs to all parts without such a pair.
#[derive(Drop)]
pub(crate) struct Placed {
    pub(crate) numbers: Vec<u64>,
    pub(crate) members: Vec<Items<u64>>,
    pub(crate) places: Vec<u64>,
}

/// What the search for splits needs: the components of the graph, the components that each may reach, the kernel, the
/// graph of inner moves, the parts of its product, and the pairs of each part that may be splits. `hopeless` has, for
/// each component that has a state of the kernel, a row of the states that can't reach it; other rows are empty.
/// `moves` has a table of the graph's moves for each letter. It is empty for a letter without an inner move, and there
/// are no tables if no pair may be a split.
#[derive(Drop)]
pub(crate) struct PairTable {
    pub(crate) components: Components,
    pub(crate) reached: Vec<BitRow>,
    pub(crate) hopeless: Vec<BitRow>,
    pub(crate) kernel: Kernel,
    pub(crate) inner: Multigraph,
    pub(crate) parts: Parts,
    pub(crate) placed: Placed,
    pub(crate) moves: Vec<BitTable>,
}

/// Returns the number of the pair of the states `from` and `to` in a graph with `count` states: `from * count + to`.
pub(crate) fn pair_of(count: u64, from: u32, to: u32) -> u64
    requires { count < 2 ^ 32 }
    ensures { result ≡ from * count + to }
{
    u64::from(from) * count + u64::from(to)
}

impl PairTable {
    /// Returns the pairs of a part that may be splits.
    pub(crate) fn members_of(&self, part: u64) -> &[u64]
        requires { part < length self.now.placed.numbers.items }
        ensures { result.now ≡ row_of (lists_of self.now.placed) part }
    {
        let number = self.placed.numbers[part as usize] as usize;
        match self.placed.members.get(number) {
            Some(row) => row.as_slice(),
            None => &[],
        }
    }

    /// Returns the pair with the index `place` in the list of a part.
    pub(crate) fn pair_at(&self, part: u64, place: usize) -> u64
        requires part_in { part < length self.now.placed.numbers.items }
        requires place_in { place < length (row_of (lists_of self.now.placed) part) }
        ensures { result ≡ slice_index (row_of (lists_of self.now.placed) part) place }
    {
        let members = self.members_of(part);
        members[place]
    }

    /// Returns the index of a pair in the list of a part, or `None` if the list doesn't have the pair.
    pub(crate) fn place_in(&self, part: u64, pair: u64) -> Option<usize>
        requires part_in { part < length self.now.placed.numbers.items }
        requires pair_in { pair < length self.now.placed.places.items }
        ensures { MatchOption result (is_member (row_of (lists_of self.now.placed) part) self.now.placed.places.items pair ≡ false) (IsPlace (row_of (lists_of self.now.placed) part) self.now.placed.places.items pair) }
    {
        let members = self.members_of(part);
        let place = self.placed.places[pair as usize] as usize;
        if place < members.len() && members[place] == pair {
            Some(place)
        } else {
            None
        }
    }
}

/// Returns whether a pair falls and lies on a cycle of the product. A pair falls if its second state is in a component
/// with a smaller number than the first, so the first can't be reached from the second. `count` is the number of
/// states, and `levels` has the number of each state's component.
pub(crate) fn wanted(levels: &[u32], parts: &Parts, count: u64, pair: u64) -> bool
    requires pair_in { pair < count * count }
    requires few { count < 2 ^ 32 }
    requires levels_size { length levels.now ≡ count }
    requires parts_size { length parts.now.numbers ≡ count * count }
    ensures { result ≡ is_wanted levels.now parts.now count pair }
{
    parts.on_cycle(pair) && levels[(pair % count) as usize] < levels[(pair / count) as usize]
}

impl Placed {
    /// Returns the lists of `count` parts without a pair.
    fn new(alloc: Global, count: usize) -> Result<Placed, OutOfMemory>
        ensures { IfOk result (λ p. IsBarePlaced count (lists_of p)) }
    {
        let numbers = vec![in alloc; 0; count]?;
        let mut members = Vec::new(alloc);
        members.push(Items::new(alloc))?;
        let places = vec![in alloc; 0; count]?;
        Ok(Placed {
            numbers,
            members,
            places,
        })
    }

    /// Returns the index of a part's own list, which is made if the part still has the list 0.
    fn own_list(&mut self, alloc: Global, part: u64) -> Result<u64, OutOfMemory>
        requires part_in { part < length self.old.numbers.items }
        requires lists { HaveOwnLists (lists_of self.old) }
        ensures { IfOk result (λ number. IsOwnList part number (lists_of self.old) (lists_of self.new)) }
    {
        let number = self.numbers[part as usize];
        if number > 0 {
            return Ok(number);
        }
        let next = self.members.len() as u64;
        self.members.push(Items::new(alloc))?;
        self.numbers[part as usize] = next;
        Ok(next)
    }

    /// Appends a pair to the list of a part, and stores its place.
    fn put(&mut self, alloc: Global, part: u64, pair: u64) -> Result<(), OutOfMemory>
        requires part_in { part < length self.old.numbers.items }
        requires pair_in { pair < length self.old.places.items }
        requires lists { HaveOwnLists (lists_of self.old) }
        ensures { OnOk result (IsPut part pair (lists_of self.old) (lists_of self.new)) }
    {
        let number = self.own_list(alloc, part)?;
        let row = &mut self.members[number as usize];
        let place = row.len() as u64;
        row.push(pair)?;
        self.places[pair as usize] = place;
        Ok(())
    }
}

/// Returns the pairs that fall and lie on a cycle of the product, sorted by parts. `count` is the number of states.
fn placed_pairs(
    alloc: Global,
    levels: &[u32],
    parts: &Parts,
    count: u64,
) -> Result<Placed, OutOfMemory>
    requires few { count < 2 ^ 32 }
    requires levels_size { length levels.now ≡ count }
    requires parts_size { length parts.now.numbers ≡ count * count }
    requires parts_below { (x : ℕ) → x < count * count → number_of parts.now x < count * count }
    ensures { IfOk result (λ p. IsPlaced levels.now parts.now count (lists_of p)) }
{
    let pairs = count * count;
    let mut placed = Placed::new(alloc, pairs as usize)?;
    for pair in 0..pairs {
        if wanted(levels, parts, count, pair) {
            placed.put(alloc, parts.of(pair), pair)?;
        }
    }
    Ok(placed)
}

/// Returns the tables of moves for the letters, as [`move_tables`] makes them, or no tables if no pair falls and lies
/// on a cycle.
fn tables_for(
    alloc: Global,
    g: &Multigraph,
    inner: &Multigraph,
    placed: &Placed,
) -> Result<Vec<BitTable>, OutOfMemory>
    requires { inner.now.letters ≡ g.now.letters }
    ensures { IfOk result (λ v. HasOwnList (lists_of placed.now) → AreMoveTables g.now inner.now v.items) }
{
    if placed.members.len() > 1 {
        move_tables(alloc, g, inner)
    } else {
        Ok(Vec::new(alloc))
    }
}

/// The parts of the product of two copies of the graph of inner moves, the pairs of each part that may be splits, and
/// the tables of moves.
#[derive(Drop)]
struct Walked {
    parts: Parts,
    placed: Placed,
    moves: Vec<BitTable>,
}

/// Returns the fields of a [`PairTable`] that depend on the product of two copies of the graph of inner moves.
fn walked_of(
    alloc: Global,
    g: &Multigraph,
    inner: &Multigraph,
    levels: &[u32],
) -> Result<Walked, OutOfMemory>
    requires letters { inner.now.letters ≡ g.now.letters }
    requires size { length levels.now ≡ inner.now.states }
    ensures { IfOk result (IsWalked g.now inner.now levels.now) }
{
    let count = u64::from(inner.states());
    let parts = falling_parts(alloc, inner, levels)?;
    let placed = placed_pairs(alloc, levels, &parts, count)?;
    let moves = tables_for(alloc, g, inner, &placed)?;
    Ok(Walked {
        parts,
        placed,
        moves,
    })
}

/// Returns what the search for splits in a graph needs. `components` are the graph's strongly connected components.
///
/// # Errors
/// [`OutOfMemory`] if there is not enough memory for the table.
pub(crate) fn table_of(
    alloc: Global,
    g: &Multigraph,
    components: Components,
) -> Result<PairTable, OutOfMemory>
    requires parts { IsParts (edges_of g.now) g.now.states components }
    ensures { IfOk result (IsTable g.now) }
{
    let reached = reached_rows(alloc, g, &components)?;
    let kernel = kernel_of(alloc, &components, g.states())?;
    let hopeless = hopeless_rows(alloc, g, &components, &reached, &kernel.levels)?;
    let inner = inner_graph(alloc, g, &components, &kernel)?;
    let walked = walked_of(alloc, g, &inner, &kernel.levels)?;
    let Walked {
        parts,
        placed,
        moves,
    } = walked;
    Ok(PairTable {
        components,
        reached,
        hopeless,
        kernel,
        inner,
        parts,
        placed,
        moves,
    })
}
