//! Row numbers: equal rows of a multigraph mostly have the same number.

ghost use Rattle.std.specs.Prelude.{◌*◌, IfOk, OnOk, IfSome};
ghost use Rattle.rl_graph.specs.internal.Halves.{AreMore, AreNumbered, IsOwned};

use crate::graph::Multigraph;
use indexmap::IndexMap;
use rl_lists::OutOfMemory;
use std::alloc::Global;

/// The factor by which [`hash_of`] multiplies the hash after each target.
const MIXER: u64 = 0x9e37_79b9_7f4a_7c15;

/// The row numbers of a graph. `numbers` has a number for each row, at the row's index: the row of the state `q` and
/// the letter `l` has the index `q * letters + l`. `owners` has, for each row number, the index of a row with that
/// number. Rows with the same number are equal.
#[derive(Drop)]
pub(crate) struct Rows {
    pub(crate) numbers: Vec<u64>,
    pub(crate) owners: Vec<u64>,
}

/// Returns a hash of the targets of a row. Equal rows have equal hashes.
fn hash_of(row: &[u32]) -> u64 {
    let mut hash: u64 = 1;
    for target in row {
        hash = (hash ^ u64::from(*target)).wrapping_mul(MIXER);
    }
    hash
}

/// Returns `number` if its owner is a row that equals the row with the index `place`, and `None` otherwise or if
/// `number` is `None`.
fn checked(g: &Multigraph, owners: &[u64], number: Option<u64>, place: u64) -> Option<u64>
    ensures { IfSome result (IsOwned g.now owners.now place) }
{
    let number = number?;
    let owner = owners.get(number as usize).copied()?;
    if g.row(owner) == g.row(place) {
        Some(number)
    } else {
        None
    }
}

/// Returns the number of the row with the index `place`: the number of an equal row before it, or a new one. `kept` has
/// only the last number given to a row with each hash, so equal rows can get different numbers.
fn number_of(
    g: &Multigraph,
    owners: &mut Vec<u64>,
    kept: &mut IndexMap<u64, u64>,
    place: u64,
) -> Result<u64, OutOfMemory>
    ensures owned { IfOk result (IsOwned g.now owners.new.items place) }
    ensures more { OnOk result (AreMore owners.old.items owners.new.items) }
{
    let hash = hash_of(g.row(place));
    if let Some(number) = checked(g, owners, kept.get(&hash).copied(), place) {
        return Ok(number);
    }
    let number = owners.len() as u64;
    kept.insert(hash, number)?;
    owners.push(place)?;
    Ok(number)
}

/// Returns the row numbers of a graph.
pub(crate) fn rows_of(alloc: Global, g: &Multigraph) -> Result<Rows, OutOfMemory>
    ensures { IfOk result (λ r. AreNumbered g.now (g.now.states * g.now.letters) r.numbers.items r.owners.items) }
{
    let mut numbers = Vec::new(alloc);
    let mut owners = Vec::new(alloc);
    let mut kept = IndexMap::new(alloc);
    for place in 0..g.row_count() {
        let number = number_of(g, &mut owners, &mut kept, place)?;
        numbers.push(number)?;
    }
    Ok(Rows { numbers, owners })
}
