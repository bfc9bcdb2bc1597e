//! Restricting a table of parts to the first states, and renumbering the parts so that the numbers stay below the
//! number of these states.

ghost use Rattle.std.specs.Prelude.{◌≡◌, ◌<◌, ◌≤◌, ℕ, length, IfOk};
ghost use Rattle.rl_graph.specs.Parts.{number_of};
ghost use Rattle.rl_graph.specs.internal.Dense.{AreUsed, AreRanks, AreRanked, AreCut, IsDense};

use crate::parts::Parts;
use rl_lists::OutOfMemory;
use std::alloc::Global;

/// Returns `size` flags, one for each part number. The flag is true if one of the states below `count` has that part
/// number.
fn used_marks(alloc: Global, parts: &Parts, size: u64, count: u64) -> Result<Vec<bool>, OutOfMemory>
    requires states { count ≤ length parts.now.numbers }
    requires below { (q : ℕ) → q < count → number_of parts.now q < size }
    ensures { IfOk result (λ v. AreUsed parts.now size count v.items) }
{
    let mut marks = vec![in alloc; false; size as usize]?;
    for state in 0..count {
        marks[parts.of(state) as usize] = true;
    }
    Ok(marks)
}

/// Returns, for each index of `marks`, the number of true marks before it.
fn ranks_of(alloc: Global, marks: &[bool]) -> Result<Vec<u64>, OutOfMemory>
    ensures { IfOk result (λ v. AreRanks marks.now (length marks.now) v.items) }
{
    let mut ranks = Vec::with_capacity(alloc, marks.len())?;
    let mut rank: u64 = 0;
    for mark in marks {
        ranks.push(rank)?;
        if *mark {
            rank += 1;
        }
    }
    Ok(ranks)
}

/// Returns, for each state below `count`, the entry of `ranks` for its part number.
fn ranked(alloc: Global, parts: &Parts, ranks: &[u64], count: u64) -> Result<Vec<u64>, OutOfMemory>
    requires states { count ≤ length parts.now.numbers }
    requires below { (q : ℕ) → q < count → number_of parts.now q < length ranks.now }
    ensures { IfOk result (λ v. AreRanked parts.now ranks.now count v.items) }
{
    let mut numbers = Vec::with_capacity(alloc, count as usize)?;
    for state in 0..count {
        numbers.push(ranks[parts.of(state) as usize])?;
    }
    Ok(numbers)
}

/// Returns, for each state below `count`, whether it lies on a cycle.
fn cycles_of(alloc: Global, parts: &Parts, count: u64) -> Result<Vec<bool>, OutOfMemory>
    requires states { count ≤ length parts.now.numbers }
    ensures { IfOk result (λ v. AreCut parts.now count v.items) }
{
    let mut cycles = Vec::with_capacity(alloc, count as usize)?;
    for state in 0..count {
        cycles.push(parts.on_cycle(state))?;
    }
    Ok(cycles)
}

/// Returns the table restricted to the states below `count`, with new part numbers: each becomes the number of smaller
/// part numbers among those states. All part numbers of those states must be less than `size`.
pub(crate) fn dense(
    alloc: Global,
    parts: &Parts,
    size: u64,
    count: u64,
) -> Result<Parts, OutOfMemory>
    requires states { count ≤ length parts.now.numbers }
    requires below { (q : ℕ) → q < count → number_of parts.now q < size }
    ensures { IfOk result (IsDense parts.now count) }
{
    let marks = used_marks(alloc, parts, size, count)?;
    let ranks = ranks_of(alloc, &marks)?;
    let numbers = ranked(alloc, parts, &ranks, count)?;
    let cycles = cycles_of(alloc, parts, count)?;
    Ok(Parts::new(numbers, cycles))
}
