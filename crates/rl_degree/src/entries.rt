//! The letters on which moves lead to each state of a graph, as the bits of one number for each state. The letter `l`
//! has the bit `l % 64`, so letters whose difference is a multiple of 64 share a bit.

ghost use Rattle.std.specs.Prelude.{◌≡◌, ℕ, ◌<◌, ◌+◌, ◌%◌, All, length, IfOk};
ghost use Rattle.std.specs.Int.{bit_at};
ghost use Rattle.rl_graph.specs.Paths.{Has};
ghost use Rattle.rl_degree.specs.internal.Entries.{HasLetter, KeepsLetters, AreEntries, AreEntriesUpTo};

use rl_graph::Multigraph;
use rl_lists::OutOfMemory;
use std::alloc::Global;

/// Returns `word` with the bit of `letter` set.
fn with_letter(word: u64, letter: u32) -> u64
    ensures set { bit_at result (letter % 64) ≡ 1 }
    ensures kept { (k : ℕ) → bit_at word k ≡ 1 → bit_at result k ≡ 1 }
{
    let bit = letter % 64;
    word | (1 << bit)
}

/// Sets the bit of `letter` in the entry of each target.
fn mark_targets(entries: &mut Vec<u64>, targets: &[u32], letter: u32)
    requires { All (λ target. target < length entries.old.items) targets.now }
    ensures size { length entries.new.items ≡ length entries.old.items }
    ensures kept { KeepsLetters entries.old.items entries.new.items }
    ensures marked { (q : ℕ) → Has q targets.now → HasLetter entries.new.items q letter }
{
    for place in 0..targets.len() {
        let target = targets[place] as usize;
        entries[target] = with_letter(entries[target], letter);
    }
}

/// Sets the bits of all moves of a state: for each move, the bit of its letter in the entry of its target.
fn mark_moves(entries: &mut Vec<u64>, g: &Multigraph, state: u32)
    requires state_in { state < g.now.states }
    requires so_far { AreEntriesUpTo g.now state entries.old.items }
    ensures { AreEntriesUpTo g.now (state + 1) entries.new.items }
{
    for letter in 0..g.letters() {
        mark_targets(entries, g.edges(state, letter), letter);
    }
}

/// Returns, for each state of a graph, the letters on which moves lead to it, as the bits of a number. The letter `l`
/// has the bit `l % 64`.
///
/// # Errors
/// [`OutOfMemory`] if there is not enough memory for the numbers.
pub(crate) fn entries_of(alloc: Global, g: &Multigraph) -> Result<Vec<u64>, OutOfMemory>
    ensures { IfOk result (λ v. AreEntries g.now v.items) }
{
    let mut entries = vec![in alloc; 0; g.states() as usize]?;
    for state in 0..g.states() {
        mark_moves(&mut entries, g, state);
    }
    Ok(entries)
}
