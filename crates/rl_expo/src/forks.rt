//! The search for a fork among the states of a kernel: two moves of a state on one letter such that one word leads back
//! from both targets. It goes by the parts, that is, the strongly connected components, of the product of two copies of
//! a graph whose states are the places in the kernel. Two states meet in a part if the pair of their places is in it.

ghost use Rattle.std.specs.Prelude.{◌≡◌, ℕ, ◌+◌, ◌<◌, ◌*◌, ◌^◌, length, slice_index, All, IfOk, IfSome, IfNone, IsTrue, ◌↔◌};
ghost use Rattle.rl_kernel.specs.Seats.{seats_of, state_at};
ghost use Rattle.rl_expo.specs.internal.Search.{AreMoves};
ghost use Rattle.rl_expo.specs.internal.Meeting.{Meets, NoneMeets, AreSearched, IsMet};

use rl_graph::{Multigraph, Parts};
use rl_kernel::Kernel;
use rl_lists::OutOfMemory;
use std::alloc::Global;

/// Two different moves of a state on a letter, named by their numbers, which count from 0 among the moves of the state
/// and letter. If one word leads back to the state from both targets, they are a fork.
#[derive(Clone, Copy)]
pub struct Fork {
    /// The state from which both moves lead.
    pub state: u32,
    /// The letter of both moves.
    pub letter: u32,
    /// The smaller one of the two move numbers.
    pub first: u32,
    /// The greater one of the two move numbers.
    pub second: u32,
}

/// Returns the number of the pair of the places `one` and `other` in the product: `one * count + other`. `count` is the
/// number of places.
fn pair_of(count: u64, one: u32, other: u32) -> u64
    requires { count < 2 ^ 32 }
    ensures { result ≡ one * count + other }
{
    u64::from(one) * count + u64::from(other)
}

/// Returns whether the states `one` and `other` are both in the kernel and the pair of their places is in the part
/// `own` of the product.
fn meets(kernel: &Kernel, parts: &Parts, own: u64, one: u32, other: u32) -> bool
    requires one_in { one < length kernel.now.places.items }
    requires other_in { other < length kernel.now.places.items }
    requires few { length kernel.now.states.items < 2 ^ 32 }
    requires size { length parts.now.numbers ≡ length kernel.now.states.items * length kernel.now.states.items }
    ensures { IsTrue result ↔ Meets (seats_of kernel.now) parts.now own one other }
{
    let count = kernel.states.len() as u64;
    match kernel.place_of(one) {
        Some(first) => match kernel.place_of(other) {
            Some(second) => parts.of(pair_of(count, first, second)) == own,
            None => false,
        },
        None => false,
    }
}

/// Returns the number of the first move of the row before the move `second` whose target meets the target of `second`
/// in the part `own`, or `None` if there is none.
fn partner(row: &[u32], kernel: &Kernel, parts: &Parts, own: u64, second: usize) -> Option<usize>
    requires second_in { second < length row.now }
    requires targets { All (λ m. m < length kernel.now.places.items) row.now }
    requires few { length kernel.now.states.items < 2 ^ 32 }
    requires size { length parts.now.numbers ≡ length kernel.now.states.items * length kernel.now.states.items }
    ensures found { IfSome result (λ i. (i < second) × Meets (seats_of kernel.now) parts.now own (slice_index row.now i) (slice_index row.now second)) }
    ensures none { IfNone result ((i : ℕ) → i < second → Meets (seats_of kernel.now) parts.now own (slice_index row.now i) (slice_index row.now second) → ⊥) }
{
    for first in 0..second {
        if meets(kernel, parts, own, row[first], row[second]) {
            return Some(first);
        }
    }
    None
}

/// Returns two moves on `letter` of the state at `place` whose targets meet in the part of the pair of that place with
/// itself, or `None` if there are none.
fn fork_on(g: &Multigraph, kernel: &Kernel, parts: &Parts, place: u32, letter: u32) -> Option<Fork>
    requires place_in { place < length kernel.now.states.items }
    requires letter_in { letter < g.now.letters }
    requires state_in { state_at (seats_of kernel.now) place < g.now.states }
    requires places { length kernel.now.places.items ≡ g.now.states }
    requires few { length kernel.now.states.items < 2 ^ 32 }
    requires size { length parts.now.numbers ≡ length kernel.now.states.items * length kernel.now.states.items }
    ensures moves { IfSome result (AreMoves g.now) }
    ensures found { IfSome result (IsMet g.now (seats_of kernel.now) parts.now) }
    ensures none { IfNone result (NoneMeets g.now (seats_of kernel.now) parts.now place letter) }
{
    // Reading the number of states tells the prover that the graph is well formed.
    let _states = g.states();
    let count = kernel.states.len() as u64;
    let own = parts.of(pair_of(count, place, place));
    let state = kernel.states[place as usize];
    let row = g.edges(state, letter);
    for second in 0..row.len() {
        if let Some(first) = partner(row, kernel, parts, own, second) {
            return Some(Fork {
                state,
                letter,
                first: first as u32,
                second: second as u32,
            });
        }
    }
    None
}

/// Returns whether an earlier search shows that the state at `place` has no two moves on `letter` that [`fork_on`]
/// would return: the state at the place `earlier` has none and has the same row on the letter, and the pairs of the two
/// places with themselves are in the same part. If `earlier` is `None`, the result is false.
fn is_again(
    g: &Multigraph,
    kernel: &Kernel,
    parts: &Parts,
    earlier: Option<u32>,
    place: u32,
    letter: u32,
) -> bool
    requires place_in { place < length kernel.now.states.items }
    requires letter_in { letter < g.now.letters }
    requires earlier { IfSome earlier (λ b. (b < length kernel.now.states.items) × NoneMeets g.now (seats_of kernel.now) parts.now b letter) }
    requires states_in { (i : ℕ) → i < length kernel.now.states.items → state_at (seats_of kernel.now) i < g.now.states }
    requires few { length kernel.now.states.items < 2 ^ 32 }
    requires size { length parts.now.numbers ≡ length kernel.now.states.items * length kernel.now.states.items }
    ensures { IsTrue result → NoneMeets g.now (seats_of kernel.now) parts.now place letter }
{
    let Some(earlier) = earlier else {
        return false;
    };
    let count = kernel.states.len() as u64;
    let own = parts.of(pair_of(count, place, place));
    let other = parts.of(pair_of(count, earlier, earlier));
    let row = g.edges(kernel.states[place as usize], letter);
    own == other && row == g.edges(kernel.states[earlier as usize], letter)
}

/// Returns two moves of the state at `place` on one letter whose targets meet in the part of the pair of that place
/// with itself, or `None` if there are none. `searched` has, for each letter, a place for which there are none; an
/// equal row isn't searched again if the pairs of the two places with themselves are in the same part.
fn fork_from(
    g: &Multigraph,
    kernel: &Kernel,
    parts: &Parts,
    searched: &mut Vec<Option<u32>>,
    place: u32,
) -> Option<Fork>
    requires place_in { place < length kernel.now.states.items }
    requires searched { AreSearched g.now (seats_of kernel.now) parts.now searched.old.items }
    requires states_in { (i : ℕ) → i < length kernel.now.states.items → state_at (seats_of kernel.now) i < g.now.states }
    requires places { length kernel.now.places.items ≡ g.now.states }
    requires few { length kernel.now.states.items < 2 ^ 32 }
    requires size { length parts.now.numbers ≡ length kernel.now.states.items * length kernel.now.states.items }
    ensures searched { AreSearched g.now (seats_of kernel.now) parts.now searched.new.items }
    ensures moves { IfSome result (AreMoves g.now) }
    ensures found { IfSome result (IsMet g.now (seats_of kernel.now) parts.now) }
    ensures none { IfNone result ((l : ℕ) → l < g.now.letters → NoneMeets g.now (seats_of kernel.now) parts.now place l) }
{
    let state = kernel.states[place as usize];
    for letter in 0..g.letters() {
        if !is_again(g, kernel, parts, searched[letter as usize], place, letter) {
            if let Some(fork) = fork_on(g, kernel, parts, place, letter) {
                return Some(fork);
            }
            if g.edges(state, letter).len() > 1 {
                searched[letter as usize] = Some(place);
            }
        }
    }
    None
}

/// Returns `None` for each letter: no place has been searched.
fn none_searched(
    alloc: Global,
    g: &Multigraph,
    kernel: &Kernel,
    parts: &Parts,
) -> Result<Vec<Option<u32>>, OutOfMemory>
    ensures { IfOk result (λ v. AreSearched g.now (seats_of kernel.now) parts.now v.items) }
{
    let searched = vec![in alloc; None; g.letters() as usize]?;
    Ok(searched)
}

/// Returns two moves of a state of the kernel on one letter whose targets meet in the part of the pair of the state's
/// place with itself, or `None` if and only if there are none. The kernel must have been created for the states of `g`
/// and have fewer than 2^32 of them. With `m` places in the kernel, `parts` must have `m * m` entries, and the entry
/// `i * m + j` is the part of the pair of the places `i` and `j`.
///
/// # Errors
/// [`OutOfMemory`] if there is not enough memory for the search.
pub fn fork_among(
    alloc: Global,
    g: &Multigraph,
    kernel: &Kernel,
    parts: &Parts,
) -> Result<Option<Fork>, OutOfMemory>
    requires states_in { (i : ℕ) → i < length kernel.now.states.items → state_at (seats_of kernel.now) i < g.now.states }
    requires places { length kernel.now.places.items ≡ g.now.states }
    requires few { length kernel.now.states.items < 2 ^ 32 }
    requires size { length parts.now.numbers ≡ length kernel.now.states.items * length kernel.now.states.items }
    ensures moves { IfOk result (λ o. IfSome o (AreMoves g.now)) }
    ensures found { IfOk result (λ o. IfSome o (IsMet g.now (seats_of kernel.now) parts.now)) }
    ensures none { IfOk result (λ o. IfNone o ((i l : ℕ) → i < length kernel.now.states.items → l < g.now.letters → NoneMeets g.now (seats_of kernel.now) parts.now i l)) }
{
    let mut searched = none_searched(alloc, g, kernel, parts)?;
    for place in 0..kernel.states.len() as u32 {
        if let Some(fork) = fork_from(g, kernel, parts, &mut searched, place) {
            return Ok(Some(fork));
        }
    }
    Ok(None)
}
