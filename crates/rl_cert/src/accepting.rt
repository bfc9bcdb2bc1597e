//! The states of an automaton that accept a list of letters. A state accepts a list of letters if it is the accepting state,
//! or if it has a move on the first letter to a state that accepts the remaining letters. A pair is a state of the automaton
//! with a set: the states that were tried before it. A rest is a list of letters followed by the end letter; a set refuses it
//! if none of its members accepts it. A live pair is the first pair, or a pair whose set refuses some rest and to which a live
//! pair has a move. The live pairs are the states of a graph, numbered from 0.

ghost use Rattle.std.specs.Prelude.{◌≡◌, ℕ, ◌+◌, ◌<◌, ◌≤◌, ◌∷◌, [], All, List, length, slice_index_or, false, IfOk, IsTrue, ◌↔◌};
ghost use Rattle.std.specs.List.{list_any};
ghost use Rattle.rl_prio.specs.Automaton.{letters_count};
ghost use Rattle.rl_pairs.specs.Families.{to_end};
ghost use Rattle.rl_pairs.specs.PairTable.{pair_in};
ghost use Rattle.rl_cert.specs.Accepting.{IsAccepting};
ghost use Rattle.rl_cert.specs.Ways.{Refuses};

use rl_lists::OutOfMemory;
use rl_pairs::PairGraph;
use rl_prio::Prio;
use std::alloc::Global;

/// Returns whether some state of a list is marked in a column. States beyond its end aren't marked.
fn any_in(states: &[u32], column: &[bool]) -> bool
    ensures { result ≡ list_any (λ m. slice_index_or column.now m false) states.now }
{
    for state in states {
        let place = *state as usize;
        if place < column.len() && column[place] {
            return true;
        }
    }
    false
}

/// Returns the column of the empty list, in which only the accepting state is marked.
fn start(alloc: Global, a: &Prio) -> Result<Vec<bool>, OutOfMemory>
    ensures { IfOk result (λ v. IsAccepting a.now [] v.items) }
{
    let accepting = a.states() - 2;
    let mut column = Vec::new(alloc);
    for state in 0..a.states() {
        column.push(state == accepting)?;
    }
    Ok(column)
}

/// Returns the column of a list with `letter` added in front, given the column of the list. It marks the states that accept
/// the longer list.
fn before(alloc: Global, a: &Prio, letter: u32, column: &[bool]) -> Result<Vec<bool>, OutOfMemory>
    requires letter_in { letter ≤ letters_count a.now }
    ensures { IfOk result (λ v. (word : List ℕ) → IsAccepting a.now word column.now → IsAccepting a.now (letter ∷ word) v.items) }
{
    let accepting = a.states() - 2;
    let mut longer = Vec::new(alloc);
    for state in 0..a.states() {
        longer.push(state == accepting || any_in(a.moves(state, letter), column))?;
    }
    Ok(longer)
}

/// Returns a column, which has a truth value for each state, at the state's number: whether the state accepts the word
/// followed by the end letter. The word must consist of letters of the automaton other than the end letter; it may be empty.
///
/// # Errors
/// [`OutOfMemory`] if there is not enough memory for the columns.
pub fn accepting(alloc: Global, a: &Prio, word: &[u32]) -> Result<Vec<bool>, OutOfMemory>
    requires { All (λ l. l < letters_count a.now) word.now }
    ensures { IfOk result (λ v. IsAccepting a.now (to_end a.now word.now) v.items) }
{
    let end = a.letters().count();
    let mut column = before(alloc, a, end, &start(alloc, a)?)?;
    let mut place = word.len();
    while place > 0 {
        place -= 1;
        column = before(alloc, a, word[place], &column)?;
    }
    Ok(column)
}

/// Returns whether the set of the live pair with the number `state` refuses the word followed by the end letter, that is,
/// whether none of its states accepts this list. The graph must have a pair with this number, and the word must consist of
/// letters other than the end letter.
///
/// # Errors
/// [`OutOfMemory`] if there is not enough memory for the columns.
pub fn refuses(
    alloc: Global,
    a: &Prio,
    g: &PairGraph,
    state: u32,
    word: &[u32],
) -> Result<bool, OutOfMemory>
    requires letters { All (λ l. l < letters_count a.now) word.now }
    requires state_in { state < g.now.graph.states }
    ensures { IfOk result (λ yes. IsTrue yes ↔ Refuses a.now (pair_in g.now) state word.now) }
{
    let column = accepting(alloc, a, word)?;
    Ok(!any_in(g.pair(state).set.as_slice(), &column))
}
