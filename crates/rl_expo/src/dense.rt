//! A short search for a fork in components with many moves on one letter, since the product has the square of these
//! moves. It looks for two moves of a state whose targets have moves on one letter to the same state. It can miss
//! forks. A fork is two different moves of a state on one letter such that one word leads back to the state from both
//! targets.

ghost use Rattle.std.specs.Prelude.{◌≡◌, ◌<◌, length, slice_index, IfOk, IfSome};
ghost use Rattle.rl_graph.specs.Graph.{edges_of};
ghost use Rattle.rl_graph.specs.Parts.{IsParts, number_of};
ghost use Rattle.rl_expo.specs.internal.Search.{AreMoves, LeadsBack, Stays};
ghost use Rattle.rl_expo.specs.internal.Dense.{IsMark, AreMarks, IsEarlier};

use crate::forks::Fork;
use rl_graph::{Components, Multigraph};
use rl_lists::OutOfMemory;
use std::alloc::Global;

/// A state with at most this many moves on a letter is left to the search of the product, to which its moves contribute
/// little. So is a state with fewer moves on the letter than the number of letters divided by this number.
const MANY_MOVES: usize = 16;

/// A mark on a state: the move of `state` on `letter` with the number `number`, followed by a move on `via`, leads to
/// the marked state.
#[derive(Clone, Copy)]
pub struct Mark {
    /// The state at which the first move starts.
    pub state: u32,
    /// The letter of the first move.
    pub letter: u32,
    /// The letter of the second move.
    pub via: u32,
    /// The number of the first move.
    pub number: u32,
}

/// Returns the number of the move in the mark of `target`, if that mark has the same state and letters as `mark` and a
/// smaller move number, and `None` otherwise.
fn earlier(marks: &[Option<Mark>], target: u32, mark: Mark) -> Option<u32>
    requires { target < length marks.now }
    ensures { IfSome result (IsEarlier marks.now target mark) }
{
    match marks[target as usize] {
        Some(old) => {
            let same = old.state == mark.state && old.letter == mark.letter && old.via == mark.via;
            if same && old.number < mark.number {
                Some(old.number)
            } else {
                None
            }
        }
        None => None,
    }
}

/// Puts `mark` on the targets, within the component of its state, of the moves of `middle` on the letter `via`.
/// `middle` is the target of the move of `mark`. If such a target has a mark of an earlier move of the same state and
/// letters, returns this move and the move of `mark`, which are a fork; otherwise returns `None`.
fn meet_after(
    g: &Multigraph,
    components: &Components,
    marks: &mut [Option<Mark>],
    mark: Mark,
    middle: u32,
) -> Option<Fork>
    requires parts { IsParts (edges_of g.now) g.now.states components.now }
    requires marks { AreMarks g.now components.now marks.old }
    requires state_in { mark.state < g.now.states }
    requires letter_in { mark.letter < g.now.letters }
    requires via_in { mark.via < g.now.letters }
    requires number_in { mark.number < length (edges_of g.now mark.state mark.letter) }
    requires middle { middle ≡ slice_index (edges_of g.now mark.state mark.letter) mark.number }
    requires middle_in { middle < g.now.states }
    ensures marks { AreMarks g.now components.now marks.new }
    ensures moves { IfSome result (AreMoves g.now) }
    ensures back { IfSome result (LeadsBack g.now) }
{
    // Reading the number of states tells the prover that the graph is well formed.
    let _states = g.states();
    let own = components.of(mark.state);
    let row = g.edges(middle, mark.via);
    for place in 0..row.len() {
        let target = row[place];
        if components.of(target) == own {
            if let Some(first) = earlier(marks, target, mark) {
                return Some(Fork {
                    state: mark.state,
                    letter: mark.letter,
                    first,
                    second: mark.number,
                });
            }
            marks[target as usize] = Some(mark);
        }
    }
    None
}

/// Returns two moves of `state` on `letter`, within its component, whose targets have moves on `via` to one state of
/// the component. Returns `None` if there are none.
fn meet_on(
    g: &Multigraph,
    components: &Components,
    marks: &mut [Option<Mark>],
    state: u32,
    letter: u32,
    via: u32,
) -> Option<Fork>
    requires parts { IsParts (edges_of g.now) g.now.states components.now }
    requires marks { AreMarks g.now components.now marks.old }
    requires state_in { state < g.now.states }
    requires letter_in { letter < g.now.letters }
    requires via_in { via < g.now.letters }
    ensures marks { AreMarks g.now components.now marks.new }
    ensures moves { IfSome result (AreMoves g.now) }
    ensures back { IfSome result (LeadsBack g.now) }
{
    let own = components.of(state);
    let row = g.edges(state, letter);
    for place in 0..row.len() {
        let middle = row[place];
        if components.of(middle) == own {
            let mark = Mark {
                state,
                letter,
                via,
                number: place as u32,
            };
            if let Some(fork) = meet_after(g, components, marks, mark, middle) {
                return Some(fork);
            }
        }
    }
    None
}

/// Returns whether a row has more than 16 moves, and at least as many as a 16th of the number of letters, rounded down.
/// Searching a row looks at each of its moves once for each letter, whereas the product has the square of these moves.
fn has_many(row: &[u32], letters: u32) -> bool {
    row.len() > MANY_MOVES && row.len() >= letters as usize / MANY_MOVES
}

/// Returns whether `state` has the same row on `letter` as the state `before`. If that is `None` or out of range, the
/// result is false.
fn is_again(g: &Multigraph, before: Option<u32>, state: u32, letter: u32) -> bool
    requires state_in { state < g.now.states }
    requires letter_in { letter < g.now.letters }
{
    match before {
        Some(searched) => searched < g.states()
            && g.edges(searched, letter) == g.edges(state, letter),
        None => false,
    }
}

/// Returns a fork that the short search finds for `state` on `letter`, or `None` if it finds none. A row with few moves
/// isn't searched, nor is a row that equals the last row searched on the letter. `searched` has, for each letter, the
/// state of that last row.
fn meet_in_row(
    g: &Multigraph,
    components: &Components,
    marks: &mut [Option<Mark>],
    searched: &mut [Option<u32>],
    state: u32,
    letter: u32,
) -> Option<Fork>
    requires parts { IsParts (edges_of g.now) g.now.states components.now }
    requires marks { AreMarks g.now components.now marks.old }
    requires size { length searched.old ≡ g.now.letters }
    requires state_in { state < g.now.states }
    requires letter_in { letter < g.now.letters }
    ensures marks { AreMarks g.now components.now marks.new }
    ensures size { length searched.new ≡ g.now.letters }
    ensures moves { IfSome result (AreMoves g.now) }
    ensures back { IfSome result (LeadsBack g.now) }
{
    let letters = g.letters();
    if has_many(g.edges(state, letter), letters)
        && !is_again(g, searched[letter as usize], state, letter)
    {
        for via in 0..letters {
            if let Some(fork) = meet_on(g, components, marks, state, letter, via) {
                return Some(fork);
            }
        }
        searched[letter as usize] = Some(state);
    }
    None
}

/// Returns a fork that the short search finds for `state` on any letter, or `None` if it finds none.
fn meet_from(
    g: &Multigraph,
    components: &Components,
    marks: &mut [Option<Mark>],
    searched: &mut [Option<u32>],
    state: u32,
) -> Option<Fork>
    requires parts { IsParts (edges_of g.now) g.now.states components.now }
    requires marks { AreMarks g.now components.now marks.old }
    requires size { length searched.old ≡ g.now.letters }
    requires state_in { state < g.now.states }
    ensures marks { AreMarks g.now components.now marks.new }
    ensures size { length searched.new ≡ g.now.letters }
    ensures moves { IfSome result (AreMoves g.now) }
    ensures back { IfSome result (LeadsBack g.now) }
{
    for letter in 0..g.letters() {
        if let Some(fork) = meet_in_row(g, components, marks, searched, state, letter) {
            return Some(fork);
        }
    }
    None
}

/// Returns a list of marks in which no state has a mark.
fn no_marks(
    alloc: Global,
    g: &Multigraph,
    components: &Components,
) -> Result<Vec<Option<Mark>>, OutOfMemory>
    ensures { IfOk result (λ v. AreMarks g.now components.now v.items) }
{
    let marks = vec![in alloc; None; g.states() as usize]?;
    Ok(marks)
}

/// Returns `None` for each letter: no row has been searched on it.
fn none_searched(alloc: Global, g: &Multigraph) -> Result<Vec<Option<u32>>, OutOfMemory>
    ensures { IfOk result (λ v. length v.items ≡ g.now.letters) }
{
    let searched = vec![in alloc; None; g.letters() as usize]?;
    Ok(searched)
}

/// Returns a fork that the short search finds in the component with the number `number`, or `None` if it finds none;
/// there can still be one. `components` must be the strongly connected components of `g`. The marks on states are never
/// cleared, because each names the moves that it belongs to.
///
/// # Errors
/// [`OutOfMemory`] if there is not enough memory for the marks.
pub fn short_fork(
    alloc: Global,
    g: &Multigraph,
    components: &Components,
    number: u32,
) -> Result<Option<Fork>, OutOfMemory>
    requires parts { IsParts (edges_of g.now) g.now.states components.now }
    ensures moves { IfOk result (λ o. IfSome o (AreMoves g.now)) }
    ensures back { IfOk result (λ o. IfSome o (LeadsBack g.now)) }
{
    let mut marks = no_marks(alloc, g, components)?;
    let mut searched = none_searched(alloc, g)?;
    for state in 0..g.states() {
        if components.of(state) == number {
            if let Some(fork) = meet_from(g, components, &mut marks, &mut searched, state) {
                return Ok(Some(fork));
            }
        }
    }
    Ok(None)
}
