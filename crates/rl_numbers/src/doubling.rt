//! Checking that the numbers of doubles exclude a twin. A double is a pair of states with a number. A twin is a state
//! with two different paths to itself along one word. A step of a double is two moves on one letter, one from each of
//! its states. A row lists the targets of the moves of a state on a letter.

ghost use Rattle.std.specs.Prelude.{◌≡◌, ◌≢◌, ℕ, ◌+◌, ◌<◌, ◌≤◌, ◌^◌, ◌↔◌, IsTrue, All, List, None, Some, length, slice_get, slice_index, is_some, IfOk, IfSome, IfNone};
ghost use Rattle.rl_graph.specs.Graph.{edges_of};
ghost use Rattle.rl_graph.specs.Paths.{Each};
ghost use Rattle.rl_numbers.specs.Doubled.{OnceEach, IsInside, AreDoubles, HasEqualDoubles, number_in, IsIndex};
ghost use Rattle.rl_numbers.specs.internal.DoubledFalls.{FallsBelow, SecondsFall, FirstsFall, StepsFall, OthersFall, ApartsFall, LeavesFall, HoldsIn};

use crate::double::Double;
use indexmap::IndexMap;
use rl_graph::Multigraph;
use rl_lists::OutOfMemory;
use std::alloc::Global;

/// Two states, in order.
#[derive(Clone, Copy, PartialEq, Eq, Hash)]
pub(crate) struct Pair {
    pub p: u32,
    pub q: u32,
}

/// An index that gives the number of a double by its states.
pub(crate) type Index = IndexMap<Pair, u32>;

/// Returns the number of the double of `p` and `q`, or `None` if the index doesn't have it.
fn number_of(index: &Index, p: u32, q: u32) -> Option<u32>
    ensures { result ≡ number_in index.now p q }
{
    index.get(&Pair { p, q }).copied()
}

/// Returns the index of a list of doubles, or `None` if a double occurs twice.
fn index_of(alloc: Global, doubles: &[Double]) -> Result<Option<Index>, OutOfMemory>
    ensures numbers { IfOk result (λ o. IfSome o (IsIndex doubles.now)) }
    ensures once { IfOk result (λ o. IfSome o (λ _. OnceEach doubles.now)) }
    ensures twice { IfOk result (λ o. IfNone o (OnceEach doubles.now → ⊥)) }
{
    let mut index = Index::new(alloc);
    for double in doubles {
        if number_of(&index, double.p, double.q).is_some() {
            drop(index);
            return Ok(None);
        }
        let pair = Pair {
            p: double.p,
            q: double.q,
        };
        let Ok(_) = index.insert(pair, double.number) else {
            drop(index);
            return Err(OutOfMemory);
        };
    }
    Ok(Some(index))
}

/// Returns whether the list has `(p, q)` with a number less than `most`.
fn falls_below(index: &Index, most: u64, p: u32, q: u32) -> bool
    ensures { IsTrue result ↔ FallsBelow (number_in index.now) most p q }
{
    match number_of(index, p, q) {
        Some(number) => u64::from(number) < most,
        None => false,
    }
}

/// Returns whether the list has `(p, q)`, with a number less than `most`, for each state `q` in the row.
fn seconds_fall(index: &Index, most: u64, p: u32, row: &[u32]) -> bool
    ensures { IsTrue result ↔ SecondsFall (number_in index.now) most p row.now }
{
    for q in row {
        if !falls_below(index, most, p, *q) {
            return false;
        }
    }
    true
}

/// Returns whether the list has `(p, q)`, with a number less than `most`, for all states `p` in `row` and `q` in
/// `second`.
fn firsts_fall(index: &Index, most: u64, row: &[u32], second: &[u32]) -> bool
    ensures { IsTrue result ↔ FirstsFall (number_in index.now) most row.now second.now }
{
    for p in row {
        if !seconds_fall(index, most, *p, second) {
            return false;
        }
    }
    true
}

/// Returns whether the list has the double of `p` and the target of the row's move `other`, with a number less than
/// `most`. The result is also true if `other` is `number`.
fn other_falls(index: &Index, most: u64, number: usize, other: usize, p: u32, row: &[u32]) -> bool
    requires { other < length row.now }
    ensures { IsTrue result ↔ (number ≢ other → FallsBelow (number_in index.now) most p (slice_index row.now other)) }
{
    other == number || falls_below(index, most, p, row[other])
}

/// Returns whether the list has the double of `p` and the target of each move of the row except the move `number`, with
/// numbers less than `most`.
fn others_fall(index: &Index, most: u64, number: usize, p: u32, row: &[u32]) -> bool
    ensures { IsTrue result ↔ OthersFall (number_in index.now) most number p row.now }
{
    for other in 0..row.len() {
        if !other_falls(index, most, number, other, p, row) {
            return false;
        }
    }
    true
}

/// Returns whether the list has the double of the targets of any two different moves of the row, with numbers less than
/// `most`.
fn aparts_fall(index: &Index, most: u64, row: &[u32]) -> bool
    ensures { IsTrue result ↔ ApartsFall (number_in index.now) most row.now }
{
    for number in 0..row.len() {
        if !others_fall(index, most, number, row[number], row) {
            return false;
        }
    }
    true
}

/// Returns whether each step of a double leads to a double of the list with a number that is no greater.
fn steps_fall(g: &Multigraph, index: &Index, double: Double) -> bool
    requires { IsInside g.now.states double }
    ensures { IsTrue result ↔ StepsFall (edges_of g.now) (number_in index.now) double }
{
    // Reading the number of states tells the prover that the graph is well formed.
    let _states = g.states();
    let most = u64::from(double.number) + 1;
    for letter in 0..g.letters() {
        let firsts = g.edges(double.p, letter);
        let seconds = g.edges(double.q, letter);
        if !firsts_fall(index, most, firsts, seconds) {
            return false;
        }
    }
    true
}

/// Returns whether any two different moves of a state on one letter lead to a double of the list with a smaller number
/// than `double`, which is the double of the state with itself. For other doubles, the result is true.
fn leaves_fall(g: &Multigraph, index: &Index, double: Double) -> bool
    requires { IsInside g.now.states double }
    ensures { IsTrue result ↔ LeavesFall (edges_of g.now) (number_in index.now) double }
{
    if double.p != double.q {
        return true;
    }
    // Reading the number of states tells the prover that the graph is well formed.
    let _states = g.states();
    let most = u64::from(double.number);
    for letter in 0..g.letters() {
        let row = g.edges(double.p, letter);
        if !aparts_fall(index, most, row) {
            return false;
        }
    }
    true
}

/// Returns whether both states of a double are less than `states`.
fn is_inside(states: u32, double: Double) -> bool
    ensures { IsTrue result ↔ IsInside states double }
{
    double.p < states && double.q < states
}

/// Returns whether a double passes the check: its states are states of the graph, each step leads to a double of the
/// list with a number that is no greater, and, if it is a state with itself, any two different moves of that state on
/// one letter lead to a double with a smaller number.
fn holds(g: &Multigraph, index: &Index, double: Double) -> bool
    ensures { IsTrue result ↔ HoldsIn (edges_of g.now) g.now.states (number_in index.now) double }
{
    if !is_inside(g.states(), double) {
        return false;
    }
    if !steps_fall(g, index, double) {
        return false;
    }
    leaves_fall(g, index, double)
}

/// Returns whether each double passes the check of `holds`.
fn each_holds(g: &Multigraph, index: &Index, doubles: &[Double]) -> bool
    ensures { IsTrue result ↔ Each (HoldsIn (edges_of g.now) g.now.states (number_in index.now)) doubles.now }
{
    for double in doubles {
        if !holds(g, index, *double) {
            return false;
        }
    }
    true
}

/// Returns whether the list has the double of each state with itself. `states` is the number of states.
fn equals_held(index: &Index, states: u32) -> bool
    ensures { IsTrue result ↔ HasEqualDoubles states (number_in index.now) }
{
    for state in 0..states {
        if number_of(index, state, state).is_none() {
            return false;
        }
    }
    true
}

/// Returns whether each double passes the check of `holds`, and the list has the double of each state with itself.
fn all_hold(g: &Multigraph, index: &Index, doubles: &[Double]) -> bool
    ensures { IsTrue result ↔ (Each (HoldsIn (edges_of g.now) g.now.states (number_in index.now)) doubles.now × HasEqualDoubles g.now.states (number_in index.now)) }
{
    each_holds(g, index, doubles) && equals_held(index, g.states())
}

/// Returns whether a list of doubles shows that a graph has no twin. The result is true if and only if no double occurs
/// twice, both states of each are states of the graph, the list has the double of each state with itself, each step
/// leads to a double of the list with a number that is no greater, and any two different moves of one state on one
/// letter lead to a double with a smaller number than the double of the state with itself.
///
/// # Errors
/// [`OutOfMemory`] if there is not enough memory for the index.
pub fn doubles_hold(alloc: Global, g: &Multigraph, doubles: &[Double]) -> Result<bool, OutOfMemory>
    ensures { IfOk result (λ yes. IsTrue yes ↔ AreDoubles (edges_of g.now) g.now.states doubles.now) }
{
    match index_of(alloc, doubles)? {
        None => Ok(false),
        Some(index) => {
            let hold = all_hold(g, &index, doubles);
            drop(index);
            Ok(hold)
        }
    }
}
