//! The doubles of a state with itself, and the list of doubles for a list of codes. In a graph with `n` states, the
//! code of the double of `p` and `q` is `p * n + q`.

ghost use Rattle.std.specs.Prelude.{◌≡◌, ℕ, ◌*◌, ◌/◌, ◌%◌, ◌<◌, ◌^◌, length, IfOk};
ghost use Rattle.rl_graph.specs.Parts.{number_of};
ghost use Rattle.rl_graph.specs.Paths.{Each};
ghost use Rattle.rl_numbers.specs.internal.Diagonal.{IsDiagonalUpTo, double_of, doubles_in};

use crate::double::{Double, Doubles};
use indexmap::IndexSet;
use rl_graph::Parts;
use rl_lists::{Items, OutOfMemory};
use std::alloc::Global;

/// Returns the code of the double of each state with itself. `states` is the number of states.
pub(crate) fn diagonal(alloc: Global, states: u32) -> Result<Vec<u64>, OutOfMemory>
    requires few { states < 65536 }
    ensures { IfOk result (λ v. IsDiagonalUpTo states states v.items) }
{
    let count = u64::from(states);
    let mut pairs = Vec::new(alloc);
    for state in 0..count {
        pairs.push(state * count + state)?;
    }
    Ok(pairs)
}

/// Returns the double with the code `code`, with the number of its part in the product. `states` is the number of
/// states.
fn double_at(states: u32, code: u64, parts: &Parts) -> Double
    requires few { states < 65536 }
    requires inside { code < states * states }
    requires size { length parts.now.numbers ≡ states * states }
    requires low { number_of parts.now code < 2 ^ 32 }
    ensures { result ≡ double_of parts.now states code }
{
    let count = u64::from(states);
    Double {
        p: (code / count) as u32,
        q: (code % count) as u32,
        number: parts.of(code) as u32,
    }
}

/// Returns the doubles with the codes `keys`, in order, with the numbers of their parts in the product. `states` is the
/// number of states.
pub(crate) fn listed_doubles(
    alloc: Global,
    states: u32,
    keys: &IndexSet<u64>,
    parts: &Parts,
) -> Result<Doubles, OutOfMemory>
    requires few { states < 65536 }
    requires inside { Each (λ x. x < states * states) keys.now.keys }
    requires size { length parts.now.numbers ≡ states * states }
    requires low { (i : ℕ) → i < states * states → number_of parts.now i < 2 ^ 32 }
    ensures { IfOk result (λ ds. ds ≡ doubles_in parts.now states keys.now.keys) }
{
    let mut doubles = Items::new(alloc);
    for i in 0..keys.len() {
        doubles.push(double_at(states, keys[i], parts))?;
    }
    Ok(doubles)
}
