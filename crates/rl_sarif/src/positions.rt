//! The entries that a baseline doesn't know. A baseline recognizes an entry by its key: the path, and the subject, which is
//! the call, the kind of the outcome, and the degree, the exceeded limit or the cause of a refusal.
ghost use Rattle.std.specs.Prelude.{◌≡◌, IfOk, map};
ghost use Rattle.rl_sarif.specs.Keys.{key_in};
ghost use Rattle.rl_sarif.specs.Known.{unknown_positions};
ghost use Rattle.rl_sarif.specs.internal.Tally.{HasCounts};

use crate::key::{Key, KnownKeys};
use crate::tally::{Tally, add_all, take};
use rl_lists::{Items, OutOfMemory};
use rl_report::{Entries, Entry};
use std::alloc::Global;

/// Positions in a list, counted from 0.
pub type Positions = Items<u64>;

/// Returns the positions of the entries that these keys don't know. The tally must be empty, and its content isn't meaningful
/// afterwards.
fn unknown_to(
    alloc: Global,
    tally: &mut Tally,
    entries: &[Entry],
    keys: &[Key],
) -> Result<Positions, OutOfMemory>
    requires { HasCounts tally.old (λ _. 0) }
    ensures { IfOk result (λ positions. positions ≡ unknown_positions (map key_in keys.now) entries.now) }
{
    add_all(tally, keys)?;
    let mut positions = Positions::new(alloc);
    for (position, entry) in entries.iter().enumerate() {
        let key = Key::of(alloc, entry)?;
        if !take(tally, key)? {
            positions.push(position as u64)?;
        }
    }
    Ok(positions)
}

/// Returns the positions of the entries that the baseline `known` doesn't know, counted from 0 and in order. An entry is known
/// if the baseline has its key more often than the entries before it. If the baseline has no keys, no entry is known.
///
/// # Errors
/// [`OutOfMemory`] if memory runs out.
pub fn unknown(
    alloc: Global,
    entries: &Entries,
    known: &KnownKeys,
) -> Result<Positions, OutOfMemory>
    ensures { IfOk result (λ positions. positions ≡ unknown_positions known.now entries.now) }
{
    let mut tally = Tally::new(alloc);
    let positions = unknown_to(alloc, &mut tally, entries.as_slice(), known.keys.as_slice());
    drop(tally);
    positions
}
