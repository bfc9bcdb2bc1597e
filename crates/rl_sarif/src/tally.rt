//! A tally of keys: how often each of them can still be taken.
ghost use Rattle.std.specs.Prelude.{◌≡◌, ◌+◌, ◌-◌, ◌<◌, ◌^◌, IfOk, OnOk, map, nat_lt};
ghost use Rattle.rl_sarif.specs.Keys.{key_in};
ghost use Rattle.rl_sarif.specs.Known.{times};
ghost use Rattle.rl_sarif.specs.internal.Tally.{HasCounts, remaining, one_if_same};

use crate::key::Key;
use indexmap::IndexMap;
use rl_lists::OutOfMemory;

/// How often each key can still be taken.
pub(crate) type Tally = IndexMap<Key, usize>;

/// Returns how often a key can still be taken.
fn remaining(tally: &Tally, key: &Key) -> usize
    ensures { result ≡ remaining tally.now (key_in key.now) }
{
    tally.get(key).copied().unwrap_or(0)
}

/// Adds one occurrence of a key.
fn add(tally: &mut Tally, key: Key) -> Result<(), OutOfMemory>
    requires { remaining tally.old (key_in key) + 1 < 2 ^ 64 }
    ensures { OnOk result (HasCounts tally.new (λ q. remaining tally.old q + one_if_same q (key_in key))) }
{
    let count = remaining(tally, &key);
    tally.insert(key, count + 1)?;
    Ok(())
}

/// Takes one occurrence of a key out of the tally. Returns whether there was one; if there was none, the tally stays the same.
pub(crate) fn take(tally: &mut Tally, key: Key) -> Result<bool, OutOfMemory>
    ensures taken { IfOk result (λ taken. taken ≡ nat_lt 0 (remaining tally.old (key_in key))) }
    ensures rest { OnOk result (HasCounts tally.new (λ q. remaining tally.old q - one_if_same q (key_in key))) }
{
    let count = remaining(tally, &key);
    if count == 0 {
        return Ok(false);
    }
    tally.insert(key, count - 1)?;
    Ok(true)
}

/// Adds each of the keys to an empty tally.
pub(crate) fn add_all(tally: &mut Tally, keys: &[Key]) -> Result<(), OutOfMemory>
    requires { HasCounts tally.old (λ _. 0) }
    ensures { OnOk result (HasCounts tally.new (times (map key_in keys.now))) }
{
    for key in keys {
        add(tally, key.clone()?)?;
    }
    Ok(())
}
