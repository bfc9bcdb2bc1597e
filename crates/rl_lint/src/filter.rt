//! The entries that a report shows: those that the baseline doesn't know. An entry is one result of a report: for a call of
//! `re` whose pattern is a literal, for a source that can't be cut into tokens, or for a path without a source. A baseline is
//! an earlier report in JSON, which knows the entries that it has itself.
ghost use Rattle.std.specs.Prelude.{◌≡◌, All, IfOk};
ghost use Rattle.rl_report.specs.Layouts.{IsOfItsUniverse};
ghost use Rattle.rl_lint.specs.Filter.{hidden_count, unknown_entries, visible_entries};

use rl_lists::OutOfMemory;
use rl_report::Entries;
use rl_sarif::{KnownKeys, unknown};
use std::alloc::Global;

/// The entries that a report shows.
#[derive(Drop)]
pub struct Visible {
    /// The entries, in their order.
    pub entries: Entries,
    /// The number of entries that the baseline hides, or `None` if there is no baseline.
    pub hidden: Option<usize>,
}

/// Returns the entries that a baseline doesn't know, in their order. They are moved to the front in place, which works because
/// their positions increase.
///
/// # Errors
/// [`OutOfMemory`] if memory runs out.
fn unknown_entries(
    alloc: Global,
    entries: Entries,
    keys: &KnownKeys,
) -> Result<Entries, OutOfMemory>
    ensures { IfOk result (λ unknown. unknown ≡ unknown_entries keys.now entries) }
{
    let Ok(positions) = unknown(alloc, &entries, keys) else {
        drop(entries);
        return Err(OutOfMemory);
    };
    let mut moved = entries.into_vec();
    for (place, position) in positions.as_slice().iter().enumerate() {
        moved.swap(place, *position as usize);
    }
    moved.truncate(positions.len());
    Ok(Entries::from_vec(moved))
}

/// Returns the entries that a report shows: those that the baseline doesn't know, in their order, with the number of the
/// others; or all of them, with `hidden` as `None`, if there is no baseline. The texts in each entry must be texts of its
/// universe, `str` or `bytes`.
///
/// # Errors
/// [`OutOfMemory`] if memory runs out.
pub fn visible_entries(
    alloc: Global,
    entries: Entries,
    baseline: Option<KnownKeys>,
) -> Result<Visible, OutOfMemory>
    requires { All IsOfItsUniverse entries }
    ensures entries { IfOk result (λ visible. visible.entries ≡ visible_entries baseline entries) }
    ensures hidden { IfOk result (λ visible. visible.hidden ≡ hidden_count baseline entries) }
    ensures universe { IfOk result (λ visible. All IsOfItsUniverse visible.entries) }
{
    match baseline {
        None => Ok(Visible {
            entries,
            hidden: None,
        }),
        Some(keys) => {
            let all = entries.len();
            let unknown = unknown_entries(alloc, entries, &keys);
            drop(keys);
            let entries = unknown?;
            let hidden = all - entries.len();
            Ok(Visible {
                entries,
                hidden: Some(hidden),
            })
        }
    }
}
