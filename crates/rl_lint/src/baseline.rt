//! Reading the keys of a baseline. A baseline is an earlier report in JSON, whose entries are hidden in a new report. The key
//! of an entry is everything in it by which a baseline recognizes it: its path, call and result, but not its line.
ghost use Rattle.std.specs.Prelude.{◌≤◌, IfOk, None, Some, option_map};
ghost use Rattle.rl_walk.specs.Visits.{moment_of};
ghost use Rattle.rl_lint.specs.Files.{first_bytes};
ghost use Rattle.rl_lint.specs.internal.Reads.{GivesKeys, IsGiven, IsNamedRead};

use crate::files::{FileRead, read_file};
use crate::limits::MOST_READ;
use rl_lists::{Bytes, OutOfMemory};
use rl_sarif::{BaselineError, KnownKeys, baseline};
use rl_source::Tree;
use std::alloc::Global;

/// Returns the keys that a baseline file with these bytes holds, or that it is refused.
///
/// # Errors
/// [`OutOfMemory`] if memory runs out.
fn keys_in(alloc: Global, bytes: Vec<u8>) -> Result<FileRead<Option<KnownKeys>>, OutOfMemory>
    ensures { IfOk result (IsGiven GivesKeys (Some bytes.items)) }
{
    let bytes = Bytes::from_vec(bytes);
    match baseline(alloc, &bytes) {
        Ok(keys) => Ok(FileRead::Taken(Some(keys))),
        Err(BaselineError::Refused) => Ok(FileRead::Refused),
        Err(BaselineError::OutOfMemory) => Err(OutOfMemory),
    }
}

/// Returns the keys of the baseline at `path`: `Unreadable` if the call of the tree fails, `Refused` if the bytes aren't a
/// baseline, and otherwise `Taken` with its keys. The tree is asked once. Without a path the result is `Taken(None)`, and the
/// tree isn't asked.
///
/// # Errors
/// [`OutOfMemory`] if memory runs out; the tree may have been read by then.
pub fn read_baseline<T: Tree>(
    alloc: Global,
    path: Option<&str>,
    tree: &mut T,
) -> Result<FileRead<Option<KnownKeys>>, OutOfMemory>
    ensures read { IfOk result (IsNamedRead GivesKeys first_bytes None (option_map (λ p. p.now) path.entry)
        (moment_of T.told T.fault_count tree.old) (moment_of T.told T.fault_count tree.new)) }
    ensures later { T.fault_count tree.old ≤ T.fault_count tree.new }
{
    let Some(path) = path else {
        return Ok(FileRead::Taken(None));
    };
    match read_file(path, MOST_READ, tree)? {
        Some(bytes) => keys_in(alloc, bytes),
        None => Ok(FileRead::Unreadable),
    }
}
