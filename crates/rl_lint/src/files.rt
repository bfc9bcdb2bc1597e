//! Files that the words name. Each is read with one call of the tree, which is the file system that the run reads, and then
//! its bytes are accepted or refused.
ghost use Rattle.std.specs.Prelude.{◌≤◌, IfOk, option_map};
ghost use Rattle.rl_walk.specs.Visits.{moment_of};
ghost use Rattle.rl_lint.specs.Files.{ReadsFile, bytes_up_to};

use rl_lists::OutOfMemory;
use rl_source::{Tree, TreeError};

/// The result of reading a file, whose content is of the type `T`.
#[derive(Drop)]
pub enum FileRead<T> {
    /// The file couldn't be read.
    Unreadable,
    /// The file's bytes are refused.
    Refused,
    /// The file was accepted, and its bytes give this value.
    Taken(T),
}

/// Returns the first `at_most` bytes of the file at `path`, or all of them if there are fewer, or `None` if the call fails.
/// The tree is asked once, for this file and for no more bytes.
///
/// # Errors
/// [`OutOfMemory`] if memory runs out.
pub fn read_file<T: Tree>(
    path: &str,
    at_most: usize,
    tree: &mut T,
) -> Result<Option<Vec<u8>>, OutOfMemory>
    ensures read { IfOk result (λ read. ReadsFile (bytes_up_to at_most) path.now (option_map (λ bytes. bytes.items) read)
        (moment_of T.told T.fault_count tree.old) (moment_of T.told T.fault_count tree.new)) }
    ensures later { T.fault_count tree.old ≤ T.fault_count tree.new }
{
    match tree.read(path, at_most) {
        Ok(bytes) => Ok(Some(bytes)),
        Err(TreeError::Failed) => Ok(None),
        Err(TreeError::OutOfMemory) => Err(OutOfMemory),
    }
}
