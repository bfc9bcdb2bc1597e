//! Why a row fails. A row says what one call of the program must answer.

use rl_lists::OutOfMemory;
use rl_source::MemTreeError;
use std::alloc::{AllocError, AllocFailed, Global};
use std::fmt;

/// Why a row fails: it can't be read, or the answer isn't the one that it expects.
#[derive(Drop)]
pub enum Failure {
    /// This is wrong with the row.
    Message(String),
    /// Memory ran out.
    OutOfMemory,
}

impl Failure {
    /// Returns the failure that a text describes, or that memory ran out while the text was built.
    pub(crate) fn of(text: Result<String, AllocError>) -> Failure {
        match text {
            Ok(text) => Failure::Message(text),
            Err(_) => Failure::OutOfMemory,
        }
    }

    /// Returns the failure that this text describes.
    pub(crate) fn with_message(alloc: Global, text: &str) -> Failure {
        Failure::of(String::from_str(alloc, text))
    }
}

impl fmt::Display for Failure {
    fn fmt<W: fmt::Write>(&self, f: &mut fmt::Formatter<W>) -> fmt::Result {
        match self {
            Failure::Message(text) => write!(f, "{text}"),
            Failure::OutOfMemory => write!(f, "out of memory"),
        }
    }
}

impl From<AllocError> for Failure {
    fn from(_: AllocError) -> Failure {
        Failure::OutOfMemory
    }
}

impl<T: Drop> From<AllocFailed<T>> for Failure {
    fn from(_: AllocFailed<T>) -> Failure {
        Failure::OutOfMemory
    }
}

impl From<OutOfMemory> for Failure {
    fn from(_: OutOfMemory) -> Failure {
        Failure::OutOfMemory
    }
}

// The paths of a tree are the keys of a map, so none of them appears twice.
impl From<MemTreeError> for Failure {
    fn from(_: MemTreeError) -> Failure {
        Failure::OutOfMemory
    }
}

/// Returns the failure that says what the bytes are and what they should be.
fn differ(alloc: Global, what: &str, got: &[u8], wanted: &[u8]) -> Result<(), Failure> {
    let got = String::from_utf8_lossy(alloc, got)?;
    let wanted = String::from_utf8_lossy(alloc, wanted)?;
    Err(Failure::of(format!(in alloc; "{what} is {got:?} and should be {wanted:?}")))
}

/// Fails unless the bytes `got` are equal to the bytes `wanted`. The failure names them `what` and shows both. If memory runs
/// out while it is built, the failure says so.
pub fn same(alloc: Global, what: &str, got: &[u8], wanted: &[u8]) -> Result<(), Failure> {
    if got == wanted {
        Ok(())
    } else {
        differ(alloc, what, got, wanted)
    }
}

/// Fails unless the number `got` is equal to `wanted`. The failure names it `what` and shows both numbers. If memory runs out
/// while it is built, the failure says so.
pub fn same_number(alloc: Global, what: &str, got: u64, wanted: u64) -> Result<(), Failure> {
    if got == wanted {
        Ok(())
    } else {
        Err(Failure::of(format!(in alloc; "{what} is {got} and should be {wanted}")))
    }
}
