//! Why the words of the command line couldn't be read.

/// Why words couldn't be read.
#[derive(Clone, Copy)]
pub enum WordsError {
    /// The words aren't a valid call.
    Invalid,
    /// There was not enough memory.
    OutOfMemory,
}
