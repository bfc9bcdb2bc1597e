//! The reasons why a walk over sets can't go on. A walk is a list of different sets of states with a limit on their number;
//! the number of a set is its index in the list, from 0. A refused rest of a set is a list of letters, followed by the end
//! letter, that no member of the set accepts.

ghost use Rattle.std.specs.Prelude.{◌≡◌};

use rl_lists::OutOfMemory;
use std::alloc::{AllocError, AllocFailed};

/// The reason why a set gets no number, or why the search for a refused rest stops.
#[derive(Clone, Copy, Debug, PartialEq, Eq)]
pub enum SetsError {
    /// A new set would have to be appended, but the walk has as many sets as its limit allows.
    Sets,
    /// Out of memory.
    OutOfMemory,
}

impl From<OutOfMemory> for SetsError {
    ghost use Rattle.rl_sets.specs.declared.error.SetsError.TheVariants as error;

    ghost from_gives = { λ _ e. e ≡ error.OutOfMemory };

    /// Returns [`SetsError::OutOfMemory`].
    fn from(_: OutOfMemory) -> Self {
        SetsError::OutOfMemory
    }
}

impl From<AllocError> for SetsError {
    ghost use Rattle.rl_sets.specs.declared.error.SetsError.TheVariants as error;

    ghost from_gives = { λ _ e. e ≡ error.OutOfMemory };

    /// Returns [`SetsError::OutOfMemory`].
    fn from(_: AllocError) -> Self {
        SetsError::OutOfMemory
    }
}

impl<T: Drop> From<AllocFailed<T>> for SetsError {
    ghost use Rattle.rl_sets.specs.declared.error.SetsError.TheVariants as error;

    ghost from_gives = { λ _ e. e ≡ error.OutOfMemory };

    /// Returns [`SetsError::OutOfMemory`].
    fn from(_: AllocFailed<T>) -> Self {
        SetsError::OutOfMemory
    }
}
