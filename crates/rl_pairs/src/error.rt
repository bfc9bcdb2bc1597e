//! The reasons why a graph of live pairs isn't made. A pair is a state of the automaton with a set: the states that were tried
//! before it. A rest is a list of letters followed by the end letter; a set refuses it if none of its members accepts it. A
//! live pair is the first pair, or a pair whose set refuses some rest and to which a live pair has a move.

ghost use Rattle.std.specs.Prelude.{◌≡◌};

use rl_lists::OutOfMemory;
use rl_sets::SetsError;
use std::alloc::{AllocError, AllocFailed};

/// The reason why there is no graph of live pairs.
#[derive(Clone, Copy, Debug, PartialEq, Eq)]
pub enum PairsError {
    /// There are more than 20,000 counted sets: sets of the pairs to which live pairs have moves, and images of counted sets
    /// without the accepting state.
    Sets,
    /// There are more live pairs than the caller allows.
    Pairs,
    /// Out of memory.
    OutOfMemory,
}

impl From<SetsError> for PairsError {
    ghost use Rattle.std.specs.Prelude.{◌≡◌};
    ghost use Rattle.rl_pairs.specs.Errors.{sets_error};

    ghost from_gives = { λ x e. e ≡ sets_error x };

    fn from(error: SetsError) -> Self {
        match error {
            SetsError::Sets => PairsError::Sets,
            SetsError::OutOfMemory => PairsError::OutOfMemory,
        }
    }
}

impl From<OutOfMemory> for PairsError {
    ghost use Rattle.rl_pairs.specs.declared.error.PairsError.TheVariants as error;

    ghost from_gives = { λ _ e. e ≡ error.OutOfMemory };

    fn from(_: OutOfMemory) -> Self {
        PairsError::OutOfMemory
    }
}

impl From<AllocError> for PairsError {
    ghost use Rattle.rl_pairs.specs.declared.error.PairsError.TheVariants as error;

    ghost from_gives = { λ _ e. e ≡ error.OutOfMemory };

    fn from(_: AllocError) -> Self {
        PairsError::OutOfMemory
    }
}

impl<T: Drop> From<AllocFailed<T>> for PairsError {
    ghost use Rattle.rl_pairs.specs.declared.error.PairsError.TheVariants as error;

    ghost from_gives = { λ _ e. e ≡ error.OutOfMemory };

    fn from(_: AllocFailed<T>) -> Self {
        PairsError::OutOfMemory
    }
}
