//! The reasons why the parts of a pattern aren't written.

ghost use Rattle.std.specs.Prelude.{◌≡◌};
ghost use Rattle.rl_parts.specs.declared.error.TheConstants.{MOST_NUMBERS};

use rl_lists::OutOfMemory;
use std::alloc::AllocFailed;

/// The maximum number of capturing groups, which are numbered from 1: one less than the largest `u32`.
pub const MOST_NUMBERS: u32 = 4_294_967_294;

/// States that the limit is 4,294,967,294 groups.
pub fn limits_are()
    ensures numbers { MOST_NUMBERS ≡ 4294967294 }
{}

/// The reason why the parts of a pattern aren't written.
#[derive(Clone, Copy, Debug, PartialEq, Eq)]
pub enum PartsError {
    /// The sets of the pattern have more than [`MOST_LETTERS`](rl_ranges::MOST_LETTERS) letters.
    Letters,
    /// The pattern has more than [`MOST_NUMBERS`] capturing groups.
    Groups,
    /// There was not enough memory.
    OutOfMemory,
}

impl From<OutOfMemory> for PartsError {
    ghost use Rattle.std.specs.Prelude.{◌≡◌};
    ghost use Rattle.rl_parts.specs.declared.error.PartsError.TheVariants as error;

    ghost from_gives = { λ _ e. e ≡ error.OutOfMemory };

    fn from(_: OutOfMemory) -> Self {
        PartsError::OutOfMemory
    }
}

impl<T: Drop> From<AllocFailed<T>> for PartsError {
    ghost use Rattle.std.specs.Prelude.{◌≡◌};
    ghost use Rattle.rl_parts.specs.declared.error.PartsError.TheVariants as error;

    ghost from_gives = { λ _ e. e ≡ error.OutOfMemory };

    fn from(_: AllocFailed<T>) -> Self {
        PartsError::OutOfMemory
    }
}
