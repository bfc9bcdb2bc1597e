//! The reasons why a run of literals has no value.
ghost use Rattle.std.specs.Prelude.{◌≡◌};
ghost use Rattle.rl_pystr.specs.declared.fault.StrError.TheVariants as error;

use rl_lists::OutOfMemory;
use std::alloc::AllocError;

/// Why a run of literals has no value. Each number is a byte index in the source, counted from 0.
#[derive(Clone, Copy)]
pub enum StrError {
    /// A literal is an f-string.
    FString,
    /// The run mixes literals of bytes and literals of text.
    Mixed,
    /// An escape has no value. The number is the place of its backslash.
    BadEscape(u32),
    /// An escape gives a character by its name, which relint doesn't look up. The number is the place of its backslash.
    NamedEscape(u32),
    /// A literal of bytes contains a code point of at least 0x80. The number is its place.
    NotAscii(u32),
    /// Memory ran out.
    OutOfMemory,
}

impl From<OutOfMemory> for StrError {
    ghost from_gives = { λ _ e. e ≡ error.OutOfMemory };

    fn from(_: OutOfMemory) -> Self {
        StrError::OutOfMemory
    }
}

impl From<AllocError> for StrError {
    ghost from_gives = { λ _ e. e ≡ error.OutOfMemory };

    fn from(_: AllocError) -> Self {
        StrError::OutOfMemory
    }
}
