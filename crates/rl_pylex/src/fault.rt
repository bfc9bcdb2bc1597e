//! The faults that keep a source from being cut into tokens.
ghost use Rattle.std.specs.Prelude.{◌≡◌};
ghost use Rattle.rl_pylex.specs.declared.fault.LexError.TheVariants as error;

use rl_lists::OutOfMemory;

/// Why a source can't be cut into tokens. Each number is a byte index in the source, counted from 0. A byte order mark counts.
#[derive(Clone, Copy, Debug, PartialEq, Eq)]
pub enum LexError {
    /// The source isn't UTF-8. The number is the length of its longest prefix that is UTF-8.
    NotUtf8(u32),
    /// The coding line names its coding by none of the six accepted names of UTF-8 and ASCII. The number is the place of the
    /// name.
    Coding(u32),
    /// A literal has no end. The number is the place where the literal begins.
    Unterminated(u32),
    /// The source has more than 4,194,304 bytes.
    FileTooLong,
    /// No token begins with the code point at this place, and it isn't white space or a backslash that joins two lines.
    StrayCode(u32),
    /// Memory ran out.
    OutOfMemory,
}

impl From<OutOfMemory> for LexError {
    ghost from_gives = { λ _ e. e ≡ error.OutOfMemory };

    fn from(_: OutOfMemory) -> Self {
        LexError::OutOfMemory
    }
}
