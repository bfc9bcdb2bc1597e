//! The limits on what the words of a call hold, and on what is read of the files that they name.

ghost use Rattle.std.specs.Prelude.{◌≡◌, ◌-◌, ◌^◌};
ghost use Rattle.rl_lint.specs.declared.limits.TheConstants.{MOST_READ, MOST_TEXT_CODES, WHOLE_FILE};

/// The most characters of the text of `cost`. A longer one is refused.
pub const MOST_TEXT_CODES: usize = 65_536;

/// The most bytes that are read of a baseline or a certificate: one more than either may have, so a longer file is seen to be
/// too long.
pub const MOST_READ: usize = 67_108_865;

/// The most bytes that are asked for of a settings file: more than any answer has, so it is read whole.
pub const WHOLE_FILE: usize = usize::MAX;

/// The numbers of the limits: 65,536 characters of a text, 67,108,865 bytes of a baseline or a certificate, and 2^64 - 1 bytes
/// of a settings file.
pub fn limits_are()
    ensures text_codes { MOST_TEXT_CODES ≡ 65536 }
    ensures read { MOST_READ ≡ 67108865 }
    ensures whole { WHOLE_FILE ≡ 2 ^ 64 - 1 }
{}
