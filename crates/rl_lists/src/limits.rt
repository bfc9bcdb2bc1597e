//! The limit on what is read from a file.

ghost use Rattle.std.specs.Prelude.{◌≡◌};
ghost use Rattle.rl_lists.specs.declared.limits.TheConstants.{MOST_BYTES};

/// The maximum length of a source file, in bytes: 4 MiB. A longer file is not split into tokens, and at most one byte
/// beyond the limit is read.
pub const MOST_BYTES: usize = 4_194_304;

/// Does nothing: its contract states the value of the limit, 4,194,304 bytes.
pub fn limits_are()
    ensures bytes { MOST_BYTES ≡ 4194304 }
{}
