//! The limits on a pattern as it is written.

ghost use Rattle.std.specs.Prelude.{◌≡◌};
ghost use Rattle.rl_pattern.specs.declared.limits.TheConstants.{MOST_CODES, MOST_OPEN_GROUPS};

/// The maximum length of a pattern, in codes: code points of a `str`, bytes of a `bytes`. A longer pattern isn't read.
pub const MOST_CODES: usize = 10_000;

/// The maximum number of groups that are open at the same position. A pattern that opens one more is refused.
pub const MOST_OPEN_GROUPS: usize = 100;

/// States that the limits are 10,000 codes and 100 open groups.
pub fn limits_are()
    ensures codes { MOST_CODES ≡ 10000 }
    ensures open_groups { MOST_OPEN_GROUPS ≡ 100 }
{}
