//! The limit on groups.

ghost use Rattle.std.specs.Prelude.{◌≡◌};
ghost use Rattle.rl_marks.specs.declared.limits.TheConstants.{MOST_GROUPS};

/// The maximum number of capturing groups of a pattern. No tree with groups is made of a pattern with more.
pub const MOST_GROUPS: u32 = 100;

/// States that the limit is 100 groups.
pub fn limits_are()
    ensures groups { MOST_GROUPS ≡ 100 }
{}
