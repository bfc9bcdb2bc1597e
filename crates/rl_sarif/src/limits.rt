//! The limit on what is read as a baseline.

ghost use Rattle.std.specs.Prelude.{◌≡◌};
ghost use Rattle.rl_sarif.specs.declared.limits.TheConstants.{MOST_BASELINE_BYTES};

/// The most bytes of a baseline. Longer input is refused.
pub const MOST_BASELINE_BYTES: usize = 67_108_864;

/// The number of the limit: 67,108,864 bytes.
pub fn limits_are()
    ensures bytes { MOST_BASELINE_BYTES ≡ 67108864 }
{}
