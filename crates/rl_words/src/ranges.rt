//! The ranges of the numbers in options, settings files and the arguments of `sample`.
ghost use Rattle.std.specs.Prelude.{◌≡◌};
ghost use Rattle.rl_words.specs.Values.{is_within};
ghost use Rattle.rl_words.specs.declared.ranges.TheConstants.{COUNTS, MAX_DEGREES, MAX_PAIRS, REPORT_VERSIONS, SEEDS};

/// The numbers from `low` to `high`, both included.
#[derive(Clone, Copy)]
pub struct NumberRange {
    /// The least number.
    pub low: u32,
    /// The greatest number.
    pub high: u32,
}

/// The numbers that the option and the setting `max-degree` can have.
pub const MAX_DEGREES: NumberRange = NumberRange {
    low: 0,
    high: 999_999,
};

/// The numbers that the option and the setting `max-pairs` can have.
pub const MAX_PAIRS: NumberRange = NumberRange { low: 1, high: 1000 };

/// The numbers that the option and the setting `report` can have, which are the versions of reports.
pub const REPORT_VERSIONS: NumberRange = NumberRange { low: 1, high: 2 };

/// The numbers that the argument SEED of `sample` can be.
pub const SEEDS: NumberRange = NumberRange {
    low: 0,
    high: 2_147_483_647,
};

/// The numbers that the argument COUNT of `sample` can be.
pub const COUNTS: NumberRange = NumberRange {
    low: 1,
    high: 20_000,
};

/// Does nothing: its contract states the ends of the ranges. Degrees are from 0 to 999,999, pairs from 1 to 1,000, report
/// versions from 1 to 2, seeds from 0 to 2,147,483,647, and counts from 1 to 20,000.
pub fn limits_are()
    ensures degrees { MAX_DEGREES ≡ record { low = 0; high = 999999 } }
    ensures pairs { MAX_PAIRS ≡ record { low = 1; high = 1000 } }
    ensures reports { REPORT_VERSIONS ≡ record { low = 1; high = 2 } }
    ensures seeds { SEEDS ≡ record { low = 0; high = 2147483647 } }
    ensures counts { COUNTS ≡ record { low = 1; high = 20000 } }
{}

impl NumberRange {
    /// Returns whether the number is in the range, which includes its ends.
    pub fn has(self, number: u32) -> bool
        ensures { result ≡ is_within self number }
    {
        self.low <= number && number <= self.high
    }
}
