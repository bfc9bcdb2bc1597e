//! The limits that a question may give, and those that hold if it gives none.

ghost use Rattle.std.specs.Prelude.{◌≡◌};
ghost use Rattle.rl_asked.specs.declared.limits.TheConstants.{LEAST_LIMIT, MOST_COMPARE_LIMIT, MOST_PAIRS, MOST_SPANS_LIMIT, USUAL_COMPARE_LIMIT, USUAL_PAIRS, USUAL_SPANS_LIMIT};

/// The least number that any limit of a question may be.
pub const LEAST_LIMIT: u32 = 1;

/// The most pairs that a question may let a search for a verdict or for a suggestion look at.
pub const MOST_PAIRS: u32 = 1_000;

/// How many pairs these searches may look at if the question doesn't say.
pub const USUAL_PAIRS: u32 = 1_000;

/// The most set pairs that a question may let a comparison of matched texts look at.
pub const MOST_COMPARE_LIMIT: u32 = 20_000;

/// How many set pairs a comparison of matched texts may look at if the question doesn't say.
pub const USUAL_COMPARE_LIMIT: u32 = 10_000;

/// The most pairs of thread lists that a question may let a comparison of spans reach.
pub const MOST_SPANS_LIMIT: u32 = 999_999;

/// How many pairs of thread lists a comparison of spans may reach if the question doesn't say.
pub const USUAL_SPANS_LIMIT: u32 = 6_000;

/// The numbers of the limits.
pub fn limits_are()
    ensures least { LEAST_LIMIT ≡ 1 }
    ensures most_pairs { MOST_PAIRS ≡ 1000 }
    ensures usual_pairs { USUAL_PAIRS ≡ 1000 }
    ensures most_compare { MOST_COMPARE_LIMIT ≡ 20000 }
    ensures usual_compare { USUAL_COMPARE_LIMIT ≡ 10000 }
    ensures most_spans { MOST_SPANS_LIMIT ≡ 999999 }
    ensures usual_spans { USUAL_SPANS_LIMIT ≡ 6000 }
{}
