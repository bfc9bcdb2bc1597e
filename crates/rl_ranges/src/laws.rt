//! A law of the definitions, which holds for all tests and lists. The function does nothing; its `ensures` clauses are the law.
//!
//! A range is a pair: its first code and its last code.

ghost use Rattle.std.specs.Prelude.{◌≡◌, ℕ, Bool, ◌&&◌, nat_lt, List};
ghost use Rattle.rl_ranges.specs.Codes.{has, Above};
ghost use Rattle.rl_ranges.specs.Listed.{ranges_below};

/// States that a list of ranges that are in ascending order and don't touch is determined by the codes that it holds, and that
/// each test of codes has such a list, which holds the codes below `n` that satisfy the test.
pub fn ranges_stand_for_sets()
    ensures members { (n : ℕ) (test : ℕ → Bool) (c : ℕ) → has (ranges_below n test) c ≡ (nat_lt c n && test c) }
    ensures sorted { (n : ℕ) (test : ℕ → Bool) → Above 0 (ranges_below n test) }
    ensures unique { (r s : List (ℕ × ℕ)) → Above 0 r → Above 0 s → ((c : ℕ) → has r c ≡ has s c) → r ≡ s }
{}
