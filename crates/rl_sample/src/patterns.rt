//! The numbers of the generator, and the patterns that they select.
ghost use Rattle.std.specs.Prelude.{◌≡◌, ◌<◌, ◌^◌};
ghost use Rattle.rl_sample.specs.Generator.{next_value, pattern_of};

/// Returns the number that follows `value` in the linear congruential generator: (`value` * 1103515245 + 12345) modulo 2^31.
/// `value` must be less than 2^31, as all its numbers are.
pub fn next_value(value: u32) -> u32
    requires { value < 2 ^ 31 }
    ensures follows { result ≡ next_value value }
    ensures below { result < 2 ^ 31 }
{
    ((u64::from(value) * 1_103_515_245 + 12_345) % 2_147_483_648) as u32
}

/// Returns the pattern that the number selects: its bits 16 to 18, counted from 0 at the lowest, are the index, from 0, in the
/// list of the eight patterns.
pub fn pattern_of(value: u32) -> &'static str
    ensures { result.now ≡ pattern_of value }
{
    match value / 65_536 % 8 {
        0 => "[a-z]+",
        1 => "abc",
        2 => "(?:a|a)*",
        3 => "a*a*",
        4 => "a*a*a*",
        5 => "(?=a)b",
        6 => "\\d+\\.\\d+",
        _ => "(?:a*)*",
    }
}
