//! Line ends and digits at the beginning of a text, which is a list of code points.
ghost use Rattle.std.specs.Prelude.{◌≡◌, ℕ, ◌+◌, ◌<◌, ◌≤◌, ◌^◌, min, length, not, ◌==◌, true};
ghost use Rattle.std.specs.List.{prefix_len, list_all};
ghost use Rattle.std.specs.Char.{digit_value};
ghost use Rattle.rl_pylex.specs.Bytes.{line_end};
ghost use Rattle.rl_pystr.specs.Escapes.{is_octal, is_hex, number_of, has_hex};

/// Returns the number of code points in the line end that the text begins with: 2 for CR LF, 1 for any other CR or LF, and 0
/// if it doesn't begin with a line end.
#[tactic(auto, unfolding(rl_pylex::specs::Bytes::line_end))]
pub fn line_end(text: &[char]) -> usize
    ensures value { result ≡ line_end text.now }
    ensures within { result ≤ length text.now }
{
    match text {
        ['\r', '\n', ..] => 2,
        ['\n' | '\r', ..] => 1,
        _ => 0,
    }
}

/// Whether the code point is an octal digit, `0` to `7`.
pub fn is_octal(code: char) -> bool
    ensures { result ≡ is_octal code }
{
    code.is_digit(8)
}

fn is_hex(code: char) -> bool
    ensures { result ≡ is_hex code }
{
    code.is_digit(16)
}

/// Returns the number of octal digits that the text begins with, but at most `most`.
#[tactic(auto, using(crate::proofs::Numbers::octals))]
pub fn octal_size(most: usize, text: &[char]) -> usize
    ensures value { result ≡ min most (prefix_len is_octal text.now) }
    ensures within { result ≤ length text.now }
    ensures few { result ≤ most }
{
    match text {
        [digit, rest @ ..] if most > 0 && is_octal(*digit) => 1 + octal_size(most - 1, rest),
        _ => 0,
    }
}

fn are_hex(digits: &[char]) -> bool
    ensures { result ≡ list_all is_hex digits.now }
{
    digits.iter().all(|digit| is_hex(*digit))
}

/// Whether the text begins with at least `count` hexadecimal digits, in upper or lower case.
#[tactic(auto, unfolding(crate::specs::Escapes::has_hex))]
pub fn has_hex(count: usize, text: &[char]) -> bool
    ensures value { result ≡ has_hex count text.now }
    ensures within { result ≡ true → count ≤ length text.now }
{
    count <= text.len() && are_hex(&text[..count])
}

/// Returns the value of a digit or a letter, and 36 for any other code point.
fn digit_value(code: char) -> u64
    ensures value { result ≡ digit_value code }
    ensures within { result ≤ 36 }
{
    match code.to_digit(36) {
        Some(digit) => digit as u64,
        None => 36,
    }
}

/// Returns the number that at most eight digits spell in the base `base`, which is at most 16, the most significant first. No
/// digits give 0.
pub fn number_of(base: u64, digits: &[char]) -> u64
    requires base { base ≤ 16 }
    requires few { length digits.now ≤ 8 }
    ensures { result ≡ number_of base digits.now }
{
    let mut number = 0;
    for digit in digits {
        number = number * base + digit_value(*digit);
    }
    number
}
