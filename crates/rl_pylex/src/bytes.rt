//! Classes of bytes, line ends, and the beginning of a text.
ghost use Rattle.std.specs.Prelude.{◌≡◌, ℕ, ◌+◌, ◌≤◌, ◌||◌, drop, length};
ghost use Rattle.std.specs.List.{prefix_len};
ghost use Rattle.rl_pylex.specs.Bytes.{has_at, is_blank, is_backslash, is_quote, ends_line, in_line, starts_name, in_name, in_number, is_operator, opens_bracket, closes_bracket, line_end, text_start};
ghost use Rattle.rl_pylex.specs.internal.Rows.{is_plain_operator};
ghost use Rattle.rl_pylex.specs.internal.Absence.{is_ordinary};

use crate::blocks::{BLOCK, line_in_block};
use crate::tables::{
    BLANKS, CLOSING_BRACKETS, NAME_BYTES, OPENING_BRACKETS, ORDINARY_BYTES, PLAIN_OPERATORS,
};
use memchr::memchr2;

/// Whether the byte is a space, a tab or a form feed.
pub fn is_blank(byte: u8) -> bool
    ensures { result ≡ is_blank byte }
{
    BLANKS[byte as usize]
}

/// Whether the byte is a quote, single or double.
pub fn is_quote(byte: u8) -> bool
    ensures { result ≡ is_quote byte }
{
    matches!(byte, b'"' | b'\'')
}

/// Whether the byte is a CR or an LF.
pub fn ends_line(byte: u8) -> bool
    ensures { result ≡ ends_line byte }
{
    matches!(byte, b'\n' | b'\r')
}

/// Whether the byte can begin a name: an ASCII letter, `_` or a byte of at least 0x80.
pub fn starts_name(byte: u8) -> bool
    ensures { result ≡ starts_name byte }
{
    byte.is_ascii_alphabetic() || byte == b'_' || byte > 127
}

/// Whether the byte can continue a name: a byte that can begin one, or a digit.
pub fn in_name(byte: u8) -> bool
    ensures { result ≡ in_name byte }
{
    NAME_BYTES[byte as usize]
}

/// Whether the byte can continue a number: an ASCII letter, a digit, `_` or `.`.
pub fn in_number(byte: u8) -> bool
    ensures { result ≡ in_number byte }
{
    byte.is_ascii_alphanumeric() || byte == b'_' || byte == b'.'
}

/// Whether the byte is an operator character, a delimiter such as `.` or `,`, or a bracket. Each is a token of the kind `Op`.
pub fn is_operator(byte: u8) -> bool
    ensures { result ≡ is_operator byte }
{
    is_plain_operator(byte) || byte == b'.'
}

/// Whether the byte is an operator character, a delimiter or a bracket, but not a `.`, which can also begin a number.
pub fn is_plain_operator(byte: u8) -> bool
    ensures { result ≡ is_plain_operator byte }
{
    PLAIN_OPERATORS[byte as usize]
}

/// Whether the byte is ordinary: a space, a tab, a form feed, a CR, an LF, a byte of a name, or a byte of the kind `Op`. The
/// other bytes are quotes, `#`, backslashes, and those that no token begins with.
pub fn is_ordinary(byte: u8) -> bool
    ensures { result ≡ is_ordinary byte }
{
    ORDINARY_BYTES[byte as usize]
}

/// Whether the byte is an opening bracket.
pub fn opens_bracket(byte: u8) -> bool
    ensures { result ≡ opens_bracket byte }
{
    OPENING_BRACKETS[byte as usize]
}

/// Whether the byte is a closing bracket.
pub fn closes_bracket(byte: u8) -> bool
    ensures { result ≡ closes_bracket byte }
{
    CLOSING_BRACKETS[byte as usize]
}

/// Returns the bytes of the text from the index `at`, counted from 0, to the end. `at` must not be greater than the length.
pub fn rest_from(text: &[u8], at: usize) -> &[u8]
    requires { at ≤ length text.now }
    ensures { result.now ≡ drop at text.now }
{
    &text[at..]
}

/// Returns the number of bytes in the line end that the text begins with: 2 for CR LF, 1 for any other CR or LF, and 0 if it
/// doesn't begin with a line end.
#[tactic(auto, unfolding(crate::specs::Bytes::line_end))]
pub fn line_end(text: &[u8]) -> usize
    ensures value { result ≡ line_end text.now }
    ensures within { result ≤ length text.now }
{
    match text {
        [b'\r', b'\n', ..] => 2,
        [b'\n' | b'\r', ..] => 1,
        _ => 0,
    }
}

/// Returns the index of the byte at which the text of a source begins: 3 if the source begins with the byte order mark EF BB
/// BF, otherwise 0.
#[tactic(auto, unfolding(crate::specs::Bytes::text_start))]
pub fn text_start(source: &[u8]) -> usize
    ensures value { result ≡ text_start source.now }
    ensures within { result ≤ length source.now }
{
    if source.starts_with(b"\xEF\xBB\xBF") {
        3
    } else {
        0
    }
}

#[tactic(auto, using(crate::proofs::Runs::runs))]
fn line_size_slowly(text: &[u8]) -> usize
    ensures value { result ≡ prefix_len in_line text.now }
    ensures within { result ≤ length text.now }
{
    memchr2(b'\n', b'\r', text).unwrap_or(text.len())
}

/// Returns the number of bytes before the first CR or LF or, if there is none, before the end of the text.
pub fn line_size(text: &[u8]) -> usize
    ensures value { result ≡ prefix_len in_line text.now }
    ensures within { result ≤ length text.now }
{
    let mut at = 0;
    while text.len() - at >= BLOCK {
        let inside = line_in_block(text, at);
        if inside < BLOCK {
            return at + inside;
        }
        at += BLOCK;
    }
    at + line_size_slowly(rest_from(text, at))
}

/// Returns the number of spaces, tabs and form feeds that the text begins with.
#[tactic(auto, using(crate::proofs::Runs::runs))]
pub fn blank_size(text: &[u8]) -> usize
    ensures value { result ≡ prefix_len is_blank text.now }
    ensures within { result ≤ length text.now }
{
    text.iter()
        .position(|byte| !is_blank(*byte))
        .unwrap_or(text.len())
}
