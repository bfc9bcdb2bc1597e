//! A literal: its prefix, its quotes, and the search for the quotes that close it.
ghost use Rattle.std.specs.Prelude.{◌≡◌, ℕ, ◌+◌, ◌<◌, ◌≤◌, ◌⊎◌, IsTrue, [], ◌∷◌, length, drop, IfSome, option_map, false, true, ◌&&◌, ◌==◌};
ghost use Rattle.std.specs.List.{prefix_len};
ghost use Rattle.std.specs.Str.{str_to_ascii_lowercase};
ghost use Rattle.rl_pylex.specs.Bytes.{has_at, is_quote, ends_line};
ghost use Rattle.rl_pylex.specs.Literals.{is_prefix, opens_after, prefix_size, quotes_at, quote_count, unit_size, close_from, size_after};
ghost use Rattle.rl_pylex.specs.internal.Rows.{starts_literal};
ghost use Rattle.rl_pylex.specs.internal.Bodies.{is_long_plain, Skips, is_plain};

use crate::blocks::{BLOCK, plain_in_block};
use crate::bytes::{ends_line, is_quote, rest_from};
use crate::tables::LITERAL_STARTS;
use memchr::memchr2;

/// Whether the byte is a quote or one of the letters r, u, b and f, in upper or lower case. Every literal begins with such a
/// byte.
pub fn starts_literal(byte: u8) -> bool
    ensures { result ≡ starts_literal byte }
{
    LITERAL_STARTS[byte as usize]
}

fn is_prefix_letter(letter: u8) -> bool
    ensures { result ≡ is_prefix (str_to_ascii_lowercase (letter ∷ [])) }
{
    matches!(letter.to_ascii_lowercase(), b'r' | b'u' | b'b' | b'f')
}

fn are_prefix_letters(first: u8, second: u8) -> bool
    ensures { result ≡ is_prefix (str_to_ascii_lowercase (first ∷ second ∷ [])) }
{
    matches!(
        (first.to_ascii_lowercase(), second.to_ascii_lowercase()),
        (b'b' | b'f', b'r') | (b'r', b'b' | b'f')
    )
}

/// Returns the length of the prefix of the literal that the text begins with, if it begins with one.
#[tactic(auto, unfolding(crate::specs::Literals::prefix_size, crate::specs::Literals::opens_after))]
fn find_prefix(text: &[u8]) -> Option<usize>
    ensures { result ≡ prefix_size text.now }
{
    match text {
        [a, ..] if is_quote(*a) => Some(0),
        [a, b, ..] if is_quote(*b) && is_prefix_letter(*a) => Some(1),
        [a, b, c, ..] if is_quote(*c) && are_prefix_letters(*a, *b) => Some(2),
        _ => None,
    }
}

/// Returns the number of bytes in the prefix with which the text begins, if a quote directly follows it: 0, 1 or 2. Returns
/// `None` if the text doesn't begin with a prefix and a quote.
#[tactic(auto, using(crate::proofs::Fronts::prefixes))]
pub fn prefix_size(text: &[u8]) -> Option<usize>
    ensures value { result ≡ prefix_size text.now }
    ensures within { IfSome result (λ n. n < length text.now) }
    ensures quote { IfSome result (λ n. has_at is_quote n text.now ≡ true) }
{
    find_prefix(text)
}

/// Returns the number of quotes that open a literal, given the text from its first quote on: 3 if the text begins with three
/// equal quotes, otherwise 1. The text must not be empty.
#[tactic(auto, unfolding(crate::specs::Literals::quote_count))]
pub fn quote_count(text: &[u8]) -> usize
    requires { 0 < length text.now }
    ensures value { result ≡ quote_count text.now }
    ensures within { result ≤ length text.now }
    ensures counts { (result ≡ 1) ⊎ (result ≡ 3) }
{
    match text {
        [a, b, c, ..] if *a == *b && *a == *c => 3,
        _ => 1,
    }
}

fn quotes_at(text: &[u8], count: usize, quote: u8) -> bool
    requires { (count ≡ 1) ⊎ (count ≡ 3) }
    ensures value { result ≡ quotes_at count quote text.now }
    ensures within { IsTrue result → count ≤ length text.now }
{
    if count == 3 {
        text.starts_with(&[quote, quote, quote])
    } else {
        text.starts_with(&[quote])
    }
}

fn is_plain(byte: u8) -> bool
    ensures { result ≡ is_plain byte }
{
    !(is_quote(byte) || byte == b'\\' || ends_line(byte))
}

#[tactic(auto, using(crate::proofs::Runs::runs))]
fn plain_size_slowly(text: &[u8]) -> usize
    ensures value { result ≡ prefix_len is_plain text.now }
    ensures within { result ≤ length text.now }
{
    text.iter()
        .position(|byte| !is_plain(*byte))
        .unwrap_or(text.len())
}

/// Returns the number of bytes of a literal's body, from its beginning, that can be skipped one by one.
fn plain_size(text: &[u8]) -> usize
    ensures value { result ≡ prefix_len is_plain text.now }
    ensures within { result ≤ length text.now }
{
    let mut at = 0;
    while text.len() - at >= BLOCK {
        let plain = plain_in_block(text, at);
        if plain < BLOCK {
            return at + plain;
        }
        at += BLOCK;
    }
    at + plain_size_slowly(rest_from(text, at))
}

/// Returns the number of bytes of a body between triple quotes, from its beginning, that can be skipped one by one.
#[tactic(auto, using(crate::proofs::Runs::runs))]
fn long_plain_size(text: &[u8], quote: u8) -> usize
    ensures value { result ≡ prefix_len (is_long_plain quote) text.now }
    ensures within { result ≤ length text.now }
{
    memchr2(quote, b'\\', text).unwrap_or(text.len())
}

/// Returns the number of bytes of a body, from its beginning, that can be skipped one by one.
#[tactic(auto, using(crate::proofs::Closing::runs))]
fn run_size(body: &[u8], count: usize, quote: u8) -> usize
    requires counts { 0 < count }
    requires quotes { is_quote quote ≡ true }
    ensures skips { Skips count quote result body.now }
    ensures within { result ≤ length body.now }
{
    if count == 3 {
        long_plain_size(body, quote)
    } else {
        plain_size(body)
    }
}

/// Returns the number of bytes of a literal's body, from its beginning, that belong together.
#[tactic(auto, unfolding(crate::specs::Literals::unit_size))]
fn unit_size(text: &[u8]) -> usize
    ensures value { result ≡ unit_size text.now }
    ensures some { 0 < result }
    ensures few { result ≤ 3 }
{
    match text {
        [b'\\', b'\r', b'\n', ..] => 3,
        [b'\\', ..] => 2,
        _ => 1,
    }
}

/// Returns the number of bytes of a body to skip, if it doesn't begin with the closing quotes or a fault.
#[tactic(auto, using(crate::proofs::Closing::skips))]
fn skip(body: &[u8], count: usize, quote: u8) -> usize
    requires some { 0 < length body.now }
    requires counts { 0 < count }
    requires quotes { is_quote quote ≡ true }
    requires other { quotes_at count quote body.now ≡ false }
    requires line { (count == 1 && has_at ends_line 0 body.now) ≡ false }
    ensures skips { Skips count quote result body.now }
    ensures moves { 0 < result }
    ensures bound { result ≤ length body.now + 3 }
{
    let unit = unit_size(body);
    if unit >= body.len() {
        return unit;
    }
    unit + run_size(rest_from(body, unit), count, quote)
}

fn breaks_line(body: &[u8], count: usize) -> bool
    requires { 0 < length body.now }
    ensures { result ≡ (count == 1 && has_at ends_line 0 body.now) }
{
    count == 1 && ends_line(body[0])
}

/// Returns the number of bytes up to the end of the closing quotes, which are `count` of `quote`, if there are any.
fn close_from(body: &[u8], count: usize, quote: u8) -> Option<usize>
    requires counts { (count ≡ 1) ⊎ (count ≡ 3) }
    requires quotes { is_quote quote ≡ true }
    ensures value { result ≡ close_from count quote 0 body.now }
    ensures within { IfSome result (λ m. m ≤ length body.now) }
{
    let mut at = 0;
    while at < body.len() {
        let rest = rest_from(body, at);
        if quotes_at(rest, count, quote) {
            return Some(at + count);
        }
        if breaks_line(rest, count) {
            return None;
        }
        at += skip(rest, count, quote);
    }
    None
}

/// Returns the number of bytes in the literal that the text begins with, from its prefix of `n` bytes to its closing quotes,
/// or `None` if nothing closes it: the text ends or, with single quotes, the line. There must be a quote at the index `n`.
#[tactic(auto, using(crate::proofs::Fronts::quote_at), unfolding(crate::specs::Literals::size_after))]
pub fn size_after(text: &[u8], n: usize) -> Option<usize>
    requires within { n < length text.now }
    requires quote { has_at is_quote n text.now ≡ true }
    ensures value { result ≡ size_after n text.now }
    ensures within { IfSome result (λ m. m ≤ length text.now) }
{
    let quotes = quote_count(rest_from(text, n));
    let close = close_from(rest_from(text, n + quotes), quotes, text[n])?;
    Some(n + quotes + close)
}
