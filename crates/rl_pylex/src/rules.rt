//! The rules of tokens, each applied to the text from some place on. A piece is what a rule takes there. The bracket depth is
//! the number of brackets that are open at the place.
ghost use Rattle.std.specs.Prelude.{◌≡◌, ℕ, ◌+◌, ◌^◌, ◌<◌, ◌≤◌, length, drop, not, ◌&&◌, ◌||◌, Option};
ghost use Rattle.std.specs.List.{prefix_len};
ghost use Rattle.rl_pylex.specs.Bytes.{has_at, is_backslash, starts_name, in_name, in_number};
ghost use Rattle.rl_pylex.specs.Rules.{takes_if, blank, joined_line, new_line, comment, literal, name, number, operator, reading_by, first_of_rows, reading, depth_after};
ghost use Rattle.rl_pylex.specs.internal.Rows.{IsBoundedReading, line_end_kind, starts_number, number_rows, literal_rows, starts_literal};

use crate::TokenKind;
use crate::bytes::{
    closes_bracket, ends_line, in_name, in_number, is_blank, is_operator, is_plain_operator,
    line_end, line_size, opens_bracket, rest_from, starts_name,
};
use crate::literals::{prefix_size, size_after, starts_literal};
use crate::tables::PLAIN_NAME_STARTS;

/// The result of a rule at the beginning of a text.
#[derive(Clone, Copy)]
pub enum Fit {
    /// The rule doesn't fit.
    Passes,
    /// The rule fits and takes this number of bytes.
    Takes(usize),
    /// The rule fits, but the literal that begins here has no end.
    Breaks,
}

/// What is read at the beginning of a text.
#[derive(Clone, Copy)]
pub enum Reading {
    /// A piece: the kind of its token, or `None` if it has no token, and its number of bytes.
    Piece(Option<TokenKind>, usize),
    /// A literal without an end.
    Unterminated,
    /// A code point that begins no token.
    Stray,
}

fn takes_if(fits: bool, size: usize) -> Fit
    ensures { result ≡ takes_if fits size }
{
    if fits { Fit::Takes(size) } else { Fit::Passes }
}

#[tactic(auto, unfolding(crate::specs::Rules::blank))]
fn blank(text: &[u8]) -> Fit
    ensures { result ≡ blank text.now }
{
    match text {
        [byte, ..] if is_blank(*byte) => Fit::Takes(1),
        _ => Fit::Passes,
    }
}

/// Returns the result of the rule that takes a backslash directly followed by a line end: `Takes` with the number of bytes of
/// both, or `Passes` if the text doesn't begin with them.
#[tactic(auto, unfolding(crate::specs::Rules::joined_line))]
pub fn joined_line(text: &[u8]) -> Fit
    ensures { result ≡ joined_line text.now }
{
    match text {
        [b'\\', rest @ ..] => {
            let end = line_end(rest);
            takes_if(end != 0, 1 + end)
        }
        _ => Fit::Passes,
    }
}

#[tactic(auto, unfolding(crate::specs::Rules::new_line))]
fn new_line(text: &[u8]) -> Fit
    ensures { result ≡ new_line text.now }
{
    let end = line_end(text);
    takes_if(end != 0, end)
}

#[tactic(auto, unfolding(crate::specs::Rules::comment))]
fn comment(text: &[u8]) -> Fit
    ensures { result ≡ comment text.now }
{
    match text {
        [b'#', ..] => Fit::Takes(line_size(text)),
        _ => Fit::Passes,
    }
}

#[tactic(auto, unfolding(crate::specs::Rules::literal))]
fn literal(text: &[u8]) -> Fit
    ensures { result ≡ literal text.now }
{
    match prefix_size(text) {
        None => Fit::Passes,
        Some(n) => match size_after(text, n) {
            None => Fit::Breaks,
            Some(size) => Fit::Takes(size),
        },
    }
}

fn name_size(text: &[u8]) -> usize
    ensures { result ≡ prefix_len in_name text.now }
{
    text.iter()
        .position(|byte| !in_name(*byte))
        .unwrap_or(text.len())
}

#[tactic(auto, unfolding(crate::specs::Rules::name))]
fn name(text: &[u8]) -> Fit
    ensures { result ≡ name text.now }
{
    match text {
        [byte, ..] if starts_name(*byte) => Fit::Takes(name_size(text)),
        _ => Fit::Passes,
    }
}

fn starts_plain_name(byte: u8) -> bool
    ensures { result ≡ (starts_name byte && not (starts_literal byte)) }
{
    PLAIN_NAME_STARTS[byte as usize]
}

fn number_size(text: &[u8]) -> usize
    ensures { result ≡ prefix_len in_number text.now }
{
    text.iter()
        .position(|byte| !in_number(*byte))
        .unwrap_or(text.len())
}

#[tactic(auto, unfolding(crate::specs::Rules::number))]
fn number(text: &[u8]) -> Fit
    ensures { result ≡ number text.now }
{
    match text {
        [byte, ..] if byte.is_ascii_digit() => Fit::Takes(number_size(text)),
        [b'.', byte, ..] if byte.is_ascii_digit() => Fit::Takes(number_size(text)),
        _ => Fit::Passes,
    }
}

#[tactic(auto, unfolding(crate::specs::Rules::operator))]
fn operator(text: &[u8]) -> Fit
    ensures { result ≡ operator text.now }
{
    match text {
        [byte, ..] if is_operator(*byte) => Fit::Takes(1),
        _ => Fit::Passes,
    }
}

/// Whether the byte is a digit or `.`.
fn starts_number(byte: u8) -> bool
    ensures { result ≡ starts_number byte }
{
    byte.is_ascii_digit() || byte == b'.'
}

fn reading_by(fit: Fit, kind: Option<TokenKind>) -> Option<Reading>
    ensures { result ≡ reading_by fit kind }
{
    match fit {
        Fit::Passes => None,
        Fit::Takes(size) => Some(Reading::Piece(kind, size)),
        Fit::Breaks => Some(Reading::Unterminated),
    }
}

fn line_end_kind(depth: u32) -> Option<TokenKind>
    ensures { result ≡ line_end_kind depth }
{
    if depth == 0 {
        Some(TokenKind::LineEnd)
    } else {
        None
    }
}

/// Applies the rules from the rule of numbers on.
fn try_number_on(text: &[u8]) -> Reading
    ensures { result ≡ first_of_rows number_rows text.now }
{
    if let Some(found) = reading_by(number(text), Some(TokenKind::Number)) {
        return found;
    }
    reading_by(operator(text), Some(TokenKind::Op)).unwrap_or(Reading::Stray)
}

/// Applies the rules from the rule of literals on.
fn try_literal_on(text: &[u8]) -> Reading
    ensures { result ≡ first_of_rows literal_rows text.now }
{
    if let Some(found) = reading_by(literal(text), Some(TokenKind::Literal)) {
        return found;
    }
    if let Some(found) = reading_by(name(text), Some(TokenKind::Name)) {
        return found;
    }
    try_number_on(text)
}

/// Applies the first rule that fits at the beginning of the text, at a bracket depth. Each rule is tried in turn.
#[tactic(auto, unfolding(crate::specs::Rules::reading))]
fn try_rules(text: &[u8], depth: u32) -> Reading
    ensures { result ≡ reading depth text.now }
{
    if let Some(found) = reading_by(blank(text), None) {
        return found;
    }
    if let Some(found) = reading_by(joined_line(text), None) {
        return found;
    }
    if let Some(found) = reading_by(new_line(text), line_end_kind(depth)) {
        return found;
    }
    if let Some(found) = reading_by(comment(text), Some(TokenKind::Comment)) {
        return found;
    }
    try_literal_on(text)
}

/// Does the same as [`try_rules`]. The first byte decides most pieces at once, or rules out some of the rules.
fn first_fit(text: &[u8], depth: u32) -> Reading
    ensures { result ≡ reading depth text.now }
{
    match text {
        [byte, ..] if starts_plain_name(*byte) => {
            Reading::Piece(Some(TokenKind::Name), name_size(text))
        }
        [byte, ..] if is_plain_operator(*byte) => Reading::Piece(Some(TokenKind::Op), 1),
        [byte, ..] if starts_literal(*byte) => try_literal_on(text),
        [byte, ..] if starts_number(*byte) => try_number_on(text),
        [byte, ..] if ends_line(*byte) => Reading::Piece(line_end_kind(depth), line_end(text)),
        [byte, ..] if *byte == b'#' => Reading::Piece(Some(TokenKind::Comment), line_size(text)),
        _ => try_rules(text, depth),
    }
}

/// Returns what is read at the beginning of the text at the bracket depth `depth`, by the first rule that fits: a piece, a
/// literal without an end, or a stray code if no rule fits. The empty text gives a stray code.
#[tactic(auto, using(crate::proofs::Sizes::bounded))]
pub fn read_front(text: &[u8], depth: u32) -> Reading
    ensures value { result ≡ reading depth text.now }
    ensures bounded { IsBoundedReading result (length text.now) }
{
    first_fit(text, depth)
}

/// Returns the bracket depth after the piece that the text begins with, if `depth` is the depth before it: one more for an
/// opening bracket, one less for a closing one, but at least 0, and otherwise the same. `depth` must be less than 2^32 - 1.
#[tactic(auto, unfolding(crate::specs::Rules::depth_after))]
pub fn depth_after(text: &[u8], depth: u32) -> u32
    requires { depth + 1 < 2 ^ 32 }
    ensures value { result ≡ depth_after depth text.now }
    ensures bound { result ≤ depth + 1 }
{
    match text {
        [byte, ..] if opens_bracket(*byte) => depth + 1,
        [byte, ..] if closes_bracket(*byte) => depth.saturating_sub(1),
        _ => depth,
    }
}
