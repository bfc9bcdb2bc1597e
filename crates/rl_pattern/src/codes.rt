//! What single characters mean in the grammar of patterns. A code is a character as a number: a code point in a `str`, a byte
//! in a `bytes`.

ghost use Rattle.std.specs.Prelude.{◌≡◌, ℕ};
ghost use Rattle.rl_pattern.specs.Codes.{sign, numeral, is_digit, hex, begins_name, goes_in_name, slashed, slashed_letter, slashed_digit, is_letter, is_blank, headed, on_letter, off_letter, counts};

use crate::lex::{EscapeClass, GroupPrefix, Numeral, TokenClass};
use crate::tree::{Assertion, Count};
use rl_ranges::Named;

/// Returns the class of a character between items.
#[tactic(auto, unfolding(crate::specs::Codes::sign))]
pub(crate) fn sign(code: u32) -> TokenClass
    ensures { result ≡ sign code }
{
    match char::from_u32(code) {
        Some('(') => TokenClass::Left,
        Some(')') => TokenClass::Right,
        Some('|') => TokenClass::Bar,
        Some('*') => TokenClass::Times(Count {
            least: 0,
            most: None,
        }),
        Some('+') => TokenClass::Times(Count {
            least: 1,
            most: None,
        }),
        Some('?') => TokenClass::Times(Count {
            least: 0,
            most: Some(1),
        }),
        Some('{') => TokenClass::Brace,
        Some('\\') => TokenClass::Slash,
        Some('.') => TokenClass::Dot,
        Some('[') => TokenClass::Bracket,
        Some('^') => TokenClass::Edge(Assertion::Caret),
        Some('$') => TokenClass::Edge(Assertion::Dollar),
        Some('#') => TokenClass::Sharp,
        Some('\t'..='\r' | ' ') => TokenClass::Blank,
        _ => TokenClass::Plain,
    }
}

/// Returns the class of a character as a digit: 0 to 7 with its value, 8 or 9, or no ASCII digit.
#[tactic(auto, unfolding(crate::specs::Codes::numeral))]
pub(crate) fn numeral(code: u32) -> Numeral
    ensures { result ≡ numeral code }
{
    match char::from_u32(code) {
        Some('0'..='7') => Numeral::LowDigit(code - '0' as u32),
        Some('8' | '9') => Numeral::HighDigit,
        _ => Numeral::NoDigit,
    }
}

/// Whether the character is an ASCII digit.
#[tactic(auto, unfolding(crate::specs::Codes::is_digit))]
pub(crate) fn is_digit(code: u32) -> bool
    ensures { result ≡ is_digit code }
{
    match numeral(code) {
        Numeral::LowDigit(_) | Numeral::HighDigit => true,
        Numeral::NoDigit => false,
    }
}

/// Returns the value of a hexadecimal digit, in either case, or `None` if the character isn't one.
#[tactic(auto, unfolding(crate::specs::Codes::hex))]
pub(crate) fn hex(code: u32) -> Option<u32>
    ensures { result ≡ hex code }
{
    match char::from_u32(code) {
        Some('0'..='9') => Some(code - '0' as u32),
        Some('a'..='f') => Some(10 + (code - 'a' as u32)),
        Some('A'..='F') => Some(10 + (code - 'A' as u32)),
        _ => None,
    }
}

/// Whether the character is an ASCII letter.
pub(crate) fn is_letter(code: u32) -> bool
    ensures { result ≡ is_letter code }
{
    matches!(char::from_u32(code), Some('a'..='z' | 'A'..='Z'))
}

/// Whether a group name may begin with the character: an ASCII letter, `_`, or any code from 128 on if `text` is `true`, that
/// is, in a `str`.
#[tactic(auto, unfolding(crate::specs::Codes::begins_name))]
pub(crate) fn begins_name(text: bool, code: u32) -> bool
    ensures { result ≡ begins_name text code }
{
    is_letter(code) || code == '_' as u32 || text && 0x80 <= code
}

/// Whether the character may follow in a group name: one with which a name may begin, or an ASCII digit. `text` says whether
/// the pattern is a `str`.
#[tactic(auto, unfolding(crate::specs::Codes::goes_in_name))]
pub(crate) fn goes_in_name(text: bool, code: u32) -> bool
    ensures { result ≡ goes_in_name text code }
{
    begins_name(text, code) || is_digit(code)
}

/// Returns what an ASCII letter means after a backslash. `text` says whether the pattern is a `str`: only in a `str` are `\u`,
/// `\U` and `\N` escapes. `in_class` says whether the escape is in a class: there `\b` is a backspace, and `\A`, `\B` and `\Z`
/// are no escapes.
fn slashed_letter(text: bool, in_class: bool, code: u32) -> EscapeClass
    ensures { result ≡ slashed_letter text in_class code }
{
    match char::from_u32(code) {
        Some('a') => EscapeClass::Single(7),
        Some('f') => EscapeClass::Single(12),
        Some('n') => EscapeClass::Single('\n' as u32),
        Some('r') => EscapeClass::Single('\r' as u32),
        Some('t') => EscapeClass::Single('\t' as u32),
        Some('v') => EscapeClass::Single(11),
        Some('d') => EscapeClass::Kinds(Named::Digit, false),
        Some('D') => EscapeClass::Kinds(Named::Digit, true),
        Some('s') => EscapeClass::Kinds(Named::Space, false),
        Some('S') => EscapeClass::Kinds(Named::Space, true),
        Some('w') => EscapeClass::Kinds(Named::Word, false),
        Some('W') => EscapeClass::Kinds(Named::Word, true),
        Some('x') => EscapeClass::Hexes(2),
        Some('u') if text => EscapeClass::Hexes(4),
        Some('U') if text => EscapeClass::Hexes(8),
        Some('N') if text => EscapeClass::Naming,
        Some('b') if in_class => EscapeClass::Single(8),
        Some('b') => EscapeClass::Edges(Assertion::Boundary(false)),
        Some('B') if !in_class => EscapeClass::Edges(Assertion::Boundary(true)),
        Some('A') if !in_class => EscapeClass::Edges(Assertion::TextStart),
        Some('Z') if !in_class => EscapeClass::Edges(Assertion::TextEnd),
        _ => EscapeClass::NoEscape,
    }
}

/// Returns what a character means after a backslash, or `NoEscape` if it can't follow one. `text` says whether the pattern
/// is a `str`, and `in_class` whether the escape is in a class.
#[tactic(auto, unfolding(crate::specs::Codes::slashed))]
pub(crate) fn slashed(text: bool, in_class: bool, code: u32) -> EscapeClass
    ensures { result ≡ slashed text in_class code }
{
    if is_letter(code) {
        return slashed_letter(text, in_class, code);
    }
    match numeral(code) {
        Numeral::LowDigit(digit) => {
            if in_class || digit == 0 {
                EscapeClass::Octal(digit)
            } else {
                EscapeClass::Low(digit)
            }
        }
        Numeral::HighDigit => {
            if in_class {
                EscapeClass::NoEscape
            } else {
                EscapeClass::High
            }
        }
        Numeral::NoDigit => EscapeClass::Single(code),
    }
}

/// Whether the character is one of the flag letters `aiLmsux`, which a group can turn on.
#[tactic(auto, unfolding(crate::specs::Codes::on_letter))]
pub(crate) fn on_letter(code: u32) -> bool
    ensures { result ≡ on_letter code }
{
    matches!(
        char::from_u32(code),
        Some('a' | 'i' | 'L' | 'm' | 's' | 'u' | 'x')
    )
}

/// Whether the character is one of the flag letters `imsx`, which a group can turn off after a `-`.
#[tactic(auto, unfolding(crate::specs::Codes::off_letter))]
pub(crate) fn off_letter(code: u32) -> bool
    ensures { result ≡ off_letter code }
{
    matches!(char::from_u32(code), Some('i' | 'm' | 's' | 'x'))
}

/// Returns the class of a character after `(?`. One that can't follow `(?` is `NoHead`.
#[tactic(auto, unfolding(crate::specs::Codes::headed))]
pub(crate) fn headed(code: u32) -> GroupPrefix
    ensures { result ≡ headed code }
{
    if on_letter(code) {
        return GroupPrefix::Letter;
    }
    match char::from_u32(code) {
        Some(':') => GroupPrefix::Colon,
        Some('-') => GroupPrefix::Minus,
        Some('P') => GroupPrefix::LetterP,
        Some('#') => GroupPrefix::Sharps,
        Some('=' | '!') => GroupPrefix::Looks,
        Some('<') => GroupPrefix::Less,
        Some('>') => GroupPrefix::Greater,
        Some('(') => GroupPrefix::Condition,
        _ => GroupPrefix::NoHead,
    }
}

/// Whether the character may occur in a repeat count between braces: an ASCII digit or a comma.
#[tactic(auto, unfolding(crate::specs::Codes::counts))]
pub(crate) fn counts(code: u32) -> bool
    ensures { result ≡ counts code }
{
    is_digit(code) || code == ',' as u32
}
