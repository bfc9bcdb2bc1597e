//! The reader within an escape. The answer of an escape to a character is that the character can't continue it (`Stops`), the
//! next state within it (`Goes`), or its result if the character completes it (`Ends`).

ghost use Rattle.std.specs.Prelude.{◌≡◌, ℕ};
ghost use Rattle.rl_pattern.specs.internal.Signs.{code_up_to};
ghost use Rattle.rl_pattern.specs.Codes.{with_digit, octal_code, hex_code, is_kind};
ghost use Rattle.rl_pattern.specs.internal.Machine.{escape_first, escape_next, escape_rest, hex_next, octal_next, low_next, high_next, two_next};

use crate::codes::{hex, numeral};
use crate::lex::{Answer, EscapeClass, InEscape, Numeral};
use crate::tree::Escaped;

/// Returns the number in the given base with a digit appended, but at most 4,294,967,295.
pub(crate) fn with_digit(base: u32, number: u32, digit: u32) -> u32
    ensures { result ≡ with_digit base number digit }
{
    number.saturating_mul(base).saturating_add(digit)
}

/// Returns a number as a code, or `TooLarge` if it is greater than `greatest`.
fn code_up_to(greatest: u32, number: u32) -> Escaped
    ensures { result ≡ code_up_to greatest number }
{
    if number <= greatest {
        Escaped::Code(number)
    } else {
        Escaped::TooLarge
    }
}

/// Returns the code that an octal number denotes, or `TooLarge` if it is greater than 255.
fn octal_code(number: u32) -> Escaped
    ensures { result ≡ octal_code number }
{
    code_up_to(255, number)
}

/// Returns the code that a hexadecimal number denotes, or `TooLarge` if it is greater than 0x10FFFF.
fn hex_code(number: u32) -> Escaped
    ensures { result ≡ hex_code number }
{
    code_up_to(0x10FFFF, number)
}

/// Whether the escape is a named class.
pub(crate) fn is_kind(escaped: Escaped) -> bool
    ensures { result ≡ is_kind escaped }
{
    match escaped {
        Escaped::Kind(_, _) => true,
        Escaped::Code(_) | Escaped::TooLarge | Escaped::ByName | Escaped::Reference => false,
    }
}

/// Returns the answer of an escape to the character after the backslash, given what it means.
pub(crate) fn escape_first(slashed: EscapeClass) -> Answer<InEscape, Escaped>
    ensures { result ≡ escape_first slashed }
{
    match slashed {
        EscapeClass::Single(code) => Answer::Ends(Escaped::Code(code)),
        EscapeClass::Kinds(named, negated) => Answer::Ends(Escaped::Kind(named, negated)),
        EscapeClass::Hexes(count) => Answer::Goes(InEscape::InHex(count, 0)),
        EscapeClass::Naming => Answer::Goes(InEscape::NameBrace),
        EscapeClass::Octal(digit) => Answer::Goes(InEscape::InOctal(2, digit)),
        EscapeClass::Low(digit) => Answer::Goes(InEscape::AfterLow(digit)),
        EscapeClass::High => Answer::Goes(InEscape::AfterHigh),
        EscapeClass::Edges(_) | EscapeClass::NoEscape => Answer::Stops,
    }
}

/// Returns the answer of an escape to the next hexadecimal digit, or to a character that isn't one (`None`). `still` digits
/// are missing, including this one, and `value` is the value of those before.
fn hex_next(still: u32, value: u32, digit: Option<u32>) -> Answer<InEscape, Escaped>
    ensures { result ≡ hex_next still value digit }
{
    match digit {
        None => Answer::Stops,
        Some(digit) => {
            let value = with_digit(16, value, digit);
            if still == 1 {
                Answer::Ends(hex_code(value))
            } else {
                Answer::Goes(InEscape::InHex(still.saturating_sub(1), value))
            }
        }
    }
}

/// Returns the answer of an escape to a character after octal digits with this value. Up to `still` more digits may follow,
/// including this one.
fn octal_next(still: u32, value: u32, next: Numeral) -> Answer<InEscape, Escaped>
    ensures { result ≡ octal_next still value next }
{
    match next {
        Numeral::LowDigit(digit) => {
            let value = with_digit(8, value, digit);
            if still == 1 {
                Answer::Ends(octal_code(value))
            } else {
                Answer::Goes(InEscape::InOctal(still.saturating_sub(1), value))
            }
        }
        Numeral::HighDigit | Numeral::NoDigit => Answer::Stops,
    }
}

/// Returns the answer of an escape in this state to the next character.
pub(crate) fn escape_next(within: InEscape, code: u32) -> Answer<InEscape, Escaped>
    ensures { result ≡ escape_next within code }
{
    match within {
        InEscape::InHex(still, value) => hex_next(still, value, hex(code)),
        InEscape::NameBrace => {
            if code == '{' as u32 {
                Answer::Goes(InEscape::NameBegins)
            } else {
                Answer::Stops
            }
        }
        InEscape::NameBegins => {
            if code == '}' as u32 {
                Answer::Stops
            } else {
                Answer::Goes(InEscape::NameGoes)
            }
        }
        InEscape::NameGoes => {
            if code == '}' as u32 {
                Answer::Ends(Escaped::ByName)
            } else {
                Answer::Goes(InEscape::NameGoes)
            }
        }
        InEscape::InOctal(still, value) => octal_next(still, value, numeral(code)),
        InEscape::AfterLow(value) => match numeral(code) {
            Numeral::LowDigit(digit) => {
                Answer::Goes(InEscape::AfterTwo(with_digit(8, value, digit)))
            }
            Numeral::HighDigit => Answer::Ends(Escaped::Reference),
            Numeral::NoDigit => Answer::Stops,
        },
        InEscape::AfterHigh => match numeral(code) {
            Numeral::LowDigit(_) | Numeral::HighDigit => Answer::Ends(Escaped::Reference),
            Numeral::NoDigit => Answer::Stops,
        },
        InEscape::AfterTwo(value) => match numeral(code) {
            Numeral::LowDigit(digit) => Answer::Ends(octal_code(with_digit(8, value, digit))),
            Numeral::HighDigit | Numeral::NoDigit => Answer::Stops,
        },
    }
}

/// Returns the result of an escape in this state if the next character doesn't continue it, or `None` if it is incomplete.
pub(crate) fn escape_rest(within: InEscape) -> Option<Escaped>
    ensures { result ≡ escape_rest within }
{
    match within {
        InEscape::InHex(_, _) | InEscape::NameBrace | InEscape::NameBegins | InEscape::NameGoes =>
            None,
        InEscape::InOctal(_, value) => Some(octal_code(value)),
        InEscape::AfterLow(_) | InEscape::AfterHigh | InEscape::AfterTwo(_) => {
            Some(Escaped::Reference)
        }
    }
}
