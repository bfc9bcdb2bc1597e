//! The units of a literal's body: a single code point, a line end, or an escape. A text is a list of code points. A place is a
//! byte index in the source, counted from 0. A literal of bytes has a `b` in its prefix, and a raw literal has an `r`.
ghost use Rattle.std.specs.Prelude.{◌≡◌, ℕ, ◌+◌, ◌<◌, ◌≤◌, ◌∷◌, length, not, ◌==◌, if◌then◌else◌};
ghost use Rattle.rl_pylex.specs.Bytes.{begins};
ghost use Rattle.rl_pystr.specs.Escapes.{octal, hexadecimal, named_code, byte_escape, text_escape, named_or, escape, unit, size_of, is_octal};

use crate::digits::{has_hex, is_octal, line_end, number_of, octal_size};

/// Why a unit has no value.
#[derive(Clone, Copy)]
pub enum Cause {
    /// It is an escape without a value, such as `\x` with only one digit.
    BadEscape,
    /// It is an escape that gives a character by its name, such as `\N{DIGIT ONE}`.
    NamedEscape,
    /// It has a code point of at least 0x80 in a literal of bytes.
    NotAscii,
}

/// What a unit of a body gives.
#[derive(Clone, Copy)]
pub enum Gives {
    /// No code point. The number is the unit's length in code points.
    Nothing(usize),
    /// One code point, the first number. The second number is the unit's length in code points.
    One(u32, usize),
    /// A backslash and this code point, which follows it.
    Both(u32),
    /// A refusal with this cause, at the byte that is this many bytes after the place of the unit.
    Refuses(Cause, u8),
}

/// Reads an escape of one to three octal digits. It takes as many digits as there are.
#[tactic(auto, unfolding(crate::specs::Escapes::octal))]
fn octal(text: &[char]) -> Gives
    ensures { result ≡ octal text.now }
{
    let count = octal_size(3, text);
    let number = number_of(8, &text[..count]);
    if number > 255 {
        Gives::Refuses(Cause::BadEscape, 0)
    } else {
        Gives::One(number as u32, 1 + count)
    }
}

/// Reads an escape of `count` hexadecimal digits.
#[tactic(auto, unfolding(crate::specs::Escapes::hexadecimal))]
fn hexadecimal(count: usize, text: &[char]) -> Gives
    requires { count ≤ 8 }
    ensures { result ≡ hexadecimal count text.now }
{
    if !has_hex(count, text) {
        return Gives::Refuses(Cause::BadEscape, 0);
    }
    let number = number_of(16, &text[..count]);
    if number > 0x10_FFFF {
        Gives::Refuses(Cause::BadEscape, 0)
    } else {
        Gives::One(number as u32, 2 + count)
    }
}

/// Returns the code point of an escape by one letter, such as `\n`, if there is one.
#[tactic(auto, unfolding(crate::specs::Escapes::named_code))]
fn named_code(letter: char) -> Option<u32>
    ensures { result ≡ named_code letter }
{
    match letter {
        'a' => Some(7),
        'b' => Some(8),
        'f' => Some(12),
        'n' => Some(10),
        'r' => Some(13),
        't' => Some(9),
        'v' => Some(11),
        _ => None,
    }
}

/// Reads any other code point after a backslash, in bytes.
#[tactic(auto, unfolding(crate::specs::Escapes::byte_escape))]
fn byte_escape(code: char) -> Gives
    ensures { result ≡ byte_escape code }
{
    if code > '\x7F' {
        Gives::Refuses(Cause::NotAscii, 1)
    } else {
        Gives::Both(code as u32)
    }
}

fn by_name(rest: &[char]) -> Cause
    ensures { result ≡ (if begins "{" rest.now then Cause.NamedEscape else Cause.BadEscape) }
{
    match rest {
        ['{', ..] => Cause::NamedEscape,
        _ => Cause::BadEscape,
    }
}

/// Reads an escape of four or eight digits or by name, or any other code point after a backslash, in text.
#[tactic(auto, unfolding(crate::specs::Escapes::text_escape))]
fn text_escape(code: char, rest: &[char]) -> Gives
    ensures { result ≡ text_escape code rest.now }
{
    match code {
        'u' => hexadecimal(4, rest),
        'U' => hexadecimal(8, rest),
        'N' => Gives::Refuses(by_name(rest), 0),
        _ => Gives::Both(code as u32),
    }
}

fn letter_escape(bytes: bool, code: char, rest: &[char]) -> Gives
    ensures { result ≡ named_or (named_code code) (if bytes then byte_escape code else text_escape code rest.now) }
{
    match named_code(code) {
        Some(named) => Gives::One(named, 2),
        None if bytes => byte_escape(code),
        None => text_escape(code, rest),
    }
}

/// Reads the escape that consists of a backslash and the beginning of this text.
fn escape(bytes: bool, text: &[char]) -> Gives
    ensures { result ≡ escape bytes text.now }
{
    let [code, rest @ ..] = text else {
        return Gives::One('\\' as u32, 1);
    };
    let end = line_end(text);
    if end > 0 {
        Gives::Nothing(1 + end)
    } else if matches!(*code, '\\' | '\'' | '"') {
        Gives::One(*code as u32, 2)
    } else if is_octal(*code) {
        octal(text)
    } else if *code == 'x' {
        hexadecimal(2, rest)
    } else {
        letter_escape(bytes, *code, rest)
    }
}

/// Returns what the unit gives with which the text, a part of a literal's body, begins. `raw` says whether the literal is raw,
/// so that a backslash begins no escape, and `bytes` whether it is one of bytes. The text must not be empty.
pub fn unit(raw: bool, bytes: bool, text: &[char]) -> Gives
    requires { 0 < length text.now }
    ensures { result ≡ unit raw bytes text.now }
{
    let [code, rest @ ..] = text else {
        return Gives::Nothing(1);
    };
    let end = line_end(text);
    if end > 0 {
        Gives::One('\n' as u32, end)
    } else if !raw && *code == '\\' {
        escape(bytes, rest)
    } else if bytes && *code > '\x7F' {
        Gives::Refuses(Cause::NotAscii, 0)
    } else {
        Gives::One(*code as u32, 1)
    }
}
