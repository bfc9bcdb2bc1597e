//! Writing texts as literals. A text is a list of code points, or of bytes in the universe `Bytes`.
ghost use Rattle.std.specs.Prelude.{◌≡◌, ℕ, ◌+◌, ◌<◌, ◌≤◌, ◌/◌, ◌%◌, ◌∷◌, [], ◌++◌, length, IfOk, OnOk, IsTrue, false, true};
ghost use Rattle.std.specs.List.{list_all, flat_map};
ghost use Rattle.std.specs.Fmt.{digit_glyph};
ghost use Rattle.rl_ranges.specs.Text.{IsText};
ghost use Rattle.rl_pystr.specs.Quoting.{is_bytes, hex, short_escape, hex_escape, is_printed, escaped, is_plain, ends_in_backslash, is_raw, bytes_prefix, quoted_body, quoted};

use rl_lists::{Bytes, Codes, OutOfMemory};
use rl_ranges::universe::Universe;
use std::alloc::Global;

fn is_bytes(universe: Universe) -> bool
    ensures { result ≡ is_bytes universe }
{
    matches!(universe, Universe::Bytes)
}

/// Returns a hexadecimal digit in lower case.
fn digit(value: u32) -> u8
    requires { value < 16 }
    ensures { result ≡ digit_glyph false value }
{
    if value < 10 {
        b'0' + value as u8
    } else {
        b'a' - 10 + value as u8
    }
}

/// Appends the last `count` hexadecimal digits of a number.
#[tactic(auto, using(crate::proofs::Quotes::digits))]
fn push_hex(out: &mut Vec<u8>, count: u32, number: u32) -> Result<(), OutOfMemory>
    ensures { OnOk result (out.new.items ≡ out.old.items ++ hex count number) }
{
    if count > 0 {
        push_hex(out, count - 1, number / 16)?;
        out.push(digit(number % 16))?;
    }
    Ok(())
}

/// Appends an escape by a number.
fn push_escape(out: &mut Vec<u8>, letter: u8, count: u32, number: u32) -> Result<(), OutOfMemory>
    ensures { OnOk result (out.new.items ≡ out.old.items ++ (92 ∷ letter ∷ hex count number)) }
{
    out.push(b'\\')?;
    out.push(letter)?;
    push_hex(out, count, number)
}

/// Returns the escape by one character, or nothing if there is none.
#[tactic(auto, unfolding(crate::specs::Quoting::short_escape))]
fn short_escape(code: u32) -> &'static [u8]
    ensures { result.now ≡ short_escape code }
{
    match code {
        92 => b"\\\\",
        34 => b"\\\"",
        10 => b"\\n",
        13 => b"\\r",
        9 => b"\\t",
        _ => &[],
    }
}

#[tactic(auto, unfolding(crate::specs::Quoting::hex_escape))]
fn push_hex_escape(out: &mut Vec<u8>, bytes: bool, code: u32) -> Result<(), OutOfMemory>
    ensures { OnOk result (out.new.items ≡ out.old.items ++ hex_escape bytes code) }
{
    if code < 128 || bytes {
        push_escape(out, b'x', 2, code)
    } else if code < 0x1_0000 {
        push_escape(out, b'u', 4, code)
    } else {
        push_escape(out, b'U', 8, code)
    }
}

fn is_printed(code: u32) -> bool
    ensures { result ≡ is_printed code }
{
    32 <= code && code < 127
}

/// Appends a code point the way it is written between quotes.
#[tactic(auto, unfolding(crate::specs::Quoting::escaped))]
fn push_escaped(out: &mut Vec<u8>, bytes: bool, code: u32) -> Result<(), OutOfMemory>
    ensures { OnOk result (out.new.items ≡ out.old.items ++ escaped bytes code) }
{
    let short = short_escape(code);
    if !short.is_empty() {
        out.extend_from_slice(short)?;
    } else if is_printed(code) {
        out.push(code as u8)?;
    } else {
        push_hex_escape(out, bytes, code)?;
    }
    Ok(())
}

/// Appends the code points, escaped where necessary.
fn push_all_escaped(out: &mut Vec<u8>, bytes: bool, codes: &[u32]) -> Result<(), OutOfMemory>
    ensures { OnOk result (out.new.items ≡ out.old.items ++ flat_map (escaped bytes) codes.now) }
{
    for code in codes {
        push_escaped(out, bytes, *code)?;
    }
    Ok(())
}

/// Appends the code points without escapes.
fn push_all_plain(out: &mut Vec<u8>, codes: &[u32]) -> Result<(), OutOfMemory>
    requires { IsTrue (list_all is_plain codes.now) }
    ensures { OnOk result (out.new.items ≡ out.old.items ++ codes.now) }
{
    for code in codes {
        out.push(*code as u8)?;
    }
    Ok(())
}

fn is_plain(code: u32) -> bool
    ensures { result ≡ is_plain code }
{
    is_printed(code) && code != 34
}

fn are_plain(codes: &[u32]) -> bool
    ensures { result ≡ list_all is_plain codes.now }
{
    codes.iter().all(|code| is_plain(*code))
}

#[tactic(auto, using(crate::proofs::Quotes::last_of))]
fn ends_in_backslash(codes: &[u32]) -> bool
    ensures { result ≡ ends_in_backslash codes.now }
{
    match codes.last() {
        Some(code) => *code == 92,
        None => false,
    }
}

/// Whether the code points can be written as a raw literal.
#[tactic(auto, using(crate::proofs::Quotes::plains), unfolding(crate::specs::Quoting::is_raw))]
fn is_raw(codes: &[u32]) -> bool
    ensures value { result ≡ is_raw codes.now }
    ensures plain { IsTrue result → IsTrue (list_all is_plain codes.now) }
{
    are_plain(codes) && !ends_in_backslash(codes)
}

fn push_prefix(out: &mut Vec<u8>, bytes: bool) -> Result<(), OutOfMemory>
    ensures { OnOk result (out.new.items ≡ out.old.items ++ bytes_prefix bytes) }
{
    if bytes {
        out.push(b'b')?;
    }
    Ok(())
}

/// Appends the opening quote and everything up to the closing one.
fn push_quoted_body(out: &mut Vec<u8>, bytes: bool, codes: &[u32]) -> Result<(), OutOfMemory>
    ensures { OnOk result (out.new.items ≡ out.old.items ++ quoted_body (is_raw codes.now) bytes codes.now) }
{
    if is_raw(codes) {
        out.extend_from_slice(b"r\"")?;
        push_all_plain(out, codes)
    } else {
        out.push(b'"')?;
        push_all_escaped(out, bytes, codes)
    }
}

/// Returns a Python literal in double quotes whose value is this text. Each code must belong to the universe: below 0x110000
/// for `Str`, and below 256 for `Bytes`, for which the literal has the prefix `b`. The literal is raw if each code point is
/// from 0x20 to 0x7E, none is `"`, and the last isn't a backslash; otherwise it is an ordinary literal with escapes.
/// The value of a literal of at most 4,194,304 bytes is the original text, by the law [`read_back`](crate::read_back).
///
/// # Errors
/// [`OutOfMemory`] if memory runs out.
#[tactic(auto, unfolding(crate::specs::Quoting::quoted))]
pub fn quote(alloc: Global, codes: &Codes, universe: Universe) -> Result<Bytes, OutOfMemory>
    requires { IsText universe codes.now }
    ensures { IfOk result (λ text. text ≡ quoted (is_bytes universe) codes.now) }
{
    let bytes = is_bytes(universe);
    let mut out = Vec::new(alloc);
    push_prefix(&mut out, bytes)?;
    push_quoted_body(&mut out, bytes, codes.as_slice())?;
    out.push(b'"')?;
    Ok(Bytes::from_vec(out))
}
