//! Paths as relative URIs.
ghost use Rattle.std.specs.Prelude.{◌≡◌, ◌<◌, ◌++◌, IfOk, OnOk, string_bytes, true};
ghost use Rattle.std.specs.Fmt.{digit_glyph};
ghost use Rattle.rl_sarif.specs.Sarif.{is_kept, uri_byte, uri_text};

use rl_lists::OutOfMemory;
use std::alloc::Global;

/// Returns whether a byte of a path stays as it is in the URI: an ASCII letter, a digit, `-`, `.`, `_`, `~` or `/`.
fn is_kept(byte: u8) -> bool
    ensures { result ≡ is_kept byte }
{
    matches!(byte, b'A'..=b'Z' | b'a'..=b'z' | b'0'..=b'9' | b'-' | b'.' | b'_' | b'~' | b'/')
}

/// Returns a hexadecimal digit, in upper case.
fn hex_digit(digit: u8) -> char
    requires { digit < 16 }
    ensures { result ≡ digit_glyph true digit }
{
    if digit < 10 {
        char::from(b'0' + digit)
    } else {
        char::from(b'A' + (digit - 10))
    }
}

/// Appends a byte of a path, escaped if necessary.
fn push_byte(uri: &mut String, byte: u8) -> Result<(), OutOfMemory>
    ensures { OnOk result (string_bytes uri.new ≡ string_bytes uri.old ++ uri_byte byte) }
{
    if is_kept(byte) {
        uri.push(char::from(byte))?;
    } else {
        uri.push('%')?;
        uri.push(hex_digit(byte / 16))?;
        uri.push(hex_digit(byte % 16))?;
    }
    Ok(())
}

/// Returns the path as a relative URI. Each byte that isn't kept becomes `%` and two hexadecimal digits in upper case.
pub(crate) fn uri_of(alloc: Global, path: &str) -> Result<String, OutOfMemory>
    ensures { IfOk result (λ uri. string_bytes uri ≡ uri_text path.now) }
{
    let mut uri = String::new(alloc);
    for byte in path.as_bytes() {
        push_byte(&mut uri, *byte)?;
    }
    Ok(uri)
}
