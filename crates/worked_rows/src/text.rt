//! The texts of a row, which spell bytes. A text is a string or a table: `parts` is a list of texts that follow one another;
//! `from` and `upto` are the numbers of the first and the last of a range of characters; `hex` holds bytes in hexadecimal; and
//! `text` is a string that is repeated `times` times, or cut to its `first` bytes.

use crate::failure::Failure;
use std::alloc::{AllocError, Global};
use toml::{Table, Value};

/// Returns the bytes that a text spells. Fails if the value isn't a text.
pub fn bytes_of(alloc: Global, value: &Value) -> Result<Vec<u8>, Failure> {
    let mut bytes = Vec::new(alloc);
    add_text(alloc, value, &mut bytes)?;
    Ok(bytes)
}

/// Adds the bytes that a text spells to `bytes`. Fails if the value isn't a text; then some bytes may have been added.
pub fn add_text(alloc: Global, value: &Value, bytes: &mut Vec<u8>) -> Result<(), Failure> {
    match value.get("parts") {
        Some(Value::Array(parts)) => {
            for part in parts {
                add_part(alloc, part, bytes)?;
            }
            Ok(())
        }
        _ => add_part(alloc, value, bytes),
    }
}

/// Returns the string that a text spells. Fails if the value isn't a text or its bytes aren't UTF-8.
pub fn string_of(alloc: Global, value: &Value) -> Result<String, Failure> {
    let bytes = bytes_of(alloc, value)?;
    match str::from_utf8(bytes.as_slice()) {
        Ok(text) => Ok(String::from_str(alloc, text)?),
        Err(_) => Err(Failure::with_message(alloc, "a word isn't UTF-8")),
    }
}

/// Adds a copy of a word to `words`. Fails only if memory runs out.
pub fn add_word(alloc: Global, word: &str, words: &mut Vec<String>) -> Result<(), AllocError> {
    let word = String::from_str(alloc, word)?;
    words.push(word)?;
    Ok(())
}

/// Adds the bytes that a string or a table without `parts` spells.
fn add_part(alloc: Global, value: &Value, bytes: &mut Vec<u8>) -> Result<(), Failure> {
    match value {
        Value::String(text) => Ok(bytes.extend_from_slice(text.as_bytes())?),
        Value::Table(table) => add_spelled(alloc, table, bytes),
        _ => Err(Failure::with_message(alloc, "a text is neither a string nor a table")),
    }
}

/// Returns the string at a key, if there is one.
fn string_at<'a>(table: &'a Table, key: &str) -> Option<&'a str> {
    match table.get(key) {
        Some(value) => value.as_str(),
        None => None,
    }
}

/// Returns the number at a key, if there is one.
fn number_at(table: &Table, key: &str) -> Option<u32> {
    match table.get(key) {
        Some(value) => u32::try_from(value.as_integer()?).ok(),
        None => None,
    }
}

/// Adds the bytes that a table spells.
fn add_spelled(alloc: Global, table: &Table, bytes: &mut Vec<u8>) -> Result<(), Failure> {
    if let (Some(from), Some(upto)) = (number_at(table, "from"), number_at(table, "upto")) {
        return add_characters(alloc, from, upto, bytes);
    }
    if let Some(hex) = string_at(table, "hex") {
        return add_hex(alloc, hex, bytes);
    }
    match (
        string_at(table, "text"),
        number_at(table, "times"),
        number_at(table, "first"),
    ) {
        (Some(text), Some(times), None) => add_copies(text, times, bytes),
        (Some(text), None, Some(first)) => add_first(text, first, bytes),
        _ => Err(Failure::with_message(alloc, "a table spells no text")),
    }
}

/// Adds the bytes of a string, `times` times.
fn add_copies(text: &str, times: u32, bytes: &mut Vec<u8>) -> Result<(), Failure> {
    for _ in 0..times {
        bytes.extend_from_slice(text.as_bytes())?;
    }
    Ok(())
}

/// Adds the first bytes of a string, or all of them if there are fewer than `first`.
fn add_first(text: &str, first: u32, bytes: &mut Vec<u8>) -> Result<(), Failure> {
    let first = text.len().min(first as usize);
    bytes.extend_from_slice(&text.as_bytes()[..first])?;
    Ok(())
}

/// Adds the characters with these numbers, in order.
fn add_characters(alloc: Global, from: u32, upto: u32, bytes: &mut Vec<u8>) -> Result<(), Failure> {
    for number in from..=upto {
        match char::from_u32(number) {
            Some(character) => add_character(alloc, character, bytes)?,
            None => {
                return Err(Failure::with_message(
                    alloc,
                    "a number from `from` to `upto` is no character",
                ));
            }
        }
    }
    Ok(())
}

/// Adds the bytes of a character in UTF-8.
fn add_character(alloc: Global, character: char, bytes: &mut Vec<u8>) -> Result<(), Failure> {
    let mut text = String::new(alloc);
    text.push(character)?;
    bytes.extend_from_slice(text.as_bytes())?;
    Ok(())
}

/// Adds the bytes that are written in hexadecimal, separated by white space.
fn add_hex(alloc: Global, hex: &str, bytes: &mut Vec<u8>) -> Result<(), Failure> {
    for pair in hex.split_ascii_whitespace() {
        let Ok(byte) = u8::from_str_radix(pair, 16) else {
            return Err(Failure::with_message(alloc, "`hex` isn't bytes with blanks between them"));
        };
        bytes.push(byte)?;
    }
    Ok(())
}
