//! The fields of a row, by the types of their values. Values that may be long are added to a list; a field that is missing
//! adds nothing, unless it is required, and a value of the wrong type or range is a failure. A text is a string or a table
//! that spells bytes.

use crate::failure::Failure;
use crate::text::{add_text, string_of};
use std::alloc::Global;
use toml::value::Array;
use toml::{Table, Value};

/// Returns the failure for the field `key` if its value has the wrong type or range.
pub fn refused(alloc: Global, key: &str) -> Failure {
    Failure::of(format!(in alloc; "the value of {key} isn't one that it takes"))
}

/// Returns the failure for a required field that is missing.
fn missing(alloc: Global, key: &str) -> Failure {
    Failure::of(format!(in alloc; "the field {key} is missing"))
}

/// Returns the failure for a field that isn't known.
fn unknown(alloc: Global, key: &str) -> Failure {
    Failure::of(format!(in alloc; "the field {key} isn't known"))
}

/// Fails if the table has a field that isn't among `keys`. The failure names the first such field.
pub fn has_only<'a>(alloc: Global, table: &'a Table, keys: &[&'a str]) -> Result<(), Failure> {
    for key in table.keys() {
        if !keys.contains(&key.as_str()) {
            return Err(unknown(alloc, key.as_str()));
        }
    }
    Ok(())
}

/// Adds the bytes that the text in the field `key` spells to `bytes`; adds nothing if the field is missing. Fails if its value
/// isn't a text.
pub fn add_bytes_at(
    alloc: Global,
    table: &Table,
    key: &str,
    bytes: &mut Vec<u8>,
) -> Result<(), Failure> {
    match table.get(key) {
        Some(value) => add_text(alloc, value, bytes),
        None => Ok(()),
    }
}

/// Returns the string in a field, or `None` if the field is missing. Fails if its value isn't a string.
pub fn string_at<'a>(
    alloc: Global,
    table: &'a Table,
    key: &str,
) -> Result<Option<&'a String>, Failure> {
    match table.get(key) {
        Some(Value::String(text)) => Ok(Some(text)),
        Some(_) => Err(refused(alloc, key)),
        None => Ok(None),
    }
}

/// Returns the string in a field. Fails if the field is missing or isn't a string.
pub fn needed_at<'a>(alloc: Global, table: &'a Table, key: &str) -> Result<&'a String, Failure> {
    match table.get(key) {
        Some(Value::String(text)) => Ok(text),
        Some(_) => Err(refused(alloc, key)),
        None => Err(missing(alloc, key)),
    }
}

/// Returns the number that a value holds, or `None` if it isn't a number from 0 up.
fn number_of(value: &Value) -> Option<u64> {
    u64::try_from(value.as_integer()?).ok()
}

/// Returns the whole number in a field, or `None` if the field is missing. Fails if its value isn't a whole number from 0 up.
pub fn number_at(alloc: Global, table: &Table, key: &str) -> Result<Option<u64>, Failure> {
    match table.get(key) {
        Some(value) => match number_of(value) {
            Some(number) => Ok(Some(number)),
            None => Err(refused(alloc, key)),
        },
        None => Ok(None),
    }
}

/// Returns the truth value in a field, or false if the field is missing. Fails if its value isn't a truth value.
pub fn is_set(alloc: Global, table: &Table, key: &str) -> Result<bool, Failure> {
    match table.get(key) {
        Some(Value::Boolean(is_set)) => Ok(*is_set),
        Some(_) => Err(refused(alloc, key)),
        None => Ok(false),
    }
}

/// Returns the list in a field, or `None` if the field is missing. Fails if its value isn't a list.
pub fn list_at<'a>(
    alloc: Global,
    table: &'a Table,
    key: &str,
) -> Result<Option<&'a Array>, Failure> {
    match table.get(key) {
        Some(Value::Array(values)) => Ok(Some(values)),
        Some(_) => Err(refused(alloc, key)),
        None => Ok(None),
    }
}

/// Adds the whole numbers in the list in the field `key` to `numbers`, in order; adds nothing if the field is missing. Fails
/// if its value isn't a list of whole numbers from 0 up; then some of them may have been added.
pub fn add_numbers_at(
    alloc: Global,
    table: &Table,
    key: &str,
    numbers: &mut Vec<u64>,
) -> Result<(), Failure> {
    if let Some(values) = list_at(alloc, table, key)? {
        for value in values {
            let Some(number) = number_of(value) else {
                return Err(refused(alloc, key));
            };
            numbers.push(number)?;
        }
    }
    Ok(())
}

/// Adds the strings that these texts spell.
fn add_words(alloc: Global, values: &Array, words: &mut Vec<String>) -> Result<(), Failure> {
    for value in values {
        let word = string_of(alloc, value)?;
        words.push(word)?;
    }
    Ok(())
}

/// Adds the words that the texts in the list in the field `key` spell to `words`, in order. Fails if the field is missing,
/// isn't a list, or has an item that isn't a text whose bytes are UTF-8; then some words may have been added.
pub fn add_words_at(
    alloc: Global,
    table: &Table,
    key: &str,
    words: &mut Vec<String>,
) -> Result<(), Failure> {
    match list_at(alloc, table, key)? {
        Some(values) => add_words(alloc, values, words),
        None => Err(missing(alloc, key)),
    }
}
