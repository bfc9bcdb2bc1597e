//! Letters as values of JSON.

ghost use Rattle.std.specs.Prelude.{◌≡◌, IfOk, map};
ghost use Rattle.serde_json.specs.View.{view};
ghost use Rattle.rl_ranges.specs.Codes.{has};
ghost use Rattle.rl_parts.specs.Members.{list_data, whole};
ghost use Rattle.rl_parts.specs.Nodes.{letters_from};
ghost use Rattle.rl_parts.specs.Reply.{letter_data, sample_data};

use crate::members::put_value;
use rl_lists::OutOfMemory;
use rl_ranges::{CodeSet, Letters};
use serde_json::{Map, Value};
use std::alloc::Global;

/// Returns the numbers of the letters that the set holds, as an array.
pub(crate) fn set_letters(
    alloc: Global,
    letters: &Letters,
    set: &CodeSet,
) -> Result<Value, OutOfMemory>
    ensures { IfOk result (λ v. view v
        ≡ list_data (map whole (letters_from 0 (has set.now) letters.now.samples))) }
{
    let mut numbers = Vec::new(alloc);
    for letter in 0..letters.count() {
        if set.contains(letters.sample(letter)) {
            numbers.push(Value::from(letter))?;
        }
    }
    Ok(Value::Array(numbers))
}

/// Returns a sample as a string of one character, or `null` for a surrogate.
fn sample_value(alloc: Global, sample: u32) -> Result<Value, OutOfMemory>
    ensures { IfOk result (λ v. view v ≡ sample_data sample) }
{
    match char::from_u32(sample) {
        Some(character) => {
            let mut text = String::new(alloc);
            text.push(character)?;
            Ok(Value::from(text))
        }
        None => Ok(Value::Null),
    }
}

/// Returns the object of a letter.
fn letter_value(alloc: Global, sample: u32) -> Result<Value, OutOfMemory>
    ensures { IfOk result (λ v. view v ≡ letter_data sample) }
{
    let sample = sample_value(alloc, sample)?;
    let mut members = Map::new(alloc);
    put_value(alloc, &mut members, "sample", sample)?;
    Ok(Value::Object(members))
}

/// Returns the letters as an array of objects.
pub(crate) fn letters_value(alloc: Global, letters: &Letters) -> Result<Value, OutOfMemory>
    ensures { IfOk result (λ v. view v ≡ list_data (map letter_data letters.now.samples)) }
{
    let mut values = Vec::new(alloc);
    for letter in 0..letters.count() {
        let value = letter_value(alloc, letters.sample(letter))?;
        values.push(value)?;
    }
    Ok(Value::Array(values))
}
