//! Reading the rows of a file.

use crate::failure::Failure;
use crate::fields::{
    add_bytes_at, add_numbers_at, add_words_at, has_only, is_set, list_at, needed_at, number_at,
    refused, string_at,
};
use crate::row::{
    Calls, Expected, Faults, File, Form, Placed, Printed, Row, Saved, Setting, Writes,
};
use crate::text::bytes_of;
use std::alloc::{AllocError, Global};
use toml::value::Array;
use toml::{Table, Value};

/// The fields of a row.
const FIELDS: [&str; 20] = [
    "name",
    "words",
    "stdout",
    "stderr",
    "status",
    "begins",
    "files",
    "before",
    "then",
    "family",
    "families",
    "stable",
    "round",
    "tree_failing",
    "out_failing",
    "err_failing",
    "out_step",
    "err_step",
    "tree_faults",
    "every_call",
];

// The fields of a call in `before`.
const FIELDS_OF_CALL: [&str; 2] = ["words", "save"];

// The fields of an item in `families`.
const FIELDS_OF_FAMILY: [&str; 2] = ["pattern", "mode"];

/// Returns the TOML document that a text holds.
fn document_of(alloc: Global, text: &str) -> Result<Table, Failure> {
    match toml::table_from_str(alloc, text) {
        Ok(document) => Ok(document),
        Err(error) => Err(Failure::of(format!(in alloc; "{error}"))),
    }
}

/// Returns the values of a file's rows, which are the items of its array `row`.
///
/// # Errors
/// [`Failure::Message`] if the text isn't TOML, has no array `row`, or has any other key; [`Failure::OutOfMemory`] if
/// memory runs out.
pub fn values_of(alloc: Global, text: &str) -> Result<Array, Failure> {
    let mut document = document_of(alloc, text)?;
    match document.remove("row") {
        Some(Value::Array(values)) if document.is_empty() => Ok(values),
        _ => Err(Failure::with_message(alloc, "there has to be [[row]], and nothing else")),
    }
}

/// Returns how a failure names the row that `value` holds: `FILE: NAME` if the value is a table with a string under `name`,
/// otherwise `FILE: row N`. `place` is the number of the row in its file counted from 0, and `N` is the same number counted
/// from 1.
///
/// # Errors
/// [`AllocError`] if memory runs out.
pub fn name_of(
    alloc: Global,
    file: &str,
    place: usize,
    value: &Value,
) -> Result<String, AllocError> {
    let number = place.saturating_add(1);
    match value.get("name") {
        Some(Value::String(name)) => format!(in alloc; "{file}: {name}"),
        _ => format!(in alloc; "{file}: row {number}"),
    }
}

/// Reads the row that a value holds into `row`, which must be as `empty_row` returns it. Fails if the value isn't a table, if
/// it has a field that rows don't have, if it has no `name` or no `words`, if more than one of `stable`, `round` and
/// `every_call` is set, or if the value of a field that is read is wrong.
pub fn read_row<'a>(alloc: Global, value: &'a Value, row: &mut Row<'a>) -> Result<(), Failure> {
    match value {
        Value::Table(table) => {
            has_only(alloc, table, &FIELDS)?;
            read_fields(alloc, table, row)
        }
        _ => Err(Failure::with_message(alloc, "it is no table")),
    }
}

/// Reads the fields of a row.
fn read_fields<'a>(alloc: Global, table: &'a Table, row: &mut Row<'a>) -> Result<(), Failure> {
    row.calls = calls_of(alloc, table)?;
    row.name = needed_at(alloc, table, "name")?.as_str();
    add_words_at(alloc, table, "words", &mut row.words)?;
    read_setting(alloc, table, &mut row.setting)?;
    read_faults(alloc, table, &mut row.faults)?;
    read_expected(alloc, table, &mut row.expected)
}

/// Returns the table that an item of a list holds. It may have only these fields.
fn item<'a>(
    alloc: Global,
    key: &str,
    value: &'a Value,
    fields: &[&'a str],
) -> Result<&'a Table, Failure> {
    match value {
        Value::Table(table) => {
            has_only(alloc, table, fields)?;
            Ok(table)
        }
        _ => Err(refused(alloc, key)),
    }
}

/// Returns what is at a path: a folder if the path ends in `/`, a link if the value has `link`, and otherwise the bytes of a
/// text.
fn file_of(alloc: Global, path: &str, value: &Value) -> Result<File, Failure> {
    if path.ends_with('/') {
        return Ok(File::Folder);
    }
    match value.get("link") {
        Some(_) => Ok(File::Link),
        None => Ok(File::Holds(bytes_of(alloc, value)?)),
    }
}

/// Adds a path and what is there.
fn add_file<'a>(
    alloc: Global,
    path: &'a String,
    value: &Value,
    files: &mut Vec<Placed<'a>>,
) -> Result<(), Failure> {
    let file = file_of(alloc, path.as_str(), value)?;
    files.push(Placed { path, file })?;
    Ok(())
}

/// Adds the paths of a table and what is there.
fn add_files<'a>(
    alloc: Global,
    values: &'a Table,
    files: &mut Vec<Placed<'a>>,
) -> Result<(), Failure> {
    for (path, value) in values {
        add_file(alloc, path, value, files)?;
    }
    Ok(())
}

/// Adds the files in a field, if the field is there.
fn add_files_at<'a>(
    alloc: Global,
    table: &'a Table,
    key: &str,
    files: &mut Vec<Placed<'a>>,
) -> Result<(), Failure> {
    match table.get(key) {
        Some(Value::Table(values)) => add_files(alloc, values, files),
        Some(_) => Err(refused(alloc, key)),
        None => Ok(()),
    }
}

/// Adds a call of `before`.
fn add_call<'a>(
    alloc: Global,
    value: &'a Value,
    calls: &mut Vec<Saved<'a>>,
) -> Result<(), Failure> {
    let table = item(alloc, "before", value, &FIELDS_OF_CALL)?;
    let mut words = Vec::new(alloc);
    add_words_at(alloc, table, "words", &mut words)?;
    let save = needed_at(alloc, table, "save")?;
    calls.push(Saved { words, save })?;
    Ok(())
}

/// Adds the calls in the field `before`, if it is there.
fn add_calls_at<'a>(
    alloc: Global,
    table: &'a Table,
    calls: &mut Vec<Saved<'a>>,
) -> Result<(), Failure> {
    if let Some(values) = list_at(alloc, table, "before")? {
        for value in values {
            add_call(alloc, value, calls)?;
        }
    }
    Ok(())
}

/// Reads the files and the calls that come before the row's own call.
fn read_setting<'a>(
    alloc: Global,
    table: &'a Table,
    setting: &mut Setting<'a>,
) -> Result<(), Failure> {
    add_files_at(alloc, table, "files", &mut setting.files)?;
    add_calls_at(alloc, table, &mut setting.before)?;
    add_files_at(alloc, table, "then", &mut setting.then)
}

/// Returns which calls are made with the row's words. At most one of `stable`, `round` and `every_call` may be set.
fn calls_of(alloc: Global, table: &Table) -> Result<Calls, Failure> {
    let stable = is_set(alloc, table, "stable")?;
    let round = is_set(alloc, table, "round")?;
    let every_call = is_set(alloc, table, "every_call")?;
    match (stable, round, every_call) {
        (false, false, false) => Ok(Calls::One),
        (true, false, false) => Ok(Calls::Same),
        (false, true, false) => Ok(Calls::Verified),
        (false, false, true) => Ok(Calls::EachWrite),
        _ => Err(Failure::with_message(
            alloc,
            "only one of stable, round and every_call may be set",
        )),
    }
}

/// Reads the faults of one output from the fields `failing` and `step`.
fn read_writes(
    alloc: Global,
    table: &Table,
    failing: &str,
    step: &str,
    writes: &mut Writes,
) -> Result<(), Failure> {
    if let Some(step) = number_at(alloc, table, step)? {
        writes.step = step as usize;
    }
    add_numbers_at(alloc, table, failing, &mut writes.failing)
}

/// Reads the faults of the file system and of both outputs.
fn read_faults(alloc: Global, table: &Table, faults: &mut Faults) -> Result<(), Failure> {
    add_numbers_at(alloc, table, "tree_failing", &mut faults.tree)?;
    read_writes(alloc, table, "out_failing", "out_step", &mut faults.out)?;
    read_writes(alloc, table, "err_failing", "err_step", &mut faults.err)
}

/// Adds an item of `families`.
fn add_family<'a>(
    alloc: Global,
    value: &'a Value,
    families: &mut Vec<Printed<'a>>,
) -> Result<(), Failure> {
    let table = item(alloc, "families", value, &FIELDS_OF_FAMILY)?;
    let pattern = needed_at(alloc, table, "pattern")?.as_str();
    let mode = needed_at(alloc, table, "mode")?.as_str();
    families.push(Printed { pattern, mode })?;
    Ok(())
}

/// Adds the items of `families`.
fn add_families<'a>(
    alloc: Global,
    values: &'a Array,
    families: &mut Vec<Printed<'a>>,
) -> Result<(), Failure> {
    for value in values {
        add_family(alloc, value, families)?;
    }
    Ok(())
}

/// Reads how standard output is compared, by the first of `begins`, `family` and `families` that is there.
fn read_form<'a>(
    alloc: Global,
    table: &'a Table,
    expected: &mut Expected<'a>,
) -> Result<(), Failure> {
    if let Some(begins) = string_at(alloc, table, "begins")? {
        expected.form = Form::Begins(begins);
        return Ok(());
    }
    let family = number_at(alloc, table, "family")?;
    add_bytes_at(alloc, table, "stdout", &mut expected.stdout)?;
    if let Some(greatest) = family {
        expected.form = Form::WithFamily(greatest);
        return Ok(());
    }
    match list_at(alloc, table, "families")? {
        Some(values) => {
            expected.form = Form::WithFamilies;
            add_families(alloc, values, &mut expected.families)
        }
        None => Ok(()),
    }
}

/// Returns the expected status: 0 if the field is missing.
fn status_of(alloc: Global, table: &Table) -> Result<u8, Failure> {
    let status = number_at(alloc, table, "status")?.unwrap_or(0);
    match u8::try_from(status) {
        Ok(status) => Ok(status),
        Err(_) => Err(refused(alloc, "status")),
    }
}

/// Reads what the row's call must answer.
fn read_expected<'a>(
    alloc: Global,
    table: &'a Table,
    expected: &mut Expected<'a>,
) -> Result<(), Failure> {
    expected.status = status_of(alloc, table)?;
    expected.tree_faults = number_at(alloc, table, "tree_faults")?;
    read_form(alloc, table, expected)?;
    add_bytes_at(alloc, table, "stderr", &mut expected.stderr)
}
