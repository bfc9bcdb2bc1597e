//! Objects of JSON, member by member. The functions named `put_..` set the value at a key.

ghost use Rattle.std.specs.Prelude.{◌≡◌, All, IfOk, IfSome, OnOk};
ghost use Rattle.serde_json.specs.Data.{boolean, put, string};
ghost use Rattle.serde_json.specs.View.{members_view, view};
ghost use Rattle.rl_ranges.specs.Text.{IsText};
ghost use Rattle.rl_report.specs.Document.{put_some, texts_data, whole};
ghost use Rattle.rl_ask.specs.Document.{quoted_data, span_data, spans_data};

use rl_lists::{Codes, OutOfMemory};
use rl_pystr::quote;
use rl_syntax::{Span, Universe};
use serde_json::{Map, Value, json, put};
use std::alloc::Global;

/// The members of an object of JSON.
pub(crate) type Members = Map<String, Value>;

/// Sets the value at the key.
pub(crate) fn put_value(
    alloc: Global,
    members: &mut Members,
    key: &str,
    value: Value,
) -> Result<(), OutOfMemory>
    ensures { OnOk result (members_view members.new.entries ≡ put key.now (view value) (members_view members.old.entries)) }
{
    put(members, alloc, key, value)?;
    Ok(())
}

/// Sets the value at the key to a string.
pub(crate) fn put_text(
    alloc: Global,
    members: &mut Members,
    key: &str,
    text: &str,
) -> Result<(), OutOfMemory>
    ensures { OnOk result (members_view members.new.entries ≡ put key.now (string text.now) (members_view members.old.entries)) }
{
    let value = Value::try_from_str(alloc, text)?;
    put_value(alloc, members, key, value)
}

/// Sets the value at the key to a number.
pub(crate) fn put_number(
    alloc: Global,
    members: &mut Members,
    key: &str,
    number: u32,
) -> Result<(), OutOfMemory>
    ensures { OnOk result (members_view members.new.entries ≡ put key.now (whole number) (members_view members.old.entries)) }
{
    put_value(alloc, members, key, Value::from(number))
}

/// Sets the value at the key to a number, if there is one.
pub(crate) fn put_some_number(
    alloc: Global,
    members: &mut Members,
    key: &str,
    number: Option<u32>,
) -> Result<(), OutOfMemory>
    ensures { OnOk result (members_view members.new.entries ≡ put_some key.now whole number (members_view members.old.entries)) }
{
    match number {
        Some(number) => put_number(alloc, members, key, number),
        None => Ok(()),
    }
}

/// Sets the value at the key to a truth value.
pub(crate) fn put_flag(
    alloc: Global,
    members: &mut Members,
    key: &str,
    flag: bool,
) -> Result<(), OutOfMemory>
    ensures { OnOk result (members_view members.new.entries ≡ put key.now (boolean flag) (members_view members.old.entries)) }
{
    put_value(alloc, members, key, Value::Bool(flag))
}

/// Returns a text of the universe as a string that is a literal of Python: `r"ab"`, or `br"ab"` for bytes. It has only ASCII
/// characters.
fn quoted_value(alloc: Global, text: &Codes, universe: Universe) -> Result<Value, OutOfMemory>
    requires { IsText universe text.now }
    ensures { IfOk result (λ v. view v ≡ quoted_data universe text.now) }
{
    let literal = quote(alloc, text, universe)?;
    match String::from_utf8(literal.into_vec()) {
        Ok(text) => Ok(Value::from(text)),
        Err(_) => unreachable!(),
    }
}

/// Sets the value at the key to a text of the universe, as a literal of Python.
pub(crate) fn put_quoted(
    alloc: Global,
    members: &mut Members,
    key: &str,
    text: &Codes,
    universe: Universe,
) -> Result<(), OutOfMemory>
    requires { IsText universe text.now }
    ensures { OnOk result (members_view members.new.entries ≡ put key.now (quoted_data universe text.now) (members_view members.old.entries)) }
{
    let value = quoted_value(alloc, text, universe)?;
    put_value(alloc, members, key, value)
}

/// Sets the value at the key to a text of the universe, as a literal of Python, if there is one.
pub(crate) fn put_some_quoted(
    alloc: Global,
    members: &mut Members,
    key: &str,
    text: &Option<Codes>,
    universe: Universe,
) -> Result<(), OutOfMemory>
    requires { IfSome text.now (IsText universe) }
    ensures { OnOk result (members_view members.new.entries ≡ put_some key.now (quoted_data universe) text.now (members_view members.old.entries)) }
{
    match text {
        Some(text) => put_quoted(alloc, members, key, text, universe),
        None => Ok(()),
    }
}

/// Returns texts of the universe as a list of literals of Python.
fn texts_value(alloc: Global, texts: &[Codes], universe: Universe) -> Result<Value, OutOfMemory>
    requires { All (IsText universe) texts.now }
    ensures { IfOk result (λ v. view v ≡ texts_data universe texts.now) }
{
    let mut values = Vec::new(alloc);
    for text in texts {
        let value = quoted_value(alloc, text, universe)?;
        values.push(value)?;
    }
    Ok(Value::Array(values))
}

/// Sets the value at the key to a list of texts of the universe, as literals of Python.
pub(crate) fn put_texts(
    alloc: Global,
    members: &mut Members,
    key: &str,
    texts: &[Codes],
    universe: Universe,
) -> Result<(), OutOfMemory>
    requires { All (IsText universe) texts.now }
    ensures { OnOk result (members_view members.new.entries ≡ put key.now (texts_data universe texts.now) (members_view members.old.entries)) }
{
    let value = texts_value(alloc, texts, universe)?;
    put_value(alloc, members, key, value)
}

/// Returns two positions as a list: `[0,2]`.
pub(crate) fn span_value(alloc: Global, from: u32, upto: u32) -> Result<Value, OutOfMemory>
    ensures { IfOk result (λ v. view v ≡ span_data from upto) }
{
    Ok(json!(in alloc; [from, upto])?)
}

/// Returns spans of a pattern as a list.
fn spans_value(alloc: Global, spans: &[Span]) -> Result<Value, OutOfMemory>
    ensures { IfOk result (λ v. view v ≡ spans_data spans.now) }
{
    let mut values = Vec::new(alloc);
    for index in 0..spans.len() {
        let span = spans[index];
        let value = span_value(alloc, span.from, span.upto)?;
        values.push(value)?;
    }
    Ok(Value::Array(values))
}

/// Sets the value at the key to a list of spans of a pattern.
pub(crate) fn put_spans(
    alloc: Global,
    members: &mut Members,
    key: &str,
    spans: &[Span],
) -> Result<(), OutOfMemory>
    ensures { OnOk result (members_view members.new.entries ≡ put key.now (spans_data spans.now) (members_view members.old.entries)) }
{
    let value = spans_value(alloc, spans)?;
    put_value(alloc, members, key, value)
}
