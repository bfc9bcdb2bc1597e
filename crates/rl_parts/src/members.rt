//! Members of objects of JSON.

ghost use Rattle.std.specs.Prelude.{◌≡◌, IfOk, OnOk};
ghost use Rattle.serde_json.specs.Data.{boolean, put, string};
ghost use Rattle.serde_json.specs.View.{members_view, view};
ghost use Rattle.rl_parts.specs.Members.{number_data, place_data, span_data, whole};
ghost use Rattle.rl_parts.specs.Nodes.{part_members};

use rl_lists::OutOfMemory;
use rl_syntax::Span;
use serde_json::{Map, Value, put};
use std::alloc::Global;

/// The members of an object of JSON.
pub type Members = Map<String, Value>;

/// Sets the value at the key.
///
/// # Errors
/// [`OutOfMemory`] if there is not enough memory.
pub fn put_value(
    alloc: Global,
    members: &mut Members,
    key: &str,
    value: Value,
) -> Result<(), OutOfMemory>
    ensures { OnOk result (members_view members.new.entries
        ≡ put key.now (view value) (members_view members.old.entries)) }
{
    put(members, alloc, key, value)?;
    Ok(())
}

/// Sets the value at the key to a string.
///
/// # Errors
/// [`OutOfMemory`] if there is not enough memory.
pub fn put_text(
    alloc: Global,
    members: &mut Members,
    key: &str,
    text: &str,
) -> Result<(), OutOfMemory>
    ensures { OnOk result (members_view members.new.entries
        ≡ put key.now (string text.now) (members_view members.old.entries)) }
{
    let value = Value::try_from_str(alloc, text)?;
    put_value(alloc, members, key, value)
}

/// Sets the value at the key to a number.
///
/// # Errors
/// [`OutOfMemory`] if there is not enough memory.
pub fn put_number(
    alloc: Global,
    members: &mut Members,
    key: &str,
    number: u32,
) -> Result<(), OutOfMemory>
    ensures { OnOk result (members_view members.new.entries
        ≡ put key.now (whole number) (members_view members.old.entries)) }
{
    put_value(alloc, members, key, Value::from(number))
}

/// Sets the value at the key to a number, or to `null` if there is none.
///
/// # Errors
/// [`OutOfMemory`] if there is not enough memory.
pub fn put_optional(
    alloc: Global,
    members: &mut Members,
    key: &str,
    number: Option<u32>,
) -> Result<(), OutOfMemory>
    ensures { OnOk result (members_view members.new.entries
        ≡ put key.now (number_data number) (members_view members.old.entries)) }
{
    match number {
        None => put_value(alloc, members, key, Value::Null),
        Some(number) => put_number(alloc, members, key, number),
    }
}

/// Sets the value at the key to `true` or `false`.
///
/// # Errors
/// [`OutOfMemory`] if there is not enough memory.
pub fn put_flag(
    alloc: Global,
    members: &mut Members,
    key: &str,
    flag: bool,
) -> Result<(), OutOfMemory>
    ensures { OnOk result (members_view members.new.entries
        ≡ put key.now (boolean flag) (members_view members.old.entries)) }
{
    put_value(alloc, members, key, Value::Bool(flag))
}

/// Returns a span as an array of its two positions.
///
/// # Errors
/// [`OutOfMemory`] if there is not enough memory.
pub fn span_value(alloc: Global, span: Span) -> Result<Value, OutOfMemory>
    ensures { IfOk result (λ v. view v ≡ span_data span) }
{
    let mut places = Vec::new(alloc);
    places.push(Value::from(span.from))?;
    places.push(Value::from(span.upto))?;
    Ok(Value::Array(places))
}

/// Returns a span as an array of its two positions, or `null` if there is none.
///
/// # Errors
/// [`OutOfMemory`] if there is not enough memory.
pub fn place_value(alloc: Global, span: Option<Span>) -> Result<Value, OutOfMemory>
    ensures { IfOk result (λ v. view v ≡ place_data span) }
{
    match span {
        None => Ok(Value::Null),
        Some(span) => span_value(alloc, span),
    }
}

/// Returns the members that each part of a pattern has: its kind and its span.
pub(crate) fn part_members(alloc: Global, kind: &str, span: Span) -> Result<Members, OutOfMemory>
    ensures { IfOk result (λ ms. members_view ms.entries ≡ part_members kind.now span) }
{
    let mut members = Map::new(alloc);
    put_text(alloc, &mut members, "kind", kind)?;
    put_number(alloc, &mut members, "start", span.from)?;
    put_number(alloc, &mut members, "end", span.upto)?;
    Ok(members)
}
