//! Ways as values of JSON.

ghost use Rattle.std.specs.Prelude.{◌≡◌, IfOk, map};
ghost use Rattle.serde_json.specs.View.{view};
ghost use Rattle.rl_parts.specs.Members.{list_data};
ghost use Rattle.rl_explained.specs.Steps as spec;

use rl_lists::OutOfMemory;
use rl_parts::members::{place_value, put_text, put_value};
use rl_ways::Origin;
use rl_why::{Side, Step, Taken, Way, span_of};
use serde_json::{Map, Value};
use std::alloc::Global;

/// Returns the name of what is decided.
fn side_name(side: Side) -> &'static str
    ensures { result.now ≡ spec.side_name side }
{
    match side {
        Side::Left => "left",
        Side::Right => "right",
        Side::Round => "round",
        Side::Stop => "stop",
    }
}

/// Returns the name of an origin.
fn kind_name(origin: Origin) -> &'static str
    ensures { result.now ≡ spec.kind_name origin }
{
    match origin {
        Origin::Joint => "joint",
        Origin::Character(_) => "set",
        Origin::Position(_) => "position",
        Origin::Branch(..) => "choice",
        Origin::Copy(..) | Origin::Loop(..) => "repeat",
        Origin::Skip | Origin::Skipped => "search",
        Origin::LastLine | Origin::LineFeed => "dollar",
    }
}

/// Returns the object of a decision.
fn taken_value(alloc: Global, taken: Taken) -> Result<Value, OutOfMemory>
    ensures { IfOk result (λ v. view v ≡ spec.taken_data taken) }
{
    let at = place_value(alloc, span_of(taken.at))?;
    let mut members = Map::new(alloc);
    put_value(alloc, &mut members, "at", at)?;
    put_text(alloc, &mut members, "kind", kind_name(taken.at))?;
    put_text(alloc, &mut members, "side", side_name(taken.side))?;
    Ok(Value::Object(members))
}

/// Returns decisions as an array of their objects.
fn taken_values(alloc: Global, taken: &[Taken]) -> Result<Value, OutOfMemory>
    ensures { IfOk result (λ v. view v ≡ list_data (map spec.taken_data taken.now)) }
{
    let mut values = Vec::new(alloc);
    for decision in taken {
        let value = taken_value(alloc, *decision)?;
        values.push(value)?;
    }
    Ok(Value::Array(values))
}

/// Returns the object of a step.
fn step_value(alloc: Global, step: &Step) -> Result<Value, OutOfMemory>
    ensures { IfOk result (λ v. view v ≡ spec.step_data step.now) }
{
    let place = place_value(alloc, span_of(step.place))?;
    let took = taken_values(alloc, step.took.as_slice())?;
    let mut members = Map::new(alloc);
    put_value(alloc, &mut members, "place", place)?;
    put_value(alloc, &mut members, "took", took)?;
    Ok(Value::Object(members))
}

/// Returns a way as an array of its steps.
pub(crate) fn way_value(alloc: Global, way: &Way) -> Result<Value, OutOfMemory>
    ensures { IfOk result (λ v. view v ≡ spec.way_data way.now) }
{
    let mut values = Vec::new(alloc);
    for step in way.as_slice() {
        let value = step_value(alloc, step)?;
        values.push(value)?;
    }
    Ok(Value::Array(values))
}

/// Returns a loop as its span, or `null`.
pub(crate) fn loop_value(alloc: Global, at: Option<Origin>) -> Result<Value, OutOfMemory>
    ensures { IfOk result (λ v. view v ≡ spec.loop_data at) }
{
    match at {
        Some(origin) => place_value(alloc, span_of(origin)),
        None => Ok(Value::Null),
    }
}
