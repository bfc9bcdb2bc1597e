//! Readings as values of JSON. A reading says how the pumps of a verdict's family are read.

ghost use Rattle.std.specs.Prelude.{◌≡◌, ◌∷◌, [], All, IfOk, OnOk, false};
ghost use Rattle.serde_json.specs.View.{members_view, view};
ghost use Rattle.serde_json.specs.Written.{members_have_float};
ghost use Rattle.rl_growth.specs.Texts.{HasTexts};
ghost use Rattle.rl_ranges.specs.declared.universe.Universe.{Universe};
ghost use Rattle.rl_ranges.specs.Text.{IsText};
ghost use Rattle.rl_parts.specs.Members.{list_data};
ghost use Rattle.rl_explained.specs.Replies as spec;
ghost use Rattle.rl_explained.specs.Steps.{loop_data, way_data};

use crate::quoted::text_at;
use crate::steps::{loop_value, way_value};
use rl_lists::{Codes, OutOfMemory};
use rl_parts::members::{Members, put_value};
use rl_syntax::{Universe, Verdict};
use rl_ways::Origin;
use rl_why::{ChainReading, Explained, Reading, SplitReading, TwinReading, Way};
use serde_json::{Map, Value};
use std::alloc::Global;

/// Returns two values as an array.
fn two_values(alloc: Global, first: Value, second: Value) -> Result<Value, OutOfMemory>
    ensures { IfOk result (λ v. view v ≡ list_data (view first ∷ view second ∷ [])) }
{
    let mut values = Vec::new(alloc);
    values.push(first)?;
    values.push(second)?;
    Ok(Value::Array(values))
}

/// Returns three ways as an array.
fn three_ways(alloc: Global, first: &Way, second: &Way, third: &Way) -> Result<Value, OutOfMemory>
    ensures { IfOk result (λ v. view v
        ≡ list_data (way_data first.now ∷ way_data second.now ∷ way_data third.now ∷ [])) }
{
    let mut values = Vec::new(alloc);
    values.push(way_value(alloc, first)?)?;
    values.push(way_value(alloc, second)?)?;
    values.push(way_value(alloc, third)?)?;
    Ok(Value::Array(values))
}

/// Returns the members of a reading of the pump with this index.
fn read_members(
    alloc: Global,
    universe: Universe,
    pumps: &[Codes],
    index: usize,
    ways: Value,
) -> Result<Members, OutOfMemory>
    requires { All (IsText universe) pumps.now }
    ensures { IfOk result (λ ms. members_view ms.entries
        ≡ spec.read_members universe pumps.now index (view ways)) }
{
    let text = text_at(alloc, pumps, index, universe)?;
    let mut members = Map::new(alloc);
    put_value(alloc, &mut members, "pump", Value::from(index))?;
    put_value(alloc, &mut members, "text", text)?;
    put_value(alloc, &mut members, "ways", ways)?;
    Ok(members)
}

/// Returns the object of the two ways of a twin.
fn twin_value(
    alloc: Global,
    universe: Universe,
    pumps: &[Codes],
    reading: &TwinReading,
) -> Result<Value, OutOfMemory>
    requires { All (IsText universe) pumps.now }
    ensures { IfOk result (λ v. view v ≡ spec.twin_data universe pumps.now reading.now) }
{
    let first = way_value(alloc, &reading.first)?;
    let second = way_value(alloc, &reading.second)?;
    let ways = two_values(alloc, first, second)?;
    let mut members = read_members(alloc, universe, pumps, 0, ways)?;
    put_value(alloc, &mut members, "parts", Value::from(reading.parts))?;
    Ok(Value::Object(members))
}

/// Returns the object of the three ways of a split, which reads the pump with this index.
fn split_value(
    alloc: Global,
    universe: Universe,
    pumps: &[Codes],
    index: usize,
    reading: &SplitReading,
) -> Result<Value, OutOfMemory>
    requires { All (IsText universe) pumps.now }
    ensures { IfOk result (λ v. view v
        ≡ spec.split_data universe pumps.now index reading.now) }
{
    let ways = three_ways(alloc, &reading.before, &reading.over, &reading.behind)?;
    let first = loop_value(alloc, reading.first_loop)?;
    let second = loop_value(alloc, reading.second_loop)?;
    let loops = two_values(alloc, first, second)?;
    let mut members = read_members(alloc, universe, pumps, index, ways)?;
    put_value(alloc, &mut members, "loops", loops)?;
    Ok(Value::Object(members))
}

/// Returns splits as an array of their objects.
fn splits_value(
    alloc: Global,
    universe: Universe,
    pumps: &[Codes],
    splits: &[SplitReading],
) -> Result<Value, OutOfMemory>
    requires { All (IsText universe) pumps.now }
    ensures { IfOk result (λ v. view v
        ≡ list_data (spec.splits_data universe pumps.now 0 splits.now)) }
{
    let mut values = Vec::new(alloc);
    for index in 0..splits.len() {
        let value = split_value(alloc, universe, pumps, index, &splits[index])?;
        values.push(value)?;
    }
    Ok(Value::Array(values))
}

/// Returns the object of the loop that reads the pump with this index.
fn cycle_value(alloc: Global, index: usize, at: Option<Origin>) -> Result<Value, OutOfMemory>
    ensures { IfOk result (λ v. view v ≡ spec.cycle_data index at) }
{
    let loop_span = loop_value(alloc, at)?;
    let mut members = Map::new(alloc);
    put_value(alloc, &mut members, "pump", Value::from(index))?;
    put_value(alloc, &mut members, "loop", loop_span)?;
    Ok(Value::Object(members))
}

/// Adds splits as an array, if there are any.
fn put_splits(
    alloc: Global,
    members: &mut Members,
    universe: Universe,
    pumps: &[Codes],
    splits: &[SplitReading],
) -> Result<(), OutOfMemory>
    requires { All (IsText universe) pumps.now }
    ensures { OnOk result (members_view members.new.entries
        ≡ spec.splits_members universe pumps.now splits.now (members_view members.old.entries)) }
{
    if splits.is_empty() {
        return Ok(());
    }
    let value = splits_value(alloc, universe, pumps, splits)?;
    put_value(alloc, members, "splits", value)
}

/// Adds the splits of a chain, and the loop that reads the last pump.
fn put_chain(
    alloc: Global,
    members: &mut Members,
    universe: Universe,
    pumps: &[Codes],
    reading: &ChainReading,
) -> Result<(), OutOfMemory>
    requires { All (IsText universe) pumps.now }
    ensures { OnOk result (members_view members.new.entries
        ≡ spec.chain_members universe pumps.now reading.now (members_view members.old.entries)) }
{
    put_splits(alloc, members, universe, pumps, reading.splits.as_slice())?;
    let cycle = cycle_value(alloc, reading.splits.len(), reading.cycle)?;
    put_value(alloc, members, "cycle", cycle)
}

/// Adds a reading of these pumps.
fn put_reading(
    alloc: Global,
    members: &mut Members,
    universe: Universe,
    pumps: &[Codes],
    reading: &Reading,
) -> Result<(), OutOfMemory>
    requires { All (IsText universe) pumps.now }
    ensures { OnOk result (members_view members.new.entries
        ≡ spec.reading_members universe pumps.now reading.now (members_view members.old.entries)) }
{
    match reading {
        Reading::Nothing => Ok(()),
        Reading::Twin(twin) => {
            let value = twin_value(alloc, universe, pumps, twin)?;
            put_value(alloc, members, "twin", value)
        }
        Reading::Chain(chain) => put_chain(alloc, members, universe, pumps, chain),
    }
}

/// Returns the pumps of the family of a verdict, or none if it has no family.
fn pumps_of(verdict: &Verdict) -> &[Codes]
    ensures value { result.now ≡ spec.pumps_of verdict.now }
    ensures texts { (u : Universe) → HasTexts u verdict.now → All (IsText u) result.now }
{
    match verdict {
        Verdict::Degree(_, family) | Verdict::Expo(family) => family.pumps.as_slice(),
        Verdict::Undecided(_) => &[],
    }
}

/// Adds to an object how the pumps of a verdict's family are read: `twin`, or `splits` and `cycle`. Adds nothing if the verdict
/// has no pump. The heads and pumps of the family must be texts of the universe.
///
/// # Errors
/// [`OutOfMemory`] if there is not enough memory.
pub fn put_ways(
    alloc: Global,
    members: &mut Members,
    universe: Universe,
    explained: &Explained,
) -> Result<(), OutOfMemory>
    requires { HasTexts universe explained.now.verdict }
    ensures members { OnOk result (members_view members.new.entries
        ≡ spec.ways_members universe explained.now (members_view members.old.entries)) }
    ensures no_float { OnOk result (members_have_float (members_view members.old.entries) ≡ false
        → members_have_float (members_view members.new.entries) ≡ false) }
{
    put_reading(
        alloc,
        members,
        universe,
        pumps_of(&explained.verdict),
        &explained.reading,
    )?;
    Ok(())
}
