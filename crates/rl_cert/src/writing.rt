//! Writing certificates.

ghost use Rattle.std.specs.Prelude.{◌≡◌, codes, false, map, IfOk, OnOk};
ghost use Rattle.serde_json.specs.Data.{Data, put, no_members, object, string};
ghost use Rattle.serde_json.specs.View.{members_view, view};
ghost use Rattle.rl_cert.specs.Form.{row_data, rows_data, anchor_row, double_row, triple_row, common_members, form_members, form_text, IsDecided};

use crate::certificate::{Anchor, Certificate};
use rl_json::line_of;
use rl_lists::{Bytes, OutOfMemory, Word};
use rl_numbers::double::Double;
use rl_numbers::triple::Triple;
use rl_syntax::{Family, Verdict};
use serde_json::{Map, Value, put};
use std::alloc::Global;

/// The members of a JSON object.
type Members = Map<String, Value>;

/// Converts a row of numbers into a JSON array.
#[tactic(auto, using(crate::proofs::Rows::rows))]
fn row_value(alloc: Global, row: &[u32]) -> Result<Value, OutOfMemory>
    ensures { IfOk result (λ v. view v ≡ row_data row.now) }
{
    let mut values = Vec::new(alloc);
    for number in row {
        values.push(Value::from(*number))?;
    }
    Ok(Value::Array(values))
}

/// Converts rows of numbers into a JSON array of arrays.
#[tactic(auto, using(crate::proofs::Rows::rows))]
fn rows_value(alloc: Global, rows: &[Word]) -> Result<Value, OutOfMemory>
    ensures { IfOk result (λ v. view v ≡ rows_data rows.now) }
{
    let mut values = Vec::new(alloc);
    for row in rows {
        values.push(row_value(alloc, row.as_slice())?)?;
    }
    Ok(Value::Array(values))
}

/// Converts anchors into rows.
#[tactic(auto, using(crate::proofs::Rows::rows))]
fn anchors_value(alloc: Global, anchors: &[Anchor]) -> Result<Value, OutOfMemory>
    ensures { IfOk result (λ v. view v ≡ rows_data (map anchor_row anchors.now)) }
{
    let mut values = Vec::new(alloc);
    for anchor in anchors {
        let row = [anchor.r, anchor.q];
        values.push(row_value(alloc, &row)?)?;
    }
    Ok(Value::Array(values))
}

/// Converts triples into rows.
#[tactic(auto, using(crate::proofs::Rows::rows))]
fn triples_value(alloc: Global, triples: &[Triple]) -> Result<Value, OutOfMemory>
    ensures { IfOk result (λ v. view v ≡ rows_data (map triple_row triples.now)) }
{
    let mut values = Vec::new(alloc);
    for triple in triples {
        let row = [triple.p, triple.q, triple.r, triple.number];
        values.push(row_value(alloc, &row)?)?;
    }
    Ok(Value::Array(values))
}

/// Converts doubles into rows.
#[tactic(auto, using(crate::proofs::Rows::rows))]
fn doubles_value(alloc: Global, doubles: &[Double]) -> Result<Value, OutOfMemory>
    ensures { IfOk result (λ v. view v ≡ rows_data (map double_row doubles.now)) }
{
    let mut values = Vec::new(alloc);
    for double in doubles {
        let row = [double.p, double.q, double.number];
        values.push(row_value(alloc, &row)?)?;
    }
    Ok(Value::Array(values))
}

/// Adds a value to the members at a key, unless making the value failed.
fn put_made(
    members: &mut Members,
    alloc: Global,
    key: &str,
    made: Result<Value, OutOfMemory>,
) -> Result<(), OutOfMemory>
    ensures { OnOk result ((d : Data) → IfOk made (λ v. view v ≡ d) → members_view members.new.entries ≡ put key.now d (members_view members.old.entries)) }
{
    let value = made?;
    put(members, alloc, key, value)?;
    Ok(())
}

/// Adds the members that every certificate has, except its kind and its degree.
fn put_common(
    members: &mut Members,
    alloc: Global,
    c: &Certificate,
    f: &Family,
) -> Result<(), OutOfMemory>
    ensures { OnOk result (members_view members.old.entries ≡ no_members → members_view members.new.entries ≡ common_members c.now f.now) }
{
    let anchors = anchors_value(alloc, c.anchors.as_slice());
    put_made(members, alloc, "anchors", anchors)?;
    let doubles = doubles_value(alloc, c.doubles.as_slice());
    put_made(members, alloc, "doubles", doubles)?;
    let heads = rows_value(alloc, f.heads.as_slice());
    put_made(members, alloc, "heads", heads)?;
    let pumps = rows_value(alloc, f.pumps.as_slice());
    put_made(members, alloc, "pumps", pumps)?;
    let ranks = row_value(alloc, c.ranks.as_slice());
    put_made(members, alloc, "ranks", ranks)?;
    let triples = triples_value(alloc, c.triples.as_slice());
    put_made(members, alloc, "triples", triples)?;
    put_made(members, alloc, "version", Ok(Value::from(1u32)))
}

/// Adds the kind of a certificate.
fn put_kind(members: &mut Members, alloc: Global, kind: &str) -> Result<(), OutOfMemory>
    ensures { OnOk result (members_view members.new.entries ≡ put (codes "kind") (string kind.now) (members_view members.old.entries)) }
{
    let value = Value::try_from_str(alloc, kind)?;
    put(members, alloc, "kind", value)?;
    Ok(())
}

/// Adds the members of a certificate.
fn put_form(members: &mut Members, alloc: Global, c: &Certificate) -> Result<(), OutOfMemory>
    requires { IsDecided c.now.verdict }
    ensures { OnOk result (members_view members.old.entries ≡ no_members → members_view members.new.entries ≡ form_members c.now c.now.verdict) }
{
    match &c.verdict {
        Verdict::Degree(degree, family) => {
            put_common(members, alloc, c, family)?;
            put_made(members, alloc, "degree", Ok(Value::from(*degree)))?;
            put_kind(members, alloc, "degree")
        }
        Verdict::Expo(family) => {
            put_common(members, alloc, c, family)?;
            put_kind(members, alloc, "exponential")
        }
        Verdict::Undecided(_) => unreachable!(),
    }
}

/// Converts a certificate into a JSON object.
fn object_of(alloc: Global, c: &Certificate) -> Result<Value, OutOfMemory>
    requires { IsDecided c.now.verdict }
    ensures { IfOk result (λ v. view v ≡ object (form_members c.now c.now.verdict)) }
{
    let mut members = Map::new(alloc);
    match put_form(&mut members, alloc, c) {
        Ok(()) => Ok(Value::Object(members)),
        Err(error) => {
            drop(members);
            Err(error)
        }
    }
}

/// Returns a certificate as one line of compact JSON, with a line feed at the end. Its verdict must not be undecided. The line
/// may be longer than [`MOST_CERTIFICATE_BYTES`](crate::MOST_CERTIFICATE_BYTES), in which case [`read`](crate::read) refuses
/// it.
///
/// # Errors
/// [`OutOfMemory`] if there is not enough memory.
pub fn write(alloc: Global, c: &Certificate) -> Result<Bytes, OutOfMemory>
    requires { IsDecided c.now.verdict }
    ensures { IfOk result (λ bytes. bytes ≡ form_text c.now) }
{
    let value = object_of(alloc, c)?;
    line_of(alloc, &value)
}
