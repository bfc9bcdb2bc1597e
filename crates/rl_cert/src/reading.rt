//! Reading certificates.

ghost use Rattle.std.specs.Prelude.{◌≡◌, ◌++◌, ◌==◌, codes, false, map, length, List, None, Some, IfOk, IsUtf8, option_and_then, option_map};
ghost use Rattle.serde_json.specs.Find.{get, as_str};
ghost use Rattle.serde_json.specs.Read.{read};
ghost use Rattle.serde_json.specs.View.{items_view, view};
ghost use Rattle.rl_cert.specs.declared.certificate.Certificate.{Certificate};
ghost use Rattle.rl_cert.specs.internal.FormParts.{places_read, numbers_read};
ghost use Rattle.rl_cert.specs.Form.{number_read, row_read, rows_read, anchor_of, double_of, triple_of, anchors_read, doubles_read, triples_read, items_read, all_of, read_at, family_read, member_count, verdict_of, verdict_read, is_version, certificate_read, IsForm};

use crate::certificate::{Anchor, Anchors, Certificate};
use crate::limits::MOST_CERTIFICATE_BYTES;
use rl_lists::{Bytes, Items, OutOfMemory, Ranks, Word};
use rl_numbers::double::{Double, Doubles};
use rl_numbers::triple::{Triple, Triples};
use rl_syntax::{Family, Texts, Verdict};
use serde_json::Value;
use std::alloc::{AllocError, AllocFailed, Global};

/// The reason why bytes give no certificate.
#[derive(Clone, Copy, Debug, PartialEq, Eq)]
pub enum ReadError {
    /// There are too many bytes, they aren't JSON, or they don't have the form of a certificate.
    Refused,
    /// Out of memory.
    OutOfMemory,
}

impl From<OutOfMemory> for ReadError {
    ghost use Rattle.rl_cert.specs.declared.reading.ReadError.TheVariants as error;

    ghost from_gives = { λ _ e. e ≡ error.OutOfMemory };

    fn from(_: OutOfMemory) -> Self {
        ReadError::OutOfMemory
    }
}

/// Returns the value as a whole number if it is one and fits 32 bits.
fn number_of(value: &Value) -> Option<u32>
    ensures { result ≡ number_read (view value.now) }
{
    let number = value.as_u64()?;
    if number <= u64::from(u32::MAX) {
        Some(number as u32)
    } else {
        None
    }
}

/// Returns the value as a row of numbers, or refuses it.
#[tactic(auto, using(crate::proofs::ReadRows::reading))]
fn row_of(alloc: Global, value: &Value) -> Result<Word, ReadError>
    ensures row { IfOk result (λ row. row_read (view value.now) ≡ Some row) }
    ensures refused { result ≡ Err ReadError.Refused → row_read (view value.now) ≡ None }
{
    let Some(values) = value.as_array() else {
        return Err(ReadError::Refused);
    };
    numbers_of(alloc, values.as_slice())
}

/// Reads each of the values as a number.
#[tactic(auto, using(crate::proofs::ReadRows::reading))]
fn numbers_of(alloc: Global, values: &[Value]) -> Result<Word, ReadError>
    ensures row { IfOk result (λ row. items_read number_read (items_view values.now) ≡ Some row) }
    ensures refused { result ≡ Err ReadError.Refused → items_read number_read (items_view values.now) ≡ None }
{
    let mut row = Items::new(alloc);
    for value in values {
        let Some(number) = number_of(value) else {
            return Err(ReadError::Refused);
        };
        row.push(number)?;
    }
    Ok(row)
}

/// Reads each of the values as a row of numbers.
#[tactic(auto, using(crate::proofs::ReadRows::reading))]
fn rows_of(alloc: Global, values: &[Value]) -> Result<Texts, ReadError>
    ensures rows { IfOk result (λ rows. items_read row_read (items_view values.now) ≡ Some rows) }
    ensures refused { result ≡ Err ReadError.Refused → items_read row_read (items_view values.now) ≡ None }
{
    let mut rows = Items::new(alloc);
    for value in values {
        let row = row_of(alloc, value)?;
        rows.push(row)?;
    }
    Ok(rows)
}

/// Reads a value as a list of rows of numbers.
fn all_rows(alloc: Global, value: &Value) -> Result<Texts, ReadError>
    ensures rows { IfOk result (λ rows. rows_read (view value.now) ≡ Some rows) }
    ensures refused { result ≡ Err ReadError.Refused → rows_read (view value.now) ≡ None }
{
    let Some(values) = value.as_array() else {
        return Err(ReadError::Refused);
    };
    rows_of(alloc, values.as_slice())
}

/// Returns the anchor that a row describes, or `None` if the row doesn't have two numbers.
fn anchor_of(row: &[u32]) -> Option<Anchor>
    ensures { result ≡ anchor_of row.now }
{
    if row.len() == 2 {
        Some(Anchor {
            r: row[0],
            q: row[1],
        })
    } else {
        None
    }
}

/// Returns the anchors that the rows describe.
#[tactic(auto, using(crate::proofs::AllRows::all_rows))]
fn anchors_of(alloc: Global, rows: &[Word]) -> Result<Anchors, ReadError>
    ensures anchors { IfOk result (λ l. all_of anchor_of rows.now ≡ Some l) }
    ensures refused { result ≡ Err ReadError.Refused → all_of anchor_of rows.now ≡ None }
{
    let mut anchors = Items::new(alloc);
    for row in rows {
        let Some(anchor) = anchor_of(row.as_slice()) else {
            return Err(ReadError::Refused);
        };
        anchors.push(anchor)?;
    }
    Ok(anchors)
}

/// Reads the anchors of a certificate.
fn anchors_at(alloc: Global, value: &Value) -> Result<Anchors, ReadError>
    ensures anchors { IfOk result (λ l. read_at anchors_read (codes "anchors") (view value.now) ≡ Some l) }
    ensures refused { result ≡ Err ReadError.Refused → read_at anchors_read (codes "anchors") (view value.now) ≡ None }
{
    let Some(member) = value.get("anchors") else {
        return Err(ReadError::Refused);
    };
    let rows = all_rows(alloc, member)?;
    anchors_of(alloc, rows.as_slice())
}

/// Returns the double that a row describes, or `None` if the row doesn't have three numbers.
fn double_of(row: &[u32]) -> Option<Double>
    ensures { result ≡ double_of row.now }
{
    if row.len() == 3 {
        Some(Double {
            p: row[0],
            q: row[1],
            number: row[2],
        })
    } else {
        None
    }
}

/// Returns the doubles that the rows describe.
#[tactic(auto, using(crate::proofs::AllRows::all_rows))]
fn doubles_of(alloc: Global, rows: &[Word]) -> Result<Doubles, ReadError>
    ensures doubles { IfOk result (λ l. all_of double_of rows.now ≡ Some l) }
    ensures refused { result ≡ Err ReadError.Refused → all_of double_of rows.now ≡ None }
{
    let mut doubles = Items::new(alloc);
    for row in rows {
        let Some(double) = double_of(row.as_slice()) else {
            return Err(ReadError::Refused);
        };
        doubles.push(double)?;
    }
    Ok(doubles)
}

/// Reads the doubles of a certificate.
fn doubles_at(alloc: Global, value: &Value) -> Result<Doubles, ReadError>
    ensures doubles { IfOk result (λ l. read_at doubles_read (codes "doubles") (view value.now) ≡ Some l) }
    ensures refused { result ≡ Err ReadError.Refused → read_at doubles_read (codes "doubles") (view value.now) ≡ None }
{
    let Some(member) = value.get("doubles") else {
        return Err(ReadError::Refused);
    };
    let rows = all_rows(alloc, member)?;
    doubles_of(alloc, rows.as_slice())
}

/// Returns the triple that a row describes, or `None` if the row doesn't have four numbers.
fn triple_of(row: &[u32]) -> Option<Triple>
    ensures { result ≡ triple_of row.now }
{
    if row.len() == 4 {
        Some(Triple {
            p: row[0],
            q: row[1],
            r: row[2],
            number: row[3],
        })
    } else {
        None
    }
}

/// Returns the triples that the rows describe.
#[tactic(auto, using(crate::proofs::AllRows::all_rows))]
fn triples_of(alloc: Global, rows: &[Word]) -> Result<Triples, ReadError>
    ensures triples { IfOk result (λ l. all_of triple_of rows.now ≡ Some l) }
    ensures refused { result ≡ Err ReadError.Refused → all_of triple_of rows.now ≡ None }
{
    let mut triples = Items::new(alloc);
    for row in rows {
        let Some(triple) = triple_of(row.as_slice()) else {
            return Err(ReadError::Refused);
        };
        triples.push(triple)?;
    }
    Ok(triples)
}

/// Reads the triples of a certificate.
fn triples_at(alloc: Global, value: &Value) -> Result<Triples, ReadError>
    ensures triples { IfOk result (λ l. read_at triples_read (codes "triples") (view value.now) ≡ Some l) }
    ensures refused { result ≡ Err ReadError.Refused → read_at triples_read (codes "triples") (view value.now) ≡ None }
{
    let Some(member) = value.get("triples") else {
        return Err(ReadError::Refused);
    };
    let rows = all_rows(alloc, member)?;
    triples_of(alloc, rows.as_slice())
}

/// Reads the ranks of a certificate.
fn ranks_at(alloc: Global, value: &Value) -> Result<Ranks, ReadError>
    ensures ranks { IfOk result (λ l. read_at row_read (codes "ranks") (view value.now) ≡ Some l) }
    ensures refused { result ≡ Err ReadError.Refused → read_at row_read (codes "ranks") (view value.now) ≡ None }
{
    let Some(member) = value.get("ranks") else {
        return Err(ReadError::Refused);
    };
    row_of(alloc, member)
}

/// Reads the rows of numbers at a key.
fn rows_at(alloc: Global, value: &Value, key: &str) -> Result<Texts, ReadError>
    ensures rows { IfOk result (λ l. read_at rows_read key.now (view value.now) ≡ Some l) }
    ensures refused { result ≡ Err ReadError.Refused → read_at rows_read key.now (view value.now) ≡ None }
{
    let Some(member) = value.get(key) else {
        return Err(ReadError::Refused);
    };
    all_rows(alloc, member)
}

/// Reads the family of a certificate.
fn family_at(alloc: Global, value: &Value) -> Result<Family, ReadError>
    ensures family { IfOk result (λ f. family_read (view value.now) ≡ Some f) }
    ensures refused { result ≡ Err ReadError.Refused → family_read (view value.now) ≡ None }
{
    let heads = rows_at(alloc, value, "heads")?;
    let pumps = rows_at(alloc, value, "pumps")?;
    Ok(Family { heads, pumps })
}

/// Reads the number at a key.
fn number_at(value: &Value, key: &str) -> Option<u32>
    ensures { result ≡ read_at number_read key.now (view value.now) }
{
    match value.get(key) {
        Some(member) => number_of(member),
        None => None,
    }
}

/// Returns the number of members of an object, or 0 for any other value.
fn member_count(value: &Value) -> usize
    ensures { result ≡ member_count (view value.now) }
{
    match value.as_object() {
        Some(members) => members.len(),
        None => 0,
    }
}

/// Returns the kind of a certificate, or `None` if there is no string at the key `kind`.
fn kind_at(value: &Value) -> Option<&str>
    ensures { option_map (λ t. t.now) result ≡ read_at as_str (codes "kind") (view value.now) }
{
    value.get("kind").and_then(Value::as_str)
}

/// Reads the verdict of a certificate of the given kind, with its family.
fn verdict_of(alloc: Global, value: &Value, kind: &str) -> Result<Verdict, ReadError>
    ensures verdict { IfOk result (λ v. option_and_then (λ f. verdict_of kind.now f (view value.now)) (family_read (view value.now)) ≡ Some v) }
    ensures refused { result ≡ Err ReadError.Refused → option_and_then (λ f. verdict_of kind.now f (view value.now)) (family_read (view value.now)) ≡ None }
{
    if kind == "degree" {
        if member_count(value) != 9 {
            return Err(ReadError::Refused);
        }
        let Some(degree) = number_at(value, "degree") else {
            return Err(ReadError::Refused);
        };
        let family = family_at(alloc, value)?;
        Ok(Verdict::Degree(degree, family))
    } else if kind == "exponential" && member_count(value) == 8 {
        let family = family_at(alloc, value)?;
        Ok(Verdict::Expo(family))
    } else {
        Err(ReadError::Refused)
    }
}

/// Reads the verdict of a certificate.
fn verdict_at(alloc: Global, value: &Value) -> Result<Verdict, ReadError>
    ensures verdict { IfOk result (λ v. verdict_read (view value.now) ≡ Some v) }
    ensures refused { result ≡ Err ReadError.Refused → verdict_read (view value.now) ≡ None }
{
    let Some(kind) = kind_at(value) else {
        return Err(ReadError::Refused);
    };
    verdict_of(alloc, value, kind)
}

/// Returns whether the version is 1.
fn has_version(value: &Value) -> bool
    ensures { result ≡ is_version (read_at number_read (codes "version") (view value.now)) }
{
    match number_at(value, "version") {
        Some(version) => version == 1,
        None => false,
    }
}

/// Reads the anchors and the ranks of a certificate.
fn places_at(alloc: Global, value: &Value) -> Result<(Anchors, Ranks), ReadError>
    ensures places { IfOk result (λ p. places_read (view value.now) ≡ Some p) }
    ensures refused { result ≡ Err ReadError.Refused → places_read (view value.now) ≡ None }
{
    let anchors = anchors_at(alloc, value)?;
    let ranks = ranks_at(alloc, value)?;
    Ok((anchors, ranks))
}

/// Reads the doubles and the triples of a certificate.
fn numbers_at(alloc: Global, value: &Value) -> Result<(Doubles, Triples), ReadError>
    ensures numbers { IfOk result (λ n. numbers_read (view value.now) ≡ Some n) }
    ensures refused { result ≡ Err ReadError.Refused → numbers_read (view value.now) ≡ None }
{
    let doubles = doubles_at(alloc, value)?;
    let triples = triples_at(alloc, value)?;
    Ok((doubles, triples))
}

/// Reads a value as a certificate.
fn certificate_of(alloc: Global, value: &Value) -> Result<Certificate, ReadError>
    ensures certificate { IfOk result (λ c. certificate_read (view value.now) ≡ Some c) }
    ensures refused { result ≡ Err ReadError.Refused → certificate_read (view value.now) ≡ None }
{
    if !has_version(value) {
        return Err(ReadError::Refused);
    }
    let (anchors, ranks) = places_at(alloc, value)?;
    let (doubles, triples) = numbers_at(alloc, value)?;
    let verdict = verdict_at(alloc, value)?;
    Ok(Certificate {
        verdict,
        anchors,
        ranks,
        doubles,
        triples,
    })
}

/// Parses the bytes as JSON.
fn value_of(alloc: Global, bytes: &[u8]) -> Result<Value, ReadError>
    ensures value { IfOk result (λ v. IsUtf8 bytes.now × (read bytes.now ≡ Some (view v))) }
    ensures refused { result ≡ Err ReadError.Refused → IsUtf8 bytes.now → read bytes.now ≡ None }
{
    match Value::from_slice(alloc, bytes) {
        Ok(value) => Ok(value),
        Err(error) => {
            if error.is_memory() {
                Err(ReadError::OutOfMemory)
            } else {
                Err(ReadError::Refused)
            }
        }
    }
}

/// Returns the certificate that the bytes describe, in any layout of its JSON form.
///
/// # Errors
/// [`ReadError::Refused`] if there are more than [`MOST_CERTIFICATE_BYTES`] bytes, they aren't UTF-8 or JSON, or the JSON
/// value doesn't have the form of a certificate; [`ReadError::OutOfMemory`] if there is not enough memory.
pub fn read(alloc: Global, bytes: &Bytes) -> Result<Certificate, ReadError>
    ensures certificate { IfOk result (IsForm bytes.now) }
    ensures refused { result ≡ Err ReadError.Refused → (c : Certificate) → ¬ IsForm bytes.now c }
{
    if bytes.len() > MOST_CERTIFICATE_BYTES {
        return Err(ReadError::Refused);
    }
    let value = value_of(alloc, bytes.as_slice())?;
    let certificate = certificate_of(alloc, &value);
    drop(value);
    certificate
}
