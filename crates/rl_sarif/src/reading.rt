//! Reading a baseline: an earlier report in JSON, read as the keys of its entries. A baseline recognizes an entry by its key:
//! the path, and the subject, which is the call, the kind of the outcome, and the degree, the exceeded limit or the cause of a
//! refusal.
ghost use Rattle.std.specs.Prelude.{◌≡◌, ◌||◌, ◌==◌, IfOk, IsUtf8, List, None, Some, codes, false, map, option_and_then, option_map};
ghost use Rattle.std.specs.Option.{option_map_or};
ghost use Rattle.serde_json.specs.Find.{get};
ghost use Rattle.serde_json.specs.Read.{read};
ghost use Rattle.serde_json.specs.View.{items_view, view};
ghost use Rattle.rl_sarif.specs.Baseline.{IsBaseline, call_found, cause_names, fitting, key_read, keys_read, kind_names, limit_names, name_at, number_at, report_keys, subject_of_kind, subject_read, text_at};
ghost use Rattle.rl_sarif.specs.Keys.{EntryKey, key_in, subject_in};

use crate::key::{About, Key, KnownKeys};
use crate::limits::MOST_BASELINE_BYTES;
use crate::names::{call_named, cause_named, kind_named, limit_named};
use rl_lists::Bytes;
use serde_json::Value;
use std::alloc::{AllocError, AllocFailed, Global};

/// Why no keys are read from bytes.
#[derive(Clone, Copy)]
pub enum BaselineError {
    /// There are more than 67,108,864 bytes, or they aren't UTF-8 or JSON, or the JSON value isn't a report of the right form.
    Refused,
    /// Memory ran out.
    OutOfMemory,
}

impl From<AllocError> for BaselineError {
    ghost use Rattle.rl_sarif.specs.declared.reading.BaselineError.TheVariants as error;

    ghost from_gives = { λ _ e. e ≡ error.OutOfMemory };

    fn from(_: AllocError) -> Self {
        BaselineError::OutOfMemory
    }
}

impl<T: Drop> From<AllocFailed<T>> for BaselineError {
    ghost use Rattle.rl_sarif.specs.declared.reading.BaselineError.TheVariants as error;

    ghost from_gives = { λ _ e. e ≡ error.OutOfMemory };

    fn from(_: AllocFailed<T>) -> Self {
        BaselineError::OutOfMemory
    }
}

/// Returns the string under a key, or `None` if the value isn't an object with a string there.
fn text_at<'v>(value: &'v Value, key: &str) -> Option<&'v str>
    ensures { option_map (λ t. t.now) result ≡ text_at key.now (view value.now) }
{
    value.get(key).and_then(Value::as_str)
}

/// Returns the number under a key, or `None` if the value isn't an object with a whole number from 0 to 2^64 - 1 there.
fn number_at(value: &Value, key: &str) -> Option<u64>
    ensures { result ≡ number_at key.now (view value.now) }
{
    value.get(key).and_then(Value::as_u64)
}

/// Returns the degree of an entry, if there is one that fits in 32 bits.
fn degree_at(value: &Value) -> Option<u32>
    ensures { result ≡ option_and_then fitting (number_at (codes "degree") (view value.now)) }
{
    let degree = number_at(value, "degree")?;
    if degree <= u64::from(u32::MAX) {
        Some(degree as u32)
    } else {
        None
    }
}

/// Returns the name of the limit of an entry, or `None` if it has none that is known.
fn limit_at(value: &Value) -> Option<&'static str>
    ensures { option_map (λ n. n.now) result ≡ name_at limit_names (codes "limit") (view value.now) }
{
    match text_at(value, "limit") {
        None => None,
        Some(text) => limit_named(text),
    }
}

/// Returns the name of the cause of an entry, or `None` if it has none that is known.
fn cause_at(value: &Value) -> Option<&'static str>
    ensures { option_map (λ n. n.now) result ≡ name_at cause_names (codes "cause") (view value.now) }
{
    match text_at(value, "cause") {
        None => None,
        Some(text) => cause_named(text),
    }
}

/// Returns the name of the kind of an entry, or `None` if it has none that is known.
fn kind_at(value: &Value) -> Option<&'static str>
    ensures { option_map (λ n. n.now) result ≡ name_at kind_names (codes "kind") (view value.now) }
{
    match text_at(value, "kind") {
        None => None,
        Some(text) => kind_named(text),
    }
}

/// Returns the call of an entry: `Some(None)` if it has none, and `None` if it has one that isn't a known name.
fn call_at(value: &Value) -> Option<Option<&'static str>>
    ensures { option_map (option_map (λ n. n.now)) result ≡ call_found (get (codes "call") (view value.now)) }
{
    match value.get("call") {
        None => Some(None),
        Some(call) => match call.as_str() {
            None => None,
            Some(text) => match call_named(text) {
                None => None,
                Some(name) => Some(Some(name)),
            },
        },
    }
}

/// Returns `plain` with the degree of the entry, or `None` if it has none that fits in 32 bits.
fn with_degree(value: &Value, plain: About) -> Option<About>
    ensures { option_map subject_in result
        ≡ option_map (λ n. record (subject_in plain) { degree = Some n }) (option_and_then fitting (number_at (codes "degree") (view value.now))) }
{
    match degree_at(value) {
        None => None,
        Some(degree) => Some(About {
            degree: Some(degree),
            ..plain
        }),
    }
}

/// Returns `plain` with the limit of the entry, or `None` if it has none that is known.
fn with_limit(value: &Value, plain: About) -> Option<About>
    ensures { option_map subject_in result
        ≡ option_map (λ name. record (subject_in plain) { limit = Some name }) (name_at limit_names (codes "limit") (view value.now)) }
{
    match limit_at(value) {
        None => None,
        Some(limit) => Some(About {
            limit: Some(limit),
            ..plain
        }),
    }
}

/// Returns `plain` with the cause of the entry, or `None` if it has none that is known.
fn with_cause(value: &Value, plain: About) -> Option<About>
    ensures { option_map subject_in result
        ≡ option_map (λ name. record (subject_in plain) { cause = Some name }) (name_at cause_names (codes "cause") (view value.now)) }
{
    match cause_at(value) {
        None => None,
        Some(cause) => Some(About {
            cause: Some(cause),
            ..plain
        }),
    }
}

/// Returns what the key of an entry with this call and kind has besides the path, or `None` if the entry lacks what its kind
/// needs: a degree its number, an undecided entry its limit, and a refusal its cause.
fn about_of_kind(value: &Value, call: Option<&'static str>, kind: &'static str) -> Option<About>
    ensures { option_map subject_in result
        ≡ subject_of_kind (option_map (λ n. n.now) call.entry) kind.now (view value.now) }
{
    let plain = About {
        call,
        kind,
        degree: None,
        limit: None,
        cause: None,
    };
    if kind == "degree" {
        with_degree(value, plain)
    } else if kind == "undecided" {
        with_limit(value, plain)
    } else if kind == "refused" {
        with_cause(value, plain)
    } else {
        Some(plain)
    }
}

/// Returns what the key of an entry has besides the path, or `None` if the entry doesn't have the right form.
fn about_at(value: &Value) -> Option<About>
    ensures { option_map subject_in result ≡ subject_read (view value.now) }
{
    let call = call_at(value)?;
    let kind = kind_at(value)?;
    about_of_kind(value, call, kind)
}

/// Returns the key of an entry.
fn key_of(alloc: Global, value: &Value) -> Result<Key, BaselineError>
    ensures key { IfOk result (λ key. key_read (view value.now) ≡ Some (key_in key)) }
    ensures refused { result ≡ Err BaselineError.Refused → key_read (view value.now) ≡ None }
{
    let Some(about) = about_at(value) else {
        return Err(BaselineError::Refused);
    };
    let Some(path) = text_at(value, "path") else {
        return Err(BaselineError::Refused);
    };
    let path = String::from_str(alloc, path)?;
    Ok(Key { path, about })
}

/// Returns the keys of the entries, in order.
#[tactic(auto, using(crate::proofs::ReadingLemmas::reading))]
fn keys_of(alloc: Global, values: &[Value]) -> Result<Vec<Key>, BaselineError>
    ensures keys { IfOk result (λ keys. keys_read (items_view values.now) ≡ Some (map key_in keys.items)) }
    ensures refused { result ≡ Err BaselineError.Refused → keys_read (items_view values.now) ≡ None }
{
    let mut keys = Vec::new(alloc);
    for value in values {
        let key = key_of(alloc, value)?;
        keys.push(key)?;
    }
    Ok(keys)
}

/// Returns whether the report has a version that is 1 or 2.
fn has_version(value: &Value) -> bool
    ensures { result ≡ option_map_or (λ n. n == 1 || n == 2) (number_at (codes "version") (view value.now)) false }
{
    match number_at(value, "version") {
        None => false,
        Some(version) => version == 1 || version == 2,
    }
}

/// Returns the keys of the entries of a report.
fn report_keys(alloc: Global, value: &Value) -> Result<Vec<Key>, BaselineError>
    ensures keys { IfOk result (λ keys. report_keys (view value.now) ≡ Some (map key_in keys.items)) }
    ensures refused { result ≡ Err BaselineError.Refused → report_keys (view value.now) ≡ None }
{
    if !has_version(value) {
        return Err(BaselineError::Refused);
    }
    let Some(entries) = value.get("entries").and_then(Value::as_array) else {
        return Err(BaselineError::Refused);
    };
    keys_of(alloc, entries.as_slice())
}

/// Returns the JSON value that the bytes spell.
fn value_of(alloc: Global, bytes: &[u8]) -> Result<Value, BaselineError>
    ensures value { IfOk result (λ v. IsUtf8 bytes.now × (read bytes.now ≡ Some (view v))) }
    ensures refused { result ≡ Err BaselineError.Refused → IsUtf8 bytes.now → read bytes.now ≡ None }
{
    match Value::from_slice(alloc, bytes) {
        Ok(value) => Ok(value),
        Err(error) => {
            if error.is_memory() {
                Err(BaselineError::OutOfMemory)
            } else {
                Err(BaselineError::Refused)
            }
        }
    }
}

/// Returns the keys of the baseline that the bytes hold: those of the entries of the report, in their order. The report must
/// be in JSON and UTF-8, of version 1 or 2, with at most 67,108,864 bytes. Each entry needs a path and a kind, and a degree,
/// limit or cause if its kind has one; its call may be missing. All other members are ignored.
///
/// # Errors
/// [`BaselineError::Refused`] if the bytes aren't such a report; [`BaselineError::OutOfMemory`] if memory runs out.
pub fn baseline(alloc: Global, bytes: &Bytes) -> Result<KnownKeys, BaselineError>
    ensures known { IfOk result (IsBaseline bytes.now) }
    ensures refused { result ≡ Err BaselineError.Refused → (keys : List EntryKey) → ¬ IsBaseline bytes.now keys }
{
    if bytes.len() > MOST_BASELINE_BYTES {
        return Err(BaselineError::Refused);
    }
    let value = value_of(alloc, bytes.as_slice())?;
    let keys = report_keys(alloc, &value)?;
    Ok(KnownKeys { keys })
}
