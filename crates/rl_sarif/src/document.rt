//! A report as a SARIF 2.1.0 document.
ghost use Rattle.std.specs.Prelude.{◌≡◌, [], ◌∷◌, IfOk, OnOk, codes, false, string_bytes};
ghost use Rattle.serde_json.specs.Data.{array, no_members, object, put, string};
ghost use Rattle.serde_json.specs.View.{items_of, members_view, view};
ghost use Rattle.rl_report.specs.Document.{put_some};
ghost use Rattle.rl_report.specs.Names.{kind_name};
ghost use Rattle.rl_sarif.specs.Sarif.{document_data, is_result, location_data, message_text, physical_data, region_data, result_data, results_data, run_data, sarif_text, tool_data, uri_text};

use crate::uri::uri_of;
use rl_json::line_of;
use rl_lists::{Bytes, OutOfMemory};
use rl_report::{Entries, Entry, Place, call_name, outcome_text};
use serde_json::{Map, Value, json, put};
use std::alloc::Global;

/// The members of a JSON object.
type Members = Map<String, Value>;

/// Returns an object with one member.
fn object_of(alloc: Global, key: &str, value: Value) -> Result<Value, OutOfMemory>
    ensures { IfOk result (λ v. view v ≡ object (put key.now (view value) no_members)) }
{
    let mut members = Map::new(alloc);
    put(&mut members, alloc, key, value)?;
    Ok(Value::Object(members))
}

/// Returns an array with one item.
fn array_of(alloc: Global, value: Value) -> Result<Value, OutOfMemory>
    ensures { IfOk result (λ v. view v ≡ array (items_of (view value ∷ []))) }
{
    let mut values = Vec::new(alloc);
    values.push(value)?;
    Ok(Value::Array(values))
}

/// Adds a key with this string to the members.
fn put_text(alloc: Global, members: &mut Members, key: &str, text: &str) -> Result<(), OutOfMemory>
    ensures { OnOk result (members_view members.new.entries
        ≡ put key.now (string text.now) (members_view members.old.entries)) }
{
    let value = Value::try_from_str(alloc, text)?;
    put(members, alloc, key, value)?;
    Ok(())
}

/// Returns the region that starts at a place.
fn region_value(alloc: Global, place: Place) -> Result<Value, OutOfMemory>
    ensures { IfOk result (λ v. view v ≡ region_data place) }
{
    Ok(json!(in alloc; {"startColumn": place.column, "startLine": place.line})?)
}

/// Adds the region of the entry, if it has a place.
fn put_region(alloc: Global, members: &mut Members, at: Option<Place>) -> Result<(), OutOfMemory>
    ensures { OnOk result (members_view members.new.entries
        ≡ put_some (codes "region") region_data at (members_view members.old.entries)) }
{
    match at {
        None => Ok(()),
        Some(place) => {
            let region = region_value(alloc, place)?;
            put(members, alloc, "region", region)?;
            Ok(())
        }
    }
}

/// Returns the object with the path as a URI.
fn artifact_value(alloc: Global, path: &str) -> Result<Value, OutOfMemory>
    ensures { IfOk result (λ v. view v ≡ object (put (codes "uri") (string (uri_text path.now)) no_members)) }
{
    let uri = uri_of(alloc, path)?;
    object_of(alloc, "uri", Value::from(uri))
}

/// Returns the physical location of an entry: the URI of its path and, if it has a place, the region.
fn physical_value(alloc: Global, entry: &Entry) -> Result<Value, OutOfMemory>
    ensures { IfOk result (λ v. view v ≡ physical_data entry.now) }
{
    let artifact = artifact_value(alloc, entry.path.as_str())?;
    let mut members = Map::new(alloc);
    put(&mut members, alloc, "artifactLocation", artifact)?;
    put_region(alloc, &mut members, entry.at)?;
    Ok(Value::Object(members))
}

/// Returns the location of an entry.
fn location_value(alloc: Global, entry: &Entry) -> Result<Value, OutOfMemory>
    ensures { IfOk result (λ v. view v ≡ location_data entry.now) }
{
    let physical = physical_value(alloc, entry)?;
    object_of(alloc, "physicalLocation", physical)
}

/// Returns the message of an entry: its head line without the path, the place and the line end.
fn message(alloc: Global, entry: &Entry, max_pairs: u32) -> Result<String, OutOfMemory>
    ensures { IfOk result (λ text. string_bytes text ≡ message_text max_pairs entry.now) }
{
    let outcome = outcome_text(alloc, entry, max_pairs)?;
    match entry.call {
        None => Ok(outcome),
        Some(call) => {
            let name = call_name(call);
            Ok(format!(in alloc; "{name}: {outcome}")?)
        }
    }
}

/// Adds the message of an entry, and as its rule the name of its kind.
fn put_rule_and_message(
    alloc: Global,
    members: &mut Members,
    entry: &Entry,
    max_pairs: u32,
) -> Result<(), OutOfMemory>
    ensures { OnOk result (members_view members.new.entries
        ≡ put (codes "ruleId") (string (kind_name entry.now.outcome))
        (put (codes "message") (object (put (codes "text") (string (message_text max_pairs entry.now)) no_members))
        (members_view members.old.entries))) }
{
    let text = message(alloc, entry, max_pairs)?;
    let message = object_of(alloc, "text", Value::from(text))?;
    put(members, alloc, "message", message)?;
    put_text(alloc, members, "ruleId", entry.outcome.kind())
}

/// Returns the result for an entry.
fn result_value(alloc: Global, entry: &Entry, max_pairs: u32) -> Result<Value, OutOfMemory>
    ensures { IfOk result (λ v. view v ≡ result_data max_pairs entry.now) }
{
    let location = location_value(alloc, entry)?;
    let locations = array_of(alloc, location)?;
    let mut members = Map::new(alloc);
    put(&mut members, alloc, "locations", locations)?;
    put_rule_and_message(alloc, &mut members, entry, max_pairs)?;
    Ok(Value::Object(members))
}

/// Returns whether the document has a result for the entry: it is a finding, refused or undecided.
fn is_result(entry: &Entry, max_degree: u32) -> bool
    ensures { result ≡ is_result max_degree entry.now }
{
    entry.is_finding(max_degree) || entry.is_refused() || entry.is_undecided()
}

/// Returns the array of the results, in the order of the entries.
fn results_value(
    alloc: Global,
    entries: &[Entry],
    max_degree: u32,
    max_pairs: u32,
) -> Result<Value, OutOfMemory>
    ensures { IfOk result (λ v. view v ≡ results_data max_degree max_pairs entries.now) }
{
    let mut values = Vec::new(alloc);
    for entry in entries {
        if is_result(entry, max_degree) {
            let value = result_value(alloc, entry, max_pairs)?;
            values.push(value)?;
        }
    }
    Ok(Value::Array(values))
}

/// Returns the tool that makes the document.
fn tool_value(alloc: Global) -> Result<Value, OutOfMemory>
    ensures { IfOk result (λ v. view v ≡ tool_data) }
{
    let name = Value::try_from_str(alloc, "relint")?;
    let driver = object_of(alloc, "name", name)?;
    object_of(alloc, "driver", driver)
}

/// Adds the members of a run.
fn put_run(alloc: Global, members: &mut Members, results: Value) -> Result<(), OutOfMemory>
    ensures { OnOk result (members_view members.new.entries
        ≡ put (codes "tool") tool_data (put (codes "results") (view results)
        (put (codes "columnKind") (string (codes "unicodeCodePoints")) (members_view members.old.entries)))) }
{
    put_text(alloc, members, "columnKind", "unicodeCodePoints")?;
    put(members, alloc, "results", results)?;
    let tool = tool_value(alloc)?;
    put(members, alloc, "tool", tool)?;
    Ok(())
}

/// Returns the run with these results.
fn run_value(alloc: Global, results: Value) -> Result<Value, OutOfMemory>
    ensures { IfOk result (λ v. view v ≡ run_data (view results)) }
{
    let mut members = Map::new(alloc);
    put_run(alloc, &mut members, results)?;
    Ok(Value::Object(members))
}

/// Returns the document with these results.
fn document_value(alloc: Global, results: Value) -> Result<Value, OutOfMemory>
    ensures { IfOk result (λ v. view v ≡ document_data (view results)) }
{
    let run = run_value(alloc, results)?;
    let runs = array_of(alloc, run)?;
    let mut members = Map::new(alloc);
    put(&mut members, alloc, "runs", runs)?;
    put_text(alloc, &mut members, "version", "2.1.0")?;
    Ok(Value::Object(members))
}

/// Returns the report as a SARIF 2.1.0 document: one line, with a line feed at the end and the keys of each object in the
/// order of their bytes. It has a result for each entry, in order, except those whose verdict is a degree of at most
/// `max_degree`. `max_pairs` is the limit of live pairs, which a message shows if that limit was exceeded.
///
/// # Errors
/// [`OutOfMemory`] if memory runs out.
pub fn sarif(
    alloc: Global,
    entries: &Entries,
    max_degree: u32,
    max_pairs: u32,
) -> Result<Bytes, OutOfMemory>
    ensures { IfOk result (λ bytes. bytes ≡ sarif_text max_degree max_pairs entries.now) }
{
    let results = results_value(alloc, entries.as_slice(), max_degree, max_pairs)?;
    let document = document_value(alloc, results)?;
    line_of(alloc, &document)
}
