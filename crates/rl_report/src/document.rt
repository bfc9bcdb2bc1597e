//! A report in JSON. The universe of an entry says whether its texts are of type `str` or `bytes`.
ghost use Rattle.std.specs.Prelude.{◌≡◌, All, IfOk, IfSome, OnOk, codes, false, map, option_and_then, option_map};
ghost use Rattle.std.specs.List.{count_by};
ghost use Rattle.rl_ranges.specs.Text.{IsText};
ghost use Rattle.serde_json.specs.Data.{array, no_members, object, put, string};
ghost use Rattle.serde_json.specs.View.{items_of, items_view, members_view, view};
ghost use Rattle.rl_sites.specs.Names.{call_word};
ghost use Rattle.rl_report.specs.Document.{at_members, becomes_members, entry_data, family_data, front_members, json_report, judged_members, marks_data, marks_members, outcome_members, place_data, place_members, put_some, refusal_members, report_data, suggest_members, suggestion_members, texts_data, verdict_members, whole};
ghost use Rattle.rl_report.specs.Findings.{is_finding, is_refused, is_undecided, verdict_of};
ghost use Rattle.rl_report.specs.Layouts.{IsOfItsUniverse};
ghost use Rattle.rl_report.specs.Verdicts.{IsFamilyOf, IsVerdictOf, family_of, quoted_text};

use crate::counts::{findings, refusals, undecided};
use crate::lines::Terms;
use crate::names::{call_name, limit_name, limit_number};
use crate::places::Place;
use crate::report::{Entry, Mark, Marks};
use rl_json::line_of;
use rl_lists::{Bytes, Codes, OutOfMemory};
use rl_pystr::quote;
use rl_sites::Call;
use rl_syntax::{Family, Limit, Suggestion, Universe, Verdict};
use serde_json::{Map, Value, put};
use std::alloc::Global;

/// The members of a JSON object.
type Members = Map<String, Value>;

/// Adds a key with this value to the members.
fn put_value(
    alloc: Global,
    members: &mut Members,
    key: &str,
    value: Value,
) -> Result<(), OutOfMemory>
    ensures { OnOk result (members_view members.new.entries
        ≡ put key.now (view value) (members_view members.old.entries)) }
{
    put(members, alloc, key, value)?;
    Ok(())
}

/// Adds a key with this string to the members.
fn put_text(alloc: Global, members: &mut Members, key: &str, text: &str) -> Result<(), OutOfMemory>
    ensures { OnOk result (members_view members.new.entries
        ≡ put key.now (string text.now) (members_view members.old.entries)) }
{
    let value = Value::try_from_str(alloc, text)?;
    put_value(alloc, members, key, value)
}

/// Adds a key with this number to the members.
fn put_number(
    alloc: Global,
    members: &mut Members,
    key: &str,
    number: usize,
) -> Result<(), OutOfMemory>
    ensures { OnOk result (members_view members.new.entries
        ≡ put key.now (whole number) (members_view members.old.entries)) }
{
    put_value(alloc, members, key, Value::from(number))
}

/// Adds the line and the column of a place to the members.
fn put_place(alloc: Global, members: &mut Members, place: Place) -> Result<(), OutOfMemory>
    ensures { OnOk result (members_view members.new.entries
        ≡ place_members place (members_view members.old.entries)) }
{
    put_number(alloc, members, "line", place.line as usize)?;
    put_number(alloc, members, "column", place.column as usize)
}

/// Returns a place as an object.
fn place_value(alloc: Global, place: Place) -> Result<Value, OutOfMemory>
    ensures { IfOk result (λ v. view v ≡ place_data place) }
{
    let mut members = Map::new(alloc);
    put_place(alloc, &mut members, place)?;
    Ok(Value::Object(members))
}

/// Adds the place of the entry, if it has one.
fn put_at(alloc: Global, members: &mut Members, at: Option<Place>) -> Result<(), OutOfMemory>
    ensures { OnOk result (members_view members.new.entries
        ≡ at_members at (members_view members.old.entries)) }
{
    match at {
        None => Ok(()),
        Some(place) => put_place(alloc, members, place),
    }
}

/// Adds the name of the call, if the entry has one.
fn put_call(alloc: Global, members: &mut Members, call: Option<Call>) -> Result<(), OutOfMemory>
    ensures { OnOk result (members_view members.new.entries
        ≡ put_some (codes "call") (λ c. string (call_word c)) call (members_view members.old.entries)) }
{
    match call {
        None => Ok(()),
        Some(call) => put_text(alloc, members, "call", call_name(call)),
    }
}

/// Adds the place of the fault, if there is one.
fn put_fault(alloc: Global, members: &mut Members, fault: Option<Place>) -> Result<(), OutOfMemory>
    ensures { OnOk result (members_view members.new.entries
        ≡ put_some (codes "fault") place_data fault (members_view members.old.entries)) }
{
    match fault {
        None => Ok(()),
        Some(place) => {
            let value = place_value(alloc, place)?;
            put_value(alloc, members, "fault", value)
        }
    }
}

/// Adds an `undecided` verdict: its kind, and the name and the number of the limit.
fn put_limit(
    alloc: Global,
    members: &mut Members,
    limit: Limit,
    max_pairs: u32,
) -> Result<(), OutOfMemory>
    ensures { OnOk result (members_view members.new.entries
        ≡ verdict_members max_pairs (Verdict.Undecided limit) (members_view members.old.entries)) }
{
    put_text(alloc, members, "kind", "undecided")?;
    put_text(alloc, members, "limit", limit_name(limit))?;
    let number = limit_number(limit, max_pairs) as usize;
    put_number(alloc, members, "over", number)
}

/// Adds a verdict: its kind and, depending on it, the degree, or the name and the number of the limit.
fn put_verdict(
    alloc: Global,
    members: &mut Members,
    verdict: &Verdict,
    max_pairs: u32,
) -> Result<(), OutOfMemory>
    ensures { OnOk result (members_view members.new.entries
        ≡ verdict_members max_pairs verdict.now (members_view members.old.entries)) }
{
    match verdict {
        Verdict::Degree(degree, _) => {
            put_text(alloc, members, "kind", "degree")?;
            put_number(alloc, members, "degree", *degree as usize)
        }
        Verdict::Expo(_) => put_text(alloc, members, "kind", "exponential"),
        Verdict::Undecided(limit) => put_limit(alloc, members, *limit, max_pairs),
    }
}

/// Adds the kind of an outcome without a verdict and, if it is a refusal, the cause and the place of the fault.
fn put_refusal(
    alloc: Global,
    members: &mut Members,
    kind: &str,
    cause: Option<&'static str>,
    fault: Option<Place>,
) -> Result<(), OutOfMemory>
    ensures { OnOk result (members_view members.new.entries
        ≡ refusal_members kind.now (option_map (λ c. c.now) cause.entry) fault (members_view members.old.entries)) }
{
    put_text(alloc, members, "kind", kind)?;
    match cause {
        None => Ok(()),
        Some(cause) => {
            put_text(alloc, members, "cause", cause)?;
            put_fault(alloc, members, fault)
        }
    }
}

/// Adds the outcome of an entry: its verdict if there is one, otherwise its kind and the cause of its refusal.
fn put_outcome(
    alloc: Global,
    members: &mut Members,
    entry: &Entry,
    max_pairs: u32,
) -> Result<(), OutOfMemory>
    ensures { OnOk result (members_view members.new.entries
        ≡ outcome_members max_pairs entry.now (verdict_of entry.now.outcome) (members_view members.old.entries)) }
{
    let outcome = &entry.outcome;
    match outcome.verdict() {
        None => put_refusal(alloc, members, outcome.kind(), outcome.cause(), entry.fault),
        Some(verdict) => put_verdict(alloc, members, verdict, max_pairs),
    }
}

/// Returns a quoted text as a JSON string. A quoted text is always ASCII.
fn quoted_value(alloc: Global, text: &Codes, universe: Universe) -> Result<Value, OutOfMemory>
    requires { IsText universe text.now }
    ensures { IfOk result (λ v. view v ≡ string (quoted_text universe text.now)) }
{
    let literal = quote(alloc, text, universe)?;
    match String::from_utf8(literal.into_vec()) {
        Ok(text) => Ok(Value::from(text)),
        Err(_) => unreachable!(),
    }
}

/// Returns texts of the universe as an array of quoted literals.
fn texts_value(alloc: Global, texts: &[Codes], universe: Universe) -> Result<Value, OutOfMemory>
    requires { All (IsText universe) texts.now }
    ensures { IfOk result (λ v. view v ≡ texts_data universe texts.now) }
{
    let mut values = Vec::new(alloc);
    for text in texts {
        let value = quoted_value(alloc, text, universe)?;
        values.push(value)?;
    }
    Ok(Value::Array(values))
}

/// Adds a key with these texts, as an array of quoted literals.
fn put_texts(
    alloc: Global,
    members: &mut Members,
    key: &str,
    texts: &[Codes],
    universe: Universe,
) -> Result<(), OutOfMemory>
    requires { All (IsText universe) texts.now }
    ensures { OnOk result (members_view members.new.entries
        ≡ put key.now (texts_data universe texts.now) (members_view members.old.entries)) }
{
    let value = texts_value(alloc, texts, universe)?;
    put_value(alloc, members, key, value)
}

/// Returns a family as an object: its heads and its pumps.
fn family_value(alloc: Global, family: &Family, universe: Universe) -> Result<Value, OutOfMemory>
    requires { IsFamilyOf universe family.now }
    ensures { IfOk result (λ v. view v ≡ family_data universe family.now) }
{
    let mut members = Map::new(alloc);
    let (heads, pumps) = (family.heads.as_slice(), family.pumps.as_slice());
    put_texts(alloc, &mut members, "heads", heads, universe)?;
    put_texts(alloc, &mut members, "pumps", pumps, universe)?;
    Ok(Value::Object(members))
}

/// Adds a family.
fn put_family(
    alloc: Global,
    members: &mut Members,
    family: &Family,
    universe: Universe,
) -> Result<(), OutOfMemory>
    requires { IsFamilyOf universe family.now }
    ensures { OnOk result (members_view members.new.entries
        ≡ put (codes "family") (family_data universe family.now) (members_view members.old.entries)) }
{
    let value = family_value(alloc, family, universe)?;
    put_value(alloc, members, "family", value)
}

/// Adds the family of the verdict, if there is one.
fn put_family_of(
    alloc: Global,
    members: &mut Members,
    universe: Universe,
    verdict: Option<&Verdict>,
) -> Result<(), OutOfMemory>
    requires { IfSome verdict (λ v. IsVerdictOf universe v.now) }
    ensures { OnOk result (members_view members.new.entries
        ≡ put_some (codes "family") (family_data universe) (option_and_then family_of (option_map (λ v. v.now) verdict.entry))
        (members_view members.old.entries)) }
{
    match verdict {
        None => Ok(()),
        Some(Verdict::Degree(_, family)) => put_family(alloc, members, family, universe),
        Some(Verdict::Expo(family)) => put_family(alloc, members, family, universe),
        Some(Verdict::Undecided(_)) => Ok(()),
    }
}

/// Returns marks as an array of their places.
fn marks_value(alloc: Global, marks: &[Mark]) -> Result<Value, OutOfMemory>
    ensures { IfOk result (λ v. view v ≡ marks_data marks.now) }
{
    let mut values = Vec::new(alloc);
    for mark in marks {
        let value = place_value(alloc, mark.at)?;
        values.push(value)?;
    }
    Ok(Value::Array(values))
}

/// Adds a key with these marks, as an array of their places.
fn put_mark_list(
    alloc: Global,
    members: &mut Members,
    key: &str,
    marks: &[Mark],
) -> Result<(), OutOfMemory>
    ensures { OnOk result (members_view members.new.entries
        ≡ put key.now (marks_data marks.now) (members_view members.old.entries)) }
{
    let value = marks_value(alloc, marks)?;
    put_value(alloc, members, key, value)
}

/// Adds the parts that a suggestion mentions, as three arrays of places.
fn put_marks(alloc: Global, members: &mut Members, marks: &Marks) -> Result<(), OutOfMemory>
    ensures { OnOk result (members_view members.new.entries
        ≡ marks_members marks.now (members_view members.old.entries)) }
{
    put_mark_list(alloc, members, "dropped", marks.dropped.as_slice())?;
    put_mark_list(alloc, members, "merged", marks.merged.as_slice())?;
    put_mark_list(alloc, members, "passed", marks.passed.as_slice())
}

/// Returns a verdict as an object.
fn verdict_value(alloc: Global, verdict: &Verdict, max_pairs: u32) -> Result<Value, OutOfMemory>
    ensures { IfOk result (λ v. view v ≡ object (verdict_members max_pairs verdict.now no_members)) }
{
    let mut members = Map::new(alloc);
    put_verdict(alloc, &mut members, verdict, max_pairs)?;
    Ok(Value::Object(members))
}

/// Adds the verdict on the suggested pattern, if there is one and the report has version 2.
fn put_becomes(
    alloc: Global,
    members: &mut Members,
    terms: Terms,
    becomes: Option<&Verdict>,
) -> Result<(), OutOfMemory>
    ensures { OnOk result (members_view members.new.entries
        ≡ becomes_members terms.max_pairs terms.report (option_map (λ v. v.now) becomes.entry)
        (members_view members.old.entries)) }
{
    match becomes {
        None => Ok(()),
        Some(verdict) => {
            if terms.report != 2 {
                return Ok(());
            }
            let value = verdict_value(alloc, verdict, terms.max_pairs)?;
            put_value(alloc, members, "becomes", value)
        }
    }
}

/// Adds the suggested pattern and the verdict on it, if a pattern is suggested.
fn put_suggest(
    alloc: Global,
    members: &mut Members,
    terms: Terms,
    universe: Universe,
    text: &Option<Codes>,
    becomes: Option<&Verdict>,
) -> Result<(), OutOfMemory>
    requires { IfSome text.now (IsText universe) }
    ensures { OnOk result (members_view members.new.entries
        ≡ suggest_members terms.max_pairs terms.report universe text.now (option_map (λ v. v.now) becomes.entry)
        (members_view members.old.entries)) }
{
    match text {
        None => Ok(()),
        Some(text) => {
            let value = quoted_value(alloc, text, universe)?;
            put_value(alloc, members, "suggest", value)?;
            put_becomes(alloc, members, terms, becomes)
        }
    }
}

/// Adds the marks, the suggested pattern and the verdict on it, if there is a suggestion.
fn put_suggestion(
    alloc: Global,
    members: &mut Members,
    terms: Terms,
    universe: Universe,
    marks: &Marks,
    suggestion: Option<&Suggestion>,
    becomes: Option<&Verdict>,
) -> Result<(), OutOfMemory>
    requires { IfSome suggestion (λ s. IfSome s.now.text (IsText universe)) }
    ensures { OnOk result (members_view members.new.entries
        ≡ suggestion_members terms.max_pairs terms.report universe marks.now
        (option_map (λ s. s.now) suggestion.entry) (option_map (λ v. v.now) becomes.entry)
        (members_view members.old.entries)) }
{
    match suggestion {
        None => Ok(()),
        Some(suggestion) => {
            put_marks(alloc, members, marks)?;
            put_suggest(alloc, members, terms, universe, &suggestion.text, becomes)
        }
    }
}

/// Adds the members that come before the outcome: the path, and the place and the call if the entry has them.
fn put_front(alloc: Global, members: &mut Members, entry: &Entry) -> Result<(), OutOfMemory>
    ensures { OnOk result (members_view members.new.entries
        ≡ front_members entry.now (members_view members.old.entries)) }
{
    put_text(alloc, members, "path", entry.path.as_str())?;
    put_at(alloc, members, entry.at)?;
    put_call(alloc, members, entry.call)
}

/// Adds the family of the verdict and the suggestion, if the entry has them.
fn put_judged(
    alloc: Global,
    members: &mut Members,
    terms: Terms,
    entry: &Entry,
) -> Result<(), OutOfMemory>
    requires { IsOfItsUniverse entry.now }
    ensures { OnOk result (members_view members.new.entries
        ≡ judged_members terms.max_pairs terms.report entry.now (members_view members.old.entries)) }
{
    let outcome = &entry.outcome;
    put_family_of(alloc, members, entry.universe, outcome.verdict())?;
    put_suggestion(
        alloc,
        members,
        terms,
        entry.universe,
        &entry.marks,
        outcome.suggestion(),
        outcome.becomes(),
    )
}

/// Returns an entry as an object.
fn entry_value(alloc: Global, terms: Terms, entry: &Entry) -> Result<Value, OutOfMemory>
    requires { IsOfItsUniverse entry.now }
    ensures { IfOk result (λ v. view v ≡ entry_data terms.max_pairs terms.report entry.now) }
{
    let mut members = Map::new(alloc);
    put_front(alloc, &mut members, entry)?;
    put_outcome(alloc, &mut members, entry, terms.max_pairs)?;
    put_judged(alloc, &mut members, terms, entry)?;
    Ok(Value::Object(members))
}

/// Returns the entries as an array of objects.
fn entries_value(alloc: Global, terms: Terms, entries: &[Entry]) -> Result<Value, OutOfMemory>
    requires { All IsOfItsUniverse entries.now }
    ensures { IfOk result (λ v. view v
        ≡ array (items_of (map (entry_data terms.max_pairs terms.report) entries.now))) }
{
    let mut values = Vec::new(alloc);
    for entry in entries {
        let value = entry_value(alloc, terms, entry)?;
        values.push(value)?;
    }
    Ok(Value::Array(values))
}

/// Adds the numbers of findings, of refusals and of undecided verdicts, and the report version.
fn put_counts(
    alloc: Global,
    members: &mut Members,
    terms: Terms,
    entries: &[Entry],
) -> Result<(), OutOfMemory>
    ensures { OnOk result (members_view members.new.entries
        ≡ put (codes "version") (whole terms.report)
        (put (codes "undecided") (whole (count_by is_undecided entries.now))
        (put (codes "refused") (whole (count_by is_refused entries.now))
        (put (codes "findings") (whole (count_by (is_finding terms.max_degree) entries.now)) (members_view members.old.entries))))) }
{
    put_number(
        alloc,
        members,
        "findings",
        findings(entries, terms.max_degree),
    )?;
    put_number(alloc, members, "refused", refusals(entries))?;
    put_number(alloc, members, "undecided", undecided(entries))?;
    put_number(alloc, members, "version", terms.report as usize)
}

/// Returns the whole report as an object.
#[tactic(auto, unfolding(crate::specs::Document::report_data))]
fn report_value(alloc: Global, terms: Terms, entries: &[Entry]) -> Result<Value, OutOfMemory>
    requires { All IsOfItsUniverse entries.now }
    ensures { IfOk result (λ v. view v
        ≡ report_data terms.max_degree terms.max_pairs terms.report entries.now) }
{
    let value = entries_value(alloc, terms, entries)?;
    let mut members = Map::new(alloc);
    put_value(alloc, &mut members, "entries", value)?;
    put_counts(alloc, &mut members, terms, entries)?;
    Ok(Value::Object(members))
}

/// Returns the report in JSON: one line, with a line feed at the end and the keys of each object in the order of their bytes.
/// It has the entries in order, and the numbers of findings, of entries without a verdict and of undecided ones. The texts in
/// each entry must be texts of its universe.
///
/// # Errors
/// [`OutOfMemory`] if memory runs out.
pub fn json_report(alloc: Global, terms: Terms, entries: &[Entry]) -> Result<Bytes, OutOfMemory>
    requires { All IsOfItsUniverse entries.now }
    ensures { IfOk result (λ bytes. bytes
        ≡ json_report terms.max_degree terms.max_pairs terms.report entries.now) }
{
    let value = report_value(alloc, terms, entries)?;
    line_of(alloc, &value)
}
