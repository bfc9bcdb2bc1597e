//! The lines of a report as text. The head line of an entry has its path, place, call and outcome; its detail lines show the
//! family of its verdict and its suggestion. The universe of an entry says whether its texts are of type `str` or `bytes`.
ghost use Rattle.std.specs.Prelude.{◌≡◌, ◌∷◌, ◌++◌, All, IfOk, IfSome, None, OnOk, option_map};
ghost use Rattle.std.specs.List.{flat_map};
ghost use Rattle.rl_ranges.specs.Text.{IsText};
ghost use Rattle.rl_report.specs.Findings.{becomes_of, suggestion_of, verdict_of};
ghost use Rattle.rl_report.specs.Layouts.{IsOfItsUniverse, at_text, becomes_line, brief_report, call_text, counts_text, detail_lines, entry_lines, family_lines, head_line, hidden_text, last_line, mark_line, mark_lines, mark_text, suggest_lines, suggestion_lines, text_report};
ghost use Rattle.rl_report.specs.Verdicts.{IsVerdictOf, quoted_text};

use crate::counts::{findings, refusals, undecided};
use crate::names::call_name;
use crate::outcomes::outcome_text;
use crate::pieces::{push_number, push_place, push_quoted, push_text};
use crate::places::Place;
use crate::report::{Entries, Entry, Mark, Marks};
use crate::verdicts::{push_family, push_verdict};
use rl_lists::{Bytes, Codes, OutOfMemory};
use rl_sites::Call;
use rl_syntax::{Suggestion, Universe, Verdict};
use std::alloc::Global;

/// The settings that a report depends on, in text and in JSON.
#[derive(Clone, Copy)]
pub struct Terms {
    /// The highest degree that isn't a finding.
    pub max_degree: u32,
    /// The limit of live pairs. A report shows it if a verdict is `undecided` because the limit was exceeded.
    pub max_pairs: u32,
    /// The version of the report, 1 or 2. Only version 2 shows the verdict on a suggested pattern.
    pub report: u32,
}

/// Appends a colon and the place of the entry, if it has one.
fn push_at(alloc: Global, out: &mut Vec<u8>, at: Option<Place>) -> Result<(), OutOfMemory>
    ensures { OnOk result (out.new.items ≡ out.old.items ++ at_text at) }
{
    match at {
        None => Ok(()),
        Some(place) => {
            push_text(out, ":")?;
            push_place(alloc, out, place)
        }
    }
}

/// Appends the name of the call, a colon and a space, if the entry has a call.
fn push_call(out: &mut Vec<u8>, call: Option<Call>) -> Result<(), OutOfMemory>
    ensures { OnOk result (out.new.items ≡ out.old.items ++ call_text call) }
{
    match call {
        None => Ok(()),
        Some(call) => {
            push_text(out, call_name(call))?;
            push_text(out, ": ")
        }
    }
}

/// Appends the head line of an entry.
fn push_head(
    alloc: Global,
    out: &mut Vec<u8>,
    entry: &Entry,
    max_pairs: u32,
) -> Result<(), OutOfMemory>
    ensures { OnOk result (out.new.items ≡ out.old.items ++ head_line max_pairs entry.now) }
{
    push_text(out, entry.path.as_str())?;
    push_at(alloc, out, entry.at)?;
    push_text(out, ": ")?;
    push_call(out, entry.call)?;
    let outcome = outcome_text(alloc, entry, max_pairs)?;
    push_text(out, outcome.as_str())?;
    push_text(out, "\n")
}

/// Appends a space and the text of a mark, if the report shows the text.
fn push_mark_text(out: &mut Vec<u8>, text: &Option<Bytes>) -> Result<(), OutOfMemory>
    ensures { OnOk result (out.new.items ≡ out.old.items ++ mark_text text.now) }
{
    match text {
        None => Ok(()),
        Some(text) => {
            push_text(out, " ")?;
            out.extend_from_slice(text.as_slice())?;
            Ok(())
        }
    }
}

/// Appends the line of a mark, which begins with `word`.
fn push_mark(alloc: Global, out: &mut Vec<u8>, word: &str, mark: &Mark) -> Result<(), OutOfMemory>
    ensures { OnOk result (out.new.items ≡ out.old.items ++ mark_line word.now mark.now) }
{
    push_text(out, "  ")?;
    push_text(out, word)?;
    push_text(out, " ")?;
    push_place(alloc, out, mark.at)?;
    push_mark_text(out, &mark.text)?;
    push_text(out, "\n")
}

/// Appends the lines of these marks, which begin with `word`.
fn push_mark_list(
    alloc: Global,
    out: &mut Vec<u8>,
    word: &str,
    marks: &[Mark],
) -> Result<(), OutOfMemory>
    ensures { OnOk result (out.new.items ≡ out.old.items ++ flat_map (mark_line word.now) marks.now) }
{
    for mark in marks {
        push_mark(alloc, out, word, mark)?;
    }
    Ok(())
}

/// Appends the lines of all parts that a suggestion mentions.
fn push_marks(alloc: Global, out: &mut Vec<u8>, marks: &Marks) -> Result<(), OutOfMemory>
    ensures { OnOk result (out.new.items ≡ out.old.items ++ mark_lines marks.now) }
{
    push_mark_list(alloc, out, "drop", marks.dropped.as_slice())?;
    push_mark_list(alloc, out, "merge", marks.merged.as_slice())?;
    push_mark_list(alloc, out, "passed", marks.passed.as_slice())
}

/// Appends the line of the verdict on the suggested pattern, if there is one and the report has version 2.
fn push_becomes(
    alloc: Global,
    out: &mut Vec<u8>,
    terms: Terms,
    becomes: Option<&Verdict>,
) -> Result<(), OutOfMemory>
    ensures { OnOk result (out.new.items ≡ out.old.items
        ++ becomes_line terms.max_pairs terms.report (option_map (λ v. v.now) becomes.entry)) }
{
    match becomes {
        None => Ok(()),
        Some(verdict) => {
            if terms.report != 2 {
                return Ok(());
            }
            push_text(out, "  becomes ")?;
            push_verdict(alloc, out, verdict, terms.max_pairs)?;
            push_text(out, "\n")
        }
    }
}

/// Appends the line of the suggested pattern and the line of the verdict on it, if a pattern is suggested.
fn push_suggest(
    alloc: Global,
    out: &mut Vec<u8>,
    terms: Terms,
    universe: Universe,
    text: &Option<Codes>,
    becomes: Option<&Verdict>,
) -> Result<(), OutOfMemory>
    requires { IfSome text.now (IsText universe) }
    ensures { OnOk result (out.new.items ≡ out.old.items
        ++ suggest_lines terms.max_pairs terms.report universe text.now (option_map (λ v. v.now) becomes.entry)) }
{
    match text {
        None => Ok(()),
        Some(text) => {
            push_text(out, "  suggest ")?;
            push_quoted(alloc, out, text, universe)?;
            push_text(out, "\n")?;
            push_becomes(alloc, out, terms, becomes)
        }
    }
}

/// Appends the lines of a suggestion, if there is one.
fn push_suggestion(
    alloc: Global,
    out: &mut Vec<u8>,
    terms: Terms,
    universe: Universe,
    marks: &Marks,
    suggestion: Option<&Suggestion>,
    becomes: Option<&Verdict>,
) -> Result<(), OutOfMemory>
    requires { IfSome suggestion (λ s. IfSome s.now.text (IsText universe)) }
    ensures { OnOk result (out.new.items ≡ out.old.items
        ++ suggestion_lines terms.max_pairs terms.report universe marks.now
        (option_map (λ s. s.now) suggestion.entry) (option_map (λ v. v.now) becomes.entry)) }
{
    match suggestion {
        None => Ok(()),
        Some(suggestion) => {
            push_marks(alloc, out, marks)?;
            push_suggest(alloc, out, terms, universe, &suggestion.text, becomes)
        }
    }
}

/// Appends the line of the verdict's family, if there is one.
fn push_family_of(
    alloc: Global,
    out: &mut Vec<u8>,
    universe: Universe,
    verdict: Option<&Verdict>,
) -> Result<(), OutOfMemory>
    requires { IfSome verdict (λ v. IsVerdictOf universe v.now) }
    ensures { OnOk result (out.new.items
        ≡ out.old.items ++ family_lines universe (option_map (λ v. v.now) verdict.entry)) }
{
    match verdict {
        None => Ok(()),
        Some(Verdict::Degree(_, family)) => push_family(alloc, out, family, universe),
        Some(Verdict::Expo(family)) => push_family(alloc, out, family, universe),
        Some(Verdict::Undecided(_)) => Ok(()),
    }
}

/// Appends the detail lines of an entry.
fn push_details(
    alloc: Global,
    out: &mut Vec<u8>,
    terms: Terms,
    entry: &Entry,
) -> Result<(), OutOfMemory>
    requires { IsOfItsUniverse entry.now }
    ensures { OnOk result (out.new.items
        ≡ out.old.items ++ detail_lines terms.max_pairs terms.report entry.now) }
{
    let outcome = &entry.outcome;
    push_family_of(alloc, out, entry.universe, outcome.verdict())?;
    push_suggestion(
        alloc,
        out,
        terms,
        entry.universe,
        &entry.marks,
        outcome.suggestion(),
        outcome.becomes(),
    )
}

/// Appends the head line and the detail lines of an entry.
fn push_entry(
    alloc: Global,
    out: &mut Vec<u8>,
    terms: Terms,
    entry: &Entry,
) -> Result<(), OutOfMemory>
    requires { IsOfItsUniverse entry.now }
    ensures { OnOk result (out.new.items
        ≡ out.old.items ++ entry_lines terms.max_pairs terms.report entry.now) }
{
    push_head(alloc, out, entry, terms.max_pairs)?;
    push_details(alloc, out, terms, entry)
}

/// Appends the head line and the detail lines of each entry.
fn push_entries(
    alloc: Global,
    out: &mut Vec<u8>,
    terms: Terms,
    entries: &[Entry],
) -> Result<(), OutOfMemory>
    requires { All IsOfItsUniverse entries.now }
    ensures { OnOk result (out.new.items
        ≡ out.old.items ++ flat_map (entry_lines terms.max_pairs terms.report) entries.now) }
{
    for entry in entries {
        push_entry(alloc, out, terms, entry)?;
    }
    Ok(())
}

/// Appends the head line of each entry.
fn push_heads(
    alloc: Global,
    out: &mut Vec<u8>,
    entries: &[Entry],
    max_pairs: u32,
) -> Result<(), OutOfMemory>
    ensures { OnOk result (out.new.items ≡ out.old.items ++ flat_map (head_line max_pairs) entries.now) }
{
    for entry in entries {
        push_head(alloc, out, entry, max_pairs)?;
    }
    Ok(())
}

/// Appends the number of entries that the baseline hides, if one was used.
fn push_hidden(alloc: Global, out: &mut Vec<u8>, hidden: Option<usize>) -> Result<(), OutOfMemory>
    ensures { OnOk result (out.new.items ≡ out.old.items ++ hidden_text hidden) }
{
    match hidden {
        None => Ok(()),
        Some(hidden) => {
            push_text(out, ", ")?;
            push_number(alloc, out, hidden)?;
            push_text(out, " hidden")
        }
    }
}

/// Appends the numbers of entries, findings, refusals and undecided verdicts.
fn push_counts(
    alloc: Global,
    out: &mut Vec<u8>,
    max_degree: u32,
    entries: &[Entry],
) -> Result<(), OutOfMemory>
    ensures { OnOk result (out.new.items ≡ out.old.items ++ counts_text max_degree entries.now) }
{
    let all = entries.len();
    let found = findings(entries, max_degree);
    let refused = refusals(entries);
    let passed = undecided(entries);
    let text = format!(in alloc;
        "{all} entries, {found} findings, {refused} refused, {passed} undecided"
    )?;
    push_text(out, text.as_str())
}

/// Appends the last line of a report.
fn push_last(
    alloc: Global,
    out: &mut Vec<u8>,
    max_degree: u32,
    entries: &[Entry],
    hidden: Option<usize>,
) -> Result<(), OutOfMemory>
    ensures { OnOk result (out.new.items ≡ out.old.items ++ last_line max_degree hidden entries.now) }
{
    push_counts(alloc, out, max_degree, entries)?;
    push_hidden(alloc, out, hidden)?;
    push_text(out, "\n")
}

/// Returns the report in the brief format: the head line of each entry, in order, and the last line. `hidden` is the number of
/// entries that a baseline hides, or `None` if none was used; the last line shows it.
///
/// # Errors
/// [`OutOfMemory`] if memory runs out.
pub fn brief_report(
    alloc: Global,
    terms: Terms,
    entries: &[Entry],
    hidden: Option<usize>,
) -> Result<Bytes, OutOfMemory>
    ensures { IfOk result (λ bytes. bytes
        ≡ brief_report terms.max_degree terms.max_pairs hidden entries.now) }
{
    let mut out = Vec::new(alloc);
    push_heads(alloc, &mut out, entries, terms.max_pairs)?;
    push_last(alloc, &mut out, terms.max_degree, entries, hidden)?;
    Ok(Bytes::from_vec(out))
}

/// Returns the report in the text format: the head line and the detail lines of each entry, in order, and the last line.
/// `hidden` is the number of entries that a baseline hides, or `None` if none was used; the last line shows it. The texts in
/// each entry must be texts of its universe.
///
/// # Errors
/// [`OutOfMemory`] if memory runs out.
pub fn text_report(
    alloc: Global,
    terms: Terms,
    entries: &[Entry],
    hidden: Option<usize>,
) -> Result<Bytes, OutOfMemory>
    requires { All IsOfItsUniverse entries.now }
    ensures { IfOk result (λ bytes. bytes
        ≡ text_report terms.max_degree terms.max_pairs terms.report hidden entries.now) }
{
    let mut out = Vec::new(alloc);
    push_entries(alloc, &mut out, terms, entries)?;
    push_last(alloc, &mut out, terms.max_degree, entries, hidden)?;
    Ok(Bytes::from_vec(out))
}

/// Returns the last line of the text format, with its line feed and without a number of hidden entries: how many entries there
/// are, and how many of them are findings (exponential, or of a degree above `max_degree`), have no verdict, and are
/// undecided.
///
/// # Errors
/// [`OutOfMemory`] if memory runs out.
pub fn summary_line(alloc: Global, entries: &Entries, max_degree: u32) -> Result<Bytes, OutOfMemory>
    ensures { IfOk result (λ bytes. bytes ≡ last_line max_degree None entries.now) }
{
    let mut out = Vec::new(alloc);
    push_last(alloc, &mut out, max_degree, entries.as_slice(), None)?;
    Ok(Bytes::from_vec(out))
}
