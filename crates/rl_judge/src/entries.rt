//! The entries of a source. A site is a call of `re` whose first argument begins with string literals. An entry is one result
//! of a report: for a call of `re` whose pattern is a literal, for a source that can't be cut into tokens, or for a path
//! without a source.
ghost use Rattle.std.specs.Prelude.{◌≡◌, ◌≤◌, ◌∷◌, [], All, length, slice_get, option_map, IfOk};
ghost use Rattle.std.specs.List.{AllZip, list_any};
ghost use Rattle.rl_ranges.specs.declared.universe.Universe.TheVariants as universe;
ghost use Rattle.rl_pylex.specs.Source.{IsTokenList, IsFault};
ghost use Rattle.rl_report.specs.Findings.{is_finding};
ghost use Rattle.rl_report.specs.Layouts.{IsOfItsUniverse};
ghost use Rattle.rl_report.specs.Places.{IsAt};
ghost use Rattle.rl_sites.specs.Sites.{sites_of};
ghost use Rattle.rl_sites.specs.Runs.{HasRun};
ghost use Rattle.rl_judge.specs.declared.settings.Settings.{Settings};
ghost use Rattle.rl_judge.specs.internal.Conditions.{IsOfUniverse};
ghost use Rattle.rl_judge.specs.Faults.{source_fault};
ghost use Rattle.rl_judge.specs.RightEntries.{IsValid, path_entry, IsSiteEntry, AreRight, status_of};

use crate::analysis::analyze;
use crate::options::options_of;
use crate::places::{fault_place, marks_of, no_marks, some_place_at};
use crate::settings::Settings;
use rl_lists::OutOfMemory;
use rl_pylex::{LexError, TokenList, tokens};
use rl_report::{Cursor, Entries, Entry, Outcome, Place};
use rl_sites::{Site, has_no_sites, sites};
use rl_source::Name;
use rl_syntax::Universe;
use std::alloc::Global;

/// Returns the byte place of a fault that keeps a source from being cut into tokens, if the fault has a place.
fn source_fault(fault: LexError) -> Option<u32>
    ensures { result ≡ source_fault fault }
{
    match fault {
        LexError::NotUtf8(byte) => Some(byte),
        LexError::Coding(byte) => Some(byte),
        LexError::Unterminated(byte) => Some(byte),
        LexError::StrayCode(byte) => Some(byte),
        LexError::FileTooLong => None,
        LexError::OutOfMemory => None,
    }
}

/// Returns the byte place where the token with this number begins, or `None` if there is no such token.
fn start_of(tokens: &TokenList, number: u32) -> Option<u32>
    ensures { result ≡ option_map (λ token. token.from) (slice_get tokens.now number) }
{
    match tokens.as_slice().get(number as usize) {
        Some(token) => Some(token.from),
        None => None,
    }
}

/// Returns a list with one entry: that of a path without sites, with this outcome. `at` is the place of the fault because of
/// which its source can't be cut into tokens, if there is one. If the outcome has texts, they must be texts of `str`.
///
/// # Errors
/// [`OutOfMemory`] if memory runs out.
pub fn path_entries(
    alloc: Global,
    path: &Name,
    at: Option<Place>,
    outcome: Outcome,
) -> Result<Entries, OutOfMemory>
    requires { IsOfUniverse universe.Str outcome }
    ensures entry { IfOk result (λ entries. entries ≡ path_entry path.now at outcome ∷ []) }
    ensures universe { IfOk result (All IsOfItsUniverse) }
{
    let mut entries = Entries::new(alloc);
    entries.push(Entry {
        path: path.clone()?,
        at,
        call: None,
        universe: Universe::Str,
        fault: None,
        outcome,
        marks: no_marks(alloc),
    })?;
    Ok(entries)
}

/// Returns the entries of a source that can't be cut into tokens.
fn fault_entries(
    alloc: Global,
    path: &Name,
    source: &[u8],
    fault: LexError,
) -> Result<Entries, OutOfMemory>
    requires { IsFault source.now fault }
    ensures right { (s : Settings) → IfOk result (AreRight path.now source.now s) }
    ensures universe { IfOk result (All IsOfItsUniverse) }
{
    match fault {
        LexError::OutOfMemory => Err(OutOfMemory),
        _ => {
            let at = fault_place(source, source_fault(fault));
            path_entries(alloc, path, at, Outcome::Source(fault))
        }
    }
}

/// Returns the entry of a site.
fn site_entry(
    alloc: Global,
    path: &Name,
    source: &[u8],
    tokens: &TokenList,
    settings: &Settings,
    site: Site,
    cursor: &mut Cursor,
) -> Result<Entry, OutOfMemory>
    requires at { IsAt source.now cursor.old }
    requires settings { IsValid settings.now }
    requires tokens { IsTokenList source.now tokens.now }
    requires run { HasRun tokens.now site }
    ensures right { IfOk result (IsSiteEntry path.now source.now tokens.now settings.now site) }
    ensures universe { IfOk result IsOfItsUniverse }
    ensures at { IsAt source.now cursor.new }
{
    let analysis = analyze(alloc, source, tokens, site, options_of(settings, site.call))?;
    let path = path.clone()?;
    let at = some_place_at(cursor, source, start_of(tokens, site.first));
    let fault = some_place_at(cursor, source, analysis.fault);
    let marks = marks_of(alloc, source, analysis.parts, *cursor)?;
    Ok(Entry {
        path,
        at,
        call: Some(site.call),
        universe: analysis.universe,
        fault,
        outcome: analysis.outcome,
        marks,
    })
}

/// Returns the entries of the sites of a source, in their order.
fn site_entries(
    alloc: Global,
    path: &Name,
    source: &[u8],
    tokens: &TokenList,
    settings: &Settings,
) -> Result<Entries, OutOfMemory>
    requires settings { IsValid settings.now }
    requires tokens { IsTokenList source.now tokens.now }
    ensures right { IfOk result (AllZip (IsSiteEntry path.now source.now tokens.now settings.now) (sites_of source.now tokens.now)) }
    ensures universe { IfOk result (All IsOfItsUniverse) }
{
    let sites = sites(alloc, source, tokens)?;
    let mut entries = Entries::new(alloc);
    let mut cursor = Cursor::start();
    for site in sites.as_slice() {
        let entry = site_entry(alloc, path, source, tokens, settings, *site, &mut cursor)?;
        entries.push(entry)?;
    }
    Ok(entries)
}

/// The only reason why a source isn't judged.
#[derive(Clone, Copy, Debug, PartialEq, Eq)]
pub enum JudgeError {
    /// Memory ran out.
    OutOfMemory,
}

impl From<OutOfMemory> for JudgeError {
    ghost use Rattle.std.specs.Prelude.{◌≡◌};
    ghost use Rattle.rl_judge.specs.declared.entries.JudgeError.TheVariants as error;

    ghost from_gives = { λ _ e. e ≡ error.OutOfMemory };

    fn from(_: OutOfMemory) -> Self {
        JudgeError::OutOfMemory
    }
}

impl From<JudgeError> for OutOfMemory {
    fn from(error: JudgeError) -> Self {
        match error {
            JudgeError::OutOfMemory => OutOfMemory,
        }
    }
}

/// Returns the entries of one source. If it can't be cut into tokens, its only entry says why; otherwise it has one entry for
/// each of its sites, in their order.
///
/// The outcome of a site is the first of these that holds: its first argument isn't only literals, the literals have no value,
/// the flags aren't known, the value isn't a pattern that can be judged, or the pattern has a verdict in the mode of its call.
/// Every verdict except `undecided` by size, letters or moves comes with a suggestion. Under report version 2 the verdict on
/// the suggested pattern is added.
///
/// The settings must be valid: the limit of live pairs is from 1 to 1,000, and the report version is 1 or 2.
///
/// # Errors
/// [`JudgeError::OutOfMemory`] if memory runs out.
#[tactic(auto, using(crate::proofs::NoEntries::no_entries))]
pub fn judge(
    alloc: Global,
    path: &Name,
    source: &[u8],
    settings: &Settings,
) -> Result<Entries, JudgeError>
    requires { IsValid settings.now }
    ensures right { IfOk result (AreRight path.now source.now settings.now) }
    ensures universe { IfOk result (All IsOfItsUniverse) }
{
    if has_no_sites(source) {
        return Ok(Entries::new(alloc));
    }
    match tokens(alloc, source) {
        Ok(tokens) => Ok(site_entries(alloc, path, source, &tokens, settings)?),
        Err(fault) => Ok(fault_entries(alloc, path, source, fault)?),
    }
}

/// Returns whether one of the entries is a finding: exponential, or of a degree above `max_degree`. It needs no memory.
pub fn has_finding(entries: &[Entry], max_degree: u32) -> bool
    ensures { result ≡ list_any (is_finding max_degree) entries.now }
{
    entries.iter().any(|entry| entry.is_finding(max_degree))
}

/// Returns the status of a report on these entries: 1 if one of them is a finding (exponential, or of a degree above
/// `max_degree` of the settings), otherwise 0, as for no entries. It needs no memory.
pub fn status_of(entries: &Entries, settings: &Settings) -> u8
    ensures { result ≡ status_of settings.now entries.now }
{
    if has_finding(entries.as_slice(), settings.max_degree) {
        1
    } else {
        0
    }
}
