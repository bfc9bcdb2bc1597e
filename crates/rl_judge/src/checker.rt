//! The checker: a visitor of a walk that keeps the entries of all visits. A visit is to a source with its bytes, or to a path
//! without one. An entry is one result of a report: for a call of `re` whose pattern is a literal, for a source that can't be
//! cut into tokens, or for a path without a source.
ghost use Rattle.std.specs.Prelude.{◌≡◌, ◌||◌, ◌++◌, [], All, IfOk, OnOk};
ghost use Rattle.rl_report.specs.Layouts.{IsOfItsUniverse};
ghost use Rattle.rl_walk.specs.Visits.{is_unreadable};
ghost use Rattle.rl_judge.specs.RightEntries.{IsValid};
ghost use Rattle.rl_judge.specs.RightReport.{IsRightFor, HasChecked};

use crate::entries::{judge, path_entries};
use crate::settings::Settings;
use rl_lists::OutOfMemory;
use rl_report::{Entries, Outcome};
use rl_source::Name;
use rl_walk::{Visit, Visitor};
use std::alloc::Global;
use std::marker::Model;

/// Returns whether the visit is to an unreadable path, or one before it was, as `before` says.
fn is_unread(before: bool, visit: &Visit) -> bool
    ensures { result ≡ (before || is_unreadable visit.now) }
{
    before || matches!(visit, Visit::Unreadable(_))
}

/// Returns the entries of a visit: the entries of its source, or one entry that says why the path has no source to judge.
fn entries_of(alloc: Global, visit: &Visit, settings: &Settings) -> Result<Entries, OutOfMemory>
    requires { IsValid settings.now }
    ensures right { IfOk result (IsRightFor settings.now visit.now) }
    ensures universe { IfOk result (All IsOfItsUniverse) }
{
    match visit {
        Visit::Source(path, content) => Ok(judge(alloc, path, content.as_slice(), settings)?),
        Visit::Unreadable(path) => path_entries(alloc, path, None, Outcome::Unreadable),
        Visit::TooDeep(path) => path_entries(alloc, path, None, Outcome::TooDeepFolder),
        Visit::NotPlain(path) => path_entries(alloc, path, None, Outcome::NotPlain),
    }
}

/// Appends the entries `later` to `entries`, in order.
fn append(entries: &mut Entries, later: Entries) -> Result<(), OutOfMemory>
    ensures { OnOk result (entries.new ≡ entries.old ++ later) }
{
    for entry in later.into_vec() {
        entries.push(entry)?;
    }
    Ok(())
}

/// The visitor of a walk. It judges each source that the walk visits, and keeps the entries of all visits.
#[derive(Drop)]
pub struct Checker {
    alloc: Global,
    /// The settings of the report.
    settings: Settings,
    /// The entries of the visits so far, in the order of the visits.
    entries: Entries,
    /// Whether one of the visited paths was unreadable.
    has_unread: bool,
}

impl Model for Checker {
    ghost use Rattle.rl_judge.specs.RightReport.{Checked};
    ghost use Rattle.rl_judge.specs.RightEntries.{IsValid};

    ghost Value = { Checked };

    ghost view = { λ c. record { settings = c.settings; entries = c.entries; has_unread = c.has_unread } };

    ghost invariant = { λ c. IsValid c.settings };
}

impl Checker {
    /// Returns a checker with these settings that has no entries yet. The settings must be valid: the limit of live pairs is
    /// from 1 to 1,000, and the report version is 1 or 2.
    pub fn new(alloc: Global, settings: Settings) -> Checker
        requires { IsValid settings }
        ensures told { HasChecked result [] }
        ensures settings { result.settings ≡ settings }
    {
        Checker {
            alloc,
            settings,
            entries: Entries::new(alloc),
            has_unread: false,
        }
    }

    /// Returns the entries of the visits so far, in the order of the visits.
    pub fn entries(&self) -> &Entries
        ensures { result.now ≡ self.now.entries }
    {
        &self.entries
    }

    /// Returns the entries of the visits so far, in the order of the visits, and consumes the checker.
    pub fn into_entries(self) -> Entries
        ensures { result ≡ self.entries }
    {
        self.entries
    }

    /// Returns whether one of the paths visited so far was unreadable, because a call of the tree failed.
    pub fn has_unread(&self) -> bool
        ensures { result ≡ self.now.has_unread }
    {
        self.has_unread
    }
}

impl Visitor for Checker {
    ghost use Rattle.rl_judge.specs.declared.settings.Settings.{Settings};

    ghost has_received = { HasChecked };

    ghost Config = { Settings };

    ghost config = { λ c. c.settings };

    fn visit(&mut self, visit: Visit) -> Result<(), OutOfMemory> {
        let later = entries_of(self.alloc, &visit, &self.settings)?;
        append(&mut self.entries, later)?;
        self.has_unread = is_unread(self.has_unread, &visit);
        Ok(())
    }
}
