//! The numbers in the last line of a report. An entry is one result of a report: for a call of `re` whose pattern is a
//! literal, for a source that can't be cut into tokens, or for a path without a source.
ghost use Rattle.std.specs.Prelude.{◌≡◌, ◌≤◌, length};
ghost use Rattle.std.specs.List.{count_by};
ghost use Rattle.rl_report.specs.Findings.{is_finding, is_refused, is_undecided};

use crate::report::Entry;

/// Returns the number of entries that are findings: exponential, or of a degree above `max_degree`.
pub fn findings(entries: &[Entry], max_degree: u32) -> usize
    ensures { result ≡ count_by (is_finding max_degree) entries.now }
{
    let mut count = 0;
    for entry in entries {
        if entry.is_finding(max_degree) {
            count += 1;
        }
    }
    count
}

/// Returns the number of entries without a verdict: refused ones, and ones whose path is unreadable, too deep or not plain.
pub fn refusals(entries: &[Entry]) -> usize
    ensures { result ≡ count_by is_refused entries.now }
{
    let mut count = 0;
    for entry in entries {
        if entry.is_refused() {
            count += 1;
        }
    }
    count
}

/// Returns the number of entries whose verdict is `undecided`, because a limit was exceeded.
pub fn undecided(entries: &[Entry]) -> usize
    ensures { result ≡ count_by is_undecided entries.now }
{
    let mut count = 0;
    for entry in entries {
        if entry.is_undecided() {
            count += 1;
        }
    }
    count
}
