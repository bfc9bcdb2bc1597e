//! The layouts of a report. The head line of an entry has its path, place, call and outcome; its detail lines show the family
//! of its verdict and its suggestion; and the last line of a report gives numbers of entries. The universe of an entry says
//! whether its texts are of type `str` or `bytes`.
ghost use Rattle.std.specs.Prelude.{◌≡◌, ◌⊎◌, All, IfOk, None};
ghost use Rattle.rl_report.specs.Layouts.{IsOfItsUniverse};
ghost use Rattle.rl_report.specs.Reports.{report_text};

use crate::document::json_report;
use crate::lines::{Terms, brief_report, text_report};
use crate::report::Entries;
use rl_lists::{Bytes, OutOfMemory};
use std::alloc::Global;

/// How a report is laid out.
#[derive(Clone, Copy, Debug, PartialEq, Eq)]
pub enum Format {
    /// The head line and the detail lines of each entry, and the last line.
    Text,
    /// The head line of each entry, and the last line.
    Brief,
    /// One line with a JSON object.
    Json,
}

/// Returns the report on the entries in a format, in the version `report`, which must be 1 or 2. A degree above `max_degree`
/// is a finding, and `max_pairs` is the limit of live pairs, which a report shows if it was exceeded. The texts in each entry
/// must be texts of its universe.
///
/// # Errors
/// [`OutOfMemory`] if memory runs out.
pub fn render(
    alloc: Global,
    entries: &Entries,
    format: Format,
    max_degree: u32,
    max_pairs: u32,
    report: u32,
) -> Result<Bytes, OutOfMemory>
    requires version { (report ≡ 1) ⊎ (report ≡ 2) }
    requires universe { All IsOfItsUniverse entries.now }
    ensures { IfOk result (λ bytes. bytes
        ≡ report_text format max_degree max_pairs report None entries.now) }
{
    render_shown(alloc, entries, None, format, max_degree, max_pairs, report)
}

/// Returns the report on the entries that a baseline doesn't hide, as [`render`] does. `hidden` is the number of entries that
/// Returns the report on the entries that a baseline doesn't hide, as [`render`] does. `hidden` is the number of entries that
/// the baseline hides, which the last line of the text and brief formats then shows, even if it is 0, or `None` without a
/// baseline. JSON doesn't show that number. `report` must be 1 or 2, and the texts in each entry must be texts of its universe.
///
/// # Errors
/// [`OutOfMemory`] if memory runs out.
pub fn render_shown(
    alloc: Global,
    entries: &Entries,
    hidden: Option<usize>,
    format: Format,
    max_degree: u32,
    max_pairs: u32,
    report: u32,
) -> Result<Bytes, OutOfMemory>
    requires version { (report ≡ 1) ⊎ (report ≡ 2) }
    requires universe { All IsOfItsUniverse entries.now }
    ensures { IfOk result (λ bytes. bytes
        ≡ report_text format max_degree max_pairs report hidden entries.now) }
{
    let entries = entries.as_slice();
    let terms = Terms {
        max_degree,
        max_pairs,
        report,
    };
    match format {
        Format::Text => text_report(alloc, terms, entries, hidden),
        Format::Brief => brief_report(alloc, terms, entries, hidden),
        Format::Json => json_report(alloc, terms, entries),
    }
}
