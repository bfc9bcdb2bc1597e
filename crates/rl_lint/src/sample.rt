//! The action `sample`.
ghost use Rattle.std.specs.Prelude.{◌<◌, ◌≤◌, ◌^◌, IfOk};
ghost use Rattle.rl_judge.specs.RightEntries.{IsValid};
ghost use Rattle.rl_lint.specs.internal.Plans.{ending_of};
ghost use Rattle.rl_lint.specs.SampleEnding.{IsSampleEnding};

use crate::plan::Plan;
use rl_judge::{Settings, has_finding, judge};
use rl_lists::OutOfMemory;
use rl_report::summary_line;
use rl_sample::sample_source;
use rl_source::Name;
use std::alloc::Global;

/// Returns the plan of `sample`: the generated source for this seed and count is judged, as a file named `sample.py`, and the
/// last line of the text report is written. The seed must be less than 2^31, the count from 1 to 20,000, and the settings
/// valid.
///
/// # Errors
/// [`OutOfMemory`] if memory runs out.
pub fn sample_plan(
    alloc: Global,
    seed: u32,
    count: u32,
    settings: &Settings,
) -> Result<Plan, OutOfMemory>
    requires seed { seed < 2 ^ 31 }
    requires some { 1 ≤ count }
    requires few { count ≤ 20000 }
    requires valid { IsValid settings.now }
    ensures { IfOk result (λ plan. IsSampleEnding settings.now seed count (ending_of plan)) }
{
    let source = sample_source(alloc, seed, count)?;
    let path = Name::from_text(alloc, "sample.py")?;
    let entries = judge(alloc, &path, source.as_slice(), settings)?;
    let finding = has_finding(entries.as_slice(), settings.max_degree);
    let text = summary_line(alloc, &entries, settings.max_degree)?;
    Ok(Plan::Writes {
        text,
        finding,
        failed: false,
    })
}
