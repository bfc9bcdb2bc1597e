//! The action `check`.
ghost use Rattle.std.specs.Prelude.{◌≡◌, ◌≤◌, All, map, option_map, IfOk};
ghost use Rattle.rl_judge.specs.RightEntries.{IsValid};
ghost use Rattle.rl_report.specs.Layouts.{IsOfItsUniverse};
ghost use Rattle.rl_walk.specs.Visits.{moment_of};
ghost use Rattle.rl_lint.specs.CheckEnding.{IsCheckEnding, report_in};
ghost use Rattle.rl_lint.specs.internal.Plans.{ending_of};

use crate::baseline::read_baseline;
use crate::files::FileRead;
use crate::filter::{Visible, visible_entries};
use crate::plan::{Message, Plan};
use rl_judge::{Checker, Layout, Settings, has_finding};
use rl_lists::{Bytes, OutOfMemory};
use rl_report::render_shown;
use rl_sarif::sarif;
use rl_source::Tree;
use rl_walk::walk;
use std::alloc::Global;

/// Returns the report on the visible entries in the layout that the settings choose.
///
/// # Errors
/// [`OutOfMemory`] if memory runs out.
fn report_in(alloc: Global, visible: &Visible, settings: &Settings) -> Result<Bytes, OutOfMemory>
    requires valid { IsValid settings.now }
    requires universe { All IsOfItsUniverse visible.now.entries }
    ensures { IfOk result (λ text. text ≡ report_in settings.now.format settings.now visible.now.hidden visible.now.entries) }
{
    let Visible { entries, hidden } = visible;
    let Settings {
        max_degree,
        max_pairs,
        report,
        ..
    } = *settings;
    match settings.format {
        Layout::Report(format) => render_shown(
            alloc, entries, *hidden, format, max_degree, max_pairs, report,
        ),
        Layout::Sarif => sarif(alloc, entries, max_degree, max_pairs),
    }
}

/// Returns the plan of `check` for these paths under these settings, which must be valid. If a baseline is named, it is read
/// before the walk over the paths begins; if it is unreadable or refused, there is no walk.
///
/// # Errors
/// [`OutOfMemory`] if memory runs out; the tree may have been read by then.
pub fn check_plan<T: Tree>(
    alloc: Global,
    paths: &[&str],
    settings: Settings,
    baseline: Option<&str>,
    tree: &mut T,
) -> Result<Plan, OutOfMemory>
    requires { IsValid settings }
    ensures ending { IfOk result (λ plan. IsCheckEnding settings (map (λ p. p.now) paths.now) (option_map (λ p. p.now) baseline.entry)
        (moment_of T.told T.fault_count tree.old) (moment_of T.told T.fault_count tree.new) (ending_of plan)) }
    ensures later { T.fault_count tree.old ≤ T.fault_count tree.new }
{
    let keys = match read_baseline(alloc, baseline, tree)? {
        FileRead::Unreadable => {
            return Ok(Plan::Unreadable(Message::Fixed("relint: baseline unreadable\n")));
        }
        FileRead::Refused => return Ok(Plan::Refuses(Message::Fixed("relint: baseline refused\n"))),
        FileRead::Taken(keys) => keys,
    };
    let mut checker = Checker::new(alloc, settings);
    walk(alloc, paths, tree, &mut checker)?;
    let failed = checker.has_unread();
    let visible = visible_entries(alloc, checker.into_entries(), keys)?;
    let finding = has_finding(visible.entries.as_slice(), settings.max_degree);
    let text = report_in(alloc, &visible, &settings)?;
    Ok(Plan::Writes {
        text,
        finding,
        failed,
    })
}
