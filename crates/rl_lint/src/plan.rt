//! The plan of a run, worked out before anything is written. The tree is the file system that the run reads. A call of the
//! tree asks it for one file or folder, and it may fail.
ghost use Rattle.std.specs.Prelude.{◌≡◌, ◌≤◌, false, map, true, IfOk};
ghost use Rattle.std.specs.String.{string_bytes};
ghost use Rattle.rl_judge.specs.RightEntries.{IsValid};
ghost use Rattle.rl_source.specs.Faults.{Rose};
ghost use Rattle.rl_walk.specs.Visits.{moment_of};
ghost use Rattle.rl_words.specs.Call.{HasActionRanges, asked, chosen};
ghost use Rattle.rl_words.specs.Given.{given_by};
ghost use Rattle.rl_lint.specs.internal.Plans.{ending_of, has_fault, is_refusal, message_text};
ghost use Rattle.rl_lint.specs.Refusals.{IsRefused};
ghost use Rattle.rl_lint.specs.RunEnding.{IsActionEnding, IsRunEnding, asks_itself, asks_tree};

use crate::check::check_plan;
use crate::class::class_plan;
use crate::compare::compare_plan;
use crate::config::read_config;
use crate::cost::cost_plan;
use crate::files::FileRead;
use crate::options::{mode_given, with_values};
use crate::prove::prove_plan;
use crate::sample::sample_plan;
use crate::verify::verify_plan;
use rl_judge::Settings;
use rl_lists::{Bytes, OutOfMemory};
use rl_source::Tree;
use rl_syntax::Mode;
use rl_words::{Action, Options, WordsError, read_words, usage_text};
use std::alloc::Global;

/// A message for the error output.
#[derive(Drop)]
pub enum Message {
    /// A text that is always the same.
    Fixed(&'static str),
    /// A text that was built for this run.
    Made(String),
}

impl Message {
    /// Returns the text of the message, with its line feed.
    pub fn as_str(&self) -> &str
        ensures { result.now ≡ message_text self.now }
    {
        match self {
            Message::Fixed(text) => text,
            Message::Made(text) => text.as_str(),
        }
    }
}

/// What a run is going to write, and how it ends. `out` is its standard output.
#[derive(Drop)]
pub enum Plan {
    /// Refuse what the words ask for, with this message.
    Refuses(Message),
    /// Report with this message that a file that the run needs couldn't be read.
    Unreadable(Message),
    /// Write this text. The flags decide the status: whether the text has a finding, and whether a call of the tree failed.
    Writes {
        /// The text for `out`.
        text: Bytes,
        /// Whether there is a finding, such as an exponential verdict.
        finding: bool,
        /// Whether a call of the tree failed.
        failed: bool,
    },
}

/// Returns the plan of an action with these options under the settings in force.
///
/// # Errors
/// [`OutOfMemory`] if memory runs out; in `check` and `verify`, the tree may have been read by then.
fn action_plan<T: Tree>(
    alloc: Global,
    action: Action,
    options: &Options,
    settings: Settings,
    tree: &mut T,
) -> Result<Plan, OutOfMemory>
    requires ranges { HasActionRanges (asked action) }
    requires valid { IsValid settings }
    ensures ending { IfOk result (λ plan. IsActionEnding settings (chosen options.now) (asked action.entry)
        (moment_of T.told T.fault_count tree.old) (moment_of T.told T.fault_count tree.new) (ending_of plan)) }
    ensures trail { asks_itself (asked action.entry) ≡ false → T.told tree.new ≡ T.told tree.old }
    ensures later { T.fault_count tree.old ≤ T.fault_count tree.new }
{
    let mode = mode_given(options.values.mode, Mode::Fullmatch);
    let max_pairs = settings.max_pairs;
    match action {
        Action::Check { paths } => {
            let plan = check_plan(alloc, paths.as_slice(), settings, options.baseline, tree);
            drop(paths);
            plan
        }
        Action::Class { pattern } => {
            class_plan(alloc, pattern, mode, settings.max_degree, max_pairs)
        }
        Action::Cost { pattern, text } => cost_plan(alloc, pattern, text, mode),
        Action::Sample { seed, count } => sample_plan(alloc, seed, count, &settings),
        Action::Prove { pattern } => prove_plan(alloc, pattern, mode, max_pairs),
        Action::Verify { pattern, file } => {
            verify_plan(alloc, pattern, file, mode, max_pairs, tree)
        }
        Action::Compare { first, second } => compare_plan(alloc, first, second, mode),
    }
}

/// Returns the plan of a run with these words. If they aren't a valid call, it is to refuse them with the usage text. If they
/// name a settings file, it is read first, and if it can't be read or is refused, the plan says so. Otherwise it is the plan
/// of the action: `check` reads its baseline, if one is named, and walks over the tree; `verify` reads its certificate. The
/// tree is asked for nothing else.
///
/// # Errors
/// [`OutOfMemory`] if memory runs out; the tree may have been read by then.
pub fn plan_of<T: Tree>(
    alloc: Global,
    words: &Vec<String>,
    tree: &mut T,
) -> Result<Plan, OutOfMemory>
    ensures ending { IfOk result (λ plan. IsRunEnding (given_by (map string_bytes words.now.items))
        (moment_of T.told T.fault_count tree.old) (moment_of T.told T.fault_count tree.new) (ending_of plan)) }
    ensures cause { IfOk result (λ plan. has_fault (ending_of plan) ≡ true
        → Rose (T.fault_count tree.old) (T.fault_count tree.new)) }
    ensures refused { IfOk result (λ plan. is_refusal (ending_of plan) ≡ true
        → IsRefused (T.told tree.old) (given_by (map string_bytes words.now.items))) }
    ensures trail { asks_tree (given_by (map string_bytes words.now.items)) ≡ false → T.told tree.new ≡ T.told tree.old }
    ensures later { T.fault_count tree.old ≤ T.fault_count tree.new }
{
    let words = match read_words(alloc, words) {
        Ok(words) => words,
        Err(WordsError::Invalid) => return Ok(Plan::Refuses(Message::Fixed(usage_text()))),
        Err(WordsError::OutOfMemory) => return Err(OutOfMemory),
    };
    match read_config(alloc, words.options.settings, tree) {
        Ok(FileRead::Unreadable) => {
            drop(words);
            Ok(Plan::Unreadable(Message::Fixed("relint: settings unreadable\n")))
        }
        Ok(FileRead::Refused) => {
            drop(words);
            Ok(Plan::Refuses(Message::Fixed("relint: settings refused\n")))
        }
        Ok(FileRead::Taken(start)) => {
            let settings = with_values(&words.options.values, &start);
            action_plan(alloc, words.action, &words.options, settings, tree)
        }
        Err(error) => {
            drop(words);
            Err(error)
        }
    }
}
