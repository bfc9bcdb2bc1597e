//! The action `cost`. It writes how many steps a match of its text takes. A plan says what the run writes and how it ends.
ghost use Rattle.std.specs.Prelude.{◌≡◌, IfOk};
ghost use Rattle.std.specs.Str.{chars};
ghost use Rattle.rl_ranges.specs.declared.universe.Universe.TheVariants.{Str};
ghost use Rattle.rl_syntax.specs.Pattern.{pattern_ending, pattern_tree, universe_of};
ghost use Rattle.rl_lint.specs.internal.Plans.{ending_of};
ghost use Rattle.rl_lint.specs.CostEnding.{cost_ending};
ghost use Rattle.rl_lint.specs.Patterns.{ParsesThen};

use crate::codes::codes_of;
use crate::cost_line::cost_line;
use crate::limits::MOST_TEXT_CODES;
use crate::pattern_argument::{PatternArgument, parse_argument};
use crate::plan::{Message, Plan};
use rl_lists::OutOfMemory;
use rl_syntax::{Mode, Pattern};
use std::alloc::Global;

/// Returns the plan of `cost` for a parsed text pattern and a text in a mode.
///
/// # Errors
/// [`OutOfMemory`] if memory runs out.
fn pattern_plan(
    alloc: Global,
    pattern: &Pattern,
    text: &str,
    mode: Mode,
) -> Result<Plan, OutOfMemory>
    requires { universe_of pattern.now ≡ Str }
    ensures { IfOk result (λ plan. ending_of plan
        ≡ cost_ending (chars text.now) (pattern_tree pattern.now mode) (pattern_ending pattern.now mode)) }
{
    let text = codes_of(alloc, text)?;
    if text.len() > MOST_TEXT_CODES {
        return Ok(Plan::Refuses(Message::Fixed("relint: text too long\n")));
    }
    let line = cost_line(alloc, pattern, mode, &text)?;
    Ok(Plan::Writes {
        text: line,
        finding: false,
        failed: false,
    })
}

/// Returns the plan of `cost` for the pattern and the text of its words: to refuse a pattern that the reader of patterns
/// refuses; otherwise to refuse a text of more than [`MOST_TEXT_CODES`] characters; otherwise to write one line, on the first
/// limit that the pattern exceeds, or else on the number of steps that the match takes. A text is matched in `mode`. The plan
/// has neither a finding nor a failed call.
///
/// # Errors
/// [`OutOfMemory`] if memory runs out.
pub fn cost_plan(alloc: Global, pattern: &str, text: &str, mode: Mode) -> Result<Plan, OutOfMemory>
    ensures { IfOk result (λ plan. ParsesThen (chars pattern.now) mode
        (λ t at end. end ≡ cost_ending (chars text.now) t at) (ending_of plan)) }
{
    match parse_argument(alloc, pattern)? {
        PatternArgument::Refused(message) => Ok(Plan::Refuses(message)),
        PatternArgument::Parsed(pattern) => {
            let plan = pattern_plan(alloc, &pattern, text, mode);
            drop(pattern);
            plan
        }
    }
}
