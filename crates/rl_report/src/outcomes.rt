//! Outcomes as texts. A verdict says how the cost of matching a pattern grows with the length of the text: with a degree,
//! exponentially, or `undecided`, because a limit was exceeded. A live pair, whose number one of the limits bounds, is a state
//! of the pattern's automaton with the set of states that were tried before it.
ghost use Rattle.std.specs.Prelude.{◌≡◌, IfOk, string_bytes};
ghost use Rattle.rl_report.specs.Findings.{verdict_of};
ghost use Rattle.rl_report.specs.Layouts.{outcome_text, refusal_text};
ghost use Rattle.rl_report.specs.Names.{cause_name};

use crate::places::Place;
use crate::report::{Entry, Outcome};
use crate::verdicts::verdict_text;
use rl_lists::OutOfMemory;
use std::alloc::Global;

/// Returns the cause of a refusal with its place, or the kind of an outcome that has no cause.
fn refusal_text(
    alloc: Global,
    outcome: &Outcome,
    fault: Option<Place>,
) -> Result<String, OutOfMemory>
    ensures { IfOk result (λ text. string_bytes text
        ≡ refusal_text outcome.now (cause_name outcome.now) fault) }
{
    let Some(cause) = outcome.cause() else {
        return Ok(String::from_str(alloc, outcome.kind())?);
    };
    match fault {
        None => Ok(format!(in alloc; "refused {cause}")?),
        Some(place) => {
            let line = place.line;
            let column = place.column;
            Ok(format!(in alloc; "refused {cause} at {line}:{column}")?)
        }
    }
}

/// Returns the outcome of an entry as its head line shows it: the verdict, if it has one; `refused CAUSE at LINE:COLUMN` for a
/// refusal, without ` at LINE:COLUMN` if the fault has no place; otherwise the kind of the outcome, such as `unreadable`.
/// `max_pairs` is the limit of live pairs, which an undecided verdict may show.
///
/// # Errors
/// [`OutOfMemory`] if memory runs out.
pub fn outcome_text(alloc: Global, entry: &Entry, max_pairs: u32) -> Result<String, OutOfMemory>
    ensures { IfOk result (λ text. string_bytes text
        ≡ outcome_text max_pairs entry.now (verdict_of entry.now.outcome)) }
{
    match entry.outcome.verdict() {
        None => refusal_text(alloc, &entry.outcome, entry.fault),
        Some(verdict) => verdict_text(alloc, verdict, max_pairs),
    }
}
