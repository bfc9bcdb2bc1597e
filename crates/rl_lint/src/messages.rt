//! The message on a refused pattern, the line of `cost` on its steps, and the line on an exceeded limit.
ghost use Rattle.std.specs.Prelude.{◌≡◌, ℕ, IfOk, codes, if◌then◌else◌};
ghost use Rattle.std.specs.String.{string_bytes};
ghost use Rattle.rl_machine.specs.Counts.{Counts};
ghost use Rattle.rl_lint.specs.internal.Plans.{message_text};
ghost use Rattle.rl_lint.specs.Messages.{refused_at, steps_line, undecided_line};

use crate::plan::Message;
use rl_lists::{Bytes, OutOfMemory};
use rl_machine::{Counted, Steps};
use rl_report::verdict_line;
use rl_syntax::{Limit, Verdict};
use std::alloc::Global;

/// Returns the message, with its line feed, on a pattern that is refused, such as `relint: refused syntax at 3`. `cause` is
/// the name of the reason, and `place` the number of the code point, counted from 0.
///
/// # Errors
/// [`OutOfMemory`] if memory runs out.
pub fn refused_at(alloc: Global, cause: &str, place: u32) -> Result<Message, OutOfMemory>
    ensures { IfOk result (λ message. message_text message ≡ refused_at cause.now place) }
{
    let text = format!(in alloc; "relint: refused {cause} at {place}\n")?;
    Ok(Message::Made(text))
}

/// Returns the line, with its line feed, on an exceeded limit, such as `undecided moves over 256`. `max_pairs` is used only if
/// the limit is that of live pairs, which are pairs of a state and a set of states: it is then the number in the line.
///
/// # Errors
/// [`OutOfMemory`] if memory runs out.
pub fn undecided_line(alloc: Global, max_pairs: u32, limit: Limit) -> Result<Bytes, OutOfMemory>
    ensures { IfOk result (λ line. line ≡ undecided_line max_pairs limit) }
{
    verdict_line(alloc, &Verdict::Undecided(limit), max_pairs)
}

/// Returns the words on how a match ends, with the line feed.
fn outcome(matched: bool) -> &'static str
    ensures { result.now ≡ (if matched then codes " matched\n" else codes " refused\n") }
{
    if matched { " matched\n" } else { " refused\n" }
}

/// Returns the line, with its line feed, on the number of steps that a match takes and on how it ends, such as
/// `steps 5 matched` or `steps 5 refused`. A number above 2^128 - 1 isn't written out: the line then begins with
/// `steps over 340282366920938463463374607431768211455`.
///
/// # Errors
/// [`OutOfMemory`] if memory runs out.
pub fn steps_line(alloc: Global, counted: Counted) -> Result<String, OutOfMemory>
    ensures { (n : ℕ) → Counts counted.steps n
        → IfOk result (λ line. string_bytes line ≡ steps_line n counted.matched) }
{
    let outcome = outcome(counted.matched);
    let line = match counted.steps {
        Steps::Exact(count) => format!(in alloc; "steps {count}{outcome}")?,
        Steps::Past => {
            format!(in alloc; "steps over 340282366920938463463374607431768211455{outcome}")?
        }
    };
    Ok(line)
}
