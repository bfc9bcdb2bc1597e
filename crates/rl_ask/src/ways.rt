//! How questions `ways` are answered: by the verdict on the pattern, and how the pumps of its family are read.

ghost use Rattle.std.specs.Prelude.{IfOk};
ghost use Rattle.rl_asked.specs.Questions.{IsBetween};
ghost use Rattle.rl_asked.specs.declared.limits.TheConstants.{LEAST_LIMIT, MOST_PAIRS};
ghost use Rattle.rl_ask.specs.Explanations.{IsExplained};
ghost use Rattle.rl_ask.specs.Grammars.{grammar_in};
ghost use Rattle.rl_ask.specs.Patterns.{ReadThen};

use crate::answer::{Answer, Which};
use crate::grammar::grammar_in;
use crate::patterns::{PatternRead, read_pattern};
use rl_asked::Terms;
use rl_lists::OutOfMemory;
use rl_syntax::{Mode, Pattern};
use rl_why::explain;
use std::alloc::Global;

/// Returns the answer for a pattern.
fn pattern_answer(
    alloc: Global,
    pattern: &Pattern,
    mode: Mode,
    pairs: u32,
) -> Result<Answer, OutOfMemory>
    requires pairs { IsBetween LEAST_LIMIT MOST_PAIRS pairs }
    ensures { IfOk result (IsExplained mode pairs pattern.now) }
{
    let explained = explain(alloc, pattern, mode, pairs)?;
    Ok(Answer::Ways(explained))
}

/// Returns the answer to a question `ways`.
///
/// # Errors
/// [`OutOfMemory`] if there was no memory for the answer.
pub(crate) fn ways_answer(
    alloc: Global,
    pattern: &str,
    terms: Terms,
    mode: Mode,
    pairs: u32,
) -> Result<Answer, OutOfMemory>
    requires pairs { IsBetween LEAST_LIMIT MOST_PAIRS pairs }
    ensures { IfOk result (ReadThen (grammar_in mode) terms pattern.now (IsExplained mode pairs)) }
{
    match read_pattern(alloc, pattern, terms, grammar_in(mode))? {
        PatternRead::Refused(fault) => Ok(Answer::Refused {
            which: Which::Only,
            fault,
        }),
        PatternRead::Read(pattern) => {
            let answer = pattern_answer(alloc, &pattern, mode, pairs);
            drop(pattern);
            answer
        }
    }
}
