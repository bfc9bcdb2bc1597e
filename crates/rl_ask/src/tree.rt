//! How questions `tree` are answered: by the reply of `rl_parts` that gives the parts of the pattern.

ghost use Rattle.std.specs.Prelude.{IfOk};
ghost use Rattle.rl_syntax.specs.declared.re.Mode.TheVariants.{Search};
ghost use Rattle.rl_ask.specs.Grammars.{grammar_in};
ghost use Rattle.rl_ask.specs.Patterns.{ReadThen};
ghost use Rattle.rl_ask.specs.Trees.{IsTree};

use crate::answer::{Answer, Limit, Which};
use crate::grammar::grammar_in;
use crate::patterns::{PatternRead, read_pattern};
use rl_asked::Terms;
use rl_lists::OutOfMemory;
use rl_parts::{PartsError, tree_reply};
use rl_syntax::{Mode, Pattern};
use std::alloc::Global;

/// Returns the answer for a pattern.
fn pattern_answer(alloc: Global, pattern: &Pattern) -> Result<Answer, OutOfMemory>
    ensures { IfOk result (IsTree pattern.now) }
{
    match tree_reply(alloc, pattern) {
        Ok(reply) => Ok(Answer::Tree(reply)),
        Err(PartsError::Letters) => Ok(Answer::Undecided(Limit::Letters)),
        Err(PartsError::Groups) => Ok(Answer::Undecided(Limit::Groups)),
        Err(PartsError::OutOfMemory) => Err(OutOfMemory),
    }
}

/// Returns the answer to a question `tree`.
///
/// # Errors
/// [`OutOfMemory`] if there was no memory for the answer.
pub(crate) fn tree_answer(alloc: Global, pattern: &str, terms: Terms) -> Result<Answer, OutOfMemory>
    ensures { IfOk result (ReadThen (grammar_in Search) terms pattern.now IsTree) }
{
    match read_pattern(alloc, pattern, terms, grammar_in(Mode::Search))? {
        PatternRead::Refused(fault) => Ok(Answer::Refused {
            which: Which::Only,
            fault,
        }),
        PatternRead::Read(pattern) => {
            let answer = pattern_answer(alloc, &pattern);
            drop(pattern);
            answer
        }
    }
}
