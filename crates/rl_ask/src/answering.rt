//! How a question is answered, by its kind.

ghost use Rattle.std.specs.Prelude.{IfOk};
ghost use Rattle.rl_asked.specs.Questions.{IsAskable, asked};
ghost use Rattle.rl_ask.specs.Answers.{IsRight};

use crate::answer::Answer;
use crate::class::class_answer;
use crate::compare::compare_answer;
use crate::cost::{cost_answer, family_answer};
use crate::found::{Asking, found_answer};
use crate::spans::{Comparing, spans_answer};
use crate::suggest::suggest_answer;
use crate::tree::tree_answer;
use crate::ways::ways_answer;
use rl_asked::Question;
use rl_lists::OutOfMemory;
use std::alloc::Global;

/// Returns the answer to a question.
///
/// # Errors
/// [`OutOfMemory`] if there was no memory for the answer.
pub fn answer_to(alloc: Global, question: Question) -> Result<Answer, OutOfMemory>
    requires askable { IsAskable (asked question) }
    ensures { IfOk result (IsRight (asked question.entry)) }
{
    match question {
        Question::Class {
            pattern,
            terms,
            mode,
            pairs,
        } => class_answer(alloc, pattern, terms, mode, pairs),
        Question::Ways {
            pattern,
            terms,
            mode,
            pairs,
        } => ways_answer(alloc, pattern, terms, mode, pairs),
        Question::Tree { pattern, terms } => tree_answer(alloc, pattern, terms),
        Question::Compare {
            first,
            second,
            terms,
            mode,
            limit,
        } => compare_answer(alloc, first, second, terms, mode, limit),
        Question::Spans {
            first,
            second,
            terms,
            how,
            limit,
            groups,
        } => {
            let comparing = Comparing { how, limit, groups };
            spans_answer(alloc, first, second, terms, comparing)
        }
        Question::Found {
            pattern,
            terms,
            mode,
            text,
            from,
            advance,
        } => {
            let asking = Asking {
                mode,
                from,
                advance,
            };
            found_answer(alloc, pattern, terms, text, asking)
        }
        Question::Suggest {
            pattern,
            terms,
            pairs,
        } => suggest_answer(alloc, pattern, terms, pairs),
        Question::Cost {
            pattern,
            terms,
            mode,
            text,
        } => cost_answer(alloc, pattern, terms, mode, text),
        Question::CostOfFamily {
            pattern,
            terms,
            mode,
            heads,
            pumps,
            k,
        } => family_answer(alloc, pattern, terms, mode, heads, pumps, k),
        Question::Version => Ok(Answer::Version),
    }
}
