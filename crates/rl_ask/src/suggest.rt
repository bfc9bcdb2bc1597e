//! How questions `suggest` are answered: by the suggestion for the pattern, which says what can be left out of it.

ghost use Rattle.std.specs.Prelude.{◌≡◌, IfErr, IfOk, IfSome};
ghost use Rattle.std.specs.Str.{chars};
ghost use Rattle.rl_ranges.specs.Text.{IsText};
ghost use Rattle.rl_syntax.specs.Pattern.{pattern_tree, universe_of};
ghost use Rattle.rl_syntax.specs.declared.re.Mode.TheVariants.{Fullmatch};
ghost use Rattle.rl_syntax.specs.declared.verdict.Limit.{Limit as AnyLimit};
ghost use Rattle.rl_rewrite.specs.RightSuggestion.{IsRightSuggestion};
ghost use Rattle.rl_rewrite.specs.Verdicts.{IsFirstExceeded};
ghost use Rattle.rl_rewrite.specs.declared.suggesting.SuggestError.TheVariants as error;
ghost use Rattle.rl_asked.specs.Questions.{IsBetween};
ghost use Rattle.rl_asked.specs.declared.limits.TheConstants.{LEAST_LIMIT, MOST_PAIRS};
ghost use Rattle.rl_ask.specs.declared.grammar.Grammar.TheVariants.{Profile};
ghost use Rattle.rl_ask.specs.Patterns.{IsReadAs, ReadThen};
ghost use Rattle.rl_ask.specs.Suggestions.{IsSuggested};

use crate::answer::{Answer, Limit, Which};
use crate::codes::codes_of;
use crate::grammar::Grammar;
use crate::patterns::{PatternRead, read_pattern};
use rl_asked::Terms;
use rl_lists::OutOfMemory;
use rl_rewrite::{SuggestError, plain_suggestion, suggest};
use rl_syntax::{Limit as VerdictLimit, Pattern, Suggestion};
use std::alloc::Global;

/// Returns the suggestion for a pattern that was read from the text. A test of a branch looks at no more than `pairs` set
/// pairs.
fn suggestion_for(
    alloc: Global,
    pattern: &Pattern,
    word: &str,
    terms: Terms,
    pairs: u32,
) -> Result<Suggestion, SuggestError>
    requires read { IsReadAs Profile terms word.now pattern.now }
    requires pairs { IsBetween LEAST_LIMIT MOST_PAIRS pairs }
    ensures right { IfOk result (IsRightSuggestion terms.flags pattern.now (chars word.now) pairs) }
    ensures texts { IfOk result (λ s. IfSome s.text (IsText (universe_of pattern.now))) }
    ensures exceeded { IfErr result (λ e. (l : AnyLimit) → e ≡ error.Limit l → IsFirstExceeded (universe_of pattern.now) (pattern_tree pattern.now Fullmatch) l) }
{
    if let Some(suggestion) = plain_suggestion(alloc, pattern)? {
        return Ok(suggestion);
    }
    let codes = codes_of(alloc, word)?;
    suggest(alloc, pattern, &codes, terms.flags, pairs)
}

/// Returns the answer for a pattern that was read from the text.
fn pattern_answer(
    alloc: Global,
    pattern: &Pattern,
    word: &str,
    terms: Terms,
    pairs: u32,
) -> Result<Answer, OutOfMemory>
    requires read { IsReadAs Profile terms word.now pattern.now }
    requires pairs { IsBetween LEAST_LIMIT MOST_PAIRS pairs }
    ensures { IfOk result (IsSuggested terms.flags (chars word.now) pairs pattern.now) }
{
    match suggestion_for(alloc, pattern, word, terms, pairs) {
        Ok(suggestion) => Ok(Answer::Suggested(suggestion)),
        Err(SuggestError::Limit(VerdictLimit::Size)) => Ok(Answer::Undecided(Limit::Size)),
        Err(SuggestError::Limit(VerdictLimit::Letters)) => Ok(Answer::Undecided(Limit::Letters)),
        Err(SuggestError::Limit(VerdictLimit::Moves)) => Ok(Answer::Undecided(Limit::Moves)),
        Err(SuggestError::Limit(VerdictLimit::Sets)) => unreachable!(),
        Err(SuggestError::Limit(VerdictLimit::Pairs)) => unreachable!(),
        Err(SuggestError::OutOfMemory) => Err(OutOfMemory),
    }
}

/// Returns the answer to a question `suggest`.
///
/// # Errors
/// [`OutOfMemory`] if there was no memory for the answer.
pub(crate) fn suggest_answer(
    alloc: Global,
    pattern: &str,
    terms: Terms,
    pairs: u32,
) -> Result<Answer, OutOfMemory>
    requires pairs { IsBetween LEAST_LIMIT MOST_PAIRS pairs }
    ensures { IfOk result (ReadThen Profile terms pattern.now (IsSuggested terms.flags (chars pattern.now) pairs)) }
{
    match read_pattern(alloc, pattern, terms, Grammar::Profile)? {
        PatternRead::Refused(fault) => Ok(Answer::Refused {
            which: Which::Only,
            fault,
        }),
        PatternRead::Read(read) => {
            let answer = pattern_answer(alloc, &read, pattern, terms, pairs);
            drop(read);
            answer
        }
    }
}
