//! The suggestion for a pattern, and the verdict on the suggested pattern. A suggestion says what can be left out of a
//! pattern: it has the simpler pattern, if there is one, and mentions parts of the old one. A live pair is a state of the
//! pattern's automaton with the set of states that were tried before it.
ghost use Rattle.std.specs.Prelude.{◌≡◌, ◌≤◌, Ok, IfOk, IfSome, length, option_map};
ghost use Rattle.rl_ranges.specs.Text.{IsText};
ghost use Rattle.rl_syntax.specs.Pattern.{universe_of};
ghost use Rattle.rl_pairs.specs.RightVerdict.{RightVerdict};
ghost use Rattle.rl_pattern.specs.Parsed.{IsParsed};
ghost use Rattle.rl_rewrite.specs.RightSuggestion.{IsRightSuggestion};
ghost use Rattle.rl_judge.specs.Analysis.{question_of, text_to_judge, IsSuggested, IsSuggestedVerdict, IsTextVerdict};
ghost use Rattle.rl_judge.specs.internal.Conditions.{has_suggestion, IsSmallWhole, PartsLieIn, IsSuggestionOf, HasReadable, IsReadable};
ghost use Rattle.rl_syntax.specs.declared.limits.TheConstants.{MOST_SET_PAIRS};

use crate::options::AnalysisOptions;
use crate::verdict::verdict_on;
use rl_lists::{Codes, OutOfMemory};
use rl_pattern::{Flags, PatError, parse};
use rl_rewrite::{SuggestError, plain_suggestion, suggest};
use rl_syntax::{Limit, MOST_SET_PAIRS, Pattern, Suggestion, Universe, Verdict};
use std::alloc::Global;

/// Returns whether this verdict comes with a suggestion.
fn has_suggestion(verdict: &Verdict) -> bool
    ensures { result ≡ has_suggestion verdict.now }
{
    !matches!(
        verdict,
        Verdict::Undecided(Limit::Size | Limit::Letters | Limit::Moves)
    )
}

/// Returns the suggestion for a pattern whose tree for `fullmatch` exceeds no limit.
#[tactic(auto, using(crate::proofs::Suggestions::empty_parts))]
fn suggestion_for(
    alloc: Global,
    pattern: &Pattern,
    codes: &Codes,
    flags: Flags,
) -> Result<Suggestion, OutOfMemory>
    requires parsed { IsParsed flags (universe_of pattern.now) codes.now (Ok pattern.now) }
    requires text { IsText (universe_of pattern.now) codes.now }
    requires small { IsSmallWhole pattern.now }
    ensures right { IfOk result (IsRightSuggestion flags pattern.now codes.now MOST_SET_PAIRS) }
    ensures within { IfOk result (PartsLieIn (length codes.now)) }
    ensures texts { IfOk result (IsSuggestionOf (universe_of pattern.now)) }
    ensures readable { IfOk result (HasReadable flags (universe_of pattern.now)) }
{
    if let Some(suggestion) = plain_suggestion(alloc, pattern)? {
        return Ok(suggestion);
    }
    match suggest(alloc, pattern, codes, flags, MOST_SET_PAIRS) {
        Ok(suggestion) => Ok(suggestion),
        Err(SuggestError::OutOfMemory) => Err(OutOfMemory),
        Err(SuggestError::Limit(_)) => unreachable!(),
    }
}

/// Returns the suggestion that comes with the verdict on a pattern, or `None` if the verdict is `undecided` by size, letters
/// or moves. The pattern must be the one that `codes` spell under `flags`, and the verdict a right one under `options`.
///
/// # Errors
/// [`OutOfMemory`] if memory runs out.
pub fn suggestion_beside(
    alloc: Global,
    pattern: &Pattern,
    codes: &Codes,
    flags: Flags,
    options: AnalysisOptions,
    verdict: &Verdict,
) -> Result<Option<Suggestion>, OutOfMemory>
    requires parsed { IsParsed flags (universe_of pattern.now) codes.now (Ok pattern.now) }
    requires text { IsText (universe_of pattern.now) codes.now }
    requires verdict { RightVerdict (question_of pattern.now options) verdict.now }
    ensures right { IfOk result (IsSuggested flags pattern.now codes.now verdict.now) }
    ensures within { IfOk result (λ s. IfSome s (PartsLieIn (length codes.now))) }
    ensures texts { IfOk result (λ s. IfSome s (IsSuggestionOf (universe_of pattern.now))) }
    ensures readable { IfOk result (λ s. IfSome s (HasReadable flags (universe_of pattern.now))) }
{
    if !has_suggestion(verdict) {
        return Ok(None);
    }
    let suggestion = suggestion_for(alloc, pattern, codes, flags)?;
    Ok(Some(suggestion))
}

/// Returns the suggested text if its pattern is judged too, that is, under report version 2.
fn text_to_judge(options: AnalysisOptions, suggestion: Option<&Suggestion>) -> Option<&Codes>
    ensures { option_map (λ text. text.now) result ≡ text_to_judge options (option_map (λ s. s.now) suggestion.entry) }
{
    match suggestion {
        Some(suggestion) if options.report == 2 => suggestion.text.as_ref(),
        _ => None,
    }
}

/// Returns the verdict on the pattern that a text spells.
#[tactic(auto, using(crate::proofs::Parsing::parsing))]
fn verdict_on_text(
    alloc: Global,
    text: &Codes,
    universe: Universe,
    flags: Flags,
    options: AnalysisOptions,
) -> Result<Verdict, OutOfMemory>
    requires some { 1 ≤ options.max_pairs }
    requires few { options.max_pairs ≤ 1000 }
    requires text { IsText universe text.now }
    requires readable { IsReadable flags universe text.now }
    ensures { IfOk result (IsTextVerdict flags options universe text.now) }
{
    match parse(alloc, text, flags, universe) {
        Ok(pattern) => verdict_on(alloc, &pattern, options),
        Err(PatError::OutOfMemory) => Err(OutOfMemory),
        Err(_) => unreachable!(),
    }
}

/// Returns the verdict on the suggested pattern, or `None` if no pattern is suggested or the report doesn't have version 2.
/// The suggested text must be one of the universe and be read as a pattern under `flags`; the limit of live pairs in `options`
/// must be from 1 to 1,000.
///
/// # Errors
/// [`OutOfMemory`] if memory runs out.
pub fn suggested_verdict(
    alloc: Global,
    suggestion: Option<&Suggestion>,
    universe: Universe,
    flags: Flags,
    options: AnalysisOptions,
) -> Result<Option<Verdict>, OutOfMemory>
    requires some { 1 ≤ options.max_pairs }
    requires few { options.max_pairs ≤ 1000 }
    requires texts { IfSome suggestion (λ s. IsSuggestionOf universe s.now) }
    requires readable { IfSome suggestion (λ s. HasReadable flags universe s.now) }
    ensures { IfOk result (IsSuggestedVerdict flags options universe (text_to_judge options (option_map (λ s. s.now) suggestion.entry))) }
{
    match text_to_judge(options, suggestion) {
        Some(text) => Ok(Some(verdict_on_text(alloc, text, universe, flags, options)?)),
        None => Ok(None),
    }
}
