//! The suggestion for a pattern: the pattern without the branches and quantifiers that the rules allow to be removed without
//! changing the texts that it matches.

ghost use Rattle.std.specs.Prelude.{◌≡◌, ◌≤◌, ℕ, List, length, Some, Ok, IfOk, IfErr, OnOk};
ghost use Rattle.rl_ranges.specs.Text.{IsText};
ghost use Rattle.rl_syntax.specs.Pattern.{body_of, universe_of, pattern_tree};
ghost use Rattle.rl_syntax.specs.declared.re.Mode.TheVariants.{Fullmatch};
ghost use Rattle.rl_syntax.specs.declared.verdict.Limit.{Limit as AnyLimit};
ghost use Rattle.rl_pattern.specs.Cut.{remaining};
ghost use Rattle.rl_pattern.specs.Parsed.{IsParsed};
ghost use Rattle.rl_pattern.specs.Suggested.{among, no_span, merged_in};
ghost use Rattle.rl_rewrite.specs.Verdicts.{IsFirstExceeded};
ghost use Rattle.rl_pattern.specs.Placed.{ArePlaced};
ghost use Rattle.rl_rewrite.specs.RightSuggestion.{IsRightSuggestion};
ghost use Rattle.rl_rewrite.specs.declared.suggesting.SuggestError.TheVariants as error;
ghost use Rattle.rl_syntax.specs.declared.limits.TheConstants.{MOST_SET_PAIRS};

use crate::leaving::left_part;
use crate::limits::baseline_of;
use crate::merging::all_merged;
use crate::spelling::text_of;
use crate::trying::{Tried, tries_of};
use rl_lists::OutOfMemory;
use rl_pattern::Flags;
use rl_ranges::Codes;
use rl_syntax::{Limit, Pattern, Span, Spans, Suggestion};
use std::alloc::Global;

/// The reason why there is no suggestion.
#[derive(Clone, Copy, Debug, PartialEq, Eq)]
pub enum SuggestError {
    /// The body, in the mode fullmatch, exceeds this limit: `Size`, `Letters` or `Moves`.
    Limit(Limit),
    /// Out of memory.
    OutOfMemory,
}

impl From<OutOfMemory> for SuggestError {
    ghost use Rattle.std.specs.Prelude.{◌≡◌};
    ghost use Rattle.rl_rewrite.specs.declared.suggesting.SuggestError.TheVariants as error;

    ghost from_gives = { λ _ e. e ≡ error.OutOfMemory };

    /// Returns [`SuggestError::OutOfMemory`].
    fn from(_: OutOfMemory) -> Self {
        SuggestError::OutOfMemory
    }
}

/// Returns the spans, in ascending order, of the quantifiers that are taken out of what is left of a pattern's body without
/// the dropped branches.
fn merged_of(alloc: Global, p: &Pattern, dropped: &[Span]) -> Result<Spans, OutOfMemory>
    ensures { IfOk result (λ all. all ≡ merged_in (remaining (among dropped.now) no_span (body_of p.now))) }
{
    let left = left_part(alloc, p.body(), dropped)?;
    let merged = all_merged(alloc, &left);
    drop(left);
    merged
}

/// Returns the suggestion that the rules give for a pattern, which must have been read from `codes` under `flags`. Its text is
/// `None` if nothing is removed. A trial of a branch compares the languages with and without it, and looks at no more than
/// `limit` set pairs, which are two sets of states to which the same word leads. A branch whose trial would need more is kept
/// and listed in `passed`. `limit` must be from 1 to `MOST_SET_PAIRS`, which is 20,000.
///
/// # Errors
/// [`SuggestError::Limit`], with the first limit that is exceeded, if the body exceeds one in the mode fullmatch: on its nodes
/// (`Size`), its letters (`Letters`) or the length of its longest item list (`Moves`); [`SuggestError::OutOfMemory`] if there
/// is not enough memory.
pub fn suggest(
    alloc: Global,
    p: &Pattern,
    codes: &Codes,
    flags: Flags,
    limit: u32,
) -> Result<Suggestion, SuggestError>
    requires parsed { IsParsed flags (universe_of p.now) codes.now (Ok p.now) }
    requires some { 1 ≤ limit }
    requires low { limit ≤ MOST_SET_PAIRS }
    ensures right { IfOk result (IsRightSuggestion flags p.now codes.now limit) }
    ensures within { OnOk result ((l : AnyLimit) → IsFirstExceeded (universe_of p.now) (pattern_tree p.now Fullmatch) l → ⊥) }
    ensures passed { IfErr result (λ e. (l : AnyLimit) → e ≡ error.Limit l → IsFirstExceeded (universe_of p.now) (pattern_tree p.now Fullmatch) l) }
    ensures dropped_placed { IfOk result (λ s. ArePlaced (length codes.now) s.dropped) }
    ensures merged_placed { IfOk result (λ s. ArePlaced (length codes.now) s.merged) }
    ensures passed_placed { IfOk result (λ s. ArePlaced (length codes.now) s.passed) }
    ensures texts { IfOk result (λ s. (text : List ℕ) → s.text ≡ Some text → IsText (universe_of p.now) codes.now → IsText (universe_of p.now) text) }
{
    let base = baseline_of(alloc, p)?;
    let tries = tries_of(alloc, p, base, limit)?;
    let Ok(merged) = merged_of(alloc, p, tries.dropped.as_slice()) else {
        drop(tries);
        return Err(SuggestError::OutOfMemory);
    };
    let spelled = text_of(
        alloc,
        p.body(),
        codes,
        tries.dropped.as_slice(),
        merged.as_slice(),
    );
    let Ok(text) = spelled else {
        drop(merged);
        drop(tries);
        return Err(SuggestError::OutOfMemory);
    };
    let Tried { dropped, passed } = tries;
    Ok(Suggestion {
        text,
        dropped,
        merged,
        passed,
    })
}
