//! Plain patterns, from which nothing can be removed: they have no branches, and no quantifiers that the rules take out.

ghost use Rattle.std.specs.Prelude.{◌≡◌, ℕ, List, map, IfOk, IfSome, IfNone};
ghost use Rattle.rl_syntax.specs.PatTree.{pat_of, items_of};
ghost use Rattle.rl_syntax.specs.Pattern.{body_of};
ghost use Rattle.rl_pattern.specs.declared.flags.Flags.{Flags as AnyFlags};
ghost use Rattle.rl_rewrite.specs.RightSuggestion.{IsRightSuggestion};
ghost use Rattle.rl_rewrite.specs.Plain.{IsPlain, empty_suggestion};
ghost use Rattle.rl_rewrite.specs.internal.Choices.{holds_branch as branch_in, items_hold_branch as branch_among};

use crate::merging::all_merged;
use rl_lists::OutOfMemory;
use rl_syntax::{Pat, Pattern, Spans, Suggestion};
use std::alloc::Global;

/// Returns whether a part contains a branch of some choice.
#[cycle(choices)]
fn holds_branch(part: &Pat) -> bool
    ensures { result ≡ branch_in (pat_of part.now) }
{
    match part {
        Pat::Nothing { .. }
        | Pat::Class { .. }
        | Pat::Anchor { .. }
        | Pat::Boundary { .. }
        | Pat::Look { .. }
        | Pat::Outside { .. } => false,
        Pat::Seq { items, .. } => items_hold_branch(items.as_slice()),
        Pat::Choice { branches, .. } => !branches.is_empty(),
        Pat::Repeat { body, .. } | Pat::Group { body, .. } => holds_branch(body),
    }
}

/// Returns whether at least one of the items contains a branch of some choice.
#[cycle(choices)]
fn items_hold_branch(items: &[Pat]) -> bool
    ensures { result ≡ branch_among (items_of (map pat_of items.now)) }
{
    let mut held = false;
    for item in items {
        held = holds_branch(item) || held;
    }
    held
}

/// Returns the suggestion that removes nothing, which has no text and empty lists, if the pattern has no branches and no
/// quantifiers to be taken out, and `None` otherwise. This suggestion is right under all flags, for all codes and with every
/// limit, even if the body exceeds a limit. Memory is allocated only if there is a quantifier to be taken out.
///
/// # Errors
/// [`OutOfMemory`] if there is not enough memory.
pub fn plain_suggestion(alloc: Global, p: &Pattern) -> Result<Option<Suggestion>, OutOfMemory>
    ensures plain { IfOk result (λ o. IfSome o (λ s. IsPlain (body_of p.now))) }
    ensures other { IfOk result (λ o. IfNone o (IsPlain (body_of p.now) → ⊥)) }
    ensures empty { IfOk result (λ o. IfSome o (λ s. s ≡ empty_suggestion)) }
    ensures right { IfOk result (λ o. IfSome o (λ s. (flags : AnyFlags) (codes : List ℕ) (limit : ℕ) → IsRightSuggestion flags p.now codes limit s)) }
{
    if holds_branch(p.body()) {
        return Ok(None);
    }
    let merged = all_merged(alloc, p.body())?;
    if !merged.is_empty() {
        return Ok(None);
    }
    Ok(Some(Suggestion {
        text: None,
        dropped: Spans::new(alloc),
        merged,
        passed: Spans::new(alloc),
    }))
}
