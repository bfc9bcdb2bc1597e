//! What is left of a pattern without some of its branches, which are identified by their spans. A choice with one branch left
//! becomes the body of this branch, and a choice with none left becomes the empty pattern.

ghost use Rattle.std.specs.Prelude.{◌≡◌, ◌≤◌, ◌++◌, false, map, IfOk, OnOk};
ghost use Rattle.rl_syntax.specs.PatTree.{pat_of, branches_of};
ghost use Rattle.rl_syntax.specs.PatTree as p;
ghost use Rattle.rl_syntax.specs.Counting.{branch_tree};
ghost use Rattle.rl_syntax.specs.Pattern.{body_of, universe_of};
ghost use Rattle.rl_syntax.specs.Tree.{tree_of, size, IsOver};
ghost use Rattle.rl_pattern.specs.Cut.{choice_of as is_choice_of, remaining};
ghost use Rattle.rl_rewrite.specs.internal.LeftLists.{all_remaining, some_remaining};
ghost use Rattle.rl_pattern.specs.Suggested.{among as lies_among, no_span, holds_guard, without};
ghost use Rattle.rl_syntax.specs.declared.limits.TheConstants.{MOST_NODES};

use crate::parts::among;
use rl_lists::OutOfMemory;
use rl_syntax::{Branch, Branches, LowerError, Mode, Pat, Pats, Pattern, Re, Span, lower};
use std::alloc::Global;

/// Returns the repeat of a body with the given values; `mark` is the span of the quantifier.
fn repeat_of(
    alloc: Global,
    span: Span,
    mark: Span,
    min: u32,
    max: Option<u32>,
    greedy: bool,
    body: Pat,
) -> Result<Pat, OutOfMemory>
    ensures { IfOk result (λ part. pat_of part ≡ p.repeat span mark min max greedy (pat_of body)) }
{
    let body = Box::new(alloc, body)?;
    Ok(Pat::Repeat {
        span,
        mark,
        min,
        max,
        greedy,
        body,
    })
}

/// Returns the group with the given span and body; `captures` says whether it captures.
fn group_of(alloc: Global, span: Span, captures: bool, body: Pat) -> Result<Pat, OutOfMemory>
    ensures { IfOk result (λ part. pat_of part ≡ p.group span captures (pat_of body)) }
{
    let body = Box::new(alloc, body)?;
    Ok(Pat::Group {
        span,
        captures,
        body,
    })
}

/// Returns the branch with the given span and body.
fn branch_at(span: Span, body: Pat) -> Branch
    ensures { branch_tree result ≡ (span, pat_of body) }
{
    Branch { span, body }
}

/// Returns the choice of the given branches. If there is only one, the result is its body; if there is none, the result is the
/// empty pattern.
fn choice_of(span: Span, branches: Branches) -> Pat
    ensures { pat_of result ≡ is_choice_of span (branches_of (map branch_tree branches)) }
{
    if branches.len() > 1 {
        return Pat::Choice { span, branches };
    }
    let mut kept = branches.into_vec();
    match kept.pop() {
        Some(branch) => branch.body,
        None => Pat::Nothing { span },
    }
}

/// Returns what is left of a part without the branches whose spans are in `dropped`. What is left keeps the spans it had.
#[cycle(leaving)]
pub(crate) fn left_part(alloc: Global, part: &Pat, dropped: &[Span]) -> Result<Pat, OutOfMemory>
    ensures { IfOk result (λ found. pat_of found ≡ remaining (lies_among dropped.now) no_span (pat_of part.now)) }
{
    match part {
        Pat::Nothing { span } => Ok(Pat::Nothing { span: *span }),
        Pat::Class { span, set } => {
            let set = set.copy()?;
            Ok(Pat::Class { span: *span, set })
        }
        Pat::Seq { span, items } => {
            let mut left: Pats = Pats::new(alloc);
            let Ok(()) = put_items_left(alloc, items.as_slice(), dropped, &mut left) else {
                drop(left);
                return Err(OutOfMemory);
            };
            Ok(Pat::Seq {
                span: *span,
                items: left,
            })
        }
        Pat::Choice { span, branches } => {
            let mut left: Branches = Branches::new(alloc);
            let Ok(()) = put_branches_left(alloc, branches.as_slice(), dropped, &mut left) else {
                drop(left);
                return Err(OutOfMemory);
            };
            Ok(choice_of(*span, left))
        }
        Pat::Repeat {
            span,
            mark,
            min,
            max,
            greedy,
            body,
        } => {
            let body = left_part(alloc, body, dropped)?;
            repeat_of(alloc, *span, *mark, *min, *max, *greedy, body)
        }
        Pat::Group {
            span,
            captures,
            body,
        } => {
            let body = left_part(alloc, body, dropped)?;
            group_of(alloc, *span, *captures, body)
        }
        Pat::Anchor {
            span,
            kind,
            multiline,
        } => Ok(Pat::Anchor {
            span: *span,
            kind: *kind,
            multiline: *multiline,
        }),
        Pat::Boundary {
            span,
            negated,
            ascii,
        } => Ok(Pat::Boundary {
            span: *span,
            negated: *negated,
            ascii: *ascii,
        }),
        Pat::Look {
            span,
            behind,
            negated,
            set,
        } => {
            let set = set.copy()?;
            Ok(Pat::Look {
                span: *span,
                behind: *behind,
                negated: *negated,
                set,
            })
        }
        Pat::Outside { span, what } => Ok(Pat::Outside {
            span: *span,
            what: *what,
        }),
    }
}

/// Appends to `found` what is left of each item without the dropped branches.
#[cycle(leaving)]
fn put_items_left(
    alloc: Global,
    items: &[Pat],
    dropped: &[Span],
    found: &mut Pats,
) -> Result<(), OutOfMemory>
    ensures { OnOk result (map pat_of found.new ≡ map pat_of found.old ++ all_remaining (lies_among dropped.now) (map pat_of items.now)) }
{
    for item in items {
        let left = left_part(alloc, item, dropped)?;
        found.push(left)?;
    }
    Ok(())
}

/// Appends to `found` each branch that isn't dropped, with what is left of its body.
#[cycle(leaving)]
fn put_branches_left(
    alloc: Global,
    branches: &[Branch],
    dropped: &[Span],
    found: &mut Branches,
) -> Result<(), OutOfMemory>
    ensures { OnOk result (map branch_tree found.new ≡ map branch_tree found.old ++ some_remaining (lies_among dropped.now) (map branch_tree branches.now)) }
{
    for branch in branches {
        if !among(dropped, branch.span) {
            let body = left_part(alloc, &branch.body, dropped)?;
            found.push(branch_at(branch.span, body))?;
        }
    }
    Ok(())
}

/// Returns the tree, in the mode fullmatch, of a pattern's body without the dropped branches. The body must not contain a
/// guard, and the tree must not have more than `MOST_NODES` nodes.
pub(crate) fn tree_without(alloc: Global, p: &Pattern, dropped: &[Span]) -> Result<Re, OutOfMemory>
    requires guardless { holds_guard (body_of p.now) ≡ false }
    requires small { size (without dropped.now (body_of p.now)) ≤ MOST_NODES }
    ensures tree { IfOk result (λ re. tree_of re ≡ without dropped.now (body_of p.now)) }
    ensures over { IfOk result (λ re. IsOver (universe_of p.now) (tree_of re)) }
{
    let body = left_part(alloc, p.body(), dropped)?;
    let left = Pattern::new(body, p.leading(), p.trailing(), p.universe());
    let lowered = lower(alloc, &left, Mode::Fullmatch);
    drop(left);
    match lowered {
        Ok(lowered) => Ok(lowered.tree),
        Err(LowerError::OutOfMemory) => Err(OutOfMemory),
        Err(LowerError::TooLarge) => unreachable!(),
    }
}
