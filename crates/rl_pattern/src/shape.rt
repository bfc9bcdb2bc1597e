//! Turning a syntax tree into a pattern. A pattern part is a node of the pattern's body with everything in it.

ghost use Rattle.std.specs.Prelude.{◌≡◌, ℕ, ◌<◌, ◌≤◌, ◌++◌, List, [], ◌∷◌, map, Some, IfOk, false};
ghost use Rattle.rl_ranges.specs.Codes.{has};
ghost use Rattle.rl_ranges.specs.Listed.{ranges_below};
ghost use Rattle.rl_ranges.specs.Text.{code_count};
ghost use Rattle.rl_syntax.specs.Guards.{is_line_feed};
ghost use Rattle.rl_syntax.specs.declared.anchors.AnchorKind.TheVariants as anchor;
ghost use Rattle.rl_syntax.specs.PatTree as s;
ghost use Rattle.rl_syntax.specs.PatTree.{pat_of};
ghost use Rattle.rl_syntax.specs.Counting.{branch_tree};
ghost use Rattle.rl_pattern.specs.internal.Views.{node_of, branch_of};
ghost use Rattle.rl_pattern.specs.Tree as t;
ghost use Rattle.rl_pattern.specs.LeafCodes.{leaf_codes};
ghost use Rattle.rl_pattern.specs.Shape as p;

use crate::faults::{looks_to, reads_look};
use crate::flags::Flags;
use crate::leaf_set::{flipped, holds_at_end, leaf_set, look_set};
use crate::profile::{Dollar, Profile, before_end, for_item};
use crate::tree::{Assertion, Branch as SpelledBranch, Count, Greed, Kind, Leaf, SyntaxNode};
use rl_lists::{Items, OutOfMemory};
use rl_ranges::{CodeSet, Universe};
use rl_syntax::{AnchorKind, Branch, Branches, Feature, Pat, Pats, Span};
use std::alloc::Global;

/// Whether it is the universe of `str`, not of `bytes`.
pub(crate) fn is_text(universe: Universe) -> bool
    ensures { result ≡ p.is_text universe }
{
    match universe {
        Universe::Str => true,
        Universe::Bytes => false,
    }
}

/// Returns the class of a leaf, with the set of the codes that it matches.
fn leaf_pat(
    alloc: Global,
    universe: Universe,
    span: Span,
    flags: Flags,
    leaf: &Leaf,
) -> Result<Pat, OutOfMemory>
    ensures { IfOk result (λ found. pat_of found ≡ s.class span (leaf_codes universe flags leaf.now)) }
{
    let set = leaf_set(alloc, universe, flags, leaf)?;
    Ok(Pat::Class { span, set })
}

/// Returns the anchor or word boundary of a mark.
fn mark_pat(universe: Universe, span: Span, flags: Flags, mark: Assertion) -> Pat
    ensures { pat_of result ≡ p.mark_shape universe span flags mark }
{
    let multiline = flags.multiline;
    match mark {
        Assertion::Caret => Pat::Anchor {
            span,
            kind: AnchorKind::Caret,
            multiline,
        },
        Assertion::TextStart => Pat::Anchor {
            span,
            kind: AnchorKind::TextStart,
            multiline,
        },
        Assertion::Dollar => Pat::Anchor {
            span,
            kind: AnchorKind::Dollar,
            multiline,
        },
        Assertion::TextEnd => Pat::Anchor {
            span,
            kind: AnchorKind::TextEnd,
            multiline,
        },
        Assertion::Boundary(negated) => Pat::Boundary {
            span,
            negated,
            ascii: flags.ascii || !is_text(universe),
        },
    }
}

/// Returns the class of the line feed, with the span of the `$` that it comes from.
fn line_feed(alloc: Global, span: Span) -> Result<Pat, OutOfMemory>
    ensures { IfOk result (λ found. pat_of found ≡ s.class span is_line_feed) }
{
    let set = CodeSet::range(alloc, 10, 10)?;
    Ok(Pat::Class { span, set })
}

/// Returns the optional line feed, which is lazy, that a `$` with this span allows.
fn last_line(alloc: Global, span: Span) -> Result<Pat, OutOfMemory>
    ensures { IfOk result (λ found. pat_of found ≡ s.repeat span span 0 (Some 1) false (s.class span is_line_feed)) }
{
    let body = line_feed(alloc, span)?;
    let body = Box::new(alloc, body)?;
    Ok(Pat::Repeat {
        span,
        mark: span,
        min: 0,
        max: Some(1),
        greedy: false,
        body,
    })
}

/// Returns the items that a `$` with this span becomes: an optional line feed, which is lazy, and a `\Z`.
fn dollar_items(alloc: Global, span: Span) -> Result<Pats, OutOfMemory>
    ensures { IfOk result (λ ps. map pat_of ps ≡ s.repeat span span 0 (Some 1) false (s.class span is_line_feed) ∷ s.anchor span anchor.TextEnd false ∷ []) }
{
    let line = last_line(alloc, span)?;
    let end = Pat::Anchor {
        span,
        kind: AnchorKind::TextEnd,
        multiline: false,
    };
    let mut items: Pats = Items::new(alloc);
    let Ok(()) = items.push(line) else {
        drop(items);
        drop(end);
        return Err(OutOfMemory);
    };
    let Ok(()) = items.push(end) else {
        drop(items);
        return Err(OutOfMemory);
    };
    Ok(items)
}

/// Returns what becomes of a `$` without MULTILINE that ends the pattern.
fn dollar_pat(alloc: Global, dollar: Dollar, span: Span) -> Result<Pat, OutOfMemory>
    ensures { IfOk result (λ found. pat_of found ≡ p.dollar_shape dollar span) }
{
    match dollar {
        Dollar::Refused => Ok(Pat::Anchor {
            span,
            kind: AnchorKind::Dollar,
            multiline: false,
        }),
        Dollar::Dropped => Ok(Pat::Nothing { span }),
        Dollar::LastLine => {
            let items = dollar_items(alloc, span)?;
            Ok(Pat::Seq { span, items })
        }
    }
}

/// Returns the anchor or word boundary of a mark under the profile. Only a `$` without MULTILINE depends on the profile.
fn mark_pat_in(
    alloc: Global,
    profile: Profile,
    universe: Universe,
    span: Span,
    flags: Flags,
    mark: Assertion,
) -> Result<Pat, OutOfMemory>
    ensures { IfOk result (λ found. pat_of found ≡ p.mark_shape_in profile universe span flags mark) }
{
    match profile {
        Profile::Narrow => Ok(mark_pat(universe, span, flags, mark)),
        Profile::Wide(dollar) => match mark {
            Assertion::Dollar => {
                if flags.multiline {
                    Ok(mark_pat(universe, span, flags, mark))
                } else {
                    dollar_pat(alloc, dollar, span)
                }
            }
            Assertion::Caret | Assertion::TextStart | Assertion::TextEnd | Assertion::Boundary(_) =>
                Ok(mark_pat(universe, span, flags, mark)),
        },
    }
}

/// Returns the lookaround of this kind that is read, with this body. A group of any other kind is no lookaround, and becomes
/// [`Pat::Outside`].
fn look_pat(
    alloc: Global,
    universe: Universe,
    span: Span,
    kind: &Kind,
    body: &SyntaxNode,
) -> Result<Pat, OutOfMemory>
    ensures { IfOk result (λ found. pat_of found ≡ p.look_shape universe span kind.now (node_of body.now)) }
{
    match kind {
        Kind::Lookaround { behind, negated } => {
            let end = holds_at_end(body);
            let set = look_set(alloc, universe, end, body)?;
            Ok(Pat::Look {
                span,
                behind: looks_to(is_text(universe), *behind, true, body),
                negated: flipped(end, *negated),
                set,
            })
        }
        Kind::Capturing | Kind::Named(_) | Kind::Scoped(_, _) | Kind::Atomic | Kind::Conditional =>
            Ok(Pat::Outside {
                span,
                what: Feature::Lookaround,
            }),
    }
}

/// Whether a quantifier is greedy. A lazy or possessive one isn't.
fn is_greedy(greed: Greed) -> bool
    ensures { result ≡ p.is_greedy greed }
{
    match greed {
        Greed::Greedy => true,
        Greed::Lazy | Greed::Possessive => false,
    }
}

/// Returns a repeat with this body.
fn repeat_pat(
    alloc: Global,
    span: Span,
    mark: Span,
    count: Count,
    greed: Greed,
    body: Pat,
) -> Result<Pat, OutOfMemory>
    ensures { IfOk result (λ found. pat_of found ≡ s.repeat span mark count.least count.most (p.is_greedy greed) (pat_of body)) }
{
    let body = Box::new(alloc, body)?;
    Ok(Pat::Repeat {
        span,
        mark,
        min: count.least,
        max: count.most,
        greedy: is_greedy(greed),
        body,
    })
}

/// Returns a group with this body. `captures` says whether it captures.
fn group_of(alloc: Global, span: Span, captures: bool, body: Pat) -> Result<Pat, OutOfMemory>
    ensures { IfOk result (λ found. pat_of found ≡ s.group span captures (pat_of body)) }
{
    let body = Box::new(alloc, body)?;
    Ok(Pat::Group {
        span,
        captures,
        body,
    })
}

/// Returns a group of this kind with this body. A lookaround that isn't read, an atomic group or a conditional becomes
/// [`Pat::Outside`], and the body is dropped.
fn group_pat(alloc: Global, span: Span, kind: &Kind, body: Pat) -> Result<Pat, OutOfMemory>
    ensures { IfOk result (λ found. pat_of found ≡ p.group_shape span kind.now (pat_of body)) }
{
    match kind {
        Kind::Capturing | Kind::Named(_) => group_of(alloc, span, true, body),
        Kind::Scoped(_, _) => group_of(alloc, span, false, body),
        Kind::Lookaround { .. } => {
            drop(body);
            Ok(Pat::Outside {
                span,
                what: Feature::Lookaround,
            })
        }
        Kind::Atomic => {
            drop(body);
            Ok(Pat::Outside {
                span,
                what: Feature::Atomic,
            })
        }
        Kind::Conditional => {
            drop(body);
            Ok(Pat::Outside {
                span,
                what: Feature::Conditional,
            })
        }
    }
}

/// Returns the branch with this span and body.
fn branch_at(span: Span, body: Pat) -> Branch
    ensures { branch_tree result ≡ (span, pat_of body) }
{
    Branch { span, body }
}

/// Returns the pattern part of a node, over the universe and under the profile. A group that is refused becomes
/// [`Pat::Outside`].
///
/// # Errors
/// [`OutOfMemory`] if there is no memory for the pattern.
#[cycle(shape)]
pub(crate) fn node_pat(
    alloc: Global,
    profile: Profile,
    universe: Universe,
    node: &SyntaxNode,
) -> Result<Pat, OutOfMemory>
    ensures { IfOk result (λ found. pat_of found ≡ p.shape_in profile universe (node_of node.now)) }
{
    match node {
        SyntaxNode::Leaf(span, flags, leaf) => leaf_pat(alloc, universe, *span, *flags, leaf),
        SyntaxNode::Assertion(span, flags, mark) => {
            mark_pat_in(alloc, profile, universe, *span, *flags, *mark)
        }
        SyntaxNode::Repeat(span, mark, count, greed, body) => {
            let body = node_pat(alloc, before_end(profile), universe, body)?;
            repeat_pat(alloc, *span, *mark, *count, *greed, body)
        }
        SyntaxNode::Group(span, kind, body) => {
            if reads_look(alloc, profile, is_text(universe), kind, body)? {
                return look_pat(alloc, universe, *span, kind, body);
            }
            let body = node_pat(alloc, profile, universe, body)?;
            group_pat(alloc, *span, kind, body)
        }
        SyntaxNode::Nothing(span) => Ok(Pat::Nothing { span: *span }),
        SyntaxNode::Seq(span, items) => {
            let items = item_pats(alloc, profile, universe, items.as_slice())?;
            Ok(Pat::Seq { span: *span, items })
        }
        SyntaxNode::Choice(span, branches) => {
            let branches = branch_pats(alloc, profile, universe, branches.as_slice())?;
            Ok(Pat::Choice {
                span: *span,
                branches,
            })
        }
    }
}

/// Returns the pattern parts of a sequence of nodes, in order. Only the last one may end the pattern.
#[cycle(shape)]
fn item_pats(
    alloc: Global,
    profile: Profile,
    universe: Universe,
    nodes: &[SyntaxNode],
) -> Result<Pats, OutOfMemory>
    ensures { IfOk result (λ ps. map pat_of ps ≡ p.shapes_in profile universe (t.nodes (map node_of nodes.now))) }
{
    let mut items: Pats = Items::new(alloc);
    for (place, node) in nodes.iter().enumerate() {
        let own = for_item(profile, place + 1 == nodes.len());
        let Ok(item) = node_pat(alloc, own, universe, node) else {
            drop(items);
            return Err(OutOfMemory);
        };
        let Ok(()) = items.push(item) else {
            drop(items);
            return Err(OutOfMemory);
        };
    }
    Ok(items)
}

/// Returns the branches of a pattern for branches of the syntax tree, in order.
#[cycle(shape)]
fn branch_pats(
    alloc: Global,
    profile: Profile,
    universe: Universe,
    branches: &[SpelledBranch],
) -> Result<Branches, OutOfMemory>
    ensures { IfOk result (λ bs. map branch_tree bs ≡ p.branch_shapes_in profile universe (t.branches (map branch_of branches.now))) }
{
    let mut found: Branches = Items::new(alloc);
    for branch in branches {
        let Ok(body) = node_pat(alloc, profile, universe, &branch.body) else {
            drop(found);
            return Err(OutOfMemory);
        };
        let Ok(()) = found.push(branch_at(branch.place, body)) else {
            drop(found);
            return Err(OutOfMemory);
        };
    }
    Ok(found)
}
