//! Removing the outer anchors of a pattern: in a pattern with only one branch, the leading ones at its start, `\A` or `^`, and
//! the trailing ones at its end, `\Z` or `$`. `^` and `$` are among them only where MULTILINE isn't in force.

ghost use Rattle.std.specs.Prelude.{◌≡◌, List, [], ◌∷◌, map, reverse, Some, IfOk};
ghost use Rattle.rl_pattern.specs.internal.Views.{node_of, branch_of, whole_of};
ghost use Rattle.rl_pattern.specs.internal.Judged.{left_of, trail_at, without_leading, without_trailing, both_trails as anchor_of_both};
ghost use Rattle.rl_pattern.specs.Tree as t;
ghost use Rattle.rl_pattern.specs.Found as f;

use crate::base::branch;
use crate::tree::{Assertion, Branch, SyntaxNode, Whole};
use rl_lists::{Items, OutOfMemory};
use rl_syntax::{Span, Trail};
use std::alloc::Global;

/// A pattern without its outer anchors.
#[derive(Drop)]
pub(crate) struct Inner {
    /// What is left of the body. Its spans are those of the pattern as written.
    pub(crate) body: SyntaxNode,
    /// Whether there was a leading anchor.
    pub(crate) leading: bool,
    /// The trailing anchor that the trailing anchors amount to, or `Trail::None` if there were none.
    pub(crate) trailing: Trail,
}

/// Whether the node is an anchor that can be a leading one.
fn is_leading(node: &SyntaxNode) -> bool
    ensures { result ≡ f.is_leading (node_of node.now) }
{
    match node {
        SyntaxNode::Assertion(_, flags, mark) => match mark {
            Assertion::TextStart => true,
            Assertion::Caret => !flags.multiline,
            Assertion::Dollar | Assertion::TextEnd | Assertion::Boundary(_) => false,
        },
        SyntaxNode::Leaf(_, _, _)
        | SyntaxNode::Repeat(_, _, _, _, _)
        | SyntaxNode::Group(_, _, _)
        | SyntaxNode::Nothing(_)
        | SyntaxNode::Seq(_, _)
        | SyntaxNode::Choice(_, _) => false,
    }
}

/// Returns the trailing anchor that the node is, or `Trail::None` if it is none.
fn trail_of(node: &SyntaxNode) -> Trail
    ensures { result ≡ f.trail_of (node_of node.now) }
{
    match node {
        SyntaxNode::Assertion(_, flags, mark) => match mark {
            Assertion::TextEnd => Trail::End,
            Assertion::Dollar => {
                if flags.multiline {
                    Trail::None
                } else {
                    Trail::Dollar
                }
            }
            Assertion::TextStart | Assertion::Caret | Assertion::Boundary(_) => Trail::None,
        },
        SyntaxNode::Leaf(_, _, _)
        | SyntaxNode::Repeat(_, _, _, _, _)
        | SyntaxNode::Group(_, _, _)
        | SyntaxNode::Nothing(_)
        | SyntaxNode::Seq(_, _)
        | SyntaxNode::Choice(_, _) => Trail::None,
    }
}

/// Returns the trailing anchor that two of them amount to: `\Z` if one of them is `\Z`, `$` if one is `$` and none is `\Z`.
fn both_trails(first: Trail, second: Trail) -> Trail
    ensures { result ≡ anchor_of_both first second }
{
    match first {
        Trail::End => Trail::End,
        Trail::None => second,
        Trail::Dollar => match second {
            Trail::End => Trail::End,
            Trail::None | Trail::Dollar => Trail::Dollar,
        },
    }
}

/// Whether the first item is an anchor that can be a leading one.
fn begins_leading(items: &[SyntaxNode]) -> bool
    ensures { result ≡ f.begins_leading (map node_of items.now) }
{
    match items.first() {
        None => false,
        Some(node) => is_leading(node),
    }
}

/// Whether the last item is an anchor that can be a leading one.
fn ends_leading(items: &[SyntaxNode]) -> bool
    ensures { result ≡ f.begins_leading (reverse (map node_of items.now)) }
{
    match items.last() {
        None => false,
        Some(node) => is_leading(node),
    }
}

/// Returns the trailing anchor that the last item is, or `Trail::None` if it is none or there are no items.
fn last_trail(items: &[SyntaxNode]) -> Trail
    ensures { result ≡ trail_at (reverse (map node_of items.now)) }
{
    match items.last() {
        None => Trail::None,
        Some(node) => trail_of(node),
    }
}

/// Removes the longest run of leading anchors from items in reverse order, in which the run is at the end.
fn take_from_back(items: &mut Vec<SyntaxNode>)
    ensures { reverse (map node_of items.new.items) ≡ without_leading (reverse (map node_of items.old.items)) }
{
    while ends_leading(items.as_slice()) {
        drop(items.pop());
    }
}

/// Removes the longest run of leading anchors from the start of the items.
fn take_leading(items: &mut Vec<SyntaxNode>)
    ensures { map node_of items.new.items ≡ without_leading (map node_of items.old.items) }
{
    items.reverse();
    take_from_back(items);
    items.reverse();
}

/// Removes the longest run of trailing anchors from the end of the items, and returns the trailing anchor that the run amounts
/// to.
fn take_trailing(items: &mut Vec<SyntaxNode>) -> Trail
    ensures rest { reverse (map node_of items.new.items) ≡ without_trailing (reverse (map node_of items.old.items)) }
    ensures run { result ≡ f.trailing_run (reverse (map node_of items.old.items)) }
{
    let mut run = Trail::None;
    let mut last = last_trail(items.as_slice());
    while last != Trail::None {
        drop(items.pop());
        run = both_trails(run, last);
        last = last_trail(items.as_slice());
    }
    run
}

/// Removes the outer anchors from a branch with these items.
fn inner_branch(place: Span, mut items: Vec<SyntaxNode>) -> Inner
    ensures { left_of result ≡ f.inner_of place (t.nothing place) (Some (map node_of items.items)) }
{
    let leading = begins_leading(items.as_slice());
    take_leading(&mut items);
    let trailing = take_trailing(&mut items);
    let Branch { place: _, body } = branch(place, Items::from_vec(items));
    Inner {
        body,
        leading,
        trailing,
    }
}

/// Removes the outer anchors from a whole pattern. A body with several branches stays as it is.
///
/// # Errors
/// [`OutOfMemory`] if there is no memory for a branch.
pub(crate) fn without_anchors(alloc: Global, whole: Whole) -> Result<Inner, OutOfMemory>
    ensures { IfOk result (λ i. left_of i ≡ f.inner (whole_of whole)) }
{
    let Whole {
        fronts: _,
        place,
        body,
    } = whole;
    match body {
        SyntaxNode::Choice(_, _) => Ok(Inner {
            body,
            leading: false,
            trailing: Trail::None,
        }),
        SyntaxNode::Nothing(_) => Ok(inner_branch(place, Vec::new(alloc))),
        SyntaxNode::Seq(_, items) => Ok(inner_branch(place, items.into_vec())),
        item => one_inner(alloc, place, item),
    }
}

/// Removes the outer anchors from a branch of one item.
fn one_inner(alloc: Global, place: Span, item: SyntaxNode) -> Result<Inner, OutOfMemory>
    ensures { IfOk result (λ i. left_of i ≡ f.inner_of place (node_of item) (Some (node_of item ∷ []))) }
{
    let mut items = Vec::new(alloc);
    items.push(item)?;
    Ok(inner_branch(place, items))
}
