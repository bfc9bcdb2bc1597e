//! Ways as they are shown: in the pattern, and not in its tree.

ghost use Rattle.std.specs.Prelude.{◌≡◌, IfOk};
ghost use Rattle.rl_why.specs.Shown.{span_at, reads, origin_at, taken_of, step_of, shown, code_of, are_alike};
ghost use Rattle.rl_why.specs.internal.Sources.{IsSource};

use rl_lists::{Items, OutOfMemory};
use rl_syntax::Span;
use rl_ways::{Decision, Origin, ToldItem};
use std::alloc::Global;

/// What is decided at a node of a tree.
#[derive(Clone, Copy, Debug, PartialEq, Eq)]
pub enum Side {
    /// The first of two: this branch of a choice, one more copy of a repeat (of a lazy one: no more), or no line feed.
    Left,
    /// The second of two: a later branch, no more copies (of a lazy repeat: one more), or the line feed.
    Right,
    /// Another round of a loop.
    Round,
    /// The end of a loop.
    Stop,
}

/// A decision on the way to a place.
#[derive(Clone, Copy, PartialEq, Eq)]
pub struct Taken {
    /// What is decided.
    pub side: Side,
    /// Where it is decided: the choice, the repeat or the loop.
    pub at: Origin,
}

/// How one character is read.
#[derive(Drop)]
pub struct Step {
    /// The decisions before the character, the first one first.
    pub took: Items<Taken>,
    /// What reads the character: a character or class of the pattern, what a search skips, or the line feed before a trailing
    /// `$`.
    pub place: Origin,
}

/// How a text is read: a step for each character.
pub type Way = Items<Step>;

/// Returns the span of an origin in the pattern, in codes from 0. `None` if it is nothing that is written there: what a search
/// skips, the line feed before a trailing `$`, and the decisions on these.
pub fn span_of(origin: Origin) -> Option<Span>
    ensures { result ≡ span_at origin }
{
    match origin {
        Origin::Character(span)
        | Origin::Position(span)
        | Origin::Branch(span, _)
        | Origin::Copy(span, _)
        | Origin::Loop(span, _) => Some(span),
        Origin::Joint | Origin::Skip | Origin::Skipped | Origin::LastLine | Origin::LineFeed =>
            None,
    }
}

/// Where the nodes and the places of a tree come from in the pattern.
#[derive(Drop)]
pub(crate) struct Sources {
    /// The origin of each node, in preorder.
    pub(crate) nodes: Items<Origin>,
    /// The origin of each place, from left to right.
    pub(crate) places: Items<Origin>,
}

/// Returns whether a node with the origin reads a character.
fn is_reader(origin: Origin) -> bool
    ensures { result ≡ reads origin }
{
    match origin {
        Origin::Character(_) | Origin::Skipped | Origin::LineFeed => true,
        Origin::Joint
        | Origin::Position(_)
        | Origin::Branch(..)
        | Origin::Copy(..)
        | Origin::Loop(..)
        | Origin::Skip
        | Origin::LastLine => false,
    }
}

/// Returns where the nodes and places come from, given the origins of the nodes.
pub(crate) fn sources_of(alloc: Global, nodes: Items<Origin>) -> Result<Sources, OutOfMemory>
    ensures { IfOk result (IsSource nodes) }
{
    let mut places = Items::new(alloc);
    let list = nodes.as_slice();
    for origin in list {
        if is_reader(*origin) {
            places.push(*origin)?;
        }
    }
    Ok(Sources { nodes, places })
}

/// Returns the origin with the index in the list, or [`Origin::Joint`] if there is none.
pub(crate) fn origin_of(origins: &[Origin], index: u32) -> Origin
    ensures { result ≡ origin_at origins.now index }
{
    match origins.get(index as usize) {
        Some(origin) => *origin,
        None => Origin::Joint,
    }
}

/// Returns a decision as it is shown.
fn show_decision(nodes: &[Origin], decision: Decision) -> Taken
    ensures { result ≡ taken_of nodes.now decision }
{
    let (side, node) = match decision {
        Decision::Left(node) => (Side::Left, node),
        Decision::Right(node) => (Side::Right, node),
        Decision::Round(node) => (Side::Round, node),
        Decision::Stop(node) => (Side::Stop, node),
    };
    Taken {
        side,
        at: origin_of(nodes, node),
    }
}

/// Returns a told item as it is shown.
fn show_item(alloc: Global, sources: &Sources, item: &ToldItem) -> Result<Step, OutOfMemory>
    requires { IsSource sources.now.nodes sources.now }
    ensures { IfOk result (λ s. s ≡ step_of sources.now.nodes item.now) }
{
    let mut took = Items::new(alloc);
    let nodes = sources.nodes.as_slice();
    let decisions = item.decisions.as_slice();
    for decision in decisions {
        took.push(show_decision(nodes, *decision))?;
    }
    let place = match item.place {
        Some(place) => origin_of(sources.places.as_slice(), place),
        None => Origin::Joint,
    };
    Ok(Step { took, place })
}

/// Returns the number of a side.
fn code_of(side: Side) -> u32
    ensures { result ≡ code_of side }
{
    match side {
        Side::Left => 0,
        Side::Right => 1,
        Side::Round => 2,
        Side::Stop => 3,
    }
}

/// Returns whether the same is decided, decision by decision.
pub(crate) fn are_alike(first: &[Taken], second: &[Taken]) -> bool
    ensures { result ≡ are_alike first.now second.now }
{
    if first.len() != second.len() {
        return false;
    }
    for k in 0..first.len() {
        if code_of(first[k].side) != code_of(second[k].side) {
            return false;
        }
    }
    true
}

/// Returns a way as it is shown.
pub(crate) fn show(alloc: Global, sources: &Sources, way: &[ToldItem]) -> Result<Way, OutOfMemory>
    requires { IsSource sources.now.nodes sources.now }
    ensures { IfOk result (λ l. l ≡ shown sources.now.nodes way.now) }
{
    let mut steps = Items::new(alloc);
    for item in way {
        steps.push(show_item(alloc, sources, item)?)?;
    }
    Ok(steps)
}
