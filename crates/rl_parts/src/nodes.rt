//! The parts of a pattern as objects of JSON.

ghost use Rattle.std.specs.Prelude.{◌≡◌, ◌≢◌, ◌+◌, ◌<◌, suc, IfErr, IfOk, Some, None, map};
ghost use Rattle.serde_json.specs.Data.{Data, array, object, put};
ghost use Rattle.serde_json.specs.View.{view};
ghost use Rattle.rl_ranges.specs.Codes.{has};
ghost use Rattle.rl_syntax.specs.Counting.{branch_tree};
ghost use Rattle.rl_syntax.specs.PatTree.{branches_of, items_of, pat_of};
ghost use Rattle.rl_marks.specs.Marking.{groups_in, groups_in_branches, groups_in_items};
ghost use Rattle.rl_parts.specs.declared.error.TheConstants.{MOST_NUMBERS};
ghost use Rattle.rl_parts.specs.declared.error.PartsError.TheVariants as error;
ghost use Rattle.rl_parts.specs.Members.{list_data};
ghost use Rattle.rl_parts.specs.Nodes as spec;

use crate::error::{MOST_NUMBERS, PartsError};
use crate::letters::set_letters;
use crate::members::{
    part_members, put_flag, put_number, put_optional, put_text, put_value, span_value,
};
use rl_lists::OutOfMemory;
use rl_ranges::{CodeSet, Letters};
use rl_syntax::{AnchorKind, Branch, Pat, Span};
use serde_json::Value;
use std::alloc::Global;

/// The object of a part of a pattern.
#[derive(Drop)]
pub(crate) struct Node {
    /// The object.
    pub(crate) value: Value,
    /// The number that the next group gets.
    pub(crate) next: u32,
}

/// The objects of several parts.
#[derive(Drop)]
struct Nodes {
    /// The objects, as an array in the order of the parts.
    list: Value,
    /// The number that the next group gets.
    next: u32,
}

/// Returns the object of a part that has only its kind and its span.
fn bare_value(alloc: Global, kind: &str, span: Span) -> Result<Value, OutOfMemory>
    ensures { IfOk result (λ v. view v ≡ object (spec.part_members kind.now span)) }
{
    let members = part_members(alloc, kind, span)?;
    Ok(Value::Object(members))
}

/// Returns the object of a part whose parts are the value at the key.
fn list_value(
    alloc: Global,
    kind: &str,
    span: Span,
    key: &str,
    list: Value,
) -> Result<Value, OutOfMemory>
    ensures { IfOk result (λ v. view v
        ≡ object (put key.now (view list) (spec.part_members kind.now span))) }
{
    let mut members = part_members(alloc, kind, span)?;
    put_value(alloc, &mut members, key, list)?;
    Ok(Value::Object(members))
}

/// Returns the object of a set.
fn set_value(
    alloc: Global,
    letters: &Letters,
    span: Span,
    set: &CodeSet,
) -> Result<Value, OutOfMemory>
    ensures { IfOk result (λ v. view v
        ≡ object (spec.set_members letters.now.samples span (has set.now))) }
{
    let numbers = set_letters(alloc, letters, set)?;
    list_value(alloc, "set", span, "letters", numbers)
}

/// The bounds of a repeat, and how its quantifier is written.
#[derive(Clone, Copy)]
struct Quantifier {
    /// The span of the quantifier.
    mark: Span,
    /// The minimum.
    min: u32,
    /// The maximum, or `None` if there is none.
    max: Option<u32>,
    /// Whether it is greedy.
    greedy: bool,
}

/// Returns the object of a repeat with this body.
fn repeat_value(
    alloc: Global,
    span: Span,
    quantifier: Quantifier,
    body: Value,
) -> Result<Value, OutOfMemory>
    ensures { IfOk result (λ v. view v
        ≡ object (spec.repeat_members span quantifier.mark quantifier.min quantifier.max quantifier.greedy (view body))) }
{
    let mark = span_value(alloc, quantifier.mark)?;
    let mut members = part_members(alloc, "repeat", span)?;
    put_number(alloc, &mut members, "min", quantifier.min)?;
    put_optional(alloc, &mut members, "max", quantifier.max)?;
    put_flag(alloc, &mut members, "greedy", quantifier.greedy)?;
    put_value(alloc, &mut members, "mark", mark)?;
    put_value(alloc, &mut members, "body", body)?;
    Ok(Value::Object(members))
}

/// Returns the object of a group with this body. A group without a number doesn't capture.
fn group_value(
    alloc: Global,
    span: Span,
    number: Option<u32>,
    body: Value,
) -> Result<Value, OutOfMemory>
    ensures { IfOk result (λ v. view v ≡ object (spec.group_members span number (view body))) }
{
    let mut members = part_members(alloc, "group", span)?;
    put_flag(alloc, &mut members, "captures", number.is_some())?;
    put_optional(alloc, &mut members, "number", number)?;
    put_value(alloc, &mut members, "body", body)?;
    Ok(Value::Object(members))
}

/// Returns the name of an anchor.
fn anchor_name(kind: AnchorKind) -> &'static str
    ensures { result.now ≡ spec.anchor_name kind }
{
    match kind {
        AnchorKind::Caret => "caret",
        AnchorKind::TextStart => "text-start",
        AnchorKind::Dollar => "dollar",
        AnchorKind::TextEnd => "text-end",
    }
}

/// Returns the object of an anchor.
fn anchor_value(
    alloc: Global,
    span: Span,
    kind: AnchorKind,
    multiline: bool,
) -> Result<Value, OutOfMemory>
    ensures { IfOk result (λ v. view v ≡ object (spec.anchor_members span kind multiline)) }
{
    let mut members = part_members(alloc, "anchor", span)?;
    put_text(alloc, &mut members, "what", anchor_name(kind))?;
    put_flag(alloc, &mut members, "multiline", multiline)?;
    Ok(Value::Object(members))
}

/// Returns the object of a word boundary.
fn boundary_value(
    alloc: Global,
    span: Span,
    negated: bool,
    ascii: bool,
) -> Result<Value, OutOfMemory>
    ensures { IfOk result (λ v. view v ≡ object (spec.boundary_members span negated ascii)) }
{
    let mut members = part_members(alloc, "boundary", span)?;
    put_flag(alloc, &mut members, "negated", negated)?;
    put_flag(alloc, &mut members, "ascii", ascii)?;
    Ok(Value::Object(members))
}

/// Returns the object of a lookaround of one character of the set.
fn look_value(
    alloc: Global,
    letters: &Letters,
    span: Span,
    behind: bool,
    negated: bool,
    set: &CodeSet,
) -> Result<Value, OutOfMemory>
    ensures { IfOk result (λ v. view v
        ≡ object (spec.look_members letters.now.samples span behind negated (has set.now))) }
{
    let numbers = set_letters(alloc, letters, set)?;
    let mut members = part_members(alloc, "look", span)?;
    put_flag(alloc, &mut members, "behind", behind)?;
    put_flag(alloc, &mut members, "negated", negated)?;
    put_value(alloc, &mut members, "letters", numbers)?;
    Ok(Value::Object(members))
}

/// Returns the object of a part of a pattern, whose first group gets this number, and the number that the group after it gets.
///
/// # Errors
/// [`PartsError::Groups`] only if a number exceeds the limit. [`PartsError::OutOfMemory`] if there is not enough memory. There
/// is no other error.
#[cycle(nodes)]
pub(crate) fn node_of(
    alloc: Global,
    letters: &Letters,
    part: &Pat,
    number: u32,
) -> Result<Node, PartsError>
    ensures value { IfOk result (λ r. view r.value ≡ spec.node_data letters.now.samples (pat_of part.now) number) }
    ensures next { IfOk result (λ r. r.next ≡ number + groups_in (pat_of part.now)) }
    ensures letters { IfErr result (λ e. e ≢ error.Letters) }
    ensures groups { IfErr result (λ e. e ≡ error.Groups → MOST_NUMBERS + 1 < number + groups_in (pat_of part.now)) }
{
    match part {
        Pat::Nothing { span } => {
            let value = bare_value(alloc, "nothing", *span)?;
            Ok(Node {
                value,
                next: number,
            })
        }
        Pat::Class { span, set } => {
            let value = set_value(alloc, letters, *span, set)?;
            Ok(Node {
                value,
                next: number,
            })
        }
        Pat::Seq { span, items } => {
            let Nodes { list, next } = item_nodes(alloc, letters, items.as_slice(), number)?;
            let value = list_value(alloc, "sequence", *span, "items", list)?;
            Ok(Node { value, next })
        }
        Pat::Choice { span, branches } => {
            let Nodes { list, next } = branch_nodes(alloc, letters, branches.as_slice(), number)?;
            let value = list_value(alloc, "choice", *span, "branches", list)?;
            Ok(Node { value, next })
        }
        Pat::Repeat {
            span,
            mark,
            min,
            max,
            greedy,
            body,
        } => {
            let Node { value, next } = node_of(alloc, letters, body, number)?;
            let quantifier = Quantifier {
                mark: *mark,
                min: *min,
                max: *max,
                greedy: *greedy,
            };
            let value = repeat_value(alloc, *span, quantifier, value)?;
            Ok(Node { value, next })
        }
        Pat::Group {
            span,
            captures,
            body,
        } => {
            if *captures {
                numbered(alloc, letters, *span, body, number)
            } else {
                let Node { value, next } = node_of(alloc, letters, body, number)?;
                let value = group_value(alloc, *span, None, value)?;
                Ok(Node { value, next })
            }
        }
        Pat::Anchor {
            span,
            kind,
            multiline,
        } => {
            let value = anchor_value(alloc, *span, *kind, *multiline)?;
            Ok(Node {
                value,
                next: number,
            })
        }
        Pat::Boundary {
            span,
            negated,
            ascii,
        } => {
            let value = boundary_value(alloc, *span, *negated, *ascii)?;
            Ok(Node {
                value,
                next: number,
            })
        }
        Pat::Look {
            span,
            behind,
            negated,
            set,
        } => {
            let value = look_value(alloc, letters, *span, *behind, *negated, set)?;
            Ok(Node {
                value,
                next: number,
            })
        }
        Pat::Outside { span, .. } => {
            let value = bare_value(alloc, "outside", *span)?;
            Ok(Node {
                value,
                next: number,
            })
        }
    }
}

/// Returns the object of a capturing group with this number. Fails if the number exceeds the limit.
#[cycle(nodes)]
fn numbered(
    alloc: Global,
    letters: &Letters,
    span: Span,
    body: &Pat,
    number: u32,
) -> Result<Node, PartsError>
    ensures value { IfOk result (λ r. view r.value
        ≡ object (spec.group_members span (Some number) (spec.node_data letters.now.samples (pat_of body.now) (suc number)))) }
    ensures next { IfOk result (λ r. r.next ≡ number + suc (groups_in (pat_of body.now))) }
    ensures letters { IfErr result (λ e. e ≢ error.Letters) }
    ensures groups { IfErr result (λ e. e ≡ error.Groups → MOST_NUMBERS + 1 < number + suc (groups_in (pat_of body.now))) }
{
    if number > MOST_NUMBERS {
        return Err(PartsError::Groups);
    }
    let Node { value, next } = node_of(alloc, letters, body, number + 1)?;
    let value = group_value(alloc, span, Some(number), value)?;
    Ok(Node { value, next })
}

/// Returns the objects of the items of a sequence, whose first group gets this number.
#[cycle(nodes)]
fn item_nodes(
    alloc: Global,
    letters: &Letters,
    items: &[Pat],
    number: u32,
) -> Result<Nodes, PartsError>
    ensures list { IfOk result (λ r. view r.list ≡ list_data (spec.items_data letters.now.samples (items_of (map pat_of items.now)) number)) }
    ensures next { IfOk result (λ r. r.next ≡ number + groups_in_items (items_of (map pat_of items.now))) }
    ensures letters { IfErr result (λ e. e ≢ error.Letters) }
    ensures groups { IfErr result (λ e. e ≡ error.Groups → MOST_NUMBERS + 1 < number + groups_in_items (items_of (map pat_of items.now))) }
{
    let mut values = Vec::new(alloc);
    let mut next = number;
    for item in items {
        let part = node_of(alloc, letters, item, next)?;
        values.push(part.value)?;
        next = part.next;
    }
    Ok(Nodes {
        list: Value::Array(values),
        next,
    })
}

/// Returns the objects of the bodies of the branches of a choice, whose first group gets this number.
#[cycle(nodes)]
fn branch_nodes(
    alloc: Global,
    letters: &Letters,
    branches: &[Branch],
    number: u32,
) -> Result<Nodes, PartsError>
    ensures list { IfOk result (λ r. view r.list ≡ list_data (spec.branches_data letters.now.samples (branches_of (map branch_tree branches.now)) number)) }
    ensures next { IfOk result (λ r. r.next ≡ number + groups_in_branches (branches_of (map branch_tree branches.now))) }
    ensures letters { IfErr result (λ e. e ≢ error.Letters) }
    ensures groups { IfErr result (λ e. e ≡ error.Groups → MOST_NUMBERS + 1 < number + groups_in_branches (branches_of (map branch_tree branches.now))) }
{
    let mut values = Vec::new(alloc);
    let mut next = number;
    for branch in branches {
        let part = node_of(alloc, letters, &branch.body, next)?;
        values.push(part.value)?;
        next = part.next;
    }
    Ok(Nodes {
        list: Value::Array(values),
        next,
    })
}
