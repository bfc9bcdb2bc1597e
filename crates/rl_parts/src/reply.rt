//! The reply that gives the parts of a pattern.

ghost use Rattle.std.specs.Prelude.{◌≡◌, ◌<◌, ◌≤◌, IfErr, IfOk, OnOk, false, length};
ghost use Rattle.serde_json.specs.View.{view};
ghost use Rattle.serde_json.specs.Written.{has_float};
ghost use Rattle.rl_ranges.specs.Letters.{classes};
ghost use Rattle.rl_ranges.specs.Text.{code_count};
ghost use Rattle.rl_ranges.specs.declared.letters.TheConstants.{MOST_LETTERS};
ghost use Rattle.rl_syntax.specs.Pattern.{body_of, universe_of};
ghost use Rattle.rl_marks.specs.Marking.{groups_in};
ghost use Rattle.rl_parts.specs.Reply.{IsTreeReply, reply_data, trail_name};
ghost use Rattle.rl_parts.specs.Sets.{sets_in};
ghost use Rattle.rl_parts.specs.declared.error.TheConstants.{MOST_NUMBERS};
ghost use Rattle.rl_parts.specs.declared.error.PartsError.TheVariants as error;

use crate::error::PartsError;
use crate::letters::letters_value;
use crate::members::{put_flag, put_text, put_value};
use crate::nodes::node_of;
use crate::sets::letters_of;
use rl_lists::OutOfMemory;
use rl_syntax::{Pattern, Trail};
use serde_json::{Map, Value};
use std::alloc::Global;

/// Returns the name of the outer anchors at the end of a pattern.
fn trail_name(trailing: Trail) -> &'static str
    ensures { result.now ≡ trail_name trailing }
{
    match trailing {
        Trail::None => "none",
        Trail::Dollar => "dollar",
        Trail::End => "end",
    }
}

/// Returns the reply for a pattern with these letters and this tree.
fn reply_value(
    alloc: Global,
    pattern: &Pattern,
    letters: Value,
    tree: Value,
) -> Result<Value, OutOfMemory>
    ensures { IfOk result (λ v. view v ≡ reply_data pattern.now (view letters) (view tree)) }
{
    let mut members = Map::new(alloc);
    put_text(alloc, &mut members, "answer", "tree")?;
    put_flag(alloc, &mut members, "leading", pattern.leading())?;
    put_text(
        alloc,
        &mut members,
        "trailing",
        trail_name(pattern.trailing()),
    )?;
    put_value(alloc, &mut members, "letters", letters)?;
    put_value(alloc, &mut members, "tree", tree)?;
    Ok(Value::Object(members))
}

/// Returns the parts of a pattern as an object: the letters of its sets, its outer anchors, and the tree of its body.
///
/// # Errors
/// - [`PartsError::Letters`] only if the sets have more than [`MOST_LETTERS`](rl_ranges::MOST_LETTERS) letters.
/// - [`PartsError::Groups`] only if there are more than [`MOST_NUMBERS`](crate::MOST_NUMBERS) capturing groups.
/// - [`PartsError::OutOfMemory`] if there is not enough memory.
pub fn tree_reply(alloc: Global, pattern: &Pattern) -> Result<Value, PartsError>
    ensures reply { IfOk result (λ v. IsTreeReply pattern.now (view v)) }
    ensures no_float { IfOk result (λ v. has_float (view v) ≡ false) }
    ensures few_letters { OnOk result
        (length (classes (sets_in (body_of pattern.now)) (code_count (universe_of pattern.now))) ≤ MOST_LETTERS) }
    ensures few_groups { OnOk result (groups_in (body_of pattern.now) ≤ MOST_NUMBERS) }
    ensures letters { IfErr result (λ e. e ≡ error.Letters
        → MOST_LETTERS < length (classes (sets_in (body_of pattern.now)) (code_count (universe_of pattern.now)))) }
    ensures groups { IfErr result (λ e. e ≡ error.Groups → MOST_NUMBERS < groups_in (body_of pattern.now)) }
{
    let letters = letters_of(alloc, pattern)?;
    let root = node_of(alloc, &letters, pattern.body(), 1)?;
    let samples = letters_value(alloc, &letters)?;
    let value = reply_value(alloc, pattern, samples, root.value)?;
    Ok(value)
}
