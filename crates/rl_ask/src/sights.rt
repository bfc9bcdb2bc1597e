//! What a pattern finds, and limits, as texts. Positions are counted in codes from 0, and numbers are written in decimal.

ghost use Rattle.std.specs.Prelude.{◌≡◌, ◌++◌, ℕ, IfOk, OnOk, Some};
ghost use Rattle.std.specs.String.{string_bytes};
ghost use Rattle.rl_ask.specs.Sights.{group_text, groups_text, last_text, limit_text, match_text, sight_text, span_text, value_text};

use crate::answer::Limit;
use rl_lists::OutOfMemory;
use rl_marks::MOST_GROUPS;
use rl_ranges::MOST_LETTERS;
use rl_spans::Sight;
use rl_syntax::{MOST_MOVES, MOST_NODES};
use std::alloc::Global;

/// Returns a span as a text: `(0, 2)`.
fn span_text(alloc: Global, from: u32, upto: u32) -> Result<String, OutOfMemory>
    ensures { IfOk result (λ text. string_bytes text ≡ span_text (from, upto)) }
{
    Ok(format!(in alloc; "({from}, {upto})")?)
}

/// Returns the value of a group as a text: its span, or `none`.
fn value_text(alloc: Global, value: Option<(u32, u32)>) -> Result<String, OutOfMemory>
    ensures { IfOk result (λ text. string_bytes text ≡ value_text value) }
{
    match value {
        None => Ok(String::from_str(alloc, "none")?),
        Some((from, upto)) => span_text(alloc, from, upto),
    }
}

/// Appends a text.
fn push_text(out: &mut String, text: &str) -> Result<(), OutOfMemory>
    ensures { OnOk result (string_bytes out.new ≡ string_bytes out.old ++ text.now) }
{
    out.push_str(text)?;
    Ok(())
}

/// Appends a group: a space, its number, and its value after `=`.
fn push_group(
    alloc: Global,
    out: &mut String,
    number: usize,
    value: Option<(u32, u32)>,
) -> Result<(), OutOfMemory>
    ensures { OnOk result (string_bytes out.new ≡ string_bytes out.old ++ group_text number value) }
{
    let value = value_text(alloc, value)?;
    let text = format!(in alloc; " {number}={value}")?;
    push_text(out, text.as_str())
}

/// Appends the groups with these values, numbered from 1 on.
fn push_groups(
    alloc: Global,
    out: &mut String,
    values: &[Option<(u32, u32)>],
) -> Result<(), OutOfMemory>
    ensures { OnOk result (string_bytes out.new ≡ string_bytes out.old ++ groups_text 1 values.now) }
{
    for index in 0..values.len() {
        let value = values[index];
        push_group(alloc, out, index + 1, value)?;
    }
    Ok(())
}

/// Appends ` last=` and the number of the group that was closed last, or nothing if no group was closed.
fn push_last(alloc: Global, out: &mut String, last: Option<u32>) -> Result<(), OutOfMemory>
    ensures { OnOk result (string_bytes out.new ≡ string_bytes out.old ++ last_text last) }
{
    match last {
        None => Ok(()),
        Some(number) => {
            let text = format!(in alloc; " last={number}")?;
            push_text(out, text.as_str())
        }
    }
}

/// Returns a match as a text: its span, its groups, and the group that was closed last.
fn match_text(alloc: Global, sight: &Sight) -> Result<String, OutOfMemory>
    ensures { IfOk result (λ text. string_bytes text ≡ match_text sight.now) }
{
    let mut out = span_text(alloc, sight.start, sight.end)?;
    push_groups(alloc, &mut out, sight.groups.as_slice())?;
    push_last(alloc, &mut out, sight.last)?;
    Ok(out)
}

/// Returns what a pattern finds as a text: its match, or `none`.
///
/// # Errors
/// [`OutOfMemory`] if there was no memory for the text.
pub(crate) fn sight_text(alloc: Global, sight: &Option<Sight>) -> Result<String, OutOfMemory>
    ensures { IfOk result (λ text. string_bytes text ≡ sight_text sight.now) }
{
    match sight {
        None => Ok(String::from_str(alloc, "none")?),
        Some(sight) => match_text(alloc, sight),
    }
}

/// Returns a limit that is exceeded as a text, with its number: `size over 4000`.
///
/// # Errors
/// [`OutOfMemory`] if there was no memory for the text.
pub(crate) fn limit_text(alloc: Global, limit: Limit) -> Result<String, OutOfMemory>
    ensures { IfOk result (λ text. string_bytes text ≡ limit_text limit) }
{
    match limit {
        Limit::Size => Ok(format!(in alloc; "size over {MOST_NODES}")?),
        Limit::Letters => Ok(format!(in alloc; "letters over {MOST_LETTERS}")?),
        Limit::Moves => Ok(format!(in alloc; "moves over {MOST_MOVES}")?),
        Limit::Groups => Ok(format!(in alloc; "groups over {MOST_GROUPS}")?),
    }
}
