//! The string of a family whose heads and pumps are strings of JSON: the first head, copies of the first pump, the next head,
//! and so on up to the last head.

ghost use Rattle.std.specs.Prelude.{◌≡◌, ◌+◌, ◌++◌, ◌≤◌, [], IfErr, IfOk, OnOk, length, map, unwrap_or};
ghost use Rattle.std.specs.Str.{chars};
ghost use Rattle.serde_json.specs.Find.{as_str};
ghost use Rattle.serde_json.specs.View.{items_view, view};
ghost use Rattle.rl_syntax.specs.Family.{copies, family_text};
ghost use Rattle.rl_asked.specs.Values.{texts_of};
ghost use Rattle.rl_ask.specs.Costs.{family_named};
ghost use Rattle.rl_ask.specs.internal.Long.{IsLong};
ghost use Rattle.rl_ask.specs.declared.limits.TheConstants.{MOST_TEXT_CODES};

use crate::codes::codes_of;
use crate::limits::MOST_TEXT_CODES;
use rl_lists::{Codes, OutOfMemory};
use rl_syntax::{Family, Texts};
use serde_json::Value;
use std::alloc::Global;

/// Why a family gives no string.
#[derive(Clone, Copy)]
pub(crate) enum TextError {
    /// The string has more than [`MOST_TEXT_CODES`] codes.
    TooLong,
    /// Out of memory.
    OutOfMemory,
}

impl From<OutOfMemory> for TextError {
    ghost use Rattle.std.specs.Prelude.{◌≡◌};
    ghost use Rattle.rl_ask.specs.declared.family.TextError.TheVariants as error;

    ghost from_gives = { λ _ e. e ≡ error.OutOfMemory };

    fn from(_: OutOfMemory) -> Self {
        TextError::OutOfMemory
    }
}

/// Returns the codes of a string, one for each character. A value that is no string has none.
fn codes_in(alloc: Global, value: &Value) -> Result<Codes, OutOfMemory>
    ensures { IfOk result (λ codes. codes ≡ chars (unwrap_or (as_str (view value.now)) [])) }
{
    match value.as_str() {
        Some(text) => codes_of(alloc, text),
        None => Ok(Codes::new(alloc)),
    }
}

/// Returns the codes of each string.
fn texts_in(alloc: Global, values: &[Value]) -> Result<Texts, OutOfMemory>
    ensures { IfOk result (λ texts. texts ≡ map chars (texts_of (items_view values.now))) }
{
    let mut texts = Texts::new(alloc);
    for index in 0..values.len() {
        let codes = codes_in(alloc, &values[index])?;
        texts.push(codes)?;
    }
    Ok(texts)
}

/// Returns the family with these heads and pumps.
fn family_in(alloc: Global, heads: &[Value], pumps: &[Value]) -> Result<Family, OutOfMemory>
    ensures heads { IfOk result (λ f. f.heads ≡ map chars (texts_of (items_view heads.now))) }
    ensures pumps { IfOk result (λ f. f.pumps ≡ map chars (texts_of (items_view pumps.now))) }
{
    let heads = texts_in(alloc, heads)?;
    let pumps = texts_in(alloc, pumps)?;
    Ok(Family { heads, pumps })
}

/// Appends the codes of a part.
fn push_codes(text: &mut Vec<u32>, part: &Codes) -> Result<(), OutOfMemory>
    ensures { OnOk result (text.new.items ≡ text.old.items ++ part.now) }
{
    text.extend_from_slice(part.as_slice())?;
    Ok(())
}

/// Appends a part of a string.
///
/// # Errors
/// [`TextError::TooLong`] if there are more than [`MOST_TEXT_CODES`] codes then.
fn push_part(text: &mut Vec<u32>, part: &Codes) -> Result<(), TextError>
    ensures whole { OnOk result (text.new.items ≡ text.old.items ++ part.now) }
    ensures within { OnOk result (length text.new.items ≤ MOST_TEXT_CODES) }
    ensures long { IfErr result (λ e. IsLong e (text.old.items ++ part.now)) }
{
    push_codes(text, part)?;
    if text.len() > MOST_TEXT_CODES {
        return Err(TextError::TooLong);
    }
    Ok(())
}

/// Appends copies of a part of a string. It stops as soon as there are too many codes, however many copies are left.
///
/// # Errors
/// [`TextError::TooLong`] if all copies make more than [`MOST_TEXT_CODES`] codes.
fn push_copies(text: &mut Vec<u32>, part: &Codes, count: u32) -> Result<(), TextError>
    requires within { length text.old.items ≤ MOST_TEXT_CODES }
    ensures whole { OnOk result (text.new.items ≡ text.old.items ++ copies count part.now) }
    ensures within { OnOk result (length text.new.items ≤ MOST_TEXT_CODES) }
    ensures long { IfErr result (λ e. IsLong e (text.old.items ++ copies count part.now)) }
{
    if part.is_empty() {
        return Ok(());
    }
    for _ in 0..count {
        push_part(text, part)?;
    }
    Ok(())
}

/// Returns the string of a family for the number `k`.
///
/// # Errors
/// [`TextError::TooLong`] if it has more than [`MOST_TEXT_CODES`] codes.
fn string_of(alloc: Global, family: &Family, k: u32) -> Result<Codes, TextError>
    requires { length family.now.heads ≡ length family.now.pumps + 1 }
    ensures text { IfOk result (λ text. text ≡ family_text family.now k) }
    ensures within { IfOk result (λ text. length text ≤ MOST_TEXT_CODES) }
    ensures long { IfErr result (λ e. IsLong e (family_text family.now k)) }
{
    let (heads, pumps) = (family.heads.as_slice(), family.pumps.as_slice());
    let mut text = Vec::new(alloc);
    for index in 0..pumps.len() {
        push_part(&mut text, &heads[index])?;
        push_copies(&mut text, &pumps[index], k)?;
    }
    push_part(&mut text, &heads[pumps.len()])?;
    Ok(Codes::from_vec(text))
}

/// Returns the string of the family with these heads and pumps for the number `k`.
///
/// # Errors
/// [`TextError::TooLong`] if it has more than [`MOST_TEXT_CODES`] codes, [`TextError::OutOfMemory`] if there was no memory for
/// it.
pub(crate) fn text_for(
    alloc: Global,
    heads: &[Value],
    pumps: &[Value],
    k: u32,
) -> Result<Codes, TextError>
    requires { length (texts_of (items_view heads.now)) ≡ length (texts_of (items_view pumps.now)) + 1 }
    ensures text { IfOk result (λ text. text ≡ family_text (family_named (texts_of (items_view heads.now)) (texts_of (items_view pumps.now))) k) }
    ensures within { IfOk result (λ text. length text ≤ MOST_TEXT_CODES) }
    ensures long { IfErr result (λ e. IsLong e (family_text (family_named (texts_of (items_view heads.now)) (texts_of (items_view pumps.now))) k)) }
{
    let family = family_in(alloc, heads, pumps)?;
    let text = string_of(alloc, &family, k);
    drop(family);
    text
}
