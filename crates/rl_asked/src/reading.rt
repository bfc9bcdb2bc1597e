//! Questions from values of JSON. Each function that reads a key returns the mistake if the key is missing where it is needed,
//! or has a value that it doesn't take.

ghost use Rattle.std.specs.Prelude.{◌≡◌, ◌+◌, ◌≤◌, IfOk, codes, false, length, true};
ghost use Rattle.std.specs.Result.{result_map_both};
ghost use Rattle.std.specs.Str.{chars};
ghost use Rattle.serde_json.specs.Find.{as_bool, as_str, get};
ghost use Rattle.serde_json.specs.View.{items_view, view};
ghost use Rattle.rl_ranges.specs.Text.{IsText};
ghost use Rattle.rl_ranges.specs.declared.universe.Universe.TheVariants.{Str};
ghost use Rattle.rl_marks.specs.declared.asked.How.TheVariants.{Match};
ghost use Rattle.rl_pattern.specs.Codes.{no_flags};
ghost use Rattle.rl_asked.specs.Questions.{AreTexts, IsAskable, IsBetween, asked, message_of};
ghost use Rattle.rl_asked.specs.Reading.{ask_read, class_read, compare_read, cost_read, family_read, found_read, limit_read, mode_read, needed, optional, pairs_read, pumps_read, question_read, spans_read, suggest_read, terms_read, there, tree_read, ways_read};
ghost use Rattle.rl_asked.specs.Values.{bytes_in, flags_in, from_in, has_pumps, how_in, number_in, text_in, texts_in, texts_of};

use crate::keys::{first_unknown, form_of};
use crate::limits::{
    LEAST_LIMIT, MOST_COMPARE_LIMIT, MOST_PAIRS, MOST_SPANS_LIMIT, USUAL_COMPARE_LIMIT,
    USUAL_PAIRS, USUAL_SPANS_LIMIT,
};
use crate::mistake::Mistake;
use crate::question::{Question, Terms};
use crate::values::{
    ask_in, bytes_in, flags_in, from_in, how_in, mode_in, number_in, text_in, texts_in,
};
use crate::words::Ask;
use rl_marks::How;
use rl_pattern::Flags;
use rl_syntax::{Mode, Universe};
use serde_json::Value;

/// No flag.
const NO_FLAGS: Flags = Flags {
    ignore_case: false,
    multiline: false,
    dot_all: false,
    verbose: false,
    ascii: false,
    unicode: false,
    locale: false,
};

/// Returns the value at the key.
fn value_at<'v>(value: &'v Value, key: &'static str) -> Result<&'v Value, Mistake<'v>>
    ensures { result_map_both (λ v. view v.now) message_of result ≡ there key.now (get key.now (view value.entry.now)) }
{
    value.get(key).ok_or(Mistake::MissingKey(key))
}

/// Returns the string at the key.
fn string_at<'v>(value: &'v Value, key: &'static str) -> Result<&'v str, Mistake<'v>>
    ensures { result_map_both (λ t. t.now) message_of result ≡ needed key.now as_str (view value.entry.now) }
{
    value_at(value, key)?
        .as_str()
        .ok_or(Mistake::WrongValue(key))
}

/// Returns the string at the key, whose characters must be codes of the universe.
fn text_at<'v>(
    value: &'v Value,
    key: &'static str,
    universe: Universe,
) -> Result<&'v str, Mistake<'v>>
    ensures value { result_map_both (λ t. t.now) message_of result ≡ needed key.now (text_in universe) (view value.entry.now) }
    ensures text { IfOk result (λ t. IsText universe (chars t.now)) }
{
    text_in(value_at(value, key)?, universe).ok_or(Mistake::WrongValue(key))
}

/// Returns the list of strings at the key, whose characters must be codes of the universe.
fn texts_at<'v>(
    value: &'v Value,
    key: &'static str,
    universe: Universe,
) -> Result<&'v [Value], Mistake<'v>>
    ensures value { result_map_both (λ vs. items_view vs.now) message_of result ≡ needed key.now (texts_in universe) (view value.entry.now) }
    ensures texts { IfOk result (λ vs. AreTexts universe (texts_of (items_view vs.now))) }
{
    texts_in(value_at(value, key)?, universe).ok_or(Mistake::WrongValue(key))
}

/// Returns the truth value at the key, or the usual one if there is none.
fn flag_at<'v>(value: &'v Value, key: &'static str, usual: bool) -> Result<bool, Mistake<'v>>
    ensures { result_map_both (λ x. x) message_of result ≡ optional key.now as_bool usual (view value.entry.now) }
{
    match value.get(key) {
        Some(flag) => flag.as_bool().ok_or(Mistake::WrongValue(key)),
        None => Ok(usual),
    }
}

/// Returns the limit at the key, or the usual one if there is none.
fn limit_at<'v>(
    value: &'v Value,
    key: &'static str,
    most: u32,
    usual: u32,
) -> Result<u32, Mistake<'v>>
    requires { IsBetween LEAST_LIMIT most usual }
    ensures value { result_map_both (λ x. x) message_of result ≡ limit_read key.now most usual (view value.entry.now) }
    ensures range { IfOk result (IsBetween LEAST_LIMIT most) }
{
    match value.get(key) {
        Some(limit) => number_in(limit, LEAST_LIMIT, most).ok_or(Mistake::WrongValue(key)),
        None => Ok(usual),
    }
}

/// Returns the limit on pairs at the key `pairs`, or the usual one.
fn pairs_at<'v>(value: &'v Value) -> Result<u32, Mistake<'v>>
    ensures value { result_map_both (λ x. x) message_of result ≡ pairs_read (view value.entry.now) }
    ensures range { IfOk result (IsBetween LEAST_LIMIT MOST_PAIRS) }
{
    limit_at(value, "pairs", MOST_PAIRS, USUAL_PAIRS)
}

/// Returns the mode at the key `mode`, or `search`.
fn mode_at<'v>(value: &'v Value) -> Result<Mode, Mistake<'v>>
    ensures { result_map_both (λ x. x) message_of result ≡ mode_read (view value.entry.now) }
{
    match value.get("mode") {
        Some(mode) => mode_in(mode).ok_or(Mistake::WrongValue("mode")),
        None => Ok(Mode::Search),
    }
}

/// Returns how a question about spans asks, by the key `mode`.
fn how_at<'v>(value: &'v Value) -> Result<How, Mistake<'v>>
    ensures { result_map_both (λ x. x) message_of result ≡ optional (codes "mode") how_in Match (view value.entry.now) }
{
    match value.get("mode") {
        Some(mode) => how_in(mode).ok_or(Mistake::WrongValue("mode")),
        None => Ok(How::Match),
    }
}

/// Returns the flags at the key `flags`, or none.
fn flags_at<'v>(value: &'v Value) -> Result<Flags, Mistake<'v>>
    ensures { result_map_both (λ x. x) message_of result ≡ optional (codes "flags") flags_in no_flags (view value.entry.now) }
{
    match value.get("flags") {
        Some(flags) => flags_in(flags).ok_or(Mistake::WrongValue("flags")),
        None => Ok(NO_FLAGS),
    }
}

/// Returns the universe by the key `bytes`, or that of text patterns.
fn universe_at<'v>(value: &'v Value) -> Result<Universe, Mistake<'v>>
    ensures { result_map_both (λ x. x) message_of result ≡ optional (codes "bytes") bytes_in Str (view value.entry.now) }
{
    match value.get("bytes") {
        Some(bytes) => bytes_in(bytes).ok_or(Mistake::WrongValue("bytes")),
        None => Ok(Universe::Str),
    }
}

/// Returns how the patterns are read.
fn terms_at<'v>(value: &'v Value) -> Result<Terms, Mistake<'v>>
    ensures { result_map_both (λ x. x) message_of result ≡ terms_read (view value.entry.now) }
{
    let flags = flags_at(value)?;
    let universe = universe_at(value)?;
    Ok(Terms { flags, universe })
}

/// Returns the position in the text at the key `from`, or 0.
fn from_at<'v>(value: &'v Value, text: &str) -> Result<usize, Mistake<'v>>
    ensures value { result_map_both (λ x. x) message_of result ≡ optional (codes "from") (from_in text.now) 0 (view value.entry.now) }
    ensures range { IfOk result (λ n. n ≤ length (chars text.now)) }
{
    match value.get("from") {
        Some(from) => from_in(from, text).ok_or(Mistake::WrongValue("from")),
        None => Ok(0),
    }
}

/// Reads a question `class`.
fn class_of<'v>(value: &'v Value) -> Result<Question<'v>, Mistake<'v>>
    ensures question { result_map_both asked message_of result ≡ class_read (view value.entry.now) }
    ensures limits { IfOk result (λ q. IsAskable (asked q)) }
{
    let pattern = string_at(value, "pattern")?;
    let terms = terms_at(value)?;
    let mode = mode_at(value)?;
    let pairs = pairs_at(value)?;
    Ok(Question::Class {
        pattern,
        terms,
        mode,
        pairs,
    })
}

/// Reads a question `ways`.
fn ways_of<'v>(value: &'v Value) -> Result<Question<'v>, Mistake<'v>>
    ensures question { result_map_both asked message_of result ≡ ways_read (view value.entry.now) }
    ensures limits { IfOk result (λ q. IsAskable (asked q)) }
{
    let pattern = string_at(value, "pattern")?;
    let terms = terms_at(value)?;
    let mode = mode_at(value)?;
    let pairs = pairs_at(value)?;
    Ok(Question::Ways {
        pattern,
        terms,
        mode,
        pairs,
    })
}

/// Reads a question `tree`.
fn tree_of<'v>(value: &'v Value) -> Result<Question<'v>, Mistake<'v>>
    ensures question { result_map_both asked message_of result ≡ tree_read (view value.entry.now) }
    ensures limits { IfOk result (λ q. IsAskable (asked q)) }
{
    let pattern = string_at(value, "pattern")?;
    let terms = terms_at(value)?;
    Ok(Question::Tree { pattern, terms })
}

/// Reads a question `compare`.
fn compare_of<'v>(value: &'v Value) -> Result<Question<'v>, Mistake<'v>>
    ensures question { result_map_both asked message_of result ≡ compare_read (view value.entry.now) }
    ensures limits { IfOk result (λ q. IsAskable (asked q)) }
{
    let first = string_at(value, "first")?;
    let second = string_at(value, "second")?;
    let terms = terms_at(value)?;
    let mode = mode_at(value)?;
    let limit = limit_at(value, "limit", MOST_COMPARE_LIMIT, USUAL_COMPARE_LIMIT)?;
    Ok(Question::Compare {
        first,
        second,
        terms,
        mode,
        limit,
    })
}

/// Reads a question `spans`.
fn spans_of<'v>(value: &'v Value) -> Result<Question<'v>, Mistake<'v>>
    ensures question { result_map_both asked message_of result ≡ spans_read (view value.entry.now) }
    ensures limits { IfOk result (λ q. IsAskable (asked q)) }
{
    let first = string_at(value, "first")?;
    let second = string_at(value, "second")?;
    let terms = terms_at(value)?;
    let how = how_at(value)?;
    let limit = limit_at(value, "limit", MOST_SPANS_LIMIT, USUAL_SPANS_LIMIT)?;
    let groups = flag_at(value, "groups", true)?;
    Ok(Question::Spans {
        first,
        second,
        terms,
        how,
        limit,
        groups,
    })
}

/// Reads a question `found`.
fn found_of<'v>(value: &'v Value) -> Result<Question<'v>, Mistake<'v>>
    ensures question { result_map_both asked message_of result ≡ found_read (view value.entry.now) }
    ensures limits { IfOk result (λ q. IsAskable (asked q)) }
{
    let pattern = string_at(value, "pattern")?;
    let terms = terms_at(value)?;
    let mode = mode_at(value)?;
    let text = text_at(value, "text", terms.universe)?;
    let from = from_at(value, text)?;
    let advance = flag_at(value, "advance", false)?;
    Ok(Question::Found {
        pattern,
        terms,
        mode,
        text,
        from,
        advance,
    })
}

/// Reads a question `suggest`.
fn suggest_of<'v>(value: &'v Value) -> Result<Question<'v>, Mistake<'v>>
    ensures question { result_map_both asked message_of result ≡ suggest_read (view value.entry.now) }
    ensures limits { IfOk result (λ q. IsAskable (asked q)) }
{
    let pattern = string_at(value, "pattern")?;
    let terms = terms_at(value)?;
    let pairs = pairs_at(value)?;
    Ok(Question::Suggest {
        pattern,
        terms,
        pairs,
    })
}

/// Reads a question `cost` about one text.
fn cost_of<'v>(value: &'v Value) -> Result<Question<'v>, Mistake<'v>>
    ensures question { result_map_both asked message_of result ≡ cost_read (view value.entry.now) }
    ensures limits { IfOk result (λ q. IsAskable (asked q)) }
{
    let pattern = string_at(value, "pattern")?;
    let terms = terms_at(value)?;
    let mode = mode_at(value)?;
    let text = text_at(value, "text", terms.universe)?;
    Ok(Question::Cost {
        pattern,
        terms,
        mode,
        text,
    })
}

/// Returns the number of rounds at the key `k`.
fn rounds_at<'v>(value: &'v Value) -> Result<u32, Mistake<'v>>
    ensures { result_map_both (λ x. x) message_of result ≡ needed (codes "k") (number_in 0 4294967295) (view value.entry.now) }
{
    number_in(value_at(value, "k")?, 0, u32::MAX).ok_or(Mistake::WrongValue("k"))
}

/// Returns whether there is one pump less than heads, by their numbers.
fn is_one_less(pumps: usize, heads: usize) -> bool
    ensures yes { result ≡ true → pumps + 1 ≡ heads }
    ensures no { result ≡ false → pumps + 1 ≡ heads → ⊥ }
{
    heads > 0 && pumps == heads - 1
}

/// Returns whether there is one pump less than heads.
fn has_pumps(heads: &[Value], pumps: &[Value]) -> bool
    ensures { result ≡ has_pumps (items_view heads.now) (items_view pumps.now) }
{
    is_one_less(pumps.len(), heads.len())
}

/// Returns the pumps of a family with these heads, by the key `pumps`. There must be one less of them than of heads.
fn pumps_at<'v>(
    value: &'v Value,
    universe: Universe,
    heads: &[Value],
) -> Result<&'v [Value], Mistake<'v>>
    ensures value { result_map_both (λ vs. items_view vs.now) message_of result ≡ pumps_read universe (items_view heads.now) (view value.entry.now) }
    ensures texts { IfOk result (λ vs. AreTexts universe (texts_of (items_view vs.now))) }
    ensures count { IfOk result (λ vs. has_pumps (items_view heads.now) (items_view vs.now) ≡ true) }
{
    let pumps = texts_at(value, "pumps", universe)?;
    if has_pumps(heads, pumps) {
        Ok(pumps)
    } else {
        Err(Mistake::WrongValue("pumps"))
    }
}

/// Reads a question `cost` about a string of a family.
#[tactic(auto, using(crate::proofs::ValueLemmas::passed))]
fn family_of<'v>(value: &'v Value) -> Result<Question<'v>, Mistake<'v>>
    ensures question { result_map_both asked message_of result ≡ family_read (view value.entry.now) }
    ensures limits { IfOk result (λ q. IsAskable (asked q)) }
{
    let pattern = string_at(value, "pattern")?;
    let terms = terms_at(value)?;
    let mode = mode_at(value)?;
    let heads = texts_at(value, "heads", terms.universe)?;
    let pumps = pumps_at(value, terms.universe, heads)?;
    let k = rounds_at(value)?;
    Ok(Question::CostOfFamily {
        pattern,
        terms,
        mode,
        heads,
        pumps,
        k,
    })
}

/// Returns the kind of question that an object asks, if it has only keys that this kind takes.
fn ask_at<'v>(value: &'v Value) -> Result<Ask, Mistake<'v>>
    ensures { result_map_both (λ x. x) message_of result ≡ ask_read (view value.entry.now) }
{
    let Some(members) = value.as_object() else {
        return Err(Mistake::NoObject);
    };
    let ask = ask_in(value_at(value, "ask")?).ok_or(Mistake::WrongValue("ask"))?;
    let ask = form_of(ask, value);
    match first_unknown(ask, members) {
        Some(key) => Err(Mistake::UnknownKey(key)),
        None => Ok(ask),
    }
}

/// Returns the question that a value asks.
///
/// # Errors
/// [`Mistake`] for the first mistake: the value is no object; its key `ask` is missing or names no kind of question; it has a
/// key that this kind doesn't take, of which the first in order is named; or a key that it takes is missing or has a wrong
/// value.
pub fn question_of<'v>(value: &'v Value) -> Result<Question<'v>, Mistake<'v>>
    ensures question { result_map_both asked message_of result ≡ question_read (view value.entry.now) }
    ensures limits { IfOk result (λ q. IsAskable (asked q)) }
{
    match ask_at(value)? {
        Ask::Class => class_of(value),
        Ask::Ways => ways_of(value),
        Ask::Tree => tree_of(value),
        Ask::Compare => compare_of(value),
        Ask::Spans => spans_of(value),
        Ask::Found => found_of(value),
        Ask::Suggest => suggest_of(value),
        Ask::Cost => cost_of(value),
        Ask::CostOfFamily => family_of(value),
        Ask::Version => Ok(Question::Version),
    }
}
