//! What the values of a question's keys stand for. Each function returns `None` for a value that its key doesn't take.

ghost use Rattle.std.specs.Prelude.{◌≡◌, ◌≤◌, IfSome, length, nat_lt, option_map, true};
ghost use Rattle.std.specs.List.{list_all};
ghost use Rattle.std.specs.Str.{chars};
ghost use Rattle.serde_json.specs.View.{items_view, view};
ghost use Rattle.rl_ranges.specs.Text.{IsText};
ghost use Rattle.rl_asked.specs.Questions.{AreTexts, IsBetween};
ghost use Rattle.rl_asked.specs.Values.{are_texts, ask_in, bytes_in, flags_in, from_in, how_in, is_text_of, is_text_value, mode_in, number_in, text_in, texts_in, texts_of};

use crate::words::{Ask, ask_of, flags_of, how_of, mode_of, universe_of};
use rl_marks::How;
use rl_pattern::Flags;
use rl_syntax::{Mode, Universe};
use serde_json::Value;

/// Returns the kind of question that the value names.
pub(crate) fn ask_in(value: &Value) -> Option<Ask>
    ensures { result ≡ ask_in (view value.now) }
{
    ask_of(value.as_str()?)
}

/// Returns the mode that the value names.
pub(crate) fn mode_in(value: &Value) -> Option<Mode>
    ensures { result ≡ mode_in (view value.now) }
{
    mode_of(value.as_str()?)
}

/// Returns how a question about spans asks, as the value names it.
pub(crate) fn how_in(value: &Value) -> Option<How>
    ensures { result ≡ how_in (view value.now) }
{
    how_of(value.as_str()?)
}

/// Returns the flags whose letters the value has.
pub(crate) fn flags_in(value: &Value) -> Option<Flags>
    ensures { result ≡ flags_in (view value.now) }
{
    flags_of(value.as_str()?)
}

/// Returns the universe of bytes patterns if the value is true, and that of text patterns if it is false.
pub(crate) fn bytes_in(value: &Value) -> Option<Universe>
    ensures { result ≡ bytes_in (view value.now) }
{
    Some(universe_of(value.as_bool()?))
}

/// Returns the number that the value is, if it is a whole number from `least` to `most`.
pub(crate) fn number_in(value: &Value, least: u32, most: u32) -> Option<u32>
    ensures value { result ≡ number_in least most (view value.now) }
    ensures range { IfSome result (IsBetween least most) }
{
    let number = value.as_u64()?;
    if u64::from(least) <= number && number <= u64::from(most) {
        Some(number as u32)
    } else {
        None
    }
}

/// Returns whether each character of the text is below the count.
fn are_below(count: u32, text: &str) -> bool
    ensures { result ≡ list_all (λ c. nat_lt c count) (chars text.now) }
{
    text.chars().all(|code| (code as u32) < count)
}

/// Returns whether each character of the text is a code of the universe.
fn is_text_of(universe: Universe, text: &str) -> bool
    ensures value { result ≡ is_text_of universe text.now }
    ensures text { result ≡ true → IsText universe (chars text.now) }
{
    are_below(universe.count(), text)
}

/// Returns the text that the value is, if it is a string of codes of the universe.
pub(crate) fn text_in<'v>(value: &'v Value, universe: Universe) -> Option<&'v str>
    ensures value { option_map (λ t. t.now) result ≡ text_in universe (view value.entry.now) }
    ensures text { IfSome result (λ t. IsText universe (chars t.now)) }
{
    let text = value.as_str()?;
    if is_text_of(universe, text) {
        Some(text)
    } else {
        None
    }
}

/// Returns whether the value is a string of codes of the universe.
fn is_text_value(universe: Universe, value: &Value) -> bool
    ensures { result ≡ is_text_value universe (view value.now) }
{
    match value.as_str() {
        Some(text) => is_text_of(universe, text),
        None => false,
    }
}

/// Returns whether each value is a string of codes of the universe.
fn are_texts(universe: Universe, values: &[Value]) -> bool
    ensures { result ≡ are_texts universe (items_view values.now) }
{
    values.iter().all(|value| is_text_value(universe, value))
}

/// Returns the texts that the value lists, if it is a list of strings of codes of the universe.
#[tactic(auto, using(crate::proofs::ValueLemmas::passed))]
pub(crate) fn texts_in<'v>(value: &'v Value, universe: Universe) -> Option<&'v [Value]>
    ensures value { option_map (λ vs. items_view vs.now) result ≡ texts_in universe (view value.entry.now) }
    ensures texts { IfSome result (λ vs. AreTexts universe (texts_of (items_view vs.now))) }
{
    let values = value.as_array()?;
    if are_texts(universe, values.as_slice()) {
        Some(values.as_slice())
    } else {
        None
    }
}

/// Returns the number of characters of a text.
fn characters(text: &str) -> usize
    ensures { result ≡ length (chars text.now) }
{
    text.chars().count()
}

/// Returns the position that the value is, if it is a whole number of at most the length of the text.
pub(crate) fn from_in(value: &Value, text: &str) -> Option<usize>
    ensures value { result ≡ from_in text.now (view value.now) }
    ensures range { IfSome result (λ n. n ≤ length (chars text.now)) }
{
    let number = value.as_u64()?;
    if number <= characters(text) as u64 {
        Some(number as usize)
    } else {
        None
    }
}
