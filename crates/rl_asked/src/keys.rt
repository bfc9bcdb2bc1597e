//! The keys of questions.

ghost use Rattle.std.specs.Prelude.{◌≡◌, is_some, option_map};
ghost use Rattle.std.specs.String.{string_bytes};
ghost use Rattle.std.specs.List.{list_any};
ghost use Rattle.std.specs.Str.{bytes_eq};
ghost use Rattle.serde_json.specs.Find.{get};
ghost use Rattle.serde_json.specs.View.{members_view, view};
ghost use Rattle.rl_asked.specs.Keys.{first_unknown, form_of, keys_of};

use crate::words::Ask;
use serde_json::{Map, Value};

/// Returns whether a question of this kind takes the key.
fn takes(ask: Ask, key: &str) -> bool
    ensures { result ≡ list_any (bytes_eq key.now) (keys_of ask) }
{
    match ask {
        Ask::Class | Ask::Ways => matches!(
            key,
            "ask" | "pattern" | "flags" | "bytes" | "mode" | "pairs"
        ),
        Ask::Tree => matches!(key, "ask" | "pattern" | "flags" | "bytes"),
        Ask::Compare => matches!(
            key,
            "ask" | "first" | "second" | "flags" | "bytes" | "mode" | "limit"
        ),
        Ask::Spans => matches!(
            key,
            "ask" | "first" | "second" | "flags" | "bytes" | "mode" | "limit" | "groups"
        ),
        Ask::Found => matches!(
            key,
            "ask" | "pattern" | "flags" | "bytes" | "mode" | "text" | "from" | "advance"
        ),
        Ask::Suggest => matches!(key, "ask" | "pattern" | "flags" | "bytes" | "pairs"),
        Ask::Cost => matches!(key, "ask" | "pattern" | "flags" | "bytes" | "mode" | "text"),
        Ask::CostOfFamily => matches!(
            key,
            "ask" | "pattern" | "flags" | "bytes" | "mode" | "heads" | "pumps" | "k"
        ),
        Ask::Version => key == "ask",
    }
}

/// Returns the first key of an object that a question of this kind doesn't take, or `None` if it takes them all.
fn unknown_key<'v>(ask: Ask, members: &'v Map<String, Value>) -> Option<&'v String>
    ensures { option_map (λ k. string_bytes k.now) result ≡ first_unknown ask (members_view members.entry.now.entries) }
{
    members.keys().find(|key| !takes(ask, key.as_str()))
}

/// Returns the text of this key.
pub(crate) fn first_unknown<'v>(ask: Ask, members: &'v Map<String, Value>) -> Option<&'v str>
    ensures { option_map (λ k. k.now) result ≡ first_unknown ask (members_view members.entry.now.entries) }
{
    match unknown_key(ask, members) {
        Some(key) => Some(key.as_str()),
        None => None,
    }
}

/// Returns whether an object has the key.
fn has_key(value: &Value, key: &str) -> bool
    ensures { result ≡ is_some (get key.now (view value.now)) }
{
    value.get(key).is_some()
}

/// Returns the kind of a question with these keys: one about the cost of a family if it is about cost and has a key for a
/// family, and otherwise the kind by its word.
pub(crate) fn form_of(ask: Ask, value: &Value) -> Ask
    ensures { result ≡ form_of ask (view value.now) }
{
    match ask {
        Ask::Cost if has_key(value, "heads") || has_key(value, "pumps") || has_key(value, "k") => {
            Ask::CostOfFamily
        }
        _ => ask,
    }
}
