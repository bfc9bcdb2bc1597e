//! The keys of the document.
ghost use Rattle.std.specs.Prelude.{◌≡◌, IfSome, option_map};
ghost use Rattle.std.specs.List.{list_any};
ghost use Rattle.std.specs.Str.{bytes_eq};
ghost use Rattle.toml.specs.Data.{get_member};
ghost use Rattle.toml.specs.View.{table_view, view};
ghost use Rattle.rl_words.specs.Call.{AreInRange, IsWithin};
ghost use Rattle.rl_settings.specs.Values.{format_in, mode_in, number_in};
ghost use Rattle.rl_settings.specs.Settings.{has_known_keys, known_keys, read_at, table_values};

use crate::values::{format_in, mode_in, number_in};
use rl_words::{
    FormatWord, MAX_DEGREES, MAX_PAIRS, ModeWord, NumberRange, PartialSettings, REPORT_VERSIONS,
};
use toml::{Table, Value};

/// Whether a settings file may have this key.
fn is_known(key: &str) -> bool
    ensures { result ≡ list_any (bytes_eq key.now) known_keys }
{
    matches!(
        key,
        "compile-as" | "max-degree" | "max-pairs" | "format" | "report"
    )
}

/// Whether all keys of the table are known.
fn has_known_keys(table: &Table) -> bool
    ensures { result ≡ has_known_keys (table_view table.now) }
{
    table.keys().all(|key| is_known(key.as_str()))
}

/// Returns the value of a key.
fn value_at<'a>(table: &'a Table, key: &str) -> Option<&'a Value>
    ensures { option_map (λ v. view v.now) result
        ≡ get_member key.now (table_view table.entry.now) }
{
    table.get(key)
}

/// Reads a key whose value is a mode. `Some(None)` means that the table lacks the key, `None` that its value is refused.
fn mode_at(table: &Table, key: &str) -> Option<Option<ModeWord>>
    ensures { result ≡ read_at key.now mode_in (table_view table.now) }
{
    match value_at(table, key) {
        Some(value) => Some(Some(mode_in(value)?)),
        None => Some(None),
    }
}

/// Reads a key whose value is a format. `Some(None)` means that the table lacks the key, `None` that its value is refused.
fn format_at(table: &Table, key: &str) -> Option<Option<FormatWord>>
    ensures { result ≡ read_at key.now format_in (table_view table.now) }
{
    match value_at(table, key) {
        Some(value) => Some(Some(format_in(value)?)),
        None => Some(None),
    }
}

/// Reads a key whose value is a number in a range. `Some(None)` means that the table lacks the key, `None` that its value
/// is refused.
fn number_at(table: &Table, key: &str, range: NumberRange) -> Option<Option<u32>>
    ensures value { result ≡ read_at key.now (number_in range) (table_view table.now) }
    ensures range { IfSome result (λ n. IfSome n (IsWithin range)) }
{
    match value_at(table, key) {
        Some(value) => Some(Some(number_in(range, value)?)),
        None => Some(None),
    }
}

/// Returns the settings that the table gives, or `None` if it has a key that isn't known or a value that its key doesn't take.
pub(crate) fn table_values(table: &Table) -> Option<PartialSettings>
    ensures value { result ≡ table_values (table_view table.now) }
    ensures ranges { IfSome result AreInRange }
{
    if !has_known_keys(table) {
        return None;
    }
    Some(PartialSettings {
        mode: mode_at(table, "compile-as")?,
        format: format_at(table, "format")?,
        max_degree: number_at(table, "max-degree", MAX_DEGREES)?,
        max_pairs: number_at(table, "max-pairs", MAX_PAIRS)?,
        report: number_at(table, "report", REPORT_VERSIONS)?,
    })
}
