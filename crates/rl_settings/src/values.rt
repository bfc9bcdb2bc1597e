//! What the values of the document denote.
ghost use Rattle.std.specs.Prelude.{◌≡◌, IfSome};
ghost use Rattle.toml.specs.View.{view};
ghost use Rattle.rl_words.specs.Call.{IsWithin};
ghost use Rattle.rl_settings.specs.Values.{format_in, mode_in, number_in};

use rl_words::{FormatWord, ModeWord, NumberRange, format_of, mode_of};
use toml::Value;

/// Returns the mode that the value names, or `None` if it isn't a string that is one of the values of `--mode`.
pub(crate) fn mode_in(value: &Value) -> Option<ModeWord>
    ensures { result ≡ mode_in (view value.now) }
{
    mode_of(value.as_str()?)
}

/// Returns the format that the value names, or `None` if it isn't a string that is one of the values of `--format`.
pub(crate) fn format_in(value: &Value) -> Option<FormatWord>
    ensures { result ≡ format_in (view value.now) }
{
    format_of(value.as_str()?)
}

/// Returns the number that the value is, or `None` if it isn't a whole number in the range.
pub(crate) fn number_in(range: NumberRange, value: &Value) -> Option<u32>
    ensures value { result ≡ number_in range (view value.now) }
    ensures range { IfSome result (IsWithin range) }
{
    let number = u32::try_from(value.as_integer()?).ok()?;
    if range.has(number) {
        Some(number)
    } else {
        None
    }
}
