//! The values of options and the numbers of `sample`, and the texts that denote them.
ghost use Rattle.std.specs.Prelude.{◌≡◌, IfSome, option_map};
ghost use Rattle.std.specs.Char.{is_ascii_digit};
ghost use Rattle.std.specs.List.{list_all};
ghost use Rattle.rl_words.specs.Call.{IsWithin};
ghost use Rattle.rl_words.specs.Values.{format_of, is_numeral, mode_of, number_of, path_of};

use crate::{FormatWord, ModeWord, NumberRange};

/// Whether every byte is an ASCII digit.
fn has_digits_only(text: &str) -> bool
    ensures { result ≡ list_all is_ascii_digit text.now }
{
    text.bytes().all(|byte| byte.is_ascii_digit())
}

/// Whether the text consists of one to `digits` ASCII digits.
fn is_numeral(digits: usize, text: &str) -> bool
    ensures { result ≡ is_numeral digits text.now }
{
    !text.is_empty() && text.len() <= digits && has_digits_only(text)
}

/// Returns the decimal number that the text denotes, or `None` if the text doesn't consist of one to `digits` ASCII digits or
/// the number isn't in the range.
pub(crate) fn number_of(digits: usize, range: NumberRange, text: &str) -> Option<u32>
    ensures value { result ≡ number_of digits range text.now }
    ensures range { IfSome result (IsWithin range) }
{
    if !is_numeral(digits, text) {
        return None;
    }
    match text.parse::<u32>() {
        Ok(number) if range.has(number) => Some(number),
        Ok(_) => None,
        Err(_) => None,
    }
}

/// Returns the mode that the word names, or `None` if it isn't `fullmatch`, `match` or `search`.
pub fn mode_of(word: &str) -> Option<ModeWord>
    ensures { result ≡ mode_of word.now }
{
    match word {
        "fullmatch" => Some(ModeWord::Fullmatch),
        "match" => Some(ModeWord::Match),
        "search" => Some(ModeWord::Search),
        _ => None,
    }
}

/// Returns the format that the word names, or `None` if it isn't `text`, `brief`, `json` or `sarif`.
pub fn format_of(word: &str) -> Option<FormatWord>
    ensures { result ≡ format_of word.now }
{
    match word {
        "text" => Some(FormatWord::Text),
        "brief" => Some(FormatWord::Brief),
        "json" => Some(FormatWord::Json),
        "sarif" => Some(FormatWord::Sarif),
        _ => None,
    }
}

/// Returns the path that the text is, or `None` if the text is empty.
pub(crate) fn path_of<'a>(path: &'a str) -> Option<&'a str>
    ensures { option_map (λ p. p.now) result ≡ path_of path.entry.now }
{
    if path.is_empty() { None } else { Some(path) }
}
