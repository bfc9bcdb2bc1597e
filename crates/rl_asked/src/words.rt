//! The words that values of JSON have for questions, modes and flags.

ghost use Rattle.std.specs.Prelude.{◌≡◌};
ghost use Rattle.std.specs.List.{list_all};
ghost use Rattle.rl_pattern.specs.Codes.{is_in};
ghost use Rattle.rl_asked.specs.Words.{ask_of, flags_of, has_letter, how_of, mode_of, universe_of};

use rl_marks::How;
use rl_pattern::Flags;
use rl_syntax::{Mode, Universe};

/// The kind of a question.
#[derive(Clone, Copy)]
pub(crate) enum Ask {
    Class,
    Ways,
    Tree,
    Compare,
    Spans,
    Found,
    Suggest,
    Cost,
    CostOfFamily,
    Version,
}

/// Returns the kind of question by its word, or `None` if it is no such word. The word `cost` stands for a question about one
/// text.
pub(crate) fn ask_of(word: &str) -> Option<Ask>
    ensures { result ≡ ask_of word.now }
{
    match word {
        "class" => Some(Ask::Class),
        "ways" => Some(Ask::Ways),
        "tree" => Some(Ask::Tree),
        "compare" => Some(Ask::Compare),
        "spans" => Some(Ask::Spans),
        "found" => Some(Ask::Found),
        "suggest" => Some(Ask::Suggest),
        "cost" => Some(Ask::Cost),
        "version" => Some(Ask::Version),
        _ => None,
    }
}

/// Returns the mode by its word, or `None` if it is no mode.
pub(crate) fn mode_of(word: &str) -> Option<Mode>
    ensures { result ≡ mode_of word.now }
{
    match word {
        "fullmatch" => Some(Mode::Fullmatch),
        "match" => Some(Mode::Match),
        "search" => Some(Mode::Search),
        _ => None,
    }
}

/// Returns how a question about spans asks patterns, by its word, or `None` if it is no such word.
pub(crate) fn how_of(word: &str) -> Option<How>
    ensures { result ≡ how_of word.now }
{
    match word {
        "fullmatch" => Some(How::Fullmatch),
        "match" | "search" => Some(How::Match),
        "one-search" => Some(How::OneSearch),
        _ => None,
    }
}

/// Returns whether a text has a letter.
fn has_letter(text: &str, letter: u8) -> bool
    ensures { result ≡ has_letter letter text.now }
{
    text.bytes().any(|byte| byte == letter)
}

/// Returns whether the byte is the letter of a flag.
fn is_letter(byte: u8) -> bool
    ensures { result ≡ is_in "aimsuxL" byte }
{
    matches!(byte, b'a' | b'i' | b'm' | b's' | b'u' | b'x' | b'L')
}

/// Returns whether each character of a text is the letter of a flag.
fn has_letters_only(text: &str) -> bool
    ensures { result ≡ list_all (is_in "aimsuxL") text.now }
{
    text.bytes().all(|byte| is_letter(byte))
}

/// Returns the flags whose letters a text has, or `None` if it has a character that is the letter of no flag.
pub(crate) fn flags_of(text: &str) -> Option<Flags>
    ensures { result ≡ flags_of text.now }
{
    if !has_letters_only(text) {
        return None;
    }
    Some(Flags {
        ignore_case: has_letter(text, b'i'),
        multiline: has_letter(text, b'm'),
        dot_all: has_letter(text, b's'),
        verbose: has_letter(text, b'x'),
        ascii: has_letter(text, b'a'),
        unicode: has_letter(text, b'u'),
        locale: has_letter(text, b'L'),
    })
}

/// Returns the universe of bytes patterns, or of text patterns.
pub(crate) fn universe_of(is_bytes: bool) -> Universe
    ensures { result ≡ universe_of is_bytes }
{
    if is_bytes {
        Universe::Bytes
    } else {
        Universe::Str
    }
}
