//! A quick search that may show that a source can be cut into tokens and none of them is a certain name. It works
//! on the bytes, and makes no token list.
ghost use Rattle.std.specs.Prelude.{◌≡◌, ℕ, ◌+◌, ◌<◌, ◌≤◌, length, drop, true, not, ◌&&◌, IsTrue, IfSome};
ghost use Rattle.std.specs.Char.{is_ascii_alphabetic};
ghost use Rattle.rl_pylex.specs.Bytes.{has_at, in_name, text_start};
ghost use Rattle.rl_pylex.specs.Source.{LacksName};
ghost use Rattle.rl_pylex.specs.internal.Absence.{is_ordinary, word_at, is_inside, IsFree, IsFreeRun, size_of_fit, size_between, ReachesWithout};

use crate::blocks::size_before_stop;
use crate::bytes::{in_name, is_ordinary, is_quote, line_size, rest_from, text_start};
use crate::lex::check_source;
use crate::literals::size_after;
use crate::rules::{Fit, joined_line};

/// Returns a number of ordinary bytes at the beginning of the text. At none of them does the name begin as a whole word.
fn free_size(text: &[u8], name: &[u8]) -> usize
    ensures within { result ≤ length text.now }
    ensures free { IsFree name.now text.now result }
{
    if name.len() < 2 {
        0
    } else {
        size_before_stop(text, name)
    }
}

#[tactic(auto, using(crate::proofs::Fronts::reads))]
fn has_name_byte(text: &[u8], at: usize) -> bool
    ensures { result ≡ has_at in_name at text.now }
{
    at < text.len() && in_name(text[at])
}

/// Whether the byte before the place belongs to a name.
fn is_inside(text: &[u8], at: usize) -> bool
    ensures { result ≡ is_inside at text.now }
{
    at > 0 && has_name_byte(text, at - 1)
}

/// Whether the text begins with the name as a whole word.
#[tactic(auto, unfolding(crate::specs::internal::Absence::word_at))]
fn word_at(text: &[u8], name: &[u8]) -> bool
    ensures { result ≡ word_at name.now text.now }
{
    text.starts_with(name) && !has_name_byte(text, name.len())
}

/// Whether the name begins at the place as a whole word.
fn is_word(text: &[u8], at: usize, name: &[u8]) -> bool
    requires { at ≤ length text.now }
    ensures { result ≡ (not (is_inside at text.now) && word_at name.now (drop at text.now)) }
{
    !is_inside(text, at) && word_at(rest_from(text, at), name)
}

#[tactic(auto, using(crate::proofs::Fronts::reads))]
fn has_ordinary(text: &[u8], at: usize) -> bool
    ensures value { result ≡ has_at is_ordinary at text.now }
    ensures within { IsTrue result → at < length text.now }
{
    at < text.len() && is_ordinary(text[at])
}

/// Returns the number of ordinary bytes that the text begins with, or `None` if a word among them is the name.
fn run_without(text: &[u8], name: &[u8]) -> Option<usize>
    requires { has_at is_ascii_alphabetic 0 name.now ≡ true }
    ensures free { IfSome result (IsFreeRun name.now text.now) }
    ensures within { IfSome result (λ n. n ≤ length text.now) }
{
    let mut at = free_size(text, name);
    while has_ordinary(text, at) {
        if is_word(text, at, name) {
            return None;
        }
        at += 1 + free_size(rest_from(text, at + 1), name);
    }
    Some(at)
}

fn size_of_fit(fit: Fit) -> Option<usize>
    ensures { result ≡ size_of_fit fit }
{
    match fit {
        Fit::Takes(size) => Some(size),
        _ => None,
    }
}

/// Returns the number of bytes in the literal, comment or joined line that follows a run of ordinary bytes.
#[tactic(auto, unfolding(crate::specs::internal::Absence::size_between))]
fn size_found(text: &[u8]) -> Option<usize>
    ensures { result ≡ size_between text.now }
{
    match text {
        [] => Some(0),
        [byte, ..] if is_quote(*byte) => size_after(text, 0),
        [b'#', ..] => Some(line_size(text)),
        _ => size_of_fit(joined_line(text)),
    }
}

/// Returns what [`size_found`] returns. The number is at most the length of the text, and it isn't 0 unless the text is empty.
#[tactic(auto, using(crate::proofs::Without::bounds))]
fn size_between(text: &[u8]) -> Option<usize>
    ensures value { result ≡ size_between text.now }
    ensures within { IfSome result (λ n. n ≤ length text.now) }
    ensures moves { IfSome result (λ n. 0 < length text.now → 0 < n) }
{
    size_found(text)
}

/// Whether the source is cut into pieces from the place `first`, where its text begins, and none of them is the name.
fn passes_without(source: &[u8], first: usize, name: &[u8]) -> bool
    requires word { has_at is_ascii_alphabetic 0 name.now ≡ true }
    requires begins { first ≡ text_start source.now }
    requires within { first ≤ length source.now }
    ensures { IsTrue result → ReachesWithout source.now name.now (length source.now) }
{
    let mut at = first;
    while at < source.len() {
        let Some(run) = run_without(rest_from(source, at), name) else {
            return false;
        };
        at += run;
        let Some(size) = size_between(rest_from(source, at)) else {
            return false;
        };
        at += size;
    }
    true
}

/// Whether a quick search shows that the source can be cut into tokens and none of them is a `Name` with the text `name`. The
/// first byte of `name` must be an ASCII letter. If the result is false, nothing is claimed.
pub fn lacks_name(source: &[u8], name: &[u8]) -> bool
    requires { has_at is_ascii_alphabetic 0 name.now ≡ true }
    ensures { IsTrue result → LacksName source.now name.now }
{
    check_source(source).is_ok() && passes_without(source, text_start(source), name)
}
