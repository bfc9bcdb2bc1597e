//! The coding line of a source: the name of its coding, and whether that is one of the six names that relint accepts.
ghost use Rattle.std.specs.Prelude.{◌≡◌, ℕ, ◌+◌, ◌^◌, ◌<◌, ◌≤◌, length, drop, take, take_while, Option, Some, IfSome, IsTrue, ◌==◌, ◌||◌, ◌&&◌};
ghost use Rattle.std.specs.Option.{ForSome};
ghost use Rattle.std.specs.List.{prefix_len};
ghost use Rattle.rl_pylex.specs.Bytes.{begins, in_line};
ghost use Rattle.rl_pylex.specs.Coding.{is_gap, in_coding, named_here, from_place, first_named, coding_of_line, is_bare, line_of, second_coding, coding_of, is_accepted, wrong_coding};

use crate::bytes::{blank_size, line_end, line_size, rest_from};

/// Where the name of a coding is in a text.
#[derive(Clone, Copy)]
pub struct Named {
    /// The index of its first byte, counted from 0.
    pub from: usize,
    /// Its number of bytes.
    pub size: usize,
}

fn is_gap(byte: u8) -> bool
    ensures { result ≡ is_gap byte }
{
    matches!(byte, b' ' | b'\t')
}

fn in_coding(byte: u8) -> bool
    ensures { result ≡ in_coding byte }
{
    byte.is_ascii_alphanumeric() || matches!(byte, b'-' | b'_' | b'.')
}

#[tactic(auto, using(crate::proofs::Runs::runs))]
fn gap_size(text: &[u8]) -> usize
    ensures value { result ≡ prefix_len is_gap text.now }
    ensures within { result ≤ length text.now }
{
    text.iter()
        .position(|byte| !is_gap(*byte))
        .unwrap_or(text.len())
}

#[tactic(auto, using(crate::proofs::Runs::runs))]
fn coding_size(text: &[u8]) -> usize
    ensures value { result ≡ prefix_len in_coding text.now }
    ensures within { result ≤ length text.now }
{
    text.iter()
        .position(|byte| !in_coding(*byte))
        .unwrap_or(text.len())
}

fn begins_coding(text: &[u8]) -> bool
    ensures value { result ≡ (begins "coding:" text.now || begins "coding=" text.now) }
    ensures within { IsTrue result → 7 ≤ length text.now }
{
    text.starts_with(b"coding:") || text.starts_with(b"coding=")
}

/// Returns the name that follows the `coding` that the text begins with, if there is one.
#[tactic(auto, unfolding(crate::specs::Coding::named_here))]
fn named_here(text: &[u8]) -> Option<Named>
    ensures value { result ≡ named_here text.now }
    ensures within { IfSome result (λ named. named.from + named.size ≤ length text.now) }
{
    if !begins_coding(text) {
        return None;
    }
    let from = 7 + gap_size(rest_from(text, 7));
    let size = coding_size(rest_from(text, from));
    if size == 0 {
        None
    } else {
        Some(Named { from, size })
    }
}

/// Returns the same name for a text with `n` more bytes in front.
fn from_place(n: usize, named: Option<Named>) -> Option<Named>
    requires { ForSome named (λ m. n + m.from < 2 ^ 64) }
    ensures { result ≡ from_place n named }
{
    match named {
        None => None,
        Some(named) => Some(Named {
            from: n + named.from,
            size: named.size,
        }),
    }
}

/// Returns the name that follows the first `coding` that is followed by one.
#[tactic(auto, using(crate::proofs::FirstNamed::first_names))]
fn first_named(text: &[u8]) -> Option<Named>
    ensures value { result ≡ first_named text.now }
    ensures within { IfSome result (λ named. named.from + named.size ≤ length text.now) }
{
    for at in 0..text.len() {
        if let Some(named) = named_here(rest_from(text, at)) {
            return Some(Named {
                from: at + named.from,
                size: named.size,
            });
        }
    }
    None
}

#[tactic(auto, unfolding(crate::specs::Coding::coding_of_line))]
fn coding_of_line(line: &[u8]) -> Option<Named>
    ensures value { result ≡ coding_of_line line.now }
    ensures within { IfSome result (λ named. named.from + named.size ≤ length line.now) }
{
    let blanks = blank_size(line);
    let comment = rest_from(line, blanks);
    if comment.starts_with(b"#") {
        from_place(blanks, first_named(comment))
    } else {
        None
    }
}

/// Whether the line is empty except for spaces, tabs, form feeds and possibly a comment.
#[tactic(auto, unfolding(crate::specs::Coding::is_bare))]
fn is_bare(line: &[u8]) -> bool
    ensures { result ≡ is_bare line.now }
{
    let rest = rest_from(line, blank_size(line));
    rest.is_empty() || rest.starts_with(b"#")
}

fn line_of(text: &[u8]) -> &[u8]
    ensures value { result.now ≡ line_of text.now }
    ensures within { length result.now ≤ length text.now }
{
    &text[..line_size(text)]
}

#[tactic(auto, unfolding(crate::specs::Coding::second_coding))]
fn second_coding(text: &[u8]) -> Option<Named>
    ensures value { result ≡ second_coding text.now }
    ensures within { IfSome result (λ named. named.from + named.size ≤ length text.now) }
{
    let first = line_of(text);
    if !is_bare(first) {
        return None;
    }
    let second = first.len() + line_end(rest_from(text, first.len()));
    from_place(second, coding_of_line(line_of(rest_from(text, second))))
}

/// Returns the name in the coding line of the text, if there is one.
#[tactic(auto, unfolding(crate::specs::Coding::coding_of))]
fn coding_of(text: &[u8]) -> Option<Named>
    ensures value { result ≡ coding_of text.now }
    ensures within { IfSome result (λ named. named.from + named.size ≤ length text.now) }
{
    match coding_of_line(line_of(text)) {
        Some(named) => Some(named),
        None => second_coding(text),
    }
}

/// Whether the name, in upper or lower case, is one of the six accepted names of UTF-8 and ASCII.
fn is_accepted(name: &[u8]) -> bool
    ensures { result ≡ is_accepted name.now }
{
    name.eq_ignore_ascii_case(b"utf-8")
        || name.eq_ignore_ascii_case(b"utf8")
        || name.eq_ignore_ascii_case(b"utf_8")
        || name.eq_ignore_ascii_case(b"utf-8-sig")
        || name.eq_ignore_ascii_case(b"ascii")
        || name.eq_ignore_ascii_case(b"us-ascii")
}

/// Returns the index in the text of the first byte of the coding's name, counted from 0, if the coding line of the text names
/// its coding by none of the six accepted names (`is_accepted`). Returns `None` if that name is accepted, or if there is no
/// coding line. Python's other names of UTF-8 and ASCII, such as `u8` and `646`, aren't accepted.
#[tactic(auto, unfolding(crate::specs::Coding::wrong_coding))]
pub fn wrong_coding(text: &[u8]) -> Option<usize>
    ensures value { result ≡ wrong_coding text.now }
    ensures within { IfSome result (λ place. place ≤ length text.now) }
{
    match coding_of(text) {
        None => None,
        Some(named) => {
            let name = &text[named.from..named.from + named.size];
            if is_accepted(name) {
                None
            } else {
                Some(named.from)
            }
        }
    }
}
