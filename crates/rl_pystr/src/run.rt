//! The value of a run of tokens, which are literals and comments: the values of its literals joined together. A place is a
//! byte index in the source, counted from 0.
ghost use Rattle.std.specs.Prelude.{◌≡◌, ℕ, ◌+◌, ◌<◌, ◌≤◌, ◌-◌, ◌∷◌, List, All, take, drop, length, slice_get, option_map, Some, not, IfOk, IfErr, OnOk, Ok, IsUtf8, IsTrue, true};
ghost use Rattle.std.specs.List.{list_any};
ghost use Rattle.rl_pylex.specs.Literals.{IsLiteral};
ghost use Rattle.rl_pylex.specs.Source.{text_of, IsReadAt, IsTokenList};
ghost use Rattle.rl_pystr.specs.Values.{empty, joined_results, IsRefused};
ghost use Rattle.rl_pystr.specs.Runs.{is_literal, letter_count, has_letter, quotes_of, body_start, body_of, literal_value, is_lettered, is_unlettered, token_value, values, has_bytes, value_of_run, universe_by, close_of, IsValue, ends_literal, IsLiteralRun};

use crate::body::{decoded, push_body};
use crate::placed::{Placed, no_codes};
use crate::{Literal, StrError};
use rl_pylex::{Token, TokenKind, TokenList, prefix_size, quote_count, text_of};
use rl_ranges::universe::Universe;
use std::alloc::Global;

/// Returns the text from a place to the end.
fn rest_from(text: &[u8], at: usize) -> &[u8]
    requires { at ≤ length text.now }
    ensures { result.now ≡ drop at text.now }
{
    &text[at..]
}

fn is_literal(token: Token) -> bool
    ensures { result ≡ is_literal token }
{
    matches!(token.kind, TokenKind::Literal)
}

/// Returns the number of letters in the prefix of a literal.
fn letter_count(text: &[u8]) -> usize
    ensures value { result ≡ letter_count text.now }
    ensures within { result ≤ length text.now }
{
    prefix_size(text).unwrap_or(0)
}

/// Whether the prefix of a literal has this letter, in upper or lower case.
#[tactic(auto, unfolding(crate::specs::Runs::has_letter))]
fn has_letter(letter: u8, text: &[u8]) -> bool
    ensures { result ≡ has_letter letter text.now }
{
    text[..letter_count(text)]
        .iter()
        .any(|byte| byte.to_ascii_lowercase() == letter)
}

/// Returns the number of quotes at each end of a literal.
#[tactic(auto, using(crate::proofs::Bounds::bounds))]
fn quotes_of(text: &[u8]) -> usize
    requires { IsLiteral text.now }
    ensures value { result ≡ quotes_of text.now }
    ensures room { letter_count text.now + result + result ≤ length text.now }
{
    quote_count(rest_from(text, letter_count(text)))
}

/// Returns the place in a literal where its body begins.
#[tactic(auto, unfolding(crate::specs::Runs::body_start))]
fn body_start(text: &[u8]) -> usize
    requires { IsLiteral text.now }
    ensures value { result ≡ body_start text.now }
    ensures room { result + quotes_of text.now ≤ length text.now }
{
    letter_count(text) + quotes_of(text)
}

/// Returns the bytes between the quotes of a literal.
#[tactic(auto, unfolding(crate::specs::Runs::body_of))]
fn body_of(text: &[u8]) -> &[u8]
    requires { IsLiteral text.now }
    ensures value { result.now ≡ body_of text.now }
    ensures short { length result.now ≤ length text.now }
{
    let end = text.len() - quotes_of(text);
    &text[body_start(text)..end]
}

/// Appends the value of a literal whose text begins at a place.
#[tactic(auto, unfolding(crate::specs::Runs::literal_value))]
fn push_literal(
    alloc: Global,
    out: &mut Placed,
    bytes: bool,
    place: u32,
    text: &[u8],
) -> Result<(), StrError>
    requires literal { IsLiteral text.now }
    requires utf8 { IsUtf8 (body_of text.now) }
    requires place { place ≤ 4194304 }
    requires short { length text.now ≤ 4194304 }
    ensures ok { OnOk result (Ok out.new ≡ joined_results (Ok out.old) (literal_value bytes place text.now)) }
    ensures err { IfErr result (IsRefused (joined_results (Ok out.old) (literal_value bytes place text.now))) }
{
    let body = decoded(alloc, body_of(text))?;
    let raw = has_letter(b'r', text);
    let first = place + body_start(text) as u32;
    push_body(out, raw, bytes, first, body.as_slice())
}

/// Appends the value of a token, if it is a literal.
#[tactic(auto, using(crate::proofs::Bodies::refusals, crate::proofs::Bounds::bounds))]
fn push_token(
    alloc: Global,
    out: &mut Placed,
    bytes: bool,
    source: &[u8],
    token: Token,
) -> Result<(), StrError>
    requires read { IsReadAt source.now token }
    requires utf8 { IsUtf8 source.now }
    requires short { length source.now ≤ 4194304 }
    ensures ok { OnOk result (Ok out.new ≡ joined_results (Ok out.old) (token_value bytes source.now token)) }
    ensures err { IfErr result (IsRefused (joined_results (Ok out.old) (token_value bytes source.now token))) }
{
    if !is_literal(token) {
        return Ok(());
    }
    push_literal(alloc, out, bytes, token.from, text_of(source, token))
}

/// Appends the values of the tokens.
#[tactic(auto, using(crate::proofs::Bodies::runs))]
fn push_values(
    alloc: Global,
    out: &mut Placed,
    bytes: bool,
    source: &[u8],
    run: &[Token],
) -> Result<(), StrError>
    requires read { All (IsReadAt source.now) run.now }
    requires utf8 { IsUtf8 source.now }
    requires short { length source.now ≤ 4194304 }
    ensures ok { OnOk result (Ok out.new ≡ joined_results (Ok out.old) (values bytes source.now run.now)) }
    ensures err { IfErr result (IsRefused (joined_results (Ok out.old) (values bytes source.now run.now))) }
{
    let mut rest = run;
    while let [token, after @ ..] = rest {
        push_token(alloc, out, bytes, source, *token)?;
        rest = after;
    }
    Ok(())
}

fn is_lettered(letter: u8, source: &[u8], token: Token) -> bool
    ensures { result ≡ is_lettered letter source.now token }
{
    is_literal(token) && has_letter(letter, text_of(source, token))
}

fn is_unlettered(letter: u8, source: &[u8], token: Token) -> bool
    ensures { result ≡ is_unlettered letter source.now token }
{
    is_literal(token) && !has_letter(letter, text_of(source, token))
}

fn any_lettered(letter: u8, source: &[u8], run: &[Token]) -> bool
    ensures { result ≡ list_any (is_lettered letter source.now) run.now }
{
    run.iter().any(|token| is_lettered(letter, source, *token))
}

fn any_unlettered(letter: u8, source: &[u8], run: &[Token]) -> bool
    ensures { result ≡ list_any (is_unlettered letter source.now) run.now }
{
    run.iter()
        .any(|token| is_unlettered(letter, source, *token))
}

fn universe_by(bytes: bool) -> Universe
    ensures { result ≡ universe_by bytes }
{
    if bytes {
        Universe::Bytes
    } else {
        Universe::Str
    }
}

/// Returns the code points of a run, with their places.
#[tactic(auto, using(crate::proofs::Bodies::runs), unfolding(crate::specs::Runs::value_of_run, crate::specs::Runs::has_bytes))]
fn value_of_run(alloc: Global, source: &[u8], run: &[Token]) -> Result<Placed, StrError>
    requires read { All (IsReadAt source.now) run.now }
    requires utf8 { IsUtf8 source.now }
    requires short { length source.now ≤ 4194304 }
    ensures ok { IfOk result (λ placed. value_of_run source.now run.now ≡ Ok placed) }
    ensures err { IfErr result (IsRefused (value_of_run source.now run.now)) }
{
    if any_lettered(b'f', source, run) {
        return Err(StrError::FString);
    }
    let bytes = any_lettered(b'b', source, run);
    if bytes && any_unlettered(b'b', source, run) {
        return Err(StrError::Mixed);
    }
    let mut out = no_codes(alloc);
    push_values(alloc, &mut out, bytes, source, run)?;
    Ok(out)
}

/// Returns the last token of a run that ends with a literal.
#[tactic(auto, using(crate::proofs::Ends::ends))]
fn last_literal(run: &[Token]) -> Token
    requires { IsTrue (ends_literal run.now) }
    ensures last { slice_get run.now (length run.now - 1) ≡ Some result }
    ensures literal { is_literal result ≡ true }
{
    match run.last() {
        Some(token) => *token,
        None => unreachable!(),
    }
}

/// Returns the place where the closing quotes of a literal token begin.
#[tactic(auto, using(crate::proofs::Ends::ends), unfolding(crate::specs::Runs::close_of))]
fn close_of(source: &[u8], token: Token) -> u32
    requires { IsLiteral (text_of source.now token) }
    ensures { result ≡ close_of source.now token }
{
    let quotes = quotes_of(text_of(source, token));
    token.upto - quotes as u32
}

#[tactic(auto, using(crate::proofs::Ends::ends))]
fn end_of(source: &[u8], run: &[Token]) -> u32
    requires read { All (IsReadAt source.now) run.now }
    requires ends { IsTrue (ends_literal run.now) }
    ensures { option_map (close_of source.now) (slice_get run.now (length run.now - 1)) ≡ Some result }
{
    close_of(source, last_literal(run))
}

#[tactic(auto, unfolding(crate::specs::Runs::has_bytes))]
fn universe_of(source: &[u8], run: &[Token]) -> Universe
    ensures { result ≡ universe_by (has_bytes source.now run.now) }
{
    universe_by(any_lettered(b'b', source, run))
}

#[tactic(auto, using(crate::proofs::Ends::ends))]
fn run_of(tokens: &TokenList, first: u32, count: u32) -> &[Token]
    requires { first + count ≤ length tokens.now }
    ensures { result.now ≡ take count (drop first tokens.now) }
{
    let first = first as usize;
    &tokens.as_slice()[first..first + count as usize]
}

/// Returns the value of a run of literals: the values of its literals, joined together. The run consists of `count` tokens of
/// the source, beginning at the index `first`, counted from 0. `tokens` must be all tokens of the source, and the run must lie
/// within them. It must have only literals and comments, and its first and last tokens must be literals.
///
/// # Errors
/// These are checked in order:
/// - [`StrError::FString`] if a literal has an `f` in its prefix
/// - [`StrError::Mixed`] if one literal has a `b` in its prefix and another doesn't
/// - the first fault in the literals, by place: [`StrError::BadEscape`] for an escape without a value and
///   [`StrError::NamedEscape`] for an escape by name, with the place of the backslash, or [`StrError::NotAscii`] for a code
///   point of at least 0x80 in bytes, with its place
///
/// Instead of any result, [`StrError::OutOfMemory`] is returned if memory runs out.
#[tactic(auto, using(crate::proofs::Ends::ends))]
pub fn value(
    alloc: Global,
    source: &[u8],
    tokens: &TokenList,
    first: u32,
    count: u32,
) -> Result<Literal, StrError>
    requires tokens { IsTokenList source.now tokens.now }
    requires within { first + count ≤ length tokens.now }
    requires run { IsLiteralRun (take count (drop first tokens.now)) }
    ensures ok { IfOk result (IsValue source.now (take count (drop first tokens.now))) }
    ensures err { IfErr result (IsRefused (value_of_run source.now (take count (drop first tokens.now)))) }
{
    let run = run_of(tokens, first, count);
    let placed = value_of_run(alloc, source, run)?;
    let universe = universe_of(source, run);
    let end = end_of(source, run);
    Ok(Literal {
        codes: placed.codes,
        universe,
        places: placed.places,
        end,
    })
}
