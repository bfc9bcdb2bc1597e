//! The significant tokens of a source, which are all except comments, and tests on them. A name is a token of the kind `Name`,
//! so a keyword is one too. `source` has the bytes of the source.
ghost use Rattle.std.specs.Prelude.{◌≡◌, ◌<◌, ◌≤◌, length, drop, slice_get, IfOk, IfSome, IsTrue};
ghost use Rattle.rl_pylex.specs.Source.{same_kind};
ghost use Rattle.rl_sites.specs.Significant.{is_name, is_literal, word_of, is_word, is_op, significant_from, is_at};
ghost use Rattle.rl_sites.specs.internal.Parts.{is_zero};

use rl_lists::OutOfMemory;
use rl_pylex::{Token, TokenKind, text_of};
use std::alloc::Global;

/// A significant token, which is any token except a comment, with its index.
#[derive(Clone, Copy)]
pub struct SignificantToken {
    /// The index of the token among all tokens of the source, including comments, counted from 0.
    pub number: u32,
    /// The token.
    pub inner: Token,
}

fn is_comment(token: Token) -> bool
    ensures { result ≡ same_kind TokenKind.Comment token.kind }
{
    matches!(token.kind, TokenKind::Comment)
}

/// Returns the bytes of the token in the source.
pub fn word_of(source: &[u8], token: SignificantToken) -> &[u8]
    ensures { result.now ≡ word_of source.now token }
{
    text_of(source, token.inner)
}

/// Whether the token is a name.
pub fn is_name(token: SignificantToken) -> bool
    ensures { result ≡ is_name token }
{
    matches!(token.inner.kind, TokenKind::Name)
}

/// Whether the token is a literal.
pub fn is_literal(token: SignificantToken) -> bool
    ensures { result ≡ is_literal token }
{
    matches!(token.inner.kind, TokenKind::Literal)
}

/// Whether the token is a line end.
pub fn is_line_end(token: SignificantToken) -> bool
    ensures { result ≡ same_kind TokenKind.LineEnd token.inner.kind }
{
    matches!(token.inner.kind, TokenKind::LineEnd)
}

/// Whether the token is a name with this text.
#[tactic(auto, unfolding(crate::specs::Significant::is_word))]
pub fn is_word(source: &[u8], word: &[u8], token: SignificantToken) -> bool
    ensures { result ≡ is_word source.now word.now token }
{
    is_name(token) && word_of(source, token) == word
}

/// Whether the token is of the kind `Op`, such as an operator character or a bracket, and has this text.
#[tactic(auto, unfolding(crate::specs::Significant::is_op))]
pub fn is_op(source: &[u8], op: &[u8], token: SignificantToken) -> bool
    ensures { result ≡ is_op source.now op.now token }
{
    matches!(token.inner.kind, TokenKind::Op) && word_of(source, token) == op
}

/// Whether the token is the number `0`.
pub fn is_zero(source: &[u8], token: SignificantToken) -> bool
    ensures { result ≡ is_zero source.now token }
{
    matches!(token.inner.kind, TokenKind::Number) && word_of(source, token) == b"0".as_slice()
}

/// Returns the tokens from the index `at`, counted from 0, to the end. `at` must not be greater than the number of tokens.
pub fn rest_from(tokens: &[SignificantToken], at: usize) -> &[SignificantToken]
    requires { at ≤ length tokens.now }
    ensures { result.now ≡ drop at tokens.now }
{
    &tokens[at..]
}

/// Returns the token at the index `at`, counted from 0, or `None` if there are fewer tokens.
pub fn token_at(tokens: &[SignificantToken], at: usize) -> Option<SignificantToken>
    ensures value { result ≡ slice_get tokens.now at }
    ensures within { IfSome result (λ token. at < length tokens.now) }
{
    match tokens.get(at) {
        Some(token) => Some(*token),
        None => None,
    }
}

/// Whether there is a token at the index `at`, counted from 0, and it is a name with this text.
pub fn word_at(source: &[u8], word: &[u8], tokens: &[SignificantToken], at: usize) -> bool
    ensures value { result ≡ is_at at (is_word source.now word.now) tokens.now }
    ensures within { IsTrue result → at < length tokens.now }
{
    match token_at(tokens, at) {
        Some(token) => is_word(source, word, token),
        None => false,
    }
}

/// Whether there is a token at the index `at`, counted from 0, and it is of the kind `Op` and has this text.
pub fn op_at(source: &[u8], op: &[u8], tokens: &[SignificantToken], at: usize) -> bool
    ensures value { result ≡ is_at at (is_op source.now op.now) tokens.now }
    ensures within { IsTrue result → at < length tokens.now }
{
    match token_at(tokens, at) {
        Some(token) => is_op(source, op, token),
        None => false,
    }
}

/// Whether there is a token at the index `at`, counted from 0, and it is a name.
pub fn name_at(tokens: &[SignificantToken], at: usize) -> bool
    ensures value { result ≡ is_at at is_name tokens.now }
    ensures within { IsTrue result → at < length tokens.now }
{
    match token_at(tokens, at) {
        Some(token) => is_name(token),
        None => false,
    }
}

/// Returns the significant tokens among the tokens of a source, of which there must be at most 4,194,304, in order, each with
/// its index.
///
/// # Errors
/// [`OutOfMemory`] if memory runs out.
pub fn significant_tokens(
    alloc: Global,
    tokens: &[Token],
) -> Result<Vec<SignificantToken>, OutOfMemory>
    requires { length tokens.now ≤ 4194304 }
    ensures { IfOk result (λ significant. significant.items ≡ significant_from 0 tokens.now) }
{
    let mut significant = Vec::with_capacity(alloc, tokens.len())?;
    for (number, token) in tokens.iter().enumerate() {
        if !is_comment(*token) {
            significant.push(SignificantToken {
                number: number as u32,
                inner: *token,
            })?;
        }
    }
    Ok(significant)
}
