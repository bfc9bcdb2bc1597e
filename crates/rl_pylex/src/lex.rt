//! The tokens of a source: first the checks on the source as a whole, then its pieces one by one.
ghost use Rattle.std.specs.Prelude.{◌≡◌, ℕ, ◌+◌, ◌<◌, ◌≤◌, ◌++◌, length, drop, IfOk, IfErr, OnOk, IsOkUnless, option_to_list, IsUtf8, MatchResult};
ghost use Rattle.std.specs.List.{prefix_len};
ghost use Rattle.std.specs.Str.{IsValidUpTo};
ghost use Rattle.rl_pylex.specs.Bytes.{text_start, is_blank};
ghost use Rattle.rl_pylex.specs.Coding.{wrong_coding};
ghost use Rattle.rl_pylex.specs.Source.{token_of, Reaches, IsReadable, IsTokenList, IsFault};

use crate::bytes::{blank_size, rest_from, text_start};
use crate::coding::wrong_coding;
use crate::rules::{Reading, depth_after, read_front};
use crate::{LexError, Token, TokenKind, TokenList};
use rl_lists::MOST_BYTES;
use std::alloc::Global;

/// Appends the token of a piece, if the piece has one.
fn push_piece(
    tokens: &mut TokenList,
    kind: Option<TokenKind>,
    at: usize,
    size: usize,
) -> Result<(), LexError>
    requires { at + size ≤ MOST_BYTES }
    ensures pushed { OnOk result (tokens.new ≡ tokens.old ++ option_to_list (token_of (record { kind = kind; from = at; size = size }))) }
    ensures memory { IsOkUnless result LexError.OutOfMemory }
{
    if let Some(kind) = kind {
        tokens.push(Token {
            kind,
            from: at as u32,
            upto: (at + size) as u32,
        })?;
    }
    Ok(())
}

/// Returns the place after the spaces, tabs and form feeds at a place.
fn after_blanks(source: &[u8], at: usize) -> usize
    requires { at ≤ length source.now }
    ensures value { result ≡ at + prefix_len is_blank (drop at source.now) }
    ensures within { result ≤ length source.now }
{
    at + blank_size(rest_from(source, at))
}

/// Returns the tokens of a source that has passed the checks. `first` is the place where its text begins.
#[tactic(auto, using(crate::proofs::Cuts::pieces))]
fn read_pieces(alloc: Global, source: &[u8], first: usize) -> Result<TokenList, LexError>
    requires readable { IsReadable source.now }
    requires begins { first ≡ text_start source.now }
    requires within { first ≤ length source.now }
    ensures ok { IfOk result (IsTokenList source.now) }
    ensures err { IfErr result (IsFault source.now) }
{
    let mut tokens = TokenList::new(alloc);
    let mut at = first;
    let mut depth = 0;
    while at < source.len() {
        let text = rest_from(source, at);
        match read_front(text, depth) {
            Reading::Piece(kind, size) => {
                push_piece(&mut tokens, kind, at, size)?;
                depth = depth_after(text, depth);
                at = after_blanks(source, at + size);
            }
            Reading::Unterminated => return Err(LexError::Unterminated(at as u32)),
            Reading::Stray => return Err(LexError::StrayCode(at as u32)),
        }
    }
    Ok(tokens)
}

/// Checks a source as a whole. Returns `Ok` if it passes, or the first of these errors: [`LexError::FileTooLong`] if it has
/// more than [`MOST_BYTES`] bytes, [`LexError::NotUtf8`] if it isn't UTF-8, [`LexError::Coding`] if its coding line names its
/// coding by none of the six accepted names of UTF-8 and ASCII.
pub fn check_source(source: &[u8]) -> Result<(), LexError>
    ensures ok { IfOk result (λ _. IsReadable source.now) }
    ensures err { IfErr result (IsFault source.now) }
{
    if source.len() > MOST_BYTES {
        return Err(LexError::FileTooLong);
    }
    if let Err(error) = simdutf8::compat::from_utf8(source) {
        return Err(LexError::NotUtf8(error.valid_up_to() as u32));
    }
    let first = text_start(source);
    match wrong_coding(rest_from(source, first)) {
        None => Ok(()),
        Some(place) => Err(LexError::Coding((first + place) as u32)),
    }
}

/// Returns the tokens of a source in order. They don't overlap, and the text of each is its slice of the source.
///
/// # Errors
/// The first of these that applies. A place is a byte index in the source, counted from 0; a byte order mark counts.
/// - [`LexError::FileTooLong`] if the source has more than 4,194,304 bytes
/// - [`LexError::NotUtf8`] if it isn't UTF-8, with the length of its longest prefix that is UTF-8
/// - [`LexError::Coding`] if its coding line names its coding by none of the six accepted names of UTF-8 and ASCII, with the
///   place of the name
/// - [`LexError::Unterminated`] or [`LexError::StrayCode`] if the first fault by place is a literal without an end or a code
///   point that begins no token, with the place where the literal begins or the place of the code point
///
/// Instead of any result, [`LexError::OutOfMemory`] is returned if memory runs out.
pub fn tokens(alloc: Global, source: &[u8]) -> Result<TokenList, LexError>
    ensures ok { IfOk result (IsTokenList source.now) }
    ensures err { IfErr result (IsFault source.now) }
{
    check_source(source)?;
    read_pieces(alloc, source, text_start(source))
}
