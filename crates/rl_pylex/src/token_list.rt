//! Tokens and their texts.
ghost use Rattle.std.specs.Prelude.{◌≡◌, ◌-◌, take, drop};
ghost use Rattle.rl_pylex.specs.Source.{text_of};

use rl_lists::Items;

/// The kind of a token.
#[derive(Clone, Copy, Debug, PartialEq, Eq)]
pub enum TokenKind {
    /// Letters, `_`, digits and code points of at least 0x80. A keyword is a name like any other.
    Name,
    /// A number, including any letters, digits, `_` and `.` that directly follow it.
    Number,
    /// One literal, with its prefix and its quotes.
    Literal,
    /// One operator character, one delimiter such as `.` or `,`, or one bracket.
    Op,
    /// A line end outside brackets.
    LineEnd,
    /// A comment, without its line end.
    Comment,
}

/// A token: a range of bytes of its source, and its kind.
#[derive(Clone, Copy, Debug, PartialEq, Eq)]
pub struct Token {
    /// The kind.
    pub kind: TokenKind,
    /// The index of the first byte, counted from 0.
    pub from: u32,
    /// The index after the last byte.
    pub upto: u32,
}

/// The tokens of a source in order.
pub type TokenList = Items<Token>;

/// Returns the bytes of the source from `token.from` up to, but not including, `token.upto`. If the token reaches beyond the
/// end of the source, only the bytes that exist are returned.
pub fn text_of(source: &[u8], token: Token) -> &[u8]
    ensures { result.now ≡ text_of source.now token }
{
    let from = (token.from as usize).min(source.len());
    let upto = (token.upto as usize).max(from).min(source.len());
    &source[from..upto]
}
