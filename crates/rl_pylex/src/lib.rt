//! The tokens of Python sources, read from bytes by a table of ten rules.
//!
//! A source is at most [`MOST_BYTES`](rl_lists::MOST_BYTES) bytes of UTF-8, with or without a byte order mark. If it has a
//! coding line, that line must name UTF-8 or ASCII by one of six accepted names. [`tokens`] cuts the source into pieces. At
//! each place the first rule that fits is used:
//!
//! 1. a space, a tab or a form feed: no token
//! 2. a backslash and a line end: no token
//! 3. a line end outside brackets: `LineEnd`
//! 4. a line end inside brackets: no token
//! 5. `#` up to the next line end or the end of the file: `Comment`
//! 6. a literal, which is an optional prefix directly followed by a quote: `Literal`
//! 7. a letter, `_` or a code point of at least 0x80, and the longest run of these and digits: `Name`
//! 8. a digit, or `.` directly before one, and the longest run of letters, digits, `_` and `.`: `Number`
//! 9. one of ``( ) [ ] { } . , : ; = + - * / % & | ^ ~ < > @ !``: `Op`
//! 10. anything else is a stray code
//!
//! These rules are simpler and more lenient than Python's own: a closing bracket needn't match the opening one, an f-string is
//! one literal that includes its fields, and an operator of two characters is two tokens. [`lacks_name`] is a prefilter:
//! without a token list, it tells that a source can be cut into tokens and that none of them is a certain name.
//!
//! # What is proved
//!
//! Unless memory runs out, [`tokens`] returns exactly the token list that the table gives, or exactly the first fault with its
//! place. By the law [`one_answer`] a source never has two answers. Tokens are in order, and by [`token_texts`] the text of a
//! literal token is a literal by itself. If [`lacks_name`] returns true, the source can be cut into tokens, and the name isn't
//! among them.
//!
//! # Example
//!
//! ```
//! tokens(alloc, b"x = 'a'  # b\n")?; // Name 0 to 1, Op 2 to 3, Literal 4 to 7, Comment 9 to 12, LineEnd 12 to 13
//! tokens(alloc, b"x = $\n"); // Err(LexError::StrayCode(4))
//! ```
//!
//! Read `specs/Rules.antt` first, with `specs/Bytes.antt` and `specs/Literals.antt`, then `specs/Source.antt` and
//! `specs/Coding.antt`.
#![tactic(auto)]

mod absence;
mod blocks;
mod bytes;
mod coding;
mod fault;
mod laws;
mod lex;
mod literals;
mod rules;
mod tables;
mod token_list;

pub use absence::lacks_name;
pub use bytes::line_end;
pub use fault::LexError;
pub use laws::{one_answer, token_texts};
pub use lex::tokens;
pub use literals::{prefix_size, quote_count};
pub use token_list::{Token, TokenKind, TokenList, text_of};
