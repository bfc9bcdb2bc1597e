//! The limits on what a line, and the text of a question, may have.

ghost use Rattle.std.specs.Prelude.{◌≡◌};
ghost use Rattle.rl_ask.specs.declared.limits.TheConstants.{MOST_LINE_BYTES, MOST_TEXT_CODES};

/// The most bytes of a line, without its line feed. A longer one isn't read as a question.
pub const MOST_LINE_BYTES: usize = 4_194_304;

/// The most codes of the text of a question about cost.
pub const MOST_TEXT_CODES: usize = 65_536;

/// The numbers of the limits.
pub fn limits_are()
    ensures line_bytes { MOST_LINE_BYTES ≡ 4194304 }
    ensures text_codes { MOST_TEXT_CODES ≡ 65536 }
{}
