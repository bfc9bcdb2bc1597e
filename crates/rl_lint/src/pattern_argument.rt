//! Arguments of the command line that are patterns. The reader of patterns parses their code points or refuses them.
ghost use Rattle.std.specs.Prelude.{◌≡◌, IfOk, Some};
ghost use Rattle.std.specs.Str.{chars};
ghost use Rattle.rl_lint.specs.internal.Plans.{message_text};
ghost use Rattle.rl_lint.specs.Patterns.{refusal};
ghost use Rattle.rl_lint.specs.internal.Parsed.{IsArgument};

use crate::codes::codes_of;
use crate::messages::refused_at;
use crate::plan::Message;
use rl_lists::OutOfMemory;
use rl_pattern::{Flags, PatError, parse};
use rl_report::feature_name;
use rl_syntax::{Pattern, Universe};
use std::alloc::Global;

/// The result of parsing a pattern argument.
#[derive(Drop)]
pub enum PatternArgument {
    /// The pattern is refused, with this message.
    Refused(Message),
    /// The parsed pattern, which is one for texts of type `str`.
    Parsed(Pattern),
}

/// No flags. A pattern argument isn't part of a Python call, so no flags come with it.
const NO_FLAGS: Flags = Flags {
    ignore_case: false,
    multiline: false,
    dot_all: false,
    verbose: false,
    ascii: false,
    unicode: false,
    locale: false,
};

/// Returns the message on a refused pattern.
///
/// # Errors
/// [`OutOfMemory`] if memory runs out here, or if it ran out while the pattern was parsed.
fn refusal(alloc: Global, error: PatError) -> Result<Message, OutOfMemory>
    ensures { IfOk result (λ message. refusal error ≡ Some (message_text message)) }
{
    match error {
        PatError::Syntax(place) => refused_at(alloc, "syntax", place),
        PatError::TooDeep(place) => refused_at(alloc, "too-deep", place),
        PatError::Outside(place, feature) => refused_at(alloc, feature_name(feature), place),
        PatError::TooLong => Ok(Message::Fixed("relint: refused too-long\n")),
        PatError::OutOfMemory => Err(OutOfMemory),
    }
}

/// Returns the pattern that `word` spells, parsed as a pattern of type `str` without flags, or the message on it if the reader
/// of patterns refuses it: for a syntax error, for nesting that is too deep, for a feature that isn't judged, or for its
/// length.
///
/// # Errors
/// [`OutOfMemory`] if memory runs out.
pub fn parse_argument(alloc: Global, word: &str) -> Result<PatternArgument, OutOfMemory>
    ensures { IfOk result (IsArgument (chars word.now)) }
{
    let codes = codes_of(alloc, word)?;
    let parsed = parse(alloc, &codes, NO_FLAGS, Universe::Str);
    drop(codes);
    match parsed {
        Ok(pattern) => Ok(PatternArgument::Parsed(pattern)),
        Err(error) => Ok(PatternArgument::Refused(refusal(alloc, error)?)),
    }
}
