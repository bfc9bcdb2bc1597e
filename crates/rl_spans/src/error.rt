//! Why a comparison of two patterns, or a run of one pattern, ends without a result.

ghost use Rattle.std.specs.Prelude.{◌≡◌};

use crate::items::ListError;
use rl_lists::OutOfMemory;
use rl_ranges::LettersError;

/// Why a comparison of two patterns, or a run of one pattern on a text, ends without a result.
#[derive(Clone, Copy, Debug, PartialEq, Eq)]
pub enum SpansError {
    /// One of the trees that are run has more than [`MOST_NODES`](rl_syntax::MOST_NODES) nodes. For `OneSearch` a tree has
    /// four nodes more than the pattern's own.
    Size,
    /// Both trees together have more letters than [`MOST_LETTERS`](rl_ranges::MOST_LETTERS).
    Letters,
    /// At a point of one of the trees more than [`MOST_MOVES`](rl_syntax::MOST_MOVES) items are tried, tests and ends of the
    /// tree.
    Moves,
    /// The text has 2^32 codes or more. No comparison ends with this error.
    Text,
    /// Out of memory.
    OutOfMemory,
}

impl From<OutOfMemory> for SpansError {
    ghost use Rattle.rl_spans.specs.declared.error.SpansError.TheVariants as error;

    ghost from_gives = { λ _ e. e ≡ error.OutOfMemory };

    fn from(_: OutOfMemory) -> Self {
        SpansError::OutOfMemory
    }
}

impl From<LettersError> for SpansError {
    ghost use Rattle.rl_spans.specs.Causes.{letters_error};

    ghost from_gives = { λ l e. e ≡ letters_error l };

    fn from(error: LettersError) -> Self {
        match error {
            LettersError::TooMany => SpansError::Letters,
            LettersError::OutOfMemory => SpansError::OutOfMemory,
        }
    }
}

impl From<ListError> for SpansError {
    ghost use Rattle.rl_spans.specs.Causes.{list_error};

    ghost from_gives = { λ l e. e ≡ list_error l };

    fn from(error: ListError) -> Self {
        match error {
            ListError::TooLong => SpansError::Moves,
            ListError::OutOfMemory => SpansError::OutOfMemory,
        }
    }
}
