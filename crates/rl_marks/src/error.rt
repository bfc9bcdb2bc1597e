//! The reasons why no tree with groups is made of a pattern.

use rl_lists::OutOfMemory;

/// The reason why no tree with groups is made of a pattern.
#[derive(Clone, Copy, Debug, PartialEq, Eq)]
pub enum MarkError {
    /// The tree would have more than [`MOST_NODES`](rl_syntax::MOST_NODES) nodes.
    TooLarge,
    /// The pattern has more than [`MOST_GROUPS`](crate::MOST_GROUPS) capturing groups.
    TooManyGroups,
    /// There was not enough memory.
    OutOfMemory,
}

impl From<OutOfMemory> for MarkError {
    ghost use Rattle.std.specs.Prelude.{◌≡◌};
    ghost use Rattle.rl_marks.specs.declared.error.MarkError.TheVariants as error;

    ghost from_gives = { λ _ e. e ≡ error.OutOfMemory };

    fn from(_: OutOfMemory) -> Self {
        MarkError::OutOfMemory
    }
}
