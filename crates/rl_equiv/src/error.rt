//! The reasons why two trees aren't compared. Letters are classes of codes that the sets of the trees don't tell apart; an
//! item list is the list of what a matcher can try next at one point of a tree.

ghost use Rattle.std.specs.Prelude.{◌≡◌};

use rl_lists::OutOfMemory;

/// The reason why two trees aren't compared.
#[derive(Clone, Copy, Debug, PartialEq, Eq)]
pub enum SameError {
    /// One of the trees has more than [`MOST_NODES`](rl_syntax::MOST_NODES) nodes.
    Size,
    /// The nodes are within their limit, but the sets of both trees tell more than [`MOST_LETTERS`](rl_syntax::MOST_LETTERS)
    /// letters apart.
    Letters,
    /// Nodes and letters are within their limits, but one of the trees has an item list of more than
    /// [`MOST_MOVES`](rl_syntax::MOST_MOVES) items.
    Moves,
    /// Out of memory.
    OutOfMemory,
}

impl From<OutOfMemory> for SameError {
    ghost use Rattle.rl_equiv.specs.declared.error.SameError.TheVariants as error;

    ghost from_gives = { λ _ e. e ≡ error.OutOfMemory };

    fn from(_: OutOfMemory) -> Self {
        SameError::OutOfMemory
    }
}
