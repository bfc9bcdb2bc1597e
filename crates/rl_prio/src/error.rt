//! The reasons why an automaton isn't built. An item is what a matcher tries next: the test of one of the tree's sets, or the
//! end of the tree. A letter is a class of codes that the automaton doesn't distinguish.

ghost use Rattle.std.specs.Prelude.{◌≡◌};

use rl_lists::OutOfMemory;

/// The reason why an automaton isn't built.
#[derive(Clone, Copy, Debug, PartialEq, Eq)]
pub enum PrioError {
    /// There would be more than [`MOST_LETTERS`](rl_ranges::MOST_LETTERS) letters.
    Letters,
    /// There are at most [`MOST_LETTERS`](rl_ranges::MOST_LETTERS) letters, but a list of what a matcher tries, on entering
    /// the tree or after one of its sets, would have more than [`MOST_MOVES`](rl_syntax::MOST_MOVES) items.
    Moves,
    /// There was not enough memory.
    OutOfMemory,
}

impl From<OutOfMemory> for PrioError {
    ghost use Rattle.rl_prio.specs.declared.error.PrioError.TheVariants as error;

    ghost from_gives = { λ _ e. e ≡ error.OutOfMemory };

    fn from(_: OutOfMemory) -> Self {
        PrioError::OutOfMemory
    }
}
