//! What is known of the rests that a set refuses. A rest is a list of letters followed by the end letter, and a set refuses it
//! if none of its members accepts it.

ghost use Rattle.std.specs.Prelude.{◌≡◌, ℕ, List, IfOk};
ghost use Rattle.rl_sets.specs.Rests.{Routed};

use rl_lists::{OutOfMemory, Word};
use std::alloc::Global;

/// What is known of the rests that a set refuses.
#[derive(Clone, Copy)]
pub enum Life {
    /// Nothing.
    Unknown,
    /// The set refuses the rest that the route with this number describes.
    Live(usize),
    /// The set refuses no rest.
    Dead,
}

/// The description of a refused rest, which is a list of letters followed by the end letter. Routes are kept in one list, and
/// the number of a route is its index there, from 0. Each route refers only to earlier ones.
#[derive(Clone, Copy)]
pub enum Route {
    /// The rest that consists of only the end letter.
    End,
    /// The given letter, followed by the rest that the route with the given number describes.
    On(u32, usize),
}

/// Returns the rest that the route with the number `route` in the list `routes` describes; `end` is the end letter.
pub(crate) fn word_of(
    alloc: Global,
    routes: &[Route],
    route: usize,
    end: u32,
) -> Result<Word, OutOfMemory>
    requires { (word : List ℕ) × Routed end routes.now route word }
    ensures { (word : List ℕ) → Routed end routes.now route word → IfOk result (λ w. w ≡ word) }
{
    let mut word = Word::new(alloc);
    let mut at = route;
    while let Route::On(letter, next) = routes[at] {
        word.push(letter)?;
        at = next;
    }
    word.push(end)?;
    Ok(word)
}
