//! The codes of a word.

ghost use Rattle.std.specs.Prelude.{◌≡◌, ◌<◌, ◌↔◌, All, IfOk, IsTrue};
ghost use Rattle.std.specs.Str.{chars};
ghost use Rattle.rl_ranges.specs.Text.{IsText};

use rl_lists::{Codes, OutOfMemory};
use rl_syntax::Universe;
use std::alloc::Global;

/// Returns the codes of a word, one for each character.
///
/// # Errors
/// [`OutOfMemory`] if there was no memory for the list.
pub(crate) fn codes_of(alloc: Global, word: &str) -> Result<Codes, OutOfMemory>
    ensures { IfOk result (λ codes. codes ≡ chars word.now) }
{
    let codes = word.chars().map(|code| code as u32).collect(alloc)?;
    Ok(Codes::from_vec(codes))
}

/// Returns whether each code is below the count.
fn are_below(codes: &[u32], count: u32) -> bool
    ensures { IsTrue result ↔ All (λ c. c < count) codes.now }
{
    codes.iter().all(|code| *code < count)
}

/// Returns whether each code is one of the universe.
pub(crate) fn is_text(universe: Universe, codes: &[u32]) -> bool
    ensures yes { IsTrue result → IsText universe codes.now }
    ensures no { IsText universe codes.now → IsTrue result }
{
    are_below(codes, universe.count())
}
