//! The code points of a word of the command line.
ghost use Rattle.std.specs.Prelude.{◌≡◌, IfOk};
ghost use Rattle.std.specs.Str.{chars};
ghost use Rattle.rl_ranges.specs.Text.{IsText};
ghost use Rattle.rl_ranges.specs.declared.universe.Universe.TheVariants.{Str};

use rl_lists::{Codes, OutOfMemory};
use std::alloc::Global;

/// Returns the code points of a word in order, one number for each character.
///
/// # Errors
/// [`OutOfMemory`] if there is no memory for the list.
pub fn codes_of(alloc: Global, word: &str) -> Result<Codes, OutOfMemory>
    ensures characters { IfOk result (λ codes. codes ≡ chars word.now) }
    ensures in_universe { IfOk result (IsText Str) }
{
    let codes = word.chars().map(|code| code as u32).collect(alloc)?;
    Ok(Codes::from_vec(codes))
}
