//! Code points with their places. A place is a byte index in the source, counted from 0.
ghost use Rattle.std.specs.Prelude.{◌≡◌, [], ◌∷◌, OnOk, IfErr, Result, Ok, IsOkUnless};
ghost use Rattle.rl_pystr.specs.Values.{empty, joined};

use crate::StrError;
use rl_lists::{Codes, Places};
use std::alloc::Global;

/// Code points with their places.
#[derive(Drop)]
pub struct Placed {
    /// The code points.
    pub codes: Codes,
    /// For each code point, at the same index, the byte index in the source, from 0, of what gives it.
    pub places: Places,
}

/// Returns the value without code points.
pub fn no_codes(alloc: Global) -> Placed
    ensures { result ≡ empty }
{
    Placed {
        codes: Codes::new(alloc),
        places: Places::new(alloc),
    }
}

/// Appends a code point and its byte place to `out`.
///
/// # Errors
/// [`StrError::OutOfMemory`] if memory runs out.
pub fn push_code(out: &mut Placed, code: u32, place: u32) -> Result<(), StrError>
    ensures pushed { OnOk result (out.new ≡ joined out.old (record { codes = code ∷ []; places = place ∷ [] })) }
    ensures memory { IsOkUnless result StrError.OutOfMemory }
{
    out.codes.push(code)?;
    out.places.push(place)?;
    Ok(())
}
