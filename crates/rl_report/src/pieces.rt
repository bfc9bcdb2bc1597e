//! Appending the pieces that a text report consists of.
ghost use Rattle.std.specs.Prelude.{◌≡◌, ◌++◌, OnOk};
ghost use Rattle.std.specs.Fmt.{decimal};
ghost use Rattle.rl_ranges.specs.Text.{IsText};
ghost use Rattle.rl_report.specs.Layouts.{place_text};
ghost use Rattle.rl_report.specs.Verdicts.{quoted_text};

use crate::places::Place;
use rl_lists::{Codes, OutOfMemory};
use rl_pystr::quote;
use rl_syntax::Universe;
use std::alloc::Global;

/// Appends the bytes of a text to `out`.
///
/// # Errors
/// [`OutOfMemory`] if memory runs out.
pub fn push_text(out: &mut Vec<u8>, text: &str) -> Result<(), OutOfMemory>
    ensures { OnOk result (out.new.items ≡ out.old.items ++ text.now) }
{
    out.extend_from_slice(text.as_bytes())?;
    Ok(())
}

/// Appends a number to `out`, in decimal.
///
/// # Errors
/// [`OutOfMemory`] if memory runs out.
pub fn push_number(alloc: Global, out: &mut Vec<u8>, number: usize) -> Result<(), OutOfMemory>
    ensures { OnOk result (out.new.items ≡ out.old.items ++ decimal number) }
{
    let text = format!(in alloc; "{number}")?;
    push_text(out, text.as_str())
}

/// Appends a place to `out`, as `LINE:COLUMN`.
///
/// # Errors
/// [`OutOfMemory`] if memory runs out.
pub fn push_place(alloc: Global, out: &mut Vec<u8>, place: Place) -> Result<(), OutOfMemory>
    ensures { OnOk result (out.new.items ≡ out.old.items ++ place_text place) }
{
    let line = place.line;
    let column = place.column;
    let text = format!(in alloc; "{line}:{column}")?;
    push_text(out, text.as_str())
}

/// Appends a text of the universe to `out`, as a quoted Python literal of type `str` or `bytes`. Each code of `text` must be
/// one of the universe.
///
/// # Errors
/// [`OutOfMemory`] if memory runs out.
pub fn push_quoted(
    alloc: Global,
    out: &mut Vec<u8>,
    text: &Codes,
    universe: Universe,
) -> Result<(), OutOfMemory>
    requires { IsText universe text.now }
    ensures { OnOk result (out.new.items ≡ out.old.items ++ quoted_text universe text.now) }
{
    let literal = quote(alloc, text, universe)?;
    out.extend_from_slice(literal.as_slice())?;
    Ok(())
}
