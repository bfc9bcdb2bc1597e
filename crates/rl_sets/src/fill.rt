//! Lengthening a list with a filler.

ghost use Rattle.std.specs.Prelude.{◌≡◌, ℕ, ◌≤◌, max, length, slice_index_or, OnOk};

use rl_lists::OutOfMemory;

/// Appends `filler` until the list has `len` items. A list that already has as many or more is unchanged.
pub(crate) fn lengthen<T: Copy + Drop>(
    list: &mut Vec<T>,
    len: usize,
    filler: T,
) -> Result<(), OutOfMemory>
    ensures same { (n : ℕ) → slice_index_or list.new.items n filler ≡ slice_index_or list.old.items n filler }
    ensures long { OnOk result (len ≤ length list.new.items) }
    ensures short { length list.new.items ≤ max (length list.old.items) len }
{
    if len <= list.len() {
        return Ok(());
    }
    list.resize(len, filler)?;
    Ok(())
}
