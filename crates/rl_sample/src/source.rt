//! The generated source.
ghost use Rattle.std.specs.Prelude.{◌≡◌, ◌++◌, ◌<◌, ◌≤◌, ◌^◌, IfOk, OnOk};
ghost use Rattle.rl_sample.specs.Generator.{line_of, source_of};

use crate::patterns::{next_value, pattern_of};
use rl_lists::{Bytes, OutOfMemory};
use std::alloc::Global;

/// Appends the line for a number of the generator.
fn push_line(text: &mut Vec<u8>, value: u32) -> Result<(), OutOfMemory>
    ensures { OnOk result (text.new.items ≡ text.old.items ++ line_of value) }
{
    text.extend_from_slice(b"re.fullmatch(r\"")?;
    text.extend_from_slice(pattern_of(value).as_bytes())?;
    text.extend_from_slice(b"\", s)\n")?;
    Ok(())
}

/// Returns the source for this seed: a line `import re`, followed by `count` lines, each a call of `re.fullmatch` with one of
/// eight patterns. `seed` must be less than 2^31, and `count` must be from 1 to 20,000.
///
/// # Errors
/// [`OutOfMemory`] if there is not enough memory.
pub fn sample_source(alloc: Global, seed: u32, count: u32) -> Result<Bytes, OutOfMemory>
    requires seed { seed < 2 ^ 31 }
    requires some { 1 ≤ count }
    requires few { count ≤ 20000 }
    ensures { IfOk result (λ text. text ≡ source_of seed count) }
{
    let mut text = Vec::from_slice(alloc, b"import re\n")?;
    let mut value = seed;
    for _line in 0..count {
        value = next_value(value);
        push_line(&mut text, value)?;
    }
    Ok(Bytes::from_vec(text))
}
