//! JSON values as lines of text.
//!
//! [`line_of`] writes a value of `serde_json` as its compact text, followed by a line feed. It is used for reports, SARIF
//! documents and certificates. The lemmas of this crate say how such a line is read back, and the crates that read their
//! own documents build on them.
//!
//! # What is proved
//!
//! The bytes are the compact text of the value and one line feed. The value must not contain a floating-point number.
//!
//! # Example
//!
//! ```
//! let value = json!(in alloc; {"b": 1, "a": [true, "x\n", null]})?;
//! line_of(alloc, &value)?; // {"a":[true,"x\n",null],"b":1} and a line feed
//! ```
//!
//! This crate has no definitions of its own: the compact text of a value is defined in `serde_json`.
#![tactic(auto)]

ghost use Rattle.std.specs.Prelude.{◌≡◌, ◌++◌, IfOk, codes, false};
ghost use Rattle.serde_json.specs.View.{view};
ghost use Rattle.serde_json.specs.Written.{compact_text, has_float};

use rl_lists::{Bytes, OutOfMemory};
use serde_json::Value;
use std::alloc::Global;

/// Returns a value as one line: its compact text and a line feed. The value must not contain a floating-point number at any
/// depth.
///
/// # Errors
/// [`OutOfMemory`] if there is not enough memory.
pub fn line_of(alloc: Global, value: &Value) -> Result<Bytes, OutOfMemory>
    requires { has_float (view value.now) ≡ false }
    ensures { IfOk result (λ line. line ≡ compact_text (view value.now) ++ codes "\n") }
{
    let mut line = value.to_vec(alloc)?;
    line.push(b'\n')?;
    Ok(Bytes::from_vec(line))
}
