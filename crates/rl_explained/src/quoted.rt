//! Texts as quoted literals of Python.

ghost use Rattle.std.specs.Prelude.{◌≡◌, [], All, IfOk, slice_index_or};
ghost use Rattle.serde_json.specs.Data.{string};
ghost use Rattle.serde_json.specs.View.{view};
ghost use Rattle.rl_ranges.specs.Text.{IsText};
ghost use Rattle.rl_report.specs.Verdicts.{quoted_text};

use rl_lists::{Codes, OutOfMemory};
use rl_pystr::quote;
use rl_syntax::Universe;
use serde_json::Value;
use std::alloc::Global;

/// Returns a text as a quoted literal, which is always ASCII.
fn quoted_value(alloc: Global, text: &Codes, universe: Universe) -> Result<Value, OutOfMemory>
    requires { IsText universe text.now }
    ensures { IfOk result (λ v. view v ≡ string (quoted_text universe text.now)) }
{
    let literal = quote(alloc, text, universe)?;
    match String::from_utf8(literal.into_vec()) {
        Ok(text) => Ok(Value::from(text)),
        Err(_) => unreachable!(),
    }
}

/// Returns the text with this index as a quoted literal, or the empty text if there is none.
pub(crate) fn text_at(
    alloc: Global,
    texts: &[Codes],
    index: usize,
    universe: Universe,
) -> Result<Value, OutOfMemory>
    requires { All (IsText universe) texts.now }
    ensures { IfOk result (λ v. view v
        ≡ string (quoted_text universe (slice_index_or texts.now index []))) }
{
    match texts.get(index) {
        Some(text) => quoted_value(alloc, text, universe),
        None => quoted_value(alloc, &Codes::new(alloc), universe),
    }
}
