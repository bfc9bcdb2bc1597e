//! Messages on the error output.

ghost use Rattle.std.specs.Prelude.{◌≤◌};
ghost use Rattle.rl_ask.specs.Sinks.{GainsMessage, sink_change};

use rl_source::{Sink, write_all};

/// Writes a message on the error output. If a write fails, the rest of the message is dropped.
pub(crate) fn write_message<E: Sink>(err: &mut E, text: &str)
    ensures message { GainsMessage text.now (sink_change E.bytes E.fault_count err.old err.new) }
    ensures counts { E.fault_count err.old ≤ E.fault_count err.new }
{
    let _ = write_all(err, text.as_bytes());
}
