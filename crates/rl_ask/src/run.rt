//! The top call: a whole run of `relint-ask`, for any words, any input and any outputs.

ghost use Rattle.std.specs.Prelude.{map};
ghost use Rattle.std.specs.String.{string_bytes};
ghost use Rattle.rl_ask.specs.Runs.{EndsLines, Runs};
ghost use Rattle.rl_ask.specs.Sinks.{sink_change};

use crate::messages::write_message;
use crate::replies::{RepliesEnd, reply_all};
use rl_source::Sink;
use std::alloc::Global;
use std::io::BufRead;

/// Replies to each line of the input, and returns the status of the run.
fn all_replied<R: BufRead, O: Sink, E: Sink>(
    alloc: Global,
    input: &mut R,
    out: &mut O,
    err: &mut E,
) -> u8
    ensures { EndsLines (R.remaining input.old) (sink_change O.bytes O.fault_count out.old out.new)
        (sink_change E.bytes E.fault_count err.old err.new) result }
{
    match reply_all(alloc, input, out) {
        RepliesEnd::AtEnd => {
            write_message(err, "");
            0
        }
        RepliesEnd::Unreadable => {
            write_message(err, "relint: input unreadable\n");
            3
        }
        RepliesEnd::WriteFault => {
            write_message(err, "relint: write fault\n");
            4
        }
        RepliesEnd::OutOfMemory => {
            write_message(err, "relint: want of memory\n");
            5
        }
    }
}

/// Replies to each line of the input, and returns the status of the run. There must be no words.
///
/// | Status | Comes |
/// |---|---|
/// | 0 | if each line of the input has its reply |
/// | 2 | if there are words |
/// | 3 | if the input couldn't be read |
/// | 4 | if a write to `out` failed |
/// | 5 | if it was out of memory for a line |
///
/// Each line is a question, and its reply is written to `out` before the next line is read. With the statuses from 2 to 5 a
/// message is written to `err`; a write to `err` that fails changes no status, and the rest of the message is dropped.
pub fn ask_main<R: BufRead, O: Sink, E: Sink>(
    alloc: Global,
    words: &Vec<String>,
    input: &mut R,
    out: &mut O,
    err: &mut E,
) -> u8
    ensures run { Runs (map string_bytes words.now.items) (R.remaining input.old)
        (sink_change O.bytes O.fault_count out.old out.new)
        (sink_change E.bytes E.fault_count err.old err.new) result }
{
    if words.as_slice().is_empty() {
        all_replied(alloc, input, out, err)
    } else {
        write_message(err, "usage: relint-ask\n");
        2
    }
}
