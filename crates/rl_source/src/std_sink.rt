//! A sink over a writer.
ghost use Rattle.std.specs.Prelude.{◌≡◌, ◌<◌, ◌≤◌, [], length, Ok, IfOk};
ghost use Rattle.std.specs.Io.{WritesAtMost};
ghost use Rattle.std.specs.Io.KnownBytes.{WriteAppends};
ghost use Rattle.rl_source.specs.Faults.{HasCause};
ghost use Rattle.rl_source.specs.SinkOver.{SinkOver, CountsErrors};

use crate::sinks::{Sink, SinkFailed};
use std::io;
use std::io::{ErrorKind, Write};
use std::marker::Model;

/// A sink over a writer such as standard output. It reveals to contracts what its writer reveals.
#[derive(Drop)]
pub struct StdSink<W: Write> {
    /// The writer.
    writer: W,
    /// The number of writes that failed, at most 2^64 - 1.
    faults: u64,
}

impl<W: Write> Model for StdSink<W> {
    ghost Value = { SinkOver W };

    ghost view = { λ s. record { writer = s.writer; faults = s.faults } };
}

impl<W: Write> StdSink<W> {
    /// Returns a sink over this writer. Its fault count is 0.
    pub fn new(writer: W) -> StdSink<W>
        ensures { result ≡ record { writer = writer; faults = 0 } }
    {
        StdSink { writer, faults: 0 }
    }
}

impl<W: Write> Sink for StdSink<W> {
    ghost bytes = { λ s. W.contents s.writer };

    ghost fault_count = { λ s. s.faults };

    fn faults(&self) -> u64 {
        self.faults
    }

    /// Writes to the writer. If the writer takes nothing of a nonempty piece, the write fails, just as if the writer had
    /// returned an error.
    fn write(&mut self, piece: &[u8]) -> Result<usize, SinkFailed>
        ensures some { 0 < length piece.now → IfOk result (λ n. 0 < n) }
        ensures bound { IfOk result (λ n. n ≤ length piece.now) }
        ensures nothing { piece.now ≡ [] → result ≡ Ok 0 }
        ensures bytes { WriteAppends (W.contents self.old.writer) (W.contents self.new.writer) result piece.now }
        ensures cause { HasCause self.old.faults self.new.faults result }
        ensures counts { CountsErrors self.old.faults self.new.faults result }
    {
        if piece.is_empty() {
            return Ok(0);
        }
        match write_patiently(&mut self.writer, piece) {
            Ok(taken) if taken > 0 => Ok(taken),
            _ => {
                self.faults = self.faults.saturating_add(1);
                Err(SinkFailed)
            }
        }
    }
}

/// Writes once, and tries again if the write was interrupted.
fn write_patiently<W: Write>(writer: &mut W, piece: &[u8]) -> io::Result<usize>
    ensures bound { WritesAtMost result piece.now }
    ensures bytes { WriteAppends (W.contents writer.old) (W.contents writer.new) result piece.now }
{
    for _ in 0..u64::MAX {
        match writer.write(piece) {
            Err(error) if error.kind() == ErrorKind::Interrupted => {}
            answer => return answer,
        }
    }
    Err(io::Error::from(ErrorKind::Interrupted))
}
