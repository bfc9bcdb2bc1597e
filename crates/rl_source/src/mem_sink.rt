//! A sink in memory, whose writes can be made short and can be made to fail.
ghost use Rattle.std.specs.Prelude.{◌≡◌, ◌<◌, ◌≤◌, [], true, false, length, Some, Ok, IfOk, IsErr, vec_len, vec_capacity};
ghost use Rattle.std.specs.Io.KnownBytes.{WriteAppends};
ghost use Rattle.rl_source.specs.Faults.{HasCause};
ghost use Rattle.rl_source.specs.MemSinkState.{MemSinkState, write_fails, taken_of, after_fault, after_taking};

use crate::sinks::{Sink, SinkFailed};
use rl_lists::OutOfMemory;
use std::alloc::Global;
use std::marker::Model;

/// A sink that keeps what is written to it, with room for a fixed number of bytes.
///
/// The writes of nonempty pieces are numbered from 1. Such a write fails if its number is one of those that were chosen to
/// fail, or if no room is left. Any other write takes as many bytes as possible, limited by the step, the length of the
/// piece and the room that is left. No write allocates memory.
#[derive(Drop)]
pub struct MemSink {
    /// The bytes written so far.
    bytes: Vec<u8>,
    /// The maximum number of bytes that a write takes.
    step: usize,
    /// The maximum number of bytes in total.
    room: usize,
    /// The numbers, from 1, of the writes that were chosen to fail.
    failing: Vec<u64>,
    /// The number of writes of nonempty pieces, at most 2^64 - 1.
    calls: u64,
    /// The number of writes that failed, at most 2^64 - 1.
    faults: u64,
}

impl Model for MemSink {
    ghost Value = { MemSinkState };

    ghost view = { λ s. record {
      bytes = s.bytes.items;
      step = s.step;
      room = s.room;
      failing = s.failing.items;
      calls = s.calls;
      faults = s.faults;
    } };

    ghost invariant = { λ s. (0 < s.step) × (vec_len s.bytes ≤ s.room) × (s.room ≤ vec_capacity s.bytes) };
}

impl MemSink {
    /// Returns an empty sink with room for `room` bytes, whose writes take at most `step` bytes each. `step` must not be 0.
    /// The writes of nonempty pieces with the numbers in `failing`, counted from 1, fail.
    ///
    /// # Errors
    /// [`OutOfMemory`] if there is no memory for the room.
    pub fn new(
        alloc: Global,
        step: usize,
        room: usize,
        failing: Vec<u64>,
    ) -> Result<MemSink, OutOfMemory>
        requires { 0 < step }
        ensures { IfOk result (λ sink. sink ≡ record {
          bytes = [];
          step = step;
          room = room;
          failing = failing.items;
          calls = 0;
          faults = 0;
        }) }
    {
        let bytes = Vec::with_capacity(alloc, room)?;
        Ok(MemSink {
            bytes,
            step,
            room,
            failing,
            calls: 0,
            faults: 0,
        })
    }

    /// Returns the bytes written so far.
    pub fn bytes(&self) -> &[u8]
        ensures { result.now ≡ self.now.bytes }
    {
        self.bytes.as_slice()
    }

    /// Whether the next write fails.
    fn write_fails(&self) -> bool
        ensures { result ≡ write_fails self.now }
    {
        self.failing.contains(&self.calls.saturating_add(1)) || self.room <= self.bytes.len()
    }
}

impl Sink for MemSink {
    ghost bytes = { λ s. Some s.bytes };

    ghost fault_count = { λ s. s.faults };

    fn faults(&self) -> u64 {
        self.faults
    }

    fn write(&mut self, piece: &[u8]) -> Result<usize, SinkFailed>
        ensures some { 0 < length piece.now → IfOk result (λ n. 0 < n) }
        ensures bound { IfOk result (λ n. n ≤ length piece.now) }
        ensures nothing { piece.now ≡ [] → result ≡ Ok 0 }
        ensures bytes { WriteAppends (Some self.old.bytes) (Some self.new.bytes) result piece.now }
        ensures cause { HasCause self.old.faults self.new.faults result }
        ensures still { piece.now ≡ [] → self.new ≡ self.old }
        ensures fails { 0 < length piece.now → write_fails self.old ≡ true
            → IsErr result × (self.new ≡ after_fault self.old) }
        ensures takes { 0 < length piece.now → write_fails self.old ≡ false
            → (result ≡ Ok (taken_of self.old piece.now)) × (self.new ≡ after_taking self.old piece.now) }
    {
        if piece.is_empty() {
            return Ok(0);
        }
        let fails = self.write_fails();
        self.calls = self.calls.saturating_add(1);
        if fails {
            self.faults = self.faults.saturating_add(1);
            return Err(SinkFailed);
        }
        let taken = self.step.min(piece.len()).min(self.room - self.bytes.len());
        self.bytes.extend_from_slice(&piece[..taken]).unwrap();
        Ok(taken)
    }
}
