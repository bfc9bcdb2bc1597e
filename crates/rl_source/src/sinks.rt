//! Sinks, and writing a whole text to one.
ghost use Rattle.std.specs.Prelude.{◌≡◌, ℕ, ◌<◌, ◌≤◌, List, [], length, Option, Ok, IfOk, OnOk, OnErr};
ghost use Rattle.std.specs.Io.KnownBytes.{Appends, WriteAppends};
ghost use Rattle.rl_source.specs.Faults.{HasCause};
ghost use Rattle.rl_source.specs.Written.{GainsLess};

/// The error of a sink that took none of the bytes offered to it.
#[derive(Clone, Copy, Debug, PartialEq, Eq)]
pub struct SinkFailed;

/// Something to which bytes can be written. It may reveal to contracts the bytes written so far.
pub trait Sink {
    // The bytes written so far, if the sink reveals them.
    ghost bytes: { Self → Option (List ℕ) };
    // The number of writes that failed, at most 2^64 - 1.
    ghost fault_count: { Self → ℕ };

    /// Returns the number of writes that failed so far, at most `u64::MAX`.
    fn faults(&self) -> u64
        ensures { result ≡ fault_count self.now };

    /// Takes at least one byte from the front of a nonempty piece, and returns how many. Takes nothing of an empty piece,
    /// and returns 0.
    ///
    /// # Errors
    /// [`SinkFailed`] if the sink couldn't take a byte. The bytes written so far are unchanged then.
    fn write(&mut self, piece: &[u8]) -> Result<usize, SinkFailed>
        ensures some { 0 < length piece.now → IfOk result (λ n. 0 < n) }
        ensures bound { IfOk result (λ n. n ≤ length piece.now) }
        ensures nothing { piece.now ≡ [] → result ≡ Ok 0 }
        ensures bytes { WriteAppends (bytes self.old) (bytes self.new) result piece.now }
        ensures cause { HasCause (fault_count self.old) (fault_count self.new) result };
}

/// Writes a whole text. Offers all of it first, and then whatever hasn't been taken yet, until everything is taken. Returns
/// `Ok` then, and at once if the text is empty.
///
/// # Errors
/// [`SinkFailed`] if a write failed. In this case the sink has received only a proper prefix of the text, perhaps nothing.
pub fn write_all<O: Sink>(out: &mut O, text: &[u8]) -> Result<(), SinkFailed>
    ensures ok { OnOk result (Appends (O.bytes out.old) (O.bytes out.new) text.now) }
    ensures err { OnErr result (GainsLess (O.bytes out.old) (O.bytes out.new) text.now) }
    ensures cause { HasCause (O.fault_count out.old) (O.fault_count out.new) result }
{
    let mut rest = text;
    while !rest.is_empty() {
        match out.write(rest) {
            Ok(taken) => rest = &rest[taken..],
            Err(failed) => return Err(failed),
        }
    }
    Ok(())
}
