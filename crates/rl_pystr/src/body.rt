//! The value of a literal's body: the values of its units in order. A unit is a single code point, a line end, or an escape. A
//! place is a byte index in the source, counted from 0.
ghost use Rattle.std.specs.Prelude.{◌≡◌, ℕ, ◌+◌, ◌*◌, ◌^◌, ◌<◌, ◌≤◌, ◌-◌, drop, length, slice_index, IfOk, IfErr, OnOk, Ok, IsUtf8};
ghost use Rattle.std.specs.Str.{chars};
ghost use Rattle.std.specs.Char.{len_utf8};
ghost use Rattle.rl_pystr.specs.Escapes.{size_of};
ghost use Rattle.rl_pystr.specs.Values.{joined_results, given, refusal, value_from, IsRefused};

use crate::StrError;
use crate::escapes::{Cause, Gives, unit};
use crate::placed::{Placed, push_code};
use std::alloc::Global;

fn refusal(cause: Cause, place: u32) -> StrError
    ensures { result ≡ refusal cause place }
{
    match cause {
        Cause::BadEscape => StrError::BadEscape(place),
        Cause::NamedEscape => StrError::NamedEscape(place),
        Cause::NotAscii => StrError::NotAscii(place),
    }
}

fn size_of(gives: Gives) -> usize
    ensures { result ≡ size_of gives }
{
    match gives {
        Gives::Nothing(size) | Gives::One(_, size) => size,
        Gives::Both(_) => 2,
        Gives::Refuses(_, _) => 1,
    }
}

/// Appends what a unit at a place gives.
#[tactic(auto, using(crate::proofs::Bodies::refusals))]
fn push_given(out: &mut Placed, gives: Gives, place: u32) -> Result<(), StrError>
    requires { place + 256 < 2 ^ 32 }
    ensures ok { OnOk result (Ok out.new ≡ joined_results (Ok out.old) (given gives place)) }
    ensures err { IfErr result (IsRefused (joined_results (Ok out.old) (given gives place))) }
{
    match gives {
        Gives::Nothing(_) => Ok(()),
        Gives::One(code, _) => push_code(out, code, place),
        Gives::Both(code) => {
            push_code(out, '\\' as u32, place)?;
            push_code(out, code, place)
        }
        Gives::Refuses(cause, offset) => Err(refusal(cause, place + offset as u32)),
    }
}

/// Skips the first code point of a body, or reads the unit that begins there and appends what it gives. Returns the number of
/// code points after the first that are still to be skipped.
#[tactic(auto, using(crate::proofs::Bodies::steps))]
fn step(
    out: &mut Placed,
    raw: bool,
    bytes: bool,
    place: u32,
    skip: usize,
    body: &[char],
) -> Result<usize, StrError>
    requires some { 0 < length body.now }
    requires place { place + 256 < 2 ^ 32 }
    ensures ok { IfOk result (λ next. joined_results (Ok out.old) (value_from raw bytes place skip body.now) ≡ joined_results (Ok out.new) (value_from raw bytes (place + len_utf8 (slice_index body.now 0)) next (drop 1 body.now))) }
    ensures err { IfErr result (IsRefused (joined_results (Ok out.old) (value_from raw bytes place skip body.now))) }
{
    if skip > 0 {
        return Ok(skip - 1);
    }
    let gives = unit(raw, bytes, body);
    push_given(out, gives, place)?;
    Ok(size_of(gives).saturating_sub(1))
}

/// Appends the value of a body to `out`. Its first code point is at the byte place `first` of the source. `raw` says whether
/// the literal is raw, and `bytes` whether it is one of bytes. `first + 4 * body.len() + 256` must be less than 2^32, so that
/// every place fits in 32 bits.
///
/// # Errors
/// The first fault in the body, or [`StrError::OutOfMemory`] if memory runs out. What `out` has afterwards isn't specified.
#[tactic(auto, using(crate::proofs::Bodies::refusals))]
pub fn push_body(
    out: &mut Placed,
    raw: bool,
    bytes: bool,
    first: u32,
    body: &[char],
) -> Result<(), StrError>
    requires { first + 4 * length body.now + 256 < 2 ^ 32 }
    ensures ok { OnOk result (Ok out.new ≡ joined_results (Ok out.old) (value_from raw bytes first 0 body.now)) }
    ensures err { IfErr result (IsRefused (joined_results (Ok out.old) (value_from raw bytes first 0 body.now))) }
{
    let mut place = first;
    let mut skip = 0;
    let mut rest = body;
    while let [code, after @ ..] = rest {
        skip = step(out, raw, bytes, place, skip, rest)?;
        place += code.len_utf8() as u32;
        rest = after;
    }
    Ok(())
}

/// Returns the code points that these bytes encode, which must be UTF-8.
///
/// # Errors
/// [`StrError::OutOfMemory`] if memory runs out.
pub fn decoded(alloc: Global, bytes: &[u8]) -> Result<Vec<char>, StrError>
    requires { IsUtf8 bytes.now }
    ensures value { IfOk result (λ codes. codes.items ≡ chars bytes.now) }
    ensures short { IfOk result (λ codes. length codes.items ≤ length bytes.now) }
    ensures memory { IfErr result (λ e. e ≡ StrError.OutOfMemory) }
{
    match str::from_utf8(bytes) {
        Ok(text) => {
            let codes = text.chars().collect(alloc)?;
            Ok(codes)
        }
        Err(_) => unreachable!(),
    }
}
