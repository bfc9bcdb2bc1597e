//! The reader of whole patterns.

ghost use Rattle.std.specs.Prelude.{◌≡◌, ℕ, ◌<◌, ◌≤◌, ◌^◌, ◌-◌, ◌+◌, suc, length, slice_get, IfOk, option_map, Some};
ghost use Rattle.rl_pattern.specs.declared.limits.TheConstants.{MOST_CODES};
ghost use Rattle.rl_pattern.specs.internal.Views.{lex_of, state_of, FitsAt};
ghost use Rattle.rl_pattern.specs.internal.Machine.{step_at, finish_at};
ghost use Rattle.rl_pattern.specs.internal.Answering.{Answered, Went, Ended, is_code, opens_none, at_paren, is_too_deep};

use crate::ends::{finish_lex, start};
use crate::flags::Flags;
use crate::head::behind_paren;
use crate::limits::MOST_OPEN_GROUPS;
use crate::state::{Lex, State};
use crate::step::step;
use crate::tree::Whole;
use rl_lists::OutOfMemory;
use std::alloc::Global;
use std::mem;

/// The reason why codes give no syntax tree. Positions count codes from 0.
#[derive(Clone, Copy)]
pub(crate) enum ReadError {
    /// The codes aren't a pattern. The number is the length of the longest prefix that can be continued to a pattern.
    Syntax(u32),
    /// The code at this position opens a group while [`MOST_OPEN_GROUPS`] groups are open.
    TooDeep(u32),
    /// There was not enough memory.
    OutOfMemory,
}

impl From<OutOfMemory> for ReadError {
    ghost use Rattle.rl_pattern.specs.declared.read.ReadError.TheVariants as error;

    ghost from_gives = { λ _ e. e ≡ error.OutOfMemory };

    fn from(_: OutOfMemory) -> Self {
        ReadError::OutOfMemory
    }
}

/// Whether this character is at the given position.
fn is_code(codes: &[u32], place: usize, character: char) -> bool
    ensures { result ≡ is_code (slice_get codes.now place) character }
{
    match codes.get(place) {
        None => false,
        Some(found) => *found == character as u32,
    }
}

/// Whether the parenthesis at `place` opens no group, because a comment or a reference to a named group follows.
fn opens_none(codes: &[u32], place: usize) -> bool
    requires { place < 2 ^ 32 }
    ensures { result ≡ opens_none codes.now place }
{
    is_code(codes, place + 1, '?')
        && (is_code(codes, place + 2, '#')
            || is_code(codes, place + 2, 'P') && is_code(codes, place + 3, '='))
}

/// Whether the reader has just read the parenthesis of a group's head.
fn at_paren(lex: &Lex) -> bool
    ensures { result ≡ at_paren (lex_of lex.now) }
{
    match lex {
        Lex::InHead(_, head) => behind_paren(head),
        Lex::Between
        | Lex::Line
        | Lex::Comment
        | Lex::InBraces(_, _)
        | Lex::Counted(_, _, _, _)
        | Lex::AtSlash(_)
        | Lex::InEscape(_, _)
        | Lex::SetOpen(_)
        | Lex::InClass(_, _, _) => false,
    }
}

/// Whether a group opens at `place` while [`MOST_OPEN_GROUPS`] groups are open, given the state after its parenthesis.
fn is_too_deep(state: &State, codes: &[u32], place: u32) -> bool
    ensures { result ≡ is_too_deep (state_of state.now) codes.now place }
{
    at_paren(&state.lex)
        && state.base.below.len() == MOST_OPEN_GROUPS
        && !opens_none(codes, place as usize)
}

/// Reads the code at `place`. Returns an error if no pattern can continue with it, or if it opens a group while
/// [`MOST_OPEN_GROUPS`] groups are open.
fn one_code(
    alloc: Global,
    codes: &[u32],
    text: bool,
    place: u32,
    state: &mut State,
    code: u32,
) -> Result<(), ReadError>
    requires room { place < 2 ^ 32 - 1 }
    requires fits { FitsAt (state_of state.old).lex place }
    ensures { Went codes.now place (step_at text place (state_of state.old) code) (state_of state.new) result }
{
    let lex = mem::replace(&mut state.lex, Lex::Between);
    match step(alloc, text, place, &mut state.base, lex, code)? {
        None => Err(ReadError::Syntax(place)),
        Some(lex) => {
            drop(mem::replace(&mut state.lex, lex));
            if is_too_deep(state, codes, place) {
                Err(ReadError::TooDeep(place))
            } else {
                Ok(())
            }
        }
    }
}

/// Returns the syntax tree if a pattern may end at `place`, which is the number of the codes, and otherwise a syntax error
/// there.
fn at_end(alloc: Global, state: State, place: u32) -> Result<Whole, ReadError>
    requires room { place < 2 ^ 32 - 1 }
    requires fits { FitsAt (state_of state).lex place }
    ensures { Ended place (finish_at place (state_of state)) result }
{
    let State { mut base, lex } = state;
    let found = finish_lex(alloc, &mut base, lex, place);
    drop(base);
    match found? {
        Some(whole) => Ok(whole),
        None => Err(ReadError::Syntax(place)),
    }
}

/// Returns the syntax tree that the codes spell under the flags of the call. There must be at most [`MOST_CODES`] codes.
/// `text` says whether they are a `str`.
///
/// # Errors
/// The one that the reader meets first, from left to right:
/// - [`ReadError::TooDeep`] with the first position at which a group opens while [`MOST_OPEN_GROUPS`] groups are open.
/// - [`ReadError::Syntax`] if the codes aren't a pattern, with the length of the longest prefix that can be continued to one.
/// - [`ReadError::OutOfMemory`] if there is not enough memory.
pub(crate) fn read(
    alloc: Global,
    codes: &[u32],
    flags: Flags,
    text: bool,
) -> Result<Whole, ReadError>
    requires { length codes.now ≤ MOST_CODES }
    ensures { Answered flags text codes.now result }
{
    let mut state = start(alloc, flags);
    let mut place = 0;
    for code in codes {
        if let Err(error) = one_code(alloc, codes, text, place, &mut state, *code) {
            drop(state);
            return Err(error);
        }
        place += 1;
    }
    at_end(alloc, state, place)
}
