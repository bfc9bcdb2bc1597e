//! Parsing: from codes to patterns.

ghost use Rattle.std.specs.Prelude.{◌≡◌, ℕ, ◌<◌, ◌≤◌, List, IfOk, length};
ghost use Rattle.rl_ranges.specs.Text.{IsText};
ghost use Rattle.rl_syntax.specs.IsPattern.{IsPattern};
ghost use Rattle.rl_pattern.specs.Grammar.{Spells};
ghost use Rattle.rl_pattern.specs.internal.Judged.{left_of, IsOutcome, IsReading};
ghost use Rattle.rl_pattern.specs.Parsed.{IsParsed};
ghost use Rattle.rl_pattern.specs.Beyond.{IsParsedBeyond, IsPatternIn};
ghost use Rattle.rl_pattern.specs.Profile as profiles;
ghost use Rattle.rl_pattern.specs.Shape.{is_text, shape_in};
ghost use Rattle.rl_pattern.specs.internal.Views.{whole_of};

use crate::faults::refused_flags;
use crate::flags::Flags;
use crate::inner::Inner;
use crate::limits::MOST_CODES;
use crate::profile::{Dollar, Profile, for_body};
use crate::read::{ReadError, read};
use crate::refused::{Judged, judge};
use crate::shape::{is_text, node_pat};
use crate::tree::Whole;
use rl_lists::OutOfMemory;
use rl_ranges::{Codes, Universe};
use rl_syntax::{Feature, Pattern};
use std::alloc::Global;

/// The reason why codes give no pattern. Positions count codes from 0.
#[derive(Clone, Copy)]
pub enum PatError {
    /// The codes aren't a pattern. The number is the length of the longest prefix that can be continued to a pattern.
    Syntax(u32),
    /// A group opens at this position while [`MOST_OPEN_GROUPS`](crate::MOST_OPEN_GROUPS) groups are open.
    TooDeep(u32),
    /// There are more than [`MOST_CODES`](crate::MOST_CODES) codes.
    TooLong,
    /// The pattern or a flag of the call is refused. This is the first feature that is refused, with its position. For a flag
    /// of the call, the position is 0.
    Outside(u32, Feature),
    /// There was not enough memory.
    OutOfMemory,
}

impl From<OutOfMemory> for PatError {
    ghost use Rattle.std.specs.Prelude.{◌≡◌};
    ghost use Rattle.rl_pattern.specs.declared.parsing.PatError.TheVariants as error;

    ghost from_gives = { λ _ e. e ≡ error.OutOfMemory };

    fn from(_: OutOfMemory) -> Self {
        PatError::OutOfMemory
    }
}

/// Returns the pattern of a syntax tree without outer anchors, under the profile.
fn pattern_of(
    alloc: Global,
    profile: Profile,
    left: Inner,
    universe: Universe,
) -> Result<Pattern, OutOfMemory>
    requires { IsPattern universe (shape_in (profiles.for_body profile (left_of left).trail) universe (left_of left).body) }
    ensures { IfOk result (IsPatternIn profile universe (left_of left)) }
{
    let inner = for_body(profile, left.trailing);
    let body = node_pat(alloc, inner, universe, &left.body);
    let (leading, trailing) = (left.leading, left.trailing);
    drop(left);
    Ok(Pattern::new(body?, leading, trailing, universe))
}

/// Returns the result of parsing by the profile if the codes spell this syntax tree: its pattern, or the fault that is
/// reported.
fn outcome(
    alloc: Global,
    profile: Profile,
    whole: Whole,
    flags: Flags,
    universe: Universe,
) -> Result<Pattern, PatError>
    requires { (w : List ℕ) × Spells flags (is_text universe) w (whole_of whole) }
    ensures { IsOutcome profile flags universe (whole_of whole) result }
{
    match judge(alloc, profile, flags, is_text(universe), whole)? {
        Judged::Refused(fault) => Err(PatError::Outside(fault.place, fault.what)),
        Judged::Left(left) => Ok(pattern_of(alloc, profile, left, universe)?),
    }
}

/// Returns the syntax tree that the codes spell under the flags of the call, or the error that applies if they aren't read or
/// spell none.
fn reading(
    alloc: Global,
    codes: &Codes,
    flags: Flags,
    universe: Universe,
) -> Result<Whole, PatError>
    requires { IsText universe codes.now }
    ensures { IsReading flags universe codes.now result }
{
    if codes.len() > MOST_CODES {
        return Err(PatError::TooLong);
    }
    let text = is_text(universe);
    match refused_flags(flags, text) {
        Some(what) => Err(PatError::Outside(0, what)),
        None => match read(alloc, codes.as_slice(), flags, text) {
            Ok(whole) => Ok(whole),
            Err(ReadError::Syntax(place)) => Err(PatError::Syntax(place)),
            Err(ReadError::TooDeep(place)) => Err(PatError::TooDeep(place)),
            Err(ReadError::OutOfMemory) => Err(PatError::OutOfMemory),
        },
    }
}

/// Returns the pattern that the codes spell under the flags of the call, by the grammar of Python's `re`. All codes must
/// belong to the universe: below 0x110000 for `Str`, and below 256 for `Bytes`.
///
/// # Errors
/// [`PatError::OutOfMemory`] if there is not enough memory. Otherwise, the first of these that applies:
/// - [`PatError::TooLong`] if there are more than [`MOST_CODES`](crate::MOST_CODES) codes.
/// - [`PatError::Outside`] at 0 if the flags contain LOCALE, or UNICODE together with ASCII or for a `bytes` pattern.
/// - [`PatError::TooDeep`] if a group opens while [`MOST_OPEN_GROUPS`](crate::MOST_OPEN_GROUPS) groups are open, and the codes
///   up to there can be continued to a pattern. It has the first such position, counting codes from 0.
/// - [`PatError::Syntax`] if the codes aren't a pattern, with the length of the longest prefix that can be continued to one.
/// - [`PatError::Outside`] if the pattern has a feature that is refused: the first one, with its position.
pub fn parse(
    alloc: Global,
    codes: &Codes,
    flags: Flags,
    universe: Universe,
) -> Result<Pattern, PatError>
    requires { IsText universe codes.now }
    ensures { IsParsed flags universe codes.now result }
{
    match reading(alloc, codes, flags, universe) {
        Ok(whole) => outcome(alloc, Profile::Narrow, whole, flags, universe),
        Err(error) => Err(error),
    }
}

/// Returns the pattern that the codes spell under the flags of the call, as [`parse`] does, but reads more of them: lookarounds
/// of one character, such as `(?=[ab])` or `(?<!\d|_)`, and a `$` without MULTILINE that ends the pattern inside a group or a
/// branch of a choice. `dollar` says what becomes of such a `$`. All codes must belong to the universe: below 0x110000 for
/// `Str`, and below 256 for `Bytes`.
///
/// # Errors
/// Those of [`parse`]. [`PatError::Outside`] has the first feature that is refused here too.
pub fn parse_beyond(
    alloc: Global,
    codes: &Codes,
    flags: Flags,
    universe: Universe,
    dollar: Dollar,
) -> Result<Pattern, PatError>
    requires { IsText universe codes.now }
    ensures { IsParsedBeyond dollar flags universe codes.now result }
{
    match reading(alloc, codes, flags, universe) {
        Ok(whole) => outcome(alloc, Profile::Wide(dollar), whole, flags, universe),
        Err(error) => Err(error),
    }
}
