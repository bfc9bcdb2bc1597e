//! Worked examples: patterns whose search is undecided, since it has more than 600 live pairs, while their match isn't.

ghost use Rattle.std.specs.Prelude.{IfOk};
ghost use Rattle.rl_ranges.specs.Text.{IsText};

use crate::bounds::{AtLeast, Bounds, search_bounds};
use rl_lists::{Codes, Items, OutOfMemory};
use rl_pattern::{Flags, PatError, parse};
use rl_syntax::Universe;
use std::alloc::Global;

/// The flags of a call without flags.
const NO_FLAGS: Flags = Flags {
    ignore_case: false,
    multiline: false,
    dot_all: false,
    verbose: false,
    ascii: false,
    unicode: false,
    locale: false,
};

/// Returns the codes of a text of ASCII.
fn codes_of(alloc: Global, text: &str) -> Result<Codes, OutOfMemory>
    ensures { IfOk result (IsText Universe.Str) }
{
    let mut codes = Items::new(alloc);
    for byte in text.as_bytes() {
        codes.push(u32::from(*byte))?;
    }
    Ok(codes)
}

/// Returns the bounds that the match of the pattern gives for its search, with at most 600 live pairs, or `None` if the text
/// isn't a pattern.
fn bounds_of(alloc: Global, text: &str) -> Result<Option<Bounds>, OutOfMemory> {
    let codes = codes_of(alloc, text)?;
    match parse(alloc, &codes, NO_FLAGS, Universe::Str) {
        Ok(pattern) => {
            let found = search_bounds(alloc, &pattern, 600)?;
            Ok(Some(found))
        }
        Err(PatError::OutOfMemory) => Err(OutOfMemory),
        Err(_) => Ok(None),
    }
}

/// How a lower bound grows.
#[derive(Clone, Copy, PartialEq, Eq)]
enum Growth {
    /// There is no lower bound.
    None,
    /// Like this power.
    Degree(u32),
    /// Exponentially.
    Expo,
}

/// Returns whether the lower bound grows like this, and the upper bound is this one.
fn are(found: &Option<Bounds>, growth: Growth, most: Option<u32>) -> bool {
    match found {
        None => false,
        Some(found) => {
            let grown = match &found.at_least {
                None => Growth::None,
                Some(AtLeast::Degree(degree, _)) => Growth::Degree(*degree),
                Some(AtLeast::Expo(_)) => Growth::Expo,
            };
            grown == growth && found.at_most == most
        }
    }
}

/// Tests matches that cost at most a constant: 64 digits, and 45 dashes.
#[test]
fn constant_matches(rt: HostRuntime) -> Result<(), OutOfMemory> {
    let digits = bounds_of(rt.alloc(), "[0-9a-f]{64}")?;
    assert!(rt; are(&digits, Growth::None, Some(1)));
    let dashes = bounds_of(rt.alloc(), "---------------------------------------------")?;
    assert!(rt; are(&dashes, Growth::None, Some(1)));
    Ok(())
}

/// Tests matches that are exponential behind a long prefix.
#[test]
fn exponential_matches(rt: HostRuntime) -> Result<(), OutOfMemory> {
    let twice = bounds_of(rt.alloc(), "[ab]{60}(?:a|a)*$")?;
    assert!(rt; are(&twice, Growth::Expo, None));
    let nested = bounds_of(rt.alloc(), r"[0-9a-f]{64}(?:a*)*\Z")?;
    assert!(rt; are(&nested, Growth::Expo, None));
    Ok(())
}

/// Tests a match of degree 2.
#[test]
fn squared_match(rt: HostRuntime) -> Result<(), OutOfMemory> {
    let stars = bounds_of(rt.alloc(), "[0-9a-f]{40}a*a*$")?;
    assert!(rt; are(&stars, Growth::Degree(2), Some(3)));
    Ok(())
}

/// Tests guards that look behind. The match of `\B` at the start of a text tells nothing of its matches behind characters.
#[test]
fn guards_behind(rt: HostRuntime) -> Result<(), OutOfMemory> {
    let end = bounds_of(rt.alloc(), r"[0-9a-f]{64}\b")?;
    assert!(rt; are(&end, Growth::None, Some(1)));
    let squared = bounds_of(rt.alloc(), r"\Ba*a*$")?;
    assert!(rt; are(&squared, Growth::None, Some(3)));
    let exponential = bounds_of(rt.alloc(), r"\B(?:a|a)*$")?;
    assert!(rt; are(&exponential, Growth::None, None));
    Ok(())
}

/// Tests a guard that doesn't look behind.
#[test]
fn guard_ahead(rt: HostRuntime) -> Result<(), OutOfMemory> {
    let line = bounds_of(rt.alloc(), "(?m:[0-9a-f]{64}$)")?;
    assert!(rt; are(&line, Growth::None, Some(1)));
    Ok(())
}
