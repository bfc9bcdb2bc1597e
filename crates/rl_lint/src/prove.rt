//! The action `prove`. It writes a certificate, which is data that shows that a verdict is right. A live pair is a state of
//! the pattern's automaton with the set of states that were tried before it.
ghost use Rattle.std.specs.Prelude.{◌≡◌, ◌≤◌, false, IfErr, IfOk};
ghost use Rattle.std.specs.Str.{chars};
ghost use Rattle.rl_ranges.specs.declared.universe.Universe.TheVariants.{Str};
ghost use Rattle.rl_syntax.specs.Pattern.{pattern_ending, pattern_tree, universe_of};
ghost use Rattle.rl_lint.specs.Endings.{writes};
ghost use Rattle.rl_lint.specs.internal.Plans.{ending_of};
ghost use Rattle.rl_lint.specs.internal.Made.{IsMade, IsNotMade};
ghost use Rattle.rl_lint.specs.Patterns.{ParsesThen, text_question};
ghost use Rattle.rl_lint.specs.ProveEnding.{ProveEnds};

use crate::messages::undecided_line;
use crate::pattern_argument::{PatternArgument, parse_argument};
use crate::plan::Plan;
use rl_cert::{CertError, Certificate, make, write};
use rl_lists::{Bytes, OutOfMemory};
use rl_syntax::{Limit, LowerError, Mode, Pattern, Universe, lower};
use std::alloc::Global;

/// Returns a certificate for a text pattern in a mode.
///
/// # Errors
/// The errors of [`make`], and [`CertError::Undecided`] with [`Limit::Size`] if the pattern has more than 4,000 nodes.
fn certificate_of(
    alloc: Global,
    pattern: &Pattern,
    mode: Mode,
    max_pairs: u32,
) -> Result<Certificate, CertError>
    requires of_text { universe_of pattern.now ≡ Str }
    requires some { 1 ≤ max_pairs }
    requires few { max_pairs ≤ 1000 }
    ensures made { IfOk result (IsMade (text_question max_pairs (pattern_tree pattern.now mode) (pattern_ending pattern.now mode))) }
    ensures not_made { IfErr result (IsNotMade (text_question max_pairs (pattern_tree pattern.now mode) (pattern_ending pattern.now mode))) }
{
    match lower(alloc, pattern, mode) {
        Ok(lowered) => {
            let made = make(alloc, &lowered, Universe::Str, max_pairs);
            drop(lowered);
            made
        }
        Err(LowerError::TooLarge) => Err(CertError::Undecided(Limit::Size)),
        Err(LowerError::OutOfMemory) => Err(CertError::OutOfMemory),
    }
}

/// Returns the plan to write a text that has no finding.
fn text_plan(text: Bytes) -> Plan
    ensures { ending_of result ≡ writes text false false }
{
    Plan::Writes {
        text,
        finding: false,
        failed: false,
    }
}

/// Returns the plan of `prove` for a parsed text pattern in a mode.
///
/// # Errors
/// [`OutOfMemory`] if memory runs out.
fn pattern_plan(
    alloc: Global,
    pattern: &Pattern,
    mode: Mode,
    max_pairs: u32,
) -> Result<Plan, OutOfMemory>
    requires of_text { universe_of pattern.now ≡ Str }
    requires some { 1 ≤ max_pairs }
    requires few { max_pairs ≤ 1000 }
    ensures { IfOk result (λ plan. ProveEnds (text_question max_pairs (pattern_tree pattern.now mode) (pattern_ending pattern.now mode))
        (ending_of plan)) }
{
    match certificate_of(alloc, pattern, mode, max_pairs) {
        Ok(certificate) => {
            let text = write(alloc, &certificate);
            drop(certificate);
            Ok(text_plan(text?))
        }
        Err(CertError::Undecided(limit)) => {
            Ok(text_plan(undecided_line(alloc, max_pairs, limit)?))
        }
        Err(CertError::TooLarge) => {
            let line = String::from_str(alloc, "triples over 1000000\n")?;
            Ok(text_plan(Bytes::from_vec(line.into_bytes())))
        }
        Err(CertError::OutOfMemory) => Err(OutOfMemory),
    }
}

/// Returns the plan of `prove`: to refuse a pattern that the reader of patterns refuses; otherwise to write a certificate of
/// the verdict on the pattern in `mode`, or the line on the limit that is exceeded, or the line that the certificate needs
/// more than 1,000,000 triples. None of them is a finding. At most `max_pairs` live pairs are examined, and `max_pairs` must
/// be from 1 to 1,000.
///
/// # Errors
/// [`OutOfMemory`] if memory runs out.
pub fn prove_plan(
    alloc: Global,
    pattern: &str,
    mode: Mode,
    max_pairs: u32,
) -> Result<Plan, OutOfMemory>
    requires some { 1 ≤ max_pairs }
    requires few { max_pairs ≤ 1000 }
    ensures { IfOk result (λ plan. ParsesThen (chars pattern.now) mode (λ t at. ProveEnds (text_question max_pairs t at)) (ending_of plan)) }
{
    match parse_argument(alloc, pattern)? {
        PatternArgument::Refused(message) => Ok(Plan::Refuses(message)),
        PatternArgument::Parsed(pattern) => {
            let plan = pattern_plan(alloc, &pattern, mode, max_pairs);
            drop(pattern);
            plan
        }
    }
}
