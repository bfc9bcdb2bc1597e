//! Verdicts and families as texts. A verdict says how the cost of matching a pattern grows with the length of the text: with a
//! degree, exponentially, or `undecided`, because a limit was exceeded. A live pair, whose number one of the limits bounds, is
//! a state of the pattern's automaton with the set of states that were tried before it. A family is the parts of texts that
//! show the verdict: heads and pumps that alternate, first a head, then each pump with the next head. The pumps are repeated.
ghost use Rattle.std.specs.Prelude.{◌≡◌, ◌+◌, [], ◌∷◌, ◌++◌, All, IfOk, OnOk, codes, length, string_bytes};
ghost use Rattle.rl_ranges.specs.Text.{IsText};
ghost use Rattle.rl_report.specs.Names.{Text};
ghost use Rattle.rl_report.specs.Verdicts.{IsFamilyOf, family_part, family_parts, family_text_line, later_parts, verdict_text};

use crate::names::{limit_name, limit_number};
use crate::pieces::{push_number, push_quoted, push_text};
use rl_lists::{Bytes, Codes, OutOfMemory};
use rl_syntax::{Family, Universe, Verdict};
use std::alloc::Global;

/// Returns a verdict as a text: `degree D`, `exponential`, or `undecided L over N`, where L is the name of the exceeded limit
/// and N the number that it allows. `max_pairs` is N if the limit is that of live pairs, and isn't used otherwise.
///
/// # Errors
/// [`OutOfMemory`] if memory runs out.
pub fn verdict_text(alloc: Global, verdict: &Verdict, max_pairs: u32) -> Result<String, OutOfMemory>
    ensures { IfOk result (λ text. string_bytes text ≡ verdict_text max_pairs verdict.now) }
{
    match verdict {
        Verdict::Degree(degree, _) => Ok(format!(in alloc; "degree {degree}")?),
        Verdict::Expo(_) => Ok(String::from_str(alloc, "exponential")?),
        Verdict::Undecided(limit) => {
            let name = limit_name(*limit);
            let number = limit_number(*limit, max_pairs);
            Ok(format!(in alloc; "undecided {name} over {number}")?)
        }
    }
}

/// Appends a verdict to `out`, as [`verdict_text`] returns it.
///
/// # Errors
/// [`OutOfMemory`] if memory runs out.
pub fn push_verdict(
    alloc: Global,
    out: &mut Vec<u8>,
    verdict: &Verdict,
    max_pairs: u32,
) -> Result<(), OutOfMemory>
    ensures { OnOk result (out.new.items ≡ out.old.items ++ verdict_text max_pairs verdict.now) }
{
    let text = verdict_text(alloc, verdict, max_pairs)?;
    push_text(out, text.as_str())
}

/// Appends a head or a pump with its letter and its number.
fn push_part(
    alloc: Global,
    out: &mut Vec<u8>,
    universe: Universe,
    letter: &str,
    number: usize,
    text: &Codes,
) -> Result<(), OutOfMemory>
    requires { IsText universe text.now }
    ensures { OnOk result (out.new.items ≡ out.old.items ++ family_part universe letter.now number text.now) }
{
    push_text(out, " ")?;
    push_text(out, letter)?;
    push_number(alloc, out, number)?;
    push_text(out, " ")?;
    push_quoted(alloc, out, text, universe)
}

/// Appends each pump with the head that follows it, numbered from 1.
fn push_later_parts(
    alloc: Global,
    out: &mut Vec<u8>,
    universe: Universe,
    pumps: &[Codes],
    heads: &[Codes],
) -> Result<(), OutOfMemory>
    requires pumps { All (IsText universe) pumps.now }
    requires heads { All (IsText universe) heads.now }
    ensures { OnOk result (out.new.items ≡ out.old.items ++ later_parts universe 1 pumps.now heads.now) }
{
    for index in 0..pumps.len().min(heads.len()) {
        push_part(alloc, out, universe, "y", index + 1, &pumps[index])?;
        push_part(alloc, out, universe, "x", index + 1, &heads[index])?;
    }
    Ok(())
}

/// Appends the heads and pumps of a family.
fn push_parts(
    alloc: Global,
    out: &mut Vec<u8>,
    universe: Universe,
    heads: &[Codes],
    pumps: &[Codes],
) -> Result<(), OutOfMemory>
    requires heads { All (IsText universe) heads.now }
    requires pumps { All (IsText universe) pumps.now }
    ensures { OnOk result (out.new.items ≡ out.old.items ++ family_parts universe heads.now pumps.now) }
{
    match heads {
        [] => Ok(()),
        [head, heads @ ..] => {
            push_part(alloc, out, universe, "x", 0, head)?;
            push_later_parts(alloc, out, universe, pumps, heads)
        }
    }
}

/// Appends the line of a family to `out`, as [`family_line`] returns it. The texts of the family must be texts of the
/// universe.
///
/// # Errors
/// [`OutOfMemory`] if memory runs out.
pub fn push_family(
    alloc: Global,
    out: &mut Vec<u8>,
    family: &Family,
    universe: Universe,
) -> Result<(), OutOfMemory>
    requires { IsFamilyOf universe family.now }
    ensures { OnOk result (out.new.items ≡ out.old.items ++ family_text_line universe family.now) }
{
    push_text(out, "  family")?;
    push_parts(
        alloc,
        out,
        universe,
        family.heads.as_slice(),
        family.pumps.as_slice(),
    )?;
    push_text(out, "\n")
}

/// Returns the line of a verdict, with its line feed: `degree D`, `exponential`, or `undecided L over N`, where L is the name
/// of the exceeded limit and N the number that it allows. `max_pairs` is N if the limit is that of live pairs.
///
/// # Errors
/// [`OutOfMemory`] if memory runs out.
pub fn verdict_line(alloc: Global, verdict: &Verdict, max_pairs: u32) -> Result<Bytes, OutOfMemory>
    ensures { IfOk result (λ line. line ≡ verdict_text max_pairs verdict.now ++ codes "\n") }
{
    let mut out = Vec::new(alloc);
    push_verdict(alloc, &mut out, verdict, max_pairs)?;
    push_text(&mut out, "\n")?;
    Ok(Bytes::from_vec(out))
}

/// Returns the line of a family: two spaces, `family`, the first head, then each pump with the head that follows it, labelled
/// ` x0`, ` y1`, ` x1` and so on, each with its quoted text, and a line feed. The texts of the family must be texts of the
/// universe.
///
/// # Errors
/// [`OutOfMemory`] if memory runs out.
pub fn family_line(alloc: Global, family: &Family, universe: Universe) -> Result<Bytes, OutOfMemory>
    requires { IsFamilyOf universe family.now }
    ensures { IfOk result (λ line. line ≡ family_text_line universe family.now) }
{
    let mut out = Vec::new(alloc);
    push_family(alloc, &mut out, family, universe)?;
    Ok(Bytes::from_vec(out))
}
