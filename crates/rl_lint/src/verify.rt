//! The action `verify`. It checks a certificate, which is data in a file that shows that a verdict is right. A live pair is a
//! state of the pattern's automaton with the set of states that were tried before it.
ghost use Rattle.std.specs.Prelude.{◌≡◌, ◌≤◌, ◌↔◌, IfOk, IsTrue, Some};
ghost use Rattle.std.specs.Str.{chars};
ghost use Rattle.rl_ranges.specs.declared.universe.Universe.TheVariants.{Str};
ghost use Rattle.rl_syntax.specs.Pattern.{pattern_ending, pattern_tree, universe_of};
ghost use Rattle.rl_cert.specs.Form.{IsForm};
ghost use Rattle.rl_cert.specs.Holds.{Holds};
ghost use Rattle.rl_walk.specs.Visits.{moment_of};
ghost use Rattle.rl_lint.specs.internal.Plans.{ending_of};
ghost use Rattle.rl_lint.specs.Files.{first_bytes};
ghost use Rattle.rl_lint.specs.Patterns.{text_question};
ghost use Rattle.rl_lint.specs.VerifyEnding.{CertificateEnds, IsVerifyEnding, TreeVerifies};
ghost use Rattle.rl_lint.specs.internal.Made.{verify_text};
ghost use Rattle.rl_lint.specs.internal.Reads.{IsFileRead, IsGiven};

use crate::files::{FileRead, read_file};
use crate::limits::MOST_READ;
use crate::pattern_argument::{PatternArgument, parse_argument};
use crate::plan::{Message, Plan};
use rl_cert::{Certificate, ReadError, check, read};
use rl_lists::{Bytes, OutOfMemory};
use rl_report::verdict_line;
use rl_source::Tree;
use rl_syntax::{LowerError, Mode, Pattern, Universe, Verdict, lower};
use std::alloc::Global;

/// Returns the certificate that a file with these bytes holds, or that it is refused.
///
/// # Errors
/// [`OutOfMemory`] if memory runs out.
fn certificate_in(alloc: Global, bytes: Vec<u8>) -> Result<FileRead<Certificate>, OutOfMemory>
    ensures { IfOk result (IsGiven IsForm (Some bytes.items)) }
{
    let bytes = Bytes::from_vec(bytes);
    match read(alloc, &bytes) {
        Ok(certificate) => Ok(FileRead::Taken(certificate)),
        Err(ReadError::Refused) => Ok(FileRead::Refused),
        Err(ReadError::OutOfMemory) => Err(OutOfMemory),
    }
}

/// Returns the certificate in the file at `path`, or that it is unreadable or refused. It is read with one call of the tree.
///
/// # Errors
/// [`OutOfMemory`] if memory runs out; the tree may have been read by then.
fn read_certificate<T: Tree>(
    alloc: Global,
    path: &str,
    tree: &mut T,
) -> Result<FileRead<Certificate>, OutOfMemory>
    ensures read { IfOk result (IsFileRead IsForm first_bytes path.now
        (moment_of T.told T.fault_count tree.old) (moment_of T.told T.fault_count tree.new)) }
    ensures later { T.fault_count tree.old ≤ T.fault_count tree.new }
{
    match read_file(path, MOST_READ, tree)? {
        Some(bytes) => certificate_in(alloc, bytes),
        None => Ok(FileRead::Unreadable),
    }
}

/// Returns whether a certificate holds for a text pattern in a mode. No certificate holds for a pattern of more than 4,000
/// nodes.
///
/// # Errors
/// [`OutOfMemory`] if memory runs out.
fn holds(
    alloc: Global,
    pattern: &Pattern,
    mode: Mode,
    max_pairs: u32,
    certificate: &Certificate,
) -> Result<bool, OutOfMemory>
    requires of_text { universe_of pattern.now ≡ Str }
    requires some { 1 ≤ max_pairs }
    requires few { max_pairs ≤ 1000 }
    ensures { IfOk result (λ yes. IsTrue yes ↔ Holds (text_question max_pairs (pattern_tree pattern.now mode) (pattern_ending pattern.now mode))
        certificate.now) }
{
    match lower(alloc, pattern, mode) {
        Ok(lowered) => {
            let held = check(alloc, &lowered, Universe::Str, max_pairs, certificate);
            drop(lowered);
            held
        }
        Err(LowerError::TooLarge) => Ok(false),
        Err(LowerError::OutOfMemory) => Err(OutOfMemory),
    }
}

/// Returns the line that `verify` writes: `holds` and the verdict if the certificate holds, otherwise `fails`.
///
/// # Errors
/// [`OutOfMemory`] if memory runs out.
fn held_line(
    alloc: Global,
    held: bool,
    verdict: &Verdict,
    max_pairs: u32,
) -> Result<Bytes, OutOfMemory>
    ensures { IfOk result (λ text. text ≡ verify_text held max_pairs verdict.now) }
{
    let mut text = Vec::new(alloc);
    if held {
        text.extend_from_slice(b"holds ")?;
        let line = verdict_line(alloc, verdict, max_pairs)?;
        text.extend_from_slice(line.as_slice())?;
    } else {
        text.extend_from_slice(b"fails\n")?;
    }
    Ok(Bytes::from_vec(text))
}

/// Returns the plan of `verify` for a parsed text pattern in a mode and a certificate.
///
/// # Errors
/// [`OutOfMemory`] if memory runs out.
fn certificate_plan(
    alloc: Global,
    pattern: &Pattern,
    mode: Mode,
    max_pairs: u32,
    certificate: &Certificate,
) -> Result<Plan, OutOfMemory>
    requires of_text { universe_of pattern.now ≡ Str }
    requires some { 1 ≤ max_pairs }
    requires few { max_pairs ≤ 1000 }
    ensures { IfOk result (λ plan. CertificateEnds (text_question max_pairs (pattern_tree pattern.now mode) (pattern_ending pattern.now mode))
        certificate.now (ending_of plan)) }
{
    let held = holds(alloc, pattern, mode, max_pairs, certificate)?;
    let text = held_line(alloc, held, &certificate.verdict, max_pairs)?;
    Ok(Plan::Writes {
        text,
        finding: !held,
        failed: false,
    })
}

/// Returns the plan of `verify` for a parsed text pattern in a mode and the certificate file at this path.
///
/// # Errors
/// [`OutOfMemory`] if memory runs out; the tree may have been read by then.
fn file_plan<T: Tree>(
    alloc: Global,
    pattern: &Pattern,
    file: &str,
    mode: Mode,
    max_pairs: u32,
    tree: &mut T,
) -> Result<Plan, OutOfMemory>
    requires of_text { universe_of pattern.now ≡ Str }
    requires some { 1 ≤ max_pairs }
    requires few { max_pairs ≤ 1000 }
    ensures verifies { IfOk result (λ plan. TreeVerifies max_pairs file.now (pattern_tree pattern.now mode) (pattern_ending pattern.now mode)
        (moment_of T.told T.fault_count tree.old) (moment_of T.told T.fault_count tree.new) (ending_of plan)) }
    ensures later { T.fault_count tree.old ≤ T.fault_count tree.new }
{
    match read_certificate(alloc, file, tree)? {
        FileRead::Unreadable => Ok(Plan::Unreadable(Message::Fixed(
            "relint: certificate unreadable\n",
        ))),
        FileRead::Refused => Ok(Plan::Refuses(Message::Fixed("relint: certificate refused\n"))),
        FileRead::Taken(certificate) => {
            let plan = certificate_plan(alloc, pattern, mode, max_pairs, &certificate);
            drop(certificate);
            plan
        }
    }
}

/// Returns the plan of `verify`. If the reader of patterns refuses the pattern, the plan is to refuse it, and the tree isn't
/// asked. Otherwise the certificate file at the path `file` is read with one call of `tree`: if the call fails, the plan is to
/// report this; if the bytes aren't a certificate, it is to refuse them; if the certificate holds for the pattern in `mode`,
/// it is to write `holds` with its verdict; and otherwise it is to write `fails`, which is a finding. At most `max_pairs` live
/// pairs are examined, and `max_pairs` must be from 1 to 1,000.
///
/// # Errors
/// [`OutOfMemory`] if memory runs out; the tree may have been read by then.
pub fn verify_plan<T: Tree>(
    alloc: Global,
    pattern: &str,
    file: &str,
    mode: Mode,
    max_pairs: u32,
    tree: &mut T,
) -> Result<Plan, OutOfMemory>
    requires some { 1 ≤ max_pairs }
    requires few { max_pairs ≤ 1000 }
    ensures verifies { IfOk result (λ plan. IsVerifyEnding max_pairs mode (chars pattern.now) file.now
        (moment_of T.told T.fault_count tree.old) (moment_of T.told T.fault_count tree.new) (ending_of plan)) }
    ensures later { T.fault_count tree.old ≤ T.fault_count tree.new }
{
    match parse_argument(alloc, pattern)? {
        PatternArgument::Refused(message) => Ok(Plan::Refuses(message)),
        PatternArgument::Parsed(pattern) => {
            let plan = file_plan(alloc, &pattern, file, mode, max_pairs, tree);
            drop(pattern);
            plan
        }
    }
}
