//! The analysis of a call: the outcome for its pattern, and the parts of the pattern that the suggestion mentions.
ghost use Rattle.std.specs.Prelude.{◌≡◌, ◌≢◌, ◌≤◌, None, Ok, IfOk, OnOk};
ghost use Rattle.rl_ranges.specs.Text.{IsText};
ghost use Rattle.rl_ranges.specs.declared.universe.Universe.TheVariants as universe;
ghost use Rattle.rl_pylex.specs.Source.{IsTokenList};
ghost use Rattle.rl_pystr.specs.declared.fault.StrError.TheVariants as valuing;
ghost use Rattle.rl_pattern.specs.declared.parsing.PatError.TheVariants as parsing;
ghost use Rattle.rl_pattern.specs.Parsed.{IsParsed};
ghost use Rattle.rl_report.specs.declared.report.Outcome.TheVariants as outcome;
ghost use Rattle.rl_report.specs.Findings.{verdict_of, suggestion_of};
ghost use Rattle.rl_sites.specs.Runs.{run_of, HasRun};
ghost use Rattle.rl_judge.specs.Faults.{literal_fault, pattern_fault};
ghost use Rattle.rl_judge.specs.Analysis.{refusal, IsUniverseOfRun, IsAnalysisOf, IsJudged};
ghost use Rattle.rl_judge.specs.internal.Conditions.{IsOfUniverse};

use crate::options::AnalysisOptions;
use crate::parts::{Parts, code_place, no_parts, parts_of};
use crate::suggestion::{suggested_verdict, suggestion_beside};
use crate::verdict::verdict_on;
use rl_lists::OutOfMemory;
use rl_pattern::{Flags, PatError, parse};
use rl_pylex::TokenList;
use rl_pystr::{Literal, StrError, value};
use rl_report::Outcome;
use rl_sites::{Site, SiteFlags};
use rl_syntax::{Pattern, Universe};
use std::alloc::Global;

/// The result of analyzing a site, which is a call with a literal pattern.
#[derive(Drop)]
pub struct Analysis {
    /// Whether the pattern is text or bytes; text if the literals have no value.
    pub universe: Universe,
    /// The byte place of a fault in the literals or in the pattern, if the fault has a place.
    pub fault: Option<u32>,
    /// The outcome.
    pub outcome: Outcome,
    /// The parts of the pattern that the suggestion mentions.
    pub parts: Parts,
}

/// Returns the byte place of a fault in the literals, if it has one.
fn literal_fault(error: StrError) -> Option<u32>
    ensures { result ≡ literal_fault error }
{
    match error {
        StrError::BadEscape(byte) => Some(byte),
        StrError::NamedEscape(byte) => Some(byte),
        StrError::NotAscii(byte) => Some(byte),
        StrError::FString => None,
        StrError::Mixed => None,
        StrError::OutOfMemory => None,
    }
}

/// Returns the byte place of a fault in the pattern, if it has one.
fn pattern_fault(literal: &Literal, error: PatError) -> Option<u32>
    ensures { result ≡ pattern_fault literal.now error }
{
    match error {
        PatError::Syntax(code) => Some(code_place(literal, code)),
        PatError::TooDeep(code) => Some(code_place(literal, code)),
        PatError::TooLong => None,
        PatError::Outside(code, _) => Some(code_place(literal, code)),
        PatError::OutOfMemory => None,
    }
}

/// Returns the analysis of a site without a verdict.
fn refusal(alloc: Global, universe: Universe, fault: Option<u32>, outcome: Outcome) -> Analysis
    ensures { result ≡ refusal universe fault outcome }
{
    Analysis {
        universe,
        fault,
        outcome,
        parts: no_parts(alloc),
    }
}

/// Returns whether the value of the site's literals is text or bytes; text if they have no value.
fn literal_universe(
    alloc: Global,
    source: &[u8],
    tokens: &TokenList,
    site: Site,
) -> Result<Universe, OutOfMemory>
    requires tokens { IsTokenList source.now tokens.now }
    requires run { HasRun tokens.now site }
    ensures { IfOk result (IsUniverseOfRun source.now (run_of tokens.now site)) }
{
    match value(alloc, source, tokens, site.first, site.count) {
        Ok(literal) => Ok(literal.universe),
        Err(StrError::OutOfMemory) => Err(OutOfMemory),
        Err(_) => Ok(Universe::Str),
    }
}

/// Returns the analysis of a site whose literals have no value.
fn without_value(alloc: Global, error: StrError) -> Result<Analysis, OutOfMemory>
    ensures is { IfOk result (λ a. a ≡ refusal universe.Str (literal_fault error) (outcome.Literal error)) }
    ensures some { OnOk result (error ≢ valuing.OutOfMemory) }
{
    match error {
        StrError::OutOfMemory => Err(OutOfMemory),
        _ => Ok(refusal(
            alloc,
            Universe::Str,
            literal_fault(error),
            Outcome::Literal(error),
        )),
    }
}

/// Returns the analysis of a site whose value isn't a pattern that can be judged.
fn without_pattern(
    alloc: Global,
    literal: &Literal,
    error: PatError,
) -> Result<Analysis, OutOfMemory>
    ensures is { IfOk result (λ a. a ≡ refusal literal.now.universe (pattern_fault literal.now error) (outcome.Pattern error)) }
    ensures some { OnOk result (error ≢ parsing.OutOfMemory) }
{
    match error {
        PatError::OutOfMemory => Err(OutOfMemory),
        _ => Ok(refusal(
            alloc,
            literal.universe,
            pattern_fault(literal, error),
            Outcome::Pattern(error),
        )),
    }
}

/// Returns the analysis of a site whose value is this pattern: the verdict, the suggestion, and the verdict on the suggested
/// pattern.
#[tactic(auto, using(crate::proofs::Parsing::parsing))]
fn with_pattern(
    alloc: Global,
    literal: &Literal,
    pattern: &Pattern,
    flags: Flags,
    options: AnalysisOptions,
) -> Result<Analysis, OutOfMemory>
    requires some { 1 ≤ options.max_pairs }
    requires few { options.max_pairs ≤ 1000 }
    requires text { IsText literal.now.universe literal.now.codes }
    requires parsed { IsParsed flags literal.now.universe literal.now.codes (Ok pattern.now) }
    ensures right { IfOk result (IsJudged flags options literal.now pattern.now) }
    ensures texts { IfOk result (λ a. IsOfUniverse a.universe a.outcome) }
{
    let universe = literal.universe;
    let verdict = verdict_on(alloc, pattern, options)?;
    let suggestion = suggestion_beside(alloc, pattern, &literal.codes, flags, options, &verdict)?;
    let becomes = suggested_verdict(alloc, suggestion.as_ref(), universe, flags, options)?;
    let parts = parts_of(alloc, literal, suggestion.as_ref())?;
    Ok(Analysis {
        universe,
        fault: None,
        outcome: Outcome::Judged(verdict, suggestion, becomes),
        parts,
    })
}

/// Returns the analysis of a site of the source with these tokens. Its outcome is the first of these that holds: the first
/// argument isn't only literals, the literals have no value, the flags aren't known, the value isn't a pattern that can be
/// judged, or the pattern has a verdict. The limit of live pairs in `options` must be from 1 to 1,000.
///
/// # Errors
/// [`OutOfMemory`] if memory runs out.
#[tactic(auto, using(crate::proofs::Parsing::parsing))]
pub fn analyze(
    alloc: Global,
    source: &[u8],
    tokens: &TokenList,
    site: Site,
    options: AnalysisOptions,
) -> Result<Analysis, OutOfMemory>
    requires some { 1 ≤ options.max_pairs }
    requires few { options.max_pairs ≤ 1000 }
    requires tokens { IsTokenList source.now tokens.now }
    requires run { HasRun tokens.now site }
    ensures right { IfOk result (IsAnalysisOf source.now tokens.now options site) }
    ensures texts { IfOk result (λ a. IsOfUniverse a.universe a.outcome) }
{
    if !site.whole {
        let universe = literal_universe(alloc, source, tokens, site)?;
        return Ok(refusal(alloc, universe, None, Outcome::NotWhole));
    }
    let literal = match value(alloc, source, tokens, site.first, site.count) {
        Ok(literal) => literal,
        Err(error) => return without_value(alloc, error),
    };
    let universe = literal.universe;
    let SiteFlags::Known(flags) = site.flags else {
        return Ok(refusal(alloc, universe, None, Outcome::FlagsUnknown));
    };
    match parse(alloc, &literal.codes, flags, universe) {
        Ok(pattern) => with_pattern(alloc, &literal, &pattern, flags, options),
        Err(error) => without_pattern(alloc, &literal, error),
    }
}
