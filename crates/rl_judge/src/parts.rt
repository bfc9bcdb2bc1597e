//! The parts of a pattern that a suggestion mentions, by their byte places in the source. A suggestion says what can be left
//! out of a pattern: it has the simpler pattern, if there is one, and mentions parts (branches and quantifiers) of the old
//! one. A span is a part of a pattern, from one code point up to another.
ghost use Rattle.std.specs.Prelude.{◌≡◌, All, length, map, option_map, IfOk, IfSome};
ghost use Rattle.rl_ranges.specs.Text.{IsText};
ghost use Rattle.rl_report.specs.Verdicts.{quoted_text};
ghost use Rattle.rl_judge.specs.internal.Conditions.{LiesIn, PartsLieIn};
ghost use Rattle.rl_judge.specs.Faults.{code_place};
ghost use Rattle.rl_judge.specs.Analysis.{codes_of, bare_part, quoted_part, no_parts, parts_of};

use rl_lists::{Bytes, Codes, Items, OutOfMemory};
use rl_pystr::{Literal, quote};
use rl_syntax::{Span, Suggestion};
use std::alloc::Global;

/// A part of a pattern that a suggestion mentions: a branch or a quantifier.
#[derive(Drop)]
pub struct Part {
    /// The byte place in the source where the part begins.
    pub byte: u32,
    /// The part as a quoted Python literal, or `None` for a quantifier.
    pub text: Option<Bytes>,
}

/// A list of parts.
pub type PartList = Items<Part>;

/// The parts of a pattern that a suggestion mentions, each list in the order of the places.
#[derive(Drop)]
pub struct Parts {
    /// The branches that the suggestion drops.
    pub dropped: PartList,
    /// The quantifiers that the suggestion removes. They have no text.
    pub merged: PartList,
    /// The branches that stay because their test exceeded its limit.
    pub passed: PartList,
}

/// Returns three empty lists of parts.
pub fn no_parts(alloc: Global) -> Parts
    ensures { result ≡ no_parts }
{
    Parts {
        dropped: PartList::new(alloc),
        merged: PartList::new(alloc),
        passed: PartList::new(alloc),
    }
}

/// Returns the byte place in the source of a code point of the literals' value, counted from 0. For the place after the last
/// code point, or any later one, it is the place where the closing quotes of the last literal begin.
pub fn code_place(literal: &Literal, code: u32) -> u32
    ensures { result ≡ code_place literal.now code }
{
    match literal.places.as_slice().get(code as usize) {
        Some(place) => *place,
        None => literal.end,
    }
}

/// Returns the code points of a span.
fn codes_of(span: Span, codes: &Codes) -> &[u32]
    requires { LiesIn (length codes.now) span }
    ensures { result.now ≡ codes_of span codes.now }
{
    &codes.as_slice()[span.from as usize..span.upto as usize]
}

/// Returns the code points of a span as a quoted literal.
#[tactic(auto, using(crate::proofs::Spans::spans))]
fn quoted(alloc: Global, literal: &Literal, span: Span) -> Result<Bytes, OutOfMemory>
    requires text { IsText literal.now.universe literal.now.codes }
    requires within { LiesIn (length literal.now.codes) span }
    ensures { IfOk result (λ text. text ≡ quoted_text literal.now.universe (codes_of span literal.now.codes)) }
{
    let codes = Codes::from_slice(alloc, codes_of(span, &literal.codes))?;
    quote(alloc, &codes, literal.universe)
}

/// Returns the parts at these spans, with their texts.
fn quoted_parts(alloc: Global, literal: &Literal, spans: &[Span]) -> Result<PartList, OutOfMemory>
    requires text { IsText literal.now.universe literal.now.codes }
    requires within { All (LiesIn (length literal.now.codes)) spans.now }
    ensures { IfOk result (λ parts. parts ≡ map (quoted_part literal.now) spans.now) }
{
    let mut parts = PartList::new(alloc);
    for span in spans {
        let text = quoted(alloc, literal, *span)?;
        parts.push(Part {
            byte: code_place(literal, span.from),
            text: Some(text),
        })?;
    }
    Ok(parts)
}

/// Returns the parts at these spans, without their texts.
fn bare_parts(alloc: Global, literal: &Literal, spans: &[Span]) -> Result<PartList, OutOfMemory>
    ensures { IfOk result (λ parts. parts ≡ map (bare_part literal.now) spans.now) }
{
    let mut parts = PartList::new(alloc);
    for span in spans {
        parts.push(Part {
            byte: code_place(literal, span.from),
            text: None,
        })?;
    }
    Ok(parts)
}

/// Returns the parts that the suggestion mentions, each with the byte place where it begins, or three empty lists if there is
/// no suggestion. The branches that it mentions must lie within the code points of the literal, which must be a text of its
/// universe.
///
/// # Errors
/// [`OutOfMemory`] if memory runs out.
pub fn parts_of(
    alloc: Global,
    literal: &Literal,
    suggestion: Option<&Suggestion>,
) -> Result<Parts, OutOfMemory>
    requires text { IsText literal.now.universe literal.now.codes }
    requires within { IfSome suggestion (λ s. PartsLieIn (length literal.now.codes) s.now) }
    ensures { IfOk result (λ parts. parts ≡ parts_of literal.now (option_map (λ s. s.now) suggestion.entry)) }
{
    let Some(suggestion) = suggestion else {
        return Ok(no_parts(alloc));
    };
    let dropped = quoted_parts(alloc, literal, suggestion.dropped.as_slice())?;
    let merged = bare_parts(alloc, literal, suggestion.merged.as_slice())?;
    let passed = quoted_parts(alloc, literal, suggestion.passed.as_slice())?;
    Ok(Parts {
        dropped,
        merged,
        passed,
    })
}
