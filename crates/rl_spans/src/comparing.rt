//! Whether two patterns find the same spans and groups.

ghost use Rattle.std.specs.Prelude.{◌≡◌, ◌≢◌, ◌<◌, ◌≤◌, ◌↔◌, All, IsTrue, IfErr, IfOk, length};
ghost use Rattle.rl_ranges.specs.Text.{IsText};
ghost use Rattle.rl_marks.specs.SameFinds.{matcher_in};
ghost use Rattle.rl_marks.specs.internal.Seeking.{asked_in, origin_in, IsFrom};
ghost use Rattle.rl_spans.specs.Answers.{IsAnswer};
ghost use Rattle.rl_spans.specs.Limits.{IsCause};
ghost use Rattle.rl_spans.specs.declared.comparing.SameFinds.TheVariants.{Exceeded};
ghost use Rattle.rl_spans.specs.internal.Machines.{IsMachine};
ghost use Rattle.rl_spans.specs.internal.Sides.{matcher_of};

use crate::asking::{machine_of, origin_of};
use crate::checking::check;
use crate::differing::is_difference;
use crate::error::SpansError;
use crate::machine::Machine;
use crate::relation::SpanRelation;
use crate::searching::{Searched, Witness, find_relation};
use crate::stepping::StepError;
use rl_lists::Codes;
use rl_marks::threads::Origin;
use rl_marks::{How, MarkedPattern};
use rl_syntax::Universe;
use std::alloc::Global;

/// Whether two patterns find the same spans and groups, as the result of a search.
#[derive(Drop)]
pub enum SameFinds {
    /// They find the same in every text, as the relation shows.
    Same(SpanRelation),
    /// They find different matches on `text`, which has fewer than 2^32 codes, from position `from` on. The position is
    /// counted in codes from 0. If `advance` is set, only matches that aren't empty count.
    Differ {
        text: Codes,
        from: u32,
        advance: bool,
    },
    /// Nothing is known: the search reaches more pairs than the limit or takes too much work, the universes differ, or its
    /// result can't be confirmed.
    Exceeded,
}

/// Returns whether each code is below the count.
fn are_below(codes: &[u32], count: u32) -> bool
    ensures { IsTrue result ↔ All (λ c. c < count) codes.now }
{
    codes.iter().all(|code| *code < count)
}

/// Returns whether each code is one of the universe.
fn is_text(universe: Universe, codes: &[u32]) -> bool
    ensures { IsTrue result → IsText universe codes.now }
{
    are_below(codes, universe.count())
}

/// Returns whether matches that begin at position `start` are asked for from this origin. `advance` says that only matches
/// that aren't empty count.
fn is_from(origin: Origin, advance: bool, start: u32) -> bool
    ensures { IsTrue result → IsFrom origin advance start }
{
    match origin {
        Origin::EachPlace => true,
        Origin::TextStart => start == 0 && !advance,
    }
}

/// Returns [`SameFinds::Same`] with the relation if [`check`] accepts it, and [`SameFinds::Exceeded`] otherwise.
///
/// # Errors
/// The same as those of [`check`].
fn confirmed(
    alloc: Global,
    a: &MarkedPattern,
    b: &MarkedPattern,
    how: How,
    relation: SpanRelation,
) -> Result<SameFinds, SpansError>
    ensures answer { IfOk result (IsAnswer how a.now b.now) }
    ensures causes { IfErr result (IsCause how a.now b.now) }
{
    let closed = check(alloc, a, b, how, &relation)?;
    if closed {
        Ok(SameFinds::Same(relation))
    } else {
        Ok(SameFinds::Exceeded)
    }
}

/// Runs both sides on the text of the witness. Returns [`SameFinds::Differ`] if they find different matches there, and
/// [`SameFinds::Exceeded`] otherwise, or if the text isn't one of the universe or its place isn't asked for.
///
/// # Errors
/// [`SpansError::OutOfMemory`] if there was no memory for the runs.
fn seen_apart(
    alloc: Global,
    machine: &Machine,
    a: &MarkedPattern,
    b: &MarkedPattern,
    how: How,
    witness: Witness,
) -> Result<SameFinds, SpansError>
    requires machine { IsMachine machine.now }
    requires first { matcher_of machine.now.first ≡ asked_in how a.now.universe (matcher_in how a.now) }
    requires second { matcher_of machine.now.second ≡ asked_in how a.now.universe (matcher_in how b.now) }
    ensures answer { IfOk result (IsAnswer how a.now b.now) }
    ensures causes { IfErr result (IsCause how a.now b.now) }
{
    let Witness {
        text,
        from,
        advance,
    } = witness;
    if from as usize > text.len() {
        return Ok(SameFinds::Exceeded);
    }
    if !is_text(a.universe, text.as_slice()) {
        return Ok(SameFinds::Exceeded);
    }
    if !is_from(origin_of(how), advance, from) {
        return Ok(SameFinds::Exceeded);
    }
    let differ = is_difference(alloc, machine, text.as_slice(), advance, from as usize);
    match differ {
        Ok(true) => Ok(SameFinds::Differ {
            text,
            from,
            advance,
        }),
        Ok(false) | Err(StepError::Outside) => Ok(SameFinds::Exceeded),
        Err(StepError::OutOfMemory) => Err(SpansError::OutOfMemory),
    }
}

/// Returns whether two patterns find the same spans and groups in every text, if they are used as `how` says.
///
/// The result is [`SameFinds::Exceeded`], which promises nothing, if the search reaches more than `limit` pairs of thread
/// lists or takes too much work for this limit, if its result can't be confirmed, or if the patterns are over different
/// universes. Every other result is about two patterns over one universe.
///
/// # Errors
/// [`SpansError::Size`], [`SpansError::Letters`] or [`SpansError::Moves`] only for a limit that is exceeded,
/// [`SpansError::OutOfMemory`] if there was no memory for the search.
pub fn same_finds(
    alloc: Global,
    a: &MarkedPattern,
    b: &MarkedPattern,
    how: How,
    limit: u32,
) -> Result<SameFinds, SpansError>
    ensures answer { IfOk result (IsAnswer how a.now b.now) }
    ensures universe { IfOk result (λ s. s ≢ Exceeded → a.now.universe ≡ b.now.universe) }
    ensures causes { IfErr result (IsCause how a.now b.now) }
{
    if a.universe != b.universe {
        return Ok(SameFinds::Exceeded);
    }
    let machine = machine_of(alloc, how, a, b)?;
    let found = find_relation(alloc, &machine, origin_of(how), limit);
    match found {
        Ok(Searched::Closed(relation)) => {
            let answer = confirmed(alloc, a, b, how, relation)?;
            Ok(answer)
        }
        Ok(Searched::Differs(witness)) => {
            let answer = seen_apart(alloc, &machine, a, b, how, witness)?;
            Ok(answer)
        }
        Ok(Searched::Exceeded) | Err(StepError::Outside) => Ok(SameFinds::Exceeded),
        Err(StepError::OutOfMemory) => Err(SpansError::OutOfMemory),
    }
}
