//! Whether a relation is closed. A relation is a list of pairs of thread lists with the step of each pair on each letter. A
//! pair is kept if each of its steps is right and leads to a pair of the list, and if both sides agree wherever a match ends.

ghost use Rattle.std.specs.Prelude.{◌≡◌, ◌<◌, ◌||◌, ℕ, Bool, true, false, Option, Some, None, IfErr, IfOk, IsTrue, List, length, slice_index_or, Contains, ◌∷◌, []};
ghost use Rattle.rl_marks.specs.Hits.{Matcher};
ghost use Rattle.rl_marks.specs.SameFinds.{FindAlike};
ghost use Rattle.rl_marks.specs.internal.Pairs.{begin, stops_at, AgreesBefore, KeepsLast, tells_last};
ghost use Rattle.rl_marks.specs.internal.Caps.{no_caps};
ghost use Rattle.rl_marks.specs.internal.Threads.{thread};
ghost use Rattle.rl_marks.specs.declared.threads.ThreadPair.{ThreadPair};
ghost use Rattle.rl_marks.specs.internal.Seeking.{IsAsked};
ghost use Rattle.rl_spans.specs.Limits.{IsCause};
ghost use Rattle.rl_spans.specs.internal.Shown.{IsShown};
ghost use Rattle.rl_spans.specs.internal.Sides.{matcher_of};
ghost use Rattle.rl_spans.specs.internal.Machines.{IsMachine, IsMove, KeepsCodes, IsOneOf, IsClosedOn};

use crate::agreeing::agree;
use crate::asking::{machine_of, origin_of};
use crate::error::SpansError;
use crate::machine::{Machine, is_move, steps_on, stops_before_last};
use crate::relation::{Row, SpanRelation};
use crate::shown::Shown;
use crate::side::tests_of;
use crate::stepping::{StepError, stop_at_end};
use rl_lists::{Items, OutOfMemory};
use rl_marks::threads::{Caps, Origin, Thread, ThreadPair};
use rl_marks::{How, MarkedPattern, MatchEnding};
use std::alloc::Global;

/// Returns whether both sides of a pair have found the same if the text ends here. `accepts` says whether a match may end
/// here, and `before` is what guards see of the code before.
pub(crate) fn keeps_end(
    alloc: Global,
    machine: &Machine,
    accepts: bool,
    before: Shown,
    pair: &ThreadPair,
) -> Result<bool, StepError>
    requires machine { IsMachine machine.now }
    requires shown { IsShown before }
    requires before { before.code ≡ pair.now.before }
    ensures { IfOk result (λ ok. IsTrue ok → AgreesBefore (matcher_of machine.now.first) (matcher_of machine.now.second) (stops_at accepts None) pair.now None) }
{
    let codes = machine.codes.as_slice();
    let end = machine.words.shown(None);
    let left = stop_at_end(
        alloc,
        &machine.first,
        codes,
        accepts,
        before,
        end,
        pair.left.as_slice(),
    )?;
    let right = stop_at_end(
        alloc,
        &machine.second,
        codes,
        accepts,
        before,
        end,
        pair.right.as_slice(),
    )?;
    Ok(agree(pair.agree, &left, &right))
}

/// Returns whether both sides of a pair have found the same if one line feed follows and the text ends behind it. `accepts`
/// says whether a match may end before the line feed.
pub(crate) fn keeps_last(
    alloc: Global,
    machine: &Machine,
    accepts: bool,
    before: Shown,
    pair: &ThreadPair,
) -> Result<bool, StepError>
    requires machine { IsMachine machine.now }
    requires shown { IsShown before }
    requires before { before.code ≡ pair.now.before }
    ensures { IfOk result (λ ok. IsTrue ok → (agree : Bool) × KeepsLast (matcher_of machine.now.first) (matcher_of machine.now.second) accepts pair.now agree) }
{
    let first = tests_of(alloc, &machine.first.tree, 10)?;
    let second = tests_of(alloc, &machine.second.tree, 10)?;
    let stops = (
        stops_before_last(accepts, machine.first.ending),
        stops_before_last(accepts, machine.second.ending),
    );
    let tests = (first.as_slice(), second.as_slice());
    let steps = steps_on(alloc, machine, tests, stops, before, 10, pair)?;
    let line_feed = machine.words.shown(Some(10));
    let behind = ThreadPair {
        left: steps.left,
        right: steps.right,
        agree: steps.agree,
        before: Some(10),
    };
    keeps_end(alloc, machine, true, line_feed, &behind)
}

/// Returns whether a line feed that is the last code isn't like any other code to at least one side, since its matches may end
/// before it.
pub(crate) fn tells_last_apart(machine: &Machine) -> bool
    ensures { result ≡ (tells_last machine.now.first.ending || tells_last machine.now.second.ending) }
{
    machine.first.ending == MatchEnding::AtLastLine
        || machine.second.ending == MatchEnding::AtLastLine
}

/// Returns whether the row has one move for each letter of the machine, and each is the step of the pair on its letter.
fn are_moves(
    alloc: Global,
    machine: &Machine,
    pairs: &[ThreadPair],
    accepts: bool,
    before: Shown,
    pair: &ThreadPair,
    row: &Row,
) -> Result<bool, StepError>
    requires machine { IsMachine machine.now }
    requires shown { IsShown before }
    requires before { before.code ≡ pair.now.before }
    ensures { IfOk result (λ ok. IsTrue ok → (k : ℕ) → k < length machine.now.codes
        → IsMove (matcher_of machine.now.first) (matcher_of machine.now.second) pairs.now accepts pair.now (slice_index_or machine.now.codes k 0)) }
{
    let count = machine.codes.len();
    let moves = row.moves.as_slice();
    if moves.len() != count {
        return Ok(false);
    }
    for letter in 0..count {
        if !is_move(
            alloc,
            machine,
            pairs,
            accepts,
            before,
            pair,
            letter,
            &moves[letter],
        )? {
            return Ok(false);
        }
    }
    Ok(true)
}

/// Returns whether a pair is kept, with the row of its moves: each move is the pair's step on its letter and leads to one of
/// `pairs`, and both sides agree if the text ends here. `accepts` says whether a match may end here.
fn keeps(
    alloc: Global,
    machine: &Machine,
    pairs: &[ThreadPair],
    accepts: bool,
    pair: &ThreadPair,
    row: &Row,
) -> Result<bool, StepError>
    requires { IsMachine machine.now }
    ensures { IfOk result (λ ok. IsTrue ok
        → KeepsCodes (matcher_of machine.now.first) (matcher_of machine.now.second) pairs.now machine.now.codes accepts pair.now) }
{
    let before = machine.words.shown(pair.before);
    if !keeps_end(alloc, machine, accepts, before, pair)? {
        return Ok(false);
    }
    if tells_last_apart(machine) && !keeps_last(alloc, machine, accepts, before, pair)? {
        return Ok(false);
    }
    are_moves(alloc, machine, pairs, accepts, before, pair, row)
}

/// Returns the pair at which a match begins behind the code `before`, or at the start of a text.
pub(crate) fn begin_pair(alloc: Global, before: Option<u32>) -> Result<ThreadPair, OutOfMemory>
    ensures { IfOk result (λ p. p ≡ begin before) }
{
    let left = begin_threads(alloc)?;
    let right = begin_threads(alloc)?;
    Ok(ThreadPair {
        left,
        right,
        agree: true,
        before,
    })
}

/// Returns the list of threads at which a match begins: one in the state 0, with nothing known of groups.
pub(crate) fn begin_threads(alloc: Global) -> Result<Items<Thread>, OutOfMemory>
    ensures { IfOk result (λ l. l ≡ thread 0 no_caps ∷ []) }
{
    let mut list = Items::new(alloc);
    list.push(Thread {
        state: 0,
        caps: Caps {
            opens: Items::new(alloc),
            held: Items::new(alloc),
            last: None,
        },
    })?;
    Ok(list)
}

/// Returns whether the pair is kept at which a match begins behind the code `before`, or at the start of a text. `empty` is
/// the row of its moves if the match may be empty, and `further` if it may not; both have to be right.
fn keeps_begin(
    alloc: Global,
    machine: &Machine,
    pairs: &[ThreadPair],
    before: Option<u32>,
    empty: &Row,
    further: &Row,
) -> Result<bool, StepError>
    requires { IsMachine machine.now }
    ensures { IfOk result (λ ok. IsTrue ok → (accepts : Bool)
        → KeepsCodes (matcher_of machine.now.first) (matcher_of machine.now.second) pairs.now machine.now.codes accepts (begin before)) }
{
    let pair = begin_pair(alloc, before)?;
    if !keeps(alloc, machine, pairs, true, &pair, empty)? {
        return Ok(false);
    }
    keeps(alloc, machine, pairs, false, &pair, further)
}

/// Returns whether the pair is kept at which a match that may be empty begins at the start of a text. `empty` is the row of
/// its moves.
fn keeps_start(
    alloc: Global,
    machine: &Machine,
    pairs: &[ThreadPair],
    empty: &Row,
) -> Result<bool, StepError>
    requires { IsMachine machine.now }
    ensures { IfOk result (λ ok. IsTrue ok
        → KeepsCodes (matcher_of machine.now.first) (matcher_of machine.now.second) pairs.now machine.now.codes true (begin None)) }
{
    let pair = begin_pair(alloc, None)?;
    keeps(alloc, machine, pairs, true, &pair, empty)
}

/// Returns whether each pair is kept at which a match begins behind a code of the machine. `rows` has two rows for each code
/// in turn: if the match may be empty, and if it may not.
fn keeps_begins(
    alloc: Global,
    machine: &Machine,
    pairs: &[ThreadPair],
    rows: &[Row],
) -> Result<bool, StepError>
    requires { IsMachine machine.now }
    ensures { IfOk result (λ ok. IsTrue ok → (k : ℕ) → k < length machine.now.codes → (accepts : Bool)
        → KeepsCodes (matcher_of machine.now.first) (matcher_of machine.now.second) pairs.now machine.now.codes accepts
        (begin (Some (slice_index_or machine.now.codes k 0)))) }
{
    let count = machine.codes.len();
    for index in 0..count {
        let code = machine.codes.as_slice()[index];
        let Some([empty, further]) = rows.get(2 * index..2 * index + 2) else {
            return Ok(false);
        };
        if !keeps_begin(alloc, machine, pairs, Some(code), empty, further)? {
            return Ok(false);
        }
    }
    Ok(true)
}

/// Returns whether each of `pairs` is kept. `rows` has the row of moves of each, in the same order.
fn keeps_all(
    alloc: Global,
    machine: &Machine,
    pairs: &[ThreadPair],
    rows: &[Row],
) -> Result<bool, StepError>
    requires { IsMachine machine.now }
    ensures { IfOk result (λ ok. IsTrue ok → (p : ThreadPair) → Contains pairs.now p
        → KeepsCodes (matcher_of machine.now.first) (matcher_of machine.now.second) pairs.now machine.now.codes true p) }
{
    if rows.len() != pairs.len() {
        return Ok(false);
    }
    for (index, pair) in pairs.iter().enumerate() {
        if !keeps(alloc, machine, pairs, true, pair, &rows[index])? {
            return Ok(false);
        }
    }
    Ok(true)
}

/// Returns whether each pair is kept at which a match begins, at the start of a text or behind a code of the machine. `rows`
/// has two rows for the start and then two for each code.
fn keeps_each_begin(
    alloc: Global,
    machine: &Machine,
    pairs: &[ThreadPair],
    rows: &[Row],
) -> Result<bool, StepError>
    requires { IsMachine machine.now }
    ensures start { IfOk result (λ ok. IsTrue ok → (accepts : Bool)
        → KeepsCodes (matcher_of machine.now.first) (matcher_of machine.now.second) pairs.now machine.now.codes accepts (begin None)) }
    ensures codes { IfOk result (λ ok. IsTrue ok → (k : ℕ) → k < length machine.now.codes → (accepts : Bool)
        → KeepsCodes (matcher_of machine.now.first) (matcher_of machine.now.second) pairs.now machine.now.codes accepts
        (begin (Some (slice_index_or machine.now.codes k 0)))) }
{
    let [empty, further, rest @ ..] = rows else {
        return Ok(false);
    };
    if !keeps_begin(alloc, machine, pairs, None, empty, further)? {
        return Ok(false);
    }
    let kept = keeps_begins(alloc, machine, pairs, rest)?;
    Ok(kept)
}

/// Returns whether the pair is kept at which a match that may be empty begins at the start of a text. The first of `rows` is
/// its row.
fn keeps_first_begin(
    alloc: Global,
    machine: &Machine,
    pairs: &[ThreadPair],
    rows: &[Row],
) -> Result<bool, StepError>
    requires { IsMachine machine.now }
    ensures { IfOk result (λ ok. IsTrue ok
        → KeepsCodes (matcher_of machine.now.first) (matcher_of machine.now.second) pairs.now machine.now.codes true (begin None)) }
{
    let Some(empty) = rows.first() else {
        return Ok(false);
    };
    keeps_start(alloc, machine, pairs, empty)
}

/// Returns whether the relation keeps each of its pairs, and each pair at which a match begins that is asked for from the
/// origin.
pub(crate) fn is_closed(
    alloc: Global,
    machine: &Machine,
    origin: Origin,
    relation: &SpanRelation,
) -> Result<bool, StepError>
    requires { IsMachine machine.now }
    ensures { IfOk result (λ ok. IsTrue ok
        → IsClosedOn origin (matcher_of machine.now.first) (matcher_of machine.now.second) relation.now.pairs machine.now.codes) }
{
    let pairs = relation.pairs.as_slice();
    if !keeps_all(alloc, machine, pairs, relation.rows.as_slice())? {
        return Ok(false);
    }
    match origin {
        Origin::EachPlace => {
            let each = keeps_each_begin(alloc, machine, pairs, relation.begins.as_slice())?;
            Ok(each)
        }
        Origin::TextStart => {
            let first = keeps_first_begin(alloc, machine, pairs, relation.begins.as_slice())?;
            Ok(first)
        }
    }
}

/// Returns whether the patterns are over one universe and the relation is closed for them. A closed relation shows that they
/// find the same spans and groups in every text of the universe, if both are asked as `how` says. It holds the step of each of
/// its pairs on each letter, and of each pair at which a match begins, and both sides agree wherever a text may end.
///
/// If the result is true, the universes are the same and the patterns find the same. If it is false, nothing is known.
///
/// # Errors
/// [`SpansError::Size`], [`SpansError::Letters`] or [`SpansError::Moves`] only for a limit that is exceeded,
/// [`SpansError::OutOfMemory`] if there was no memory for the check.
pub fn check(
    alloc: Global,
    a: &MarkedPattern,
    b: &MarkedPattern,
    how: How,
    relation: &SpanRelation,
) -> Result<bool, SpansError>
    ensures alike { IfOk result (λ ok. IsTrue ok → FindAlike how a.now b.now) }
    ensures universe { IfOk result (λ ok. IsTrue ok → a.now.universe ≡ b.now.universe) }
    ensures causes { IfErr result (IsCause how a.now b.now) }
{
    if a.universe != b.universe {
        return Ok(false);
    }
    let machine = machine_of(alloc, how, a, b)?;
    let closed = is_closed(alloc, &machine, origin_of(how), relation);
    match closed {
        Ok(closed) => Ok(closed),
        Err(StepError::Outside) => Ok(false),
        Err(StepError::OutOfMemory) => Err(SpansError::OutOfMemory),
    }
}
