//! Both sides of a comparison, and their steps from pair to pair of their thread lists.

ghost use Rattle.std.specs.Prelude.{◌≡◌, ◌<◌, ℕ, suc, true, false, Some, None, IfOk, IsTrue, length, map, slice_index_or};
ghost use Rattle.rl_ranges.specs.Codes.{has};
ghost use Rattle.rl_syntax.specs.Guards.{is_word};
ghost use Rattle.rl_marks.specs.Marked.{marked_of};
ghost use Rattle.rl_marks.specs.internal.Pairs.{begin, stops_at, stops_last, Agrees, AgreesBefore, KeepsLast};
ghost use Rattle.rl_marks.specs.internal.PairLetters.{guards_of_both, SameKind};
ghost use Rattle.rl_marks.specs.Hits.{Matcher};
ghost use Rattle.rl_marks.specs.internal.Threads.{named, moved, halted};
ghost use Rattle.rl_spans.specs.internal.Names.{place_named};
ghost use Rattle.rl_spans.specs.internal.Looks.{looks_of_both};
ghost use Rattle.rl_spans.specs.internal.Shown.{IsShown};
ghost use Rattle.rl_spans.specs.internal.Sides.{IsSide, matcher_of, tests_at};
ghost use Rattle.rl_spans.specs.internal.Machines.{IsMachine, IsMove, KeepsCodes};

use crate::agreeing::agree;
use crate::naming::are_threads_named;
use crate::relation::{Move, Row};
use crate::shown::{Shown, Words, are_seen_alike};
use crate::side::Side;
use crate::stepping::{Step, StepError, step_on, stop_at_end};
use rl_lists::{Items, OutOfMemory};
use rl_marks::MatchEnding;
use rl_marks::threads::{Caps, Thread, ThreadPair};
use rl_ranges::CodeSet;
use std::alloc::Global;

/// Both sides of a comparison, with the codes that stand for their letters.
#[derive(Drop)]
pub(crate) struct Machine {
    /// The first side.
    pub first: Side,
    /// The second side.
    pub second: Side,
    /// One code of each letter of both trees.
    pub codes: Items<u32>,
    /// The word characters, which guards tell from other codes.
    pub words: Words,
    /// The sets of the lookarounds of both trees, which these guards tell from other codes.
    pub looks: Items<CodeSet>,
}

/// What a pair of thread lists comes to on a code.
#[derive(Drop)]
pub(crate) struct Steps {
    /// The threads of the first side behind the code.
    pub left: Items<Thread>,
    /// The threads of the second side behind the code.
    pub right: Items<Thread>,
    /// Whether what both sides found up to the place before the code is the same.
    pub agree: bool,
}

/// Returns whether a match with this ending may end at a place. `is_code` says that a code follows, which isn't a line feed at
/// the text's end; otherwise the text ends there. `accepts` says that a match may end there at all.
pub(crate) fn stops_before(accepts: bool, is_code: bool, ending: MatchEnding) -> bool
    ensures end { is_code ≡ false → result ≡ stops_at accepts None ending }
    ensures code { is_code ≡ true → (code : ℕ) → result ≡ stops_at accepts (Some code) ending }
{
    accepts && (!is_code || ending == MatchEnding::Anywhere)
}

/// Returns whether a match with this ending may end before a line feed that is the last code, if `accepts` says that it may
/// end there.
pub(crate) fn stops_before_last(accepts: bool, ending: MatchEnding) -> bool
    ensures { result ≡ stops_last accepts ending }
{
    accepts && ending != MatchEnding::AtEnd
}

/// Returns whether guards see the same of `code` as of `before`, which has to be a code. `looks` are the sets of the
/// lookarounds of both sides.
fn is_same_kind(words: &Words, looks: &[CodeSet], code: u32, before: Option<u32>) -> bool
    requires all { (c : ℕ) → has words.now.all c ≡ is_word false c }
    requires ascii { (c : ℕ) → has words.now.ascii c ≡ is_word true c }
    ensures { IsTrue result → (s t : Matcher) → map has looks.now ≡ looks_of_both s t → SameKind (guards_of_both s t) (Some code) before }
{
    let shown = words.shown(Some(code));
    let seen = words.shown(before);
    are_seen_alike(looks, shown, seen)
}

/// Returns what both sides of a pair come to on a code. `tests` says for each side which of its places take the code, and
/// `stops` whether a match may end before it. `before` is the code before.
///
/// # Errors
/// [`StepError::Outside`] if a thread is in no state of its side or a name is too great, [`StepError::OutOfMemory`] if there
/// was no memory.
pub(crate) fn steps_on(
    alloc: Global,
    machine: &Machine,
    tests: (&[bool], &[bool]),
    stops: (bool, bool),
    before: Shown,
    code: u32,
    pair: &ThreadPair,
) -> Result<Steps, StepError>
    requires machine { IsMachine machine.now }
    requires first { tests.0.now ≡ tests_at (marked_of machine.now.first.tree) code }
    requires second { tests.1.now ≡ tests_at (marked_of machine.now.second.tree) code }
    requires before { IsShown before }
    ensures left { IfOk result (λ r. r.left ≡ moved (marked_of machine.now.first.tree) stops.0 before.code code 0 (named suc pair.now.left)) }
    ensures right { IfOk result (λ r. r.right ≡ moved (marked_of machine.now.second.tree) stops.1 before.code code 0 (named suc pair.now.right)) }
    ensures agree { IfOk result (λ r. IsTrue r.agree → Agrees pair.now.agree
        (halted (marked_of machine.now.first.tree) stops.0 before.code (Some code) 0 (named suc pair.now.left))
        (halted (marked_of machine.now.second.tree) stops.1 before.code (Some code) 0 (named suc pair.now.right))) }
{
    let codes = machine.codes.as_slice();
    let next = machine.words.shown(Some(code));
    let left = step_on(
        alloc,
        &machine.first,
        codes,
        tests.0,
        stops.0,
        before,
        code,
        next,
        pair.left.as_slice(),
    )?;
    let right = step_on(
        alloc,
        &machine.second,
        codes,
        tests.1,
        stops.1,
        before,
        code,
        next,
        pair.right.as_slice(),
    )?;
    let agree = agree(pair.agree, &left.stop, &right.stop);
    Ok(Steps {
        left: left.threads,
        right: right.threads,
        agree,
    })
}

/// Returns whether the pair is what both sides have come to, with other names of the places: the name `n` of the pair stands
/// for the place `names[n]`. The pair may say that both sides agree only if they do.
fn is_named_by(names: &[u32], pair: &ThreadPair, steps: &Steps) -> bool
    ensures left { IsTrue result → named (place_named names.now) pair.now.left ≡ steps.now.left }
    ensures right { IsTrue result → named (place_named names.now) pair.now.right ≡ steps.now.right }
    ensures agree { IsTrue result → pair.now.agree ≡ true → steps.now.agree ≡ true }
{
    (steps.agree || !pair.agree)
        && are_threads_named(names, pair.left.as_slice(), steps.left.as_slice())
        && are_threads_named(names, pair.right.as_slice(), steps.right.as_slice())
}

/// Returns whether the move `step` is the step of the pair on the letter with the index `letter`, and leads to one of `pairs`.
/// `accepts` says whether a match may end at the place of the pair.
pub(crate) fn is_move(
    alloc: Global,
    machine: &Machine,
    pairs: &[ThreadPair],
    accepts: bool,
    before: Shown,
    pair: &ThreadPair,
    letter: usize,
    step: &Move,
) -> Result<bool, StepError>
    requires machine { IsMachine machine.now }
    requires shown { IsShown before }
    requires before { before.code ≡ pair.now.before }
    requires letter { letter < length machine.now.codes }
    ensures { IfOk result (λ ok. IsTrue ok → IsMove (matcher_of machine.now.first) (matcher_of machine.now.second) pairs.now accepts pair.now
        (slice_index_or machine.now.codes letter 0)) }
{
    let Some(next) = pairs.get(step.pair as usize) else {
        return Ok(false);
    };
    let code = machine.codes.as_slice()[letter];
    if !is_same_kind(&machine.words, machine.looks.as_slice(), code, next.before) {
        return Ok(false);
    }
    let tests = (
        machine.first.tests.as_slice()[letter].as_slice(),
        machine.second.tests.as_slice()[letter].as_slice(),
    );
    let stops = (
        stops_before(accepts, true, machine.first.ending),
        stops_before(accepts, true, machine.second.ending),
    );
    let steps = steps_on(alloc, machine, tests, stops, before, code, pair)?;
    Ok(is_named_by(step.names.as_slice(), next, &steps))
}
