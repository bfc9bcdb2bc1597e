//! Trying the branches of a body one after another, from last to first. A trial compares the language of the body without the
//! branches dropped so far with its language without one more branch, which is dropped if the languages are the same.
//!
//! Branches are identified by their spans; lists of them are in the order of the pattern. The base is the tree of the body
//! without the branches dropped so far, prepared for comparisons with other trees.
//!
//! Each branch is first tried on an automaton. The first automaton is taken over from the base of the whole body. When a branch
//! is dropped, the automaton isn't made again at once: the next branch may be found to change nothing on the old one, with the
//! branches dropped since left out. Only if this isn't found is the automaton of what is left made. If a trial on the automaton
//! gives no outcome, both trees are compared, and the base is made for this.
//!
//! Branches are tried only if the body contains no guard, that is, no anchor, no word boundary and no lookaround. The body must
//! not exceed a limit, and the rules must allow the dropped branches to be dropped. `limit` is the most set pairs that a trial
//! may look at, from 1 to `MOST_SET_PAIRS`.

ghost use Rattle.std.specs.Prelude.{◌≡◌, ◌≤◌, [], ◌∷◌, ◌++◌, List, false, true, IfOk, OnOk, IfSome};
ghost use Rattle.rl_syntax.specs.declared.span.Span.{Span as AnySpan};
ghost use Rattle.rl_syntax.specs.Pattern.{body_of, universe_of};
ghost use Rattle.rl_syntax.specs.Lowering.{lowered};
ghost use Rattle.rl_syntax.specs.Tree.{tree_of};
ghost use Rattle.rl_pattern.specs.Suggested.{among, may_go as goes, holds_guard as guard_in, branches_in, without, equal};
ghost use Rattle.rl_equiv.specs.Bases.{IsBase};
ghost use Rattle.rl_equiv.specs.Limits.{IsWithin};
ghost use Rattle.rl_trim.specs.Without.{Without};
ghost use Rattle.rl_rewrite.specs.Verdicts.{IsVerdict};
ghost use Rattle.rl_rewrite.specs.internal.Trials.{verdict_of, trial_for, IsTrueTrial, AreTried, IsEndOf, AreBegun};
ghost use Rattle.rl_syntax.specs.declared.limits.TheConstants.{MOST_SET_PAIRS};

use crate::going::{all_branches, may_go};
use crate::keeping::kept_places;
use crate::leaving::tree_without;
use crate::parts::holds_guard;
use crate::trial::{Trial, next_baseline, run_trial};
use rl_equiv::Baseline;
use rl_lists::OutOfMemory;
use rl_syntax::{Pattern, Span, Spans};
use rl_trim::{Judgement, Trimmer};
use std::alloc::Global;
use std::mem::replace;

/// The outcome of the trials of all branches. Both lists are in the order of the pattern.
#[derive(Drop)]
pub(crate) struct Tried {
    /// The branches that were dropped.
    pub(crate) dropped: Spans,
    /// The branches whose trial exceeded its limit.
    pub(crate) passed: Spans,
}

/// The outcome of the trials so far. Both lists are in the order of the pattern.
#[derive(Drop)]
struct Tries {
    /// The branches that were dropped.
    dropped: Spans,
    /// The branches whose trial exceeded its limit.
    passed: Spans,
    /// The base for the branches dropped so far, or `None` if no comparison has needed it yet.
    base: Option<Baseline>,
}

/// The automaton on which branches are tried.
#[derive(Drop)]
struct Trials {
    /// The automaton of the body without the branches of `begun`.
    trimmer: Trimmer,
    /// The branches that had been dropped when the automaton was made.
    begun: Spans,
}

/// Returns the automaton of the body without the dropped branches.
fn trimmer_of(alloc: Global, p: &Pattern, dropped: &[Span]) -> Result<Trimmer, OutOfMemory>
    requires guardless { guard_in (body_of p.now) ≡ false }
    requires within { IsWithin (universe_of p.now) (lowered (body_of p.now)) }
    requires may { goes (among dropped.now) (body_of p.now) ≡ true }
    ensures { IfOk result (IsBase (universe_of p.now) (without dropped.now (body_of p.now))) }
{
    let tree = tree_without(alloc, p, dropped)?;
    let trimmer = Trimmer::new(alloc, &tree, p.universe());
    drop(tree);
    trimmer
}

/// Makes the automaton of the body without the dropped branches, on which other branches are tried.
fn trials_of(alloc: Global, p: &Pattern, dropped: &[Span]) -> Result<Trials, OutOfMemory>
    requires guardless { guard_in (body_of p.now) ≡ false }
    requires within { IsWithin (universe_of p.now) (lowered (body_of p.now)) }
    requires may { goes (among dropped.now) (body_of p.now) ≡ true }
    ensures base { IfOk result (λ t. IsBase (universe_of p.now) (without dropped.now (body_of p.now)) t.trimmer) }
    ensures begun { IfOk result (λ t. t.begun ≡ dropped.now) }
{
    let begun = Spans::from_slice(alloc, dropped)?;
    let Ok(trimmer) = trimmer_of(alloc, p, dropped) else {
        drop(begun);
        return Err(OutOfMemory);
    };
    Ok(Trials { trimmer, begun })
}

/// Takes over the automaton of `base`, so that branches can be tried on it. It counts as made before any branch was dropped.
fn first_trials(alloc: Global, base: Baseline) -> Result<Trials, OutOfMemory>
    ensures base { IfOk result (λ t. IsBase base.universe (tree_of base.tree) t.trimmer) }
    ensures begun { IfOk result (λ t. t.begun ≡ []) }
{
    let trimmer = Trimmer::of_base(alloc, base)?;
    Ok(Trials {
        trimmer,
        begun: Spans::new(alloc),
    })
}

/// Makes the automaton again, for the body without all dropped branches, if any of these has been dropped since it was made.
fn renew(
    alloc: Global,
    p: &Pattern,
    dropped: &[Span],
    trials: &mut Trials,
) -> Result<(), OutOfMemory>
    requires guardless { guard_in (body_of p.now) ≡ false }
    requires within { IsWithin (universe_of p.now) (lowered (body_of p.now)) }
    requires may { goes (among dropped.now) (body_of p.now) ≡ true }
    requires begun { AreBegun (universe_of p.now) (body_of p.now) dropped.now trials.old }
    ensures base { OnOk result (IsBase (universe_of p.now) (without dropped.now (body_of p.now)) trials.new.trimmer) }
    ensures begun { OnOk result (trials.new.begun ≡ dropped.now) }
{
    if trials.begun.len() == dropped.len() {
        return Ok(());
    }
    let next = trials_of(alloc, p, dropped)?;
    drop(replace(trials, next));
    Ok(())
}

/// Returns the branches dropped since an automaton was made: those before the branches of `begun`, which had been dropped by
/// then and are the last ones of `dropped`.
fn dropped_since<'a>(dropped: &'a [Span], begun: &[Span]) -> &'a [Span]
    requires { IsEndOf begun.now dropped.now }
    ensures { result.now ++ begun.now ≡ dropped.now }
{
    &dropped[..dropped.len() - begun.len()]
}

/// Returns a list of `first`, followed by the spans `others`.
fn with_first(alloc: Global, first: Span, others: &[Span]) -> Result<Spans, OutOfMemory>
    ensures { IfOk result (λ all. all ≡ first ∷ others.now) }
{
    let mut all = Vec::new(alloc);
    all.push(first)?;
    all.extend_from_slice(others)?;
    Ok(Spans::from_vec(all))
}

/// Returns the outcome of a trial that a [`Trimmer`] has judged.
fn told(found: Judgement) -> Trial
    ensures { result ≡ trial_for found }
{
    match found {
        Judgement::Equal => Trial::Equal,
        Judgement::Apart => Trial::Apart,
        Judgement::Exceeded => Trial::Exceeded,
    }
}

/// Tries one more branch, which the rules must allow to go, on the automaton of the body without the dropped branches. Returns
/// the outcome, or `None` if the branch may span the empty text, or the trial has no room.
fn judge_branch(
    alloc: Global,
    p: &Pattern,
    branch: Span,
    dropped: &[Span],
    trials: &mut Trials,
    limit: u32,
) -> Result<Option<Trial>, OutOfMemory>
    requires guardless { guard_in (body_of p.now) ≡ false }
    requires may { goes (among (branch ∷ dropped.now)) (body_of p.now) ≡ true }
    requires base { IsBase (universe_of p.now) (without dropped.now (body_of p.now)) trials.old.trimmer }
    ensures verdict { IfOk result (λ o. IfSome o (λ t. IsVerdict (universe_of p.now) limit (without dropped.now (body_of p.now)) (without (branch ∷ dropped.now) (body_of p.now)) (verdict_of t))) }
    ensures told { IfOk result (λ o. IfSome o (IsTrueTrial (universe_of p.now) (without dropped.now (body_of p.now)) (without (branch ∷ dropped.now) (body_of p.now)))) }
    ensures unchanged { trials.new ≡ trials.old }
{
    let Some(keep) = kept_places(alloc, p.body(), dropped, &[branch])? else {
        return Ok(None);
    };
    let judged = trials.trimmer.judge(alloc, keep.as_slice(), limit);
    drop(keep);
    let Some(found) = judged? else {
        return Ok(None);
    };
    Ok(Some(told(found)))
}

/// Returns whether one more branch, which the rules must allow to go, is found to change nothing, on the automaton that was
/// made before the branches of `since` were dropped. `left` has a flag for each of the automaton's places, which says whether
/// it is left without these. The result `false` says nothing.
fn changes_nothing(
    alloc: Global,
    p: &Pattern,
    branch: Span,
    since: &[Span],
    left: &[bool],
    trials: &mut Trials,
    limit: u32,
) -> Result<bool, OutOfMemory>
    requires guardless { guard_in (body_of p.now) ≡ false }
    requires may { goes (among (branch ∷ (since.now ++ trials.old.begun))) (body_of p.now) ≡ true }
    requires base { IsBase (universe_of p.now) (without trials.old.begun (body_of p.now)) trials.old.trimmer }
    requires left { Without left.now (without (since.now ++ trials.old.begun) (body_of p.now)) (without trials.old.begun (body_of p.now)) }
    ensures verdict { IfOk result (λ found. found ≡ true → IsVerdict (universe_of p.now) limit (without (since.now ++ trials.old.begun) (body_of p.now)) (without (branch ∷ (since.now ++ trials.old.begun)) (body_of p.now)) equal) }
    ensures told { IfOk result (λ found. found ≡ true → IsTrueTrial (universe_of p.now) (without (since.now ++ trials.old.begun) (body_of p.now)) (without (branch ∷ (since.now ++ trials.old.begun)) (body_of p.now)) Trial.Equal) }
    ensures unchanged { trials.new ≡ trials.old }
{
    let more = with_first(alloc, branch, since)?;
    let kept = kept_places(alloc, p.body(), trials.begun.as_slice(), more.as_slice());
    drop(more);
    let Some(keep) = kept? else {
        return Ok(false);
    };
    let found = trials
        .trimmer
        .stays_equal(alloc, left, keep.as_slice(), limit);
    drop(keep);
    found
}

/// Returns whether one more branch, which the rules must allow to go, is found to change nothing, on an automaton that was
/// made before others were dropped. The result `false` says nothing; it is returned if no branch has been dropped since.
fn stays_equal(
    alloc: Global,
    p: &Pattern,
    branch: Span,
    dropped: &[Span],
    trials: &mut Trials,
    limit: u32,
) -> Result<bool, OutOfMemory>
    requires guardless { guard_in (body_of p.now) ≡ false }
    requires before { goes (among dropped.now) (body_of p.now) ≡ true }
    requires may { goes (among (branch ∷ dropped.now)) (body_of p.now) ≡ true }
    requires begun { AreBegun (universe_of p.now) (body_of p.now) dropped.now trials.old }
    ensures verdict { IfOk result (λ found. found ≡ true → IsVerdict (universe_of p.now) limit (without dropped.now (body_of p.now)) (without (branch ∷ dropped.now) (body_of p.now)) equal) }
    ensures told { IfOk result (λ found. found ≡ true → IsTrueTrial (universe_of p.now) (without dropped.now (body_of p.now)) (without (branch ∷ dropped.now) (body_of p.now)) Trial.Equal) }
    ensures unchanged { trials.new ≡ trials.old }
{
    let since = dropped_since(dropped, trials.begun.as_slice());
    if since.is_empty() {
        return Ok(false);
    }
    let Some(left) = kept_places(alloc, p.body(), trials.begun.as_slice(), since)? else {
        return Ok(false);
    };
    let found = changes_nothing(alloc, p, branch, since, left.as_slice(), trials, limit);
    drop(left);
    found
}

/// Tries one more branch, which the rules must allow to go, on the automaton. If it isn't found at once that the branch changes
/// nothing, and others have been dropped since the automaton was made, it is made again. Returns the outcome, or `None` if the
/// branch may span the empty text, or the trial has no room.
fn quick_trial(
    alloc: Global,
    p: &Pattern,
    branch: Span,
    dropped: &[Span],
    trials: &mut Trials,
    limit: u32,
) -> Result<Option<Trial>, OutOfMemory>
    requires guardless { guard_in (body_of p.now) ≡ false }
    requires within { IsWithin (universe_of p.now) (lowered (body_of p.now)) }
    requires before { goes (among dropped.now) (body_of p.now) ≡ true }
    requires may { goes (among (branch ∷ dropped.now)) (body_of p.now) ≡ true }
    requires begun { AreBegun (universe_of p.now) (body_of p.now) dropped.now trials.old }
    ensures verdict { IfOk result (λ o. IfSome o (λ t. IsVerdict (universe_of p.now) limit (without dropped.now (body_of p.now)) (without (branch ∷ dropped.now) (body_of p.now)) (verdict_of t))) }
    ensures told { IfOk result (λ o. IfSome o (IsTrueTrial (universe_of p.now) (without dropped.now (body_of p.now)) (without (branch ∷ dropped.now) (body_of p.now)))) }
    ensures begun { OnOk result (AreBegun (universe_of p.now) (body_of p.now) dropped.now trials.new) }
{
    if stays_equal(alloc, p, branch, dropped, trials, limit)? {
        return Ok(Some(Trial::Equal));
    }
    renew(alloc, p, dropped, trials)?;
    judge_branch(alloc, p, branch, dropped, trials, limit)
}

/// Tries one more branch, which the rules must allow to go, by comparing the base with the tree of the body without this
/// branch too. Returns the outcome.
fn compare_branch(
    alloc: Global,
    p: &Pattern,
    branch: Span,
    dropped: &[Span],
    base: &mut Baseline,
    limit: u32,
) -> Result<Trial, OutOfMemory>
    requires guardless { guard_in (body_of p.now) ≡ false }
    requires within { IsWithin (universe_of p.now) (lowered (body_of p.now)) }
    requires before { goes (among dropped.now) (body_of p.now) ≡ true }
    requires may { goes (among (branch ∷ dropped.now)) (body_of p.now) ≡ true }
    requires tree { tree_of base.old.tree ≡ without dropped.now (body_of p.now) }
    requires universe { base.old.universe ≡ universe_of p.now }
    requires some { 1 ≤ limit }
    requires low { limit ≤ MOST_SET_PAIRS }
    ensures verdict { IfOk result (λ t. IsVerdict (universe_of p.now) limit (without dropped.now (body_of p.now)) (without (branch ∷ dropped.now) (body_of p.now)) (verdict_of t)) }
    ensures told { IfOk result (IsTrueTrial (universe_of p.now) (without dropped.now (body_of p.now)) (without (branch ∷ dropped.now) (body_of p.now))) }
    ensures unchanged { base.new ≡ base.old }
{
    let more = with_first(alloc, branch, dropped)?;
    let without_it = tree_without(alloc, p, more.as_slice());
    drop(more);
    let after = without_it?;
    let trial = run_trial(alloc, base, &after, limit);
    drop(after);
    trial
}

/// Makes the base: returns the tree of the body without the dropped branches, prepared for comparisons.
fn baseline_without(alloc: Global, p: &Pattern, dropped: &[Span]) -> Result<Baseline, OutOfMemory>
    requires guardless { guard_in (body_of p.now) ≡ false }
    requires within { IsWithin (universe_of p.now) (lowered (body_of p.now)) }
    requires may { goes (among dropped.now) (body_of p.now) ≡ true }
    ensures tree { IfOk result (λ b. tree_of b.tree ≡ without dropped.now (body_of p.now)) }
    ensures universe { IfOk result (λ b. b.universe ≡ universe_of p.now) }
{
    let after = tree_without(alloc, p, dropped)?;
    let base = next_baseline(alloc, after, p.universe())?;
    Ok(base)
}

/// Returns the base for the dropped branches: `base`, which must be for the same branches, if it is given; otherwise makes it.
fn base_of(
    alloc: Global,
    p: &Pattern,
    dropped: &[Span],
    base: Option<Baseline>,
) -> Result<Baseline, OutOfMemory>
    requires guardless { guard_in (body_of p.now) ≡ false }
    requires within { IsWithin (universe_of p.now) (lowered (body_of p.now)) }
    requires may { goes (among dropped.now) (body_of p.now) ≡ true }
    requires tree { IfSome base (λ b. tree_of b.tree ≡ without dropped.now (body_of p.now)) }
    requires universe { IfSome base (λ b. b.universe ≡ universe_of p.now) }
    ensures tree { IfOk result (λ b. tree_of b.tree ≡ without dropped.now (body_of p.now)) }
    ensures universe { IfOk result (λ b. b.universe ≡ universe_of p.now) }
{
    match base {
        Some(base) => Ok(base),
        None => baseline_without(alloc, p, dropped),
    }
}

/// Tries one more branch, which the rules must allow to go: on the automaton if this decides, and otherwise by comparing both
/// trees. Returns the outcome; `tries` keeps the base if it was needed.
fn trial_of(
    alloc: Global,
    p: &Pattern,
    branch: Span,
    tries: &mut Tries,
    trials: &mut Trials,
    limit: u32,
) -> Result<Trial, OutOfMemory>
    requires guardless { guard_in (body_of p.now) ≡ false }
    requires within { IsWithin (universe_of p.now) (lowered (body_of p.now)) }
    requires before { goes (among tries.old.dropped) (body_of p.now) ≡ true }
    requires may { goes (among (branch ∷ tries.old.dropped)) (body_of p.now) ≡ true }
    requires tree { IfSome tries.old.base (λ b. tree_of b.tree ≡ without tries.old.dropped (body_of p.now)) }
    requires universe { IfSome tries.old.base (λ b. b.universe ≡ universe_of p.now) }
    requires begun { AreBegun (universe_of p.now) (body_of p.now) tries.old.dropped trials.old }
    requires some { 1 ≤ limit }
    requires low { limit ≤ MOST_SET_PAIRS }
    ensures verdict { IfOk result (λ t. IsVerdict (universe_of p.now) limit (without tries.old.dropped (body_of p.now)) (without (branch ∷ tries.old.dropped) (body_of p.now)) (verdict_of t)) }
    ensures told { IfOk result (IsTrueTrial (universe_of p.now) (without tries.old.dropped (body_of p.now)) (without (branch ∷ tries.old.dropped) (body_of p.now))) }
    ensures dropped { tries.new.dropped ≡ tries.old.dropped }
    ensures passed { tries.new.passed ≡ tries.old.passed }
    ensures tree { OnOk result (IfSome tries.new.base (λ b. tree_of b.tree ≡ without tries.old.dropped (body_of p.now))) }
    ensures universe { OnOk result (IfSome tries.new.base (λ b. b.universe ≡ universe_of p.now)) }
    ensures begun { OnOk result (AreBegun (universe_of p.now) (body_of p.now) tries.old.dropped trials.new) }
{
    let judged = quick_trial(alloc, p, branch, tries.dropped.as_slice(), trials, limit)?;
    if let Some(found) = judged {
        return Ok(found);
    }
    let kept = tries.base.take();
    let mut base = base_of(alloc, p, tries.dropped.as_slice(), kept)?;
    let Ok(trial) = compare_branch(alloc, p, branch, tries.dropped.as_slice(), &mut base, limit)
    else {
        drop(base);
        return Err(OutOfMemory);
    };
    drop(tries.base.replace(base));
    Ok(trial)
}

/// Tries one more branch, which is before all branches tried so far, and records the outcome in `tries`. If the rules don't
/// allow it to go, it is left alone, and nothing is recorded.
fn try_branch(
    alloc: Global,
    p: &Pattern,
    branch: Span,
    tries: &mut Tries,
    trials: &mut Trials,
    limit: u32,
) -> Result<(), OutOfMemory>
    requires guardless { guard_in (body_of p.now) ≡ false }
    requires within { IsWithin (universe_of p.now) (lowered (body_of p.now)) }
    requires before { goes (among tries.old.dropped) (body_of p.now) ≡ true }
    requires tree { IfSome tries.old.base (λ b. tree_of b.tree ≡ without tries.old.dropped (body_of p.now)) }
    requires universe { IfSome tries.old.base (λ b. b.universe ≡ universe_of p.now) }
    requires begun { AreBegun (universe_of p.now) (body_of p.now) tries.old.dropped trials.old }
    requires some { 1 ≤ limit }
    requires low { limit ≤ MOST_SET_PAIRS }
    ensures tried { OnOk result ((bs : List AnySpan) → AreTried (universe_of p.now) limit (body_of p.now) bs tries.old.dropped tries.old.passed
        → AreTried (universe_of p.now) limit (body_of p.now) (branch ∷ bs) tries.new.dropped tries.new.passed) }
    ensures tree { OnOk result (IfSome tries.new.base (λ b. tree_of b.tree ≡ without tries.new.dropped (body_of p.now))) }
    ensures universe { OnOk result (IfSome tries.new.base (λ b. b.universe ≡ universe_of p.now)) }
    ensures may { OnOk result (goes (among tries.new.dropped) (body_of p.now) ≡ true) }
    ensures begun { OnOk result (AreBegun (universe_of p.now) (body_of p.now) tries.new.dropped trials.new) }
{
    let more = with_first(alloc, branch, tries.dropped.as_slice())?;
    if !may_go(p.body(), more.as_slice()) {
        drop(more);
        return Ok(());
    }
    let Ok(trial) = trial_of(alloc, p, branch, tries, trials, limit) else {
        drop(more);
        return Err(OutOfMemory);
    };
    match trial {
        Trial::Equal => {
            tries.dropped = more;
            drop(tries.base.take());
            Ok(())
        }
        Trial::Apart => {
            drop(more);
            Ok(())
        }
        Trial::Exceeded => {
            drop(more);
            let passed = with_first(alloc, branch, tries.passed.as_slice())?;
            tries.passed = passed;
            Ok(())
        }
    }
}

/// Tries the listed branches, from last to first, and records the outcomes in `tries`. No branch may have been tried before.
fn try_each(
    alloc: Global,
    p: &Pattern,
    branches: &[Span],
    tries: &mut Tries,
    trials: &mut Trials,
    limit: u32,
) -> Result<(), OutOfMemory>
    requires guardless { guard_in (body_of p.now) ≡ false }
    requires within { IsWithin (universe_of p.now) (lowered (body_of p.now)) }
    requires tried { AreTried (universe_of p.now) limit (body_of p.now) [] tries.old.dropped tries.old.passed }
    requires tree { IfSome tries.old.base (λ b. tree_of b.tree ≡ without tries.old.dropped (body_of p.now)) }
    requires universe { IfSome tries.old.base (λ b. b.universe ≡ universe_of p.now) }
    requires begun { AreBegun (universe_of p.now) (body_of p.now) tries.old.dropped trials.old }
    requires some { 1 ≤ limit }
    requires low { limit ≤ MOST_SET_PAIRS }
    ensures { OnOk result (AreTried (universe_of p.now) limit (body_of p.now) branches.now tries.new.dropped tries.new.passed) }
{
    for branch in branches.iter().rev() {
        try_branch(alloc, p, *branch, tries, trials, limit)?;
    }
    Ok(())
}

/// Tries all branches of a body and records the outcomes in `tries`. No branch may have been tried before. `base` is the tree
/// of the whole body; if there are branches, its automaton is the first one on which they are tried.
fn try_all(
    alloc: Global,
    p: &Pattern,
    base: Baseline,
    tries: &mut Tries,
    limit: u32,
) -> Result<(), OutOfMemory>
    requires guardless { guard_in (body_of p.now) ≡ false }
    requires within { IsWithin (universe_of p.now) (lowered (body_of p.now)) }
    requires whole_tree { tree_of base.tree ≡ lowered (body_of p.now) }
    requires whole_universe { base.universe ≡ universe_of p.now }
    requires fresh { tries.old.dropped ≡ [] }
    requires tried { AreTried (universe_of p.now) limit (body_of p.now) [] tries.old.dropped tries.old.passed }
    requires tree { IfSome tries.old.base (λ b. tree_of b.tree ≡ without tries.old.dropped (body_of p.now)) }
    requires universe { IfSome tries.old.base (λ b. b.universe ≡ universe_of p.now) }
    requires some { 1 ≤ limit }
    requires low { limit ≤ MOST_SET_PAIRS }
    ensures { OnOk result (AreTried (universe_of p.now) limit (body_of p.now) (branches_in (body_of p.now)) tries.new.dropped tries.new.passed) }
{
    let Ok(branches) = all_branches(alloc, p.body()) else {
        drop(base);
        return Err(OutOfMemory);
    };
    if branches.is_empty() {
        drop(base);
        return Ok(());
    }
    let mut trials = first_trials(alloc, base)?;
    let Ok(()) = try_each(alloc, p, branches.as_slice(), tries, &mut trials, limit) else {
        drop(trials);
        return Err(OutOfMemory);
    };
    drop(trials);
    Ok(())
}

/// Tries all branches of a body, which must not contain a guard, and returns the outcome. `base` is the tree of the whole
/// body.
fn try_branches(
    alloc: Global,
    p: &Pattern,
    base: Baseline,
    limit: u32,
) -> Result<Tried, OutOfMemory>
    requires guardless { guard_in (body_of p.now) ≡ false }
    requires within { IsWithin (universe_of p.now) (lowered (body_of p.now)) }
    requires tree { tree_of base.tree ≡ lowered (body_of p.now) }
    requires universe { base.universe ≡ universe_of p.now }
    requires before { goes (among []) (body_of p.now) ≡ true }
    requires some { 1 ≤ limit }
    requires low { limit ≤ MOST_SET_PAIRS }
    ensures { IfOk result (λ all. AreTried (universe_of p.now) limit (body_of p.now) (branches_in (body_of p.now)) all.dropped all.passed) }
{
    let mut tries = Tries {
        dropped: Spans::new(alloc),
        passed: Spans::new(alloc),
        base: None,
    };
    let Ok(()) = try_all(alloc, p, base, &mut tries, limit) else {
        drop(tries);
        return Err(OutOfMemory);
    };
    let Tries {
        dropped,
        passed,
        base,
    } = tries;
    drop(base);
    Ok(Tried { dropped, passed })
}

/// Tries all branches of a body, or none if the body contains an anchor, a word boundary or a lookaround, and returns the
/// outcome. `base` is the tree of the whole body.
pub(crate) fn tries_of(
    alloc: Global,
    p: &Pattern,
    base: Baseline,
    limit: u32,
) -> Result<Tried, OutOfMemory>
    requires within { IsWithin (universe_of p.now) (lowered (body_of p.now)) }
    requires tree { tree_of base.tree ≡ lowered (body_of p.now) }
    requires universe { base.universe ≡ universe_of p.now }
    requires before { goes (among []) (body_of p.now) ≡ true }
    requires some { 1 ≤ limit }
    requires low { limit ≤ MOST_SET_PAIRS }
    ensures guarded { IfOk result (λ all. guard_in (body_of p.now) ≡ true → (all.dropped ≡ []) × (all.passed ≡ [])) }
    ensures tried { IfOk result (λ all. guard_in (body_of p.now) ≡ false → AreTried (universe_of p.now) limit (body_of p.now) (branches_in (body_of p.now)) all.dropped all.passed) }
{
    if holds_guard(p.body()) {
        drop(base);
        return Ok(Tried {
            dropped: Spans::new(alloc),
            passed: Spans::new(alloc),
        });
    }
    try_branches(alloc, p, base, limit)
}
