//! Compares a tree with the same tree without some of its branches.
//!
//! A trial leaves the states of a branch out of the automaton of the tree, and compares what both accept. A trial in order
//! looks at the pairs of sets breadth first; a quick trial looks at them in any order, and may not decide. The store has the
//! sets of states that earlier trials found.

ghost use Rattle.std.specs.Prelude.{◌≡◌, true, length, [], IfOk, OnOk, IfSome};
ghost use Rattle.rl_ranges.specs.declared.universe.Universe.{Universe as AnyUniverse};
ghost use Rattle.rl_syntax.specs.Tree.{Tree, tree_of, IsOver, guards_in};
ghost use Rattle.rl_equiv.specs.Bases.{IsBase};
ghost use Rattle.rl_equiv.specs.Limits.{IsWithin};
ghost use Rattle.rl_equiv.specs.SetPairs.{set_pairs};
ghost use Rattle.rl_trim.specs.Without.{Without};
ghost use Rattle.rl_trim.specs.declared.judgement.Judgement.TheVariants.{Equal};
ghost use Rattle.rl_trim.specs.Judged.{IsJudged, IsFound, IsTrueJudgement};
ghost use Rattle.rl_trim.specs.Reached.{IsClosedTo, IsStore, IsStoreIf};
ghost use Rattle.rl_trim.specs.internal.Trims.{trim_pairs};
ghost use Rattle.rl_trim.specs.internal.Quick.{IsGrown};
ghost use Rattle.rl_trim.specs.Twins.{HasTwin};
ghost use Rattle.rl_trim.specs.Known.{whole_pairs};
ghost use Rattle.rl_trim.specs.Endings.{AreEnding};
ghost use Rattle.rl_trim.specs.Changes.{AreChangesIf};

use crate::branch::{Branch, ending_or};
use crate::changes::Changes;
use crate::judgement::Judgement;
use crate::order::Order;
use crate::quick::quick_trial;
use crate::store::{Known, Store, Whole};
use crate::twins::{Targets, has_twin};
use rl_equiv::Baseline;
use rl_lanes::BitRow;
use rl_lists::OutOfMemory;
use rl_prio::{Prio, PrioError};
use rl_ranges::Universe;
use rl_sets::{SetWalk, SetsError};
use rl_syntax::{Ending, Re};
use std::alloc::Global;
use std::marker::Model;

/// The automaton of a tree, matched whole, on which trials of its branches run one after another.
#[derive(Drop)]
pub struct Trimmer {
    /// The automaton of the tree.
    automaton: Prio,
    /// What trials have found so far, or `None` if there was no room for it or the last trial gave no result.
    store: Option<Store>,
}

impl Model for Trimmer {
    ghost use Rattle.rl_prio.specs.Automaton.{Automaton};
    ghost use Rattle.rl_trim.specs.Reached.{IsStoreIf};

    ghost Value = { Automaton };

    ghost view = { λ t. t.automaton };

    ghost invariant = { λ t. IsStoreIf t.automaton t.store };
}

/// Returns the first store for an automaton (see [`Store::first`]), or `None` if its walk would have too many sets.
fn close(alloc: Global, a: &Prio) -> Result<Option<Store>, OutOfMemory>
    ensures { IfOk result (IsStoreIf a.now) }
{
    match Store::first(alloc, a) {
        Ok(store) => Ok(Some(store)),
        Err(SetsError::Sets) => Ok(None),
        Err(SetsError::OutOfMemory) => Err(OutOfMemory),
    }
}

/// Returns a trimmer with the automaton `automaton` and a first store for it.
fn trimmer_on(alloc: Global, automaton: Prio) -> Result<Trimmer, OutOfMemory>
    ensures { IfOk result (λ t. t ≡ automaton) }
{
    let Ok(store) = close(alloc, &automaton) else {
        drop(automaton);
        return Err(OutOfMemory);
    };
    Ok(Trimmer { automaton, store })
}

/// Returns the result of a trial of the branch in order, and lowers `patience` by the number of pairs found, to 0 at least.
/// `limit` is the most pairs that the trial may look at. The changes of the states are found and kept in `changes` if they are
/// needed and aren't there yet.
fn trial_in_order(
    alloc: Global,
    branch: &Branch,
    walk: &mut SetWalk,
    changes: &mut Option<Changes>,
    patience: &mut usize,
    limit: u32,
) -> Result<Judgement, SetsError>
    requires closed { IsClosedTo branch.now.automaton.now walk.old 0 (length walk.old.sets) }
    requires changes { AreChangesIf branch.now.automaton.now changes.old }
    ensures found { IfOk result (IsFound (trim_pairs branch.now.automaton.now branch.now.keep.now) limit) }
    ensures grown { OnOk result (IsGrown branch.now.automaton.now walk.old walk.new) }
    ensures changes { OnOk result (AreChangesIf branch.now.automaton.now changes.new) }
{
    let mut order = Order::new(alloc)?;
    let found = order.judge(branch, walk, changes, limit as usize);
    *patience = patience.saturating_sub(order.keys.len());
    drop(order);
    found
}

/// Returns the result of a quick trial of the branch, or `None` if the sets reached from the start aren't known or it doesn't
/// decide.
fn quick_trial_in(
    alloc: Global,
    branch: &Branch,
    store: &mut Store,
    limit: u32,
) -> Result<Option<Judgement>, SetsError>
    requires { IsStore branch.now.automaton.now store.old }
    ensures found { IfOk result (λ o. IfSome o (IsFound (trim_pairs branch.now.automaton.now branch.now.keep.now) limit)) }
    ensures store { OnOk result (IsStore branch.now.automaton.now store.new) }
{
    let Some(reached) = &store.reached else {
        return Ok(None);
    };
    let told = quick_trial(alloc, branch, &mut store.walk, reached, limit)?;
    Ok(told)
}

/// Returns the result of the trial that leaves nothing out: the result kept in the store, if it is for this limit. Otherwise
/// carries out the trial in order and keeps its result. The row `ending` must have a bit for each state, which is set if the
/// state moves to the accepting state on the end letter.
fn whole_trial(
    alloc: Global,
    store: &mut Store,
    a: &Prio,
    ending: &BitRow,
    limit: u32,
) -> Result<Judgement, SetsError>
    requires store { IsStore a.now store.old }
    requires ending { AreEnding a.now a.now.states ending.now }
    ensures found { IfOk result (IsFound (whole_pairs a.now) limit) }
    ensures store { OnOk result (IsStore a.now store.new) }
{
    if let Some(whole) = store.known.whole
        && whole.limit == limit
    {
        return Ok(whole.found);
    }
    let nothing = Branch::new(alloc, a, ending, &[])?;
    let found = trial_in_order(
        alloc,
        &nothing,
        &mut store.walk,
        &mut store.known.changes,
        &mut store.patience,
        limit,
    )?;
    store.known.whole = Some(Whole { limit, found });
    Ok(found)
}

/// Returns whether a branch has an equal branch beside it, as far as [`has_twin`] finds one. The targets that it needs are
/// kept in the store.
fn finds_twin(alloc: Global, branch: &Branch, store: &mut Store) -> Result<bool, OutOfMemory>
    requires { IsStore branch.now.automaton.now store.old }
    ensures twin { IfOk result (λ told. told ≡ true → HasTwin branch.now.automaton.now branch.now.keep.now) }
    ensures store { OnOk result (IsStore branch.now.automaton.now store.new) }
{
    // Reading the number of states tells the prover that the automaton is well formed.
    let _states = branch.automaton.states();
    let targets = Targets::found_or_new(alloc, branch.automaton, store.known.targets.take())?;
    let told = has_twin(branch.automaton, &targets, &[], branch.keep);
    store.known.targets = Some(targets);
    Ok(told)
}

/// Returns the result of a trial of a branch that has an equal branch beside it: that of the trial that leaves nothing out. If
/// the languages are equal, the store keeps a copy of the flags of the branch.
fn twin_trial(
    alloc: Global,
    branch: &Branch,
    store: &mut Store,
    limit: u32,
) -> Result<Judgement, SetsError>
    requires store { IsStore branch.now.automaton.now store.old }
    requires twin { HasTwin branch.now.automaton.now branch.now.keep.now }
    ensures found { IfOk result (IsFound (trim_pairs branch.now.automaton.now branch.now.keep.now) limit) }
    ensures store { OnOk result (IsStore branch.now.automaton.now store.new) }
{
    let found = whole_trial(alloc, store, branch.automaton, branch.ending, limit)?;
    if let Judgement::Equal = found {
        let kept = branch.keep.to_vec(alloc)?;
        drop(store.known.twinned.replace(kept));
    }
    Ok(found)
}

/// Returns the result of a trial of a branch. A quick trial is carried out first. Unless it finds that the languages differ or
/// that the limit is passed, an equal branch is looked for beside the branch. If one is found, the result is that of the trial
/// that leaves nothing out. This is so even if the quick trial finds equal languages: the store then knows the flags of the
/// branch, which [`Trimmer::stays_equal`] needs. If none is found, the result is that of the quick trial, or of a trial in
/// order if the quick trial doesn't decide.
fn trial_of(
    alloc: Global,
    branch: &Branch,
    store: &mut Store,
    limit: u32,
) -> Result<Judgement, SetsError>
    requires { IsStore branch.now.automaton.now store.old }
    ensures found { IfOk result (IsFound (trim_pairs branch.now.automaton.now branch.now.keep.now) limit) }
    ensures store { OnOk result (IsStore branch.now.automaton.now store.new) }
{
    let quick = quick_trial_in(alloc, branch, store, limit)?;
    if let Some(found @ (Judgement::Apart | Judgement::Exceeded)) = quick {
        return Ok(found);
    }
    if finds_twin(alloc, branch, store)? {
        return twin_trial(alloc, branch, store, limit);
    }
    match quick {
        Some(found) => Ok(found),
        None => trial_in_order(
            alloc,
            branch,
            &mut store.walk,
            &mut store.known.changes,
            &mut store.patience,
            limit,
        ),
    }
}

/// Returns the result of the trial that leaves out the places whose flags in `keep` are false. The row of the states that move
/// to the accepting state on the end letter is kept in the store.
fn trial_on(
    alloc: Global,
    store: &mut Store,
    a: &Prio,
    keep: &[bool],
    limit: u32,
) -> Result<Judgement, SetsError>
    requires { IsStore a.now store.old }
    ensures found { IfOk result (IsFound (trim_pairs a.now keep.now) limit) }
    ensures store { OnOk result (IsStore a.now store.new) }
{
    let ending = ending_or(alloc, a, store.known.ending.take())?;
    let branch = Branch::new(alloc, a, &ending, keep)?;
    let found = trial_of(alloc, &branch, store, limit)?;
    drop(branch);
    store.known.ending = Some(ending);
    Ok(found)
}

/// Refreshes the store and carries out the trial that leaves out the places whose flags in `keep` are false. Returns the
/// result, and the store with what the trial has found.
fn judge_on(
    alloc: Global,
    store: Store,
    a: &Prio,
    keep: &[bool],
    limit: u32,
) -> Result<(Judgement, Store), SetsError>
    requires { IsStore a.now store }
    ensures found { IfOk result (λ r. IsFound (trim_pairs a.now keep.now) limit r.0) }
    ensures store { IfOk result (λ r. IsStore a.now r.1) }
{
    let mut store = store.refreshed(alloc, a)?;
    match trial_on(alloc, &mut store, a, keep, limit) {
        Ok(found) => Ok((found, store)),
        Err(error) => {
            drop(store);
            Err(error)
        }
    }
}

/// Carries out the trial as `judge_on` does, but with a new store. Returns `None` if its walk would have too many sets.
fn judge_afresh(
    alloc: Global,
    a: &Prio,
    keep: &[bool],
    limit: u32,
) -> Result<Option<(Judgement, Store)>, OutOfMemory>
    ensures found { IfOk result (λ o. IfSome o (λ r. IsFound (trim_pairs a.now keep.now) limit r.0)) }
    ensures store { IfOk result (λ o. IfSome o (λ r. IsStore a.now r.1)) }
{
    let begun = Store::begun(alloc, a, Known::nothing());
    match begun {
        Ok(store) => match judge_on(alloc, store, a, keep, limit) {
            Ok(found) => Ok(Some(found)),
            Err(SetsError::Sets) => Ok(None),
            Err(SetsError::OutOfMemory) => Err(OutOfMemory),
        },
        Err(SetsError::Sets) => Ok(None),
        Err(SetsError::OutOfMemory) => Err(OutOfMemory),
    }
}

/// Carries out the trial as `judge_on` does. If there is no store, or its walk would have too many sets, carries it out with a
/// new store. Returns `None` if the walk of the new store would have too many sets too.
fn judge_if_room(
    alloc: Global,
    store: Option<Store>,
    a: &Prio,
    keep: &[bool],
    limit: u32,
) -> Result<Option<(Judgement, Store)>, OutOfMemory>
    requires { IsStoreIf a.now store }
    ensures found { IfOk result (λ o. IfSome o (λ r. IsFound (trim_pairs a.now keep.now) limit r.0)) }
    ensures store { IfOk result (λ o. IfSome o (λ r. IsStore a.now r.1)) }
{
    let Some(store) = store else {
        return judge_afresh(alloc, a, keep, limit);
    };
    match judge_on(alloc, store, a, keep, limit) {
        Ok(found) => Ok(Some(found)),
        Err(SetsError::Sets) => judge_afresh(alloc, a, keep, limit),
        Err(SetsError::OutOfMemory) => Err(OutOfMemory),
    }
}

/// Returns whether leaving out further branches is found to change nothing, as [`Trimmer::stays_equal`] says.
fn stays_on(
    alloc: Global,
    store: &mut Store,
    a: &Prio,
    dropped: &[bool],
    keep: &[bool],
    limit: u32,
) -> Result<bool, OutOfMemory>
    requires { IsStore a.now store.old }
    ensures equal { IfOk result (λ equal. equal ≡ true → IsFound (whole_pairs a.now) limit Equal) }
    ensures dropped { IfOk result (λ equal. equal ≡ true → HasTwin a.now dropped.now) }
    ensures keep { IfOk result (λ equal. equal ≡ true → HasTwin a.now keep.now) }
    ensures store { IsStore a.now store.new }
{
    if !store.known.is_equal(limit) || !store.known.is_twinned(dropped) {
        return Ok(false);
    }
    let targets = Targets::found_or_new(alloc, a, store.known.targets.take())?;
    let told = has_twin(a, &targets, dropped, keep);
    store.known.targets = Some(targets);
    if told {
        let kept = keep.to_vec(alloc)?;
        drop(store.known.twinned.replace(kept));
    }
    Ok(told)
}

impl Trimmer {
    /// Returns a trimmer for a tree that is matched to the end of the text. The sets of the tree must have only codes of the
    /// universe `u`. The tree must not exceed the limits on its nodes, its letters and the lengths of its item lists, which
    /// are the lists of what a matcher can try next at one point.
    ///
    /// # Errors
    /// [`OutOfMemory`] if there is not enough memory for it.
    pub fn new(alloc: Global, tree: &Re, u: Universe) -> Result<Trimmer, OutOfMemory>
        requires inside { IsOver u (tree_of tree.now) }
        requires within { IsWithin u (tree_of tree.now) }
        ensures { IfOk result (IsBase u (tree_of tree.now)) }
    {
        match Prio::build(alloc, tree, Ending::AtEnd, u) {
            Ok(automaton) => {
                // Reading the number of states tells the prover that the automaton is well formed.
                let _states = automaton.states();
                trimmer_on(alloc, automaton)
            }
            Err(PrioError::OutOfMemory) => Err(OutOfMemory),
            Err(PrioError::Letters | PrioError::Moves) => unreachable!(),
        }
    }

    /// Returns a trimmer for the tree of a baseline, whose automaton it takes over.
    ///
    /// # Errors
    /// [`OutOfMemory`] if there is not enough memory for it.
    pub fn of_base(alloc: Global, base: Baseline) -> Result<Trimmer, OutOfMemory>
        ensures { IfOk result (IsBase base.universe (tree_of base.tree)) }
    {
        trimmer_on(alloc, base.into_automaton())
    }

    /// Compares the language of the tree with the language of the tree without the branches whose places aren't kept. A place
    /// is a leaf of the tree that matches one code. `keep` has one flag for each place, from left to right, which says whether
    /// it is kept; `limit` is the most set pairs that the comparison may look at. Returns the result that a comparison of both
    /// trees has: [`Judgement::Equal`], [`Judgement::Apart`] or [`Judgement::Exceeded`]. Returns `None` if the trial needs more
    /// sets than a walk may have, even with a new walk. The result has this meaning only if the tree has no guards, `keep` has
    /// one flag for each place, and the places that aren't kept are the places of branches none of which may span the empty
    /// text. Sets that the trial finds may be kept for later trials.
    ///
    /// # Errors
    /// [`OutOfMemory`] if there is not enough memory for the trial.
    pub fn judge(
        &mut self,
        alloc: Global,
        keep: &[bool],
        limit: u32,
    ) -> Result<Option<Judgement>, OutOfMemory>
        ensures judged { IfOk result (λ o. IfSome o (λ j. (u : AnyUniverse) (s t : Tree) → IsBase u t self.old → guards_in t ≡ []
            → Without keep.now s t → IsJudged (set_pairs u t s) limit j)) }
        ensures told { IfOk result (λ o. IfSome o (λ j. (u : AnyUniverse) (s t : Tree) → IsBase u t self.old → guards_in t ≡ []
            → Without keep.now s t → IsTrueJudgement u t s j)) }
        ensures unchanged { self.new ≡ self.old }
    {
        let kept = self.store.take();
        match judge_if_room(alloc, kept, &self.automaton, keep, limit)? {
            Some((found, store)) => {
                drop(self.store.replace(store));
                Ok(Some(found))
            }
            None => Ok(None),
        }
    }

    /// Returns true if leaving out further branches is found to change nothing: `dropped` says which places of the tree are
    /// kept without the branches left out before, and `keep` which are kept without the further ones too. Both have one flag
    /// for each place, from left to right. A comparison of the tree without the branches of `dropped` with the tree without
    /// those of `keep`, with at most `limit` set pairs, then has the result [`Judgement::Equal`]. Returns false if this isn't
    /// found; that says nothing. It can be found only if the branches of `dropped` are the last ones that
    /// [`Trimmer::judge`], with the same limit, or this function found to have equal branches beside them, and the further
    /// branches have equal ones beside them too. The result has this meaning only if the tree has no guards, and the places
    /// that aren't kept are, by either list, the places of branches none of which may span the empty text.
    ///
    /// # Errors
    /// [`OutOfMemory`] if there is not enough memory for it.
    pub fn stays_equal(
        &mut self,
        alloc: Global,
        dropped: &[bool],
        keep: &[bool],
        limit: u32,
    ) -> Result<bool, OutOfMemory>
        ensures judged { IfOk result (λ equal. equal ≡ true → (u : AnyUniverse) (r s t : Tree) → IsBase u t self.old → guards_in t ≡ []
            → Without dropped.now s t → Without keep.now r t → IsJudged (set_pairs u s r) limit Equal) }
        ensures told { IfOk result (λ equal. equal ≡ true → (u : AnyUniverse) (r s t : Tree) → IsBase u t self.old → guards_in t ≡ []
            → Without dropped.now s t → Without keep.now r t → IsTrueJudgement u s r Equal) }
        ensures unchanged { self.new ≡ self.old }
    {
        let Some(mut store) = self.store.take() else {
            return Ok(false);
        };
        let told = stays_on(alloc, &mut store, &self.automaton, dropped, keep, limit);
        drop(self.store.replace(store));
        told
    }
}
