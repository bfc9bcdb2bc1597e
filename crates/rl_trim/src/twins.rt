//! Finds out whether a branch that is left out has an equal branch beside it. Leaving such a branch out changes nothing, so
//! one trial, which leaves nothing out, serves all such branches.
//!
//! The places of a branch are consecutive, in one or several copies, and the equal branch lies at the same distance from it in
//! each copy. So each state of the branch is replaced by the state at this distance, and each kept state by itself. The
//! replacement stands in for a state if it is kept, isn't the dead state unless the state is, and moves, on each letter and
//! the end letter, to the replacement of each target of the state. It is checked on the automaton that this is so for all
//! states.
//!
//! Other branches may have been left out before, each with an equal branch beside it. Their states are no longer looked at,
//! neither as states to be replaced nor as targets, since states that were kept stand in for them.

ghost use Rattle.std.specs.Prelude.{◌≡◌, ℕ, suc, ◌+◌, ◌<◌, ◌≤◌, ◌⊎◌, true, ◌&&◌, not, length, IfOk, OnOk, IfSome};
ghost use Rattle.rl_prio.specs.Automaton.{letters_count, dead_state};
ghost use Rattle.rl_sets.specs.Live.{holds as holds_in};
ghost use Rattle.rl_trim.specs.Targets.{HasTargets, AreTargets};
ghost use Rattle.rl_trim.specs.Twins.{is_kept as is_kept_in, HasTwin};
ghost use Rattle.rl_trim.specs.internal.Twins.{stand_in as stand_in_of, FollowsAfter, StandsInAfter, IsReplaced, AreTwinsAfter};

use crate::branch::is_kept;
use rl_lists::{Members, OutOfMemory};
use rl_prio::Prio;
use std::alloc::Global;

/// The most states that are tried as the replacement of the first state of a branch.
const MOST_TRIED: usize = 64;

/// The targets of each state: the states to which it moves on some letter or the end letter.
#[derive(Drop)]
pub(crate) struct Targets {
    /// A list of targets for each state, in the order of the states. A target may be listed more than once.
    pub lists: Vec<Members>,
}

/// Appends the targets of a state on a letter to the list, unless the state has the same moves on the letter before. The list
/// must already have the targets on all letters before. A target that the list ends with isn't appended again, since a state
/// often has many moves to the dead state on one letter, one after another.
fn add_targets(list: &mut Vec<u32>, a: &Prio, state: u32, letter: u32) -> Result<(), OutOfMemory>
    requires state_in { state < a.now.states }
    requires letter_in { letter ≤ letters_count a.now }
    requires has { HasTargets a.now state letter list.old.items }
    ensures { OnOk result (HasTargets a.now state (letter + 1) list.new.items) }
{
    let targets = a.moves(state, letter);
    if letter > 0 && a.moves(state, letter - 1) == targets {
        return Ok(());
    }
    for target in targets {
        if list.last() == Some(target) {
            continue;
        }
        list.push(*target)?;
    }
    Ok(())
}

/// Returns the list of the states to which a state moves on some letter or the end letter. It may have a state more than once.
fn targets_of(alloc: Global, a: &Prio, state: u32) -> Result<Members, OutOfMemory>
    requires { state < a.now.states }
    ensures { IfOk result (HasTargets a.now state (suc (letters_count a.now))) }
{
    let mut list = Vec::new(alloc);
    let end = a.letters().count();
    for letter in 0..end {
        add_targets(&mut list, a, state, letter)?;
    }
    add_targets(&mut list, a, state, end)?;
    Ok(Members::from_vec(list))
}

impl Targets {
    /// Returns the targets of all states of an automaton.
    fn new(alloc: Global, a: &Prio) -> Result<Targets, OutOfMemory>
        ensures { IfOk result (λ t. AreTargets a.now a.now.states t.lists.items) }
    {
        let mut lists = Vec::new(alloc);
        for state in 0..a.states() {
            let list = targets_of(alloc, a, state)?;
            lists.push(list)?;
        }
        Ok(Targets { lists })
    }

    /// Returns the targets `found` earlier, if they are given; otherwise finds the targets of all states of the automaton `a`.
    pub(crate) fn found_or_new(
        alloc: Global,
        a: &Prio,
        found: Option<Targets>,
    ) -> Result<Targets, OutOfMemory>
        requires { IfSome found (λ t. AreTargets a.now a.now.states t.lists.items) }
        ensures { IfOk result (λ t. AreTargets a.now a.now.states t.lists.items) }
    {
        match found {
            Some(targets) => Ok(targets),
            None => Targets::new(alloc, a),
        }
    }

    /// Returns the first of the states with the numbers below `states` that moves to `state` on some letter or the end letter,
    /// or `None` if there is none.
    fn first_source(&self, states: u32, state: u32) -> Option<u32>
        requires { states ≤ length self.now.lists.items }
        ensures { IfSome result (λ from. from < states) }
    {
        for from in 0..states {
            if holds(self.lists[from as usize].as_slice(), state) {
                return Some(from);
            }
        }
        None
    }
}

/// Returns whether a state is one of the listed targets.
fn holds(targets: &[u32], state: u32) -> bool
    ensures { result ≡ holds_in targets.now state }
{
    targets.iter().any(|target| *target == state)
}

/// Returns whether a state has to be replaced: `before` keeps it, and `keep` doesn't.
fn goes(before: &[bool], keep: &[bool], state: u32) -> bool
    ensures { result ≡ (is_kept_in before.now state && not (is_kept_in keep.now state)) }
{
    is_kept(before, state) && !is_kept(keep, state)
}

/// A way to replace the states of a branch that is left out by the states of another branch. Kept states are replaced by
/// themselves. States of branches that were left out before aren't looked at.
#[derive(Drop)]
struct Shift<'a> {
    /// The automaton.
    automaton: &'a Prio,
    /// The targets of the automaton's states.
    targets: &'a Targets,
    /// For each place of the tree, whether it was kept before the branch is left out.
    before: &'a [bool],
    /// For each place of the tree, whether it is kept.
    keep: &'a [bool],
    /// The number that is added, modulo 2^32, to a state that isn't kept to get its replacement.
    distance: u32,
    ghost are_targets: { AreTargets automaton.now automaton.now.states targets.now.lists.items },
}

impl<'a> Shift<'a> {
    /// Returns the replacement of a state: the state itself if it is kept.
    fn stand_in(&self, state: u32) -> u32
        ensures { result ≡ stand_in_of self.now.keep.now self.now.distance state }
    {
        if is_kept(self.keep, state) {
            return state;
        }
        state.wrapping_add(self.distance)
    }

    /// Returns whether `other`, the replacement of `state`, moves on a letter or the end letter to the replacement of each
    /// target of `state` on it that was kept before.
    fn follows(&self, state: u32, other: u32, letter: u32) -> bool
        requires state_in { state < self.now.automaton.now.states }
        requires other_in { other < self.now.automaton.now.states }
        requires other { other ≡ stand_in_of self.now.keep.now self.now.distance state }
        requires letter_in { letter ≤ letters_count self.now.automaton.now }
        ensures { result ≡ true → FollowsAfter self.now.automaton.now self.now.before.now (stand_in_of self.now.keep.now self.now.distance) state letter }
    {
        let found = self.automaton.moves(other, letter);
        for target in self.automaton.moves(state, letter) {
            if !is_kept(self.before, *target) {
                continue;
            }
            let wanted = self.stand_in(*target);
            // The state itself moves to this target, so it needn't be looked for.
            if other == state && wanted == *target {
                continue;
            }
            if !holds(found, wanted) {
                return false;
            }
        }
        true
    }

    /// Returns whether `other` is kept and may be the replacement of `state`: it is `state` itself, or a state before the dead
    /// state.
    fn may_stand_in(&self, state: u32, other: u32) -> bool
        ensures kept { result ≡ true → is_kept_in self.now.keep.now other ≡ true }
        ensures alive { result ≡ true → (other ≡ state) ⊎ (other < dead_state self.now.automaton.now) }
    {
        is_kept(self.keep, other) && (other == state || other < self.automaton.dead())
    }

    /// Returns whether a state is kept and has no target to be replaced. If so, it stands in for itself.
    fn stays(&self, state: u32) -> bool
        requires { state < self.now.automaton.now.states }
        ensures { result ≡ true → StandsInAfter self.now.automaton.now self.now.before.now self.now.keep.now (stand_in_of self.now.keep.now self.now.distance) state }
    {
        if !is_kept(self.keep, state) {
            return false;
        }
        for target in self.targets.lists[state as usize].as_slice() {
            if goes(self.before, self.keep, *target) {
                return false;
            }
        }
        true
    }

    /// Returns whether the replacement of a state stands in for it.
    fn stands_in(&self, state: u32) -> bool
        requires { state < self.now.automaton.now.states }
        ensures { result ≡ true → StandsInAfter self.now.automaton.now self.now.before.now self.now.keep.now (stand_in_of self.now.keep.now self.now.distance) state }
    {
        if self.stays(state) {
            return true;
        }
        let other = self.stand_in(state);
        if !self.may_stand_in(state, other) {
            return false;
        }
        let end = self.automaton.letters().count();
        for letter in 0..end {
            if !self.follows(state, other, letter) {
                return false;
            }
        }
        self.follows(state, other, end)
    }

    /// Returns whether the replacement of a state stands in for it, if the state was kept before. Any other state must not be
    /// kept now.
    fn is_replaced(&self, state: u32) -> bool
        requires { state < self.now.automaton.now.states }
        ensures { result ≡ true → IsReplaced self.now.automaton.now self.now.before.now self.now.keep.now (stand_in_of self.now.keep.now self.now.distance) state }
    {
        if is_kept(self.before, state) {
            return self.stands_in(state);
        }
        !is_kept(self.keep, state)
    }

    /// Returns whether each state from `first` to before `end` is replaced as [`Shift::is_replaced`] demands.
    fn all_stand_in(&self, first: u32, end: u32) -> bool
        requires { end ≤ self.now.automaton.now.states }
        ensures { result ≡ true → (q : ℕ) → first ≤ q → q < end
            → IsReplaced self.now.automaton.now self.now.before.now self.now.keep.now (stand_in_of self.now.keep.now self.now.distance) q }
    {
        for state in first..end {
            if !self.is_replaced(state) {
                return false;
            }
        }
        true
    }

    /// Returns whether the accepting state is kept and each state is replaced as [`Shift::is_replaced`] demands. The states
    /// from `first` on are looked at first.
    fn leads_to_twin(&self, first: u32) -> bool
        requires { first ≤ self.now.automaton.now.states }
        ensures { result ≡ true → AreTwinsAfter self.now.automaton.now self.now.before.now self.now.keep.now (stand_in_of self.now.keep.now self.now.distance) }
    {
        if !is_kept(self.keep, self.automaton.accepting()) {
            return false;
        }
        let late = self.all_stand_in(first, self.automaton.states());
        late && self.all_stand_in(0, first)
    }
}

/// Returns the first of the states with the numbers below `states` that `before` keeps and `keep` doesn't, or `None` if there
/// is none.
fn first_gone(before: &[bool], keep: &[bool], states: u32) -> Option<u32>
    ensures { IfSome result (λ state. state < states) }
{
    (0..states).find(|state| goes(before, keep, *state))
}

/// Returns the targets of one state on one letter: of the first state that moves to `state`, on the first letter on which it
/// does. So `state` is one of them. Returns an empty list if no state moves to `state`, or the first one does so only on the
/// end letter.
fn rivals_of<'a>(automaton: &'a Prio, targets: &Targets, state: u32) -> &'a [u32]
    requires { AreTargets automaton.now automaton.now.states targets.now.lists.items }
{
    let Some(from) = targets.first_source(automaton.states(), state) else {
        return &[];
    };
    for letter in 0..automaton.letters().count() {
        let rivals = automaton.moves(from, letter);
        if holds(rivals, state) {
            return rivals;
        }
    }
    &[]
}

/// Returns whether the branch that `keep` leaves out, and `before` keeps, has an equal branch beside it. Each branch that
/// `before` leaves out must have one. If the result is true, there are replacements that stand in for all states that `keep`
/// doesn't keep. The result may be false although there is an equal branch, since only a few replacements are tried.
pub(crate) fn has_twin(automaton: &Prio, targets: &Targets, before: &[bool], keep: &[bool]) -> bool
    requires targets { AreTargets automaton.now automaton.now.states targets.now.lists.items }
    requires before { HasTwin automaton.now before.now }
    ensures { result ≡ true → HasTwin automaton.now keep.now }
{
    let Some(first) = first_gone(before, keep, automaton.states()) else {
        return false;
    };
    let rivals = rivals_of(automaton, targets, first);
    // The first rivals that are kept and lie before the dead state are tried. No other rival can stand in for the first state,
    // and most rivals may be the dead state.
    let fit = rivals.iter().filter(|rival| is_kept(keep, **rival) && **rival < automaton.dead());
    for rival in fit.take(MOST_TRIED) {
        let shift = Shift {
            automaton,
            targets,
            before,
            keep,
            distance: rival.wrapping_sub(first),
        };
        if shift.leads_to_twin(first) {
            return true;
        }
    }
    false
}
