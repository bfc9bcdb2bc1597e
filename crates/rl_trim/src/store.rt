//! The sets of states, and other findings, that trials on one automaton share.
//!
//! The sets reached from the start are the set of only the start state and all sets reached from it by images on letters,
//! without the end letter. A trial in order looks at pairs of sets breadth first; a quick trial looks at them in any order and
//! needs the sets reached from the start.

ghost use Rattle.std.specs.Prelude.{◌≡◌, ◌+◌, ◌<◌, ◌≤◌, true, None, Some, length, IfOk, OnOk, IfSome};
ghost use Rattle.std.specs.Option.{option_map};
ghost use Rattle.rl_prio.specs.Automaton.{letters_count};
ghost use Rattle.rl_sets.specs.Walk.{IsMadeFor};
ghost use Rattle.rl_trim.specs.Reached.{HasImage, IsClosedTo, IsStored, IsStore};
ghost use Rattle.rl_trim.specs.Known.{IsKnown};
ghost use Rattle.rl_trim.specs.declared.judgement.Judgement.TheVariants.{Equal};
ghost use Rattle.rl_trim.specs.internal.Quick.{IsGrown};

use crate::changes::Changes;
use crate::holders::holders_of;
use crate::judgement::Judgement;
use crate::key::Way;
use crate::twins::Targets;
use rl_lanes::{BitRow, BitTable};
use rl_prio::Prio;
use rl_sets::{SetWalk, SetsError};
use std::alloc::Global;

/// The most sets that the walk of a store may have.
pub(crate) const MOST_SETS: u32 = 60_000;

/// A repeated search for the sets reached from the start gives up if there are this many or more, as quick trials aren't worth
/// it then. It isn't begun if the walk already has more sets.
pub(crate) const MOST_REACHED: u32 = 10_000;

/// The most sets that a walk may have before a trial. A walk with more is shortened: a trial may add up to some 18,000 sets,
/// so it could run out of room and would have to be repeated.
const MOST_SHARED: u32 = 42_000;

/// How many sets a walk keeps when it is shortened. The sets found first are kept, as they serve most trials. The number is
/// lower than `MOST_SHARED`, so that the walk needn't be shortened before every trial.
const MOST_KEPT: u32 = 40_000;

/// How many pairs trials in order may find before the sets reached from the start are searched for again.
const MOST_LOOKED: usize = 200_000;

/// The sets reached from the start. They are the first `count` sets of a walk.
#[derive(Drop)]
pub(crate) struct Reached {
    /// The number of these sets.
    pub count: u32,
    /// A table with a row for each state, with a bit for each of these sets, which is set if the set holds the state.
    pub holders: BitTable,
    /// How each of these sets was found, by the number of the set.
    pub ways: Vec<Way>,
}

/// The result of the trial that leaves nothing out, which compares an automaton with itself.
#[derive(Clone, Copy)]
pub(crate) struct Whole {
    /// The most set pairs that the trial was allowed.
    pub limit: u32,
    /// The result of the trial.
    pub found: Judgement,
}

/// What trials have found out about an automaton, other than its sets.
#[derive(Drop)]
pub(crate) struct Known {
    /// The targets of the automaton's states, if a trial needed them.
    pub targets: Option<Targets>,
    /// A bit for each state, which is set if the state moves to the accepting state on the end letter, if a trial needed it.
    pub ending: Option<BitRow>,
    /// The changes of the states, if a trial needed them.
    pub changes: Option<Changes>,
    /// The result of the last trial that leaves nothing out, if there was one.
    pub whole: Option<Whole>,
    /// For each place, whether it is kept, without the branches that were last found to have equal branches beside them.
    /// `None` if no such branches were found.
    pub twinned: Option<Vec<bool>>,
}

/// What trials on an automaton have found so far.
#[derive(Drop)]
pub(crate) struct Store {
    /// The walk with the sets found. Its first set is the set of only the start.
    pub walk: SetWalk,
    /// The sets reached from the start, or `None` if they aren't known, for example because there are too many.
    pub reached: Option<Reached>,
    /// How many pairs trials in order may still find before the sets reached from the start are searched for again.
    pub patience: usize,
    /// What else trials have found out about the automaton.
    pub known: Known,
}

/// Returns a walk over sets of states of an automaton with one set, the set of only the start.
fn begin(alloc: Global, a: &Prio) -> Result<SetWalk, SetsError>
    ensures { IfOk result (λ w. IsClosedTo a.now w 0 (length w.sets)) }
{
    // Reading the number of states tells the prover that the automaton is well formed.
    let _states = a.states();
    let start = vec![in alloc; 0]?;
    let mut walk = SetWalk::new(alloc, a, MOST_SETS)?;
    match walk.intern(a, &start) {
        Ok(_) => Ok(walk),
        Err(error) => {
            drop(walk);
            Err(error)
        }
    }
}

/// Appends the image of the set with the number `set` on a letter to the walk, and how it was found to `ways`, unless the walk
/// already has it. The list `ways` must have an entry for each set of the walk.
fn step(
    walk: &mut SetWalk,
    ways: &mut Vec<Way>,
    a: &Prio,
    set: u32,
    letter: u32,
) -> Result<(), SetsError>
    requires made { IsMadeFor walk.old a.now }
    requires set_in { set < length walk.old.sets }
    requires letter_in { letter < letters_count a.now }
    ensures grown { OnOk result (IsGrown a.now walk.old walk.new) }
    ensures image { OnOk result (HasImage a.now walk.new (length walk.new.sets) set letter) }
{
    let number = walk.step(a, set, letter)?;
    if number as usize >= ways.len() {
        ways.push(Way {
            parent: set as usize,
            letter,
        })?;
    }
    Ok(())
}

/// Appends the images of the set with the number `set`, on each letter in order without the end letter, unless the walk
/// already has them. Appends to `ways` how each new set was found.
fn expand(walk: &mut SetWalk, ways: &mut Vec<Way>, a: &Prio, set: u32) -> Result<(), SetsError>
    requires closed { IsClosedTo a.now walk.old set (length walk.old.sets) }
    requires set_in { set < length walk.old.sets }
    ensures { OnOk result (IsClosedTo a.now walk.new (set + 1) (length walk.new.sets)) }
{
    for letter in 0..a.letters().count() {
        step(walk, ways, a, set, letter)?;
    }
    Ok(())
}

/// Finds all sets reached from the start and returns them, or `None` if there are `most` or more. The walk must have only the
/// set of the start; the sets found are appended to it.
fn reach(
    alloc: Global,
    a: &Prio,
    walk: &mut SetWalk,
    most: u32,
) -> Result<Option<Reached>, SetsError>
    requires { IsClosedTo a.now walk.old 0 (length walk.old.sets) }
    ensures { IfOk result (IsStored a.now walk.new) }
{
    let mut ways = vec![in alloc;
        Way {
            parent: 0,
            letter: 0
        },
    ]?;
    for set in 0..most {
        if set == walk.len() {
            let holders = holders_of(alloc, a, walk, set)?;
            return Ok(Some(Reached {
                count: set,
                holders,
                ways,
            }));
        }
        expand(walk, &mut ways, a, set)?;
    }
    Ok(None)
}

impl Known {
    /// Returns the value for an automaton of which nothing is known yet.
    pub(crate) fn nothing() -> Known
        ensures targets { result.targets ≡ None }
        ensures ending { result.ending ≡ None }
        ensures changes { result.changes ≡ None }
        ensures whole { result.whole ≡ None }
        ensures twinned { result.twinned ≡ None }
    {
        Known {
            targets: None,
            ending: None,
            changes: None,
            whole: None,
            twinned: None,
        }
    }

    /// Returns whether the result of the last trial that leaves nothing out is for this limit and is that the languages are
    /// equal.
    pub(crate) fn is_equal(&self, limit: u32) -> bool
        ensures { result ≡ true → self.now.whole ≡ Some (record { limit = limit; found = Equal }) }
    {
        match self.whole {
            Some(
                Whole {
                    limit: most,
                    found: Judgement::Equal,
                },
            ) => most == limit,
            _ => false,
        }
    }

    /// Returns whether the branches that were last found to have equal branches beside them are those without which `dropped`
    /// has the places that are kept.
    pub(crate) fn is_twinned(&self, dropped: &[bool]) -> bool
        ensures { result ≡ true → option_map (λ flags. flags.items) self.now.twinned ≡ Some dropped.now }
    {
        match &self.twinned {
            Some(flags) => flags.as_slice() == dropped,
            None => false,
        }
    }
}

impl Store {
    /// Returns a store whose walk has only the set of the start. What else is known of the automaton is given by `known`.
    pub(crate) fn begun(alloc: Global, a: &Prio, known: Known) -> Result<Store, SetsError>
        requires { IsKnown a.now known }
        ensures { IfOk result (IsStore a.now) }
    {
        let walk = begin(alloc, a)?;
        Ok(Store {
            walk,
            reached: None,
            patience: MOST_LOOKED,
            known,
        })
    }

    /// Returns the first store for an automaton, of which nothing is known yet. It has the sets reached from the start if
    /// there are fewer of them than states. If there are as many or more, trials in order are usually faster, so the search
    /// for them stops.
    ///
    /// # Errors
    /// The errors of [`Store::closed`].
    pub(crate) fn first(alloc: Global, a: &Prio) -> Result<Store, SetsError>
        ensures { IfOk result (IsStore a.now) }
    {
        Store::closed(alloc, a, a.states(), MOST_LOOKED, Known::nothing())
    }

    /// Returns how many sets the walk keeps when it is shortened: `MOST_KEPT`, or all sets reached from the start if they are
    /// known and there are more of them.
    fn most_kept(&self) -> u32
        ensures some { 0 < result }
        ensures reached { IfSome self.now.reached (λ r. r.count ≤ result) }
    {
        match &self.reached {
            Some(reached) => reached.count.max(MOST_KEPT),
            None => MOST_KEPT,
        }
    }

    /// Forgets the sets that were found last if the walk has little room left for a trial (see `MOST_SHARED`). The sets
    /// reached from the start stay if they are known.
    fn make_room(&mut self, a: &Prio)
        requires { IsStore a.now self.old }
        ensures { IsStore a.now self.new }
    {
        if self.walk.len() <= MOST_SHARED {
            return;
        }
        let kept = self.most_kept();
        self.walk.shorten(a, kept);
    }

    /// Returns the store with which the next trial begins: usually this store. If its walk has little room left for a trial,
    /// the sets found last are forgotten (see `MOST_SHARED`): a trial may add up to some 18,000 sets, and the sets found first
    /// serve most trials. If trials in order have found `MOST_LOOKED` pairs or more since the store was made and the walk has
    /// at most `MOST_REACHED` sets, the sets reached from the start are searched for again, and `patience` is then practically
    /// unlimited. What else is known of the automaton is kept.
    ///
    /// # Errors
    /// The errors of [`Store::closed`].
    pub(crate) fn refreshed(self, alloc: Global, a: &Prio) -> Result<Store, SetsError>
        requires { IsStore a.now self }
        ensures { IfOk result (IsStore a.now) }
    {
        let mut store = self;
        store.make_room(a);
        if store.patience > 0 || store.walk.len() > MOST_REACHED {
            return Ok(store);
        }
        Store::closed(alloc, a, MOST_REACHED, usize::MAX, store.known)
    }

    /// Returns a store with the sets reached from the start. If there are `most` or more of them, they don't count as known,
    /// and the walk has only those found so far. The other values of the store are `patience` and `known`.
    ///
    /// # Errors
    /// [`SetsError::Sets`] if more sets are found than a walk may have (`MOST_SETS`); [`SetsError::OutOfMemory`] if there is
    /// not enough memory for them.
    fn closed(
        alloc: Global,
        a: &Prio,
        most: u32,
        patience: usize,
        known: Known,
    ) -> Result<Store, SetsError>
        requires { IsKnown a.now known }
        ensures { IfOk result (IsStore a.now) }
    {
        let mut walk = begin(alloc, a)?;
        match reach(alloc, a, &mut walk, most) {
            Ok(reached) => Ok(Store {
                walk,
                reached,
                patience,
                known,
            }),
            Err(error) => {
                drop(walk);
                Err(error)
            }
        }
    }
}
