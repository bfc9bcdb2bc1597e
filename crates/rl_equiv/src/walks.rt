//! Walks that begin with one set of states.

ghost use Rattle.std.specs.Prelude.{◌≡◌, ◌+◌, ◌<◌, ◌≤◌, true, length, IfOk, OnOk};
ghost use Rattle.rl_prio.specs.Automaton.{letters_count, accepting_state};
ghost use Rattle.rl_sets.specs.Live.{image};
ghost use Rattle.rl_sets.specs.Walk.{set_at, set_of};
ghost use Rattle.rl_equiv.specs.SetPairs.{rises};
ghost use Rattle.rl_equiv.specs.internal.Machines.{all_proper, ends};
ghost use Rattle.rl_equiv.specs.internal.Walks.{IsBegun, GoesOn};

use rl_lists::{Members, OutOfMemory};
use rl_prio::Prio;
use rl_sets::{SetWalk, SetsError};
use std::alloc::Global;

/// The most sets that a walk may have.
const MOST_SETS: u32 = 20_003;

/// Returns whether the states are strictly increasing and all below `end`.
fn rise_below(states: &[u32], end: u32) -> bool
    ensures { result ≡ rises 0 end states.now }
{
    let mut least = 0;
    for state in states {
        if *state < least || *state >= end {
            return false;
        }
        least = *state + 1;
    }
    true
}

/// Returns whether the members are strictly increasing, and each is the start or the state of a place.
pub(crate) fn are_proper(a: &Prio, set: &Members) -> bool
    ensures { result ≡ all_proper a.now set.now }
{
    rise_below(set.as_slice(), a.states() - 2)
}

/// Returns a walk that has only this set.
pub(crate) fn walk_from(alloc: Global, a: &Prio, set: &Members) -> Result<SetWalk, OutOfMemory>
    requires { all_proper a.now set.now ≡ true }
    ensures begun { IfOk result (IsBegun a.now) }
    ensures one { IfOk result (λ w. length w.sets ≡ 1) }
    ensures set { IfOk result (λ w. set_at w 0 ≡ set_of a.now set.now) }
{
    // Reading the number of states tells the prover that the automaton is well formed.
    let _states = a.states();
    let members = Vec::from_slice(alloc, set.as_slice())?;
    let mut walk = SetWalk::new(alloc, a, MOST_SETS)?;
    match walk.intern(a, &members) {
        Ok(_) => Ok(walk),
        Err(SetsError::OutOfMemory) => {
            drop(walk);
            Err(OutOfMemory)
        }
        Err(SetsError::Sets) => unreachable!(),
    }
}

/// Returns the number of the image of the walk's first set on a letter.
fn step_in(walk: &mut SetWalk, a: &Prio, letter: u32) -> Result<u32, OutOfMemory>
    requires begun { IsBegun a.now walk.old }
    requires room { length walk.old.sets < 20003 }
    requires letter_in { letter ≤ letters_count a.now }
    ensures image { IfOk result (λ n. set_at walk.new n ≡ image a.now (set_at walk.old 0) letter) }
    ensures inside { IfOk result (λ n. n < length walk.new.sets) }
    ensures on { OnOk result (GoesOn a.now walk.old walk.new) }
{
    match walk.step(a, 0, letter) {
        Ok(number) => Ok(number),
        Err(SetsError::OutOfMemory) => Err(OutOfMemory),
        Err(SetsError::Sets) => unreachable!(),
    }
}

/// Returns the image of a walk's first set on a letter.
pub(crate) fn image_in(walk: &mut SetWalk, a: &Prio, letter: u32) -> Result<Members, OutOfMemory>
    requires begun { IsBegun a.now walk.old }
    requires room { length walk.old.sets < 20003 }
    requires letter_in { letter ≤ letters_count a.now }
    ensures image { IfOk result (λ set. set ≡ image a.now (set_at walk.old 0) letter) }
    ensures on { OnOk result (GoesOn a.now walk.old walk.new) }
{
    let number = step_in(walk, a, letter)?;
    walk.members(number)
}

/// Returns whether the end letter leads a walk's first set to the accepting state.
pub(crate) fn ends_in(walk: &mut SetWalk, a: &Prio) -> Result<bool, OutOfMemory>
    requires begun { IsBegun a.now walk.old }
    requires room { length walk.old.sets < 20003 }
    ensures ends { IfOk result (λ ended. ended ≡ ends a.now (set_at walk.old 0)) }
    ensures on { OnOk result (GoesOn a.now walk.old walk.new) }
{
    let number = step_in(walk, a, a.letters().count())?;
    Ok(walk.holds(number, a.states() - 2))
}
