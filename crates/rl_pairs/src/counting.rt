//! Walks over counted sets, that is, over the sets that the moves of live pairs and the images of sets give.

ghost use Rattle.std.specs.Prelude.{◌≡◌, ℕ, suc, ◌+◌, ◌<◌, ◌≤◌, false, length, IfOk, IfErr, OnOk, IfSome, IfNone};
ghost use Rattle.rl_prio.specs.Automaton.{letters_count, accepting_state};
ghost use Rattle.rl_sets.specs.Live.{holds, image, joined, IsLive};
ghost use Rattle.rl_sets.specs.Rests.{IsRefusedRest};
ghost use Rattle.rl_sets.specs.Walk.{set_at};
ghost use Rattle.rl_pairs.specs.internal.Errors.{IsRightError};
ghost use Rattle.rl_pairs.specs.internal.Counting.{IsCounted, IsCounting, IsOnward, IsNumberOf, IsClosed};

use crate::error::PairsError;
use rl_lists::Word;
use rl_prio::Prio;
use rl_sets::SetWalk;
use rl_syntax::MOST_COUNTED_SETS;
use std::alloc::Global;

/// Returns a walk that has only the empty set, with the number 0.
pub(crate) fn start(alloc: Global, a: &Prio) -> Result<SetWalk, PairsError>
    ensures counting { IfOk result (IsCounting a.now) }
    ensures errors { (limit : ℕ) → IfErr result (IsRightError a.now limit) }
{
    let mut walk = SetWalk::new(alloc, a, MOST_COUNTED_SETS)?;
    let none = Vec::new(alloc);
    match walk.intern(a, &none) {
        Ok(_) => Ok(walk),
        Err(error) => {
            drop(walk);
            Err(PairsError::from(error))
        }
    }
}

/// Returns the number of the image of a set of the walk on a letter or on the end letter. Adds the image to the walk if the
/// walk doesn't have it; the image must be counted or empty.
pub(crate) fn image_of(
    walk: &mut SetWalk,
    a: &Prio,
    set: u32,
    letter: u32,
) -> Result<u32, PairsError>
    requires counting { IsCounting a.now walk.old }
    requires set_in { set < length walk.old.sets }
    requires letter_in { letter ≤ letters_count a.now }
    requires counted { IsCounted a.now (image a.now (set_at walk.old set) letter) }
    ensures image { IfOk result (IsNumberOf walk.new (image a.now (set_at walk.old set) letter)) }
    ensures onward { OnOk result (IsOnward a.now walk.old walk.new) }
    ensures errors { (limit : ℕ) → IfErr result (IsRightError a.now limit) }
{
    let number = walk.step(a, set, letter)?;
    Ok(number)
}

/// Returns the number of a set of the walk with one more member, or of the set itself if `state` is the dead state. Adds the
/// new set to the walk if the walk doesn't have it; it must be counted or empty.
pub(crate) fn joined_with(
    walk: &mut SetWalk,
    a: &Prio,
    set: u32,
    state: u32,
) -> Result<u32, PairsError>
    requires counting { IsCounting a.now walk.old }
    requires set_in { set < length walk.old.sets }
    requires state_in { state < a.now.states }
    requires counted { IsCounted a.now (joined a.now state (set_at walk.old set)) }
    ensures joined { IfOk result (IsNumberOf walk.new (joined a.now state (set_at walk.old set))) }
    ensures onward { OnOk result (IsOnward a.now walk.old walk.new) }
    ensures errors { (limit : ℕ) → IfErr result (IsRightError a.now limit) }
{
    let number = walk.join(set, state)?;
    Ok(number)
}

/// Returns a rest that a set refuses, or `None` if the set isn't live.
pub(crate) fn rest_of(walk: &mut SetWalk, a: &Prio, set: u32) -> Result<Option<Word>, PairsError>
    requires counting { IsCounting a.now walk.old }
    requires set_in { set < length walk.old.sets }
    ensures rest { IfOk result (λ o. IfSome o (IsRefusedRest a.now (set_at walk.old set))) }
    ensures none { IfOk result (λ o. IfNone o (IsLive a.now (set_at walk.old set) → ⊥)) }
    ensures onward { OnOk result (IsOnward a.now walk.old walk.new) }
    ensures errors { (limit : ℕ) → IfErr result (IsRightError a.now limit) }
{
    let rest = walk.refused_rest(a, set)?;
    Ok(rest)
}

/// Adds the images of a set on all letters and the end letter to the walk.
fn close_set(walk: &mut SetWalk, a: &Prio, set: u32) -> Result<(), PairsError>
    requires counting { IsCounting a.now walk.old }
    requires set_in { set < length walk.old.sets }
    requires free { holds (set_at walk.old set) (accepting_state a.now) ≡ false }
    requires closed { IsClosed a.now walk.old set 0 }
    ensures closed { OnOk result (IsClosed a.now walk.new (suc set) 0) }
    ensures onward { OnOk result (IsOnward a.now walk.old walk.new) }
    ensures errors { (limit : ℕ) → IfErr result (IsRightError a.now limit) }
{
    let end = a.letters().count();
    for letter in 0..end {
        image_of(walk, a, set, letter)?;
    }
    image_of(walk, a, set, end)?;
    Ok(())
}

/// Adds the images of all sets of a walk to it, including the sets that this adds, except that no image is taken of a set with
/// the accepting state.
pub(crate) fn close(walk: &mut SetWalk, a: &Prio) -> Result<(), PairsError>
    requires counting { IsCounting a.now walk.old }
    ensures closed { OnOk result (IsClosed a.now walk.new (length walk.new.sets) 0) }
    ensures onward { OnOk result (IsOnward a.now walk.old walk.new) }
    ensures errors { (limit : ℕ) → IfErr result (IsRightError a.now limit) }
{
    let accepting = a.states() - 2;
    let mut set = 0;
    while set < walk.len() {
        if !walk.holds(set, accepting) {
            close_set(walk, a, set)?;
        }
        set += 1;
    }
    Ok(())
}
