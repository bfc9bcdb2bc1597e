//! Walks over the sets of one of two automata that are read side by side.

ghost use Rattle.std.specs.Prelude.{◌≡◌, ◌≢◌, ◌<◌, ◌≤◌, [], ◌∷◌, length, All, Contains, IfOk, OnOk};
ghost use Rattle.rl_syntax.specs.declared.limits.TheConstants.{MOST_SET_PAIRS};
ghost use Rattle.rl_prio.specs.Automaton.{letters_count, accepting_state, dead_state};
ghost use Rattle.rl_sets.specs.Live.{image};
ghost use Rattle.rl_sets.specs.Walk.{set_at, set_of, IsMadeFor};
ghost use Rattle.rl_equiv.specs.internal.Machines.{ends};
ghost use Rattle.rl_equiv.specs.internal.Searching.{IsReader, Gets};
ghost use Rattle.rl_equiv.specs.Sides.{IsSide, IsKeptSide};

use rl_lists::OutOfMemory;
use rl_prio::Prio;
use rl_sets::{SetWalk, SetsError};
use std::alloc::Global;

/// The most sets that a walk may have. A search goes on with a walk of at most [`MOST_KEPT`] sets, and adds at most one more
/// than [`MOST_SET_PAIRS`](rl_syntax::MOST_SET_PAIRS).
const MOST_SETS: u32 = 60_000;

/// The most sets of a walk with which another search may go on.
const MOST_KEPT: u32 = 30_000;

/// Puts the set of these states into the walk unless it has it, and returns its number.
fn put(walk: &mut SetWalk, a: &Prio, members: &Vec<u32>) -> Result<u32, OutOfMemory>
    requires made { IsMadeFor walk.old a.now }
    requires states { All (λ q. (q < a.now.states) × (q ≢ dead_state a.now)) members.now.items }
    requires room { length walk.old.sets < walk.old.limit }
    ensures { IfOk result (Gets a.now walk.old walk.new (set_of a.now members.now.items)) }
{
    match walk.intern(a, members) {
        Ok(number) => Ok(number),
        Err(SetsError::OutOfMemory) => Err(OutOfMemory),
        Err(SetsError::Sets) => unreachable!(),
    }
}

/// Puts the set of one state into the walk unless it has it, and returns its number.
fn put_one(alloc: Global, walk: &mut SetWalk, a: &Prio, state: u32) -> Result<u32, OutOfMemory>
    requires made { IsMadeFor walk.old a.now }
    requires state_in { state < a.now.states }
    requires alive { state ≢ dead_state a.now }
    requires room { length walk.old.sets < walk.old.limit }
    ensures { IfOk result (Gets a.now walk.old walk.new (set_of a.now (state ∷ []))) }
{
    let members = vec![in alloc; state]?;
    put(walk, a, &members)
}

/// Puts the two sets to which the end letter may lead into an empty walk: the empty set and the set of the accepting state.
fn put_ends(alloc: Global, walk: &mut SetWalk, a: &Prio) -> Result<(), OutOfMemory>
    requires made { IsMadeFor walk.old a.now }
    requires reads { IsReader a.now }
    requires empty { walk.old.sets ≡ [] }
    requires limit { walk.old.limit ≡ MOST_SETS }
    ensures { OnOk result (IsSide a.now MOST_SET_PAIRS 0 walk.new) }
{
    let none = Vec::new(alloc);
    put(walk, a, &none)?;
    put_one(alloc, walk, a, a.states() - 2)?;
    Ok(())
}

/// Returns a new walk with the two sets to which the end letter may lead.
pub(crate) fn begin_side(alloc: Global, a: &Prio) -> Result<SetWalk, OutOfMemory>
    requires { IsReader a.now }
    ensures { IfOk result (IsSide a.now MOST_SET_PAIRS 0) }
{
    let mut walk = SetWalk::new(alloc, a, MOST_SETS)?;
    let Ok(()) = put_ends(alloc, &mut walk, a) else {
        drop(walk);
        return Err(OutOfMemory);
    };
    Ok(walk)
}

/// Returns the walk that was kept, with its images, or a new one if none was kept or it has more than [`MOST_KEPT`] sets.
pub(crate) fn kept_side(
    alloc: Global,
    a: &Prio,
    kept: Option<SetWalk>,
) -> Result<SetWalk, OutOfMemory>
    requires reads { IsReader a.now }
    requires kept { IsKeptSide a.now kept }
    ensures { IfOk result (IsSide a.now MOST_SET_PAIRS 0) }
{
    match kept {
        Some(walk) if walk.len() <= MOST_KEPT => Ok(walk),
        Some(walk) => {
            drop(walk);
            begin_side(alloc, a)
        }
        None => begin_side(alloc, a),
    }
}

/// Puts the set of the start into the walk of a search that begins, and returns the walk and the number of that set.
pub(crate) fn start_side(
    alloc: Global,
    a: &Prio,
    mut walk: SetWalk,
) -> Result<(SetWalk, u32), OutOfMemory>
    requires reads { IsReader a.now }
    requires side { IsSide a.now MOST_SET_PAIRS 0 walk }
    ensures side { IfOk result (λ r. IsSide a.now MOST_SET_PAIRS 1 r.0) }
    ensures inside { IfOk result (λ r. r.1 < length r.0.sets) }
    ensures start { IfOk result (λ r. set_at r.0 r.1 ≡ 0 ∷ []) }
{
    let Ok(start) = put_one(alloc, &mut walk, a, 0) else {
        drop(walk);
        return Err(OutOfMemory);
    };
    Ok((walk, start))
}

/// Returns a new walk for a search, with the set of the start, and the number of that set.
pub(crate) fn fresh_side(alloc: Global, a: &Prio) -> Result<(SetWalk, u32), OutOfMemory>
    requires { IsReader a.now }
    ensures side { IfOk result (λ r. IsSide a.now MOST_SET_PAIRS 1 r.0) }
    ensures inside { IfOk result (λ r. r.1 < length r.0.sets) }
    ensures start { IfOk result (λ r. set_at r.0 r.1 ≡ 0 ∷ []) }
{
    let walk = begin_side(alloc, a)?;
    start_side(alloc, a, walk)
}

/// Returns the number of the image of a set of the walk on a letter or on the end letter. Adds the image to the walk if the
/// walk doesn't have it; the walk must have room for one more set.
pub(crate) fn step_to(
    walk: &mut SetWalk,
    a: &Prio,
    set: u32,
    letter: u32,
) -> Result<u32, OutOfMemory>
    requires made { IsMadeFor walk.old a.now }
    requires set_in { set < length walk.old.sets }
    requires letter_in { letter ≤ letters_count a.now }
    requires room { length walk.old.sets < walk.old.limit }
    ensures { IfOk result (Gets a.now walk.old walk.new (image a.now (set_at walk.old set) letter)) }
{
    match walk.step(a, set, letter) {
        Ok(number) => Ok(number),
        Err(SetsError::OutOfMemory) => Err(OutOfMemory),
        Err(SetsError::Sets) => unreachable!(),
    }
}

/// Returns whether the end letter leads a set to the accepting state. The image is one of the two sets that the walk began
/// with.
pub(crate) fn ends_at(walk: &mut SetWalk, a: &Prio, set: u32) -> Result<bool, OutOfMemory>
    requires made { IsMadeFor walk.old a.now }
    requires reads { IsReader a.now }
    requires set_in { set < length walk.old.sets }
    requires has_none { Contains walk.old.sets (set_of a.now []) }
    requires has_end { Contains walk.old.sets (set_of a.now (accepting_state a.now ∷ [])) }
    ensures ends { IfOk result (λ ended. ended ≡ ends a.now (set_at walk.old set)) }
    ensures made { OnOk result (IsMadeFor walk.new a.now) }
    ensures limit { OnOk result (walk.new.limit ≡ walk.old.limit) }
    ensures sets { OnOk result (walk.new.sets ≡ walk.old.sets) }
{
    let number = match walk.step(a, set, a.letters().count()) {
        Ok(number) => number,
        Err(SetsError::OutOfMemory) => return Err(OutOfMemory),
        Err(SetsError::Sets) => unreachable!(),
    };
    Ok(walk.holds(number, a.states() - 2))
}
