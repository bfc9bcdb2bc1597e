//! Words that lead to a pair of sets that shows a difference: the end letter leads exactly one of its two sets to the
//! accepting state.

ghost use Rattle.std.specs.Prelude.{◌≡◌, true, length, IfOk, OnOk};
ghost use Rattle.rl_trim.specs.internal.Trims.{LeadsApart};
ghost use Rattle.rl_trim.specs.Reached.{IsClosedTo};
ghost use Rattle.rl_trim.specs.internal.Quick.{IsGrown, AreTrims};

use crate::branch::{Branch, Trims};
use crate::key::{Key, Way};
use indexmap::IndexSet;
use rl_lists::OutOfMemory;
use rl_sets::{SetWalk, SetsError};
use std::alloc::Global;

/// Appends to `back` the letters by which the set or pair at a place was found, last letter first. Returns the place of the
/// set or pair from which they lead there, which was not found by a letter.
fn trace(back: &mut Vec<u32>, ways: &[Way], place: usize) -> Result<usize, OutOfMemory> {
    let mut at = place;
    while at < ways.len() && ways[at].parent < at {
        back.push(ways[at].letter)?;
        at = ways[at].parent;
    }
    Ok(at)
}

/// Returns the word by which the pair at a place was found. It has two parts: the letters by which a set was found from the
/// start, and the letters by which the pair was found from the pair of this set and the same set without the branch. `sets`
/// and `pairs` say how sets and pairs were found, and `keys` are the pairs.
pub(crate) fn word_to(
    alloc: Global,
    sets: &[Way],
    pairs: &[Way],
    keys: &IndexSet<Key>,
    place: usize,
) -> Result<Vec<u32>, OutOfMemory> {
    let mut back = Vec::new(alloc);
    let root = trace(&mut back, pairs, place)?;
    if root < keys.len() {
        trace(&mut back, sets, keys[root].first as usize)?;
    }
    back.reverse();
    Ok(back)
}

/// Returns whether a word leads from the pair of the two starts to a pair that shows a difference. A word with a number that
/// is no letter, such as the end letter, doesn't.
pub(crate) fn leads_apart(
    branch: &Branch,
    walk: &mut SetWalk,
    trims: &mut Trims,
    word: &[u32],
) -> Result<bool, SetsError>
    requires closed { IsClosedTo branch.now.automaton.now walk.old 0 (length walk.old.sets) }
    requires trims { AreTrims branch.now.keep.now walk.old trims.old }
    ensures apart { IfOk result (λ apart. apart ≡ true → LeadsApart branch.now.automaton.now branch.now.keep.now word.now) }
    ensures grown { OnOk result (IsGrown branch.now.automaton.now walk.old walk.new) }
{
    let letters = branch.automaton.letters().count();
    let mut key = Key {
        first: 0,
        second: 0,
    };
    for letter in word {
        if *letter >= letters {
            return Ok(false);
        }
        let next = branch.next(walk, trims, key, *letter)?;
        key = next;
    }
    Ok(branch.differs(walk, key))
}
