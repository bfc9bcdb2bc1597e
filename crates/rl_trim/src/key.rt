//! Keys, which are pairs of sets given by their numbers, and how sets and pairs were found. The place of a set is its number
//! in the walk, and the place of a pair its index in a list of keys, both from 0.

ghost use Rattle.std.specs.Prelude.{OnOk};
ghost use Rattle.rl_trim.specs.internal.Quick.{IsPut};

use indexmap::IndexSet;
use rl_lists::OutOfMemory;

/// A pair of sets, given by their numbers in a walk.
#[derive(Clone, Copy, PartialEq, Eq, Hash)]
pub(crate) struct Key {
    /// The number of the first set, which the whole tree reaches.
    pub first: u32,
    /// The number of the second set, which the tree without the branch reaches.
    pub second: u32,
}

/// How a set or a pair of sets was found: on a letter, as the image of an earlier set or as the next pair of an earlier pair.
/// A set or pair with which a search began has its own place as its parent, and a letter without meaning.
#[derive(Clone, Copy)]
pub(crate) struct Way {
    /// The place of the earlier set or pair.
    pub parent: usize,
    /// The letter.
    pub letter: u32,
}

/// Appends the pair `key` to the list unless it is already there. Returns whether it was appended.
pub(crate) fn put(keys: &mut IndexSet<Key>, key: Key) -> Result<bool, OutOfMemory>
    ensures { OnOk result (IsPut keys.old.keys keys.new.keys key) }
{
    let new = keys.insert(key)?;
    Ok(new)
}
