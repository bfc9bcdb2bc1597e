//! Pairs of thread lists whose places have names in the order of their first appearance: the first place has the name 0, the
//! next other one the name 1, and so on. So pairs that are renamings of one another become the same pair.

use crate::stepping::StepError;
use rl_lists::{Items, OutOfMemory};
use rl_marks::GroupSpan;
use rl_marks::threads::{Caps, Thread, ThreadPair};
use std::alloc::Global;

/// A pair with new names of its places, and the old name of each.
#[derive(Drop)]
pub(crate) struct Named {
    /// The pair.
    pub pair: ThreadPair,
    /// The old name of each new name: the item with index `n` is what the new name `n` was.
    pub names: Items<u32>,
}

/// Returns the new name of the place with the old name `place`, and adds it to `names` if it has none yet.
fn name_anew(names: &mut Items<u32>, place: u32) -> Result<u32, StepError> {
    let count = names.len();
    for index in 0..count {
        if names.as_slice()[index] == place {
            return as_name(index);
        }
    }
    names.push(place)?;
    as_name(count)
}

/// Returns the number as a name, or [`StepError::Outside`] if it is 2^32 or more.
fn as_name(index: usize) -> Result<u32, StepError> {
    match u32::try_from(index) {
        Ok(name) => Ok(name),
        Err(_) => Err(StepError::Outside),
    }
}

/// Returns what is known of groups, with new names of the places. Places without a new name get the next ones.
fn caps_anew(alloc: Global, names: &mut Items<u32>, caps: &Caps) -> Result<Caps, StepError> {
    let mut opens = Items::new(alloc);
    for place in caps.opens.as_slice() {
        let name = name_anew(names, *place)?;
        opens.push(name)?;
    }
    let mut held = Items::new(alloc);
    for span in caps.held.as_slice() {
        let from = name_anew(names, span.from)?;
        let upto = name_anew(names, span.upto)?;
        held.push(GroupSpan {
            number: span.number,
            from,
            upto,
        })?;
    }
    Ok(Caps {
        opens,
        held,
        last: caps.last,
    })
}

/// Returns the threads, with new names of the places. Places without a new name get the next ones.
fn threads_anew(
    alloc: Global,
    names: &mut Items<u32>,
    threads: &[Thread],
) -> Result<Items<Thread>, StepError> {
    let mut list = Items::new(alloc);
    for thread in threads {
        let caps = caps_anew(alloc, names, &thread.caps)?;
        list.push(Thread {
            state: thread.state,
            caps,
        })?;
    }
    Ok(list)
}

/// Returns the pair of two lists of threads with new names of the places, and its old names. `agree` and `before` are handed
/// on as they are.
pub(crate) fn named_anew(
    alloc: Global,
    left: &[Thread],
    right: &[Thread],
    agree: bool,
    before: Option<u32>,
) -> Result<Named, StepError> {
    let mut names = Items::new(alloc);
    let left = threads_anew(alloc, &mut names, left)?;
    let right = threads_anew(alloc, &mut names, right)?;
    let pair = ThreadPair {
        left,
        right,
        agree,
        before,
    };
    Ok(Named { pair, names })
}

/// Appends numbers to a key from which all that is known of the groups can be read back.
fn add_caps(key: &mut Vec<u32>, caps: &Caps) -> Result<(), OutOfMemory> {
    key.push(option_key(caps.last))?;
    key.push(length_key(caps.opens.len()))?;
    for place in caps.opens.as_slice() {
        key.push(*place)?;
    }
    key.push(length_key(caps.held.len()))?;
    for span in caps.held.as_slice() {
        key.push(span.number)?;
        key.push(span.from)?;
        key.push(span.upto)?;
    }
    Ok(())
}

/// Returns 0 for `None`, and one more than the number otherwise; the greatest `u32` has the number of the one before it.
fn option_key(value: Option<u32>) -> u32 {
    match value {
        None => 0,
        Some(number) => number.saturating_add(1),
    }
}

/// Returns the length as a number; each length from 2^32 on has the greatest `u32`.
fn length_key(length: usize) -> u32 {
    u32::try_from(length).unwrap_or(u32::MAX)
}

/// Appends the length of a list of threads to a key, and then each thread.
fn add_threads(key: &mut Vec<u32>, threads: &[Thread]) -> Result<(), OutOfMemory> {
    key.push(length_key(threads.len()))?;
    for thread in threads {
        key.push(thread.state)?;
        add_caps(key, &thread.caps)?;
    }
    Ok(())
}

/// Returns the key of a pair, a list of numbers. Two pairs have the same key only if they are the same, as long as no number
/// or length in them comes near 2^32.
pub(crate) fn key_of(alloc: Global, pair: &ThreadPair) -> Result<Vec<u32>, OutOfMemory> {
    let mut key = Vec::new(alloc);
    key.push(if pair.agree { 1 } else { 0 })?;
    key.push(option_key(pair.before))?;
    add_threads(&mut key, pair.left.as_slice())?;
    add_threads(&mut key, pair.right.as_slice())?;
    Ok(key)
}
