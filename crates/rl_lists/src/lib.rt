//! One list type for all crates above, and one error type for running out of memory.
//!
//! [`Items`] is a growable list. [`Items::push`] may run out of memory; it then returns [`OutOfMemory`] and leaves the list
//! unchanged. [`Codes`], [`Word`], [`Path`], [`Ranks`], [`Places`], [`Members`] and [`Bytes`] are aliases that say what the
//! items mean. [`Items::from_vec`] turns a vector into a list, and [`Items::into_vec`] turns it back.
//!
//! # What is proved
//!
//! Contracts see an `Items` value as the list of its items, and each method does to that list what its name says. A list
//! that couldn't grow is unchanged.
//!
//! # Example
//!
//! ```
//! let mut list: Items<u32> = Items::new(alloc);
//! list.push(7)?;
//! list.push(9)?;
//! list.as_slice(); // [7, 9]
//! ```
//!
//! You need no definitions to read the contracts: they use only the lists of the standard library.
#![tactic(auto)]

pub mod items;
pub mod limits;

pub use items::Items;
pub use limits::MOST_BYTES;
use std::alloc::{AllocError, AllocFailed};

/// The error of a call that ran out of memory.
#[derive(Clone, Copy, Debug, PartialEq, Eq)]
pub struct OutOfMemory;

impl From<AllocError> for OutOfMemory {
    fn from(_: AllocError) -> Self {
        OutOfMemory
    }
}

impl<T: Drop> From<AllocFailed<T>> for OutOfMemory {
    fn from(_: AllocFailed<T>) -> Self {
        OutOfMemory
    }
}

/// A text: a list of codes, which are Unicode code points or byte values.
pub type Codes = Items<u32>;

/// A word: a list of letters, which are numbered from 0.
pub type Word = Items<u32>;

/// A path in a multigraph, which may have several moves from one state on one letter: the number of each move, in order. A
/// move's number counts from 0 among the moves of its state and letter.
pub type Path = Items<u32>;

/// The rank of each state of a graph, at the state's index: the number of splits in a longest chain of splits that can be
/// reached from the state, one after another. A split is a pair of different states `r` and `q` and a word that leads from `r`
/// to `r`, from `r` to `q` and from `q` to `q`.
pub type Ranks = Items<u32>;

/// For each code of a literal's value, the byte offset in the source, from 0, of the character or escape that gives it.
pub type Places = Items<u32>;

/// The states of a set, in ascending order.
pub type Members = Items<u32>;

/// A list of bytes.
pub type Bytes = Items<u8>;
