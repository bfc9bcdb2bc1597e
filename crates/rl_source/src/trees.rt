//! Trees of files. The map of a tree of files is the list of its nodes, which are paths with what is there. The trail is the
//! list of the calls on the tree so far, in order, except those that ran out of memory.
ghost use Rattle.std.specs.Prelude.{◌≡◌, ℕ, take, Option, IfOk, IfSome, IsSomeAnd, Some};
ghost use Rattle.rl_source.specs.Revealed.{Revealed, after};

use crate::nodes::{Child, Kind, Query};
use rl_lists::OutOfMemory;
use std::alloc::{AllocError, AllocFailed};

/// Why a call of a tree has no answer.
#[derive(Clone, Copy, Debug, PartialEq, Eq)]
pub enum TreeError {
    /// The tree couldn't answer: nothing of the requested kind is at the path, or the outside world failed.
    Failed,
    /// There was not enough memory.
    OutOfMemory,
}

impl From<OutOfMemory> for TreeError {
    ghost use Rattle.rl_source.specs.declared.trees.TreeError.TheVariants as error;

    ghost from_gives = { λ _ e. e ≡ error.OutOfMemory };

    fn from(_: OutOfMemory) -> Self {
        TreeError::OutOfMemory
    }
}

impl From<AllocError> for TreeError {
    ghost use Rattle.rl_source.specs.declared.trees.TreeError.TheVariants as error;

    ghost from_gives = { λ _ e. e ≡ error.OutOfMemory };

    fn from(_: AllocError) -> Self {
        TreeError::OutOfMemory
    }
}

impl<T: Drop> From<AllocFailed<T>> for TreeError {
    ghost use Rattle.rl_source.specs.declared.trees.TreeError.TheVariants as error;

    ghost from_gives = { λ _ e. e ≡ error.OutOfMemory };

    fn from(_: AllocFailed<T>) -> Self {
        TreeError::OutOfMemory
    }
}

/// A tree of files that can be queried.
///
/// It may reveal to contracts its map from paths to what is there, together with the trail of the calls so far. No call
/// changes the map. If the map is revealed, every answer agrees with it, and a call for which the map has no answer returns an
/// error. A call that returns [`TreeError::OutOfMemory`] isn't added to the trail.
pub trait Tree {
    ghost use Rattle.rl_source.specs.Asked.{noted, HasTreeCause};
    ghost use Rattle.rl_source.specs.NodeMap.{kind_at, children_at, bytes_at};
    ghost use Rattle.rl_source.specs.Distinct.{Lists};

    // The map and the trail, if the tree reveals them. It reveals both or neither.
    ghost told: { Self → Option Revealed };
    // The number of calls that returned `Failed`, at most 2^64 - 1.
    ghost fault_count: { Self → ℕ };

    /// Returns the number of calls that failed so far, at most `u64::MAX`.
    fn faults(&self) -> u64
        ensures { result ≡ fault_count self.now };

    /// Returns the kind of what is at the path.
    ///
    /// # Errors
    /// - [`TreeError::Failed`] if nothing is there, or the tree couldn't answer for another reason.
    /// - [`TreeError::OutOfMemory`] if there is not enough memory.
    fn kind(&mut self, path: &str) -> Result<Kind, TreeError>
        ensures told { told self.new ≡ after (noted Query.Kind path.now result) (told self.old) }
        ensures answer { IfOk result (λ found. IfSome (told self.old)
            (λ t. kind_at t.nodes path.now ≡ Some found)) }
        ensures cause { HasTreeCause (fault_count self.old) (fault_count self.new) result };

    /// Returns the children of the folder at the path, in any order. If the tree reveals its map, no two have the same name.
    ///
    /// # Errors
    /// - [`TreeError::Failed`] if no folder is there, or the tree couldn't answer for another reason.
    /// - [`TreeError::OutOfMemory`] if there is not enough memory.
    fn children(&mut self, path: &str) -> Result<Vec<Child>, TreeError>
        ensures told { told self.new ≡ after (noted Query.Children path.now result) (told self.old) }
        ensures answer { IfOk result (λ found. IfSome (told self.old)
            (λ t. IsSomeAnd (children_at t.nodes path.now) (λ children. Lists children found.items))) }
        ensures cause { HasTreeCause (fault_count self.old) (fault_count self.new) result };

    /// Returns the first `at_most` bytes of the file at the path, or all of them if there are fewer.
    ///
    /// # Errors
    /// - [`TreeError::Failed`] if no file is there, or the tree couldn't answer for another reason.
    /// - [`TreeError::OutOfMemory`] if there is not enough memory.
    fn read(&mut self, path: &str, at_most: usize) -> Result<Vec<u8>, TreeError>
        ensures told { told self.new ≡ after (noted (Query.Read at_most) path.now result) (told self.old) }
        ensures answer { IfOk result (λ bytes. IfSome (told self.old)
            (λ t. IsSomeAnd (bytes_at t.nodes path.now) (λ content. bytes.items ≡ take at_most content))) }
        ensures cause { HasTreeCause (fault_count self.old) (fault_count self.new) result };
}
