//! A tree of files in memory, whose calls can be made to fail. The map of a tree of files is the list of its nodes, which are
//! paths with what is there. The trail is the list of the calls on the tree so far, in order, except those that ran out of
//! memory.
ghost use Rattle.std.specs.Prelude.{◌≡◌, [], true, false, take, Some, None, is_some, IfOk, IsSomeAnd, IsErr, IsErrOf, OnOk, OnErr, ◌∷◌, ◌++◌};
ghost use Rattle.rl_source.specs.Revealed.{after};
ghost use Rattle.rl_source.specs.Distinct.{Lists, is_double};

use crate::doubles::is_double;
use crate::node_map::{bytes_at, children_at, kind_at};
use crate::nodes::{Call, Child, Kind, Name, Nodes, Query};
use crate::trees::{Tree, TreeError};
use rl_lists::OutOfMemory;
use std::alloc::{AllocError, AllocFailed, Global};
use std::marker::Model;

/// Why a [`MemTree`] couldn't be created.
#[derive(Clone, Copy, Debug, PartialEq, Eq)]
pub enum MemTreeError {
    /// Two nodes have the same path, or two children of one folder have the same name.
    DoublePath,
    /// There was not enough memory.
    OutOfMemory,
}

impl From<OutOfMemory> for MemTreeError {
    ghost use Rattle.rl_source.specs.declared.mem_tree.MemTreeError.TheVariants as error;

    ghost from_gives = { λ _ e. e ≡ error.OutOfMemory };

    fn from(_: OutOfMemory) -> Self {
        MemTreeError::OutOfMemory
    }
}

/// A tree over a list of nodes. It reveals its map, which is that list, and its trail.
///
/// Calls are numbered from 1 by their place in the trail. A call returns an error if its number is one of those that were
/// chosen to fail, or if the map has no answer for it: [`TreeError::Failed`], unless memory runs out. A call that returns
/// [`TreeError::OutOfMemory`] isn't in the trail.
/// The tree is made for tests: each call searches the nodes from the first one on.
#[derive(Drop)]
pub struct MemTree {
    /// The allocator of the answers and the trail.
    alloc: Global,
    /// The map.
    nodes: Nodes,
    /// The numbers of the calls that were chosen to fail.
    failing: Vec<u64>,
    /// The calls so far, except those that ran out of memory.
    trail: Vec<Call>,
}

impl Model for MemTree {
    ghost use Rattle.std.specs.Prelude.{◌≡◌, false};
    ghost use Rattle.rl_source.specs.MemTreeState.{MemTreeState};
    ghost use Rattle.rl_source.specs.Distinct.{is_double};

    ghost Value = { MemTreeState };

    ghost view = { λ t. record { nodes = t.nodes; failing = t.failing.items; trail = t.trail.items } };

    ghost invariant = { λ t. is_double t.nodes ≡ false };
}

impl MemTree {
    ghost use Rattle.rl_source.specs.MemTreeState.{MemTreeState, call_fails, after_call, failed_calls};
    ghost use Rattle.rl_source.specs.Asked.{call_of, noted, HasTreeCause};

    /// Returns a tree of these nodes, with an empty trail. The calls with the numbers in `failing`, counted from 1,
    /// return an error.
    ///
    /// # Errors
    /// - [`MemTreeError::DoublePath`] only if two nodes have the same path, or two children of one folder have the same name,
    ///   in which case there is never a result.
    /// - [`MemTreeError::OutOfMemory`] if there is not enough memory.
    pub fn new(alloc: Global, nodes: Nodes, failing: Vec<u64>) -> Result<MemTree, MemTreeError>
        ensures ok { IfOk result
            (λ tree. tree ≡ record { nodes = nodes; failing = failing.items; trail = [] }) }
        ensures double { IsErrOf result MemTreeError.DoublePath → is_double nodes ≡ true }
        ensures refused { is_double nodes ≡ true → IsErr result }
    {
        if is_double(alloc, nodes.as_slice())? {
            return Err(MemTreeError::DoublePath);
        }
        Ok(MemTree {
            alloc,
            nodes,
            failing,
            trail: Vec::new(alloc),
        })
    }

    /// Whether the next call was chosen to fail, whatever it asks.
    fn call_fails(&self) -> bool
        ensures { result ≡ call_fails self.now }
    {
        self.failing.contains(&(self.trail.len() as u64 + 1))
    }

    /// Adds a call to the trail.
    fn note(&mut self, query: Query, path: &str, failed: bool) -> Result<(), OutOfMemory>
        ensures ok { OnOk result (self.new ≡ record self.old {
          trail = self.old.trail ++ call_of query path.now failed ∷ [];
        }) }
        ensures err { OnErr result (self.new ≡ self.old) }
    {
        let path = Name::from_text(self.alloc, path)?;
        self.trail.push(Call {
            query,
            path,
            failed,
        })?;
        Ok(())
    }

    /// Adds a call to the trail and returns what was found. If nothing was found, the call failed.
    fn answer<T: Drop>(
        &mut self,
        query: Query,
        path: &str,
        found: Option<T>,
    ) -> Result<T, TreeError>
        ensures found { IfOk result (λ value. found ≡ Some value) }
        ensures none { IsErrOf result TreeError.Failed → found ≡ None }
        ensures cause { HasTreeCause (failed_calls self.old) (failed_calls self.new) result }
        ensures state { self.new ≡ after_call self.old (noted query path.now result) }
    {
        match self.note(query, path, found.is_none()) {
            Ok(()) => found.ok_or(TreeError::Failed),
            Err(OutOfMemory) => Err(TreeError::OutOfMemory),
        }
    }
}

impl Tree for MemTree {
    ghost use Rattle.rl_source.specs.MemTreeState.{MemTreeState, FailsExactly, revealed_by, failed_calls, after_call};
    ghost use Rattle.rl_source.specs.Asked.{noted, HasTreeCause};
    ghost use Rattle.rl_source.specs.NodeMap.{kind_at, children_at, bytes_at};

    ghost told = { λ t. Some (revealed_by t) };

    ghost fault_count = { failed_calls };

    fn faults(&self) -> u64 {
        self.trail.iter().filter(|call| call.failed).count() as u64
    }

    fn kind(&mut self, path: &str) -> Result<Kind, TreeError>
        ensures told { Some (revealed_by self.new) ≡ after (noted Query.Kind path.now result) (Some (revealed_by self.old)) }
        ensures answer { IfOk result (λ found. kind_at self.old.nodes path.now ≡ Some found) }
        ensures cause { HasTreeCause (failed_calls self.old) (failed_calls self.new) result }
        ensures state { self.new ≡ after_call self.old (noted Query.Kind path.now result) }
        ensures exact { FailsExactly self.old (is_some (kind_at self.old.nodes path.now)) result }
    {
        let found = if self.call_fails() {
            None
        } else {
            kind_at(self.nodes.as_slice(), path)
        };
        self.answer(Query::Kind, path, found)
    }

    fn children(&mut self, path: &str) -> Result<Vec<Child>, TreeError>
        ensures told { Some (revealed_by self.new) ≡ after (noted Query.Children path.now result) (Some (revealed_by self.old)) }
        ensures answer { IfOk result (λ found.
            IsSomeAnd (children_at self.old.nodes path.now) (λ children. Lists children found.items)) }
        ensures cause { HasTreeCause (failed_calls self.old) (failed_calls self.new) result }
        ensures state { self.new ≡ after_call self.old (noted Query.Children path.now result) }
        ensures exact { FailsExactly self.old (is_some (children_at self.old.nodes path.now)) result }
    {
        let found = match children_at(self.nodes.as_slice(), path) {
            Some(children) if !self.call_fails() => Some(Vec::from_clones(self.alloc, children)?),
            _ => None,
        };
        self.answer(Query::Children, path, found)
    }

    fn read(&mut self, path: &str, at_most: usize) -> Result<Vec<u8>, TreeError>
        ensures told { Some (revealed_by self.new) ≡ after (noted (Query.Read at_most) path.now result) (Some (revealed_by self.old)) }
        ensures answer { IfOk result (λ bytes.
            IsSomeAnd (bytes_at self.old.nodes path.now) (λ content. bytes.items ≡ take at_most content)) }
        ensures cause { HasTreeCause (failed_calls self.old) (failed_calls self.new) result }
        ensures state { self.new ≡ after_call self.old (noted (Query.Read at_most) path.now result) }
        ensures exact { FailsExactly self.old (is_some (bytes_at self.old.nodes path.now)) result }
    {
        let found = match bytes_at(self.nodes.as_slice(), path) {
            Some(content) if !self.call_fails() => {
                let wanted = content.len().min(at_most);
                Some(Vec::from_slice(self.alloc, &content[..wanted])?)
            }
            _ => None,
        };
        self.answer(Query::Read(at_most), path, found)
    }
}
