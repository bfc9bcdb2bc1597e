//! Looks up set pairs by their sets.

ghost use Rattle.std.specs.Prelude.{◌≡◌, ◌↔◌, List, [], Contains, IsTrue, IfOk, OnOk};
ghost use Rattle.rl_equiv.specs.Numbering.{with_one};
ghost use Rattle.rl_equiv.specs.internal.Index.{HoldTheSame};

use crate::pair::SetPair;
use indexmap::IndexSet;
use rl_lists::{Members, OutOfMemory};
use std::alloc::Global;
use std::marker::Model;

/// The two sets of a set pair.
#[derive(Debug, Drop, PartialEq, Eq, Hash)]
pub(crate) struct Sets {
    /// The members of the first set.
    pub first: Vec<u32>,
    /// The members of the second set.
    pub second: Vec<u32>,
}

/// Set pairs, each once. For contracts it is the list of them.
#[derive(Drop)]
pub(crate) struct Index {
    alloc: Global,
    pairs: IndexSet<Sets>,
}

impl Model for Index {
    ghost use Rattle.std.specs.Prelude.{List, map};
    ghost use Rattle.rl_equiv.specs.declared.pair.SetPair.{SetPair};
    ghost use Rattle.rl_equiv.specs.internal.Index.{pair_of_sets};

    ghost Value = { List SetPair };

    ghost view = { λ i. map pair_of_sets i.pairs.keys };
}

impl Index {
    /// Returns an index of the set pairs of a relation.
    pub(crate) fn of(alloc: Global, relation: &[SetPair]) -> Result<Index, OutOfMemory>
        ensures { IfOk result (λ index. HoldTheSame index relation.now) }
    {
        let mut index = Index::new(alloc);
        for pair in relation {
            let Ok(()) = index.add(pair) else {
                drop(index);
                return Err(OutOfMemory);
            };
        }
        Ok(index)
    }

    /// Returns an empty index.
    fn new(alloc: Global) -> Index
        ensures { result ≡ [] }
    {
        Index {
            alloc,
            pairs: IndexSet::new(alloc),
        }
    }

    /// Appends a set pair, unless the index has it.
    fn add(&mut self, pair: &SetPair) -> Result<(), OutOfMemory>
        ensures { OnOk result (self.new ≡ with_one self.old pair.now) }
    {
        let first = Vec::from_slice(self.alloc, pair.first.as_slice())?;
        let second = Vec::from_slice(self.alloc, pair.second.as_slice())?;
        self.pairs.insert(Sets { first, second })?;
        Ok(())
    }

    /// Returns whether the index has the pair of two sets.
    pub(crate) fn has(&self, first: Members, second: Members) -> bool
        ensures { IsTrue result ↔ Contains self.now (record { first = first; second = second }) }
    {
        let sets = Sets {
            first: first.into_vec(),
            second: second.into_vec(),
        };
        self.pairs.contains(&sets)
    }
}
