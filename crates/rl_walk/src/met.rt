//! The paths that a walk has met so far.
ghost use Rattle.std.specs.Prelude.{◌≡◌, List, ℕ, [], not, IfOk, OnOk};
ghost use Rattle.rl_walk.specs.Steps.{is_met, with_path};

use indexmap::IndexSet;
use rl_lists::OutOfMemory;
use std::alloc::Global;
use std::marker::Model;

/// The paths that a walk has met. Contracts see it as the list of their texts, in the order in which they were met.
#[derive(Drop)]
pub(crate) struct Met {
    alloc: Global,
    paths: IndexSet<String>,
}

impl Model for Met {
    ghost use Rattle.std.specs.Prelude.{List, ℕ, map, string_bytes};

    ghost Value = { List (List ℕ) };

    ghost view = { λ m. map string_bytes m.paths.keys };
}

impl Met {
    /// Returns the empty set: no path has been met yet.
    pub(crate) fn new(alloc: Global) -> Met
        ensures { result ≡ [] }
    {
        Met {
            alloc,
            paths: IndexSet::new(alloc),
        }
    }

    /// Adds a path, and returns whether it is new. A path that was met before doesn't change the set.
    ///
    /// # Errors
    /// [`OutOfMemory`] if there is not enough memory.
    pub(crate) fn add(&mut self, path: &str) -> Result<bool, OutOfMemory>
        ensures added { IfOk result (λ new. new ≡ not (is_met path.now self.old)) }
        ensures met { OnOk result (self.new ≡ with_path self.old path.now) }
    {
        let text = String::from_str(self.alloc, path)?;
        Ok(self.paths.insert(text)?)
    }
}
