//! The visits of a walk, and who receives them. A visit is what the walk reports about a path: a source with its bytes, or why
//! there is none.
ghost use Rattle.std.specs.Prelude.{◌≡◌, ◌∷◌, [], ◌++◌, List, OnOk};

use rl_lists::{Items, OutOfMemory};
use rl_source::{Content, Name};

/// What a walk reports about a path. Each variant contains the path, which begins with a path that the walk was given.
#[derive(Drop)]
pub enum Visit {
    /// The path of a source, and its bytes: all of them, but at most the first [`MOST_BYTES`](rl_lists::MOST_BYTES) and one
    /// more.
    Source(Name, Content),
    /// A call of the tree for this path failed: the tree couldn't say what is there, list the folder or read the file.
    Unreadable(Name),
    /// A folder more than [`MOST_LEVELS`](crate::MOST_LEVELS) levels below the path that the walk was given. It isn't
    /// entered.
    TooDeep(Name),
    /// A path that the walk was given and that is neither a file nor a folder.
    NotPlain(Name),
}

/// A list of visits, in the order of the walk.
pub type Visits = Items<Visit>;

/// A receiver of the visits of a walk. It gets them one after another and needn't keep them.
pub trait Visitor {
    ghost use Rattle.rl_walk.specs.declared.visits.Visit.{Visit};

    // The visitor, in its current state, has received these visits in this order.
    ghost has_received: { Self → List Visit → Type 0 };
    // Its configuration, which no visit changes.
    ghost Config: { Type 0 };

    ghost config: { Self → Config };

    /// Receives the next visit.
    ///
    /// # Errors
    /// [`OutOfMemory`] if there is not enough memory. The walk ends then.
    fn visit(&mut self, visit: Visit) -> Result<(), OutOfMemory>
        ensures told { OnOk result ((visits : List Visit) → has_received self.old visits → has_received self.new (visits ++ visit ∷ [])) }
        ensures config { config self.new ≡ config self.old };
}

impl Visitor for Visits {
    ghost has_received = { λ list visits. list ≡ visits };

    ghost Config = { Unit {0} };

    ghost config = { λ _. tt };

    fn visit(&mut self, visit: Visit) -> Result<(), OutOfMemory> {
        self.push(visit)
    }
}
