//! Threads, and pairs of thread lists. A thread is a state of a tree, which is its start or a place whose test has just
//! succeeded, with what is known of the groups. `rl_spans` steps from
//! pair to pair. Within a pair, the positions in what is known of the groups are names: in each step they become one greater,
//! and the current position gets the name 0.

ghost use Rattle.std.specs.Prelude.{◌≡◌, IfOk};

use crate::spans::GroupSpan;
use rl_lists::{Items, OutOfMemory};
use rl_syntax::Guard;

/// The positions from which matches are asked for.
#[derive(Clone, Copy, Debug, PartialEq, Eq)]
pub enum Origin {
    /// Each position of each text.
    EachPlace,
    /// The start of each text.
    TextStart,
}

/// What is known of the groups on a way through a tree.
#[derive(Drop)]
pub struct Caps {
    /// The positions at which the groups that are still open were opened, the innermost one first.
    pub opens: Items<u32>,
    /// The last span of each group that was closed, by ascending numbers.
    pub held: Items<GroupSpan>,
    /// The number of the group that was closed last, or `None` if no group was closed.
    pub last: Option<u32>,
}

/// What an item of a tree does at a position before its test of a place, or before the end of the tree.
#[derive(Drop)]
pub enum Act {
    /// Tests the position.
    Check(Guard),
    /// Opens a group.
    OpenGroup,
    /// Closes the innermost open group, which has this number.
    CloseGroup(u32),
}

impl Act {
    /// Returns a copy of the act.
    ///
    /// # Errors
    /// [`OutOfMemory`] if there are too many copies of the set of the act's guard.
    pub fn copy(&self) -> Result<Act, OutOfMemory>
        ensures { IfOk result (λ a. a ≡ self.now) }
    {
        match self {
            Act::Check(guard) => Ok(Act::Check(guard.copy()?)),
            Act::OpenGroup => Ok(Act::OpenGroup),
            Act::CloseGroup(number) => Ok(Act::CloseGroup(*number)),
        }
    }
}

/// What a matcher tries: acts in order, and then the test of a place or the end of the tree.
#[derive(Drop)]
pub enum MarkItem {
    /// The acts, and the number of the place. The places of a tree are its sets, numbered from 0, from left to right.
    Test(Items<Act>, u32),
    /// The acts before the end of the tree.
    Pass(Items<Act>),
}

/// What an item whose guards hold comes to at a position of the text.
#[derive(Drop)]
pub enum Try {
    /// The test of the place with this number, and what is known of the groups before it.
    Goes(u32, Caps),
    /// The end of the tree, and what is known of the groups there.
    Stops(Caps),
}

/// A state with what is known of the groups.
#[derive(Drop)]
pub struct Thread {
    /// The state: 0 at the start, and otherwise one more than the number of the place whose test has just succeeded.
    pub state: u32,
    /// What is known of the groups.
    pub caps: Caps,
}

/// The thread lists of two matchers that have read the same codes.
#[derive(Drop)]
pub struct ThreadPair {
    /// The threads of the first matcher, in order.
    pub left: Items<Thread>,
    /// The threads of the second matcher, in order.
    pub right: Items<Thread>,
    /// Whether both matchers have found the same so far.
    pub agree: bool,
    /// The code before, or `None` at the start of the text.
    pub before: Option<u32>,
}
