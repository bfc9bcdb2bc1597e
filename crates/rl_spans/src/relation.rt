//! Relations on pairs of thread lists. A closed one is a certificate that two patterns find the same. Pairs, and the letters
//! of both patterns, are numbered from 0 on. A thread list has names in place of positions: the step of a pair on a letter
//! gives its own place the name 0, and each earlier place a name one greater than before.

use rl_lists::Items;
use rl_marks::threads::ThreadPair;

/// The step of a pair on one letter: to which pair of the relation it leads, up to the names of places.
#[derive(Drop)]
pub struct Move {
    /// The number of the pair that follows.
    pub pair: u32,
    /// For each name in that pair, from 0 on, the name of the same place in the step.
    pub names: Items<u32>,
}

/// The steps of one pair.
#[derive(Drop)]
pub struct Row {
    /// One move for each letter, in the order of the letters.
    pub moves: Items<Move>,
}

/// A relation on pairs of thread lists, with the step of each pair on each letter. If it is closed, two patterns find the
/// same: [`check`](crate::check) says whether it is.
#[derive(Drop)]
pub struct SpanRelation {
    /// The pairs.
    pub pairs: Items<ThreadPair>,
    /// The steps of each pair, in the order of the pairs.
    pub rows: Items<Row>,
    /// The steps of the pairs at which a match begins: at the start of a text, and then behind each letter. Each of these has
    /// two rows: for a match that may be empty, and for one that may not. With `OneSearch` only the first row of all is
    /// needed.
    pub begins: Items<Row>,
}
