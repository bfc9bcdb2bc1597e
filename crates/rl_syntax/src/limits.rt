//! The limits on what is judged and compared. If a limit is exceeded, the answer names it.

ghost use Rattle.std.specs.Prelude.{◌≡◌};
ghost use Rattle.rl_syntax.specs.declared.limits.TheConstants.{
  MOST_NODES,
  MOST_MOVES,
  MOST_COUNTED_SETS,
  MOST_PAIRS,
  MOST_SET_PAIRS,
};

/// The maximum number of nodes of a tree. A larger tree isn't built from a pattern, and it is neither judged nor compared.
pub const MOST_NODES: u64 = 4_000;

/// The maximum length of a tree's lists of items. Such a list has what a backtracking matcher tries in order at one point of
/// the tree: tests of sets and ends of the tree. So this is also the maximum number of moves from one state on one letter. If
/// a list is longer, no automaton is built.
pub const MOST_MOVES: usize = 256;

/// The maximum number of counted sets of an automaton. These are the sets of states to which the moves of its live pairs lead,
/// and the images, under its letters, of counted sets without the accepting state. A pattern with more isn't judged.
pub const MOST_COUNTED_SETS: u32 = 20_000;

/// The largest limit on live pairs that a caller may set. A live pair is a state with the set of states that were tried in
/// vain before it, if that set refuses some rest of a text. A pattern whose automaton has more than the caller's limit isn't
/// judged.
pub const MOST_PAIRS: u32 = 1_000;

/// The largest limit on set pairs that a caller may set for a comparison. A set pair is two sets of states, one of each tree,
/// that are reached on one word. A comparison that reaches more than the caller's limit reports it.
pub const MOST_SET_PAIRS: u32 = 20_000;

/// Does nothing: its contract states the values of the limits: 4,000 nodes, 256 moves, 20,000 counted sets, 1,000 live pairs
/// and 20,000 set pairs.
pub fn limits_are()
    ensures nodes { MOST_NODES ≡ 4000 }
    ensures moves { MOST_MOVES ≡ 256 }
    ensures counted_sets { MOST_COUNTED_SETS ≡ 20000 }
    ensures pairs { MOST_PAIRS ≡ 1000 }
    ensures set_pairs { MOST_SET_PAIRS ≡ 20000 }
{}
