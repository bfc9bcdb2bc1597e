//! What a comparison of two trees finds. A set pair is two sets of states, one of each of two automata, to which the same word
//! leads; the letters of the word are those of both trees. It shows a difference if the end letter, which comes after the last
//! letter, leads exactly one of its sets to the accepting state. The relation is the list of all set pairs that are reached.

use crate::pair::Relation;
use rl_lists::Codes;

/// What a comparison finds out about the languages of two trees, which are the texts that the trees span whole.
#[derive(Drop)]
pub enum Sameness {
    /// They are equal: the relation of all set pairs is closed.
    Equal(Relation),
    /// They differ: the text is in exactly one of them.
    Apart(Codes),
    /// Nothing: the limit is exceeded, so the comparison hasn't succeeded. More set pairs are reached than the limit allows,
    /// and none of the first ones shows a difference.
    Passed,
}
