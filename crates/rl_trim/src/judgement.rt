//! The result of a trial of a branch.

/// What a trial of a branch finds out about the languages of the tree with the branch and without it. A set pair has a set of
/// states for each of the two; it shows a difference if the end letter leads exactly one of them to the accepting state.
#[derive(Clone, Copy)]
pub enum Judgement {
    /// The languages are equal, and no more set pairs are reached than the limit allows.
    Equal,
    /// The languages differ: one of the set pairs within the limit shows a difference.
    Apart,
    /// More set pairs are reached than the limit allows, and those within the limit show no difference.
    Exceeded,
}
