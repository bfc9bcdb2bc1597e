//! One side of a comparison: a tree with what is known of its states. State 0 is the start of the tree, and state `p + 1` is
//! behind its place `p`; the places are the tree's tests of a code, numbered from 0 on from left to right.

ghost use Rattle.std.specs.Prelude.{◌≡◌, ◌≤◌, ◌<◌, ◌∷◌, ◌++◌, ℕ, suc, List, length, map, IfErr, IfOk, OnOk, Some, slice_get, slice_index_or};
ghost use Rattle.rl_ranges.specs.Codes.{has};
ghost use Rattle.rl_syntax.specs.Tree.{sets_in};
ghost use Rattle.rl_syntax.specs.declared.limits.TheConstants.{MOST_NODES};
ghost use Rattle.rl_marks.specs.Marked.{marked_of, plain};
ghost use Rattle.rl_marks.specs.MarkItems.{places};
ghost use Rattle.rl_marks.specs.internal.Threads.{items_at};
ghost use Rattle.rl_spans.specs.declared.items.ListError.TheVariants as error;
ghost use Rattle.rl_spans.specs.Limits.{IsShort};
ghost use Rattle.rl_spans.specs.internal.Sides.{HasItems, HasTests, IsSide};

use crate::items::{ListError, after_of, first_of, places_of};
use rl_lists::{Items, OutOfMemory};
use rl_marks::threads::MarkItem;
use rl_marks::{MarkTree, MatchEnding};
use std::alloc::Global;

/// One side of a comparison: a tree, where its matches may end, and what is known of its states.
#[derive(Drop)]
pub(crate) struct Side {
    /// The tree.
    pub tree: MarkTree,
    /// Where a match may end.
    pub ending: MatchEnding,
    /// The items of each state, in the order of the states: what is tried next from there.
    pub rows: Items<Items<MarkItem>>,
    /// For each code of a list, and each place of the tree, whether the test of the place takes the code.
    pub tests: Items<Items<bool>>,
}

/// Returns the items of each state of a tree: on entering it, and behind each of its places.
fn rows_of(alloc: Global, tree: &MarkTree) -> Result<Items<Items<MarkItem>>, ListError>
    requires { places (marked_of tree.now) ≤ MOST_NODES }
    ensures items { IfOk result (HasItems (marked_of tree.now)) }
    ensures long { IfErr result (λ e. e ≡ error.TooLong → ¬ IsShort (marked_of tree.now) 0) }
{
    let mut rows = Items::new(alloc);
    let begin = first_of(alloc, tree, 0)?;
    rows.push(begin)?;
    let count = places_of(tree);
    for place in 0..count {
        let items = after_of(alloc, tree, 0, place)?;
        rows.push(items)?;
    }
    Ok(rows)
}

/// Appends to `tests`, for each place of a tree from left to right, whether its test takes the code.
fn add_tests(tree: &MarkTree, code: u32, tests: &mut Items<bool>) -> Result<(), OutOfMemory>
    ensures { OnOk result (tests.new ≡ tests.old ++ map (λ set. set code) (sets_in (plain (marked_of tree.now)))) }
{
    match tree {
        MarkTree::Empty | MarkTree::Guard(_) => Ok(()),
        MarkTree::One(set) => tests.push(set.contains(code)),
        MarkTree::Both(first, second)
        | MarkTree::Either(first, second)
        | MarkTree::Further(first, second) => {
            add_tests(first, code, tests)?;
            add_tests(second, code, tests)
        }
        MarkTree::Many(body, _) | MarkTree::Mark(_, body) => add_tests(body, code, tests),
    }
}

/// Returns for each place of a tree, from left to right, whether its test takes the code.
pub(crate) fn tests_of(
    alloc: Global,
    tree: &MarkTree,
    code: u32,
) -> Result<Items<bool>, OutOfMemory>
    ensures { IfOk result (λ l. l ≡ map (λ set. set code) (sets_in (plain (marked_of tree.now)))) }
{
    let mut tests = Items::new(alloc);
    add_tests(tree, code, &mut tests)?;
    Ok(tests)
}

/// Returns for each code of a list, and each place of a tree, whether the test of the place takes the code.
fn tests_of_all(
    alloc: Global,
    tree: &MarkTree,
    codes: &[u32],
) -> Result<Items<Items<bool>>, OutOfMemory>
    ensures { IfOk result (HasTests (marked_of tree.now) codes.now) }
{
    let mut list = Items::new(alloc);
    for code in codes {
        let tests = tests_of(alloc, tree, *code)?;
        list.push(tests)?;
    }
    Ok(list)
}

impl Side {
    /// Returns the side of a tree, with the tests of the codes of a list.
    ///
    /// # Errors
    /// [`ListError::TooLong`] only if too many items are tried on entering the tree or behind one of its places,
    /// [`ListError::OutOfMemory`] if there was no memory.
    pub(crate) fn new(
        alloc: Global,
        tree: MarkTree,
        ending: MatchEnding,
        codes: &[u32],
    ) -> Result<Side, ListError>
        requires { places (marked_of tree) ≤ MOST_NODES }
        ensures side { IfOk result (IsSide codes.now) }
        ensures tree { IfOk result (λ side. side.tree ≡ tree) }
        ensures ending { IfOk result (λ side. side.ending ≡ ending) }
        ensures long { IfErr result (λ e. e ≡ error.TooLong → ¬ IsShort (marked_of tree) 0) }
    {
        let rows = rows_of(alloc, &tree)?;
        let tests = tests_of_all(alloc, &tree, codes)?;
        Ok(Side {
            tree,
            ending,
            rows,
            tests,
        })
    }
}
