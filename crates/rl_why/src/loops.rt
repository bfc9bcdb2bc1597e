//! The loop that a way goes round.

ghost use Rattle.std.specs.Prelude.{◌≡◌, ◌≤◌, ◌+◌, None, IfOk};
ghost use Rattle.rl_syntax.specs.Tree.{tree_of, places, size};
ghost use Rattle.rl_syntax.specs.declared.limits.TheConstants.{MOST_NODES};
ghost use Rattle.rl_why.specs.Loops.{all_below, none_below, loop_over, taking, loop_of};

use crate::shown::{Sources, origin_of};
use rl_lists::{Items, OutOfMemory};
use rl_syntax::{MOST_NODES, Re};
use rl_ways::{Origin, ToldItem, places_of, size_of};
use std::alloc::Global;

/// Returns whether all places are below `middle`.
fn are_below(middle: u32, places: &[u32]) -> bool
    ensures { result ≡ all_below middle places.now }
{
    for place in places {
        if *place >= middle {
            return false;
        }
    }
    true
}

/// Returns whether no place is below `middle`.
fn are_behind(middle: u32, places: &[u32]) -> bool
    ensures { result ≡ none_below middle places.now }
{
    for place in places {
        if *place < middle {
            return false;
        }
    }
    true
}

/// Returns the number of the innermost loop whose body has the places in `all`, or `outer` if the tree has none. The first place of
/// the tree has the number `base`, and the tree itself, as a node, the number `number`.
fn innermost(tree: &Re, base: u32, number: u32, all: &[u32], outer: Option<u32>) -> Option<u32>
    requires few { base + places (tree_of tree.now) ≤ MOST_NODES }
    requires small { number + size (tree_of tree.now) ≤ MOST_NODES }
    ensures { result ≡ loop_over (tree_of tree.now) base number all.now outer }
{
    match tree {
        Re::Empty | Re::One(_) | Re::Guard(_) => outer,
        Re::Both(first, second) | Re::Either(first, second) => {
            let middle = base + places_of(first);
            let next = number + 1 + size_of(first);
            if are_below(middle, all) {
                innermost(first, base, number + 1, all, outer)
            } else if are_behind(middle, all) {
                innermost(second, middle, next, all, outer)
            } else {
                outer
            }
        }
        Re::Many(body, _) => innermost(body, base, number + 1, all, Some(number)),
    }
}

/// Returns the places of a way.
fn places_along(alloc: Global, way: &[ToldItem]) -> Result<Items<u32>, OutOfMemory>
    ensures { IfOk result (λ l. l ≡ taking way.now) }
{
    let mut places = Items::new(alloc);
    for item in way {
        if let Some(place) = item.place {
            places.push(place)?;
        }
    }
    Ok(places)
}

/// Returns the innermost loop whose body reads all characters of the way, or `None` if there is no such loop.
pub(crate) fn loop_along(
    alloc: Global,
    tree: &Re,
    nodes: &[Origin],
    way: &[ToldItem],
) -> Result<Option<Origin>, OutOfMemory>
    requires few { places (tree_of tree.now) ≤ MOST_NODES }
    requires small { size (tree_of tree.now) ≤ MOST_NODES }
    ensures { IfOk result (λ o. o ≡ loop_of (tree_of tree.now) nodes.now way.now) }
{
    let places = places_along(alloc, way)?;
    match innermost(tree, 0, 0, places.as_slice(), None) {
        Some(node) => Ok(Some(origin_of(nodes, node))),
        None => Ok(None),
    }
}
