//! Told items of a tree. A told item is what a matcher tries at a point of a tree, with the decisions on the way to it.

ghost use Rattle.std.specs.Prelude.{◌≡◌, ◌≤◌, ◌+◌, ◌∷◌, ◌++◌, [], suc, None, IfOk, OnOk};
ghost use Rattle.rl_syntax.specs.Tree.{tree_of, places, size};
ghost use Rattle.rl_syntax.specs.declared.limits.TheConstants.{MOST_NODES};
ghost use Rattle.rl_ways.specs.Told.{led, all_led, decided, replaced, told_first, told_after};
ghost use Rattle.rl_ways.specs.Ways.{told_at};

use crate::item::{Decision, ToldItem};
use rl_lists::{Items, OutOfMemory};
use rl_syntax::{Guard, MOST_NODES, Re};
use std::alloc::Global;

/// Returns the number of places of a tree.
pub fn places_of(tree: &Re) -> u32
    requires { places (tree_of tree.now) ≤ MOST_NODES }
    ensures { result ≡ places (tree_of tree.now) }
{
    match tree {
        Re::Empty | Re::Guard(_) => 0,
        Re::One(_) => 1,
        Re::Both(first, second) | Re::Either(first, second) => {
            places_of(first) + places_of(second)
        }
        Re::Many(body, _) => places_of(body),
    }
}

/// Returns the number of nodes of a tree.
pub fn size_of(tree: &Re) -> u32
    requires { size (tree_of tree.now) ≤ MOST_NODES }
    ensures { result ≡ size (tree_of tree.now) }
{
    match tree {
        Re::Empty | Re::Guard(_) | Re::One(_) => 1,
        Re::Both(first, second) | Re::Either(first, second) => size_of(first) + size_of(second) + 1,
        Re::Many(body, _) => size_of(body) + 1,
    }
}

/// Returns the decisions of the first list and then those of the second.
fn decisions_of_both(
    alloc: Global,
    decisions: &[Decision],
    others: &[Decision],
) -> Result<Items<Decision>, OutOfMemory>
    ensures { IfOk result (λ l. l ≡ decisions.now ++ others.now) }
{
    let mut list = Items::from_slice(alloc, decisions)?;
    for decision in others {
        list.push(*decision)?;
    }
    Ok(list)
}

/// Appends copies of guards.
fn add_guards(list: &mut Items<Guard>, guards: &[Guard]) -> Result<(), OutOfMemory>
    ensures { OnOk result (list.new ≡ list.old ++ guards.now) }
{
    for guard in guards {
        let copy = guard.copy()?;
        list.push(copy)?;
    }
    Ok(())
}

/// Returns the guards of the first list and then those of the second.
fn guards_of_both(
    alloc: Global,
    guards: &[Guard],
    others: &[Guard],
) -> Result<Items<Guard>, OutOfMemory>
    ensures { IfOk result (λ l. l ≡ guards.now ++ others.now) }
{
    let room = Vec::with_capacity(alloc, guards.len() + others.len())?;
    let mut list = Items::from_vec(room);
    add_guards(&mut list, guards)?;
    add_guards(&mut list, others)?;
    Ok(list)
}

/// Returns the told item with decisions and guards in front of its own.
pub(crate) fn led_by(
    alloc: Global,
    decisions: &[Decision],
    guards: &[Guard],
    item: &ToldItem,
) -> Result<ToldItem, OutOfMemory>
    ensures { IfOk result (λ m. m ≡ led decisions.now guards.now item.now) }
{
    let decisions = decisions_of_both(alloc, decisions, item.decisions.as_slice())?;
    let guards = guards_of_both(alloc, guards, item.guards.as_slice())?;
    Ok(ToldItem {
        decisions,
        guards,
        place: item.place,
    })
}

/// Appends told items, each with decisions and guards in front of its own.
fn add_led(
    alloc: Global,
    list: &mut Items<ToldItem>,
    decisions: &[Decision],
    guards: &[Guard],
    items: &[ToldItem],
) -> Result<(), OutOfMemory>
    ensures { OnOk result (list.new ≡ list.old ++ all_led decisions.now guards.now items.now) }
{
    for item in items {
        let whole = led_by(alloc, decisions, guards, item)?;
        list.push(whole)?;
    }
    Ok(())
}

/// Appends told items, each after one more decision.
fn add_decided(
    alloc: Global,
    list: &mut Items<ToldItem>,
    decision: Decision,
    items: &[ToldItem],
) -> Result<(), OutOfMemory>
    ensures { OnOk result (list.new ≡ list.old ++ decided decision items.now) }
{
    add_led(alloc, list, &[decision], &[], items)
}

/// Returns the told items with each end replaced by `others`, which get its decisions and guards in front of their own.
fn replaced_by(
    alloc: Global,
    items: &[ToldItem],
    others: &[ToldItem],
) -> Result<Items<ToldItem>, OutOfMemory>
    ensures { IfOk result (λ l. l ≡ replaced items.now others.now) }
{
    let mut list = Items::new(alloc);
    for item in items {
        match item.place {
            Some(_) => {
                let own = led_by(alloc, &[], &[], item)?;
                list.push(own)?;
            }
            None => {
                add_led(
                    alloc,
                    &mut list,
                    item.decisions.as_slice(),
                    item.guards.as_slice(),
                    others,
                )?;
            }
        }
    }
    Ok(list)
}

/// Returns the list of one told item.
fn single(alloc: Global, item: ToldItem) -> Result<Items<ToldItem>, OutOfMemory>
    ensures { IfOk result (λ l. l ≡ item ∷ []) }
{
    let mut list = Items::new(alloc);
    list.push(item)?;
    Ok(list)
}

/// Returns the list of one told item without decisions and guards.
fn plain(alloc: Global, place: Option<u32>) -> Result<Items<ToldItem>, OutOfMemory>
    ensures { IfOk result (λ l. l ≡ record { decisions = []; guards = []; place = place } ∷ []) }
{
    single(
        alloc,
        ToldItem {
            decisions: Items::new(alloc),
            guards: Items::new(alloc),
            place,
        },
    )
}

/// Returns the list of one told item: the end after a guard.
fn end_behind(alloc: Global, guard: &Guard) -> Result<Items<ToldItem>, OutOfMemory>
    ensures { IfOk result (λ l. l ≡ record { decisions = []; guards = guard.now ∷ []; place = None } ∷ []) }
{
    let mut guards = Items::new(alloc);
    let copy = guard.copy()?;
    guards.push(copy)?;
    single(
        alloc,
        ToldItem {
            decisions: Items::new(alloc),
            guards,
            place: None,
        },
    )
}

/// Returns the told item of the end after a decision.
fn end_after(alloc: Global, decision: Decision) -> Result<ToldItem, OutOfMemory>
    ensures { IfOk result (λ m. m ≡ record { decisions = decision ∷ []; guards = []; place = None }) }
{
    let decisions = Items::from_slice(alloc, &[decision])?;
    Ok(ToldItem {
        decisions,
        guards: Items::new(alloc),
        place: None,
    })
}

/// Returns the told items of entering a tree whose first place has the number `base` and which has the number `number` itself.
///
/// # Errors
/// [`OutOfMemory`] if there is not enough memory for them.
pub fn first_of(
    alloc: Global,
    tree: &Re,
    base: u32,
    number: u32,
) -> Result<Items<ToldItem>, OutOfMemory>
    requires few { base + places (tree_of tree.now) ≤ MOST_NODES }
    requires small { number + size (tree_of tree.now) ≤ MOST_NODES }
    ensures { IfOk result (λ l. l ≡ told_first (tree_of tree.now) base number) }
{
    match tree {
        Re::Empty => plain(alloc, None),
        Re::One(_) => plain(alloc, Some(base)),
        Re::Guard(guard) => end_behind(alloc, guard),
        Re::Both(first, second) => {
            let items = first_of(alloc, first, base, number + 1)?;
            let others = first_of(
                alloc,
                second,
                base + places_of(first),
                number + 1 + size_of(first),
            )?;
            replaced_by(alloc, items.as_slice(), others.as_slice())
        }
        Re::Either(first, second) => {
            let items = first_of(alloc, first, base, number + 1)?;
            let others = first_of(
                alloc,
                second,
                base + places_of(first),
                number + 1 + size_of(first),
            )?;
            let mut list = Items::new(alloc);
            add_decided(alloc, &mut list, Decision::Left(number), items.as_slice())?;
            add_decided(alloc, &mut list, Decision::Right(number), others.as_slice())?;
            Ok(list)
        }
        Re::Many(body, greedy) => {
            let items = first_of(alloc, body, base, number + 1)?;
            let end = end_after(alloc, Decision::Stop(number))?;
            let mut list = Items::new(alloc);
            if *greedy {
                add_decided(alloc, &mut list, Decision::Round(number), items.as_slice())?;
                list.push(end)?;
            } else {
                list.push(end)?;
                add_decided(alloc, &mut list, Decision::Round(number), items.as_slice())?;
            }
            Ok(list)
        }
    }
}

/// Returns the told items after the place with the number `place`, in a tree whose first place has the number `base` and which
/// has the number `number` itself.
///
/// # Errors
/// [`OutOfMemory`] if there is not enough memory for them.
pub fn after_of(
    alloc: Global,
    tree: &Re,
    base: u32,
    number: u32,
    place: u32,
) -> Result<Items<ToldItem>, OutOfMemory>
    requires few { base + places (tree_of tree.now) ≤ MOST_NODES }
    requires small { number + size (tree_of tree.now) ≤ MOST_NODES }
    ensures { IfOk result (λ l. l ≡ told_after (tree_of tree.now) base number place) }
{
    match tree {
        Re::Empty | Re::Guard(_) => Ok(Items::new(alloc)),
        Re::One(_) => plain(alloc, None),
        Re::Both(first, second) => {
            let middle = base + places_of(first);
            let next = number + 1 + size_of(first);
            if place < middle {
                let items = after_of(alloc, first, base, number + 1, place)?;
                let others = first_of(alloc, second, middle, next)?;
                replaced_by(alloc, items.as_slice(), others.as_slice())
            } else {
                after_of(alloc, second, middle, next, place)
            }
        }
        Re::Either(first, second) => {
            let middle = base + places_of(first);
            let next = number + 1 + size_of(first);
            if place < middle {
                after_of(alloc, first, base, number + 1, place)
            } else {
                after_of(alloc, second, middle, next, place)
            }
        }
        Re::Many(body, _) => {
            let items = after_of(alloc, body, base, number + 1, place)?;
            let others = first_of(alloc, tree, base, number)?;
            replaced_by(alloc, items.as_slice(), others.as_slice())
        }
    }
}

/// Returns the told items of entering a tree, or after one of its places.
///
/// # Errors
/// [`OutOfMemory`] if there is not enough memory for them.
pub fn told_items(
    alloc: Global,
    tree: &Re,
    place: Option<u32>,
) -> Result<Items<ToldItem>, OutOfMemory>
    requires few { places (tree_of tree.now) ≤ MOST_NODES }
    requires small { size (tree_of tree.now) ≤ MOST_NODES }
    ensures { IfOk result (λ l. l ≡ told_at (tree_of tree.now) place) }
{
    match place {
        None => first_of(alloc, tree, 0, 0),
        Some(place) => after_of(alloc, tree, 0, 0, place),
    }
}
