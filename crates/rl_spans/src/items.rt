//! The items of trees with groups: what a backtracking matcher tries next from a point of a tree, in order. An item is the
//! test of a place or an end of the tree, behind acts: guards to be tested, and groups to be opened and closed. The places of
//! a tree are its tests of a code, numbered from left to right.

ghost use Rattle.std.specs.Prelude.{◌≡◌, ◌≤◌, ◌<◌, ◌+◌, ◌∷◌, ◌++◌, [], ℕ, suc, length, IfOk, IfErr, OnOk, slice_index_or};
ghost use Rattle.rl_syntax.specs.Run.{one_more};
ghost use Rattle.rl_syntax.specs.declared.limits.TheConstants.{MOST_MOVES, MOST_NODES};
ghost use Rattle.rl_spans.specs.declared.items.ListError.TheVariants as error;
ghost use Rattle.rl_spans.specs.Limits.{IsShort, IsShortBehind};
ghost use Rattle.rl_marks.specs.Marked.{marked_of};
ghost use Rattle.rl_marks.specs.MarkItems.{prefixed, all_prefixed, replaced, places, first, after};
ghost use Rattle.rl_marks.specs.internal.Threads.{items_at};

use rl_lists::{Items, OutOfMemory};
use rl_marks::MarkTree;
use rl_marks::threads::{Act, MarkItem};
use rl_syntax::{MOST_MOVES, MOST_NODES};
use std::alloc::Global;

/// Why there is no list of items.
#[derive(Clone, Copy)]
pub(crate) enum ListError {
    /// The list would have more than [`MOST_MOVES`] items.
    TooLong,
    /// Out of memory.
    OutOfMemory,
}

impl From<OutOfMemory> for ListError {
    ghost use Rattle.std.specs.Prelude.{◌≡◌};
    ghost use Rattle.rl_spans.specs.declared.items.ListError.TheVariants as error;

    ghost from_gives = { λ _ e. e ≡ error.OutOfMemory };

    fn from(_: OutOfMemory) -> Self {
        ListError::OutOfMemory
    }
}

/// Returns the number of places of a tree.
pub(crate) fn places_of(tree: &MarkTree) -> u32
    requires { places (marked_of tree.now) ≤ MOST_NODES }
    ensures { result ≡ places (marked_of tree.now) }
{
    match tree {
        MarkTree::Empty | MarkTree::Guard(_) => 0,
        MarkTree::One(_) => 1,
        MarkTree::Both(first, second)
        | MarkTree::Either(first, second)
        | MarkTree::Further(first, second) => places_of(first) + places_of(second),
        MarkTree::Many(body, _) | MarkTree::Mark(_, body) => places_of(body),
    }
}

/// Appends copies of acts.
fn add_acts(list: &mut Items<Act>, acts: &[Act]) -> Result<(), OutOfMemory>
    ensures { OnOk result (list.new ≡ list.old ++ acts.now) }
{
    for act in acts {
        let copy = act.copy()?;
        list.push(copy)?;
    }
    Ok(())
}

/// Returns the acts of the first list and then those of the second.
fn acts_of_both(alloc: Global, acts: &[Act], others: &[Act]) -> Result<Items<Act>, OutOfMemory>
    ensures { IfOk result (λ l. l ≡ acts.now ++ others.now) }
{
    let room = Vec::with_capacity(alloc, acts.len() + others.len())?;
    let mut list = Items::from_vec(room);
    add_acts(&mut list, acts)?;
    add_acts(&mut list, others)?;
    Ok(list)
}

/// Returns the item with more acts in front of its own.
fn prefixed_by(alloc: Global, acts: &[Act], item: &MarkItem) -> Result<MarkItem, OutOfMemory>
    ensures { IfOk result (λ m. m ≡ prefixed acts.now item.now) }
{
    match item {
        MarkItem::Test(own, place) => {
            let all = acts_of_both(alloc, acts, own.as_slice())?;
            Ok(MarkItem::Test(all, *place))
        }
        MarkItem::Pass(own) => {
            let all = acts_of_both(alloc, acts, own.as_slice())?;
            Ok(MarkItem::Pass(all))
        }
    }
}

/// Appends an item, if the list has room for it.
///
/// # Errors
/// [`ListError::TooLong`] if the list has [`MOST_MOVES`] items.
fn put(list: &mut Items<MarkItem>, item: MarkItem) -> Result<(), ListError>
    ensures put { OnOk result (list.new ≡ list.old ++ item ∷ []) }
    ensures long { IfErr result (λ e. e ≡ error.TooLong → MOST_MOVES ≤ length list.old) }
{
    if list.len() >= MOST_MOVES {
        return Err(ListError::TooLong);
    }
    list.push(item)?;
    Ok(())
}

/// Appends items, each with more acts in front of its own.
///
/// # Errors
/// [`ListError::TooLong`] if the list would have more than [`MOST_MOVES`] items, [`ListError::OutOfMemory`] if there was no
/// memory.
fn add_prefixed(
    alloc: Global,
    list: &mut Items<MarkItem>,
    acts: &[Act],
    items: &[MarkItem],
) -> Result<(), ListError>
    ensures put { OnOk result (list.new ≡ list.old ++ all_prefixed acts.now items.now) }
    ensures long { IfErr result (λ e. e ≡ error.TooLong → MOST_MOVES < length list.old + length items.now) }
{
    for item in items {
        let whole = prefixed_by(alloc, acts, item)?;
        put(list, whole)?;
    }
    Ok(())
}

/// Returns the items with each end replaced by all of `others`, which get the acts of the end in front of their own.
///
/// # Errors
/// [`ListError::TooLong`] if the list would have more than [`MOST_MOVES`] items, [`ListError::OutOfMemory`] if there was no
/// memory.
fn replaced_by(
    alloc: Global,
    items: &[MarkItem],
    others: &[MarkItem],
) -> Result<Items<MarkItem>, ListError>
    ensures replaced { IfOk result (λ l. l ≡ replaced items.now others.now) }
    ensures long { IfErr result (λ e. e ≡ error.TooLong → MOST_MOVES < length (replaced items.now others.now)) }
{
    let mut list = Items::new(alloc);
    for item in items {
        match item {
            MarkItem::Test(acts, place) => {
                let own = acts_of_both(alloc, acts.as_slice(), &[])?;
                put(&mut list, MarkItem::Test(own, *place))?;
            }
            MarkItem::Pass(acts) => add_prefixed(alloc, &mut list, acts.as_slice(), others)?,
        }
    }
    Ok(list)
}

/// Returns the list of one item.
fn single(alloc: Global, item: MarkItem) -> Result<Items<MarkItem>, OutOfMemory>
    ensures { IfOk result (λ l. l ≡ item ∷ []) }
{
    let mut list = Items::new(alloc);
    list.push(item)?;
    Ok(list)
}

/// Returns the list of one item: the end behind one act.
fn end_behind(alloc: Global, act: Act) -> Result<Items<MarkItem>, OutOfMemory>
    ensures { IfOk result (λ l. l ≡ MarkItem.Pass (act ∷ []) ∷ []) }
{
    let mut acts = Items::new(alloc);
    acts.push(act)?;
    single(alloc, MarkItem::Pass(acts))
}

/// Appends copies of items. The errors are those of [`add_prefixed`].
fn add_items(alloc: Global, list: &mut Items<MarkItem>, items: &[MarkItem]) -> Result<(), ListError>
    ensures added { OnOk result (list.new ≡ list.old ++ items.now) }
    ensures long { IfErr result (λ e. e ≡ error.TooLong → MOST_MOVES < length list.old + length items.now) }
{
    add_prefixed(alloc, list, &[], items)
}

/// Returns the items of the first list and then those of the second. The errors are those of [`add_prefixed`].
fn items_of_both(
    alloc: Global,
    items: &[MarkItem],
    others: &[MarkItem],
) -> Result<Items<MarkItem>, ListError>
    ensures both { IfOk result (λ l. l ≡ items.now ++ others.now) }
    ensures long { IfErr result (λ e. e ≡ error.TooLong → MOST_MOVES < length items.now + length others.now) }
{
    let mut list = Items::new(alloc);
    add_items(alloc, &mut list, items)?;
    add_items(alloc, &mut list, others)?;
    Ok(list)
}

/// Returns the items on entering a tree whose first place has the number `base`.
///
/// # Errors
/// [`ListError::TooLong`] only if there are more than [`MOST_MOVES`] items on entering the tree or behind one of its places,
/// [`ListError::OutOfMemory`] if there was no memory.
pub(crate) fn first_of(
    alloc: Global,
    tree: &MarkTree,
    base: u32,
) -> Result<Items<MarkItem>, ListError>
    requires { base + places (marked_of tree.now) ≤ MOST_NODES }
    ensures first { IfOk result (λ l. l ≡ first (marked_of tree.now) base) }
    ensures long { IfErr result (λ e. e ≡ error.TooLong → ¬ IsShort (marked_of tree.now) base) }
{
    match tree {
        MarkTree::Empty => {
            let end = single(alloc, MarkItem::Pass(Items::new(alloc)))?;
            Ok(end)
        }
        MarkTree::One(_) => {
            let test = single(alloc, MarkItem::Test(Items::new(alloc), base))?;
            Ok(test)
        }
        MarkTree::Guard(guard) => {
            let end = end_behind(alloc, Act::Check(guard.copy()?))?;
            Ok(end)
        }
        MarkTree::Both(head, tail) => {
            let items = first_of(alloc, head, base)?;
            let others = first_of(alloc, tail, base + places_of(head))?;
            replaced_by(alloc, items.as_slice(), others.as_slice())
        }
        MarkTree::Either(left, right) => {
            let items = first_of(alloc, left, base)?;
            let others = first_of(alloc, right, base + places_of(left))?;
            items_of_both(alloc, items.as_slice(), others.as_slice())
        }
        MarkTree::Many(body, greedy) => {
            let items = first_of(alloc, body, base)?;
            let end = single(alloc, MarkItem::Pass(Items::new(alloc)))?;
            if *greedy {
                items_of_both(alloc, items.as_slice(), end.as_slice())
            } else {
                items_of_both(alloc, end.as_slice(), items.as_slice())
            }
        }
        MarkTree::Further(head, _) => first_of(alloc, head, base),
        MarkTree::Mark(number, body) => {
            let items = first_of(alloc, body, base)?;
            let close = end_behind(alloc, Act::CloseGroup(*number))?;
            let closed = replaced_by(alloc, items.as_slice(), close.as_slice())?;
            let mut list = Items::new(alloc);
            add_prefixed(alloc, &mut list, &[Act::OpenGroup], closed.as_slice())?;
            Ok(list)
        }
    }
}

/// Returns the items behind the place with the number `place` of a tree whose first place has the number `base`: what is tried
/// once the test of that place has succeeded.
///
/// # Errors
/// [`ListError::TooLong`] only if there are more than [`MOST_MOVES`] items behind one of the places,
/// [`ListError::OutOfMemory`] if there was no memory.
pub(crate) fn after_of(
    alloc: Global,
    tree: &MarkTree,
    base: u32,
    place: u32,
) -> Result<Items<MarkItem>, ListError>
    requires { base + places (marked_of tree.now) ≤ MOST_NODES }
    ensures after { IfOk result (λ l. l ≡ after (marked_of tree.now) base place) }
    ensures long { IfErr result (λ e. e ≡ error.TooLong → base ≤ place → place < base + places (marked_of tree.now)
        → ¬ IsShortBehind (marked_of tree.now) base) }
{
    match tree {
        MarkTree::Empty | MarkTree::Guard(_) => Ok(Items::new(alloc)),
        MarkTree::One(_) => {
            let end = single(alloc, MarkItem::Pass(Items::new(alloc)))?;
            Ok(end)
        }
        MarkTree::Both(head, tail) | MarkTree::Further(head, tail) => {
            let middle = base + places_of(head);
            if place < middle {
                let items = after_of(alloc, head, base, place)?;
                let others = first_of(alloc, tail, middle)?;
                replaced_by(alloc, items.as_slice(), others.as_slice())
            } else {
                after_of(alloc, tail, middle, place)
            }
        }
        MarkTree::Either(left, right) => {
            let middle = base + places_of(left);
            if place < middle {
                after_of(alloc, left, base, place)
            } else {
                after_of(alloc, right, middle, place)
            }
        }
        MarkTree::Many(body, _) => {
            let items = after_of(alloc, body, base, place)?;
            let others = first_of(alloc, tree, base)?;
            replaced_by(alloc, items.as_slice(), others.as_slice())
        }
        MarkTree::Mark(number, body) => {
            let items = after_of(alloc, body, base, place)?;
            let close = end_behind(alloc, Act::CloseGroup(*number))?;
            replaced_by(alloc, items.as_slice(), close.as_slice())
        }
    }
}
