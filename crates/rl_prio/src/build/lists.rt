//! The item lists of a tree.

ghost use Rattle.std.specs.Prelude.{◌≡◌, ℕ, ◌<◌, ◌≤◌, ◌+◌, ◌++◌, ◌⊎◌, ◌∷◌, [], List, length, IfOk, IfErr, OnOk};
ghost use Rattle.rl_ranges.specs.declared.letters.TheConstants.{MOST_LETTERS};
ghost use Rattle.rl_syntax.specs.Tree.{tree_of};
ghost use Rattle.rl_syntax.specs.Run.{one_more};
ghost use Rattle.rl_syntax.specs.declared.limits.TheConstants.{MOST_MOVES};
ghost use Rattle.rl_prio.specs.internal.GuardSets.{no_guards};
ghost use Rattle.rl_prio.specs.internal.Attempts.{ends_replaced, width_of, AreReplaced, AreEntered, AreShort, IsTooWide};

use crate::build::attempts::{
    Attempt, AttemptList, ListError, put_behind, replace_ends, single, with_ends_replaced,
};
use crate::build::guards::Guards;
use rl_ranges::Letters;
use rl_syntax::Re;
use std::alloc::Global;

/// Returns the list of entering a tree that is a single set, and adds the list of its place to `lists`.
///
/// # Errors
/// [`ListError::OutOfMemory`] if there is not enough memory for them.
fn enter_place(alloc: Global, lists: &mut Vec<AttemptList>) -> Result<AttemptList, ListError>
    ensures list { IfOk result (λ l. l ≡ Attempt.Test no_guards (length lists.old.items) ∷ []) }
    ensures lists { OnOk result
        (lists.new.items ≡ lists.old.items ++ (Attempt.End no_guards ∷ []) ∷ []) }
    ensures memory { IfErr result (λ e. e ≡ ListError.OutOfMemory) }
{
    let place = lists.len();
    let end = single(alloc, Attempt::End(Guards::none()))?;
    lists.push(end)?;
    single(alloc, Attempt::Test(Guards::none(), place))
}

/// Appends the attempts of the second alternative to the attempts of the first one.
///
/// # Errors
/// [`ListError::TooLong`] if there would be more than [`MOST_MOVES`] attempts; [`ListError::OutOfMemory`] if there is not
/// enough memory for them.
fn alternatives(list: AttemptList, others: &[Attempt]) -> Result<AttemptList, ListError>
    ensures ok { IfOk result (λ l. l ≡ list ++ others.now) }
    ensures short { IfOk result (λ l. length list ≤ MOST_MOVES → length l ≤ MOST_MOVES) }
    ensures moves { IfErr result (λ e. e ≡ ListError.TooLong
        → MOST_MOVES < length (list ++ others.now)) }
{
    let mut all = list;
    put_behind(&mut all, Guards::none(), others)?;
    Ok(all)
}

/// Adds an end to the attempts: after the last one if `greedy` is true, and before the first one otherwise.
///
/// # Errors
/// [`ListError::TooLong`] if there would be more than [`MOST_MOVES`] attempts; [`ListError::OutOfMemory`] if there is not
/// enough memory for them.
fn with_one_more(alloc: Global, list: AttemptList, greedy: bool) -> Result<AttemptList, ListError>
    ensures ok { IfOk result (λ l. l ≡ one_more greedy (Attempt.End no_guards) list) }
    ensures short { IfOk result (λ l. length list ≤ MOST_MOVES → length l ≤ MOST_MOVES) }
    ensures moves { IfErr result (λ e. e ≡ ListError.TooLong
        → MOST_MOVES < length (one_more greedy (Attempt.End no_guards) list)) }
{
    let end = single(alloc, Attempt::End(Guards::none()))?;
    if greedy {
        alternatives(list, end.as_slice())
    } else {
        alternatives(end, list.as_slice())
    }
}

/// Returns the attempts of entering a tree that is followed by another tree. `list` has the attempts of entering the first
/// tree, and `further` has the attempts of entering the second one. The lists from `from` up to `to` belong to the places of
/// the first tree. Each end, in `list` and in these lists, is replaced by the attempts of entering the second tree.
///
/// # Errors
/// [`ListError::TooLong`] only if a list would have more than [`MOST_MOVES`] attempts; [`ListError::OutOfMemory`] if there is
/// not enough memory for them.
fn in_turn(
    alloc: Global,
    lists: &mut Vec<AttemptList>,
    from: usize,
    to: usize,
    list: &[Attempt],
    further: &[Attempt],
) -> Result<AttemptList, ListError>
    requires in_order { from ≤ to }
    requires in_lists { to ≤ length lists.old.items }
    ensures list { IfOk result (λ l. l ≡ ends_replaced list.now further.now) }
    ensures list_short { IfOk result (λ l. length l ≤ MOST_MOVES) }
    ensures lists { OnOk result (AreReplaced further.now from to lists.old.items lists.new.items) }
    ensures lists_short { OnOk result (AreShort from to lists.new.items) }
    ensures moves { IfErr result (λ e. e ≡ ListError.TooLong
        → IsTooWide list.now further.now from to lists.old.items) }
{
    replace_ends(alloc, lists, from, to, further)?;
    with_ends_replaced(alloc, list, further)
}

/// Returns the attempts of entering a repeated tree, given those of entering its body. Replaces each end in the lists from
/// `from` on, which belong to the places of the body, by them.
///
/// # Errors
/// [`ListError::TooLong`] only if a list would have more than [`MOST_MOVES`] attempts; [`ListError::OutOfMemory`] if there is
/// not enough memory for them.
fn repeated(
    alloc: Global,
    lists: &mut Vec<AttemptList>,
    from: usize,
    list: AttemptList,
    greedy: bool,
) -> Result<AttemptList, ListError>
    requires in_lists { from ≤ length lists.old.items }
    requires short { length list ≤ MOST_MOVES }
    ensures list { IfOk result (λ l. l ≡ one_more greedy (Attempt.End no_guards) list) }
    ensures list_short { IfOk result (λ l. length l ≤ MOST_MOVES) }
    ensures lists { OnOk result (AreReplaced (one_more greedy (Attempt.End no_guards) list)
        from (length lists.old.items) lists.old.items lists.new.items) }
    ensures lists_short { OnOk result (AreShort from (length lists.old.items) lists.new.items) }
    ensures moves { IfErr result (λ e. e ≡ ListError.TooLong
        → (MOST_MOVES < length (one_more greedy (Attempt.End no_guards) list))
        ⊎ IsTooWide [] (one_more greedy (Attempt.End no_guards) list) from (length lists.old.items) lists.old.items) }
{
    let all = with_one_more(alloc, list, greedy)?;
    let to = lists.len();
    replace_ends(alloc, lists, from, to, all.as_slice())?;
    Ok(all)
}

/// Adds the list of each place of the tree, and returns the list of entering the tree. `kinds` are the kinds of the whole tree,
/// of which there must be at most [`MOST_LETTERS`](rl_ranges::MOST_LETTERS).
///
/// # Errors
/// [`ListError::TooLong`] if a list would have more than [`MOST_MOVES`] attempts; [`ListError::OutOfMemory`] if there is not
/// enough memory for them.
pub(crate) fn enter(
    alloc: Global,
    tree: &Re,
    kinds: &Letters,
    lists: &mut Vec<AttemptList>,
) -> Result<AttemptList, ListError>
    requires { length kinds.now.samples ≤ MOST_LETTERS }
    ensures ok { IfOk result (λ l. AreEntered kinds.now (tree_of tree.now) lists.old.items lists.new.items l) }
    ensures moves { IfErr result (λ e. e ≡ ListError.TooLong
        → MOST_MOVES < width_of (tree_of tree.now) (length lists.old.items)) }
{
    match tree {
        Re::Empty => single(alloc, Attempt::End(Guards::none())),
        Re::One(_) => enter_place(alloc, lists),
        Re::Guard(guard) => single(alloc, Attempt::End(Guards::only(guard, kinds))),
        Re::Both(first, second) => {
            let from = lists.len();
            let list = enter(alloc, first, kinds, lists)?;
            let to = lists.len();
            let further = enter(alloc, second, kinds, lists)?;
            in_turn(alloc, lists, from, to, list.as_slice(), further.as_slice())
        }
        Re::Either(first, second) => {
            let list = enter(alloc, first, kinds, lists)?;
            let others = enter(alloc, second, kinds, lists)?;
            alternatives(list, others.as_slice())
        }
        Re::Many(body, greedy) => {
            let from = lists.len();
            let list = enter(alloc, body, kinds, lists)?;
            repeated(alloc, lists, from, list, *greedy)
        }
    }
}
