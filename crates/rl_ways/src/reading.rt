//! Ways: how a text is read by a list of moves, told.

ghost use Rattle.std.specs.Prelude.{◌≡◌, ℕ, ◌<◌, ◌≤◌, ◌+◌, true, false, Some, length, slice_get, IfOk, IfSome, IfNone, IsTrue};
ghost use Rattle.rl_ranges.specs.Codes.{has};
ghost use Rattle.rl_syntax.specs.Guards.{is_word, is_in, is_line_feed, sees, holds};
ghost use Rattle.rl_syntax.specs.Tree.{tree_of, places, size};
ghost use Rattle.rl_syntax.specs.declared.limits.TheConstants.{MOST_NODES};
ghost use Rattle.rl_prio.specs.Items.{all_hold, set_of};
ghost use Rattle.rl_prio.specs.States.{state_count, accepting};
ghost use Rattle.rl_ways.specs.Ways.{decisions_of, open_ones, text_way, Leads, place_of_state};

use crate::item::ToldItem;
use crate::telling::{led_by, places_of, told_items};
use rl_lists::{Items, OutOfMemory};
use rl_ranges::{CodeSet, Named, Universe};
use rl_syntax::{Guard, MOST_NODES, Re};
use std::alloc::Global;

/// The word characters: all of them, and those of ASCII.
#[derive(Drop)]
struct Words {
    all: CodeSet,
    ascii: CodeSet,
}

/// Returns the word characters.
///
/// # Errors
/// [`OutOfMemory`] if there is not enough memory for them.
#[tactic(auto, unfolding(rl_syntax::specs::Guards::is_word))]
fn words_of(alloc: Global) -> Result<Words, OutOfMemory>
    ensures all { IfOk result (λ words. (c : ℕ) → has words.all c ≡ is_word false c) }
    ensures ascii { IfOk result (λ words. (c : ℕ) → has words.ascii c ≡ is_word true c) }
{
    let all = CodeSet::named(alloc, Named::Word, false, Universe::Str)?;
    let ascii = CodeSet::named(alloc, Named::Word, true, Universe::Str)?;
    Ok(Words { all, ascii })
}

/// Returns whether there is a code, and it is a word character, by ASCII if the flag is set.
#[tactic(auto, unfolding(rl_syntax::specs::Guards::is_in))]
fn is_word_code(words: &Words, ascii: bool, code: Option<u32>) -> bool
    requires all { (c : ℕ) → has words.now.all c ≡ is_word false c }
    requires ascii { (c : ℕ) → has words.now.ascii c ≡ is_word true c }
    ensures { result ≡ is_in (is_word ascii) code }
{
    match code {
        None => false,
        Some(code) => {
            if ascii {
                words.ascii.contains(code)
            } else {
                words.all.contains(code)
            }
        }
    }
}

/// Returns whether there is a code, and it is a line feed.
#[tactic(auto, unfolding(rl_syntax::specs::Guards::is_in))]
fn is_line_end(code: Option<u32>) -> bool
    ensures { result ≡ is_in is_line_feed code }
{
    match code {
        None => false,
        Some(code) => code == 10,
    }
}

/// Returns whether a lookaround of the set holds where it looks at this code, which may be missing.
#[tactic(auto, unfolding(rl_syntax::specs::Guards::is_in, rl_syntax::specs::Guards::sees))]
fn is_seen(set: &CodeSet, negated: bool, seen: Option<u32>) -> bool
    ensures { result ≡ sees negated (has set.now) seen }
{
    let held = match seen {
        None => false,
        Some(code) => set.contains(code),
    };
    if negated { !held } else { held }
}

/// Returns whether a guard holds between two codes, each of which may be missing.
#[tactic(auto, unfolding(rl_syntax::specs::Guards::holds))]
fn is_met(words: &Words, guard: &Guard, before: Option<u32>, next: Option<u32>) -> bool
    requires all { (c : ℕ) → has words.now.all c ≡ is_word false c }
    requires ascii { (c : ℕ) → has words.now.ascii c ≡ is_word true c }
    ensures { result ≡ holds guard.now before next }
{
    match guard {
        Guard::Start => before.is_none(),
        Guard::LineStart => before.is_none() || is_line_end(before),
        Guard::LineEnd => next.is_none() || is_line_end(next),
        Guard::TextEnd => next.is_none(),
        Guard::Word(ascii) => {
            let left = is_word_code(words, *ascii, before);
            let right = is_word_code(words, *ascii, next);
            left != right
        }
        Guard::NotWord(ascii) => {
            let left = is_word_code(words, *ascii, before);
            let right = is_word_code(words, *ascii, next);
            left == right
        }
        Guard::Look {
            behind,
            negated,
            set,
        } => {
            let seen = if *behind { before } else { next };
            is_seen(set, *negated, seen)
        }
    }
}

/// Returns whether all guards hold between two codes, each of which may be missing.
fn are_met(words: &Words, guards: &[Guard], before: Option<u32>, next: Option<u32>) -> bool
    requires all { (c : ℕ) → has words.now.all c ≡ is_word false c }
    requires ascii { (c : ℕ) → has words.now.ascii c ≡ is_word true c }
    ensures { result ≡ all_hold guards.now before next }
{
    for guard in guards {
        if !is_met(words, guard, before, next) {
            return false;
        }
    }
    true
}

/// Returns whether the set of the place with the number `place` takes the code, in a tree whose first place has the number
/// `base`.
fn takes(tree: &Re, base: u32, place: u32, code: u32) -> bool
    requires { base + places (tree_of tree.now) ≤ MOST_NODES }
    ensures { result ≡ set_of (tree_of tree.now) base place code }
{
    match tree {
        Re::Empty | Re::Guard(_) => false,
        Re::One(set) => set.contains(code),
        Re::Both(first, second) | Re::Either(first, second) => {
            let middle = base + places_of(first);
            if place < middle {
                takes(first, base, place, code)
            } else {
                takes(second, middle, place, code)
            }
        }
        Re::Many(body, _) => takes(body, base, place, code),
    }
}

/// Returns the place of a state of the automaton of a tree, which has `states` states, or `None` for the start. Each place has a
/// state for each kind of letters. For the last two states of the automaton, the answer means nothing.
pub fn place_of_state(tree: &Re, states: u32, state: u32) -> Option<u32>
    requires { places (tree_of tree.now) ≤ MOST_NODES }
    ensures { (n : ℕ) → states ≡ state_count (tree_of tree.now) n → state < accepting (tree_of tree.now) n
        → result ≡ place_of_state (tree_of tree.now) n state }
{
    let places = places_of(tree);
    if state == 0 || places == 0 {
        return None;
    }
    let kinds = states.saturating_sub(3) / places;
    if kinds == 0 {
        return None;
    }
    Some((state - 1) / kinds)
}

/// Returns the told item with the number `number`, from 0, among those whose guards hold, or `None` if there are no more.
fn open_at(
    alloc: Global,
    words: &Words,
    items: &[ToldItem],
    before: Option<u32>,
    next: Option<u32>,
    number: u32,
) -> Result<Option<ToldItem>, OutOfMemory>
    requires all { (c : ℕ) → has words.now.all c ≡ is_word false c }
    requires ascii { (c : ℕ) → has words.now.ascii c ≡ is_word true c }
    ensures { IfOk result (λ o. o ≡ slice_get (open_ones before next items.now) number) }
{
    let mut left = number;
    for item in items {
        if are_met(words, item.guards.as_slice(), before, next) {
            if left == 0 {
                let found = led_by(alloc, &[], &[], item)?;
                return Ok(Some(found));
            }
            left -= 1;
        }
    }
    Ok(None)
}

/// Returns the way of a list of move numbers along a text, from the start of the tree or after a place, with the code `before`
/// in front of the text: for each code the told item that takes it. It ends early if there is no move with the number, or one
/// that doesn't take the code.
///
/// # Errors
/// [`OutOfMemory`] if there is not enough memory for it.
pub fn way_of(
    alloc: Global,
    tree: &Re,
    place: Option<u32>,
    before: Option<u32>,
    text: &[u32],
    numbers: &[u32],
) -> Result<Items<ToldItem>, OutOfMemory>
    requires few { places (tree_of tree.now) ≤ MOST_NODES }
    requires small { size (tree_of tree.now) ≤ MOST_NODES }
    ensures { IfOk result (λ l. l ≡ text_way (tree_of tree.now) place before text.now numbers.now) }
{
    let words = words_of(alloc)?;
    let mut way = Items::new(alloc);
    let mut at = place;
    let mut last = before;
    for k in 0..text.len() {
        if k >= numbers.len() {
            return Ok(way);
        }
        let code = text[k];
        let items = told_items(alloc, tree, at)?;
        match open_at(
            alloc,
            &words,
            items.as_slice(),
            last,
            Some(code),
            numbers[k],
        )? {
            None => return Ok(way),
            Some(item) => match item.place {
                None => return Ok(way),
                Some(p) => {
                    if !takes(tree, 0, p, code) {
                        return Ok(way);
                    }
                    way.push(item)?;
                    at = Some(p);
                    last = Some(code);
                }
            },
        }
    }
    Ok(way)
}

/// The ways of two lists of moves along one text.
#[derive(Drop)]
pub struct TwoWays {
    /// The way of the first list.
    pub first: Items<ToldItem>,
    /// The way of the second list.
    pub second: Items<ToldItem>,
}

/// Returns the ways of two lists of move numbers along one text, as [`way_of`] returns them.
///
/// # Errors
/// [`OutOfMemory`] if there is not enough memory for them.
pub fn two_ways(
    alloc: Global,
    tree: &Re,
    place: Option<u32>,
    before: Option<u32>,
    text: &[u32],
    first: &[u32],
    second: &[u32],
) -> Result<TwoWays, OutOfMemory>
    requires few { places (tree_of tree.now) ≤ MOST_NODES }
    requires small { size (tree_of tree.now) ≤ MOST_NODES }
    ensures first { IfOk result (λ r. r.first ≡ text_way (tree_of tree.now) place before text.now first.now) }
    ensures second { IfOk result (λ r. r.second ≡ text_way (tree_of tree.now) place before text.now second.now) }
{
    let first = way_of(alloc, tree, place, before, text, first)?;
    let second = way_of(alloc, tree, place, before, text, second)?;
    Ok(TwoWays { first, second })
}

/// Returns whether the way, which begins at the place `from`, reads the whole text and ends at the place `to`.
fn leads(from: Option<u32>, to: Option<u32>, text: &[u32], way: &[ToldItem]) -> bool
    ensures yes { IsTrue result → Leads from to text.now way.now }
    ensures no { Leads from to text.now way.now → IsTrue result }
{
    let mut last = from;
    for item in way {
        last = item.place;
    }
    way.len() == text.len() && last == to
}

/// Returns the way of a list of move numbers along a text, as [`way_of`] returns it, if it reads the whole text and leads from
/// the place `from` to the place `to`. `None` is the start of the tree. Returns `None` if the way doesn't.
///
/// # Errors
/// [`OutOfMemory`] if there is not enough memory for it.
pub fn way_between(
    alloc: Global,
    tree: &Re,
    from: Option<u32>,
    to: Option<u32>,
    before: Option<u32>,
    text: &[u32],
    numbers: &[u32],
) -> Result<Option<Items<ToldItem>>, OutOfMemory>
    requires few { places (tree_of tree.now) ≤ MOST_NODES }
    requires small { size (tree_of tree.now) ≤ MOST_NODES }
    ensures way { IfOk result (λ o. IfSome o (λ l. l ≡ text_way (tree_of tree.now) from before text.now numbers.now)) }
    ensures leads { IfOk result (λ o. IfSome o (λ l. Leads from to text.now l)) }
    ensures none { IfOk result (λ o. IfNone o (Leads from to text.now (text_way (tree_of tree.now) from before text.now numbers.now) → ⊥)) }
{
    let way = way_of(alloc, tree, from, before, text, numbers)?;
    if leads(from, to, text, way.as_slice()) {
        Ok(Some(way))
    } else {
        Ok(None)
    }
}

/// Returns the two readings of a twin: the ways of two lists of move numbers along one text, each from a place back to itself.
/// `None` if one of them doesn't lead back, or hasn't one number for each code of the text.
///
/// # Errors
/// [`OutOfMemory`] if there is not enough memory for them.
pub fn twin_ways(
    alloc: Global,
    tree: &Re,
    place: Option<u32>,
    before: Option<u32>,
    text: &[u32],
    first: &[u32],
    second: &[u32],
) -> Result<Option<TwoWays>, OutOfMemory>
    requires few { places (tree_of tree.now) ≤ MOST_NODES }
    requires small { size (tree_of tree.now) ≤ MOST_NODES }
    ensures first { IfOk result (λ o. IfSome o (λ r. r.first ≡ text_way (tree_of tree.now) place before text.now first.now)) }
    ensures second { IfOk result (λ o. IfSome o (λ r. r.second ≡ text_way (tree_of tree.now) place before text.now second.now)) }
    ensures back { IfOk result (λ o. IfSome o (λ r. Leads place place text.now r.first × Leads place place text.now r.second)) }
    ensures none { IfOk result (λ o. IfNone o (length first.now ≡ length text.now → length second.now ≡ length text.now
        → Leads place place text.now (text_way (tree_of tree.now) place before text.now first.now)
        → Leads place place text.now (text_way (tree_of tree.now) place before text.now second.now) → ⊥)) }
    ensures apart { IfOk result (λ o. IfSome o (λ r. (first.now ≡ second.now → ⊥) → decisions_of r.first ≡ decisions_of r.second → ⊥)) }
{
    if first.len() != text.len() || second.len() != text.len() {
        return Ok(None);
    }
    let ways = two_ways(alloc, tree, place, before, text, first, second)?;
    if leads(place, place, text, ways.first.as_slice())
        && leads(place, place, text, ways.second.as_slice())
    {
        Ok(Some(ways))
    } else {
        Ok(None)
    }
}

/// The three ways of a split: how one text is read in a loop, in a later loop, and on the way from the first to the second.
#[derive(Drop)]
pub struct SplitWays {
    /// The way from the first place back to itself.
    pub around_first: Items<ToldItem>,
    /// The way from the first place to the second.
    pub over: Items<ToldItem>,
    /// The way from the second place back to itself.
    pub around_second: Items<ToldItem>,
}

/// Returns the three ways of a split of two places along one text. Each is given by its move numbers. `None` if one of them
/// doesn't lead where it should.
///
/// # Errors
/// [`OutOfMemory`] if there is not enough memory for them.
pub fn split_ways(
    alloc: Global,
    tree: &Re,
    first: Option<u32>,
    second: Option<u32>,
    before: Option<u32>,
    text: &[u32],
    around_first: &[u32],
    over: &[u32],
    around_second: &[u32],
) -> Result<Option<SplitWays>, OutOfMemory>
    requires few { places (tree_of tree.now) ≤ MOST_NODES }
    requires small { size (tree_of tree.now) ≤ MOST_NODES }
    ensures around_first { IfOk result (λ o. IfSome o (λ r. (r.around_first ≡ text_way (tree_of tree.now) first before text.now around_first.now)
        × Leads first first text.now r.around_first)) }
    ensures over { IfOk result (λ o. IfSome o (λ r. (r.over ≡ text_way (tree_of tree.now) first before text.now over.now)
        × Leads first second text.now r.over)) }
    ensures around_second { IfOk result (λ o. IfSome o (λ r. (r.around_second ≡ text_way (tree_of tree.now) second before text.now around_second.now)
        × Leads second second text.now r.around_second)) }
    ensures none { IfOk result (λ o. IfNone o (Leads first first text.now (text_way (tree_of tree.now) first before text.now around_first.now)
        → Leads first second text.now (text_way (tree_of tree.now) first before text.now over.now)
        → Leads second second text.now (text_way (tree_of tree.now) second before text.now around_second.now) → ⊥)) }
{
    let Some(one) = way_between(alloc, tree, first, first, before, text, around_first)? else {
        return Ok(None);
    };
    let Some(across) = way_between(alloc, tree, first, second, before, text, over)? else {
        return Ok(None);
    };
    let Some(other) = way_between(alloc, tree, second, second, before, text, around_second)? else {
        return Ok(None);
    };
    Ok(Some(SplitWays {
        around_first: one,
        over: across,
        around_second: other,
    }))
}
