//! What the representative codes of the letters show.

ghost use Rattle.std.specs.Prelude.{◌≡◌, ℕ, ◌<◌, ◌≤◌, ◌++◌, ◌∷◌, [], true, false, All, length, map, OnOk, IfOk};
ghost use Rattle.rl_ranges.specs.Codes.{has};
ghost use Rattle.rl_ranges.specs.Letters.{letter_at};
ghost use Rattle.rl_ranges.specs.declared.letters.TheConstants.{MOST_LETTERS};
ghost use Rattle.rl_syntax.specs.Guards.{is_word};
ghost use Rattle.rl_syntax.specs.Tree.{tree_of, sets_in};
ghost use Rattle.rl_prio.specs.internal.GuardSets.{nothing_shown, code_shown};

use crate::build::guards::{Shown, Words};
use rl_lists::{Items, OutOfMemory};
use rl_ranges::{CodeSet, Letters};
use rl_syntax::Re;
use std::alloc::Global;

/// Returns the representative code of each letter, in order.
///
/// # Errors
/// [`OutOfMemory`] if there is not enough memory for them.
pub(crate) fn samples(alloc: Global, letters: &Letters) -> Result<Vec<u32>, OutOfMemory>
    ensures { IfOk result (λ codes. codes.items ≡ letters.now.samples) }
{
    let mut codes = Vec::with_capacity(alloc, letters.count() as usize)?;
    for letter in 0..letters.count() {
        codes.push(letters.sample(letter))?;
    }
    Ok(codes)
}

/// Returns the number of the kind of each code, in order.
///
/// # Errors
/// [`OutOfMemory`] if there is not enough memory for them.
pub(crate) fn kinds_of(
    alloc: Global,
    kinds: &Letters,
    codes: &[u32],
) -> Result<Vec<u32>, OutOfMemory>
    requires { All (λ c. c < kinds.now.codes) codes.now }
    ensures { IfOk result (λ list. list.items ≡ map (letter_at kinds.now) codes.now) }
{
    let mut list = Vec::with_capacity(alloc, codes.len())?;
    for code in codes {
        list.push(kinds.letter_of(*code))?;
    }
    Ok(list)
}

/// Returns, for each code, whether the set holds it.
///
/// # Errors
/// [`OutOfMemory`] if there is not enough memory for the answers.
fn members_of(alloc: Global, set: &CodeSet, codes: &[u32]) -> Result<Items<bool>, OutOfMemory>
    ensures { IfOk result (λ list. list ≡ map (has set.now) codes.now) }
{
    let mut list = Vec::with_capacity(alloc, codes.len())?;
    for code in codes {
        list.push(set.contains(*code))?;
    }
    Ok(Items::from_vec(list))
}

/// Appends a list.
///
/// # Errors
/// [`OutOfMemory`] if there is not enough memory for it.
fn put(lists: &mut Vec<Items<bool>>, list: Items<bool>) -> Result<(), OutOfMemory>
    ensures { OnOk result (lists.new.items ≡ lists.old.items ++ list ∷ []) }
{
    lists.push(list)?;
    Ok(())
}

/// Appends, for each set of a tree from left to right, the list of whether it holds each code.
///
/// # Errors
/// [`OutOfMemory`] if there is not enough memory for the lists. Some may have been appended then.
pub(crate) fn add_members(
    alloc: Global,
    tree: &Re,
    codes: &[u32],
    members: &mut Vec<Items<bool>>,
) -> Result<(), OutOfMemory>
    ensures { OnOk result (members.new.items
        ≡ members.old.items ++ map (λ set. map set codes.now) (sets_in (tree_of tree.now))) }
{
    match tree {
        Re::Empty | Re::Guard(_) => Ok(()),
        Re::One(set) => put(members, members_of(alloc, set, codes)?),
        Re::Both(first, second) | Re::Either(first, second) => {
            add_members(alloc, first, codes, members)?;
            add_members(alloc, second, codes, members)
        }
        Re::Many(body, _) => add_members(alloc, body, codes, members),
    }
}

/// Appends what each code shows.
///
/// # Errors
/// [`OutOfMemory`] if there is not enough memory for it.
fn add_shown(
    words: &Words,
    kinds: &Letters,
    codes: &[u32],
    list: &mut Vec<Shown>,
) -> Result<(), OutOfMemory>
    requires all { (c : ℕ) → has words.now.all c ≡ is_word false c }
    requires ascii { (c : ℕ) → has words.now.ascii c ≡ is_word true c }
    requires few { length kinds.now.samples ≤ MOST_LETTERS }
    requires codes { All (λ c. c < kinds.now.codes) codes.now }
    ensures { OnOk result
        (list.new.items ≡ list.old.items ++ map (code_shown kinds.now) codes.now) }
{
    for code in codes {
        list.push(words.shown(kinds, *code))?;
    }
    Ok(())
}

/// Returns what is shown before the start, and by each code.
///
/// # Errors
/// [`OutOfMemory`] if there is not enough memory for it.
fn shown_before(
    alloc: Global,
    words: &Words,
    kinds: &Letters,
    codes: &[u32],
) -> Result<Vec<Shown>, OutOfMemory>
    requires all { (c : ℕ) → has words.now.all c ≡ is_word false c }
    requires ascii { (c : ℕ) → has words.now.ascii c ≡ is_word true c }
    requires few { length kinds.now.samples ≤ MOST_LETTERS }
    requires codes { All (λ c. c < kinds.now.codes) codes.now }
    ensures { IfOk result
        (λ list. list.items ≡ nothing_shown ∷ map (code_shown kinds.now) codes.now) }
{
    let mut list = Vec::with_capacity(alloc, codes.len().saturating_add(1))?;
    list.push(Shown::nothing())?;
    add_shown(words, kinds, codes, &mut list)?;
    Ok(list)
}

/// Returns what is shown by each code, and by the end letter.
///
/// # Errors
/// [`OutOfMemory`] if there is not enough memory for it.
fn shown_next(
    alloc: Global,
    words: &Words,
    kinds: &Letters,
    codes: &[u32],
) -> Result<Vec<Shown>, OutOfMemory>
    requires all { (c : ℕ) → has words.now.all c ≡ is_word false c }
    requires ascii { (c : ℕ) → has words.now.ascii c ≡ is_word true c }
    requires few { length kinds.now.samples ≤ MOST_LETTERS }
    requires codes { All (λ c. c < kinds.now.codes) codes.now }
    ensures { IfOk result
        (λ list. list.items ≡ map (code_shown kinds.now) codes.now ++ nothing_shown ∷ []) }
{
    let mut list = Vec::with_capacity(alloc, codes.len().saturating_add(1))?;
    add_shown(words, kinds, codes, &mut list)?;
    list.push(Shown::nothing())?;
    Ok(list)
}

/// Returns what is shown before the start and by each kind, and what is shown by each code and by the end letter. There must be
/// at most [`MOST_LETTERS`](rl_ranges::MOST_LETTERS) kinds.
///
/// # Errors
/// [`OutOfMemory`] if there is not enough memory for it.
pub(crate) fn shown_around(
    alloc: Global,
    kinds: &Letters,
    codes: &[u32],
) -> Result<(Vec<Shown>, Vec<Shown>), OutOfMemory>
    requires few { length kinds.now.samples ≤ MOST_LETTERS }
    requires kind_codes { All (λ c. c < kinds.now.codes) kinds.now.samples }
    requires codes { All (λ c. c < kinds.now.codes) codes.now }
    ensures before { IfOk result
        (λ both. both.0.items ≡ nothing_shown ∷ map (code_shown kinds.now) kinds.now.samples) }
    ensures next { IfOk result
        (λ both. both.1.items ≡ map (code_shown kinds.now) codes.now ++ nothing_shown ∷ []) }
{
    let kind_codes = samples(alloc, kinds)?;
    let words = Words::new(alloc)?;
    let before = shown_before(alloc, &words, kinds, &kind_codes)?;
    let next = shown_next(alloc, &words, kinds, codes)?;
    Ok((before, next))
}
