//! Lists of attempts.

ghost use Rattle.std.specs.Prelude.{◌≡◌, ℕ, ◌<◌, ◌≤◌, ◌+◌, ◌++◌, ◌∷◌, [], List, true, map, length, IfOk, IfErr, OnOk, slice_index_or};
ghost use Rattle.std.specs.List.{list_all};
ghost use Rattle.rl_prio.specs.internal.Attempts.{guards_of, is_unguarded, is_test, behind, onward, ends_replaced, AreReplaced, AreShort};

use crate::build::guards::Guards;
use rl_lists::{Items, OutOfMemory};
use rl_syntax::MOST_MOVES;
use std::alloc::{AllocFailed, Global};

/// The reason why a list of attempts isn't made.
pub(crate) enum ListError {
    /// The list would have more than [`MOST_MOVES`] items.
    TooLong,
    /// There was not enough memory.
    OutOfMemory,
}

impl From<OutOfMemory> for ListError {
    ghost use Rattle.std.specs.Prelude.{◌≡◌};
    ghost use Rattle.rl_prio.specs.declared.build.attempts.ListError.TheVariants as error;

    ghost from_gives = { λ _ e. e ≡ error.OutOfMemory };

    fn from(_: OutOfMemory) -> Self {
        ListError::OutOfMemory
    }
}

impl<T: Drop> From<AllocFailed<T>> for ListError {
    ghost use Rattle.std.specs.Prelude.{◌≡◌};
    ghost use Rattle.rl_prio.specs.declared.build.attempts.ListError.TheVariants as error;

    ghost from_gives = { λ _ e. e ≡ error.OutOfMemory };

    fn from(_: AllocFailed<T>) -> Self {
        ListError::OutOfMemory
    }
}

/// What a matcher tries if its guards hold: the test of a place, or the end of the tree.
#[derive(Clone, Copy)]
pub(crate) enum Attempt {
    /// The guards, and the place to be tested.
    Test(Guards, usize),
    /// The guards before the end of the tree.
    End(Guards),
}

/// A list of attempts, in the order in which they are made.
pub(crate) type AttemptList = Items<Attempt>;

impl Attempt {
    /// Returns the guards of the attempt.
    pub(crate) fn guards(self) -> Guards
        ensures { result ≡ guards_of self }
    {
        match self {
            Attempt::Test(guards, _) => guards,
            Attempt::End(guards) => guards,
        }
    }

    /// Whether the attempt has no guards.
    fn is_unguarded(self) -> bool
        ensures { result ≡ is_unguarded self }
    {
        self.guards().is_empty()
    }

    /// Whether the attempt is the test of a place.
    fn is_test(self) -> bool
        ensures { result ≡ is_test self }
    {
        matches!(self, Attempt::Test(_, _))
    }

    /// Returns the attempt with `guards` added to its own.
    pub(crate) fn behind(self, guards: Guards) -> Attempt
        ensures { result ≡ behind guards self }
    {
        match self {
            Attempt::Test(own, place) => Attempt::Test(guards.join(own), place),
            Attempt::End(own) => Attempt::End(guards.join(own)),
        }
    }
}

/// Whether no attempt has a guard.
pub(crate) fn are_unguarded(attempts: &[Attempt]) -> bool
    ensures { result ≡ list_all is_unguarded attempts.now }
{
    attempts.iter().all(|attempt| attempt.is_unguarded())
}

/// Whether every attempt is the test of a place.
fn are_tests(attempts: &[Attempt]) -> bool
    ensures { result ≡ list_all is_test attempts.now }
{
    attempts.iter().all(|attempt| attempt.is_test())
}

/// Whether the list is known to stay as it is if its ends are replaced: it has at most [`MOST_MOVES`] attempts and no end.
fn stays(attempts: &[Attempt]) -> bool
    ensures same { result ≡ true → (further : List Attempt) → ends_replaced attempts.now further ≡ attempts.now }
    ensures short { result ≡ true → length attempts.now ≤ MOST_MOVES }
{
    attempts.len() <= MOST_MOVES && are_tests(attempts)
}

/// Creates an empty list with capacity for `count` attempts, or for [`MOST_MOVES`] if that is less.
///
/// # Errors
/// [`OutOfMemory`] if there is not enough memory for it.
fn with_room(alloc: Global, count: usize) -> Result<AttemptList, OutOfMemory>
    ensures { IfOk result (λ l. l ≡ []) }
{
    let list = Vec::with_capacity(alloc, count.min(MOST_MOVES))?;
    Ok(Items::from_vec(list))
}

/// Creates a list of one attempt.
///
/// # Errors
/// [`ListError::OutOfMemory`] if there is not enough memory for it.
pub(crate) fn single(alloc: Global, attempt: Attempt) -> Result<AttemptList, ListError>
    ensures list { IfOk result (λ l. l ≡ attempt ∷ []) }
    ensures memory { IfErr result (λ e. e ≡ ListError.OutOfMemory) }
{
    let list = Items::from_slice(alloc, &[attempt])?;
    Ok(list)
}

/// Appends an attempt.
///
/// # Errors
/// [`ListError::TooLong`] if the list already has [`MOST_MOVES`] attempts; [`ListError::OutOfMemory`] if there is not enough
/// memory for another one.
fn put(list: &mut AttemptList, attempt: Attempt) -> Result<(), ListError>
    ensures put { OnOk result (list.new ≡ list.old ++ attempt ∷ []) }
    ensures short { OnOk result (length list.new ≤ MOST_MOVES) }
    ensures moves { IfErr result (λ e. e ≡ ListError.TooLong → MOST_MOVES ≤ length list.old) }
{
    if list.len() >= MOST_MOVES {
        return Err(ListError::TooLong);
    }
    list.push(attempt)?;
    Ok(())
}

/// Appends the attempts in `further`, each with `guards` added to its own.
///
/// # Errors
/// [`ListError::TooLong`] if there would be more than [`MOST_MOVES`] attempts; [`ListError::OutOfMemory`] if there is not
/// enough memory for them. Some may have been appended then.
pub(crate) fn put_behind(
    list: &mut AttemptList,
    guards: Guards,
    further: &[Attempt],
) -> Result<(), ListError>
    ensures put { OnOk result (list.new ≡ list.old ++ map (behind guards) further.now) }
    ensures short { OnOk result (length list.old ≤ MOST_MOVES → length list.new ≤ MOST_MOVES) }
    ensures moves { IfErr result (λ e. e ≡ ListError.TooLong
        → MOST_MOVES < length list.old + length further.now) }
{
    for attempt in further {
        put(list, attempt.behind(guards))?;
    }
    Ok(())
}

/// Appends an attempt if it is a test. An end is replaced by the attempts in `further`, each with the guards of the end added.
///
/// # Errors
/// [`ListError::TooLong`] if there would be more than [`MOST_MOVES`] attempts; [`ListError::OutOfMemory`] if there is not
/// enough memory for them. Some may have been appended then.
fn put_onward(
    list: &mut AttemptList,
    attempt: Attempt,
    further: &[Attempt],
) -> Result<(), ListError>
    ensures put { OnOk result (list.new ≡ list.old ++ onward further.now attempt) }
    ensures short { OnOk result (length list.old ≤ MOST_MOVES → length list.new ≤ MOST_MOVES) }
    ensures moves { IfErr result (λ e. e ≡ ListError.TooLong
        → MOST_MOVES < length list.old + length (onward further.now attempt)) }
{
    match attempt {
        Attempt::Test(_, _) => put(list, attempt),
        Attempt::End(guards) => put_behind(list, guards, further),
    }
}

/// Returns the attempts with each end replaced by the attempts in `further`.
///
/// # Errors
/// [`ListError::TooLong`] if there would be more than [`MOST_MOVES`] attempts; [`ListError::OutOfMemory`] if there is not
/// enough memory for them.
pub(crate) fn with_ends_replaced(
    alloc: Global,
    attempts: &[Attempt],
    further: &[Attempt],
) -> Result<AttemptList, ListError>
    ensures ok { IfOk result (λ l. l ≡ ends_replaced attempts.now further.now) }
    ensures short { IfOk result (λ l. length l ≤ MOST_MOVES) }
    ensures moves { IfErr result (λ e. e ≡ ListError.TooLong
        → MOST_MOVES < length (ends_replaced attempts.now further.now)) }
{
    let mut list = with_room(alloc, attempts.len().saturating_add(further.len()))?;
    for attempt in attempts {
        put_onward(&mut list, *attempt, further)?;
    }
    Ok(list)
}

/// Replaces each end in the list of a place. A list without an end isn't rebuilt.
///
/// # Errors
/// [`ListError::TooLong`] only if the list would have more than [`MOST_MOVES`] attempts; [`ListError::OutOfMemory`] if there
/// is not enough memory for it.
fn replace_ends_of(
    alloc: Global,
    lists: &mut Vec<AttemptList>,
    place: usize,
    further: &[Attempt],
) -> Result<(), ListError>
    requires { place < length lists.old.items }
    ensures ok { OnOk result (AreReplaced further.now place (place + 1) lists.old.items lists.new.items) }
    ensures short { OnOk result (AreShort place (place + 1) lists.new.items) }
    ensures moves { IfErr result (λ e. e ≡ ListError.TooLong
        → MOST_MOVES < length (ends_replaced (slice_index_or lists.old.items place []) further.now)) }
{
    if stays(lists[place].as_slice()) {
        return Ok(());
    }
    let list = with_ends_replaced(alloc, lists[place].as_slice(), further)?;
    lists[place] = list;
    Ok(())
}

/// Replaces each end in the lists from `from` up to, but not including, `to`.
///
/// # Errors
/// [`ListError::TooLong`] only if a list would have more than [`MOST_MOVES`] attempts; [`ListError::OutOfMemory`] if there is
/// not enough memory for them.
pub(crate) fn replace_ends(
    alloc: Global,
    lists: &mut Vec<AttemptList>,
    from: usize,
    to: usize,
    further: &[Attempt],
) -> Result<(), ListError>
    requires in_order { from ≤ to }
    requires in_lists { to ≤ length lists.old.items }
    ensures ok { OnOk result (AreReplaced further.now from to lists.old.items lists.new.items) }
    ensures short { OnOk result (AreShort from to lists.new.items) }
    ensures moves { IfErr result (λ e. e ≡ ListError.TooLong → (k : ℕ) × (from ≤ k) × (k < to)
        × (MOST_MOVES < length (ends_replaced (slice_index_or lists.old.items k []) further.now))) }
{
    for place in from..to {
        replace_ends_of(alloc, lists, place, further)?;
    }
    Ok(())
}
