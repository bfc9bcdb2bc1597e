//! The letters of a list of sets of codes. Two codes belong to the same letter if every set of the list holds both or neither.
//! A sample is one code of a letter. A numbering gives codes that are alike the same number. The universe, `str` or `bytes`,
//! says which codes there are.

ghost use Rattle.std.specs.Prelude.{◌≡◌, ◌<◌, ◌≤◌, ℕ, All, IfOk, IfErr, [], ◌∷◌, length, map, slice_index_or, true};
ghost use Rattle.rl_ranges.specs.Text.{code_count};
ghost use Rattle.rl_ranges.specs.Codes.{has, IsInside};
ghost use Rattle.rl_ranges.specs.Letters.{LetterTable, IsLetters, classes, letter_at};
ghost use Rattle.rl_ranges.specs.Numbering.{Covers, ValuesBelow, IsTable};
ghost use Rattle.rl_ranges.specs.declared.letters.TheConstants.{MOST_LETTERS};
ghost use Rattle.rl_ranges.specs.internal.Splitting.{IsPreferred, RefinesLetters, HasTooMany};
ghost use Rattle.rl_ranges.specs.internal.Order.{is_taken, picked, OccursBefore};

use crate::code_set::CodeSet;
use crate::stretches::{Numbering, split, stretch_before, value_at};
use crate::universe::Universe;
use rl_lists::OutOfMemory;
use std::alloc::{AllocError, AllocFailed, Global};
use std::marker::Model;

/// The maximum number of letters. A list of sets with more letters has no [`Letters`].
pub const MOST_LETTERS: usize = 128;

/// Does nothing: its contract states the value of the limit, 128 letters.
pub fn limits_are()
    ensures letters { MOST_LETTERS ≡ 128 }
{}

/// Why sets have no letters.
#[derive(Clone, Copy, Debug, PartialEq, Eq)]
pub enum LettersError {
    /// There are more than [`MOST_LETTERS`] letters.
    TooMany,
    /// There was not enough memory.
    OutOfMemory,
}

impl From<OutOfMemory> for LettersError {
    ghost use Rattle.std.specs.Prelude.{◌≡◌};
    ghost use Rattle.rl_ranges.specs.declared.letters.LettersError.TheVariants as error;

    ghost from_gives = { λ _ e. e ≡ error.OutOfMemory };

    fn from(_: OutOfMemory) -> Self {
        LettersError::OutOfMemory
    }
}

impl From<AllocError> for LettersError {
    ghost use Rattle.std.specs.Prelude.{◌≡◌};
    ghost use Rattle.rl_ranges.specs.declared.letters.LettersError.TheVariants as error;

    ghost from_gives = { λ _ e. e ≡ error.OutOfMemory };

    fn from(_: AllocError) -> Self {
        LettersError::OutOfMemory
    }
}

impl<T: Drop> From<AllocFailed<T>> for LettersError {
    ghost use Rattle.std.specs.Prelude.{◌≡◌};
    ghost use Rattle.rl_ranges.specs.declared.letters.LettersError.TheVariants as error;

    ghost from_gives = { λ _ e. e ≡ error.OutOfMemory };

    fn from(_: AllocFailed<T>) -> Self {
        LettersError::OutOfMemory
    }
}

/// The letters (alphabet classes) of a list of sets. Two codes belong to the same letter if every set of the list holds both
/// or neither. Letters are numbered from 0 in the order of their least codes.
#[derive(Drop)]
pub struct Letters {
    /// The number of codes in the universe.
    codes: u32,
    /// The first code of each run of codes, and the letter of all codes from there up to the next pair.
    stretches: Vec<(u32, u32)>,
    /// One code of each letter, at the index of the letter's number.
    samples: Vec<u32>,
}

impl Model for Letters {
    ghost use Rattle.rl_ranges.specs.Letters.{LetterTable};
    ghost use Rattle.rl_ranges.specs.Numbering.{IsTable};

    ghost Value = { LetterTable };

    ghost view = { λ t. record { codes = t.codes; stretches = t.stretches.items; samples = t.samples.items } };

    ghost invariant = { λ t. IsTable t.codes t.stretches.items t.samples.items };
}

impl Letters {
    /// Returns the letters of the sets among the codes of the universe. The sets must lie in the universe.
    ///
    /// # Errors
    /// - [`LettersError::TooMany`] only if there are more than [`MOST_LETTERS`] letters, in which case there is never a
    ///   result.
    /// - [`LettersError::OutOfMemory`] if there is no memory for them.
    pub fn of(
        alloc: Global,
        sets: &Vec<CodeSet>,
        universe: Universe,
    ) -> Result<Letters, LettersError>
        requires { All (IsInside universe) sets.now.items }
        ensures ok { IfOk result
            (λ t. IsLetters t (map has sets.now.items) (code_count universe)) }
        ensures few { IfOk result (λ t. length t.samples ≤ MOST_LETTERS) }
        ensures too_many { IfErr result (λ e. e ≡ LettersError.TooMany
            → MOST_LETTERS < length (classes (map has sets.now.items) (code_count universe))) }
    {
        let start = Numbering {
            stretches: Vec::from_slice(alloc, &[(0, 0)])?,
            least: Vec::from_slice(alloc, &[0])?,
        };
        // Sets with many ranges come last. They leave many stretches, which would have to be merged again for each smaller
        // set.
        let narrow = refined_by(alloc, start, sets, Pass::Narrow, universe)?;
        let middle = refined_by(alloc, narrow, sets, Pass::Middle, universe)?;
        let Numbering { stretches, least } = refined_by(alloc, middle, sets, Pass::Wide, universe)?;
        let mut samples = least;
        prefer_plain(&mut samples, &stretches);
        Ok(Letters {
            codes: universe.count(),
            stretches,
            samples,
        })
    }

    /// Returns the number of letters, from 1 to [`MOST_LETTERS`].
    pub fn count(&self) -> u32
        ensures { result ≡ length self.now.samples }
    {
        self.samples.len() as u32
    }

    /// Returns the number of the letter that the code belongs to. The code must be in the universe.
    pub fn letter_of(&self, code: u32) -> u32
        requires { code < self.now.codes }
        ensures value { result ≡ letter_at self.now code }
        ensures inside { result < length self.now.samples }
    {
        value_at(&self.stretches, code)
    }

    /// Returns the sample of the letter with this number, which must be less than [`Letters::count`]. The sample is the
    /// letter's least code from 0x20 to 0x7E, or its least code if it has none there.
    pub fn sample(&self, letter: u32) -> u32
        requires { letter < length self.now.samples }
        ensures { result ≡ slice_index_or self.now.samples letter 0 }
    {
        self.samples[letter as usize]
    }
}

/// The passes over a list of sets, one after the other. Each pass takes the sets of one size.
#[derive(Clone, Copy)]
enum Pass {
    /// Takes sets of at most 32 ranges.
    Narrow,
    /// Takes sets of 33 to 256 ranges, such as `\d`.
    Middle,
    /// Takes sets of more than 256 ranges, such as `\w`.
    Wide,
}

/// Whether the pass takes the set.
fn is_taken(set: &CodeSet, pass: Pass) -> bool
    ensures { result ≡ is_taken pass set.now }
{
    let ranges = set.as_ranges().len();
    let narrow = ranges <= 32;
    let wide = ranges > 256;
    match pass {
        Pass::Narrow => narrow,
        Pass::Middle => !narrow && !wide,
        Pass::Wide => !narrow && wide,
    }
}

/// The number of slots for remembering sets that were taken.
const SLOTS: usize = 128;

/// Returns the slot in which to remember a set that was taken.
fn slot_of(set: &CodeSet) -> usize
    ensures { result < 128 }
{
    match set.first_code() {
        Some(code) => (code as usize + set.as_ranges().len()) % SLOTS,
        None => 0,
    }
}

/// Whether `count` isn't 0 and the set before index `count` of the list is equal to `set`.
fn stands_before(sets: &Vec<CodeSet>, count: usize, set: &CodeSet) -> bool
    requires { count ≤ length sets.now.items }
    ensures { result ≡ true → OccursBefore sets.now.items count set.now }
{
    count > 0 && sets[count - 1].as_ranges() == set.as_ranges()
}

/// Refines a numbering by one set. The result tells two codes apart if the known numbering does or if the set holds only
/// one of them.
///
/// # Errors
/// - [`LettersError::TooMany`] only if more than [`MOST_LETTERS`] numbers are needed, in which case there is never a result.
/// - [`LettersError::OutOfMemory`] if there is no memory for it.
fn refined(
    alloc: Global,
    known: &Numbering,
    set: &CodeSet,
    universe: Universe,
) -> Result<Numbering, LettersError>
    requires table { IsTable (code_count universe) known.now.stretches.items known.now.least.items }
    requires inside { IsInside universe set.now }
    ensures table { IfOk result (λ n. IsTable (code_count universe) n.stretches.items n.least.items) }
    ensures ok { IfOk result (λ n. RefinesLetters known.now.stretches.items known.now.least.items n.stretches.items n.least.items (has set.now ∷ []) (code_count universe)) }
    ensures too_many { IfErr result (λ e. e ≡ LettersError.TooMany
        → HasTooMany known.now.stretches.items known.now.least.items (has set.now ∷ []) (code_count universe)) }
{
    split(alloc, known, set.as_ranges(), universe.count())
}

/// Refines a numbering by every set of the list that the pass takes. The result tells two codes apart if `first` does or if
/// one of these sets holds only one of them.
///
/// # Errors
/// - [`LettersError::TooMany`] only if more than [`MOST_LETTERS`] numbers are needed, in which case there is never a result.
/// - [`LettersError::OutOfMemory`] if there is no memory for it.
fn refined_by(
    alloc: Global,
    first: Numbering,
    sets: &Vec<CodeSet>,
    pass: Pass,
    universe: Universe,
) -> Result<Numbering, LettersError>
    requires table { IsTable (code_count universe) first.stretches.items first.least.items }
    requires inside { All (IsInside universe) sets.now.items }
    ensures table { IfOk result (λ n. IsTable (code_count universe) n.stretches.items n.least.items) }
    ensures ok { IfOk result (λ n. RefinesLetters first.stretches.items first.least.items n.stretches.items n.least.items (picked (is_taken pass) sets.now.items) (code_count universe)) }
    ensures too_many { IfErr result (λ e. e ≡ LettersError.TooMany
        → HasTooMany first.stretches.items first.least.items (picked (is_taken pass) sets.now.items) (code_count universe)) }
{
    let mut known = first;
    // A set that occurs again splits nothing. Each slot keeps the index of the last set put there, counted from 1.
    let mut taken = [0; SLOTS];
    for place in 0..sets.len() {
        let set = &sets[place];
        if is_taken(set, pass) && !stands_before(sets, taken[slot_of(set)], set) {
            known = refined(alloc, &known, set, universe)?;
            taken[slot_of(set)] = place + 1;
        }
    }
    Ok(known)
}

/// Replaces the sample of each letter by the letter's least code from 0x20 to 0x7E, if it has one.
fn prefer_plain(samples: &mut Vec<u32>, stretches: &[(u32, u32)])
    requires covers { (count : ℕ) × Covers stretches.now count }
    requires below { ValuesBelow (length samples.old.items) stretches.now }
    ensures len { length samples.new.items ≡ length samples.old.items }
    ensures each { (k : ℕ) → k < length samples.old.items → IsPreferred stretches.now 32 k
        (slice_index_or samples.old.items k 0) (slice_index_or samples.new.items k 0) }
{
    let mut place = stretches.len() - 1;
    for back in 0..95 {
        let code = 126 - back;
        place = stretch_before(stretches, place, code);
        samples[stretches[place].1 as usize] = code;
    }
}
