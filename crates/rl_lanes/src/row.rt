//! Rows of truth values, stored as bits. Places are numbered from 0.
ghost use Rattle.std.specs.Prelude.{◌≡◌, ◌==◌, ◌↔◌, ℕ, ◌+◌, ◌*◌, ◌/◌, ◌^◌, ◌<◌, ◌≤◌, Bool, false, length, replicate, count_by, slice_index_or, slice_set, IsTrue, IfOk, IfSome, IfNone};
ghost use Rattle.std.specs.Bool.{OnFalse};
ghost use Rattle.std.specs.Int.{bit_at};
ghost use Rattle.rl_lanes.specs.Rows.{list_or, list_and_not, Meets, AreApart, IsSubset, HasOther, NoneFrom, IsLeastFrom};
ghost use Rattle.rl_lanes.specs.Packed.{truths, IsPacked, words_of};
ghost use Rattle.rl_lanes.specs.internal.PackedWords.{IsLeastBitFrom, NoBitFrom};

use crate::bits::{from_bit, has_bit, lowest, with_bit};
use crate::words::{any_both, any_outside, count_words, or_words, subtract_words};
use rl_lists::OutOfMemory;
use smallvec::SmallVec;
use std::alloc::Global;
use std::hash::{Hash, Hasher};
use std::marker::Model;

/// The number of truth values in a word.
pub(crate) const WORD: usize = 64;

/// The number of words that a row stores in itself. A row with more words allocates memory for all of them.
const INLINE: usize = 2;

/// A row of truth values. It represents the set of the places whose values are true.
///
/// Contracts see it as the list of its values. The bits after the last value are 0.
#[derive(Debug, Drop)]
pub struct BitRow {
    words: SmallVec<u64, INLINE>,
    len: usize,
}

impl Model for BitRow {
    ghost use Rattle.std.specs.Prelude.{Bool, List};
    ghost use Rattle.rl_lanes.specs.Packed.{truths, IsPacked};

    ghost Value = { List Bool };

    ghost view = { λ r. truths r.len r.words.items };

    ghost invariant = { λ r. IsPacked r.len r.words.items };
}

impl BitRow {
    /// Returns a row of `len` places, all of which are false.
    ///
    /// # Errors
    /// [`OutOfMemory`] if there is not enough memory for the row.
    pub fn zeros(alloc: Global, len: usize) -> Result<BitRow, OutOfMemory>
        ensures { IfOk result (λ row. row ≡ replicate len false) }
    {
        let words = SmallVec::from_elem(alloc, 0, len.div_ceil(WORD))?;
        Ok(BitRow { words, len })
    }

    /// Returns a copy of the row.
    ///
    /// # Errors
    /// [`OutOfMemory`] if there is not enough memory for the copy.
    pub fn copy(&self) -> Result<BitRow, OutOfMemory>
        ensures { IfOk result (λ row. row ≡ self.now) }
    {
        let words = self.words.clone()?;
        Ok(BitRow {
            words,
            len: self.len,
        })
    }

    /// Returns the number of places.
    pub fn len(&self) -> usize
        ensures { result ≡ length self.now }
    {
        self.len
    }

    /// Returns whether no place is true. A row without places is empty too.
    pub fn is_empty(&self) -> bool
        ensures { IsTrue result ↔ NoneFrom self.now 0 }
    {
        self.next_from(0).is_none()
    }

    /// Returns the value at the place `i`, which must be less than the number of places.
    pub fn get(&self, i: usize) -> bool
        requires { i < length self.now }
        ensures { result ≡ slice_index_or self.now i false }
    {
        has_bit(self.words.as_slice()[i / WORD], i % WORD)
    }

    /// Sets the value at the place `i`, which must be less than the number of places.
    pub fn set(&mut self, i: usize, to: bool)
        requires { i < length self.old }
        ensures { self.new ≡ slice_set self.old i to }
    {
        let words = self.words.as_mut_slice();
        let word = i / WORD;
        words[word] = with_bit(words[word], i % WORD, to);
    }

    /// Sets the values at all places to false.
    pub fn clear(&mut self)
        ensures { self.new ≡ replicate (length self.old) false }
    {
        self.words.as_mut_slice().fill(0);
    }

    /// Sets each place that is true in `other` to true. Both rows must have the same length.
    pub fn or_into(&mut self, other: &BitRow)
        requires { length self.old ≡ length other.now }
        ensures union { self.new ≡ list_or self.old other.now }
        ensures len { length self.new ≡ length self.old }
    {
        or_words(self.words.as_mut_slice(), other.words());
    }

    /// Sets each place that is true in the words `added` to true. They must store a row of the same length.
    pub(crate) fn add_words(&mut self, added: &[u64])
        requires { IsPacked (length self.old) added.now }
        ensures { self.new ≡ list_or self.old (truths (length self.old) added.now) }
    {
        or_words(self.words.as_mut_slice(), added);
    }

    /// Sets each place that is true in `other` to false. Both rows must have the same length.
    pub fn subtract(&mut self, other: &BitRow)
        requires { length self.old ≡ length other.now }
        ensures difference { self.new ≡ list_and_not self.old other.now }
        ensures len { length self.new ≡ length self.old }
    {
        subtract_words(self.words.as_mut_slice(), other.words());
    }

    /// Returns whether some place is true in both rows, which must have the same length.
    pub fn meets(&self, other: &BitRow) -> bool
        requires { length self.now ≡ length other.now }
        ensures meets { IsTrue result ↔ Meets self.now other.now }
        ensures apart { OnFalse result (AreApart self.now other.now) }
    {
        any_both(self.words(), other.words())
    }

    /// Returns whether every place that is true in this row is true in `of`. Both rows must have the same length.
    pub fn is_subset(&self, of: &BitRow) -> bool
        requires { length self.now ≡ length of.now }
        ensures subset { IsTrue result ↔ IsSubset self.now of.now }
        ensures other { OnFalse result (HasOther self.now of.now) }
    {
        !any_outside(self.words(), of.words())
    }

    /// Returns the number of places that are true.
    pub fn count(&self) -> usize
        ensures { result ≡ count_by (λ holds. holds) self.now }
    {
        // Reading the length tells the prover that it fits in 64 bits. The count is at most the length.
        let _len = self.len;
        count_words(self.words())
    }

    /// Returns the first place from `i` on that is true, or `None` if there is none. Words of zeros are skipped.
    ///
    /// To visit all places that are true in ascending order, begin with `next_from(0)` and continue with
    /// `next_from(i + 1)` after each place `i`.
    pub fn next_from(&self, i: usize) -> Option<usize>
        ensures found { IfSome result (IsLeastFrom self.now i) }
        ensures none { IfNone result (NoneFrom self.now i) }
        ensures next_fits { IfSome result (λ least. least + 1 < 2 ^ 64) }
    {
        if i < self.len {
            next_bit(self.words(), i)
        } else {
            None
        }
    }

    /// Returns the word that stores a row of at most 64 places: its bit `i` is set if the place `i` is true.
    #[inline(always)]
    pub(crate) fn word(&self) -> u64
        requires { length self.now ≤ 64 }
        ensures { (i : ℕ) → i < 64 → slice_index_or self.now i false ≡ (bit_at result i == 1) }
    {
        let words = self.words.as_slice();
        if words.is_empty() { 0 } else { words[0] }
    }

    /// Replaces the values of a row of 1 to 64 places: the place `i` becomes the bit `i` of `word`. The
    /// bits of `word` after the last place must be 0.
    #[inline(always)]
    pub(crate) fn put_word(&mut self, word: u64)
        requires some { 0 < length self.old }
        requires few { length self.old ≤ 64 }
        requires clear { (i : ℕ) → length self.old ≤ i → i < 64 → bit_at word i ≡ 0 }
        ensures values { (i : ℕ) → i < 64 → slice_index_or self.new i false ≡ (bit_at word i == 1) }
        ensures len { length self.new ≡ length self.old }
    {
        self.words.as_mut_slice()[0] = word;
    }

    /// Returns the words that store the row.
    fn words(&self) -> &[u64]
        ensures { result.now ≡ words_of self.now }
    {
        // The variable tells the prover that each word has 64 bits.
        let words = self.words.as_slice();
        words
    }
}

impl PartialEq for BitRow {
    ghost use Rattle.std.specs.Cmp.{bool_eq_equiv, partial_equiv_from_equiv};
    ghost use Rattle.std.proofs.lemmas.Cmp.{lists_equiv};
    ghost use Rattle.rl_lanes.specs.Rows.{row_eq};

    ghost eq = { row_eq };

    ghost laws = { partial_equiv_from_equiv (lists_equiv bool_eq_equiv) };

    fn eq(&self, other: &BitRow) -> bool {
        self.len == other.len && self.words() == other.words()
    }
}

impl Eq for BitRow {
    ghost use Rattle.std.specs.Cmp.{bool_eq_equiv};
    ghost use Rattle.std.proofs.lemmas.Cmp.{lists_equiv};

    ghost laws = { lists_equiv bool_eq_equiv };
}

impl Hash for BitRow {
    ghost use Rattle.std.specs.Hash as fed;
    ghost use Rattle.std.specs.Hash.{same_Alike};
    ghost use Rattle.rl_lanes.specs.Packed.{words_of};
    ghost use Rattle.rl_lanes.specs.Rows.{row_eq, row_eq_decides};

    ghost hash_input = { λ row. fed.slice fed.u64 (words_of row) };

    ghost respects_eq = { (same_Alike (λ row. fed.slice fed.u64 (words_of row)) row_eq_decides).fed };

    fn hash<H: Hasher>(&self, state: &mut H) {
        self.words().hash(state);
    }
}

/// Returns the first place from `i` on that is true in the words, or `None` if there is none. There must be a word with
/// the index `i / 64`.
fn next_bit(words: &[u64], i: usize) -> Option<usize>
    requires within { i / 64 < length words.now }
    requires small { 64 * length words.now ≤ 2 ^ 64 }
    ensures found { IfSome result (IsLeastBitFrom words.now i) }
    ensures none { IfNone result (NoBitFrom words.now i) }
{
    let first = i / WORD;
    let word = from_bit(words[first], i % WORD);
    if word != 0 {
        return Some(WORD * first + lowest(word));
    }
    for at in first + 1..words.len() {
        let word = words[at];
        if word != 0 {
            return Some(WORD * at + lowest(word));
        }
    }
    None
}
