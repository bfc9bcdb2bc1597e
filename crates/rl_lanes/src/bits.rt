//! One word of 64 bits, bit by bit. Bits are numbered from 0, the lowest, to 63; a parameter `bit` must be at most 63.
ghost use Rattle.std.specs.Prelude.{◌≡◌, ◌≢◌, ◌↔◌, ℕ, ◌<◌, ◌≤◌, if◌then◌else◌, IsTrue};
ghost use Rattle.std.specs.Int.{bit_at};

/// Returns `word` with the bit `bit` set if `to` is true, and cleared otherwise.
#[inline(always)]
pub(crate) fn with_bit(word: u64, bit: usize, to: bool) -> u64
    requires { bit < 64 }
    ensures same { bit_at result bit ≡ (if to then 1 else 0) }
    ensures others { (k : ℕ) → k < 64 → k ≢ bit → bit_at result k ≡ bit_at word k }
{
    let mask = 1 << bit;
    if to { word | mask } else { word & !mask }
}

/// Returns whether the bit `bit` of `word` is set.
#[inline(always)]
pub(crate) fn has_bit(word: u64, bit: usize) -> bool
    requires { bit < 64 }
    ensures { IsTrue result ↔ (bit_at word bit ≡ 1) }
{
    (word >> bit) & 1 != 0
}

/// Returns `word` with all bits below the bit `bit` cleared.
#[inline(always)]
pub(crate) fn from_bit(word: u64, bit: usize) -> u64
    requires { bit < 64 }
    ensures below { (k : ℕ) → k < bit → bit_at result k ≡ 0 }
    ensures kept { (k : ℕ) → bit ≤ k → k < 64 → bit_at result k ≡ bit_at word k }
{
    word & (u64::MAX << bit)
}

/// Returns the index of the lowest set bit of a word that isn't 0.
#[inline(always)]
pub(crate) fn lowest(word: u64) -> usize
    requires { word ≢ 0 }
    ensures bound { result < 64 }
    ensures set { bit_at word result ≡ 1 }
    ensures below { (k : ℕ) → k < result → bit_at word k ≡ 0 }
{
    word.trailing_zeros() as usize
}

/// Returns a word that isn't 0 with its lowest set bit cleared.
#[inline(always)]
pub(crate) fn without_lowest(word: u64) -> u64
    requires { word ≢ 0 }
    ensures less { result < word }
    ensures inside { (k : ℕ) → bit_at result k ≡ 1 → bit_at word k ≡ 1 }
    ensures kept { (i k : ℕ) → i < k → bit_at word i ≡ 1 → bit_at word k ≡ 1 → bit_at result k ≡ 1 }
{
    word & (word - 1)
}
