//! Blocks of 16 bytes, each examined as a whole. A byte is ordinary if it is white space, a line end, a byte of a name, an
//! operator character, a delimiter or a bracket. A whole word has no byte that can continue a name directly before or after
//! it.
ghost use Rattle.std.specs.Prelude.{◌≡◌, ℕ, ◌+◌, ◌<◌, ◌≤◌, ◌==◌, false, not, length, map, slice_index, if◌then◌else◌};
ghost use Rattle.std.specs.Int.Count.{count_trailing_zeros};
ghost use Rattle.std.specs.List.{prefix_len, range_with_len};
ghost use Rattle.std.specs.Simd.Lanes.{mask_l, chunk};
ghost use Rattle.rl_pylex.specs.Bytes.{in_line};
ghost use Rattle.rl_pylex.specs.internal.Bodies.{is_plain};
ghost use Rattle.rl_pylex.specs.internal.Absence.{is_ordinary};
ghost use Rattle.rl_pylex.specs.internal.Blocks.{is_stop, stops_at};

use std::simd::prelude::*;

/// The number of bytes in a block.
pub const BLOCK: usize = 16;

/// For each value of the low four bits, a mask of the kinds of non-ordinary bytes that have a byte with these bits.
const LOW_KINDS: [u8; 16] = [35, 3, 7, 7, 7, 3, 3, 7, 3, 2, 2, 3, 18, 2, 3, 11];

/// The same for the high four bits.
const HIGH_KINDS: [u8; 16] = [1, 2, 4, 8, 0, 16, 32, 8, 0, 0, 0, 0, 0, 0, 0, 0];

/// Returns, for each byte of a block, a mask of the kinds of non-ordinary bytes that it belongs to: 0 if it is ordinary.
#[inline(always)]
fn odd_kinds(block: u8x16) -> u8x16
    ensures { map (λ kinds. kinds == 0) result ≡ map is_ordinary block }
{
    let low = u8x16::from_array(LOW_KINDS).swizzle_dyn(block & u8x16::splat(15));
    let high = u8x16::from_array(HIGH_KINDS).swizzle_dyn(block >> u8x16::splat(4));
    low & high
}

/// Returns the position of the lowest bit that is set in a mask, or 16 if there is none.
#[inline(always)]
fn lowest(found: u64) -> usize
    ensures { result ≡ (if found == 0 then 16 else count_trailing_zeros 64 found) }
{
    if found == 0 {
        BLOCK
    } else {
        found.trailing_zeros() as usize
    }
}

/// Returns a mask with a bit for each byte of a block at which a search must stop: the byte isn't ordinary, or it is `first`,
/// is followed by `second`, and no lower-case letter is where the name would end. `behind` is the block one byte further, and
/// `after` is the block further by the length of the name.
#[inline(always)]
fn stops(block: u8x16, behind: u8x16, after: u8x16, first: u8, second: u8) -> u64
    ensures { result ≡ mask_l (map (λ k. is_stop first second (slice_index block k) (slice_index behind k) (slice_index after k)) (range_with_len 0 16)) }
{
    let pairs = block.simd_eq(u8x16::splat(first)) & behind.simd_eq(u8x16::splat(second));
    let ends = (after - u8x16::splat(b'a')).simd_ge(u8x16::splat(26));
    (pairs & ends | odd_kinds(block).simd_ne(u8x16::splat(0))).to_bitmask()
}

/// Returns the number of bytes in the block at a place before the first one that isn't ordinary or at which the name may
/// begin.
#[inline(always)]
fn free_in_block(text: &[u8], at: usize, name: &[u8]) -> usize
    requires long { 2 ≤ length name.now }
    requires room { at + 16 + length name.now ≤ length text.now }
    ensures few { result ≤ 16 }
    ensures free { (k : ℕ) → at ≤ k → k < at + result → stops_at name.now text.now k ≡ false }
{
    let block = u8x16::from_slice(&text[at..]);
    let behind = u8x16::from_slice(&text[at + 1..]);
    let after = u8x16::from_slice(&text[at + name.len()..]);
    lowest(stops(block, behind, after, name[0], name[1]))
}

/// Returns a number of bytes at the beginning of the text that a search for `name` can skip: each of them is ordinary, and
/// `name` begins at none of them as a whole word. `name` must have at least two bytes. The search stops at the first byte that
/// isn't ordinary or at which the name may begin, or earlier if fewer bytes are left than a block and the name have together.
pub fn size_before_stop(text: &[u8], name: &[u8]) -> usize
    requires { 2 ≤ length name.now }
    ensures within { result ≤ length text.now }
    ensures free { (k : ℕ) → k < result → stops_at name.now text.now k ≡ false }
{
    let room = BLOCK + name.len();
    let mut at = 0;
    while text.len() - at >= room {
        let free = free_in_block(text, at, name);
        if free < BLOCK {
            return at + free;
        }
        at += BLOCK;
    }
    at
}

/// Returns a mask with a bit for each byte of a block that ends a run of plain bytes.
#[inline(always)]
fn plain_stops(block: u8x16) -> u64
    ensures { result ≡ mask_l (map (λ c. not (is_plain c)) block) }
{
    let quotes = block.simd_eq(u8x16::splat(b'"')) | block.simd_eq(u8x16::splat(b'\''));
    let ends = block.simd_eq(u8x16::splat(b'\n')) | block.simd_eq(u8x16::splat(b'\r'));
    (quotes | ends | block.simd_eq(u8x16::splat(b'\\'))).to_bitmask()
}

/// Returns the number of bytes in the block that begins at the index `at` before its first quote, backslash, CR or LF: 16 if
/// it has none. The block must lie within the text.
#[inline(always)]
pub fn plain_in_block(text: &[u8], at: usize) -> usize
    requires { at + 16 ≤ length text.now }
    ensures { result ≡ prefix_len is_plain (chunk at 16 text.now) }
{
    lowest(plain_stops(u8x16::from_slice(&text[at..])))
}

/// Returns a mask with a bit for each byte of a block that ends a line.
#[inline(always)]
fn line_stops(block: u8x16) -> u64
    ensures { result ≡ mask_l (map (λ c. not (in_line c)) block) }
{
    (block.simd_eq(u8x16::splat(b'\n')) | block.simd_eq(u8x16::splat(b'\r'))).to_bitmask()
}

/// Returns the number of bytes in the block that begins at the index `at` before its first CR or LF: 16 if it has none.
/// The block must lie within the text.
#[inline(always)]
pub fn line_in_block(text: &[u8], at: usize) -> usize
    requires { at + 16 ≤ length text.now }
    ensures { result ≡ prefix_len in_line (chunk at 16 text.now) }
{
    lowest(line_stops(u8x16::from_slice(&text[at..])))
}
