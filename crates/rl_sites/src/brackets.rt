//! Brackets, and the distance to the closing one. The table of sizes has an entry for each suffix of a list of tokens, at the
//! index of its length: the number of tokens up to and including the first bracket that closes one opened before the suffix,
//! or the suffix's length if there is no such bracket.
ghost use Rattle.std.specs.Prelude.{◌≡◌, ◌≤◌, ◌<◌, ◌+◌, ◌&&◌, not, length, drop, IfOk, if◌then◌else◌};
ghost use Rattle.rl_sites.specs.Arguments.{opens, closes};
ghost use Rattle.rl_sites.specs.internal.Walks.{inside_size, IsTable};

use crate::significant::{SignificantToken, is_op, rest_from};
use rl_lists::OutOfMemory;
use std::alloc::Global;

/// Whether the token is an opening bracket of any kind.
#[tactic(auto, unfolding(crate::specs::Arguments::opens))]
pub fn opens(source: &[u8], token: SignificantToken) -> bool
    ensures { result ≡ opens source.now token }
{
    is_op(source, b"(", token) || is_op(source, b"[", token) || is_op(source, b"{", token)
}

/// Whether the token is a closing bracket of any kind.
#[tactic(auto, unfolding(crate::specs::Arguments::closes))]
pub fn closes(source: &[u8], token: SignificantToken) -> bool
    ensures { result ≡ closes source.now token }
{
    is_op(source, b")", token) || is_op(source, b"]", token) || is_op(source, b"}", token)
}

/// Returns the number of tokens up to and including the bracket that closes the one that `rest` is inside, by the table.
#[tactic(auto, using(crate::proofs::Tables::tables))]
fn size_inside(source: &[u8], rest: &[SignificantToken], sizes: &[usize]) -> usize
    requires { IsTable source.now rest.now sizes.now }
    ensures value { result ≡ inside_size source.now 0 rest.now }
    ensures within { result ≤ length rest.now }
{
    sizes[rest.len()]
}

/// Returns the number of tokens from the beginning of `after`, which follows `token`, up to and including the bracket that
/// closes `token`, or all of them if none does. Returns 0 if `token` isn't an opening bracket. `sizes` must be
/// the table of sizes of `after`.
pub fn jump_size(
    source: &[u8],
    token: SignificantToken,
    after: &[SignificantToken],
    sizes: &[usize],
) -> usize
    requires { IsTable source.now after.now sizes.now }
    ensures value { result ≡ (if opens source.now token then inside_size source.now 0 after.now else 0) }
    ensures within { result ≤ length after.now }
{
    if opens(source, token) {
        size_inside(source, after, sizes)
    } else {
        0
    }
}

fn only_closes(source: &[u8], token: SignificantToken) -> bool
    ensures { result ≡ (not (opens source.now token) && closes source.now token) }
{
    !opens(source, token) && closes(source, token)
}

/// Returns the number of tokens up to and including the bracket that closes the one that `rest` is inside, by the table for
/// all tokens of `rest` except the first.
#[tactic(auto, using(crate::proofs::Tables::tables))]
fn next_size(source: &[u8], rest: &[SignificantToken], sizes: &[usize]) -> usize
    requires some { 0 < length rest.now }
    requires table { IsTable source.now (drop 1 rest.now) sizes.now }
    ensures { result ≡ inside_size source.now 0 rest.now }
{
    let token = rest[0];
    if only_closes(source, token) {
        return 1;
    }
    let after = rest_from(rest, 1);
    let inner = jump_size(source, token, after, sizes);
    1 + inner + size_inside(source, rest_from(after, inner), sizes)
}

/// Returns the table of sizes of the tokens.
///
/// # Errors
/// [`OutOfMemory`] if memory runs out.
#[tactic(auto, using(crate::proofs::Tables::tables))]
pub fn sizes_of(
    alloc: Global,
    source: &[u8],
    tokens: &[SignificantToken],
) -> Result<Vec<usize>, OutOfMemory>
    ensures { IfOk result (λ sizes. IsTable source.now tokens.now sizes.items) }
{
    let mut sizes = Vec::with_capacity(alloc, tokens.len() + 1)?;
    sizes.push(0)?;
    let mut left = tokens.len();
    while left > 0 {
        left -= 1;
        let size = next_size(source, rest_from(tokens, left), sizes.as_slice());
        sizes.push(size)?;
    }
    Ok(sizes)
}
