//! Tests of `rl_equiv`: one language compared with itself, and two different languages. Both use `same`, which works without a
//! `Baseline`.

ghost use Rattle.std.specs.Prelude.{◌<◌, ◌≤◌, IfOk};
ghost use Rattle.rl_syntax.specs.Tree.{tree_of, IsOver};

use rl_equiv::{Sameness, check, same};
use rl_lists::OutOfMemory;
use rl_ranges::{CodeSet, Universe};
use rl_syntax::Re;
use std::alloc::Global;
use std::test::Fail;

/// Returns the tree of one code point from a range of ASCII.
fn one_of(alloc: Global, first: u32, last: u32) -> Result<Re, OutOfMemory>
    requires order { first ≤ last }
    requires ascii { last < 128 }
    ensures { IfOk result (λ tree. IsOver Universe.Bytes (tree_of tree)) }
{
    let set = CodeSet::range(alloc, first, last)?;
    Ok(Re::One(set))
}

/// Returns the tree of `[ab]*`.
fn star(alloc: Global) -> Result<Re, OutOfMemory>
    ensures { IfOk result (λ tree. IsOver Universe.Bytes (tree_of tree)) }
{
    let set = one_of(alloc, 97, 98)?;
    Re::many(alloc, set, true)
}

/// Tests that `[ab]*` equals itself, and that the relation is accepted.
#[test]
fn one_language_twice(rt: HostRuntime) -> Result<(), Fail> {
    let star = star(rt.alloc())?;
    match same(rt.alloc(), &star, &star, Universe::Bytes, 100)? {
        Sameness::Equal(found) => {
            assert!(rt; check(rt.alloc(), &star, &star, Universe::Bytes, &found)?);
        }
        _ => assert!(rt; false),
    }
    Ok(())
}

/// Tests that `[ab]*` and the empty pattern differ, which the text `a` shows.
#[test]
fn two_languages(rt: HostRuntime) -> Result<(), Fail> {
    let star = star(rt.alloc())?;
    match same(rt.alloc(), &star, &Re::Empty, Universe::Bytes, 100)? {
        Sameness::Apart(text) => assert!(rt; text.as_slice() == [97].as_slice()),
        _ => assert!(rt; false),
    }
    Ok(())
}
