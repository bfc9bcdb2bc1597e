//! The machine that runs two patterns side by side, by how both are asked.

ghost use Rattle.std.specs.Prelude.{◌≡◌, ◌++◌, IfErr, IfOk};
ghost use Rattle.rl_ranges.specs.Text.{code_count};
ghost use Rattle.rl_syntax.specs.Tree.{IsOver};
ghost use Rattle.rl_marks.specs.Marked.{marked_of, plain};
ghost use Rattle.rl_marks.specs.SameFinds.{matcher_in};
ghost use Rattle.rl_marks.specs.internal.PairLetters.{sets_of_both};
ghost use Rattle.rl_marks.specs.internal.Seeking.{asked_in, origin_in};
ghost use Rattle.rl_spans.specs.Limits.{IsCause};
ghost use Rattle.rl_spans.specs.internal.Codes.{AreEnough};
ghost use Rattle.rl_spans.specs.internal.Machines.{IsMachine};
ghost use Rattle.rl_spans.specs.internal.Sides.{matcher_of};

use crate::codes::{codes_of, looks_of};
use crate::error::SpansError;
use crate::machine::Machine;
use crate::shown::Words;
use crate::side::Side;
use rl_lists::OutOfMemory;
use rl_marks::threads::Origin;
use rl_marks::{How, MarkTree, MarkedPattern, ending_of, seeking};
use rl_syntax::{MOST_NODES, Universe};
use std::alloc::Global;

/// Returns from where matches are asked for: with `OneSearch` only from the start of the text, otherwise from each place.
pub(crate) fn origin_of(how: How) -> Origin
    ensures { result ≡ origin_in how }
{
    match how {
        How::Fullmatch | How::Match => Origin::EachPlace,
        How::OneSearch => Origin::TextStart,
    }
}

/// Returns the tree that is run for the pattern: a copy of its own tree, or with `OneSearch` the tree whose match from the
/// start of a text is a search.
fn asked_tree(
    alloc: Global,
    how: How,
    universe: Universe,
    pattern: &MarkedPattern,
) -> Result<MarkTree, OutOfMemory>
    ensures { IfOk result (λ tree. marked_of tree ≡ (asked_in how universe (matcher_in how pattern.now)).tree) }
{
    let tree = pattern.tree.copy(alloc)?;
    match how {
        How::Fullmatch | How::Match => Ok(tree),
        How::OneSearch => seeking(alloc, universe, tree),
    }
}

/// Returns the machine of two patterns over one universe that are both asked as `how` says.
///
/// # Errors
/// [`SpansError::Size`], [`SpansError::Letters`] or [`SpansError::Moves`] only for a limit that is exceeded,
/// [`SpansError::OutOfMemory`] if there was no memory for it.
pub(crate) fn machine_of(
    alloc: Global,
    how: How,
    a: &MarkedPattern,
    b: &MarkedPattern,
) -> Result<Machine, SpansError>
    requires { a.now.universe ≡ b.now.universe }
    ensures machine { IfOk result IsMachine }
    ensures first { IfOk result (λ m. matcher_of m.first ≡ asked_in how a.now.universe (matcher_in how a.now)) }
    ensures second { IfOk result (λ m. matcher_of m.second ≡ asked_in how a.now.universe (matcher_in how b.now)) }
    ensures codes { IfOk result (λ m. AreEnough (sets_of_both (matcher_of m.first) (matcher_of m.second)) (code_count a.now.universe) m.codes) }
    ensures causes { IfErr result (IsCause how a.now b.now) }
{
    let first = asked_tree(alloc, how, a.universe, a)?;
    let second = asked_tree(alloc, how, a.universe, b)?;
    if first.nodes() > MOST_NODES || second.nodes() > MOST_NODES {
        return Err(SpansError::Size);
    }
    let codes = codes_of(alloc, &first, &second, a.universe)?;
    let looks = looks_of(alloc, &first, &second)?;
    let words = Words::new(alloc)?;
    let first = Side::new(alloc, first, ending_of(how, a.trailing), codes.as_slice())?;
    let second = Side::new(alloc, second, ending_of(how, b.trailing), codes.as_slice())?;
    Ok(Machine {
        first,
        second,
        codes,
        words,
        looks,
    })
}
