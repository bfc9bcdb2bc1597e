//! The cost of a text, which is one more than the number of steps that a backtracking matcher takes on it, up to and including
//! the first hit, or than the number of all steps if there is no hit. A hit is a step with which a match ends.

ghost use Rattle.std.specs.Prelude.{ℕ, ◌<◌, List, All, IfOk};
ghost use Rattle.rl_syntax.specs.declared.re.Ending.{Ending};
ghost use Rattle.rl_syntax.specs.Tree.{Tree};
ghost use Rattle.rl_prio.specs.StandsFor.{StandsFor};
ghost use Rattle.rl_machine.specs.Counts.{ShowsCost};
ghost use Rattle.rl_machine.specs.Columns.{ShowsText};

use crate::columns::Columns;
use crate::steps::Counted;
use rl_prio::Prio;
use rl_ranges::{Codes, OutOfMemory};
use std::alloc::Global;

/// Returns the cost of a text, and whether the walk of the automaton on it has a hit. The cost is one more than the number of
/// steps of the walk up to and including the first hit, or one more than all its steps if there is no hit; it is `Steps::Past`
/// if it is 2^128 or more. Each step is a test of a character or an end of the tree that a backtracking matcher tries. The
/// text must have only codes of the automaton, which are the numbers below its number of codes. It is read once, from its end,
/// by dynamic programming.
///
/// # Errors
/// [`OutOfMemory`] if there is not enough memory for two columns.
pub fn cost(alloc: Global, a: &Prio, text: &Codes) -> Result<Counted, OutOfMemory>
    requires { All (λ code. code < a.now.table.codes) text.now }
    ensures walked { IfOk result (λ c. ShowsText c a.now text.now) }
    ensures of_tree { IfOk result (λ c. (t : Tree) (ending : Ending) → StandsFor a.now t ending → ShowsCost c t ending text.now) }
{
    let counted = counted_on(alloc, a, text)?;
    Ok(counted)
}

/// Returns the cost of the walk on the text, and whether the walk has a hit.
fn counted_on(alloc: Global, a: &Prio, text: &Codes) -> Result<Counted, OutOfMemory>
    requires { All (λ code. code < a.now.table.codes) text.now }
    ensures { IfOk result (λ c. ShowsText c a.now text.now) }
{
    let mut columns = Columns::at_end(alloc, a)?;
    let codes = text.as_slice();
    let mut left = codes.len();
    while left > 0 {
        left -= 1;
        let letter = a.letters().letter_of(codes[left]);
        columns.advance(a, letter);
    }
    Ok(columns.answer())
}
