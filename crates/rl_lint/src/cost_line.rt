//! The line that `cost` writes. Letters are classes of characters that the pattern doesn't distinguish, and a move leads from
//! one state of its automaton to another on a letter.
ghost use Rattle.std.specs.Prelude.{◌≡◌, ◌<◌, ◌≤◌, All, IfOk};
ghost use Rattle.rl_ranges.specs.Text.{IsText};
ghost use Rattle.rl_ranges.specs.declared.universe.Universe.TheVariants.{Str};
ghost use Rattle.rl_syntax.specs.Cost.{cost, matched};
ghost use Rattle.rl_syntax.specs.Pattern.{pattern_ending, pattern_tree, universe_of};
ghost use Rattle.rl_syntax.specs.Tree.{IsOver, Tree, size, tree_of};
ghost use Rattle.rl_syntax.specs.declared.re.Ending.{Ending};
ghost use Rattle.rl_prio.specs.StandsFor.{StandsFor};
ghost use Rattle.rl_report.specs.Names.{limit_number};
ghost use Rattle.rl_lint.specs.CostEnding.{cost_line};
ghost use Rattle.rl_lint.specs.Messages.{steps_line};

use crate::messages::{steps_line, undecided_line};
use rl_lists::{Bytes, Codes, OutOfMemory};
use rl_machine::cost;
use rl_prio::{Prio, PrioError};
use rl_syntax::{Limit, LowerError, Lowered, Mode, Pattern, Universe, lower};
use std::alloc::Global;

/// Returns the line on the steps that an automaton takes on a text, and on whether it matches the text.
///
/// # Errors
/// [`OutOfMemory`] if memory runs out.
fn counted_line(alloc: Global, automaton: &Prio, text: &Codes) -> Result<Bytes, OutOfMemory>
    requires { All (λ code. code < automaton.now.table.codes) text.now }
    ensures { (t : Tree) (at : Ending) → StandsFor automaton.now t at
        → IfOk result (λ line. line ≡ steps_line (cost t at text.now) (matched t at text.now)) }
{
    let counted = cost(alloc, automaton, text)?;
    let line = steps_line(alloc, counted)?;
    Ok(Bytes::from_vec(line.into_bytes()))
}

/// Returns the line on the steps that a lowered pattern takes on a text, or on the limit that its automaton exceeds.
///
/// # Errors
/// [`OutOfMemory`] if memory runs out.
fn lowered_line(alloc: Global, lowered: &Lowered, text: &Codes) -> Result<Bytes, OutOfMemory>
    requires over { IsOver Str (tree_of lowered.now.tree) }
    requires small { size (tree_of lowered.now.tree) ≤ limit_number 0 Limit.Size }
    requires in_universe { IsText Str text.now }
    ensures { IfOk result (λ line. line
        ≡ cost_line (tree_of lowered.now.tree) lowered.now.ending text.now) }
{
    match Prio::build(alloc, &lowered.tree, lowered.ending, Universe::Str) {
        Ok(automaton) => {
            let line = counted_line(alloc, &automaton, text);
            drop(automaton);
            line
        }
        Err(PrioError::Letters) => undecided_line(alloc, 0, Limit::Letters),
        Err(PrioError::Moves) => undecided_line(alloc, 0, Limit::Moves),
        Err(PrioError::OutOfMemory) => Err(OutOfMemory),
    }
}

/// Returns the line that `cost` writes: on the first limit that the pattern exceeds, in the order of nodes, letters and moves,
/// or else on the number of steps that the match of `text` in `mode` takes, and on how it ends. The pattern must be one for
/// texts of type `str`, and each code of `text` must be a code point of the universe `str`.
///
/// # Errors
/// [`OutOfMemory`] if memory runs out.
pub fn cost_line(
    alloc: Global,
    pattern: &Pattern,
    mode: Mode,
    text: &Codes,
) -> Result<Bytes, OutOfMemory>
    requires of_text { universe_of pattern.now ≡ Str }
    requires in_universe { IsText Str text.now }
    ensures { IfOk result (λ line. line
        ≡ cost_line (pattern_tree pattern.now mode) (pattern_ending pattern.now mode) text.now) }
{
    match lower(alloc, pattern, mode) {
        Ok(lowered) => {
            let line = lowered_line(alloc, &lowered, text);
            drop(lowered);
            line
        }
        Err(LowerError::TooLarge) => undecided_line(alloc, 0, Limit::Size),
        Err(LowerError::OutOfMemory) => Err(OutOfMemory),
    }
}
