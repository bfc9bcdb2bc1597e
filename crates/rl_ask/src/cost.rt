//! How questions `cost` are answered: by the number of steps that a match of the text takes.

ghost use Rattle.std.specs.Prelude.{◌≡◌, ◌+◌, ◌<◌, ◌≤◌, All, IfOk, length};
ghost use Rattle.std.specs.Str.{chars};
ghost use Rattle.serde_json.specs.View.{items_view};
ghost use Rattle.rl_ranges.specs.Text.{IsText};
ghost use Rattle.rl_syntax.specs.Family.{family_text};
ghost use Rattle.rl_syntax.specs.Pattern.{universe_of};
ghost use Rattle.rl_syntax.specs.Tree.{IsOver, Tree, size, tree_of};
ghost use Rattle.rl_syntax.specs.declared.limits.TheConstants.{MOST_NODES};
ghost use Rattle.rl_syntax.specs.declared.re.Ending.{Ending};
ghost use Rattle.rl_prio.specs.StandsFor.{StandsFor};
ghost use Rattle.rl_machine.specs.Counts.{ShowsCost};
ghost use Rattle.rl_machine.specs.declared.steps.Counted.{Counted};
ghost use Rattle.rl_asked.specs.Questions.{AreTexts};
ghost use Rattle.rl_asked.specs.Values.{texts_of};
ghost use Rattle.rl_ask.specs.Costs.{IsCost, IsCostOf, IsTreeCost, family_named};
ghost use Rattle.rl_ask.specs.Grammars.{grammar_in};
ghost use Rattle.rl_ask.specs.Patterns.{ReadThen};
ghost use Rattle.rl_ask.specs.declared.answer.Answer.TheVariants as answer;

use crate::answer::{Answer, Limit, Which};
use crate::codes::codes_of;
use crate::family::{TextError, text_for};
use crate::grammar::grammar_in;
use crate::limits::MOST_TEXT_CODES;
use crate::patterns::{PatternRead, read_pattern};
use rl_asked::Terms;
use rl_lists::{Codes, OutOfMemory};
use rl_machine::cost;
use rl_prio::{Prio, PrioError};
use rl_syntax::{LowerError, Lowered, Mode, Pattern, Universe, lower};
use serde_json::Value;
use std::alloc::Global;

/// Returns the answer for an automaton.
fn counted(alloc: Global, automaton: &Prio, text: &Codes) -> Result<Answer, OutOfMemory>
    requires { All (λ code. code < automaton.now.table.codes) text.now }
    ensures { IfOk result (λ a. (c : Counted) × (a ≡ answer.Cost c) × ((t : Tree) (at : Ending) → StandsFor automaton.now t at → ShowsCost c t at text.now)) }
{
    Ok(Answer::Cost(cost(alloc, automaton, text)?))
}

/// Returns the answer for a lowered pattern.
fn lowered_answer(
    alloc: Global,
    lowered: &Lowered,
    universe: Universe,
    text: &Codes,
) -> Result<Answer, OutOfMemory>
    requires over { IsOver universe (tree_of lowered.now.tree) }
    requires small { size (tree_of lowered.now.tree) ≤ MOST_NODES }
    requires text { IsText universe text.now }
    ensures { IfOk result (IsTreeCost universe (tree_of lowered.now.tree) lowered.now.ending text.now) }
{
    match Prio::build(alloc, &lowered.tree, lowered.ending, universe) {
        Ok(automaton) => {
            let answer = counted(alloc, &automaton, text);
            drop(automaton);
            answer
        }
        Err(PrioError::Letters) => Ok(Answer::Undecided(Limit::Letters)),
        Err(PrioError::Moves) => Ok(Answer::Undecided(Limit::Moves)),
        Err(PrioError::OutOfMemory) => Err(OutOfMemory),
    }
}

/// Returns the answer for a pattern and a text of its universe.
fn pattern_answer(
    alloc: Global,
    pattern: &Pattern,
    mode: Mode,
    text: &Codes,
) -> Result<Answer, OutOfMemory>
    requires text { IsText (universe_of pattern.now) text.now }
    ensures { IfOk result (IsCost mode text.now pattern.now) }
{
    match lower(alloc, pattern, mode) {
        Ok(lowered) => {
            let answer = lowered_answer(alloc, &lowered, pattern.universe(), text);
            drop(lowered);
            answer
        }
        Err(LowerError::TooLarge) => Ok(Answer::Undecided(Limit::Size)),
        Err(LowerError::OutOfMemory) => Err(OutOfMemory),
    }
}

/// Returns the answer for the text of a pattern, and a text of its universe.
fn read_answer(
    alloc: Global,
    pattern: &str,
    terms: Terms,
    mode: Mode,
    text: &Codes,
) -> Result<Answer, OutOfMemory>
    requires text { IsText terms.universe text.now }
    ensures { IfOk result (ReadThen (grammar_in mode) terms pattern.now (IsCost mode text.now)) }
{
    match read_pattern(alloc, pattern, terms, grammar_in(mode))? {
        PatternRead::Refused(fault) => Ok(Answer::Refused {
            which: Which::Only,
            fault,
        }),
        PatternRead::Read(pattern) => {
            let answer = pattern_answer(alloc, &pattern, mode, text);
            drop(pattern);
            answer
        }
    }
}

/// Returns the answer to a question `cost` about one text.
///
/// # Errors
/// [`OutOfMemory`] if there was no memory for the answer.
pub(crate) fn cost_answer(
    alloc: Global,
    pattern: &str,
    terms: Terms,
    mode: Mode,
    text: &str,
) -> Result<Answer, OutOfMemory>
    requires text { IsText terms.universe (chars text.now) }
    ensures { IfOk result (IsCostOf terms pattern.now mode (chars text.now)) }
{
    let text = codes_of(alloc, text)?;
    if text.len() > MOST_TEXT_CODES {
        return Ok(Answer::TextTooLong);
    }
    let answer = read_answer(alloc, pattern, terms, mode, &text);
    drop(text);
    answer
}

/// Returns the answer to a question `cost` about the string of a family.
///
/// # Errors
/// [`OutOfMemory`] if there was no memory for the answer.
pub(crate) fn family_answer(
    alloc: Global,
    pattern: &str,
    terms: Terms,
    mode: Mode,
    heads: &[Value],
    pumps: &[Value],
    k: u32,
) -> Result<Answer, OutOfMemory>
    requires heads { AreTexts terms.universe (texts_of (items_view heads.now)) }
    requires pumps { AreTexts terms.universe (texts_of (items_view pumps.now)) }
    requires one_more { length (texts_of (items_view heads.now)) ≡ length (texts_of (items_view pumps.now)) + 1 }
    ensures { IfOk result (IsCostOf terms pattern.now mode (family_text (family_named (texts_of (items_view heads.now)) (texts_of (items_view pumps.now))) k)) }
{
    match text_for(alloc, heads, pumps, k) {
        Ok(text) => {
            let answer = read_answer(alloc, pattern, terms, mode, &text);
            drop(text);
            answer
        }
        Err(TextError::TooLong) => Ok(Answer::TextTooLong),
        Err(TextError::OutOfMemory) => Err(OutOfMemory),
    }
}
