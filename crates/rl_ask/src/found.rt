//! How questions `found` are answered: by the match that the pattern finds on the text.

ghost use Rattle.std.specs.Prelude.{◌≡◌, ◌≤◌, IfErr, IfOk, length, option_map};
ghost use Rattle.std.specs.Str.{chars};
ghost use Rattle.rl_syntax.specs.declared.re.Mode.TheVariants.{Search};
ghost use Rattle.rl_spans.specs.Limits.{IsCauseAlone};
ghost use Rattle.rl_spans.specs.Sights.{sight_of};
ghost use Rattle.rl_ask.specs.Finds.{IsFoundOn, IsSight, found_as};
ghost use Rattle.rl_ask.specs.Grammars.{grammar_of_finds};
ghost use Rattle.rl_ask.specs.Patterns.{ReadThen};

use crate::answer::{Answer, Limit, Which};
use crate::codes::codes_of;
use crate::grammar::grammar_of_finds;
use crate::patterns::{MarkedRead, PatternRead, mark_pattern, read_pattern};
use crate::spans::limit_of;
use rl_asked::Terms;
use rl_lists::{Codes, OutOfMemory};
use rl_marks::{How, MarkedPattern};
use rl_spans::{Sight, SpansError, found_by};
use rl_syntax::{Mode, Pattern};
use std::alloc::Global;

/// A place in a text from which a pattern is asked.
#[derive(Clone, Copy)]
pub(crate) struct Asking {
    /// The mode in which it is asked.
    pub(crate) mode: Mode,
    /// The position, at most the length of the text.
    pub(crate) from: usize,
    /// Whether a match at this position counts only if it isn't empty.
    pub(crate) advance: bool,
}

/// Returns the first match that begins at the position or later.
fn searched(
    alloc: Global,
    pattern: &MarkedPattern,
    text: &[u32],
    asking: Asking,
) -> Result<Option<Sight>, SpansError>
    requires within { asking.from ≤ length text.now }
    ensures found { IfOk result (λ s. s ≡ option_map (sight_of pattern.now.groups) (found_as Search pattern.now text.now asking.advance asking.from)) }
    ensures causes { IfErr result (IsCauseAlone pattern.now text.now) }
{
    let mut advance = asking.advance;
    for place in asking.from..text.len() {
        if let Some(sight) = found_by(alloc, pattern, How::Match, text, advance, place)? {
            return Ok(Some(sight));
        }
        advance = false;
    }
    found_by(alloc, pattern, How::Match, text, advance, text.len())
}

/// Returns what a pattern with its groups finds.
fn seen(
    alloc: Global,
    pattern: &MarkedPattern,
    text: &[u32],
    asking: Asking,
) -> Result<Option<Sight>, SpansError>
    requires within { asking.from ≤ length text.now }
    ensures found { IfOk result (λ s. s ≡ option_map (sight_of pattern.now.groups) (found_as asking.mode pattern.now text.now asking.advance asking.from)) }
    ensures causes { IfErr result (IsCauseAlone pattern.now text.now) }
{
    let Asking {
        mode,
        from,
        advance,
    } = asking;
    match mode {
        Mode::Fullmatch => found_by(alloc, pattern, How::Fullmatch, text, advance, from),
        Mode::Match => found_by(alloc, pattern, How::Match, text, advance, from),
        Mode::Search if from == 0 && !advance => {
            found_by(alloc, pattern, How::OneSearch, text, false, 0)
        }
        Mode::Search => searched(alloc, pattern, text, asking),
    }
}

/// Returns the answer for a pattern with its groups.
fn marked_answer(
    alloc: Global,
    pattern: &MarkedPattern,
    text: &Codes,
    asking: Asking,
) -> Result<Answer, OutOfMemory>
    requires within { asking.from ≤ length text.now }
    ensures { IfOk result (IsSight asking.mode pattern.now text.now asking.advance asking.from) }
{
    match seen(alloc, pattern, text.as_slice(), asking) {
        Ok(sight) => Ok(Answer::Found(sight)),
        Err(error) => match limit_of(error) {
            Some(limit) => Ok(Answer::Undecided(limit)),
            None => Err(OutOfMemory),
        },
    }
}

/// Returns the answer for a pattern.
fn pattern_answer(
    alloc: Global,
    pattern: &Pattern,
    text: &str,
    asking: Asking,
) -> Result<Answer, OutOfMemory>
    requires within { asking.from ≤ length (chars text.now) }
    ensures { IfOk result (IsFoundOn asking.mode (chars text.now) asking.advance asking.from pattern.now) }
{
    let text = codes_of(alloc, text)?;
    match mark_pattern(alloc, pattern, true)? {
        MarkedRead::Exceeds(limit) => Ok(Answer::Undecided(limit)),
        MarkedRead::Marked(pattern) => {
            let answer = marked_answer(alloc, &pattern, &text, asking);
            drop(pattern);
            answer
        }
    }
}

/// Returns the answer to a question `found`.
///
/// # Errors
/// [`OutOfMemory`] if there was no memory for the answer.
pub(crate) fn found_answer(
    alloc: Global,
    pattern: &str,
    terms: Terms,
    text: &str,
    asking: Asking,
) -> Result<Answer, OutOfMemory>
    requires within { asking.from ≤ length (chars text.now) }
    ensures { IfOk result (ReadThen grammar_of_finds terms pattern.now (IsFoundOn asking.mode (chars text.now) asking.advance asking.from)) }
{
    match read_pattern(alloc, pattern, terms, grammar_of_finds())? {
        PatternRead::Refused(fault) => Ok(Answer::Refused {
            which: Which::Only,
            fault,
        }),
        PatternRead::Read(pattern) => {
            let answer = pattern_answer(alloc, &pattern, text, asking);
            drop(pattern);
            answer
        }
    }
}
