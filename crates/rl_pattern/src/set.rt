//! The reader within a class, which is a set of characters in brackets. The answer of a class to a character is that the
//! character can't continue it (`Stops`), the next state within it (`Goes`), or its members if the character completes it
//! (`Ends`).

ghost use Rattle.std.specs.Prelude.{◌≡◌, ℕ, ◌<◌, ◌^◌, ◌-◌, [], ◌∷◌, ◌++◌, Some, IfOk};
ghost use Rattle.rl_pattern.specs.Codes.{code_of};
ghost use Rattle.rl_pattern.specs.Tree.{span, range, code as code_side};
ghost use Rattle.rl_pattern.specs.internal.Machine.{with_one, side_first, member_first, side_next, escape_in_set, escape_set_next, range_ends, escape_in_dash, escape_dash_next, dash_next, set_step, in_set};

use crate::codes::slashed;
use crate::escape::{escape_first, escape_next, escape_rest, is_kind};
use crate::lex::{Answer, InEscape, InSet, Set};
use crate::tree::{Escaped, Member};
use rl_lists::{Items, OutOfMemory};
use rl_syntax::Span;

type SetAnswer = Answer<Set, Items<Member>>;

/// Returns the members with one more at the end.
fn with_member(mut before: Items<Member>, member: Member) -> Result<Items<Member>, OutOfMemory>
    ensures { IfOk result (λ members. members ≡ before ++ member ∷ []) }
{
    let Ok(()) = before.push(member) else {
        drop(before);
        return Err(OutOfMemory);
    };
    Ok(before)
}

/// Returns the answer of a class that continues in this state.
fn in_set(before: Items<Member>, part: InSet) -> SetAnswer
    ensures { result ≡ in_set before part }
{
    Answer::Goes(Set { before, part })
}

/// Returns the answer of a class to the first character of a member, at position `i`.
fn side_first(i: u32, before: Items<Member>, code: u32) -> SetAnswer
    ensures { result ≡ side_first i before code }
{
    if code == '\\' as u32 {
        in_set(before, InSet::SetSlash(i))
    } else {
        in_set(before, InSet::SetSide(i, Escaped::Code(code)))
    }
}

/// Returns the answer of a class to the first character of a further member, or to the `]` that ends the class.
fn member_first(i: u32, before: Items<Member>, code: u32) -> SetAnswer
    ensures { result ≡ member_first i before code }
{
    if code == ']' as u32 {
        Answer::Ends(before)
    } else {
        side_first(i, before, code)
    }
}

/// Returns the answer of a class to the character at `i` after a side of a member, which began at `from`.
fn side_next(
    i: u32,
    before: Items<Member>,
    from: u32,
    side: Escaped,
    code: u32,
) -> Result<SetAnswer, OutOfMemory>
    ensures { IfOk result (λ answer. answer ≡ side_next i before from side code) }
{
    if code == '-' as u32 {
        return Ok(in_set(before, InSet::SetDash(from, i, side)));
    }
    let span = Span { from, upto: i };
    Ok(member_first(i, with_member(before, Member::One(span, side))?, code))
}

/// Returns the answer of a class to the end of a range from `from` up to `upto`. It stops if the last side is a named class.
fn range_ends(
    upto: u32,
    before: Items<Member>,
    from: u32,
    first: Escaped,
    last: Escaped,
) -> Result<SetAnswer, OutOfMemory>
    ensures { IfOk result (λ answer. answer ≡ range_ends upto before from first last) }
{
    if is_kind(last) {
        return Ok(Answer::Stops);
    }
    let range = Member::Range(Span { from, upto }, first, last);
    Ok(in_set(with_member(before, range)?, InSet::SetNext))
}

/// Returns the answer of a class to the character after a backslash that begins a member at `from`, given the answer of the
/// escape.
fn escape_in_set(before: Items<Member>, from: u32, answer: Answer<InEscape, Escaped>) -> SetAnswer
    ensures { result ≡ escape_in_set before from answer }
{
    match answer {
        Answer::Stops => Answer::Stops,
        Answer::Goes(within) => in_set(before, InSet::SetEscape(from, within)),
        Answer::Ends(side) => in_set(before, InSet::SetSide(from, side)),
    }
}

/// Returns the answer of a class to a character in an escape that began a member at `from`, given the answer of the escape. If
/// the escape stops, it may have ended before the character, with the result `rest`.
fn escape_set_next(
    i: u32,
    before: Items<Member>,
    from: u32,
    answer: Answer<InEscape, Escaped>,
    rest: Option<Escaped>,
    code: u32,
) -> Result<SetAnswer, OutOfMemory>
    ensures { IfOk result (λ found. found ≡ escape_set_next i before from answer rest code) }
{
    match answer {
        Answer::Stops => match rest {
            None => Ok(Answer::Stops),
            Some(side) => side_next(i, before, from, side, code),
        },
        Answer::Goes(within) => Ok(in_set(before, InSet::SetEscape(from, within))),
        Answer::Ends(side) => Ok(in_set(before, InSet::SetSide(from, side))),
    }
}

/// Returns the answer of a class to the character after a backslash that follows a side and a `-`, given the answer of the
/// escape.
fn escape_in_dash(
    i: u32,
    before: Items<Member>,
    from: u32,
    first: Escaped,
    answer: Answer<InEscape, Escaped>,
) -> Result<SetAnswer, OutOfMemory>
    requires { i < 2 ^ 32 - 1 }
    ensures { IfOk result (λ found. found ≡ escape_in_dash i before from first answer) }
{
    match answer {
        Answer::Stops => Ok(Answer::Stops),
        Answer::Goes(within) => Ok(in_set(before, InSet::DashEscape(from, first, within))),
        Answer::Ends(last) => range_ends(i + 1, before, from, first, last),
    }
}

/// Returns the answer of a class to the character at `i` after a range. It stops if the last side of the range is a named
/// class.
fn behind_range(
    i: u32,
    before: Items<Member>,
    from: u32,
    first: Escaped,
    last: Escaped,
    code: u32,
) -> Result<SetAnswer, OutOfMemory>
    ensures { IfOk result (λ found. found ≡ escape_dash_next i before from first Answer.Stops (Some last) code) }
{
    if is_kind(last) {
        return Ok(Answer::Stops);
    }
    let range = Member::Range(Span { from, upto: i }, first, last);
    Ok(member_first(i, with_member(before, range)?, code))
}

/// Returns the answer of a class to a character in an escape that follows a side and a `-`, given the answer of the escape. If
/// the escape stops, it may have ended before the character, with the result `rest`.
fn escape_dash_next(
    i: u32,
    before: Items<Member>,
    from: u32,
    first: Escaped,
    answer: Answer<InEscape, Escaped>,
    rest: Option<Escaped>,
    code: u32,
) -> Result<SetAnswer, OutOfMemory>
    requires { i < 2 ^ 32 - 1 }
    ensures { IfOk result (λ found. found ≡ escape_dash_next i before from first answer rest code) }
{
    match answer {
        Answer::Stops => match rest {
            None => Ok(Answer::Stops),
            Some(last) => behind_range(i, before, from, first, last, code),
        },
        Answer::Goes(within) => Ok(in_set(before, InSet::DashEscape(from, first, within))),
        Answer::Ends(last) => range_ends(i + 1, before, from, first, last),
    }
}

/// Returns the answer of a class to the `]` at `i` after a side and a `-` at `dash`: the class ends, and both are members of
/// their own.
fn ends_at_dash(
    i: u32,
    before: Items<Member>,
    from: u32,
    dash: u32,
    first: Escaped,
) -> Result<SetAnswer, OutOfMemory>
    ensures { IfOk result (λ found. found ≡ Answer.Ends (with_one (with_one before from dash first) dash i (code_side (code_of "-")))) }
{
    let side = Member::One(Span { from, upto: dash }, first);
    let dash = Member::One(
        Span {
            from: dash,
            upto: i,
        },
        Escaped::Code('-' as u32),
    );
    Ok(Answer::Ends(with_member(with_member(before, side)?, dash)?))
}

/// Returns the answer of a class to the character at `i` after a side and a `-` at `dash`.
fn dash_next(
    i: u32,
    before: Items<Member>,
    from: u32,
    dash: u32,
    first: Escaped,
    code: u32,
) -> Result<SetAnswer, OutOfMemory>
    requires { i < 2 ^ 32 - 1 }
    ensures { IfOk result (λ found. found ≡ dash_next i before from dash first code) }
{
    if code == ']' as u32 {
        return ends_at_dash(i, before, from, dash, first);
    }
    if is_kind(first) {
        return Ok(Answer::Stops);
    }
    if code == '\\' as u32 {
        return Ok(in_set(before, InSet::DashSlash(from, first)));
    }
    range_ends(i + 1, before, from, first, Escaped::Code(code))
}

/// Returns the answer of a class in the state `part`, after the members `before`, to the character at `i`, which must be less
/// than 2^32 - 1. `text` says whether the pattern is a `str`.
pub(crate) fn set_step(
    text: bool,
    i: u32,
    before: Items<Member>,
    part: InSet,
    code: u32,
) -> Result<SetAnswer, OutOfMemory>
    requires { i < 2 ^ 32 - 1 }
    ensures { IfOk result (λ found. found ≡ set_step text i before part code) }
{
    match part {
        InSet::SetFirst => Ok(side_first(i, before, code)),
        InSet::SetNext => Ok(member_first(i, before, code)),
        InSet::SetSlash(from) => {
            let answer = escape_first(slashed(text, true, code));
            Ok(escape_in_set(before, from, answer))
        }
        InSet::SetEscape(from, within) => {
            let answer = escape_next(within, code);
            escape_set_next(i, before, from, answer, escape_rest(within), code)
        }
        InSet::SetSide(from, side) => side_next(i, before, from, side, code),
        InSet::SetDash(from, dash, first) => dash_next(i, before, from, dash, first, code),
        InSet::DashSlash(from, first) => {
            let answer = escape_first(slashed(text, true, code));
            escape_in_dash(i, before, from, first, answer)
        }
        InSet::DashEscape(from, first, within) => {
            let answer = escape_next(within, code);
            escape_dash_next(i, before, from, first, answer, escape_rest(within), code)
        }
    }
}
