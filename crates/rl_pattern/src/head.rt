//! The reader within the head of a group, which goes from its parenthesis up to its body. The answer of a head to a character
//! is that the character can't continue it (`Stops`), the next state within it (`Goes`), or what the head begins if the
//! character completes it (`Ends`).

ghost use Rattle.std.specs.Prelude.{◌≡◌, ℕ, Bool, [], ◌∷◌, ◌++◌, if◌then◌else◌, IfOk};
ghost use Rattle.rl_pattern.specs.Codes.{is};
ghost use Rattle.rl_pattern.specs.internal.Machine.{head_step, quest_next, after_less_next, behind_paren};

use crate::codes::{begins_name, goes_in_name, headed, is_digit, off_letter, on_letter};
use crate::flags::{Flags, no_flags, with_letter};
use crate::lex::{Answer, GroupPrefix, GroupStart, InHead};
use crate::tree::Kind;
use rl_lists::{Items, OutOfMemory};
use std::alloc::Global;

type HeadAnswer = Answer<InHead, GroupStart>;

/// Whether only the parenthesis of the head has been read.
pub(crate) fn behind_paren(head: &InHead) -> bool
    ensures { result ≡ behind_paren head.now }
{
    match head {
        InHead::Paren => true,
        InHead::Quest
        | InHead::AfterP
        | InHead::AfterLess
        | InHead::GroupName
        | InHead::GroupNameGoes(_)
        | InHead::ReferenceName
        | InHead::ReferenceNameGoes
        | InHead::Asks
        | InHead::AsksDigits
        | InHead::AsksNameGoes
        | InHead::LettersOn(_)
        | InHead::LettersDash(_)
        | InHead::LettersOff(_, _) => false,
    }
}

/// Returns the answer of a head that this character, `=` or `!`, completes: it begins a lookbehind if `behind` is `true`,
/// otherwise a lookahead.
fn looks(behind: bool, code: u32) -> HeadAnswer
    ensures { result ≡ Answer.Ends (GroupStart.BeginsGroup (Kind.Lookaround behind (is "!" code))) }
{
    Answer::Ends(GroupStart::BeginsGroup(Kind::Lookaround {
        behind,
        negated: code == '!' as u32,
    }))
}

/// Returns the answer of a head to the character after `(?`, given its class.
fn quest_next(next: GroupPrefix, code: u32) -> HeadAnswer
    ensures { result ≡ quest_next next code }
{
    match next {
        GroupPrefix::Letter => Answer::Goes(InHead::LettersOn(with_letter(no_flags(), code))),
        GroupPrefix::Colon => Answer::Ends(GroupStart::BeginsGroup(Kind::Scoped(
            no_flags(),
            no_flags(),
        ))),
        GroupPrefix::Minus => Answer::Goes(InHead::LettersDash(no_flags())),
        GroupPrefix::LetterP => Answer::Goes(InHead::AfterP),
        GroupPrefix::Sharps => Answer::Ends(GroupStart::BeginsComment),
        GroupPrefix::Looks => looks(false, code),
        GroupPrefix::Less => Answer::Goes(InHead::AfterLess),
        GroupPrefix::Greater => Answer::Ends(GroupStart::BeginsGroup(Kind::Atomic)),
        GroupPrefix::Condition => Answer::Goes(InHead::Asks),
        GroupPrefix::NoHead => Answer::Stops,
    }
}

/// Returns the answer of a head to the character after `(?<`, given its class.
fn after_less_next(next: GroupPrefix, code: u32) -> HeadAnswer
    ensures { result ≡ after_less_next next code }
{
    match next {
        GroupPrefix::Looks => looks(true, code),
        GroupPrefix::Letter
        | GroupPrefix::Colon
        | GroupPrefix::Minus
        | GroupPrefix::LetterP
        | GroupPrefix::Sharps
        | GroupPrefix::Less
        | GroupPrefix::Greater
        | GroupPrefix::Condition
        | GroupPrefix::NoHead => Answer::Stops,
    }
}

/// Returns the answer of a head to a character after flag letters.
fn letters_next(letters: Flags, code: u32) -> HeadAnswer
    ensures { (text : Bool) → result ≡ head_step text (InHead.LettersOn letters) code }
{
    if code == ':' as u32 {
        return Answer::Ends(GroupStart::BeginsGroup(Kind::Scoped(letters, no_flags())));
    }
    if code == ')' as u32 {
        return Answer::Ends(GroupStart::IsFront(letters));
    }
    if code == '-' as u32 {
        return Answer::Goes(InHead::LettersDash(letters));
    }
    if on_letter(code) {
        Answer::Goes(InHead::LettersOn(with_letter(letters, code)))
    } else {
        Answer::Stops
    }
}

/// Returns the answer of a head that goes on in this state if `goes` is `true`, and stops otherwise.
fn goes_if(goes: bool, head: InHead) -> HeadAnswer
    ensures { result ≡ (if goes then Answer.Goes head else Answer.Stops) }
{
    if goes {
        Answer::Goes(head)
    } else {
        Answer::Stops
    }
}

/// Returns the answer of a head to a character of a group's name. If `goes` is `true`, it is appended to the name. Otherwise
/// the head stops.
fn name_goes(goes: bool, mut name: Items<u32>, code: u32) -> Result<HeadAnswer, OutOfMemory>
    ensures { IfOk result (λ answer. answer ≡ (if goes then Answer.Goes (InHead.GroupNameGoes (name ++ code ∷ [])) else Answer.Stops)) }
{
    if !goes {
        drop(name);
        return Ok(Answer::Stops);
    }
    let Ok(()) = name.push(code) else {
        drop(name);
        return Err(OutOfMemory);
    };
    Ok(Answer::Goes(InHead::GroupNameGoes(name)))
}

/// Returns the answer of a head to a character after the start of a group's name. `text` says whether the pattern is a `str`.
fn group_name_next(text: bool, name: Items<u32>, code: u32) -> Result<HeadAnswer, OutOfMemory>
    ensures { IfOk result (λ answer. answer ≡ head_step text (InHead.GroupNameGoes name) code) }
{
    if code == '>' as u32 {
        Ok(Answer::Ends(GroupStart::BeginsGroup(Kind::Named(name))))
    } else {
        name_goes(goes_in_name(text, code), name, code)
    }
}

/// Returns the answer of a head to a character in the condition of a conditional group. If the character isn't a `)`, the head
/// goes on in this state if `goes` is `true`, and stops otherwise.
fn asks_next(code: u32, goes: bool, head: InHead) -> HeadAnswer
    ensures { result ≡ (if is ")" code then Answer.Ends (GroupStart.BeginsGroup Kind.Conditional) else (if goes then Answer.Goes head else Answer.Stops)) }
{
    if code == ')' as u32 {
        Answer::Ends(GroupStart::BeginsGroup(Kind::Conditional))
    } else {
        goes_if(goes, head)
    }
}

/// Returns the answer of a head in this state to the next character. `text` says whether the pattern is a `str`.
pub(crate) fn head_step(
    alloc: Global,
    text: bool,
    head: InHead,
    code: u32,
) -> Result<HeadAnswer, OutOfMemory>
    ensures { IfOk result (λ answer. answer ≡ head_step text head code) }
{
    match head {
        InHead::Paren => Ok(goes_if(code == '?' as u32, InHead::Quest)),
        InHead::Quest => Ok(quest_next(headed(code), code)),
        InHead::AfterP => {
            if code == '<' as u32 {
                Ok(Answer::Goes(InHead::GroupName))
            } else {
                Ok(goes_if(code == '=' as u32, InHead::ReferenceName))
            }
        }
        InHead::AfterLess => Ok(after_less_next(headed(code), code)),
        InHead::GroupName => name_goes(begins_name(text, code), Items::new(alloc), code),
        InHead::GroupNameGoes(name) => group_name_next(text, name, code),
        InHead::ReferenceName => Ok(goes_if(begins_name(text, code), InHead::ReferenceNameGoes)),
        InHead::ReferenceNameGoes => {
            if code == ')' as u32 {
                Ok(Answer::Ends(GroupStart::IsReference))
            } else {
                Ok(goes_if(goes_in_name(text, code), InHead::ReferenceNameGoes))
            }
        }
        InHead::Asks => {
            if is_digit(code) {
                Ok(Answer::Goes(InHead::AsksDigits))
            } else {
                Ok(goes_if(begins_name(text, code), InHead::AsksNameGoes))
            }
        }
        InHead::AsksDigits => Ok(asks_next(code, is_digit(code), InHead::AsksDigits)),
        InHead::AsksNameGoes => Ok(asks_next(code, goes_in_name(text, code), InHead::AsksNameGoes)),
        InHead::LettersOn(letters) => Ok(letters_next(letters, code)),
        InHead::LettersDash(letters) => Ok(goes_if(
            off_letter(code),
            InHead::LettersOff(letters, with_letter(no_flags(), code)),
        )),
        InHead::LettersOff(letters, off) => {
            if code == ':' as u32 {
                Ok(Answer::Ends(GroupStart::BeginsGroup(Kind::Scoped(letters, off))))
            } else {
                Ok(goes_if(
                    off_letter(code),
                    InHead::LettersOff(letters, with_letter(off, code)),
                ))
            }
        }
    }
}
