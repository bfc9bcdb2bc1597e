//! The states of the reader within a construct, and the classes of characters that decide how it goes on. A construct is what
//! the reader is in the middle of, such as an escape, a class or the head of a group. A side is one end of a range, or a
//! member of a class that is no range. Positions count codes from 0.

use crate::flags::Flags;
use crate::tree::{Assertion, Count, Escaped, Kind, Member};
use rl_lists::Items;
use rl_ranges::Named;

/// The class of a character between items.
#[derive(Clone, Copy)]
pub(crate) enum TokenClass {
    /// `(`.
    Left,
    /// `)`.
    Right,
    /// `|`.
    Bar,
    /// `{`.
    Brace,
    /// A backslash.
    Slash,
    /// `.`.
    Dot,
    /// `[`.
    Bracket,
    /// `*`, `+` or `?`, with its minimum and maximum.
    Times(Count),
    /// `^` or `$`, as this anchor.
    Edge(Assertion),
    /// White space.
    Blank,
    /// `#`.
    Sharp,
    /// Any other character.
    Plain,
}

/// The class of a character as a digit.
#[derive(Clone, Copy)]
pub(crate) enum Numeral {
    /// A digit from 0 to 7, with its value.
    LowDigit(u32),
    /// 8 or 9.
    HighDigit,
    /// Not a digit.
    NoDigit,
}

/// The meaning of a character after a backslash.
#[derive(Clone, Copy)]
pub(crate) enum EscapeClass {
    /// The escape denotes this code.
    Single(u32),
    /// A named class, or its complement if the flag is `true`.
    Kinds(Named, bool),
    /// This many hexadecimal digits follow.
    Hexes(u32),
    /// A name in braces follows.
    Naming,
    /// A digit from 0 to 7 with this value, which begins an octal number of up to three digits.
    Octal(u32),
    /// A digit from 1 to 7 with this value, which begins three octal digits or a reference.
    Low(u32),
    /// 8 or 9, which begins a reference.
    High,
    /// This anchor or word boundary.
    Edges(Assertion),
    /// Not an escape.
    NoEscape,
}

/// The class of a character after `(?`.
#[derive(Clone, Copy)]
pub(crate) enum GroupPrefix {
    /// A flag letter.
    Letter,
    /// `:`.
    Colon,
    /// `-`.
    Minus,
    /// `P`.
    LetterP,
    /// `#`.
    Sharps,
    /// `<`.
    Less,
    /// `>`.
    Greater,
    /// `(`.
    Condition,
    /// `=` or `!`.
    Looks,
    /// Any other character.
    NoHead,
}

/// The answer of a construct to one character.
#[derive(Drop)]
pub(crate) enum Answer<S, A> {
    /// The character can't continue the construct.
    Stops,
    /// The construct continues in this state.
    Goes(S),
    /// The construct is complete, with this result.
    Ends(A),
}

/// The state within an escape, after the character that follows its backslash.
#[derive(Clone, Copy)]
pub(crate) enum InEscape {
    /// The first number says how many hexadecimal digits are missing, the second is the value of those that were read.
    InHex(u32, u32),
    /// After `\N`.
    NameBrace,
    /// After `\N{`.
    NameBegins,
    /// After a character of the name.
    NameGoes,
    /// The first number says how many more octal digits may follow, the second is the value of those that were read.
    InOctal(u32, u32),
    /// After a first digit from 1 to 7 with this value.
    AfterLow(u32),
    /// After a first digit 8 or 9.
    AfterHigh,
    /// After two octal digits with this value together, which are a reference unless a third one follows.
    AfterTwo(u32),
}

/// The state within a class, after the members before.
#[derive(Clone, Copy)]
pub(crate) enum InSet {
    /// Before the first member.
    SetFirst,
    /// Before a further member or the end.
    SetNext,
    /// After a backslash at this position.
    SetSlash(u32),
    /// Within an escape that began at this position, in this state.
    SetEscape(u32, InEscape),
    /// After one side of a member, which began at this position and has this meaning.
    SetSide(u32, Escaped),
    /// After a side that began at the first position and has this meaning, and a `-` at the second position.
    SetDash(u32, u32, Escaped),
    /// After a side that began at this position and has this meaning, a `-` and a backslash.
    DashSlash(u32, Escaped),
    /// After a side that began at this position and has this meaning, and a `-`: within an escape, in this state.
    DashEscape(u32, Escaped, InEscape),
}

/// The members of a class that have been read, and the state within the class.
#[derive(Drop)]
pub(crate) struct Set {
    /// The members that have been read.
    pub(crate) before: Items<Member>,
    /// The state within the class.
    pub(crate) part: InSet,
}

/// The state within the head of a group, after its parenthesis.
#[derive(Drop)]
pub(crate) enum InHead {
    /// After `(`.
    Paren,
    /// After `(?`.
    Quest,
    /// After `(?P`.
    AfterP,
    /// After `(?<`.
    AfterLess,
    /// After `(?P<`.
    GroupName,
    /// Within the name of a group, of which these codes were read.
    GroupNameGoes(Items<u32>),
    /// After `(?P=`.
    ReferenceName,
    /// Within the name in a reference.
    ReferenceNameGoes,
    /// After `(?(`.
    Asks,
    /// Within the group number of a conditional.
    AsksDigits,
    /// Within the group name of a conditional.
    AsksNameGoes,
    /// After flag letters, which have these flags.
    LettersOn(Flags),
    /// After any flag letters, which have these flags, and `-`.
    LettersDash(Flags),
    /// After any flag letters, which have the first flags, `-`, and further letters, which have the second flags.
    LettersOff(Flags, Flags),
}

/// What the head of a group turns out to begin.
#[derive(Drop)]
pub(crate) enum GroupStart {
    /// A group of this kind.
    BeginsGroup(Kind),
    /// A comment.
    BeginsComment,
    /// A reference to a named group.
    IsReference,
    /// A flag group with these flags.
    IsFront(Flags),
}

/// The state within the repeat count of a quantifier in braces.
#[derive(Clone, Copy)]
pub(crate) enum CountPart {
    /// Before or within the digits of the minimum, which have this value so far.
    Least(u32),
    /// After this minimum and a comma.
    Upper(u32),
    /// After this minimum and a comma, within the digits of the maximum, which have the second value so far.
    Most(u32, u32),
}
