//! The reader of patterns, one character at a time. A function that reads a character returns what the reader is in the middle
//! of afterwards, or `None` if no pattern can continue with the character. What has been read is added to `base`. Positions
//! count codes from 0.

ghost use Rattle.std.specs.Prelude.{◌≡◌, ℕ, ◌<◌, ◌^◌, ◌-◌, ◌+◌, suc, length, IfOk, Some};
ghost use Rattle.rl_pattern.specs.internal.Views.{node_of, base_of, lex_of, state_with, FitsAt};
ghost use Rattle.rl_pattern.specs.Codes.{sign, counts};
ghost use Rattle.rl_pattern.specs.internal.Machine as m;
ghost use Rattle.rl_pattern.specs.Tree as t;

use crate::base::{
    close, count_last, no_count, open_group, put_front, put_item, put_leaf, put_repeat, split,
};
use crate::codes::{counts, sign, slashed};
use crate::count::count_of;
use crate::escape::{escape_first, escape_next, escape_rest};
use crate::head::{behind_paren, head_step};
use crate::lex::{Answer, EscapeClass, GroupStart, InEscape, InHead, InSet, Set, TokenClass};
use crate::set::set_step;
use crate::state::{Base, Lex};
use crate::tree::{Assertion, Count, Escaped, Greed, Kind, Leaf, SyntaxNode};
use rl_lists::{Items, OutOfMemory};
use rl_syntax::Span;
use std::alloc::Global;

/// Adds a leaf from `from` up to `upto`. The reader is between items afterwards.
fn leaf_between(
    base: &mut Base,
    from: u32,
    upto: u32,
    leaf: Leaf,
) -> Result<Option<Lex>, OutOfMemory>
    ensures { IfOk result (λ found. state_with (base_of base.new) found ≡ Some (m.at (m.put_leaf (base_of base.old) from upto leaf) m.between)) }
{
    put_leaf(base, from, upto, leaf)?;
    Ok(Some(Lex::Between))
}

/// Adds an anchor or a word boundary from `from` up to `upto`. The reader is between items afterwards.
fn put_mark(
    base: &mut Base,
    from: u32,
    upto: u32,
    mark: Assertion,
) -> Result<Option<Lex>, OutOfMemory>
    ensures { IfOk result (λ found. state_with (base_of base.new) found ≡ Some (m.at (m.put_item (base_of base.old) (t.mark (t.span from upto) (base_of base.old).top.flags mark)) m.between)) }
{
    let flags = base.top.flags;
    put_item(
        base,
        SyntaxNode::Assertion(Span { from, upto }, flags, mark),
    )?;
    Ok(Some(Lex::Between))
}

/// Reads the character at `i` between items.
#[tactic(auto, unfolding(crate::specs::internal::Machine::go_on))]
fn go_on(alloc: Global, i: u32, base: &mut Base, code: u32) -> Result<Option<Lex>, OutOfMemory>
    requires { i < 2 ^ 32 - 1 }
    ensures { IfOk result (λ found. state_with (base_of base.new) found ≡ m.go_on i (base_of base.old) code) }
{
    match sign(code) {
        TokenClass::Left => Ok(Some(Lex::InHead(i, InHead::Paren))),
        TokenClass::Right => close(alloc, base, i),
        TokenClass::Bar => split(alloc, base, i),
        TokenClass::Brace => Ok(Some(Lex::InBraces(i, Items::new(alloc)))),
        TokenClass::Slash => Ok(Some(Lex::AtSlash(i))),
        TokenClass::Dot => leaf_between(base, i, i + 1, Leaf::Any),
        TokenClass::Bracket => Ok(Some(Lex::SetOpen(i))),
        TokenClass::Times(count) => Ok(count_last(base, i, count)),
        TokenClass::Edge(mark) => put_mark(base, i, i + 1, mark),
        TokenClass::Blank if base.top.flags.verbose => Ok(Some(Lex::Between)),
        TokenClass::Sharp if base.top.flags.verbose => Ok(Some(Lex::Line)),
        TokenClass::Blank | TokenClass::Sharp | TokenClass::Plain => {
            leaf_between(base, i, i + 1, Leaf::Glyph(Escaped::Code(code)))
        }
    }
}

/// Reads the `}` at `i` that follows a brace at `from` and this text, given the count that the text spells, or `None` if it
/// spells none.
fn end_braces(
    i: u32,
    base: &mut Base,
    from: u32,
    text: &[u32],
    count: Option<Count>,
) -> Result<Option<Lex>, OutOfMemory>
    requires room { i < 2 ^ 32 - 1 }
    requires fits { i ≡ suc from + length text.now }
    ensures { IfOk result (λ found. state_with (base_of base.new) found ≡ m.end_braces i (base_of base.old) from text.now count) }
{
    match count {
        None => {
            no_count(base, from, text)?;
            leaf_between(base, i, i + 1, Leaf::Glyph(Escaped::Code('}' as u32)))
        }
        Some(count) => Ok(count_last(base, from, count)),
    }
}

/// Reads the character at `i` after a brace at `from` and this text.
fn braces_step(
    alloc: Global,
    i: u32,
    base: &mut Base,
    from: u32,
    mut text: Items<u32>,
    code: u32,
) -> Result<Option<Lex>, OutOfMemory>
    requires room { i < 2 ^ 32 - 1 }
    requires fits { i ≡ suc from + length text }
    ensures { IfOk result (λ found. state_with (base_of base.new) found ≡ m.braces_step i (base_of base.old) from text code) }
{
    if code == '}' as u32 {
        let count = count_of(text.as_slice());
        let ended = end_braces(i, base, from, text.as_slice(), count);
        drop(text);
        return ended;
    }
    if counts(code) {
        let Ok(()) = text.push(code) else {
            drop(text);
            return Err(OutOfMemory);
        };
        return Ok(Some(Lex::InBraces(from, text)));
    }
    let put = no_count(base, from, text.as_slice());
    drop(text);
    put?;
    go_on(alloc, i, base, code)
}

/// Adds an atom that began at `from`, with its quantifier, which has the span `mark`. The reader is between items afterwards.
fn repeat_between(
    alloc: Global,
    base: &mut Base,
    from: u32,
    atom: SyntaxNode,
    mark: Span,
    count: Count,
    greed: Greed,
) -> Result<Option<Lex>, OutOfMemory>
    ensures { IfOk result (λ found. state_with (base_of base.new) found ≡ Some (m.at (m.put_repeat (base_of base.old) from (node_of atom) mark.from mark.upto count greed) m.between)) }
{
    put_repeat(alloc, base, from, atom, mark, count, greed)?;
    Ok(Some(Lex::Between))
}

/// Reads the character at `i` after an atom that began at `from` and a quantifier that began at `mark`.
fn counted_step(
    alloc: Global,
    i: u32,
    base: &mut Base,
    from: u32,
    atom: SyntaxNode,
    mark: u32,
    count: Count,
    code: u32,
) -> Result<Option<Lex>, OutOfMemory>
    requires { i < 2 ^ 32 - 1 }
    ensures { IfOk result (λ found. state_with (base_of base.new) found ≡ m.counted_step i (base_of base.old) from (node_of atom) mark count code) }
{
    let longer = Span {
        from: mark,
        upto: i + 1,
    };
    if code == '?' as u32 {
        return repeat_between(alloc, base, from, atom, longer, count, Greed::Lazy);
    }
    if code == '+' as u32 {
        return repeat_between(alloc, base, from, atom, longer, count, Greed::Possessive);
    }
    let span = Span {
        from: mark,
        upto: i,
    };
    put_repeat(alloc, base, from, atom, span, count, Greed::Greedy)?;
    go_on(alloc, i, base, code)
}

/// Reads the character at `i` after a backslash at `from`, given the answer of the escape to it.
fn escape_begins(
    i: u32,
    base: &mut Base,
    from: u32,
    answer: Answer<InEscape, Escaped>,
) -> Result<Option<Lex>, OutOfMemory>
    requires { i < 2 ^ 32 - 1 }
    ensures { IfOk result (λ found. state_with (base_of base.new) found ≡ m.escape_begins i (base_of base.old) from answer) }
{
    match answer {
        Answer::Stops => Ok(None),
        Answer::Goes(within) => Ok(Some(Lex::InEscape(from, within))),
        Answer::Ends(escaped) => leaf_between(base, from, i + 1, Leaf::Glyph(escaped)),
    }
}

/// Reads the character at `i` after a backslash at `from`, given what it means there.
fn slash_step(
    i: u32,
    base: &mut Base,
    from: u32,
    slashed: EscapeClass,
) -> Result<Option<Lex>, OutOfMemory>
    requires { i < 2 ^ 32 - 1 }
    ensures { IfOk result (λ found. state_with (base_of base.new) found ≡ m.slash_step i (base_of base.old) from slashed) }
{
    match slashed {
        EscapeClass::Edges(mark) => put_mark(base, from, i + 1, mark),
        EscapeClass::NoEscape
        | EscapeClass::Single(_)
        | EscapeClass::Kinds(_, _)
        | EscapeClass::Hexes(_)
        | EscapeClass::Naming
        | EscapeClass::Octal(_)
        | EscapeClass::Low(_)
        | EscapeClass::High => escape_begins(i, base, from, escape_first(slashed)),
    }
}

/// Reads the character at `i` in an escape that began at `from`. The escape may have ended before it.
fn escape_step(
    alloc: Global,
    i: u32,
    base: &mut Base,
    from: u32,
    within: InEscape,
    code: u32,
) -> Result<Option<Lex>, OutOfMemory>
    requires { i < 2 ^ 32 - 1 }
    ensures { IfOk result (λ found. state_with (base_of base.new) found ≡ m.escape_step i (base_of base.old) from (m.escape_next within code) (m.escape_rest within) code) }
{
    match escape_next(within, code) {
        Answer::Stops => match escape_rest(within) {
            None => Ok(None),
            Some(escaped) => {
                put_leaf(base, from, i, Leaf::Glyph(escaped))?;
                go_on(alloc, i, base, code)
            }
        },
        Answer::Goes(within) => Ok(Some(Lex::InEscape(from, within))),
        Answer::Ends(escaped) => leaf_between(base, from, i + 1, Leaf::Glyph(escaped)),
    }
}

/// Completes the head of a group from `from` up to `upto`, given what it begins.
fn begin(
    alloc: Global,
    base: &mut Base,
    from: u32,
    upto: u32,
    begun: GroupStart,
) -> Result<Option<Lex>, OutOfMemory>
    ensures { IfOk result (λ found. state_with (base_of base.new) found ≡ m.begin (base_of base.old) from upto begun) }
{
    match begun {
        GroupStart::BeginsGroup(kind) => {
            open_group(alloc, base, from, upto, kind)?;
            Ok(Some(Lex::Between))
        }
        GroupStart::BeginsComment => Ok(Some(Lex::Comment)),
        GroupStart::IsReference => {
            leaf_between(base, from, upto, Leaf::Glyph(Escaped::Reference))
        }
        GroupStart::IsFront(letters) => put_front(base, from, upto, letters),
    }
}

/// Reads the character at `i`, which doesn't continue the head of a group from `from`. If `opens` is `true`, only the
/// parenthesis was read, and it opens a capturing group.
fn head_stops(
    alloc: Global,
    i: u32,
    base: &mut Base,
    from: u32,
    opens: bool,
    code: u32,
) -> Result<Option<Lex>, OutOfMemory>
    requires { i < 2 ^ 32 - 1 }
    ensures { IfOk result (λ found. state_with (base_of base.new) found ≡ m.head_stops i (base_of base.old) from opens code) }
{
    if !opens {
        return Ok(None);
    }
    open_group(alloc, base, from, i, Kind::Capturing)?;
    go_on(alloc, i, base, code)
}

/// Reads the character at `i` in the head of a group that began at `from`.
fn in_head_step(
    alloc: Global,
    text: bool,
    i: u32,
    base: &mut Base,
    from: u32,
    head: InHead,
    code: u32,
) -> Result<Option<Lex>, OutOfMemory>
    requires { i < 2 ^ 32 - 1 }
    ensures { IfOk result (λ found. state_with (base_of base.new) found ≡ m.head_answer i (base_of base.old) from head (m.head_step text head code) code) }
{
    let opens = behind_paren(&head);
    match head_step(alloc, text, head, code)? {
        Answer::Stops => head_stops(alloc, i, base, from, opens, code),
        Answer::Goes(head) => Ok(Some(Lex::InHead(from, head))),
        Answer::Ends(begun) => begin(alloc, base, from, i + 1, begun),
    }
}

/// Reads the character at `i` in a class that began at `from`. `inverse` says whether the class begins with `^`.
fn class_step(
    text: bool,
    i: u32,
    base: &mut Base,
    from: u32,
    inverse: bool,
    set: Set,
    code: u32,
) -> Result<Option<Lex>, OutOfMemory>
    requires { i < 2 ^ 32 - 1 }
    ensures { IfOk result (λ found. state_with (base_of base.new) found ≡ m.set_answer i (base_of base.old) from inverse (m.set_step text i set.before set.part code)) }
{
    let Set { before, part } = set;
    match set_step(text, i, before, part, code)? {
        Answer::Stops => Ok(None),
        Answer::Goes(set) => Ok(Some(Lex::InClass(from, inverse, set))),
        Answer::Ends(members) => {
            leaf_between(base, from, i + 1, Leaf::Members(inverse, members))
        }
    }
}

/// Reads the character at `i` after the bracket of a class at `from`.
fn set_opens(
    alloc: Global,
    text: bool,
    i: u32,
    base: &mut Base,
    from: u32,
    code: u32,
) -> Result<Option<Lex>, OutOfMemory>
    requires { i < 2 ^ 32 - 1 }
    ensures { IfOk result (λ found. state_with (base_of base.new) found ≡ m.set_opens text i (base_of base.old) from code) }
{
    let set = Set {
        before: Items::new(alloc),
        part: InSet::SetFirst,
    };
    if code == '^' as u32 {
        Ok(Some(Lex::InClass(from, true, set)))
    } else {
        class_step(text, i, base, from, false, set, code)
    }
}

/// Reads the character at `i`, which must be less than 2^32 - 1. Within braces, `i` must be the position after the text that
/// was read. Returns what the reader is in the middle of afterwards, or `None` if no pattern can continue with the character.
/// `text` says whether the pattern is a `str`.
pub(crate) fn step(
    alloc: Global,
    text: bool,
    i: u32,
    base: &mut Base,
    lex: Lex,
    code: u32,
) -> Result<Option<Lex>, OutOfMemory>
    requires room { i < 2 ^ 32 - 1 }
    requires fits { FitsAt (lex_of lex) i }
    ensures { IfOk result (λ found. state_with (base_of base.new) found ≡ m.step text i (base_of base.old) (lex_of lex) code) }
{
    match lex {
        Lex::Between => go_on(alloc, i, base, code),
        Lex::Line => {
            if code == '\n' as u32 {
                Ok(Some(Lex::Between))
            } else {
                Ok(Some(Lex::Line))
            }
        }
        Lex::Comment => {
            if code == ')' as u32 {
                Ok(Some(Lex::Between))
            } else {
                Ok(Some(Lex::Comment))
            }
        }
        Lex::InBraces(from, text) => braces_step(alloc, i, base, from, text, code),
        Lex::Counted(from, atom, mark, count) => {
            counted_step(alloc, i, base, from, atom, mark, count, code)
        }
        Lex::AtSlash(from) => slash_step(i, base, from, slashed(text, false, code)),
        Lex::InEscape(from, within) => escape_step(alloc, i, base, from, within, code),
        Lex::InHead(from, head) => in_head_step(alloc, text, i, base, from, head, code),
        Lex::SetOpen(from) => set_opens(alloc, text, i, base, from, code),
        Lex::InClass(from, inverse, set) => class_step(text, i, base, from, inverse, set, code),
    }
}
