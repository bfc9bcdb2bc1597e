//! What the reader has read so far, and how to add to it. The open bodies are those of the groups that aren't closed yet, and
//! the outermost one. The open branch is the last branch of an open body. The last atom is the one that was read last in the
//! innermost open body, if a quantifier may still follow it. [`OutOfMemory`] is returned only if memory
//! runs out.

ghost use Rattle.std.specs.Prelude.{◌≡◌, ℕ, ◌+◌, ◌-◌, ◌<◌, ◌^◌, [], ◌∷◌, ◌++◌, length, map, reverse, IfOk, OnOk, suc};
ghost use Rattle.rl_pattern.specs.internal.Views.{node_of, branch_of, last_of, frame_of, base_of, state_with};
ghost use Rattle.rl_pattern.specs.Tree as t;
ghost use Rattle.rl_pattern.specs.Codes.{inside, splits, joined};
ghost use Rattle.rl_pattern.specs.internal.Machine as m;

use crate::flags::{Flags, joined, scoped_flags};
use crate::state::{Base, Frame, Last, Lex};
use crate::tree::{Branch, Count, Escaped, Front, Greed, Kind, Leaf, SyntaxNode};
use rl_lists::{Items, OutOfMemory};
use rl_syntax::Span;
use std::alloc::Global;
use std::mem;

/// Returns the body of a branch with these items: an empty body if there are none, the item itself if there is one, and
/// otherwise their sequence.
fn branch_body(place: Span, items: Items<SyntaxNode>) -> SyntaxNode
    ensures { node_of result ≡ t.branch_body place (map node_of items) }
{
    if 1 < items.len() {
        return SyntaxNode::Seq(place, items);
    }
    let mut items = items.into_vec();
    match items.pop() {
        Some(body) => body,
        None => SyntaxNode::Nothing(place),
    }
}

/// Returns the branch with this span and these items.
pub(crate) fn branch(place: Span, items: Items<SyntaxNode>) -> Branch
    ensures { branch_of result ≡ t.branch place (map node_of items) }
{
    Branch {
        place,
        body: branch_body(place, items),
    }
}

/// Returns the body with these branches: an empty body if there are none, the body of the branch if there is one, and
/// otherwise a choice.
pub(crate) fn whole_body(place: Span, branches: Items<Branch>) -> SyntaxNode
    ensures { node_of result ≡ t.whole_body place (map branch_of branches) }
{
    if 1 < branches.len() {
        return SyntaxNode::Choice(place, branches);
    }
    let mut branches = branches.into_vec();
    match branches.pop() {
        Some(Branch { place: _, body }) => body,
        None => SyntaxNode::Nothing(place),
    }
}

/// Moves the last atom, if there is one, to the items, and puts another one in its place.
fn with_last(base: &mut Base, last: Last) -> Result<(), OutOfMemory>
    ensures { OnOk result (base_of base.new ≡ m.put_last (base_of base.old) (m.settled (base_of base.old).top.items (base_of base.old).last) (last_of last)) }
{
    match mem::replace(&mut base.last, last) {
        Last::NothingYet => Ok(()),
        Last::AnAtom(_, atom) => base.top.items.push(atom),
    }
}

/// Adds an item that takes no quantifier.
pub(crate) fn put_item(base: &mut Base, item: SyntaxNode) -> Result<(), OutOfMemory>
    ensures { OnOk result (base_of base.new ≡ m.put_item (base_of base.old) (node_of item)) }
{
    let Ok(()) = with_last(base, Last::NothingYet) else {
        drop(item);
        return Err(OutOfMemory);
    };
    base.top.items.push(item)
}

/// Adds a leaf from `from` up to `upto`, as the last atom.
pub(crate) fn put_leaf(base: &mut Base, from: u32, upto: u32, leaf: Leaf) -> Result<(), OutOfMemory>
    ensures { OnOk result (base_of base.new ≡ m.put_leaf (base_of base.old) from upto leaf) }
{
    let flags = base.top.flags;
    let atom = SyntaxNode::Leaf(Span { from, upto }, flags, leaf);
    with_last(base, Last::AnAtom(from, atom))
}

/// Adds a literal at position `i`, which must be less than 2^32 - 1, as the last atom.
pub(crate) fn put_code(base: &mut Base, i: u32, code: u32) -> Result<(), OutOfMemory>
    requires { i < 2 ^ 32 - 1 }
    ensures { OnOk result (base_of base.new ≡ m.put_code (base_of base.old) i code) }
{
    put_leaf(base, i, i + 1, Leaf::Glyph(Escaped::Code(code)))
}

/// Adds a literal for each character, beginning at `from`.
fn put_codes(base: &mut Base, from: u32, codes: &[u32]) -> Result<(), OutOfMemory>
    requires { from + length codes.now < 2 ^ 32 }
    ensures { OnOk result (base_of base.new ≡ m.put_codes (base_of base.old) from codes.now) }
{
    let mut place = from;
    for code in codes {
        put_code(base, place, *code)?;
        place += 1;
    }
    Ok(())
}

/// Adds a brace at `from` and the text after it as literals, because they are no repeat count. The position after the text
/// must be less than 2^32.
pub(crate) fn no_count(base: &mut Base, from: u32, text: &[u32]) -> Result<(), OutOfMemory>
    requires { suc from + length text.now < 2 ^ 32 }
    ensures { OnOk result (base_of base.new ≡ m.no_count (base_of base.old) from text.now) }
{
    put_code(base, from, '{' as u32)?;
    put_codes(base, from + 1, text)
}

/// Adds the atom, which began at `from`, with its quantifier, which has the span `mark`.
pub(crate) fn put_repeat(
    alloc: Global,
    base: &mut Base,
    from: u32,
    atom: SyntaxNode,
    mark: Span,
    count: Count,
    greed: Greed,
) -> Result<(), OutOfMemory>
    ensures { OnOk result (base_of base.new ≡ m.put_repeat (base_of base.old) from (node_of atom) mark.from mark.upto count greed) }
{
    let span = Span {
        from,
        upto: mark.upto,
    };
    let body = Box::new(alloc, atom)?;
    put_item(base, SyntaxNode::Repeat(span, mark, count, greed, body))
}

/// Takes the last atom for a quantifier with this count that begins at `from`. Returns what the reader is in the middle of
/// then, or `None` if there is no last atom.
pub(crate) fn count_last(base: &mut Base, from: u32, count: Count) -> Option<Lex>
    ensures { state_with (base_of base.new) result ≡ m.count_last (base_of base.old) from count (base_of base.old).last }
{
    match mem::replace(&mut base.last, Last::NothingYet) {
        Last::NothingYet => None,
        Last::AnAtom(place, atom) => Some(Lex::Counted(place, atom, from, count)),
    }
}

/// Whether a `|` may follow, in a group of this kind, after these branches. In a conditional it may if there is at most one of
/// them. In any other group it always may.
fn splits(kind: &Kind, branches: &Items<Branch>) -> bool
    ensures { result ≡ splits kind.now (map branch_of branches.now) }
{
    match kind {
        Kind::Conditional => branches.len() < 2,
        Kind::Capturing
        | Kind::Named(_)
        | Kind::Scoped(_, _)
        | Kind::Lookaround { .. }
        | Kind::Atomic => true,
    }
}

/// Ends the open branch at `upto`. Adds it, together with its last atom, to the branches before it. The open branch is empty
/// afterwards, and still begins where it did.
pub(crate) fn end_branch(alloc: Global, base: &mut Base, upto: u32) -> Result<(), OutOfMemory>
    ensures { OnOk result (base_of base.new ≡ m.next_branch (base_of base.old) base.old.top.from (m.all_branches (base_of base.old) upto)) }
{
    with_last(base, Last::NothingYet)?;
    let items = mem::replace(&mut base.top.items, Items::new(alloc));
    let from = base.top.from;
    base.top.branches.push(branch(Span { from, upto }, items))
}

/// Reads a `|` at `i`, which must be less than 2^32 - 1: ends the open branch and opens another one. Returns what the reader
/// is in the middle of afterwards, or `None` if the group can't have another branch.
pub(crate) fn split(alloc: Global, base: &mut Base, i: u32) -> Result<Option<Lex>, OutOfMemory>
    requires { i < 2 ^ 32 - 1 }
    ensures { IfOk result (λ found. state_with (base_of base.new) found ≡ m.split (base_of base.old) i) }
{
    end_branch(alloc, base, i)?;
    base.top.from = i + 1;
    if splits(&base.top.kind, &base.top.branches) {
        Ok(Some(Lex::Between))
    } else {
        Ok(None)
    }
}

/// Returns the flags in force inside a group of this kind, if `flags` are in force around it.
fn inside(kind: &Kind, flags: Flags) -> Flags
    ensures { result ≡ inside kind.now flags }
{
    match kind {
        Kind::Scoped(on, off) => scoped_flags(*on, *off, flags),
        Kind::Capturing
        | Kind::Named(_)
        | Kind::Lookaround { .. }
        | Kind::Atomic
        | Kind::Conditional => flags,
    }
}

/// Returns a body in which nothing has been read. The parenthesis of its group is at `opened`, and it begins at `start`.
pub(crate) fn empty_body(alloc: Global, flags: Flags, kind: Kind, opened: u32, start: u32) -> Frame
    ensures { frame_of result ≡ record { flags = flags; kind = kind; opened = opened; start = start; from = start; branches = []; items = [] } }
{
    Frame {
        flags,
        kind,
        opened,
        start,
        from: start,
        branches: Items::new(alloc),
        items: Items::new(alloc),
    }
}

/// Adds a body to the open ones, as the innermost of them.
fn put_below(below: &mut Vec<Frame>, body: Frame) -> Result<(), OutOfMemory>
    ensures { OnOk result (map frame_of (reverse below.new.items) ≡ frame_of body ∷ map frame_of (reverse below.old.items)) }
{
    below.push(body)?;
    Ok(())
}

/// Opens a group whose parenthesis is at `opened` and whose body begins at `start`.
pub(crate) fn open_group(
    alloc: Global,
    base: &mut Base,
    opened: u32,
    start: u32,
    kind: Kind,
) -> Result<(), OutOfMemory>
    ensures { OnOk result (base_of base.new ≡ m.open_group (base_of base.old) opened start kind) }
{
    let Ok(()) = with_last(base, Last::NothingYet) else {
        drop(kind);
        return Err(OutOfMemory);
    };
    let flags = inside(&kind, base.top.flags);
    let body = empty_body(alloc, flags, kind, opened, start);
    put_below(&mut base.below, mem::replace(&mut base.top, body))
}

/// Returns the group that the `)` at `i` closes, as the last atom. The last branch of its body must already be among the
/// body's branches.
fn closed(alloc: Global, body: Frame, i: u32) -> Result<Last, OutOfMemory>
    requires { i < 2 ^ 32 - 1 }
    ensures { IfOk result (λ atom. last_of atom ≡ m.an_atom body.opened (t.group (t.span body.opened (suc i)) body.kind (t.whole_body (t.span body.start i) (map branch_of body.branches)))) }
{
    let Frame {
        flags: _,
        kind,
        opened,
        start,
        from: _,
        branches,
        items,
    } = body;
    drop(items);
    let whole = whole_body(
        Span {
            from: start,
            upto: i,
        },
        branches,
    );
    let Ok(whole) = Box::new(alloc, whole) else {
        drop(kind);
        return Err(OutOfMemory);
    };
    let span = Span {
        from: opened,
        upto: i + 1,
    };
    Ok(Last::AnAtom(opened, SyntaxNode::Group(span, kind, whole)))
}

/// Reads the `)` at `i`, which must be less than 2^32 - 1: the group that it closes becomes the last atom. Returns what the
/// reader is in the middle of afterwards, or `None` if no group is open.
pub(crate) fn close(alloc: Global, base: &mut Base, i: u32) -> Result<Option<Lex>, OutOfMemory>
    requires { i < 2 ^ 32 - 1 }
    ensures { IfOk result (λ found. state_with (base_of base.new) found ≡ m.close (base_of base.old) i (base_of base.old).below) }
{
    match base.below.pop() {
        None => Ok(None),
        Some(outer) => {
            let Ok(()) = end_branch(alloc, base, i) else {
                drop(outer);
                return Err(OutOfMemory);
            };
            let body = mem::replace(&mut base.top, outer);
            drop(mem::replace(&mut base.last, closed(alloc, body, i)?));
            Ok(Some(Lex::Between))
        }
    }
}

/// Whether a flag group that begins at `from` is at the front of the pattern: only flag groups and ignored text come before
/// it, and nothing before the first flag group.
fn at_front(base: &Base, from: u32) -> bool
    ensures { result ≡ m.at_front (base_of base.now) from }
{
    let settled = match &base.last {
        Last::NothingYet => true,
        Last::AnAtom(_, _) => false,
    };
    base.below.is_empty()
        && base.top.branches.is_empty()
        && base.top.items.is_empty()
        && settled
        && (from == 0 || !base.fronts.is_empty())
}

/// Reads a flag group from `from` up to `upto`, which sets the flags `letters`. Returns what the reader is in the middle of
/// afterwards, or `None` if the group isn't at the front of the pattern.
pub(crate) fn put_front(
    base: &mut Base,
    from: u32,
    upto: u32,
    letters: Flags,
) -> Result<Option<Lex>, OutOfMemory>
    ensures { IfOk result (λ found. state_with (base_of base.new) found ≡ m.put_front (base_of base.old) from upto letters) }
{
    if !at_front(base, from) {
        return Ok(None);
    }
    base.fronts.push(Front {
        place: Span { from, upto },
        letters,
    })?;
    base.top.flags = joined(base.top.flags, letters);
    base.top.start = upto;
    base.top.from = upto;
    Ok(Some(Lex::Between))
}
