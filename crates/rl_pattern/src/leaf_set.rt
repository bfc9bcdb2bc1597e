//! The characters that a leaf of a syntax tree matches, and those for which the body of a lookaround holds. A leaf is a `.`, a
//! character, an escape, a reference or a class.

ghost use Rattle.std.specs.Prelude.{◌≡◌, ℕ, Bool, ◌&&◌, ◌||◌, ◌==◌, not, IfOk, Some, None, false, map};
ghost use Rattle.std.proofs.Math.Bool.{xor};
ghost use Rattle.rl_ranges.specs.Codes.{has, is_between, IsInside};
ghost use Rattle.rl_ranges.specs.Listed.{ranges_below};
ghost use Rattle.rl_ranges.specs.Text.{code_count};
ghost use Rattle.rl_pattern.specs.Tree as t;
ghost use Rattle.rl_pattern.specs.Tree.{Span, any, range};
ghost use Rattle.rl_pattern.specs.LeafCodes.{within, leaf_codes};
ghost use Rattle.rl_pattern.specs.Looks.{is_line_end, mark_beside, holds_beside, some_beside};
ghost use Rattle.rl_pattern.specs.internal.Views.{node_of, branch_of};
ghost use Rattle.rl_pattern.specs.internal.LeafSets.{closing_in, kind_in, escaped_in, code_in, codes_in, class_in, classes_in, members_in};

use crate::flags::Flags;
use crate::tree::{Assertion, Branch, Escaped, Leaf, Member, SyntaxNode};
use rl_lists::OutOfMemory;
use rl_ranges::{CodeSet, Named, Universe};
use std::alloc::Global;

/// Returns the empty set.
fn no_codes(alloc: Global) -> CodeSet
    ensures members { (c : ℕ) → has result c ≡ false }
    ensures inside { (u : Universe) → IsInside u result }
{
    CodeSet::none(alloc)
}

/// Returns the codes of the universe from `first` to `last`.
fn codes_between(
    alloc: Global,
    universe: Universe,
    first: u32,
    last: u32,
) -> Result<CodeSet, OutOfMemory>
    ensures members { IfOk result (λ s. (c : ℕ) → has s c ≡ within universe (is_between first last) c) }
    ensures inside { IfOk result (IsInside universe) }
{
    let last = last.min(universe.count() - 1);
    if first <= last {
        CodeSet::range(alloc, first, last)
    } else {
        Ok(no_codes(alloc))
    }
}

/// Returns the set closed under case if the flags contain IGNORECASE, and otherwise the set itself.
fn closed(universe: Universe, flags: Flags, set: CodeSet) -> Result<CodeSet, OutOfMemory>
    requires { IsInside universe set }
    ensures members { IfOk result (λ s. (p : ℕ → Bool) → ((c : ℕ) → has set c ≡ within universe p c)
        → (c : ℕ) → has s c ≡ within universe (closing_in universe flags p) c) }
    ensures inside { IfOk result (IsInside universe) }
{
    if flags.ignore_case {
        set.case_closed(flags.ascii, universe)
    } else {
        Ok(set)
    }
}

/// Returns the set of a named class, or its complement in the universe if `inverse` is `true`.
fn kind_set(
    alloc: Global,
    universe: Universe,
    flags: Flags,
    kind: Named,
    inverse: bool,
) -> Result<CodeSet, OutOfMemory>
    ensures members { IfOk result (λ s. (c : ℕ) → has s c ≡ kind_in universe flags kind inverse c) }
    ensures inside { IfOk result (IsInside universe) }
{
    let class = CodeSet::named(alloc, kind, flags.ascii, universe)?;
    if inverse {
        class.complement(universe)
    } else {
        Ok(class)
    }
}

/// Returns the set of a character or an escape.
#[tactic(auto, unfolding(crate::specs::internal::LeafSets::escaped_in))]
fn escaped_set(
    alloc: Global,
    universe: Universe,
    flags: Flags,
    escaped: Escaped,
) -> Result<CodeSet, OutOfMemory>
    ensures members { IfOk result (λ s. (c : ℕ) → has s c ≡ escaped_in universe flags escaped c) }
    ensures inside { IfOk result (IsInside universe) }
{
    match escaped {
        Escaped::Code(code) => {
            let set = codes_between(alloc, universe, code, code)?;
            closed(universe, flags, set)
        }
        Escaped::Kind(kind, inverse) => kind_set(alloc, universe, flags, kind, inverse),
        Escaped::TooLarge | Escaped::ByName | Escaped::Reference => Ok(no_codes(alloc)),
    }
}

/// Returns the set of a class member that is a character or a range, or the empty set for any other member.
#[tactic(auto, unfolding(crate::specs::internal::LeafSets::code_in))]
fn member_codes(alloc: Global, universe: Universe, member: Member) -> Result<CodeSet, OutOfMemory>
    ensures members { IfOk result (λ s. (c : ℕ) → has s c ≡ code_in universe member c) }
    ensures inside { IfOk result (IsInside universe) }
{
    match member {
        Member::One(_, Escaped::Code(code)) => codes_between(alloc, universe, code, code),
        Member::Range(_, Escaped::Code(first), Escaped::Code(last)) => {
            codes_between(alloc, universe, first, last)
        }
        _ => Ok(no_codes(alloc)),
    }
}

/// Returns the set with the codes of a class member added if it is a named class.
#[tactic(auto, using(crate::proofs::LeafLaws::or_none), unfolding(crate::specs::internal::LeafSets::class_in))]
fn with_kind(
    alloc: Global,
    universe: Universe,
    flags: Flags,
    set: CodeSet,
    member: Member,
) -> Result<CodeSet, OutOfMemory>
    requires { IsInside universe set }
    ensures members { IfOk result (λ s. (c : ℕ) → has s c ≡ (has set c || class_in universe flags member c)) }
    ensures inside { IfOk result (IsInside universe) }
{
    match member {
        Member::One(_, Escaped::Kind(kind, inverse)) => {
            let more = kind_set(alloc, universe, flags, kind, inverse)?;
            set.union(&more)
        }
        _ => Ok(set),
    }
}

/// Returns the set of the characters and ranges among the members of a class.
fn all_codes(alloc: Global, universe: Universe, members: &[Member]) -> Result<CodeSet, OutOfMemory>
    ensures members { IfOk result (λ s. (c : ℕ) → has s c ≡ codes_in universe members.now c) }
    ensures inside { IfOk result (IsInside universe) }
{
    let mut set = no_codes(alloc);
    for member in members {
        let more = member_codes(alloc, universe, *member)?;
        set = set.union(&more)?;
    }
    Ok(set)
}

/// Returns the set of the named classes among the members of a class.
fn all_kinds(
    alloc: Global,
    universe: Universe,
    flags: Flags,
    members: &[Member],
) -> Result<CodeSet, OutOfMemory>
    ensures members { IfOk result (λ s. (c : ℕ) → has s c ≡ classes_in universe flags members.now c) }
    ensures inside { IfOk result (IsInside universe) }
{
    let mut set = no_codes(alloc);
    for member in members {
        set = with_kind(alloc, universe, flags, set, *member)?;
    }
    Ok(set)
}

/// Returns the set of all members of a class: characters and ranges, closed under case if the flags ask for it, and named
/// classes.
fn members_set(
    alloc: Global,
    universe: Universe,
    flags: Flags,
    members: &[Member],
) -> Result<CodeSet, OutOfMemory>
    ensures members { IfOk result (λ s. (c : ℕ) → has s c ≡ members_in universe flags members.now c) }
    ensures inside { IfOk result (IsInside universe) }
{
    let codes = all_codes(alloc, universe, members)?;
    let codes = closed(universe, flags, codes)?;
    let kinds = all_kinds(alloc, universe, flags, members)?;
    codes.union(&kinds)
}

/// Returns the set of the codes that `.` doesn't match: the line feed, or none under DOTALL.
fn left_out(alloc: Global, universe: Universe, flags: Flags) -> Result<CodeSet, OutOfMemory>
    ensures members { IfOk result (λ s. (c : ℕ) → has s c ≡ within universe (λ d. not flags.dot_all && d == 10) c) }
    ensures inside { IfOk result (IsInside universe) }
{
    if flags.dot_all {
        Ok(no_codes(alloc))
    } else {
        codes_between(alloc, universe, 10, 10)
    }
}

/// Returns the set of the codes that a leaf matches under the flags in force. A reference to a group matches none here.
///
/// # Errors
/// [`OutOfMemory`] if there is no memory for the set.
pub(crate) fn leaf_set(
    alloc: Global,
    universe: Universe,
    flags: Flags,
    leaf: &Leaf,
) -> Result<CodeSet, OutOfMemory>
    ensures { IfOk result (λ s. (c : ℕ) → has s c ≡ leaf_codes universe flags leaf.now c) }
{
    match leaf {
        Leaf::Any => {
            let others = left_out(alloc, universe, flags)?;
            others.complement(universe)
        }
        Leaf::Glyph(escaped) => escaped_set(alloc, universe, flags, *escaped),
        Leaf::Members(inverse, members) => {
            let set = members_set(alloc, universe, flags, members.as_slice())?;
            if *inverse {
                set.complement(universe)
            } else {
                Ok(set)
            }
        }
    }
}

/// Returns the set of the characters that end a line: the line feed with MULTILINE, otherwise none.
fn line_ends(alloc: Global, multiline: bool) -> Result<CodeSet, OutOfMemory>
    ensures { IfOk result (λ s. (c : ℕ) → has s c ≡ is_line_end multiline (Some c)) }
{
    if multiline {
        CodeSet::range(alloc, 10, 10)
    } else {
        Ok(no_codes(alloc))
    }
}

/// Returns the set of the characters beside which an anchor holds.
fn mark_set(alloc: Global, flags: Flags, mark: Assertion) -> Result<CodeSet, OutOfMemory>
    ensures { IfOk result (λ s. (c : ℕ) → has s c ≡ mark_beside flags mark (Some c)) }
{
    match mark {
        Assertion::Caret | Assertion::Dollar => line_ends(alloc, flags.multiline),
        Assertion::TextStart | Assertion::TextEnd | Assertion::Boundary(_) => Ok(no_codes(alloc)),
    }
}

/// Returns the set of the characters beside which the body of a lookaround holds.
///
/// # Errors
/// [`OutOfMemory`] if there is no memory for the set.
#[cycle(body_set)]
pub(crate) fn body_set(
    alloc: Global,
    universe: Universe,
    node: &SyntaxNode,
) -> Result<CodeSet, OutOfMemory>
    ensures { IfOk result (λ s. (c : ℕ) → has s c ≡ holds_beside universe (node_of node.now) (Some c)) }
{
    match node {
        SyntaxNode::Leaf(_, flags, leaf) => leaf_set(alloc, universe, *flags, leaf),
        SyntaxNode::Assertion(_, flags, mark) => mark_set(alloc, *flags, *mark),
        SyntaxNode::Group(_, _, body) => body_set(alloc, universe, body),
        SyntaxNode::Choice(_, branches) => branches_set(alloc, universe, branches.as_slice()),
        SyntaxNode::Repeat(_, _, _, _, _) | SyntaxNode::Nothing(_) | SyntaxNode::Seq(_, _) => {
            Ok(no_codes(alloc))
        }
    }
}

/// Returns the set of the characters beside which the body of some branch holds.
#[cycle(body_set)]
fn branches_set(
    alloc: Global,
    universe: Universe,
    branches: &[Branch],
) -> Result<CodeSet, OutOfMemory>
    ensures { IfOk result (λ s. (c : ℕ) → has s c ≡ some_beside universe (t.branches (map branch_of branches.now)) (Some c)) }
{
    let mut set = no_codes(alloc);
    for branch in branches {
        let more = body_set(alloc, universe, &branch.body)?;
        set = set.union(&more)?;
    }
    Ok(set)
}

/// Whether the body of a lookaround holds at the end of the text to which it looks, where there is no character.
#[cycle(holds_at_end)]
pub(crate) fn holds_at_end(node: &SyntaxNode) -> bool
    ensures { (u : Universe) → result ≡ holds_beside u (node_of node.now) None }
{
    match node {
        SyntaxNode::Assertion(_, _, Assertion::Boundary(_)) => false,
        SyntaxNode::Assertion(_, _, _) => true,
        SyntaxNode::Group(_, _, body) => holds_at_end(body),
        SyntaxNode::Choice(_, branches) => some_at_end(branches.as_slice()),
        SyntaxNode::Leaf(_, _, _)
        | SyntaxNode::Repeat(_, _, _, _, _)
        | SyntaxNode::Nothing(_)
        | SyntaxNode::Seq(_, _) => false,
    }
}

/// Whether the body of some branch holds at the end of the text to which it looks.
#[cycle(holds_at_end)]
fn some_at_end(branches: &[Branch]) -> bool
    ensures { (u : Universe) → result ≡ some_beside u (t.branches (map branch_of branches.now)) None }
{
    let mut some = false;
    for branch in branches {
        some = some || holds_at_end(&branch.body);
    }
    some
}

/// Returns the value, negated if `flip` is set.
pub(crate) fn flipped(flip: bool, value: bool) -> bool
    ensures { result ≡ xor flip value }
{
    if flip { !value } else { value }
}

/// Returns the set, or its complement in the universe if `flip` is set.
fn turned(universe: Universe, flip: bool, set: CodeSet) -> Result<CodeSet, OutOfMemory>
    requires { IsInside universe set }
    ensures { IfOk result (λ s. (c : ℕ) → has s c ≡ within universe (λ d. xor flip (has set d)) c) }
{
    if flip {
        set.complement(universe)
    } else {
        Ok(set)
    }
}

/// Returns the set of the characters beside which the body of a lookaround holds, or doesn't hold if `flip` is set. Its list of
/// ranges is the one that these codes determine.
///
/// # Errors
/// [`OutOfMemory`] if there is no memory for the set.
pub(crate) fn look_set(
    alloc: Global,
    universe: Universe,
    flip: bool,
    node: &SyntaxNode,
) -> Result<CodeSet, OutOfMemory>
    ensures { IfOk result (λ s. s ≡ ranges_below (code_count universe) (λ c. xor flip (holds_beside universe (node_of node.now) (Some c)))) }
{
    let set = body_set(alloc, universe, node)?;
    let set = turned(universe, flip, set)?;
    set.ranges_are_known();
    Ok(set)
}
