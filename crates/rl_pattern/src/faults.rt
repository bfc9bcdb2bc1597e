//! What is refused in a syntax tree: the first fault by position, and by the order of features at the same position. A fault
//! is a feature that is refused, with its position. The rank of a feature is its place in that order.

ghost use Rattle.std.specs.Prelude.{◌≡◌, ℕ, Bool, IfOk, List, map, ◌||◌, ◌&&◌, ◌==◌, nat_lt, flat_map};
ghost use Rattle.rl_pattern.specs.internal.Views.{node_of, branch_of};
ghost use Rattle.rl_pattern.specs.Tree as t;
ghost use Rattle.rl_pattern.specs.LeafCodes.{universe_for};
ghost use Rattle.rl_pattern.specs.Found as f;

use crate::flags::{Flags, joined};
use crate::leaf_set::body_set;
use crate::profile::{Profile, before_end, for_item, reads_dollar};
use crate::tree::{
    Assertion, Branch, Count, Escaped, Front, Greed, Kind, Leaf, Member, SyntaxNode,
};
use rl_lists::OutOfMemory;
use rl_ranges::Universe;
use rl_syntax::{Feature, Span};
use std::alloc::Global;

/// A feature that is refused, with its position.
#[derive(Clone, Copy)]
pub(crate) struct Fault {
    /// The position at which the refused part begins, counting codes from 0.
    pub(crate) place: u32,
    /// The feature that is refused.
    pub(crate) what: Feature,
}

/// Returns the rank of a feature. Of two faults at the same position, the one with the lower rank is reported.
fn rank(what: Feature) -> u32
    ensures { result ≡ f.rank what }
{
    match what {
        Feature::Locale => 0,
        Feature::FlagClash => 1,
        Feature::DuplicateName => 2,
        Feature::CodeTooLarge => 3,
        Feature::ReversedRange => 4,
        Feature::RepeatTooLarge => 5,
        Feature::RepeatOrder => 6,
        Feature::Possessive => 7,
        Feature::Backreference => 8,
        Feature::Lookaround => 9,
        Feature::Conditional => 10,
        Feature::Atomic => 11,
        Feature::NamedEscape => 12,
        Feature::InnerAnchor => 13,
    }
}

/// Whether the first fault is reported rather than the second: its position is less, or the positions are equal and its rank
/// isn't greater.
fn comes_first(first: Fault, second: Fault) -> bool
    ensures { result ≡ f.comes_first first second }
{
    first.place < second.place
        || first.place == second.place && rank(first.what) <= rank(second.what)
}

/// Returns the one of two faults that is reported, either of which may be missing. If both are missing, it returns `None`.
pub(crate) fn earlier(first: Option<Fault>, second: Option<Fault>) -> Option<Fault>
    ensures { result ≡ f.earlier first second }
{
    match first {
        None => second,
        Some(a) => match second {
            None => Some(a),
            Some(b) => { if comes_first(a, b) { Some(a) } else { Some(b) } }
        },
    }
}

/// Returns the fault of the feature `what` at position `place` if `found` is `true`, otherwise `None`.
pub(crate) fn fault_if(found: bool, place: u32, what: Feature) -> Option<Fault>
    ensures { result ≡ f.first_fault (f.fault_if found place what) }
{
    if found {
        Some(Fault { place, what })
    } else {
        None
    }
}

/// Returns the fault of a character or escape at a position, or `None` if it isn't refused.
fn escaped_fault(place: u32, escaped: Escaped) -> Option<Fault>
    ensures { result ≡ f.first_fault (f.escaped_faults place escaped) }
{
    match escaped {
        Escaped::Code(_) | Escaped::Kind(_, _) => None,
        Escaped::TooLarge => Some(Fault {
            place,
            what: Feature::CodeTooLarge,
        }),
        Escaped::ByName => Some(Fault {
            place,
            what: Feature::NamedEscape,
        }),
        Escaped::Reference => Some(Fault {
            place,
            what: Feature::Backreference,
        }),
    }
}

/// Whether both sides of a range are codes and the first is greater than the last.
fn reversed(first: Escaped, last: Escaped) -> bool
    ensures { result ≡ f.reversed first last }
{
    match first {
        Escaped::Code(c) => match last {
            Escaped::Code(d) => d < c,
            Escaped::TooLarge | Escaped::ByName | Escaped::Kind(_, _) | Escaped::Reference => {
                false
            }
        },
        Escaped::TooLarge | Escaped::ByName | Escaped::Kind(_, _) | Escaped::Reference => false,
    }
}

/// Returns the first fault of a member of a class.
#[tactic(auto, using(crate::proofs::FirstFault::first_of_joined))]
fn member_fault(member: Member) -> Option<Fault>
    ensures { result ≡ f.first_fault (f.member_faults member) }
{
    match member {
        Member::One(span, side) => escaped_fault(span.from, side),
        Member::Range(span, first, last) => {
            let turned = fault_if(reversed(first, last), span.from, Feature::ReversedRange);
            let behind = earlier(escaped_fault(span.from, last), turned);
            earlier(escaped_fault(span.from, first), behind)
        }
    }
}

/// Returns the first fault among the members of a class.
fn members_fault(members: &[Member]) -> Option<Fault>
    ensures { result ≡ f.first_fault (flat_map f.member_faults members.now) }
{
    let mut best = None;
    for member in members {
        best = earlier(best, member_fault(*member));
    }
    best
}

/// Returns the first fault of a leaf.
fn leaf_fault(span: Span, leaf: &Leaf) -> Option<Fault>
    ensures { result ≡ f.first_fault (f.leaf_faults span leaf.now) }
{
    match leaf {
        Leaf::Any => None,
        Leaf::Glyph(escaped) => escaped_fault(span.from, *escaped),
        Leaf::Members(_, members) => members_fault(members.as_slice()),
    }
}

/// Returns the fault of an anchor or word boundary, or `None` if it isn't refused. Only a `$` without MULTILINE is.
fn mark_fault(span: Span, flags: Flags, mark: Assertion) -> Option<Fault>
    ensures { result ≡ f.first_fault (f.mark_faults span flags mark) }
{
    match mark {
        Assertion::Dollar => fault_if(!flags.multiline, span.from, Feature::InnerAnchor),
        Assertion::Caret | Assertion::TextStart | Assertion::TextEnd | Assertion::Boundary(_) =>
            None,
    }
}

/// Whether a bound of the count is the largest number that is stored, which also represents all larger numbers.
fn is_too_large(count: Count) -> bool
    ensures { result ≡ (count.least == 4294967295 || f.is_bound (λ m. m == 4294967295) count.most) }
{
    match count.most {
        None => count.least == u32::MAX,
        Some(most) => count.least == u32::MAX || most == u32::MAX,
    }
}

/// Whether there is a maximum that is less than the minimum.
fn is_below(most: Option<u32>, least: u32) -> bool
    ensures { result ≡ f.is_bound (λ m. nat_lt m least) most }
{
    match most {
        None => false,
        Some(most) => most < least,
    }
}

/// Whether a quantifier is possessive.
fn is_possessive(greed: Greed) -> bool
    ensures { result ≡ f.is_possessive greed }
{
    match greed {
        Greed::Greedy | Greed::Lazy => false,
        Greed::Possessive => true,
    }
}

/// Returns the first fault of a quantifier at a position.
#[tactic(auto, using(crate::proofs::FirstFault::first_of_joined))]
fn count_fault(place: u32, count: Count, greed: Greed) -> Option<Fault>
    ensures { result ≡ f.first_fault (f.count_faults place count greed) }
{
    let too_large = fault_if(is_too_large(count), place, Feature::RepeatTooLarge);
    let order = fault_if(
        is_below(count.most, count.least),
        place,
        Feature::RepeatOrder,
    );
    let kept = fault_if(is_possessive(greed), place, Feature::Possessive);
    earlier(too_large, earlier(order, kept))
}

/// Whether one of the letters `imsx` is on both sides of a `-`.
fn overlap(on: Flags, off: Flags) -> bool
    ensures { result ≡ f.overlap on off }
{
    on.ignore_case && off.ignore_case
        || on.multiline && off.multiline
        || on.dot_all && off.dot_all
        || on.verbose && off.verbose
}

/// Returns the first fault of a group's head, apart from its name. `text` says whether the pattern is a `str`.
#[tactic(auto, using(crate::proofs::FirstFault::first_of_joined))]
fn kind_fault(text: bool, place: u32, kind: &Kind) -> Option<Fault>
    ensures { result ≡ f.first_fault (f.kind_faults text place kind.now) }
{
    match kind {
        Kind::Capturing | Kind::Named(_) => None,
        Kind::Scoped(on, off) => {
            let locale = fault_if(on.locale, place, Feature::Locale);
            let clash = on.unicode && (on.ascii || !text) || overlap(*on, *off);
            earlier(locale, fault_if(clash, place, Feature::FlagClash))
        }
        Kind::Lookaround { .. } => Some(Fault {
            place,
            what: Feature::Lookaround,
        }),
        Kind::Atomic => Some(Fault {
            place,
            what: Feature::Atomic,
        }),
        Kind::Conditional => Some(Fault {
            place,
            what: Feature::Conditional,
        }),
    }
}

/// Whether it is the kind of a group that doesn't capture, such as `(?:..)` or `(?i:..)`.
fn is_scoped(kind: &Kind) -> bool
    ensures { result ≡ f.is_scoped kind.now }
{
    match kind {
        Kind::Scoped(_, _) => true,
        Kind::Capturing
        | Kind::Named(_)
        | Kind::Lookaround { .. }
        | Kind::Atomic
        | Kind::Conditional => false,
    }
}

/// Whether an anchor looks to this side of a place: behind it if `behind` is set, otherwise ahead. A word boundary looks to
/// both sides and counts as `false`.
fn mark_looks(behind: bool, mark: Assertion) -> bool
    ensures { result ≡ f.mark_looks behind mark }
{
    match mark {
        Assertion::Caret | Assertion::TextStart => behind,
        Assertion::Dollar | Assertion::TextEnd => !behind,
        Assertion::Boundary(_) => false,
    }
}

/// Whether the body of a lookaround tests no more than this side of a place, and nothing in it is refused: behind the place if
/// `behind` is set, otherwise ahead. `own` says whether the lookaround looks behind, and `text` whether the pattern is a `str`.
#[cycle(looks_to)]
pub(crate) fn looks_to(text: bool, own: bool, behind: bool, node: &SyntaxNode) -> bool
    ensures { result ≡ f.looks_to text own behind (node_of node.now) }
{
    match node {
        SyntaxNode::Leaf(span, _, leaf) => {
            leaf_fault(*span, leaf).is_none() && (if own { behind } else { !behind })
        }
        SyntaxNode::Assertion(_, _, mark) => mark_looks(behind, *mark),
        SyntaxNode::Group(span, kind, body) => {
            is_scoped(kind)
                && kind_fault(text, span.from, kind).is_none()
                && looks_to(text, own, behind, body)
        }
        SyntaxNode::Choice(_, branches) => all_look_to(text, own, behind, branches.as_slice()),
        SyntaxNode::Repeat(_, _, _, _, _) | SyntaxNode::Nothing(_) | SyntaxNode::Seq(_, _) => false,
    }
}

/// Whether the body of each branch tests no more than this side of a place, and nothing in it is refused.
#[cycle(looks_to)]
fn all_look_to(text: bool, own: bool, behind: bool, branches: &[Branch]) -> bool
    ensures { result ≡ f.all_look_to text own behind (t.branches (map branch_of branches.now)) }
{
    let mut all = true;
    for branch in branches {
        all = all && looks_to(text, own, behind, &branch.body);
    }
    all
}

/// Whether the body of a lookaround has a `$` without MULTILINE.
#[cycle(has_dollar)]
fn has_dollar(node: &SyntaxNode) -> bool
    ensures { result ≡ f.has_dollar (node_of node.now) }
{
    match node {
        SyntaxNode::Assertion(_, flags, Assertion::Dollar) => !flags.multiline,
        SyntaxNode::Group(_, _, body) => has_dollar(body),
        SyntaxNode::Choice(_, branches) => some_dollar(branches.as_slice()),
        SyntaxNode::Assertion(_, _, _)
        | SyntaxNode::Leaf(_, _, _)
        | SyntaxNode::Repeat(_, _, _, _, _)
        | SyntaxNode::Nothing(_)
        | SyntaxNode::Seq(_, _) => false,
    }
}

/// Whether the body of some branch has a `$` without MULTILINE.
#[cycle(has_dollar)]
fn some_dollar(branches: &[Branch]) -> bool
    ensures { result ≡ f.some_dollar (t.branches (map branch_of branches.now)) }
{
    let mut some = false;
    for branch in branches {
        some = some || has_dollar(&branch.body);
    }
    some
}

/// Whether each way through the body of a lookaround is of one width: one character if `wide` is set, otherwise none.
#[cycle(is_wide)]
fn is_wide(wide: bool, node: &SyntaxNode) -> bool
    ensures { result ≡ f.is_wide wide (node_of node.now) }
{
    match node {
        SyntaxNode::Leaf(_, _, _) => wide,
        SyntaxNode::Assertion(_, _, _) => !wide,
        SyntaxNode::Group(_, _, body) => is_wide(wide, body),
        SyntaxNode::Choice(_, branches) => all_wide(wide, branches.as_slice()),
        SyntaxNode::Repeat(_, _, _, _, _) | SyntaxNode::Seq(_, _) | SyntaxNode::Nothing(_) => false,
    }
}

/// Whether the body of each branch is of that width.
#[cycle(is_wide)]
fn all_wide(wide: bool, branches: &[Branch]) -> bool
    ensures { result ≡ f.all_wide wide (t.branches (map branch_of branches.now)) }
{
    let mut all = true;
    for branch in branches {
        all = all && is_wide(wide, &branch.body);
    }
    all
}

/// Returns the universe of a pattern. `text` says whether it is a `str`.
fn universe_for(text: bool) -> Universe
    ensures { result ≡ universe_for text }
{
    if text { Universe::Str } else { Universe::Bytes }
}

/// Whether a lookaround with this body is read: the body tests one side of a place, a lookbehind is of one width, and a body
/// with a `$` without MULTILINE holds before each line feed. `own` says whether the lookaround looks behind, and `text` whether
/// the pattern is a `str`.
fn tests_a_side(
    alloc: Global,
    text: bool,
    own: bool,
    body: &SyntaxNode,
) -> Result<bool, OutOfMemory>
    ensures { IfOk result (λ reads. reads ≡ f.tests_a_side text own (node_of body.now)) }
{
    if !looks_to(text, own, true, body) && !looks_to(text, own, false, body) {
        return Ok(false);
    }
    if own && !is_wide(true, body) && !is_wide(false, body) {
        return Ok(false);
    }
    if !has_dollar(body) {
        return Ok(true);
    }
    let set = body_set(alloc, universe_for(text), body)?;
    Ok(set.contains(10))
}

/// Whether a group of this kind with this body is a lookaround that the profile reads. `text` says whether the pattern is a
/// `str`.
///
/// # Errors
/// [`OutOfMemory`] if there is no memory for a set.
pub(crate) fn reads_look(
    alloc: Global,
    profile: Profile,
    text: bool,
    kind: &Kind,
    body: &SyntaxNode,
) -> Result<bool, OutOfMemory>
    ensures { IfOk result (λ reads. reads ≡ f.reads_look profile text kind.now (node_of body.now)) }
{
    match profile {
        Profile::Narrow => Ok(false),
        Profile::Wide(_) => match kind {
            Kind::Lookaround { behind, .. } => tests_a_side(alloc, text, *behind, body),
            Kind::Capturing
            | Kind::Named(_)
            | Kind::Scoped(_, _)
            | Kind::Atomic
            | Kind::Conditional => Ok(false),
        },
    }
}

/// Returns the fault of a node and the nodes in it that is reported, apart from duplicate group names, or `None` if nothing is
/// refused under the profile. `text` says whether the pattern is a `str`.
///
/// # Errors
/// [`OutOfMemory`] if there is no memory for a set.
#[cycle(node_fault)]
#[tactic(auto, using(crate::proofs::FirstFault::first_of_joined))]
pub(crate) fn node_fault(
    alloc: Global,
    profile: Profile,
    text: bool,
    node: &SyntaxNode,
) -> Result<Option<Fault>, OutOfMemory>
    ensures { IfOk result (λ found. found ≡ f.first_fault (f.node_faults_in profile text (node_of node.now))) }
{
    match node {
        SyntaxNode::Leaf(span, _, leaf) => Ok(leaf_fault(*span, leaf)),
        SyntaxNode::Assertion(span, flags, mark) => {
            if reads_dollar(profile) {
                Ok(None)
            } else {
                Ok(mark_fault(*span, *flags, *mark))
            }
        }
        SyntaxNode::Repeat(_, mark, count, greed, body) => {
            let own = count_fault(mark.from, *count, *greed);
            let inside = node_fault(alloc, before_end(profile), text, body)?;
            Ok(earlier(own, inside))
        }
        SyntaxNode::Group(span, kind, body) => {
            if reads_look(alloc, profile, text, kind, body)? {
                Ok(None)
            } else {
                let own = kind_fault(text, span.from, kind);
                let inside = node_fault(alloc, profile, text, body)?;
                Ok(earlier(own, inside))
            }
        }
        SyntaxNode::Nothing(_) => Ok(None),
        SyntaxNode::Seq(_, items) => nodes_fault(alloc, profile, text, items.as_slice()),
        SyntaxNode::Choice(_, branches) => {
            branches_fault(alloc, profile, text, branches.as_slice())
        }
    }
}

/// Returns the first fault in a sequence of nodes. Only the last one may end the pattern.
#[cycle(node_fault)]
fn nodes_fault(
    alloc: Global,
    profile: Profile,
    text: bool,
    nodes: &[SyntaxNode],
) -> Result<Option<Fault>, OutOfMemory>
    ensures { IfOk result (λ found. found ≡ f.first_fault (f.nodes_faults_in profile text (t.nodes (map node_of nodes.now)))) }
{
    let mut best = None;
    for (place, node) in nodes.iter().enumerate() {
        let own = for_item(profile, place + 1 == nodes.len());
        let next = node_fault(alloc, own, text, node)?;
        best = earlier(best, next);
    }
    Ok(best)
}

/// Returns the first fault in the branches of a choice.
#[cycle(node_fault)]
fn branches_fault(
    alloc: Global,
    profile: Profile,
    text: bool,
    branches: &[Branch],
) -> Result<Option<Fault>, OutOfMemory>
    ensures { IfOk result (λ found. found ≡ f.first_fault (f.branches_faults_in profile text (t.branches (map branch_of branches.now)))) }
{
    let mut best = None;
    for branch in branches {
        let next = node_fault(alloc, profile, text, &branch.body)?;
        best = earlier(best, next);
    }
    Ok(best)
}

/// Returns the first fault of a flag group at the front, given the flags before it. `text` says whether the pattern is a
/// `str`.
#[tactic(auto, using(crate::proofs::FirstFault::first_of_joined))]
fn front_fault(text: bool, flags: Flags, front: Front) -> Option<Fault>
    ensures { result ≡ f.first_fault (f.front_own text flags front) }
{
    let letters = front.letters;
    let locale = fault_if(letters.locale, front.place.from, Feature::Locale);
    let clash = letters.ascii && (flags.unicode || letters.unicode)
        || letters.unicode && (flags.ascii || !text);
    earlier(
        locale,
        fault_if(clash, front.place.from, Feature::FlagClash),
    )
}

/// Returns the fault of the flag groups at the front that is reported, given the flags of the call, or `None` if nothing is
/// refused. `text` says whether the pattern is a `str`.
pub(crate) fn fronts_fault(text: bool, call: Flags, fronts: &[Front]) -> Option<Fault>
    ensures { result ≡ f.first_fault (f.front_faults text call fronts.now) }
{
    let mut best = None;
    let mut flags = call;
    for front in fronts {
        best = earlier(best, front_fault(text, flags, *front));
        flags = joined(flags, front.letters);
    }
    best
}

/// Returns the reason to refuse the flags of the call, or `None`: LOCALE, or UNICODE together with ASCII or for a `bytes`
/// pattern. `text` says whether the pattern is a `str`.
pub(crate) fn refused_flags(flags: Flags, text: bool) -> Option<Feature>
    ensures { result ≡ f.refused_flags flags text }
{
    if flags.locale {
        Some(Feature::Locale)
    } else if flags.unicode && (flags.ascii || !text) {
        Some(Feature::FlagClash)
    } else {
        None
    }
}
