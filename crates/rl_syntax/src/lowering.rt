//! Lowering: the step from a pattern in a mode to its tree.

ghost use Rattle.std.specs.Prelude.{◌≡◌, ℕ, ◌<◌, ◌≤◌, false, [], ◌∷◌, map, IfOk, IfErr};
ghost use Rattle.rl_syntax.specs.declared.re.LowerError.TheVariants as error;
ghost use Rattle.rl_syntax.specs.PatTree.{pat_of, items_of, branches_of};
ghost use Rattle.rl_syntax.specs.Tree.{Tree, tree_of, size, IsOver};
ghost use Rattle.rl_syntax.specs.Lowering.{in_turn, one_of, option_of, options, times, guard_of, lowered, items_lowered, branches_lowered};
ghost use Rattle.rl_syntax.specs.Lowering.{boundary_guard as guard_of_boundary};
ghost use Rattle.rl_syntax.specs.Counting.{branch_tree, trees_of_option};
ghost use Rattle.rl_syntax.specs.Guards.{is_line_feed};
ghost use Rattle.rl_syntax.specs.Modes.{trailed, sought, wrapped, ending_of, is_code};
ghost use Rattle.rl_syntax.specs.Pattern.{pattern_tree, pattern_ending, is_anchored, trail_of, universe_of};

use crate::anchors::{AnchorKind, Guard, Trail};
use crate::limits::MOST_NODES;
use crate::pat::{Branch, Pat};
use crate::pattern::Pattern;
use crate::re::{Ending, LowerError, Lowered, Mode, Re};
use crate::sizes::size_after;
use rl_lists::OutOfMemory;
use rl_ranges::{CodeSet, Universe};
use std::alloc::Global;

/// Returns the pattern's tree in a mode, and where a match may end. The tree has at most [`MOST_NODES`] (4,000) nodes.
///
/// # Errors
/// - [`LowerError::TooLarge`] if the tree would have more than [`MOST_NODES`] nodes. Its nodes are counted before any of it is
///   built.
/// - [`LowerError::OutOfMemory`] if there is no memory for the tree.
pub fn lower(alloc: Global, p: &Pattern, mode: Mode) -> Result<Lowered, LowerError>
    ensures tree { IfOk result (λ l. tree_of l.tree ≡ pattern_tree p.now mode) }
    ensures ending { IfOk result (λ l. l.ending ≡ pattern_ending p.now mode) }
    ensures small { IfOk result (λ l. size (tree_of l.tree) ≤ MOST_NODES) }
    ensures over { IfOk result (λ l. IsOver (universe_of p.now) (tree_of l.tree)) }
    ensures too_large { IfErr result (λ e. e ≡ error.TooLarge → MOST_NODES < size (pattern_tree p.now mode)) }
{
    if size_after(p, mode) > MOST_NODES {
        return Err(LowerError::TooLarge);
    }
    let tree = tree_in_mode(alloc, p, mode)?;
    let ending = ending_in_mode(mode, p.trailing());
    Ok(Lowered { tree, ending })
}

/// Builds the pattern's tree in a mode, however large it is.
fn tree_in_mode(alloc: Global, p: &Pattern, mode: Mode) -> Result<Re, OutOfMemory>
    ensures { IfOk result (λ re. tree_of re ≡ pattern_tree p.now mode) }
{
    let body = lower_part(alloc, p.body());
    match mode {
        Mode::Fullmatch => body,
        Mode::Match => with_trail(alloc, p.trailing(), body),
        Mode::Search => {
            let trailed = with_trail(alloc, p.trailing(), body);
            after_any(alloc, p.universe(), p.leading(), trailed)
        }
    }
}

/// Returns where a match may end in the mode.
fn ending_in_mode(mode: Mode, trailing: Trail) -> Ending
    ensures { result ≡ ending_of mode trailing }
{
    match (mode, trailing) {
        (Mode::Match | Mode::Search, Trail::None) => Ending::Anywhere,
        _ => Ending::AtEnd,
    }
}

/// Appends what the trailing anchor allows after the tree: a final line feed if the anchor is only `$`. Passes a failure
/// on.
fn with_trail(
    alloc: Global,
    trailing: Trail,
    tree: Result<Re, OutOfMemory>,
) -> Result<Re, OutOfMemory>
    ensures { (t : Tree) → IfOk tree (λ re. tree_of re ≡ t) → IfOk result (λ re. tree_of re ≡ trailed trailing t) }
{
    match trailing {
        Trail::None | Trail::End => tree,
        Trail::Dollar => joined(alloc, tree, last_line_feed(alloc)),
    }
}

/// Builds the tree for an optional line feed that prefers to match nothing.
fn last_line_feed(alloc: Global) -> Result<Re, OutOfMemory>
    ensures { IfOk result (λ re. tree_of re ≡ Tree.either Tree.empty (Tree.one is_line_feed)) }
{
    let line_feed = Re::One(CodeSet::range(alloc, 10, 10)?);
    Re::either(alloc, Re::Empty, line_feed)
}

/// Prepends as few characters as possible to the tree, unless a leading anchor ties it to the start. Propagates a failure.
fn after_any(
    alloc: Global,
    universe: Universe,
    leading: bool,
    tree: Result<Re, OutOfMemory>,
) -> Result<Re, OutOfMemory>
    ensures { (t : Tree) → IfOk tree (λ re. tree_of re ≡ t) → IfOk result (λ re. tree_of re ≡ sought universe leading t) }
{
    if leading {
        tree
    } else {
        joined(alloc, any_codes(alloc, universe), tree)
    }
}

/// Builds the tree for any number of characters of the universe, as few as possible.
fn any_codes(alloc: Global, universe: Universe) -> Result<Re, OutOfMemory>
    ensures { IfOk result (λ re. tree_of re ≡ Tree.many (Tree.one (is_code universe)) false) }
{
    let any = Re::One(CodeSet::range(alloc, 0, universe.count() - 1)?);
    Re::many(alloc, any, false)
}

/// Builds the tree of a part of a pattern.
#[cycle(lowering)]
fn lower_part(alloc: Global, part: &Pat) -> Result<Re, OutOfMemory>
    ensures { IfOk result (λ re. tree_of re ≡ lowered (pat_of part.now)) }
{
    match part {
        Pat::Nothing { .. } | Pat::Outside { .. } => Ok(Re::Empty),
        Pat::Class { set, .. } => Ok(Re::One(set.copy()?)),
        Pat::Seq { items, .. } => lower_items(alloc, items.as_slice()),
        Pat::Choice { branches, .. } => lower_branches(alloc, branches.as_slice()),
        Pat::Repeat {
            min,
            max,
            greedy,
            body,
            ..
        } => lower_repeat(alloc, body, *min, *max, *greedy),
        Pat::Group { body, .. } => lower_part(alloc, body),
        Pat::Anchor {
            kind,
            multiline,
            ..
        } => Ok(Re::Guard(anchor_guard(*kind, *multiline))),
        Pat::Boundary { negated, ascii, .. } => { Ok(Re::Guard(boundary_guard(*negated, *ascii))) }
        Pat::Look {
            behind,
            negated,
            set,
            ..
        } => Ok(Re::Guard(Guard::Look {
            behind: *behind,
            negated: *negated,
            set: set.copy()?,
        })),
    }
}

/// Builds the tree of a sequence of items.
#[cycle(lowering)]
fn lower_items(alloc: Global, items: &[Pat]) -> Result<Re, OutOfMemory>
    ensures { IfOk result (λ re. tree_of re ≡ in_turn (items_lowered (items_of (map pat_of items.now)))) }
{
    let mut rest = None;
    for item in items.iter().rev() {
        let first = lower_part(alloc, item);
        let Ok(all) = followed(alloc, first, rest) else {
            return Err(OutOfMemory);
        };
        rest = Some(all);
    }
    Ok(whole(rest))
}

/// Builds the tree of a choice between branches.
#[cycle(lowering)]
fn lower_branches(alloc: Global, branches: &[Branch]) -> Result<Re, OutOfMemory>
    ensures { IfOk result (λ re. tree_of re ≡ one_of (branches_lowered (branches_of (map branch_tree branches.now)))) }
{
    let mut rest = None;
    for branch in branches.iter().rev() {
        let first = lower_part(alloc, &branch.body);
        let Ok(all) = preferred(alloc, first, rest) else {
            return Err(OutOfMemory);
        };
        rest = Some(all);
    }
    Ok(whole(rest))
}

/// Builds the tree of a repeated part. The part is lowered again for each copy.
#[cycle(lowering)]
fn lower_repeat(
    alloc: Global,
    body: &Pat,
    min: u32,
    max: Option<u32>,
    greedy: bool,
) -> Result<Re, OutOfMemory>
    ensures { IfOk result (λ re. tree_of re ≡ times min max greedy (lowered (pat_of body.now))) }
{
    let tail = match max {
        None => any_number(alloc, lower_part(alloc, body), greedy),
        Some(max) => lower_options(alloc, body, max.saturating_sub(min), greedy),
    };
    let Ok(mut rest) = tail else {
        return Err(OutOfMemory);
    };
    for _ in 0..min {
        let copy = lower_part(alloc, body);
        let Ok(all) = followed(alloc, copy, rest) else {
            return Err(OutOfMemory);
        };
        rest = Some(all);
    }
    Ok(whole(rest))
}

/// Builds the tree of up to `count` optional copies of a part, each nested in the one before it. Returns `None` if `count`
/// is 0.
#[cycle(lowering)]
fn lower_options(
    alloc: Global,
    body: &Pat,
    count: u32,
    greedy: bool,
) -> Result<Option<Re>, OutOfMemory>
    ensures { IfOk result (λ o. trees_of_option o ≡ options greedy (lowered (pat_of body.now)) count) }
{
    let mut rest = None;
    for _ in 0..count {
        let copy = lower_part(alloc, body);
        let copies = followed(alloc, copy, rest);
        let Ok(option) = optional(alloc, copies, greedy) else {
            return Err(OutOfMemory);
        };
        rest = Some(option);
    }
    Ok(rest)
}

/// Returns the tree, or the empty tree if there is none.
fn whole(rest: Option<Re>) -> Re
    ensures { tree_of result ≡ in_turn (trees_of_option rest) }
{
    rest.unwrap_or(Re::Empty)
}

/// Repeats the tree any number of times. Propagates a failure.
fn any_number(
    alloc: Global,
    tree: Result<Re, OutOfMemory>,
    greedy: bool,
) -> Result<Option<Re>, OutOfMemory>
    ensures { (t : Tree) → IfOk tree (λ re. tree_of re ≡ t) → IfOk result (λ o. trees_of_option o ≡ Tree.many t greedy ∷ []) }
{
    let Ok(tree) = tree else {
        return Err(OutOfMemory);
    };
    Ok(Some(Re::many(alloc, tree, greedy)?))
}

/// Returns the tree, followed by `rest` if there is one. Propagates a failure.
fn followed(
    alloc: Global,
    first: Result<Re, OutOfMemory>,
    rest: Option<Re>,
) -> Result<Re, OutOfMemory>
    ensures { (t : Tree) → IfOk first (λ re. tree_of re ≡ t) → IfOk result (λ re. tree_of re ≡ in_turn (t ∷ trees_of_option rest)) }
{
    match rest {
        None => first,
        Some(rest) => joined(alloc, first, Ok(rest)),
    }
}

/// Returns the first tree followed by the second. Propagates a failure of either.
fn joined(
    alloc: Global,
    first: Result<Re, OutOfMemory>,
    second: Result<Re, OutOfMemory>,
) -> Result<Re, OutOfMemory>
    ensures { (s t : Tree) → IfOk first (λ re. tree_of re ≡ s) → IfOk second (λ re. tree_of re ≡ t)
        → IfOk result (λ re. tree_of re ≡ Tree.both s t) }
{
    let Ok(first) = first else {
        drop(second);
        return Err(OutOfMemory);
    };
    let Ok(second) = second else {
        drop(first);
        return Err(OutOfMemory);
    };
    Re::both(alloc, first, second)
}

/// Returns a choice that tries the tree first and then `rest`, or only the tree if there is no rest. Propagates a failure.
fn preferred(
    alloc: Global,
    first: Result<Re, OutOfMemory>,
    rest: Option<Re>,
) -> Result<Re, OutOfMemory>
    ensures { (t : Tree) → IfOk first (λ re. tree_of re ≡ t) → IfOk result (λ re. tree_of re ≡ one_of (t ∷ trees_of_option rest)) }
{
    let Ok(first) = first else {
        drop(rest);
        return Err(OutOfMemory);
    };
    match rest {
        None => Ok(first),
        Some(rest) => Re::either(alloc, first, rest),
    }
}

/// Makes the tree optional. A greedy option tries the tree first, a lazy one tries nothing first. Propagates a failure.
fn optional(alloc: Global, tree: Result<Re, OutOfMemory>, greedy: bool) -> Result<Re, OutOfMemory>
    ensures { (t : Tree) → IfOk tree (λ re. tree_of re ≡ t) → IfOk result (λ re. tree_of re ≡ option_of greedy t) }
{
    let Ok(tree) = tree else {
        return Err(OutOfMemory);
    };
    if greedy {
        Re::either(alloc, tree, Re::Empty)
    } else {
        Re::either(alloc, Re::Empty, tree)
    }
}

/// Returns the guard of an anchor within a body.
fn anchor_guard(kind: AnchorKind, multiline: bool) -> Guard
    ensures { result ≡ guard_of kind multiline }
{
    match kind {
        AnchorKind::Caret if multiline => Guard::LineStart,
        AnchorKind::Caret | AnchorKind::TextStart => Guard::Start,
        AnchorKind::Dollar => Guard::LineEnd,
        AnchorKind::TextEnd => Guard::TextEnd,
    }
}

/// Returns the guard of a word boundary.
fn boundary_guard(negated: bool, ascii: bool) -> Guard
    ensures { result ≡ guard_of_boundary negated ascii }
{
    if negated {
        Guard::NotWord(ascii)
    } else {
        Guard::Word(ascii)
    }
}
