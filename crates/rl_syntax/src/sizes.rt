//! The sizes of lowered patterns, counted without building the trees.

ghost use Rattle.std.specs.Prelude.{◌≡◌, ℕ, Bool, Option, length, map};
ghost use Rattle.rl_syntax.specs.PatTree.{pat_of, items_of, branches_of};
ghost use Rattle.rl_syntax.specs.Tree.{Tree, size, capped};
ghost use Rattle.rl_syntax.specs.Lowering.{in_turn, one_of, times, lowered, items_lowered, branches_lowered};
ghost use Rattle.rl_syntax.specs.Counting.{branch_tree, joined_nodes};
ghost use Rattle.rl_syntax.specs.Modes.{trailed, sought};
ghost use Rattle.rl_syntax.specs.Pattern.{pattern_tree};

use crate::anchors::Trail;
use crate::pat::{Branch, Pat};
use crate::pattern::Pattern;
use crate::re::Mode;

/// Returns the number of nodes of the pattern's tree in a mode, or 2^64 - 1 if there are more. The tree isn't built, and no
/// memory is allocated.
pub fn size_after(p: &Pattern, mode: Mode) -> u64
    ensures { result ≡ capped (size (pattern_tree p.now mode)) }
{
    let body = part_size(p.body());
    match mode {
        Mode::Fullmatch => body,
        Mode::Match => trailed_size(p.trailing(), body),
        Mode::Search => {
            let trailed = trailed_size(p.trailing(), body);
            if p.leading() {
                trailed
            } else {
                trailed.saturating_add(3)
            }
        }
    }
}

/// Returns the size of a tree together with what the trailing anchor allows after it.
fn trailed_size(trailing: Trail, body: u64) -> u64
    ensures { (t : Tree) → body ≡ capped (size t) → result ≡ capped (size (trailed trailing t)) }
{
    match trailing {
        Trail::None | Trail::End => body,
        Trail::Dollar => body.saturating_add(4),
    }
}

/// Returns the size of the tree of a part of a pattern.
#[cycle(size)]
fn part_size(part: &Pat) -> u64
    ensures { result ≡ capped (size (lowered (pat_of part.now))) }
{
    match part {
        Pat::Seq { items, .. } => items_size(items.as_slice()),
        Pat::Choice { branches, .. } => branches_size(branches.as_slice()),
        Pat::Repeat { min, max, body, .. } => repeated_size(*min, *max, part_size(body)),
        Pat::Group { body, .. } => part_size(body),
        Pat::Nothing { .. }
        | Pat::Class { .. }
        | Pat::Anchor { .. }
        | Pat::Boundary { .. }
        | Pat::Look { .. }
        | Pat::Outside { .. } => 1,
    }
}

/// Returns the size of the tree of a sequence of items.
#[cycle(size)]
fn items_size(items: &[Pat]) -> u64
    ensures { result ≡ capped (size (in_turn (items_lowered (items_of (map pat_of items.now))))) }
{
    let mut nodes: u64 = 0;
    for item in items {
        nodes = nodes.saturating_add(part_size(item));
    }
    joined_size(items.len(), nodes)
}

/// Returns the size of the tree of a choice between branches.
#[cycle(size)]
fn branches_size(branches: &[Branch]) -> u64
    ensures { result ≡ capped (size (one_of (branches_lowered (branches_of (map branch_tree branches.now))))) }
{
    let mut nodes: u64 = 0;
    for branch in branches {
        nodes = nodes.saturating_add(part_size(&branch.body));
    }
    joined_size(branches.len(), nodes)
}

/// Returns the size of `count` trees joined into one, where `nodes` is the sum of their sizes. If `count` is 0, this is the
/// empty tree.
fn joined_size(count: usize, nodes: u64) -> u64
    ensures { (n : ℕ) → nodes ≡ capped n → result ≡ capped (joined_nodes count n) }
{
    if count == 0 {
        1
    } else {
        nodes.saturating_add((count - 1) as u64)
    }
}

/// Returns the size of a repeated tree, where `body` is the size of the tree.
fn repeated_size(min: u32, max: Option<u32>, body: u64) -> u64
    ensures { (greedy : Bool) (t : Tree) → body ≡ capped (size t) → result ≡ capped (size (times min max greedy t)) }
{
    let body = u128::from(body);
    let copies = u128::from(min) * (body + 1);
    let tail = match max {
        None => body + 2,
        Some(max) => u128::from(max.saturating_sub(min)) * (body + 3),
    };
    let nodes = copies + tail;
    if nodes == 0 { 1 } else { saturated(nodes - 1) }
}

/// Returns the number, or 2^64 - 1 if it is larger.
fn saturated(number: u128) -> u64
    ensures { result ≡ capped number }
{
    u64::try_from(number).unwrap_or(u64::MAX)
}
