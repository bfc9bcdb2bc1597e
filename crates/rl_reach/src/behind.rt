//! Guards that look behind: they need the character before their position.

ghost use Rattle.std.specs.Prelude.{◌≡◌};
ghost use Rattle.rl_syntax.specs.Tree.{tree_of};
ghost use Rattle.rl_reach.specs.Behind.{guard_looks_behind, looks_behind};

use rl_syntax::{Guard, Re};

/// Returns whether some guard of the tree looks behind: `\A`, `^`, `\b`, `\B`, or a lookbehind.
pub fn looks_behind(tree: &Re) -> bool
    ensures { result ≡ looks_behind (tree_of tree.now) }
{
    match tree {
        Re::Empty | Re::One(_) => false,
        Re::Guard(guard) => guard_looks_behind(guard),
        Re::Both(first, second) | Re::Either(first, second) => {
            looks_behind(first) || looks_behind(second)
        }
        Re::Many(body, _) => looks_behind(body),
    }
}

/// Returns whether the guard looks behind.
fn guard_looks_behind(guard: &Guard) -> bool
    ensures { result ≡ guard_looks_behind guard.now }
{
    match guard {
        Guard::Start | Guard::LineStart | Guard::Word(_) | Guard::NotWord(_) => true,
        Guard::LineEnd | Guard::TextEnd => false,
        Guard::Look { behind, .. } => *behind,
    }
}
