//! A law of matched trees, for all trees and texts. The function does nothing: its contract is what is proved.

ghost use Rattle.std.specs.Prelude.{ℕ, ◌↔◌, List, IsTrue};
ghost use Rattle.rl_ranges.specs.declared.universe.Universe.{Universe};
ghost use Rattle.rl_ranges.specs.Text.{IsText};
ghost use Rattle.rl_syntax.specs.declared.re.Ending.{Ending};
ghost use Rattle.rl_syntax.specs.Tree.{Tree};
ghost use Rattle.rl_syntax.specs.Cost.{matched};
ghost use Rattle.rl_equiv.specs.Languages.{IsIn};
ghost use Rattle.rl_compare.specs.Matched.{matched_tree};

/// The matched tree of a tree and an ending spans a whole text of the universe if and only if the tree matches the text with
/// the ending.
pub fn matched_trees_span_matches()
    ensures { (u : Universe) (t : Tree) (ending : Ending) (w : List ℕ) → IsText u w → IsIn (matched_tree u t ending) w ↔ IsTrue (matched t ending w) }
{}
