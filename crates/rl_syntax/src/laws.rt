//! Laws of the definitions, which hold for all trees and texts. The functions do nothing; their `ensures` clauses are the
//! laws.
//!
//! A tree is a lowered pattern. It spans two positions of a text if it can match the characters between them. The run of a
//! tree is the list of what a backtracking matcher does with it from a position on: tests of characters against sets, and
//! ends, which are positions at which the tree has ended. A guard is an anchor, a word boundary or a lookaround of one
//! character.

ghost use Rattle.std.specs.Prelude.{◌≡◌, ℕ, Bool, nat_lt, List, [], ◌∷◌, Option, if◌then◌else◌};
ghost use Rattle.rl_ranges.specs.declared.universe.Universe.{Universe};
ghost use Rattle.rl_syntax.specs.declared.anchors.Trail.{Trail};
ghost use Rattle.rl_syntax.specs.declared.re.Mode.{Mode};
ghost use Rattle.rl_syntax.specs.Tree.{Tree, many};
ghost use Rattle.rl_syntax.specs.Run.{Step, end, onward, one_more, run};
ghost use Rattle.rl_syntax.specs.Lowering.{times};
ghost use Rattle.rl_syntax.specs.Modes.{wrapped};
ghost use Rattle.rl_syntax.specs.SameSpans.{SameSpans, SamePlaces, OneLanguage, Unguarded};
ghost use Rattle.rl_syntax.specs.AllowedPair.{AllowedPair};

/// States the rule of repetition for runs. The run of a loop from a position is the run of its body from there with two
/// changes. Each end at a later position is replaced by the run of the loop from that position; other ends are kept. One more
/// end, at the starting position, comes last if the loop is greedy and first if it is lazy.
pub fn repetition_runs_in_rounds()
    ensures { (e : Tree) (greedy : Bool) (w : List ℕ) (i : ℕ) → run (many e greedy) w i
        ≡ one_more greedy (end i) (onward (run e w i) (λ j. if nat_lt i j then run (many e greedy) w j else end j ∷ [])) }
{}

/// States the star equations: in an allowed pair of nested quantifiers the inner one doesn't change what is spanned, whether
/// each of the two is greedy or lazy. Each of `(t*)*`, `(t+)*` and `(t?)*` spans what `t*` spans, and `(t+)+` spans what `t+`
/// spans.
pub fn stars_under_stars()
    ensures { (l : ℕ) (m : Option ℕ) (least : ℕ) (most : Option ℕ) (inner outer : Bool) (t : Tree) → AllowedPair l m least most
        → SameSpans (times least most outer (times l m inner t)) (times least most outer t) }
{}

/// States two facts about the texts of a universe `u`. If two trees without guards match the same whole texts of `u`, they
/// span the same positions of every text of `u`. If two trees span the same positions of every text of `u`, so do the trees
/// that a mode (`fullmatch`, `match` or `search`) makes from them. The universe `z` of the characters that a search may skip
/// can be another one.
pub fn languages_tell_places()
    ensures places { (u : Universe) (s t : Tree) → Unguarded s → Unguarded t → OneLanguage u s t → SamePlaces u s t }
    ensures modes { (u z : Universe) (mode : Mode) (leading : Bool) (trail : Trail) (s t : Tree) → SamePlaces u s t
        → SamePlaces u (wrapped mode z leading trail s) (wrapped mode z leading trail t) }
{}
