//! Laws of finds, for all trees with groups and all texts. The functions do nothing; their `ensures` clauses are the laws. A
//! find is a position at which the tree has ended, with the spans of the groups that were closed on the way. The run of a tree
//! without groups lists what a backtracking matcher does in a text, in order. A matcher is a tree with groups, and where its
//! matches may end.

ghost use Rattle.std.specs.Prelude.{◌≡◌, ℕ, ◌≤◌, Bool, List, length};
ghost use Rattle.rl_ranges.specs.declared.universe.Universe.{Universe};
ghost use Rattle.rl_ranges.specs.Text.{IsText};
ghost use Rattle.rl_syntax.specs.Run.{run};
ghost use Rattle.rl_syntax.specs.PatTree.{PatTree};
ghost use Rattle.rl_syntax.specs.Lowering.{lowered};
ghost use Rattle.rl_marks.specs.Marked.{Marked, plain, IsStrict};
ghost use Rattle.rl_marks.specs.Finds.{finds, ends};
ghost use Rattle.rl_marks.specs.Hits.{Matcher};
ghost use Rattle.rl_marks.specs.Searches.{search_from, matches, SameSearch, SameMatches};
ghost use Rattle.rl_marks.specs.declared.asked.How.{How};
ghost use Rattle.rl_marks.specs.declared.pattern.MarkedPattern.{MarkedPattern};
ghost use Rattle.rl_marks.specs.SameFinds.{SameFinds, FindAlike, FindDifferently};
ghost use Rattle.rl_marks.specs.Marking.{marked};
ghost use Rattle.rl_marks.specs.RunEnds.{run_ends};

/// States that the positions of a tree's finds are the ends of the run of the tree without its groups, in the same order, if
/// each round of a counted repeat that another may follow takes a code by its form (`IsStrict`).
pub fn finds_end_as_runs()
    ensures { (m : Marked) → IsStrict m → (w : List ℕ) (i : ℕ) → ends (finds m w i) ≡ run_ends (run (plain m) w i) }
{}

/// States that matchers that find the same from each position find the same in each search and in each sequence of searches,
/// such as those of `finditer`: matches that begin at the same positions, with the same ends and groups.
pub fn same_finds_search_alike()
    ensures search { (u : Universe) (s t : Matcher) → SameFinds u s t → (w : List ℕ) → IsText u w
        → (i : ℕ) → i ≤ length w → (advance : Bool) → SameSearch (search_from s w advance i) (search_from t w advance i) }
    ensures sequence { (u : Universe) (s t : Matcher) → SameFinds u s t → (w : List ℕ) → IsText u w
        → (n i : ℕ) → i ≤ length w → (advance : Bool) → SameMatches (matches s w n advance i) (matches t w n advance i) }
{}

/// States that the tree with groups of a part of a pattern, without its groups, is the part's tree in `rl_syntax`.
pub fn groups_keep_trees()
    ensures { (p : PatTree) (n : ℕ) → plain (marked p n) ≡ lowered p }
{}

/// States that two patterns that find different matches in some text from some position, asked in one way, don't find the same
/// if they are asked in that way.
pub fn differences_exclude_likeness()
    ensures { (how : How) (p q : MarkedPattern) (w : List ℕ) (i : ℕ) → FindDifferently how p q w i → ¬ FindAlike how p q }
{}
