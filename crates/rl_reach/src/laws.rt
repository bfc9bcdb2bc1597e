//! Laws of searches, for all trees and texts. The functions do nothing; their `ensures` clauses are the laws.
//!
//! A tree is a lowered pattern. `wrapped` makes of a pattern's tree that of a mode. In the mode `match` it adds what a trailing
//! anchor allows after the match. In the mode `search` it also puts any characters before the match, as few as possible, unless
//! there is a leading anchor. The cost of a text is one more than the number of steps that a backtracking matcher takes up to
//! the first hit, or in all if there is none. A guard is an anchor, a word boundary or a lookaround of one character
//! within the pattern. It looks behind if it needs the character before its position.

ghost use Rattle.std.specs.Prelude.{◌≡◌, ℕ, suc, ◌+◌, ◌*◌, ◌^◌, ◌<◌, ◌≤◌, max, Bool, true, false, List, length};
ghost use Rattle.rl_ranges.specs.Text.{IsText};
ghost use Rattle.rl_ranges.specs.declared.universe.Universe.{Universe};
ghost use Rattle.rl_syntax.specs.declared.anchors.Trail.{Trail};
ghost use Rattle.rl_syntax.specs.declared.pattern.Pattern.{Pattern};
ghost use Rattle.rl_syntax.specs.declared.re.Mode.TheVariants as Mode;
ghost use Rattle.rl_syntax.specs.declared.verdict.Family.{Family};
ghost use Rattle.rl_syntax.specs.Tree.{Tree};
ghost use Rattle.rl_syntax.specs.Cost.{cost, matched};
ghost use Rattle.rl_syntax.specs.Modes.{wrapped, ending_at};
ghost use Rattle.rl_syntax.specs.Pattern.{pattern_tree};
ghost use Rattle.rl_pairs.specs.RightVerdict.{HasDegree, IsBounded, IsExpo};
ghost use Rattle.rl_reach.specs.declared.bounds.AtLeast.TheVariants as AtLeast;
ghost use Rattle.rl_reach.specs.Behind.{looks_behind};
ghost use Rattle.rl_reach.specs.Places.{cost_of_all, cost_in_turn, after_one};
ghost use Rattle.rl_reach.specs.Bounds.{question_in, behind_one, IsAtLeast, IsAtMost};

/// A search costs at least what a match costs, on every text. `same`: if the match succeeds, both cost the same. `more`: if it
/// fails and there is no leading anchor, the search costs more. `anchored`: with a leading anchor both always cost the same.
pub fn search_costs_its_match()
    ensures least { (u : Universe) (leading : Bool) (trail : Trail) (t : Tree) (w : List ℕ)
        → cost (wrapped Mode.Match u leading trail t) (ending_at trail) w ≤ cost (wrapped Mode.Search u leading trail t) (ending_at trail) w }
    ensures same { (u : Universe) (leading : Bool) (trail : Trail) (t : Tree) (w : List ℕ)
        → matched (wrapped Mode.Match u leading trail t) (ending_at trail) w ≡ true
        → cost (wrapped Mode.Search u leading trail t) (ending_at trail) w ≡ cost (wrapped Mode.Match u leading trail t) (ending_at trail) w }
    ensures more { (u : Universe) (trail : Trail) (t : Tree) (w : List ℕ)
        → matched (wrapped Mode.Match u false trail t) (ending_at trail) w ≡ false
        → cost (wrapped Mode.Match u false trail t) (ending_at trail) w < cost (wrapped Mode.Search u false trail t) (ending_at trail) w }
    ensures anchored { (u : Universe) (trail : Trail) (t : Tree) (w : List ℕ)
        → cost (wrapped Mode.Search u true trail t) (ending_at trail) w ≡ cost (wrapped Mode.Match u true trail t) (ending_at trail) w }
{}

/// A search is a match from each place, if no guard looks behind. `exact`: without a leading anchor its cost is exactly the
/// sum of the costs of the matches from the places in turn, up to the first that succeeds. So it is at most one more than the
/// sum of the costs of the matches from all places (`all`). If a match of each text costs at most `c (n + 1)^d`, where `n` is
/// the length of the text, a search costs at most `1 + c (n + 1)^(d + 1)` (`power`).
pub fn search_is_a_match_from_each_place()
    ensures exact { (u : Universe) (trail : Trail) (t : Tree) (w : List ℕ) → looks_behind t ≡ false → IsText u w
        → cost (wrapped Mode.Search u false trail t) (ending_at trail) w ≡ cost_in_turn (wrapped Mode.Match u false trail t) (ending_at trail) w }
    ensures all { (u : Universe) (leading : Bool) (trail : Trail) (t : Tree) (w : List ℕ) → looks_behind t ≡ false → IsText u w
        → cost (wrapped Mode.Search u leading trail t) (ending_at trail) w ≤ 1 + cost_of_all (wrapped Mode.Match u leading trail t) (ending_at trail) w }
    ensures power { (u : Universe) (leading : Bool) (trail : Trail) (t : Tree) (c d : ℕ) → looks_behind t ≡ false
        → ((v : List ℕ) → IsText u v → cost (wrapped Mode.Match u leading trail t) (ending_at trail) v ≤ c * (length v + 1) ^ d)
        → (w : List ℕ) → IsText u w → cost (wrapped Mode.Search u leading trail t) (ending_at trail) w ≤ 1 + c * (length w + 1) ^ suc d }
{}

/// A search is also a match from each place behind the character before that place, whatever guards there are. So its cost is
/// at most the sum of the costs of the match from the start, and of the matches of one character followed by the pattern from
/// all places.
pub fn search_is_a_match_behind_each_character()
    ensures { (u : Universe) (leading : Bool) (trail : Trail) (t : Tree) (w : List ℕ) → IsText u w
        → cost (wrapped Mode.Search u leading trail t) (ending_at trail) w
        ≤ cost (wrapped Mode.Match u leading trail t) (ending_at trail) w + cost_of_all (after_one u (wrapped Mode.Match u leading trail t)) (ending_at trail) w }
{}

/// What holds of a pattern's match holds of its search. `exponential` and `degree`: a family on which a match grows
/// exponentially, or with a degree of at least 1, shows the same growth of the search. `bounded`: if no guard looks behind and
/// the match has the upper bound of a degree, the search has that of a degree more. `behind`: whatever guards there are, if the
/// match and the match behind one character have the upper bounds of two degrees, the search has that of one degree more than
/// the greater one. The numbers of pairs allowed don't matter.
pub fn search_grows_like_its_match()
    ensures exponential { (p : Pattern) (m n : ℕ) (f : Family) → IsExpo (question_in Mode.Match p m) f
        → IsAtLeast (question_in Mode.Search p n) (AtLeast.Expo f) }
    ensures degree { (p : Pattern) (m n d : ℕ) (f : Family) → 1 ≤ d → HasDegree (question_in Mode.Match p m) d f
        → IsAtLeast (question_in Mode.Search p n) (AtLeast.Degree d f) }
    ensures bounded { (p : Pattern) (m n d : ℕ) → looks_behind (pattern_tree p Mode.Match) ≡ false → IsBounded (question_in Mode.Match p m) d
        → IsAtMost (question_in Mode.Search p n) (suc d) }
    ensures behind { (p : Pattern) (m k n d e : ℕ) → IsBounded (question_in Mode.Match p m) d → IsBounded (behind_one (question_in Mode.Match p k)) e
        → IsAtMost (question_in Mode.Search p n) (suc (max d e)) }
{}
