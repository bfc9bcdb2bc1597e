//! Laws of threads and of pairs of thread lists, on which the check of a closed relation rests. The functions do nothing;
//! their `ensures` clauses are the laws. A thread is a state of a tree with what is known of the groups. A pair has the thread
//! lists of two matchers that have read the same codes. A relation on pairs is closed if the step of each of its pairs on each
//! code is one of its pairs with other names for positions, and both sides agree at the end of the text.

ghost use Rattle.std.specs.Prelude.{◌≡◌, ℕ, Bool, List, map, Option, Contains};
ghost use Rattle.rl_ranges.specs.declared.universe.Universe.{Universe};
ghost use Rattle.rl_marks.specs.declared.asked.How.{How};
ghost use Rattle.rl_marks.specs.declared.pattern.MarkedPattern.{MarkedPattern};
ghost use Rattle.rl_marks.specs.declared.threads.Origin.{Origin};
ghost use Rattle.rl_marks.specs.Marked.{Marked};
ghost use Rattle.rl_marks.specs.Finds.{finds};
ghost use Rattle.rl_marks.specs.Hits.{Matcher};
ghost use Rattle.rl_marks.specs.internal.Caps.{Caps};
ghost use Rattle.rl_marks.specs.internal.MarkItems.{first};
ghost use Rattle.rl_marks.specs.internal.Walk.{walk, kept};
ghost use Rattle.rl_marks.specs.internal.Threads.{Thread, distinct, named, moved, first_ended, walks};
ghost use Rattle.rl_marks.specs.SameFinds.{matcher_in, FindAlike};
ghost use Rattle.rl_marks.specs.internal.Seeking.{asked_in, origin_in, SameFrom};
ghost use Rattle.rl_marks.specs.internal.Pairs.{ThreadPair, IsClosed};
ghost use Rattle.rl_marks.specs.internal.PairLetters.{IsClosedOver};

/// States that the walk of the items of entering a tree finds what the tree finds, in the same order: the same ends, with what
/// is known of the groups there.
pub(crate) fn walks_are_finds()
    ensures { (m : Marked) (w : List ℕ) (i : ℕ) (c : Caps) → walk m w (first m 0) i c ≡ map (kept c) (finds m w i) }
{}

/// States that dropping later threads in the state of an earlier one doesn't change the first hit of a list of threads.
pub(crate) fn later_threads_are_dropped()
    ensures { (m : Marked) (w : List ℕ) (hit : ℕ → Bool) (i : ℕ) (threads : List Thread)
        → first_ended hit (walks m w (distinct threads) i) ≡ first_ended hit (walks m w threads i) }
{}

/// States that the step of a list of threads commutes with replacing names of positions.
pub(crate) fn names_are_carried()
    ensures { (f : ℕ → ℕ) (m : Marked) (accepts : Bool) (before : Option ℕ) (code i : ℕ) (threads : List Thread)
        → named f (moved m accepts before code i threads) ≡ moved m accepts before code (f i) (named f threads) }
{}

/// States that both matchers find the same from `origin` if a relation on pairs of thread lists is closed.
pub(crate) fn closed_relations_are_sound()
    ensures { (u : Universe) (origin : Origin) (s t : Matcher) (relation : List ThreadPair)
        → IsClosed u origin s t (Contains relation) → SameFrom origin u s t }
{}

/// States that both matchers find the same from `origin` if a relation is closed by letters, that is, if its steps are right
/// on one code of each letter.
pub(crate) fn letters_are_enough()
    ensures { (u : Universe) (origin : Origin) (s t : Matcher) (relation : List ThreadPair)
        → IsClosedOver u origin s t (Contains relation) → SameFrom origin u s t }
{}

/// States that two patterns find alike, by how they are asked, if a relation on the pairs of their thread lists is closed by
/// letters.
pub(crate) fn patterns_find_alike()
    ensures { (how : How) (p q : MarkedPattern) (relation : List ThreadPair)
        → IsClosedOver p.universe (origin_in how) (asked_in how p.universe (matcher_in how p)) (asked_in how p.universe (matcher_in how q)) (Contains relation)
        → FindAlike how p q }
{}
