//! Laws of ordered automata, for all trees and texts. The functions do nothing; their `ensures` clauses are the laws. An
//! automaton stands for a tree and an ending if its letters, states and moves are the ones that the tree and the ending
//! define. The run of a tree on a text is the list of the steps that a backtracking matcher takes if it never stops early, and
//! the walk of an automaton is the list of its tries of moves. A step is a hit if a match ends with it. The cost is one more
//! than the number of steps up to and including the first hit, or than the number of all steps if there is no hit. A place of
//! a tree is one of its sets, and its guards are its anchors, its word boundaries and its lookarounds of one character. Letters
//! are of the same kind if the guards don't distinguish between them.

ghost use Rattle.std.specs.Prelude.{◌≡◌, ◌↔◌, ◌⊎◌, ℕ, ◌+◌, ◌*◌, ◌^◌, ◌<◌, ◌≤◌, Bool, true, false, List, [], length, All, IsTrue};
ghost use Rattle.rl_ranges.specs.Letters.{alike, classes};
ghost use Rattle.rl_syntax.specs.declared.re.Ending.{Ending};
ghost use Rattle.rl_syntax.specs.declared.re.Ending.TheVariants.{AtEnd, Anywhere};
ghost use Rattle.rl_syntax.specs.Tree.{Tree, size, guards_in, has_look};
ghost use Rattle.rl_syntax.specs.Language.{Spans};
ghost use Rattle.rl_syntax.specs.Cost.{all_tests, cost, matched};
ghost use Rattle.rl_prio.specs.Items.{first, after, longest};
ghost use Rattle.rl_prio.specs.Letters.{all_sets, kinds};
ghost use Rattle.rl_prio.specs.Measure.{measure};
ghost use Rattle.rl_prio.specs.States.{state_count};
ghost use Rattle.rl_prio.specs.Automaton.{Automaton, letters_count, accepting_state, dead_state, moves_at};
ghost use Rattle.rl_prio.specs.Walk.{walk, word_at, walk_cost, walk_matched};
ghost use Rattle.rl_prio.specs.StandsFor.{StandsOver, StandsFor};

/// States that the walk of an automaton that stands for a tree is the run of the tree, for every text of the automaton's
/// codes: both have the same steps, with the same hits and misses. So they have the same cost, and match the same texts. The
/// automaton's letters may come from other sets than the tree's own if codes that those sets don't distinguish aren't
/// distinguished by the tree's sets either.
pub fn walk_is_run()
    ensures costs { (a : Automaton) (t : Tree) (ending : Ending) (w : List ℕ) → StandsFor a t ending → All (λ c. c < a.table.codes) w
        → walk_cost a (word_at a w) ≡ cost t ending w }
    ensures matches { (a : Automaton) (t : Tree) (ending : Ending) (w : List ℕ) → StandsFor a t ending → All (λ c. c < a.table.codes) w
        → walk_matched a (word_at a w) ≡ matched t ending w }
    ensures steps_over { (a : Automaton) (t : Tree) (ending : Ending) (sets : List (ℕ → Bool)) → StandsOver a t ending sets
        → ((c d : ℕ) → alike sets c d ≡ true → alike (all_sets t) c d ≡ true)
        → (w : List ℕ) → All (λ c. c < a.table.codes) w → walk a 0 (word_at a w) ≡ all_tests t ending w }
    ensures costs_over { (a : Automaton) (t : Tree) (ending : Ending) (sets : List (ℕ → Bool)) → StandsOver a t ending sets
        → ((c d : ℕ) → alike sets c d ≡ true → alike (all_sets t) c d ≡ true)
        → (w : List ℕ) → All (λ c. c < a.table.codes) w → walk_cost a (word_at a w) ≡ cost t ending w }
    ensures matches_over { (a : Automaton) (t : Tree) (ending : Ending) (sets : List (ℕ → Bool)) → StandsOver a t ending sets
        → ((c d : ℕ) → alike sets c d ≡ true → alike (all_sets t) c d ≡ true)
        → (w : List ℕ) → All (λ c. c < a.table.codes) w → walk_matched a (word_at a w) ≡ matched t ending w }
{}

/// States that a text is matched to its end if and only if the tree spans all of it, and matched anywhere if and only if the
/// tree spans a prefix of it.
pub fn matches_are_spans()
    ensures to_end { (t : Tree) (w : List ℕ) → IsTrue (matched t AtEnd w) ↔ Spans t w 0 (length w) }
    ensures to_some { (t : Tree) (w : List ℕ) → IsTrue (matched t Anywhere w) ↔ ((j : ℕ) × Spans t w 0 j) }
{}

/// States, for an automaton that stands for a tree, that each move on the end letter leads to the accepting state or to the
/// dead state, and that neither of these states has a move on any letter.
pub fn end_letter_ends()
    ensures ends { (a : Automaton) (t : Tree) (ending : Ending) (sets : List (ℕ → Bool)) → StandsOver a t ending sets
        → (q : ℕ) → All (λ target. (target ≡ accepting_state a) ⊎ (target ≡ dead_state a)) (moves_at a q (letters_count a)) }
    ensures accepted { (a : Automaton) (t : Tree) (ending : Ending) (sets : List (ℕ → Bool)) → StandsOver a t ending sets
        → (letter : ℕ) → moves_at a (accepting_state a) letter ≡ [] }
    ensures died { (a : Automaton) (t : Tree) (ending : Ending) (sets : List (ℕ → Bool)) → StandsOver a t ending sets
        → (letter : ℕ) → moves_at a (dead_state a) letter ≡ [] }
{}

/// States bounds on the length of item lists, by the size `s` of the tree: the list of entering a tree has at most `2^s`
/// items, and the list after a place of the tree at most `2^(s*s)`. The list of moves of a state on a letter, in an automaton
/// that stands for the tree, has at most `2^(s*s)` items, too.
pub fn item_lists_are_short()
    ensures entered { (t : Tree) (b : ℕ) → length (first t b) ≤ 2 ^ size t }
    ensures later { (t : Tree) (b p : ℕ) → length (after t b p) ≤ 2 ^ (size t * size t) }
    ensures longest { (t : Tree) → longest t ≤ 2 ^ (size t * size t) }
    ensures moves { (a : Automaton) (t : Tree) (ending : Ending) (sets : List (ℕ → Bool)) → StandsOver a t ending sets
        → (q letter : ℕ) → length (moves_at a q letter) ≤ 2 ^ (size t * size t) }
{}

/// States bounds on the numbers of kinds and states. There are at most four kinds if the tree has no lookaround, and only one
/// if it has no guards and there is at least one code. There are never more kinds than letters. A tree of measure `m` has at
/// most `4*m + 3` states. Without a lookaround the measure is the size of the tree. The guards use at most three sets then, one
/// of which is a subset of another.
pub fn states_are_few()
    ensures kinds { (t : Tree) (n : ℕ) → has_look t ≡ false → length (kinds t n) ≤ 4 }
    ensures kinds_of_letters { (t : Tree) (n : ℕ) (sets : List (ℕ → Bool))
        → ((c d : ℕ) → alike sets c d ≡ true → alike (all_sets t) c d ≡ true) → length (kinds t n) ≤ length (classes sets n) }
    ensures one_kind { (t : Tree) (n : ℕ) → guards_in t ≡ [] → 0 < n → length (kinds t n) ≡ 1 }
    ensures size { (t : Tree) (n : ℕ) → size t ≤ measure n t }
    ensures same_size { (t : Tree) (n : ℕ) → has_look t ≡ false → measure n t ≡ size t }
    ensures counted { (t : Tree) (n : ℕ) → state_count t n ≤ 4 * measure n t + 3 }
    ensures states { (a : Automaton) (t : Tree) (ending : Ending) (sets : List (ℕ → Bool)) → StandsOver a t ending sets
        → a.states ≤ 4 * measure a.table.codes t + 3 }
{}
