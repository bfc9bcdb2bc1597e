//! Laws of growth, for all questions. The functions do nothing: what they ensure is what is proved.
//!
//! A question is a tree with an ending, a universe of texts, and the greatest number of live pairs allowed. A pair is a state
//! of the automaton with a set: the states that were tried before it. A rest is a list of letters followed by the end letter;
//! a set refuses it if none of its members accepts it. A live pair is the first pair, or a pair whose set refuses some rest
//! and to which a live pair has a move. A pair has a twin if two different paths lead from it back to itself along one word. A
//! split is two different pairs with paths along one word from the first to itself, from the first to the second, and from the
//! second to itself. The rank of a pair is the length of a longest chain of splits from it. In the contracts, `next` gives the
//! moves of the graph, `at` its pairs, and `n` their number.

ghost use Rattle.std.specs.Prelude.{◌≡◌, ℕ, suc, ◌+◌, ◌*◌, ◌^◌, ◌<◌, ◌≤◌, List, length};
ghost use Rattle.rl_ranges.specs.Text.{IsText};
ghost use Rattle.rl_syntax.specs.Cost.{cost};
ghost use Rattle.rl_prio.specs.Automaton.{Automaton, IsAutomaton};
ghost use Rattle.rl_graph.specs.Twins.{HasNoTwin, IsRank};
ghost use Rattle.rl_graph.specs.Bounds.{bound_c};
ghost use Rattle.rl_degree.specs.Leavers.{NeverRises, HasNoEqualSplit};
ghost use Rattle.rl_degree.specs.Chains.{HasNoCycle};
ghost use Rattle.rl_pairs.specs.declared.pair.Pair.{Pair};
ghost use Rattle.rl_pairs.specs.PairGraph.{IsPairGraph, IsNumbered};
ghost use Rattle.rl_pairs.specs.RightVerdict.{Question, IsMachine, measure_of};

/// The complete upper bound, stated without reference to any search. Let `s` be the measure of the tree of a question, which
/// is its size if it has no lookaround, and let no live pair have a twin. `numbers`: let the live pairs have numbers that never
/// increase along a move, such that no split leads between pairs with the same number, and let the number of the first pair
/// (and so every number) be at most `d`; then each text of `n` codes costs at most `C(s, d + 1) (n + 1)^(d + 1)`. `ranks`: the
/// ranks of the pairs are such numbers. `flat`: if no live pair is on a cycle, each text costs at most `C(s, 0)`. Here `C` is
/// `bound_c`.
pub fn live_pairs_bound_costs()
    ensures numbers { (q : Question) (a : Automaton) (next : ℕ → ℕ → List ℕ) (at : ℕ → Pair) (n : ℕ)
        → IsMachine q a → IsAutomaton a → IsPairGraph a next at n → IsNumbered a next at n → HasNoTwin next
        → (number : ℕ → ℕ) (d : ℕ) → NeverRises next n number → HasNoEqualSplit next n number → number 0 ≤ d
        → (w : List ℕ) → IsText q.universe w → cost q.tree q.ending w ≤ bound_c (measure_of q) (suc d) * (length w + 1) ^ suc d }
    ensures ranks { (q : Question) (a : Automaton) (next : ℕ → ℕ → List ℕ) (at : ℕ → Pair) (n : ℕ)
        → IsMachine q a → IsAutomaton a → IsPairGraph a next at n → IsNumbered a next at n → HasNoTwin next
        → (rank : ℕ → ℕ) → ((i : ℕ) → i < n → IsRank next i (rank i))
        → (w : List ℕ) → IsText q.universe w → cost q.tree q.ending w ≤ bound_c (measure_of q) (suc (rank 0)) * (length w + 1) ^ suc (rank 0) }
    ensures flat { (q : Question) (a : Automaton) (next : ℕ → ℕ → List ℕ) (at : ℕ → Pair) (n : ℕ)
        → IsMachine q a → IsAutomaton a → IsPairGraph a next at n → IsNumbered a next at n → HasNoCycle next
        → (w : List ℕ) → IsText q.universe w → cost q.tree q.ending w ≤ bound_c (measure_of q) 0 }
{}
