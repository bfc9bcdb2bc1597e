//! Laws of paths in multigraphs, for all graphs. The functions do nothing: what they ensure is what is proved. A graph
//! is a function from a state and a letter to the ordered list of the targets of its moves. A twin is a state with two
//! different paths to itself along one word. A split is two different states `r` and `q` with paths from `r` to `r`,
//! from `r` to `q` and from `q` to `q` along one word. In a chain of splits from a state, the state reaches the first
//! state of the first split, and the second state of each split reaches the first state of the next one. The rank of a
//! state is the number of splits in a longest chain from it. The product of two copies of a graph has the pairs of
//! states as its states; in it, both states of a pair move on the same letter. A part is a strongly connected component
//! of the product.

ghost use Rattle.std.specs.Prelude.{◌≡◌, ◌≢◌, ℕ, suc, ◌+◌, ◌*◌, ◌^◌, ◌<◌, ◌≤◌, Bool, List, [], ◌∷◌, ◌++◌, length};
ghost use Rattle.rl_graph.specs.Paths.{Pairs, paths, Reaches, IsWithin, IsBounded};
ghost use Rattle.rl_graph.specs.Twins.{HasNoTwin, IsSplit, Link, ChainFrom, IsRank};
ghost use Rattle.rl_graph.specs.Bounds.{bound_b, bound_h};
ghost use Rattle.rl_degree.specs.Leavers.{NeverRises, HasNoSplit, HasNoEqualSplit};
ghost use Rattle.rl_degree.specs.Passages.{Passage, Later, FiveOfOneColour};
ghost use Rattle.rl_degree.specs.FallingNumbers.{IsDoubles, IsTriples};

/// Five times. In a graph without a twin, at most one path leads along a word from `s` to `t` if `t` reaches `s`
/// (`alone`). Let `a` and `b` be in different strongly connected components. Take at least `bound_b n` different times,
/// latest first, and for each of them a path from `s` to `t` along `w` that moves from `a` to `b` at that time. The
/// colour of two times is a pair of states: the state of the later time's path at the earlier time, and the state of
/// the earlier time's path at the later time. Then any two of some five of the times have the same colour, and this
/// colour is a split (`cross`).
pub fn five_times()
    ensures alone { (next : ℕ → ℕ → List ℕ) → HasNoTwin next → (s t : ℕ) (w back : List ℕ) → 1 ≤ paths next t s back → paths next s t w ≤ 1 }
    ensures cross { (next : ℕ → ℕ → List ℕ) (n k : ℕ) → IsWithin next n k
        → (s t a b : ℕ) → s < n → (Reaches next a b → Reaches next b a → ⊥)
        → (w : List ℕ) (passages : List (Passage next s t a b w)) → Pairs Later passages → bound_b n ≤ length passages
        → FiveOfOneColour next s t a b w passages }
{}

/// Paths without a split. In a graph without a twin and without a split, there are at most `bound_h n k` paths between
/// two states along a word, where `n` is the number of states and `k` is the largest number of moves of a state on a
/// letter (`no_split`). The same holds in a graph without a cycle (`no_cycle`).
pub fn paths_without_a_split()
    ensures no_split { (next : ℕ → ℕ → List ℕ) (n k : ℕ) → IsWithin next n k → HasNoTwin next → HasNoSplit next n
        → (s t : ℕ) (w : List ℕ) → s < n → paths next s t w ≤ bound_h n k }
    ensures no_cycle { (next : ℕ → ℕ → List ℕ) (n k : ℕ) → IsWithin next n k → ((q l : ℕ) (w : List ℕ) → paths next q q (l ∷ w) ≡ 0)
        → (s t : ℕ) (w : List ℕ) → s < n → paths next s t w ≤ bound_h n k }
{}

/// Paths by ranks. Let the states of a graph without a twin have numbers that never rise along a move, with no split
/// between states of equal number. Then at most a constant times `(m + 1)^d` paths lead from a state with a number of
/// at most `d` to any one state along a word of `m` letters (`numbers`). The constant depends only on the size of the
/// graph and on `d`. The ranks, which are the lengths of the longest chains of splits, are such numbers (`ranks`).
pub fn paths_by_ranks()
    ensures numbers { (next : ℕ → ℕ → List ℕ) (n k : ℕ) (rank : ℕ → ℕ) → IsWithin next n k → HasNoTwin next
        → NeverRises next n rank → HasNoEqualSplit next n rank
        → (d s t : ℕ) (w : List ℕ) → s < n → rank s ≤ d
        → paths next s t w ≤ (bound_h n k * (1 + n * k)) ^ suc d * suc (length w) ^ d }
    ensures ranks { (next : ℕ → ℕ → List ℕ) (n k : ℕ) (rank : ℕ → ℕ) → IsWithin next n k → HasNoTwin next
        → ((q : ℕ) → q < n → IsRank next q (rank q))
        → (s t : ℕ) (w : List ℕ) → s < n
        → paths next s t w ≤ (bound_h n k * (1 + n * k)) ^ suc (rank s) * suc (length w) ^ rank s }
{}

/// All pairs of states in one part of the product are splits if one is. In a graph without a twin, each pair that
/// reaches a split and is reached from it is a split too (`split`). No part has both a pair of equal states and a pair
/// of different ones (`kinds`).
pub fn one_pair_speaks_for_its_part()
    ensures split { (next : ℕ → ℕ → List ℕ) (r q other_r other_q : ℕ) (v to back : List ℕ) → HasNoTwin next → IsSplit next r q v
        → 1 ≤ paths next other_r r to → 1 ≤ paths next other_q q to → 1 ≤ paths next r other_r back → 1 ≤ paths next q other_q back
        → IsSplit next other_r other_q (to ++ (v ++ back)) }
    ensures kinds { (next : ℕ → ℕ → List ℕ) (s r q : ℕ) (to back : List ℕ) → HasNoTwin next → r ≢ q
        → 1 ≤ paths next s r to → 1 ≤ paths next s q to → 1 ≤ paths next r s back → 1 ≤ paths next q s back → ⊥ }
{}

/// In a graph without a twin, the second state of a split doesn't reach the first (`falls`), and a chain of splits has
/// fewer links than the graph has states (`short`).
pub fn splits_are_never_undone()
    ensures falls { (next : ℕ → ℕ → List ℕ) (r q : ℕ) (v : List ℕ) → HasNoTwin next → IsSplit next r q v → Reaches next q r → ⊥ }
    ensures short { (next : ℕ → ℕ → List ℕ) (n k : ℕ) → IsWithin next n k → HasNoTwin next
        → (s : ℕ) (chain : List Link) → s < n → ChainFrom next s chain → length chain < n }
{}

/// The rank never rises along a path (`reached`), it falls along a split (`split`), and a state without moves has the
/// rank 0 (`still`).
pub fn ranks_fall()
    ensures reached { (next : ℕ → ℕ → List ℕ) (s t d e : ℕ) → IsRank next s d → IsRank next t e → Reaches next s t → e ≤ d }
    ensures split { (next : ℕ → ℕ → List ℕ) (r q d e : ℕ) (y : List ℕ) → IsRank next r d → IsRank next q e → IsSplit next r q y → e < d }
    ensures still { (next : ℕ → ℕ → List ℕ) (s : ℕ) → ((l : ℕ) → next s l ≡ []) → IsRank next s 0 }
{}

/// Falling numbers. A graph has no twin if some pairs of its states have numbers as `IsDoubles` requires: they never
/// rise when both states of a pair move on one letter, and fall when two different moves leave one state (`twins`). Let
/// `rank` give each state any number that never rises along a move. The graph has no split between states for which
/// `rank` is the same if some triples of its states have numbers as `IsTriples` requires (`splits`).
pub fn falling_numbers_exclude()
    ensures twins { (next : ℕ → ℕ → List ℕ) (n k : ℕ) (holds : ℕ → ℕ → Bool) (number : ℕ → ℕ → ℕ) → IsBounded next n k
        → IsDoubles next n holds number → HasNoTwin next }
    ensures splits { (next : ℕ → ℕ → List ℕ) (n k : ℕ) (rank : ℕ → ℕ) (holds : ℕ → ℕ → ℕ → Bool) (number : ℕ → ℕ → ℕ → ℕ) → IsWithin next n k
        → NeverRises next n rank → IsTriples next n rank holds number → HasNoEqualSplit next n rank }
{}
