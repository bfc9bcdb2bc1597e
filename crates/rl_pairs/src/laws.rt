//! Laws of the graph of live pairs, for all automata and trees. The functions do nothing: what they ensure is what is proved.
//!
//! A pair is a state of an automaton with a set: the states that were tried before it on the same text without success. A rest
//! is a list of letters followed by the end letter; a set refuses it if none of its members accepts it. A live pair is the
//! first pair, or a pair whose set refuses some rest and to which a live pair has a move. A twin of a pair is two different
//! paths from it back to itself along one word. A split is two different pairs with paths along one word from the first to
//! itself, from the first to the second, and from the second to itself. A chain is a list of splits, each with a lead, which
//! is a word that leads to it from the split before it or from the first pair. A family has heads and pumps: its text for `k`
//! is the heads in order, with each pump, repeated `k` times, after its head. In the contracts, `next` gives the moves of a
//! graph, `at` its pairs, and `n` their number.

ghost use Rattle.std.specs.Prelude.{◌≡◌, ℕ, suc, ◌+◌, ◌*◌, ◌^◌, ◌<◌, ◌≤◌, Bool, true, List, [], ◌∷◌, ◌++◌, length, All};
ghost use Rattle.rl_ranges.specs.Text.{code_count};
ghost use Rattle.rl_ranges.specs.declared.universe.Universe.{Universe};
ghost use Rattle.rl_syntax.specs.declared.re.Ending.{Ending};
ghost use Rattle.rl_syntax.specs.declared.verdict.Family.{Family};
ghost use Rattle.rl_syntax.specs.declared.verdict.Limit.{Limit};
ghost use Rattle.rl_syntax.specs.declared.verdict.Limit.TheVariants as Limit;
ghost use Rattle.rl_syntax.specs.declared.verdict.Verdict.TheVariants.{Degree, Expo, Undecided};
ghost use Rattle.rl_syntax.specs.Tree.{Tree};
ghost use Rattle.rl_prio.specs.Measure.{measure};
ghost use Rattle.rl_syntax.specs.Cost.{cost};
ghost use Rattle.rl_syntax.specs.Family.{pumped, family_text, IsFamily};
ghost use Rattle.rl_prio.specs.Automaton.{Automaton, IsAutomaton, letters_count};
ghost use Rattle.rl_prio.specs.StandsFor.{StandsOver, StandsFor};
ghost use Rattle.rl_prio.specs.Walk.{walk_cost, word_at};
ghost use Rattle.rl_graph.specs.Paths.{Has, paths, walked, IsWithin};
ghost use Rattle.rl_graph.specs.Twins.{Link};
ghost use Rattle.rl_graph.specs.Bounds.{bound_n, bound_k, bound_h};
ghost use Rattle.rl_sets.specs.Live.{IsRest};
ghost use Rattle.rl_pairs.specs.declared.pair.Pair.{Pair};
ghost use Rattle.rl_pairs.specs.LivePairs.{LivePair, refused};
ghost use Rattle.rl_pairs.specs.PairGraph.{IsPairGraph, IsNumbered};
ghost use Rattle.rl_pairs.specs.Counted.{CountedSet, MoreThan};
ghost use Rattle.rl_pairs.specs.Families.{Chained, chain_heads, chain_pumps, to_end, Reads, Spells};
ghost use Rattle.rl_pairs.specs.RightVerdict.{Question, IsMachine, IsExceeded, HasDegree, IsExpo, IsBounded, RightVerdict, measure_of};
ghost use Rattle.rl_syntax.specs.declared.limits.TheConstants.{MOST_COUNTED_SETS};

/// The cost is one plus the number of non-empty paths of live pairs along prefixes of the letters and the end letter, such
/// that the set of the last pair refuses the rest of the letters. `words` states this for the walk of an automaton, and
/// `texts` for the cost of a tree.
pub fn exact_cost_by_live_pairs()
    ensures words { (a : Automaton) (t : Tree) (ending : Ending) (sets : List (ℕ → Bool)) (next : ℕ → ℕ → List ℕ) (at : ℕ → Pair) (n : ℕ)
        → IsAutomaton a → StandsOver a t ending sets → IsPairGraph a next at n
        → (w : List ℕ) → IsRest a w → walk_cost a w ≡ 1 + walked next (refused a at) 0 w }
    ensures texts { (a : Automaton) (t : Tree) (ending : Ending) (next : ℕ → ℕ → List ℕ) (at : ℕ → Pair) (n : ℕ)
        → IsAutomaton a → StandsFor a t ending → IsPairGraph a next at n
        → (w : List ℕ) → All (λ c. c < a.table.codes) w → cost t ending w ≡ 1 + walked next (refused a at) 0 (word_at a w) }
{}

/// The set of a pair contains the image of the set of each pair before it. So if the set of a pair refuses a list of letters,
/// and a word leads to that pair from another one, then the set of the other pair refuses the word followed by the letters.
pub fn earlier_sets_refuse()
    ensures { (a : Automaton) (t : Tree) (ending : Ending) (sets : List (ℕ → Bool)) (next : ℕ → ℕ → List ℕ) (at : ℕ → Pair) (n : ℕ)
        → IsAutomaton a → StandsOver a t ending sets → IsPairGraph a next at n
        → (p q : ℕ) (u v : List ℕ) → 1 ≤ paths next p q u → refused a at q v ≡ true → refused a at p (u ++ v) ≡ true }
{}

/// After the end letter, no pair has any moves. So a word that leads to a pair with moves is made of letters without the end
/// letter. The same holds for each word of the family of a twin or a chain, except the last word.
pub fn words_before_moves_are_letters()
    ensures { (a : Automaton) (t : Tree) (ending : Ending) (sets : List (ℕ → Bool)) (next : ℕ → ℕ → List ℕ) (at : ℕ → Pair) (n : ℕ)
        → IsAutomaton a → StandsOver a t ending sets → IsPairGraph a next at n
        → (p q letter target : ℕ) (w : List ℕ) → 1 ≤ paths next p q w → Has target (next q letter) → All (λ l. l < letters_count a) w }
{}

/// The law of `2^k`. In the graph of live pairs, let `x` lead to a pair that has a twin on `y`, and let the set of this pair
/// refuse `last` followed by the end letter. Then `x`, followed by `y` repeated `k` times, followed by `last`, costs at least
/// `2^k`. `words` states this for the walk of an automaton. `texts` states it for the cost of a tree and each family whose
/// texts have these letters, and `samples` for the family that is made of the sample codes of these letters. `family` states
/// that the latter is a family.
pub fn twins_double()
    ensures words { (a : Automaton) (t : Tree) (ending : Ending) (sets : List (ℕ → Bool)) (next : ℕ → ℕ → List ℕ) (at : ℕ → Pair) (n : ℕ)
        → IsAutomaton a → StandsOver a t ending sets → IsPairGraph a next at n
        → (q : ℕ) (x y last : List ℕ) → 1 ≤ paths next 0 q x → 2 ≤ paths next q q y
        → IsRest a (to_end a last) → refused a at q (to_end a last) ≡ true
        → (k : ℕ) → 2 ^ k ≤ walk_cost a (to_end a (pumped k (x ∷ (last ∷ [])) (y ∷ []))) }
    ensures texts { (a : Automaton) (t : Tree) (ending : Ending) (next : ℕ → ℕ → List ℕ) (at : ℕ → Pair) (n : ℕ)
        → IsAutomaton a → StandsFor a t ending → IsPairGraph a next at n
        → (f : Family) (q : ℕ) (x y last : List ℕ) → Reads a f (x ∷ (last ∷ [])) (y ∷ []) → 1 ≤ paths next 0 q x → 2 ≤ paths next q q y
        → refused a at q (to_end a last) ≡ true → (k : ℕ) → 2 ^ k ≤ cost t ending (family_text f k) }
    ensures samples { (a : Automaton) (t : Tree) (ending : Ending) (next : ℕ → ℕ → List ℕ) (at : ℕ → Pair) (n : ℕ)
        → IsAutomaton a → StandsFor a t ending → IsPairGraph a next at n
        → (f : Family) (q : ℕ) (x y last : List ℕ) → Spells a f (x ∷ (last ∷ [])) (y ∷ []) → 1 ≤ paths next 0 q x → 2 ≤ paths next q q y
        → IsRest a (to_end a last) → refused a at q (to_end a last) ≡ true → (k : ℕ) → 2 ^ k ≤ cost t ending (family_text f k) }
    ensures family { (a : Automaton) (t : Tree) (ending : Ending) (next : ℕ → ℕ → List ℕ) (at : ℕ → Pair) (n : ℕ)
        → IsAutomaton a → StandsFor a t ending → IsPairGraph a next at n
        → (universe : Universe) (f : Family) (q : ℕ) (x y last : List ℕ) → a.table.codes ≡ code_count universe
        → Spells a f (x ∷ (last ∷ [])) (y ∷ []) → 1 ≤ paths next 0 q x → 2 ≤ paths next q q y
        → IsRest a (to_end a last) → IsFamily universe 1 f }
{}

/// The law of `k^d`. In the graph of live pairs, let there be a chain of splits that ends on a cycle on `y`, and let the set
/// of the pair on the cycle refuse `last` followed by the end letter. Consider the word made of the leads, with the word of
/// each split and of the cycle repeated `k` times after its lead, followed by `last`. It costs at least `k^d`, where `d` is
/// one more than the number of splits. `words` states this for the walk of an automaton. `texts` states it for the cost of a
/// tree and each family whose texts have these letters, and `samples` for the family that is made of the sample codes of
/// these letters. `family` states that the latter is a family of degree `d`.
pub fn chains_multiply()
    ensures words { (a : Automaton) (t : Tree) (ending : Ending) (sets : List (ℕ → Bool)) (next : ℕ → ℕ → List ℕ) (at : ℕ → Pair) (n : ℕ)
        → IsAutomaton a → StandsOver a t ending sets → IsPairGraph a next at n
        → (links : List Link) (x : List ℕ) (z : ℕ) (y last : List ℕ) → Chained next 0 links x z → 1 ≤ paths next z z y → 1 ≤ length y
        → IsRest a (to_end a last) → refused a at z (to_end a last) ≡ true
        → (k : ℕ) → k ^ suc (length links) ≤ walk_cost a (to_end a (pumped k (chain_heads links x last) (chain_pumps links y))) }
    ensures texts { (a : Automaton) (t : Tree) (ending : Ending) (next : ℕ → ℕ → List ℕ) (at : ℕ → Pair) (n : ℕ)
        → IsAutomaton a → StandsFor a t ending → IsPairGraph a next at n
        → (f : Family) (links : List Link) (x : List ℕ) (z : ℕ) (y last : List ℕ) → Reads a f (chain_heads links x last) (chain_pumps links y)
        → Chained next 0 links x z → 1 ≤ paths next z z y → 1 ≤ length y
        → refused a at z (to_end a last) ≡ true → (k : ℕ) → k ^ suc (length links) ≤ cost t ending (family_text f k) }
    ensures samples { (a : Automaton) (t : Tree) (ending : Ending) (next : ℕ → ℕ → List ℕ) (at : ℕ → Pair) (n : ℕ)
        → IsAutomaton a → StandsFor a t ending → IsPairGraph a next at n
        → (f : Family) (links : List Link) (x : List ℕ) (z : ℕ) (y last : List ℕ) → Spells a f (chain_heads links x last) (chain_pumps links y)
        → Chained next 0 links x z → 1 ≤ paths next z z y → 1 ≤ length y
        → IsRest a (to_end a last) → refused a at z (to_end a last) ≡ true
        → (k : ℕ) → k ^ suc (length links) ≤ cost t ending (family_text f k) }
    ensures family { (a : Automaton) (t : Tree) (ending : Ending) (next : ℕ → ℕ → List ℕ) (at : ℕ → Pair) (n : ℕ)
        → IsAutomaton a → StandsFor a t ending → IsPairGraph a next at n
        → (universe : Universe) (f : Family) (links : List Link) (x : List ℕ) (z : ℕ) (y last : List ℕ) → a.table.codes ≡ code_count universe
        → Spells a f (chain_heads links x last) (chain_pumps links y) → Chained next 0 links x z → 1 ≤ paths next z z y → 1 ≤ length y
        → IsRest a (to_end a last) → IsFamily universe (suc (length links)) f }
{}

/// The states of a graph of live pairs that is numbered in the order of first sight are the live pairs, each exactly once. So
/// there are more than `m` live pairs if and only if the graph has more than `m` states.
pub fn states_are_live_pairs()
    ensures live { (a : Automaton) (next : ℕ → ℕ → List ℕ) (at : ℕ → Pair) (n : ℕ) → IsPairGraph a next at n → IsNumbered a next at n
        → (i : ℕ) → i < n → LivePair a (at i) }
    ensures numbered { (a : Automaton) (next : ℕ → ℕ → List ℕ) (at : ℕ → Pair) (n : ℕ) → IsPairGraph a next at n
        → (p : Pair) → LivePair a p → (i : ℕ) × (i < n) × (at i ≡ p) }
    ensures more { (a : Automaton) (next : ℕ → ℕ → List ℕ) (at : ℕ → Pair) (n : ℕ) → IsPairGraph a next at n → IsNumbered a next at n
        → (m : ℕ) → m < n → MoreThan m (LivePair a) }
    ensures no_more { (a : Automaton) (next : ℕ → ℕ → List ℕ) (at : ℕ → Pair) (n m : ℕ) → IsPairGraph a next at n
        → n ≤ m → MoreThan m (LivePair a) → ⊥ }
{}

/// A tree has few live pairs for its measure, which is its size if it has no lookaround. An automaton that stands for the tree
/// has at most `N` live pairs, and a numbered graph of them has at most `N` states, with at most `K` moves of a state on a
/// letter. Here `N` is `bound_n` and `K` is `bound_k` of the tree's measure.
pub fn live_pairs_are_few()
    ensures pairs { (a : Automaton) (t : Tree) (ending : Ending) (sets : List (ℕ → Bool)) → IsAutomaton a → StandsOver a t ending sets
        → MoreThan (bound_n (measure a.table.codes t)) (LivePair a) → ⊥ }
    ensures states { (a : Automaton) (t : Tree) (ending : Ending) (sets : List (ℕ → Bool)) (next : ℕ → ℕ → List ℕ) (at : ℕ → Pair) (n : ℕ)
        → IsAutomaton a → StandsOver a t ending sets → IsPairGraph a next at n → IsNumbered a next at n → n ≤ bound_n (measure a.table.codes t) }
    ensures within { (a : Automaton) (t : Tree) (ending : Ending) (sets : List (ℕ → Bool)) (next : ℕ → ℕ → List ℕ) (at : ℕ → Pair) (n : ℕ)
        → StandsOver a t ending sets → IsPairGraph a next at n → IsWithin next n (bound_k (measure a.table.codes t)) }
    ensures bounded { (a : Automaton) (t : Tree) (ending : Ending) (sets : List (ℕ → Bool)) (next : ℕ → ℕ → List ℕ) (at : ℕ → Pair) (n : ℕ)
        → IsAutomaton a → StandsOver a t ending sets → IsPairGraph a next at n → IsNumbered a next at n
        → IsWithin next (bound_n (measure a.table.codes t)) (bound_k (measure a.table.codes t)) }
{}

/// All automata that stand for the same tree and ending over the codes of one universe have the same live pairs and counted
/// sets. `pairs` and `sets`: if the limit is exceeded for one of these automata, it is exceeded for each of them. `graph`: if
/// the graph of live pairs of one of them has at most `max_pairs` states, the limit on pairs isn't exceeded.
pub fn one_automaton_decides()
    ensures pairs { (q : Question) (a : Automaton) → IsMachine q a → IsExceeded q Limit.Pairs → MoreThan q.max_pairs (LivePair a) }
    ensures sets { (q : Question) (a : Automaton) → IsMachine q a → IsExceeded q Limit.Sets → MoreThan MOST_COUNTED_SETS (CountedSet a) }
    ensures graph { (q : Question) (a : Automaton) (next : ℕ → ℕ → List ℕ) (at : ℕ → Pair) (n : ℕ) → IsMachine q a → IsPairGraph a next at n
        → n ≤ q.max_pairs → IsExceeded q Limit.Pairs → ⊥ }
{}

/// If no limit is exceeded, the family of a twin in the graph of live pairs is right for the verdict of exponential growth.
pub fn twins_are_exponential()
    ensures { (q : Question) (a : Automaton) (next : ℕ → ℕ → List ℕ) (at : ℕ → Pair) (n : ℕ)
        → IsMachine q a → IsAutomaton a → IsPairGraph a next at n → ((limit : Limit) → IsExceeded q limit → ⊥)
        → (f : Family) (p : ℕ) (x y last : List ℕ) → Spells a f (x ∷ (last ∷ [])) (y ∷ []) → 1 ≤ paths next 0 p x → 2 ≤ paths next p p y
        → IsRest a (to_end a last) → refused a at p (to_end a last) ≡ true → IsExpo q f }
{}

/// Let no limit be exceeded. `chains`: the family of a chain of splits that ends on a cycle has the degree `d` in the sense of
/// `HasDegree`, which is a lower bound; `d` is one more than the number of splits. `flat`: every family of degree 0 has the
/// degree 0 in this sense.
pub fn chains_have_degree()
    ensures chains { (q : Question) (a : Automaton) (next : ℕ → ℕ → List ℕ) (at : ℕ → Pair) (n : ℕ)
        → IsMachine q a → IsAutomaton a → IsPairGraph a next at n → ((limit : Limit) → IsExceeded q limit → ⊥)
        → (f : Family) (links : List Link) (x : List ℕ) (z : ℕ) (y last : List ℕ) → Spells a f (chain_heads links x last) (chain_pumps links y)
        → Chained next 0 links x z → 1 ≤ paths next z z y → 1 ≤ length y
        → IsRest a (to_end a last) → refused a at z (to_end a last) ≡ true → HasDegree q (suc (length links)) f }
    ensures flat { (q : Question) → ((limit : Limit) → IsExceeded q limit → ⊥) → (f : Family) → IsFamily q.universe 0 f → HasDegree q 0 f }
{}

/// Costs are sums of path counts over prefixes, so bounds on paths give bounds on costs. If the number of paths from the
/// first pair along any word is at most a constant of the graph times the `d`-th power of the length of the word plus one,
/// the cost has a bound of degree `d + 1`. If the graph of live pairs has no cycle and these numbers are at most the bound
/// for paths without a split, the cost has a bound of degree 0.
pub fn paths_bound_costs()
    ensures degree { (q : Question) (a : Automaton) (next : ℕ → ℕ → List ℕ) (at : ℕ → Pair) (n : ℕ)
        → IsMachine q a → IsAutomaton a → IsPairGraph a next at n → IsNumbered a next at n
        → (d : ℕ) → ((p : ℕ) (u : List ℕ) → paths next 0 p u
        ≤ (bound_h (bound_n (measure_of q)) (bound_k (measure_of q)) * (1 + bound_n (measure_of q) * bound_k (measure_of q))) ^ suc d * suc (length u) ^ d)
        → IsBounded q (suc d) }
    ensures flat { (q : Question) (a : Automaton) (next : ℕ → ℕ → List ℕ) (at : ℕ → Pair) (n : ℕ)
        → IsMachine q a → IsAutomaton a → IsPairGraph a next at n → IsNumbered a next at n
        → ((p letter : ℕ) (u : List ℕ) → paths next p p (letter ∷ u) ≡ 0)
        → ((p : ℕ) (u : List ℕ) → paths next 0 p u ≤ bound_h (bound_n (measure_of q)) (bound_k (measure_of q))) → IsBounded q 0 }
{}

/// At most one class of verdicts is right for a question. Two right degrees are equal. If a degree is right, exponential
/// growth isn't. If it is right to name a limit, neither a degree nor exponential growth is right.
pub fn one_class_is_right()
    ensures degrees { (q : Question) (d e : ℕ) (f g : Family)
        → RightVerdict q (Degree d f) → RightVerdict q (Degree e g) → d ≡ e }
    ensures exponential { (q : Question) (d : ℕ) (f g : Family)
        → RightVerdict q (Degree d f) → RightVerdict q (Expo g) → ⊥ }
    ensures undecided { (q : Question) (limit : Limit) (d : ℕ) (f : Family)
        → RightVerdict q (Undecided limit) → RightVerdict q (Degree d f) → ⊥ }
    ensures undecided_or_expo { (q : Question) (limit : Limit) (f : Family)
        → RightVerdict q (Undecided limit) → RightVerdict q (Expo f) → ⊥ }
{}
