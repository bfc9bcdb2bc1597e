//! Laws of certificates. The functions do nothing: what they ensure is what is proved.
//!
//! A question is a tree with an ending, a universe of texts, and the greatest number of live pairs allowed. A pair is a state
//! of the automaton with a set: the states that were tried before it. A rest is a list of letters followed by the end letter;
//! a set refuses it if none of its members accepts it. A live pair is the first pair, or a pair whose set refuses some rest
//! and to which a live pair has a move. The live pairs are the states of a graph, numbered from 0. A twin of a state is two
//! different paths from it back to itself along one word. A split is two different states with paths along one word from the
//! first to itself, from the first to the second, and from the second to itself. A chain is a list of splits, each of which is
//! reached from the one before it. A triple is three states of the same rank. In the contracts, `next` gives the moves of the
//! graph, `at` its pairs, and `n` their number.

ghost use Rattle.std.specs.Prelude.{◌≡◌, ℕ, suc, ◌<◌, ◌≤◌, true, List, length};
ghost use Rattle.rl_graph.specs.Paths.{Each, paths};
ghost use Rattle.rl_graph.specs.Twins.{Link, ChainFrom, IsRank};
ghost use Rattle.rl_numbers.specs.Least.{LeastTriple, AreMoreThan};
ghost use Rattle.rl_numbers.specs.declared.numbering.TheConstants.{MOST_TRIPLES};
ghost use Rattle.rl_cert.specs.TooLarge.{IsTooLarge};
ghost use Rattle.rl_degree.specs.Chains.{AreRanks};
ghost use Rattle.rl_pairs.specs.Families.{Chained, chain_heads, chain_pumps, to_end};
ghost use Rattle.rl_pairs.specs.LivePairs.{refused};
ghost use Rattle.rl_cert.specs.Numbered.{AreLevels};
ghost use Rattle.rl_cert.specs.Ways.{IsWay, chain_anchors};
ghost use Rattle.rl_prio.specs.Automaton.{Automaton};
ghost use Rattle.rl_pairs.specs.declared.pair.Pair.{Pair};
ghost use Rattle.rl_pairs.specs.RightVerdict.{Question, RightVerdict};
ghost use Rattle.rl_cert.specs.declared.certificate.Certificate.{Certificate};
ghost use Rattle.rl_cert.specs.declared.limits.TheConstants.{MOST_CERTIFICATE_BYTES};
ghost use Rattle.rl_cert.specs.Holds.{Holds, IsPairGraphOf, Shows};
ghost use Rattle.rl_cert.specs.Form.{IsForm, form_text, IsWritten};

/// Soundness: the verdict of a certificate that holds is right.
pub fn certificates_are_sound()
    ensures { (q : Question) (c : Certificate) → Holds q c → RightVerdict q c.verdict }
{}

/// A question has only one numbered graph of live pairs: a certificate shows the same, whichever automaton stands for the
/// question, and whichever graph of its pairs, numbered in the order of first sight, is used.
pub fn one_graph_decides()
    ensures graph { (q : Question) (a b : Automaton) (next other : ℕ → ℕ → List ℕ) (at with : ℕ → Pair) (n m : ℕ)
        → IsPairGraphOf q a next at n → IsPairGraphOf q b other with m
        → (n ≡ m) × (next ≡ other) × ((i : ℕ) → i < n → at i ≡ with i) }
    ensures shows { (q : Question) (a b : Automaton) (next other : ℕ → ℕ → List ℕ) (at with : ℕ → Pair) (n m : ℕ) (c : Certificate)
        → IsPairGraphOf q a next at n → IsPairGraphOf q b other with m → Shows q a next at n c c.verdict → Shows q b other with m c c.verdict }
{}

/// `way`: a chain of splits from the state `s` that ends on a cycle gives the path of a certificate: its anchors are the
/// starts and ends of the splits and then the state of the cycle. `levels`: the ranks of the states are right ranks for the
/// degree `d + 1`, if no chain of splits has more than `d` links.
pub fn chains_make_certificates()
    ensures way { (a : Automaton) (next : ℕ → ℕ → List ℕ) (at : ℕ → Pair) (n s : ℕ) (links : List Link) (x : List ℕ) (z : ℕ) (y last : List ℕ)
        → Each (λ m. (m.from < n) × (m.to < n)) links → z < n → Chained next s links x z → 1 ≤ paths next z z y → refused a at z (to_end a last) ≡ true
        → IsWay a next at n s (chain_anchors links z) (chain_heads links x last) (chain_pumps links y) }
    ensures levels { (q : Question) (a : Automaton) (next : ℕ → ℕ → List ℕ) (at : ℕ → Pair) (n d : ℕ) (ranks : List ℕ) → IsPairGraphOf q a next at n → AreRanks next n ranks
        → ((s : ℕ) (ms : List Link) → s < n → ChainFrom next s ms → length ms ≤ d) → AreLevels next n (suc d) ranks }
{}

/// If a question needs too many triples, the least closed list of triples of any numbered graph of its live pairs, with the
/// ranks of the pairs, has more than 1,000,000 of them.
pub fn one_list_decides()
    ensures { (q : Question) (a : Automaton) (next : ℕ → ℕ → List ℕ) (at : ℕ → Pair) (n : ℕ) (rank : ℕ → ℕ) → IsPairGraphOf q a next at n → ((s : ℕ) → s < n → IsRank next s (rank s))
        → IsTooLarge q → AreMoreThan MOST_TRIPLES (LeastTriple next n rank) }
{}

/// `back`: if all numbers of a certificate fit 32 bits, its verdict isn't undecided, and its text has at most
/// `MOST_CERTIFICATE_BYTES` bytes, the text is read back as this certificate. `one`: bytes are the form of at most one
/// certificate.
pub fn forms_are_read_back()
    ensures back { (c : Certificate) → IsWritten c → length (form_text c) ≤ MOST_CERTIFICATE_BYTES → IsForm (form_text c) c }
    ensures one { (bytes : List ℕ) (c d : Certificate) → IsForm bytes c → IsForm bytes d → c ≡ d }
{}
