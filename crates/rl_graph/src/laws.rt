//! Laws of paths in multigraphs, for all graphs. The function does nothing: what it ensures is what is proved. A graph
//! is a function from a state and a letter to the ordered list of the targets of its moves. A twin is a state with two
//! different paths to itself along one word.

ghost use Rattle.std.specs.Prelude.{◌↔◌, ◌≢◌, ℕ, ◌≤◌, List};
ghost use Rattle.rl_graph.specs.Paths.{paths, IsPath};
ghost use Rattle.rl_graph.specs.Twins.{IsTwin, HasNoTwin};

/// Counting paths agrees with listing them by the numbers of their moves. The count is at least 1 if and only if there is
/// such a list (`one`), and at least 2 if and only if there are two different lists (`two`). So the count from a state back
/// to itself along a word is at least 2 if and only if the state has a twin on that word (`twin`), and all such counts are
/// at most 1 if and only if there is no twin (`none`).
pub fn counts_are_paths()
    ensures one { (next : ℕ → ℕ → List ℕ) (s t : ℕ) (w : List ℕ) → (1 ≤ paths next s t w) ↔ ((p : List ℕ) × IsPath next s t p w) }
    ensures two { (next : ℕ → ℕ → List ℕ) (s t : ℕ) (w : List ℕ) → (2 ≤ paths next s t w)
        ↔ ((p : List ℕ) × (r : List ℕ) × (p ≢ r) × IsPath next s t p w × IsPath next s t r w) }
    ensures twin { (next : ℕ → ℕ → List ℕ) (q : ℕ) (w : List ℕ) → (2 ≤ paths next q q w) ↔ ((p : List ℕ) × (r : List ℕ) × IsTwin next q w p r) }
    ensures none { (next : ℕ → ℕ → List ℕ) → HasNoTwin next ↔ ((q : ℕ) (w p r : List ℕ) → IsTwin next q w p r → ⊥) }
{}
