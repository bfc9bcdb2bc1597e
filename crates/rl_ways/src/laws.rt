//! Laws of told items, for all trees. The functions do nothing; their `ensures` clauses are the laws. A told item is what a
//! backtracking matcher tries at a point of a tree, with the decisions on the way to it.

ghost use Rattle.std.specs.Prelude.{◌≡◌, ℕ, Bool, List, ◌<◌, ◌≤◌, All, Option, length, map, slice_get};
ghost use Rattle.rl_graph.specs.Paths.{IsPath};
ghost use Rattle.rl_graph.specs.Twins.{IsTwin};
ghost use Rattle.rl_ranges.specs.Letters.{letter_at};
ghost use Rattle.rl_syntax.specs.declared.re.Ending.{Ending};
ghost use Rattle.rl_ranges.specs.declared.universe.Universe.{Universe};
ghost use Rattle.rl_syntax.specs.declared.anchors.Trail.{Trail};
ghost use Rattle.rl_syntax.specs.declared.re.Mode.{Mode};
ghost use Rattle.rl_syntax.specs.Tree.{Tree, size};
ghost use Rattle.rl_syntax.specs.PatTree.{PatTree};
ghost use Rattle.rl_syntax.specs.Modes.{tree_in};
ghost use Rattle.rl_ways.specs.Origins.{node_kinds, kind_from, origins_in};
ghost use Rattle.rl_prio.specs.Items.{first, after};
ghost use Rattle.rl_prio.specs.Letters.{letters};
ghost use Rattle.rl_prio.specs.States.{moves};
ghost use Rattle.rl_prio.specs.Automaton.{Automaton, accepting_state, moves_at};
ghost use Rattle.rl_prio.specs.StandsFor.{StandsFor};
ghost use Rattle.rl_ways.specs.Told.{item_of, told_first, told_after, forgotten};
ghost use Rattle.rl_ways.specs.Apart.{ArePart};
ghost use Rattle.rl_ways.specs.Ways.{target_of, told_moves, way, text_way, decisions_of, state_after, IsPoint, Leads, PartsAt, place_of_state, last_of};

/// States that told items without their decisions are the items of `rl_prio`, in the same order.
pub fn told_items_are_items()
    ensures entered { (t : Tree) (b n : ℕ) → forgotten (told_first t b n) ≡ first t b }
    ensures later { (t : Tree) (b n p : ℕ) → forgotten (told_after t b n p) ≡ after t b p }
{}

/// States that no two told items of a list have the same decisions. More than that, they part: they decide differently at one
/// node, after the same decisions.
pub fn told_items_part()
    ensures entered { (t : Tree) (b n : ℕ) → ArePart (told_first t b n) }
    ensures later { (t : Tree) (b n p : ℕ) → ArePart (told_after t b n p) }
{}

/// States that the told moves of a state on a letter lead where its moves lead, in the same order, and part. So two different
/// lists of move numbers along one word are told differently, and each way has a told item for each letter.
pub fn different_moves_are_told_differently()
    ensures moves { (t : Tree) (ending : Ending) (n q letter : ℕ)
        → map (λ m. target_of t ending n (slice_get (letters t n) letter) (item_of m)) (told_moves t n q letter) ≡ moves t ending n q letter }
    ensures part { (t : Tree) (n q letter : ℕ) → ArePart (told_moves t n q letter) }
    ensures apart { (t : Tree) (ending : Ending) (n : ℕ) (w p r : List ℕ) (q s u : ℕ)
        → IsPath (moves t ending n) q s p w → IsPath (moves t ending n) q u r w → (p ≡ r → ⊥)
        → decisions_of (way t ending n q w p) ≡ decisions_of (way t ending n q w r) → ⊥ }
    ensures whole { (t : Tree) (ending : Ending) (n : ℕ) (w p : List ℕ) (q s : ℕ)
        → IsPath (moves t ending n) q s p w → length (way t ending n q w p) ≡ length w }
{}

/// States that two different lists of move numbers along a text are told differently, if each of their ways has as many told
/// items as numbers. So their ways aren't the same.
pub fn different_numbers_are_told_differently()
    ensures { (t : Tree) (text p r : List ℕ) (place before : Option ℕ)
        → length (text_way t place before text p) ≡ length p → length (text_way t place before text r) ≡ length r → (p ≡ r → ⊥)
        → decisions_of (text_way t place before text p) ≡ decisions_of (text_way t place before text r) → ⊥ }
{}

/// States, for an automaton that stands for a tree, that the two paths of a twin are told differently, and that a path of the
/// automaton on the letters of a text, from the state after a place, is a way along the text: it reads the whole text, unless it
/// leads to the accepting or the dead state, and leads to the place of the state to which the path leads.
pub fn paths_are_ways()
    ensures twins { (a : Automaton) (t : Tree) (ending : Ending) → StandsFor a t ending → (q : ℕ) (w p r : List ℕ) → IsTwin (moves_at a) q w p r
        → decisions_of (way t ending a.table.codes q w p) ≡ decisions_of (way t ending a.table.codes q w r) → ⊥ }
    ensures read { (a : Automaton) (t : Tree) (ending : Ending) → StandsFor a t ending → (w p : List ℕ) (s : ℕ) (place before : Option ℕ)
        → IsPoint t a.table.codes place before → All (λ c. c < a.table.codes) w
        → IsPath (moves_at a) (state_after t a.table.codes place before) s p (map (letter_at a.table) w) → s < accepting_state a
        → length (text_way t place before w p) ≡ length w }
    ensures lead { (a : Automaton) (t : Tree) (ending : Ending) → StandsFor a t ending → (w p : List ℕ) (from to before last : Option ℕ)
        → IsPoint t a.table.codes from before → IsPoint t a.table.codes to last → All (λ c. c < a.table.codes) w
        → IsPath (moves_at a) (state_after t a.table.codes from before) (state_after t a.table.codes to last) p (map (letter_at a.table) w)
        → Leads from to w (text_way t from before w p) }
{}

/// States, for an automaton that stands for a tree, that a path of the automaton on the letters of a text that isn't empty is a way
/// along the text, if it begins at a state with a path back to itself on these letters, and doesn't lead to the accepting or
/// the dead state. It begins after the place of its first state, with the last code of the text in front, and leads to the
/// place of its last state. No such path begins at the accepting or the dead state.
pub fn cycles_are_ways()
    ensures lead { (a : Automaton) (t : Tree) (ending : Ending) → StandsFor a t ending → (w e p : List ℕ) (r s : ℕ)
        → All (λ c. c < a.table.codes) w → 1 ≤ length w
        → IsPath (moves_at a) r r e (map (letter_at a.table) w) → IsPath (moves_at a) r s p (map (letter_at a.table) w) → s < accepting_state a
        → Leads (place_of_state t a.table.codes r) (place_of_state t a.table.codes s) w
        (text_way t (place_of_state t a.table.codes r) (last_of w) w p) }
    ensures begin { (a : Automaton) (t : Tree) (ending : Ending) → StandsFor a t ending → (w p : List ℕ) (r s : ℕ)
        → 1 ≤ length w → IsPath (moves_at a) r s p (map (letter_at a.table) w) → r < accepting_state a }
{}

/// States that the ways of two different lists of move numbers along a text part at some told item: they are the same before it,
/// and there they decide differently at one node, after the same decisions. Both ways must read the whole text.
pub fn different_numbers_part()
    ensures { (t : Tree) (text p r : List ℕ) (place before : Option ℕ)
        → length (text_way t place before text p) ≡ length p → length (text_way t place before text r) ≡ length r
        → length p ≡ length r → (p ≡ r → ⊥)
        → (k : ℕ) × PartsAt k (text_way t place before text p) (text_way t place before text r) }
{}

/// States that each node of the lowered tree of a pattern in a mode has an origin: there are as many origins as nodes, and what
/// the node with a number does is what the origin with this number says, in preorder.
pub fn each_node_has_an_origin()
    ensures kinds { (mode : Mode) (u : Universe) (leading : Bool) (trailing : Trail) (p : PatTree)
        → map kind_from (origins_in mode leading trailing p) ≡ node_kinds (tree_in mode u leading trailing p) }
    ensures count { (mode : Mode) (u : Universe) (leading : Bool) (trailing : Trail) (p : PatTree)
        → length (origins_in mode leading trailing p) ≡ size (tree_in mode u leading trailing p) }
{}
