//! Laws of ways, for all trees. The functions do nothing; their `ensures` clauses are the laws. A way reads a text code by
//! code, from a place of a tree to another one.

ghost use Rattle.std.specs.Prelude.{◌≡◌, ℕ, ◌≤◌, ◌++◌, List, Option, IsSome, length};
ghost use Rattle.rl_syntax.specs.Family.{copies};
ghost use Rattle.rl_syntax.specs.Tree.{Tree};
ghost use Rattle.rl_ways.specs.declared.origin.Origin.{Origin};
ghost use Rattle.rl_ways.specs.Ways.{text_way, Leads, last_code};
ghost use Rattle.rl_why.specs.Again.{told_again};
ghost use Rattle.rl_why.specs.Loops.{loop_of};
ghost use Rattle.rl_why.specs.Readings.{way_again, IsEntered};

/// States that ways follow one another: a way along a text that leads to a place, and a way from there along a second text,
/// with the last code of the first one in front, are one way along both texts.
pub fn ways_follow()
    ensures { (t : Tree) (from to before : Option ℕ) (text more numbers others : List ℕ) → length numbers ≡ length text
        → Leads from to text (text_way t from before text numbers)
        → text_way t from before (text ++ more) (numbers ++ others)
        ≡ text_way t from before text numbers ++ text_way t to (last_code before text) more others }
{}

/// States that a head and any number of copies of the pump behind it are read by one way: the way of the head, and again and
/// again the way of the pump.
pub fn pumps_are_read_again()
    ensures { (t : Tree) (from before to : Option ℕ) (head pump round : List ℕ) (k : ℕ) (e : IsEntered t from before head pump to)
        → length round ≡ length pump → Leads to to pump (way_again t pump to round)
        → text_way t from before (head ++ copies k pump) (e.numbers ++ copies k round)
        ≡ text_way t from before head e.numbers ++ told_again k (way_again t pump to round) }
{}

/// States that a way of a text that isn't empty, from a place back to itself, goes round a loop.
pub fn rounds_have_loops()
    ensures { (t : Tree) (nodes : List Origin) (place before : Option ℕ) (text numbers : List ℕ) → 1 ≤ length text
        → Leads place place text (text_way t place before text numbers) → IsSome (loop_of t nodes (text_way t place before text numbers)) }
{}
