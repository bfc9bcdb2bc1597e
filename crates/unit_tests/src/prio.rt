//! A test of `rl_prio`: the state of an automaton from which nothing is accepted.

ghost use Rattle.std.specs.Prelude.{◌≡◌, ◌≤◌, IfOk};
ghost use Rattle.rl_syntax.specs.Tree.{tree_of, size, IsOver};

use rl_lists::OutOfMemory;
use rl_prio::{Prio, PrioError};
use rl_ranges::Universe;
use rl_syntax::{Ending, Re};

/// Tests that the automaton of the empty pattern ends with its dead state, which isn't the accepting one.
#[test]
fn the_dead_state_is_the_last_one(rt: HostRuntime) -> Result<(), PrioError> {
    let automaton = Prio::build(rt.alloc(), &Re::Empty, Ending::AtEnd, Universe::Bytes)?;
    let states = automaton.states();
    assert!(rt; automaton.dead() + 1 == states && automaton.accepting() != automaton.dead());
    Ok(())
}
