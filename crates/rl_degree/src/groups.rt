//! The states of each component, as linked lists.

ghost use Rattle.std.specs.Prelude.{◌≡◌, ℕ, ◌<◌, length, IfOk};
ghost use Rattle.rl_graph.specs.Parts.{number_of};
ghost use Rattle.rl_degree.specs.internal.Groups.{AreGroupsFrom};

use rl_graph::Components;
use rl_lists::OutOfMemory;
use std::alloc::Global;

/// The states of each component as a linked list in ascending order: `firsts` has the first state of each component,
/// and `nexts` has, for each state, the next one of its component. If there is none, the entry is the number of states.
#[derive(Drop)]
pub(crate) struct Groups {
    pub(crate) firsts: Vec<u32>,
    pub(crate) nexts: Vec<u32>,
}

/// Returns the lists of the states of each component, for a graph with `count` states.
///
/// # Errors
/// [`OutOfMemory`] if there is not enough memory for the lists.
pub(crate) fn groups_of(
    alloc: Global,
    components: &Components,
    count: u32,
) -> Result<Groups, OutOfMemory>
    requires size { length components.now.numbers ≡ count }
    requires below { (q : ℕ) → q < count → number_of components.now q < count }
    ensures { IfOk result (λ v. AreGroupsFrom components.now count 0 v.firsts.items v.nexts.items) }
{
    let mut firsts = vec![in alloc; count; count as usize]?;
    let mut nexts = vec![in alloc; count; count as usize]?;
    let mut state = count;
    while state > 0 {
        state -= 1;
        let component = components.of(state) as usize;
        nexts[state as usize] = firsts[component];
        firsts[component] = state;
    }
    Ok(Groups { firsts, nexts })
}
