//! The states that can be part of a split: the states on cycles.

ghost use Rattle.std.specs.Prelude.{◌≡◌, ℕ, ◌<◌, true, false, length, IfOk};
ghost use Rattle.rl_graph.specs.Parts.{number_of, cycle_of};
ghost use Rattle.rl_kernel.specs.Seats.{seats_of};
ghost use Rattle.rl_degree.specs.internal.Kernel.{IsOneComponent, IsKernel};

use rl_graph::Components;
use rl_kernel::Kernel;
use rl_lists::OutOfMemory;
use std::alloc::Global;

/// Returns whether all states on cycles are in the component with the number `number`. `count` is the number of states.
fn is_alone(components: &Components, count: u32, number: u32) -> bool
    requires size { length components.now.numbers ≡ count }
    ensures { result ≡ true → IsOneComponent components.now count number }
{
    for state in 0..count {
        if components.on_cycle(state) && components.of(state) != number {
            return false;
        }
    }
    true
}

/// Returns whether at least two components have states on cycles. `count` is the number of states.
pub(crate) fn has_two(components: &Components, count: u32) -> bool
    requires size { length components.now.numbers ≡ count }
    ensures { result ≡ false → (r q : ℕ) → r < count → q < count → cycle_of components.now r ≡ true → cycle_of components.now q ≡ true → number_of components.now r ≡ number_of components.now q }
{
    for state in 0..count {
        if components.on_cycle(state) {
            return !is_alone(components, count, components.of(state));
        }
    }
    false
}

/// Returns the kernel of a graph with `count` states: the list of its states on cycles, in ascending order. Only these
/// can be part of a split.
///
/// # Errors
/// [`OutOfMemory`] if there is not enough memory for the kernel.
pub(crate) fn kernel_of(
    alloc: Global,
    components: &Components,
    count: u32,
) -> Result<Kernel, OutOfMemory>
    requires size { length components.now.numbers ≡ count }
    ensures { IfOk result (λ k. IsKernel components.now count (seats_of k)) }
{
    let mut kernel = Kernel::new(alloc, count)?;
    for state in 0..count {
        if components.on_cycle(state) {
            kernel.put(state, components.of(state))?;
        }
    }
    Ok(kernel)
}
