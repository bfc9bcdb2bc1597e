//! The number of paths that lead from each state to one state along a word, counted up to 2, as a column with an entry
//! for each state. A word is a list of letters. Parallel moves, which have the same state, letter and target, make
//! different paths.

ghost use Rattle.std.specs.Prelude.{◌≡◌, ℕ, ◌+◌, ◌<◌, ◌≤◌, ◌∷◌, [], All, List, length, slice_index, min, take, IfOk};
ghost use Rattle.rl_graph.specs.Graph.{edges_of};
ghost use Rattle.rl_graph.specs.Paths.{total};
ghost use Rattle.rl_numbers.specs.Columns.{IsColumn};

use rl_graph::Multigraph;
use rl_lists::OutOfMemory;
use std::alloc::Global;

/// Returns the sum of the entries of the states in a row, or 2 if the sum is greater.
fn sum_over(row: &[u32], column: &[u8]) -> u8
    requires row_in { All (λ m. m < length column.now) row.now }
    requires low { All (λ k. k ≤ 2) column.now }
    ensures { result ≡ min 2 (total (λ m. slice_index column.now m) row.now) }
{
    let mut sum = 0;
    for m in row {
        sum = (sum + column[*m as usize]).min(2);
    }
    sum
}

/// Returns the column of the empty word: 1 for the state `to`, and 0 for all others.
fn start(alloc: Global, g: &Multigraph, to: u32) -> Result<Vec<u8>, OutOfMemory>
    ensures { IfOk result (λ v. IsColumn (edges_of g.now) g.now.states to [] v.items) }
{
    let mut column = Vec::new(alloc);
    for state in 0..g.states() {
        column.push(if state == to { 1 } else { 0 })?;
    }
    Ok(column)
}

/// Returns the column of the word that begins with `letter` and goes on with the word of which `column` is the column.
fn before(alloc: Global, g: &Multigraph, letter: u32, column: &[u8]) -> Result<Vec<u8>, OutOfMemory>
    requires letter_in { letter < g.now.letters }
    requires size { length column.now ≡ g.now.states }
    requires low { All (λ k. k ≤ 2) column.now }
    ensures longer { IfOk result (λ v. (to : ℕ) (word : List ℕ) → IsColumn (edges_of g.now) g.now.states to word column.now
        → IsColumn (edges_of g.now) g.now.states to (letter ∷ word) v.items) }
    ensures low { IfOk result (λ v. All (λ k. k ≤ 2) v.items) }
{
    let mut sums = Vec::new(alloc);
    for state in 0..g.states() {
        sums.push(sum_over(g.edges(state, letter), column))?;
    }
    Ok(sums)
}

/// Returns, for each state, the number of paths from it to `to` along `word`, or 2 if there are more. The letters of
/// `word` must be letters of the graph. If `to` is not a state, all entries are 0. Each letter takes time linear in the
/// number of states plus the number of moves on it.
///
/// # Errors
/// [`OutOfMemory`] if there is not enough memory for the columns.
pub fn column(alloc: Global, g: &Multigraph, to: u32, word: &[u32]) -> Result<Vec<u8>, OutOfMemory>
    requires { All (λ l. l < g.now.letters) word.now }
    ensures { IfOk result (λ v. IsColumn (edges_of g.now) g.now.states to word.now v.items) }
{
    let mut counts = start(alloc, g, to)?;
    let mut place = word.len();
    while place > 0 {
        place -= 1;
        counts = before(alloc, g, word[place], &counts)?;
    }
    Ok(counts)
}
