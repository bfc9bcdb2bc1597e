//! The search for the word of a split. It goes over triples of states that move side by side on the same letters. The
//! outer two are a pair of a part of the product of two copies of the graph of inner moves. For each of these pairs, a
//! row of bits has the middle states that were met beside it, which are states of the whole graph. One step moves a
//! whole row. The place of a pair is its index among the pairs of the part.

ghost use Rattle.std.specs.Prelude.{◌≡◌, ℕ, ◌<◌, ◌≤◌, ◌+◌, ◌*◌, ◌/◌, ◌%◌, [], ◌∷◌, true, false, length, replicate, slice_index_or, IfOk, OnOk, IfSome, IfNone};
ghost use Rattle.rl_graph.specs.Paths.{Has};
ghost use Rattle.rl_degree.specs.internal.Pairs.{IsTable};
ghost use Rattle.rl_degree.specs.internal.Rows.{field_of, search_state_of, row_with, start_state, number_of_new, steps_with, has_middle, outer_of, outer_moves, behind, word_at, IsRooted, IsReached, IsSearching, IsImage, IsMet, IsFurther, IsFollowedOn, IsFollowedUpTo};

use crate::pairs::{PairTable, pair_of};
use rl_graph::Multigraph;
use rl_lanes::BitRow;
use rl_lists::{Items, OutOfMemory, Word};
use std::alloc::Global;
use std::collections::VecDeque;

/// A step of a search: the number of the step that it follows, and its letter. The steps are numbered from 1, and 0 is
/// the start.
#[derive(Clone, Copy)]
struct Step {
    from: usize,
    letter: u32,
}

/// What a step found: the number of the step, the place of a pair, and the middle states that are new beside it.
#[derive(Drop)]
pub(crate) struct Found {
    step: usize,
    place: usize,
    middle: BitRow,
}

/// A search for a word that leads the pair at `place` back to itself and the middle state `from` to the middle state
/// `to`. `seen` has the middle states that were met beside each pair of the part, and `queue` has what was found and
/// not followed yet. Steps are kept only if `keeps` is true, which the word needs.
#[derive(Drop)]
pub(crate) struct SplitSearch {
    keeps: bool,
    place: usize,
    from: u32,
    to: u32,
    seen: Vec<BitRow>,
    steps: Vec<Step>,
    queue: VecDeque<Found>,
}

/// Returns `count` copies of a row.
///
/// # Errors
/// [`OutOfMemory`] if there is not enough memory for the copies.
pub(crate) fn copies_of(
    alloc: Global,
    row: &BitRow,
    count: usize,
) -> Result<Vec<BitRow>, OutOfMemory>
    ensures { IfOk result (λ v. v.items ≡ replicate count row.now) }
{
    let mut copies = Vec::with_capacity(alloc, count)?;
    for _copy in 0..count {
        copies.push(row.copy()?)?;
    }
    Ok(copies)
}

/// Returns the queue at the start of a search: the middle state `from` beside the pair at `place`. `states` is the
/// number of states.
fn first_queue(
    alloc: Global,
    states: usize,
    place: usize,
    from: u32,
) -> Result<VecDeque<Found>, OutOfMemory>
    requires { from < states }
    ensures { IfOk result (λ q. q.items ≡ record { step = 0; place = place; middle = row_with states from } ∷ []) }
{
    let mut middle = BitRow::zeros(alloc, states)?;
    middle.set(from as usize, true);
    let mut queue = VecDeque::new(alloc);
    queue.push_back(Found {
        step: 0,
        place,
        middle,
    })?;
    Ok(queue)
}

impl SplitSearch {
    /// Returns a search over a part with `pairs` pairs. It starts with the middle state `from` beside the pair at
    /// `place`, and looks for the middle state `to` beside the same pair. The states of the row `hopeless` count as
    /// seen from the start, so they are never followed, except for `from`.
    ///
    /// # Errors
    /// [`OutOfMemory`] if there is not enough memory for the rows.
    pub(crate) fn new(
        alloc: Global,
        keeps: bool,
        hopeless: &BitRow,
        pairs: usize,
        place: usize,
        from: u32,
        to: u32,
    ) -> Result<SplitSearch, OutOfMemory>
        requires place_in { place < pairs }
        requires from_in { from < length hopeless.now }
        ensures { IfOk result (λ s. search_state_of s ≡ start_state keeps hopeless.now pairs place from to) }
    {
        let mut seen = copies_of(alloc, hopeless, pairs)?;
        seen[place].set(from as usize, true);
        let queue = first_queue(alloc, hopeless.len(), place, from)?;
        Ok(SplitSearch {
            keeps,
            place,
            from,
            to,
            seen,
            steps: Vec::new(alloc),
            queue,
        })
    }

    /// Removes from the queue what was found first, and returns it, or `None` if the queue is empty.
    pub(crate) fn next(&mut self) -> Option<Found>
        ensures found { IfSome result (λ f. search_state_of self.old ≡ behind f (search_state_of self.new)) }
        ensures none { IfNone result ((search_state_of self.old).queue ≡ []) }
    {
        self.queue.pop_front()
    }

    /// Returns whether `found` has the goal: the middle state `to` beside the pair with which the search started.
    pub(crate) fn is_goal(&self, found: &Found) -> bool
        requires { self.now.to < length found.now.middle }
        ensures yes { result ≡ true → (found.now.place ≡ self.now.place) × (has_middle found.now self.now.to ≡ true) }
        ensures no { result ≡ false → found.now.place ≡ self.now.place → has_middle found.now self.now.to ≡ true → ⊥ }
    {
        found.place == self.place && found.middle.get(self.to as usize)
    }

    /// Keeps a step on `letter` that follows the step `from`, and returns its number. Returns 0 if the search keeps no
    /// steps.
    fn add_step(&mut self, from: usize, letter: u32) -> Result<usize, OutOfMemory>
        ensures number { IfOk result (λ k. k ≡ number_of_new (search_state_of self.old)) }
        ensures steps { OnOk result (search_state_of self.new ≡ record (search_state_of self.old) { steps = steps_with from letter (search_state_of self.old) }) }
    {
        if !self.keeps {
            return Ok(0);
        }
        self.steps.push(Step { from, letter })?;
        Ok(self.steps.len())
    }

    /// Notes that `letter`, after the step `from`, leads to the middle states `image` beside the pair at `place`. Those
    /// that weren't seen there before go into the queue.
    fn reach(
        &mut self,
        from: usize,
        letter: u32,
        place: usize,
        image: &BitRow,
    ) -> Result<(), OutOfMemory>
        requires place_in { place < length self.old.seen.items }
        requires wide { length (slice_index_or self.old.seen.items place []) ≡ length image.now }
        ensures { OnOk result (IsReached from letter place image.now (search_state_of self.old) (search_state_of self.new)) }
    {
        if image.is_subset(&self.seen[place]) {
            return Ok(());
        }
        let mut middle = image.copy()?;
        middle.subtract(&self.seen[place]);
        let step = self.add_step(from, letter)?;
        self.queue.push_back(Found {
            step,
            place,
            middle,
        })?;
        self.seen[place].or_into(image);
        Ok(())
    }

    /// Notes the middle states `image` beside the pair `next`, to which the found pair moves on `letter`. If the pair
    /// isn't in the list of the part, nothing changes.
    fn meet(
        &mut self,
        g: &Multigraph,
        table: &PairTable,
        part: u64,
        found: &Found,
        letter: u32,
        image: &BitRow,
        next: u64,
    ) -> Result<(), OutOfMemory>
        requires table { IsTable g.now table.now }
        requires part_in { part < table.now.inner.states * table.now.inner.states }
        requires searching { IsSearching (field_of g.now table.now part) (behind found.now (search_state_of self.old)) }
        requires image { IsImage (field_of g.now table.now part) found.now letter image.now }
        requires moves { Has next (outer_moves (field_of g.now table.now part) found.now letter) }
        ensures { OnOk result (IsFurther (field_of g.now table.now part) found.now (search_state_of self.old) (search_state_of self.new) × IsMet (field_of g.now table.now part) image.now (search_state_of self.new) next) }
    {
        if let Some(place) = table.place_in(part, next) {
            self.reach(found.step, letter, place, image)?;
        }
        Ok(())
    }

    /// Notes the middle states `image` beside each pair of the state `first` and one of the states `seconds`, to which
    /// the found pair moves on `letter`.
    fn spread_from(
        &mut self,
        g: &Multigraph,
        table: &PairTable,
        part: u64,
        found: &Found,
        letter: u32,
        image: &BitRow,
        first: u32,
        seconds: &[u32],
    ) -> Result<(), OutOfMemory>
        requires table { IsTable g.now table.now }
        requires part_in { part < table.now.inner.states * table.now.inner.states }
        requires searching { IsSearching (field_of g.now table.now part) (behind found.now (search_state_of self.old)) }
        requires image { IsImage (field_of g.now table.now part) found.now letter image.now }
        requires moves { (y : ℕ) → Has y seconds.now → Has (first * table.now.inner.states + y) (outer_moves (field_of g.now table.now part) found.now letter) }
        ensures { OnOk result (IsFurther (field_of g.now table.now part) found.now (search_state_of self.old) (search_state_of self.new) × ((y : ℕ) → Has y seconds.now → IsMet (field_of g.now table.now part) image.now (search_state_of self.new) (first * table.now.inner.states + y))) }
    {
        let count = u64::from(table.inner.states());
        for place in 0..seconds.len() {
            let next = pair_of(count, first, seconds[place]);
            self.meet(g, table, part, found, letter, image, next)?;
        }
        Ok(())
    }

    /// Notes the middle states `image` beside each pair of one of the states `firsts` and one of the states `seconds`,
    /// to which the found pair moves on `letter`.
    fn spread(
        &mut self,
        g: &Multigraph,
        table: &PairTable,
        part: u64,
        found: &Found,
        letter: u32,
        image: &BitRow,
        firsts: &[u32],
        seconds: &[u32],
    ) -> Result<(), OutOfMemory>
        requires table { IsTable g.now table.now }
        requires part_in { part < table.now.inner.states * table.now.inner.states }
        requires searching { IsSearching (field_of g.now table.now part) (behind found.now (search_state_of self.old)) }
        requires image { IsImage (field_of g.now table.now part) found.now letter image.now }
        requires moves { (x y : ℕ) → Has x firsts.now → Has y seconds.now → Has (x * table.now.inner.states + y) (outer_moves (field_of g.now table.now part) found.now letter) }
        ensures { OnOk result (IsFurther (field_of g.now table.now part) found.now (search_state_of self.old) (search_state_of self.new) × ((x y : ℕ) → Has x firsts.now → Has y seconds.now → IsMet (field_of g.now table.now part) image.now (search_state_of self.new) (x * table.now.inner.states + y))) }
    {
        for place in 0..firsts.len() {
            self.spread_from(g, table, part, found, letter, image, firsts[place], seconds)?;
        }
        Ok(())
    }

    /// Follows `found` on `letter`: notes the middle states to which its middle states move, beside each pair to which
    /// its pair moves. `first` and `second` are the states of its pair. `image` is overwritten.
    fn follow_on(
        &mut self,
        g: &Multigraph,
        table: &PairTable,
        part: u64,
        found: &Found,
        first: u32,
        second: u32,
        letter: u32,
        image: &mut BitRow,
    ) -> Result<(), OutOfMemory>
        requires table { IsTable g.now table.now }
        requires part_in { part < table.now.inner.states * table.now.inner.states }
        requires first { first ≡ outer_of (field_of g.now table.now part) found.now / table.now.inner.states }
        requires second { second ≡ outer_of (field_of g.now table.now part) found.now % table.now.inner.states }
        requires letter_in { letter < g.now.letters }
        requires searching { IsSearching (field_of g.now table.now part) (behind found.now (search_state_of self.old)) }
        requires wide { length image.old ≡ g.now.states }
        ensures further { OnOk result (IsFurther (field_of g.now table.now part) found.now (search_state_of self.old) (search_state_of self.new)) }
        ensures followed { OnOk result (IsFollowedOn (field_of g.now table.now part) found.now letter (search_state_of self.new)) }
        ensures same_width { length image.new ≡ length image.old }
    {
        let firsts = table.inner.edges(first, letter);
        let seconds = table.inner.edges(second, letter);
        if firsts.is_empty() || seconds.is_empty() {
            return Ok(());
        }
        table.moves[letter as usize].image(&found.middle, image);
        self.spread(g, table, part, found, letter, image, firsts, seconds)
    }

    /// Follows `found` on all letters: notes the middle states to which its middle states move on a letter, beside each
    /// pair to which its pair moves on the same letter. `image` is overwritten.
    ///
    /// # Errors
    /// [`OutOfMemory`] if there is not enough memory for what is found.
    pub(crate) fn follow(
        &mut self,
        g: &Multigraph,
        table: &PairTable,
        part: u64,
        found: &Found,
        image: &mut BitRow,
    ) -> Result<(), OutOfMemory>
        requires table { IsTable g.now table.now }
        requires part_in { part < table.now.inner.states * table.now.inner.states }
        requires searching { IsSearching (field_of g.now table.now part) (behind found.now (search_state_of self.old)) }
        requires wide { length image.old ≡ g.now.states }
        ensures further { OnOk result (IsFurther (field_of g.now table.now part) found.now (search_state_of self.old) (search_state_of self.new)) }
        ensures followed { OnOk result (IsFollowedUpTo (field_of g.now table.now part) found.now g.now.letters (search_state_of self.new)) }
        ensures same_width { length image.new ≡ length image.old }
    {
        let count = u64::from(table.inner.states());
        let pair = table.pair_at(part, found.place);
        let first = (pair / count) as u32;
        let second = (pair % count) as u32;
        for letter in 0..g.letters() {
            self.follow_on(g, table, part, found, first, second, letter, image)?;
        }
        Ok(())
    }

    /// Returns the word of `found`: the letters of the steps from the start up to the one that found it. It is empty if
    /// the search keeps no steps.
    ///
    /// # Errors
    /// [`OutOfMemory`] if there is not enough memory for the word.
    pub(crate) fn word_to(&self, alloc: Global, found: &Found) -> Result<Word, OutOfMemory>
        requires rooted { IsRooted self.now.steps.items }
        requires step_in { found.now.step ≤ length self.now.steps.items }
        ensures { IfOk result (λ w. w ≡ word_at self.now.steps.items found.now.step) }
    {
        let mut letters = Vec::new(alloc);
        let mut at = found.step;
        while at > 0 {
            let step = self.steps[at - 1];
            letters.push(step.letter)?;
            at = step.from;
        }
        letters.reverse();
        Ok(Items::from_vec(letters))
    }
}
