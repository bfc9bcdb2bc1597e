//! Walks over sets of states: lists of different sets that grow as sets are asked for. The number of a set is its index in the
//! list, from 0. The image of a set on a letter is the set of the states to which its members move on it, without the dead
//! state, which has no moves. The end letter, which ends each text, has the number after the last letter. A row has one bit for
//! each state of the automaton.

ghost use Rattle.std.specs.Prelude.{◌≡◌, ◌≢◌, ℕ, ◌<◌, ◌≤◌, [], ◌∷◌, length, take, All, slice_index_or, IfOk, IfErr, OnErr, false};
ghost use Rattle.std.specs.List.{list_any};
ghost use Rattle.rl_prio.specs.Automaton.{Automaton, letters_count, dead_state};
ghost use Rattle.rl_sets.specs.declared.error.SetsError.TheVariants.{Sets};
ghost use Rattle.rl_sets.specs.declared.life.Route.TheVariants.{End};
ghost use Rattle.rl_sets.specs.Live.{holds, image, joined, left_out};
ghost use Rattle.rl_sets.specs.Rows.{members_of};
ghost use Rattle.rl_sets.specs.Walk.{set_at, set_of, IsMadeFor, IsListed, IsFull};

mod images;
mod lives;

use crate::error::SetsError;
use crate::life::{Life, Route};
use crate::rests::RestSearch;
use crate::rows::{mark, members};
use crate::split::{SetMoves, SplitMoves};
use crate::walk::images::shorten_images;
use indexmap::IndexSet;
use rl_lanes::{BitRow, BitTable};
use rl_lists::{Members, OutOfMemory};
use rl_prio::Prio;
use std::alloc::Global;
use std::marker::Model;

/// The number of sets for which a walk has room at first. Many automata need no more.
const FIRST_SETS: usize = 18;

/// A walk over sets of states of one automaton: as much of its powerset construction as has been asked for. Each set has one
/// number, which is its index in the walk's list, from 0. A set never holds the dead state.
///
/// Images are found from the moves of the members, or, once that has been much work, from the split moves of the automaton and
/// of the sets that were looked at last.
#[derive(Drop)]
pub struct SetWalk {
    /// The number of the automaton's states.
    states: u32,
    /// The most sets that the walk may have.
    limit: u32,
    /// The sets in the order of their numbers, each as a row with one bit for each state.
    rows: IndexSet<BitRow>,
    /// A row whose memory can be used for the next set, so that looking up a known set allocates no memory.
    spare: Option<BitRow>,
    /// A search for a refused rest whose memory can be used for the next search.
    idle: Option<RestSearch>,
    /// The number of members whose moves were looked at to find images before the moves were split.
    work: usize,
    /// The split moves of the automaton, once they have been made.
    split: Option<SplitMoves>,
    /// The moves of some of the sets looked at last, once the moves are split.
    recent: Vec<SetMoves>,
    /// The numbers of images: for each set in turn, one entry for each letter and one for the end letter, which is `None` if
    /// the image isn't known. The list may end early.
    images: Vec<Option<u32>>,
    /// The routes of refused rests.
    routes: Vec<Route>,
    /// What is known of the rests that each set refuses, by the set's number. The list may end early.
    lives: Vec<Life>,
}

impl Model for SetWalk {
    ghost use Rattle.std.specs.Prelude.{map};
    ghost use Rattle.rl_sets.specs.Rows.{members_of};
    ghost use Rattle.rl_sets.specs.Walk.{Walk, AreFields};

    ghost Value = { Walk };

    ghost view = { λ w. record { sets = map members_of w.rows.keys; limit = w.limit; kept = record { states = w.states; split = w.split; images = w.images.items; routes = w.routes.items; lives = w.lives.items } } };

    ghost invariant = { λ w. AreFields w.states w.limit w.rows.keys w.split w.recent.items };
}

/// Returns a list with only the route `End`, and with room for more routes.
fn first_routes(alloc: Global) -> Result<Vec<Route>, OutOfMemory>
    ensures { IfOk result (λ routes. routes.items ≡ End ∷ []) }
{
    let mut routes = Vec::with_capacity(alloc, FIRST_SETS)?;
    routes.push(Route::End)?;
    Ok(routes)
}

impl SetWalk {
    /// Returns a walk over sets of states of the automaton `a`. It has no sets yet and may have up to `limit` of them, which
    /// must be from 1 to 60000.
    ///
    /// # Errors
    /// [`OutOfMemory`] if there is not enough memory for it.
    pub fn new(alloc: Global, a: &Prio, limit: u32) -> Result<SetWalk, OutOfMemory>
        requires some { 1 ≤ limit }
        requires low { limit ≤ 60000 }
        ensures empty { IfOk result (λ w. w.sets ≡ []) }
        ensures limit { IfOk result (λ w. w.limit ≡ limit) }
        ensures made { IfOk result (λ w. IsMadeFor w a.now) }
    {
        let letters = a.letters().count() as usize + 1;
        let routes = first_routes(alloc)?;
        let rows = IndexSet::with_capacity(alloc, FIRST_SETS)?;
        let images = Vec::with_capacity(alloc, FIRST_SETS * letters)?;
        let lives = Vec::with_capacity(alloc, FIRST_SETS)?;
        Ok(SetWalk {
            states: a.states(),
            limit,
            rows,
            spare: None,
            idle: None,
            work: 0,
            split: None,
            recent: Vec::new(alloc),
            images,
            routes,
            lives,
        })
    }

    /// Returns how many sets the walk has so far, which is at most its limit.
    pub fn len(&self) -> u32
        ensures len { result ≡ length self.now.sets }
        ensures few { length self.now.sets ≤ self.now.limit }
    {
        self.rows.len() as u32
    }

    /// Returns whether `state` is a member of the set with the number `set`. The walk must have a set with this number, and
    /// the automaton must have the state.
    pub fn holds(&self, set: u32, state: u32) -> bool
        requires set_in { set < length self.now.sets }
        requires state_in { state < self.now.kept.states }
        ensures { result ≡ holds (set_at self.now set) state }
    {
        self.rows[set as usize].get(state as usize)
    }

    /// Returns whether at least one member of the set with the number `set` has its bit set in the row `states`. The walk must
    /// have a set with this number, and the row must have one bit for each state of the automaton.
    pub fn meets(&self, set: u32, states: &BitRow) -> bool
        requires set_in { set < length self.now.sets }
        requires wide { length states.now ≡ self.now.kept.states }
        ensures { result ≡ list_any (λ q. slice_index_or states.now q false) (set_at self.now set) }
    {
        self.rows[set as usize].meets(states)
    }

    /// Returns the number of the set of the listed states, which is appended if it is new. The states may be in any order and
    /// listed more than once; they must be states of `a` other than the dead state. The walk must have been made for the
    /// automaton `a`.
    ///
    /// # Errors
    /// [`SetsError::Sets`] if the set is new and the walk already has as many sets as its limit allows;
    /// [`SetsError::OutOfMemory`] if there is not enough memory for it. In both cases, the walk's sets are unchanged.
    pub fn intern(&mut self, a: &Prio, members: &Vec<u32>) -> Result<u32, SetsError>
        requires made { IsMadeFor self.old a.now }
        requires states { All (λ q. (q < a.now.states) × (q ≢ dead_state a.now)) members.now.items }
        ensures listed { IfOk result (IsListed self.old.sets self.new.sets (set_of a.now members.now.items)) }
        ensures inside { IfOk result (λ n. n < length self.new.sets) }
        ensures longer { length self.old.sets ≤ length self.new.sets }
        ensures made { IsMadeFor self.new a.now }
        ensures limit { self.new.limit ≡ self.old.limit }
        ensures full { IfErr result (λ e. e ≡ Sets → IsFull self.old.sets self.old.limit (set_of a.now members.now.items)) }
        ensures unchanged { OnErr result (self.new.sets ≡ self.old.sets) }
    {
        let mut row = BitRow::zeros(self.allocator(), a.states() as usize)?;
        mark(&mut row, members.as_slice());
        self.add(row)
    }

    /// Returns the number of the image of the set with the number `set` on `letter`: the set of the states to which its
    /// members move on it, without the dead state. The image is appended if it is new. The walk must have been made for the
    /// automaton `a` and have a set with this number; `letter` must be a letter of `a` or the end letter, which has the number
    /// after the last letter.
    ///
    /// # Errors
    /// [`SetsError::Sets`] if the image is new and the walk already has as many sets as its limit allows;
    /// [`SetsError::OutOfMemory`] if there is not enough memory for it. In both cases, the walk's sets are unchanged.
    pub fn step(&mut self, a: &Prio, set: u32, letter: u32) -> Result<u32, SetsError>
        requires made { IsMadeFor self.old a.now }
        requires set_in { set < length self.old.sets }
        requires letter_in { letter ≤ letters_count a.now }
        ensures listed { IfOk result (IsListed self.old.sets self.new.sets (image a.now (set_at self.old set) letter)) }
        ensures inside { IfOk result (λ n. n < length self.new.sets) }
        ensures longer { length self.old.sets ≤ length self.new.sets }
        ensures made { IsMadeFor self.new a.now }
        ensures limit { self.new.limit ≡ self.old.limit }
        ensures full { IfErr result (λ e. e ≡ Sets → IsFull self.old.sets self.old.limit (image a.now (set_at self.old set) letter)) }
        ensures unchanged { OnErr result (self.new.sets ≡ self.old.sets) }
    {
        if let Some(number) = self.known_image(a, set, letter) {
            return Ok(number);
        }
        self.find_image(a, set, letter)
    }

    /// Returns the number of the set that has the members of the set with the number `set` and the state `state`. For the dead
    /// state, which is never a member, and for a state that already is one, the number is `set`. Otherwise the new set is
    /// appended unless the walk has it. The walk must have a set with the number `set`, and the automaton must have the state.
    ///
    /// # Errors
    /// [`SetsError::Sets`] if the set is new and the walk already has as many sets as its limit allows;
    /// [`SetsError::OutOfMemory`] if there is not enough memory for it. In both cases, the walk's sets are unchanged.
    pub fn join(&mut self, set: u32, state: u32) -> Result<u32, SetsError>
        requires set_in { set < length self.old.sets }
        requires state_in { state < self.old.kept.states }
        ensures listed { (a : Automaton) → IsMadeFor self.old a → IfOk result (IsListed self.old.sets self.new.sets (joined a state (set_at self.old set))) }
        ensures inside { IfOk result (λ n. n < length self.new.sets) }
        ensures longer { length self.old.sets ≤ length self.new.sets }
        ensures made { (a : Automaton) → IsMadeFor self.old a → IsMadeFor self.new a }
        ensures limit { self.new.limit ≡ self.old.limit }
        ensures full { (a : Automaton) → IsMadeFor self.old a → IfErr result (λ e. e ≡ Sets → IsFull self.old.sets self.old.limit (joined a state (set_at self.old set))) }
        ensures unchanged { OnErr result (self.new.sets ≡ self.old.sets) }
    {
        // The last state is the dead state.
        if state == self.states - 1 {
            return Ok(set);
        }
        if self.holds(set, state) {
            return Ok(set);
        }
        let mut row = self.row_of(set)?;
        row.set(state as usize, true);
        self.add(row)
    }

    /// Returns the number of the set that has the members of the set with the number `set` except those whose bits are set in
    /// the row `states`. This set is appended if it is new. The walk must have a set with the number `set`, and the row must
    /// have one bit for each state of the automaton.
    ///
    /// # Errors
    /// [`SetsError::Sets`] if the set is new and the walk already has as many sets as its limit allows;
    /// [`SetsError::OutOfMemory`] if there is not enough memory for it. In both cases, the walk's sets are unchanged.
    pub fn leave_out(&mut self, set: u32, states: &BitRow) -> Result<u32, SetsError>
        requires set_in { set < length self.old.sets }
        requires wide { length states.now ≡ self.old.kept.states }
        ensures listed { IfOk result (IsListed self.old.sets self.new.sets (left_out states.now (set_at self.old set))) }
        ensures inside { IfOk result (λ n. n < length self.new.sets) }
        ensures longer { length self.old.sets ≤ length self.new.sets }
        ensures made { (a : Automaton) → IsMadeFor self.old a → IsMadeFor self.new a }
        ensures limit { self.new.limit ≡ self.old.limit }
        ensures full { IfErr result (λ e. e ≡ Sets → IsFull self.old.sets self.old.limit (left_out states.now (set_at self.old set))) }
        ensures unchanged { OnErr result (self.new.sets ≡ self.old.sets) }
    {
        let mut row = self.row_of(set)?;
        row.subtract(states);
        self.add(row)
    }

    /// Returns the members of the set with the number `set`, in increasing order. The walk must have a set with this number.
    ///
    /// # Errors
    /// [`OutOfMemory`] if there is not enough memory for the list.
    pub fn members(&self, set: u32) -> Result<Members, OutOfMemory>
        requires { set < length self.now.sets }
        ensures { IfOk result (λ m. m ≡ set_at self.now set) }
    {
        // Reading the number of states tells the prover that the length of a row fits in 32 bits.
        let _states = self.states;
        members(self.allocator(), &self.rows[set as usize])
    }

    /// Sets `into` to the union of the rows of `table` for the members of the set with the number `set`, without a list of the
    /// members: a bit of `into` becomes set if it is set in the row of at least one member. The walk must have a set with this
    /// number; the table must have one row for each state of the automaton, and `into` must be as long as its rows.
    pub fn union_of_rows(&self, set: u32, table: &BitTable, into: &mut BitRow)
        requires set_in { set < length self.now.sets }
        requires high { length table.now ≡ self.now.kept.states }
        requires wide { All (λ row. length row ≡ length into.old) table.now }
        ensures union { (k : ℕ) → k < length into.old → slice_index_or into.new k false ≡ list_any (λ q. slice_index_or (slice_index_or table.now q []) k false) (set_at self.now set) }
        ensures len { length into.new ≡ length into.old }
    {
        table.image(&self.rows[set as usize], into);
    }

    /// Keeps only the first `len` sets, and forgets the others and all that is known of them. Changes nothing if the walk has
    /// no more than `len` sets. The walk must have been made for the automaton `a`.
    pub fn shorten(&mut self, a: &Prio, len: u32)
        requires made { IsMadeFor self.old a.now }
        ensures sets { self.new.sets ≡ take len self.old.sets }
        ensures made { IsMadeFor self.new a.now }
        ensures limit { self.new.limit ≡ self.old.limit }
    {
        if len >= self.len() {
            return;
        }
        self.rows.truncate(len as usize);
        shorten_images(&mut self.images, a, len);
        // Some of the sets looked at last may be forgotten now.
        self.recent.clear();
        // The routes stay, as sets that are kept may need them.
        self.lives.truncate(len as usize);
    }

    /// Returns the allocator of the walk.
    pub(crate) fn allocator(&self) -> Global {
        *self.images.allocator()
    }

    /// Returns a row with `states` bits of any values: the spare row, if there is one of this length, or a new one. The spare
    /// row is no longer kept.
    fn take_row(&mut self, states: usize) -> Result<BitRow, OutOfMemory>
        ensures len { IfOk result (λ row. length row ≡ states) }
        ensures same { self.new ≡ self.old }
    {
        match self.spare.take() {
            Some(row) if row.len() == states => Ok(row),
            _ => BitRow::zeros(self.allocator(), states),
        }
    }

    /// Returns a copy of the row of the set with the number `set`.
    fn row_of(&mut self, set: u32) -> Result<BitRow, OutOfMemory>
        requires { set < length self.old.sets }
        ensures members { IfOk result (λ row. members_of row ≡ set_at self.old set) }
        ensures len { IfOk result (λ row. length row ≡ self.old.kept.states) }
        ensures same { self.new ≡ self.old }
    {
        let states = self.states as usize;
        let mut row = self.take_row(states)?;
        row.clear();
        row.or_into(&self.rows[set as usize]);
        Ok(row)
    }

    /// Returns the number of the set that a row represents. The set is appended if it is new; otherwise the row is kept as the
    /// spare one. Fails with [`SetsError::Sets`] if the set is new and the walk is full.
    fn add(&mut self, row: BitRow) -> Result<u32, SetsError>
        requires { length row ≡ self.old.kept.states }
        ensures listed { IfOk result (IsListed self.old.sets self.new.sets (members_of row)) }
        ensures inside { IfOk result (λ n. n < length self.new.sets) }
        ensures longer { length self.old.sets ≤ length self.new.sets }
        ensures few { length self.new.sets ≤ self.new.limit }
        ensures limit { self.new.limit ≡ self.old.limit }
        ensures kept { self.new.kept ≡ self.old.kept }
        ensures full { IfErr result (λ e. e ≡ Sets → IsFull self.old.sets self.old.limit (members_of row)) }
        ensures unchanged { OnErr result (self.new.sets ≡ self.old.sets) }
    {
        if let Some(number) = self.rows.get_index_of(&row) {
            self.spare = Some(row);
            return Ok(number as u32);
        }
        if self.rows.len() == self.limit as usize {
            return Err(SetsError::Sets);
        }
        let (number, _) = self.rows.insert_full(row)?;
        Ok(number as u32)
    }
}
