//! The images of the sets of a walk, and their numbers.

ghost use Rattle.std.specs.Prelude.{◌≡◌, ℕ, ◌+◌, ◌*◌, ◌<◌, ◌≤◌, suc, length, replicate, false, slice_get, slice_index_or, None, Some, IfOk, IfSome, OnOk};
ghost use Rattle.rl_prio.specs.Automaton.{letters_count};
ghost use Rattle.rl_sets.specs.Live.{image};
ghost use Rattle.rl_sets.specs.Rows.{members_of};
ghost use Rattle.rl_sets.specs.Walk.{set_at, image_place, IsMadeFor};
ghost use Rattle.rl_sets.specs.internal.Moves.{IsReached};
ghost use Rattle.rl_sets.specs.internal.Steps.{IsAsked};

use crate::error::SetsError;
use crate::fill::lengthen;
use crate::rows::{mark_moves, move_alike};
use crate::split::SplitMoves;
use crate::walk::SetWalk;
use rl_lanes::BitRow;
use rl_lists::OutOfMemory;
use rl_prio::Prio;

/// The most sets whose moves are kept once the moves of the automaton are split.
const RECENT: usize = 8;

/// How long splitting the moves of an automaton is put off: until the number of members whose moves were looked at to find
/// images is at least this many times the number of its pairs of a state and a letter, counting the end letter as a letter. By
/// then, finding images has been about as much work as splitting the moves.
const PATIENCE: usize = 4;

/// Returns the index in `images` of the number of the image of a set on a letter or the end letter.
fn place_of(a: &Prio, set: u32, letter: u32) -> usize
    requires { letter ≤ letters_count a.now }
    ensures { result ≡ image_place a.now set letter }
{
    let width = a.letters().count() as usize + 1;
    set as usize * width + letter as usize
}

/// Forgets in a list of images what it has of the sets whose numbers aren't below `len`: their entries, and their numbers in
/// the entries of other sets.
pub(crate) fn shorten_images(images: &mut Vec<Option<u32>>, a: &Prio, len: u32)
    ensures few { length images.new.items ≤ len * suc (letters_count a.now) }
    ensures below { (i m : ℕ) → slice_index_or images.new.items i None ≡ Some m → (slice_index_or images.old.items i None ≡ Some m) × (m < len) }
{
    images.truncate(place_of(a, len, 0));
    forget_from(images.as_mut_slice(), len);
}

/// Replaces by `None` each number in a list of images that isn't below `len`.
fn forget_from(images: &mut [Option<u32>], len: u32)
    ensures size { length images.new ≡ length images.old }
    ensures below { (i m : ℕ) → slice_index_or images.new i None ≡ Some m → (slice_index_or images.old i None ≡ Some m) × (m < len) }
{
    for image in images.iter_mut() {
        if let Some(number) = *image {
            if number >= len {
                *image = None;
            }
        }
    }
}

impl SetWalk {
    /// Returns the number of the image of a set on a letter or the end letter, or `None` if it isn't known yet.
    pub(crate) fn known_image(&self, a: &Prio, set: u32, letter: u32) -> Option<u32>
        requires { letter ≤ letters_count a.now }
        ensures { result ≡ slice_index_or self.now.kept.images (image_place a.now set letter) None }
    {
        match self.images.get(place_of(a, set, letter)) {
            Some(number) => *number,
            None => None,
        }
    }

    /// Makes `images` long enough for the numbers of the images of the given set on all letters and the end letter.
    fn make_room(&mut self, a: &Prio, set: u32) -> Result<(), OutOfMemory>
        requires made { IsMadeFor self.old a.now }
        requires set_in { set < length self.old.sets }
        ensures room { OnOk result (suc set * suc (letters_count a.now) ≤ length self.new.kept.images) }
        ensures made { IsMadeFor self.new a.now }
        ensures sets { self.new.sets ≡ self.old.sets }
        ensures limit { self.new.limit ≡ self.old.limit }
    {
        let end = place_of(a, set, a.letters().count()) + 1;
        lengthen(&mut self.images, end, None)
    }

    /// Records `number` as the number of the image of a set on a letter or the end letter. The list `images` must already have
    /// room for it (see `make_room`).
    fn keep_image(&mut self, a: &Prio, set: u32, letter: u32, number: u32)
        requires made { IsMadeFor self.old a.now }
        requires set_in { set < length self.old.sets }
        requires letter_in { letter ≤ letters_count a.now }
        requires room { suc set * suc (letters_count a.now) ≤ length self.old.kept.images }
        requires image { slice_get self.old.sets number ≡ Some (image a.now (set_at self.old set) letter) }
        ensures made { IsMadeFor self.new a.now }
        ensures sets { self.new.sets ≡ self.old.sets }
        ensures limit { self.new.limit ≡ self.old.limit }
    {
        self.images[place_of(a, set, letter)] = Some(number);
    }

    /// Finds the image of a set on a letter, appends it if it is new, records its number, and returns the number. The function
    /// isn't inlined, so that `step` stays small.
    #[inline(never)]
    pub(crate) fn find_image(&mut self, a: &Prio, set: u32, letter: u32) -> Result<u32, SetsError>
        requires made { IsMadeFor self.old a.now }
        requires set_in { set < length self.old.sets }
        requires letter_in { letter ≤ letters_count a.now }
        ensures { IsAsked a.now self.old self.new (image a.now (set_at self.old set) letter) result }
    {
        self.make_room(a, set)?;
        let number = self.image_number(a, set, letter)?;
        self.keep_image(a, set, letter, number);
        Ok(number)
    }

    /// Returns the number of the image of a set on a letter or the end letter, but doesn't record it. The image is appended to
    /// the walk if it is new. If `image_before` gives the number, this is used; otherwise the row of the image is computed.
    fn image_number(&mut self, a: &Prio, set: u32, letter: u32) -> Result<u32, SetsError>
        requires made { IsMadeFor self.old a.now }
        requires set_in { set < length self.old.sets }
        requires letter_in { letter ≤ letters_count a.now }
        ensures asked { IsAsked a.now self.old self.new (image a.now (set_at self.old set) letter) result }
        ensures images { self.new.kept.images ≡ self.old.kept.images }
    {
        if let Some(number) = self.image_before(a, set, letter) {
            return Ok(number);
        }
        let row = self.image_row(a, set, letter)?;
        self.add(row)
    }

    /// Returns the number of the image of a set on the letter before `letter`, if it is known and the members have the same
    /// moves on both letters; it is then the number of the image on `letter` too. Returns `None` otherwise. Also returns
    /// `None` once the moves are split, as computing the image is cheaper then than comparing the moves.
    fn image_before(&self, a: &Prio, set: u32, letter: u32) -> Option<u32>
        requires made { IsMadeFor self.now a.now }
        requires set_in { set < length self.now.sets }
        requires letter_in { letter ≤ letters_count a.now }
        ensures { IfSome result (λ n. slice_get self.now.sets n ≡ Some (image a.now (set_at self.now set) letter)) }
    {
        if letter == 0 || self.split.is_some() {
            return None;
        }
        let number = self.known_image(a, set, letter - 1)?;
        if move_alike(a, &self.rows[set as usize], letter) {
            Some(number)
        } else {
            None
        }
    }

    /// Returns the row of the image of a set on a letter. The image isn't added to the walk.
    fn image_row(&mut self, a: &Prio, set: u32, letter: u32) -> Result<BitRow, OutOfMemory>
        requires made { IsMadeFor self.old a.now }
        requires set_in { set < length self.old.sets }
        requires letter_in { letter ≤ letters_count a.now }
        ensures image { IfOk result (λ row. members_of row ≡ image a.now (set_at self.old set) letter) }
        ensures len { IfOk result (λ row. length row ≡ a.now.states) }
        ensures made { IsMadeFor self.new a.now }
        ensures sets { self.new.sets ≡ self.old.sets }
        ensures limit { self.new.limit ≡ self.old.limit }
        ensures images { self.new.kept.images ≡ self.old.kept.images }
    {
        self.split_moves(a, set)?;
        let states = a.states() as usize;
        let mut row = self.take_row(states)?;
        row.clear();
        self.mark_targets(a, set, letter, &mut row)?;
        // The last state is the dead state, which no set holds.
        row.set(states - 1, false);
        Ok(row)
    }

    /// Counts the members of a set, whose image is to be found, as work, and splits the moves of the automaton if the work has
    /// become enough (see `PATIENCE`). Does nothing if they are already split.
    fn split_moves(&mut self, a: &Prio, set: u32) -> Result<(), OutOfMemory>
        requires made { IsMadeFor self.old a.now }
        requires set_in { set < length self.old.sets }
        ensures made { IsMadeFor self.new a.now }
        ensures sets { self.new.sets ≡ self.old.sets }
        ensures limit { self.new.limit ≡ self.old.limit }
        ensures images { self.new.kept.images ≡ self.old.kept.images }
    {
        if self.split.is_some() {
            return Ok(());
        }
        self.work = self.work.saturating_add(self.rows[set as usize].count());
        let width = a.letters().count() as usize + 1;
        if self.work / PATIENCE < a.states() as usize * width {
            return Ok(());
        }
        let split = SplitMoves::of(self.allocator(), a)?;
        self.recent.clear();
        self.split = Some(split);
        Ok(())
    }

    /// Sets in an empty row the bits of the states to which some member of a set moves on a letter. The dead state's bit has
    /// no meaning. Once the moves of the automaton are split, the moves of the set are kept in `recent`, which is emptied
    /// first if it already has the moves of `RECENT` sets.
    fn mark_targets(
        &mut self,
        a: &Prio,
        set: u32,
        letter: u32,
        row: &mut BitRow,
    ) -> Result<(), OutOfMemory>
        requires made { IsMadeFor self.old a.now }
        requires set_in { set < length self.old.sets }
        requires letter_in { letter ≤ letters_count a.now }
        requires bare { row.old ≡ replicate a.now.states false }
        ensures reached { OnOk result (IsReached a.now (set_at self.old set) letter row.new) }
        ensures same { self.new ≡ self.old }
    {
        let members = &self.rows[set as usize];
        let Some(split) = &self.split else {
            mark_moves(row, a, members, letter);
            return Ok(());
        };
        for moves in &self.recent {
            if moves.set == set {
                split.mark(row, a, moves, letter);
                return Ok(());
            }
        }
        let moves = split.moves_of(set, members)?;
        split.mark(row, a, &moves, letter);
        if self.recent.len() == RECENT {
            self.recent.clear();
        }
        self.recent.push(moves)?;
        Ok(())
    }
}
