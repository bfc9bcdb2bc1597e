//! The breadth-first search for a rest that a set refuses.
//!
//! The search lists the numbers of the sets that it finds; the place of a set is its index in this list, from 0. A route for a
//! set is the number of a route (`Route`) that describes a rest that the set refuses.

ghost use Rattle.std.specs.Prelude.{◌≡◌, ◌+◌, ◌<◌, ◌≤◌, false, length, IfOk, IfErr, OnOk, IfSome, IfNone};
ghost use Rattle.rl_prio.specs.Automaton.{Automaton, letters_count, accepting_state};
ghost use Rattle.rl_sets.specs.declared.error.SetsError.TheVariants.{Sets};
ghost use Rattle.rl_sets.specs.Live.{holds, IsLive};
ghost use Rattle.rl_sets.specs.Rests.{IsRefusedRest, HasRoute, IsGrown, IsOver};
ghost use Rattle.rl_sets.specs.Walk.{set_at, IsMadeFor};
ghost use Rattle.rl_sets.specs.internal.Search.{found_of, number_at, way_at, found_set, root_of, IsSearch, IsLookedAt, IsAdded, IsImageAt, GoesOn};

use crate::error::SetsError;
use crate::life::Life;
use crate::walk::SetWalk;
use indexmap::IndexSet;
use rl_lists::{OutOfMemory, Word};
use rl_prio::Prio;
use std::alloc::Global;

/// How a set was found: as the image, on `letter`, of the set at the place `parent`. For the first set, the values have no
/// meaning.
#[derive(Clone, Copy)]
struct Way {
    /// The place of the earlier set.
    parent: usize,
    /// The letter, which isn't the end letter.
    letter: u32,
}

/// A search for a refused rest: the sets that it has found, in order, and how each of them was found.
#[derive(Drop)]
pub(crate) struct RestSearch {
    /// The numbers of the sets, by place.
    numbers: IndexSet<u32>,
    /// How each set was found, by place.
    ways: Vec<Way>,
}

impl RestSearch {
    /// Returns a search that has found no set. It allocates no memory.
    pub(crate) fn new(alloc: Global) -> RestSearch {
        RestSearch {
            numbers: IndexSet::new(alloc),
            ways: Vec::new(alloc),
        }
    }

    /// Restarts the search from the set with the number `set`. The sets found before are forgotten, and their memory is used
    /// again.
    pub(crate) fn begin(&mut self, set: u32) -> Result<(), OutOfMemory>
        ensures { OnOk result (found_of self.new ≡ root_of set) }
    {
        self.numbers.clear();
        self.numbers.insert(set)?;
        self.ways.clear();
        self.ways.push(Way {
            parent: 0,
            letter: 0,
        })?;
        Ok(())
    }

    /// Appends the set with the number `set` unless it has been found already. It is the image, on `letter`, of the set at the
    /// place `parent`.
    fn add(&mut self, set: u32, parent: usize, letter: u32) -> Result<(), OutOfMemory>
        ensures { OnOk result (IsAdded set (record { parent = parent; letter = letter }) (found_of self.old) (found_of self.new)) }
    {
        if self.numbers.insert(set)? {
            self.ways.push(Way { parent, letter })?;
        }
        Ok(())
    }
}

impl SetWalk {
    /// Returns a rest that the set with the number `set` refuses, or `None` if it refuses none. A rest is a list of letters
    /// followed by the end letter, and a set refuses it if none of its members accepts it. A set with the accepting state
    /// refuses none, since this state accepts every rest. The walk must have been made for the automaton `a` and have a set
    /// with this number.
    ///
    /// The search is a breadth-first search over images, which are appended to the walk if they are new, even if the search
    /// fails. What it finds out about sets is kept for later searches.
    ///
    /// # Errors
    /// [`SetsError::Sets`] if an image is new and the walk already has as many sets as its limit allows, which happens only if
    /// the sets of the walk, together with all sets that can be reached from the set by images, exceed the limit;
    /// [`SetsError::OutOfMemory`] if there is not enough memory for the search or the rest.
    pub fn refused_rest(&mut self, a: &Prio, set: u32) -> Result<Option<Word>, SetsError>
        requires made { IsMadeFor self.old a.now }
        requires set_in { set < length self.old.sets }
        ensures rest { IfOk result (λ o. IfSome o (IsRefusedRest a.now (set_at self.old set))) }
        ensures none { IfOk result (λ o. IfNone o (IsLive a.now (set_at self.old set) → ⊥)) }
        ensures made { IsMadeFor self.new a.now }
        ensures limit { self.new.limit ≡ self.old.limit }
        ensures grown { IsGrown a.now (set_at self.old set) self.old.sets self.new.sets }
        ensures longer { length self.old.sets ≤ length self.new.sets }
        ensures full { IfErr result (λ e. e ≡ Sets → IsOver a.now (set_at self.old set) self.old.sets self.old.limit) }
    {
        match self.route_from(a, set)? {
            Some(route) => {
                let rest = self.rest_of(a, route)?;
                Ok(Some(rest))
            }
            None => Ok(None),
        }
    }

    /// Returns a route for the set with the number `set`, or `None` if the set refuses no rest. Searches only if neither is
    /// known.
    fn route_from(&mut self, a: &Prio, set: u32) -> Result<Option<usize>, SetsError>
        requires made { IsMadeFor self.old a.now }
        requires set_in { set < length self.old.sets }
        ensures route { IfOk result (λ o. IfSome o (HasRoute a.now self.new.kept.routes (set_at self.old set))) }
        ensures none { IfOk result (λ o. IfNone o (IsLive a.now (set_at self.old set) → ⊥)) }
        ensures made { IsMadeFor self.new a.now }
        ensures limit { self.new.limit ≡ self.old.limit }
        ensures grown { IsGrown a.now (set_at self.old set) self.old.sets self.new.sets }
        ensures full { IfErr result (λ e. e ≡ Sets → IsOver a.now (set_at self.old set) self.old.sets self.old.limit) }
    {
        if self.holds(set, a.accepting()) {
            return Ok(None);
        }
        match self.life(set) {
            Life::Dead => Ok(None),
            Life::Live(route) => Ok(Some(route)),
            Life::Unknown => self.search(a, set),
        }
    }

    /// Searches the sets that can be reached by images from the set with the number `set`, which must not have the accepting
    /// state. Returns a route for this set, or `None` if it refuses no rest.
    fn search(&mut self, a: &Prio, set: u32) -> Result<Option<usize>, SetsError>
        requires made { IsMadeFor self.old a.now }
        requires set_in { set < length self.old.sets }
        requires free { holds (set_at self.old set) (accepting_state a.now) ≡ false }
        ensures route { IfOk result (λ o. IfSome o (HasRoute a.now self.new.kept.routes (set_at self.old set))) }
        ensures none { IfOk result (λ o. IfNone o (IsLive a.now (set_at self.old set) → ⊥)) }
        ensures made { IsMadeFor self.new a.now }
        ensures limit { self.new.limit ≡ self.old.limit }
        ensures grown { IsGrown a.now (set_at self.old set) self.old.sets self.new.sets }
        ensures full { IfErr result (λ e. e ≡ Sets → IsOver a.now (set_at self.old set) self.old.sets self.old.limit) }
    {
        let mut search = self.take_search(set)?;
        let route = self.seek(a, &mut search, set)?;
        self.keep_search(search);
        Ok(route)
    }

    /// Carries out a search that has found only its first set, with the number `set`, which must not have the accepting state.
    /// Returns a route for this set, or `None` if it refuses no rest.
    fn seek(
        &mut self,
        a: &Prio,
        search: &mut RestSearch,
        set: u32,
    ) -> Result<Option<usize>, SetsError>
        requires made { IsMadeFor self.old a.now }
        requires set_in { set < length self.old.sets }
        requires free { holds (set_at self.old set) (accepting_state a.now) ≡ false }
        requires root { found_of search.old ≡ root_of set }
        ensures route { IfOk result (λ o. IfSome o (HasRoute a.now self.new.kept.routes (set_at self.old set))) }
        ensures none { IfOk result (λ o. IfNone o (IsLive a.now (set_at self.old set) → ⊥)) }
        ensures made { IsMadeFor self.new a.now }
        ensures limit { self.new.limit ≡ self.old.limit }
        ensures grown { IsGrown a.now (set_at self.old set) self.old.sets self.new.sets }
        ensures full { IfErr result (λ e. e ≡ Sets → IsOver a.now (set_at self.old set) self.old.sets self.old.limit) }
    {
        // Reading the number of states tells the prover that the automaton is well formed.
        let _states = a.states();
        let mut place = 0;
        while place < search.numbers.len() {
            if let Some(route) = self.expand(a, search, place)? {
                let route = self.trace(a, search, place, route)?;
                return Ok(Some(route));
            }
            place += 1;
        }
        self.bury(a, search)?;
        Ok(None)
    }

    /// Looks at the images of the set at `place`, first the one on the end letter, until one of them shows a route for the
    /// set. Returns this route, or `None` if there is none yet; the images that may refuse a rest are then among the sets
    /// found.
    fn expand(
        &mut self,
        a: &Prio,
        search: &mut RestSearch,
        place: usize,
    ) -> Result<Option<usize>, SetsError>
        requires made { IsMadeFor self.old a.now }
        requires place_in { place < length (found_of search.old).numbers }
        requires search { IsSearch a.now self.old (found_of search.old) }
        requires looked { IsLookedAt a.now self.old (found_of search.old) place 0 }
        ensures made { IsMadeFor self.new a.now }
        ensures limit { self.new.limit ≡ self.old.limit }
        ensures grown { IsGrown a.now (found_set self.old (found_of search.old) 0) self.old.sets self.new.sets }
        ensures full { IfErr result (λ e. e ≡ Sets → IsOver a.now (found_set self.old (found_of search.old) 0) self.old.sets self.old.limit) }
        ensures goes_on { OnOk result (GoesOn a.now self.old self.new (found_of search.old) (found_of search.new)) }
        ensures route { IfOk result (λ o. IfSome o (HasRoute a.now self.new.kept.routes (found_set self.new (found_of search.new) place))) }
        ensures looked { IfOk result (λ o. IfNone o (IsLookedAt a.now self.new (found_of search.new) (place + 1) 0)) }
    {
        let end = a.letters().count();
        let after = self.step_from(a, search, place, end)?;
        if !self.holds(after, a.accepting()) {
            // The route with the number 0 is `End`.
            return Ok(Some(0));
        }
        for letter in 0..end {
            let route = self.visit(a, search, place, letter)?;
            if route.is_some() {
                return Ok(route);
            }
        }
        Ok(None)
    }

    /// Looks at the image on `letter` of the set at `place`. If a route for the image is known, returns a route for the set.
    /// Otherwise returns `None`, and appends the image to the sets found if it may refuse a rest.
    fn visit(
        &mut self,
        a: &Prio,
        search: &mut RestSearch,
        place: usize,
        letter: u32,
    ) -> Result<Option<usize>, SetsError>
        requires made { IsMadeFor self.old a.now }
        requires letter_in { letter < letters_count a.now }
        requires place_in { place < length (found_of search.old).numbers }
        requires search { IsSearch a.now self.old (found_of search.old) }
        requires looked { IsLookedAt a.now self.old (found_of search.old) place letter }
        ensures made { IsMadeFor self.new a.now }
        ensures limit { self.new.limit ≡ self.old.limit }
        ensures grown { IsGrown a.now (found_set self.old (found_of search.old) 0) self.old.sets self.new.sets }
        ensures full { IfErr result (λ e. e ≡ Sets → IsOver a.now (found_set self.old (found_of search.old) 0) self.old.sets self.old.limit) }
        ensures goes_on { OnOk result (GoesOn a.now self.old self.new (found_of search.old) (found_of search.new)) }
        ensures route { IfOk result (λ o. IfSome o (HasRoute a.now self.new.kept.routes (found_set self.new (found_of search.new) place))) }
        ensures looked { IfOk result (λ o. IfNone o (IsLookedAt a.now self.new (found_of search.new) place (letter + 1))) }
    {
        let next = self.step_from(a, search, place, letter)?;
        if self.holds(next, a.accepting()) {
            return Ok(None);
        }
        match self.life(next) {
            Life::Dead => Ok(None),
            Life::Live(route) => {
                let route = self.put_route(letter, route)?;
                Ok(Some(route))
            }
            Life::Unknown => {
                search.add(next, place, letter)?;
                Ok(None)
            }
        }
    }

    /// Returns the number in the walk of the image on `letter`, or on the end letter, of the set at `place`.
    fn step_from(
        &mut self,
        a: &Prio,
        search: &RestSearch,
        place: usize,
        letter: u32,
    ) -> Result<u32, SetsError>
        requires made { IsMadeFor self.old a.now }
        requires letter_in { letter ≤ letters_count a.now }
        requires place_in { place < length (found_of search.now).numbers }
        requires search { IsSearch a.now self.old (found_of search.now) }
        ensures made { IsMadeFor self.new a.now }
        ensures limit { self.new.limit ≡ self.old.limit }
        ensures grown { IsGrown a.now (found_set self.old (found_of search.now) 0) self.old.sets self.new.sets }
        ensures full { IfErr result (λ e. e ≡ Sets → IsOver a.now (found_set self.old (found_of search.now) 0) self.old.sets self.old.limit) }
        ensures image { IfOk result (IsImageAt a.now self.new (found_of search.now) place letter) }
    {
        self.step(a, search.numbers[place], letter)
    }

    /// Records a route for each set on the way from the first set to the set at `place`, for which `route` is a route.
    /// Returns a route for the first set.
    fn trace(
        &mut self,
        a: &Prio,
        search: &RestSearch,
        place: usize,
        route: usize,
    ) -> Result<usize, OutOfMemory>
        requires made { IsMadeFor self.old a.now }
        requires place_in { place < length (found_of search.now).numbers }
        requires search { IsSearch a.now self.old (found_of search.now) }
        requires route { HasRoute a.now self.old.kept.routes (found_set self.old (found_of search.now) place) route }
        ensures made { IsMadeFor self.new a.now }
        ensures limit { self.new.limit ≡ self.old.limit }
        ensures sets { self.new.sets ≡ self.old.sets }
        ensures route { IfOk result (HasRoute a.now self.new.kept.routes (found_set self.old (found_of search.now) 0)) }
    {
        let mut at = place;
        let mut route = route;
        while at > 0 {
            route = self.trace_back(a, search, at, route)?;
            let way = search.ways[at];
            at = way.parent;
        }
        self.note_route(search, 0, route)?;
        Ok(route)
    }

    /// Records `route` for the set at the place `at`, and appends a route for its parent, the set whose image it is. Returns
    /// the appended route. The set isn't the first one, which has no parent.
    fn trace_back(
        &mut self,
        a: &Prio,
        search: &RestSearch,
        at: usize,
        route: usize,
    ) -> Result<usize, OutOfMemory>
        requires made { IsMadeFor self.old a.now }
        requires later { 0 < at }
        requires place_in { at < length (found_of search.now).numbers }
        requires search { IsSearch a.now self.old (found_of search.now) }
        requires route { HasRoute a.now self.old.kept.routes (found_set self.old (found_of search.now) at) route }
        ensures made { IsMadeFor self.new a.now }
        ensures limit { self.new.limit ≡ self.old.limit }
        ensures sets { self.new.sets ≡ self.old.sets }
        ensures route { IfOk result (HasRoute a.now self.new.kept.routes (found_set self.old (found_of search.now) (way_at (found_of search.now) at).parent)) }
    {
        // Reading the number of states tells the prover that the automaton is well formed.
        let _states = a.states();
        self.note_route(search, at, route)?;
        let way = search.ways[at];
        let number = self.put_route(way.letter, route)?;
        Ok(number)
    }

    /// Records for the set at the place `at` that it refuses the rest that `route` describes.
    fn note_route(
        &mut self,
        search: &RestSearch,
        at: usize,
        route: usize,
    ) -> Result<(), OutOfMemory>
        requires place_in { at < length (found_of search.now).numbers }
        requires set_in { number_at (found_of search.now) at < length self.old.sets }
        ensures made { (a : Automaton) → IsMadeFor self.old a → HasRoute a self.old.kept.routes (found_set self.old (found_of search.now) at) route → IsMadeFor self.new a }
        ensures limit { self.new.limit ≡ self.old.limit }
        ensures sets { self.new.sets ≡ self.old.sets }
        ensures routes { self.new.kept.routes ≡ self.old.kept.routes }
    {
        self.note(search.numbers[at], Life::Live(route))
    }

    /// Records for each set that the search has found that it refuses no rest. The search must have looked at all of them and
    /// found no route.
    fn bury(&mut self, a: &Prio, search: &RestSearch) -> Result<(), OutOfMemory>
        requires made { IsMadeFor self.old a.now }
        requires search { IsSearch a.now self.old (found_of search.now) }
        requires dead { IsLookedAt a.now self.old (found_of search.now) (length (found_of search.now).numbers) 0 }
        ensures made { IsMadeFor self.new a.now }
        ensures limit { self.new.limit ≡ self.old.limit }
        ensures sets { self.new.sets ≡ self.old.sets }
    {
        // Reading the number of states tells the prover that the automaton is well formed.
        let _states = a.states();
        for i in 0..search.numbers.len() {
            self.note(search.numbers[i], Life::Dead)?;
        }
        Ok(())
    }
}
