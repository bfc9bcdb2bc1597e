//! What a walk records of the rests that its sets refuse: for each set what is known (`Life`), and the routes, each of which
//! describes a rest. The walk also keeps a search, so that later ones can use its memory.

ghost use Rattle.std.specs.Prelude.{◌≡◌, ℕ, ◌+◌, ◌<◌, ◌≤◌, [], ◌∷◌, ◌++◌, List, length, slice_index_or, IfOk, OnOk, OnErr};
ghost use Rattle.rl_prio.specs.Automaton.{Automaton, letters_count};
ghost use Rattle.rl_sets.specs.declared.life.Life.TheVariants.{Unknown};
ghost use Rattle.rl_sets.specs.declared.life.Route.TheVariants.{On};
ghost use Rattle.rl_sets.specs.Rests.{IsLife, Routed};
ghost use Rattle.rl_sets.specs.Walk.{set_at, IsMadeFor};
ghost use Rattle.rl_sets.specs.internal.Search.{found_of, root_of};

use crate::fill::lengthen;
use crate::life::{Life, Route, word_of};
use crate::rests::RestSearch;
use crate::walk::SetWalk;
use rl_lists::{OutOfMemory, Word};
use rl_prio::Prio;

impl SetWalk {
    /// Returns what is recorded of the rests that a set refuses, or [`Life::Unknown`] if nothing is.
    pub(crate) fn life(&self, set: u32) -> Life
        ensures { result ≡ slice_index_or self.now.kept.lives set Unknown }
    {
        match self.lives.get(set as usize) {
            Some(life) => *life,
            None => Life::Unknown,
        }
    }

    /// Records `life` for the set with the number `set`, in place of what was recorded of it before.
    pub(crate) fn note(&mut self, set: u32, life: Life) -> Result<(), OutOfMemory>
        requires { set < length self.old.sets }
        ensures made { (a : Automaton) → IsMadeFor self.old a → IsLife a self.old.kept.routes (set_at self.old set) life → IsMadeFor self.new a }
        ensures sets { self.new.sets ≡ self.old.sets }
        ensures limit { self.new.limit ≡ self.old.limit }
        ensures routes { self.new.kept.routes ≡ self.old.kept.routes }
    {
        lengthen(&mut self.lives, set as usize + 1, Life::Unknown)?;
        self.lives[set as usize] = life;
        Ok(())
    }

    /// Appends the route of the rest that begins with `letter` and goes on as the route with the number `next` describes.
    /// Returns the number of the new route.
    pub(crate) fn put_route(&mut self, letter: u32, next: usize) -> Result<usize, OutOfMemory>
        ensures put { OnOk result (self.new.kept.routes ≡ self.old.kept.routes ++ On letter next ∷ []) }
        ensures number { IfOk result (λ r. r ≡ length self.old.kept.routes) }
        ensures made { (a : Automaton) → IsMadeFor self.old a → IsMadeFor self.new a }
        ensures sets { self.new.sets ≡ self.old.sets }
        ensures limit { self.new.limit ≡ self.old.limit }
    {
        let number = self.routes.len();
        self.routes.push(Route::On(letter, next))?;
        Ok(number)
    }

    /// Returns the rest that the route with the number `route` describes.
    pub(crate) fn rest_of(&self, a: &Prio, route: usize) -> Result<Word, OutOfMemory>
        requires { (word : List ℕ) × Routed (letters_count a.now) self.now.kept.routes route word }
        ensures { (word : List ℕ) → Routed (letters_count a.now) self.now.kept.routes route word → IfOk result (λ w. w ≡ word) }
    {
        word_of(
            self.allocator(),
            self.routes.as_slice(),
            route,
            a.letters().count(),
        )
    }

    /// Returns a search that has found only the set with the number `set`: the kept search, restarted, if there is one, or a
    /// new one.
    pub(crate) fn take_search(&mut self, set: u32) -> Result<RestSearch, OutOfMemory>
        ensures root { IfOk result (λ s. found_of s ≡ root_of set) }
        ensures same { self.new ≡ self.old }
    {
        let mut search = match self.idle.take() {
            Some(search) => search,
            None => RestSearch::new(self.allocator()),
        };
        search.begin(set)?;
        Ok(search)
    }

    /// Keeps a search, so that a later one can use its memory.
    pub(crate) fn keep_search(&mut self, search: RestSearch)
        ensures { self.new ≡ self.old }
    {
        self.idle = Some(search);
    }
}
