//! Numbers of steps. A step is a test of a character or an end of the tree that a matcher tries. An end is a hit if a match
//! may end there. Any other step is a miss.

ghost use Rattle.std.specs.Prelude.{◌≡◌, ℕ, ◌+◌, ◌^◌, ◌<◌, [], ◌∷◌, true, false, List, Bool, ◌++◌};
ghost use Rattle.rl_machine.specs.Counts.{Counts, Shows};

/// A number of steps.
#[derive(Clone, Copy, Debug, PartialEq, Eq)]
pub enum Steps {
    /// Exactly this number, at most 2^128 - 1.
    Exact(u128),
    /// 2^128 or more.
    Past,
}

/// The number of steps in a list of steps, up to and including the first hit, and whether there is a hit. For a text, it is
/// the cost, which counts one step more, and whether the text is matched.
#[derive(Clone, Copy, Debug, PartialEq, Eq)]
pub struct Counted {
    /// The number of steps up to and including the first hit, or of all steps if there is no hit.
    pub steps: Steps,
    /// Whether there is a hit.
    pub matched: bool,
}

impl Steps {
    /// Returns the sum of the two numbers, which is [`Steps::Past`] if it is 2^128 or more.
    pub(crate) fn plus(self, other: Steps) -> Steps
        ensures { (m n : ℕ) → Counts self m → Counts other n → Counts result (m + n) }
    {
        match (self, other) {
            (Steps::Exact(first), Steps::Exact(second)) => match first.checked_add(second) {
                Some(sum) => Steps::Exact(sum),
                None => Steps::Past,
            },
            _ => Steps::Past,
        }
    }
}

impl Counted {
    /// Returns the count of an empty list of steps.
    pub(crate) fn nothing() -> Counted
        ensures { Shows result [] }
    {
        Counted {
            steps: Steps::Exact(0),
            matched: false,
        }
    }

    /// Returns the count of a miss followed by the steps of `self`.
    pub(crate) fn after_miss(self) -> Counted
        ensures { (l : List Bool) → Shows self l → Shows result (false ∷ l) }
    {
        Counted {
            steps: Steps::Exact(1).plus(self.steps),
            matched: self.matched,
        }
    }

    /// Returns the count of the steps of `self` followed by those of `after`. If `self` has a hit, the later steps aren't
    /// taken.
    pub(crate) fn before(self, after: Counted) -> Counted
        ensures { (l r : List Bool) → Shows self l → Shows after r → Shows result (l ++ r) }
    {
        let first = self;
        if first.matched {
            first
        } else {
            Counted {
                steps: first.steps.plus(after.steps),
                matched: after.matched,
            }
        }
    }
}
