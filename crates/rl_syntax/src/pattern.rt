//! Patterns whose outer anchors have been removed: `\A` and `^` without MULTILINE at the start (leading anchors), and `\Z` and
//! `$` without MULTILINE at the end (trailing anchors).

ghost use Rattle.std.specs.Prelude.{◌≡◌};
ghost use Rattle.rl_syntax.specs.PatTree.{pat_of};
ghost use Rattle.rl_syntax.specs.IsPattern.{IsPattern, IsPattern-prop};

use crate::anchors::Trail;
use crate::pat::Pat;
use rl_ranges::Universe;

/// A pattern that can be judged: its body, the outer anchors that were removed from it, and the universe of its characters.
#[derive(Drop)]
pub struct Pattern {
    /// The body, without the outer anchors.
    body: Pat,
    /// Whether a leading anchor was removed.
    leading: bool,
    /// The trailing anchors that were removed.
    trailing: Trail,
    /// The universe of the pattern's characters.
    universe: Universe,
    // A proof that the body is that of a pattern, which exists only in contracts.
    ghost judged: { IsPattern universe (pat_of body) } by { IsPattern-prop universe (pat_of body) },
}

impl Pattern {
    ghost use Rattle.rl_syntax.specs.Pattern.{body_of, is_anchored, trail_of, universe_of};

    /// Returns the pattern with this body. `leading` says whether a leading anchor was removed from it, and `trailing` which
    /// trailing anchors were. The body must satisfy `IsPattern`: it has no outer anchor, no feature that isn't judged and no
    /// `$` without MULTILINE, its sets lie in the universe, and no repeat has a maximum less than its minimum.
    pub fn new(body: Pat, leading: bool, trailing: Trail, universe: Universe) -> Pattern
        requires { IsPattern universe (pat_of body) }
        ensures body { body_of result ≡ pat_of body }
        ensures leading { is_anchored result ≡ leading }
        ensures trailing { trail_of result ≡ trailing }
        ensures universe { universe_of result ≡ universe }
    {
        Pattern {
            body,
            leading,
            trailing,
            universe,
        }
    }

    /// Returns the body, without the outer anchors. It satisfies `IsPattern`.
    pub fn body(&self) -> &Pat
        ensures same { pat_of result.now ≡ body_of self.now }
        ensures judged { IsPattern (universe_of self.now) (body_of self.now) }
    {
        &self.body
    }

    /// Returns whether a leading anchor was removed from the pattern.
    pub fn leading(&self) -> bool
        ensures { result ≡ is_anchored self.now }
    {
        self.leading
    }

    /// Returns the trailing anchors that were removed from the pattern.
    pub fn trailing(&self) -> Trail
        ensures { result ≡ trail_of self.now }
    {
        self.trailing
    }

    /// Returns the universe of the pattern's characters.
    pub fn universe(&self) -> Universe
        ensures { result ≡ universe_of self.now }
    {
        self.universe
    }
}
