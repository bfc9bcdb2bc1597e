//! Profiles: what the parser reads of a pattern. Everything else in a pattern is refused.

ghost use Rattle.std.specs.Prelude.{◌≡◌};
ghost use Rattle.rl_pattern.specs.Profile as p;

use rl_syntax::Trail;

/// What becomes of a `$` without MULTILINE that ends the pattern inside a group or a branch of a choice.
#[derive(Clone, Copy)]
pub enum Dollar {
    /// It is refused.
    Refused,
    /// It is dropped. This is right if a match must end at the end of the text anyway.
    Dropped,
    /// It becomes an optional line feed, which is lazy, and a `\Z`, as a `$` at the end of a pattern does in `match` and
    /// `search`. A match then contains that line feed.
    LastLine,
}

/// What the parser reads of a pattern.
#[derive(Clone, Copy)]
pub(crate) enum Profile {
    /// No lookaround, and no `$` without MULTILINE except for the outer anchors.
    Narrow,
    /// Also lookarounds that test one side of a place, and a `$` without MULTILINE at the end of the pattern as the [`Dollar`]
    /// says.
    Wide(Dollar),
}

/// Returns the profile for a part that doesn't end the pattern. In it, a `$` without MULTILINE is refused.
pub(crate) fn before_end(profile: Profile) -> Profile
    ensures { result ≡ p.before_end profile }
{
    match profile {
        Profile::Narrow => Profile::Narrow,
        Profile::Wide(_) => Profile::Wide(Dollar::Refused),
    }
}

/// Returns the profile for an item of a sequence. `last` says whether it is the last one.
pub(crate) fn for_item(profile: Profile, last: bool) -> Profile
    ensures { result ≡ p.for_item profile last }
{
    if last { profile } else { before_end(profile) }
}

/// Returns the profile for the body of a pattern, given the trailing anchor that was removed from its end.
pub(crate) fn for_body(profile: Profile, trailing: Trail) -> Profile
    ensures { result ≡ p.for_body profile trailing }
{
    match trailing {
        Trail::End => before_end(profile),
        Trail::None | Trail::Dollar => profile,
    }
}

/// Whether a `$` without MULTILINE is read, if it is at the end of a part with this profile.
pub(crate) fn reads_dollar(profile: Profile) -> bool
    ensures { result ≡ p.reads_dollar profile }
{
    match profile {
        Profile::Narrow | Profile::Wide(Dollar::Refused) => false,
        Profile::Wide(Dollar::Dropped | Dollar::LastLine) => true,
    }
}
