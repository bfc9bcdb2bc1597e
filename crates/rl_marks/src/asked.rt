//! The ways of asking patterns for what they find: matches, with their ends and the spans of their groups.

ghost use Rattle.std.specs.Prelude.{◌≡◌};
ghost use Rattle.rl_marks.specs.SameFinds.{ending_in};

use rl_syntax::Trail;

/// Where a match may end in a text.
#[derive(Clone, Copy, Debug, PartialEq, Eq)]
pub enum MatchEnding {
    /// Only at the end of the text.
    AtEnd,
    /// At the end of the text, or before a line feed that is its last code.
    AtLastLine,
    /// At each position of the text, its end included.
    Anywhere,
}

/// How two patterns are asked for what they find.
#[derive(Clone, Copy, Debug, PartialEq, Eq)]
pub enum How {
    /// By `fullmatch`, from each position of a text.
    Fullmatch,
    /// By `match`, from each position of a text. This settles `search`, `finditer`, `findall`, `split` and `sub`, too.
    Match,
    /// By one `search`, from the start of a text.
    OneSearch,
}

/// Returns where a match of a pattern with this trailing anchor may end, by how it is asked. By `fullmatch` it is only the end
/// of the text. Otherwise it is anywhere if there is no trailing anchor, for `$` the end of the text or before a line feed
/// that is its last code, and for `\Z` only the end of the text.
pub fn ending_of(how: How, trailing: Trail) -> MatchEnding
    ensures { result ≡ ending_in how trailing }
{
    match (how, trailing) {
        (How::Fullmatch, _) | (_, Trail::End) => MatchEnding::AtEnd,
        (_, Trail::Dollar) => MatchEnding::AtLastLine,
        (_, Trail::None) => MatchEnding::Anywhere,
    }
}
