//! The names that a report uses for calls, limits, kinds and causes. A verdict says how the cost of matching a pattern grows
//! with the length of the text: with a degree, exponentially, or `undecided`, because a limit was exceeded. A live pair, whose
//! number one of the limits bounds, is a state of the pattern's automaton with the set of states that were tried before it.
ghost use Rattle.std.specs.Prelude.{◌≡◌};
ghost use Rattle.rl_sites.specs.Names.{call_word};
ghost use Rattle.rl_report.specs.Names.{feature_name, lexing_cause, limit_name, limit_number, literal_cause, pattern_cause, verdict_kind};

use rl_pattern::PatError;
use rl_pylex::LexError;
use rl_pystr::StrError;
use rl_sites::Call;
use rl_syntax::{Feature, Limit, MOST_COUNTED_SETS, MOST_LETTERS, MOST_MOVES, MOST_NODES, Verdict};

/// Returns the name, as reports show it, of a feature because of which a pattern isn't judged.
pub fn feature_name(feature: Feature) -> &'static str
    ensures { result.now ≡ feature_name feature }
{
    match feature {
        Feature::Locale => "locale",
        Feature::FlagClash => "flag-clash",
        Feature::DuplicateName => "duplicate-name",
        Feature::CodeTooLarge => "code-too-large",
        Feature::ReversedRange => "reversed-range",
        Feature::RepeatTooLarge => "repeat-too-large",
        Feature::RepeatOrder => "repeat-order",
        Feature::Possessive => "possessive",
        Feature::Backreference => "backreference",
        Feature::Lookaround => "lookaround",
        Feature::Conditional => "conditional",
        Feature::Atomic => "atomic",
        Feature::NamedEscape => "named-escape",
        Feature::InnerAnchor => "inner-anchor",
    }
}

/// Returns the name of the function of `re` that a site calls.
pub fn call_name(call: Call) -> &'static str
    ensures { result.now ≡ call_word call }
{
    match call {
        Call::Compile => "compile",
        Call::Match => "match",
        Call::Search => "search",
        Call::Fullmatch => "fullmatch",
        Call::Findall => "findall",
        Call::Finditer => "finditer",
        Call::Split => "split",
        Call::Sub => "sub",
        Call::Subn => "subn",
    }
}

/// Returns the name of a limit, as reports show it.
pub fn limit_name(limit: Limit) -> &'static str
    ensures { result.now ≡ limit_name limit }
{
    match limit {
        Limit::Size => "size",
        Limit::Letters => "letters",
        Limit::Moves => "moves",
        Limit::Sets => "sets",
        Limit::Pairs => "pairs",
    }
}

/// Returns the greatest number that a limit allows: `max_pairs` for live pairs, and a fixed number for every other limit.
pub fn limit_number(limit: Limit, max_pairs: u32) -> u32
    ensures { result ≡ limit_number max_pairs limit }
{
    match limit {
        Limit::Size => MOST_NODES as u32,
        Limit::Letters => MOST_LETTERS as u32,
        Limit::Moves => MOST_MOVES as u32,
        Limit::Sets => MOST_COUNTED_SETS,
        Limit::Pairs => max_pairs,
    }
}

/// Returns the name of a verdict's kind: `degree`, `exponential` or `undecided`.
pub fn verdict_kind(verdict: &Verdict) -> &'static str
    ensures { result.now ≡ verdict_kind verdict.now }
{
    match verdict {
        Verdict::Degree(_, _) => "degree",
        Verdict::Expo(_) => "exponential",
        Verdict::Undecided(_) => "undecided",
    }
}

/// Returns the name of the fault that keeps a source from being cut into tokens. Running out of memory has a name, but no
/// report shows it.
pub fn lexing_cause(error: LexError) -> &'static str
    ensures { result.now ≡ lexing_cause error }
{
    match error {
        LexError::NotUtf8(_) => "not-utf8",
        LexError::Coding(_) => "coding",
        LexError::Unterminated(_) => "unterminated",
        LexError::FileTooLong => "file-too-long",
        LexError::StrayCode(_) => "stray-code",
        LexError::OutOfMemory => "out-of-memory",
    }
}

/// Returns the name of the reason why a call's string literals have no value. Running out of memory has a name, but no report
/// shows it.
pub fn literal_cause(error: StrError) -> &'static str
    ensures { result.now ≡ literal_cause error }
{
    match error {
        StrError::FString => "f-string",
        StrError::Mixed => "mixed",
        StrError::BadEscape(_) => "bad-escape",
        StrError::NamedEscape(_) => "named-escape",
        StrError::NotAscii(_) => "not-ascii",
        StrError::OutOfMemory => "out-of-memory",
    }
}

/// Returns the name of the reason why a pattern can't be judged: `syntax`, `too-deep`, `too-long`, or the name of the feature
/// that isn't judged. Running out of memory has a name, but no report shows it.
pub fn pattern_cause(error: PatError) -> &'static str
    ensures { result.now ≡ pattern_cause error }
{
    match error {
        PatError::Syntax(_) => "syntax",
        PatError::TooDeep(_) => "too-deep",
        PatError::TooLong => "too-long",
        PatError::Outside(_, feature) => feature_name(feature),
        PatError::OutOfMemory => "out-of-memory",
    }
}
