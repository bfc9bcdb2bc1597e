//! The names that a baseline may have, of calls, kinds, limits and causes. Any other name is refused.
ghost use Rattle.std.specs.Prelude.{◌≡◌, map, option_map};
ghost use Rattle.rl_sarif.specs.Baseline.{call_names, cause_names, kind_names, limit_names, one_of};

use rl_report::{call_name, limit_name};
use rl_sites::Call;
use rl_syntax::Limit;

/// The names of the kinds of entries.
const KINDS: &[&str] = &[
    "degree",
    "exponential",
    "undecided",
    "refused",
    "unreadable",
    "too-deep-folder",
    "not-plain",
];

/// The names of the causes of refusals. Only older reports use the last two names.
const CAUSES: &[&str] = &[
    "not-utf8",
    "coding",
    "unterminated",
    "file-too-long",
    "stray-code",
    "not-whole",
    "flags-unknown",
    "f-string",
    "mixed",
    "bad-escape",
    "named-escape",
    "not-ascii",
    "syntax",
    "too-deep",
    "too-long",
    "locale",
    "flag-clash",
    "duplicate-name",
    "code-too-large",
    "reversed-range",
    "repeat-too-large",
    "repeat-order",
    "possessive",
    "backreference",
    "lookaround",
    "conditional",
    "atomic",
    "inner-anchor",
    "word-boundary",
    "multiline-anchor",
];

/// Returns the name that equals the text, if there is one.
fn one_of(names: &[&'static str], text: &str) -> Option<&'static str>
    ensures { option_map (λ n. n.now) result ≡ one_of (map (λ n. n.now) names.now) text.now }
{
    for name in names {
        if *name == text {
            return Some(*name);
        }
    }
    None
}

/// Returns the name of a call that the text is, or `None` if it is none of them.
pub(crate) fn call_named(text: &str) -> Option<&'static str>
    ensures { option_map (λ n. n.now) result ≡ one_of call_names text.now }
{
    let names = [
        call_name(Call::Compile),
        call_name(Call::Match),
        call_name(Call::Search),
        call_name(Call::Fullmatch),
        call_name(Call::Findall),
        call_name(Call::Finditer),
        call_name(Call::Split),
        call_name(Call::Sub),
        call_name(Call::Subn),
    ];
    one_of(names.as_slice(), text)
}

/// Returns the name of a kind of entries that the text is, or `None` if it is none of them.
pub(crate) fn kind_named(text: &str) -> Option<&'static str>
    ensures { option_map (λ n. n.now) result ≡ one_of kind_names text.now }
{
    one_of(KINDS, text)
}

/// Returns the name of a limit that the text is, or `None` if it is none of them.
pub(crate) fn limit_named(text: &str) -> Option<&'static str>
    ensures { option_map (λ n. n.now) result ≡ one_of limit_names text.now }
{
    let names = [
        limit_name(Limit::Size),
        limit_name(Limit::Letters),
        limit_name(Limit::Moves),
        limit_name(Limit::Sets),
        limit_name(Limit::Pairs),
    ];
    one_of(names.as_slice(), text)
}

/// Returns the name of a refusal's cause that the text is, or `None` if it is none of them.
pub(crate) fn cause_named(text: &str) -> Option<&'static str>
    ensures { option_map (λ n. n.now) result ≡ one_of cause_names text.now }
{
    one_of(CAUSES, text)
}
