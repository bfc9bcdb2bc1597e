//! The options, taken from what the command of `clap` found in the words. A setting is an option that a settings file can set
//! too.
ghost use Rattle.std.specs.Prelude.{◌≡◌, IfSome, option_map, codes};
ghost use Rattle.clap.specs.Walk.{first_of, rows_of};
ghost use Rattle.clap.specs.Matches.{found_of};
ghost use Rattle.rl_words.specs.Call.{AreInRange, IsWithin, chosen};
ghost use Rattle.rl_words.specs.Given.{given, options_given, settings_given};
ghost use Rattle.rl_words.specs.Values.{format_of, mode_of, number_of, path_of};

use crate::command::value_of;
use crate::values::{format_of, mode_of, number_of, path_of};
use crate::{
    FormatWord, MAX_DEGREES, MAX_PAIRS, ModeWord, NumberRange, Options, PartialSettings,
    REPORT_VERSIONS,
};
use clap::ArgMatches;

/// Reads `--mode`. `Some(None)` means that the option isn't given, `None` that its value is refused.
fn mode_given(matches: &ArgMatches) -> Option<Option<ModeWord>>
    ensures { result ≡ given (codes "mode") mode_of (rows_of (found_of matches.now)) }
{
    match value_of(matches, "mode") {
        Some(word) => Some(Some(mode_of(word)?)),
        None => Some(None),
    }
}

/// Reads `--format`. `Some(None)` means that the option isn't given, `None` that its value is refused.
fn format_given(matches: &ArgMatches) -> Option<Option<FormatWord>>
    ensures { result ≡ given (codes "format") format_of (rows_of (found_of matches.now)) }
{
    match value_of(matches, "format") {
        Some(word) => Some(Some(format_of(word)?)),
        None => Some(None),
    }
}

/// Reads an option whose value is a number in a range. `Some(None)` means that the option isn't given, `None` that its
/// value is refused.
fn number_given(matches: &ArgMatches, name: &str, range: NumberRange) -> Option<Option<u32>>
    ensures value { result ≡ given name.now (number_of 6 range) (rows_of (found_of matches.now)) }
    ensures range { IfSome result (λ n. IfSome n (IsWithin range)) }
{
    match value_of(matches, name) {
        Some(text) => Some(Some(number_of(6, range, text)?)),
        None => Some(None),
    }
}

/// Reads an option whose value is a path. `Some(None)` means that the option isn't given, `None` that its value is refused.
fn path_given<'a>(matches: &ArgMatches<'a>, name: &str) -> Option<Option<&'a str>>
    ensures { option_map (option_map (λ p. p.now)) result
        ≡ given name.now path_of (rows_of (found_of matches.now)) }
{
    match value_of(matches, name) {
        Some(path) => Some(Some(path_of(path)?)),
        None => Some(None),
    }
}

/// Reads the options that are settings, or returns `None` if a value is refused.
fn settings_given(matches: &ArgMatches) -> Option<PartialSettings>
    ensures value { result ≡ settings_given (rows_of (found_of matches.now)) }
    ensures ranges { IfSome result AreInRange }
{
    Some(PartialSettings {
        mode: mode_given(matches)?,
        format: format_given(matches)?,
        max_degree: number_given(matches, "max-degree", MAX_DEGREES)?,
        max_pairs: number_given(matches, "max-pairs", MAX_PAIRS)?,
        report: number_given(matches, "report", REPORT_VERSIONS)?,
    })
}

/// Returns all options that are given, or `None` if the value of one is refused.
pub(crate) fn options_given<'a>(matches: &ArgMatches<'a>) -> Option<Options<'a>>
    ensures value { option_map chosen result ≡ options_given (rows_of (found_of matches.now)) }
    ensures ranges { IfSome result (λ options. AreInRange options.values) }
{
    Some(Options {
        values: settings_given(matches)?,
        settings: path_given(matches, "settings")?,
        baseline: path_given(matches, "baseline")?,
    })
}
