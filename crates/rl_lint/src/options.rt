//! Settings with given values in place of others. The mode is the way in which a pattern is matched: `fullmatch`, `match` or
//! `search`.
ghost use Rattle.std.specs.Prelude.{◌≡◌, option_map, unwrap_or};
ghost use Rattle.rl_words.specs.Call.{AreInRange};
ghost use Rattle.rl_judge.specs.RightEntries.{IsValid};
ghost use Rattle.rl_lint.specs.Options.{layout_of, mode_given, with_values};

use rl_judge::{Layout, Settings};
use rl_report::Format;
use rl_syntax::Mode;
use rl_words::{FormatWord, ModeWord, PartialSettings};

/// Returns the mode that `word`, a value of the option `--mode`, names, or `default` if none is given.
pub fn mode_given(word: Option<ModeWord>, default: Mode) -> Mode
    ensures { result ≡ mode_given word default }
{
    match word {
        None => default,
        Some(ModeWord::Fullmatch) => Mode::Fullmatch,
        Some(ModeWord::Match) => Mode::Match,
        Some(ModeWord::Search) => Mode::Search,
    }
}

/// Returns the layout that the given word names, or `default` if none is given.
fn layout_given(word: Option<FormatWord>, default: Layout) -> Layout
    ensures { result ≡ unwrap_or (option_map layout_of word) default }
{
    match word {
        None => default,
        Some(FormatWord::Text) => Layout::Report(Format::Text),
        Some(FormatWord::Brief) => Layout::Report(Format::Brief),
        Some(FormatWord::Json) => Layout::Report(Format::Json),
        Some(FormatWord::Sarif) => Layout::Sarif,
    }
}

/// Returns the settings `start`, with each value given in `values` in place of the old one; a mode that is given replaces
/// `compile_as`. `start` must be valid: the limit of live pairs is from 1 to 1,000, and the report version is 1 or 2. The
/// values must be in their ranges.
pub fn with_values(values: &PartialSettings, start: &Settings) -> Settings
    requires ranges { AreInRange values.now }
    requires valid { IsValid start.now }
    ensures value { result ≡ with_values values.now start.now }
    ensures valid { IsValid result }
{
    Settings {
        compile_as: mode_given(values.mode, start.compile_as),
        max_degree: values.max_degree.unwrap_or(start.max_degree),
        max_pairs: values.max_pairs.unwrap_or(start.max_pairs),
        format: layout_given(values.format, start.format),
        report: values.report.unwrap_or(start.report),
    }
}
