//! How the pattern of a call is judged. A live pair is a state of the pattern's automaton with the set of states that were
//! tried before it.
ghost use Rattle.std.specs.Prelude.{◌≡◌};
ghost use Rattle.rl_judge.specs.RightEntries.{mode_of, options_of};

use crate::settings::Settings;
use rl_sites::Call;
use rl_syntax::Mode;

/// How a pattern is judged.
#[derive(Clone, Copy)]
pub struct AnalysisOptions {
    /// The mode in which it is matched.
    pub mode: Mode,
    /// The number of live pairs that are examined, at most.
    pub max_pairs: u32,
    /// The version of the report, 1 or 2.
    pub report: u32,
}

/// Returns the mode that a call counts as.
fn mode_of(settings: &Settings, call: Call) -> Mode
    ensures { result ≡ mode_of settings.now call }
{
    match call {
        Call::Compile => settings.compile_as,
        Call::Match => Mode::Match,
        Call::Fullmatch => Mode::Fullmatch,
        Call::Search | Call::Findall | Call::Finditer | Call::Split | Call::Sub | Call::Subn =>
            Mode::Search,
    }
}

/// Returns the options by which the pattern of a call is judged under the settings. The mode is `compile_as` for a call of
/// `compile`, the mode of the same name for `match` and `fullmatch`, and `search` for every other call.
pub fn options_of(settings: &Settings, call: Call) -> AnalysisOptions
    ensures { result ≡ options_of settings.now call }
{
    AnalysisOptions {
        mode: mode_of(settings, call),
        max_pairs: settings.max_pairs,
        report: settings.report,
    }
}
