//! What a valid call asks for. All texts are borrowed from the words, which are those after the program's name. A setting is
//! an option that a settings file can set too.
use rl_lists::Items;

/// The values of `--mode`.
#[derive(Clone, Copy)]
pub enum ModeWord {
    /// `fullmatch`
    Fullmatch,
    /// `match`
    Match,
    /// `search`
    Search,
}

/// The values of `--format`.
#[derive(Clone, Copy)]
pub enum FormatWord {
    /// `text`
    Text,
    /// `brief`
    Brief,
    /// `json`
    Json,
    /// `sarif`
    Sarif,
}

/// The settings that the options or a settings file give. A setting is `None` if it isn't given.
#[derive(Clone, Copy)]
pub struct PartialSettings {
    /// The value of `--mode`, or of the key `compile-as`.
    pub mode: Option<ModeWord>,
    /// The value of `--format`, or of the key `format`: the format of the report.
    pub format: Option<FormatWord>,
    /// The greatest degree that isn't a finding, from 0 to 999999. If the worst cost of a pattern grows like a power of the
    /// length of the text, its degree is the exponent.
    pub max_degree: Option<u32>,
    /// The limit on live pairs, from 1 to 1000. A live pair is a state of a pattern's automaton with the set of states that
    /// were tried in vain before it, if that set refuses some rest of a text. A pattern that has more isn't judged.
    pub max_pairs: Option<u32>,
    /// The version of the report, 1 or 2.
    pub report: Option<u32>,
}

/// The options that were given. An option that wasn't given is `None`.
#[derive(Clone, Copy)]
pub struct Options<'a> {
    /// The options that a settings file can set too.
    pub values: PartialSettings,
    /// The path of the settings file, which isn't empty.
    pub settings: Option<&'a str>,
    /// The path of the baseline file, which isn't empty.
    pub baseline: Option<&'a str>,
}

/// The paths of an action `check`, none of which is empty.
pub type Paths<'a> = Items<&'a str>;

/// An action with its arguments, which are texts, or numbers in the case of `Sample`.
#[derive(Drop)]
pub enum Action<'a> {
    /// Judges the sources at the paths. There is at least one path.
    Check { paths: Paths<'a> },
    /// Judges one pattern.
    Class { pattern: &'a str },
    /// Counts the steps of a backtracking matcher with the pattern on the text.
    Cost { pattern: &'a str, text: &'a str },
    /// Judges a generated source. `seed` is from 0 to 2147483647 and selects its patterns; `count` is the number of its calls
    /// of `re`, from 1 to 20000.
    Sample { seed: u32, count: u32 },
    /// Writes the certificate of a pattern's verdict.
    Prove { pattern: &'a str },
    /// Checks the certificate of the pattern's verdict in `file`, a path that isn't empty.
    Verify { pattern: &'a str, file: &'a str },
    /// Compares the languages of two patterns.
    Compare { first: &'a str, second: &'a str },
}

/// A valid call.
#[derive(Drop)]
pub struct Words<'a> {
    /// The action with its arguments.
    pub action: Action<'a>,
    /// The options that were given.
    pub options: Options<'a>,
}
