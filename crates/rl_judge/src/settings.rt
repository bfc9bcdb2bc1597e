//! The settings of a report. A live pair is a state of the pattern's automaton with the set of states that were tried before
//! it.
use rl_report::Format;
use rl_syntax::Mode;

/// How a report is laid out.
#[derive(Clone, Copy, PartialEq, Eq)]
pub enum Layout {
    /// A report of relint's own, in this format.
    Report(Format),
    /// A SARIF document.
    Sarif,
}

/// Everything besides the sources that a report depends on.
#[derive(Clone, Copy, PartialEq, Eq)]
pub struct Settings {
    /// The mode that a call of `compile` counts as.
    pub compile_as: Mode,
    /// The highest degree that isn't a finding.
    pub max_degree: u32,
    /// The number of live pairs that are examined, at most; from 1 to 1,000.
    pub max_pairs: u32,
    /// The layout.
    pub format: Layout,
    /// The version of the report, 1 or 2.
    pub report: u32,
}
