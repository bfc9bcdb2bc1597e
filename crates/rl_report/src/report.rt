//! The entries of a report. A site is a call of `re` whose first argument begins with string literals. A suggestion says what
//! can be left out of a pattern: it has the simpler pattern, if there is one, and mentions parts (branches and quantifiers) of
//! the old one.
ghost use Rattle.std.specs.Prelude.{◌≡◌, option_map};
ghost use Rattle.rl_report.specs.Findings.{becomes_of, is_finding, is_found, is_refused, is_undecided, suggestion_of, verdict_of};
ghost use Rattle.rl_report.specs.Names.{cause_name, kind_name};

use crate::names::{lexing_cause, literal_cause, pattern_cause, verdict_kind};
use crate::places::Place;
use rl_lists::{Bytes, Items};
use rl_pattern::PatError;
use rl_pylex::LexError;
use rl_pystr::StrError;
use rl_sites::Call;
use rl_source::Name;
use rl_syntax::{Suggestion, Universe, Verdict};

/// The result for a site, for a source that can't be cut into tokens, or for a path without a source.
#[derive(Drop)]
pub enum Outcome {
    /// The path couldn't be read.
    Unreadable,
    /// The folder is nested too deeply.
    TooDeepFolder,
    /// The path is neither a file nor a folder.
    NotPlain,
    /// The source can't be cut into tokens, because of this fault.
    Source(LexError),
    /// The first argument of the call isn't only literals.
    NotWhole,
    /// The literals have no value.
    Literal(StrError),
    /// The flags aren't known.
    FlagsUnknown,
    /// The value isn't a pattern that can be judged.
    Pattern(PatError),
    /// The verdict on the pattern, a suggestion for it, if there is one, and the verdict on the suggested pattern, if there is
    /// one.
    Judged(Verdict, Option<Suggestion>, Option<Verdict>),
}

/// A place in a source, with the text that is there.
#[derive(Drop)]
pub struct Mark {
    /// The place.
    pub at: Place,
    /// The text as a quoted literal, if the report shows it.
    pub text: Option<Bytes>,
}

/// A list of marks.
pub type MarkList = Items<Mark>;

/// The parts of a pattern that a suggestion mentions, each list in the order of the places.
#[derive(Drop)]
pub struct Marks {
    /// The branches that the suggestion drops.
    pub dropped: MarkList,
    /// The quantifiers that the suggestion removes. They have no text.
    pub merged: MarkList,
    /// The branches that stay because their test exceeded its limit.
    pub passed: MarkList,
}

/// An entry of a report: the result for one site, for a source that can't be cut into tokens, or for a path without a source.
#[derive(Drop)]
pub struct Entry {
    /// The path of the source, or the path that was visited.
    pub path: Name,
    /// The place of the site's first literal, or the place of a fault because of which the source can't be cut into tokens.
    /// `None` if there is no site and no such place.
    pub at: Option<Place>,
    /// The call of the site, or `None` if the entry isn't that of a site.
    pub call: Option<Call>,
    /// Whether the pattern is text or bytes; text if there is no pattern.
    pub universe: Universe,
    /// The place in the source of a fault in the literals or in the pattern, or `None` if there is no such fault or it has no
    /// place.
    pub fault: Option<Place>,
    /// The result.
    pub outcome: Outcome,
    /// The parts of the pattern that the suggestion mentions.
    pub marks: Marks,
}

/// The entries of a report.
pub type Entries = Items<Entry>;

impl Outcome {
    /// Returns the name of the outcome's kind: `degree`, `exponential` or `undecided` if it has a verdict; `unreadable`,
    /// `too-deep-folder` or `not-plain` for a path without a source; otherwise `refused`.
    pub fn kind(&self) -> &'static str
        ensures { result.now ≡ kind_name self.now }
    {
        match self {
            Outcome::Unreadable => "unreadable",
            Outcome::TooDeepFolder => "too-deep-folder",
            Outcome::NotPlain => "not-plain",
            Outcome::Source(_) => "refused",
            Outcome::NotWhole => "refused",
            Outcome::Literal(_) => "refused",
            Outcome::FlagsUnknown => "refused",
            Outcome::Pattern(_) => "refused",
            Outcome::Judged(verdict, _, _) => verdict_kind(verdict),
        }
    }

    /// Returns the verdict, or `None` if the outcome has none, because the pattern or the path wasn't judged.
    pub fn verdict(&self) -> Option<&Verdict>
        ensures { option_map (λ v. v.now) result ≡ verdict_of self.now }
    {
        match self {
            Outcome::Judged(verdict, _, _) => Some(verdict),
            _ => None,
        }
    }

    /// Returns the suggestion that comes with the verdict, or `None` if there is no verdict or it comes without one.
    pub fn suggestion(&self) -> Option<&Suggestion>
        ensures { option_map (λ s. s.now) result ≡ suggestion_of self.now }
    {
        match self {
            Outcome::Judged(_, suggestion, _) => suggestion.as_ref(),
            _ => None,
        }
    }

    /// Returns the verdict on the suggested pattern, or `None` if the outcome has no verdict or its verdict comes without one.
    pub fn becomes(&self) -> Option<&Verdict>
        ensures { option_map (λ v. v.now) result ≡ becomes_of self.now }
    {
        match self {
            Outcome::Judged(_, _, becomes) => becomes.as_ref(),
            _ => None,
        }
    }

    /// Returns the name of the cause of a refusal, or `None` for any other outcome.
    pub fn cause(&self) -> Option<&'static str>
        ensures { option_map (λ c. c.now) result ≡ cause_name self.now }
    {
        match self {
            Outcome::Unreadable => None,
            Outcome::TooDeepFolder => None,
            Outcome::NotPlain => None,
            Outcome::Source(error) => Some(lexing_cause(*error)),
            Outcome::NotWhole => Some("not-whole"),
            Outcome::Literal(error) => Some(literal_cause(*error)),
            Outcome::FlagsUnknown => Some("flags-unknown"),
            Outcome::Pattern(error) => Some(pattern_cause(*error)),
            Outcome::Judged(_, _, _) => None,
        }
    }
}

/// Returns whether a verdict is a finding: it is exponential, or its degree is above `max_degree`.
pub fn is_finding(verdict: &Verdict, max_degree: u32) -> bool
    ensures { result ≡ is_found max_degree verdict.now }
{
    match verdict {
        Verdict::Degree(degree, _) => *degree > max_degree,
        Verdict::Expo(_) => true,
        Verdict::Undecided(_) => false,
    }
}

impl Entry {
    /// Returns whether the entry is a finding: its verdict is exponential, or a degree above `max_degree`. The verdict on a
    /// suggested pattern doesn't count.
    #[tactic(auto, unfolding(crate::specs::Findings::is_finding))]
    pub fn is_finding(&self, max_degree: u32) -> bool
        ensures { result ≡ is_finding max_degree self.now }
    {
        match self.outcome.verdict() {
            None => false,
            Some(verdict) => is_finding(verdict, max_degree),
        }
    }

    /// Returns whether the entry has no verdict: it is refused, or its path is unreadable, too deep or not plain.
    #[tactic(auto, unfolding(crate::specs::Findings::is_refused))]
    pub fn is_refused(&self) -> bool
        ensures { result ≡ is_refused self.now }
    {
        self.outcome.verdict().is_none()
    }

    /// Returns whether the entry's verdict is `undecided`, because a limit was exceeded.
    #[tactic(auto, unfolding(crate::specs::Findings::is_undecided))]
    pub fn is_undecided(&self) -> bool
        ensures { result ≡ is_undecided self.now }
    {
        match self.outcome.verdict() {
            Some(Verdict::Degree(_, _)) => false,
            Some(Verdict::Expo(_)) => false,
            Some(Verdict::Undecided(_)) => true,
            None => false,
        }
    }
}
