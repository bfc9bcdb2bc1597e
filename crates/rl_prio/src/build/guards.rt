//! Sets of guards, and the guards that hold at a position of a text.

ghost use Rattle.std.specs.Prelude.{◌≡◌, ℕ, ◌<◌, ◌≤◌, true, false, IfOk, length};
ghost use Rattle.rl_syntax.specs.Guards.{is_word};
ghost use Rattle.rl_ranges.specs.Codes.{has};
ghost use Rattle.rl_ranges.specs.Letters.{letter_at};
ghost use Rattle.rl_ranges.specs.declared.letters.TheConstants.{MOST_LETTERS};
ghost use Rattle.rl_prio.specs.internal.GuardSets.{no_looks, requires_none, one_look, looks_joined, looks_met, looks_holding, kinds_refused, no_guards, has_none, only, joined, flags_met, met, nothing_shown, code_shown, holding};

use rl_lists::OutOfMemory;
use rl_ranges::{CodeSet, Letters, Named, Universe};
use rl_syntax::Guard;
use std::alloc::Global;

/// A set of guards, as a flag for each guard: `true` if the set holds it. `word` and `not_word` are the word boundaries `\b`
/// and `\B` by Unicode, `ascii_word` and `not_ascii_word` those by ASCII. Of the lookarounds the set has what they require.
#[derive(Clone, Copy)]
pub(crate) struct Guards {
    start: bool,
    line_start: bool,
    line_end: bool,
    text_end: bool,
    word: bool,
    ascii_word: bool,
    not_word: bool,
    not_ascii_word: bool,
    looks: Looks,
}

/// What lookarounds require of the code before a position and of the next code. Kinds are given as bits: bit `k` stands for the
/// kind `k`.
#[derive(Clone, Copy)]
struct Looks {
    /// Whether there has to be a code before.
    some_before: bool,
    /// Whether there has to be a next code.
    some_next: bool,
    /// The kinds that the code before must not have.
    not_before: u128,
    /// The kinds that the next code must not have.
    not_next: u128,
}

/// What is known of the code on one side of a position in a text.
#[derive(Clone, Copy)]
pub(crate) struct Shown {
    /// Whether there is a code.
    is_code: bool,
    /// Whether it is a line feed.
    line_feed: bool,
    /// Whether it is a word character by Unicode.
    word: bool,
    /// Whether it is a word character by ASCII.
    ascii_word: bool,
    /// The kinds that it isn't of: bit `k` stands for the kind `k`. If there is no code, it is of no kind.
    other_kinds: u128,
}

/// The word characters.
#[derive(Drop)]
pub(crate) struct Words {
    /// All of them, by Unicode.
    all: CodeSet,
    /// Only the ASCII ones.
    ascii: CodeSet,
}

impl Guards {
    /// Returns the empty set of guards.
    #[tactic(auto, unfolding(crate::specs::internal::GuardSets::no_guards))]
    pub(crate) fn none() -> Guards
        ensures { result ≡ no_guards }
    {
        Guards {
            start: false,
            line_start: false,
            line_end: false,
            text_end: false,
            word: false,
            ascii_word: false,
            not_word: false,
            not_ascii_word: false,
            looks: Looks::none(),
        }
    }

    /// Whether the set is empty.
    #[tactic(auto, unfolding(crate::specs::internal::GuardSets::has_none))]
    pub(crate) fn is_empty(self) -> bool
        ensures { result ≡ has_none self }
    {
        !self.start
            && !self.line_start
            && !self.line_end
            && !self.text_end
            && !self.word
            && !self.ascii_word
            && !self.not_word
            && !self.not_ascii_word
            && self.looks.are_none()
    }

    /// Returns the set that holds only `guard`, a guard of the tree whose kinds are given. There must be at most
    /// [`MOST_LETTERS`](rl_ranges::MOST_LETTERS) kinds.
    #[tactic(auto, unfolding(crate::specs::internal::GuardSets::only))]
    pub(crate) fn only(guard: &Guard, kinds: &Letters) -> Guards
        requires { length kinds.now.samples ≤ MOST_LETTERS }
        ensures { result ≡ only kinds.now guard.now }
    {
        let mut guards = Guards::none();
        match guard {
            Guard::Start => guards.start = true,
            Guard::LineStart => guards.line_start = true,
            Guard::LineEnd => guards.line_end = true,
            Guard::TextEnd => guards.text_end = true,
            Guard::Word(false) => guards.word = true,
            Guard::Word(true) => guards.ascii_word = true,
            Guard::NotWord(false) => guards.not_word = true,
            Guard::NotWord(true) => guards.not_ascii_word = true,
            Guard::Look {
                behind,
                negated,
                set,
            } => guards.looks = Looks::one(*behind, *negated, kinds_refused(*negated, set, kinds)),
        }
        guards
    }

    /// Returns the union of the two sets.
    #[tactic(auto, unfolding(crate::specs::internal::GuardSets::joined))]
    pub(crate) fn join(self, other: Guards) -> Guards
        ensures { result ≡ joined self other }
    {
        Guards {
            start: self.start | other.start,
            line_start: self.line_start | other.line_start,
            line_end: self.line_end | other.line_end,
            text_end: self.text_end | other.text_end,
            word: self.word | other.word,
            ascii_word: self.ascii_word | other.ascii_word,
            not_word: self.not_word | other.not_word,
            not_ascii_word: self.not_ascii_word | other.not_ascii_word,
            looks: self.looks.join(other.looks),
        }
    }

    /// Whether every guard of the set is among the guards in `holding`.
    #[tactic(auto, unfolding(crate::specs::internal::GuardSets::met))]
    pub(crate) fn are_met(self, holding: Guards) -> bool
        ensures { result ≡ met self holding }
    {
        self.flags_are_met(holding) && self.looks.are_met(holding.looks)
    }

    /// Whether every guard of the set that isn't a lookaround is among the guards in `holding`.
    #[tactic(auto, unfolding(crate::specs::internal::GuardSets::flags_met))]
    fn flags_are_met(self, holding: Guards) -> bool
        ensures { result ≡ flags_met self holding }
    {
        (!self.start || holding.start)
            && (!self.line_start || holding.line_start)
            && (!self.line_end || holding.line_end)
            && (!self.text_end || holding.text_end)
            && (!self.word || holding.word)
            && (!self.ascii_word || holding.ascii_word)
            && (!self.not_word || holding.not_word)
            && (!self.not_ascii_word || holding.not_ascii_word)
    }

    /// Returns the guards that hold between the code before a position and the next code.
    #[tactic(auto, unfolding(crate::specs::internal::GuardSets::holding))]
    pub(crate) fn holding(before: Shown, next: Shown) -> Guards
        ensures { result ≡ holding before next }
    {
        let same_word = before.word == next.word;
        let same_ascii_word = before.ascii_word == next.ascii_word;
        Guards {
            start: !before.is_code,
            line_start: !before.is_code || before.line_feed,
            line_end: !next.is_code || next.line_feed,
            text_end: !next.is_code,
            word: !same_word,
            ascii_word: !same_ascii_word,
            not_word: same_word,
            not_ascii_word: same_ascii_word,
            looks: Looks::holding(before, next),
        }
    }
}

impl Looks {
    /// Returns what no lookaround requires: nothing.
    #[tactic(auto, unfolding(crate::specs::internal::GuardSets::no_looks))]
    fn none() -> Looks
        ensures { result ≡ no_looks }
    {
        Looks {
            some_before: false,
            some_next: false,
            not_before: 0,
            not_next: 0,
        }
    }

    /// Whether nothing is required.
    #[tactic(auto, unfolding(crate::specs::internal::GuardSets::requires_none))]
    fn are_none(self) -> bool
        ensures { result ≡ requires_none self }
    {
        !self.some_before && !self.some_next && self.not_before == 0 && self.not_next == 0
    }

    /// Returns what a lookaround requires that refuses codes of the kinds `refused`. Unless it is negated, there has to be a
    /// code.
    #[tactic(auto, unfolding(crate::specs::internal::GuardSets::one_look))]
    fn one(behind: bool, negated: bool, refused: u128) -> Looks
        ensures { result ≡ one_look behind negated refused }
    {
        let mut looks = Looks::none();
        if behind {
            looks.some_before = !negated;
            looks.not_before = refused;
        } else {
            looks.some_next = !negated;
            looks.not_next = refused;
        }
        looks
    }

    /// Returns what both require together.
    #[tactic(auto, unfolding(crate::specs::internal::GuardSets::looks_joined))]
    fn join(self, other: Looks) -> Looks
        ensures { result ≡ looks_joined self other }
    {
        Looks {
            some_before: self.some_before | other.some_before,
            some_next: self.some_next | other.some_next,
            not_before: self.not_before | other.not_before,
            not_next: self.not_next | other.not_next,
        }
    }

    /// Whether all that is required is part of `holding`.
    #[tactic(auto, unfolding(crate::specs::internal::GuardSets::looks_met))]
    fn are_met(self, holding: Looks) -> bool
        ensures { result ≡ looks_met self holding }
    {
        (!self.some_before || holding.some_before)
            && (!self.some_next || holding.some_next)
            && self.not_before & !holding.not_before == 0
            && self.not_next & !holding.not_next == 0
    }

    /// Returns all that the code before a position and the next code meet.
    #[tactic(auto, unfolding(crate::specs::internal::GuardSets::looks_holding))]
    fn holding(before: Shown, next: Shown) -> Looks
        ensures { result ≡ looks_holding before next }
    {
        Looks {
            some_before: before.is_code,
            some_next: next.is_code,
            not_before: before.other_kinds,
            not_next: next.other_kinds,
        }
    }
}

/// Returns the kinds that a lookaround of a set refuses, as bits: bit `k` is set if the lookaround doesn't hold where it looks
/// at the sample code of the kind `k`. There must be at most [`MOST_LETTERS`](rl_ranges::MOST_LETTERS) kinds.
fn kinds_refused(negated: bool, set: &CodeSet, kinds: &Letters) -> u128
    requires { length kinds.now.samples ≤ MOST_LETTERS }
    ensures { result ≡ kinds_refused negated (has set.now) kinds.now.samples }
{
    let mut refused = 0;
    for kind in 0..kinds.count() {
        if set.contains(kinds.sample(kind)) == negated {
            refused |= 1 << kind;
        }
    }
    refused
}

impl Shown {
    /// Returns what is shown if there is no code.
    #[tactic(auto, unfolding(crate::specs::internal::GuardSets::nothing_shown))]
    pub(crate) fn nothing() -> Shown
        ensures { result ≡ nothing_shown }
    {
        Shown {
            is_code: false,
            line_feed: false,
            word: false,
            ascii_word: false,
            other_kinds: u128::MAX,
        }
    }
}

impl Words {
    /// Computes the sets of word characters.
    ///
    /// # Errors
    /// [`OutOfMemory`] if there is not enough memory for them.
    #[tactic(auto, unfolding(rl_syntax::specs::Guards::is_word))]
    pub(crate) fn new(alloc: Global) -> Result<Words, OutOfMemory>
        ensures all { IfOk result (λ words. (c : ℕ) → has words.all c ≡ is_word false c) }
        ensures ascii { IfOk result (λ words. (c : ℕ) → has words.ascii c ≡ is_word true c) }
    {
        let all = CodeSet::named(alloc, Named::Word, false, Universe::Str)?;
        let ascii = CodeSet::named(alloc, Named::Word, true, Universe::Str)?;
        Ok(Words { all, ascii })
    }

    /// Returns what a code shows, given the kinds of a tree. `self` must be made by [`Words::new`], and there must be at most
    /// [`MOST_LETTERS`](rl_ranges::MOST_LETTERS) kinds.
    #[tactic(auto, unfolding(crate::specs::internal::GuardSets::code_shown))]
    pub(crate) fn shown(&self, kinds: &Letters, code: u32) -> Shown
        requires all { (c : ℕ) → has self.now.all c ≡ is_word false c }
        requires ascii { (c : ℕ) → has self.now.ascii c ≡ is_word true c }
        requires few { length kinds.now.samples ≤ MOST_LETTERS }
        requires code_in { code < kinds.now.codes }
        ensures { result ≡ code_shown kinds.now code }
    {
        let kind = kinds.letter_of(code);
        Shown {
            is_code: true,
            line_feed: code == 10,
            word: self.all.contains(code),
            ascii_word: self.ascii.contains(code),
            other_kinds: !(1 << kind),
        }
    }
}
