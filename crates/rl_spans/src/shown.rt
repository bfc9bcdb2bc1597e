//! What guards see of the codes beside a place. Guards are anchors, word boundaries and lookarounds of one character.

ghost use Rattle.std.specs.Prelude.{◌≡◌, ℕ, true, false, None, Some, map, IfOk, IsTrue};
ghost use Rattle.rl_ranges.specs.Codes.{has};
ghost use Rattle.rl_ranges.specs.Letters.{alike};
ghost use Rattle.rl_syntax.specs.Guards.{is_word};
ghost use Rattle.rl_marks.specs.internal.PairLetters.{SameKind};
ghost use Rattle.rl_spans.specs.internal.Shown.{IsShown};

use rl_lists::OutOfMemory;
use rl_ranges::{CodeSet, Named, Universe};
use std::alloc::Global;

/// What guards see of a code, or of the start or the end of a text.
#[derive(Clone, Copy)]
pub(crate) struct Shown {
    /// The code, or `None` where the text starts or ends. Then the other fields are false.
    pub code: Option<u32>,
    /// It is a line feed.
    pub line_feed: bool,
    /// It is a word character.
    pub word: bool,
    /// It is a word character of ASCII.
    pub ascii_word: bool,
}

/// The word characters: all of them, and those of ASCII.
#[derive(Drop)]
pub(crate) struct Words {
    all: CodeSet,
    ascii: CodeSet,
}

impl Words {
    /// Returns the word characters.
    ///
    /// # Errors
    /// [`OutOfMemory`] if there was no memory for them.
    #[tactic(auto, unfolding(rl_syntax::specs::Guards::is_word))]
    pub(crate) fn new(alloc: Global) -> Result<Words, OutOfMemory>
        ensures all { IfOk result (λ words. (c : ℕ) → has words.all c ≡ is_word false c) }
        ensures ascii { IfOk result (λ words. (c : ℕ) → has words.ascii c ≡ is_word true c) }
    {
        let all = CodeSet::named(alloc, Named::Word, false, Universe::Str)?;
        let ascii = CodeSet::named(alloc, Named::Word, true, Universe::Str)?;
        Ok(Words { all, ascii })
    }

    /// Returns what guards see of the code, or of the start or the end of a text if there is none.
    pub(crate) fn shown(&self, code: Option<u32>) -> Shown
        requires all { (c : ℕ) → has self.now.all c ≡ is_word false c }
        requires ascii { (c : ℕ) → has self.now.ascii c ≡ is_word true c }
        ensures code { result.code ≡ code }
        ensures shown { IsShown result }
    {
        match code {
            None => Shown {
                code: None,
                line_feed: false,
                word: false,
                ascii_word: false,
            },
            Some(code) => Shown {
                code: Some(code),
                line_feed: code == 10,
                word: self.all.contains(code),
                ascii_word: self.ascii.contains(code),
            },
        }
    }
}

/// Returns whether each of the sets holds both codes or neither.
fn are_held_alike(sets: &[CodeSet], code: u32, other: u32) -> bool
    ensures { result ≡ alike (map has sets.now) code other }
{
    for set in sets {
        if set.contains(code) != set.contains(other) {
            return false;
        }
    }
    true
}

/// Returns whether both codes are missing, or neither is and each of the sets holds both or neither.
fn are_one_kind(sets: &[CodeSet], code: Option<u32>, other: Option<u32>) -> bool
    ensures yes { IsTrue result → SameKind (map has sets.now) code other }
    ensures no { SameKind (map has sets.now) code other → IsTrue result }
{
    match (code, other) {
        (None, None) => true,
        (Some(code), Some(other)) => are_held_alike(sets, code, other),
        _ => false,
    }
}

/// Returns whether guards see the same in both. `looks` are the sets of the lookarounds among them.
pub(crate) fn are_seen_alike(looks: &[CodeSet], shown: Shown, seen: Shown) -> bool
    ensures kind { IsTrue result → SameKind (map has looks.now) shown.code seen.code }
    ensures line_feed { IsTrue result → shown.line_feed ≡ seen.line_feed }
    ensures word { IsTrue result → shown.word ≡ seen.word }
    ensures ascii_word { IsTrue result → shown.ascii_word ≡ seen.ascii_word }
{
    shown.line_feed == seen.line_feed
        && shown.word == seen.word
        && shown.ascii_word == seen.ascii_word
        && are_one_kind(looks, shown.code, seen.code)
}
