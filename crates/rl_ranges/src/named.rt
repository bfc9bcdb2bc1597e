//! The classes that a pattern names with an escaped letter.

ghost use Rattle.std.specs.Prelude.{◌≡◌, ℕ};
ghost use Rattle.rl_ranges.specs.Codes.{has, Above};

use crate::tables;

/// A named class, as in the manual of Python's `re`.
#[derive(Clone, Copy, Debug, PartialEq, Eq)]
pub enum Named {
    /// Digits: `\d`.
    Digit,
    /// White space: `\s`.
    Space,
    /// Word characters: `\w`.
    Word,
}

impl Named {
    ghost use Rattle.std.specs.Prelude.{◌≡◌, ℕ};
    ghost use Rattle.rl_ranges.specs.Codes.{has, Above};
    ghost use Rattle.rl_ranges.specs.Named.{is_named};

    /// Returns the ranges of the class in ascending order: those of ASCII if `ascii` is set, otherwise those of Unicode.
    pub(crate) fn ranges(self, ascii: bool) -> &'static [(u32, u32)]
        ensures members { (c : ℕ) → has result.now c ≡ is_named self ascii c }
        ensures sorted { Above 0 result.now }
    {
        match (self, ascii) {
            (Named::Digit, true) => &tables::ASCII_DIGITS,
            (Named::Space, true) => &tables::ASCII_SPACES,
            (Named::Word, true) => &tables::ASCII_WORDS,
            (Named::Digit, false) => &tables::DIGITS,
            (Named::Space, false) => &tables::SPACES,
            (Named::Word, false) => &tables::WORDS,
        }
    }
}
