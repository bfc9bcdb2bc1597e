//! The codes that a text can contain. A code is a code point of a `str` or a byte of a `bytes` object.

ghost use Rattle.std.specs.Prelude.{◌≡◌};

/// A universe: the codes that a kind of text can contain.
#[derive(Clone, Copy, Debug, PartialEq, Eq)]
pub enum Universe {
    /// The codes of a `str`: 0 to 0x10FFFF, including surrogates.
    Str,
    /// The codes of a `bytes` object: 0 to 255.
    Bytes,
}

impl Universe {
    ghost use Rattle.rl_ranges.specs.Text.{code_count};
    ghost use Rattle.rl_ranges.specs.Named.{goes_by_ascii};

    /// Returns the number of codes in the universe. The codes are the numbers below it.
    pub fn count(self) -> u32
        ensures { result ≡ code_count self }
    {
        match self {
            Universe::Str => 0x11_0000,
            Universe::Bytes => 0x100,
        }
    }

    /// Returns whether named classes and letter case follow ASCII. They do if `ascii`, the flag ASCII, is set, and for
    /// `bytes`.
    pub(crate) fn goes_by_ascii(self, ascii: bool) -> bool
        ensures { result ≡ goes_by_ascii ascii self }
    {
        match self {
            Universe::Str => ascii,
            Universe::Bytes => true,
        }
    }
}
