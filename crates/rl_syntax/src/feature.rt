//! Features of patterns that aren't judged.

/// A feature of Python's `re` that excludes a pattern from judgement. If two features occur at the same position, the one
/// listed first here is reported.
#[derive(Clone, Copy, Debug, PartialEq, Eq)]
pub enum Feature {
    /// The flag LOCALE.
    Locale,
    /// Flags that exclude each other.
    FlagClash,
    /// A second group with the same name.
    DuplicateName,
    /// An escape for a code point that is too large.
    CodeTooLarge,
    /// A range in a class whose first code is greater than its last.
    ReversedRange,
    /// A repeat count that is too large.
    RepeatTooLarge,
    /// A quantifier whose maximum is less than its minimum.
    RepeatOrder,
    /// A possessive quantifier, such as `a*+`.
    Possessive,
    /// A reference to what a group matched, such as `\1` or `(?P=name)`.
    Backreference,
    /// A lookahead or lookbehind, such as `(?=a)`.
    Lookaround,
    /// A conditional, such as `(?(1)a|b)`.
    Conditional,
    /// An atomic group, such as `(?>a)`.
    Atomic,
    /// A character given by its Unicode name, `\N{..}`.
    NamedEscape,
    /// A `$` without MULTILINE that isn't at the end of the pattern.
    InnerAnchor,
}
