//! The calls of the module `re` that take a pattern first.

/// One of the nine functions of Python's module `re` whose first argument is a pattern.
#[derive(Clone, Copy, Debug, PartialEq, Eq)]
pub enum Call {
    /// `compile`
    Compile,
    /// `match`
    Match,
    /// `search`
    Search,
    /// `fullmatch`
    Fullmatch,
    /// `findall`
    Findall,
    /// `finditer`
    Finditer,
    /// `split`
    Split,
    /// `sub`
    Sub,
    /// `subn`
    Subn,
}
