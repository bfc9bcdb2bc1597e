//! The flags of the module `re`.

/// The flag that one of the sixteen flag names of the module sets. Each flag has two names.
#[derive(Clone, Copy)]
pub enum Flag {
    /// `A` and `ASCII`
    Ascii,
    /// `I` and `IGNORECASE`
    IgnoreCase,
    /// `L` and `LOCALE`
    Locale,
    /// `M` and `MULTILINE`
    Multiline,
    /// `S` and `DOTALL`
    DotAll,
    /// `U` and `UNICODE`
    Unicode,
    /// `X` and `VERBOSE`
    Verbose,
    /// `DEBUG` and `NOFLAG`, which don't change what matches
    Nothing,
}
