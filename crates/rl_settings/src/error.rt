//! Why a settings file is refused.

/// Why a settings file is refused.
#[derive(Clone, Copy, Debug, PartialEq, Eq)]
pub enum SettingsError {
    /// The bytes aren't a TOML document, or the document has an unknown key or a value that its key doesn't take.
    Refused,
    /// There was not enough memory.
    OutOfMemory,
}
