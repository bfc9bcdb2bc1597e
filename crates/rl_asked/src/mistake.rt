//! Why a value of JSON asks no question.

/// The first mistake of a value that asks no question. A key is named by its text.
#[derive(Clone, Copy)]
pub enum Mistake<'v> {
    /// The value is no object.
    NoObject,
    /// The object has this key, which its `ask` doesn't take.
    UnknownKey(&'v str),
    /// The object lacks this key, which its `ask` needs.
    MissingKey(&'static str),
    /// The value of this key has the wrong type or is out of range.
    WrongValue(&'static str),
}
