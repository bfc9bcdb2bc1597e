//! The value of a run of literals.
use rl_lists::{Codes, Places};
use rl_ranges::universe::Universe;

/// The value of a run of literals, joined together.
#[derive(Drop)]
pub struct Literal {
    /// The code points of the value.
    pub codes: Codes,
    /// Whether the value is text or bytes.
    pub universe: Universe,
    /// For each code point of the value, at the same index, the byte index in the source, counted from 0, of the code point or
    /// the escape that gives it.
    pub places: Places,
    /// The byte index in the source of the first closing quote of the last literal, counted from 0.
    pub end: u32,
}
