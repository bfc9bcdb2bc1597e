//! The version of the program, and the questions that it answers.

/// The version.
pub const VERSION: &str = "2.0.0";
