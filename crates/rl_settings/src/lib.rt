//! The settings file: a TOML document that sets options of the command line.
//!
//! [`read_settings`] takes the bytes of a settings file and returns the settings that they give.
//!
//! # What is proved
//!
//! The settings are those that the definitions read from the bytes, and their numbers are in their ranges.
//! [`SettingsError::Refused`] is returned only if the definitions refuse the bytes.
//!
//! Read `specs/Settings.antt` first, then `specs/Values.antt`.
#![tactic(auto)]

mod error;
mod keys;
mod read;
mod values;

pub use error::SettingsError;
pub use read::read_settings;
