//! The settings that a settings file gives.
ghost use Rattle.std.specs.Prelude.{◌≡◌, IfOk, IsErrOf, None, Some, option_map};
ghost use Rattle.rl_settings.specs.Settings.{file_values};
ghost use Rattle.rl_judge.specs.RightEntries.{IsValid};
ghost use Rattle.rl_lint.specs.Options.{settings_of, with_values};

use crate::options::with_values;
use rl_judge::Settings;
use rl_settings::{SettingsError, read_settings};
use std::alloc::Global;

/// Returns the settings `start`, which must be valid, with the values of a settings file with these bytes in place of the old
/// ones.
///
/// # Errors
/// [`SettingsError::Refused`] if the bytes aren't a TOML document, a key isn't one of `compile-as`, `max-degree`, `max-pairs`,
/// `format` and `report`, or a key doesn't take its value; [`SettingsError::OutOfMemory`] if memory runs out first.
pub fn settings_from(
    alloc: Global,
    bytes: &Vec<u8>,
    start: &Settings,
) -> Result<Settings, SettingsError>
    requires { IsValid start.now }
    ensures ok { IfOk result (λ s. settings_of bytes.now.items start.now ≡ Some s) }
    ensures valid { IfOk result IsValid }
    ensures refused { IsErrOf result SettingsError.Refused → file_values bytes.now.items ≡ None }
{
    let values = read_settings(alloc, bytes.as_slice())?;
    Ok(with_values(&values, start))
}
