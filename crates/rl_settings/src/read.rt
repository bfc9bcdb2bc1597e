//! The settings file as a whole.
ghost use Rattle.std.specs.Prelude.{◌≡◌, None, Some, IfOk, IsErrOf};
ghost use Rattle.toml.specs.View.{table_view};
ghost use Rattle.rl_words.specs.Call.{AreInRange};
ghost use Rattle.rl_settings.specs.Settings.{document_of, file_values};

use crate::SettingsError;
use crate::keys::table_values;
use rl_words::PartialSettings;
use std::alloc::Global;
use toml::Table;

/// Parses the bytes as a TOML document.
fn document_of(alloc: Global, bytes: &[u8]) -> Result<Table, SettingsError>
    ensures ok { IfOk result (λ table. document_of bytes.now ≡ Some (table_view table)) }
    ensures refused { IsErrOf result SettingsError.Refused → document_of bytes.now ≡ None }
{
    match toml::table_from_slice(alloc, bytes) {
        Ok(table) => Ok(table),
        Err(fault) if fault.is_memory() => Err(SettingsError::OutOfMemory),
        Err(_) => Err(SettingsError::Refused),
    }
}

/// Returns the settings that the bytes of a settings file give. A setting whose key the file lacks is `None`.
///
/// # Errors
/// - [`SettingsError::Refused`] only if the bytes aren't a TOML document, a key isn't one of the five known ones, or a key
///   doesn't take its value. In these cases there is never a result.
/// - [`SettingsError::OutOfMemory`] if there is not enough memory.
#[tactic(auto, unfolding(crate::specs::Settings::file_values))]
pub fn read_settings(alloc: Global, bytes: &[u8]) -> Result<PartialSettings, SettingsError>
    ensures ok { IfOk result (λ settings. file_values bytes.now ≡ Some settings) }
    ensures ranges { IfOk result AreInRange }
    ensures refused { IsErrOf result SettingsError.Refused → file_values bytes.now ≡ None }
{
    let table = document_of(alloc, bytes)?;
    match table_values(&table) {
        Some(settings) => Ok(settings),
        None => Err(SettingsError::Refused),
    }
}
