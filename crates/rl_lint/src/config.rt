//! The settings before any option applies: the defaults, or the defaults changed by a settings file.
ghost use Rattle.std.specs.Prelude.{◌≡◌, ◌≤◌, IfOk, None, Some, option_map};
ghost use Rattle.rl_walk.specs.Visits.{moment_of};
ghost use Rattle.rl_lint.specs.Files.{whole_bytes};
ghost use Rattle.rl_lint.specs.Options.{GivesSettings, default_settings};
ghost use Rattle.rl_lint.specs.internal.Reads.{AreFit, IsGiven, IsNamedRead};

use crate::files::{FileRead, read_file};
use crate::limits::WHOLE_FILE;
use crate::settings::settings_from;
use rl_judge::{Layout, Settings};
use rl_lists::OutOfMemory;
use rl_report::Format;
use rl_settings::SettingsError;
use rl_source::Tree;
use rl_syntax::Mode;
use std::alloc::Global;

/// The settings that apply unless a settings file or an option gives another value.
pub const DEFAULTS: Settings = Settings {
    compile_as: Mode::Search,
    max_degree: 2,
    max_pairs: 600,
    format: Layout::Report(Format::Text),
    report: 2,
};

/// Returns the settings that a settings file with these bytes gives, or that it is refused.
///
/// # Errors
/// [`OutOfMemory`] if memory runs out.
fn settings_in(alloc: Global, bytes: &Vec<u8>) -> Result<FileRead<Settings>, OutOfMemory>
    ensures given { IfOk result (IsGiven GivesSettings (Some bytes.now.items)) }
    ensures fit { IfOk result AreFit }
{
    match settings_from(alloc, bytes, &DEFAULTS) {
        Ok(settings) => Ok(FileRead::Taken(settings)),
        Err(SettingsError::Refused) => Ok(FileRead::Refused),
        Err(SettingsError::OutOfMemory) => Err(OutOfMemory),
    }
}

/// Returns the settings that the file at `path` gives, or that it is unreadable or refused. It is read whole, with one call of
/// the tree. Without a path the result is the defaults, and the tree isn't asked.
///
/// # Errors
/// [`OutOfMemory`] if memory runs out; the tree may have been read by then.
pub fn read_config<T: Tree>(
    alloc: Global,
    path: Option<&str>,
    tree: &mut T,
) -> Result<FileRead<Settings>, OutOfMemory>
    ensures read { IfOk result (IsNamedRead GivesSettings whole_bytes default_settings (option_map (λ p. p.now) path.entry)
        (moment_of T.told T.fault_count tree.old) (moment_of T.told T.fault_count tree.new)) }
    ensures fit { IfOk result AreFit }
    ensures still { path.entry ≡ None → T.told tree.new ≡ T.told tree.old }
    ensures later { T.fault_count tree.old ≤ T.fault_count tree.new }
{
    let Some(path) = path else {
        return Ok(FileRead::Taken(DEFAULTS));
    };
    match read_file(path, WHOLE_FILE, tree)? {
        Some(bytes) => settings_in(alloc, &bytes),
        None => Ok(FileRead::Unreadable),
    }
}
