//! The flags of a call, decided by its arguments. A term is a part of an argument that sets one flag, such as `re.I`. The
//! table of sizes of some tokens is what `brackets::sizes_of` returns for them.
ghost use Rattle.std.specs.Prelude.{◌≡◌, ◌≤◌, Some, slice_get, length, filter};
ghost use Rattle.std.specs.List.{list_any};
ghost use Rattle.rl_sites.specs.Arguments.{arguments_of};
ghost use Rattle.rl_sites.specs.internal.Walks.{IsTable, others_from, has_form, is_filled};
ghost use Rattle.rl_sites.specs.Flags.{is_starred, is_flags_argument, position, flags_by, flags_by_place, flags_by_name, flags_of};
ghost use Rattle.rl_sites.specs.internal.Meanings.{IsMeaningTable};

use crate::arguments::{Form, argument_at, find_argument, is_named, other_arguments};
use crate::names::Names;
use crate::significant::{SignificantToken, rest_from};
use crate::terms::{flags_by, no_flags};
use crate::{Call, SiteFlags};

/// Whether any argument begins with `*`.
fn any_starred(source: &[u8], arguments: &[SignificantToken], sizes: &[usize]) -> bool
    requires { IsTable source.now arguments.now sizes.now }
    ensures { result ≡ list_any (is_starred source.now) (arguments_of source.now arguments.now) }
{
    match find_argument(source, Form::Starred, arguments, sizes) {
        Some(_) => true,
        None => false,
    }
}

/// Whether the arguments that follow one include another of this form.
#[tactic(auto, using(crate::proofs::Filters::filters))]
fn has_another(source: &[u8], form: Form, behind: &[SignificantToken], sizes: &[usize]) -> bool
    requires { IsTable source.now behind.now sizes.now }
    ensures { result ≡ is_filled (filter (has_form source.now form) (others_from source.now behind.now)) }
{
    match other_arguments(source, behind) {
        None => false,
        Some(others) => match find_argument(source, form, others, sizes) {
            Some(_) => true,
            None => false,
        },
    }
}

/// Returns the index of the flags argument, which counts if no argument is named `flags`.
fn position(call: Call) -> usize
    ensures { result ≡ position call }
{
    match call {
        Call::Compile => 1,
        Call::Match | Call::Search | Call::Fullmatch | Call::Findall | Call::Finditer => 2,
        Call::Split => 3,
        Call::Sub | Call::Subn => 4,
    }
}

/// Returns the flags that the argument at that index gives.
fn flags_placed(source: &[u8], names: &Names<'_>, argument: &[SignificantToken]) -> SiteFlags
    requires { IsMeaningTable source.now names.now.aliases.items names.now.meanings.entries }
    ensures { result ≡ flags_by_place source.now names.now.aliases.items (Some argument.now) }
{
    if argument.is_empty() || is_named(source, argument) {
        SiteFlags::Known(no_flags())
    } else {
        flags_by(source, names, argument)
    }
}

fn flags_by_place(
    source: &[u8],
    names: &Names<'_>,
    call: Call,
    arguments: &[SignificantToken],
    sizes: &[usize],
) -> SiteFlags
    requires meant { IsMeaningTable source.now names.now.aliases.items names.now.meanings.entries }
    requires table { IsTable source.now arguments.now sizes.now }
    ensures { result ≡ flags_by_place source.now names.now.aliases.items (slice_get (arguments_of source.now arguments.now) (position call)) }
{
    match argument_at(source, position(call), arguments, sizes) {
        Some(argument) => flags_placed(source, names, argument),
        None => SiteFlags::Known(no_flags()),
    }
}

/// Returns the flags that the argument named `flags` gives, or otherwise the argument at the index of the flags.
#[tactic(auto, using(crate::proofs::Filters::filters))]
fn flags_by_name(
    source: &[u8],
    names: &Names<'_>,
    call: Call,
    arguments: &[SignificantToken],
    sizes: &[usize],
) -> SiteFlags
    requires meant { IsMeaningTable source.now names.now.aliases.items names.now.meanings.entries }
    requires table { IsTable source.now arguments.now sizes.now }
    ensures { result ≡ flags_by_name source.now names.now.aliases.items (filter (is_flags_argument source.now) (arguments_of source.now arguments.now)) (slice_get (arguments_of source.now arguments.now) (position call)) }
{
    match find_argument(source, Form::FlagsNamed, arguments, sizes) {
        None => flags_by_place(source, names, call, arguments, sizes),
        Some(found) => {
            if has_another(source, Form::FlagsNamed, found.behind, sizes) {
                SiteFlags::Unknown
            } else {
                flags_by(source, names, rest_from(found.argument, 2))
            }
        }
    }
}

/// Returns the flags of a call of the function `call`. `arguments` has the tokens after its opening bracket, `sizes` must be
/// their table of sizes, and `names` must be what `names_of` returns for the source. The first case that applies counts:
/// - unknown if an argument begins with `*`, or if several are named `flags`
/// - those of the argument named `flags`, if there is one
/// - none set if the argument at the index that the function has for flags is missing or empty, or begins with a name and a
///   single `=`
/// - those of the argument at this index
///
/// The flags of an argument that doesn't consist of terms are unknown.
#[tactic(auto, unfolding(crate::specs::Flags::flags_of))]
pub fn flags_of(
    source: &[u8],
    names: &Names<'_>,
    call: Call,
    arguments: &[SignificantToken],
    sizes: &[usize],
) -> SiteFlags
    requires meant { IsMeaningTable source.now names.now.aliases.items names.now.meanings.entries }
    requires table { IsTable source.now arguments.now sizes.now }
    ensures { result ≡ flags_of source.now names.now.aliases.items call (arguments_of source.now arguments.now) }
{
    if any_starred(source, arguments, sizes) {
        SiteFlags::Unknown
    } else {
        flags_by_name(source, names, call, arguments, sizes)
    }
}
