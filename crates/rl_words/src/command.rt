//! The command that reads the words, in the terms of `clap`.
ghost use Rattle.std.specs.Prelude.{◌≡◌, ◌≤◌, Some, None, false, length, map, IfOk, IsErrOf, option_map};
ghost use Rattle.std.specs.String.{string_bytes};
ghost use Rattle.clap.specs.Walk.{all_of, first_of, rows_of, rule_of, texts};
ghost use Rattle.clap.specs.Simple.{app_of, with_rule};
ghost use Rattle.clap.specs.Matches.{found_of};
ghost use Rattle.rl_words.specs.Command.{action_rule, args_rule, bare_app, option_rule};
ghost use Rattle.rl_words.specs.Command.{relint_app, rows_given, with_options};
ghost use Rattle.rl_words.specs.internal.Arguments.{Makes};

use crate::WordsError;
use clap::error::ErrorKind;
use clap::{Arg, ArgAction, ArgMatches, Command};
use std::alloc::{AllocError, Global};

/// The names of the options.
const OPTIONS: [&str; 7] = [
    "mode",
    "format",
    "max-degree",
    "max-pairs",
    "settings",
    "report",
    "baseline",
];

/// Returns the argument ACTION.
fn action_argument<'a>(alloc: Global) -> Arg<'a>
    ensures rule { rule_of result ≡ action_rule }
    ensures local { result.global ≡ false }
{
    Arg::new(alloc, "action").required(true)
}

/// Returns the arguments after ACTION.
fn args_argument<'a>(alloc: Global) -> Arg<'a>
    ensures rule { rule_of result ≡ args_rule }
    ensures local { result.global ≡ false }
{
    Arg::new(alloc, "args").num_args(0..)
}

/// Returns an option that takes one value.
fn option_argument<'a>(alloc: Global, name: &'a str) -> Arg<'a>
    ensures rule { rule_of result ≡ option_rule name.entry.now }
    ensures local { result.global ≡ false }
{
    Arg::new(alloc, name).long(name).action(ArgAction::Set)
}

/// Returns the command without its arguments.
fn bare_command<'a>(alloc: Global) -> Command<'a>
    ensures { app_of result ≡ bare_app }
{
    Command::new(alloc, "relint")
        .no_binary_name(true)
        .disable_help_flag(true)
}

/// Returns the arguments of the command, and options with these names.
fn arguments_and_options<'a>(
    alloc: Global,
    names: &[&'static str],
) -> Result<Vec<Arg<'a>>, AllocError>
    requires { length names.now ≤ 7 }
    ensures { IfOk result (λ arguments. Makes bare_app arguments.items
        (with_options (with_rule (with_rule bare_app action_rule) args_rule) (texts names.now))) }
{
    let mut arguments = Vec::with_capacity(alloc, 9)?;
    arguments.push(action_argument(alloc)).unwrap();
    arguments.push(args_argument(alloc)).unwrap();
    for name in names {
        arguments.push(option_argument(alloc, *name)).unwrap();
    }
    Ok(arguments)
}

/// Returns the command with its arguments and its seven options.
fn relint_command<'a>(alloc: Global) -> Result<Command<'a>, AllocError>
    ensures { IfOk result (λ c. app_of c ≡ relint_app) }
{
    let options: [&str; 7] = OPTIONS;
    let arguments = arguments_and_options(alloc, options.as_slice())?;
    bare_command(alloc).args(arguments)
}

/// Returns what the command finds in the words for each argument and option.
///
/// # Errors
/// - [`WordsError::Invalid`] if the command doesn't accept the words.
/// - [`WordsError::OutOfMemory`] if there is not enough memory.
pub(crate) fn matches_given<'a>(
    alloc: Global,
    words: &'a [String],
) -> Result<ArgMatches<'a>, WordsError>
    ensures ok { IfOk result (λ m. rows_given (map string_bytes words.entry.now)
        ≡ Some (rows_of (found_of m))) }
    ensures invalid { IsErrOf result WordsError.Invalid
        → rows_given (map string_bytes words.entry.now) ≡ None }
{
    let Ok(command) = relint_command(alloc) else {
        return Err(WordsError::OutOfMemory);
    };
    match command.try_get_matches_from(words) {
        Ok(matches) => Ok(matches),
        Err(error) => Err(error_of(error.kind())),
    }
}

/// Returns the error for a refusal by the command. Every refusal except running out of memory means that the words aren't a
/// valid call.
fn error_of(kind: ErrorKind) -> WordsError
    ensures memory { kind ≡ ErrorKind.OutOfMemory → result ≡ WordsError.OutOfMemory }
{
    match kind {
        ErrorKind::OutOfMemory => WordsError::OutOfMemory,
        _ => WordsError::Invalid,
    }
}

/// Returns the first value of the argument or option with this name, or `None` if it has none.
pub(crate) fn value_of<'a>(matches: &ArgMatches<'a>, name: &str) -> Option<&'a str>
    ensures { option_map (λ s. s.now) result ≡ first_of name.now (rows_of (found_of matches.now)) }
{
    matches.get_str(name)
}

/// Returns all values of the argument or option with this name, in order, or `None` if it has none.
pub(crate) fn values_of<'m, 'a>(matches: &'m ArgMatches<'a>, name: &str) -> Option<&'m [&'a str]>
    ensures { option_map (λ s. texts s.now) result
        ≡ all_of name.now (rows_of (found_of matches.entry.now)) }
{
    matches.get_strs(name)
}
