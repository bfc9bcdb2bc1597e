//! The words as a whole: those that follow the program's name on the command line.
ghost use Rattle.std.specs.Prelude.{◌≡◌, Some, None, map, IfOk, IfSome, IsErrOf, option_map};
ghost use Rattle.std.specs.String.{string_bytes};
ghost use Rattle.clap.specs.Walk.{rows_of};
ghost use Rattle.clap.specs.Matches.{found_of};
ghost use Rattle.rl_words.specs.Call.{HasActionRanges, HasRanges, asked, call_of};
ghost use Rattle.rl_words.specs.Given.{action_given, call_given, given_by};

use crate::actions::{action_name_of, asked_with};
use crate::command::{matches_given, value_of, values_of};
use crate::options::options_given;
use crate::{Action, Words, WordsError};
use clap::ArgMatches;
use rl_lists::OutOfMemory;
use std::alloc::Global;

/// Reads the action, or returns `None` if the arguments don't name one that takes them.
fn action_given<'a>(
    alloc: Global,
    matches: &ArgMatches<'a>,
) -> Result<Option<Action<'a>>, OutOfMemory>
    ensures value { IfOk result (λ a. option_map asked a
        ≡ action_given (rows_of (found_of matches.now))) }
    ensures ranges { IfOk result (λ a. IfSome a (λ action. HasActionRanges (asked action))) }
{
    let Some(word) = value_of(matches, "action") else {
        return Ok(None);
    };
    let Some(name) = action_name_of(word) else {
        return Ok(None);
    };
    match values_of(matches, "args") {
        Some(args) => asked_with(alloc, name, args),
        None => asked_with(alloc, name, &[]),
    }
}

/// Reads the whole call. It is invalid if the arguments or the value of an option are refused.
fn call_given<'a>(alloc: Global, matches: &ArgMatches<'a>) -> Result<Words<'a>, WordsError>
    ensures ok { IfOk result (λ w. call_given (rows_of (found_of matches.now)) ≡ Some (call_of w)) }
    ensures ranges { IfOk result (λ w. HasRanges (call_of w)) }
    ensures invalid { IsErrOf result WordsError.Invalid
        → call_given (rows_of (found_of matches.now)) ≡ None }
{
    match action_given(alloc, matches) {
        Ok(Some(action)) => match options_given(matches) {
            Some(options) => Ok(Words { action, options }),
            None => Err(WordsError::Invalid),
        },
        Ok(None) => Err(WordsError::Invalid),
        Err(OutOfMemory) => Err(WordsError::OutOfMemory),
    }
}

/// Returns what the words after the program's name ask for: an action with its arguments, and the options.
///
/// # Errors
/// - [`WordsError::Invalid`] only if the words aren't a valid call, in which case there is never a result.
/// - [`WordsError::OutOfMemory`] if there is not enough memory.
pub fn read_words<'a>(alloc: Global, words: &'a Vec<String>) -> Result<Words<'a>, WordsError>
    ensures ok { IfOk result (λ w. given_by (map string_bytes words.entry.now.items)
        ≡ Some (call_of w)) }
    ensures ranges { IfOk result (λ w. HasRanges (call_of w)) }
    ensures invalid { IsErrOf result WordsError.Invalid
        → given_by (map string_bytes words.entry.now.items) ≡ None }
{
    match matches_given(alloc, words.as_slice()) {
        Ok(matches) => {
            let call = call_given(alloc, &matches);
            drop(matches);
            call
        }
        Err(error) => Err(error),
    }
}
