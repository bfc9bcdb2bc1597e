//! ACTION with its arguments. ACTION is the first argument of a call, and the name of an action.
ghost use Rattle.std.specs.Prelude.{◌≡◌, ◌≢◌, ◌&&◌, ◌∷◌, [], map, not, IfOk, IfSome, option_map};
ghost use Rattle.std.specs.List.{list_all};
ghost use Rattle.clap.specs.Walk.{is_empty, texts};
ghost use Rattle.rl_words.specs.Call.{HasActionRanges, asked};
ghost use Rattle.rl_words.specs.Given.{action_name_of, asked_with};
ghost use Rattle.rl_words.specs.Values.{is_filled};
ghost use Rattle.rl_words.specs.declared.action_name.ActionName.TheVariants as name;

use crate::values::number_of;
use crate::{Action, ActionName, COUNTS, SEEDS};
use rl_lists::{Items, OutOfMemory};
use std::alloc::Global;

/// Returns the name of the action that the word is, or `None` if it isn't one of the seven names.
pub(crate) fn action_name_of(word: &str) -> Option<ActionName>
    ensures { result ≡ action_name_of word.now }
{
    match word {
        "check" => Some(ActionName::Check),
        "class" => Some(ActionName::Class),
        "cost" => Some(ActionName::Cost),
        "sample" => Some(ActionName::Sample),
        "prove" => Some(ActionName::Prove),
        "verify" => Some(ActionName::Verify),
        "compare" => Some(ActionName::Compare),
        _ => None,
    }
}

/// Whether none of the texts is empty.
fn are_filled(texts: &[&str]) -> bool
    ensures { result ≡ list_all is_filled (map (λ s. s.now) texts.now) }
{
    texts.iter().all(|text| !text.is_empty())
}

/// Whether there is at least one path, and no path is empty.
fn are_paths(paths: &[&str]) -> bool
    ensures { result ≡ (not (is_empty (texts paths.now)) && list_all is_filled (texts paths.now)) }
{
    !paths.is_empty() && are_filled(paths)
}

/// Returns `check` with these paths, or `None` if it doesn't take them.
fn check_of<'a>(alloc: Global, paths: &[&'a str]) -> Result<Option<Action<'a>>, OutOfMemory>
    ensures value { IfOk result (λ a. option_map asked a ≡ asked_with name.Check (texts paths.now)) }
    ensures ranges { IfOk result (λ a. IfSome a (λ action. HasActionRanges (asked action))) }
{
    if !are_paths(paths) {
        return Ok(None);
    }
    let paths = Items::from_slice(alloc, paths)?;
    Ok(Some(Action::Check { paths }))
}

/// Returns `sample` with SEED and COUNT, or `None` if one of them isn't a number in its range.
fn sample_of<'a>(seed: &str, count: &str) -> Option<Action<'a>>
    ensures value { option_map asked result ≡ asked_with name.Sample (seed.now ∷ count.now ∷ []) }
    ensures ranges { IfSome result (λ action. HasActionRanges (asked action)) }
{
    let seed = number_of(10, SEEDS, seed)?;
    let count = number_of(10, COUNTS, count)?;
    Some(Action::Sample { seed, count })
}

/// Returns `verify` with PATTERN and FILE, or `None` if FILE is empty.
fn verify_of<'a>(pattern: &'a str, file: &'a str) -> Option<Action<'a>>
    ensures value { option_map asked result ≡ asked_with name.Verify (pattern.entry.now ∷ file.entry.now ∷ []) }
    ensures ranges { IfSome result (λ action. HasActionRanges (asked action)) }
{
    if file.is_empty() {
        return None;
    }
    Some(Action::Verify { pattern, file })
}

/// Returns the action with this name and one argument, or `None` if it doesn't take that.
fn asked_of_one<'a>(action: ActionName, argument: &'a str) -> Option<Action<'a>>
    requires { action ≢ name.Check }
    ensures value { option_map asked result ≡ asked_with action (argument.entry.now ∷ []) }
    ensures ranges { IfSome result (λ action. HasActionRanges (asked action)) }
{
    match action {
        ActionName::Class => Some(Action::Class { pattern: argument }),
        ActionName::Prove => Some(Action::Prove { pattern: argument }),
        _ => None,
    }
}

/// Returns the action with this name and two arguments, or `None` if it doesn't take those.
fn asked_of_two<'a>(action: ActionName, first: &'a str, second: &'a str) -> Option<Action<'a>>
    requires { action ≢ name.Check }
    ensures value { option_map asked result
        ≡ asked_with action (first.entry.now ∷ second.entry.now ∷ []) }
    ensures ranges { IfSome result (λ action. HasActionRanges (asked action)) }
{
    match action {
        ActionName::Cost => Some(Action::Cost {
            pattern: first,
            text: second,
        }),
        ActionName::Sample => sample_of(first, second),
        ActionName::Verify => verify_of(first, second),
        ActionName::Compare => Some(Action::Compare { first, second }),
        _ => None,
    }
}

/// Returns the action with this name, which must not be `check`, and these arguments, or `None` if it doesn't take them.
fn asked_without_paths<'a>(action: ActionName, args: &[&'a str]) -> Option<Action<'a>>
    requires { action ≢ name.Check }
    ensures value { option_map asked result ≡ asked_with action (texts args.now) }
    ensures ranges { IfSome result (λ action. HasActionRanges (asked action)) }
{
    match args {
        [] => None,
        [only] => asked_of_one(action, only),
        [first, second] => asked_of_two(action, first, second),
        _ => None,
    }
}

/// Returns the action with this name and these arguments, or `None` if it doesn't take them. `check` takes at least one path,
/// and no path is empty; `class` and `prove` take one pattern; `cost` takes a pattern and a text; `sample` takes SEED and
/// COUNT, which have one to ten digits and are in their ranges; `verify` takes a pattern and FILE, which isn't empty;
/// `compare` takes two patterns.
///
/// # Errors
/// [`OutOfMemory`] if there is not enough memory.
pub(crate) fn asked_with<'a>(
    alloc: Global,
    name: ActionName,
    args: &[&'a str],
) -> Result<Option<Action<'a>>, OutOfMemory>
    ensures value { IfOk result (λ a. option_map asked a ≡ asked_with name (texts args.now)) }
    ensures ranges { IfOk result (λ a. IfSome a (λ action. HasActionRanges (asked action))) }
{
    match name {
        ActionName::Check => check_of(alloc, args),
        _ => Ok(asked_without_paths(name, args)),
    }
}
