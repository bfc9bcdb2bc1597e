//! The arguments of a call, one by one. The functions get the tokens after the call's opening bracket, or after a `,` that
//! separates two arguments, and the table of sizes that [`sizes_of`](crate::brackets::sizes_of) returns.
ghost use Rattle.std.specs.Prelude.{◌≡◌, ◌≤◌, ◌<◌, ◌+◌, ◌∷◌, [], ◌&&◌, ◌||◌, not, true, false, length, take, drop, filter, slice_get, Some, None, MatchOption, IfSome};
ghost use Rattle.rl_sites.specs.Arguments.{opens, closes, lambda_after, arguments_of};
ghost use Rattle.rl_sites.specs.internal.Parts.{separates};
ghost use Rattle.rl_sites.specs.internal.Walks.{IsTable, argument_size, first_argument, others_from, other_arguments, has_form};
ghost use Rattle.rl_sites.specs.Flags.{is_named, is_flags_argument, is_starred};
ghost use Rattle.rl_sites.specs.Significant.{is_name, is_word};

use crate::brackets::{closes, jump_size, opens};
use crate::significant::{SignificantToken, is_op, is_word, name_at, op_at, rest_from, word_at};

/// A form of argument that is searched for.
#[derive(Clone, Copy)]
pub enum Form {
    /// The argument begins with `*`.
    Starred,
    /// The argument begins with `flags` and a single `=`.
    FlagsNamed,
}

/// Whether the tokens after `token` are between a `lambda` and its `:`. Only tokens outside the brackets of the arguments
/// count.
#[tactic(auto, unfolding(crate::specs::Arguments::lambda_after))]
fn lambda_after(source: &[u8], in_lambda: bool, token: SignificantToken) -> bool
    ensures { result ≡ lambda_after source.now in_lambda token }
{
    is_word(source, b"lambda", token) || (in_lambda && !is_op(source, b":", token))
}

fn separates(source: &[u8], in_lambda: bool, token: SignificantToken) -> bool
    ensures { result ≡ separates source.now in_lambda token }
{
    is_op(source, b",", token) && !in_lambda
}

/// Whether an argument ends before a token that is outside the argument's own brackets.
fn ends_argument(source: &[u8], in_lambda: bool, token: SignificantToken) -> bool
    ensures { result ≡ (not (opens source.now token) && (closes source.now token || separates source.now in_lambda token)) }
{
    !opens(source, token) && (closes(source, token) || separates(source, in_lambda, token))
}

/// Returns the number of tokens in the argument with which `rest` begins, up to but not including the `,` or the bracket that
/// ends it, or all tokens if nothing ends it. `sizes` must be a table of sizes that covers `rest`.
pub fn argument_size(source: &[u8], rest: &[SignificantToken], sizes: &[usize]) -> usize
    requires { IsTable source.now rest.now sizes.now }
    ensures value { result ≡ argument_size source.now 0 false rest.now }
    ensures within { result ≤ length rest.now }
{
    let mut left = rest;
    let mut in_lambda = false;
    while let [token, ..] = left {
        if ends_argument(source, in_lambda, *token) {
            return rest.len() - left.len();
        }
        let after = rest_from(left, 1);
        let inner = jump_size(source, *token, after, sizes);
        in_lambda = lambda_after(source, in_lambda, *token);
        left = rest_from(after, inner);
    }
    rest.len() - left.len()
}

/// Returns the tokens from the next argument on, or `None` if there is no other argument. `behind` has the tokens after an
/// argument: they begin with the `,` before the next one, or with the bracket that closes the call, or there are none.
#[tactic(auto, using(crate::proofs::Walking::others))]
pub fn other_arguments<'a>(
    source: &[u8],
    behind: &'a [SignificantToken],
) -> Option<&'a [SignificantToken]>
    ensures { MatchOption result (others_from source.now behind.now ≡ []) (λ rest. (others_from source.now behind.now ≡ arguments_of source.now rest.now) × (rest.now ≡ drop 1 behind.now) × (0 < length behind.now)) }
{
    match behind {
        [token, ..] if !closes(source, *token) => Some(rest_from(behind, 1)),
        _ => None,
    }
}

/// Whether the argument begins with a name and a single `=`, which no second `=` follows.
#[tactic(auto, unfolding(crate::specs::Flags::is_named))]
pub fn is_named(source: &[u8], argument: &[SignificantToken]) -> bool
    ensures { result ≡ is_named source.now is_name argument.now }
{
    name_at(argument, 0) && op_at(source, b"=", argument, 1) && !op_at(source, b"=", argument, 2)
}

#[tactic(auto, unfolding(crate::specs::Flags::is_named))]
fn is_flags_argument(source: &[u8], argument: &[SignificantToken]) -> bool
    ensures { result ≡ is_flags_argument source.now argument.now }
{
    word_at(source, b"flags", argument, 0)
        && op_at(source, b"=", argument, 1)
        && !op_at(source, b"=", argument, 2)
}

fn has_form(source: &[u8], form: Form, argument: &[SignificantToken]) -> bool
    ensures { result ≡ has_form source.now form argument.now }
{
    match form {
        Form::Starred => op_at(source, b"*", argument, 0),
        Form::FlagsNamed => is_flags_argument(source, argument),
    }
}

/// Returns the argument that `rest` begins with.
fn first_argument<'a>(
    source: &[u8],
    rest: &'a [SignificantToken],
    sizes: &[usize],
) -> &'a [SignificantToken]
    requires { IsTable source.now rest.now sizes.now }
    ensures { result.now ≡ first_argument source.now rest.now }
{
    &rest[..argument_size(source, rest, sizes)]
}

/// Returns the tokens after the first argument.
fn behind_first<'a>(
    source: &[u8],
    rest: &'a [SignificantToken],
    sizes: &[usize],
) -> &'a [SignificantToken]
    requires { IsTable source.now rest.now sizes.now }
    ensures { result.now ≡ drop (argument_size source.now 0 false rest.now) rest.now }
{
    rest_from(rest, argument_size(source, rest, sizes))
}

/// An argument that was found.
#[derive(Clone, Copy)]
pub struct Found<'a> {
    /// Its tokens, without the `,` or the bracket that ends it.
    pub argument: &'a [SignificantToken],
    /// All tokens after it. They begin with the `,` or the bracket that ends it, if there is one.
    pub behind: &'a [SignificantToken],
}

/// Returns the first of the arguments that has the form, with the tokens after it, or `None` if none has the form. `arguments`
/// has the tokens of all of them, and `sizes` must be a table of sizes that covers these.
#[tactic(auto, using(crate::proofs::Walking::walks))]
pub fn find_argument<'a>(
    source: &[u8],
    form: Form,
    arguments: &'a [SignificantToken],
    sizes: &[usize],
) -> Option<Found<'a>>
    requires { IsTable source.now arguments.now sizes.now }
    ensures found { MatchOption result (filter (has_form source.now form) (arguments_of source.now arguments.now) ≡ []) (λ found. filter (has_form source.now form) (arguments_of source.now arguments.now) ≡ found.argument.now ∷ filter (has_form source.now form) (others_from source.now found.behind.now)) }
    ensures form { IfSome result (λ found. has_form source.now form found.argument.now ≡ true) }
    ensures table { IfSome result (λ found. IsTable source.now found.behind.now sizes.now) }
{
    let mut rest = arguments;
    'arguments: loop {
        let argument = first_argument(source, rest, sizes);
        let behind = behind_first(source, rest, sizes);
        if has_form(source, form, argument) {
            return Some(Found { argument, behind });
        }
        match other_arguments(source, behind) {
            Some(others) => rest = others,
            None => return None,
        }
    }
}

/// Returns the tokens of the argument with the index `place`, counted from 0, or `None` if there is no argument with this
/// index. `arguments` has the tokens of all of them, and `sizes` must be a table of sizes that covers these.
#[tactic(auto, using(crate::proofs::Walking::walks))]
pub fn argument_at<'a>(
    source: &[u8],
    place: usize,
    arguments: &'a [SignificantToken],
    sizes: &[usize],
) -> Option<&'a [SignificantToken]>
    requires { IsTable source.now arguments.now sizes.now }
    ensures { MatchOption result (slice_get (arguments_of source.now arguments.now) place ≡ None) (λ argument. slice_get (arguments_of source.now arguments.now) place ≡ Some argument.now) }
{
    let mut rest = arguments;
    let mut left = place;
    while left > 0 {
        match other_arguments(source, behind_first(source, rest, sizes)) {
            Some(others) => rest = others,
            None => return None,
        }
        left -= 1;
    }
    Some(first_argument(source, rest, sizes))
}
