//! The heads of calls. A head is the tokens of a call up to and including the opening bracket. An alias is a name that an
//! import of the source gives to the module `re` or to one of its members.
ghost use Rattle.std.specs.Prelude.{◌≡◌, ◌≤◌, ◌<◌, ◌&&◌, IsTrue, IfSome, codes, length, slice_get};
ghost use Rattle.rl_sites.specs.Significant.{is_op, is_at};
ghost use Rattle.rl_sites.specs.Names.{is_module, call_named, call_aliased};
ghost use Rattle.rl_sites.specs.Sites.{dotted_head, bare_head, head_of};
ghost use Rattle.rl_sites.specs.internal.Parts.{call_by, head};
ghost use Rattle.rl_sites.specs.internal.Meanings.{IsMeaningTable};

use crate::Call;
use crate::names::{Names, call_aliased, call_named, is_module};
use crate::significant::{SignificantToken, op_at, token_at};

/// The head of a call.
#[derive(Clone, Copy)]
pub struct Head {
    /// The function that is called.
    pub call: Call,
    /// The number of tokens up to and including the opening bracket: 4 for `re.match(`, and 2 for `match(`.
    pub size: usize,
}

/// Whether the first token is an alias of the module.
fn begins_module(source: &[u8], names: &Names<'_>, rest: &[SignificantToken]) -> bool
    requires { IsMeaningTable source.now names.now.aliases.items names.now.meanings.entries }
    ensures { result ≡ is_at 0 (is_module source.now names.now.aliases.items) rest.now }
{
    match token_at(rest, 0) {
        Some(token) => is_module(source, names, token),
        None => false,
    }
}

/// Returns the function whose own name the token at an index is, if there is one.
fn named_at(source: &[u8], rest: &[SignificantToken], at: usize) -> Option<Call>
    ensures { result ≡ call_by (call_named source.now) (slice_get rest.now at) }
{
    match token_at(rest, at) {
        Some(token) => call_named(source, token),
        None => None,
    }
}

/// Returns the function that the first token is an alias of, if there is one.
fn begins_alias(source: &[u8], names: &Names<'_>, rest: &[SignificantToken]) -> Option<Call>
    requires { IsMeaningTable source.now names.now.aliases.items names.now.meanings.entries }
    ensures { result ≡ call_by (call_aliased source.now names.now.aliases.items) (slice_get rest.now 0) }
{
    match token_at(rest, 0) {
        Some(token) => call_aliased(source, names, token),
        None => None,
    }
}

fn made_head(size: usize, call: Option<Call>) -> Option<Head>
    ensures value { result ≡ head size call }
    ensures size { IfSome result (λ found. found.size ≡ size) }
{
    match call {
        Some(call) => Some(Head { call, size }),
        None => None,
    }
}

/// Whether the tokens begin with an alias of the module, `.`, any token and `(`.
fn is_dotted(source: &[u8], names: &Names<'_>, rest: &[SignificantToken]) -> bool
    requires { IsMeaningTable source.now names.now.aliases.items names.now.meanings.entries }
    ensures value { result ≡ (is_at 1 (is_op source.now (codes ".")) rest.now && is_at 3 (is_op source.now (codes "(")) rest.now && is_at 0 (is_module source.now names.now.aliases.items) rest.now) }
    ensures within { IsTrue result → 4 ≤ length rest.now }
{
    op_at(source, b".", rest, 1)
        && op_at(source, b"(", rest, 3)
        && begins_module(source, names, rest)
}

/// Returns the head that consists of an alias of the module, `.`, one of the nine names and `(`, if the tokens begin with one.
#[tactic(auto, unfolding(crate::specs::Sites::dotted_head))]
fn dotted_head(source: &[u8], names: &Names<'_>, rest: &[SignificantToken]) -> Option<Head>
    requires { IsMeaningTable source.now names.now.aliases.items names.now.meanings.entries }
    ensures value { result ≡ dotted_head source.now names.now.aliases.items rest.now }
    ensures within { IfSome result (λ found. found.size ≤ length rest.now) }
{
    if is_dotted(source, names, rest) {
        made_head(4, named_at(source, rest, 2))
    } else {
        None
    }
}

/// Returns the head that consists of an alias of one of the nine functions and `(`, if the tokens begin with one.
#[tactic(auto, unfolding(crate::specs::Sites::bare_head))]
fn bare_head(source: &[u8], names: &Names<'_>, rest: &[SignificantToken]) -> Option<Head>
    requires { IsMeaningTable source.now names.now.aliases.items names.now.meanings.entries }
    ensures value { result ≡ bare_head source.now names.now.aliases.items rest.now }
    ensures within { IfSome result (λ found. found.size ≤ length rest.now) }
{
    if op_at(source, b"(", rest, 1) {
        made_head(2, begins_alias(source, names, rest))
    } else {
        None
    }
}

/// Returns the head with which the tokens begin: an alias of the module, `.`, one of the nine names and `(`, or an alias of
/// one of the nine functions and `(`. Returns `None` if they don't begin with a head. `names` must be what `names_of` returns
/// for the source.
#[tactic(auto, unfolding(crate::specs::Sites::head_of))]
pub fn head_of(source: &[u8], names: &Names<'_>, rest: &[SignificantToken]) -> Option<Head>
    requires { IsMeaningTable source.now names.now.aliases.items names.now.meanings.entries }
    ensures value { result ≡ head_of source.now names.now.aliases.items rest.now }
    ensures within { IfSome result (λ found. found.size ≤ length rest.now) }
{
    match dotted_head(source, names, rest) {
        Some(found) => Some(found),
        None => bare_head(source, names, rest),
    }
}
