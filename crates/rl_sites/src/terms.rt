//! The flags that an argument gives, which consists of terms separated by `|`. A term is the number `0`, an alias of a flag,
//! or an alias of the module, `.` and a flag's name.
ghost use Rattle.std.specs.Prelude.{◌≡◌, ◌≤◌, ◌&&◌, codes, length, take, not, position};
ghost use Rattle.std.specs.List.{prefix_len};
ghost use Rattle.rl_sites.specs.Significant.{is_op};
ghost use Rattle.rl_sites.specs.Names.{is_module};
ghost use Rattle.rl_sites.specs.Flags.{no_flags, with_flag, term, flags_by};
ghost use Rattle.rl_sites.specs.internal.Parts.{lone_term, is_bar, dotted_term};
ghost use Rattle.rl_sites.specs.internal.Meanings.{IsMeaningTable};

use crate::SiteFlags;
use crate::flag::Flag;
use crate::names::{Names, flag_aliased, flag_named, is_module};
use crate::significant::{SignificantToken, is_op, is_zero, rest_from};
use rl_pattern::Flags;

/// Returns the flags of which none is set.
pub fn no_flags() -> Flags
    ensures { result ≡ no_flags }
{
    Flags {
        ignore_case: false,
        multiline: false,
        dot_all: false,
        verbose: false,
        ascii: false,
        unicode: false,
        locale: false,
    }
}

fn with_flag(flag: Flag, flags: Flags) -> Flags
    ensures { result ≡ with_flag flag flags }
{
    match flag {
        Flag::Ascii => Flags {
            ascii: true,
            ..flags
        },
        Flag::IgnoreCase => Flags {
            ignore_case: true,
            ..flags
        },
        Flag::Locale => Flags {
            locale: true,
            ..flags
        },
        Flag::Multiline => Flags {
            multiline: true,
            ..flags
        },
        Flag::DotAll => Flags {
            dot_all: true,
            ..flags
        },
        Flag::Unicode => Flags {
            unicode: true,
            ..flags
        },
        Flag::Verbose => Flags {
            verbose: true,
            ..flags
        },
        Flag::Nothing => flags,
    }
}

/// Returns the flag that a term of one token sets. Such a term is the number `0` or an alias of a flag.
fn lone_term(source: &[u8], names: &Names<'_>, token: SignificantToken) -> Option<Flag>
    requires { IsMeaningTable source.now names.now.aliases.items names.now.meanings.entries }
    ensures { result ≡ lone_term source.now names.now.aliases.items token }
{
    if is_zero(source, token) {
        Some(Flag::Nothing)
    } else {
        flag_aliased(source, names, token)
    }
}

fn is_dotted(
    source: &[u8],
    names: &Names<'_>,
    token: SignificantToken,
    dot: SignificantToken,
) -> bool
    requires { IsMeaningTable source.now names.now.aliases.items names.now.meanings.entries }
    ensures { result ≡ (is_module source.now names.now.aliases.items token && is_op source.now (codes ".") dot) }
{
    is_module(source, names, token) && is_op(source, b".", dot)
}

/// Returns the flag that a term of three tokens sets. Such a term is an alias of the module, `.` and a flag's name.
fn dotted_term(
    source: &[u8],
    names: &Names<'_>,
    token: SignificantToken,
    dot: SignificantToken,
    name: SignificantToken,
) -> Option<Flag>
    requires { IsMeaningTable source.now names.now.aliases.items names.now.meanings.entries }
    ensures { result ≡ dotted_term source.now names.now.aliases.items token dot name }
{
    if is_dotted(source, names, token, dot) {
        flag_named(source, name)
    } else {
        None
    }
}

/// Returns the flag that the tokens set, if they are a term.
#[tactic(auto, using(crate::proofs::TermFacts::terms))]
fn term(source: &[u8], names: &Names<'_>, tokens: &[SignificantToken]) -> Option<Flag>
    requires { IsMeaningTable source.now names.now.aliases.items names.now.meanings.entries }
    ensures { result ≡ term source.now names.now.aliases.items tokens.now }
{
    match tokens {
        [token] => lone_term(source, names, *token),
        [token, dot, name] => dotted_term(source, names, *token, *dot, *name),
        _ => None,
    }
}

fn bar_place(source: &[u8], tokens: &[SignificantToken]) -> Option<usize>
    ensures { result ≡ position (is_bar source.now) tokens.now }
{
    tokens.iter().position(|token| is_op(source, b"|", *token))
}

/// Returns the number of tokens before the first `|`.
#[tactic(auto, using(crate::proofs::TermFacts::runs))]
fn bar_size(source: &[u8], tokens: &[SignificantToken]) -> usize
    ensures value { result ≡ prefix_len (λ token. not (is_bar source.now token)) tokens.now }
    ensures within { result ≤ length tokens.now }
{
    bar_place(source, tokens).unwrap_or(tokens.len())
}

/// Returns the first `size` tokens.
fn first(tokens: &[SignificantToken], size: usize) -> &[SignificantToken]
    requires { size ≤ length tokens.now }
    ensures { result.now ≡ take size tokens.now }
{
    &tokens[..size]
}

/// Returns the first four tokens, or all of them if there are fewer. A term has at most three.
fn front(tokens: &[SignificantToken]) -> &[SignificantToken]
    ensures { result.now ≡ take 4 tokens.now }
{
    &tokens[..tokens.len().min(4)]
}

/// Returns the flags of an argument that consists of one or more terms separated by `|`. For any other argument, also an empty
/// one, they are unknown. `names` must be what `names_of` returns for the source.
#[tactic(auto, using(crate::proofs::TermFacts::steps), unfolding(crate::specs::Flags::flags_by))]
pub fn flags_by(source: &[u8], names: &Names<'_>, argument: &[SignificantToken]) -> SiteFlags
    requires { IsMeaningTable source.now names.now.aliases.items names.now.meanings.entries }
    ensures { result ≡ flags_by source.now names.now.aliases.items argument.now }
{
    let mut flags = no_flags();
    let mut rest = argument;
    'terms: loop {
        let size = bar_size(source, front(rest));
        let Some(flag) = term(source, names, first(rest, size)) else {
            return SiteFlags::Unknown;
        };
        flags = with_flag(flag, flags);
        if size == rest.len() {
            return SiteFlags::Known(flags);
        }
        rest = rest_from(rest_from(rest, size), 1);
    }
}
