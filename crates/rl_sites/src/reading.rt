//! The sites of a source: its calls of the module `re` whose first argument begins with a run of literals. An alias is a name
//! that an import of the source gives to the module or to one of its members.
ghost use Rattle.std.specs.Prelude.{◌≡◌, ◌≤◌, ◌<◌, ◌+◌, ◌-◌, ◌++◌, length, take, drop, slice_get, not, false, position, All, IfOk, IfSome, OnOk, option_to_list};
ghost use Rattle.std.specs.List.{prefix_len};
ghost use Rattle.rl_pylex.specs.Source.{IsTokenList};
ghost use Rattle.rl_sites.specs.Significant.{is_literal};
ghost use Rattle.rl_sites.specs.internal.Walks.{IsTable, IsNumbered};
ghost use Rattle.rl_sites.specs.Arguments.{arguments_of};
ghost use Rattle.rl_sites.specs.Imports.{aliases_of};
ghost use Rattle.rl_sites.specs.Sites.{pattern_size, site_of_run, ends_whole, site_behind, hides, sites_from, sites_of};
ghost use Rattle.rl_sites.specs.internal.Parts.{site_by, flags_if, is_hidden, open_head};
ghost use Rattle.rl_sites.specs.Runs.{HasRun, AreInOrder};
ghost use Rattle.rl_sites.specs.internal.Meanings.{IsMeaningTable};

use crate::brackets::sizes_of;
use crate::flags::flags_of;
use crate::heads::{Head, head_of};
use crate::imports::{Alias, aliases_of};
use crate::names::{Names, names_of};
use crate::significant::{
    SignificantToken, is_literal, is_op, is_word, op_at, rest_from, significant_tokens, word_at,
};
use crate::{Call, Site, SiteFlags, SiteList};
use rl_lists::OutOfMemory;
use rl_pylex::TokenList;
use std::alloc::Global;

/// Returns the number of tokens in `pattern=` if the tokens begin with it, otherwise 0.
fn pattern_size(source: &[u8], rest: &[SignificantToken]) -> usize
    ensures value { result ≡ pattern_size source.now rest.now }
    ensures within { result ≤ length rest.now }
{
    if word_at(source, b"pattern", rest, 0) && op_at(source, b"=", rest, 1) {
        2
    } else {
        0
    }
}

fn after_literals(tokens: &[SignificantToken]) -> Option<usize>
    ensures { result ≡ position (λ token. not (is_literal token)) tokens.now }
{
    tokens.iter().position(|token| !is_literal(*token))
}

/// Returns the number of literals that the tokens begin with.
#[tactic(auto, using(crate::proofs::TermFacts::runs))]
fn literal_size(tokens: &[SignificantToken]) -> usize
    ensures value { result ≡ prefix_len is_literal tokens.now }
    ensures within { result ≤ length tokens.now }
{
    after_literals(tokens).unwrap_or(tokens.len())
}

/// Returns the first `size` tokens.
#[tactic(auto, using(crate::proofs::Numbers::numbers))]
fn first(tokens: &[SignificantToken], size: usize) -> &[SignificantToken]
    requires within { size ≤ length tokens.now }
    requires numbered { IsNumbered tokens.now }
    ensures value { result.now ≡ take size tokens.now }
    ensures numbered { IsNumbered result.now }
{
    &tokens[..size]
}

/// Whether the tokens after a run of literals begin with `,` or `)`.
#[tactic(auto, unfolding(crate::specs::Sites::ends_whole))]
fn ends_whole(source: &[u8], rest: &[SignificantToken]) -> bool
    ensures { result ≡ ends_whole source.now rest.now }
{
    op_at(source, b",", rest, 0) || op_at(source, b")", rest, 0)
}

fn flags_if(
    whole: bool,
    source: &[u8],
    names: &Names<'_>,
    call: Call,
    rest: &[SignificantToken],
    sizes: &[usize],
) -> SiteFlags
    requires meant { IsMeaningTable source.now names.now.aliases.items names.now.meanings.entries }
    requires table { IsTable source.now rest.now sizes.now }
    ensures { result ≡ flags_if whole source.now names.now.aliases.items call rest.now }
{
    if whole {
        flags_of(source, names, call, rest, sizes)
    } else {
        SiteFlags::Unknown
    }
}

/// Returns the site whose literals are this run, or `None` if the run is empty.
#[tactic(auto, using(crate::proofs::Numbers::numbers))]
fn site_of_run(call: Call, whole: bool, flags: SiteFlags, run: &[SignificantToken]) -> Option<Site>
    requires { IsNumbered run.now }
    ensures { result ≡ site_of_run call whole flags (slice_get run.now 0) (slice_get run.now (length run.now - 1)) }
{
    match run.first() {
        None => None,
        Some(first) => match run.last() {
            None => None,
            Some(last) => Some(Site {
                call,
                first: first.number,
                count: last.number.saturating_sub(first.number) + 1,
                whole,
                flags,
            }),
        },
    }
}

/// Returns the site of a call, given the tokens after its opening bracket.
#[tactic(auto, using(crate::proofs::Numbers::numbers), unfolding(crate::specs::Sites::site_behind))]
fn site_behind(
    source: &[u8],
    names: &Names<'_>,
    call: Call,
    rest: &[SignificantToken],
    sizes: &[usize],
) -> Option<Site>
    requires meant { IsMeaningTable source.now names.now.aliases.items names.now.meanings.entries }
    requires table { IsTable source.now rest.now sizes.now }
    requires numbered { IsNumbered rest.now }
    ensures { result ≡ site_behind source.now names.now.aliases.items call rest.now }
{
    let run = rest_from(rest, pattern_size(source, rest));
    let size = literal_size(run);
    let whole = ends_whole(source, rest_from(run, size));
    let flags = flags_if(whole, source, names, call, rest, sizes);
    site_of_run(call, whole, flags, first(run, size))
}

/// Whether a site can't begin right after the token.
#[tactic(auto, unfolding(crate::specs::Sites::hides))]
fn hides(source: &[u8], token: SignificantToken) -> bool
    ensures { result ≡ hides source.now token }
{
    is_op(source, b".", token) || is_word(source, b"def", token)
}

/// Whether the token before a place, if there is one, prevents a site there.
fn is_hidden(source: &[u8], before: Option<SignificantToken>) -> bool
    ensures { result ≡ is_hidden source.now before }
{
    match before {
        Some(token) => hides(source, token),
        None => false,
    }
}

/// Returns the head of the call that the tokens begin with, if there is one and the token before doesn't hide it.
fn open_head(
    source: &[u8],
    names: &Names<'_>,
    before: Option<SignificantToken>,
    rest: &[SignificantToken],
) -> Option<Head>
    requires { IsMeaningTable source.now names.now.aliases.items names.now.meanings.entries }
    ensures value { result ≡ open_head source.now names.now.aliases.items before rest.now }
    ensures within { IfSome result (λ found. found.size ≤ length rest.now) }
{
    match head_of(source, names, rest) {
        Some(head) if !is_hidden(source, before) => Some(head),
        _ => None,
    }
}

/// Returns the site that the tokens begin with, if there is one and the token before doesn't hide it.
#[tactic(auto, using(crate::proofs::Numbers::numbers))]
fn site_here(
    source: &[u8],
    names: &Names<'_>,
    before: Option<SignificantToken>,
    rest: &[SignificantToken],
    sizes: &[usize],
) -> Option<Site>
    requires meant { IsMeaningTable source.now names.now.aliases.items names.now.meanings.entries }
    requires table { IsTable source.now rest.now sizes.now }
    requires numbered { IsNumbered rest.now }
    ensures { result ≡ site_by source.now names.now.aliases.items (open_head source.now names.now.aliases.items before rest.now) rest.now }
{
    match open_head(source, names, before, rest) {
        Some(head) => site_behind(source, names, head.call, rest_from(rest, head.size), sizes),
        None => None,
    }
}

/// Appends the site that the tokens begin with, if there is one and the token before doesn't hide it.
fn push_site(
    sites: &mut SiteList,
    source: &[u8],
    names: &Names<'_>,
    before: Option<SignificantToken>,
    rest: &[SignificantToken],
    sizes: &[usize],
) -> Result<(), OutOfMemory>
    requires meant { IsMeaningTable source.now names.now.aliases.items names.now.meanings.entries }
    requires table { IsTable source.now rest.now sizes.now }
    requires numbered { IsNumbered rest.now }
    ensures { OnOk result (sites.new ≡ sites.old ++ option_to_list (site_by source.now names.now.aliases.items (open_head source.now names.now.aliases.items before rest.now) rest.now)) }
{
    if let Some(site) = site_here(source, names, before, rest, sizes) {
        sites.push(site)?;
    }
    Ok(())
}

/// Returns the sites among the tokens.
#[tactic(auto, using(crate::proofs::Numbers::numbers))]
fn sites_among(
    alloc: Global,
    source: &[u8],
    names: &Names<'_>,
    tokens: &[SignificantToken],
    sizes: &[usize],
) -> Result<SiteList, OutOfMemory>
    requires meant { IsMeaningTable source.now names.now.aliases.items names.now.meanings.entries }
    requires table { IsTable source.now tokens.now sizes.now }
    requires numbered { IsNumbered tokens.now }
    ensures { IfOk result (λ sites. sites ≡ sites_from source.now names.now.aliases.items false tokens.now) }
{
    let mut sites = SiteList::new(alloc);
    let mut before = None;
    let mut rest = tokens;
    while let [token, ..] = rest {
        push_site(&mut sites, source, names, before, rest, sizes)?;
        before = Some(*token);
        rest = rest_from(rest, 1);
    }
    Ok(sites)
}

/// Returns the tokens from the first call on that isn't hidden. No site begins before it.
#[tactic(auto, using(crate::proofs::Numbers::numbers))]
fn from_first_call<'a>(
    source: &[u8],
    names: &Names<'_>,
    tokens: &'a [SignificantToken],
) -> &'a [SignificantToken]
    requires meant { IsMeaningTable source.now names.now.aliases.items names.now.meanings.entries }
    requires numbered { IsNumbered tokens.now }
    ensures same { sites_from source.now names.now.aliases.items false result.now ≡ sites_from source.now names.now.aliases.items false tokens.now }
    ensures numbered { IsNumbered result.now }
{
    let mut before = None;
    let mut rest = tokens;
    while let [token, ..] = rest {
        if open_head(source, names, before, rest).is_some() {
            return rest;
        }
        before = Some(*token);
        rest = rest_from(rest, 1);
    }
    rest
}

/// Returns the sites among the tokens, given the meanings of the names in the source.
fn sites_named(
    alloc: Global,
    source: &[u8],
    names: &Names<'_>,
    tokens: &[SignificantToken],
) -> Result<SiteList, OutOfMemory>
    requires meant { IsMeaningTable source.now names.now.aliases.items names.now.meanings.entries }
    requires numbered { IsNumbered tokens.now }
    ensures { IfOk result (λ sites. sites ≡ sites_from source.now names.now.aliases.items false tokens.now) }
{
    let calls = from_first_call(source, names, tokens);
    let sizes = sizes_of(alloc, source, calls)?;
    sites_among(alloc, source, names, calls, sizes.as_slice())
}

/// Returns the sites among the tokens, given the aliases of the source. A source without aliases has no sites.
fn sites_by(
    alloc: Global,
    source: &[u8],
    aliases: Vec<Alias>,
    tokens: &[SignificantToken],
) -> Result<SiteList, OutOfMemory>
    requires { IsNumbered tokens.now }
    ensures { IfOk result (λ sites. sites ≡ sites_from source.now aliases.items false tokens.now) }
{
    if aliases.is_empty() {
        return Ok(SiteList::new(alloc));
    }
    let names = names_of(alloc, source, aliases)?;
    sites_named(alloc, source, &names, tokens)
}

/// Returns the sites among the tokens of a source.
fn sites_in(
    alloc: Global,
    source: &[u8],
    tokens: &[SignificantToken],
) -> Result<SiteList, OutOfMemory>
    requires { IsNumbered tokens.now }
    ensures { IfOk result (λ sites. sites ≡ sites_from source.now (aliases_of source.now tokens.now) false tokens.now) }
{
    let aliases = aliases_of(alloc, source, tokens)?;
    sites_by(alloc, source, aliases, tokens)
}

/// Returns the sites of a source with these tokens, which must be its own: each call of the module `re`, by an alias that the
/// imports define, whose first argument begins with a run of literals, in the order of their places.
///
/// A site's run of tokens begins and ends with a literal and holds only literals and comments. No two runs overlap: each ends
/// before the next site's run begins.
///
/// # Errors
/// [`OutOfMemory`] if memory runs out.
#[tactic(auto, unfolding(crate::specs::Sites::sites_of))]
pub fn sites(alloc: Global, source: &[u8], tokens: &TokenList) -> Result<SiteList, OutOfMemory>
    requires { IsTokenList source.now tokens.now }
    ensures sites { IfOk result (λ sites. sites ≡ sites_of source.now tokens.now) }
    ensures runs { IfOk result (All (HasRun tokens.now)) }
    ensures order { IfOk result AreInOrder }
{
    let significant = significant_tokens(alloc, tokens.as_slice())?;
    sites_in(alloc, source, significant.as_slice())
}
