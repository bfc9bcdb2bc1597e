//! The aliases that the imports of a source define. An alias is a name that an import gives to the module `re` or to one of
//! its members. The significant tokens of a source are all except comments.
ghost use Rattle.std.specs.Prelude.{◌≡◌, ◌≤◌, ◌+◌, ◌++◌, ℕ, List, [], IsTrue, IfOk, OnOk, length, drop, codes, option_to_list, if◌then◌else◌};
ghost use Rattle.rl_sites.specs.Significant.{is_name, is_op, is_at};
ghost use Rattle.rl_sites.specs.Imports.{ends_statement, is_renamed, dots_size, joined_size, item_size, given_name, item_alias, items_from, is_from_import, import_here, aliases_from, aliases_of};
ghost use Rattle.rl_sites.specs.internal.Parts.{as_size};

use crate::significant::{
    SignificantToken, is_line_end, is_name, is_op, is_word, name_at, op_at, rest_from, word_at,
};
use rl_lists::OutOfMemory;
use std::alloc::Global;

/// A name that an import gives to the module `re` or to one of its members.
#[derive(Clone, Copy)]
pub struct Alias {
    /// The token that is the name: `r` in `import re as r`, and `m` in `from re import match as m`.
    pub name: SignificantToken,
    /// The token that names the member in the module, such as `match`. `None` if the name is given to the module itself.
    pub member: Option<SignificantToken>,
}

/// The two kinds of import.
#[derive(Clone, Copy)]
pub enum Import {
    /// `import`, which lists modules.
    Module,
    /// `from re import`, which lists members of the module.
    Member,
}

/// Whether the token is a line end, a `;` or a `:`. Such a token is taken to end a statement: an import is read if it comes
/// directly after one, also after a `:` that is followed by an expression, as in `{1: 2}`.
#[tactic(auto, unfolding(crate::specs::Imports::ends_statement))]
pub fn ends_statement(source: &[u8], token: SignificantToken) -> bool
    ensures { result ≡ ends_statement source.now token }
{
    is_line_end(token) || is_op(source, b";", token) || is_op(source, b":", token)
}

/// Whether the tokens begin with `as` and a name.
#[tactic(auto, unfolding(crate::specs::Imports::is_renamed))]
fn is_renamed(source: &[u8], rest: &[SignificantToken]) -> bool
    ensures value { result ≡ is_renamed source.now rest.now }
    ensures within { IsTrue result → 2 ≤ length rest.now }
{
    word_at(source, b"as", rest, 0) && name_at(rest, 1)
}

/// Returns the number of tokens in the dotted names that the tokens begin with, such as `.b.c`.
fn dots_size(source: &[u8], rest: &[SignificantToken]) -> usize
    ensures value { result ≡ dots_size source.now rest.now }
    ensures within { result ≤ length rest.now }
{
    let mut left = rest;
    while let [dot, name, after @ ..] = left {
        if !(is_op(source, b".", *dot) && is_name(*name)) {
            return rest.len() - left.len();
        }
        left = after;
    }
    rest.len() - left.len()
}

fn joined_size(source: &[u8], kind: Import, rest: &[SignificantToken]) -> usize
    ensures value { result ≡ joined_size source.now kind rest.now }
    ensures within { result ≤ length rest.now }
{
    match kind {
        Import::Module => dots_size(source, rest),
        Import::Member => 0,
    }
}

fn as_size(source: &[u8], rest: &[SignificantToken]) -> usize
    ensures value { result ≡ as_size source.now rest.now }
    ensures within { result ≤ length rest.now }
{
    if is_renamed(source, rest) { 2 } else { 0 }
}

/// Returns the number of tokens of an item after its first name.
#[tactic(auto, unfolding(crate::specs::Imports::item_size))]
fn item_size(source: &[u8], kind: Import, rest: &[SignificantToken]) -> usize
    ensures value { result ≡ item_size source.now kind rest.now }
    ensures within { result ≤ length rest.now }
{
    let joined = joined_size(source, kind, rest);
    joined + as_size(source, rest_from(rest, joined))
}

/// Returns the name that an item defines: the name after `as` if there is one, otherwise `token`, the item's first name.
#[tactic(auto, unfolding(crate::specs::Imports::given_name))]
fn given_name(source: &[u8], token: SignificantToken, rest: &[SignificantToken]) -> SignificantToken
    ensures { result ≡ given_name source.now token rest.now }
{
    if !is_renamed(source, rest) {
        return token;
    }
    match rest {
        [_, name, ..] => *name,
        _ => token,
    }
}

fn module_alias(source: &[u8], token: SignificantToken, rest: &[SignificantToken]) -> Option<Alias>
    ensures { result ≡ item_alias source.now Import.Module token rest.now }
{
    if is_word(source, b"re", token) && dots_size(source, rest) == 0 {
        let name = given_name(source, token, rest);
        Some(Alias { name, member: None })
    } else {
        None
    }
}

/// Returns the alias that an item defines, if it defines one.
fn item_alias(
    source: &[u8],
    kind: Import,
    token: SignificantToken,
    rest: &[SignificantToken],
) -> Option<Alias>
    ensures { result ≡ item_alias source.now kind token rest.now }
{
    match kind {
        Import::Module => module_alias(source, token, rest),
        Import::Member => {
            let name = given_name(source, token, rest);
            Some(Alias {
                name,
                member: Some(token),
            })
        }
    }
}

/// Appends the alias that an item defines, if it defines one.
fn push_item(
    aliases: &mut Vec<Alias>,
    source: &[u8],
    kind: Import,
    token: SignificantToken,
    rest: &[SignificantToken],
) -> Result<(), OutOfMemory>
    ensures { OnOk result (aliases.new.items ≡ aliases.old.items ++ option_to_list (item_alias source.now kind token rest.now)) }
{
    if let Some(alias) = item_alias(source, kind, token, rest) {
        aliases.push(alias)?;
    }
    Ok(())
}

/// Appends the aliases of the items that the tokens begin with.
fn push_items(
    aliases: &mut Vec<Alias>,
    source: &[u8],
    kind: Import,
    items: &[SignificantToken],
) -> Result<(), OutOfMemory>
    ensures { OnOk result (aliases.new.items ≡ aliases.old.items ++ items_from source.now kind 0 items.now) }
{
    let mut rest = items;
    while let [token, ..] = rest {
        if !is_name(*token) {
            return Ok(());
        }
        let after = rest_from(rest, 1);
        push_item(aliases, source, kind, *token, after)?;
        let size = item_size(source, kind, after);
        if !op_at(source, b",", after, size) {
            return Ok(());
        }
        rest = rest_from(rest_from(after, size), 1);
    }
    Ok(())
}

/// Whether the tokens begin with `from re import`.
#[tactic(auto, unfolding(crate::specs::Imports::is_from_import))]
fn is_from_import(source: &[u8], rest: &[SignificantToken]) -> bool
    ensures value { result ≡ is_from_import source.now rest.now }
    ensures within { IsTrue result → 3 ≤ length rest.now }
{
    word_at(source, b"from", rest, 0)
        && word_at(source, b"re", rest, 1)
        && word_at(source, b"import", rest, 2)
}

/// Returns the tokens after a `(` if they begin with one, otherwise all of them.
fn behind_bracket<'a>(source: &[u8], rest: &'a [SignificantToken]) -> &'a [SignificantToken]
    ensures { result.now ≡ drop (if is_at 0 (is_op source.now (codes "(")) rest.now then 1 else 0) rest.now }
{
    if op_at(source, b"(", rest, 0) {
        rest_from(rest, 1)
    } else {
        rest
    }
}

/// Appends the aliases of the import that a statement consists of, if it is an import.
#[tactic(auto, using(crate::proofs::Items::items), unfolding(crate::specs::Imports::import_here))]
fn push_import(
    aliases: &mut Vec<Alias>,
    source: &[u8],
    rest: &[SignificantToken],
) -> Result<(), OutOfMemory>
    ensures { OnOk result (aliases.new.items ≡ aliases.old.items ++ import_here source.now rest.now) }
{
    if word_at(source, b"import", rest, 0) {
        return push_items(aliases, source, Import::Module, rest_from(rest, 1));
    }
    if is_from_import(source, rest) {
        let items = behind_bracket(source, rest_from(rest, 3));
        return push_items(aliases, source, Import::Member, items);
    }
    Ok(())
}

/// Appends the aliases of an import if a statement begins here.
fn push_statement(
    aliases: &mut Vec<Alias>,
    source: &[u8],
    begins: bool,
    rest: &[SignificantToken],
) -> Result<(), OutOfMemory>
    ensures { OnOk result (aliases.new.items ≡ aliases.old.items ++ (if begins then import_here source.now rest.now else [])) }
{
    if begins {
        push_import(aliases, source, rest)
    } else {
        Ok(())
    }
}

/// Returns the aliases that the imports of a source define, in order, given its significant tokens.
///
/// # Errors
/// [`OutOfMemory`] if memory runs out.
pub fn aliases_of(
    alloc: Global,
    source: &[u8],
    tokens: &[SignificantToken],
) -> Result<Vec<Alias>, OutOfMemory>
    ensures { IfOk result (λ aliases. aliases.items ≡ aliases_of source.now tokens.now) }
{
    let mut aliases = Vec::new(alloc);
    let mut begins = true;
    let mut rest = tokens;
    while let [token, after @ ..] = rest {
        push_statement(&mut aliases, source, begins, rest)?;
        begins = ends_statement(source, *token);
        rest = after;
    }
    Ok(aliases)
}
