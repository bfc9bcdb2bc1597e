//! The meanings of names: the module `re`, its nine functions that take a pattern first, and its flags. An alias is a name
//! that an import of the source gives to the module, or to one of its members.
ghost use Rattle.std.specs.Prelude.{◌≡◌, ℕ, List, None, IfOk, OnOk};
ghost use Rattle.rl_sites.specs.Names.{is_module, call_named, call_word, flag_named, call_aliased, flag_aliased};
ghost use Rattle.rl_sites.specs.Significant.{word_of};
ghost use Rattle.rl_sites.specs.internal.Meanings.{call_rank, flag_rank, flag_words, is_word_of, earlier, joined, own_meaning, meaning_with, meaning_of, meaning_in, IsMeaningTable, call_of, flag_of};

use crate::Call;
use crate::flag::Flag;
use crate::imports::Alias;
use crate::meaning::Meaning;
use crate::significant::{SignificantToken, is_name, word_of};
use indexmap::IndexMap;
use rl_lists::OutOfMemory;
use std::alloc::Global;

/// The meanings that the imports of a source give to names.
#[derive(Drop)]
pub struct Names<'a> {
    /// The aliases of the source, in order.
    pub aliases: Vec<Alias>,
    /// The meaning of each name that is an alias, by the bytes of the name. Other names have no entry.
    pub meanings: IndexMap<&'a [u8], Meaning>,
}

/// The functions in their order.
const CALLS: [Call; 9] = [
    Call::Compile,
    Call::Match,
    Call::Search,
    Call::Fullmatch,
    Call::Findall,
    Call::Finditer,
    Call::Split,
    Call::Sub,
    Call::Subn,
];

/// Returns the name of a function.
fn call_word(call: Call) -> &'static [u8]
    ensures { result.now ≡ call_word call }
{
    match call {
        Call::Compile => b"compile",
        Call::Match => b"match",
        Call::Search => b"search",
        Call::Fullmatch => b"fullmatch",
        Call::Findall => b"findall",
        Call::Finditer => b"finditer",
        Call::Split => b"split",
        Call::Sub => b"sub",
        Call::Subn => b"subn",
    }
}

/// Returns the function with this name, if there is one.
#[tactic(auto, unfolding(crate::specs::internal::Meanings::call_of))]
fn call_of(word: &[u8]) -> Option<Call>
    ensures { result ≡ call_of word.now }
{
    CALLS.iter().copied().find(|call| word == call_word(*call))
}

/// The flags in their order.
const FLAGS: [Flag; 8] = [
    Flag::Ascii,
    Flag::IgnoreCase,
    Flag::Locale,
    Flag::Multiline,
    Flag::DotAll,
    Flag::Unicode,
    Flag::Verbose,
    Flag::Nothing,
];

/// Returns the two names of a flag.
fn flag_words(flag: Flag) -> (&'static [u8], &'static [u8])
    ensures first { result.0.now ≡ (flag_words flag).0 }
    ensures second { result.1.now ≡ (flag_words flag).1 }
{
    match flag {
        Flag::Ascii => (b"A", b"ASCII"),
        Flag::IgnoreCase => (b"I", b"IGNORECASE"),
        Flag::Locale => (b"L", b"LOCALE"),
        Flag::Multiline => (b"M", b"MULTILINE"),
        Flag::DotAll => (b"S", b"DOTALL"),
        Flag::Unicode => (b"U", b"UNICODE"),
        Flag::Verbose => (b"X", b"VERBOSE"),
        Flag::Nothing => (b"DEBUG", b"NOFLAG"),
    }
}

/// Whether the word is one of the names of a flag.
fn is_word_of(word: &[u8], flag: Flag) -> bool
    ensures { result ≡ is_word_of word.now flag }
{
    let (first, second) = flag_words(flag);
    word == first || word == second
}

/// Returns the flag with this name, if there is one.
fn flag_of(word: &[u8]) -> Option<Flag>
    ensures { result ≡ flag_of word.now }
{
    FLAGS.iter().copied().find(|flag| is_word_of(word, *flag))
}

/// Returns the position of a function in their order.
fn call_rank(call: Call) -> u8
    ensures { result ≡ call_rank call }
{
    call as u8
}

/// Returns the position of a flag in their order.
fn flag_rank(flag: Flag) -> u8
    ensures { result ≡ flag_rank flag }
{
    flag as u8
}

/// Returns the function that comes first in their order.
fn earlier_call(first: Option<Call>, second: Option<Call>) -> Option<Call>
    ensures { result ≡ earlier call_rank first second }
{
    match (first, second) {
        (Some(a), Some(b)) if call_rank(b) < call_rank(a) => second,
        (Some(_), _) => first,
        (None, _) => second,
    }
}

/// Returns the flag that comes first in their order.
fn earlier_flag(first: Option<Flag>, second: Option<Flag>) -> Option<Flag>
    ensures { result ≡ earlier flag_rank first second }
{
    match (first, second) {
        (Some(a), Some(b)) if flag_rank(b) < flag_rank(a) => second,
        (Some(_), _) => first,
        (None, _) => second,
    }
}

/// Returns the meaning that a name gets from two lists of aliases together.
fn joined(first: Meaning, second: Meaning) -> Meaning
    ensures { result ≡ joined first second }
{
    Meaning {
        of_module: first.of_module || second.of_module,
        call: earlier_call(first.call, second.call),
        flag: earlier_flag(first.flag, second.flag),
    }
}

/// Returns the meaning that an alias gives to its name.
fn own_meaning(source: &[u8], member: Option<SignificantToken>) -> Meaning
    ensures { result ≡ own_meaning source.now member }
{
    match member {
        None => Meaning {
            of_module: true,
            call: None,
            flag: None,
        },
        Some(token) => Meaning {
            of_module: false,
            call: call_of(word_of(source, token)),
            flag: flag_of(word_of(source, token)),
        },
    }
}

/// Returns the meaning of a name in a table.
fn meaning_in(meanings: &IndexMap<&[u8], Meaning>, name: &[u8]) -> Meaning
    ensures { result ≡ meaning_in meanings.now.entries name.now }
{
    match meanings.get(&name) {
        Some(meaning) => *meaning,
        None => Meaning {
            of_module: false,
            call: None,
            flag: None,
        },
    }
}

/// Adds an alias to a table.
fn add_alias<'a>(
    meanings: &mut IndexMap<&'a [u8], Meaning>,
    source: &'a [u8],
    alias: Alias,
) -> Result<(), OutOfMemory>
    ensures { OnOk result ((name : List ℕ) → meaning_in meanings.new.entries name ≡ meaning_with source.now alias name (meaning_in meanings.old.entries name)) }
{
    let name = word_of(source, alias.name);
    let meaning = joined(
        meaning_in(meanings, name),
        own_meaning(source, alias.member),
    );
    meanings.insert(name, meaning)?;
    Ok(())
}

/// Returns the table of the meanings that these aliases give to their names.
fn meanings_of<'a>(
    alloc: Global,
    source: &'a [u8],
    aliases: &[Alias],
) -> Result<IndexMap<&'a [u8], Meaning>, OutOfMemory>
    ensures { IfOk result (λ meanings. IsMeaningTable source.now aliases.now meanings.entries) }
{
    let mut meanings = IndexMap::new(alloc);
    for alias in aliases {
        add_alias(&mut meanings, source, *alias)?;
    }
    Ok(meanings)
}

/// Returns `aliases`, which are taken to be those of the source, with the table of the meanings that they give to their names.
///
/// # Errors
/// [`OutOfMemory`] if memory runs out.
pub fn names_of<'a>(
    alloc: Global,
    source: &'a [u8],
    aliases: Vec<Alias>,
) -> Result<Names<'a>, OutOfMemory>
    ensures meant { IfOk result (λ names. IsMeaningTable source.now names.aliases.items names.meanings.entries) }
    ensures aliases { IfOk result (λ names. names.aliases.items ≡ aliases.items) }
{
    let meanings = meanings_of(alloc, source, aliases.as_slice())?;
    Ok(Names { aliases, meanings })
}

/// Returns the meaning of a token's text.
fn meaning_of(source: &[u8], names: &Names<'_>, token: SignificantToken) -> Meaning
    requires { IsMeaningTable source.now names.now.aliases.items names.now.meanings.entries }
    ensures { result ≡ meaning_of source.now names.now.aliases.items (word_of source.now token) }
{
    meaning_in(&names.meanings, word_of(source, token))
}

/// Whether the token is a name that is an alias of the module. `names` must be what [`names_of`] returns for the source.
#[tactic(auto, unfolding(crate::specs::Names::is_module))]
pub fn is_module(source: &[u8], names: &Names<'_>, token: SignificantToken) -> bool
    requires { IsMeaningTable source.now names.now.aliases.items names.now.meanings.entries }
    ensures { result ≡ is_module source.now names.now.aliases.items token }
{
    is_name(token) && meaning_of(source, names, token).of_module
}

/// Returns the function whose name in the module the token is, or `None` if it isn't such a name. What comes before the token
/// isn't examined.
#[tactic(auto, unfolding(crate::specs::Names::call_named, crate::specs::internal::Meanings::call_of))]
pub fn call_named(source: &[u8], token: SignificantToken) -> Option<Call>
    ensures { result ≡ call_named source.now token }
{
    if is_name(token) {
        call_of(word_of(source, token))
    } else {
        None
    }
}

/// Returns the flag whose name in the module the token is, or `None` if it isn't such a name. What comes before the token
/// isn't examined.
#[tactic(auto, unfolding(crate::specs::Names::flag_named, crate::specs::internal::Meanings::flag_of))]
pub fn flag_named(source: &[u8], token: SignificantToken) -> Option<Flag>
    ensures { result ≡ flag_named source.now token }
{
    if is_name(token) {
        flag_of(word_of(source, token))
    } else {
        None
    }
}

/// Returns the function that the token is an alias of, the first in the order of [`Call`] if there are several, or `None` if
/// there is none. `names` must be what [`names_of`] returns for the source.
#[tactic(auto, unfolding(crate::specs::Names::call_aliased, crate::specs::internal::Meanings::first_call))]
pub fn call_aliased(source: &[u8], names: &Names<'_>, token: SignificantToken) -> Option<Call>
    requires { IsMeaningTable source.now names.now.aliases.items names.now.meanings.entries }
    ensures { result ≡ call_aliased source.now names.now.aliases.items token }
{
    if is_name(token) {
        meaning_of(source, names, token).call
    } else {
        None
    }
}

/// Returns the flag that the token is an alias of, the first in the order of [`Flag`] if there are several, or `None` if there
/// is none. `names` must be what [`names_of`] returns for the source.
#[tactic(auto, unfolding(crate::specs::Names::flag_aliased, crate::specs::internal::Meanings::first_flag))]
pub fn flag_aliased(source: &[u8], names: &Names<'_>, token: SignificantToken) -> Option<Flag>
    requires { IsMeaningTable source.now names.now.aliases.items names.now.meanings.entries }
    ensures { result ≡ flag_aliased source.now names.now.aliases.items token }
{
    if is_name(token) {
        meaning_of(source, names, token).flag
    } else {
        None
    }
}
