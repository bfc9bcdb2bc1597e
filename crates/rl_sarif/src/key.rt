//! The keys by which a baseline recognizes entries. An entry is one result of a report: for a call of `re` whose pattern is a
//! literal, for a source that can't be cut into tokens, or for a path without a source.
ghost use Rattle.std.specs.Prelude.{◌≡◌, IfOk, option_and_then, option_map};
ghost use Rattle.rl_sites.specs.Names.{call_word};
ghost use Rattle.rl_sarif.specs.Keys.{degree_of, key_in, key_of, limit_of, subject_in, subject_of};

use rl_lists::OutOfMemory;
use rl_report::{Entry, call_name, limit_name};
use rl_sites::Call;
use rl_syntax::Verdict;
use std::alloc::{AllocError, Global};
use std::marker::Model;

/// What a key has besides the path: the call, the kind, and the degree, limit or cause. The names are as a report shows them.
#[derive(Clone, Copy, PartialEq, Eq, Hash)]
pub struct About {
    /// The name of the call, if there is one.
    pub(crate) call: Option<&'static str>,
    /// The name of the kind.
    pub(crate) kind: &'static str,
    /// The degree, if the verdict is a degree.
    pub(crate) degree: Option<u32>,
    /// The name of the exceeded limit, if the verdict is `undecided`.
    pub(crate) limit: Option<&'static str>,
    /// The name of the cause, if the entry is a refusal.
    pub(crate) cause: Option<&'static str>,
}

/// The key of an entry: its path, its call, its kind, and its degree, limit or cause.
#[derive(PartialEq, Eq, Hash, Drop)]
pub struct Key {
    /// The path.
    pub(crate) path: String,
    /// Everything besides the path.
    pub(crate) about: About,
}

/// Returns the name of the call, if there is one.
fn named(call: Option<Call>) -> Option<&'static str>
    ensures { option_map (λ n. n.now) result ≡ option_map call_word call }
{
    match call {
        None => None,
        Some(call) => Some(call_name(call)),
    }
}

/// Returns the degree, if there is a verdict and it is a degree.
fn degree_of(verdict: Option<&Verdict>) -> Option<u32>
    ensures { result ≡ option_and_then degree_of (option_map (λ v. v.now) verdict.entry) }
{
    match verdict {
        Some(Verdict::Degree(degree, _)) => Some(*degree),
        _ => None,
    }
}

/// Returns the name of the limit, if there is a verdict and it is `undecided`.
fn limit_of(verdict: Option<&Verdict>) -> Option<&'static str>
    ensures { option_map (λ n. n.now) result ≡ option_and_then limit_of (option_map (λ v. v.now) verdict.entry) }
{
    match verdict {
        Some(Verdict::Undecided(limit)) => Some(limit_name(*limit)),
        _ => None,
    }
}

impl About {
    /// Returns what the key of an entry has besides the path.
    pub(crate) fn of(entry: &Entry) -> About
        ensures { subject_in result ≡ subject_of entry.now }
    {
        let outcome = &entry.outcome;
        About {
            call: named(entry.call),
            kind: outcome.kind(),
            degree: degree_of(outcome.verdict()),
            limit: limit_of(outcome.verdict()),
            cause: outcome.cause(),
        }
    }
}

impl Key {
    /// Returns the key of an entry.
    pub(crate) fn of(alloc: Global, entry: &Entry) -> Result<Key, OutOfMemory>
        ensures { IfOk result (λ key. key_in key ≡ key_of entry.now) }
    {
        let path = String::from_str(alloc, entry.path.as_str())?;
        Ok(Key {
            path,
            about: About::of(entry),
        })
    }
}

impl Clone for Key {
    ghost is_clone = { λ key copy. key_in copy ≡ key_in key };

    fn clone(&self) -> Result<Key, AllocError> {
        let path = self.path.clone()?;
        Ok(Key {
            path,
            about: self.about,
        })
    }
}

/// The keys of the entries of a baseline that was read. For contracts it is the list of these keys.
#[derive(Drop)]
pub struct KnownKeys {
    /// The keys of the entries of the baseline, in their order.
    pub(crate) keys: Vec<Key>,
}

impl Model for KnownKeys {
    ghost use Rattle.std.specs.Prelude.{List, map};
    ghost use Rattle.rl_sarif.specs.Keys.{EntryKey, key_in};

    ghost Value = { List EntryKey };

    ghost view = { λ k. map key_in k.keys.items };
}
