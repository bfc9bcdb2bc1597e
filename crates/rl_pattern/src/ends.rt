//! The reader before the first character and at the end of the pattern. The reader takes one character at a time; a construct
//! is what it is in the middle of, such as an escape. Positions count codes from 0.

ghost use Rattle.std.specs.Prelude.{◌≡◌, ℕ, ◌-◌, ◌<◌, ◌^◌, IfOk, option_map, Some, None, if◌then◌else◌};
ghost use Rattle.rl_pattern.specs.internal.Views.{base_of, lex_of, state_of, whole_of, FitsAt};
ghost use Rattle.rl_pattern.specs.internal.Machine as m;

use crate::base::{empty_body, end_branch, no_count, put_leaf, put_repeat, whole_body};
use crate::escape::escape_rest;
use crate::flags::{Flags, no_flags};
use crate::state::{Base, Last, Lex, State};
use crate::tree::{Greed, Kind, Leaf, Whole};
use rl_lists::{Items, OutOfMemory};
use rl_syntax::Span;
use std::alloc::Global;
use std::mem;

/// Returns the whole pattern if it ends at `k` between items, or `None` if a group is open.
fn whole(alloc: Global, base: &mut Base, k: u32) -> Result<Option<Whole>, OutOfMemory>
    ensures { IfOk result (λ found. option_map whole_of found ≡ m.finish k (base_of base.old)) }
{
    if !base.below.is_empty() {
        return Ok(None);
    }
    end_branch(alloc, base, k)?;
    let place = Span {
        from: base.top.start,
        upto: k,
    };
    let branches = mem::replace(&mut base.top.branches, Items::new(alloc));
    let fronts = mem::replace(&mut base.fronts, Items::new(alloc));
    Ok(Some(Whole {
        fronts,
        place,
        body: whole_body(place, branches),
    }))
}

/// Returns whether the pattern may end at `k` in the middle of this construct. If so, the construct is added to what was read.
/// Open groups aren't considered.
fn may_end(alloc: Global, base: &mut Base, lex: Lex, k: u32) -> Result<bool, OutOfMemory>
    requires room { k < 2 ^ 32 - 1 }
    requires fits { FitsAt (lex_of lex) k }
    ensures { IfOk result (λ may. (if may then m.finish k (base_of base.new) else None) ≡ m.finish_lex k (base_of base.old) (lex_of lex)) }
{
    match lex {
        Lex::Between | Lex::Line => Ok(true),
        Lex::InBraces(from, text) => {
            let put = no_count(base, from, text.as_slice());
            drop(text);
            put?;
            Ok(true)
        }
        Lex::Counted(from, atom, mark, count) => {
            let mark = Span {
                from: mark,
                upto: k,
            };
            put_repeat(alloc, base, from, atom, mark, count, Greed::Greedy)?;
            Ok(true)
        }
        Lex::InEscape(from, within) => match escape_rest(within) {
            None => Ok(false),
            Some(escaped) => {
                put_leaf(base, from, k, Leaf::Glyph(escaped))?;
                Ok(true)
            }
        },
        Lex::Comment
        | Lex::AtSlash(_)
        | Lex::InHead(_, _)
        | Lex::SetOpen(_)
        | Lex::InClass(_, _, _) => {
            drop(lex);
            Ok(false)
        }
    }
}

/// Returns the whole pattern if it ends at `k` in the middle of this construct, or `None` if it can't end there. `k` must be
/// less than 2^32 - 1, and within braces it must be the position after the text that was read.
pub(crate) fn finish_lex(
    alloc: Global,
    base: &mut Base,
    lex: Lex,
    k: u32,
) -> Result<Option<Whole>, OutOfMemory>
    requires room { k < 2 ^ 32 - 1 }
    requires fits { FitsAt (lex_of lex) k }
    ensures { IfOk result (λ found. option_map whole_of found ≡ m.finish_lex k (base_of base.old) (lex_of lex)) }
{
    if may_end(alloc, base, lex, k)? {
        whole(alloc, base, k)
    } else {
        Ok(None)
    }
}

/// Returns the state before the first character, under the flags of the call.
pub(crate) fn start(alloc: Global, flags: Flags) -> State
    ensures { state_of result ≡ m.start flags }
{
    let kind = Kind::Scoped(no_flags(), no_flags());
    let top = empty_body(alloc, flags, kind, 0, 0);
    State {
        base: Base {
            top,
            last: Last::NothingYet,
            below: Vec::new(alloc),
            fronts: Items::new(alloc),
        },
        lex: Lex::Between,
    }
}
