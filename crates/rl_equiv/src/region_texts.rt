//! Finds a text of each region of two trees. A set pair is two sets of states, one of each of two automata, to which the same
//! word leads; the letters of the word are those of both trees. It shows a difference if the end letter, which comes after the
//! last letter, leads exactly one of its sets to the accepting state. It is in the region of the first tree, of the second or
//! of both if the end letter leads only its first set, only its second set or both sets to the accepting state.

ghost use Rattle.std.specs.Prelude.{◌≡◌, ◌≤◌, ◌∷◌, [], ◌&&◌, IfOk, IfErr, OnOk};
ghost use Rattle.std.proofs.Math.Bool.{beq};
ghost use Rattle.rl_syntax.specs.declared.re.Ending.TheVariants.{AtEnd};
ghost use Rattle.rl_syntax.specs.Cost.{matched};
ghost use Rattle.rl_syntax.specs.Tree.{tree_of, IsOver, Tree};
ghost use Rattle.rl_syntax.specs.declared.limits.TheConstants.{MOST_SET_PAIRS};
ghost use Rattle.rl_equiv.specs.Limits.{AreWithin, IsExceeded};
ghost use Rattle.rl_equiv.specs.Joined.{StandTogether};
ghost use Rattle.rl_equiv.specs.Regions.{AreRegions};
ghost use Rattle.rl_equiv.specs.Comparison.{IsTrueComparison};
ghost use Rattle.rl_equiv.specs.SetPairs.{first_pair};
ghost use Rattle.rl_equiv.specs.internal.Searching.{AreReaders, state_of, pairs_in, IsSearch, IsSeen, IsThrough, IsFirstText};

use crate::compared::Compared;
use crate::error::SameError;
use crate::joint::Joint;
use crate::searching::{Ends, PairSearch};
use rl_lists::{Codes, OutOfMemory};
use rl_prio::Prio;
use rl_ranges::Universe;
use rl_syntax::Re;
use std::alloc::Global;

/// Returns whether the ends are `first` and `second`.
fn are(ends: Ends, first: bool, second: bool) -> bool
    ensures { result ≡ (beq ends.first first && beq ends.second second) }
{
    ends.first == first && ends.second == second
}

/// Returns the text of the first set pair with the ends `first` and `second` among those that were looked at, or `None` if
/// there is none.
fn text_of(
    alloc: Global,
    a: &Prio,
    b: &Prio,
    search: &PairSearch,
    seen: &Vec<Ends>,
    first: bool,
    second: bool,
) -> Result<Option<Codes>, OutOfMemory>
    requires readers { AreReaders a.now b.now }
    requires seen { IsSeen a.now b.now (state_of search.now).limit (state_of search.now) seen.now.items }
    ensures { IfOk result (IsFirstText a.now (state_of search.now) seen.now.items first second) }
{
    for place in 0..seen.len() {
        if are(seen[place], first, second) {
            let text = search.text_to(alloc, a, place)?;
            return Ok(Some(text));
        }
    }
    Ok(None)
}

/// Returns the texts of the regions of two automata, by the set pairs that a search has looked at.
fn texts_of(
    alloc: Global,
    a: &Prio,
    b: &Prio,
    search: &PairSearch,
    seen: &Vec<Ends>,
    limit: u32,
) -> Result<Compared, OutOfMemory>
    requires readers { AreReaders a.now b.now }
    requires seen { IsSeen a.now b.now limit (state_of search.now) seen.now.items }
    requires through { IsThrough limit (state_of search.now) seen.now.items }
    ensures { IfOk result (λ r. (u : Universe) (s t : Tree) → StandTogether u s t a.now b.now → AreRegions u s t limit r) }
{
    let first = text_of(alloc, a, b, search, seen, true, false)?;
    let second = text_of(alloc, a, b, search, seen, false, true)?;
    let both = text_of(alloc, a, b, search, seen, true, true)?;
    let more = search.keys.len() > limit as usize;
    Ok(Compared {
        first,
        second,
        both,
        more,
    })
}

/// Runs a search that has just begun, and returns the texts of the regions of its two automata.
fn texts_by(
    alloc: Global,
    a: &Prio,
    b: &Prio,
    search: &mut PairSearch,
    limit: u32,
) -> Result<Compared, OutOfMemory>
    requires readers { AreReaders a.now b.now }
    requires search { IsSearch a.now b.now (state_of search.old) }
    requires limit { search.old.limit ≡ limit }
    requires one { pairs_in (state_of search.old) ≡ first_pair ∷ [] }
    ensures { IfOk result (λ r. (u : Universe) (s t : Tree) → StandTogether u s t a.now b.now → AreRegions u s t limit r) }
{
    let seen = search.look(alloc, a, b, true)?;
    texts_of(alloc, a, b, search, &seen, limit)
}

/// Returns the texts of the regions of two automata, by their first `limit` set pairs.
fn regions_of(alloc: Global, a: &Prio, b: &Prio, limit: u32) -> Result<Compared, OutOfMemory>
    requires readers { AreReaders a.now b.now }
    requires some { 1 ≤ limit }
    requires low { limit ≤ MOST_SET_PAIRS }
    ensures { IfOk result (λ r. (u : Universe) (s t : Tree) → StandTogether u s t a.now b.now → AreRegions u s t limit r) }
{
    let mut search = PairSearch::new(alloc, a, b, limit)?;
    let texts = texts_by(alloc, a, b, &mut search, limit);
    drop(search.into_first());
    texts
}

/// Returns a text of each region of two trees, each matched whole: one that only the first tree spans, one that only the
/// second spans and one that both span. The text of a region is `None` if none of the first `limit` set pairs, in
/// breadth-first order, is in the region. The result also says whether more than `limit` set pairs are reached; if not, a
/// region without a text is empty. `limit` must be from 1 to 20,000, and the sets of both trees must have only codes of the
/// universe `u`.
///
/// # Errors
/// [`SameError::Size`] if one of the trees has more than [`MOST_NODES`](rl_syntax::MOST_NODES) nodes; otherwise
/// [`SameError::Letters`] if their sets tell more than [`MOST_LETTERS`](rl_syntax::MOST_LETTERS) letters apart; otherwise
/// [`SameError::Moves`] if one of the trees has an item list of more than [`MOST_MOVES`](rl_syntax::MOST_MOVES) items.
/// [`SameError::OutOfMemory`] if there is not enough memory.
pub fn regions(
    alloc: Global,
    a: &Re,
    b: &Re,
    u: Universe,
    limit: u32,
) -> Result<Compared, SameError>
    requires first_inside { IsOver u (tree_of a.now) }
    requires second_inside { IsOver u (tree_of b.now) }
    requires some { 1 ≤ limit }
    requires low { limit ≤ MOST_SET_PAIRS }
    ensures within { OnOk result (AreWithin u (tree_of a.now) (tree_of b.now)) }
    ensures exceeded { IfErr result (IsExceeded u (tree_of a.now) (tree_of b.now)) }
    ensures regions { IfOk result (AreRegions u (tree_of a.now) (tree_of b.now) limit) }
    ensures told { IfOk result (IsTrueComparison u (matched (tree_of a.now) AtEnd) (matched (tree_of b.now) AtEnd)) }
{
    let joint = Joint::new(alloc, a, b, u)?;
    let Ok(texts) = regions_of(alloc, &joint.first, &joint.second, limit) else {
        drop(joint);
        return Err(SameError::OutOfMemory);
    };
    drop(joint);
    Ok(texts)
}
