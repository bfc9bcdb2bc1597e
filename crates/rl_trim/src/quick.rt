//! Quick trials, which look at pairs in any order, and so at fewer of them. A quick trial decides only if the pairs and the
//! sets reached from the start together don't exceed the limit. It then has the same result as a trial in order.

ghost use Rattle.std.specs.Prelude.{IfOk, OnOk, IfSome};
ghost use Rattle.rl_trim.specs.Judged.{IsFound};
ghost use Rattle.rl_trim.specs.Reached.{AreReached};
ghost use Rattle.rl_trim.specs.internal.Trims.{trim_pairs};
ghost use Rattle.rl_trim.specs.internal.Quick.{IsGrown, ArePairs, AreTrims};

use crate::branch::Branch;
use crate::holders::touched_sets;
use crate::judgement::Judgement;
use crate::key::Way;
use crate::pairs::Pairs;
use crate::store::Reached;
use crate::word::{leads_apart, word_to};
use rl_sets::{SetWalk, SetsError};
use std::alloc::Global;

/// Finds and looks at all pairs, and returns the result of the trial. Returns `None` if this doesn't decide it: if there are
/// too many pairs, or if the word by which a pair that shows a difference was found leads from the pair of the two starts to
/// no difference. `ways` says how the sets reached from the start were found.
fn judge_pairs(
    alloc: Global,
    branch: &Branch,
    walk: &mut SetWalk,
    pairs: &mut Pairs,
    ways: &[Way],
    limit: u32,
) -> Result<Option<Judgement>, SetsError>
    requires pairs { ArePairs branch.now.automaton.now branch.now.keep.now walk.old pairs.old.count pairs.old.keys.keys }
    requires trims { AreTrims branch.now.keep.now walk.old pairs.old.trims }
    ensures found { IfOk result (λ o. IfSome o (IsFound (trim_pairs branch.now.automaton.now branch.now.keep.now) limit)) }
    ensures grown { OnOk result (IsGrown branch.now.automaton.now walk.old walk.new) }
{
    let count = pairs.count;
    let all = pairs.grow(branch, walk)?;
    if !all || pairs.keys.len() + count as usize > limit as usize {
        return Ok(None);
    }
    let Some(place) = pairs.apart(branch, walk) else {
        return Ok(Some(Judgement::Equal));
    };
    let word = word_to(alloc, ways, &pairs.ways, &pairs.keys, place)?;
    if leads_apart(branch, walk, &mut pairs.trims, word.as_slice())? {
        return Ok(Some(Judgement::Apart));
    }
    Ok(None)
}

/// Returns the result of a quick trial of a branch, or `None` if it doesn't decide. `reached` are the sets of the walk that
/// are reached from the start.
pub(crate) fn quick_trial(
    alloc: Global,
    branch: &Branch,
    walk: &mut SetWalk,
    reached: &Reached,
    limit: u32,
) -> Result<Option<Judgement>, SetsError>
    requires { AreReached branch.now.automaton.now walk.old reached.now }
    ensures found { IfOk result (λ o. IfSome o (IsFound (trim_pairs branch.now.automaton.now branch.now.keep.now) limit)) }
    ensures grown { OnOk result (IsGrown branch.now.automaton.now walk.old walk.new) }
{
    let count = reached.count;
    let touched = touched_sets(alloc, branch, &reached.holders, walk, count)?;
    let begun = Pairs::new(alloc, branch, walk, &touched, count);
    drop(touched);
    let mut pairs = begun?;
    let told = judge_pairs(alloc, branch, walk, &mut pairs, &reached.ways, limit);
    drop(pairs);
    told
}
