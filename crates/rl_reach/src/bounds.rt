//! Bounds on the cost of a search, found from the verdict on the match.

ghost use Rattle.std.specs.Prelude.{◌≡◌, ℕ, ◌≤◌, IfOk, IfSome};
ghost use Rattle.rl_syntax.specs.declared.re.Mode.TheVariants as Mode;
ghost use Rattle.rl_syntax.specs.Tree.{tree_of, IsOver};
ghost use Rattle.rl_syntax.specs.declared.limits.TheConstants.{MOST_PAIRS};
ghost use Rattle.rl_pairs.specs.RightVerdict.{RightVerdict};
ghost use Rattle.rl_growth.specs.Questions.{question_of};
ghost use Rattle.rl_reach.specs.Places.{after_one};
ghost use Rattle.rl_reach.specs.internal.Degrees.{IsDegreeWithin};
ghost use Rattle.rl_reach.specs.Bounds.{question_in, behind_one, IsAtLeast, IsAtMost, least_of, most_of, IsMostOf, IsOfMatch};

use crate::behind::looks_behind;
use rl_growth::classify;
use rl_lists::OutOfMemory;
use rl_syntax::{
    CodeSet, Family, LowerError, Lowered, Mode, Pattern, Re, Universe, Verdict, lower,
};
use std::alloc::Global;

/// How fast the cost of a search grows at least.
#[derive(Drop)]
pub enum AtLeast {
    /// Like this power of the number for which the family's text is taken. The power is at least 1.
    Degree(u32, Family),
    /// Exponentially. The cost on the family's text for `k` is at least 2^k.
    Expo(Family),
}

/// What is known of the cost of a search from the verdict on the match of the same pattern.
#[derive(Drop)]
pub struct Bounds {
    /// A lower bound of the growth, or `None` if the match gives none.
    pub at_least: Option<AtLeast>,
    /// The power of the length by which the cost grows at most, or `None` if the match gives none.
    pub at_most: Option<u32>,
}

/// Returns the bounds that the match of the pattern gives for its search. The match is judged with at most `max_pairs` live
/// pairs, from 1 to [`MOST_PAIRS`](rl_syntax::MOST_PAIRS). The search isn't judged, so it doesn't matter whether it exceeds a
/// limit.
///
/// There is a lower bound if and only if the verdict on the match is exponential growth or a degree of at least 1. The search
/// grows at least like the match, on the same family. There is an upper bound if the verdict on the match is a degree and no
/// guard of the pattern looks behind. It is one more than that degree. If a guard looks behind, the match of one character
/// followed by the pattern is judged too. Then there is an upper bound if and only if both verdicts are degrees, and it is one
/// more than the greater of them.
///
/// # Errors
/// [`OutOfMemory`] if there is not enough memory for the tree, the automaton, the graph or the family.
pub fn search_bounds(alloc: Global, p: &Pattern, max_pairs: u32) -> Result<Bounds, OutOfMemory>
    requires some { 1 ≤ max_pairs }
    requires few { max_pairs ≤ MOST_PAIRS }
    ensures at_least { IfOk result (λ b. IfSome b.at_least (IsAtLeast (question_in Mode.Search p.now max_pairs))) }
    ensures at_most { IfOk result (λ b. IfSome b.at_most (IsAtMost (question_in Mode.Search p.now max_pairs))) }
    ensures whole { IfOk result (IsOfMatch p.now max_pairs) }
{
    let lowered = match lower(alloc, p, Mode::Match) {
        Ok(lowered) => lowered,
        Err(LowerError::TooLarge) => {
            return Ok(Bounds {
                at_least: None,
                at_most: None,
            });
        }
        Err(LowerError::OutOfMemory) => return Err(OutOfMemory),
    };
    let verdict = classify(alloc, &lowered, p.universe(), max_pairs)?;
    let at_most = upper_bound(alloc, lowered, p.universe(), max_pairs, &verdict)?;
    Ok(Bounds {
        at_least: least_of(verdict),
        at_most,
    })
}

/// Returns the upper bound for the search, given the lowered match and the verdict on it. If a guard looks behind, the match
/// behind one character is judged too.
fn upper_bound(
    alloc: Global,
    lowered: Lowered,
    universe: Universe,
    max_pairs: u32,
    verdict: &Verdict,
) -> Result<Option<u32>, OutOfMemory>
    requires some { 1 ≤ max_pairs }
    requires few { max_pairs ≤ MOST_PAIRS }
    requires inside { IsOver universe (tree_of lowered.tree) }
    requires small { IsDegreeWithin MOST_PAIRS verdict.now }
    ensures { IfOk result (IsMostOf (question_of lowered universe max_pairs) verdict.now) }
{
    if looks_behind(&lowered.tree) {
        let behind = classify_behind(alloc, lowered, universe, max_pairs)?;
        Ok(most_of(verdict, &behind))
    } else {
        Ok(most_of(verdict, verdict))
    }
}

/// Returns the verdict on the match behind one character.
fn classify_behind(
    alloc: Global,
    lowered: Lowered,
    universe: Universe,
    max_pairs: u32,
) -> Result<Verdict, OutOfMemory>
    requires some { 1 ≤ max_pairs }
    requires few { max_pairs ≤ MOST_PAIRS }
    requires inside { IsOver universe (tree_of lowered.tree) }
    ensures right { IfOk result (RightVerdict (behind_one (question_of lowered universe max_pairs))) }
    ensures small { IfOk result (IsDegreeWithin MOST_PAIRS) }
{
    let behind = after_one(alloc, lowered, universe)?;
    classify(alloc, &behind, universe, max_pairs)
}

/// Puts exactly one character of the universe before the tree.
fn after_one(alloc: Global, lowered: Lowered, universe: Universe) -> Result<Lowered, OutOfMemory>
    ensures tree { IfOk result (λ l. tree_of l.tree ≡ after_one universe (tree_of lowered.tree)) }
    ensures ending { IfOk result (λ l. l.ending ≡ lowered.ending) }
{
    let any = Re::One(CodeSet::range(alloc, 0, universe.count() - 1)?);
    Ok(Lowered {
        tree: Re::both(alloc, any, lowered.tree)?,
        ending: lowered.ending,
    })
}

/// Returns the lower bound for the search that the verdict on the match gives.
fn least_of(verdict: Verdict) -> Option<AtLeast>
    ensures { result ≡ least_of verdict }
{
    match verdict {
        Verdict::Degree(0, _) | Verdict::Undecided(_) => None,
        Verdict::Degree(degree, family) => Some(AtLeast::Degree(degree, family)),
        Verdict::Expo(family) => Some(AtLeast::Expo(family)),
    }
}

/// Returns the upper bound for the search that the verdicts on the match, and on the match behind one character, give.
fn most_of(verdict: &Verdict, behind: &Verdict) -> Option<u32>
    requires small { IsDegreeWithin MOST_PAIRS verdict.now }
    requires small_behind { IsDegreeWithin MOST_PAIRS behind.now }
    ensures { result ≡ most_of verdict.now behind.now }
{
    match (verdict, behind) {
        (Verdict::Degree(degree, _), Verdict::Degree(other, _)) => Some((*degree).max(*other) + 1),
        _ => None,
    }
}
