//! The judgement on a whole pattern: the fault that is reported, or the pattern without its outer anchors.

ghost use Rattle.std.specs.Prelude.{◌≡◌, IfOk};
ghost use Rattle.rl_pattern.specs.internal.Views.{whole_of};
ghost use Rattle.rl_pattern.specs.internal.Judged.{IsJudged};

use crate::faults::{Fault, earlier, fronts_fault, node_fault};
use crate::flags::Flags;
use crate::inner::{Inner, without_anchors};
use crate::names::name_fault;
use crate::profile::{Profile, for_body};
use crate::tree::Whole;
use rl_lists::OutOfMemory;
use std::alloc::Global;

/// The judgement on a whole pattern.
#[derive(Drop)]
pub(crate) enum Judged {
    /// The pattern is refused because of this fault, the one that is reported.
    Refused(Fault),
    /// Nothing is refused. This is the pattern without its outer anchors.
    Left(Inner),
}

/// Returns the judgement on a whole pattern under the flags of the call and the profile. `text` says whether the pattern is a
/// `str`.
///
/// # Errors
/// [`OutOfMemory`] if there is no memory for the names of groups, for a branch or for a set.
#[tactic(auto, using(crate::proofs::FirstFault::first_of_joined))]
pub(crate) fn judge(
    alloc: Global,
    profile: Profile,
    call: Flags,
    text: bool,
    whole: Whole,
) -> Result<Judged, OutOfMemory>
    ensures { IfOk result (IsJudged profile call text (whole_of whole)) }
{
    let fronts = fronts_fault(text, call, whole.fronts.as_slice());
    let Ok(names) = name_fault(alloc, &whole.body) else {
        drop(whole);
        return Err(OutOfMemory);
    };
    let left = without_anchors(alloc, whole)?;
    let inner = for_body(profile, left.trailing);
    let Ok(nodes) = node_fault(alloc, inner, text, &left.body) else {
        drop(left);
        return Err(OutOfMemory);
    };
    match earlier(fronts, earlier(names, nodes)) {
        Some(fault) => {
            drop(left);
            Ok(Judged::Refused(fault))
        }
        None => Ok(Judged::Left(left)),
    }
}
