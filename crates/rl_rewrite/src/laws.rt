//! Laws of suggestions. The functions do nothing: each is a theorem, which is stated by what it ensures.
//!
//! Branches and quantifiers are identified by their spans. The body of a pattern is the pattern without its outer anchors. The
//! rules allow branches to be dropped if none of them contains a capturing group and each remaining choice keeps at least one
//! branch. A guard is an anchor, a word boundary or a lookaround. A branch is given up if its
//! trial exceeds the limit.

ghost use Rattle.std.specs.Prelude.{◌≡◌, ◌≤◌, ℕ, Bool, true, false, List, [], All, Option, Result, Ok};
ghost use Rattle.rl_ranges.specs.Text.{IsText};
ghost use Rattle.rl_syntax.specs.declared.pattern.Pattern.{Pattern};
ghost use Rattle.rl_syntax.specs.declared.re.Mode.{Mode};
ghost use Rattle.rl_syntax.specs.Pattern.{body_of, pattern_tree, pattern_ending};
ghost use Rattle.rl_syntax.specs.Cost.{matched};
ghost use Rattle.rl_pattern.specs.declared.flags.Flags.{Flags};
ghost use Rattle.rl_pattern.specs.Parsed.{IsParsed};
ghost use Rattle.rl_pattern.specs.Reread.{IsRemaining};
ghost use Rattle.rl_syntax.specs.SameSpans.{OneLanguage};
ghost use Rattle.rl_ranges.specs.declared.universe.Universe.{Universe};
ghost use Rattle.rl_ranges.specs.Letters.{classes};
ghost use Rattle.rl_ranges.specs.Text.{code_count};
ghost use Rattle.rl_prio.specs.Letters.{all_sets};
ghost use Rattle.rl_equiv.specs.SetPairs.{joint_letters};
ghost use Rattle.rl_syntax.specs.declared.span.Span.{Span};
ghost use Rattle.rl_syntax.specs.Tree.{Tree, size};
ghost use Rattle.rl_syntax.specs.Lowering.{lowered};
ghost use Rattle.rl_syntax.specs.PatTree.{PatTree};
ghost use Rattle.rl_prio.specs.Items.{longest};
ghost use Rattle.rl_pattern.specs.Cut.{remaining};
ghost use Rattle.rl_pattern.specs.Suggested.{may_go, among, no_span, holds_guard, branches_in, merged_in, without, IsRight};
ghost use Rattle.rl_rewrite.specs.Settled.{IsSettled};
ghost use Rattle.rl_rewrite.specs.Verdicts.{IsVerdict};

/// If more branches are dropped, as the rules allow, and the same quantifiers are taken out, the tree of what is left has no
/// more nodes and no longer item lists (the lists of what a matcher can try next at one point), and its sets distinguish no
/// codes that the sets of the old tree don't distinguish. So it exceeds no limit that the old tree doesn't exceed.
pub fn fewer_branches_pass_no_limit()
    ensures nodes { (drop more out : Span → Bool) (body : PatTree) → ((s : Span) → drop s ≡ true → more s ≡ true) → may_go more body ≡ true
        → size (lowered (remaining more out body)) ≤ size (lowered (remaining drop out body)) }
    ensures moves { (drop more out : Span → Bool) (body : PatTree) → ((s : Span) → drop s ≡ true → more s ≡ true) → may_go more body ≡ true
        → longest (lowered (remaining more out body)) ≤ longest (lowered (remaining drop out body)) }
    ensures letters { (u : Universe) (drop more out : Span → Bool) (body : PatTree) → ((s : Span) → drop s ≡ true → more s ≡ true) → may_go more body ≡ true
        → joint_letters u (lowered (remaining drop out body)) (lowered (remaining more out body)) ≡ classes (all_sets (lowered (remaining drop out body))) (code_count u) }
{}

/// A pattern without the dropped branches, and without the quantifiers that the rules take out of the rest, matches the same
/// texts in every mode, if its body has the same language before and after the branches were dropped, or if nothing was
/// dropped because the body contains a guard.
pub fn matched_texts_stay()
    ensures { (flags : Flags) (u : Universe) (codes : List ℕ) (found : Pattern) (dropped : List Span) → IsParsed flags u codes (Ok found)
        → may_go (among dropped) (body_of found) ≡ true → (holds_guard (body_of found) ≡ true → dropped ≡ [])
        → (holds_guard (body_of found) ≡ false → OneLanguage u (without [] (body_of found)) (without dropped (body_of found)))
        → (new : Pattern) → IsRemaining (among dropped) (among (merged_in (remaining (among dropped) no_span (body_of found)))) found new
        → (mode : Mode) (w : List ℕ) → IsText u w → matched (pattern_tree new mode) (pattern_ending new mode) w ≡ matched (pattern_tree found mode) (pattern_ending found mode) w }
{}

/// In a right suggestion for a body without a guard, each branch is dropped, listed as given up, left alone, or needed: in
/// the last case, some text is in the language of the body with the branch or without it, but not in both.
pub fn every_branch_is_settled()
    ensures { (u : Universe) (limit : ℕ) (body : PatTree) (codes : List ℕ) (dropped merged passed : List Span) (text : Option (List ℕ))
        → IsRight (IsVerdict u limit) body codes dropped merged passed text → holds_guard body ≡ false
        → All (IsSettled u body dropped passed) (branches_in body) }
{}
