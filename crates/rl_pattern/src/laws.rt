//! Laws of spelling and parsing, which hold for all texts of patterns. The functions do nothing; their `ensures` clauses are
//! the laws. Codes spell a syntax tree by the grammar. A suggestion for a pattern drops branches and removes quantifiers. A
//! guard is an anchor, a word boundary or a lookaround.

ghost use Rattle.std.specs.Prelude.{◌≡◌, ◌⊎◌, ℕ, ◌<◌, Bool, true, false, if◌then◌else◌, List, [], length, Option, Some, IfSome, Result, Ok, Err};
ghost use Rattle.std.proofs.Math.Bool.{xor};
ghost use Rattle.rl_ranges.specs.declared.universe.Universe.{Universe};
ghost use Rattle.rl_ranges.specs.Text.{code_count};
ghost use Rattle.rl_syntax.specs.declared.span.Span.{Span};
ghost use Rattle.rl_syntax.specs.declared.anchors.Guard.{Guard};
ghost use Rattle.rl_syntax.specs.Guards.{holds};
ghost use Rattle.rl_syntax.specs.declared.pattern.Pattern.{Pattern};
ghost use Rattle.rl_syntax.specs.declared.re.Mode.{Mode};
ghost use Rattle.rl_syntax.specs.Pattern.{body_of, pattern_tree};
ghost use Rattle.rl_syntax.specs.Tree.{guard, has_look};
ghost use Rattle.rl_syntax.specs.Lowering.{lowered};
ghost use Rattle.rl_syntax.specs.SameSpans.{SameSpans};
ghost use Rattle.rl_pattern.specs.declared.flags.Flags.{Flags};
ghost use Rattle.rl_pattern.specs.declared.parsing.PatError.{PatError};
ghost use Rattle.rl_pattern.specs.declared.parsing.PatError.TheVariants as error;
ghost use Rattle.rl_pattern.specs.Tree.{Whole, SyntaxNode, lookaround};
ghost use Rattle.rl_pattern.specs.LeafCodes.{is_text};
ghost use Rattle.rl_pattern.specs.Looks.{holds_beside};
ghost use Rattle.rl_pattern.specs.Found.{looks_to, has_dollar, tests_a_side};
ghost use Rattle.rl_pattern.specs.Shape.{look_shape};
ghost use Rattle.rl_pattern.specs.Grammar.{Spells};
ghost use Rattle.rl_pattern.specs.Parsed.{IsParsed};
ghost use Rattle.rl_pattern.specs.Beyond.{Dollar, IsParsedBeyond};
ghost use Rattle.rl_pattern.specs.internal.Meeting.{Thinned};
ghost use Rattle.rl_pattern.specs.internal.Left.{LeftWhole};
ghost use Rattle.rl_pattern.specs.Cut.{remaining};
ghost use Rattle.rl_pattern.specs.Suggested.{among, no_span, may_go, holds_guard, branches_in, merged_in, text_of, without};
ghost use Rattle.rl_pattern.specs.Reread.{IsRemaining, IsReread};
ghost use Rattle.rl_pattern.specs.Placed.{ArePlaced};
ghost use Rattle.rl_pattern.specs.SameAnswer.{IsSameAnswer, IsSamePattern};

/// States that the grammar is unambiguous: under the flags of a call, codes spell at most one syntax tree.
pub fn codes_spell_one_tree()
    ensures { (call : Flags) (text : Bool) (w : List ℕ) (p q : Whole) → Spells call text w p → Spells call text w q → p ≡ q }
{}

/// States that parsing has only one result for given codes, flags and universe, except that it may run out of memory. Two
/// results are the same if they are the same error, or the same pattern with its sets compared by the codes that they contain.
pub fn parsed_once()
    ensures { (flags : Flags) (u : Universe) (w : List ℕ) (r s : Result Pattern PatError) → IsParsed flags u w r → IsParsed flags u w s
        → (r ≡ Err error.OutOfMemory) ⊎ ((s ≡ Err error.OutOfMemory) ⊎ IsSameAnswer r s) }
{}

/// States that the wider grammar extends the narrower one. If `parse` returns a pattern, `parse_beyond` returns the same
/// pattern, whatever becomes of a `$`, unless it runs out of memory.
pub fn beyond_extends()
    ensures { (dollar : Dollar) (flags : Flags) (u : Universe) (w : List ℕ) (found : Pattern) (r : Result Pattern PatError)
        → IsParsed flags u w (Ok found) → IsParsedBeyond dollar flags u w r
        → (r ≡ Err error.OutOfMemory) ⊎ ((new : Pattern) × (r ≡ Ok new) × IsSamePattern found new) }
{}

/// States what a lookaround that is read stands for. All parts of its body look to one side of a place, behind it or ahead,
/// and it becomes a guard that looks there. The guard holds if the body holds with what is on that side, which is a character
/// of the universe or, at that end of the text, none. If the lookaround is negated, the guard holds if the body doesn't. A
/// body with a `$` without MULTILINE holds before each line feed, so nothing depends on whether the line feed ends the text.
pub fn looks_mean_their_bodies()
    ensures guard { (u : Universe) (place : Span) (behind negated : Bool) (p : SyntaxNode)
        → (g : Guard) × (lowered (look_shape u place (lookaround behind negated) p) ≡ guard g)
        × ((before next seen : Option ℕ) → seen ≡ (if looks_to (is_text u) behind true p then before else next) → IfSome seen (λ c. c < code_count u)
        → holds g before next ≡ xor negated (holds_beside u p seen)) }
    ensures side { (text behind : Bool) (p : SyntaxNode) → tests_a_side text behind p ≡ true → looks_to text behind (looks_to text behind true p) p ≡ true }
    ensures line_feed { (u : Universe) (behind : Bool) (p : SyntaxNode) → tests_a_side (is_text u) behind p ≡ true → has_dollar p ≡ true
        → holds_beside u p (Some 10) ≡ true }
{}

/// States that the tree of a pattern that `parse` returns has no lookaround, in any mode.
pub fn parsed_holds_no_look()
    ensures { (flags : Flags) (u : Universe) (w : List ℕ) (found : Pattern) (mode : Mode) → IsParsed flags u w (Ok found)
        → has_look (pattern_tree found mode) ≡ false }
{}

/// States that the spans listed for a suggestion lie in the pattern and are in ascending order: those of all branches, and
/// those of the quantifiers that are removed once some branches are dropped. Here ascending means by where they begin.
pub fn spans_lie_in_the_codes()
    ensures branches { (flags : Flags) (u : Universe) (w : List ℕ) (found : Pattern) → IsParsed flags u w (Ok found)
        → ArePlaced (length w) (branches_in (body_of found)) }
    ensures quantifiers { (flags : Flags) (u : Universe) (w : List ℕ) (found : Pattern) (dropped : List Span) → IsParsed flags u w (Ok found)
        → ArePlaced (length w) (merged_in (remaining (among dropped) no_span (body_of found))) }
{}

/// States that spelling is local. If some codes of a pattern are removed, and the codes that become neighbors may be
/// neighbors, the remaining codes spell what is left of the syntax tree, under the same flags.
pub(crate) fn left_is_spelled()
    ensures { (call : Flags) (text : Bool) (w v : List ℕ) (kept : ℕ → Bool) (g : ℕ → ℕ) (p : Whole) → Thinned w v kept g
        → LeftWhole text w kept g call p → Spells call text v p }
{}

/// States that the text of a suggestion can be parsed, if the dropped branches may be dropped and none is dropped from a
/// pattern with guards. The result is the pattern without the dropped branches and the removed quantifiers, and parsing gives
/// no other result unless it runs out of memory. Removing the quantifiers doesn't change which positions of a text the pattern
/// spans.
pub fn right_texts_are_read()
    ensures pattern { (flags : Flags) (u : Universe) (w : List ℕ) (found : Pattern) (dropped : List Span) → IsParsed flags u w (Ok found)
        → may_go (among dropped) (body_of found) ≡ true → (holds_guard (body_of found) ≡ true → dropped ≡ [])
        → (new : Pattern) × IsParsed flags u (text_of (body_of found) dropped (merged_in (remaining (among dropped) no_span (body_of found))) w) (Ok new)
        × IsRemaining (among dropped) (among (merged_in (remaining (among dropped) no_span (body_of found)))) found new }
    ensures reads { (flags : Flags) (u : Universe) (w : List ℕ) (found : Pattern) (dropped : List Span) → IsParsed flags u w (Ok found)
        → may_go (among dropped) (body_of found) ≡ true → (holds_guard (body_of found) ≡ true → dropped ≡ [])
        → (r : Result Pattern PatError) → IsParsed flags u (text_of (body_of found) dropped (merged_in (remaining (among dropped) no_span (body_of found))) w) r
        → IsReread (among dropped) (among (merged_in (remaining (among dropped) no_span (body_of found)))) found r }
    ensures spans { (flags : Flags) (u : Universe) (w : List ℕ) (found : Pattern) (dropped : List Span) → IsParsed flags u w (Ok found)
        → may_go (among dropped) (body_of found) ≡ true → (holds_guard (body_of found) ≡ true → dropped ≡ [])
        → SameSpans (lowered (remaining (among dropped) (among (merged_in (remaining (among dropped) no_span (body_of found)))) (body_of found))) (without dropped (body_of found)) }
{}
