//! How two patterns are related, and the lines that `compare` writes about it. The texts that the patterns match are in three
//! regions: `first` for those that only the first matches, `second` for those that only the second matches, and `both`. A set
//! pair is a set of states of the first automaton with a set of states of the second. A search over the set pairs looks for a
//! text of each region, up to a limit of set pairs.
ghost use Rattle.std.specs.Prelude.{◌≡◌, ◌++◌, Some, IfOk, IfSome, OnOk, codes};
ghost use Rattle.std.specs.String.{string_bytes};
ghost use Rattle.rl_ranges.specs.Text.{IsText};
ghost use Rattle.rl_ranges.specs.declared.universe.Universe.TheVariants.{Str};
ghost use Rattle.rl_lint.specs.internal.Compared.{AreTexts};
ghost use Rattle.rl_lint.specs.CompareEnding.{compared_text, region_line, relation_name, relation_of, is_difference};

use rl_compare::Compared;
use rl_lists::{Bytes, Codes, OutOfMemory};
use rl_pystr::quote;
use rl_syntax::{MOST_SET_PAIRS, Universe};
use std::alloc::Global;

/// How the texts that two patterns match are related.
#[derive(Clone, Copy)]
pub enum Relation {
    /// Each pattern matches a text that the other doesn't match, and they share a text.
    Overlapping,
    /// The limit of set pairs was exceeded, so the relation wasn't decided. The line that `compare` writes says `passed over`.
    Exceeded,
    /// Both patterns match the same texts.
    Equal,
    /// The second pattern matches every text that the first matches, and others.
    Included,
    /// The first pattern matches every text that the second matches, and others.
    Includes,
    /// The patterns share no text.
    Disjoint,
}

impl Relation {
    /// Returns the relation that these texts show: `Overlapping` if all three regions have a text; otherwise `Exceeded` if not
    /// all set pairs were looked at; otherwise `Equal`, `Included` or `Includes` if neither of the first two regions has a
    /// text, or if only the first or only the second has none; otherwise `Disjoint`.
    pub fn of(compared: &Compared) -> Relation
        ensures { result ≡ relation_of compared.now }
    {
        let first = compared.first.is_some();
        let second = compared.second.is_some();
        if first && second && compared.both.is_some() {
            Relation::Overlapping
        } else if compared.more {
            Relation::Exceeded
        } else if !first && !second {
            Relation::Equal
        } else if !first {
            Relation::Included
        } else if !second {
            Relation::Includes
        } else {
            Relation::Disjoint
        }
    }

    /// Returns the relation's name in the line that `compare` writes.
    fn name(self, alloc: Global) -> Result<String, OutOfMemory>
        ensures { IfOk result (λ name. string_bytes name ≡ relation_name self) }
    {
        let name = match self {
            Relation::Overlapping => "overlapping",
            Relation::Exceeded => {
                return Ok(format!(in alloc; "passed over {MOST_SET_PAIRS}")?);
            }
            Relation::Equal => "equal",
            Relation::Included => "included",
            Relation::Includes => "includes",
            Relation::Disjoint => "disjoint",
        };
        let name = String::from_str(alloc, name)?;
        Ok(name)
    }

    /// Returns whether the relation is a finding, because the patterns were found not to match the same texts: true for every
    /// relation except `Equal` and `Exceeded`.
    pub fn is_difference(self) -> bool
        ensures { result ≡ is_difference self }
    {
        match self {
            Relation::Equal | Relation::Exceeded => false,
            _ => true,
        }
    }
}

/// Appends the line that shows a text of a region.
fn push_text(alloc: Global, out: &mut Vec<u8>, name: &str, text: &Codes) -> Result<(), OutOfMemory>
    requires { IsText Str text.now }
    ensures { OnOk result (out.new.items ≡ out.old.items ++ region_line name.now (Some text.now)) }
{
    out.extend_from_slice(b"  ")?;
    out.extend_from_slice(name.as_bytes())?;
    out.push(b' ')?;
    let literal = quote(alloc, text, Universe::Str)?;
    let appended = out.extend_from_slice(literal.as_slice());
    drop(literal);
    appended?;
    out.push(b'\n')?;
    Ok(())
}

/// Appends the line of a region, if a text of that region was found.
fn push_region(
    alloc: Global,
    out: &mut Vec<u8>,
    name: &str,
    text: &Option<Codes>,
) -> Result<(), OutOfMemory>
    requires { IfSome text.now (IsText Str) }
    ensures { OnOk result (out.new.items ≡ out.old.items ++ region_line name.now text.now) }
{
    match text {
        Some(text) => push_text(alloc, out, name, text),
        None => Ok(()),
    }
}

/// Appends the end of the first line, and the lines of the three regions.
fn push_regions(alloc: Global, out: &mut Vec<u8>, compared: &Compared) -> Result<(), OutOfMemory>
    requires { AreTexts compared.now }
    ensures { OnOk result (out.new.items ≡ out.old.items ++ (codes "\n" ++ (region_line (codes "first") compared.now.first
        ++ (region_line (codes "second") compared.now.second ++ region_line (codes "both") compared.now.both)))) }
{
    out.push(b'\n')?;
    push_region(alloc, out, "first", &compared.first)?;
    push_region(alloc, out, "second", &compared.second)?;
    push_region(alloc, out, "both", &compared.both)
}

/// Returns the lines on the result of a comparison: the relation, and then a line for each region that has a text, in the
/// order `first`, `second` and `both`. `relation` must be the one that `compared` shows (`Relation::of`), and the texts of the
/// regions must consist of code points of `str`.
///
/// # Errors
/// [`OutOfMemory`] if memory runs out.
pub fn compared_text(
    alloc: Global,
    relation: Relation,
    compared: &Compared,
) -> Result<Bytes, OutOfMemory>
    requires relation { relation ≡ relation_of compared.now }
    requires texts { AreTexts compared.now }
    ensures { IfOk result (λ text. text ≡ compared_text compared.now) }
{
    let mut out = relation.name(alloc)?.into_bytes();
    push_regions(alloc, &mut out, compared)?;
    Ok(Bytes::from_vec(out))
}
