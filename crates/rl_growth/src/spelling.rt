//! Spelling words of letters as texts of sample codes. A word is a list of letters of the automaton; the sample code of a
//! letter is one of its codes.

ghost use Rattle.std.specs.Prelude.{◌≡◌, ◌<◌, map, All, IfOk};
ghost use Rattle.rl_prio.specs.Automaton.{letters_count};
ghost use Rattle.rl_pairs.specs.Families.{spelled, Spells};
ghost use Rattle.rl_growth.specs.FamilyWords.{AreLetters};

use crate::words::FamilyWords;
use rl_lists::{Codes, Items, OutOfMemory, Word};
use rl_prio::Prio;
use rl_syntax::{Family, Texts};
use std::alloc::Global;

/// Returns the text of the sample codes of a word's letters.
fn spell(alloc: Global, a: &Prio, word: &[u32]) -> Result<Codes, OutOfMemory>
    requires { All (λ letter. letter < letters_count a.now) word.now }
    ensures { IfOk result (λ text. text ≡ spelled a.now word.now) }
{
    let letters = a.letters();
    let mut codes = Items::new(alloc);
    for letter in word {
        codes.push(letters.sample(*letter))?;
    }
    Ok(codes)
}

/// Returns the texts of the sample codes of the words' letters.
fn spell_all(alloc: Global, a: &Prio, words: &[Word]) -> Result<Texts, OutOfMemory>
    requires { AreLetters a.now words.now }
    ensures { IfOk result (λ texts. texts ≡ map (spelled a.now) words.now) }
{
    let mut texts = Items::new(alloc);
    for word in words {
        texts.push(spell(alloc, a, word.as_slice())?)?;
    }
    Ok(texts)
}

/// Returns the family whose heads and pumps are the sample codes of the letters of the given words. The words must consist of
/// letters other than the end letter, which has no sample.
///
/// # Errors
/// [`OutOfMemory`] if there is not enough memory for the texts.
pub fn family_of(alloc: Global, a: &Prio, words: &FamilyWords) -> Result<Family, OutOfMemory>
    requires heads { AreLetters a.now words.now.heads }
    requires pumps { AreLetters a.now words.now.pumps }
    ensures { IfOk result (λ f. Spells a.now f words.now.heads words.now.pumps) }
{
    let heads = spell_all(alloc, a, words.heads.as_slice())?;
    let pumps = spell_all(alloc, a, words.pumps.as_slice())?;
    Ok(Family { heads, pumps })
}
