//! The usage text.
ghost use Rattle.std.specs.Prelude.{◌≡◌};
ghost use Rattle.rl_words.specs.Usage.{usage_text};

/// Returns the text to print if the words aren't a valid call. It has a line for each of the seven actions.
#[tactic(auto, unfolding(crate::specs::Usage::usage_text))]
pub fn usage_text() -> &'static str
    ensures { result.now ≡ usage_text }
{
    "\
usage: relint check [OPTIONS] PATH..
       relint class [OPTIONS] PATTERN
       relint cost [OPTIONS] PATTERN TEXT
       relint sample [OPTIONS] SEED COUNT
       relint prove [OPTIONS] PATTERN
       relint verify [OPTIONS] PATTERN FILE
       relint compare [OPTIONS] PATTERN PATTERN
"
}
