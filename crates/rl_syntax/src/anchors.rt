//! Anchors, and the guards that trees keep of them, of word boundaries and of lookarounds of one character.

ghost use Rattle.std.specs.Prelude.{◌≡◌, IfOk};

use rl_lists::OutOfMemory;
use rl_ranges::CodeSet;

/// An anchor as it is written.
#[derive(Clone, Copy)]
pub enum AnchorKind {
    /// `^`.
    Caret,
    /// `\A`.
    TextStart,
    /// `$`.
    Dollar,
    /// `\Z`.
    TextEnd,
}

/// The anchors at the end of a pattern.
#[derive(Clone, Copy, PartialEq, Eq)]
pub enum Trail {
    /// There are none.
    None,
    /// Only `$` without MULTILINE. It also matches before a line feed that ends the text.
    Dollar,
    /// `\Z`, possibly along with `$`.
    End,
}

/// A test of a position in a text. It reads no character.
#[derive(Drop)]
pub enum Guard {
    /// The text starts here: `\A`, or `^` without MULTILINE.
    Start,
    /// A line starts here: `^` with MULTILINE.
    LineStart,
    /// A line ends here: `$` with MULTILINE.
    LineEnd,
    /// The text ends here: `\Z`.
    TextEnd,
    /// A word starts or ends here: `\b`. If the flag is `true`, words are ASCII words.
    Word(bool),
    /// No word starts or ends here: `\B`. If the flag is `true`, words are ASCII words.
    NotWord(bool),
    /// A lookaround of one character, such as `(?=[ab])`: the set holds the character before the position, if `behind` is
    /// set, or the one after it. If `negated` is set, there is no such character, or the set doesn't hold it.
    Look {
        behind: bool,
        negated: bool,
        set: CodeSet,
    },
}

impl Guard {
    /// Returns a copy of the guard. Allocates no memory.
    ///
    /// # Errors
    /// [`OutOfMemory`] if there are too many copies of the guard's set.
    pub fn copy(&self) -> Result<Guard, OutOfMemory>
        ensures { IfOk result (λ g. g ≡ self.now) }
    {
        match self {
            Guard::Start => Ok(Guard::Start),
            Guard::LineStart => Ok(Guard::LineStart),
            Guard::LineEnd => Ok(Guard::LineEnd),
            Guard::TextEnd => Ok(Guard::TextEnd),
            Guard::Word(ascii) => Ok(Guard::Word(*ascii)),
            Guard::NotWord(ascii) => Ok(Guard::NotWord(*ascii)),
            Guard::Look {
                behind,
                negated,
                set,
            } => Ok(Guard::Look {
                behind: *behind,
                negated: *negated,
                set: set.copy()?,
            }),
        }
    }
}
