//! The flags of a pattern.

ghost use Rattle.std.specs.Prelude.{◌≡◌, ◌&&◌, ◌||◌, not};
ghost use Rattle.rl_pattern.specs.Codes.{no_flags, with_letter, joined, scoped_flags};

/// The flags of a pattern, one for each of the letters `imsxauL` in the manual of Python's `re`.
#[derive(Clone, Copy, Debug, PartialEq, Eq)]
pub struct Flags {
    /// `i`: characters and ranges also match their other cases.
    pub ignore_case: bool,
    /// `m`: `^` and `$` also match at the start and end of each line.
    pub multiline: bool,
    /// `s`: `.` also matches a line feed.
    pub dot_all: bool,
    /// `x`: white space and comments with `#` between items are ignored.
    pub verbose: bool,
    /// `a`: named classes, word boundaries and letter case follow ASCII.
    pub ascii: bool,
    /// `u`: named classes, word boundaries and letter case follow Unicode, which is the default for a `str`.
    pub unicode: bool,
    /// `L`: named classes, word boundaries and letter case follow the locale. A pattern with this flag is refused.
    pub locale: bool,
}

/// Returns the flags of which none is set.
pub(crate) fn no_flags() -> Flags
    ensures { result ≡ no_flags }
{
    Flags {
        ignore_case: false,
        multiline: false,
        dot_all: false,
        verbose: false,
        ascii: false,
        unicode: false,
        locale: false,
    }
}

/// Returns the flags `letters` with the flag of the letter `code` set too. A code that isn't a flag letter sets none.
#[tactic(auto, unfolding(crate::specs::Codes::with_letter))]
pub(crate) fn with_letter(letters: Flags, code: u32) -> Flags
    ensures { result ≡ with_letter letters code }
{
    Flags {
        ignore_case: letters.ignore_case || code == 'i' as u32,
        multiline: letters.multiline || code == 'm' as u32,
        dot_all: letters.dot_all || code == 's' as u32,
        verbose: letters.verbose || code == 'x' as u32,
        ascii: letters.ascii || code == 'a' as u32,
        unicode: letters.unicode || code == 'u' as u32,
        locale: letters.locale || code == 'L' as u32,
    }
}

/// Returns the flags in force after a flag group with these letters at the front: a flag is set if it is set in either.
#[tactic(auto, unfolding(crate::specs::Codes::joined))]
pub(crate) fn joined(flags: Flags, letters: Flags) -> Flags
    ensures { result ≡ joined flags letters }
{
    Flags {
        ignore_case: flags.ignore_case || letters.ignore_case,
        multiline: flags.multiline || letters.multiline,
        dot_all: flags.dot_all || letters.dot_all,
        verbose: flags.verbose || letters.verbose,
        ascii: flags.ascii || letters.ascii,
        unicode: flags.unicode || letters.unicode,
        locale: flags.locale || letters.locale,
    }
}

/// Returns whether a flag of `imsx` is in force inside a group. `flag` says whether it is in force around the group, and `on`
/// and `off` whether its letter is before and after the `-`. If both are set, the flag is off.
fn turned(off: bool, on: bool, flag: bool) -> bool
    ensures { result ≡ (not off && (on || flag)) }
{
    !off && (on || flag)
}

/// Returns whether ASCII or UNICODE is in force inside a group. `flag` says whether it is in force around the group, `on`
/// whether the group has its letter, and `other` whether the group has the letter of the other one, which turns it off.
fn turned_by(on: bool, flag: bool, other: bool) -> bool
    ensures { result ≡ (on || (flag && not other)) }
{
    on || flag && !other
}

/// Returns the flags in force inside a group with the letters `on` before its `-` and `off` after it, if `flags` are in force
/// around it. Of `imsx`, a letter in both is off. The letter `a` turns UNICODE off unless `u` is there too, and `u` turns
/// ASCII off unless `a` is.
#[tactic(auto, unfolding(crate::specs::Codes::scoped_flags))]
pub(crate) fn scoped_flags(on: Flags, off: Flags, flags: Flags) -> Flags
    ensures { result ≡ scoped_flags on off flags }
{
    Flags {
        ignore_case: turned(off.ignore_case, on.ignore_case, flags.ignore_case),
        multiline: turned(off.multiline, on.multiline, flags.multiline),
        dot_all: turned(off.dot_all, on.dot_all, flags.dot_all),
        verbose: turned(off.verbose, on.verbose, flags.verbose),
        ascii: turned_by(on.ascii, flags.ascii, on.unicode),
        unicode: turned_by(on.unicode, flags.unicode, on.ascii),
        locale: on.locale || flags.locale,
    }
}
