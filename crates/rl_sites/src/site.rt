//! Sites: the calls of the module `re` whose first argument begins with a run of literals. These are the calls that are
//! judged.
use crate::Call;
use rl_lists::Items;
use rl_pattern::Flags;

/// The flags of the call of a site, as far as the source shows them.
#[derive(Clone, Copy, Debug, PartialEq, Eq)]
pub enum SiteFlags {
    /// The call has exactly these flags: its arguments set them by names of the module's flags, such as `re.I | re.M`, or by
    /// `0`. None is set if no argument gives flags.
    Known(Flags),
    /// The flags aren't known: the literals aren't the whole first argument ([`Site::whole`] is false), an argument begins
    /// with `*`, there are two arguments `flags`, or the flags are given by another expression, such as a variable.
    Unknown,
}

/// A call of the module `re` whose first argument begins with a run of literals.
#[derive(Clone, Copy, Debug, PartialEq, Eq)]
pub struct Site {
    /// The function that is called.
    pub call: Call,
    /// The index of the first literal among the tokens of the source, counted from 0. Comments are tokens too.
    pub first: u32,
    /// The number of tokens from the first literal of the run to the last one, including comments between them.
    pub count: u32,
    /// Whether the literals are the whole argument, which they are if `,` or `)` follows them.
    pub whole: bool,
    /// The flags of the call.
    pub flags: SiteFlags,
}

/// The sites of a source, by increasing `first`.
pub type SiteList = Items<Site>;
