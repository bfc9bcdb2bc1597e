//! The sites of a Python source: its calls of the module `re` whose first argument begins with a run of literals.
//!
//! [`sites`] takes a source with its tokens and returns a [`SiteList`]. A [`Site`] has the call, the tokens of the literals,
//! whether they are the whole argument, and the flags of the call. Only the imports of the source decide what a name means. A
//! site begins with an alias of the module, `.`, one of nine names and `(`, or with an alias of one of the nine functions and
//! `(`. Then comes `pattern=`, which is optional, and then the literals. Its other arguments give its flags, which are known
//! only if they are spelled with the names of the module's flags. [`has_no_sites`] is a prefilter: from the bytes, without a
//! token list, it tells that a source has no sites.
//!
//! # What is proved
//!
//! The sites are exactly those that the rules on imports, calls and flags give for the tokens, in order. Each run begins and
//! ends with a literal, holds only literals and comments, and ends before the next site's run begins. If [`has_no_sites`]
//! returns true, the source can be cut into tokens and has no sites; if it returns false, nothing is claimed.
//!
//! # Example
//!
//! ```
//! let source = b"import re as r\nr.match(\"ab\" 'c*')\n";
//! sites(alloc, source, &tokens)?; // one site: call Match, first 9, count 2, whole, no flags
//! has_no_sites(b"import os\nos.walk('a')\n"); // true
//! ```
//!
//! Read `specs/Sites.antt` first, then `specs/Imports.antt`, `specs/Names.antt`, `specs/Arguments.antt` and
//! `specs/Flags.antt`.
#![tactic(auto)]

mod absence;
mod arguments;
mod brackets;
mod call;
mod flag;
mod flags;
mod heads;
mod imports;
mod meaning;
mod names;
mod reading;
mod significant;
mod site;
mod terms;

pub use absence::has_no_sites;
pub use call::Call;
pub use reading::sites;
pub use site::{Site, SiteFlags, SiteList};
