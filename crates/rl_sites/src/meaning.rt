//! The meaning of a name. An alias is a name that an import of the source gives to the module `re` or to one of its members.
use crate::Call;
use crate::flag::Flag;

/// The meaning that the imports of a source give to a name.
#[derive(Clone, Copy)]
pub struct Meaning {
    /// Whether the name is an alias of the module.
    pub of_module: bool,
    /// The function that the name is an alias of: the first in the order of [`Call`] if there are several, `None` if there is
    /// none.
    pub call: Option<Call>,
    /// The flag that the name is an alias of: the first in the order of [`Flag`] if there are several, `None` if there is
    /// none.
    pub flag: Option<Flag>,
}
