//! The names of the actions.

/// The name of an action, which is the first argument of a call, such as `check`.
#[derive(Clone, Copy)]
pub enum ActionName {
    /// `check`
    Check,
    /// `class`
    Class,
    /// `cost`
    Cost,
    /// `sample`
    Sample,
    /// `prove`
    Prove,
    /// `verify`
    Verify,
    /// `compare`
    Compare,
}
