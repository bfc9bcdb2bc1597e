//! The law that a quoted text is read back. It is the contract of a function that does nothing.
ghost use Rattle.rl_pystr.specs.Laws.{IsQuotingReadBack};

/// Proves that the result of [`quote`](crate::quote), if it has at most 4,194,304 bytes, is a source with one token, a literal
/// whose value is the quoted text in the same universe.
pub fn read_back()
    ensures { IsQuotingReadBack }
{}
