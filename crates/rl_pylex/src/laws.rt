//! Laws on sources and their tokens. Each is the contract of a function that does nothing.
ghost use Rattle.rl_pylex.specs.Laws.{HasOneTokenList, HasNoFaultBeside, HasOneFault, HasTokensInOrder, HasLiteralTexts, HasLiteralsAlone};

/// Proves that a source never has two answers: it doesn't have two token lists, a token list and a fault, or two faults.
/// Running out of memory isn't counted as a fault of the source.
pub fn one_answer()
    ensures one_list { HasOneTokenList }
    ensures no_fault { HasNoFaultBeside }
    ensures one_fault { HasOneFault }
{}

/// Proves that tokens are in order within the source, that the text of a literal token is a literal by itself, and that a
/// literal by itself, if it is UTF-8 and has at most [`MOST_BYTES`](rl_lists::MOST_BYTES) bytes, is a source with one token.
pub fn token_texts()
    ensures in_order { HasTokensInOrder }
    ensures literals { HasLiteralTexts }
    ensures alone { HasLiteralsAlone }
{}
