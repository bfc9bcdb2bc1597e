//! Repeat counts in braces.

ghost use Rattle.std.specs.Prelude.{◌≡◌, [], Some};
ghost use Rattle.rl_pattern.specs.Codes.{count_of};
ghost use Rattle.rl_pattern.specs.internal.Views.{part_next, part_rest};

use crate::escape::with_digit;
use crate::lex::CountPart;
use crate::tree::Count;

/// Returns the state of the count after one more digit or comma, or `None` if it can't continue the count.
fn count_next(part: CountPart, code: u32) -> Option<CountPart>
    ensures { result ≡ part_next part code }
{
    let digit = code.saturating_sub('0' as u32);
    match part {
        CountPart::Least(least) => {
            if code == ',' as u32 {
                Some(CountPart::Upper(least))
            } else {
                Some(CountPart::Least(with_digit(10, least, digit)))
            }
        }
        CountPart::Upper(least) => {
            if code == ',' as u32 {
                None
            } else {
                Some(CountPart::Most(least, with_digit(10, 0, digit)))
            }
        }
        CountPart::Most(least, most) => {
            if code == ',' as u32 {
                None
            } else {
                Some(CountPart::Most(least, with_digit(10, most, digit)))
            }
        }
    }
}

/// Returns the count that has been read if its text ends here.
fn count_at_end(part: CountPart) -> Count
    ensures { Some result ≡ part_rest part [] }
{
    match part {
        CountPart::Least(least) => Count {
            least,
            most: Some(least),
        },
        CountPart::Upper(least) => Count { least, most: None },
        CountPart::Most(least, most) => Count {
            least,
            most: Some(most),
        },
    }
}

/// Returns the count that a text of digits and commas between braces spells, or `None` if it spells none, like the empty text
/// or `1,2,3`.
#[tactic(auto, unfolding(crate::specs::Codes::count_of))]
pub(crate) fn count_of(text: &[u32]) -> Option<Count>
    ensures { result ≡ count_of text.now }
{
    if text.is_empty() {
        return None;
    }
    let mut part = CountPart::Least(0);
    for code in text {
        match count_next(part, *code) {
            None => return None,
            Some(next) => part = next,
        }
    }
    Some(count_at_end(part))
}
