// Limits of a search, in a project file or on the command line.
ghost use Rattle.std.specs.Prelude.{◌≡◌};
ghost use Rattle.version_range.specs.Number.{limit_of, signed_limit};

use crate::number::{is_count, number_of};
use plan_types::Limit;

/// The limit of a text, if it is a number. A negative number means no limit.
pub fn limit_of(text: &[u8]) -> Option<Limit>
    ensures { result ≡ limit_of text.now }
{
    match text {
        [] => None,
        [b'-', digits @ ..] => signed_limit(true, digits),
        digits => signed_limit(false, digits),
    }
}

fn signed_limit(negative: bool, digits: &[u8]) -> Option<Limit>
    ensures { result ≡ signed_limit negative digits.now }
{
    if !is_count(digits) {
        return None;
    }
    let number = number_of(digits);
    if negative && number > 0 {
        Some(Limit::Unlimited)
    } else {
        Some(Limit::At(u64::from(number)))
    }
}
