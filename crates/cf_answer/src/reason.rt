//! Why steps are rejected, in words.
ghost use Rattle.std.specs.Prelude.{◌≡◌};
ghost use Rattle.cf_linear.specs.Reasons.{reason_text};
ghost use Rattle.cf_answer.specs.Texts.{why_text};

use cf_cert::Why;
use cf_linear::{Reason, in_words, refusal_reason};
use itoa::Buffer;

/// Why steps are rejected; `count` takes the number of a limit.
pub fn rejection_reason<'a>(why: &Why, count: &'a mut Buffer) -> Reason<'a>
    ensures { reason_text result ≡ why_text why.now }
{
    match why {
        Why::Unknown => in_words(b"not an unknown".as_slice()),
        Why::Factor => in_words(b"not invertible".as_slice()),
        Why::Single => in_words(b"not one unknown".as_slice()),
        Why::Held => in_words(b"held by an equation".as_slice()),
        Why::Exact => in_words(b"pair without coefficient 1".as_slice()),
        Why::Left => in_words(b"not finished".as_slice()),
        Why::Blocks => in_words(b"wrong blocks".as_slice()),
        Why::Code => in_words(b"code differs".as_slice()),
        Why::Refused(refusal) => refusal_reason(refusal, count),
    }
}
