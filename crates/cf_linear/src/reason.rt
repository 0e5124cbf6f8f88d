//! Why a choose is refused, in words.
ghost use Rattle.std.specs.Prelude.{◌≡◌};
ghost use Rattle.cf_linear.specs.Reasons.{kind_text, reason_text, refusal_text};

use crate::refusal::{LimitKind, Refusal};
use itoa::Buffer;

/// Words, or the name of a limit with its number: the three stand one behind the other.
#[derive(Clone, Copy)]
pub struct Reason<'a> {
    pub words: &'a [u8],
    pub gap: &'a [u8],
    pub count: &'a [u8],
}

/// Words without a number.
pub fn in_words(words: &'static [u8]) -> Reason<'static>
    ensures { reason_text result ≡ words.now }
{
    Reason {
        words,
        gap: b"".as_slice(),
        count: b"".as_slice(),
    }
}

// The name of what a limit counts.
fn kind_text(kind: &LimitKind) -> &'static [u8]
    ensures { result.now ≡ kind_text kind.now }
{
    match kind {
        LimitKind::Sets => b"Sets".as_slice(),
        LimitKind::Cases => b"Cases".as_slice(),
        LimitKind::Rows => b"Rows".as_slice(),
        LimitKind::Columns => b"Columns".as_slice(),
        LimitKind::Search => b"Search".as_slice(),
    }
}

/// Why a choose is refused; `count` takes the number of a limit.
pub fn refusal_reason<'a>(refusal: &Refusal, count: &'a mut Buffer) -> Reason<'a>
    ensures { reason_text result ≡ refusal_text refusal.now }
{
    match refusal {
        Refusal::Past => in_words(b"coefficient past 128 bits".as_slice()),
        Refusal::Limit { kind, number } => Reason {
            words: kind_text(kind),
            gap: b" ".as_slice(),
            count: count.format(*number).as_bytes(),
        },
    }
}
