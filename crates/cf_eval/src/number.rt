//! Numbers on a line.
ghost use Rattle.std.specs.Prelude.{◌≡◌, ◌+◌, ◌*◌, ◌-◌, ◌^◌, ◌<◌, IfSome};
ghost use Rattle.cf_lex.specs.Digits.{at_most, digits_value};
ghost use Rattle.cf_num.specs.Limit.{IsWithin};
ghost use Rattle.cf_eval.specs.Reading.{digits_at, negated, number_at, item_at, NumberRead};

use crate::runs::{after_spaces, is_blank};
use cf_lex::{digits_len, literal};

// The value with one more digit, where it has 64 bits.
#[inline(always)]
fn with_digit(n: u64, b: u8) -> Option<u64>
    ensures { IfSome result (λ m. m ≡ n * 10 + (b - 48)) }
{
    n.checked_mul(10)?
        .checked_add(u64::from(b.saturating_sub(b'0')))
}

// The value of a run of digits, where it has 64 bits.
fn narrow(digits: &[u8]) -> Option<u64>
    ensures { IfSome result (λ n. n ≡ digits_value digits.now) }
{
    let mut n = 0u64;
    for b in digits {
        n = with_digit(n, *b)?;
    }
    Some(n)
}

fn within(n: u128, limit: u128) -> Option<u128>
    ensures { result ≡ at_most limit n }
{
    if n <= limit { Some(n) } else { None }
}

// The value of a run of digits, or none where it passes the limit. Most have 64 bits.
fn value(digits: &[u8], limit: u128) -> Option<u128>
    ensures { result ≡ at_most limit (digits_value digits.now) }
{
    match narrow(digits) {
        Some(n) => within(u128::from(n), limit),
        None => literal(digits, limit),
    }
}

// The value of the digits at the front of a text, and the rest.
fn digits(text: &[u8], limit: u128) -> Option<(i128, &[u8])>
    requires { limit < 2 ^ 127 }
    ensures value { NumberRead result (digits_at limit text.now) }
    ensures fits { IfSome result (λ x. IsWithin x.0) }
{
    let n = digits_len(text);
    if n == 0 {
        return None;
    }
    let v = value(&text[..n], limit)? as i128;
    Some((v, &text[n..]))
}

// The negative of the value of the digits at the front of a text, and the rest.
fn negative(text: &[u8], limit: u128) -> Option<(i128, &[u8])>
    requires { limit < 2 ^ 127 }
    ensures value { NumberRead result (negated (digits_at limit text.now)) }
    ensures fits { IfSome result (λ x. IsWithin x.0) }
{
    match digits(text, limit) {
        None => None,
        Some((v, rest)) => Some((-v, rest)),
    }
}

/// The number at the front of a text, and the rest.
pub(crate) fn number(text: &[u8], limit: u128) -> Option<(i128, &[u8])>
    requires { limit < 2 ^ 127 }
    ensures value { NumberRead result (number_at limit text.now) }
    ensures fits { IfSome result (λ x. IsWithin x.0) }
{
    match text {
        [] => None,
        [b'-', rest @ ..] => negative(rest, limit),
        _ => digits(text, limit),
    }
}

/// The number that a text is, with spaces around it.
pub(crate) fn item(text: &[u8], limit: u128) -> Option<i128>
    requires { limit < 2 ^ 127 }
    ensures value { result ≡ item_at limit text.now }
    ensures fits { IfSome result IsWithin }
{
    match number(after_spaces(text), limit) {
        None => None,
        Some((z, rest)) => if is_blank(rest) { Some(z) } else { None },
    }
}
