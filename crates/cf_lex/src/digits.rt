//! Runs of digits and their values.
ghost use Rattle.std.specs.Prelude.{◌≡◌, ◌≤◌, length};
ghost use Rattle.std.specs.List.{prefix_len};
ghost use Rattle.cf_lex.specs.Bytes.{is_digit};
ghost use Rattle.cf_lex.specs.Digits.{at_most, digits_value};

/// Whether a byte is one of 0 to 9.
pub fn digit(b: u8) -> bool
    ensures { result ≡ is_digit b }
{
    b'0' <= b && b <= b'9'
}

/// How many digits the text begins with.
pub fn digits_len(text: &[u8]) -> usize
    ensures count { result ≡ prefix_len is_digit text.now }
    ensures size { result ≤ length text.now }
{
    let mut n = 0;
    'digits: while n < text.len() && digit(text[n]) {
        n += 1;
    }
    n
}

/// The value of a run of digits, or none where it passes the limit.
pub fn literal(digits: &[u8], limit: u128) -> Option<u128>
    ensures { result ≡ at_most limit (digits_value digits.now) }
{
    let mut n = 0u128;
    for b in digits {
        let d = u128::from(b.saturating_sub(b'0'));
        if limit < d || (limit - d) / 10 < n {
            return None;
        }
        n = n * 10 + d;
    }
    Some(n)
}
