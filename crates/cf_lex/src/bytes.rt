//! Kinds of bytes, and runs of them.
ghost use Rattle.std.specs.Prelude.{◌≡◌, ◌+◌, ◌<◌, ◌≤◌, length};
ghost use Rattle.std.specs.List.{prefix_len};
ghost use Rattle.cf_lex.specs.Bytes.{is_white, is_letter, is_in_word, is_in_comment, is_short_sign, is_long_sign, is_longest_sign};

use crate::digits::digit;

/// Whether a byte is a space, a tab, a carriage return or a line feed.
pub(crate) fn white(b: u8) -> bool
    ensures { result ≡ is_white b }
{
    b == b' ' || b == b'\t' || b == b'\r' || b == b'\n'
}

/// Whether a byte is a letter or an underscore.
pub(crate) fn letter(b: u8) -> bool
    ensures { result ≡ is_letter b }
{
    b'A' <= b && b <= b'Z' || b'a' <= b && b <= b'z' || b == b'_'
}

/// Whether a byte goes on with a word: a letter, an underscore or a digit.
pub(crate) fn in_word(b: u8) -> bool
    ensures { result ≡ is_in_word b }
{
    letter(b) || digit(b)
}

/// Whether a byte is a sign by itself.
pub(crate) fn short_sign(b: u8) -> bool
    ensures { result ≡ is_short_sign b }
{
    match b {
        b'('
        | b')'
        | b'{'
        | b'}'
        | b'['
        | b']'
        | b','
        | b':'
        | b';'
        | b'='
        | b'<'
        | b'>'
        | b'!'
        | b'+'
        | b'-'
        | b'*' => true,
        _ => false,
    }
}

/// Whether two bytes are one sign.
pub(crate) fn long_sign(a: u8, b: u8) -> bool
    ensures { result ≡ is_long_sign a b }
{
    match b {
        b'=' => a == b'=' || a == b'!' || a == b'<' || a == b'>',
        b'&' => a == b'&',
        b'|' => a == b'|',
        _ => false,
    }
}

/// Whether three bytes are one sign, in edition 3.
pub(crate) fn longest_sign(a: u8, b: u8, c: u8) -> bool
    ensures { result ≡ is_longest_sign a b c }
{
    a == b'=' && b == b'=' && c == b'>'
}

/// The number of bytes at the front of `text` that go on with a word.
pub(crate) fn word_len(text: &[u8]) -> usize
    ensures count { result ≡ prefix_len is_in_word text.now }
    ensures size { result ≤ length text.now }
{
    let mut n = 0;
    'word: while n < text.len() && in_word(text[n]) {
        n += 1;
    }
    n
}

/// The number of bytes at the front of `text` that go on with a comment: those before the next line feed.
pub(crate) fn comment_len(text: &[u8]) -> usize
    ensures count { result ≡ prefix_len is_in_comment text.now }
    ensures size { result ≤ length text.now }
{
    let mut n = 0;
    'comment: while n < text.len() && text[n] != b'\n' {
        n += 1;
    }
    n
}
