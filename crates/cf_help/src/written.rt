//! Tokens as they are written.
ghost use Rattle.std.specs.Prelude.{◌≡◌, ◌≤◌, length, if◌then◌else◌, IfOk};
ghost use Rattle.std.specs.List.{prefix_len};
ghost use Rattle.cf_lex.specs.Bytes.{is_digit as is_digit_of, is_letter as is_letter_of, is_in_word as is_in_word_of, is_long_sign as is_long_sign_of, is_longest_sign as is_longest_sign_of};
ghost use Rattle.cf_help.specs.Syntax.{length_of_two as length_of_two_of, sign_length as sign_length_of, written_length as written_length_of, written as written_of, dots as dots_of, told_token as told_token_of, found_token as found_token_of};

use crate::lines::front;
use crate::pieces::joined;
use cf_lex::digits_len;
use cf_tree::{NoMemory, Text};
use std::alloc::Global;

// The most bytes of a token that is told.
const MOST_TOLD: usize = 40;

fn is_letter(b: u8) -> bool
    ensures { result ≡ is_letter_of b }
{
    b'A' <= b && b <= b'Z' || b'a' <= b && b <= b'z' || b == b'_'
}

fn is_digit(b: u8) -> bool
    ensures { result ≡ is_digit_of b }
{
    b'0' <= b && b <= b'9'
}

fn is_in_word(b: u8) -> bool
    ensures { result ≡ is_in_word_of b }
{
    is_letter(b) || is_digit(b)
}

// The number of bytes at the front that go on with a word.
fn word_len(text: &[u8]) -> usize
    ensures count { result ≡ prefix_len is_in_word_of text.now }
    ensures size { result ≤ length text.now }
{
    let mut n = 0;
    'word: while n < text.len() && is_in_word(text[n]) {
        n += 1;
    }
    n
}

// The length of the longest sign.
fn sign_length(bytes: &[u8]) -> usize
    ensures { result ≡ sign_length_of bytes.now }
{
    match bytes {
        [] => 0,
        [_] => 1,
        [a, b] => length_of_two(*a, *b),
        [a, b, c, ..] => length_of_three(*a, *b, *c),
    }
}

fn is_long_sign(a: u8, b: u8) -> bool
    ensures { result ≡ is_long_sign_of a b }
{
    match b {
        b'=' => a == b'=' || a == b'!' || a == b'<' || a == b'>',
        b'&' => a == b'&',
        b'|' => a == b'|',
        _ => false,
    }
}

fn length_of_two(a: u8, b: u8) -> usize
    ensures { result ≡ length_of_two_of a b }
{
    if is_long_sign(a, b) { 2 } else { 1 }
}

fn is_longest_sign(a: u8, b: u8, c: u8) -> bool
    ensures { result ≡ is_longest_sign_of a b c }
{
    a == b'=' && b == b'=' && c == b'>'
}

fn length_of_three(a: u8, b: u8, c: u8) -> usize
    ensures { result ≡ (if is_longest_sign_of a b c then 3 else length_of_two_of a b) }
{
    if is_longest_sign(a, b, c) {
        3
    } else {
        length_of_two(a, b)
    }
}

// The length of the token at the front.
fn written_length(bytes: &[u8]) -> usize
    ensures { result ≡ written_length_of bytes.now }
{
    match bytes.split_first() {
        None => 0,
        Some((byte, _)) => if is_digit(*byte) {
            digits_len(bytes)
        } else if is_letter(*byte) {
            word_len(bytes)
        } else {
            sign_length(bytes)
        },
    }
}

// The token at the front, as it is written.
fn written(bytes: &[u8]) -> &[u8]
    ensures { result.now ≡ written_of bytes.now }
{
    front(bytes, written_length(bytes))
}

fn dots<'a>(token: &'a [u8]) -> &'a [u8]
    ensures { result.now ≡ dots_of token.now }
{
    if token.len() <= MOST_TOLD {
        b"".as_slice()
    } else {
        b"..".as_slice()
    }
}

fn told_token(alloc: Global, token: &[u8]) -> Result<Text, NoMemory>
    ensures { IfOk result (λ t. t ≡ told_token_of token.now) }
{
    joined(
        alloc,
        &[
            b"syntax: found '".as_slice(),
            front(token, MOST_TOLD),
            dots(token),
            b"'".as_slice(),
        ],
    )
}

/// What is told of the token at the front of these bytes, or of the end.
pub fn found_token(alloc: Global, bytes: &[u8]) -> Result<Text, NoMemory>
    ensures { IfOk result (λ t. t ≡ found_token_of bytes.now) }
{
    match bytes.split_first() {
        None => Text::from_str(alloc, "syntax: found the end of the text"),
        Some(_) => told_token(alloc, written(bytes)),
    }
}
