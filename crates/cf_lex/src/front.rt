//! The piece at the front of a text.
ghost use Rattle.std.specs.Prelude.{◌≡◌, ◌+◌, ◌^◌, ◌<◌, ◌≤◌, length};
ghost use Rattle.cf_lex.specs.Front.{front_of, sign_of, long_of, IsWithin};

use crate::bytes::{comment_len, letter, long_sign, longest_sign, short_sign, white, word_len};
use crate::digits::{digit, digits_len};
use cf_tree::Edition;

/// What stands at the front of a text, with its number of bytes: white space or a comment, a token, or nothing.
#[derive(Clone, Copy)]
pub(crate) enum Piece {
    Skip(usize),
    Literal(usize),
    Word(usize),
    Sign(usize),
    Bad,
}

/// The piece at the front of a text of this first byte and this rest.
pub(crate) fn front(edition: Edition, first: u8, rest: &[u8]) -> Piece
    requires { length rest.now < 2 ^ 32 }
    ensures found { result ≡ front_of edition first rest.now }
    ensures size { IsWithin (length rest.now + 1) result }
{
    if white(first) {
        Piece::Skip(1)
    } else if first == b'#' {
        Piece::Skip(1 + comment_len(rest))
    } else if digit(first) {
        Piece::Literal(1 + digits_len(rest))
    } else if letter(first) {
        Piece::Word(1 + word_len(rest))
    } else {
        sign_front(edition, first, rest)
    }
}

fn sign_front(edition: Edition, first: u8, rest: &[u8]) -> Piece
    ensures found { result ≡ sign_of edition first rest.now }
    ensures size { IsWithin (length rest.now + 1) result }
{
    match rest {
        [second, more @ ..] if long_sign(first, *second) => long_front(
            edition, first, *second, more,
        ),
        _ => if short_sign(first) {
            Piece::Sign(1)
        } else {
            Piece::Bad
        },
    }
}

// The longest sign that begins with a sign of two bytes.
fn long_front(edition: Edition, first: u8, second: u8, more: &[u8]) -> Piece
    ensures found { result ≡ long_of edition first second more.now }
    ensures size { IsWithin (length more.now + 2) result }
{
    match edition {
        Edition::Two => Piece::Sign(2),
        Edition::Three => match more {
            [third, ..] if longest_sign(first, second, *third) => Piece::Sign(3),
            _ => Piece::Sign(2),
        },
    }
}
