//! Which edition of the language a source is of.
ghost use Rattle.std.specs.Prelude.{◌≡◌, ◌<◌, ◌≤◌, ◌^◌, ◌-◌, false, length, if◌then◌else◌};
ghost use Rattle.cf_tree.specs.declared.base.Edition.TheVariants.{Two, Three};
ghost use Rattle.cf_lex.specs.Editions.{IsOfEdition, behind_blanks as behind_blanks_of, begins_with_header, begins_with_three, edition_of as edition_of_text};

use crate::bytes::word_len;
use crate::digits::{digits_len, literal};
use crate::front::{Piece, front};
use cf_tree::Edition;

/// The edition of a source, which its first two tokens say. Bytes behind them do not matter.
pub fn edition_of(text: &[u8]) -> Edition
    requires { length text.now < 2 ^ 32 - 1 }
    ensures means { IsOfEdition result text.now }
    ensures is { result ≡ edition_of_text text.now }
{
    edition_by(header_stands(behind_blanks(text)))
}

// Edition 3 where there is a header.
fn edition_by(header: bool) -> Edition
    ensures { result ≡ (if header then Three else Two) }
{
    if header { Edition::Three } else { Edition::Two }
}

// Whether the header stands at the front of a text.
fn header_stands(text: &[u8]) -> bool
    requires { length text.now < 2 ^ 32 - 1 }
    ensures { result ≡ begins_with_header text.now }
{
    let size = word_len(text);
    &text[..size] == b"comfusy".as_slice() && three_stands(behind_blanks(&text[size..]))
}

// Whether a literal of value 3 stands at the front of a text.
fn three_stands(text: &[u8]) -> bool
    ensures { result ≡ begins_with_three text.now }
{
    match literal(&text[..digits_len(text)], 3) {
        Some(n) => n == 3,
        None => false,
    }
}

// The text behind white space and comments.
fn behind_blanks(text: &[u8]) -> &[u8]
    requires { length text.now < 2 ^ 32 - 1 }
    ensures is { result.now ≡ behind_blanks_of false text.now }
    ensures size { length result.now ≤ length text.now }
{
    let mut rest = text;
    'blanks: while !rest.is_empty() {
        match front(Edition::Two, rest[0], &rest[1..]) {
            Piece::Skip(size) => rest = &rest[size..],
            _ => return rest,
        }
    }
    rest
}
