//! Bytes at which no token begins.
ghost use Rattle.std.specs.Prelude.{◌≡◌, IfOk};
ghost use Rattle.cf_help.specs.BadBytes.{begins_with as begins_with_of, rows_of_signs, rows_of_marks, rows_of_others, bad_byte_help as bad_byte_help_of, found_byte as found_byte_of, found_first as found_first_of};
ghost use Rattle.cf_help.specs.Messages.{bad_byte_words as bad_byte_words_of};
ghost use Rattle.cf_help.specs.Rows.{first_fitting as first_fitting_of};
ghost use Rattle.cf_help.specs.StopView.{text_seen};
ghost use Rattle.cf_help.specs.WordsView.{words_of};

use crate::lines::bytes_at;
use crate::pieces::{help_text, joined, number_text};
use crate::rows::{first_fitting, row};
use crate::syntax::or_else;
use crate::words::FaultWords;
use cf_tree::{NoMemory, Place, Text};
use std::alloc::Global;

// Whether these bytes begin so.
fn begins_with(front: &[u8], bytes: &[u8]) -> bool
    ensures { result ≡ begins_with_of front.now bytes.now }
{
    let mut left = front;
    let mut rest = bytes;
    while let Some((a, more)) = left.split_first() {
        match rest.split_first() {
            None => return false,
            Some((b, behind)) => {
                if *a != *b {
                    return false;
                }
                left = more;
                rest = behind;
            }
        }
    }
    true
}

fn of_signs(bytes: &[u8]) -> Option<&'static [u8]>
    ensures { text_seen result ≡ first_fitting_of (rows_of_signs bytes.now) }
{
    first_fitting(&[
        row(begins_with(b"//", bytes), b"a comment begins with #"),
        row(
            begins_with(b"/", bytes),
            b"division is div(a, 2), and what is left over is mod(a, 2)",
        ),
        row(begins_with(b"%", bytes), b"what is left over is mod(a, 2)"),
        row(
            begins_with(b"^", bytes),
            b"there are no powers; write a product",
        ),
        row(
            begins_with(b"|", bytes),
            b"or is ||; that k divides a is written k divides a",
        ),
    ])
}

fn of_marks(bytes: &[u8]) -> Option<&'static [u8]>
    ensures { text_seen result ≡ first_fitting_of (rows_of_marks bytes.now) }
{
    first_fitting(&[
        row(begins_with(b"&", bytes), b"and is &&"),
        row(begins_with(b"~", bytes), b"not is !"),
        row(
            begins_with(b".", bytes),
            b"numbers are whole, and there are no ranges",
        ),
        row(
            begins_with(b"?", bytes),
            b"a choice between values is if p then a else b",
        ),
        row(
            begins_with(b"'", bytes),
            b"a name is made of letters, digits and _",
        ),
    ])
}

fn of_others(bytes: &[u8]) -> Option<&'static [u8]>
    ensures { text_seen result ≡ first_fitting_of (rows_of_others bytes.now) }
{
    first_fitting(&[
        row(begins_with(b"\"", bytes), b"there are no texts"),
        row(begins_with(b"\xe2\x89\xa4", bytes), b"write <="),
        row(begins_with(b"\xe2\x89\xa5", bytes), b"write >="),
        row(begins_with(b"\xe2\x89\xa0", bytes), b"write !="),
        row(
            begins_with(b"\xef\xbb\xbf", bytes),
            b"the file begins with a byte order mark; save it without one",
        ),
    ])
}

// The help for bytes at which no token begins.
fn bad_byte_help(bytes: &[u8]) -> Option<&'static [u8]>
    ensures { text_seen result ≡ bad_byte_help_of bytes.now }
{
    or_else(of_signs(bytes), or_else(of_marks(bytes), of_others(bytes)))
}

// A byte as it is, or its number where it is no visible one of ASCII.
fn found_byte(alloc: Global, byte: u8) -> Result<Text, NoMemory>
    ensures { IfOk result (λ t. t ≡ found_byte_of byte) }
{
    if 33 <= byte && byte <= 126 {
        joined(
            alloc,
            &[b"bad byte: found '".as_slice(), &[byte], b"'".as_slice()],
        )
    } else {
        let number = number_text(alloc, byte as u64)?;
        joined(alloc, &[b"bad byte: found byte ".as_slice(), &number.bytes])
    }
}

fn found_first(alloc: Global, bytes: &[u8]) -> Result<Text, NoMemory>
    ensures { IfOk result (λ t. t ≡ found_first_of bytes.now) }
{
    match bytes.split_first() {
        None => found_byte(alloc, 0),
        Some((byte, _)) => found_byte(alloc, *byte),
    }
}

/// What is told of a byte of a text at which no token begins.
///
/// # Errors
/// Want of memory alone.
pub fn bad_byte_words(alloc: Global, text: &[u8], place: Place) -> Result<FaultWords, NoMemory>
    ensures { IfOk result (λ w. words_of w ≡ bad_byte_words_of text.now place) }
{
    let bytes = bytes_at(text, place);
    let what = found_first(alloc, bytes)?;
    let help = help_text(alloc, bad_byte_help(bytes))?;
    Ok(FaultWords { what, help })
}
