//! The line of a place, and the line below it with a caret under the place.
ghost use Rattle.std.specs.Prelude.{◌≡◌, flat_map, ◌==◌, if◌then◌else◌, ◌≤◌, ◌++◌, ◌-◌, length, map, take, drop, IfOk, OnOk};
ghost use Rattle.std.specs.List.{prefix_len};
ghost use Rattle.cf_help.specs.Lines.{is_in_line, behind_lines as behind_lines_of, line_of as line_of_text, bytes_at as bytes_at_of, without_return as without_return_of, shown_byte as shown_byte_of, shown as shown_of, below, caret_line as caret_line_of, is_shown as is_shown_of, source_lines as source_lines_of, same_place as same_place_of};

use crate::pieces::joined;
use cf_tree::{NoMemory, Place, Text};
use std::alloc::Global;

// The most bytes of a line that is shown.
const MOST_SHOWN: usize = 200;

/// Whether two places are the same.
pub fn same_place(a: Place, b: Place) -> bool
    ensures { result ≡ same_place_of a b }
{
    a.line == b.line && a.column == b.column
}

// The bytes behind so many line feeds.
fn behind_lines(text: &[u8], count: u32) -> &[u8]
    ensures { result.now ≡ behind_lines_of count text.now }
{
    let mut left = count;
    let mut rest = text;
    while let Some((byte, more)) = rest.split_first() {
        if left == 0 {
            return rest;
        }
        left = fewer(left, *byte);
        rest = more;
    }
    rest
}

// One fewer at a line feed.
fn fewer(left: u32, byte: u8) -> u32
    ensures { result ≡ (if byte == 10 then left - 1 else left) }
{
    if byte == b'\n' {
        left.saturating_sub(1)
    } else {
        left
    }
}

// The number of bytes before the next line feed.
fn line_len(text: &[u8]) -> usize
    ensures count { result ≡ prefix_len is_in_line text.now }
    ensures size { result ≤ length text.now }
{
    let mut n = 0;
    'line: while n < text.len() && text[n] != b'\n' {
        n += 1;
    }
    n
}

/// The first bytes, as many as `count` where there are so many.
pub fn front(bytes: &[u8], count: usize) -> &[u8]
    ensures { result.now ≡ take count bytes.now }
{
    if count < bytes.len() {
        &bytes[..count]
    } else {
        bytes
    }
}

// The bytes behind the first ones, as many as `count`.
fn behind(bytes: &[u8], count: usize) -> &[u8]
    ensures { result.now ≡ drop count bytes.now }
{
    if count < bytes.len() {
        &bytes[count..]
    } else {
        &bytes[bytes.len()..]
    }
}

// How many columns stand before a place.
fn before(place: Place) -> usize
    ensures { result ≡ place.column - 1 }
{
    place.column.saturating_sub(1) as usize
}

// The line of a place, without its line feed.
fn line_of(text: &[u8], place: Place) -> &[u8]
    ensures { result.now ≡ line_of_text text.now place }
{
    let rest = behind_lines(text, place.line.saturating_sub(1));
    &rest[..line_len(rest)]
}

/// The bytes from a place on.
pub fn bytes_at(text: &[u8], place: Place) -> &[u8]
    ensures { result.now ≡ bytes_at_of text.now place }
{
    behind(
        behind_lines(text, place.line.saturating_sub(1)),
        before(place),
    )
}

// The line, but for a carriage return as its last byte.
fn without_return(line: &[u8]) -> &[u8]
    ensures { result.now ≡ without_return_of line.now }
{
    if line.is_empty() {
        return line;
    }
    let last = line.len() - 1;
    if line[last] == b'\r' {
        &line[..last]
    } else {
        line
    }
}

// A byte as it is shown.
fn shown_byte(byte: u8) -> u8
    ensures { result ≡ shown_byte_of byte }
{
    if byte < 32 && byte != b'\t' || byte == 127 {
        b'?'
    } else {
        byte
    }
}

/// Bytes as they are shown: `?` for those below 32, but for tabs, and for 127.
pub fn shown(alloc: Global, bytes: &[u8]) -> Result<Text, NoMemory>
    ensures { IfOk result (λ t. t ≡ shown_of bytes.now) }
{
    let bytes = bytes.iter().map(|byte| shown_byte(*byte)).collect(alloc)?;
    Ok(Text { bytes })
}

// What stands below a byte: a tab below a tab, nothing below one that goes on with a character, and
// else a space.
fn put_below(out: &mut Vec<u8>, byte: u8) -> Result<(), NoMemory>
    ensures { OnOk result (out.new.items ≡ out.old.items ++ below byte) }
{
    if byte == b'\t' {
        out.push(byte)?;
    } else if !(128 <= byte && byte <= 191) {
        out.push(b' ')?;
    }
    Ok(())
}

// What stands below bytes.
fn below_all(alloc: Global, bytes: &[u8]) -> Result<Text, NoMemory>
    ensures { IfOk result (λ t. t ≡ flat_map below bytes.now) }
{
    let mut out = Vec::new(alloc);
    for byte in bytes {
        put_below(&mut out, *byte)?;
    }
    Ok(Text { bytes: out })
}

// The line with a caret under a place of this line.
fn caret_line(alloc: Global, line: &[u8], place: Place) -> Result<Text, NoMemory>
    ensures { IfOk result (λ t. t ≡ caret_line_of line.now place) }
{
    let indent = below_all(alloc, front(line, before(place)))?;
    joined(alloc, &[&indent.bytes, b"^".as_slice()])
}

// Whether a line is told: not where it is empty or too long.
fn is_shown(row: &[u8]) -> bool
    ensures { result ≡ is_shown_of row.now }
{
    0 < row.len() && row.len() <= MOST_SHOWN
}

/// The line of a place and the caret line, each with its line feed; neither where the line is empty
/// or too long.
pub fn source_lines(alloc: Global, text: &[u8], place: Place) -> Result<Text, NoMemory>
    ensures { IfOk result (λ t. t ≡ source_lines_of text.now place) }
{
    let line = line_of(text, place);
    let row = without_return(line);
    if is_shown(row) {
        let row = shown(alloc, row)?;
        let caret = caret_line(alloc, line, place)?;
        joined(
            alloc,
            &[&row.bytes, b"\n".as_slice(), &caret.bytes, b"\n".as_slice()],
        )
    } else {
        joined(alloc, &[])
    }
}
