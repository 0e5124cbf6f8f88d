//! The lines within one piece.
ghost use Rattle.std.specs.Prelude.{◌≡◌, ℕ, ◌+◌, ◌^◌, ◌<◌, ◌≤◌, List, [], ◌∷◌, ◌++◌, length, map, IfOk, IfSome, MatchOption, drop};
ghost use Rattle.std.specs.List.{prefix_len};
ghost use Rattle.cf_io.specs.Segments.{is_in_line, ended_from, rest_from};
ghost use Rattle.cf_io.specs.Cut.{line_of, Keeps};
ghost use Rattle.cf_io.specs.Lines.{ended};

use crate::line::Line;
use cf_tree::{Bytes, NoMemory};
use std::alloc::Global;

/// How many bytes stand before the first line feed.
fn line_len(text: &[u8]) -> usize
    ensures count { result ≡ prefix_len is_in_line text.now }
    ensures size { result ≤ length text.now }
{
    let mut n = 0;
    'line: while n < text.len() && text[n] != b'\n' {
        n += 1;
    }
    n
}

/// The first line that ends in the text, and what follows its line feed. It may go on from the
/// beginning of a line.
pub(crate) fn split_line(text: &[u8]) -> Option<(&[u8], &[u8])>
    ensures lines { MatchOption result ((w : List ℕ) → ended_from w text.now ≡ [])
        (λ x. (w : List ℕ) → ended_from w text.now ≡ (w ++ x.0.now) ∷ ended_from [] x.1.now) }
    ensures size { IfSome result (λ x. length x.0.now + length x.1.now < length text.now) }
{
    let n = line_len(text);
    if n < text.len() {
        Some((&text[..n], &text[n + 1..]))
    } else {
        None
    }
}

/// The first line that ends in the text, and what follows its line feed.
pub fn first_line(text: &[u8]) -> Option<(&[u8], &[u8])>
    ensures lines { MatchOption result (ended text.now ≡ []) (λ x. ended text.now ≡ x.0.now ∷ ended x.1.now) }
    ensures less { IfSome result (λ x. length x.1.now < length text.now) }
{
    split_line(text)
}

// A line that goes on from one of `size` bytes, whose first bytes are `head`.
fn line_text(
    alloc: Global,
    head: &[u8],
    size: u64,
    segment: &[u8],
    limit: usize,
) -> Result<Line, NoMemory>
    requires { limit < 2 ^ 31 }
    ensures { IfOk result (λ l. (w : List ℕ) → Keeps limit head.now size w → l ≡ line_of limit (w ++ segment.now)) }
{
    if size.saturating_add(segment.len() as u64) <= limit as u64 {
        let mut bytes = head.to_vec(alloc)?;
        bytes.extend_from_slice(segment)?;
        Ok(Line::Text(Bytes { bytes }))
    } else {
        Ok(Line::TooLong)
    }
}

/// Adds the first line that ends within the piece, where it goes on from one of `size` bytes. The
/// others are those that end in the bytes which are lent.
pub(crate) fn first_ended<'p>(
    alloc: Global,
    head: &[u8],
    size: u64,
    piece: &'p [u8],
    limit: usize,
    out: &mut Vec<Line>,
) -> Result<&'p [u8], NoMemory>
    requires { limit < 2 ^ 31 }
    ensures { IfOk result (λ rest. (w : List ℕ) → Keeps limit head.now size w →
        out.new.items ++ map (line_of limit) (ended_from [] rest.now) ≡ out.old.items ++ map (line_of limit) (ended_from w piece.now)) }
{
    match split_line(piece) {
        Some((line, rest)) => {
            out.push(line_text(alloc, head, size, line, limit)?)?;
            Ok(rest)
        }
        None => Ok(&[]),
    }
}

/// Where the last line of the piece begins, if a line ends in it.
pub(crate) fn last_start(piece: &[u8]) -> Option<usize>
    ensures size { IfSome result (λ at. at ≤ length piece.now) }
    ensures rest { MatchOption result ((w : List ℕ) → rest_from w piece.now ≡ w ++ piece.now) (λ at. (w : List ℕ) → rest_from w piece.now ≡ drop at piece.now) }
{
    let mut at = piece.len();
    'back: while at > 0 {
        if piece[at - 1] == b'\n' {
            return Some(at);
        }
        at -= 1;
    }
    None
}
