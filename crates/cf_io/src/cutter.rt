//! A cutter of lines.
ghost use Rattle.std.specs.Prelude.{◌≡◌, ℕ, ◌-◌, ◌^◌, ◌<◌, ◌≤◌, List, [], ◌++◌, length, take, map, Option, IfOk, OnOk, OnErr};
ghost use Rattle.cf_io.specs.Cut.{line_of, Keeps, Stands, new_lines, room_behind as the_room_behind, within as the_within};
ghost use Rattle.cf_io.specs.Limits.{line_limit};
ghost use Rattle.cf_io.specs.Lines.{ended, rest_of, last_of};
ghost use Rattle.cf_io.specs.Segments.{rest_from};

use crate::limits::longest_line;
use crate::line::Line;
use crate::segments::{first_ended, last_start};
use cf_tree::{Bytes, NoMemory};
use std::alloc::Global;
use std::marker::Model;

/// Cuts bytes that come in pieces into lines.
///
/// It keeps the first bytes of the unfinished line, up to the limit of a line, and no more.
#[derive(Drop)]
pub struct Cutter {
    alloc: Global,
    kept: Vec<u8>,
    size: u64,
    room: Option<u64>,
}

impl Model for Cutter {
    ghost use Rattle.cf_io.specs.Cut.{CutterState};

    ghost Value = { CutterState };

    ghost view = { λ c. record { kept = c.kept.items; length_so_far = c.size; room = c.room } };
}

impl Cutter {
    /// A Cutter that was fed nothing. It tells the lines that end within so many first bytes of the
    /// input, or all where there is no limit.
    pub fn new(alloc: Global, most: Option<u64>) -> Cutter
        ensures { Stands line_limit most result [] }
    {
        Cutter {
            alloc,
            kept: Vec::new(alloc),
            size: 0,
            room: most,
        }
    }

    /// Takes the next piece. Of the lines that end within it and within the limit of the input it adds
    /// the first. The others are those that end in the bytes which are lent.
    ///
    /// Where memory is wanted, the Cutter and the lines are as before.
    pub fn feed_first<'p>(
        &mut self,
        piece: &'p [u8],
        lines: &mut Vec<Line>,
    ) -> Result<&'p [u8], NoMemory>
        ensures stands { OnOk result ((most : Option ℕ) (bytes : List ℕ) → Stands line_limit most self.old bytes →
            Stands line_limit most self.new (bytes ++ piece.now)) }
        ensures lines { IfOk result (λ rest. (most : Option ℕ) (bytes : List ℕ) → Stands line_limit most self.old bytes →
            lines.new.items ++ map (line_of line_limit) (ended rest.now) ≡ lines.old.items ++ new_lines line_limit most bytes piece.now) }
        ensures err { OnErr result ((self.new ≡ self.old) × (lines.new.items ≡ lines.old.items)) }
    {
        self.feed_within(piece, lines, longest_line())
    }

    fn feed_within<'p>(
        &mut self,
        piece: &'p [u8],
        lines: &mut Vec<Line>,
        limit: usize,
    ) -> Result<&'p [u8], NoMemory>
        requires { limit < 2 ^ 31 }
        ensures stands { OnOk result ((most : Option ℕ) (bytes : List ℕ) → Stands limit most self.old bytes → Stands limit most self.new (bytes ++ piece.now)) }
        ensures lines { IfOk result (λ rest. (most : Option ℕ) (bytes : List ℕ) → Stands limit most self.old bytes →
            lines.new.items ++ map (line_of limit) (ended rest.now) ≡ lines.old.items ++ new_lines limit most bytes piece.now) }
        ensures err { OnErr result ((self.new ≡ self.old) × (lines.new.items ≡ lines.old.items)) }
    {
        let mut first = Vec::new(self.alloc);
        let rest = self.first_of(piece, &mut first, limit)?;
        lines.reserve(first.len())?;
        self.go_on(piece, limit)?;
        lines.append(&mut first).unwrap();
        Ok(rest)
    }

    // Adds the first of these lines. The others are those that end in the bytes which are lent.
    fn first_of<'p>(
        &self,
        piece: &'p [u8],
        lines: &mut Vec<Line>,
        limit: usize,
    ) -> Result<&'p [u8], NoMemory>
        requires { limit < 2 ^ 31 }
        ensures { IfOk result (λ rest. (most : Option ℕ) (bytes : List ℕ) → Stands limit most self.now bytes →
            lines.new.items ++ map (line_of limit) (ended rest.now) ≡ lines.old.items ++ new_lines limit most bytes piece.now) }
    {
        let front = within(self.room, piece);
        let rest = first_ended(self.alloc, &self.kept, self.size, front, limit, lines)?;
        Ok(rest)
    }

    fn go_on(&mut self, piece: &[u8], limit: usize) -> Result<(), NoMemory>
        ensures stands { OnOk result ((most : Option ℕ) (bytes : List ℕ) → Stands limit most self.old bytes → Stands limit most self.new (bytes ++ piece.now)) }
        ensures err { OnErr result (self.new ≡ self.old) }
    {
        self.size = next_rest(self.alloc, &mut self.kept, self.size, piece, limit)?;
        self.room = room_behind(self.room, piece.len());
        Ok(())
    }

    /// Adds the last line, where bytes stand after the last line feed.
    ///
    /// Where memory is wanted, the lines are as before.
    pub fn finish(self, lines: &mut Vec<Line>) -> Result<(), NoMemory>
        ensures ok { OnOk result ((most : Option ℕ) (bytes : List ℕ) → Stands line_limit most self bytes →
            lines.new.items ≡ lines.old.items ++ map (line_of line_limit) (last_of (rest_of bytes))) }
        ensures err { OnErr result (lines.new.items ≡ lines.old.items) }
    {
        finish_within(self, lines, longest_line())
    }
}

fn finish_within(cutter: Cutter, lines: &mut Vec<Line>, limit: usize) -> Result<(), NoMemory>
    requires { limit < 2 ^ 31 }
    ensures ok { OnOk result ((most : Option ℕ) (bytes : List ℕ) → Stands limit most cutter bytes →
        lines.new.items ≡ lines.old.items ++ map (line_of limit) (last_of (rest_of bytes))) }
    ensures err { OnErr result (lines.new.items ≡ lines.old.items) }
{
    if cutter.size == 0 {
        return Ok(());
    }
    let line = if cutter.size <= limit as u64 {
        Line::Text(Bytes { bytes: cutter.kept })
    } else {
        Line::TooLong
    };
    lines.push(line)?;
    Ok(())
}

// The bytes of the piece for which there is room.
fn within<'p>(room: Option<u64>, piece: &'p [u8]) -> &'p [u8]
    ensures { result.now ≡ the_within room piece.now }
{
    match room {
        None => piece,
        Some(room) => first_bytes(room, piece),
    }
}

fn first_bytes<'p>(room: u64, piece: &'p [u8]) -> &'p [u8]
    ensures { result.now ≡ take room piece.now }
{
    let count = room.min(piece.len() as u64);
    &piece[..count as usize]
}

// The room that is left behind so many bytes.
fn room_behind(room: Option<u64>, count: usize) -> Option<u64>
    ensures { result ≡ the_room_behind room count }
{
    match room {
        None => None,
        Some(room) => Some(room.saturating_sub(count as u64)),
    }
}

// Keeps the bytes that follow those of a line, as far as the limit goes.
fn extend(kept: &mut Vec<u8>, bytes: &[u8], limit: usize) -> Result<(), NoMemory>
    ensures ok { OnOk result ((w : List ℕ) → kept.old.items ≡ take limit w → kept.new.items ≡ take limit (w ++ bytes.now)) }
    ensures err { OnErr result (kept.new.items ≡ kept.old.items) }
{
    let room = limit.saturating_sub(kept.len()).min(bytes.len());
    kept.extend_from_slice(&bytes[..room])?;
    Ok(())
}

// What is kept of the last line behind a piece, and how many bytes it has.
fn next_rest(
    alloc: Global,
    kept: &mut Vec<u8>,
    size: u64,
    piece: &[u8],
    limit: usize,
) -> Result<u64, NoMemory>
    ensures ok { IfOk result (λ n. (w : List ℕ) → Keeps limit kept.old.items size w → Keeps limit kept.new.items n (rest_from w piece.now)) }
    ensures err { OnErr result (kept.new.items ≡ kept.old.items) }
{
    match last_start(piece) {
        None => {
            extend(kept, piece, limit)?;
            Ok(size.saturating_add(piece.len() as u64))
        }
        Some(at) => {
            let mut front = Vec::new(alloc);
            extend(&mut front, &piece[at..], limit)?;
            *kept = front;
            Ok(len_behind(piece, at))
        }
    }
}

// How many bytes stand from that place on.
fn len_behind(piece: &[u8], at: usize) -> u64
    requires { at ≤ length piece.now }
    ensures size { result ≡ length piece.now - at }
    ensures small { result < 2 ^ 64 }
{
    (piece.len() - at) as u64
}
