//! The reader of tokens.
ghost use Rattle.std.specs.Prelude.{◌≡◌, ℕ, List, ◌+◌, ◌-◌, ◌^◌, ◌<◌, ◌≤◌, length, ◌∷◌, ◌++◌, [], OnOk, IfOk};
ghost use Rattle.cf_lex.specs.Places.{place_after};
ghost use Rattle.cf_lex.specs.Tokens.{TokensAnswer, IsAnswer, LexesTo, Ending, AreWithin, tokens_of};
ghost use Rattle.cf_lex.specs.Steps.{NextIs, ScanAnswer};
ghost use Rattle.cf_lex.specs.declared.token.Token.{Token};
ghost use Rattle.cf_tree.specs.declared.base.Place.{Place};

use crate::digits::literal;
use crate::fault::LexFault;
use crate::front::{Piece, front};
use crate::token::{Token, TokenKind, TokenList};
use cf_tree::{Edition, NoMemory, Place, Text};
use std::alloc::Global;

// The place after some bytes.
fn after(place: Place, bytes: &[u8]) -> Place
    requires line { place.line + length bytes.now < 2 ^ 32 }
    requires column { place.column + length bytes.now < 2 ^ 32 }
    ensures is { result ≡ place_after place bytes.now }
    ensures line { result.line ≤ place.line + length bytes.now }
    ensures column { result.column ≤ place.column + length bytes.now }
{
    let mut p = place;
    for b in bytes {
        p = if *b == b'\n' {
            Place {
                line: p.line + 1,
                column: 1,
            }
        } else {
            Place {
                line: p.line,
                column: p.column + 1,
            }
        };
    }
    p
}

/// The piece at the front of a text: its number of bytes, and the token that it is, if it is one.
#[derive(Drop)]
pub(crate) struct Taken {
    size: usize,
    kind: Option<TokenKind>,
}

fn text_of(alloc: Global, bytes: &[u8]) -> Result<Text, NoMemory>
    ensures { IfOk result (λ t. t ≡ bytes.now) }
{
    Ok(Text {
        bytes: bytes.to_vec(alloc)?,
    })
}

fn take_piece(
    alloc: Global,
    edition: Edition,
    place: Place,
    text: &[u8],
    limit: u128,
) -> Result<Taken, LexFault>
    requires some { 0 < length text.now }
    requires short { length text.now < 2 ^ 32 }
    requires limit { limit < 2 ^ 127 }
    ensures is { NextIs edition limit place text.now result }
    ensures size { IfOk result (λ n. (0 < n.size) × (n.size ≤ length text.now)) }
{
    match front(edition, text[0], &text[1..]) {
        Piece::Bad => Err(LexFault::BadByte(place)),
        Piece::Skip(size) => Ok(Taken { size, kind: None }),
        Piece::Literal(size) => match literal(&text[..size], limit) {
            None => Err(LexFault::NumberPast(place)),
            Some(n) => Ok(Taken {
                size,
                kind: Some(TokenKind::Literal(n as i128)),
            }),
        },
        Piece::Word(size) => Ok(Taken {
            size,
            kind: Some(TokenKind::Word(text_of(alloc, &text[..size])?)),
        }),
        Piece::Sign(size) => Ok(Taken {
            size,
            kind: Some(TokenKind::Sign(text_of(alloc, &text[..size])?)),
        }),
    }
}

// Adds the token that a piece is, if it is one.
fn add(list: &mut Vec<Token>, place: Place, kind: Option<TokenKind>) -> Result<(), NoMemory>
    ensures { OnOk result (list.new.items ≡ list.old.items ++ tokens_of place kind) }
{
    match kind {
        None => Ok(()),
        Some(kind) => {
            list.push(Token { place, kind })?;
            Ok(())
        }
    }
}

fn scan(alloc: Global, edition: Edition, text: &[u8], limit: u128) -> Result<TokenList, LexFault>
    requires short { length text.now < 2 ^ 32 - 1 }
    requires limit { limit < 2 ^ 127 }
    ensures { ScanAnswer edition limit text.now result }
{
    let mut list = Vec::new(alloc);
    let mut place = Place { line: 1, column: 1 };
    let mut rest = text;
    'pieces: while !rest.is_empty() {
        let found = take_piece(alloc, edition, place, rest, limit)?;
        add(&mut list, place, found.kind)?;
        place = after(place, &rest[..found.size]);
        rest = &rest[found.size..];
    }
    Ok(TokenList { list, end: place })
}

// The greatest literal.
const MAX: u128 = 170141183460469231731687303715884105727;

/// The tokens of a text by an edition, each with its place, and the place after the last byte. Targets and steps files have
/// those of language 2.
///
/// # Errors
///
/// `BadByte` at the first byte at which no token, white space or comment begins, or `NumberPast` at the first literal
/// past 2^127 - 1: whichever stands first. `NoMemory` where no memory is left.
pub fn tokens(alloc: Global, edition: Edition, text: &[u8]) -> Result<TokenList, LexFault>
    requires { length text.now < 2 ^ 32 - 1 }
    ensures answer { TokensAnswer edition (2 ^ 127 - 1) text.now result }
    // A text has no other tokens, and no other first fault.
    ensures only { (ts : List Token) (q : Place) (e : Ending) → LexesTo edition (2 ^ 127 - 1) text.now ts q e → IsAnswer ts q e result }
    ensures literals { IfOk result (λ l. AreWithin (2 ^ 127 - 1) l.list.items) }
    ensures count { IfOk result (λ l. length l.list.items ≤ length text.now) }
{
    scan(alloc, edition, text, MAX)
}
