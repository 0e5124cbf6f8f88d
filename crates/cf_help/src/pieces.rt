//! Texts made of pieces.
ghost use Rattle.std.specs.Prelude.{◌≡◌, flat_map, decimal, option_map, IfOk};
ghost use Rattle.std.specs.Fmt.{signed_decimal};
ghost use Rattle.cf_help.specs.Near.{in_quotes as in_quotes_of};

use cf_tree::{NoMemory, Text, put_number};
use std::alloc::Global;

/// The text of these pieces, one after the other.
pub fn joined(alloc: Global, pieces: &[&[u8]]) -> Result<Text, NoMemory>
    ensures { IfOk result (λ t. t ≡ flat_map (λ piece. piece.now) pieces.now) }
{
    let mut bytes = Vec::new(alloc);
    for piece in pieces {
        bytes.extend_from_slice(piece)?;
    }
    Ok(Text { bytes })
}

/// A number in decimal.
pub fn number_text(alloc: Global, number: u64) -> Result<Text, NoMemory>
    ensures { IfOk result (λ t. t ≡ decimal number) }
{
    let mut bytes = Vec::new(alloc);
    put_number(&mut bytes, number)?;
    Ok(Text { bytes })
}

/// A word in quotes.
pub fn in_quotes(alloc: Global, word: &[u8]) -> Result<Text, NoMemory>
    ensures { IfOk result (λ t. t ≡ in_quotes_of word.now) }
{
    joined(alloc, &[b"'".as_slice(), word, b"'".as_slice()])
}

/// A help, copied.
pub fn help_text(alloc: Global, help: Option<&[u8]>) -> Result<Option<Text>, NoMemory>
    ensures { IfOk result (λ t. t ≡ option_map (λ h. h.now) help.entry) }
{
    match help {
        None => Ok(None),
        Some(help) => Ok(Some(Text {
            bytes: Vec::from_slice(alloc, help)?,
        })),
    }
}

/// A number with its sign, in decimal.
pub fn signed_text(alloc: Global, number: i128) -> Result<Text, NoMemory>
    ensures { IfOk result (λ t. t ≡ signed_decimal number) }
{
    let mut bytes = Vec::new(alloc);
    put_number(&mut bytes, number)?;
    Ok(Text { bytes })
}
