//! Texts that are put together of others.
ghost use Rattle.std.specs.Prelude.{◌≡◌, ◌++◌, flat_map, IfOk, OnOk};
ghost use Rattle.cf_print.specs.Pieces.{joined, led, repeated};

use cf_tree::{NoMemory, Text};
use std::alloc::Global;

/// Puts pieces one after the other.
pub fn put_pieces(out: &mut Vec<u8>, pieces: &[&[u8]]) -> Result<(), NoMemory>
    ensures { OnOk result (out.new.items ≡ out.old.items ++ flat_map (λ piece. piece.now) pieces.now) }
{
    for piece in pieces {
        out.extend_from_slice(piece)?;
    }
    Ok(())
}

/// Puts a piece so many times.
pub fn put_repeated(out: &mut Vec<u8>, piece: &[u8], count: usize) -> Result<(), NoMemory>
    ensures { OnOk result (out.new.items ≡ out.old.items ++ repeated count piece.now) }
{
    for i in 0..count {
        out.extend_from_slice(piece)?;
    }
    Ok(())
}

/// Puts texts with a separator between each two.
pub fn put_joined(out: &mut Vec<u8>, separator: &[u8], texts: &[Text]) -> Result<(), NoMemory>
    ensures { OnOk result (out.new.items ≡ out.old.items ++ joined separator.now texts.now) }
{
    match texts {
        [] => Ok(()),
        [first, more @ ..] => {
            out.extend_from_slice(&first.bytes)?;
            put_led(out, separator, more)
        }
    }
}

// Texts with a separator before each.
fn put_led(out: &mut Vec<u8>, separator: &[u8], texts: &[Text]) -> Result<(), NoMemory>
    ensures { OnOk result (out.new.items ≡ out.old.items ++ led separator.now texts.now) }
{
    for text in texts {
        out.extend_from_slice(separator)?;
        out.extend_from_slice(&text.bytes)?;
    }
    Ok(())
}

/// A text of pieces.
pub fn text_of_pieces(alloc: Global, pieces: &[&[u8]]) -> Result<Text, NoMemory>
    ensures { IfOk result (λ t. t ≡ flat_map (λ piece. piece.now) pieces.now) }
{
    let mut bytes = Vec::new(alloc);
    put_pieces(&mut bytes, pieces)?;
    Ok(Text { bytes })
}

/// Texts with a separator between each two.
pub fn joined_text(alloc: Global, separator: &[u8], texts: &[Text]) -> Result<Text, NoMemory>
    ensures { IfOk result (λ t. t ≡ joined separator.now texts.now) }
{
    let mut bytes = Vec::new(alloc);
    put_joined(&mut bytes, separator, texts)?;
    Ok(Text { bytes })
}

/// Equal texts.
pub fn copies(alloc: Global, texts: &[Text]) -> Result<Vec<Text>, NoMemory>
    ensures { IfOk result (λ ts. ts.items ≡ texts.now) }
{
    let mut all = Vec::new(alloc);
    for text in texts {
        all.push(text.try_copy(alloc)?)?;
    }
    Ok(all)
}
