//! Numbers and truth values as texts write them.
ghost use Rattle.std.specs.Prelude.{◌≡◌, ◌++◌, OnOk};
ghost use Rattle.cf_tree.specs.Words.{truth_text};

use crate::memory::NoMemory;
use itoa::{Buffer, Integer};

/// Puts a number in decimal at the end.
///
/// # Errors
/// `NoMemory` where memory ran out.
pub fn put_number<I: Integer>(out: &mut Vec<u8>, number: I) -> Result<(), NoMemory>
    ensures { OnOk result (out.new.items ≡ out.old.items ++ I.text number) }
{
    let mut buffer = Buffer::new();
    out.extend_from_slice(buffer.format(number).as_bytes())?;
    Ok(())
}

/// Puts the word of a truth value at the end.
///
/// # Errors
/// `NoMemory` where memory ran out.
pub fn put_truth(out: &mut Vec<u8>, truth: bool) -> Result<(), NoMemory>
    ensures { OnOk result (out.new.items ≡ out.old.items ++ truth_text truth) }
{
    let word = if truth {
        b"true".as_slice()
    } else {
        b"false".as_slice()
    };
    out.extend_from_slice(word)?;
    Ok(())
}
