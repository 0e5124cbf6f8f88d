//! Lines about a choose or a match.
ghost use Rattle.std.specs.Prelude.{◌≡◌, ◌∷◌, [], ◌++◌, codes, decimal, OnOk};
ghost use Rattle.std.specs.List.{concat};
ghost use Rattle.cf_answer.specs.Texts.{numbered_line};

use cf_tree::{NoMemory, put_number};

/// Adds the front of a line about a choose or a match.
pub fn put_head(text: &mut Vec<u8>, what: &[u8], number: u32) -> Result<(), NoMemory>
    ensures { OnOk result (text.new.items ≡ text.old.items ++ concat (what.now ∷ decimal number ∷ codes ": " ∷ [])) }
{
    text.extend_from_slice(what)?;
    put_number(text, number)?;
    text.extend_from_slice(b": ")?;
    Ok(())
}

/// Adds a line about a choose.
pub fn put_line(text: &mut Vec<u8>, number: u32, words: &[u8]) -> Result<(), NoMemory>
    ensures { OnOk result (text.new.items ≡ text.old.items ++ numbered_line number words.now) }
{
    put_head(text, b"choose ".as_slice(), number)?;
    text.extend_from_slice(words)?;
    text.push(b'\n')?;
    Ok(())
}
