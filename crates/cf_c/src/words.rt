//! The words of a call.
ghost use Rattle.std.specs.Prelude.{◌≡◌, map, string_bytes, IfOk, IsErrOf, IsUtf8};
ghost use Rattle.cf_c.specs.Answered.{bytes_of, IsNoText};

use std::alloc::Global;

/// A word: counted bytes.
#[repr(C)]
#[derive(Clone, Copy)]
pub struct Word<'a> {
    pub bytes: &'a [u8],
}

/// Why the program is not called.
#[derive(Clone, Copy)]
pub enum Uncalled {
    /// A word is no UTF-8.
    NoText,
    NoMemory,
}

// The word as a text.
fn text_of(alloc: Global, word: &[u8]) -> Result<String, Uncalled>
    ensures is { IfOk result (λ text. string_bytes text ≡ word.now) }
    ensures no_text { IsErrOf result Uncalled.NoText → ¬ IsUtf8 word.now }
{
    match str::from_utf8(word) {
        Ok(text) => match String::from_str(alloc, text) {
            Ok(text) => Ok(text),
            Err(_) => Err(Uncalled::NoMemory),
        },
        Err(_) => Err(Uncalled::NoText),
    }
}

/// The words as texts.
pub fn texts_of(alloc: Global, words: &[Word<'_>]) -> Result<Vec<String>, Uncalled>
    ensures are { IfOk result (λ texts. map string_bytes texts.items ≡ bytes_of words.now) }
    ensures no_text { IsErrOf result Uncalled.NoText → IsNoText (bytes_of words.now) }
{
    let mut texts = Vec::new(alloc);
    for word in words {
        match text_of(alloc, word.bytes) {
            Ok(text) => {
                if texts.push(text).is_err() {
                    return Err(Uncalled::NoMemory);
                }
            }
            Err(fault) => return Err(fault),
        }
    }
    Ok(texts)
}
