//! Texts that stand in a file or not: helpers stand where something behind them calls them.
ghost use Rattle.std.specs.Prelude.{◌≡◌, ◌&&◌, not, IfOk};
ghost use Rattle.cf_print.specs.Helpers.{calls as calls_by, when as text_when, with_helper as one_helper};
ghost use Rattle.cf_print.specs.Names.{begins as begins_with};

use crate::names::{begins, stands_in_name};
use cf_tree::NoMemory;
use std::alloc::Global;

// Whether a text begins with a key that does not stand behind a part of a name.
fn calls_here(in_name: bool, key: &[u8], text: &[u8]) -> bool
    ensures { result ≡ (not in_name && begins_with key.now text.now) }
{
    !in_name && begins(key, text)
}

// Whether a text calls something by this key.
fn calls(key: &[u8], text: &[u8]) -> bool
    ensures { result ≡ calls_by key.now text.now }
{
    let mut in_name = false;
    let mut rest = text;
    while let Some((byte, more)) = rest.split_first() {
        if calls_here(in_name, key, rest) {
            return true;
        }
        in_name = stands_in_name(*byte);
        rest = more;
    }
    false
}

/// A helper before a text that calls it: something there begins with the key, and is no end of a longer name.
#[tactic(auto, unfolding(crate::specs::Helpers::with_helper))]
pub fn with_helper(
    alloc: Global,
    key: &[u8],
    helper: &[u8],
    text: Vec<u8>,
) -> Result<Vec<u8>, NoMemory>
    ensures { IfOk result (λ all. all.items ≡ one_helper key.now helper.now text.items) }
{
    if calls(key, &text) {
        let mut all = Vec::from_slice(alloc, helper)?;
        all.extend_from_slice(&text)?;
        Ok(all)
    } else {
        Ok(text)
    }
}

/// The text where it is wanted.
pub fn when(wanted: bool, text: &[u8]) -> &[u8]
    ensures { result.now ≡ text_when wanted text.now }
{
    if wanted { text } else { b"" }
}
