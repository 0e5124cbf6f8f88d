//! Whole files.
ghost use Rattle.std.specs.Prelude.{◌≡◌, ◌++◌, IfOk};
ghost use Rattle.cf_print_rust.specs.Files.{file, filter, around};
ghost use Rattle.cf_print.specs.Helpers.{when as text_when};

use crate::filter::filter_of;
use crate::helpers::with_helpers;
use cf_print::{Language, head_of};
use cf_print_line::Called;
use cf_tree::{NoMemory, Text};
use std::alloc::Global;

// The file of Rust behind whose head this stands.
fn file_around(alloc: Global, source: &[u8], text: Vec<u8>) -> Result<Text, NoMemory>
    ensures { IfOk result (λ t. t ≡ around source.now text.items) }
{
    let body = with_helpers(alloc, text)?;
    let mut all = head_of(alloc, Language::Rust, source)?;
    all.extend_from_slice(&body)?;
    Ok(Text { bytes: all })
}

// The functions, and what makes the file a filter.
fn with_filter(
    alloc: Global,
    has_main: bool,
    function: &Called,
    functions: Vec<u8>,
) -> Result<Vec<u8>, NoMemory>
    ensures { IfOk result (λ all. all.items ≡ functions.items ++ text_when has_main (filter function.now)) }
{
    if !has_main {
        return Ok(functions);
    }
    let filter = filter_of(alloc, function)?;
    let mut all = functions;
    all.extend_from_slice(&filter.bytes)?;
    Ok(all)
}

/// The file of a function, whose text this is with that of those before it; with `has_main` it answers lines too.
pub fn file_of(
    alloc: Global,
    has_main: bool,
    source: &[u8],
    function: &Called,
    functions: Vec<u8>,
) -> Result<Text, NoMemory>
    ensures { IfOk result (λ t. t ≡ file has_main source.now function.now functions.items) }
{
    let text = with_filter(alloc, has_main, function, functions)?;
    file_around(alloc, source, text)
}
