//! Whole files.
ghost use Rattle.std.specs.Prelude.{◌≡◌, ◌++◌, IfOk};
ghost use Rattle.cf_print_c.specs.Files.{file, filter, around, includes as includes_of, includes_by, body as body_of, prototype as prototype_of};
ghost use Rattle.cf_print.specs.Helpers.{when as text_when};

use crate::filter::{filter_of, has_truths};
use crate::helpers::{with_definitions, with_helpers};
use crate::opening::first_line_of;
use crate::texts;
use cf_print::{Language, head_of, text_of_pieces, when};
use cf_print_line::Called;
use cf_tree::{Base, NoMemory, Text};
use std::alloc::Global;

// What C takes from the library.
fn includes(alloc: Global, is_filter: bool, bases: &[Base]) -> Result<Text, NoMemory>
    ensures { IfOk result (λ t. t ≡ includes_of is_filter bases.now) }
{
    includes_with(alloc, is_filter, is_filter && has_truths(bases))
}

#[tactic(auto, unfolding(crate::specs::Files::includes_by))]
fn includes_with(alloc: Global, is_filter: bool, compares: bool) -> Result<Text, NoMemory>
    ensures { IfOk result (λ t. t ≡ includes_by is_filter compares) }
{
    text_of_pieces(
        alloc,
        &[
            when(is_filter, texts::POSIX),
            texts::STANDARD,
            when(is_filter, texts::INCLUDES),
            when(compares, texts::STRING),
            texts::NUMBERS,
        ],
    )
}

// The prototype of a function of C.
fn prototype(alloc: Global, wanted: bool, function: &Called) -> Result<Text, NoMemory>
    ensures { IfOk result (λ t. t ≡ prototype_of wanted function.now) }
{
    if !wanted {
        return Ok(Text {
            bytes: Vec::new(alloc),
        });
    }
    let head = first_line_of(alloc, function)?;
    let mut bytes = head.bytes;
    bytes.extend_from_slice(b";\n\n")?;
    Ok(Text { bytes })
}

// What stands behind the numbers in a file of C.
fn body(
    alloc: Global,
    has_main: bool,
    function: &Called,
    text: Vec<u8>,
) -> Result<Vec<u8>, NoMemory>
    ensures { IfOk result (λ all. all.items ≡ body_of has_main function.now text.items) }
{
    let body = with_helpers(alloc, text)?;
    let first = prototype(alloc, !has_main, function)?;
    let mut all = Vec::from_slice(alloc, texts::STATUS)?;
    all.extend_from_slice(&first.bytes)?;
    all.extend_from_slice(&body)?;
    with_definitions(alloc, all)
}

// The file of C.
fn file_around(
    alloc: Global,
    has_main: bool,
    source: &[u8],
    function: &Called,
    text: Vec<u8>,
) -> Result<Text, NoMemory>
    ensures { IfOk result (λ t. t ≡ around has_main source.now function.now text.items) }
{
    let body = body(alloc, has_main, function, text)?;
    let includes = includes(alloc, has_main, &function.bases)?;
    let mut all = head_of(alloc, Language::C, source)?;
    all.extend_from_slice(&includes.bytes)?;
    all.extend_from_slice(&body)?;
    Ok(Text { bytes: all })
}

// The functions, and what makes the file a filter.
fn with_filter(
    alloc: Global,
    has_main: bool,
    function: &Called,
    functions: Vec<u8>,
) -> Result<Vec<u8>, NoMemory>
    ensures { IfOk result (λ all. all.items ≡ functions.items ++ text_when has_main (filter function.now)) }
{
    if !has_main {
        return Ok(functions);
    }
    let filter = filter_of(alloc, function)?;
    let mut all = functions;
    all.extend_from_slice(&filter.bytes)?;
    Ok(all)
}

/// The file of a function, whose text this is with that of those before it; with `has_main` it answers lines too.
pub fn file_of(
    alloc: Global,
    has_main: bool,
    source: &[u8],
    function: &Called,
    functions: Vec<u8>,
) -> Result<Text, NoMemory>
    ensures { IfOk result (λ t. t ≡ file has_main source.now function.now functions.items) }
{
    let text = with_filter(alloc, has_main, function, functions)?;
    file_around(alloc, has_main, source, function, text)
}
