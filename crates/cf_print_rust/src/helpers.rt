//! The helpers of a file, before what calls them.
ghost use Rattle.std.specs.Prelude.{◌≡◌, ◌++◌, IfOk};
ghost use Rattle.cf_print_rust.specs.Files.{with_error as error_before, with_helpers as all_helpers, with_numbers as those_numbers, with_sets as those_sets, with_parts as those_parts, with_uses as those_uses};

use crate::texts;
use cf_print::with_helper;
use cf_tree::NoMemory;
use std::alloc::Global;

// Those of operations on numbers.
fn with_numbers(alloc: Global, text: Vec<u8>) -> Result<Vec<u8>, NoMemory>
    ensures { IfOk result (λ all. all.items ≡ those_numbers text.items) }
{
    let text = with_helper(alloc, b"sum_of(", texts::SUM_OF, text)?;
    let text = with_helper(alloc, b"mul(", texts::MUL, text)?;
    let text = with_helper(alloc, b"sub(", texts::SUB, text)?;
    let text = with_helper(alloc, b"add(", texts::ADD, text)?;
    with_helper(alloc, b"fit(", texts::FIT, text)
}

// Those that make sets of sets.
fn with_sets(alloc: Global, text: Vec<u8>) -> Result<Vec<u8>, NoMemory>
    ensures { IfOk result (λ all. all.items ≡ those_sets text.items) }
{
    let text = with_helper(alloc, b"subset(", texts::SUBSET, text)?;
    let text = with_helper(alloc, b"diff(", texts::DIFF, text)?;
    let text = with_helper(alloc, b"inter(", texts::INTER, text)?;
    with_helper(alloc, b"union(", texts::UNION, text)
}

// Those that look at sets.
fn with_parts(alloc: Global, text: Vec<u8>) -> Result<Vec<u8>, NoMemory>
    ensures { IfOk result (λ all. all.items ≡ those_parts text.items) }
{
    let text = with_helper(alloc, b"fresh(", texts::FRESH, text)?;
    let text = with_helper(alloc, b"cut(", texts::SLICE, text)?;
    let text = with_helper(alloc, b"card(", texts::CARD, text)?;
    with_helper(alloc, b"same(", texts::SAME, text)
}

// What is taken from the library.
fn with_uses(alloc: Global, text: Vec<u8>) -> Result<Vec<u8>, NoMemory>
    ensures { IfOk result (λ all. all.items ≡ those_uses text.items) }
{
    let text = with_helper(alloc, b"BTreeSet<", texts::SETS, text)?;
    let text = with_helper(alloc, b"Borrow<", texts::LENT, text)?;
    with_helper(alloc, b"use std::collections", b"\n", text)
}

// Behind the error that is told.
#[tactic(auto, unfolding(crate::specs::Files::with_error))]
fn with_error(alloc: Global, text: &[u8]) -> Result<Vec<u8>, NoMemory>
    ensures { IfOk result (λ all. all.items ≡ error_before text.now) }
{
    let mut all = Vec::from_slice(alloc, texts::ERROR)?;
    all.extend_from_slice(text)?;
    Ok(all)
}

/// A text behind what it takes from the library, the error that it tells, and the helpers that it calls.
pub(crate) fn with_helpers(alloc: Global, text: Vec<u8>) -> Result<Vec<u8>, NoMemory>
    ensures { IfOk result (λ all. all.items ≡ all_helpers text.items) }
{
    let text = with_parts(alloc, text)?;
    let text = with_sets(alloc, text)?;
    let text = with_numbers(alloc, text)?;
    let text = with_error(alloc, &text)?;
    with_uses(alloc, text)
}
