//! Helpers, which stand in a file where something behind them calls them.
ghost use Rattle.std.specs.Prelude.{◌≡◌, IfOk};
ghost use Rattle.cf_print_js.specs.Files.{with_helpers as all_helpers, with_numbers as those_numbers, with_arguments as those_arguments, with_operations as those_operations, with_sets as those_sets, with_parts as those_parts};

use crate::texts;
use cf_print::with_helper;
use cf_tree::NoMemory;
use std::alloc::Global;

// Those of JavaScript, of numbers and what is told of them.
fn with_numbers(alloc: Global, text: Vec<u8>) -> Result<Vec<u8>, NoMemory>
    ensures { IfOk result (λ all. all.items ≡ those_numbers text.items) }
{
    let text = with_helper(alloc, b"sum_of(", texts::SUM_OF, text)?;
    let text = with_helper(alloc, b"fit(", texts::FIT, text)?;
    let text = with_helper(alloc, b"Overflow", texts::OVERFLOW, text)?;
    let text = with_helper(alloc, b"NoSolution", texts::NONE, text)?;
    with_helper(alloc, b"MAX", texts::MAX, text)
}

// Those of JavaScript, of arguments.
fn with_arguments(alloc: Global, text: Vec<u8>) -> Result<Vec<u8>, NoMemory>
    ensures { IfOk result (λ all. all.items ≡ those_arguments text.items) }
{
    let text = with_helper(alloc, b"set_of(", texts::SET_OF, text)?;
    let text = with_helper(alloc, b"numbers(", texts::NUMBERS, text)?;
    let text = with_helper(alloc, b"rising(", texts::RISING, text)?;
    let text = with_helper(alloc, b"truth(", texts::TRUTH, text)?;
    with_helper(alloc, b"whole(", texts::WHOLE, text)
}

// Those of JavaScript, of operations on numbers.
fn with_operations(alloc: Global, text: Vec<u8>) -> Result<Vec<u8>, NoMemory>
    ensures { IfOk result (λ all. all.items ≡ those_operations text.items) }
{
    let text = with_helper(alloc, b"greatest(", texts::GREATEST, text)?;
    let text = with_helper(alloc, b"least(", texts::LEAST, text)?;
    let text = with_helper(alloc, b"mod(", texts::MOD, text)?;
    with_helper(alloc, b"div(", texts::DIV, text)
}

// Those of JavaScript, that make sets of sets.
fn with_sets(alloc: Global, text: Vec<u8>) -> Result<Vec<u8>, NoMemory>
    ensures { IfOk result (λ all. all.items ≡ those_sets text.items) }
{
    let text = with_helper(alloc, b"subset(", texts::SUBSET, text)?;
    let text = with_helper(alloc, b"diff(", texts::DIFF, text)?;
    let text = with_helper(alloc, b"inter(", texts::INTER, text)?;
    with_helper(alloc, b"union(", texts::UNION, text)
}

// Those of JavaScript, that look at sets.
fn with_parts(alloc: Global, text: Vec<u8>) -> Result<Vec<u8>, NoMemory>
    ensures { IfOk result (λ all. all.items ≡ those_parts text.items) }
{
    let text = with_helper(alloc, b"fresh(", texts::FRESH, text)?;
    let text = with_helper(alloc, b"cut(", texts::SLICE, text)?;
    let text = with_helper(alloc, b"card(", texts::CARD, text)?;
    with_helper(alloc, b"same(", texts::SAME, text)
}

/// A text of JavaScript behind the helpers that it calls, and those that they call.
pub(crate) fn with_helpers(alloc: Global, text: Vec<u8>) -> Result<Vec<u8>, NoMemory>
    ensures { IfOk result (λ all. all.items ≡ all_helpers text.items) }
{
    let text = with_parts(alloc, text)?;
    let text = with_sets(alloc, text)?;
    let text = with_operations(alloc, text)?;
    let text = with_arguments(alloc, text)?;
    with_numbers(alloc, text)
}
