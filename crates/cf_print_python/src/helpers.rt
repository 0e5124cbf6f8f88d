//! Helpers, which stand in a file where something behind them calls them.
ghost use Rattle.std.specs.Prelude.{◌≡◌, IfOk};
ghost use Rattle.cf_print_python.specs.Files.{with_helpers as all_helpers, with_numbers as those_numbers, with_arguments as those_arguments};

use crate::texts;
use cf_print::with_helper;
use cf_tree::NoMemory;
use std::alloc::Global;

// Those of Python, of numbers and what is told of them.
fn with_numbers(alloc: Global, text: Vec<u8>) -> Result<Vec<u8>, NoMemory>
    ensures { IfOk result (λ all. all.items ≡ those_numbers text.items) }
{
    let text = with_helper(alloc, b"sum_of(", texts::SUM_OF, text)?;
    let text = with_helper(alloc, b"fit(", texts::FIT, text)?;
    let text = with_helper(alloc, b"NoSolution", texts::NONE, text)?;
    let text = with_helper(alloc, b"-MAX <=", texts::MAX, text)?;
    with_helper(alloc, b"Iterable[", texts::ITERABLE, text)
}

// Those of Python, of arguments and sets.
fn with_arguments(alloc: Global, text: Vec<u8>) -> Result<Vec<u8>, NoMemory>
    ensures { IfOk result (λ all. all.items ≡ those_arguments text.items) }
{
    let text = with_helper(alloc, b"fresh(", texts::FRESH, text)?;
    let text = with_helper(alloc, b"cut(", texts::SLICE, text)?;
    let text = with_helper(alloc, b"numbers(", texts::NUMBERS, text)?;
    let text = with_helper(alloc, b"truth(", texts::TRUTH, text)?;
    with_helper(alloc, b"whole(", texts::WHOLE, text)
}

/// A text of Python behind the helpers that it calls, and those that they call.
pub(crate) fn with_helpers(alloc: Global, text: Vec<u8>) -> Result<Vec<u8>, NoMemory>
    ensures { IfOk result (λ all. all.items ≡ all_helpers text.items) }
{
    let text = with_arguments(alloc, text)?;
    with_numbers(alloc, text)
}
