//! Helpers, which stand in a file where something behind them calls them.
ghost use Rattle.std.specs.Prelude.{◌≡◌, IfOk};
ghost use Rattle.cf_print_c.specs.Files.{with_helpers as all_helpers, with_sums as those_sums, with_quotients as those_quotients, with_definitions as those_definitions};

use crate::texts;
use cf_print::with_helper;
use cf_tree::NoMemory;
use std::alloc::Global;

// Those of C, of sums and products.
fn with_sums(alloc: Global, text: Vec<u8>) -> Result<Vec<u8>, NoMemory>
    ensures { IfOk result (λ all. all.items ≡ those_sums text.items) }
{
    let text = with_helper(alloc, b"mul(", texts::MUL, text)?;
    let text = with_helper(alloc, b"sub(", texts::SUB, text)?;
    let text = with_helper(alloc, b"sum_of(", texts::SUM_OF, text)?;
    with_helper(alloc, b"add(", texts::ADD, text)
}

// Those of C, of quotients, remainders and the best of two.
fn with_quotients(alloc: Global, text: Vec<u8>) -> Result<Vec<u8>, NoMemory>
    ensures { IfOk result (λ all. all.items ≡ those_quotients text.items) }
{
    let text = with_helper(alloc, b"greatest(", texts::GREATEST, text)?;
    let text = with_helper(alloc, b"least(", texts::LEAST, text)?;
    let text = with_helper(alloc, b"mod_up(", texts::MOD_UP, text)?;
    with_helper(alloc, b"div_down(", texts::DIV_DOWN, text)
}

/// A text of C behind the macro that it calls, which stands before its status.
pub(crate) fn with_definitions(alloc: Global, text: Vec<u8>) -> Result<Vec<u8>, NoMemory>
    ensures { IfOk result (λ all. all.items ≡ those_definitions text.items) }
{
    with_helper(alloc, b"from_halves(", texts::HALVES, text)
}

/// A text of C behind the helpers that it calls, and those that they call.
pub(crate) fn with_helpers(alloc: Global, text: Vec<u8>) -> Result<Vec<u8>, NoMemory>
    ensures { IfOk result (λ all. all.items ≡ all_helpers text.items) }
{
    let text = with_quotients(alloc, text)?;
    with_sums(alloc, text)
}
