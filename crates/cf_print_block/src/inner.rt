//! Blocks behind values that are bound.
ghost use Rattle.std.specs.Prelude.{◌≡◌, IfOk};
ghost use Rattle.cf_stmt.specs.BlockView.{block_tree};
ghost use Rattle.cf_print_block.specs.Places.{ahead as one_ahead, behind as those_behind, first_at_hand};
ghost use Rattle.cf_print_block.specs.PrinterView.{setting_in};
ghost use Rattle.cf_print_block.specs.Statements.{inner_ahead, inner_behind};

use crate::draft::Draft;
use crate::place::Place;
use crate::printer::Printer;
use crate::values::{ahead, behind, first_of};
use crate::variables::{Held, bound_for};
use cf_print_term::Scope;
use cf_stmt::Block;
use cf_tree::{NoMemory, to_u32};
use std::alloc::Global;

/// What is known in a block, and what is written before it.
#[derive(Drop)]
pub(crate) struct Inner {
    pub scope: Scope,
    pub draft: Draft,
}

// All values stand behind the variables.
fn all_behind(alloc: Global, scope: Scope, bound: Held) -> Result<Inner, NoMemory>
    ensures { IfOk result (λ i. i ≡ record { scope = those_behind scope bound.values; draft = bound.draft }) }
{
    let Held { values, draft } = bound;
    let scope = behind(alloc, scope, &values)?;
    Ok(Inner { scope, draft })
}

// The first value stands before the variables.
fn first_ahead(alloc: Global, scope: Scope, bound: Held) -> Result<Inner, NoMemory>
    ensures { IfOk result (λ i. i ≡ record { scope = one_ahead (first_at_hand bound.values) scope; draft = bound.draft }) }
{
    let Held { values, draft } = bound;
    let value = first_of(alloc, &values)?;
    let scope = ahead(alloc, &value, scope)?;
    Ok(Inner { scope, draft })
}

/// A block behind values that it gets behind the variables.
#[tactic(auto, unfolding(crate::specs::Statements::inner_behind))]
pub(crate) fn bound_behind(
    printer: &Printer<'_>,
    place: Place,
    scope: Scope,
    block: &Block,
    held: Held,
) -> Result<Inner, NoMemory>
    ensures { IfOk result (λ i. i ≡ inner_behind (setting_in printer.now) place scope (block_tree block.now) held) }
{
    let level = to_u32(scope.names.len())?;
    let bound = bound_for(printer, place, level, block, held)?;
    all_behind(printer.alloc, scope, bound)
}

/// A block behind a value that it gets before the variables.
#[tactic(auto, unfolding(crate::specs::Statements::inner_ahead))]
pub(crate) fn bound_ahead(
    printer: &Printer<'_>,
    place: Place,
    scope: Scope,
    block: &Block,
    held: Held,
) -> Result<Inner, NoMemory>
    ensures { IfOk result (λ i. i ≡ inner_ahead (setting_in printer.now) place scope (block_tree block.now) held) }
{
    let bound = bound_for(printer, place, 0, block, held)?;
    first_ahead(printer.alloc, scope, bound)
}
