//! Loops of searches.
ghost use Rattle.std.specs.Prelude.{◌≡◌, ◌-◌, Some, IfOk, pos};
ghost use Rattle.cf_tree.specs.declared.base.Base.TheVariants.{Int};
ghost use Rattle.cf_range.specs.Ranges.{between};
ghost use Rattle.cf_print_line.specs.Layout.{line, search_text};
ghost use Rattle.cf_print_block.specs.Places.{name_in, put};
ghost use Rattle.cf_print_block.specs.PrinterView.{setting_in};
ghost use Rattle.cf_print_block.specs.Statements.{loops_of as loops_for, search_letter as letter_of_search, search_name as name_of_search, with_loop as one_loop_more};

use crate::draft::Draft;
use crate::printer::Printer;
use crate::values::{variable, with_one_behind};
use crate::variables::named_after;
use cf_print::{Language, next};
use cf_print_line::layout;
use cf_print_term::Scope;
use cf_range::Range;
use cf_tree::{Base, NoMemory, Text, put_number};
use std::alloc::Global;

/// The draft in some loops, what is known in them, and how deep they are.
#[derive(Drop)]
pub(crate) struct Loops {
    pub draft: Draft,
    pub scope: Scope,
    pub depth: usize,
}

// What the variable of the j-th search is named after.
fn search_letter(j: usize) -> &'static [u8]
    ensures { result.now ≡ letter_of_search j }
{
    if j == 0 {
        b"i"
    } else if j == 1 {
        b"j"
    } else {
        b"k"
    }
}

fn search_name(alloc: Global, j: usize) -> Result<Text, NoMemory>
    ensures { IfOk result (λ name. name ≡ name_of_search j) }
{
    let mut bytes = Vec::from_slice(alloc, search_letter(j))?;
    if 2 < j {
        put_number(&mut bytes, j)?;
    }
    Ok(Text { bytes })
}

// The name of the variable of the j-th search.
fn search_variable(printer: &Printer<'_>, taken: &[Text], j: usize) -> Result<Text, NoMemory>
    ensures { IfOk result (λ name. name ≡ name_in (setting_in printer.now) taken.now Int (Some (name_of_search j))) }
{
    let wish = search_name(printer.alloc, j)?;
    named_after(printer, taken, Base::Int, &wish.bytes)
}

// The numbers from 0 to below a bound.
fn below(bound: u32) -> Range
    ensures { result ≡ between (pos 0) (pos (bound - 1)) }
{
    Range {
        low: 0,
        high: i128::from(bound.saturating_sub(1)),
    }
}

#[tactic(auto, unfolding(crate::specs::Places::put))]
fn put_search(
    draft: Draft,
    language: Language,
    depth: usize,
    name: &Text,
    bound: u32,
) -> Result<Draft, NoMemory>
    ensures { IfOk result (λ d. d ≡ put (line language depth (search_text language name.now bound)) draft) }
{
    let mut draft = draft;
    layout::put_search(&mut draft.lines, language, depth, &name.bytes, bound)?;
    Ok(draft)
}

// One loop more, for the j-th search.
#[tactic(auto, unfolding(crate::specs::PrinterView::setting_in, crate::specs::Statements::with_loop))]
fn with_loop(printer: &Printer<'_>, j: usize, bound: u32, loops: Loops) -> Result<Loops, NoMemory>
    ensures { IfOk result (λ l. l ≡ one_loop_more (setting_in printer.now) j bound loops) }
{
    let Loops {
        draft,
        scope,
        depth,
    } = loops;
    let name = search_variable(printer, &draft.taken, j)?;
    let written = put_search(draft, printer.language, depth, &name, bound)?;
    let draft = written.taking(printer.alloc, &name)?;
    let value = variable(printer, Base::Int, below(bound), &name)?;
    let scope = with_one_behind(printer.alloc, scope, &value)?;
    Ok(Loops {
        draft,
        scope,
        depth: next(depth)?,
    })
}

/// The loops of searches below these bounds.
pub(crate) fn loops_of(
    printer: &Printer<'_>,
    bounds: &[u32],
    outside: Loops,
) -> Result<Loops, NoMemory>
    ensures { IfOk result (λ l. l ≡ loops_for (setting_in printer.now) 0 bounds.now outside) }
{
    let mut loops = outside;
    let mut j: usize = 0;
    for bound in bounds {
        loops = with_loop(printer, j, *bound, loops)?;
        j = next(j)?;
    }
    Ok(loops)
}
