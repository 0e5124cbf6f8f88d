//! Functions for parts of a program.
ghost use Rattle.std.specs.Prelude.{◌≡◌, ◌++◌, IfOk};
ghost use Rattle.cf_stmt.specs.BlockView.{block_tree};
ghost use Rattle.cf_print_line.specs.Heads.{part_closing as closing};
ghost use Rattle.cf_print_line.specs.Layout.{call_lines};
ghost use Rattle.cf_print_block.specs.PrinterView.{setting_in};
ghost use Rattle.cf_print_block.specs.Statements.{begun as draft_begun, function_of as function_for, inside as place_inside, results_held as results_at_hand, variables as variables_named};

use crate::draft::Draft;
use crate::naming::{Role, function_name, names_for, pointers_for};
use crate::parameters::parameters_of;
use crate::place::{Place, giving_of};
use crate::printer::{Printer, outputs_of, outputs_of_choose};
use crate::values::{AtHand, variable};
use crate::variables::{Held, named_after};
use cf_print::copies;
use cf_print_line::{FileCall, all_parameters, part_closing, part_opening, put_call};
use cf_print_shape::{Exit, bases_read, names_read, number_of, results_of};
use cf_print_term::Scope;
use cf_range::Range;
use cf_stmt::Block;
use cf_tree::{Base, NoMemory, Text};
use std::alloc::Global;
use std::marker::Model;

/// A function for a block: the number of its choose, or 0, its name, what it reads as parameters, what it gives, and in C
/// pointers to that.
#[derive(Drop)]
pub(crate) struct Function {
    pub number: u32,
    pub name: Text,
    pub params: Vec<Text>,
    pub bases: Vec<Base>,
    pub results: Vec<Base>,
    pub pointers: Vec<Text>,
}

impl Model for Function {
    ghost use Rattle.cf_print_block.specs.Statements.{Function as OfAPart};

    ghost Value = { OfAPart };

    ghost view = { λ f. record {
      number = f.number;
      name = f.name;
      params = f.params.items;
      bases = f.bases.items;
      results = f.results.items;
      pointers = f.pointers.items;
    } };
}

/// The function for a block, behind functions for the chooses of these numbers.
#[tactic(auto, unfolding(crate::specs::Statements::function_of))]
pub(crate) fn function_of(
    printer: &Printer<'_>,
    scope: &Scope,
    block: &Block,
    numbers: &[u32],
) -> Result<Function, NoMemory>
    ensures { IfOk result (λ f. f ≡ function_for (setting_in printer.now) scope.now (block_tree block.now) numbers.now) }
{
    let number = number_of(block);
    let name = function_name(printer.alloc, number, numbers)?;
    let names = names_read(printer.alloc, block, &scope.names)?;
    let bases = bases_read(printer.alloc, block, &scope.bases)?;
    let read = parameters_of(printer.alloc, &names, &bases)?;
    let results = results_of(printer.alloc, &scope.bases, block)?;
    let pointers = pointers_for(
        printer,
        outputs_of_choose(printer, number),
        &results,
        &read.names,
    )?;
    Ok(Function {
        number,
        name,
        params: read.names,
        bases: read.bases,
        results,
        pointers,
    })
}

/// The place of its first statement.
pub(crate) fn inside(function: &Function) -> Place
    ensures { result ≡ place_inside function.now }
{
    Place {
        depth: 1,
        exit: Exit::Falls,
        arms: 0,
        giving: giving_of(function.number),
    }
}

/// Its draft before its first statement, behind the functions before it.
#[tactic(auto, unfolding(crate::specs::PrinterView::setting_in, crate::specs::Statements::begun))]
pub(crate) fn begun(
    printer: &Printer<'_>,
    function: &Function,
    functions: Vec<u8>,
    numbers: Vec<u32>,
) -> Result<Draft, NoMemory>
    ensures { IfOk result (λ d. d ≡ draft_begun (setting_in printer.now) function.now functions.items numbers.items) }
{
    let alloc = printer.alloc;
    let params = all_parameters(
        alloc,
        printer.language,
        &function.params,
        &function.bases,
        &function.pointers,
        &function.results,
    )?;
    let opening = part_opening(
        alloc,
        printer.language,
        function.number,
        &function.name.bytes,
        &params,
        &function.results,
    )?;
    let mut numbers = numbers;
    numbers.push(function.number)?;
    let taken = both(alloc, &function.params, &function.pointers)?;
    let pointers = copies(alloc, &function.pointers)?;
    Ok(Draft {
        lines: opening.bytes,
        pointers,
        taken,
        functions,
        numbers,
    })
}

/// Texts, and then others.
pub fn both(alloc: Global, first: &[Text], second: &[Text]) -> Result<Vec<Text>, NoMemory>
    ensures { IfOk result (λ all. all.items ≡ first.now ++ second.now) }
{
    let all = copies(alloc, first)?;
    with_copies(alloc, all, second)
}

fn with_copies(alloc: Global, texts: Vec<Text>, more: &[Text]) -> Result<Vec<Text>, NoMemory>
    ensures { IfOk result (λ all. all.items ≡ texts.items ++ more.now) }
{
    let mut all = texts;
    let mut behind = copies(alloc, more)?;
    all.append(&mut behind)?;
    Ok(all)
}

// Variables of these bases and names.
fn variables(printer: &Printer<'_>, names: &[Text], bases: &[Base]) -> Result<Vec<AtHand>, NoMemory>
    ensures { IfOk result (λ all. all.items ≡ variables_named (setting_in printer.now) names.now bases.now) }
{
    let mut all = Vec::new(printer.alloc);
    let mut left = bases;
    for name in names {
        match left.split_first() {
            None => return Ok(all),
            Some((base, more)) => {
                all.push(variable(printer, *base, Range::whole(), name)?)?;
                left = more;
            }
        }
    }
    Ok(all)
}

/// What a function held before one for a part of it: its lines, its pointers and the names that are taken in it.
#[derive(Drop)]
pub(crate) struct Outer {
    pub lines: Vec<u8>,
    pub pointers: Vec<Text>,
    pub taken: Vec<Text>,
}

// Lines with a call of a function, whose results get these names.
#[tactic(auto, unfolding(crate::specs::PrinterView::setting_in))]
fn with_call<'x>(
    printer: &Printer<'_>,
    depth: usize,
    function: &'x Function,
    status: &'x Text,
    names: &'x [Text],
    lines: Vec<u8>,
) -> Result<Vec<u8>, NoMemory>
    ensures { IfOk result (λ all. all.items ≡ lines.items ++ call_lines (setting_in printer.now).language depth
        status.now function.now.results names.now function.now.name function.now.params) }
{
    let mut lines = lines;
    let args = copies(printer.alloc, &function.params)?;
    let call = FileCall {
        status: &status.bytes,
        bases: &function.results,
        names,
        function: &function.name.bytes,
    };
    put_call(
        printer.alloc,
        &mut lines,
        printer.language,
        depth,
        &call,
        args,
    )?;
    Ok(lines)
}

// The functions before a function with this one behind them.
#[tactic(auto, unfolding(crate::specs::PrinterView::setting_in))]
fn closed(printer: &Printer<'_>, functions: Vec<u8>, lines: &[u8]) -> Result<Vec<u8>, NoMemory>
    ensures { IfOk result (λ all. all.items ≡ (functions.items ++ lines.now) ++ closing (setting_in printer.now).language) }
{
    let mut all = functions;
    all.extend_from_slice(lines)?;
    all.extend_from_slice(part_closing(printer.language))?;
    Ok(all)
}

/// Its results in variables, behind its last statement.
#[tactic(auto, unfolding(crate::specs::PrinterView::setting_in, crate::specs::Statements::results_held))]
pub(crate) fn results_held(
    printer: &Printer<'_>,
    depth: usize,
    function: &Function,
    outer: Outer,
    done: Draft,
) -> Result<Held, NoMemory>
    ensures { IfOk result (λ h. h ≡ results_at_hand (setting_in printer.now) depth function.now
        outer.lines.items outer.pointers.items outer.taken.items done) }
{
    let alloc = printer.alloc;
    let Outer {
        lines,
        pointers,
        taken,
    } = outer;
    let asked = outputs_of(printer, giving_of(function.number));
    let names = names_for(printer, Role::Value, asked, &function.results, &taken)?;
    let mut taken = with_copies(alloc, taken, &names)?;
    let status = named_after(printer, &taken, Base::Int, b"status")?;
    let lines = with_call(printer, depth, function, &status, &names, lines)?;
    let values = variables(printer, &names, &function.results)?;
    taken.push(status)?;
    let functions = closed(printer, done.functions, &done.lines)?;
    Ok(Held {
        values,
        draft: Draft {
            lines,
            pointers,
            taken,
            functions,
            numbers: done.numbers,
        },
    })
}
