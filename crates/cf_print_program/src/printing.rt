//! Printed programs.
ghost use Rattle.std.specs.Prelude.{◌≡◌, [], nat_lt, true, false, IfOk, IsErrOf};
ghost use Rattle.std.specs.List.{list_all};
ghost use Rattle.cf_print_shape.specs.Nones.{nones_of as all_nones};
ghost use Rattle.cf_stmt.specs.BlockView.{block_tree};
ghost use Rattle.cf_print_program.specs.EmissionView.{names_in, printing_of};
ghost use Rattle.cf_print_program.specs.Printed.{IsPrint, all_functions, are_statuses as statuses, called_of as function_called, first_draft, first_place as place_of_first, first_sight, fitting as wishes_that_fit, is_unread, functions_of as functions_for, lacks_sets as the_lacks_sets, printed as printed_text, setting_of, unread_in as not_read_in, unread_truths as truths_not_read};
ghost use Rattle.cf_print_block.specs.PrinterView.{setting_in};
ghost use Rattle.cf_print_term.specs.declared.numeral.TheConstants.{INT_END};

use crate::emission::{Emission, EmitFault};
use crate::files::{file_of, opening_of};
use crate::sets::lacks_sets;
use cf_print::{Language, copies};
use cf_print_block::{
    Draft, Giving, Place, Printer, Role, both, names_for, pointers_for, put_block,
};
use cf_print_line::{Called, end_of};
use cf_print_shape::{Exit, block_reads, gives, leaves_at_ends, next_level, nones_of, push_name};
use cf_print_term::{INT_END, Scope};
use cf_range::param_ranges;
use cf_stmt::Block;
use cf_tree::{Base, NoMemory, Text};
use std::alloc::Global;

// Wishes for results count where there is one for each.
fn fitting<'a>(bases: &[Base], names: &'a [Text]) -> &'a [Text]
    ensures { result.now ≡ wishes_that_fit bases.now names.now }
{
    if bases.len() == names.len() {
        names
    } else {
        &[]
    }
}

// The names that an emission wishes for, in its language.
#[tactic(auto, unfolding(cf_print_block::specs::PrinterView::setting_in, crate::specs::Printed::setting_of))]
fn printer_of<'a>(alloc: Global, emission: &Emission<'a>) -> Printer<'a>
    ensures { setting_in result ≡ setting_of (names_in emission.now.hints.now) (printing_of emission.now) }
{
    let hints = emission.hints;
    Printer {
        alloc,
        language: emission.language,
        results: fitting(emission.results, &hints.results),
        outputs: &hints.outputs,
    }
}

fn is_unread_truth(level: u32, block: &Block, base: Base) -> Result<bool, NoMemory>
    ensures { IfOk result (λ u. u ≡ is_unread level (block_tree block.now) base) }
{
    match base {
        Base::Bool => Ok(!block_reads(level, block)?),
        Base::Int | Base::Set => Ok(false),
    }
}

// Truth values that a block does not read.
#[tactic(auto, using(cf_print_shape::proofs::ReadLists::one_wanted))]
fn unread_truths(
    alloc: Global,
    block: &Block,
    names: &[Text],
    bases: &[Base],
) -> Result<Vec<Text>, NoMemory>
    ensures { IfOk result (λ all. all.items ≡ truths_not_read 0 (block_tree block.now) names.now bases.now) }
{
    let mut all = Vec::new(alloc);
    let mut level: u32 = 0;
    let mut left = bases;
    for name in names {
        match left.split_first() {
            None => return Ok(all),
            Some((base, more)) => {
                push_name(alloc, &mut all, name, is_unread_truth(level, block, *base)?)?;
                left = more;
                level = next_level(level)?;
            }
        }
    }
    Ok(all)
}

// Parameters and pointers that no statement names.
fn unread_in(
    alloc: Global,
    block: &Block,
    params: &[Text],
    bases: &[Base],
    pointers: &[Text],
) -> Result<Vec<Text>, NoMemory>
    ensures { IfOk result (λ all. all.items ≡ not_read_in (block_tree block.now) params.now bases.now pointers.now) }
{
    let truths = unread_truths(alloc, block, params, bases)?;
    if gives(block) {
        return Ok(truths);
    }
    both(alloc, &truths, pointers)
}

// The names that are wished for main's results.
#[tactic(auto, unfolding(cf_print_block::specs::PrinterView::setting_in))]
fn wished_results<'a>(printer: &Printer<'a>) -> &'a [Text]
    ensures { result.now ≡ (setting_in printer.now).results }
{
    printer.results
}

// The function that is called.
#[tactic(auto, unfolding(crate::specs::Printed::called_of))]
fn called_of(printer: &Printer<'_>, emission: &Emission<'_>) -> Result<Called, NoMemory>
    requires { setting_in printer.now ≡ setting_of (names_in emission.now.hints.now) (printing_of emission.now) }
    ensures { IfOk result (λ f. f ≡ function_called (names_in emission.now.hints.now) (printing_of emission.now)) }
{
    let alloc = printer.alloc;
    let hints = emission.hints;
    let results = wished_results(printer);
    let params = names_for(printer, Role::Value, &hints.params, emission.params, &[])?;
    let pointers = pointers_for(printer, results, emission.results, &params)?;
    let unread = unread_in(alloc, emission.body, &params, emission.params, &pointers)?;
    let nones = nones_of(emission.body, Vec::new(alloc))?;
    Ok(Called {
        name: Text {
            bytes: Vec::from_slice(alloc, emission.name)?,
        },
        params,
        bases: Vec::from_slice(alloc, emission.params)?,
        results: Vec::from_slice(alloc, emission.results)?,
        result_names: copies(alloc, results)?,
        pointers,
        unread,
        nones,
    })
}

// What is known before its first statement.
fn scope_of(alloc: Global, function: &Called) -> Result<Scope, NoMemory>
    ensures { IfOk result (λ s. s ≡ first_sight function.now) }
{
    let names = copies(alloc, &function.params)?;
    let bases = Vec::from_slice(alloc, &function.bases)?;
    Ok(Scope {
        names,
        bases,
        ranges: param_ranges(alloc, &function.bases)?,
    })
}

// Its draft before its first statement.
#[tactic(auto, unfolding(cf_print_block::specs::PrinterView::setting_in, crate::specs::Printed::first_draft))]
fn draft_of(printer: &Printer<'_>, has_main: bool, function: &Called) -> Result<Draft, NoMemory>
    ensures { IfOk result (λ d. d ≡ first_draft (setting_in printer.now) has_main function.now) }
{
    let alloc = printer.alloc;
    let opening = opening_of(alloc, printer.language, has_main, function)?;
    let pointers = copies(alloc, &function.pointers)?;
    let taken = both(alloc, &function.params, &function.pointers)?;
    Ok(Draft {
        lines: opening.bytes,
        pointers,
        taken,
        functions: Vec::new(alloc),
        numbers: Vec::new(alloc),
    })
}

// The functions of a draft that is done, and its own.
#[tactic(auto, unfolding(cf_print_block::specs::PrinterView::setting_in))]
fn ended(printer: &Printer<'_>, draft: Draft) -> Result<Vec<u8>, NoMemory>
    ensures { IfOk result (λ all. all.items ≡ all_functions (setting_in printer.now) draft) }
{
    let mut all = draft.functions;
    all.extend_from_slice(&draft.lines)?;
    all.extend_from_slice(end_of(printer.language))?;
    Ok(all)
}

fn first_place() -> Place
    ensures { result ≡ place_of_first }
{
    Place {
        depth: 1,
        exit: Exit::Falls,
        arms: 0,
        giving: Giving::Results,
    }
}

// The functions of a program, of which the last is the one that is called.
#[tactic(auto, unfolding(crate::specs::Printed::functions_of))]
fn functions_of(
    printer: &Printer<'_>,
    has_main: bool,
    function: &Called,
    block: &Block,
) -> Result<Vec<u8>, NoMemory>
    ensures { IfOk result (λ all. all.items ≡ functions_for (setting_in printer.now) has_main function.now (block_tree block.now)) }
{
    let draft = draft_of(printer, has_main, function)?;
    let scope = scope_of(printer.alloc, function)?;
    let done = put_block(printer, scope, block, first_place(), draft)?;
    ended(printer, done)
}

// The file of a program.
fn printed(alloc: Global, emission: &Emission<'_>) -> Result<Text, NoMemory>
    ensures { IfOk result (λ text. text ≡ printed_text (names_in emission.now.hints.now) (printing_of emission.now)) }
{
    let printer = printer_of(alloc, emission);
    let function = called_of(&printer, emission)?;
    let functions = functions_of(&printer, emission.has_main, &function, emission.body)?;
    file_of(
        alloc,
        emission.language,
        emission.has_main,
        emission.source,
        &function,
        functions,
    )
}

// Whether a number of a choose is one of C's `int`.
fn is_int(number: u32) -> bool
    ensures { result ≡ nat_lt number INT_END }
{
    (number as u128) < INT_END
}

fn are_ints(numbers: &[u32]) -> bool
    ensures { result ≡ list_all (λ n. nat_lt n INT_END) numbers.now }
{
    for number in numbers {
        if !is_int(*number) {
            return false;
        }
    }
    true
}

// Whether the number of each choose can be a status.
fn are_statuses(alloc: Global, language: Language, block: &Block) -> Result<bool, NoMemory>
    ensures { IfOk result (λ b. b ≡ statuses language (all_nones (block_tree block.now) [])) }
{
    match language {
        Language::C => {
            let nones = nones_of(block, Vec::new(alloc))?;
            Ok(are_ints(&nones))
        }
        Language::Python | Language::JavaScript | Language::Rust => Ok(true),
    }
}

// The file of a program whose arms are left at their ends alone.
#[tactic(auto, using(crate::proofs::PrintLaws::is_a_print))]
fn checked(alloc: Global, emission: &Emission<'_>) -> Result<Text, NoMemory>
    ensures { IfOk result (λ text. IsPrint (printing_of emission.now) text) }
{
    if !leaves_at_ends(false, emission.body) {
        return Err(NoMemory);
    }
    if !are_statuses(alloc, emission.language, emission.body)? {
        return Err(NoMemory);
    }
    let text = printed(alloc, emission)?;
    Ok(text)
}

/// The program as a file of the language.
///
/// # Errors
/// `Sets` exactly where the language has no sets and a parameter, a result or a part of the program is one. `NoMemory`
/// where memory ran out, and where a statement leaves an arm before its end, and where the language is C and the number of
/// a choose is past its `int`.
pub fn emitted(alloc: Global, emission: &Emission<'_>) -> Result<Text, EmitFault>
    ensures text { IfOk result (λ text. IsPrint (printing_of emission.now) text) }
    ensures free { IfOk result (λ text. the_lacks_sets (printing_of emission.now) ≡ false) }
    ensures sets { IsErrOf result EmitFault.Sets → the_lacks_sets (printing_of emission.now) ≡ true }
{
    if lacks_sets(emission) {
        return Err(EmitFault::Sets);
    }
    match checked(alloc, emission) {
        Ok(text) => Ok(text),
        Err(NoMemory) => Err(EmitFault::NoMemory),
    }
}
