//! Lines of a place, behind a draft.
ghost use Rattle.std.specs.Prelude.{◌≡◌, ◌++◌, IfOk, OnOk};
ghost use Rattle.cf_stmt.specs.BlockView.{block_tree};
ghost use Rattle.cf_print_line.specs.Layout.{else_lines, end_lines, if_text, line, scope_lines};
ghost use Rattle.cf_print_block.specs.Places.{put};
ghost use Rattle.cf_print_block.specs.PrinterView.{setting_in};
ghost use Rattle.cf_print_block.specs.Statements.{arm_comment, arm_lines, arm_text as text_of_arm, exit_lines, give_back as given_back, guard_lines, last_arm_lines, loop_ends, put_when};

use crate::draft::Draft;
use crate::place::Place;
use crate::printer::Printer;
use crate::values::texts_of;
use crate::variables::Held;
use cf_print::{Language, next, sum_of};
use cf_print_line::{layout, put_give};
use cf_print_shape::Exit;
use cf_stmt::Block;
use cf_tree::{NoMemory, Text, put_number};
use std::alloc::Global;

// What comes where an arm is left.
fn put_exit_lines(
    out: &mut Vec<u8>,
    language: Language,
    depth: usize,
    exit: Exit,
) -> Result<(), NoMemory>
    ensures { OnOk result (out.new.items ≡ out.old.items ++ exit_lines language depth exit) }
{
    match exit {
        Exit::Falls => layout::put_fall(out, language, depth),
        Exit::GoesOn => layout::put_next(out, language, depth),
        Exit::Ends(number) => layout::put_none(out, language, depth, number),
    }
}

/// The draft in which the arm is left.
#[tactic(auto, unfolding(crate::specs::PrinterView::setting_in, crate::specs::Places::put))]
pub(crate) fn put_exit(
    printer: &Printer<'_>,
    place: Place,
    exit: Exit,
    draft: Draft,
) -> Result<Draft, NoMemory>
    ensures { IfOk result (λ d. d ≡ put (exit_lines (setting_in printer.now).language place.depth exit) draft) }
{
    let mut draft = draft;
    put_exit_lines(&mut draft.lines, printer.language, place.depth, exit)?;
    Ok(draft)
}

fn put_guard_lines(
    out: &mut Vec<u8>,
    language: Language,
    depth: usize,
    condition: &[u8],
    exit: Exit,
) -> Result<(), NoMemory>
    ensures { OnOk result (out.new.items ≡ out.old.items ++ guard_lines language depth condition.now exit) }
{
    layout::put_guard(out, language, depth, condition)?;
    put_exit_lines(out, language, next(depth)?, exit)?;
    layout::put_guard_end(out, language, depth)?;
    Ok(())
}

/// The draft in which the block is left where a condition holds.
#[tactic(auto, unfolding(crate::specs::PrinterView::setting_in, crate::specs::Places::put))]
pub(crate) fn put_guard(
    printer: &Printer<'_>,
    place: Place,
    condition: &Text,
    exit: Exit,
    draft: Draft,
) -> Result<Draft, NoMemory>
    ensures { IfOk result (λ d. d ≡ put (guard_lines (setting_in printer.now).language place.depth condition.now exit) draft) }
{
    let mut draft = draft;
    put_guard_lines(
        &mut draft.lines,
        printer.language,
        place.depth,
        &condition.bytes,
        exit,
    )?;
    Ok(draft)
}

/// The draft in which what follows stands deeper, where a condition holds.
#[tactic(auto, unfolding(crate::specs::PrinterView::setting_in, crate::specs::Places::put))]
pub(crate) fn put_if(
    printer: &Printer<'_>,
    place: Place,
    condition: &Text,
    draft: Draft,
) -> Result<Draft, NoMemory>
    ensures { IfOk result (λ d. d ≡ put (line (setting_in printer.now).language place.depth (if_text (setting_in printer.now).language condition.now)) draft) }
{
    let mut draft = draft;
    layout::put_if(
        &mut draft.lines,
        printer.language,
        place.depth,
        &condition.bytes,
    )?;
    Ok(draft)
}

/// The draft with the line before the other side of a condition.
#[tactic(auto, unfolding(crate::specs::PrinterView::setting_in, crate::specs::Places::put))]
pub(crate) fn put_else(printer: &Printer<'_>, place: Place, draft: Draft) -> Result<Draft, NoMemory>
    ensures { IfOk result (λ d. d ≡ put (else_lines (setting_in printer.now).language place.depth) draft) }
{
    let mut draft = draft;
    layout::put_else(&mut draft.lines, printer.language, place.depth)?;
    Ok(draft)
}

/// The draft with the end of what stood deeper.
#[tactic(auto, unfolding(crate::specs::PrinterView::setting_in, crate::specs::Places::put))]
pub(crate) fn put_end(printer: &Printer<'_>, place: Place, draft: Draft) -> Result<Draft, NoMemory>
    ensures { IfOk result (λ d. d ≡ put (end_lines (setting_in printer.now).language place.depth) draft) }
{
    let mut draft = draft;
    layout::put_end(&mut draft.lines, printer.language, place.depth)?;
    Ok(draft)
}

// The draft with the line before an arm whose variables are its own.
#[tactic(auto, unfolding(crate::specs::PrinterView::setting_in, crate::specs::Places::put))]
fn put_scope(printer: &Printer<'_>, place: Place, draft: Draft) -> Result<Draft, NoMemory>
    ensures { IfOk result (λ d. d ≡ put (scope_lines (setting_in printer.now).language place.depth) draft) }
{
    let mut draft = draft;
    layout::put_scope(&mut draft.lines, printer.language, place.depth)?;
    Ok(draft)
}

/// The draft with the line before an arm that has a scope.
pub(crate) fn open_scope(
    printer: &Printer<'_>,
    place: Place,
    scoped: bool,
    draft: Draft,
) -> Result<Draft, NoMemory>
    ensures { IfOk result (λ d. d ≡ put_when scoped (scope_lines (setting_in printer.now).language place.depth) draft) }
{
    if scoped {
        return put_scope(printer, place, draft);
    }
    Ok(draft)
}

/// The draft with the line behind an arm that has a scope.
pub(crate) fn close_scope(
    printer: &Printer<'_>,
    place: Place,
    scoped: bool,
    draft: Draft,
) -> Result<Draft, NoMemory>
    ensures { IfOk result (λ d. d ≡ put_when scoped (end_lines (setting_in printer.now).language place.depth) draft) }
{
    if scoped {
        return put_end(printer, place, draft);
    }
    Ok(draft)
}

// The words of an arm behind so many others.
fn arm_text(alloc: Global, arms: usize) -> Result<Text, NoMemory>
    ensures { IfOk result (λ t. t ≡ text_of_arm arms) }
{
    let mut bytes = Vec::from_slice(alloc, b"Arm ")?;
    put_number(&mut bytes, next(arms)?)?;
    bytes.extend_from_slice(b".")?;
    Ok(Text { bytes })
}

fn put_arm_comment(
    alloc: Global,
    out: &mut Vec<u8>,
    language: Language,
    place: Place,
) -> Result<(), NoMemory>
    ensures { OnOk result (out.new.items ≡ out.old.items ++ arm_comment language place) }
{
    let text = arm_text(alloc, place.arms)?;
    layout::put_comment(out, language, place.depth, &text.bytes)
}

fn put_arm_lines(
    alloc: Global,
    out: &mut Vec<u8>,
    language: Language,
    place: Place,
    last: Option<u32>,
) -> Result<(), NoMemory>
    ensures { OnOk result (out.new.items ≡ out.old.items ++ arm_lines language place last) }
{
    match last {
        Some(_) => if place.arms == 0 {
            Ok(())
        } else {
            put_arm_comment(alloc, out, language, place)
        },
        None => put_arm_comment(alloc, out, language, place),
    }
}

/// The draft with what tells an arm among several.
#[tactic(auto, unfolding(crate::specs::PrinterView::setting_in, crate::specs::Places::put))]
pub(crate) fn put_arm(
    printer: &Printer<'_>,
    place: Place,
    last: Option<u32>,
    draft: Draft,
) -> Result<Draft, NoMemory>
    ensures { IfOk result (λ d. d ≡ put (arm_lines (setting_in printer.now).language place last) draft) }
{
    let mut draft = draft;
    put_arm_lines(
        printer.alloc,
        &mut draft.lines,
        printer.language,
        place,
        last,
    )?;
    Ok(draft)
}

fn put_last_arm_lines(
    alloc: Global,
    out: &mut Vec<u8>,
    language: Language,
    place: Place,
    block: &Block,
) -> Result<(), NoMemory>
    ensures { OnOk result (out.new.items ≡ out.old.items ++ last_arm_lines language place (block_tree block.now)) }
{
    match block {
        Block::Arm { .. } | Block::Stop(_) | Block::Leave => Ok(()),
        Block::Give(_)
        | Block::Bind(_, _)
        | Block::Part(_, _)
        | Block::Join(_, _)
        | Block::Test { .. } => put_arm_comment(alloc, out, language, place),
    }
}

/// The draft with what tells the last arm behind others, where nothing but its statements is left of it.
#[tactic(auto, unfolding(crate::specs::PrinterView::setting_in, crate::specs::Places::put))]
pub(crate) fn put_last_arm(
    printer: &Printer<'_>,
    place: Place,
    block: &Block,
    draft: Draft,
) -> Result<Draft, NoMemory>
    ensures { IfOk result (λ d. d ≡ put (last_arm_lines (setting_in printer.now).language place (block_tree block.now)) draft) }
{
    let mut draft = draft;
    put_last_arm_lines(
        printer.alloc,
        &mut draft.lines,
        printer.language,
        place,
        block,
    )?;
    Ok(draft)
}

// The ends of so many loops, the inner ones first.
fn put_ends(
    out: &mut Vec<u8>,
    language: Language,
    depth: usize,
    count: usize,
) -> Result<(), NoMemory>
    ensures { OnOk result (out.new.items ≡ out.old.items ++ loop_ends language depth count) }
{
    for i in 0..count {
        let inner = sum_of(depth, count - 1 - i)?;
        layout::put_end(out, language, inner)?;
    }
    Ok(())
}

/// The draft with the ends of so many loops.
#[tactic(auto, unfolding(crate::specs::PrinterView::setting_in, crate::specs::Places::put))]
pub(crate) fn put_loop_ends(
    printer: &Printer<'_>,
    place: Place,
    count: usize,
    draft: Draft,
) -> Result<Draft, NoMemory>
    ensures { IfOk result (λ d. d ≡ put (loop_ends (setting_in printer.now).language place.depth count) draft) }
{
    let mut draft = draft;
    put_ends(&mut draft.lines, printer.language, place.depth, count)?;
    Ok(draft)
}

/// The draft in which values are given.
#[tactic(auto, unfolding(crate::specs::PrinterView::setting_in, crate::specs::Places::put, crate::specs::Statements::give_back))]
pub(crate) fn give_back(printer: &Printer<'_>, place: Place, held: Held) -> Result<Draft, NoMemory>
    ensures { IfOk result (λ d. d ≡ given_back (setting_in printer.now) place held) }
{
    let Held { values, draft } = held;
    let texts = texts_of(printer.alloc, printer.language, &values)?;
    let Draft {
        mut lines,
        pointers,
        taken,
        functions,
        numbers,
    } = draft;
    put_give(
        printer.alloc,
        &mut lines,
        printer.language,
        place.depth,
        &pointers,
        &texts,
    )?;
    Ok(Draft {
        lines,
        pointers,
        taken,
        functions,
        numbers,
    })
}
