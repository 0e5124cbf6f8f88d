//! Values that get variables.
ghost use Rattle.std.specs.Prelude.{◌≡◌, ◌++◌, ◌∷◌, [], Some, None, IfOk};
ghost use Rattle.cf_stmt.specs.BlockView.{block_tree};
ghost use Rattle.cf_print_line.specs.Layout.{read_lines};
ghost use Rattle.cf_print_block.specs.Places.{name_in, put};
ghost use Rattle.cf_print_block.specs.PrinterView.{setting_in};
ghost use Rattle.cf_print_block.specs.Statements.{all_in_variables as all_of_them, as_variables as those_as_variables, bound_for as bound_for_block, in_variables as those_in_variables, kept as kept_or_not, never_read as no_reader, no_values as without_values, with_let as with_a_let, with_value as with_one_value, with_variable as with_a_variable, wish_for as wish_of};

use crate::draft::{Draft, put_let, put_read};
use crate::place::Place;
use crate::printer::{Printer, outputs_of, words_in};
use crate::values::{AtHand, Wish, variable, wish_at};
use cf_print::new_name;
use cf_print_shape::{block_reads, given_at, next_level};
use cf_stmt::Block;
use cf_tree::{Base, NoMemory, Text};
use std::alloc::Global;
use std::marker::Model;

/// Values, and the draft in which they are at hand.
#[derive(Drop)]
pub(crate) struct Held {
    pub values: Vec<AtHand>,
    pub draft: Draft,
}

impl Model for Held {
    ghost use Rattle.cf_print_block.specs.Places.{Held as HeldValues};

    ghost Value = { HeldValues };

    ghost view = { λ h. record { values = h.values.items; draft = h.draft } };
}

/// No values.
pub(crate) fn no_values(alloc: Global, draft: Draft) -> Held
    ensures { result ≡ without_values draft }
{
    Held {
        values: Vec::new(alloc),
        draft,
    }
}

/// A new name, where this one is wished for.
#[tactic(auto, unfolding(crate::specs::Places::name_in))]
pub(crate) fn named_after(
    printer: &Printer<'_>,
    taken: &[Text],
    base: Base,
    wish: &[u8],
) -> Result<Text, NoMemory>
    ensures { IfOk result (λ name. name ≡ name_in (setting_in printer.now) taken.now base (Some wish.now)) }
{
    let name = new_name(printer.alloc, words_in(printer), taken, base, Some(wish))?;
    Ok(name)
}

// A new name, where none is wished for.
#[tactic(auto, unfolding(crate::specs::Places::name_in))]
fn named_by_base(printer: &Printer<'_>, taken: &[Text], base: Base) -> Result<Text, NoMemory>
    ensures { IfOk result (λ name. name ≡ name_in (setting_in printer.now) taken.now base None) }
{
    let name = new_name(printer.alloc, words_in(printer), taken, base, None)?;
    Ok(name)
}

/// A new name for a value.
pub(crate) fn named(
    printer: &Printer<'_>,
    taken: &[Text],
    base: Base,
    wish: &Option<Text>,
) -> Result<Text, NoMemory>
    ensures { IfOk result (λ name. name ≡ name_in (setting_in printer.now) taken.now base wish.now) }
{
    match wish {
        Some(name) => named_after(printer, taken, base, &name.bytes),
        None => named_by_base(printer, taken, base),
    }
}

// One value more, with the draft in which it is at hand.
fn with_value(value: AtHand, draft: Draft, values: Vec<AtHand>) -> Result<Held, NoMemory>
    ensures { IfOk result (λ h. h ≡ record { values = values.items ++ (value ∷ []); draft = draft }) }
{
    let mut values = values;
    values.push(value)?;
    Ok(Held { values, draft })
}

#[tactic(auto, unfolding(crate::specs::PrinterView::setting_in, crate::specs::Statements::with_let))]
fn with_let(
    printer: &Printer<'_>,
    depth: usize,
    wish: &Wish,
    value: &AtHand,
    held: Held,
) -> Result<Held, NoMemory>
    ensures { IfOk result (λ h. h ≡ with_a_let (setting_in printer.now) depth wish.now value.now held) }
{
    let Held { values, draft } = held;
    let name = named(printer, &draft.taken, value.base, &wish.name)?;
    let written = put_let(draft, printer.language, depth, wish.is_read, &name, value)?;
    let draft = written.taking(printer.alloc, &name)?;
    let here = variable(printer, value.base, value.range, &name)?;
    with_value(here, draft, values)
}

#[tactic(auto, unfolding(crate::specs::PrinterView::setting_in))]
fn with_read(
    printer: &Printer<'_>,
    depth: usize,
    wish: &Wish,
    value: &AtHand,
    held: Held,
) -> Result<Held, NoMemory>
    ensures { IfOk result (λ h. h ≡ with_one_value value.now
        (put (read_lines (setting_in printer.now).language depth wish.now.is_read value.now.text) held.draft) held) }
{
    let Held { values, draft } = held;
    let draft = put_read(draft, printer.language, depth, wish.is_read, &value.text)?;
    let here = value.try_copy(printer.alloc)?;
    with_value(here, draft, values)
}

// A value in a variable, if it is none.
#[tactic(auto, unfolding(crate::specs::Statements::with_variable))]
fn with_variable(
    printer: &Printer<'_>,
    depth: usize,
    wish: &Wish,
    value: &AtHand,
    held: Held,
) -> Result<Held, NoMemory>
    ensures { IfOk result (λ h. h ≡ with_a_variable (setting_in printer.now) depth wish.now value.now held) }
{
    if value.is_variable {
        with_read(printer, depth, wish, value, held)
    } else {
        with_let(printer, depth, wish, value, held)
    }
}

// The wish of a value that a block gets as the variable of a level.
fn wish_for(
    printer: &Printer<'_>,
    place: Place,
    block: &Block,
    level: u32,
) -> Result<Wish, NoMemory>
    ensures { IfOk result (λ w. w ≡ wish_of (setting_in printer.now) place (block_tree block.now) level) }
{
    let given = given_at(0, block, level)?;
    let is_read = block_reads(level, block)?;
    Ok(Wish {
        name: wish_at(printer.alloc, outputs_of(printer, place.giving), given)?,
        is_read,
    })
}

// One value more in a variable, which is that of a level of a block.
fn as_variable(
    printer: &Printer<'_>,
    place: Place,
    block: &Block,
    level: u32,
    value: &AtHand,
    held: Held,
) -> Result<Held, NoMemory>
    ensures { IfOk result (λ h. h ≡ with_a_variable (setting_in printer.now) place.depth
        (wish_of (setting_in printer.now) place (block_tree block.now) level) value.now held) }
{
    let wish = wish_for(printer, place, block, level)?;
    with_variable(printer, place.depth, &wish, value, held)
}

// Values in variables, which are those of a block from a level on.
fn as_variables(
    printer: &Printer<'_>,
    place: Place,
    block: &Block,
    first: u32,
    values: &[AtHand],
    start: Held,
) -> Result<Held, NoMemory>
    ensures { IfOk result (λ h. h ≡ those_as_variables (setting_in printer.now) place (block_tree block.now) first values.now start) }
{
    let mut held = start;
    let mut level = first;
    for value in values {
        held = as_variable(printer, place, block, level, value, held)?;
        level = next_level(level)?;
    }
    Ok(held)
}

/// Values for a block that reads them as the variables from a level on.
#[tactic(auto, unfolding(crate::specs::Statements::bound_for))]
pub(crate) fn bound_for(
    printer: &Printer<'_>,
    place: Place,
    level: u32,
    block: &Block,
    held: Held,
) -> Result<Held, NoMemory>
    ensures { IfOk result (λ h. h ≡ bound_for_block (setting_in printer.now) place level (block_tree block.now) held) }
{
    let Held { values, draft } = held;
    let start = no_values(printer.alloc, draft);
    as_variables(printer, place, block, level, &values, start)
}

// Values in variables, each by the same wish.
fn in_variables(
    printer: &Printer<'_>,
    depth: usize,
    wish: &Wish,
    values: &[AtHand],
    start: Held,
) -> Result<Held, NoMemory>
    ensures { IfOk result (λ h. h ≡ those_in_variables (setting_in printer.now) depth wish.now values.now start) }
{
    let mut held = start;
    for value in values {
        held = with_variable(printer, depth, wish, value, held)?;
    }
    Ok(held)
}

#[tactic(auto, unfolding(crate::specs::Statements::all_in_variables))]
fn all_in_variables(
    printer: &Printer<'_>,
    depth: usize,
    wish: &Wish,
    held: Held,
) -> Result<Held, NoMemory>
    ensures { IfOk result (λ h. h ≡ all_of_them (setting_in printer.now) depth wish.now held) }
{
    let Held { values, draft } = held;
    let start = no_values(printer.alloc, draft);
    in_variables(printer, depth, wish, &values, start)
}

/// Values that stay as they are where no statement comes between.
#[tactic(auto, unfolding(crate::specs::Statements::kept))]
pub(crate) fn kept(
    printer: &Printer<'_>,
    depth: usize,
    is_plain: bool,
    held: Held,
) -> Result<Held, NoMemory>
    ensures { IfOk result (λ h. h ≡ kept_or_not (setting_in printer.now) depth is_plain held) }
{
    if is_plain {
        Ok(held)
    } else {
        let wish = Wish {
            name: None,
            is_read: true,
        };
        all_in_variables(printer, depth, &wish, held)
    }
}

/// The draft behind values that no statement reads, each in a variable.
pub(crate) fn never_read(printer: &Printer<'_>, depth: usize, held: Held) -> Result<Draft, NoMemory>
    ensures { IfOk result (λ d. d ≡ (all_of_them (setting_in printer.now) depth no_reader held).draft) }
{
    let wish = Wish {
        name: None,
        is_read: false,
    };
    let bound = all_in_variables(printer, depth, &wish, held)?;
    Ok(draft_of(bound))
}

fn draft_of(held: Held) -> Draft
    ensures { result ≡ held.draft }
{
    held.draft
}

/// Values with others behind them.
pub(crate) fn joined(first: Vec<AtHand>, second: Held) -> Result<Held, NoMemory>
    ensures { IfOk result (λ h. h ≡ record { values = first.items ++ second.values; draft = second.draft }) }
{
    let Held { values, draft } = second;
    let mut all = first;
    let mut more = values;
    all.append(&mut more)?;
    Ok(Held { values: all, draft })
}
