//! What is printed, and the names that it wishes for.
ghost use Rattle.std.specs.Prelude.{◌≡◌};
ghost use Rattle.cf_print_block.specs.PrinterView.{outputs_in};
ghost use Rattle.cf_print_block.specs.Places.{giving as giving_at, outputs_at, table, words as reserved};
ghost use Rattle.cf_print_block.specs.PrinterView.{setting_in};

use crate::place::{Giving, Place};
use cf_print::{Language, words_of};
use cf_print_term::{Table, table_of};
use cf_tree::Text;
use std::alloc::Global;

/// The names of the outputs of a choose.
#[derive(Drop)]
pub struct Outputs {
    /// The number of the choose.
    pub number: u32,
    pub names: Vec<Text>,
}

/// The language, and the names that are wished for: those of main's results, and of the outputs of chooses.
#[derive(Clone, Copy)]
pub struct Printer<'a> {
    pub alloc: Global,
    pub language: Language,
    pub results: &'a [Text],
    pub outputs: &'a [Outputs],
}

/// The language.
#[tactic(auto, unfolding(crate::specs::PrinterView::setting_in))]
pub(crate) fn language_in(printer: &Printer<'_>) -> Language
    ensures { result ≡ (setting_in printer.now).language }
{
    printer.language
}

/// The expressions of the language.
#[tactic(auto, unfolding(crate::specs::PrinterView::setting_in))]
pub(crate) fn table_in(printer: &Printer<'_>) -> Table
    ensures { result ≡ table (setting_in printer.now) }
{
    table_of(printer.language)
}

/// The words that no variable may have for its name.
#[tactic(auto, unfolding(crate::specs::PrinterView::setting_in))]
pub(crate) fn words_in(printer: &Printer<'_>) -> &'static [u8]
    ensures { result.now ≡ reserved (setting_in printer.now) }
{
    words_of(printer.language)
}

// The names of the outputs of a choose.
fn names_of(outputs: &[Outputs], number: u32) -> &[Text]
    ensures { result.now ≡ outputs_in outputs.now number }
{
    for choose in outputs {
        if choose.number == number {
            return &choose.names;
        }
    }
    &[]
}

/// The names of the outputs that a place gives.
#[tactic(auto, unfolding(crate::specs::PrinterView::setting_in))]
pub(crate) fn outputs_of<'a>(printer: &Printer<'a>, giving: Giving) -> &'a [Text]
    ensures { result.now ≡ outputs_at (setting_in printer.now) giving }
{
    match giving {
        Giving::Results => printer.results,
        Giving::Choose(number) => names_of(printer.outputs, number),
        Giving::Part => &[],
    }
}

/// A place at the arms of a choose.
#[tactic(auto, unfolding(crate::specs::PrinterView::setting_in, crate::specs::Places::giving))]
pub(crate) fn giving(printer: &Printer<'_>, number: u32, place: Place) -> Place
    ensures { result ≡ giving_at (setting_in printer.now) number place }
{
    if names_of(printer.outputs, number).len() == 0 {
        place
    } else {
        Place {
            depth: place.depth,
            exit: place.exit,
            arms: place.arms,
            giving: Giving::Choose(number),
        }
    }
}

/// The names of the outputs of the choose of this number.
#[tactic(auto, unfolding(crate::specs::PrinterView::setting_in))]
pub(crate) fn outputs_of_choose<'a>(printer: &Printer<'a>, number: u32) -> &'a [Text]
    ensures { result.now ≡ (setting_in printer.now).outputs number }
{
    names_of(printer.outputs, number)
}
