//! The names of functions, of results and of pointers to them.
ghost use Rattle.std.specs.Prelude.{◌≡◌, suc, if◌then◌else◌, IfOk};
ghost use Rattle.cf_print_block.specs.Places.{name_in};
ghost use Rattle.cf_print_block.specs.PrinterView.{setting_in};
ghost use Rattle.cf_print_block.specs.Statements.{first_name as first_name_of, function_name as function_named, has_pointers as has_pointers_in, names_for as names_wished, numbered_name as nth_name_of, pointer_wish as wish_of_pointer, pointers_for as pointers_wished, role_wish as wish_of_role, times_in as times_among};

use crate::printer::Printer;
use crate::values::nth_wish;
use crate::variables::named;
use cf_print::{Language, copies, next};
use cf_tree::{Base, NoMemory, Text, put_number};
use std::alloc::Global;

/// What variables are that get names.
#[derive(Clone, Copy, Debug, PartialEq, Eq)]
pub enum Role {
    Value,
    /// A pointer to a result.
    Pointer,
}

// How often a number stands among others.
#[tactic(auto, using(crate::proofs::LoopLaws::one_counted))]
fn times_in(number: u32, numbers: &[u32]) -> Result<usize, NoMemory>
    ensures { IfOk result (λ n. n ≡ times_among number numbers.now) }
{
    let mut times: usize = 0;
    for other in numbers {
        times = counted(times, number == *other)?;
    }
    Ok(times)
}

fn counted(times: usize, is_one: bool) -> Result<usize, NoMemory>
    ensures { IfOk result (λ n. n ≡ (if is_one then suc times else times)) }
{
    if is_one { next(times) } else { Ok(times) }
}

fn first_name(alloc: Global, number: u32) -> Result<Text, NoMemory>
    ensures { IfOk result (λ name. name ≡ first_name_of number) }
{
    if number == 0 {
        return Ok(Text {
            bytes: Vec::from_slice(alloc, b"part")?,
        });
    }
    let mut bytes = Vec::from_slice(alloc, b"choose_")?;
    put_number(&mut bytes, number)?;
    Ok(Text { bytes })
}

// The name behind so many functions for the same choose, or for parts of main.
fn numbered_name(alloc: Global, number: u32, times: usize) -> Result<Text, NoMemory>
    ensures { IfOk result (λ name. name ≡ nth_name_of number times) }
{
    let name = first_name(alloc, number)?;
    if times == 0 {
        return Ok(name);
    }
    let mut bytes = name.bytes;
    bytes.extend_from_slice(b"_")?;
    put_number(&mut bytes, next(times)?)?;
    Ok(Text { bytes })
}

/// The name of the next function for the choose of this number, or for a part of main where that is 0.
#[tactic(auto, unfolding(crate::specs::Statements::function_name))]
pub(crate) fn function_name(alloc: Global, number: u32, numbers: &[u32]) -> Result<Text, NoMemory>
    ensures { IfOk result (λ name. name ≡ function_named number numbers.now) }
{
    let times = times_in(number, numbers)?;
    numbered_name(alloc, number, times)
}

fn pointer_wish(alloc: Global, wish: Option<Text>) -> Result<Text, NoMemory>
    ensures { IfOk result (λ name. name ≡ wish_of_pointer wish) }
{
    match wish {
        None => Ok(Text {
            bytes: Vec::from_slice(alloc, b"out")?,
        }),
        Some(name) => {
            let mut bytes = Vec::from_slice(alloc, b"out_")?;
            bytes.extend_from_slice(&name.bytes)?;
            Ok(Text { bytes })
        }
    }
}

fn role_wish(alloc: Global, role: Role, asked: &[Text], k: usize) -> Result<Option<Text>, NoMemory>
    ensures { IfOk result (λ wish. wish ≡ wish_of_role role asked.now k) }
{
    let wish = nth_wish(alloc, asked, k)?;
    match role {
        Role::Value => Ok(wish),
        Role::Pointer => Ok(Some(pointer_wish(alloc, wish)?)),
    }
}

// A name for the k-th of some variables.
fn name_for(
    printer: &Printer<'_>,
    role: Role,
    asked: &[Text],
    k: usize,
    base: Base,
    taken: &[Text],
) -> Result<Text, NoMemory>
    ensures { IfOk result (λ name. name ≡ name_in (setting_in printer.now) taken.now base (wish_of_role role asked.now k)) }
{
    let wish = role_wish(printer.alloc, role, asked, k)?;
    named(printer, taken, base, &wish)
}

/// Names for variables of these bases, behind those that are taken.
pub fn names_for(
    printer: &Printer<'_>,
    role: Role,
    asked: &[Text],
    bases: &[Base],
    taken: &[Text],
) -> Result<Vec<Text>, NoMemory>
    ensures { IfOk result (λ names. names.items ≡ names_wished (setting_in printer.now) role asked.now 0 bases.now taken.now) }
{
    let mut names = Vec::new(printer.alloc);
    let mut all = copies(printer.alloc, taken)?;
    let mut k: usize = 0;
    for base in bases {
        let name = name_for(printer, role, asked, k, *base, &all)?;
        all.push(name.try_copy(printer.alloc)?)?;
        names.push(name)?;
        k = next(k)?;
    }
    Ok(names)
}

fn has_pointers(language: Language) -> bool
    ensures { result ≡ has_pointers_in language }
{
    match language {
        Language::C => true,
        Language::Python | Language::JavaScript | Language::Rust => false,
    }
}

/// The names of pointers to results, where the language has them.
#[tactic(auto, unfolding(crate::specs::PrinterView::setting_in))]
pub fn pointers_for(
    printer: &Printer<'_>,
    asked: &[Text],
    bases: &[Base],
    taken: &[Text],
) -> Result<Vec<Text>, NoMemory>
    ensures { IfOk result (λ names. names.items ≡ pointers_wished (setting_in printer.now) asked.now bases.now taken.now) }
{
    if has_pointers(printer.language) {
        names_for(printer, Role::Pointer, asked, bases, taken)
    } else {
        Ok(Vec::new(printer.alloc))
    }
}
