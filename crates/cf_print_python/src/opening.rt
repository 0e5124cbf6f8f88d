//! The function that is called: its first line, and what stands before its first statement.
ghost use Rattle.std.specs.Prelude.{◌≡◌, ◌++◌, ◌∷◌, [], codes, drop, nat_eq, true, IfOk, OnOk};
ghost use Rattle.cf_print_python.specs.Files.{first_line, called_parameter as parameter_of_called, called_parameters as parameters_of_called, check as check_of, checks as checks_of, opening, opening_by};

use crate::texts;
use cf_print::{Language, put_pieces, text_of_pieces};
use cf_print_line::{Called, about_main, about_nones, head_text, parameter_text};
use cf_tree::{Base, NoMemory, Text};
use std::alloc::Global;

// The check of an argument of Python.
fn put_check(out: &mut Vec<u8>, name: &[u8], base: Base) -> Result<(), NoMemory>
    ensures { OnOk result (out.new.items ≡ out.old.items ++ check_of name.now base) }
{
    match base {
        Base::Int => put_pieces(out, &[b"    whole(".as_slice(), name, b")\n".as_slice()]),
        Base::Bool => put_pieces(out, &[b"    truth(".as_slice(), name, b")\n".as_slice()]),
        Base::Set => put_pieces(
            out,
            &[
                b"    ".as_slice(),
                name,
                texts::AS_NUMBERS,
                name,
                b")\n".as_slice(),
            ],
        ),
    }
}

fn put_checks(out: &mut Vec<u8>, names: &[Text], bases: &[Base]) -> Result<(), NoMemory>
    ensures { OnOk result (out.new.items ≡ out.old.items ++ checks_of names.now bases.now) }
{
    let mut left = bases;
    for name in names {
        match left.split_first() {
            None => return Ok(()),
            Some((base, more)) => {
                put_check(out, &name.bytes, *base)?;
                left = more;
            }
        }
    }
    Ok(())
}

fn called_parameter(alloc: Global, name: &[u8], base: Base) -> Result<Text, NoMemory>
    ensures { IfOk result (λ t. t ≡ parameter_of_called name.now base) }
{
    match base {
        Base::Set => {
            let mut bytes = Vec::from_slice(alloc, name)?;
            bytes.extend_from_slice(b": Iterable[int]")?;
            Ok(Text { bytes })
        }
        Base::Int => parameter_text(alloc, Language::Python, name, Base::Int),
        Base::Bool => parameter_text(alloc, Language::Python, name, Base::Bool),
    }
}

fn called_parameters(alloc: Global, names: &[Text], bases: &[Base]) -> Result<Vec<Text>, NoMemory>
    ensures { IfOk result (λ all. all.items ≡ parameters_of_called names.now bases.now) }
{
    let mut all = Vec::new(alloc);
    let mut left = bases;
    for name in names {
        match left.split_first() {
            None => return Ok(all),
            Some((base, more)) => {
                all.push(called_parameter(alloc, &name.bytes, *base)?)?;
                left = more;
            }
        }
    }
    Ok(all)
}

// Its first line.
fn first_line_of(alloc: Global, function: &Called) -> Result<Text, NoMemory>
    ensures { IfOk result (λ t. t ≡ first_line function.now) }
{
    let params = called_parameters(alloc, &function.params, &function.bases)?;
    head_text(
        alloc,
        Language::Python,
        &function.name.bytes,
        &params,
        &function.results,
    )
}

/// The lines of a function that is called, before its first statement.
pub fn opening_of(alloc: Global, function: &Called) -> Result<Text, NoMemory>
    ensures { IfOk result (λ t. t ≡ opening function.now) }
{
    let head = first_line_of(alloc, function)?;
    let about = about_main(alloc, &function.result_names)?;
    let nones = about_nones(alloc, b"    ", b"NoSolution", &function.nones)?;
    let mut checks = Vec::new(alloc);
    put_checks(&mut checks, &function.params, &function.bases)?;
    opening_with(alloc, &head.bytes, &about.bytes, &nones.bytes, &checks)
}

#[tactic(auto, unfolding(crate::specs::Files::opening_by))]
fn opening_with<'x>(
    alloc: Global,
    head: &'x [u8],
    about: &'x [u8],
    nones: &'x [u8],
    checks: &'x [u8],
) -> Result<Text, NoMemory>
    ensures { IfOk result (λ t. t ≡ opening_by head.now about.now nones.now checks.now) }
{
    text_of_pieces(
        alloc,
        &[
            b"\n\n".as_slice(),
            head,
            b"    \"\"\"".as_slice(),
            about,
            b"\n\n".as_slice(),
            nones,
            texts::PAST,
            checks,
        ],
    )
}
