//! The function that is called: its first line, and what stands before its first statement.
ghost use Rattle.std.specs.Prelude.{◌≡◌, ◌++◌, ◌∷◌, [], codes, drop, IfOk, OnOk};
ghost use Rattle.cf_print_rust.specs.Files.{first_line, check, checks, comment, comment_by, opening};

use crate::texts;
use cf_print::{Language, put_pieces, text_of_pieces};
use cf_print_line::{Called, about_main, about_nones, all_parameters, head_text};
use cf_tree::{Base, NoMemory, Text};
use std::alloc::Global;

// The check of an argument.
fn put_check(out: &mut Vec<u8>, name: &[u8], base: Base) -> Result<(), NoMemory>
    ensures { OnOk result (out.new.items ≡ out.old.items ++ check name.now base) }
{
    match base {
        Base::Int => put_pieces(out, &[b"    fit(Some(".as_slice(), name, texts::FITS]),
        Base::Bool => Ok(()),
        Base::Set => put_pieces(
            out,
            &[b"    for item in ".as_slice(), name, texts::EACH_ITEM],
        ),
    }
}

fn put_checks(out: &mut Vec<u8>, names: &[Text], bases: &[Base]) -> Result<(), NoMemory>
    ensures { OnOk result (out.new.items ≡ out.old.items ++ checks names.now bases.now) }
{
    let mut left = bases;
    for name in names {
        match left.split_first() {
            None => return Ok(()),
            Some((base, more)) => {
                put_check(out, &name.bytes, *base)?;
                left = more;
            }
        }
    }
    Ok(())
}

// Its first line, from its word on.
fn first_line_of(alloc: Global, function: &Called) -> Result<Text, NoMemory>
    ensures { IfOk result (λ t. t ≡ first_line function.now) }
{
    let params = all_parameters(
        alloc,
        Language::Rust,
        &function.params,
        &function.bases,
        &function.pointers,
        &function.results,
    )?;
    head_text(
        alloc,
        Language::Rust,
        &function.name.bytes,
        &params,
        &function.results,
    )
}

// The comment before it.
fn comment_of(alloc: Global, function: &Called) -> Result<Text, NoMemory>
    ensures { IfOk result (λ t. t ≡ comment function.now) }
{
    let about = about_main(alloc, &function.result_names)?;
    let nones = about_nones(alloc, b"/// ", b"`NoSolution`", &function.nones)?;
    comment_with(alloc, &about.bytes, &nones.bytes)
}

#[tactic(auto, unfolding(crate::specs::Files::comment_by))]
fn comment_with<'x>(alloc: Global, about: &'x [u8], nones: &'x [u8]) -> Result<Text, NoMemory>
    ensures { IfOk result (λ t. t ≡ comment_by about.now nones.now) }
{
    text_of_pieces(
        alloc,
        &[
            b"\n/// ".as_slice(),
            about,
            b"\n///\n".as_slice(),
            nones,
            texts::PAST,
        ],
    )
}

/// The lines of a function that is called, before its first statement.
pub fn opening_of(alloc: Global, function: &Called) -> Result<Text, NoMemory>
    ensures { IfOk result (λ t. t ≡ opening function.now) }
{
    let comment = comment_of(alloc, function)?;
    let head = first_line_of(alloc, function)?;
    let mut checks = Vec::new(alloc);
    put_checks(&mut checks, &function.params, &function.bases)?;
    text_of_pieces(
        alloc,
        &[
            comment.bytes.as_slice(),
            head.bytes.as_slice(),
            checks.as_slice(),
        ],
    )
}
