//! The function that is called: its first line, and what stands before its first statement.
ghost use Rattle.std.specs.Prelude.{◌≡◌, ◌++◌, ◌∷◌, [], codes, drop, nat_eq, true, IfOk, OnOk};
ghost use Rattle.cf_print_js.specs.Files.{first_line, given_base as base_given, check, checks, comment, comment_by, opening, param, params};

use crate::texts;
use cf_print::{Language, put_pieces, text_of_pieces};
use cf_print_line::{
    Called, about_main, about_nones, all_parameters, base_text, head_text, results_text,
};
use cf_tree::{Base, NoMemory, Text};
use std::alloc::Global;

// What a caller of JavaScript gives.
fn given_base<'x>(base: Base) -> &'x [u8]
    ensures { result.now ≡ base_given base }
{
    match base {
        Base::Int => base_text(Language::JavaScript, Base::Int),
        Base::Bool => base_text(Language::JavaScript, Base::Bool),
        Base::Set => b"Iterable<bigint>",
    }
}

fn put_param(out: &mut Vec<u8>, name: &[u8], base: Base) -> Result<(), NoMemory>
    ensures { OnOk result (out.new.items ≡ out.old.items ++ param name.now base) }
{
    put_pieces(
        out,
        &[
            b" * @param {".as_slice(),
            given_base(base),
            b"} ".as_slice(),
            name,
            b"\n".as_slice(),
        ],
    )
}

fn put_params(out: &mut Vec<u8>, names: &[Text], bases: &[Base]) -> Result<(), NoMemory>
    ensures { OnOk result (out.new.items ≡ out.old.items ++ params names.now bases.now) }
{
    let mut left = bases;
    for name in names {
        match left.split_first() {
            None => return Ok(()),
            Some((base, more)) => {
                put_param(out, &name.bytes, *base)?;
                left = more;
            }
        }
    }
    Ok(())
}

// The check of an argument of JavaScript.
fn put_check(out: &mut Vec<u8>, name: &[u8], base: Base) -> Result<(), NoMemory>
    ensures { OnOk result (out.new.items ≡ out.old.items ++ check name.now base) }
{
    match base {
        Base::Int => put_pieces(out, &[b"  whole(".as_slice(), name, b");\n".as_slice()]),
        Base::Bool => put_pieces(out, &[b"  truth(".as_slice(), name, b");\n".as_slice()]),
        Base::Set => put_pieces(
            out,
            &[
                b"  ".as_slice(),
                name,
                texts::AS_NUMBERS,
                name,
                b");\n".as_slice(),
            ],
        ),
    }
}

fn put_checks(out: &mut Vec<u8>, names: &[Text], bases: &[Base]) -> Result<(), NoMemory>
    ensures { OnOk result (out.new.items ≡ out.old.items ++ checks names.now bases.now) }
{
    let mut left = bases;
    for name in names {
        match left.split_first() {
            None => return Ok(()),
            Some((base, more)) => {
                put_check(out, &name.bytes, *base)?;
                left = more;
            }
        }
    }
    Ok(())
}

// Its first line.
fn first_line_of(alloc: Global, function: &Called) -> Result<Text, NoMemory>
    ensures { IfOk result (λ t. t ≡ first_line function.now) }
{
    let params = all_parameters(
        alloc,
        Language::JavaScript,
        &function.params,
        &function.bases,
        &function.pointers,
        &function.results,
    )?;
    let head = head_text(
        alloc,
        Language::JavaScript,
        &function.name.bytes,
        &params,
        &function.results,
    )?;
    text_of_pieces(alloc, &[b"export ".as_slice(), head.bytes.as_slice()])
}

// The comment before it.
fn comment_of(alloc: Global, function: &Called) -> Result<Text, NoMemory>
    ensures { IfOk result (λ t. t ≡ comment function.now) }
{
    let about = about_main(alloc, &function.result_names)?;
    let nones = about_nones(alloc, b" * ", b"NoSolution", &function.nones)?;
    let mut params = Vec::new(alloc);
    put_params(&mut params, &function.params, &function.bases)?;
    let results = results_text(alloc, Language::JavaScript, &function.results)?;
    comment_with(alloc, &about.bytes, &nones.bytes, &params, &results.bytes)
}

#[tactic(auto, unfolding(crate::specs::Files::comment_by))]
fn comment_with<'x>(
    alloc: Global,
    about: &'x [u8],
    nones: &'x [u8],
    params: &'x [u8],
    results: &'x [u8],
) -> Result<Text, NoMemory>
    ensures { IfOk result (λ t. t ≡ comment_by about.now nones.now params.now results.now) }
{
    text_of_pieces(
        alloc,
        &[
            b"\n/**\n * ".as_slice(),
            about,
            b"\n".as_slice(),
            nones,
            texts::PAST,
            params,
            texts::RETURNS,
            results,
            texts::THROWS,
        ],
    )
}

/// The lines of a function that is called, before its first statement.
pub fn opening_of(alloc: Global, function: &Called) -> Result<Text, NoMemory>
    ensures { IfOk result (λ t. t ≡ opening function.now) }
{
    let comment = comment_of(alloc, function)?;
    let head = first_line_of(alloc, function)?;
    let mut checks = Vec::new(alloc);
    put_checks(&mut checks, &function.params, &function.bases)?;
    text_of_pieces(
        alloc,
        &[
            comment.bytes.as_slice(),
            head.bytes.as_slice(),
            checks.as_slice(),
        ],
    )
}
