//! The function that is called: its first line, and what stands before its first statement.
ghost use Rattle.std.specs.Prelude.{◌≡◌, ◌++◌, ◌∷◌, [], codes, drop, nat_eq, true, IfOk, OnOk};
ghost use Rattle.cf_print.specs.declared.language.Language.TheVariants.{C};
ghost use Rattle.cf_print_c.specs.Files.{first_line, all_unread, below_text as below_one, below_texts as all_below, beginning, beginning_by, checks as checks_of_c, comment, comment_by, opening, status_text as status_of};

use crate::texts;
use cf_print::{Language, joined_text, text_of_pieces, when};
use cf_print_line::{C_BODY, Called, about_main, about_nones, all_parameters, head_text, layout};
use cf_tree::{Base, NoMemory, Text, put_number};
use std::alloc::Global;

fn any_status(alloc: Global) -> Result<Text, NoMemory>
    ensures { IfOk result (λ t. t ≡ codes "Status N") }
{
    Ok(Text {
        bytes: Vec::from_slice(alloc, b"Status N")?,
    })
}

fn status_text(alloc: Global, numbers: &[u32]) -> Result<Text, NoMemory>
    ensures { IfOk result (λ t. t ≡ status_of numbers.now) }
{
    match numbers {
        [number, more @ ..] => if more.len() == 0 {
            let mut bytes = Vec::from_slice(alloc, b"Status ")?;
            put_number(&mut bytes, *number)?;
            Ok(Text { bytes })
        } else {
            any_status(alloc)
        },
        [] => any_status(alloc),
    }
}

// The part of an argument of C in the check of all.
fn push_below(alloc: Global, all: &mut Vec<Text>, name: &[u8], base: Base) -> Result<(), NoMemory>
    ensures { OnOk result (all.new.items ≡ all.old.items ++ below_one name.now base) }
{
    match base {
        Base::Int => {
            let mut bytes = Vec::from_slice(alloc, name)?;
            bytes.extend_from_slice(b" < -MAX")?;
            all.push(Text { bytes })?;
            Ok(())
        }
        Base::Bool | Base::Set => Ok(()),
    }
}

fn below_texts(alloc: Global, names: &[Text], bases: &[Base]) -> Result<Vec<Text>, NoMemory>
    ensures { IfOk result (λ all. all.items ≡ all_below names.now bases.now) }
{
    let mut all = Vec::new(alloc);
    let mut left = bases;
    for name in names {
        match left.split_first() {
            None => return Ok(all),
            Some((base, more)) => {
                push_below(alloc, &mut all, &name.bytes, *base)?;
                left = more;
            }
        }
    }
    Ok(all)
}

fn checks(alloc: Global, tests: &[Text]) -> Result<Text, NoMemory>
    ensures { IfOk result (λ t. t ≡ checks_of_c tests.now) }
{
    if tests.len() == 0 {
        return Ok(Text {
            bytes: Vec::new(alloc),
        });
    }
    let all = joined_text(alloc, b" || ", tests)?;
    text_of_pieces(
        alloc,
        &[
            b"    if (".as_slice(),
            all.bytes.as_slice(),
            texts::RETURN_PAST,
        ],
    )
}

fn put_all_unread(out: &mut Vec<u8>, names: &[Text]) -> Result<(), NoMemory>
    ensures { OnOk result (out.new.items ≡ out.old.items ++ all_unread names.now) }
{
    for name in names {
        layout::put_unread(out, Language::C, 1, &name.bytes)?;
    }
    Ok(())
}

/// Its first line.
pub(crate) fn first_line_of(alloc: Global, function: &Called) -> Result<Text, NoMemory>
    ensures { IfOk result (λ t. t ≡ first_line function.now) }
{
    let params = all_parameters(
        alloc,
        Language::C,
        &function.params,
        &function.bases,
        &function.pointers,
        &function.results,
    )?;
    head_text(
        alloc,
        Language::C,
        &function.name.bytes,
        &params,
        &function.results,
    )
}

#[tactic(auto, unfolding(crate::specs::Files::comment_by))]
fn comment_with<'x>(alloc: Global, about: &'x [u8], nones: &'x [u8]) -> Result<Text, NoMemory>
    ensures { IfOk result (λ t. t ≡ comment_by about.now nones.now) }
{
    text_of_pieces(
        alloc,
        &[
            b"/*\n * ".as_slice(),
            about,
            b"\n".as_slice(),
            nones,
            texts::PAST,
        ],
    )
}

// The comment before it.
fn comment_of(alloc: Global, function: &Called) -> Result<Text, NoMemory>
    ensures { IfOk result (λ t. t ≡ comment function.now) }
{
    let about = about_main(alloc, &function.result_names)?;
    let status = status_text(alloc, &function.nones)?;
    let nones = about_nones(alloc, b" * ", &status.bytes, &function.nones)?;
    comment_with(alloc, &about.bytes, &nones.bytes)
}

#[tactic(auto, unfolding(crate::specs::Files::beginning_by))]
fn beginning_with<'x>(
    alloc: Global,
    is_filter: bool,
    head: &'x [u8],
    checks: &'x [u8],
    unread: &'x [u8],
) -> Result<Text, NoMemory>
    ensures { IfOk result (λ t. t ≡ beginning_by is_filter head.now checks.now unread.now) }
{
    text_of_pieces(
        alloc,
        &[when(is_filter, b"static "), head, C_BODY, checks, unread],
    )
}

// Its first line, and what stands before its first statement.
fn beginning_of(alloc: Global, is_filter: bool, function: &Called) -> Result<Text, NoMemory>
    ensures { IfOk result (λ t. t ≡ beginning is_filter function.now) }
{
    let head = first_line_of(alloc, function)?;
    let tests = below_texts(alloc, &function.params, &function.bases)?;
    let checks = checks(alloc, &tests)?;
    let mut unread = Vec::new(alloc);
    put_all_unread(&mut unread, &function.unread)?;
    beginning_with(alloc, is_filter, &head.bytes, &checks.bytes, &unread)
}

/// The lines of a function that is called, before its first statement.
pub fn opening_of(alloc: Global, is_filter: bool, function: &Called) -> Result<Text, NoMemory>
    ensures { IfOk result (λ t. t ≡ opening is_filter function.now) }
{
    let comment = comment_of(alloc, function)?;
    let beginning = beginning_of(alloc, is_filter, function)?;
    let mut bytes = comment.bytes;
    bytes.extend_from_slice(&beginning.bytes)?;
    Ok(Text { bytes })
}
