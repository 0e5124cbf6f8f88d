//! Statements that give values, and that call functions of the file.
ghost use Rattle.std.specs.Prelude.{◌≡◌, ◌++◌, ◌∷◌, [], drop, codes, OnOk, IfOk};
ghost use Rattle.cf_print.specs.declared.language.Language.TheVariants.{C, Rust};
ghost use Rattle.cf_print_line.specs.Layout.{addresses as the_addresses, all_text as text_of_all, bracketed as in_brackets, call_lines, copying, declared_lines, declared_text, give_lines, lent_line, lent_lines, line, owned_text as text_owned, past_lines, result_text, return_text, status_lines, through, through_text, zero_text as text_of_zero};

use crate::layout::{before_end, behind_end, put_let, put_line, put_words};
use cf_print::{Language, joined_text, next};
use cf_tree::{Base, NoMemory, Text};
use std::alloc::Global;

fn put_one_through<'x>(
    out: &mut Vec<u8>,
    depth: usize,
    pointer: &'x [u8],
    value: &'x [u8],
) -> Result<(), NoMemory>
    ensures { OnOk result (out.new.items ≡ out.old.items ++ line C depth (through_text pointer.now value.now)) }
{
    put_line(
        out,
        Language::C,
        depth,
        &[
            b"*".as_slice(),
            pointer,
            b" = ".as_slice(),
            value,
            b";".as_slice(),
        ],
    )
}

// What is given through pointers.
fn put_through(
    out: &mut Vec<u8>,
    depth: usize,
    pointers: &[Text],
    values: &[Text],
) -> Result<(), NoMemory>
    ensures { OnOk result (out.new.items ≡ out.old.items ++ through depth pointers.now values.now) }
{
    let mut left = values;
    for pointer in pointers {
        match left.split_first() {
            None => return Ok(()),
            Some((value, more)) => {
                put_one_through(out, depth, &pointer.bytes, &value.bytes)?;
                left = more;
            }
        }
    }
    Ok(())
}

// One value alone, and several in brackets.
fn bracketed(
    alloc: Global,
    opening: &[u8],
    closing: &[u8],
    texts: &[Text],
) -> Result<Text, NoMemory>
    ensures { IfOk result (λ t. t ≡ in_brackets opening.now closing.now texts.now) }
{
    let inner = joined_text(alloc, b", ", texts)?;
    if texts.len() == 1 {
        return Ok(inner);
    }
    let mut bytes = Vec::from_slice(alloc, opening)?;
    bytes.extend_from_slice(&inner.bytes)?;
    bytes.extend_from_slice(closing)?;
    Ok(Text { bytes })
}

// Several values in one place.
fn all_text(alloc: Global, language: Language, texts: &[Text]) -> Result<Text, NoMemory>
    ensures { IfOk result (λ t. t ≡ text_of_all language texts.now) }
{
    match language {
        Language::JavaScript => bracketed(alloc, b"[", b"]", texts),
        Language::Rust => bracketed(alloc, b"(", b")", texts),
        Language::C | Language::Python => joined_text(alloc, b", ", texts),
    }
}

// The statement that gives values.
fn put_return(
    out: &mut Vec<u8>,
    language: Language,
    depth: usize,
    all: &[u8],
) -> Result<(), NoMemory>
    ensures { OnOk result (out.new.items ≡ out.old.items ++ line language depth (return_text language depth all.now)) }
{
    match language {
        Language::C => put_words(out, language, depth, b"return past ? COMFUSY_OVERFLOW : 0;"),
        Language::Python => put_line(out, language, depth, &[b"return ".as_slice(), all]),
        Language::JavaScript => put_line(
            out,
            language,
            depth,
            &[b"return ".as_slice(), all, b";".as_slice()],
        ),
        Language::Rust => put_line(
            out,
            language,
            depth,
            &[
                before_end(depth),
                b"Ok(".as_slice(),
                all,
                b")".as_slice(),
                behind_end(depth),
            ],
        ),
    }
}

// What stands behind a variable that is given.
fn copies(language: Language, base: Base) -> &'static [u8]
    ensures { result.now ≡ copying language base }
{
    match language {
        Language::Rust => match base {
            Base::Set => b".clone()",
            Base::Int | Base::Bool => b"",
        },
        Language::C | Language::Python | Language::JavaScript => b"",
    }
}

/// The text of a variable that is given: in Rust one that is a set is copied.
pub fn owned_text(
    alloc: Global,
    language: Language,
    base: Base,
    name: &[u8],
) -> Result<Text, NoMemory>
    ensures { IfOk result (λ t. t ≡ text_owned language base name.now) }
{
    let mut bytes = Vec::from_slice(alloc, name)?;
    bytes.extend_from_slice(copies(language, base))?;
    Ok(Text { bytes })
}

/// Puts what a function gives; in C through pointers of these names.
pub fn put_give(
    alloc: Global,
    out: &mut Vec<u8>,
    language: Language,
    depth: usize,
    pointers: &[Text],
    values: &[Text],
) -> Result<(), NoMemory>
    ensures { OnOk result (out.new.items ≡ out.old.items ++ give_lines language depth pointers.now values.now) }
{
    match language {
        Language::C => {
            put_through(out, depth, pointers, values)?;
            put_return(out, Language::C, depth, &[])?;
            Ok(())
        }
        Language::Python | Language::JavaScript | Language::Rust => {
            let all = all_text(alloc, language, values)?;
            put_return(out, language, depth, &all.bytes)
        }
    }
}

// What a variable of C has before a call gives it its value.
fn zero_text<'x>(base: Base) -> &'x [u8]
    ensures { result.now ≡ text_of_zero base }
{
    match base {
        Base::Bool => b"false",
        Base::Int | Base::Set => b"0",
    }
}

fn put_declared_one<'x>(
    out: &mut Vec<u8>,
    depth: usize,
    base: Base,
    name: &'x [u8],
) -> Result<(), NoMemory>
    ensures { OnOk result (out.new.items ≡ out.old.items ++ line C depth (declared_text base name.now)) }
{
    put_let(out, Language::C, depth, false, base, name, zero_text(base))
}

// A variable of C for each result of a call.
fn put_declared(
    out: &mut Vec<u8>,
    depth: usize,
    names: &[Text],
    bases: &[Base],
) -> Result<(), NoMemory>
    ensures { OnOk result (out.new.items ≡ out.old.items ++ declared_lines depth names.now bases.now) }
{
    let mut left = bases;
    for name in names {
        match left.split_first() {
            None => return Ok(()),
            Some((base, more)) => {
                put_declared_one(out, depth, *base, &name.bytes)?;
                left = more;
            }
        }
    }
    Ok(())
}

// What is past is told before a call of C.
fn put_past(out: &mut Vec<u8>, depth: usize) -> Result<(), NoMemory>
    ensures { OnOk result (out.new.items ≡ out.old.items ++ past_lines depth) }
{
    put_words(out, Language::C, depth, b"if (past)")?;
    put_words(out, Language::C, next(depth)?, b"return COMFUSY_OVERFLOW;")?;
    Ok(())
}

// A call of C, and its status.
fn put_status<'x>(
    out: &mut Vec<u8>,
    depth: usize,
    status: &'x [u8],
    function: &'x [u8],
    args: &'x [u8],
) -> Result<(), NoMemory>
    ensures { OnOk result (out.new.items ≡ out.old.items ++ status_lines depth status.now function.now args.now) }
{
    put_line(
        out,
        Language::C,
        depth,
        &[
            b"int ".as_slice(),
            status,
            b" = ".as_slice(),
            function,
            b"(".as_slice(),
            args,
            b");".as_slice(),
        ],
    )?;
    put_line(
        out,
        Language::C,
        depth,
        &[b"if (".as_slice(), status, b")".as_slice()],
    )?;
    put_line(
        out,
        Language::C,
        next(depth)?,
        &[b"return ".as_slice(), status, b";".as_slice()],
    )?;
    Ok(())
}

// The results of a call in variables.
fn put_result<'x>(
    out: &mut Vec<u8>,
    language: Language,
    depth: usize,
    names: &'x [u8],
    function: &'x [u8],
    args: &'x [u8],
) -> Result<(), NoMemory>
    ensures { OnOk result (out.new.items ≡ out.old.items ++ line language depth (result_text language names.now function.now args.now)) }
{
    match language {
        Language::C => put_words(out, language, depth, b""),
        Language::Python => put_line(
            out,
            language,
            depth,
            &[
                names,
                b" = ".as_slice(),
                function,
                b"(".as_slice(),
                args,
                b")".as_slice(),
            ],
        ),
        Language::JavaScript => put_line(
            out,
            language,
            depth,
            &[
                b"const ".as_slice(),
                names,
                b" = ".as_slice(),
                function,
                b"(".as_slice(),
                args,
                b");".as_slice(),
            ],
        ),
        Language::Rust => put_line(
            out,
            language,
            depth,
            &[
                b"let ".as_slice(),
                names,
                b" = ".as_slice(),
                function,
                b"(".as_slice(),
                args,
                b")?;".as_slice(),
            ],
        ),
    }
}

fn put_lent_one(out: &mut Vec<u8>, depth: usize, base: Base, name: &[u8]) -> Result<(), NoMemory>
    ensures { OnOk result (out.new.items ≡ out.old.items ++ lent_line depth name.now base) }
{
    match base {
        Base::Set => put_line(
            out,
            Language::Rust,
            depth,
            &[
                b"let ".as_slice(),
                name,
                b" = &".as_slice(),
                name,
                b";".as_slice(),
            ],
        ),
        Base::Int | Base::Bool => Ok(()),
    }
}

// Each result of a call of Rust that is a set is lent from there on.
fn put_lent(out: &mut Vec<u8>, depth: usize, names: &[Text], bases: &[Base]) -> Result<(), NoMemory>
    ensures { OnOk result (out.new.items ≡ out.old.items ++ lent_lines depth names.now bases.now) }
{
    let mut left = bases;
    for name in names {
        match left.split_first() {
            None => return Ok(()),
            Some((base, more)) => {
                put_lent_one(out, depth, *base, &name.bytes)?;
                left = more;
            }
        }
    }
    Ok(())
}

// A call of Rust.
fn put_call_of_rust(
    alloc: Global,
    out: &mut Vec<u8>,
    depth: usize,
    call: &FileCall<'_>,
    args: &[u8],
) -> Result<(), NoMemory>
    ensures { OnOk result (out.new.items ≡ out.old.items ++
        (line Rust depth (result_text Rust (text_of_all Rust call.now.names.now) call.now.function.now args.now) ++
        lent_lines depth call.now.names.now call.now.bases.now)) }
{
    let names = all_text(alloc, Language::Rust, call.names)?;
    put_result(
        out,
        Language::Rust,
        depth,
        &names.bytes,
        call.function,
        args,
    )?;
    put_lent(out, depth, call.names, call.bases)?;
    Ok(())
}

fn address(alloc: Global, name: &Text) -> Result<Text, NoMemory>
    ensures { IfOk result (λ t. t ≡ codes "&" ++ name.now) }
{
    let mut bytes = Vec::from_slice(alloc, b"&")?;
    bytes.extend_from_slice(&name.bytes)?;
    Ok(Text { bytes })
}

/// The addresses of variables, behind other arguments.
pub fn with_addresses(alloc: Global, args: Vec<Text>, names: &[Text]) -> Result<Vec<Text>, NoMemory>
    ensures { IfOk result (λ all. all.items ≡ args.items ++ the_addresses names.now) }
{
    let mut all = args;
    for name in names {
        all.push(address(alloc, name)?)?;
    }
    Ok(all)
}

/// A call of a function of the file, whose results get variables; in C its status has a name too.
#[derive(Clone, Copy)]
pub struct FileCall<'a> {
    pub status: &'a [u8],
    pub bases: &'a [Base],
    pub names: &'a [Text],
    pub function: &'a [u8],
}

/// Puts a call of a function of the file.
pub fn put_call(
    alloc: Global,
    out: &mut Vec<u8>,
    language: Language,
    depth: usize,
    call: &FileCall<'_>,
    args: Vec<Text>,
) -> Result<(), NoMemory>
    ensures { OnOk result (out.new.items ≡ out.old.items ++
        call_lines language depth call.now.status.now call.now.bases.now call.now.names.now call.now.function.now args.items) }
{
    match language {
        Language::C => {
            let all = with_addresses(alloc, args, call.names)?;
            let args = joined_text(alloc, b", ", &all)?;
            put_past(out, depth)?;
            put_declared(out, depth, call.names, call.bases)?;
            put_status(out, depth, call.status, call.function, &args.bytes)?;
            Ok(())
        }
        Language::Rust => {
            let args = joined_text(alloc, b", ", &args)?;
            put_call_of_rust(alloc, out, depth, call, &args.bytes)
        }
        Language::Python | Language::JavaScript => {
            let args = joined_text(alloc, b", ", &args)?;
            let names = all_text(alloc, language, call.names)?;
            put_result(
                out,
                language,
                depth,
                &names.bytes,
                call.function,
                &args.bytes,
            )
        }
    }
}
