//! What makes a file a filter of lines.
ghost use Rattle.std.specs.Prelude.{◌≡◌, ◌++◌, codes, map, true, IfOk, OnOk};
ghost use Rattle.std.specs.List.{list_any};
ghost use Rattle.cf_print_c.specs.Files.{call as call_of, call_by, declared_lines as declared_all, declared_line as one_declared, asked, filter, filter_by, functions, told, variables, gap as gap_of, read_one, reader as reader_of, readers as readers_of, reads as reads_all, space as space_of, writes as writes_all, written as written_one, is_number as is_number_base, is_truth as is_truth_base, numbers_a_value as numbers_value, reply_name as name_in_reply, reply_names as names_in_reply};

use crate::texts;
use cf_print::{Language, is_numbered, joined_text, put_pieces, when};
use cf_print_line::{Called, base_text, with_addresses};
use cf_tree::{Base, NoMemory, Text, put_number};
use std::alloc::Global;

fn numbers_a_value(name: &[u8]) -> bool
    ensures { result ≡ numbers_value name.now }
{
    is_numbered(b"p", name) || is_numbered(b"o", name)
}

// The k-th variable of a reply.
fn reply_name(alloc: Global, name: &[u8], letter: &[u8], k: usize) -> Result<Text, NoMemory>
    ensures { IfOk result (λ t. t ≡ name_in_reply name.now letter.now k) }
{
    let mut bytes = Vec::from_slice(alloc, when(numbers_a_value(name), b"the_"))?;
    bytes.extend_from_slice(letter)?;
    put_number(&mut bytes, k)?;
    Ok(Text { bytes })
}

fn reply_names(
    alloc: Global,
    name: &[u8],
    letter: &[u8],
    bases: &[Base],
) -> Result<Vec<Text>, NoMemory>
    ensures { IfOk result (λ all. all.items ≡ names_in_reply name.now letter.now 0 bases.now) }
{
    let mut all = Vec::new(alloc);
    for k in 0..bases.len() {
        all.push(reply_name(alloc, name, letter, k)?)?;
    }
    Ok(all)
}

fn put_declared_one(out: &mut Vec<u8>, base: Base, name: &[u8]) -> Result<(), NoMemory>
    ensures { OnOk result (out.new.items ≡ out.old.items ++ one_declared base name.now) }
{
    put_pieces(
        out,
        &[
            b"    ".as_slice(),
            base_text(Language::C, base),
            b" ".as_slice(),
            name,
            b" = 0;\n".as_slice(),
        ],
    )
}

// A variable for each value.
fn put_declared(out: &mut Vec<u8>, names: &[Text], bases: &[Base]) -> Result<(), NoMemory>
    ensures { OnOk result (out.new.items ≡ out.old.items ++ declared_all names.now bases.now) }
{
    let mut left = bases;
    for name in names {
        match left.split_first() {
            None => return Ok(()),
            Some((base, more)) => {
                put_declared_one(out, *base, &name.bytes)?;
                left = more;
            }
        }
    }
    Ok(())
}

fn has_numbers(bases: &[Base]) -> bool
    ensures { result ≡ list_any is_number_base bases.now }
{
    for base in bases {
        if is_number(*base) {
            return true;
        }
    }
    false
}

fn is_number(base: Base) -> bool
    ensures { result ≡ is_number_base base }
{
    match base {
        Base::Int => true,
        Base::Bool | Base::Set => false,
    }
}

/// Whether one of the bases is that of truth values.
pub(crate) fn has_truths(bases: &[Base]) -> bool
    ensures { result ≡ list_any is_truth_base bases.now }
{
    for base in bases {
        if is_truth(*base) {
            return true;
        }
    }
    false
}

fn is_truth(base: Base) -> bool
    ensures { result ≡ is_truth_base base }
{
    match base {
        Base::Bool => true,
        Base::Int | Base::Set => false,
    }
}

// The functions that read values.
fn put_readers(out: &mut Vec<u8>, bases: &[Base]) -> Result<(), NoMemory>
    ensures { OnOk result (out.new.items ≡ out.old.items ++ readers_of bases.now) }
{
    out.extend_from_slice(when(has_numbers(bases), texts::READ_NUMBER))?;
    out.extend_from_slice(when(has_truths(bases), texts::READ_TRUTH))?;
    Ok(())
}

fn reader<'x>(base: Base) -> &'x [u8]
    ensures { result.now ≡ reader_of base }
{
    match base {
        Base::Bool => b"read_truth",
        Base::Int | Base::Set => b"read_number",
    }
}

fn gap<'x>(is_first: bool) -> &'x [u8]
    ensures { result.now ≡ gap_of is_first }
{
    if is_first {
        b"    white(&at, end);\n    ok = ok && "
    } else {
        b"    ok = ok && white(&at, end) && "
    }
}

fn put_read_one(out: &mut Vec<u8>, is_first: bool, base: Base, name: &[u8]) -> Result<(), NoMemory>
    ensures { OnOk result (out.new.items ≡ out.old.items ++ read_one is_first base name.now) }
{
    put_pieces(
        out,
        &[
            gap(is_first),
            reader(base),
            b"(&at, end, &".as_slice(),
            name,
            b");\n".as_slice(),
        ],
    )
}

// How the values of a line are read.
fn put_reads(out: &mut Vec<u8>, names: &[Text], bases: &[Base]) -> Result<(), NoMemory>
    ensures { OnOk result (out.new.items ≡ out.old.items ++ reads_all true names.now bases.now) }
{
    let mut is_first = true;
    let mut left = bases;
    for name in names {
        match left.split_first() {
            None => return Ok(()),
            Some((base, more)) => {
                put_read_one(out, is_first, *base, &name.bytes)?;
                left = more;
                is_first = false;
            }
        }
    }
    Ok(())
}

#[tactic(auto, unfolding(crate::specs::Files::call))]
fn put_call(
    alloc: Global,
    out: &mut Vec<u8>,
    name: &[u8],
    args: Vec<Text>,
    pointers: &[Text],
) -> Result<(), NoMemory>
    ensures { OnOk result (out.new.items ≡ out.old.items ++ call_of name.now args.items pointers.now) }
{
    let all = with_addresses(alloc, args, pointers)?;
    let all = joined_text(alloc, b", ", &all)?;
    put_called(out, name, &all.bytes)
}

#[tactic(auto, unfolding(crate::specs::Files::call_by))]
fn put_called<'x>(out: &mut Vec<u8>, name: &'x [u8], args: &'x [u8]) -> Result<(), NoMemory>
    ensures { OnOk result (out.new.items ≡ out.old.items ++ call_by name.now args.now) }
{
    put_pieces(out, &[name, b"(".as_slice(), args, b")".as_slice()])
}

fn space(is_first: bool) -> &'static [u8]
    ensures { result.now ≡ space_of is_first }
{
    if is_first {
        b""
    } else {
        b"        put(' ');\n"
    }
}

fn put_written(out: &mut Vec<u8>, base: Base, name: &[u8]) -> Result<(), NoMemory>
    ensures { OnOk result (out.new.items ≡ out.old.items ++ written_one base name.now) }
{
    match base {
        Base::Bool => put_pieces(
            out,
            &[b"        put_text(".as_slice(), name, texts::TRUE_OR_FALSE],
        ),
        Base::Int | Base::Set => put_pieces(out, &[texts::PUT_NUMBER, name, b");\n".as_slice()]),
    }
}

fn put_write_one(out: &mut Vec<u8>, is_first: bool, base: Base, name: &[u8]) -> Result<(), NoMemory>
    ensures { OnOk result (out.new.items ≡ out.old.items ++ (space_of is_first ++ written_one base name.now)) }
{
    out.extend_from_slice(space(is_first))?;
    put_written(out, base, name)?;
    Ok(())
}

// How the values of a reply are written.
fn put_writes(out: &mut Vec<u8>, names: &[Text], bases: &[Base]) -> Result<(), NoMemory>
    ensures { OnOk result (out.new.items ≡ out.old.items ++ writes_all true names.now bases.now) }
{
    let mut is_first = true;
    let mut left = bases;
    for name in names {
        match left.split_first() {
            None => return Ok(()),
            Some((base, more)) => {
                put_write_one(out, is_first, *base, &name.bytes)?;
                left = more;
                is_first = false;
            }
        }
    }
    Ok(())
}

// The functions that write and read, and the first line of the one that replies.
#[tactic(auto, unfolding(crate::specs::Files::functions))]
fn put_functions(out: &mut Vec<u8>, bases: &[Base]) -> Result<(), NoMemory>
    ensures { OnOk result (out.new.items ≡ out.old.items ++ functions bases.now) }
{
    out.extend_from_slice(texts::PUT)?;
    put_readers(out, bases)?;
    out.extend_from_slice(texts::REPLY)?;
    Ok(())
}

// Its variables, for what is read and for what is given.
#[tactic(auto, unfolding(crate::specs::Files::variables))]
fn put_variables(
    out: &mut Vec<u8>,
    params: &[Text],
    bases: &[Base],
    outputs: &[Text],
    results: &[Base],
) -> Result<(), NoMemory>
    ensures { OnOk result (out.new.items ≡ out.old.items ++ variables params.now bases.now outputs.now results.now) }
{
    put_declared(out, params, bases)?;
    put_declared(out, outputs, results)?;
    out.extend_from_slice(texts::LONG_LINE)?;
    Ok(())
}

// How the values of a line are read, up to the call.
#[tactic(auto, unfolding(crate::specs::Files::asked))]
fn put_asked(out: &mut Vec<u8>, params: &[Text], bases: &[Base]) -> Result<(), NoMemory>
    ensures { OnOk result (out.new.items ≡ out.old.items ++ asked params.now bases.now) }
{
    put_reads(out, params, bases)?;
    out.extend_from_slice(texts::BAD_INPUT)?;
    Ok(())
}

// What is told of the outcome, how what is given is written, and the end of the file.
#[tactic(auto, unfolding(crate::specs::Files::told))]
fn put_told(out: &mut Vec<u8>, outputs: &[Text], results: &[Base]) -> Result<(), NoMemory>
    ensures { OnOk result (out.new.items ≡ out.old.items ++ told outputs.now results.now) }
{
    out.extend_from_slice(texts::TOLD)?;
    put_writes(out, outputs, results)?;
    out.extend_from_slice(texts::FILTER_MAIN)?;
    Ok(())
}

#[tactic(auto, unfolding(crate::specs::Files::filter_by))]
fn filter_with(
    alloc: Global,
    name: &[u8],
    params: Vec<Text>,
    bases: &[Base],
    outputs: &[Text],
    results: &[Base],
) -> Result<Text, NoMemory>
    ensures { IfOk result (λ t. t ≡ filter_by name.now params.items bases.now outputs.now results.now) }
{
    let mut bytes = Vec::new(alloc);
    put_functions(&mut bytes, bases)?;
    put_variables(&mut bytes, &params, bases, outputs, results)?;
    put_asked(&mut bytes, &params, bases)?;
    put_call(alloc, &mut bytes, name, params, outputs)?;
    put_told(&mut bytes, outputs, results)?;
    Ok(Text { bytes })
}

/// What makes the file of a function one that answers lines.
pub(crate) fn filter_of(alloc: Global, function: &Called) -> Result<Text, NoMemory>
    ensures { IfOk result (λ t. t ≡ filter function.now) }
{
    let params = reply_names(alloc, &function.name.bytes, b"p", &function.bases)?;
    let outputs = reply_names(alloc, &function.name.bytes, b"o", &function.results)?;
    filter_with(
        alloc,
        &function.name.bytes,
        params,
        &function.bases,
        &outputs,
        &function.results,
    )
}
