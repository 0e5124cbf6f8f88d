//! What makes a file a filter of lines.
ghost use Rattle.std.specs.Prelude.{◌≡◌, ◌++◌, codes, true, IfOk};
ghost use Rattle.cf_print_rust.specs.Files.{argument as argument_of, before_argument as argument_before, behind_values as values_behind, call as call_of, filter, filter_by, numbered, output as output_of, read_call as call_of_reading, reader as reader_of, reads as reads_of, several_written, written as written_of};

use crate::texts;
use cf_print::{joined_text, text_of_pieces};
use cf_print_line::Called;
use cf_tree::{Base, NoMemory, Text, put_number};
use std::alloc::Global;

// How the k-th value of a line is read.
fn read_call(k: usize) -> &'static [u8]
    ensures { result.now ≡ call_of_reading k }
{
    if k == 0 {
        b"value(&mut rest, true)?"
    } else {
        b"value(&mut rest, false)?"
    }
}

fn reader(alloc: Global, base: Base, k: usize) -> Result<Text, NoMemory>
    ensures { IfOk result (λ t. t ≡ reader_of base k) }
{
    Ok(Text {
        bytes: Vec::from_slice(alloc, read_call(k))?,
    })
}

fn readers(alloc: Global, bases: &[Base]) -> Result<Vec<Text>, NoMemory>
    ensures { IfOk result (λ all. all.items ≡ numbered reader_of 0 bases.now) }
{
    let mut all = Vec::new(alloc);
    for k in 0..bases.len() {
        all.push(reader(alloc, bases[k], k)?)?;
    }
    Ok(all)
}

// One value alone has a comma behind it.
fn behind_values(bases: &[Base]) -> &'static [u8]
    ensures { result.now ≡ values_behind bases.now }
{
    if bases.len() == 1 { b"," } else { b"" }
}

// How the values of a line are read.
fn reads(alloc: Global, bases: &[Base]) -> Result<Text, NoMemory>
    ensures { IfOk result (λ t. t ≡ reads_of bases.now) }
{
    let all = readers(alloc, bases)?;
    let all = joined_text(alloc, b", ", &all)?;
    let mut bytes = all.bytes;
    bytes.extend_from_slice(behind_values(bases))?;
    Ok(Text { bytes })
}

fn before_argument(base: Base) -> &'static [u8]
    ensures { result.now ≡ argument_before base }
{
    match base {
        Base::Set => b"&values.",
        Base::Int | Base::Bool => b"values.",
    }
}

fn argument(alloc: Global, base: Base, k: usize) -> Result<Text, NoMemory>
    ensures { IfOk result (λ t. t ≡ argument_of base k) }
{
    let mut bytes = Vec::from_slice(alloc, before_argument(base))?;
    put_number(&mut bytes, k)?;
    Ok(Text { bytes })
}

fn arguments(alloc: Global, bases: &[Base]) -> Result<Vec<Text>, NoMemory>
    ensures { IfOk result (λ all. all.items ≡ numbered argument_of 0 bases.now) }
{
    let mut all = Vec::new(alloc);
    for k in 0..bases.len() {
        all.push(argument(alloc, bases[k], k)?)?;
    }
    Ok(all)
}

// The call of a reply.
#[tactic(auto, unfolding(crate::specs::Files::call))]
fn call(alloc: Global, name: &[u8], bases: &[Base]) -> Result<Text, NoMemory>
    ensures { IfOk result (λ t. t ≡ call_of name.now bases.now) }
{
    let all = arguments(alloc, bases)?;
    let all = joined_text(alloc, b", ", &all)?;
    text_of_pieces(
        alloc,
        &[name, b"(".as_slice(), all.bytes.as_slice(), b")".as_slice()],
    )
}

fn output(alloc: Global, base: Base, k: usize) -> Result<Text, NoMemory>
    ensures { IfOk result (λ t. t ≡ output_of base k) }
{
    let mut bytes = Vec::from_slice(alloc, b"outputs.")?;
    put_number(&mut bytes, k)?;
    bytes.extend_from_slice(b".written()")?;
    Ok(Text { bytes })
}

fn outputs(alloc: Global, bases: &[Base]) -> Result<Vec<Text>, NoMemory>
    ensures { IfOk result (λ all. all.items ≡ numbered output_of 0 bases.now) }
{
    let mut all = Vec::new(alloc);
    for k in 0..bases.len() {
        all.push(output(alloc, bases[k], k)?)?;
    }
    Ok(all)
}

#[tactic(auto, unfolding(crate::specs::Files::several_written))]
fn several(alloc: Global, bases: &[Base]) -> Result<Text, NoMemory>
    ensures { IfOk result (λ t. t ≡ several_written bases.now) }
{
    let all = outputs(alloc, bases)?;
    let all = joined_text(alloc, b", ", &all)?;
    text_of_pieces(
        alloc,
        &[b"[".as_slice(), all.bytes.as_slice(), texts::JOINED],
    )
}

// What a reply holds.
fn written(alloc: Global, bases: &[Base]) -> Result<Text, NoMemory>
    ensures { IfOk result (λ t. t ≡ written_of bases.now) }
{
    if bases.len() == 1 {
        Ok(Text {
            bytes: Vec::from_slice(alloc, b"outputs.written()")?,
        })
    } else {
        several(alloc, bases)
    }
}

/// What makes the file of a function one that answers lines.
pub(crate) fn filter_of(alloc: Global, function: &Called) -> Result<Text, NoMemory>
    ensures { IfOk result (λ t. t ≡ filter function.now) }
{
    let reads = reads(alloc, &function.bases)?;
    let call = call(alloc, &function.name.bytes, &function.bases)?;
    let written = written(alloc, &function.results)?;
    filter_with(alloc, &reads.bytes, &call.bytes, &written.bytes)
}

#[tactic(auto, unfolding(crate::specs::Files::filter_by))]
fn filter_with<'x>(
    alloc: Global,
    reads: &'x [u8],
    call: &'x [u8],
    written: &'x [u8],
) -> Result<Text, NoMemory>
    ensures { IfOk result (λ t. t ≡ filter_by reads.now call.now written.now) }
{
    text_of_pieces(
        alloc,
        &[
            texts::FILTER,
            reads,
            texts::REPLY,
            call,
            texts::WRITTEN,
            written,
            texts::FILTER_MAIN,
        ],
    )
}
