//! The texts of replies.
ghost use Rattle.std.specs.Prelude.{◌≡◌, [], ◌∷◌, ◌++◌, OnOk, IfOk, map, take};
ghost use Rattle.std.specs.List.{join_with_byte};
ghost use Rattle.std.specs.Fmt.{signed_decimal};
ghost use Rattle.cf_eval.specs.Seen.{plain, plains};
ghost use Rattle.cf_eval.specs.Texts.{no_solution_text, reply_text, set_text, value_text, values_text};

use crate::value::{Outcome, Value};
use cf_set::Set;
use cf_tree::{NoMemory, put_number, put_truth};
use std::alloc::Global;

// Puts a number in decimal at the end.
fn put_integer(out: &mut Vec<u8>, z: &i128) -> Result<(), NoMemory>
    ensures { OnOk result (out.new.items ≡ out.old.items ++ signed_decimal z.now) }
{
    put_number(out, *z)
}

/// The byte before item `i`: none before the first.
fn put_gap(out: &mut Vec<u8>, i: usize, byte: u8) -> Result<(), NoMemory>
    ensures { OnOk result (out.new.items ≡ out.old.items ++ take i (byte ∷ [])) }
{
    if 0 < i {
        out.push(byte)?;
    }
    Ok(())
}

/// Numbers with a comma between each two.
fn put_numbers(out: &mut Vec<u8>, numbers: &[i128]) -> Result<(), NoMemory>
    ensures { OnOk result (out.new.items ≡ out.old.items ++ join_with_byte 44 (map signed_decimal numbers.now)) }
{
    for i in 0..numbers.len() {
        put_gap(out, i, b',')?;
        put_integer(out, &numbers[i])?;
    }
    Ok(())
}

fn put_set(out: &mut Vec<u8>, set: &Set) -> Result<(), NoMemory>
    ensures { OnOk result (out.new.items ≡ out.old.items ++ set_text set.now) }
{
    out.push(b'{')?;
    put_numbers(out, set.items())?;
    out.push(b'}')?;
    Ok(())
}

/// Writes the text of a value behind what `out` holds.
pub fn put_value(out: &mut Vec<u8>, value: &Value) -> Result<(), NoMemory>
    ensures { OnOk result (out.new.items ≡ out.old.items ++ value_text (plain value.now)) }
{
    match value {
        Value::Int(z) => put_integer(out, z),
        Value::Truth(b) => put_truth(out, *b),
        Value::Elements(set) => put_set(out, set),
    }
}

fn put_no_solution(out: &mut Vec<u8>, number: u32) -> Result<(), NoMemory>
    ensures { OnOk result (out.new.items ≡ out.old.items ++ no_solution_text number) }
{
    out.extend_from_slice(b"no solution at choose ")?;
    put_number(out, number)
}

/// Writes values behind what `out` holds, with a space between each two.
pub fn put_values(out: &mut Vec<u8>, values: &[Value]) -> Result<(), NoMemory>
    ensures { OnOk result (out.new.items ≡ out.old.items ++ values_text (plains values.now)) }
{
    for i in 0..values.len() {
        put_gap(out, i, b' ')?;
        put_value(out, &values[i])?;
    }
    Ok(())
}

// Room for the text of a few numbers.
const ROOM: usize = 32;

/// Writes the text of what a run came to behind what `out` holds, without a line feed.
pub fn put_reply(out: &mut Vec<u8>, outcome: &Outcome) -> Result<(), NoMemory>
    ensures { OnOk result (out.new.items ≡ out.old.items ++ reply_text outcome.now) }
{
    match outcome {
        Outcome::Values(values) => put_values(out, values),
        Outcome::NoSolution(number) => put_no_solution(out, *number),
        Outcome::Overflow => {
            out.extend_from_slice(b"overflow")?;
            Ok(())
        }
    }
}

/// The text of what a run came to, without a line feed.
pub fn reply(alloc: Global, outcome: &Outcome) -> Result<Vec<u8>, NoMemory>
    ensures { IfOk result (λ bytes. bytes.items ≡ reply_text outcome.now) }
{
    let mut out = Vec::with_capacity(alloc, ROOM)?;
    put_reply(&mut out, outcome)?;
    Ok(out)
}
