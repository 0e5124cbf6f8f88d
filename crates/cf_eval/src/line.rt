//! The values that an input line spells.
ghost use Rattle.std.specs.Prelude.{◌≡◌, ◌+◌, ◌-◌, ◌^◌, ◌<◌, ◌≤◌, [], length, true, false, All, IfOk, IfSome};
ghost use Rattle.cf_tree.specs.Values.{HaveBases};
ghost use Rattle.cf_eval.specs.Seen.{plain, plains, IsFit};
ghost use Rattle.cf_eval.specs.Spelling.{without_return};
ghost use Rattle.cf_eval.specs.Reading.{truth_at, value_at, is_apart, values_from, ReadAnswer, TruthRead};
ghost use Rattle.cf_eval.specs.LineAnswers.{LineAnswer};

use crate::braces::set;
use crate::fault::LineFault;
use crate::number::number;
use crate::run::ROOM;
use crate::runs::{after_spaces, is_blank, space};
use crate::value::Value;
use cf_tree::Base;
use std::alloc::Global;

fn truth(text: &[u8]) -> Option<(Value, &[u8])>
    ensures value { TruthRead result (truth_at text.now) }
    ensures fits { IfSome result (λ x. IsFit x.0) }
{
    if text.starts_with(b"true") {
        Some((Value::Truth(true), &text[4..]))
    } else if text.starts_with(b"false") {
        Some((Value::Truth(false), &text[5..]))
    } else {
        None
    }
}

fn value(alloc: Global, base: Base, text: &[u8], limit: u128) -> Result<(Value, &[u8]), LineFault>
    requires { limit < 2 ^ 127 }
    ensures value { ReadAnswer (λ x. (plain x.0, x.1.now)) result (value_at limit base text.now) }
    ensures fits { IfOk result (λ x. IsFit x.0) }
{
    match base {
        Base::Int => match number(text, limit) {
            Some((z, rest)) => Ok((Value::Int(z), rest)),
            None => Err(LineFault::BadInput),
        },
        Base::Bool => match truth(text) {
            Some(x) => Ok(x),
            None => Err(LineFault::BadInput),
        },
        Base::Set => set(alloc, text, limit),
    }
}

fn apart(bases: &[Base], rest: &[u8]) -> bool
    ensures { result ≡ is_apart bases.now rest.now }
{
    match (bases, rest) {
        ([], _) => true,
        ([_, ..], []) => false,
        ([_, ..], [c, ..]) => space(*c),
    }
}

fn read_values(
    alloc: Global,
    text: &[u8],
    types: &[Base],
    limit: u128,
) -> Result<Vec<Value>, LineFault>
    requires { limit < 2 ^ 127 }
    ensures values { ReadAnswer (λ v. plains v.items) result (values_from limit types.now text.now []) }
    ensures fits { IfOk result (λ v. All IsFit v.items) }
{
    let mut out = Vec::with_capacity(alloc, types.len().saturating_add(ROOM))?;
    let mut rest = text;
    for i in 0..types.len() {
        let (v, more) = value(alloc, types[i], after_spaces(rest), limit)?;
        if !apart(&types[i + 1..], more) {
            return Err(LineFault::BadInput);
        }
        out.push(v)?;
        rest = more;
    }
    if is_blank(rest) {
        Ok(out)
    } else {
        Err(LineFault::BadInput)
    }
}

/// The line, but for a carriage return as its last byte.
fn trimmed(line: &[u8]) -> &[u8]
    ensures { result.now ≡ without_return line.now }
{
    if line.is_empty() {
        return line;
    }
    let last = line.len() - 1;
    if line[last] == b'\r' {
        &line[..last]
    } else {
        line
    }
}

/// The greatest number.
const MAX: u128 = 170141183460469231731687303715884105727;

fn read_within(
    alloc: Global,
    line: &[u8],
    types: &[Base],
    limit: u128,
) -> Result<Vec<Value>, LineFault>
    requires { limit < 2 ^ 127 }
    ensures told { LineAnswer limit types.now line.now result }
    ensures bases { IfOk result (λ v. HaveBases types.now (plains v.items)) }
    ensures fits { IfOk result (λ v. All IsFit v.items) }
{
    read_values(alloc, trimmed(line), types, limit)
}

/// The values of these bases that a line spells.
///
/// # Errors
///
/// `BadInput` exactly where the line spells none. `NoMemory` where no memory is left.
pub fn read_line(alloc: Global, line: &[u8], types: &[Base]) -> Result<Vec<Value>, LineFault>
    ensures told { LineAnswer (2 ^ 127 - 1) types.now line.now result }
    ensures bases { IfOk result (λ v. HaveBases types.now (plains v.items)) }
    ensures fits { IfOk result (λ v. All IsFit v.items) }
{
    read_within(alloc, line, types, MAX)
}
