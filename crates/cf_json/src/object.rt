//! What a program comes to, as one object.
ghost use Rattle.std.specs.Prelude.{◌≡◌, ◌++◌, OnOk, codes, decimal};
ghost use Rattle.cf_eval.specs.Seen.{plains};
ghost use Rattle.cf_late.specs.Outcomes.{late_of};
ghost use Rattle.cf_linear.specs.Reasons.{reason_text, refusal_text};
ghost use Rattle.cf_json.specs.Texts.{choose_error_text, error_text, json_text, member, members, object};

use crate::pieces::{put_label, put_quoted};
use crate::values::put_members;
use cf_eval::Value;
use cf_late::LateOutcome;
use cf_linear::{Reason, Refusal, refusal_reason};
use cf_tree::{NoMemory, Text, put_number};
use itoa::Buffer;

// An object of the values of results that have these names.
fn put_object(out: &mut Vec<u8>, names: &[Text], values: &[Value]) -> Result<(), NoMemory>
    ensures { OnOk result (out.new.items ≡ out.old.items ++ object (members names.now 0 (plains values.now))) }
{
    out.push(b'{')?;
    put_members(out, names, values)?;
    out.push(b'}')?;
    Ok(())
}

/// Writes an object with a fault of these words behind what `out` holds. The words have no quote, no
/// backslash and no control byte.
///
/// # Errors
/// `NoMemory` where memory ran out.
pub fn put_error(out: &mut Vec<u8>, words: &[u8]) -> Result<(), NoMemory>
    ensures { OnOk result (out.new.items ≡ out.old.items ++ error_text words.now) }
{
    out.push(b'{')?;
    put_label(out, b"error")?;
    put_quoted(out, words)?;
    out.push(b'}')?;
    Ok(())
}

// What stands behind the words of a fault at a choose: the number of the choose.
fn put_choose(out: &mut Vec<u8>, number: u32) -> Result<(), NoMemory>
    ensures { OnOk result (out.new.items ≡ out.old.items ++ (codes ", " ++ member (codes "choose") (decimal number) ++ codes "}")) }
{
    out.extend_from_slice(b", ")?;
    put_label(out, b"choose")?;
    put_number(out, number)?;
    out.push(b'}')?;
    Ok(())
}

// An object with a fault of these words at a choose.
fn put_choose_error(out: &mut Vec<u8>, words: &[u8], number: u32) -> Result<(), NoMemory>
    ensures { OnOk result (out.new.items ≡ out.old.items ++ choose_error_text words.now number) }
{
    out.push(b'{')?;
    put_label(out, b"error")?;
    put_quoted(out, words)?;
    put_choose(out, number)?;
    Ok(())
}

// The words of a reason.
fn put_reason(out: &mut Vec<u8>, reason: &Reason) -> Result<(), NoMemory>
    ensures { OnOk result (out.new.items ≡ out.old.items ++ reason_text reason.now) }
{
    out.extend_from_slice(reason.words)?;
    out.extend_from_slice(reason.gap)?;
    out.extend_from_slice(reason.count)?;
    Ok(())
}

fn put_refusal(out: &mut Vec<u8>, refusal: &Refusal) -> Result<(), NoMemory>
    ensures { OnOk result (out.new.items ≡ out.old.items ++ refusal_text refusal.now) }
{
    let mut count = Buffer::new();
    let reason = refusal_reason(refusal, &mut count);
    put_reason(out, &reason)
}

// An object with the refusal of a choose.
fn put_refused(out: &mut Vec<u8>, refusal: &Refusal, number: u32) -> Result<(), NoMemory>
    ensures { OnOk result (out.new.items ≡ out.old.items ++ choose_error_text (refusal_text refusal.now) number) }
{
    out.push(b'{')?;
    put_label(out, b"error")?;
    out.push(b'"')?;
    put_refusal(out, refusal)?;
    out.push(b'"')?;
    put_choose(out, number)?;
    Ok(())
}

/// Writes what a program comes to, whose results have these names, as an object behind what `out`
/// holds, without a line feed.
///
/// # Errors
/// `NoMemory` where memory ran out.
pub fn put_json(out: &mut Vec<u8>, names: &[Text], outcome: &LateOutcome) -> Result<(), NoMemory>
    ensures { OnOk result (out.new.items ≡ out.old.items ++ json_text names.now (late_of outcome.now)) }
{
    match outcome {
        LateOutcome::Values(values) => put_object(out, names, values),
        LateOutcome::NoSolution(number) => put_choose_error(out, b"no solution", *number),
        LateOutcome::Overflow => put_error(out, b"overflow"),
        LateOutcome::Refused { number, refusal } => put_refused(out, refusal, *number),
    }
}
