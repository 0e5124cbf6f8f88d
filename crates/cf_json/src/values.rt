//! The members of an object that stand for values.
ghost use Rattle.std.specs.Prelude.{◌≡◌, ◌+◌, ◌++◌, OnOk, codes, decimal, map};
ghost use Rattle.std.specs.Fmt.{signed_decimal};
ghost use Rattle.cf_eval.specs.Seen.{plain, plains};
ghost use Rattle.cf_json.specs.Texts.{array, label, listed, member, members, name_at, value_json};

use crate::pieces::put_gap;
use cf_eval::Value;
use cf_set::Set;
use cf_tree::{NoMemory, Text, put_number, put_truth};

fn put_integer(out: &mut Vec<u8>, z: &i128) -> Result<(), NoMemory>
    ensures { OnOk result (out.new.items ≡ out.old.items ++ signed_decimal z.now) }
{
    put_number(out, *z)
}

// Numbers with a comma and a space between each two.
fn put_numbers(out: &mut Vec<u8>, numbers: &[i128]) -> Result<(), NoMemory>
    ensures { OnOk result (out.new.items ≡ out.old.items ++ listed (map signed_decimal numbers.now)) }
{
    for i in 0..numbers.len() {
        put_gap(out, i)?;
        put_integer(out, &numbers[i])?;
    }
    Ok(())
}

fn put_array(out: &mut Vec<u8>, set: &Set) -> Result<(), NoMemory>
    ensures { OnOk result (out.new.items ≡ out.old.items ++ array set.now) }
{
    out.push(b'[')?;
    put_numbers(out, set.items())?;
    out.push(b']')?;
    Ok(())
}

fn put_value(out: &mut Vec<u8>, value: &Value) -> Result<(), NoMemory>
    ensures { OnOk result (out.new.items ≡ out.old.items ++ value_json (plain value.now)) }
{
    match value {
        Value::Int(z) => put_integer(out, z),
        Value::Truth(b) => put_truth(out, *b),
        Value::Elements(set) => put_array(out, set),
    }
}

// The name of a result that has none: r1 for the first.
fn put_ordinal(out: &mut Vec<u8>, i: usize) -> Result<(), NoMemory>
    ensures { OnOk result (out.new.items ≡ out.old.items ++ (codes "r" ++ decimal (i + 1))) }
{
    out.push(b'r')?;
    put_number(out, i as u128 + 1)
}

fn put_name(out: &mut Vec<u8>, names: &[Text], i: usize) -> Result<(), NoMemory>
    ensures { OnOk result (out.new.items ≡ out.old.items ++ name_at names.now i) }
{
    match names.get(i) {
        Some(name) => {
            out.extend_from_slice(&name.bytes)?;
            Ok(())
        }
        None => put_ordinal(out, i),
    }
}

// What stands before the value of the result with index `i`.
fn put_result_label(out: &mut Vec<u8>, names: &[Text], i: usize) -> Result<(), NoMemory>
    ensures { OnOk result (out.new.items ≡ out.old.items ++ label (name_at names.now i)) }
{
    out.push(b'"')?;
    put_name(out, names, i)?;
    out.push(b'"')?;
    out.extend_from_slice(b": ")?;
    Ok(())
}

fn put_member(out: &mut Vec<u8>, names: &[Text], i: usize, value: &Value) -> Result<(), NoMemory>
    ensures { OnOk result (out.new.items ≡ out.old.items ++ member (name_at names.now i) (value_json (plain value.now))) }
{
    put_result_label(out, names, i)?;
    put_value(out, value)?;
    Ok(())
}

/// Members for values, whose results have these names.
pub fn put_members(out: &mut Vec<u8>, names: &[Text], values: &[Value]) -> Result<(), NoMemory>
    ensures { OnOk result (out.new.items ≡ out.old.items ++ listed (members names.now 0 (plains values.now))) }
{
    for i in 0..values.len() {
        put_gap(out, i)?;
        put_member(out, names, i, &values[i])?;
    }
    Ok(())
}
