//! Printed code.
ghost use Rattle.std.specs.Prelude.{◌≡◌, ◌<◌, ◌++◌, length, map, drop, OnOk, codes, decimal};
ghost use Rattle.std.specs.Fmt.{signed_decimal};
ghost use Rattle.cf_tree.specs.CodeView.{code_tree, code_trees, item_tree, item_trees, arm_tree, arm_trees};
ghost use Rattle.cf_emit.specs.Between.{between_text};
ghost use Rattle.cf_emit.specs.Printed.{line_end, listed, code_text, codes_text, more_codes, item_text, items_text, gives_text, arm_text, arms_text};

use crate::list::put_bounds;
use crate::word::{put_order, put_variable, put_variables};
use cf_tree::{Arm, Code, Item, NoMemory, put_number, put_truth};

/// Puts the text of a code at the end.
#[cycle(put_code)]
pub(crate) fn put_code(out: &mut Vec<u8>, code: &Code) -> Result<(), NoMemory>
    ensures { OnOk result (out.new.items ≡ out.old.items ++ code_text (code_tree code.now)) }
{
    match code {
        Code::Lit(k) => put_number(out, *k),
        Code::Truth(t) => put_truth(out, *t),
        Code::Var(x) => put_variable(out, u64::from(*x)),
        Code::SetOf(parts) => put_list(out, b"{", b", ", parts, b"}"),
        Code::Tuple(parts) => put_list(out, b"(", b", ", parts, b")"),
        Code::Sum(parts) => put_list(out, b"(", b" + ", parts, b")"),
        Code::Sub(left, right)
        | Code::Mul(left, right)
        | Code::And(left, right)
        | Code::Or(left, right)
        | Code::Diff(left, right)
        | Code::Subset(left, right)
        | Code::Compare { left, right, .. } => {
            put_part(out, b"(", left)?;
            put_between(out, code)?;
            put_last(out, b"", right)
        }
        Code::Neg(a) => put_last(out, b"neg(", a),
        Code::Div { of, k } => put_quotient(out, b"div(", of, k),
        Code::Mod { of, k } => put_quotient(out, b"mod(", of, k),
        Code::Min(parts) => put_list(out, b"min(", b", ", parts, b")"),
        Code::Max(parts) => put_list(out, b"max(", b", ", parts, b")"),
        Code::Divides { k, of } => {
            out.push(b'(')?;
            put_number(out, *k)?;
            put_last(out, b" divides ", of)
        }
        Code::Not(a) => put_last(out, b"not(", a),
        Code::Union(parts) => put_list(out, b"(", b" union ", parts, b")"),
        Code::Inter(parts) => put_list(out, b"(", b" inter ", parts, b")"),
        Code::Card(a) => put_last(out, b"card(", a),
        Code::Slice { set, from, n } => {
            put_part(out, b"slice(", set)?;
            put_part(out, b", ", from)?;
            put_last(out, b", ", n)
        }
        Code::Fresh { avoid, n } => {
            put_part(out, b"fresh(", avoid)?;
            put_last(out, b", ", n)
        }
        Code::If { test, yes, no } => {
            put_part(out, b"(if ", test)?;
            put_part(out, b" then ", yes)?;
            put_last(out, b" else ", no)
        }
        Code::Let {
            first,
            count,
            value,
            body,
        } => {
            out.extend_from_slice(b"(let ")?;
            put_variables(out, *first, *count)?;
            put_part(out, b" = ", value)?;
            put_last(out, b" in ", body)
        }
        Code::Solve { number, arms } => {
            out.extend_from_slice(b"solve ")?;
            put_number(out, *number)?;
            out.extend_from_slice(b" {\n")?;
            put_arms(out, arms)?;
            out.push(b'}')?;
            Ok(())
        }
    }
}

// Some bytes and a code.
#[cycle(put_code)]
fn put_part(out: &mut Vec<u8>, before: &[u8], code: &Code) -> Result<(), NoMemory>
    ensures { OnOk result (out.new.items ≡ out.old.items ++ (before.now ++ code_text (code_tree code.now))) }
{
    out.extend_from_slice(before)?;
    put_code(out, code)
}

// Some bytes, a code and a closing parenthesis.
#[cycle(put_code)]
fn put_last(out: &mut Vec<u8>, before: &[u8], code: &Code) -> Result<(), NoMemory>
    ensures { OnOk result (out.new.items ≡ out.old.items ++ (before.now ++ code_text (code_tree code.now) ++ codes ")")) }
{
    out.extend_from_slice(before)?;
    put_code(out, code)?;
    out.push(b')')?;
    Ok(())
}

// Some bytes, a code, a divisor and a closing parenthesis.
#[cycle(put_code)]
fn put_quotient(out: &mut Vec<u8>, before: &[u8], code: &Code, k: &i128) -> Result<(), NoMemory>
    ensures { OnOk result (out.new.items ≡ out.old.items ++ (before.now ++ code_text (code_tree code.now) ++ codes ", " ++ signed_decimal k.now ++ codes ")")) }
{
    out.extend_from_slice(before)?;
    put_code(out, code)?;
    out.extend_from_slice(b", ")?;
    put_number(out, *k)?;
    out.push(b')')?;
    Ok(())
}

// Codes with a separator between each two, after an opening and before a closing.
#[cycle(put_code)]
fn put_list(
    out: &mut Vec<u8>,
    opening: &[u8],
    separator: &[u8],
    codes: &[Code],
    closing: &[u8],
) -> Result<(), NoMemory>
    ensures { OnOk result (out.new.items ≡ out.old.items ++ (opening.now ++ codes_text separator.now (code_trees codes.now) ++ closing.now)) }
{
    out.extend_from_slice(opening)?;
    if !codes.is_empty() {
        put_code(out, &codes[0])?;
        put_more(out, separator, codes)?;
    }
    out.extend_from_slice(closing)?;
    Ok(())
}

// The codes behind the first with the separator before each.
#[cycle(put_code)]
fn put_more(out: &mut Vec<u8>, separator: &[u8], codes: &[Code]) -> Result<(), NoMemory>
    requires { 0 < length codes.now }
    ensures { OnOk result (out.new.items ≡ out.old.items ++ more_codes separator.now (code_trees (drop 1 codes.now))) }
{
    for i in 1..codes.len() {
        put_part(out, separator, &codes[i])?;
    }
    Ok(())
}

#[cycle(put_code)]
fn put_item(out: &mut Vec<u8>, item: &Item) -> Result<(), NoMemory>
    ensures { OnOk result (out.new.items ≡ out.old.items ++ item_text (item_tree item.now)) }
{
    match item {
        Item::Let(code) => put_part(out, b"let ", code)?,
        Item::Need(code) => put_part(out, b"need ", code)?,
    }
    out.extend_from_slice(b";\n")?;
    Ok(())
}

/// Puts a line for each step of an arm at the end.
#[cycle(put_code)]
pub(crate) fn put_items(out: &mut Vec<u8>, items: &[Item]) -> Result<(), NoMemory>
    ensures { OnOk result (out.new.items ≡ out.old.items ++ items_text (item_trees items.now)) }
{
    for item in items {
        put_item(out, item)?;
    }
    Ok(())
}

// One give alone, and several as a tuple.
#[cycle(put_code)]
#[tactic(auto, using(crate::proofs::Gives::gives_alone, crate::proofs::Gives::gives_several))]
fn put_gives(out: &mut Vec<u8>, gives: &[Code]) -> Result<(), NoMemory>
    ensures { OnOk result (out.new.items ≡ out.old.items ++ gives_text (code_trees gives.now)) }
{
    if gives.len() == 1 {
        put_list(out, b"", b", ", gives, b"")
    } else {
        put_list(out, b"(", b", ", gives, b")")
    }
}

#[cycle(put_code)]
fn put_arm(out: &mut Vec<u8>, arm: &Arm) -> Result<(), NoMemory>
    ensures { OnOk result (out.new.items ≡ out.old.items ++ arm_text (arm_tree arm.now)) }
{
    put_searches(out, &arm.bounds)?;
    put_items(out, &arm.items)?;
    out.extend_from_slice(b"give ")?;
    put_gives(out, &arm.gives)?;
    out.extend_from_slice(b"\n}\n")?;
    Ok(())
}

#[cycle(put_code)]
fn put_arms(out: &mut Vec<u8>, arms: &[Arm]) -> Result<(), NoMemory>
    ensures { OnOk result (out.new.items ≡ out.old.items ++ arms_text (arm_trees arms.now)) }
{
    for arm in arms {
        put_arm(out, arm)?;
    }
    Ok(())
}

/// The first line of an arm.
pub(crate) fn put_searches(out: &mut Vec<u8>, bounds: &[u32]) -> Result<(), NoMemory>
    ensures { OnOk result (out.new.items ≡ out.old.items ++ (codes "arm [" ++ listed (map decimal bounds.now) ++ codes "] {" ++ line_end)) }
{
    out.extend_from_slice(b"arm [")?;
    put_bounds(out, bounds)?;
    out.extend_from_slice(b"] {\n")?;
    Ok(())
}

// What stands between the two parts of an operation.
fn put_between(out: &mut Vec<u8>, code: &Code) -> Result<(), NoMemory>
    ensures { OnOk result (out.new.items ≡ out.old.items ++ between_text (code_tree code.now)) }
{
    match code {
        Code::Sub(_, _) => out.extend_from_slice(b" - ")?,
        Code::Mul(_, _) => out.extend_from_slice(b" * ")?,
        Code::And(_, _) => out.extend_from_slice(b" && ")?,
        Code::Or(_, _) => out.extend_from_slice(b" || ")?,
        Code::Diff(_, _) => out.extend_from_slice(b" diff ")?,
        Code::Subset(_, _) => out.extend_from_slice(b" subset ")?,
        Code::Compare { order, .. } => put_order(out, *order)?,
        _ => {}
    }
    Ok(())
}
