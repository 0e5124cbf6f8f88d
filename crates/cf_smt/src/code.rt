//! Codes as terms.
ghost use Rattle.std.specs.Prelude.{◌≡◌, ◌<◌, ◌++◌, length, drop, OnOk, codes};
ghost use Rattle.cf_tree.specs.CodeTree.{count};
ghost use Rattle.cf_tree.specs.CodeView.{code_tree, code_trees};
ghost use Rattle.cf_print.specs.Pieces.{repeated};
ghost use Rattle.cf_smt.specs.Terms.{code_text, divides_text, name_of, number_text, on_one, on_two, paired_behind, paired_text, parts_text};

use crate::word::{greatest_word, least_word, order_word, put_integer, put_name};
use cf_print::put_repeated;
use cf_tree::{Code, NoMemory, Text, put_truth};

/// Puts a code without sets.
#[cycle(put_code)]
pub(crate) fn put_code(out: &mut Vec<u8>, names: &[Text], code: &Code) -> Result<(), NoMemory>
    ensures { OnOk result (out.new.items ≡ out.old.items ++ code_text names.now (code_tree code.now)) }
{
    match code {
        Code::Lit(k) => put_integer(out, *k),
        Code::Truth(t) => put_truth(out, *t),
        Code::Var(x) => put_name(out, names, *x),
        Code::SetOf(_)
        | Code::Tuple(_)
        | Code::Union(_)
        | Code::Inter(_)
        | Code::Diff(_, _)
        | Code::Subset(_, _)
        | Code::Card(_)
        | Code::Slice { .. }
        | Code::Fresh { .. }
        | Code::Solve { .. } => Ok(()),
        Code::Sum(parts) => {
            out.extend_from_slice(b"(+")?;
            put_parts(out, names, parts)?;
            out.push(b')')?;
            Ok(())
        }
        Code::Sub(a, b) => {
            put_part(out, names, b"(- ", a)?;
            put_last(out, names, b" ", b)
        }
        Code::Mul(a, b) => {
            put_part(out, names, b"(* ", a)?;
            put_last(out, names, b" ", b)
        }
        Code::Neg(a) => put_one(out, names, b"(- ", a),
        Code::Div { of, k } => put_quotient(out, names, b"(div ", of, k),
        Code::Mod { of, k } => put_quotient(out, names, b"(mod ", of, k),
        Code::Min(parts) => put_paired(out, names, least_word(), parts),
        Code::Max(parts) => put_paired(out, names, greatest_word(), parts),
        Code::Compare { order, left, right } => {
            put_part(out, names, order_word(*order), left)?;
            put_last(out, names, b" ", right)
        }
        Code::Divides { k, of } => put_divides(out, names, k, of),
        Code::And(a, b) => {
            put_part(out, names, b"(and ", a)?;
            put_last(out, names, b" ", b)
        }
        Code::Or(a, b) => {
            put_part(out, names, b"(or ", a)?;
            put_last(out, names, b" ", b)
        }
        Code::Not(a) => put_one(out, names, b"(not ", a),
        Code::If { test, yes, no } => {
            put_part(out, names, b"(ite ", test)?;
            put_part(out, names, b" ", yes)?;
            put_last(out, names, b" ", no)?;
            Ok(())
        }
        Code::Let {
            first,
            value,
            body,
            ..
        } => {
            out.extend_from_slice(b"(let ((")?;
            put_name(out, names, *first)?;
            put_part(out, names, b" ", value)?;
            put_last(out, names, b")) ", body)?;
            Ok(())
        }
    }
}

// A code behind some bytes.
#[cycle(put_code)]
fn put_part(out: &mut Vec<u8>, names: &[Text], before: &[u8], code: &Code) -> Result<(), NoMemory>
    ensures { OnOk result (out.new.items ≡ out.old.items ++ (before.now ++ code_text names.now (code_tree code.now))) }
{
    out.extend_from_slice(before)?;
    put_code(out, names, code)
}

// A code behind some bytes, and a closing parenthesis.
#[cycle(put_code)]
fn put_last(out: &mut Vec<u8>, names: &[Text], before: &[u8], code: &Code) -> Result<(), NoMemory>
    ensures { OnOk result (out.new.items ≡ out.old.items ++ (before.now ++ code_text names.now (code_tree code.now) ++ codes ")")) }
{
    out.extend_from_slice(before)?;
    put_code(out, names, code)?;
    out.push(b')')?;
    Ok(())
}

// A word on a code.
#[cycle(put_code)]
fn put_one(out: &mut Vec<u8>, names: &[Text], word: &[u8], of: &Code) -> Result<(), NoMemory>
    ensures { OnOk result (out.new.items ≡ out.old.items ++ on_one word.now (code_text names.now (code_tree of.now))) }
{
    out.extend_from_slice(word)?;
    put_code(out, names, of)?;
    out.push(b')')?;
    Ok(())
}

// A word on a code and a divisor.
#[cycle(put_code)]
fn put_quotient(
    out: &mut Vec<u8>,
    names: &[Text],
    word: &[u8],
    of: &Code,
    k: &i128,
) -> Result<(), NoMemory>
    ensures { OnOk result (out.new.items ≡ out.old.items ++ on_two word.now (code_text names.now (code_tree of.now)) (number_text k.now)) }
{
    out.extend_from_slice(word)?;
    put_code(out, names, of)?;
    out.push(b' ')?;
    put_integer(out, *k)?;
    out.push(b')')?;
    Ok(())
}

// Whether a number divides a code.
#[cycle(put_code)]
fn put_divides(out: &mut Vec<u8>, names: &[Text], k: &i128, of: &Code) -> Result<(), NoMemory>
    ensures { OnOk result (out.new.items ≡ out.old.items ++ divides_text k.now (code_text names.now (code_tree of.now))) }
{
    out.extend_from_slice(b"(= (mod ")?;
    put_code(out, names, of)?;
    out.push(b' ')?;
    put_integer(out, *k)?;
    out.extend_from_slice(b") 0)")?;
    Ok(())
}

// Codes with a space before each.
#[cycle(put_code)]
fn put_parts(out: &mut Vec<u8>, names: &[Text], parts: &[Code]) -> Result<(), NoMemory>
    ensures { OnOk result (out.new.items ≡ out.old.items ++ parts_text names.now (code_trees parts.now)) }
{
    for part in parts {
        put_part(out, names, b" ", part)?;
    }
    Ok(())
}

// A word for each code behind the first.
#[tactic(auto, using(crate::proofs::CodeLaws::count_behind))]
fn put_words(out: &mut Vec<u8>, word: &[u8], parts: &[Code]) -> Result<(), NoMemory>
    requires { 0 < length parts.now }
    ensures { OnOk result (out.new.items ≡ out.old.items ++ repeated (count (code_trees (drop 1 parts.now))) word.now) }
{
    put_repeated(out, word, parts.len() - 1)
}

// A word on the first two codes, then on that and the third, and so on.
#[cycle(put_code)]
fn put_paired(
    out: &mut Vec<u8>,
    names: &[Text],
    word: &[u8],
    parts: &[Code],
) -> Result<(), NoMemory>
    ensures { OnOk result (out.new.items ≡ out.old.items ++ paired_text names.now word.now (code_trees parts.now)) }
{
    if !parts.is_empty() {
        put_words(out, word, parts)?;
        put_code(out, names, &parts[0])?;
        put_paired_behind(out, names, parts)?;
    }
    Ok(())
}

// The codes behind the first, each with a space before it and a closing parenthesis.
#[cycle(put_code)]
fn put_paired_behind(out: &mut Vec<u8>, names: &[Text], parts: &[Code]) -> Result<(), NoMemory>
    requires { 0 < length parts.now }
    ensures { OnOk result (out.new.items ≡ out.old.items ++ paired_behind names.now (code_trees (drop 1 parts.now))) }
{
    for i in 1..parts.len() {
        put_last(out, names, b" ", &parts[i])?;
    }
    Ok(())
}
