//! Relations as terms.
ghost use Rattle.std.specs.Prelude.{◌≡◌, ◌++◌, OnOk, codes};
ghost use Rattle.cf_tree.specs.RelView.{rel_tree, term_tree};
ghost use Rattle.cf_smt.specs.Terms.{divides_text, number_text, on_one, on_two, rel_text, term_text};

use crate::word::{order_word, put_integer, put_name};
use cf_tree::{NoMemory, Rel, Term, Text};

/// Puts a relation without sets.
#[cycle(put_rel)]
pub(crate) fn put_rel(out: &mut Vec<u8>, names: &[Text], rel: &Rel) -> Result<(), NoMemory>
    ensures { OnOk result (out.new.items ≡ out.old.items ++ rel_text names.now (rel_tree rel.now)) }
{
    match rel {
        Rel::True => {
            out.extend_from_slice(b"true")?;
            Ok(())
        }
        Rel::False => {
            out.extend_from_slice(b"false")?;
            Ok(())
        }
        Rel::Compare { order, left, right } => {
            put_term_part(out, names, order_word(*order), left)?;
            put_term_last(out, names, b" ", right)
        }
        Rel::SameSet(_, _) | Rel::OtherSet(_, _) | Rel::Subset(_, _) => Ok(()),
        Rel::Divides { k, of } => put_divides(out, names, k, of),
        Rel::And(left, right) => {
            put_part(out, names, b"(and ", left)?;
            put_last(out, names, b" ", right)
        }
        Rel::Or(left, right) => {
            put_part(out, names, b"(or ", left)?;
            put_last(out, names, b" ", right)
        }
        Rel::Not(rel) => {
            out.extend_from_slice(b"(not ")?;
            put_rel(out, names, rel)?;
            out.push(b')')?;
            Ok(())
        }
    }
}

// A relation behind some bytes.
#[cycle(put_rel)]
fn put_part(out: &mut Vec<u8>, names: &[Text], before: &[u8], rel: &Rel) -> Result<(), NoMemory>
    ensures { OnOk result (out.new.items ≡ out.old.items ++ (before.now ++ rel_text names.now (rel_tree rel.now))) }
{
    out.extend_from_slice(before)?;
    put_rel(out, names, rel)
}

// A relation behind some bytes, and a closing parenthesis.
#[cycle(put_rel)]
fn put_last(out: &mut Vec<u8>, names: &[Text], before: &[u8], rel: &Rel) -> Result<(), NoMemory>
    ensures { OnOk result (out.new.items ≡ out.old.items ++ (before.now ++ rel_text names.now (rel_tree rel.now) ++ codes ")")) }
{
    out.extend_from_slice(before)?;
    put_rel(out, names, rel)?;
    out.push(b')')?;
    Ok(())
}

// Whether a number divides a number form.
fn put_divides(out: &mut Vec<u8>, names: &[Text], k: &i128, of: &Term) -> Result<(), NoMemory>
    ensures { OnOk result (out.new.items ≡ out.old.items ++ divides_text k.now (term_text names.now (term_tree of.now))) }
{
    out.extend_from_slice(b"(= (mod ")?;
    put_term(out, names, of)?;
    out.push(b' ')?;
    put_integer(out, *k)?;
    out.extend_from_slice(b") 0)")?;
    Ok(())
}

// A number form.
#[cycle(put_term)]
fn put_term(out: &mut Vec<u8>, names: &[Text], term: &Term) -> Result<(), NoMemory>
    ensures { OnOk result (out.new.items ≡ out.old.items ++ term_text names.now (term_tree term.now)) }
{
    match term {
        Term::Lit(k) => put_integer(out, *k),
        Term::Var(x) => put_name(out, names, *x),
        Term::Card(_) => Ok(()),
        Term::Neg(a) => put_one_term(out, names, b"(- ", a),
        Term::Add(left, right) => {
            put_term_part(out, names, b"(+ ", left)?;
            put_term_last(out, names, b" ", right)
        }
        Term::Sub(left, right) => {
            put_term_part(out, names, b"(- ", left)?;
            put_term_last(out, names, b" ", right)
        }
        Term::Mul(left, right) => {
            put_term_part(out, names, b"(* ", left)?;
            put_term_last(out, names, b" ", right)
        }
        Term::Div(a, k) => put_quotient(out, names, b"(div ", a, k),
        Term::Mod(a, k) => put_quotient(out, names, b"(mod ", a, k),
        Term::Abs(a) => put_one_term(out, names, b"(abs ", a),
    }
}

// A word on a number form.
#[cycle(put_term)]
fn put_one_term(out: &mut Vec<u8>, names: &[Text], word: &[u8], of: &Term) -> Result<(), NoMemory>
    ensures { OnOk result (out.new.items ≡ out.old.items ++ on_one word.now (term_text names.now (term_tree of.now))) }
{
    out.extend_from_slice(word)?;
    put_term(out, names, of)?;
    out.push(b')')?;
    Ok(())
}

// A number form behind some bytes.
#[cycle(put_term)]
fn put_term_part(
    out: &mut Vec<u8>,
    names: &[Text],
    before: &[u8],
    of: &Term,
) -> Result<(), NoMemory>
    ensures { OnOk result (out.new.items ≡ out.old.items ++ (before.now ++ term_text names.now (term_tree of.now))) }
{
    out.extend_from_slice(before)?;
    put_term(out, names, of)
}

// A number form behind some bytes, and a closing parenthesis.
#[cycle(put_term)]
fn put_term_last(
    out: &mut Vec<u8>,
    names: &[Text],
    before: &[u8],
    of: &Term,
) -> Result<(), NoMemory>
    ensures { OnOk result (out.new.items ≡ out.old.items ++ (before.now ++ term_text names.now (term_tree of.now) ++ codes ")")) }
{
    out.extend_from_slice(before)?;
    put_term(out, names, of)?;
    out.push(b')')?;
    Ok(())
}

// A word on a number form and a divisor.
#[cycle(put_term)]
fn put_quotient(
    out: &mut Vec<u8>,
    names: &[Text],
    word: &[u8],
    of: &Term,
    k: &i128,
) -> Result<(), NoMemory>
    ensures { OnOk result (out.new.items ≡ out.old.items ++ on_two word.now (term_text names.now (term_tree of.now)) (number_text k.now)) }
{
    out.extend_from_slice(word)?;
    put_term(out, names, of)?;
    out.push(b' ')?;
    put_integer(out, *k)?;
    out.push(b')')?;
    Ok(())
}
