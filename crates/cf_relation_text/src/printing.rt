//! Printed relations.
ghost use Rattle.std.specs.Prelude.{◌≡◌, ◌++◌, codes, IfOk, OnOk};
ghost use Rattle.std.specs.Fmt.{signed_decimal};
ghost use Rattle.cf_tree.specs.RelView.{set_tree, term_tree, rel_tree};
ghost use Rattle.cf_relation_text.specs.ReadsBack.{ReadsBack};
ghost use Rattle.cf_relation_text.specs.RelationTree.{HasSpelling};
ghost use Rattle.cf_relation_text.specs.RelationText.{set_text, set_part, term_text, term_part, rel_text, rel_part};

use crate::tier::{Tier, rel_tier, set_tier, term_tier};
use crate::word::{put_if, put_name, put_order, put_set_sign, put_term_sign};
use cf_tree::{NoMemory, Rel, SetTerm, Term, Text, put_number};
use std::alloc::Global;

/// The printed form of a relation over variables of these names, by level: without a line feed, and with parentheses only where
/// the grammar asks for them. Where each variable has a name and each number is within the limit, the tokens of this text spell the
/// relation as a source of edition 3 does.
///
/// # Errors
/// `NoMemory` where memory ran out.
pub fn print_relation(alloc: Global, names: &[Text], rel: &Rel) -> Result<Vec<u8>, NoMemory>
    ensures text { IfOk result (λ bytes. bytes.items ≡ rel_text names.now (rel_tree rel.now)) }
    ensures reads_back { HasSpelling names.now (rel_tree rel.now) → IfOk result (λ bytes. ReadsBack names.now (rel_tree rel.now) bytes.items) }
{
    let mut out = Vec::new(alloc);
    put_rel(&mut out, names, rel)?;
    Ok(out)
}

// A relation.
#[cycle(put_rel)]
fn put_rel(out: &mut Vec<u8>, names: &[Text], rel: &Rel) -> Result<(), NoMemory>
    ensures { OnOk result (out.new.items ≡ out.old.items ++ rel_text names.now (rel_tree rel.now)) }
{
    match rel {
        Rel::True => {
            out.extend_from_slice(b"true")?;
            Ok(())
        }
        Rel::False => {
            out.extend_from_slice(b"false")?;
            Ok(())
        }
        Rel::Compare { order, left, right } => {
            put_term_part(out, names, Tier::Sums, left)?;
            put_order(out, *order)?;
            put_term_part(out, names, Tier::Sums, right)
        }
        Rel::SameSet(left, right) => {
            put_set_part(out, names, Tier::Sums, left)?;
            out.extend_from_slice(b" == ")?;
            put_set_part(out, names, Tier::Sums, right)
        }
        Rel::OtherSet(left, right) => {
            put_set_part(out, names, Tier::Sums, left)?;
            out.extend_from_slice(b" != ")?;
            put_set_part(out, names, Tier::Sums, right)
        }
        Rel::Subset(left, right) => {
            put_set_part(out, names, Tier::Sums, left)?;
            out.extend_from_slice(b" subset ")?;
            put_set_part(out, names, Tier::Sums, right)
        }
        Rel::Divides { k, of } => {
            put_number(out, *k)?;
            out.extend_from_slice(b" divides ")?;
            put_term_part(out, names, Tier::Sums, of)
        }
        Rel::And(left, right) => {
            put_rel_part(out, names, Tier::Ands, left)?;
            out.extend_from_slice(b" && ")?;
            put_rel_part(out, names, Tier::Comparisons, right)
        }
        Rel::Or(left, right) => {
            put_rel_part(out, names, Tier::Ors, left)?;
            out.extend_from_slice(b" || ")?;
            put_rel_part(out, names, Tier::Ands, right)
        }
        Rel::Not(rel) => {
            out.push(b'!')?;
            put_rel_part(out, names, Tier::Unary, rel)
        }
    }
}

// A relation where one of this tier is asked.
#[cycle(put_rel)]
fn put_rel_part(out: &mut Vec<u8>, names: &[Text], outer: Tier, rel: &Rel) -> Result<(), NoMemory>
    ensures { OnOk result (out.new.items ≡ out.old.items ++ rel_part outer (rel_tree rel.now) (rel_text names.now (rel_tree rel.now))) }
{
    let grouped = rel_tier(rel).is_looser(outer);
    put_if(out, b'(', grouped)?;
    put_rel(out, names, rel)?;
    put_if(out, b')', grouped)
}

// A number form.
#[cycle(put_term)]
fn put_term(out: &mut Vec<u8>, names: &[Text], term: &Term) -> Result<(), NoMemory>
    ensures { OnOk result (out.new.items ≡ out.old.items ++ term_text names.now (term_tree term.now)) }
{
    match term {
        Term::Lit(k) => put_number(out, *k),
        Term::Var(x) => put_name(out, names, *x),
        Term::Card(set) => put_card(out, names, set),
        Term::Neg(a) => {
            out.push(b'-')?;
            put_term_part(out, names, Tier::Unary, a)
        }
        Term::Add(left, right) | Term::Sub(left, right) => {
            put_term_part(out, names, Tier::Sums, left)?;
            put_term_sign(out, term)?;
            put_term_part(out, names, Tier::Products, right)
        }
        Term::Mul(left, right) => {
            put_term_part(out, names, Tier::Products, left)?;
            out.extend_from_slice(b" * ")?;
            put_term_part(out, names, Tier::Unary, right)
        }
        Term::Div(a, k) => put_quotient(out, names, b"div(", a, k),
        Term::Mod(a, k) => put_quotient(out, names, b"mod(", a, k),
        Term::Abs(a) => {
            out.extend_from_slice(b"abs(")?;
            put_term(out, names, a)?;
            out.push(b')')?;
            Ok(())
        }
    }
}

// A number form where one of this tier is asked.
#[cycle(put_term)]
fn put_term_part(
    out: &mut Vec<u8>,
    names: &[Text],
    outer: Tier,
    term: &Term,
) -> Result<(), NoMemory>
    ensures { OnOk result (out.new.items ≡ out.old.items ++ term_part outer (term_tree term.now) (term_text names.now (term_tree term.now))) }
{
    let grouped = term_tier(term).is_looser(outer);
    put_if(out, b'(', grouped)?;
    put_term(out, names, term)?;
    put_if(out, b')', grouped)
}

// Some bytes, a number form, a divisor and a closing parenthesis.
#[cycle(put_term)]
fn put_quotient(
    out: &mut Vec<u8>,
    names: &[Text],
    before: &[u8],
    of: &Term,
    k: &i128,
) -> Result<(), NoMemory>
    ensures { OnOk result (out.new.items ≡ out.old.items ++ (before.now ++ term_text names.now (term_tree of.now) ++ codes ", " ++ signed_decimal k.now ++ codes ")")) }
{
    out.extend_from_slice(before)?;
    put_term(out, names, of)?;
    out.extend_from_slice(b", ")?;
    put_number(out, *k)?;
    out.push(b')')?;
    Ok(())
}

// How many elements a set form has.
fn put_card(out: &mut Vec<u8>, names: &[Text], set: &SetTerm) -> Result<(), NoMemory>
    ensures { OnOk result (out.new.items ≡ out.old.items ++ (codes "card(" ++ set_text names.now (set_tree set.now) ++ codes ")")) }
{
    out.extend_from_slice(b"card(")?;
    put_set(out, names, set)?;
    out.push(b')')?;
    Ok(())
}

// A set form.
#[cycle(put_set)]
fn put_set(out: &mut Vec<u8>, names: &[Text], set: &SetTerm) -> Result<(), NoMemory>
    ensures { OnOk result (out.new.items ≡ out.old.items ++ set_text names.now (set_tree set.now)) }
{
    match set {
        SetTerm::Empty => {
            out.extend_from_slice(b"{}")?;
            Ok(())
        }
        SetTerm::Var(x) => put_name(out, names, *x),
        SetTerm::Union(left, right) | SetTerm::Diff(left, right) => {
            put_set_part(out, names, Tier::Sums, left)?;
            put_set_sign(out, set)?;
            put_set_part(out, names, Tier::Products, right)
        }
        SetTerm::Inter(left, right) => {
            put_set_part(out, names, Tier::Products, left)?;
            put_set_sign(out, set)?;
            put_set_part(out, names, Tier::Unary, right)
        }
    }
}

// A set form where one of this tier is asked.
#[cycle(put_set)]
fn put_set_part(
    out: &mut Vec<u8>,
    names: &[Text],
    outer: Tier,
    set: &SetTerm,
) -> Result<(), NoMemory>
    ensures { OnOk result (out.new.items ≡ out.old.items ++ set_part outer (set_tree set.now) (set_text names.now (set_tree set.now))) }
{
    let grouped = set_tier(set).is_looser(outer);
    put_if(out, b'(', grouped)?;
    put_set(out, names, set)?;
    put_if(out, b')', grouped)
}
