//! Operations with two sides.
ghost use Rattle.std.specs.Prelude.{◌≡◌, IfOk};
ghost use Rattle.cf_tree.specs.RelView.{set_tree, term_tree, rel_tree};
ghost use Rattle.cf_condition.specs.Forms.{truth_form, is_true as is_true_rel, is_false as is_false_rel, is_literal as is_literal_form, product as product_form, compared_sets as compared_form, both as both_rels, either as either_rel, paired_numbers as number_pair, paired_sets as set_pair, paired_truths as truth_pair, paired as paired_form};
ghost use Rattle.cf_condition.specs.FormView.{form_tree};

use crate::form::{Form, number, set, truth};
use cf_tree::{NoMemory, Order, Rel, SetTerm, Term};
use std::alloc::Global;

/// An operation with two sides of one kind.
#[derive(Clone, Copy)]
pub(crate) enum Pairing {
    Add,
    Sub,
    Mul,
    Union,
    Inter,
    Diff,
    Subset,
    And,
    Or,
    Compare(Order),
}

fn is_literal(term: &Term) -> bool
    ensures { result ≡ is_literal_form (term_tree term.now) }
{
    match term {
        Term::Lit(_) => true,
        _ => false,
    }
}

// Whether the relation is `true`.
fn is_true(rel: &Rel) -> bool
    ensures { result ≡ is_true_rel (rel_tree rel.now) }
{
    match rel {
        Rel::True => true,
        _ => false,
    }
}

// Whether the relation is `false`.
fn is_false(rel: &Rel) -> bool
    ensures { result ≡ is_false_rel (rel_tree rel.now) }
{
    match rel {
        Rel::False => true,
        _ => false,
    }
}

// The product, where one side is a literal.
fn product(alloc: Global, a: Box<Term>, b: Box<Term>) -> Result<Form, NoMemory>
    ensures { IfOk result (λ f. form_tree f ≡ product_form (term_tree a.value) (term_tree b.value)) }
{
    if is_literal(&a) || is_literal(&b) {
        number(alloc, Term::Mul(a, b))
    } else {
        Ok(Form::Unwritten)
    }
}

fn paired_numbers(
    alloc: Global,
    pairing: Pairing,
    a: Box<Term>,
    b: Box<Term>,
) -> Result<Form, NoMemory>
    ensures { IfOk result (λ f. form_tree f ≡ number_pair pairing (term_tree a.value) (term_tree b.value)) }
{
    match pairing {
        Pairing::Add => number(alloc, Term::Add(a, b)),
        Pairing::Sub => number(alloc, Term::Sub(a, b)),
        Pairing::Mul => product(alloc, a, b),
        Pairing::Compare(order) => truth(
            alloc,
            Rel::Compare {
                order,
                left: a,
                right: b,
            },
        ),
        Pairing::Union
        | Pairing::Inter
        | Pairing::Diff
        | Pairing::Subset
        | Pairing::And
        | Pairing::Or => Ok(Form::Unwritten),
    }
}

// Whether two sets are the same, or not the same.
fn compared_sets(
    alloc: Global,
    order: Order,
    a: Box<SetTerm>,
    b: Box<SetTerm>,
) -> Result<Form, NoMemory>
    ensures { IfOk result (λ f. form_tree f ≡ compared_form order (set_tree a.value) (set_tree b.value)) }
{
    match order {
        Order::Eq => truth(alloc, Rel::SameSet(a, b)),
        Order::Ne => truth(alloc, Rel::OtherSet(a, b)),
        Order::Lt | Order::Le | Order::Gt | Order::Ge => Ok(Form::Unwritten),
    }
}

fn paired_sets(
    alloc: Global,
    pairing: Pairing,
    a: Box<SetTerm>,
    b: Box<SetTerm>,
) -> Result<Form, NoMemory>
    ensures { IfOk result (λ f. form_tree f ≡ set_pair pairing (set_tree a.value) (set_tree b.value)) }
{
    match pairing {
        Pairing::Union => set(alloc, SetTerm::Union(a, b)),
        Pairing::Inter => set(alloc, SetTerm::Inter(a, b)),
        Pairing::Diff => set(alloc, SetTerm::Diff(a, b)),
        Pairing::Subset => truth(alloc, Rel::Subset(a, b)),
        Pairing::Compare(order) => compared_sets(alloc, order, a, b),
        Pairing::Add | Pairing::Sub | Pairing::Mul | Pairing::And | Pairing::Or => {
            Ok(Form::Unwritten)
        }
    }
}

// Both relations: one alone where the other always holds.
fn both(alloc: Global, a: Box<Rel>, b: Box<Rel>) -> Result<Form, NoMemory>
    ensures { IfOk result (λ f. form_tree f ≡ truth_form (both_rels (rel_tree a.value) (rel_tree b.value))) }
{
    if is_true(&a) {
        return Ok(Form::Truth(b));
    }
    if is_true(&b) {
        return Ok(Form::Truth(a));
    }
    truth(alloc, Rel::And(a, b))
}

// One relation or the other: one alone where the other never holds.
fn either(alloc: Global, a: Box<Rel>, b: Box<Rel>) -> Result<Form, NoMemory>
    ensures { IfOk result (λ f. form_tree f ≡ truth_form (either_rel (rel_tree a.value) (rel_tree b.value))) }
{
    if is_false(&a) {
        return Ok(Form::Truth(b));
    }
    if is_false(&b) {
        return Ok(Form::Truth(a));
    }
    truth(alloc, Rel::Or(a, b))
}

fn paired_truths(
    alloc: Global,
    pairing: Pairing,
    a: Box<Rel>,
    b: Box<Rel>,
) -> Result<Form, NoMemory>
    ensures { IfOk result (λ f. form_tree f ≡ truth_pair pairing (rel_tree a.value) (rel_tree b.value)) }
{
    match pairing {
        Pairing::And => both(alloc, a, b),
        Pairing::Or => either(alloc, a, b),
        Pairing::Add
        | Pairing::Sub
        | Pairing::Mul
        | Pairing::Union
        | Pairing::Inter
        | Pairing::Diff
        | Pairing::Subset
        | Pairing::Compare(_) => Ok(Form::Unwritten),
    }
}

/// The operation over two forms, where both are of the kind that it asks.
pub(crate) fn paired(alloc: Global, pairing: Pairing, a: Form, b: Form) -> Result<Form, NoMemory>
    ensures { IfOk result (λ f. form_tree f ≡ paired_form pairing (form_tree a) (form_tree b)) }
{
    match (a, b) {
        (Form::Number(a), Form::Number(b)) => paired_numbers(alloc, pairing, a, b),
        (Form::Set(a), Form::Set(b)) => paired_sets(alloc, pairing, a, b),
        (Form::Truth(a), Form::Truth(b)) => paired_truths(alloc, pairing, a, b),
        _ => Ok(Form::Unwritten),
    }
}
