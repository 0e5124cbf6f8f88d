//! Rows, lets and needs as forms of a question.
ghost use Rattle.std.specs.Prelude.{◌≡◌, IfOk, pos};
ghost use Rattle.cf_tree.specs.RelTree.{term_lit, term_var, term_neg, term_add, term_sub, term_mul, rel_compare, rel_divides, rel_not};
ghost use Rattle.cf_tree.specs.RelView.{term_tree, rel_tree};
ghost use Rattle.cf_warn.specs.Missing.{entry_form, row_form, is_nonneg};
ghost use Rattle.cf_warn.specs.Writing.{forms_of};

use crate::forms::Forms;
use crate::halves::sum_of;
use cf_linear::Row;
use cf_tree::{NoMemory, Order, Rel, Term};
use std::alloc::Global;

// ---- terms
fn plus(alloc: Global, a: Term, b: Term) -> Result<Term, NoMemory>
    ensures { IfOk result (λ t. term_tree t ≡ term_add (term_tree a) (term_tree b)) }
{
    let left = Box::new(alloc, a)?;
    Ok(Term::Add(left, Box::new(alloc, b)?))
}

fn minus(alloc: Global, a: Term, b: Term) -> Result<Term, NoMemory>
    ensures { IfOk result (λ t. term_tree t ≡ term_sub (term_tree a) (term_tree b)) }
{
    let left = Box::new(alloc, a)?;
    Ok(Term::Sub(left, Box::new(alloc, b)?))
}

fn times(alloc: Global, k: i128, a: Term) -> Result<Term, NoMemory>
    ensures { IfOk result (λ t. term_tree t ≡ term_mul (term_lit k) (term_tree a)) }
{
    let factor = Box::new(alloc, Term::Lit(k))?;
    Ok(Term::Mul(factor, Box::new(alloc, a)?))
}

fn negated(alloc: Global, a: Term) -> Result<Term, NoMemory>
    ensures { IfOk result (λ t. term_tree t ≡ term_neg (term_tree a)) }
{
    Ok(Term::Neg(Box::new(alloc, a)?))
}

// ---- rows
// The form of an entry.
fn entry_form(alloc: Global, forms: &Forms, column: u32, k: i128) -> Result<Term, NoMemory>
    ensures { IfOk result (λ t. term_tree t ≡ entry_form (forms_of forms.now) (column, k)) }
{
    if column == 0 {
        return Ok(Term::Lit(k));
    }
    let form = forms.of(alloc, column)?;
    if k == 1 {
        return Ok(form);
    }
    times(alloc, k, form)
}

// The sum of the entries.
fn row_form(alloc: Global, forms: &Forms, row: &Row) -> Result<Term, NoMemory>
    ensures { IfOk result (λ t. term_tree t ≡ row_form (forms_of forms.now) row.now) }
{
    let mut parts = Vec::new(alloc);
    for i in 0..row.len() {
        let (column, k) = row.at(i);
        parts.push(entry_form(alloc, forms, column, k)?)?;
    }
    sum_of(alloc, &parts)
}

// ---- lets
// That the let with the level is at most the row divided by the number.
pub(crate) fn low(
    alloc: Global,
    forms: &Forms,
    row: &Row,
    g: i128,
    level: u32,
) -> Result<Rel, NoMemory>
    ensures { IfOk result (λ r. rel_tree r ≡ is_nonneg (term_sub (row_form (forms_of forms.now) row.now) (term_mul (term_lit g) (term_var level)))) }
{
    let value = row_form(alloc, forms, row)?;
    let product = times(alloc, g, Term::Var(level))?;
    compare(alloc, Order::Ge, minus(alloc, value, product)?)
}

// That the let with the level is more than the row divided by the number, less 1.
pub(crate) fn high(
    alloc: Global,
    forms: &Forms,
    row: &Row,
    g: i128,
    level: u32,
) -> Result<Rel, NoMemory>
    ensures { IfOk result (λ r. rel_tree r ≡ is_nonneg
        (term_sub (term_add (term_add (term_neg (row_form (forms_of forms.now) row.now)) (term_mul (term_lit g) (term_var level))) (term_lit g))
        (term_lit (pos 1)))) }
{
    let value = negated(alloc, row_form(alloc, forms, row)?)?;
    let product = times(alloc, g, Term::Var(level))?;
    let more = plus(alloc, plus(alloc, value, product)?, Term::Lit(g))?;
    compare(alloc, Order::Ge, minus(alloc, more, Term::Lit(1))?)
}

// ---- needs
// The comparison of the term with 0.
fn compare(alloc: Global, order: Order, term: Term) -> Result<Rel, NoMemory>
    ensures { IfOk result (λ r. rel_tree r ≡ rel_compare order (term_tree term) (term_lit (pos 0))) }
{
    Ok(Rel::Compare {
        order,
        left: Box::new(alloc, term)?,
        right: Box::new(alloc, Term::Lit(0))?,
    })
}

// That the row is not at least 0, or not 0.
pub(crate) fn compare_fails(
    alloc: Global,
    forms: &Forms,
    order: Order,
    row: &Row,
) -> Result<Rel, NoMemory>
    ensures { IfOk result (λ r. rel_tree r ≡ rel_not (rel_compare order (row_form (forms_of forms.now) row.now) (term_lit (pos 0)))) }
{
    let need = compare(alloc, order, row_form(alloc, forms, row)?)?;
    Ok(Rel::Not(Box::new(alloc, need)?))
}

// That the number does not divide the row.
pub(crate) fn divides_fails(
    alloc: Global,
    forms: &Forms,
    k: i128,
    row: &Row,
) -> Result<Rel, NoMemory>
    ensures { IfOk result (λ r. rel_tree r ≡ rel_not (rel_divides k (row_form (forms_of forms.now) row.now))) }
{
    let of = Box::new(alloc, row_form(alloc, forms, row)?)?;
    Ok(Rel::Not(Box::new(alloc, Rel::Divides { k, of })?))
}
