//! The forms of codes, each variable by what it stands for.
ghost use Rattle.std.specs.Prelude.{◌≡◌, map, drop, IfOk};
ghost use Rattle.cf_tree.specs.CodeView.{code_tree, code_trees};
ghost use Rattle.cf_condition.specs.Forms.{form_in, joined_in, first_in, set_of as set_of_form, pairing_of as pairing_of_code};
ghost use Rattle.cf_condition.specs.FormView.{form_tree};

use crate::form::{Form, decided, form_at, number, set};
use crate::pairing::{Pairing, paired};
use cf_tree::{Code, NoMemory, SetTerm, Term};
use std::alloc::Global;

/// What a code stands for, where the variables stand for these forms.
#[cycle(form_of)]
pub(crate) fn form_of(alloc: Global, forms: &[Form], code: &Code) -> Result<Form, NoMemory>
    ensures { IfOk result (λ f. form_tree f ≡ form_in (map form_tree forms.now) (code_tree code.now)) }
{
    match code {
        Code::Lit(k) => number(alloc, Term::Lit(*k)),
        Code::Truth(holds) => decided(alloc, *holds),
        Code::Var(level) => form_at(alloc, forms, *level),
        Code::Sum(parts) => {
            let zero = number(alloc, Term::Lit(0))?;
            joined(alloc, forms, Pairing::Add, zero, parts, 0)
        }
        Code::Union(parts) => joined_sets(alloc, forms, Pairing::Union, parts),
        Code::Inter(parts) => joined_sets(alloc, forms, Pairing::Inter, parts),
        Code::Sub(a, b)
        | Code::Mul(a, b)
        | Code::Diff(a, b)
        | Code::Subset(a, b)
        | Code::And(a, b)
        | Code::Or(a, b)
        | Code::Compare {
            left: a,
            right: b,
            ..
        } => {
            let left = form_of(alloc, forms, a)?;
            let right = form_of(alloc, forms, b)?;
            paired(alloc, pairing_of(code), left, right)
        }
        Code::Neg(a) => form_of(alloc, forms, a)?.negated(alloc),
        Code::Not(a) => form_of(alloc, forms, a)?.opposite(alloc),
        Code::Card(a) => form_of(alloc, forms, a)?.counted(alloc),
        Code::Div { of, k } => form_of(alloc, forms, of)?.divided(alloc, *k),
        Code::Mod { of, k } => form_of(alloc, forms, of)?.left_by(alloc, *k),
        Code::Divides { k, of } => form_of(alloc, forms, of)?.multiple(alloc, *k),
        Code::SetOf(parts) => set_of(alloc, parts),
        Code::Tuple(_)
        | Code::Min(_)
        | Code::Max(_)
        | Code::Slice { .. }
        | Code::Fresh { .. }
        | Code::If { .. }
        | Code::Let { .. }
        | Code::Solve { .. } => Ok(Form::Unwritten),
    }
}

// The operation of a code with two sides.
fn pairing_of(code: &Code) -> Pairing
    ensures { result ≡ pairing_of_code (code_tree code.now) }
{
    match code {
        Code::Sub(_, _) => Pairing::Sub,
        Code::Mul(_, _) => Pairing::Mul,
        Code::Diff(_, _) => Pairing::Diff,
        Code::Subset(_, _) => Pairing::Subset,
        Code::And(_, _) => Pairing::And,
        Code::Or(_, _) => Pairing::Or,
        Code::Compare { order, .. } => Pairing::Compare(*order),
        _ => Pairing::Add,
    }
}

// The empty set alone has a form.
fn set_of(alloc: Global, parts: &[Code]) -> Result<Form, NoMemory>
    ensures { IfOk result (λ f. form_tree f ≡ set_of_form (code_trees parts.now)) }
{
    match parts.split_first() {
        None => set(alloc, SetTerm::Empty),
        Some(_) => Ok(Form::Unwritten),
    }
}

// The codes from an index on, each joined to what stands before it.
#[cycle(form_of)]
fn joined(
    alloc: Global,
    forms: &[Form],
    pairing: Pairing,
    first: Form,
    parts: &[Code],
    from: usize,
) -> Result<Form, NoMemory>
    ensures { IfOk result (λ f. form_tree f ≡ joined_in pairing (map form_tree forms.now) (form_tree first) (code_trees (drop from parts.now))) }
{
    let mut all = first;
    for i in from..parts.len() {
        let next = form_of(alloc, forms, &parts[i])?;
        all = paired(alloc, pairing, all, next)?;
    }
    Ok(all)
}

// Sets that are joined; none are the empty set.
#[cycle(form_of)]
fn joined_sets(
    alloc: Global,
    forms: &[Form],
    pairing: Pairing,
    parts: &[Code],
) -> Result<Form, NoMemory>
    ensures { IfOk result (λ f. form_tree f ≡ first_in pairing (map form_tree forms.now) (code_trees parts.now)) }
{
    if parts.is_empty() {
        return set(alloc, SetTerm::Empty);
    }
    let first = form_of(alloc, forms, &parts[0])?.if_set();
    joined(alloc, forms, pairing, first, parts, 1)
}
