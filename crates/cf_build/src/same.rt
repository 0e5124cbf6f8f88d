//! Chooses as lists of marks, by which they are compared.
ghost use Rattle.std.specs.Prelude.{◌≡◌, ◌↔◌, ◌++◌, ◌∷◌, true, OnOk, IfOk};
ghost use Rattle.cf_tree.specs.ChooseView.{choose_tree};
ghost use Rattle.cf_tree.specs.RelView.{set_tree, term_tree, rel_tree};
ghost use Rattle.cf_build.specs.Marks.{set_marks, term_marks, rel_marks, set_parts, term_parts, rel_parts, bases_marks, choose_marks};

use cf_tree::{Base, Choose, NoMemory, Order, Rel, SetTerm, Term, bases};
use std::alloc::Global;

// A form of a relation with all that it holds but its parts, or what stands before a relation.
#[derive(Clone, Copy, PartialEq)]
pub(crate) enum Mark {
    Form(Form),
    /// The number of a choose.
    Number(u32),
    /// The base of a variable in scope, or of an output.
    Of(Base),
    Lit(i128),
    Var(u32),
    SetVar(u32),
    Div(i128),
    Mod(i128),
    Compare(Order),
    Divides(i128),
}

// A form that holds nothing but its parts, or the end of a list of bases.
#[derive(Clone, Copy, PartialEq)]
pub(crate) enum Form {
    True,
    False,
    SameSet,
    OtherSet,
    Subset,
    And,
    Or,
    Not,
    Card,
    Neg,
    Add,
    Sub,
    Mul,
    Abs,
    Empty,
    Union,
    Inter,
    Diff,
    End,
}

// The marks of a choose, which tell all of it but the names in its scope.
pub(crate) fn marks_of(alloc: Global, choose: &Choose<'_>) -> Result<Vec<Mark>, NoMemory>
    ensures { IfOk result (λ ms. ms.items ≡ choose_marks (choose_tree choose.now)) }
{
    let scope = bases(alloc, choose.scope)?;
    let mut marks = Vec::new(alloc);
    marks.push(Mark::Number(choose.number))?;
    put_bases(&mut marks, &scope)?;
    put_bases(&mut marks, choose.outputs)?;
    put_rel(&mut marks, choose.rel)?;
    Ok(marks)
}

// Whether both lists have the same marks.
pub(crate) fn same_marks(left: &[Mark], right: &[Mark]) -> bool
    ensures { (result ≡ true) ↔ (left.now ≡ right.now) }
{
    left == right
}

// Bases, up to the end of their list.
fn put_bases(out: &mut Vec<Mark>, bases: &[Base]) -> Result<(), NoMemory>
    ensures { OnOk result (out.new.items ≡ out.old.items ++ bases_marks bases.now) }
{
    for base in bases {
        out.push(Mark::Of(*base))?;
    }
    out.push(Mark::Form(Form::End))?;
    Ok(())
}

// The mark before those of a relation's parts.
fn rel_mark(rel: &Rel) -> Mark
    ensures { rel_marks (rel_tree rel.now) ≡ result ∷ rel_parts (rel_tree rel.now) }
{
    match rel {
        Rel::True => Mark::Form(Form::True),
        Rel::False => Mark::Form(Form::False),
        Rel::Compare { order, .. } => Mark::Compare(*order),
        Rel::SameSet(_, _) => Mark::Form(Form::SameSet),
        Rel::OtherSet(_, _) => Mark::Form(Form::OtherSet),
        Rel::Subset(_, _) => Mark::Form(Form::Subset),
        Rel::Divides { k, .. } => Mark::Divides(*k),
        Rel::And(_, _) => Mark::Form(Form::And),
        Rel::Or(_, _) => Mark::Form(Form::Or),
        Rel::Not(_) => Mark::Form(Form::Not),
    }
}

// Puts the marks of a relation at the end.
#[cycle(put_rel)]
fn put_rel(out: &mut Vec<Mark>, rel: &Rel) -> Result<(), NoMemory>
    ensures { OnOk result (out.new.items ≡ out.old.items ++ rel_marks (rel_tree rel.now)) }
{
    out.push(rel_mark(rel))?;
    put_rel_parts(out, rel)?;
    Ok(())
}

// Puts the marks of a relation's parts at the end.
#[cycle(put_rel)]
fn put_rel_parts(out: &mut Vec<Mark>, rel: &Rel) -> Result<(), NoMemory>
    ensures { OnOk result (out.new.items ≡ out.old.items ++ rel_parts (rel_tree rel.now)) }
{
    match rel {
        Rel::True | Rel::False => Ok(()),
        Rel::Compare {
            left: a,
            right: b,
            ..
        } => {
            put_term(out, a)?;
            put_term(out, b)?;
            Ok(())
        }
        Rel::SameSet(a, b) | Rel::OtherSet(a, b) | Rel::Subset(a, b) => {
            put_set(out, a)?;
            put_set(out, b)?;
            Ok(())
        }
        Rel::Divides { of: a, .. } => put_term(out, a),
        Rel::And(a, b) | Rel::Or(a, b) => {
            put_rel(out, a)?;
            put_rel(out, b)?;
            Ok(())
        }
        Rel::Not(a) => put_rel(out, a),
    }
}

// The mark before those of a number form's parts.
fn term_mark(term: &Term) -> Mark
    ensures { term_marks (term_tree term.now) ≡ result ∷ term_parts (term_tree term.now) }
{
    match term {
        Term::Lit(k) => Mark::Lit(*k),
        Term::Var(x) => Mark::Var(*x),
        Term::Card(_) => Mark::Form(Form::Card),
        Term::Neg(_) => Mark::Form(Form::Neg),
        Term::Add(_, _) => Mark::Form(Form::Add),
        Term::Sub(_, _) => Mark::Form(Form::Sub),
        Term::Mul(_, _) => Mark::Form(Form::Mul),
        Term::Div(_, k) => Mark::Div(*k),
        Term::Mod(_, k) => Mark::Mod(*k),
        Term::Abs(_) => Mark::Form(Form::Abs),
    }
}

// Puts the marks of a number form at the end.
#[cycle(put_term)]
fn put_term(out: &mut Vec<Mark>, term: &Term) -> Result<(), NoMemory>
    ensures { OnOk result (out.new.items ≡ out.old.items ++ term_marks (term_tree term.now)) }
{
    out.push(term_mark(term))?;
    put_term_parts(out, term)?;
    Ok(())
}

// Puts the marks of a number form's parts at the end.
#[cycle(put_term)]
fn put_term_parts(out: &mut Vec<Mark>, term: &Term) -> Result<(), NoMemory>
    ensures { OnOk result (out.new.items ≡ out.old.items ++ term_parts (term_tree term.now)) }
{
    match term {
        Term::Lit(_) | Term::Var(_) => Ok(()),
        Term::Card(set) => put_set(out, set),
        Term::Neg(a) | Term::Div(a, _) | Term::Mod(a, _) | Term::Abs(a) => put_term(out, a),
        Term::Add(a, b) | Term::Sub(a, b) | Term::Mul(a, b) => {
            put_term(out, a)?;
            put_term(out, b)?;
            Ok(())
        }
    }
}

// The mark before those of a set form's parts.
fn set_mark(set: &SetTerm) -> Mark
    ensures { set_marks (set_tree set.now) ≡ result ∷ set_parts (set_tree set.now) }
{
    match set {
        SetTerm::Empty => Mark::Form(Form::Empty),
        SetTerm::Var(x) => Mark::SetVar(*x),
        SetTerm::Union(_, _) => Mark::Form(Form::Union),
        SetTerm::Inter(_, _) => Mark::Form(Form::Inter),
        SetTerm::Diff(_, _) => Mark::Form(Form::Diff),
    }
}

// Puts the marks of a set form at the end.
#[cycle(put_set)]
fn put_set(out: &mut Vec<Mark>, set: &SetTerm) -> Result<(), NoMemory>
    ensures { OnOk result (out.new.items ≡ out.old.items ++ set_marks (set_tree set.now)) }
{
    out.push(set_mark(set))?;
    put_set_parts(out, set)?;
    Ok(())
}

// Puts the marks of a set form's parts at the end.
#[cycle(put_set)]
fn put_set_parts(out: &mut Vec<Mark>, set: &SetTerm) -> Result<(), NoMemory>
    ensures { OnOk result (out.new.items ≡ out.old.items ++ set_parts (set_tree set.now)) }
{
    match set {
        SetTerm::Empty | SetTerm::Var(_) => Ok(()),
        SetTerm::Union(a, b) | SetTerm::Inter(a, b) | SetTerm::Diff(a, b) => {
            put_set(out, a)?;
            put_set(out, b)?;
            Ok(())
        }
    }
}
