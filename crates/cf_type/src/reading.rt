//! Expressions as parts of relations.
ghost use Rattle.std.specs.Prelude.{◌≡◌, IfOk};
ghost use Rattle.cf_tree.specs.RelView.{rel_tree, term_tree, set_tree};
ghost use Rattle.cf_tree.specs.RawView.{raw_tree};
ghost use Rattle.cf_type.specs.FormParts.{reading_over, reading_with};
ghost use Rattle.cf_type.specs.FormView.{reading_of};
ghost use Rattle.cf_program.specs.LateLinear.{is_fixed_below as is_fixed_below_of};
ghost use Rattle.cf_program.specs.Reading.{relation as a_relation, term as a_term, set as a_set, not_linear, first_nonlinear as first_nonlinear_of, earlier_nonlinear as earlier_nonlinear_of, not_linear_at as not_linear_at_of, truth_reading, variable_reading, product_reading, sets_reading, binary_reading};

use crate::form::Reading;
use cf_program::Variable;
use cf_tree::{Base, BinOp, NoMemory, Order, Place, Raw, RawNode, Rel, SetTerm, Term, without};
use std::alloc::Global;

/// An operation with two sides: its place, and how many of the outermost variables count as known.
#[derive(Clone, Copy)]
pub struct Operation {
    pub op: BinOp,
    pub place: Place,
    pub known: usize,
}

/// Where the first form stands that is not linear.
pub fn first_nonlinear(reading: &Reading) -> Option<Place>
    ensures { result ≡ first_nonlinear_of (reading_of reading.now) }
{
    match reading {
        Reading::Relation(_) => None,
        Reading::Term(_) => None,
        Reading::Set(_) => None,
        Reading::NotLinear(place) => Some(*place),
    }
}

/// The first of two places, if any.
pub fn earlier_nonlinear(first: Option<Place>, second: Option<Place>) -> Option<Place>
    ensures { result ≡ earlier_nonlinear_of first second }
{
    match first {
        Some(place) => Some(place),
        None => second,
    }
}

/// The reading of a form that is no linear form, whose parts are not linear there first.
pub fn not_linear_at(first: Option<Place>, place: Place) -> Reading
    ensures { reading_of result ≡ not_linear_at_of first place }
{
    match first {
        Some(earlier) => Reading::NotLinear(earlier),
        None => Reading::NotLinear(place),
    }
}

// A relation.
fn relation(alloc: Global, rel: Rel) -> Result<Reading, NoMemory>
    ensures { IfOk result (λ r. reading_of r ≡ a_relation (rel_tree rel)) }
{
    Ok(Reading::Relation(Box::new(alloc, rel)?))
}

// A number form.
fn term(alloc: Global, term: Term) -> Result<Reading, NoMemory>
    ensures { IfOk result (λ r. reading_of r ≡ a_term (term_tree term)) }
{
    Ok(Reading::Term(Box::new(alloc, term)?))
}

// A set form.
fn set(alloc: Global, set: SetTerm) -> Result<Reading, NoMemory>
    ensures { IfOk result (λ r. reading_of r ≡ a_set (set_tree set)) }
{
    Ok(Reading::Set(Box::new(alloc, set)?))
}

/// A truth value.
pub fn of_truth(alloc: Global, truth: bool) -> Result<Reading, NoMemory>
    ensures { IfOk result (λ r. reading_of r ≡ truth_reading truth) }
{
    let rel = if truth { Rel::True } else { Rel::False };
    relation(alloc, rel)
}

/// A variable.
pub fn of_variable(alloc: Global, place: Place, variable: Variable) -> Result<Reading, NoMemory>
    ensures { IfOk result (λ r. reading_of r ≡ variable_reading place variable.base variable.level) }
{
    match variable.base {
        Base::Int => term(alloc, Term::Var(variable.level)),
        Base::Bool => Ok(Reading::NotLinear(place)),
        Base::Set => set(alloc, SetTerm::Var(variable.level)),
    }
}

// A form over one number form.
fn over_term(alloc: Global, raw: &Raw, t: Box<Term>) -> Result<Reading, NoMemory>
    ensures { IfOk result (λ r. reading_of r ≡ reading_over (raw_tree raw.now) raw.now.place (a_term (term_tree t.value))) }
{
    match &raw.node {
        RawNode::Neg(_) => term(alloc, Term::Neg(t)),
        RawNode::Abs(_) => term(alloc, Term::Abs(t)),
        _ => Ok(without(t, Reading::NotLinear(raw.place))),
    }
}

// A form over one relation.
fn over_relation(alloc: Global, raw: &Raw, a: Box<Rel>) -> Result<Reading, NoMemory>
    ensures { IfOk result (λ r. reading_of r ≡ reading_over (raw_tree raw.now) raw.now.place (a_relation (rel_tree a.value))) }
{
    match &raw.node {
        RawNode::Not(_) => relation(alloc, Rel::Not(a)),
        _ => Ok(without(a, Reading::NotLinear(raw.place))),
    }
}

// A form over one set form.
fn over_set(alloc: Global, raw: &Raw, s: Box<SetTerm>) -> Result<Reading, NoMemory>
    ensures { IfOk result (λ r. reading_of r ≡ reading_over (raw_tree raw.now) raw.now.place (a_set (set_tree s.value))) }
{
    match &raw.node {
        RawNode::Card(_) => term(alloc, Term::Card(s)),
        _ => Ok(without(s, Reading::NotLinear(raw.place))),
    }
}

/// The form over this one part.
pub fn over_one(alloc: Global, raw: &Raw, part: Reading) -> Result<Reading, NoMemory>
    ensures { IfOk result (λ r. reading_of r ≡ reading_over (raw_tree raw.now) raw.now.place (reading_of part)) }
{
    match part {
        Reading::Relation(a) => over_relation(alloc, raw, a),
        Reading::Term(t) => over_term(alloc, raw, t),
        Reading::Set(s) => over_set(alloc, raw, s),
        Reading::NotLinear(first) => Ok(Reading::NotLinear(first)),
    }
}

// A form over one number form and a number.
fn term_with(alloc: Global, raw: &Raw, k: i128, t: Box<Term>) -> Result<Reading, NoMemory>
    ensures { IfOk result (λ r. reading_of r ≡ reading_with (raw_tree raw.now) k raw.now.place (a_term (term_tree t.value))) }
{
    match &raw.node {
        RawNode::Div { .. } => term(alloc, Term::Div(t, k)),
        RawNode::Mod { .. } => term(alloc, Term::Mod(t, k)),
        RawNode::Divides { .. } => relation(alloc, Rel::Divides { k, of: t }),
        _ => Ok(without(t, Reading::NotLinear(raw.place))),
    }
}

/// The form over this one part and a number.
pub fn over_number(alloc: Global, raw: &Raw, k: i128, part: Reading) -> Result<Reading, NoMemory>
    ensures { IfOk result (λ r. reading_of r ≡ reading_with (raw_tree raw.now) k raw.now.place (reading_of part)) }
{
    match part {
        Reading::Term(t) => term_with(alloc, raw, k, t),
        Reading::Relation(a) => Ok(without(a, Reading::NotLinear(raw.place))),
        Reading::Set(s) => Ok(without(s, Reading::NotLinear(raw.place))),
        Reading::NotLinear(first) => Ok(Reading::NotLinear(first)),
    }
}

// The reading of an operation that is not linear at this place; its parts are given up.
fn bent<A: Drop, B: Drop>(_left: A, _right: B, place: Place) -> Reading
    ensures { reading_of result ≡ not_linear place }
{
    Reading::NotLinear(place)
}

// Whether a number form holds no card, no div, no mod, and no variable but of these outermost ones.
fn is_fixed_below(known: usize, term: &Term) -> bool
    ensures { result ≡ is_fixed_below_of known (term_tree term.now) }
{
    match term {
        Term::Lit(_) => true,
        Term::Var(x) => (*x as usize) < known,
        Term::Neg(a) | Term::Abs(a) => is_fixed_below(known, a),
        Term::Add(a, b) | Term::Sub(a, b) | Term::Mul(a, b) => {
            is_fixed_below(known, a) && is_fixed_below(known, b)
        }
        Term::Card(_) | Term::Div(_, _) | Term::Mod(_, _) => false,
    }
}

// The product of two number forms.
fn of_product(
    alloc: Global,
    operation: Operation,
    a: Box<Term>,
    b: Box<Term>,
) -> Result<Reading, NoMemory>
    ensures { IfOk result (λ r. reading_of r ≡ product_reading operation.known operation.place (term_tree a.value) (term_tree b.value)) }
{
    if is_fixed_below(operation.known, &a) || is_fixed_below(operation.known, &b) {
        return term(alloc, Term::Mul(a, b));
    }
    Ok(bent(a, b, operation.place))
}

// The operation of two number forms.
fn of_terms(
    alloc: Global,
    operation: Operation,
    a: Box<Term>,
    b: Box<Term>,
) -> Result<Reading, NoMemory>
    ensures { IfOk result (λ r. reading_of r ≡ binary_reading operation.known operation.op operation.place (a_term (term_tree a.value))
        (a_term (term_tree b.value))) }
{
    match operation.op {
        BinOp::Add => term(alloc, Term::Add(a, b)),
        BinOp::Sub => term(alloc, Term::Sub(a, b)),
        BinOp::Mul => of_product(alloc, operation, a, b),
        BinOp::Compare(order) => relation(
            alloc,
            Rel::Compare {
                order,
                left: a,
                right: b,
            },
        ),
        BinOp::And
        | BinOp::Or
        | BinOp::Union
        | BinOp::Inter
        | BinOp::Diff
        | BinOp::Subset
        | BinOp::Implies => Ok(bent(a, b, operation.place)),
    }
}

// The operation of two relations.
fn of_relations(
    alloc: Global,
    operation: Operation,
    a: Box<Rel>,
    b: Box<Rel>,
) -> Result<Reading, NoMemory>
    ensures { IfOk result (λ r. reading_of r ≡ binary_reading operation.known operation.op operation.place (a_relation (rel_tree a.value))
        (a_relation (rel_tree b.value))) }
{
    match operation.op {
        BinOp::And => relation(alloc, Rel::And(a, b)),
        BinOp::Or => relation(alloc, Rel::Or(a, b)),
        BinOp::Add
        | BinOp::Sub
        | BinOp::Mul
        | BinOp::Union
        | BinOp::Inter
        | BinOp::Diff
        | BinOp::Subset
        | BinOp::Implies => Ok(bent(a, b, operation.place)),
        BinOp::Compare(_) => Ok(bent(a, b, operation.place)),
    }
}

// The comparison of two set forms.
fn of_compared_sets(
    alloc: Global,
    order: Order,
    place: Place,
    a: Box<SetTerm>,
    b: Box<SetTerm>,
) -> Result<Reading, NoMemory>
    ensures { IfOk result (λ r. reading_of r ≡ sets_reading order place (set_tree a.value) (set_tree b.value)) }
{
    match order {
        Order::Eq => relation(alloc, Rel::SameSet(a, b)),
        Order::Ne => relation(alloc, Rel::OtherSet(a, b)),
        Order::Lt | Order::Le | Order::Gt | Order::Ge => Ok(bent(a, b, place)),
    }
}

// The operation of two set forms.
fn of_sets(
    alloc: Global,
    operation: Operation,
    a: Box<SetTerm>,
    b: Box<SetTerm>,
) -> Result<Reading, NoMemory>
    ensures { IfOk result (λ r. reading_of r ≡ binary_reading operation.known operation.op operation.place (a_set (set_tree a.value))
        (a_set (set_tree b.value))) }
{
    match operation.op {
        BinOp::Union => set(alloc, SetTerm::Union(a, b)),
        BinOp::Inter => set(alloc, SetTerm::Inter(a, b)),
        BinOp::Diff => set(alloc, SetTerm::Diff(a, b)),
        BinOp::Subset => relation(alloc, Rel::Subset(a, b)),
        BinOp::Compare(order) => of_compared_sets(alloc, order, operation.place, a, b),
        BinOp::Add | BinOp::Sub | BinOp::Mul | BinOp::And | BinOp::Or | BinOp::Implies => Ok(bent(
            a,
            b,
            operation.place,
        )),
    }
}

// An operation whose left side is a relation.
#[tactic(auto, using(crate::proofs::ReadingLemmas::relation_and_term, crate::proofs::ReadingLemmas::relation_and_set))]
fn on_left_relation(
    alloc: Global,
    operation: Operation,
    a: Box<Rel>,
    right: Reading,
) -> Result<Reading, NoMemory>
    ensures { IfOk result (λ r. reading_of r ≡ binary_reading operation.known operation.op operation.place (a_relation (rel_tree a.value)) (reading_of right)) }
{
    match right {
        Reading::Relation(b) => of_relations(alloc, operation, a, b),
        Reading::Term(b) => Ok(bent(a, b, operation.place)),
        Reading::Set(b) => Ok(bent(a, b, operation.place)),
        Reading::NotLinear(first) => {
            drop(a);
            match operation.op {
                BinOp::Add
                | BinOp::Sub
                | BinOp::Mul
                | BinOp::Union
                | BinOp::Inter
                | BinOp::Diff
                | BinOp::Subset => Ok(Reading::NotLinear(operation.place)),
                BinOp::And | BinOp::Or | BinOp::Implies => Ok(Reading::NotLinear(first)),
                BinOp::Compare(_) => Ok(Reading::NotLinear(first)),
            }
        }
    }
}

// An operation whose left side is a number form.
#[tactic(auto, using(crate::proofs::ReadingLemmas::term_and_relation, crate::proofs::ReadingLemmas::term_and_set))]
fn on_left_term(
    alloc: Global,
    operation: Operation,
    a: Box<Term>,
    right: Reading,
) -> Result<Reading, NoMemory>
    ensures { IfOk result (λ r. reading_of r ≡ binary_reading operation.known operation.op operation.place (a_term (term_tree a.value)) (reading_of right)) }
{
    match right {
        Reading::Relation(b) => Ok(bent(a, b, operation.place)),
        Reading::Term(b) => of_terms(alloc, operation, a, b),
        Reading::Set(b) => Ok(bent(a, b, operation.place)),
        Reading::NotLinear(first) => {
            drop(a);
            match operation.op {
                BinOp::And
                | BinOp::Or
                | BinOp::Union
                | BinOp::Inter
                | BinOp::Diff
                | BinOp::Subset => Ok(Reading::NotLinear(operation.place)),
                BinOp::Add | BinOp::Sub | BinOp::Mul | BinOp::Implies => Ok(Reading::NotLinear(
                    first,
                )),
                BinOp::Compare(_) => Ok(Reading::NotLinear(first)),
            }
        }
    }
}

// An operation whose left side is a set form.
#[tactic(auto, using(crate::proofs::ReadingLemmas::set_and_relation, crate::proofs::ReadingLemmas::set_and_term))]
fn on_left_set(
    alloc: Global,
    operation: Operation,
    a: Box<SetTerm>,
    right: Reading,
) -> Result<Reading, NoMemory>
    ensures { IfOk result (λ r. reading_of r ≡ binary_reading operation.known operation.op operation.place (a_set (set_tree a.value)) (reading_of right)) }
{
    match right {
        Reading::Relation(b) => Ok(bent(a, b, operation.place)),
        Reading::Term(b) => Ok(bent(a, b, operation.place)),
        Reading::Set(b) => of_sets(alloc, operation, a, b),
        Reading::NotLinear(first) => {
            drop(a);
            match operation.op {
                BinOp::Add | BinOp::Sub | BinOp::Mul | BinOp::And | BinOp::Or => Ok(
                    Reading::NotLinear(operation.place),
                ),
                BinOp::Union | BinOp::Inter | BinOp::Diff | BinOp::Subset | BinOp::Implies => Ok(
                    Reading::NotLinear(first),
                ),
                BinOp::Compare(_) => Ok(Reading::NotLinear(first)),
            }
        }
    }
}

/// An operation with two sides.
#[tactic(auto, using(crate::proofs::ReadingLemmas::bent_left))]
pub fn of_binary(
    alloc: Global,
    operation: Operation,
    left: Reading,
    right: Reading,
) -> Result<Reading, NoMemory>
    ensures { IfOk result (λ r. reading_of r ≡ binary_reading operation.known operation.op operation.place (reading_of left) (reading_of right)) }
{
    match left {
        Reading::Relation(a) => on_left_relation(alloc, operation, a, right),
        Reading::Term(a) => on_left_term(alloc, operation, a, right),
        Reading::Set(a) => on_left_set(alloc, operation, a, right),
        Reading::NotLinear(first) => {
            drop(right);
            Ok(Reading::NotLinear(first))
        }
    }
}
