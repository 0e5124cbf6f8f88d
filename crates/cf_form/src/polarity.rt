//! The relation of language 2 that a wide relation stands for, and the one that its negation does.
ghost use Rattle.std.specs.Prelude.{◌≡◌, ◌&&◌, IfOk, map, pos};
ghost use Rattle.cf_tree.specs.RelTree.{rel_compare, term_lit, term_var};
ghost use Rattle.cf_tree.specs.RelView.{rel_tree};
ghost use Rattle.cf_tree.specs.declared.base.Order.TheVariants.{Ge};
ghost use Rattle.cf_form.specs.Alternatives.{some_atom};
ghost use Rattle.cf_form.specs.Atoms.{atoms};
ghost use Rattle.cf_form.specs.Branches.{values_in};
ghost use Rattle.cf_form.specs.Joined.{signed_of};
ghost use Rattle.cf_form.specs.Polarity.{holding as held, failing as failed, truth_holds as truth_held, truth_fails as truth_failed, two_ways as two_ways_of};
ghost use Rattle.cf_form.specs.ToldView.{truth_at};
ghost use Rattle.cf_form.specs.Wide.{is_plain};
ghost use Rattle.cf_form.specs.WideView.{wide_rel};

use crate::alternatives::{all_alternatives, alternatives, set_alternatives};
use crate::atoms::{links, plain_atom, some_compared, some_divided, some_related};
use crate::join::{Join, Sign, and, joined, negated, or};
use crate::told::TruthAt;
use crate::wide::{Room, WideRel};
use cf_tree::{NoMemory, Order, Rel, Term, without};
use std::alloc::Global;

/// A relation of language 2 for the wide relation, where truth variables of the scope have these values.
#[cycle(polarity)]
pub(crate) fn holding(
    alloc: Global,
    room: &mut Room,
    truths: &[TruthAt],
    rel: &WideRel,
) -> Result<Box<Rel>, NoMemory>
    ensures { IfOk result (λ r. rel_tree r.value ≡ held (values_in (map truth_at truths.now)) (wide_rel rel.now)) }
{
    room.take()?;
    match rel {
        WideRel::True => Ok(Box::new(alloc, Rel::True)?),
        WideRel::False => Ok(Box::new(alloc, Rel::False)?),
        WideRel::Truth(x) => truth_holds(alloc, truths, *x),
        WideRel::Compare { .. }
        | WideRel::SameSet(_, _)
        | WideRel::OtherSet(_, _)
        | WideRel::Subset(_, _)
        | WideRel::Divides { .. } => Ok(atom(alloc, room, truths, Sign::Holds, rel)?),
        WideRel::Not(p) => failing(alloc, room, truths, p),
        WideRel::And(p, q) => {
            let a = holding(alloc, room, truths, p)?;
            let b = holding(alloc, room, truths, q)?;
            and(alloc, a, b)
        }
        WideRel::Or(p, q) => {
            let a = holding(alloc, room, truths, p)?;
            let b = holding(alloc, room, truths, q)?;
            or(alloc, a, b)
        }
        WideRel::Implies(p, q) => {
            let a = failing(alloc, room, truths, p)?;
            let b = holding(alloc, room, truths, q)?;
            or(alloc, a, b)
        }
        WideRel::Same(p, q) => {
            let a = holding(alloc, room, truths, p)?;
            let b = holding(alloc, room, truths, q)?;
            let c = failing(alloc, room, truths, p)?;
            let d = failing(alloc, room, truths, q)?;
            two_ways(alloc, a, b, c, d)
        }
        WideRel::Other(p, q) => {
            let a = holding(alloc, room, truths, p)?;
            let b = failing(alloc, room, truths, q)?;
            let c = failing(alloc, room, truths, p)?;
            let d = holding(alloc, room, truths, q)?;
            two_ways(alloc, a, b, c, d)
        }
        WideRel::IfTruth { test, yes, no } => {
            let a = holding(alloc, room, truths, test)?;
            let b = holding(alloc, room, truths, yes)?;
            let c = failing(alloc, room, truths, test)?;
            let d = holding(alloc, room, truths, no)?;
            two_ways(alloc, a, b, c, d)
        }
        WideRel::Chain { orders, parts } => {
            let parts = all_alternatives(alloc, room, truths, parts)?;
            let all = links(alloc, room, Sign::Holds, orders, &parts)?;
            Ok(joined(alloc, Join::All, all)?)
        }
    }
}

/// One for its negation.
#[cycle(polarity)]
pub(crate) fn failing(
    alloc: Global,
    room: &mut Room,
    truths: &[TruthAt],
    rel: &WideRel,
) -> Result<Box<Rel>, NoMemory>
    ensures { IfOk result (λ r. rel_tree r.value ≡ failed (values_in (map truth_at truths.now)) (wide_rel rel.now)) }
{
    room.take()?;
    match rel {
        WideRel::True => negated(alloc, Box::new(alloc, Rel::True)?),
        WideRel::False => negated(alloc, Box::new(alloc, Rel::False)?),
        WideRel::Truth(x) => truth_fails(alloc, truths, *x),
        WideRel::Compare { .. }
        | WideRel::SameSet(_, _)
        | WideRel::OtherSet(_, _)
        | WideRel::Subset(_, _)
        | WideRel::Divides { .. } => Ok(atom(alloc, room, truths, Sign::Fails, rel)?),
        WideRel::Not(p) => {
            if p.is_plain() {
                negated(alloc, failing(alloc, room, truths, p)?)
            } else {
                holding(alloc, room, truths, p)
            }
        }
        WideRel::And(p, q) => {
            if are_plain(p, q) {
                let a = holding(alloc, room, truths, p)?;
                let b = holding(alloc, room, truths, q)?;
                negated(alloc, and(alloc, a, b)?)
            } else {
                let a = failing(alloc, room, truths, p)?;
                let b = failing(alloc, room, truths, q)?;
                or(alloc, a, b)
            }
        }
        WideRel::Or(p, q) => {
            if are_plain(p, q) {
                let a = holding(alloc, room, truths, p)?;
                let b = holding(alloc, room, truths, q)?;
                negated(alloc, or(alloc, a, b)?)
            } else {
                let a = failing(alloc, room, truths, p)?;
                let b = failing(alloc, room, truths, q)?;
                and(alloc, a, b)
            }
        }
        WideRel::Implies(p, q) => {
            let a = holding(alloc, room, truths, p)?;
            let b = failing(alloc, room, truths, q)?;
            and(alloc, a, b)
        }
        WideRel::Same(p, q) => {
            let a = holding(alloc, room, truths, p)?;
            let b = failing(alloc, room, truths, q)?;
            let c = failing(alloc, room, truths, p)?;
            let d = holding(alloc, room, truths, q)?;
            two_ways(alloc, a, b, c, d)
        }
        WideRel::Other(p, q) => {
            let a = holding(alloc, room, truths, p)?;
            let b = holding(alloc, room, truths, q)?;
            let c = failing(alloc, room, truths, p)?;
            let d = failing(alloc, room, truths, q)?;
            two_ways(alloc, a, b, c, d)
        }
        WideRel::IfTruth { test, yes, no } => {
            let a = holding(alloc, room, truths, test)?;
            let b = failing(alloc, room, truths, yes)?;
            let c = failing(alloc, room, truths, test)?;
            let d = failing(alloc, room, truths, no)?;
            two_ways(alloc, a, b, c, d)
        }
        WideRel::Chain { orders, parts } => {
            let parts = all_alternatives(alloc, room, truths, parts)?;
            let some = links(alloc, room, Sign::Fails, orders, &parts)?;
            Ok(joined(alloc, Join::Some, some)?)
        }
    }
}

// An atom, or its negation.
#[cycle(polarity)]
#[tactic(auto, using(crate::proofs::PlainLaws::one_atom))]
fn atom(
    alloc: Global,
    room: &mut Room,
    truths: &[TruthAt],
    sign: Sign,
    rel: &WideRel,
) -> Result<Box<Rel>, NoMemory>
    ensures { IfOk result (λ r. rel_tree r.value ≡ some_atom (signed_of sign) (atoms (values_in (map truth_at truths.now)) (wide_rel rel.now))) }
{
    if rel.is_plain() {
        return Ok(plain_atom(alloc, room, sign, rel)?);
    }
    match rel {
        WideRel::Compare { order, left, right } => {
            let xs = alternatives(alloc, room, truths, left)?;
            match alternatives(alloc, room, truths, right) {
                Ok(ys) => Ok(some_compared(alloc, room, sign, *order, &xs, &ys)?),
                Err(fault) => Err(without(xs, fault)),
            }
        }
        WideRel::SameSet(a, b) | WideRel::OtherSet(a, b) | WideRel::Subset(a, b) => {
            let xs = set_alternatives(alloc, room, truths, a)?;
            match set_alternatives(alloc, room, truths, b) {
                Ok(ys) => Ok(some_related(alloc, room, sign, rel, &xs, &ys)?),
                Err(fault) => Err(without(xs, fault)),
            }
        }
        WideRel::Divides { k, of } => {
            let xs = alternatives(alloc, room, truths, of)?;
            Ok(some_divided(alloc, sign, k, xs)?)
        }
        WideRel::True
        | WideRel::False
        | WideRel::Truth(_)
        | WideRel::Not(_)
        | WideRel::And(_, _)
        | WideRel::Or(_, _)
        | WideRel::Implies(_, _)
        | WideRel::Same(_, _)
        | WideRel::Other(_, _)
        | WideRel::IfTruth { .. }
        | WideRel::Chain { .. } => Ok(Box::new(alloc, Rel::False)?),
    }
}

fn two_ways(
    alloc: Global,
    a: Box<Rel>,
    b: Box<Rel>,
    c: Box<Rel>,
    d: Box<Rel>,
) -> Result<Box<Rel>, NoMemory>
    ensures { IfOk result (λ r. rel_tree r.value ≡ two_ways_of (rel_tree a.value) (rel_tree b.value) (rel_tree c.value) (rel_tree d.value)) }
{
    let first = and(alloc, a, b);
    let second = and(alloc, c, d);
    or(alloc, first?, second?)
}

// Whether no new form stands in the two.
fn are_plain(p: &WideRel, q: &WideRel) -> bool
    ensures { result ≡ is_plain (wide_rel p.now) && is_plain (wide_rel q.now) }
{
    p.is_plain() && q.is_plain()
}

// The value that a branch gives a truth variable.
fn value_in(truths: &[TruthAt], level: u32) -> Option<bool>
    ensures { result ≡ values_in (map truth_at truths.now) level }
{
    let mut rest = truths;
    while let Some((first, more)) = rest.split_first() {
        if level == first.level {
            return Some(first.value);
        }
        rest = more;
    }
    None
}

fn truth_holds(alloc: Global, truths: &[TruthAt], level: u32) -> Result<Box<Rel>, NoMemory>
    ensures { IfOk result (λ r. rel_tree r.value ≡ truth_held (values_in (map truth_at truths.now) level) level) }
{
    match value_in(truths, level) {
        Some(true) => Ok(Box::new(alloc, Rel::True)?),
        Some(false) => Ok(Box::new(alloc, Rel::False)?),
        None => at_least_one(alloc, level),
    }
}

fn truth_fails(alloc: Global, truths: &[TruthAt], level: u32) -> Result<Box<Rel>, NoMemory>
    ensures { IfOk result (λ r. rel_tree r.value ≡ truth_failed (values_in (map truth_at truths.now) level) level) }
{
    match value_in(truths, level) {
        Some(true) => Ok(Box::new(alloc, Rel::False)?),
        Some(false) => Ok(Box::new(alloc, Rel::True)?),
        None => negated(alloc, at_least_one(alloc, level)?),
    }
}

// That a number is at least 1.
fn at_least_one(alloc: Global, level: u32) -> Result<Box<Rel>, NoMemory>
    ensures { IfOk result (λ r. rel_tree r.value ≡ rel_compare Ge (term_var level) (term_lit (pos 1))) }
{
    let left = Box::new(alloc, Term::Var(level))?;
    let right = Box::new(alloc, Term::Lit(1))?;
    let order = Order::Ge;
    Ok(Box::new(alloc, Rel::Compare { order, left, right })?)
}
