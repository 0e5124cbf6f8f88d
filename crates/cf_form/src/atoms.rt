//! Atoms of wide relations, and the links of chains, over the alternatives of their sides.
ghost use Rattle.std.specs.Prelude.{◌≡◌, ◌&&◌, ◌++◌, ◌∷◌, [], true, IfOk, map};
ghost use Rattle.cf_tree.specs.RelTree.{rel_compare, rel_divides};
ghost use Rattle.cf_tree.specs.RelView.{set_tree, term_tree, rel_tree};
ghost use Rattle.cf_form.specs.Alternatives.{all_of, some_atom, over_one, over_two, links as links_of};
ghost use Rattle.cf_form.specs.Atoms.{plain_set, plain_term, plain_atom as plain_atom_of, rel_over_sets};
ghost use Rattle.cf_form.specs.GuardedView.{guarded_set, guarded_term, guarded_terms, pair_of, with_form, atom_of};
ghost use Rattle.cf_form.specs.Joined.{signed_of};
ghost use Rattle.cf_form.specs.Wide.{is_plain, is_plain_set, is_plain_term};
ghost use Rattle.cf_form.specs.WideView.{wide_term, wide_set_of, wide_rel};

use crate::copies::{copy_both, copy_set, copy_term, with_last};
use crate::guarded::{GuardedSet, GuardedTerm};
use crate::join::{Join, Sign, joined, signed};
use crate::wide::{Room, WideRel, WideSet, WideTerm};
use cf_tree::{NoMemory, Order, Rel, SetTerm, Term, without};
use std::alloc::Global;

/// An atom without new forms, or its negation.
pub(crate) fn plain_atom(
    alloc: Global,
    room: &mut Room,
    sign: Sign,
    rel: &WideRel,
) -> Result<Box<Rel>, NoMemory>
    requires { is_plain (wide_rel rel.now) ≡ true }
    ensures { IfOk result (λ r. rel_tree r.value ≡ plain_atom_of sign (wide_rel rel.now)) }
{
    match rel {
        WideRel::Compare { order, left, right } => {
            Ok(plain_compared(alloc, room, sign, *order, left, right)?)
        }
        WideRel::SameSet(a, b) | WideRel::OtherSet(a, b) | WideRel::Subset(a, b) => {
            Ok(plain_related(alloc, room, sign, rel, a, b)?)
        }
        WideRel::Divides { k, of } => Ok(divided(alloc, sign, k, of.plain(alloc, room)?)?),
        WideRel::True
        | WideRel::False
        | WideRel::Truth(_)
        | WideRel::Not(_)
        | WideRel::And(_, _)
        | WideRel::Or(_, _)
        | WideRel::Implies(_, _)
        | WideRel::Same(_, _)
        | WideRel::Other(_, _)
        | WideRel::IfTruth { .. }
        | WideRel::Chain { .. } => Ok(Box::new(alloc, Rel::False)?),
    }
}

// ---- comparisons of numbers

// A comparison of forms without new forms, or its negation.
#[tactic(auto, using(crate::proofs::PlainLaws::first_of_both, crate::proofs::PlainLaws::second_of_both))]
fn plain_compared(
    alloc: Global,
    room: &mut Room,
    sign: Sign,
    order: Order,
    left: &WideTerm,
    right: &WideTerm,
) -> Result<Box<Rel>, NoMemory>
    requires { (is_plain_term (wide_term left.now) && is_plain_term (wide_term right.now)) ≡ true }
    ensures { IfOk result (λ r. rel_tree r.value ≡ signed_of sign (rel_compare order (plain_term (wide_term left.now)) (plain_term (wide_term right.now)))) }
{
    let first = left.plain(alloc, room)?;
    match right.plain(alloc, room) {
        Ok(second) => compared(alloc, sign, order, first, second),
        Err(fault) => Err(without(first, fault)),
    }
}

fn compared(
    alloc: Global,
    sign: Sign,
    order: Order,
    left: Box<Term>,
    right: Box<Term>,
) -> Result<Box<Rel>, NoMemory>
    ensures { IfOk result (λ r. rel_tree r.value ≡ signed_of sign (rel_compare order (term_tree left.value) (term_tree right.value))) }
{
    let rel = Box::new(alloc, Rel::Compare { order, left, right })?;
    signed(alloc, sign, rel)
}

/// That a comparison holds of some of the alternatives, or its negation does.
pub(crate) fn some_compared(
    alloc: Global,
    room: &mut Room,
    sign: Sign,
    order: Order,
    xs: &[GuardedTerm],
    ys: &[GuardedTerm],
) -> Result<Box<Rel>, NoMemory>
    ensures { IfOk result (λ r. rel_tree r.value ≡ some_atom (signed_of sign) (over_two (rel_compare order) (map guarded_term xs.now) (map guarded_term ys.now))) }
{
    let mut all = Vec::new(alloc);
    let mut rest = xs;
    while let Some((x, more)) = rest.split_first() {
        let mut some = compared_each(alloc, room, sign, order, x, ys)?;
        all.append(&mut some)?;
        rest = more;
    }
    joined(alloc, Join::Some, all)
}

fn compared_each(
    alloc: Global,
    room: &mut Room,
    sign: Sign,
    order: Order,
    x: &GuardedTerm,
    ys: &[GuardedTerm],
) -> Result<Vec<Rel>, NoMemory>
    ensures { IfOk result (λ rs. map rel_tree rs.items ≡
        map (atom_of (signed_of sign)) (map (pair_of (rel_compare order) (guarded_term x.now)) (map guarded_term ys.now))) }
{
    let mut all = Vec::new(alloc);
    let mut rest = ys;
    while let Some((y, more)) = rest.split_first() {
        all.push(compared_at(alloc, room, sign, order, x, y)?)?;
        rest = more;
    }
    Ok(all)
}

fn compared_at(
    alloc: Global,
    room: &mut Room,
    sign: Sign,
    order: Order,
    x: &GuardedTerm,
    y: &GuardedTerm,
) -> Result<Rel, NoMemory>
    ensures { IfOk result (λ r. rel_tree r ≡ atom_of (signed_of sign) (pair_of (rel_compare order) (guarded_term x.now) (guarded_term y.now))) }
{
    let guards = copy_both(alloc, room, &x.guards, &y.guards)?;
    match compared_forms(alloc, room, sign, order, &x.form, &y.form) {
        Ok(last) => guarded_atom(alloc, guards, last),
        Err(fault) => Err(without(guards, fault)),
    }
}

fn compared_forms(
    alloc: Global,
    room: &mut Room,
    sign: Sign,
    order: Order,
    x: &Term,
    y: &Term,
) -> Result<Box<Rel>, NoMemory>
    ensures { IfOk result (λ r. rel_tree r.value ≡ signed_of sign (rel_compare order (term_tree x.now) (term_tree y.now))) }
{
    let left = copy_term(alloc, room, x)?;
    match copy_term(alloc, room, y) {
        Ok(right) => compared(alloc, sign, order, left, right),
        Err(fault) => Err(without(left, fault)),
    }
}

// An atom behind its guards.
fn guarded_atom(alloc: Global, guards: Vec<Rel>, last: Box<Rel>) -> Result<Rel, NoMemory>
    ensures { IfOk result (λ r. rel_tree r ≡ all_of (map rel_tree guards.items ++ rel_tree last.value ∷ [])) }
{
    let all = with_last(guards, Box::into_inner(last))?;
    Ok(Box::into_inner(joined(alloc, Join::All, all)?))
}

/// The links of a chain, or their negations.
pub(crate) fn links(
    alloc: Global,
    room: &mut Room,
    sign: Sign,
    orders: &[Order],
    parts: &[Vec<GuardedTerm>],
) -> Result<Vec<Rel>, NoMemory>
    ensures { IfOk result (λ rs. map rel_tree rs.items ≡ links_of (signed_of sign) orders.now (map guarded_terms parts.now)) }
{
    let mut all = Vec::new(alloc);
    let mut orders = orders;
    let mut parts = parts;
    while let Some((order, more)) = orders.split_first() {
        match parts.split_first() {
            None => return Ok(all),
            Some((left, rest)) => match rest.split_first() {
                None => return Ok(all),
                Some((right, _)) => {
                    let link = some_compared(alloc, room, sign, *order, left, right)?;
                    all.push(Box::into_inner(link))?;
                    orders = more;
                    parts = rest;
                }
            },
        }
    }
    Ok(all)
}

// ---- divisibility

/// That some of the alternatives is divisible, or not divisible.
pub(crate) fn some_divided(
    alloc: Global,
    sign: Sign,
    k: &i128,
    xs: Vec<GuardedTerm>,
) -> Result<Box<Rel>, NoMemory>
    ensures { IfOk result (λ r. rel_tree r.value ≡ some_atom (signed_of sign) (over_one (rel_divides k.now) (map guarded_term xs.items))) }
{
    joined(alloc, Join::Some, divided_each(alloc, sign, k, xs)?)
}

fn divided_each(
    alloc: Global,
    sign: Sign,
    k: &i128,
    xs: Vec<GuardedTerm>,
) -> Result<Vec<Rel>, NoMemory>
    ensures { IfOk result (λ rs. map rel_tree rs.items ≡ map (atom_of (signed_of sign)) (over_one (rel_divides k.now) (map guarded_term xs.items))) }
{
    let mut left = xs;
    left.reverse();
    let mut all = Vec::new(alloc);
    while let Some(x) = left.pop() {
        all.push(divided_at(alloc, sign, k, x)?)?;
    }
    Ok(all)
}

fn divided_at(alloc: Global, sign: Sign, k: &i128, x: GuardedTerm) -> Result<Rel, NoMemory>
    ensures { IfOk result (λ r. rel_tree r ≡ atom_of (signed_of sign) (with_form (rel_divides k.now) (guarded_term x))) }
{
    let GuardedTerm { guards, form } = x;
    match divided(alloc, sign, k, form) {
        Ok(last) => guarded_atom(alloc, guards, last),
        Err(fault) => Err(without(guards, fault)),
    }
}

fn divided(alloc: Global, sign: Sign, k: &i128, of: Box<Term>) -> Result<Box<Rel>, NoMemory>
    ensures { IfOk result (λ r. rel_tree r.value ≡ signed_of sign (rel_divides k.now (term_tree of.value))) }
{
    let rel = Box::new(alloc, Rel::Divides { k: *k, of })?;
    signed(alloc, sign, rel)
}

// ---- relations of sets

// The same relation of set forms without new forms, or its negation.
#[tactic(auto, using(crate::proofs::PlainLaws::first_of_both, crate::proofs::PlainLaws::second_of_both))]
fn plain_related(
    alloc: Global,
    room: &mut Room,
    sign: Sign,
    rel: &WideRel,
    a: &WideSet,
    b: &WideSet,
) -> Result<Box<Rel>, NoMemory>
    requires { (is_plain_set (wide_set_of a.now) && is_plain_set (wide_set_of b.now)) ≡ true }
    ensures { IfOk result (λ r. rel_tree r.value ≡ signed_of sign (rel_over_sets (wide_rel rel.now) (plain_set (wide_set_of a.now)) (plain_set (wide_set_of b.now)))) }
{
    let first = a.plain(alloc, room)?;
    match b.plain(alloc, room) {
        Ok(second) => related(alloc, sign, rel, first, second),
        Err(fault) => Err(without(first, fault)),
    }
}

fn related(
    alloc: Global,
    sign: Sign,
    rel: &WideRel,
    a: Box<SetTerm>,
    b: Box<SetTerm>,
) -> Result<Box<Rel>, NoMemory>
    ensures { IfOk result (λ r. rel_tree r.value ≡ signed_of sign (rel_over_sets (wide_rel rel.now) (set_tree a.value) (set_tree b.value))) }
{
    let rel = Box::new(alloc, over_sets(rel, a, b))?;
    signed(alloc, sign, rel)
}

// The same relation of these set forms.
fn over_sets(rel: &WideRel, a: Box<SetTerm>, b: Box<SetTerm>) -> Rel
    ensures { rel_tree result ≡ rel_over_sets (wide_rel rel.now) (set_tree a.value) (set_tree b.value) }
{
    match rel {
        WideRel::SameSet(_, _) => Rel::SameSet(a, b),
        WideRel::OtherSet(_, _) => Rel::OtherSet(a, b),
        WideRel::Subset(_, _)
        | WideRel::True
        | WideRel::False
        | WideRel::Truth(_)
        | WideRel::Compare { .. }
        | WideRel::Divides { .. }
        | WideRel::Not(_)
        | WideRel::And(_, _)
        | WideRel::Or(_, _)
        | WideRel::Implies(_, _)
        | WideRel::Same(_, _)
        | WideRel::Other(_, _)
        | WideRel::IfTruth { .. }
        | WideRel::Chain { .. } => Rel::Subset(a, b),
    }
}

/// That the relation holds of some of the alternatives, or its negation does.
pub(crate) fn some_related(
    alloc: Global,
    room: &mut Room,
    sign: Sign,
    rel: &WideRel,
    xs: &[GuardedSet],
    ys: &[GuardedSet],
) -> Result<Box<Rel>, NoMemory>
    ensures { IfOk result (λ r. rel_tree r.value ≡ some_atom (signed_of sign) (over_two (rel_over_sets (wide_rel rel.now)) (map guarded_set xs.now) (map guarded_set ys.now))) }
{
    let mut all = Vec::new(alloc);
    let mut rest = xs;
    while let Some((x, more)) = rest.split_first() {
        let mut some = related_each(alloc, room, sign, rel, x, ys)?;
        all.append(&mut some)?;
        rest = more;
    }
    joined(alloc, Join::Some, all)
}

fn related_each(
    alloc: Global,
    room: &mut Room,
    sign: Sign,
    rel: &WideRel,
    x: &GuardedSet,
    ys: &[GuardedSet],
) -> Result<Vec<Rel>, NoMemory>
    ensures { IfOk result (λ rs. map rel_tree rs.items ≡
        map (atom_of (signed_of sign)) (map (pair_of (rel_over_sets (wide_rel rel.now)) (guarded_set x.now)) (map guarded_set ys.now))) }
{
    let mut all = Vec::new(alloc);
    let mut rest = ys;
    while let Some((y, more)) = rest.split_first() {
        all.push(related_at(alloc, room, sign, rel, x, y)?)?;
        rest = more;
    }
    Ok(all)
}

fn related_at(
    alloc: Global,
    room: &mut Room,
    sign: Sign,
    rel: &WideRel,
    x: &GuardedSet,
    y: &GuardedSet,
) -> Result<Rel, NoMemory>
    ensures { IfOk result (λ r. rel_tree r ≡ atom_of (signed_of sign) (pair_of (rel_over_sets (wide_rel rel.now)) (guarded_set x.now) (guarded_set y.now))) }
{
    let guards = copy_both(alloc, room, &x.guards, &y.guards)?;
    match related_forms(alloc, room, sign, rel, &x.form, &y.form) {
        Ok(last) => guarded_atom(alloc, guards, last),
        Err(fault) => Err(without(guards, fault)),
    }
}

fn related_forms(
    alloc: Global,
    room: &mut Room,
    sign: Sign,
    rel: &WideRel,
    x: &SetTerm,
    y: &SetTerm,
) -> Result<Box<Rel>, NoMemory>
    ensures { IfOk result (λ r. rel_tree r.value ≡ signed_of sign (rel_over_sets (wide_rel rel.now) (set_tree x.now) (set_tree y.now))) }
{
    let first = copy_set(alloc, room, x)?;
    match copy_set(alloc, room, y) {
        Ok(second) => related(alloc, sign, rel, first, second),
        Err(fault) => Err(without(first, fault)),
    }
}
