//! Expansion: the parts of an expression's value as wide forms, without lets and calls.
ghost use Rattle.std.specs.Prelude.{◌≡◌, ◌++◌, ◌∷◌, [], IfOk, map, pos, slice_index_or};
ghost use Rattle.cf_tree.specs.DefView.{def_tree};
ghost use Rattle.cf_tree.specs.ExprView.{expr_tree, expr_trees};
ghost use Rattle.cf_form.specs.Expansion.{expanded, all_expanded, number_in as number_of, set_in as set_of, truth_in as truth_of, numbers_in as numbers_of, first_part as first_of, compared_part, binary_part, if_part, if_parts, truth_part, of_truth, of_number, of_set, sets_compared, truths_compared};
ghost use Rattle.cf_form.specs.Unfolding.{calls_of, leaf_part, over_one, best_part, IsOfNumbers, IsOfTruths, IsOfSets};
ghost use Rattle.cf_form.specs.Wide.{wide_lit, wide_divides, wide_compare, wide_if, wide_if_set, wide_if_truth, wide_chain};
ghost use Rattle.cf_form.specs.WideView.{wide_term, wide_terms, wide_set_of, wide_rel, part};

use crate::copy::chain;
use crate::wide::{Part, Room, WideRel, WideSet, WideTerm};
use cf_tree::{BinOp, Def, Expr, NoMemory, Order, expr_over_one, without};
use std::alloc::Global;

/// The parts of an expression behind these functions, where the variable of each level stands for
/// the part of that place.
#[cycle(expand)]
pub(crate) fn expand(
    alloc: Global,
    room: &mut Room,
    before: &[Def],
    env: &[Part],
    expr: &Expr,
) -> Result<Vec<Part>, NoMemory>
    ensures { IfOk result (λ ps. map part ps.items ≡ expanded (calls_of (map def_tree before.now)) (map part env.now) (expr_tree expr.now)) }
{
    room.take()?;
    room.enter()?;
    let parts = expand_form(alloc, room, before, env, expr)?;
    room.leave();
    Ok(parts)
}

#[cycle(expand)]
fn expand_form(
    alloc: Global,
    room: &mut Room,
    before: &[Def],
    env: &[Part],
    expr: &Expr,
) -> Result<Vec<Part>, NoMemory>
    ensures { IfOk result (λ ps. map part ps.items ≡ expanded (calls_of (map def_tree before.now)) (map part env.now) (expr_tree expr.now)) }
{
    match expr {
        Expr::Lit(_) | Expr::Truth(_) | Expr::Var(_) | Expr::SetOf(_) => {
            one(alloc, leaf(alloc, room, env, expr)?)
        }
        Expr::Tuple(parts) => expand_all(alloc, room, before, env, parts),
        expr_over_one!(a) => {
            let a = expand_first(alloc, room, before, env, a)?;
            one(alloc, over_one(alloc, expr, a)?)
        }
        Expr::Binary { op, left, right } => {
            let left = expand_first(alloc, room, before, env, left)?;
            let right = expand_first(alloc, room, before, env, right)?;
            one(alloc, binary(alloc, *op, left, right)?)
        }
        Expr::If { test, yes, no } => {
            let test = truth_in(alloc, expand_first(alloc, room, before, env, test)?)?;
            let yes = expand(alloc, room, before, env, yes)?;
            let no = expand(alloc, room, before, env, no)?;
            if_parts(alloc, room, &test, &yes, &no)
        }
        Expr::Call { def, args } => {
            let args = expand_all(alloc, room, before, env, args)?;
            call(alloc, room, before, *def, &args)
        }
        Expr::Let { value, body, .. } => {
            let value = expand(alloc, room, before, env, value)?;
            let inner = joined(alloc, room, env, value)?;
            expand(alloc, room, before, &inner, body)
        }
        Expr::Chain { orders, parts } => {
            let parts = expand_all(alloc, room, before, env, parts)?;
            chained(alloc, orders, parts)
        }
        Expr::Min(parts) | Expr::Max(parts) => {
            let parts = expand_all(alloc, room, before, env, parts)?;
            best(alloc, expr, parts)
        }
        Expr::Choose { .. } | Expr::Match { .. } | Expr::ChooseWhere { .. } => Ok(Vec::new(alloc)),
    }
}

/// The first part of an expression.
#[cycle(expand)]
pub(crate) fn expand_first(
    alloc: Global,
    room: &mut Room,
    before: &[Def],
    env: &[Part],
    expr: &Expr,
) -> Result<Part, NoMemory>
    ensures { IfOk result (λ p. part p ≡ first_of (expanded (calls_of (map def_tree before.now)) (map part env.now) (expr_tree expr.now))) }
{
    first_part(alloc, expand(alloc, room, before, env, expr)?)
}

// The first part of each.
#[cycle(expand)]
fn expand_all(
    alloc: Global,
    room: &mut Room,
    before: &[Def],
    env: &[Part],
    exprs: &[Expr],
) -> Result<Vec<Part>, NoMemory>
    ensures { IfOk result (λ ps. map part ps.items ≡ all_expanded (calls_of (map def_tree before.now)) (map part env.now) (expr_trees exprs.now)) }
{
    let mut all = Vec::new(alloc);
    for expr in exprs {
        all.push(expand_first(alloc, room, before, env, expr)?)?;
    }
    Ok(all)
}

// The parts of a call of function number `number`.
#[cycle(expand)]
fn call(
    alloc: Global,
    room: &mut Room,
    before: &[Def],
    number: u32,
    args: &[Part],
) -> Result<Vec<Part>, NoMemory>
    ensures { IfOk result (λ ps. map part ps.items ≡ calls_of (map def_tree before.now) number (map part args.now)) }
{
    match before.get(number as usize) {
        Some(def) => expand(alloc, room, &before[..number as usize], args, &def.body),
        None => Ok(Vec::new(alloc)),
    }
}

// The part of a form without parts of its own; of a set literal as of the empty one.
fn leaf(alloc: Global, room: &mut Room, env: &[Part], expr: &Expr) -> Result<Part, NoMemory>
    ensures { IfOk result (λ p. part p ≡ leaf_part (map part env.now) (expr_tree expr.now)) }
{
    match expr {
        Expr::Lit(k) => number(alloc, WideTerm::Lit(*k)),
        Expr::Truth(t) => truth(alloc, *t),
        Expr::Var(x) => variable(alloc, room, env, *x),
        _ => set(alloc, WideSet::Empty),
    }
}

// The part of the variable of level `level`.
fn variable(alloc: Global, room: &mut Room, env: &[Part], level: u32) -> Result<Part, NoMemory>
    ensures { IfOk result (λ p. part p ≡ slice_index_or (map part env.now) level (of_number (wide_lit (pos 0)))) }
{
    match env.get(level as usize) {
        Some(part) => part.try_copy(alloc, room),
        None => number(alloc, WideTerm::Lit(0)),
    }
}

fn number(alloc: Global, term: WideTerm) -> Result<Part, NoMemory>
    ensures { IfOk result (λ p. part p ≡ of_number (wide_term term)) }
{
    Ok(Part::Number(Box::new(alloc, term)?))
}

fn set(alloc: Global, form: WideSet) -> Result<Part, NoMemory>
    ensures { IfOk result (λ p. part p ≡ of_set (wide_set_of form)) }
{
    Ok(Part::Set(Box::new(alloc, form)?))
}

fn relation(alloc: Global, rel: WideRel) -> Result<Part, NoMemory>
    ensures { IfOk result (λ p. part p ≡ of_truth (wide_rel rel)) }
{
    Ok(Part::Truth(Box::new(alloc, rel)?))
}

fn truth(alloc: Global, t: bool) -> Result<Part, NoMemory>
    ensures { IfOk result (λ p. part p ≡ truth_part t) }
{
    if t {
        relation(alloc, WideRel::True)
    } else {
        relation(alloc, WideRel::False)
    }
}

fn number_in(alloc: Global, p: Part) -> Result<Box<WideTerm>, NoMemory>
    ensures { IfOk result (λ t. wide_term t.value ≡ number_of (part p)) }
{
    match p {
        Part::Number(t) => Ok(t),
        _ => Ok(Box::new(alloc, WideTerm::Lit(0))?),
    }
}

fn set_in(alloc: Global, p: Part) -> Result<Box<WideSet>, NoMemory>
    ensures { IfOk result (λ s. wide_set_of s.value ≡ set_of (part p)) }
{
    match p {
        Part::Set(s) => Ok(s),
        _ => Ok(Box::new(alloc, WideSet::Empty)?),
    }
}

/// The relation that a part is; of a number or set part `false`.
pub(crate) fn truth_in(alloc: Global, p: Part) -> Result<Box<WideRel>, NoMemory>
    ensures { IfOk result (λ r. wide_rel r.value ≡ truth_of (part p)) }
{
    match p {
        Part::Truth(r) => Ok(r),
        _ => Ok(Box::new(alloc, WideRel::False)?),
    }
}

fn one(alloc: Global, p: Part) -> Result<Vec<Part>, NoMemory>
    ensures { IfOk result (λ ps. map part ps.items ≡ part p ∷ []) }
{
    let mut parts = Vec::with_capacity(alloc, 1)?;
    parts.push(p)?;
    Ok(parts)
}

fn first_part(alloc: Global, parts: Vec<Part>) -> Result<Part, NoMemory>
    ensures { IfOk result (λ p. part p ≡ first_of (map part parts.items)) }
{
    let mut parts = parts;
    parts.reverse();
    match parts.pop() {
        Some(first) => Ok(first),
        None => number(alloc, WideTerm::Lit(0)),
    }
}

// The form with one part, over this one.
fn over_one(alloc: Global, expr: &Expr, a: Part) -> Result<Part, NoMemory>
    ensures { IfOk result (λ p. part p ≡ over_one (expr_tree expr.now) (part a)) }
{
    match expr {
        Expr::Neg(_) => number(alloc, WideTerm::Neg(number_in(alloc, a)?)),
        Expr::Not(_) => relation(alloc, WideRel::Not(truth_in(alloc, a)?)),
        Expr::Abs(_) => number(alloc, WideTerm::Abs(number_in(alloc, a)?)),
        Expr::Divides { k, .. } => divides(alloc, *k, number_in(alloc, a)?),
        Expr::Div { k, .. } => number(alloc, WideTerm::Div(number_in(alloc, a)?, *k)),
        Expr::Mod { k, .. } => number(alloc, WideTerm::Mod(number_in(alloc, a)?, *k)),
        Expr::Card(_) => number(alloc, WideTerm::Card(set_in(alloc, a)?)),
        _ => Ok(a),
    }
}

fn divides(alloc: Global, k: i128, of: Box<WideTerm>) -> Result<Part, NoMemory>
    ensures { IfOk result (λ p. part p ≡ of_truth (wide_divides k (wide_term of.value))) }
{
    relation(alloc, WideRel::Divides { k, of })
}

// The operation with two sides, over these.
fn binary(alloc: Global, op: BinOp, a: Part, b: Part) -> Result<Part, NoMemory>
    ensures { IfOk result (λ p. part p ≡ binary_part op (part a) (part b)) }
{
    match op {
        BinOp::Add | BinOp::Sub | BinOp::Mul => of_numbers(alloc, op, a, b),
        BinOp::And | BinOp::Or | BinOp::Implies => of_truths(alloc, op, a, b),
        BinOp::Union | BinOp::Inter | BinOp::Diff | BinOp::Subset => of_sets(alloc, op, a, b),
        BinOp::Compare(order) => compared(alloc, order, a, b),
    }
}

fn two_numbers(alloc: Global, a: Part, b: Part) -> Result<(Box<WideTerm>, Box<WideTerm>), NoMemory>
    ensures { IfOk result (λ p. (wide_term p.0.value ≡ number_of (part a)) × (wide_term p.1.value ≡ number_of (part b))) }
{
    match number_in(alloc, a) {
        Ok(first) => Ok((first, number_in(alloc, b)?)),
        Err(fault) => Err(without(b, fault)),
    }
}

fn two_sets(alloc: Global, a: Part, b: Part) -> Result<(Box<WideSet>, Box<WideSet>), NoMemory>
    ensures { IfOk result (λ p. (wide_set_of p.0.value ≡ set_of (part a)) × (wide_set_of p.1.value ≡ set_of (part b))) }
{
    match set_in(alloc, a) {
        Ok(first) => Ok((first, set_in(alloc, b)?)),
        Err(fault) => Err(without(b, fault)),
    }
}

fn two_truths(alloc: Global, a: Part, b: Part) -> Result<(Box<WideRel>, Box<WideRel>), NoMemory>
    ensures { IfOk result (λ p. (wide_rel p.0.value ≡ truth_of (part a)) × (wide_rel p.1.value ≡ truth_of (part b))) }
{
    match truth_in(alloc, a) {
        Ok(first) => Ok((first, truth_in(alloc, b)?)),
        Err(fault) => Err(without(b, fault)),
    }
}

fn of_numbers(alloc: Global, op: BinOp, a: Part, b: Part) -> Result<Part, NoMemory>
    requires { IsOfNumbers op }
    ensures { IfOk result (λ p. part p ≡ binary_part op (part a) (part b)) }
{
    let (left, right) = two_numbers(alloc, a, b)?;
    match op {
        BinOp::Add => number(alloc, WideTerm::Add(left, right)),
        BinOp::Sub => number(alloc, WideTerm::Sub(left, right)),
        BinOp::Mul => number(alloc, WideTerm::Mul(left, right)),
        _ => unreachable!(),
    }
}

fn of_truths(alloc: Global, op: BinOp, a: Part, b: Part) -> Result<Part, NoMemory>
    requires { IsOfTruths op }
    ensures { IfOk result (λ p. part p ≡ binary_part op (part a) (part b)) }
{
    let (left, right) = two_truths(alloc, a, b)?;
    match op {
        BinOp::And => relation(alloc, WideRel::And(left, right)),
        BinOp::Or => relation(alloc, WideRel::Or(left, right)),
        BinOp::Implies => relation(alloc, WideRel::Implies(left, right)),
        _ => unreachable!(),
    }
}

fn of_sets(alloc: Global, op: BinOp, a: Part, b: Part) -> Result<Part, NoMemory>
    requires { IsOfSets op }
    ensures { IfOk result (λ p. part p ≡ binary_part op (part a) (part b)) }
{
    let (left, right) = two_sets(alloc, a, b)?;
    match op {
        BinOp::Union => set(alloc, WideSet::Union(left, right)),
        BinOp::Inter => set(alloc, WideSet::Inter(left, right)),
        BinOp::Diff => set(alloc, WideSet::Diff(left, right)),
        BinOp::Subset => relation(alloc, WideRel::Subset(left, right)),
        _ => unreachable!(),
    }
}

// The comparison of these parts.
fn compared(alloc: Global, order: Order, a: Part, b: Part) -> Result<Part, NoMemory>
    ensures { IfOk result (λ p. part p ≡ compared_part order (part a) (part b)) }
{
    match a {
        Part::Number(left) => compare(alloc, order, left, number_in(alloc, b)?),
        Part::Set(left) => compare_sets(alloc, order, left, set_in(alloc, b)?),
        Part::Truth(left) => compare_truths(alloc, order, left, truth_in(alloc, b)?),
    }
}

fn compare(
    alloc: Global,
    order: Order,
    left: Box<WideTerm>,
    right: Box<WideTerm>,
) -> Result<Part, NoMemory>
    ensures { IfOk result (λ p. part p ≡ of_truth (wide_compare order (wide_term left.value) (wide_term right.value))) }
{
    relation(alloc, WideRel::Compare { order, left, right })
}

fn compare_sets(
    alloc: Global,
    order: Order,
    left: Box<WideSet>,
    right: Box<WideSet>,
) -> Result<Part, NoMemory>
    ensures { IfOk result (λ p. part p ≡ of_truth (sets_compared order (wide_set_of left.value) (wide_set_of right.value))) }
{
    match order {
        Order::Ne => relation(alloc, WideRel::OtherSet(left, right)),
        _ => relation(alloc, WideRel::SameSet(left, right)),
    }
}

fn compare_truths(
    alloc: Global,
    order: Order,
    left: Box<WideRel>,
    right: Box<WideRel>,
) -> Result<Part, NoMemory>
    ensures { IfOk result (λ p. part p ≡ of_truth (truths_compared order (wide_rel left.value) (wide_rel right.value))) }
{
    match order {
        Order::Ne => relation(alloc, WideRel::Other(left, right)),
        _ => relation(alloc, WideRel::Same(left, right)),
    }
}

// The parts of an `if`, each with the same test.
fn if_parts(
    alloc: Global,
    room: &mut Room,
    test: &WideRel,
    yes: &[Part],
    no: &[Part],
) -> Result<Vec<Part>, NoMemory>
    ensures { IfOk result (λ ps. map part ps.items ≡ if_parts (wide_rel test.now) (map part yes.now) (map part no.now)) }
{
    let mut all = Vec::new(alloc);
    let mut left = yes;
    let mut right = no;
    while let Some((first, more)) = left.split_first() {
        match right.split_first() {
            None => return Ok(all),
            Some((other, rest)) => {
                all.push(if_part(alloc, room, test, first, other)?)?;
                left = more;
                right = rest;
            }
        }
    }
    Ok(all)
}

fn if_part(
    alloc: Global,
    room: &mut Room,
    test: &WideRel,
    yes: &Part,
    no: &Part,
) -> Result<Part, NoMemory>
    ensures { IfOk result (λ p. part p ≡ if_part (wide_rel test.now) (part yes.now) (part no.now)) }
{
    let test = test.copied(alloc, room)?;
    let no = no.try_copy(alloc, room)?;
    match yes {
        Part::Number(a) => if_number(alloc, test, a.copied(alloc, room)?, no),
        Part::Set(a) => if_set(alloc, test, a.copied(alloc, room)?, no),
        Part::Truth(a) => if_truth(alloc, test, a.copied(alloc, room)?, no),
    }
}

fn if_number(
    alloc: Global,
    test: Box<WideRel>,
    yes: Box<WideTerm>,
    no: Part,
) -> Result<Part, NoMemory>
    ensures { IfOk result (λ p. part p ≡ of_number (wide_if (wide_rel test.value) (wide_term yes.value) (number_of (part no)))) }
{
    let no = number_in(alloc, no)?;
    number(alloc, WideTerm::If { test, yes, no })
}

fn if_set(alloc: Global, test: Box<WideRel>, yes: Box<WideSet>, no: Part) -> Result<Part, NoMemory>
    ensures { IfOk result (λ p. part p ≡ of_set (wide_if_set (wide_rel test.value) (wide_set_of yes.value) (set_of (part no)))) }
{
    let no = set_in(alloc, no)?;
    set(alloc, WideSet::IfSet { test, yes, no })
}

fn if_truth(
    alloc: Global,
    test: Box<WideRel>,
    yes: Box<WideRel>,
    no: Part,
) -> Result<Part, NoMemory>
    ensures { IfOk result (λ p. part p ≡ of_truth (wide_if_truth (wide_rel test.value) (wide_rel yes.value) (truth_of (part no)))) }
{
    let no = truth_in(alloc, no)?;
    relation(alloc, WideRel::IfTruth { test, yes, no })
}

// Copies of the parts of the environment, and then these.
fn joined(
    alloc: Global,
    room: &mut Room,
    env: &[Part],
    parts: Vec<Part>,
) -> Result<Vec<Part>, NoMemory>
    ensures { IfOk result (λ ps. map part ps.items ≡ map part env.now ++ map part parts.items) }
{
    let mut all = copied_parts(alloc, room, env)?;
    let mut parts = parts;
    all.append(&mut parts)?;
    Ok(all)
}

fn copied_parts(alloc: Global, room: &mut Room, parts: &[Part]) -> Result<Vec<Part>, NoMemory>
    ensures { IfOk result (λ ps. map part ps.items ≡ map part parts.now) }
{
    let mut all = Vec::new(alloc);
    for part in parts {
        all.push(part.try_copy(alloc, room)?)?;
    }
    Ok(all)
}

// The number forms in these parts.
fn numbers_in(alloc: Global, parts: Vec<Part>) -> Result<Vec<WideTerm>, NoMemory>
    ensures { IfOk result (λ ts. wide_terms ts.items ≡ numbers_of (map part parts.items)) }
{
    let mut all = Vec::new(alloc);
    let mut parts = parts;
    parts.reverse();
    while let Some(part) = parts.pop() {
        all.push(Box::into_inner(number_in(alloc, part)?))?;
    }
    Ok(all)
}

// The chain of these parts.
fn chained(alloc: Global, orders: &[Order], parts: Vec<Part>) -> Result<Vec<Part>, NoMemory>
    ensures { IfOk result (λ ps. map part ps.items ≡ of_truth (wide_chain orders.now (numbers_of (map part parts.items))) ∷ []) }
{
    let parts = numbers_in(alloc, parts)?;
    one(alloc, relation(alloc, chain(alloc, orders, parts)?)?)
}

// The least or greatest of these parts.
fn best(alloc: Global, expr: &Expr, parts: Vec<Part>) -> Result<Vec<Part>, NoMemory>
    ensures { IfOk result (λ ps. map part ps.items ≡ best_part (expr_tree expr.now) (map part parts.items) ∷ []) }
{
    let parts = numbers_in(alloc, parts)?;
    match expr {
        Expr::Max(_) => one(alloc, number(alloc, WideTerm::Max(parts))?),
        _ => one(alloc, number(alloc, WideTerm::Min(parts))?),
    }
}
