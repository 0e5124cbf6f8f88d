//! The values of constants, where a fault asks for them.
ghost use Rattle.std.specs.Prelude.{◌≡◌, ◌++◌, ◌∷◌, [], map, IfOk, IfSome, OnOk};
ghost use Rattle.cf_num.specs.Limit.{IsWithin, within};
ghost use Rattle.cf_tree.specs.Numbers.{absolute as absolute_of, quotient as quotient_of, remainder as remainder_of};
ghost use Rattle.cf_tree.specs.RawView.{raw_tree, raw_trees, raw_arm_trees, given_tree, aim_tree, number_tree};
ghost use Rattle.cf_program.specs.CheckAnswers.{CheckAnswer};
ghost use Rattle.cf_program.specs.Constants.{value as value_of, values as values_of, value_given as value_given_of, value_aim as value_aim_of, value_arms as value_arms_of, named as named_of, operated as operated_of, divisor as divisor_of};
ghost use Rattle.cf_tree.specs.DefView.{raw_item_tree};
ghost use Rattle.cf_help.specs.Faults.{with_value, constants_in as constants_in_of};
ghost use Rattle.cf_help.specs.ValuedView.{constant_seen};
ghost use Rattle.cf_help.specs.Valued.{value_over_one, value_over_row, nearer as nearer_of, extreme as extreme_of};

use crate::valued::{Valued, value_of as constant_value};
use cf_program::TypeFault;
use cf_tree::{
    BinOp, NoMemory, Number, Place, Raw, RawAim, RawArm, RawConst, RawGiven, RawItem, RawNode,
    Sense, raw_over_list, raw_over_number, raw_over_one, without,
};
use std::alloc::Global;

// The value of an expression without variables, behind these constants, or the first fault in it.
#[cycle(value)]
#[tactic(auto, using(crate::proofs::ValueSteps::fails_then))]
fn value(alloc: Global, constants: &[Valued], raw: &Raw) -> Result<i128, TypeFault>
    ensures { CheckAnswer (λ k. k) result (value_of (map constant_seen constants.now) (raw_tree raw.now)) × IfOk result IsWithin }
{
    let place = raw.place;
    match &raw.node {
        RawNode::Lit(k) => Ok(told(*k)?),
        RawNode::Truth(_) => Err(TypeFault::NotConstant(place)),
        RawNode::Name(name) => named(place, constant_value(constants, &name.bytes)),
        RawNode::Group(a) => value(alloc, constants, a),
        raw_over_one!(a) | raw_over_number!(a) => match value(alloc, constants, a) {
            Ok(v) => over_one(constants, raw, v),
            Err(fault) => Err(fault),
        },
        raw_over_list!(parts) | RawNode::Chain { parts, .. } => {
            match values(alloc, constants, parts) {
                Ok(found) => over_row(raw, &found),
                Err(fault) => Err(fault),
            }
        }
        RawNode::Binary { op, left, right } => match value(alloc, constants, left) {
            Ok(v) => match value(alloc, constants, right) {
                Ok(w) => operated(place, *op, v, w),
                Err(fault) => Err(fault),
            },
            Err(fault) => Err(fault),
        },
        RawNode::If { test, yes, no } => {
            value(alloc, constants, test)?;
            value(alloc, constants, yes)?;
            value(alloc, constants, no)?;
            Err(TypeFault::NotConstant(place))
        }
        RawNode::Let {
            value: bound,
            body,
            ..
        } => {
            value(alloc, constants, bound)?;
            value(alloc, constants, body)?;
            Err(TypeFault::NotConstant(place))
        }
        RawNode::Choose {
            given,
            rel,
            aim,
            ..
        } => {
            value_given(alloc, constants, given)?;
            value(alloc, constants, rel)?;
            value_aim(alloc, constants, aim)?;
            Err(TypeFault::NotConstant(place))
        }
        RawNode::Match { of, arms } => {
            value(alloc, constants, of)?;
            value_arms(alloc, constants, arms)?;
            Err(TypeFault::NotConstant(place))
        }
    }
}

// The values of expressions, in their order.
#[cycle(value)]
#[tactic(auto, using(crate::proofs::ValueSteps::fails_then))]
fn values(alloc: Global, constants: &[Valued], raws: &[Raw]) -> Result<Vec<i128>, TypeFault>
    ensures { CheckAnswer (λ vs. vs.items) result (values_of (map constant_seen constants.now) [] (raw_trees raws.now)) }
{
    let mut all = Vec::new(alloc);
    for raw in raws {
        match value(alloc, constants, raw) {
            Ok(v) => push_value(&mut all, v)?,
            Err(fault) => return Err(without(all, fault)),
        }
    }
    Ok(all)
}

// What is given of a choose, for the first fault in it.
#[cycle(value)]
fn value_given(alloc: Global, constants: &[Valued], given: &RawGiven) -> Result<i128, TypeFault>
    ensures { CheckAnswer (λ k. k) result (value_given_of (map constant_seen constants.now) (given_tree given.now)) × IfOk result IsWithin }
{
    match given {
        RawGiven::Always => Ok(0),
        RawGiven::That { rel, .. } => value(alloc, constants, rel),
    }
}

// The objective of a choose, for the first fault in it.
#[cycle(value)]
fn value_aim(alloc: Global, constants: &[Valued], aim: &RawAim) -> Result<i128, TypeFault>
    ensures { CheckAnswer (λ k. k) result (value_aim_of (map constant_seen constants.now) (aim_tree aim.now)) × IfOk result IsWithin }
{
    match aim {
        RawAim::Any => Ok(0),
        RawAim::At { objective, .. } => value(alloc, constants, objective),
    }
}

// The bodies of arms, for the first fault in them.
#[cycle(value)]
fn value_arms(alloc: Global, constants: &[Valued], arms: &[RawArm]) -> Result<i128, TypeFault>
    ensures { CheckAnswer (λ k. k) result (value_arms_of (map constant_seen constants.now) (raw_arm_trees arms.now)) × IfOk result IsWithin }
{
    for arm in arms {
        match value(alloc, constants, &arm.body) {
            Ok(_) => (),
            Err(fault) => return Err(fault),
        }
    }
    Ok(0)
}

// The number, or none where it passes the limit.
fn limited(k: i128) -> Option<i128>
    ensures value { result ≡ within k }
    ensures fits { IfSome result IsWithin }
{
    if k == i128::MIN { None } else { Some(k) }
}

// A number that a source tells, which is within the limit.
fn told(k: i128) -> Result<i128, NoMemory>
    ensures { IfOk result (λ n. (n ≡ k) × IsWithin n) }
{
    limited(k).ok_or(NoMemory)
}

// The value of a name.
fn named(place: Place, constant: Option<i128>) -> Result<i128, TypeFault>
    ensures { CheckAnswer (λ k. k) result (named_of place constant) × IfOk result IsWithin }
{
    match constant {
        Some(k) => Ok(told(k)?),
        None => Err(TypeFault::NotConstant(place)),
    }
}

// The value of an operation with two sides.
fn operated(place: Place, op: BinOp, a: i128, b: i128) -> Result<i128, TypeFault>
    requires a_in { IsWithin a }
    requires b_in { IsWithin b }
    ensures { CheckAnswer (λ k. k) result (operated_of place op a b) × IfOk result IsWithin }
{
    let met = match op {
        BinOp::Add => cf_num::add(a, b),
        BinOp::Sub => cf_num::sub(a, b),
        BinOp::Mul => cf_num::mul(a, b),
        BinOp::And
        | BinOp::Or
        | BinOp::Union
        | BinOp::Inter
        | BinOp::Diff
        | BinOp::Subset
        | BinOp::Implies
        | BinOp::Compare(_) => return Err(TypeFault::NotConstant(place)),
    };
    match met {
        Some(k) => Ok(k),
        None => Err(TypeFault::ConstantPast(place)),
    }
}

// The value of a form over that of its one part.
fn over_one(constants: &[Valued], raw: &Raw, part: i128) -> Result<i128, TypeFault>
    requires { IsWithin part }
    ensures { CheckAnswer (λ k. k) result (value_over_one (map constant_seen constants.now) raw.now.place (raw_tree raw.now) part)
        × IfOk result IsWithin }
{
    match &raw.node {
        RawNode::Neg(_) => Ok(cf_num::neg(part)),
        RawNode::Abs(_) => Ok(absolute(part)),
        RawNode::Div { k, .. } => Ok(quotient(part, divisor(constants, k))),
        RawNode::Mod { k, .. } => Ok(remainder(part, divisor(constants, k))),
        _ => Err(TypeFault::NotConstant(raw.place)),
    }
}

// The value of a form over those of its parts in a row.
fn over_row(raw: &Raw, parts: &[i128]) -> Result<i128, TypeFault>
    ensures { CheckAnswer (λ k. k) result (value_over_row raw.now.place (raw_tree raw.now) parts.now) × IfOk result IsWithin }
{
    match &raw.node {
        RawNode::Min(_) => Ok(told(extreme(Sense::Least, parts))?),
        RawNode::Max(_) => Ok(told(extreme(Sense::Greatest, parts))?),
        _ => Err(TypeFault::NotConstant(raw.place)),
    }
}

// The number that counts as a divisor.
fn divisor(constants: &[Valued], number: &Number) -> i128
    ensures { result ≡ divisor_of (map constant_seen constants.now) (number_tree number.now) }
{
    match number {
        Number::Lit(k) => *k,
        Number::Name { name, .. } => constant_value(constants, &name.bytes).unwrap_or(1),
    }
}

fn absolute(value: i128) -> i128
    requires { IsWithin value }
    ensures same { result ≡ absolute_of value }
    ensures fits { IsWithin result }
{
    if value < 0 { cf_num::neg(value) } else { value }
}

fn quotient(value: i128, k: i128) -> i128
    requires { IsWithin value }
    ensures same { result ≡ quotient_of value k }
    ensures fits { IsWithin result }
{
    if 0 < k { cf_num::fdiv(value, k) } else { 0 }
}

fn remainder(value: i128, k: i128) -> i128
    requires { IsWithin value }
    ensures same { result ≡ remainder_of value k }
    ensures fits { IsWithin result }
{
    if 0 < k {
        cf_num::modulo(value, k)
    } else {
        value
    }
}

// The least of several values, or the greatest.
#[tactic(auto, using(crate::proofs::ValueSteps::extreme_next))]
fn extreme(sense: Sense, values: &[i128]) -> i128
    ensures { result ≡ extreme_of sense values.now }
{
    let Some((first, more)) = values.split_first() else {
        return 0;
    };
    let mut found = *first;
    for value in more {
        found = nearer(sense, found, *value);
    }
    found
}

// The least or the greatest of two values.
fn nearer(sense: Sense, a: i128, b: i128) -> i128
    ensures { result ≡ nearer_of sense a b }
{
    match sense {
        Sense::Least => if b < a { b } else { a },
        Sense::Greatest => if a < b { b } else { a },
    }
}

// Puts a value behind all others.
fn push_value(all: &mut Vec<i128>, value: i128) -> Result<(), NoMemory>
    ensures { OnOk result (all.new.items ≡ all.old.items ++ value ∷ []) }
{
    all.push(value)?;
    Ok(())
}

// Adds a constant with its value, where it has one.
#[tactic(auto, using(crate::proofs::ValueSteps::no_value))]
fn add_value<'a>(
    alloc: Global,
    values: &mut Vec<Valued<'a>>,
    constant: &'a RawConst,
) -> Result<(), NoMemory>
    ensures { OnOk result (map constant_seen values.new.items
        ≡ with_value (map constant_seen values.old.items) constant.now.name (value_of (map constant_seen values.old.items) (raw_tree constant.now.value))) }
{
    match value(alloc, values, &constant.value) {
        Ok(number) => {
            values.push(Valued {
                name: &constant.name.bytes,
                value: number,
            })?;
            Ok(())
        }
        Err(TypeFault::NoMemory) => Err(NoMemory),
        Err(_) => Ok(()),
    }
}

/// The constants of a program that have values.
pub fn constants_in<'a>(alloc: Global, items: &'a [RawItem]) -> Result<Vec<Valued<'a>>, NoMemory>
    ensures { IfOk result (λ vs. map constant_seen vs.items ≡ constants_in_of [] (map raw_item_tree items.now)) }
{
    let mut all = Vec::new(alloc);
    for item in items {
        match item {
            RawItem::Const(constant) => add_value(alloc, &mut all, constant)?,
            RawItem::Def(_) => (),
        }
    }
    Ok(all)
}
