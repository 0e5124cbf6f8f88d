//! Tidying: other code with the same answers, which reads better.
ghost use Rattle.std.specs.Prelude.{◌≡◌, IfOk, IfSome, Some, map, pos};
ghost use Rattle.cf_num.specs.Limit.{IsWithin};
ghost use Rattle.cf_tree.specs.CodeView.{code_tree, code_trees, item_tree, arm_tree, item_trees, arm_trees};
ghost use Rattle.cf_tree.specs.CodeTree.{code_sum, code_min};
ghost use Rattle.cf_range.specs.Alike.{AnswersAlike, KeepsTypes};
ghost use Rattle.cf_range.specs.Tidied.{is_minus_one, alone, negation, opposite as the_opposite, times, product, is_zero, nonzero, plus_numeral, numerals_sum as the_numerals_sum, sum_of_more, sum_of, tidied, all_tidied, item_tidied, items_tidied, arm_tidied, arms_tidied, always_holds, other_items, is_need, needs_nothing, always_gives, never_holds, begins_false, is_left, are_left, entered, count_reached, reached};

use crate::range::{Range, number_passes};
use crate::settle::settle;
use cf_num::add;
use cf_tree::{Arm, Code, Item, NoMemory, code_over_three};
use std::alloc::Global;

/// The code, tidied: wherever the variables lie in their ranges it gives what the code gives, or both pass the limit; and in
/// each scope of one base for each range it has each typing of the code.
pub fn tidied(alloc: Global, ranges: &[Range], code: &Code) -> Result<Code, NoMemory>
    ensures answers { IfOk result (λ new. AnswersAlike ranges.now (code_tree code.now) (code_tree new)) }
    ensures types { IfOk result (λ new. KeepsTypes ranges.now (code_tree code.now) (code_tree new)) }
{
    let first = once(alloc, ranges, code)?;
    let second = once(alloc, ranges, &first)?;
    let third = once(alloc, ranges, &second)?;
    Ok(third)
}

// One row may make place for another.
fn once(alloc: Global, ranges: &[Range], code: &Code) -> Result<Code, NoMemory>
    ensures answers { IfOk result (λ new. AnswersAlike ranges.now (code_tree code.now) (code_tree new)) }
    ensures types { IfOk result (λ new. KeepsTypes ranges.now (code_tree code.now) (code_tree new)) }
{
    let settled = settle(alloc, ranges, code)?;
    let new = tidy(alloc, &settled)?;
    Ok(new)
}

#[cycle(tidy)]
fn tidy(alloc: Global, code: &Code) -> Result<Code, NoMemory>
    ensures { IfOk result (λ new. code_tree new ≡ tidied (code_tree code.now)) }
{
    match code {
        Code::Lit(k) => Ok(Code::Lit(*k)),
        Code::Truth(t) => Ok(Code::Truth(*t)),
        Code::Var(x) => Ok(Code::Var(*x)),
        Code::Mul(a, b) => {
            let first = tidy_boxed(alloc, a)?;
            let second = tidy_boxed(alloc, b)?;
            product(alloc, first, second)
        }
        Code::Neg(a) => {
            let part = tidy_boxed(alloc, a)?;
            negation(alloc, part)
        }
        Code::Sum(parts) => {
            let parts = tidy_all(alloc, parts)?;
            Ok(sum(parts))
        }
        Code::SetOf(parts)
        | Code::Tuple(parts)
        | Code::Min(parts)
        | Code::Max(parts)
        | Code::Union(parts)
        | Code::Inter(parts) => {
            let parts = tidy_all(alloc, parts)?;
            Ok(code.over_list(parts))
        }
        Code::Not(a)
        | Code::Card(a)
        | Code::Div { of: a, .. }
        | Code::Mod { of: a, .. }
        | Code::Divides { of: a, .. } => {
            let part = tidy_boxed(alloc, a)?;
            Ok(code.over_one(part))
        }
        Code::Sub(a, b)
        | Code::And(a, b)
        | Code::Or(a, b)
        | Code::Diff(a, b)
        | Code::Subset(a, b)
        | Code::Compare {
            left: a,
            right: b,
            ..
        }
        | Code::Fresh { avoid: a, n: b }
        | Code::Let {
            value: a,
            body: b,
            ..
        } => {
            let first = tidy_boxed(alloc, a)?;
            let second = tidy_boxed(alloc, b)?;
            Ok(code.over_two(first, second))
        }
        code_over_three!(a, b, c) => {
            let first = tidy_boxed(alloc, a)?;
            let second = tidy_boxed(alloc, b)?;
            let third = tidy_boxed(alloc, c)?;
            Ok(code.over_three(first, second, third))
        }
        Code::Solve { number, arms } => {
            let mut arms = tidy_arms(alloc, arms)?;
            drop_left(&mut arms);
            drop_unreached(&mut arms);
            Ok(Code::Solve {
                number: *number,
                arms,
            })
        }
    }
}

#[cycle(tidy)]
fn tidy_boxed(alloc: Global, code: &Code) -> Result<Box<Code>, NoMemory>
    ensures { IfOk result (λ new. code_tree new.value ≡ tidied (code_tree code.now)) }
{
    Ok(Box::new(alloc, tidy(alloc, code)?)?)
}

#[cycle(tidy)]
fn tidy_item(alloc: Global, item: &Item) -> Result<Item, NoMemory>
    ensures { IfOk result (λ new. item_tree new ≡ item_tidied (item_tree item.now)) }
{
    match item {
        Item::Let(code) => Ok(Item::Let(tidy(alloc, code)?)),
        Item::Need(code) => Ok(Item::Need(tidy(alloc, code)?)),
    }
}

#[cycle(tidy)]
fn tidy_arm(alloc: Global, arm: &Arm) -> Result<Arm, NoMemory>
    ensures { IfOk result (λ new. arm_tree new ≡ arm_tidied (arm_tree arm.now)) }
{
    let mut items = tidy_items(alloc, &arm.items)?;
    drop_true_needs(&mut items);
    Ok(Arm {
        bounds: Vec::from_slice(alloc, &arm.bounds)?,
        items,
        gives: tidy_all(alloc, &arm.gives)?,
    })
}

#[cycle(tidy)]
fn tidy_all(alloc: Global, codes: &[Code]) -> Result<Vec<Code>, NoMemory>
    ensures { IfOk result (λ new. code_trees new.items ≡ all_tidied (code_trees codes.now)) }
{
    let mut all = Vec::new(alloc);
    for code in codes {
        all.push(tidy(alloc, code)?)?;
    }
    Ok(all)
}

#[cycle(tidy)]
fn tidy_items(alloc: Global, items: &[Item]) -> Result<Vec<Item>, NoMemory>
    ensures { IfOk result (λ new. item_trees new.items ≡ items_tidied (item_trees items.now)) }
{
    let mut all = Vec::new(alloc);
    for item in items {
        all.push(tidy_item(alloc, item)?)?;
    }
    Ok(all)
}

#[cycle(tidy)]
fn tidy_arms(alloc: Global, arms: &[Arm]) -> Result<Vec<Arm>, NoMemory>
    ensures { IfOk result (λ new. arm_trees new.items ≡ arms_tidied (arm_trees arms.now)) }
{
    let mut all = Vec::new(alloc);
    for arm in arms {
        all.push(tidy_arm(alloc, arm)?)?;
    }
    Ok(all)
}

// -1 * b as -b, k * -b as -k * b, and k * 0 as 0.
fn product(alloc: Global, a: Box<Code>, b: Box<Code>) -> Result<Code, NoMemory>
    ensures { IfOk result (λ new. code_tree new ≡ product (code_tree a.value) (code_tree b.value)) }
{
    if is_minus_one(&a) {
        drop(a);
        return negation(alloc, b);
    }
    match opposite(&a) {
        Some(k) => times(alloc, k, a, b),
        None => Ok(Code::Mul(a, b)),
    }
}

// k * -b as -k * b, and k * 0 as 0, where `opposite` is -k.
fn times(alloc: Global, opposite: i128, a: Box<Code>, b: Box<Code>) -> Result<Code, NoMemory>
    ensures { IfOk result (λ new. code_tree new ≡ times (code_tree a.value) (Some opposite) (code_tree b.value)) }
{
    match Box::into_inner(b) {
        Code::Neg(part) => {
            drop(a);
            Ok(Code::Mul(Box::new(alloc, Code::Lit(opposite))?, part))
        }
        other => if is_zero(&other) {
            drop(a);
            Ok(other)
        } else {
            Ok(Code::Mul(a, Box::new(alloc, other)?))
        },
    }
}

// The numeral of the other sign.
fn opposite(code: &Code) -> Option<i128>
    ensures { result ≡ the_opposite (code_tree code.now) }
{
    match code {
        Code::Lit(k) => if number_passes(*k) { None } else { Some(-*k) },
        _ => None,
    }
}

fn is_minus_one(code: &Code) -> bool
    ensures { result ≡ is_minus_one (code_tree code.now) }
{
    match code {
        Code::Lit(k) => *k == -1,
        _ => false,
    }
}

// -(-b) as b, and the numeral of a negated one.
fn negation(alloc: Global, part: Box<Code>) -> Result<Code, NoMemory>
    ensures { IfOk result (λ new. code_tree new ≡ negation (code_tree part.value)) }
{
    match Box::into_inner(part) {
        Code::Neg(inner) => alone(alloc, inner),
        Code::Lit(k) => if number_passes(k) {
            Ok(Code::Neg(Box::new(alloc, Code::Lit(k))?))
        } else {
            Ok(Code::Lit(-k))
        },
        other => Ok(Code::Neg(Box::new(alloc, other)?)),
    }
}

// A number by itself, as the least of it alone.
fn alone(alloc: Global, part: Box<Code>) -> Result<Code, NoMemory>
    ensures { IfOk result (λ new. code_tree new ≡ alone (code_tree part.value)) }
{
    let mut parts = Vec::new(alloc);
    parts.push(Box::into_inner(part))?;
    Ok(Code::Min(parts))
}

// The sum of the parts but those that are 0.
fn sum(parts: Vec<Code>) -> Code
    ensures { code_tree result ≡ sum_of (nonzero (code_trees parts.items)) }
{
    let mut parts = parts;
    drop_zeros(&mut parts);
    sum_of(parts)
}

fn drop_zeros(parts: &mut Vec<Code>)
    ensures { code_trees parts.new.items ≡ nonzero (code_trees parts.old.items) }
{
    parts.retain(|part| !is_zero(part));
}

pub(crate) fn is_zero(code: &Code) -> bool
    ensures { result ≡ is_zero (code_tree code.now) }
{
    match code {
        Code::Lit(k) => *k == 0,
        _ => false,
    }
}

// A sum of none is 0, and of one part that part.
fn sum_of(parts: Vec<Code>) -> Code
    ensures { code_tree result ≡ sum_of (code_trees parts.items) }
{
    if parts.len() == 0 {
        drop(parts);
        Code::Lit(0)
    } else if parts.len() == 1 {
        least_of(parts)
    } else {
        sum_of_more(parts)
    }
}

// A sum of numerals alone is one.
fn sum_of_more(parts: Vec<Code>) -> Code
    ensures { code_tree result ≡ sum_of_more (code_trees parts.items) }
{
    match numerals_sum(&parts) {
        Some(k) => {
            drop(parts);
            Code::Lit(k)
        }
        None => sum_over(parts),
    }
}

// What numerals come to, where there are no other parts and nothing on the way is past the limit.
fn numerals_sum(parts: &[Code]) -> Option<i128>
    ensures { result ≡ the_numerals_sum (Some (pos 0)) (code_trees parts.now) }
{
    let mut sum: i128 = 0;
    for part in parts {
        sum = plus_numeral(sum, part)?;
    }
    Some(sum)
}

fn plus_numeral(sum: i128, part: &Code) -> Option<i128>
    requires { IsWithin sum }
    ensures value { result ≡ plus_numeral sum (code_tree part.now) }
    ensures fits { IfSome result IsWithin }
{
    match part {
        Code::Lit(k) => if number_passes(*k) {
            None
        } else {
            add(sum, *k)
        },
        _ => None,
    }
}

fn least_of(parts: Vec<Code>) -> Code
    ensures { code_tree result ≡ code_min (code_trees parts.items) }
{
    Code::Min(parts)
}

fn sum_over(parts: Vec<Code>) -> Code
    ensures { code_tree result ≡ code_sum (code_trees parts.items) }
{
    Code::Sum(parts)
}

// A need that is true goes.
fn drop_true_needs(items: &mut Vec<Item>)
    ensures { item_trees items.new.items ≡ other_items (item_trees items.old.items) }
{
    items.retain(|item| !always_holds(item));
}

fn always_holds(item: &Item) -> bool
    ensures { result ≡ always_holds (item_tree item.now) }
{
    match item {
        Item::Need(Code::Truth(t)) => *t,
        _ => false,
    }
}

// An arm that is left at once goes, where there is another.
fn drop_left(arms: &mut Vec<Arm>)
    ensures { arm_trees arms.new.items ≡ entered (arm_trees arms.old.items) }
{
    if !are_left(arms) {
        arms.retain(|arm| !is_left(arm));
    }
}

fn are_left(arms: &[Arm]) -> bool
    ensures { result ≡ are_left (arm_trees arms.now) }
{
    for arm in arms {
        if !is_left(arm) {
            return false;
        }
    }
    true
}

fn is_left(arm: &Arm) -> bool
    ensures { result ≡ is_left (arm_tree arm.now) }
{
    arm.bounds.len() == 0 && begins_false(&arm.items)
}

fn begins_false(items: &[Item]) -> bool
    ensures { result ≡ begins_false (item_trees items.now) }
{
    match items.first() {
        Some(item) => never_holds(item),
        None => false,
    }
}

fn never_holds(item: &Item) -> bool
    ensures { result ≡ never_holds (item_tree item.now) }
{
    match item {
        Item::Need(Code::Truth(t)) => !*t,
        _ => false,
    }
}

// What stands behind an arm that always gives goes.
fn drop_unreached(arms: &mut Vec<Arm>)
    ensures { arm_trees arms.new.items ≡ reached (arm_trees arms.old.items) }
{
    let n = count_reached(arms);
    arms.truncate(n);
}

fn count_reached(arms: &[Arm]) -> usize
    ensures { result ≡ count_reached (arm_trees arms.now) }
{
    let mut n = 0;
    for arm in arms {
        n += 1;
        if always_gives(arm) {
            return n;
        }
    }
    n
}

fn always_gives(arm: &Arm) -> bool
    ensures { result ≡ always_gives (arm_tree arm.now) }
{
    arm.bounds.len() == 0 && needs_nothing(&arm.items)
}

fn needs_nothing(items: &[Item]) -> bool
    ensures { result ≡ needs_nothing (item_trees items.now) }
{
    for item in items {
        if is_need(item) {
            return false;
        }
    }
    true
}

fn is_need(item: &Item) -> bool
    ensures { result ≡ is_need (item_tree item.now) }
{
    match item {
        Item::Let(_) => false,
        Item::Need(_) => true,
    }
}
