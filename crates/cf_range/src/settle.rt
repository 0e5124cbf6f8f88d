//! Settling: a let goes whose value reads better in its place, a comparison is decided where its sides tell, and a union loses parts that are
//! the empty set.
ghost use Rattle.std.specs.Prelude.{◌≡◌, IfOk, if◌then◌else◌};
ghost use Rattle.cf_tree.specs.CodeView.{code_tree, item_tree, arm_tree, code_trees, item_trees, arm_trees};
ghost use Rattle.cf_range.specs.Settled.{gives_so_many, ranges_with, let_settled, settled, all_settled, item_settled, items_settled, arm_each, arm_settled, arms_settled};

use crate::comparison::comparison;
use crate::counts::{gives_so_many, goes_in, items_bind_one};
use crate::dropping::arm_dropped;
use crate::put::put;
use crate::range::Range;
use crate::ranges::{range_behind, ranges_behind_all, ranges_with, with_wholes};
use crate::sets::{fresh_settled, slice_settled, union_settled};
use cf_tree::{Arm, Code, Item, NoMemory, code_over_one};
use std::alloc::Global;

/// The code without lets whose value goes into its place, comparisons that are decided and sets that are empty. `ranges` are those of its variables, by level.
#[cycle(settle)]
pub(crate) fn settle(alloc: Global, ranges: &[Range], code: &Code) -> Result<Code, NoMemory>
    ensures { IfOk result (λ new. code_tree new ≡ settled ranges.now (code_tree code.now)) }
{
    match code {
        Code::Lit(k) => Ok(Code::Lit(*k)),
        Code::Truth(t) => Ok(Code::Truth(*t)),
        Code::Var(x) => Ok(Code::Var(*x)),
        Code::Union(parts) => {
            let parts = settle_all(alloc, ranges, parts)?;
            union_settled(alloc, parts)
        }
        Code::SetOf(parts)
        | Code::Tuple(parts)
        | Code::Sum(parts)
        | Code::Min(parts)
        | Code::Max(parts)
        | Code::Inter(parts) => {
            let parts = settle_all(alloc, ranges, parts)?;
            Ok(code.over_list(parts))
        }
        code_over_one!(a) => {
            let part = settle_boxed(alloc, ranges, a)?;
            Ok(code.over_one(part))
        }
        Code::Let {
            first,
            count,
            value,
            body,
        } => {
            let new_value = settle_boxed(alloc, ranges, value)?;
            let new_body = settle_body(alloc, ranges, body, *count, value)?;
            let_settled(alloc, ranges, *first, *count, new_value, new_body)
        }
        Code::Compare { order, left, right } => {
            let first = settle_boxed(alloc, ranges, left)?;
            let second = settle_boxed(alloc, ranges, right)?;
            Ok(comparison(ranges, *order, first, second))
        }
        Code::Sub(a, b)
        | Code::Mul(a, b)
        | Code::And(a, b)
        | Code::Or(a, b)
        | Code::Diff(a, b)
        | Code::Subset(a, b) => {
            let first = settle_boxed(alloc, ranges, a)?;
            let second = settle_boxed(alloc, ranges, b)?;
            Ok(code.over_two(first, second))
        }
        Code::Fresh { avoid, n } => {
            let first = settle_boxed(alloc, ranges, avoid)?;
            let second = settle_boxed(alloc, ranges, n)?;
            Ok(fresh_settled(alloc, ranges, first, second))
        }
        Code::Slice { set, from, n } => {
            let first = settle_boxed(alloc, ranges, set)?;
            let second = settle_boxed(alloc, ranges, from)?;
            let third = settle_boxed(alloc, ranges, n)?;
            Ok(slice_settled(alloc, ranges, first, second, third))
        }
        Code::If { test, yes, no } => {
            let first = settle_boxed(alloc, ranges, test)?;
            let second = settle_boxed(alloc, ranges, yes)?;
            let third = settle_boxed(alloc, ranges, no)?;
            Ok(code.over_three(first, second, third))
        }
        Code::Solve { number, arms } => Ok(Code::Solve {
            number: *number,
            arms: settle_arms(alloc, ranges, arms)?,
        }),
    }
}

#[cycle(settle)]
fn settle_boxed(alloc: Global, ranges: &[Range], code: &Code) -> Result<Box<Code>, NoMemory>
    ensures { IfOk result (λ new. code_tree new.value ≡ settled ranges.now (code_tree code.now)) }
{
    Ok(Box::new(alloc, settle(alloc, ranges, code)?)?)
}

// The body of a let, which is settled where it is known how many values stand before it.
#[cycle(settle)]
fn settle_body(
    alloc: Global,
    ranges: &[Range],
    body: &Code,
    n: u32,
    value: &Code,
) -> Result<Box<Code>, NoMemory>
    ensures { IfOk result (λ new. code_tree new.value ≡ (if gives_so_many n (code_tree value.now)
        then settled (ranges_with ranges.now n (code_tree value.now)) (code_tree body.now) else code_tree body.now)) }
{
    if gives_so_many(n as usize, value) {
        let inner = ranges_with(alloc, ranges, n, value)?;
        settle_boxed(alloc, &inner, body)
    } else {
        Ok(Box::new(alloc, body.try_copy(alloc)?)?)
    }
}

fn let_settled(
    alloc: Global,
    ranges: &[Range],
    first: u32,
    n: u32,
    value: Box<Code>,
    body: Box<Code>,
) -> Result<Code, NoMemory>
    ensures { IfOk result (λ new. code_tree new ≡ let_settled ranges.now first n (code_tree value.value) (code_tree body.value)) }
{
    if goes_in(ranges, n, &value, &body) {
        put(alloc, &body, ranges.len(), &value)
    } else {
        Ok(Code::Let {
            first,
            count: n,
            value,
            body,
        })
    }
}

#[cycle(settle)]
fn settle_all(alloc: Global, ranges: &[Range], codes: &[Code]) -> Result<Vec<Code>, NoMemory>
    ensures { IfOk result (λ new. code_trees new.items ≡ all_settled ranges.now (code_trees codes.now)) }
{
    let mut all = Vec::new(alloc);
    for code in codes {
        all.push(settle(alloc, ranges, code)?)?;
    }
    Ok(all)
}

#[cycle(settle)]
fn settle_arms(alloc: Global, ranges: &[Range], arms: &[Arm]) -> Result<Vec<Arm>, NoMemory>
    ensures { IfOk result (λ new. arm_trees new.items ≡ arms_settled ranges.now (arm_trees arms.now)) }
{
    let mut all = Vec::new(alloc);
    for arm in arms {
        all.push(settle_arm(alloc, ranges, arm)?)?;
    }
    Ok(all)
}

#[cycle(settle)]
fn settle_arm(alloc: Global, ranges: &[Range], arm: &Arm) -> Result<Arm, NoMemory>
    ensures { IfOk result (λ new. arm_tree new ≡ arm_settled ranges.now (arm_tree arm.now)) }
{
    let each = settle_each(alloc, ranges, arm)?;
    arm_dropped(alloc, ranges, &each)
}

// Each item and each give, where each let has one value.
#[cycle(settle)]
fn settle_each(alloc: Global, ranges: &[Range], arm: &Arm) -> Result<Arm, NoMemory>
    ensures { IfOk result (λ new. arm_tree new ≡ arm_each ranges.now (arm_tree arm.now)) }
{
    if !items_bind_one(&arm.items) {
        return arm.try_copy(alloc);
    }
    let inner = with_wholes(alloc, ranges, arm.bounds.len())?;
    let last = ranges_behind_all(alloc, &inner, &arm.items)?;
    Ok(Arm {
        bounds: Vec::from_slice(alloc, &arm.bounds)?,
        items: settle_items(alloc, &inner, &arm.items)?,
        gives: settle_all(alloc, &last, &arm.gives)?,
    })
}

#[cycle(settle)]
fn settle_item(alloc: Global, ranges: &[Range], item: &Item) -> Result<Item, NoMemory>
    ensures { IfOk result (λ new. item_tree new ≡ item_settled ranges.now (item_tree item.now)) }
{
    match item {
        Item::Let(code) => Ok(Item::Let(settle(alloc, ranges, code)?)),
        Item::Need(code) => Ok(Item::Need(settle(alloc, ranges, code)?)),
    }
}

#[cycle(settle)]
fn settle_items(alloc: Global, ranges: &[Range], items: &[Item]) -> Result<Vec<Item>, NoMemory>
    ensures { IfOk result (λ new. item_trees new.items ≡ items_settled ranges.now (item_trees items.now)) }
{
    let mut known = Vec::from_slice(alloc, ranges)?;
    let mut all = Vec::new(alloc);
    for item in items {
        all.push(settle_item(alloc, &known, item)?)?;
        range_behind(&mut known, item)?;
    }
    Ok(all)
}
