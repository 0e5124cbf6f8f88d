//! Code behind more variables.
ghost use Rattle.std.specs.Prelude.{◌≡◌, ◌+◌, ◌<◌, ◌^◌, IfOk};
ghost use Rattle.cf_tree.specs.CodeView.{code_tree, item_tree, arm_tree, code_trees, item_trees, arm_trees};
ghost use Rattle.cf_shift.specs.Shifted.{shifted, all_shifted, item_shifted, items_shifted, arm_shifted, arms_shifted, IsLevelled, AreLevelled, ItemIsLevelled, ItemsAreLevelled, ArmIsLevelled, ArmsAreLevelled};

use crate::code_over_operands;
use cf_tree::{Arm, Code, Item, NoMemory, add_u32, code_over_list, code_over_one, code_over_three};
use std::alloc::Global;

/// A copy of the code behind `by` more variables.
///
/// # Errors
/// `NoMemory` also where a level has more than 32 bits.
#[cycle(shift)]
pub fn shift(alloc: Global, code: &Code, by: u32) -> Result<Code, NoMemory>
    ensures { IfOk result (λ new. IsLevelled (shifted by (code_tree code.now)) (code_tree new)) }
{
    match code {
        Code::Lit(k) => Ok(Code::Lit(*k)),
        Code::Truth(t) => Ok(Code::Truth(*t)),
        Code::Var(x) => Ok(Code::Var(add_u32(by, *x)?)),
        code_over_list!(parts) => {
            let parts = shift_all(alloc, parts, by)?;
            Ok(code.over_list(parts))
        }
        code_over_one!(a) => {
            let part = boxed(alloc, a, by)?;
            Ok(code.over_one(part))
        }
        Code::Let {
            first,
            count,
            value,
            body,
        } => Ok(Code::Let {
            first: first_level(by, *first, *count)?,
            count: *count,
            value: boxed(alloc, value, by)?,
            body: boxed(alloc, body, by)?,
        }),
        code_over_operands!(a, b) => {
            let first = boxed(alloc, a, by)?;
            let second = boxed(alloc, b, by)?;
            Ok(code.over_two(first, second))
        }
        code_over_three!(a, b, c) => {
            let first = boxed(alloc, a, by)?;
            let second = boxed(alloc, b, by)?;
            let third = boxed(alloc, c, by)?;
            Ok(code.over_three(first, second, third))
        }
        Code::Solve { number, arms } => Ok(Code::Solve {
            number: *number,
            arms: shift_arms(alloc, arms, by)?,
        }),
    }
}

/// The first level of a let of `count` variables behind `by` more.
///
/// # Errors
/// `NoMemory` where its last level has more than 32 bits.
pub fn first_level(by: u32, first: u32, count: u32) -> Result<u32, NoMemory>
    ensures { IfOk result (λ n. (n ≡ by + first) × (n + count < 2 ^ 32)) }
{
    let n = add_u32(by, first)?;
    add_u32(n, count)?;
    Ok(n)
}

#[cycle(shift)]
fn boxed(alloc: Global, code: &Code, by: u32) -> Result<Box<Code>, NoMemory>
    ensures { IfOk result (λ new. IsLevelled (shifted by (code_tree code.now)) (code_tree new.value)) }
{
    Ok(Box::new(alloc, shift(alloc, code, by)?)?)
}

/// Copies of the codes behind `by` more variables.
///
/// # Errors
/// `NoMemory` also where a level has more than 32 bits.
#[cycle(shift)]
pub fn shift_all(alloc: Global, codes: &[Code], by: u32) -> Result<Vec<Code>, NoMemory>
    ensures { IfOk result (λ new. AreLevelled (all_shifted by (code_trees codes.now)) (code_trees new.items)) }
{
    let mut all = Vec::new(alloc);
    for code in codes {
        all.push(shift(alloc, code, by)?)?;
    }
    Ok(all)
}

#[cycle(shift)]
fn shift_item(alloc: Global, item: &Item, by: u32) -> Result<Item, NoMemory>
    ensures { IfOk result (λ new. ItemIsLevelled (item_shifted by (item_tree item.now)) (item_tree new)) }
{
    match item {
        Item::Let(code) => Ok(Item::Let(shift(alloc, code, by)?)),
        Item::Need(code) => Ok(Item::Need(shift(alloc, code, by)?)),
    }
}

#[cycle(shift)]
fn shift_items(alloc: Global, items: &[Item], by: u32) -> Result<Vec<Item>, NoMemory>
    ensures { IfOk result (λ new. ItemsAreLevelled (items_shifted by (item_trees items.now)) (item_trees new.items)) }
{
    let mut all = Vec::new(alloc);
    for item in items {
        all.push(shift_item(alloc, item, by)?)?;
    }
    Ok(all)
}

#[cycle(shift)]
fn shift_arm(alloc: Global, arm: &Arm, by: u32) -> Result<Arm, NoMemory>
    ensures { IfOk result (λ new. ArmIsLevelled (arm_shifted by (arm_tree arm.now)) (arm_tree new)) }
{
    Ok(Arm {
        bounds: Vec::from_slice(alloc, &arm.bounds)?,
        items: shift_items(alloc, &arm.items, by)?,
        gives: shift_all(alloc, &arm.gives, by)?,
    })
}

#[cycle(shift)]
fn shift_arms(alloc: Global, arms: &[Arm], by: u32) -> Result<Vec<Arm>, NoMemory>
    ensures { IfOk result (λ new. ArmsAreLevelled (arms_shifted by (arm_trees arms.now)) (arm_trees new.items)) }
{
    let mut all = Vec::new(alloc);
    for arm in arms {
        all.push(shift_arm(alloc, arm, by)?)?;
    }
    Ok(all)
}
