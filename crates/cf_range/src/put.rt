//! A value in the place of a variable, which is bound no more.
ghost use Rattle.std.specs.Prelude.{◌≡◌, IfOk};
ghost use Rattle.cf_tree.specs.CodeView.{code_tree, item_tree, arm_tree, code_trees, item_trees, arm_trees};
ghost use Rattle.cf_range.specs.Put.{fallen, var_put, put, all_put, item_put, items_put, arm_put, arms_put};

use cf_shift::code_over_operands;
use cf_tree::{Arm, Code, Item, NoMemory, code_over_list, code_over_one, code_over_three};
use std::alloc::Global;

/// The code with the value in the place of the variable of this level.
#[cycle(put)]
pub(crate) fn put(alloc: Global, code: &Code, level: usize, value: &Code) -> Result<Code, NoMemory>
    ensures { IfOk result (λ new. code_tree new ≡ put level (code_tree value.now) (code_tree code.now)) }
{
    match code {
        Code::Lit(k) => Ok(Code::Lit(*k)),
        Code::Truth(t) => Ok(Code::Truth(*t)),
        Code::Var(x) => put_var(alloc, level, value, *x),
        code_over_list!(parts) => {
            let parts = put_all(alloc, parts, level, value)?;
            Ok(code.over_list(parts))
        }
        code_over_one!(a) => {
            let part = put_boxed(alloc, a, level, value)?;
            Ok(code.over_one(part))
        }
        Code::Let {
            first,
            count,
            value: bound,
            body,
        } => Ok(Code::Let {
            first: fallen(level, *first),
            count: *count,
            value: put_boxed(alloc, bound, level, value)?,
            body: put_boxed(alloc, body, level, value)?,
        }),
        code_over_operands!(a, b) => {
            let first = put_boxed(alloc, a, level, value)?;
            let second = put_boxed(alloc, b, level, value)?;
            Ok(code.over_two(first, second))
        }
        code_over_three!(a, b, c) => {
            let first = put_boxed(alloc, a, level, value)?;
            let second = put_boxed(alloc, b, level, value)?;
            let third = put_boxed(alloc, c, level, value)?;
            Ok(code.over_three(first, second, third))
        }
        Code::Solve { number, arms } => Ok(Code::Solve {
            number: *number,
            arms: put_arms(alloc, arms, level, value)?,
        }),
    }
}

#[cycle(put)]
fn put_boxed(alloc: Global, code: &Code, level: usize, value: &Code) -> Result<Box<Code>, NoMemory>
    ensures { IfOk result (λ new. code_tree new.value ≡ put level (code_tree value.now) (code_tree code.now)) }
{
    Ok(Box::new(alloc, put(alloc, code, level, value)?)?)
}

// The value, or another variable at its new level.
fn put_var(alloc: Global, level: usize, value: &Code, x: u32) -> Result<Code, NoMemory>
    ensures { IfOk result (λ new. code_tree new ≡ var_put level (code_tree value.now) x) }
{
    if level == x as usize {
        value.try_copy(alloc)
    } else {
        Ok(Code::Var(fallen(level, x)))
    }
}

fn fallen(level: usize, x: u32) -> u32
    ensures { result ≡ fallen level x }
{
    if level < x as usize { x - 1 } else { x }
}

#[cycle(put)]
pub(crate) fn put_all(
    alloc: Global,
    codes: &[Code],
    level: usize,
    value: &Code,
) -> Result<Vec<Code>, NoMemory>
    ensures { IfOk result (λ new. code_trees new.items ≡ all_put level (code_tree value.now) (code_trees codes.now)) }
{
    let mut all = Vec::new(alloc);
    for code in codes {
        all.push(put(alloc, code, level, value)?)?;
    }
    Ok(all)
}

#[cycle(put)]
fn put_item(alloc: Global, item: &Item, level: usize, value: &Code) -> Result<Item, NoMemory>
    ensures { IfOk result (λ new. item_tree new ≡ item_put level (code_tree value.now) (item_tree item.now)) }
{
    match item {
        Item::Let(code) => Ok(Item::Let(put(alloc, code, level, value)?)),
        Item::Need(code) => Ok(Item::Need(put(alloc, code, level, value)?)),
    }
}

#[cycle(put)]
fn put_items(
    alloc: Global,
    items: &[Item],
    level: usize,
    value: &Code,
) -> Result<Vec<Item>, NoMemory>
    ensures { IfOk result (λ new. item_trees new.items ≡ items_put level (code_tree value.now) (item_trees items.now)) }
{
    let mut all = Vec::new(alloc);
    for item in items {
        all.push(put_item(alloc, item, level, value)?)?;
    }
    Ok(all)
}

/// The arm with the value in the place of the variable of this level.
#[cycle(put)]
pub(crate) fn put_arm(alloc: Global, arm: &Arm, level: usize, value: &Code) -> Result<Arm, NoMemory>
    ensures { IfOk result (λ new. arm_tree new ≡ arm_put level (code_tree value.now) (arm_tree arm.now)) }
{
    Ok(Arm {
        bounds: Vec::from_slice(alloc, &arm.bounds)?,
        items: put_items(alloc, &arm.items, level, value)?,
        gives: put_all(alloc, &arm.gives, level, value)?,
    })
}

#[cycle(put)]
fn put_arms(alloc: Global, arms: &[Arm], level: usize, value: &Code) -> Result<Vec<Arm>, NoMemory>
    ensures { IfOk result (λ new. arm_trees new.items ≡ arms_put level (code_tree value.now) (arm_trees arms.now)) }
{
    let mut all = Vec::new(alloc);
    for arm in arms {
        all.push(put_arm(alloc, arm, level, value)?)?;
    }
    Ok(all)
}
