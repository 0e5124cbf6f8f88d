//! The precondition of a solved choose.
ghost use Rattle.std.specs.Prelude.{◌≡◌, ◌≤◌, ◌<◌, ◌+◌, map, take, length, IfOk};
ghost use Rattle.cf_tree.specs.CodeTree.{items_of};
ghost use Rattle.cf_tree.specs.CodeView.{arm_tree, arm_trees, item_tree};
ghost use Rattle.cf_tree.specs.DefView.{pre_tree};
ghost use Rattle.cf_tree.specs.RelView.{rel_tree};
ghost use Rattle.cf_choose.specs.Precondition.{is_need as is_need_of, to_last_need, needs_of, all_needs, IsPrecondition};
ghost use Rattle.cf_choose.specs.Solved.{IsSolved};

use crate::solved::SolvedParts;
use cf_tree::{Arm, Item, NoMemory, Pre};
use std::alloc::Global;

/// The arms up to their last needs, which give nothing.
pub(crate) fn precondition(alloc: Global, parts: &SolvedParts) -> Result<Pre, NoMemory>
    requires { IsSolved parts.now }
    ensures arms { IfOk result (λ p. pre_tree p ≡ all_needs (arm_trees parts.now.arms.items)) }
    ensures holds { IfOk result (λ p. IsPrecondition parts.now.scope.items parts.now.outputs.items (rel_tree parts.now.rel) (pre_tree p)) }
{
    Ok(Pre {
        arms: needs_of_all(alloc, &parts.arms)?,
    })
}

fn needs_of_all(alloc: Global, arms: &[Arm]) -> Result<Vec<Arm>, NoMemory>
    ensures { IfOk result (λ v. arm_trees v.items ≡ all_needs (arm_trees arms.now)) }
{
    let mut all = Vec::new(alloc);
    for arm in arms {
        all.push(needs(alloc, arm)?)?;
    }
    Ok(all)
}

// The arm with its items up to the last need, which gives nothing.
fn needs(alloc: Global, arm: &Arm) -> Result<Arm, NoMemory>
    ensures { IfOk result (λ a. arm_tree a ≡ needs_of (arm_tree arm.now)) }
{
    let bounds = Vec::from_slice(alloc, &arm.bounds)?;
    let items = copied(alloc, &arm.items[..needed(&arm.items)])?;
    Ok(Arm {
        bounds,
        items,
        gives: Vec::new(alloc),
    })
}

fn copied(alloc: Global, items: &[Item]) -> Result<Vec<Item>, NoMemory>
    ensures { IfOk result (λ v. map item_tree v.items ≡ map item_tree items.now) }
{
    let mut all = Vec::new(alloc);
    for item in items {
        all.push(item.try_copy(alloc)?)?;
    }
    Ok(all)
}

// How many items there are up to the last need.
fn needed(items: &[Item]) -> usize
    ensures within { result ≤ length items.now }
    ensures needed { items_of (map item_tree (take result items.now)) ≡ to_last_need (items_of (map item_tree items.now)) }
{
    let mut count = 0;
    for i in 0..items.len() {
        count = needed_after(items, i, count);
    }
    count
}

// How many of the first items there are up to the last need, where so many are of those before the
// last of them.
fn needed_after(items: &[Item], i: usize, count: usize) -> usize
    requires inside { i < length items.now }
    requires within { count ≤ i }
    requires needed { items_of (map item_tree (take count items.now)) ≡ to_last_need (items_of (map item_tree (take i items.now))) }
    ensures within { result ≤ i + 1 }
    ensures needed { items_of (map item_tree (take result items.now)) ≡ to_last_need (items_of (map item_tree (take (i + 1) items.now))) }
{
    if is_need(&items[i]) { i + 1 } else { count }
}

fn is_need(item: &Item) -> bool
    ensures { result ≡ is_need_of (item_tree item.now) }
{
    match item {
        Item::Let(_) => false,
        Item::Need(_) => true,
    }
}
