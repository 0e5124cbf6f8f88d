//! Lets of an arm whose value goes into their place.
ghost use Rattle.std.specs.Prelude.{◌≡◌, ◌&&◌, ◌∷◌, ◌++◌, [], IfOk, if◌then◌else◌};
ghost use Rattle.cf_tree.specs.CodeTree.{let_item, item_more};
ghost use Rattle.cf_tree.specs.CodeView.{code_tree, item_tree, arm_tree, item_trees};
ghost use Rattle.cf_range.specs.CodeRanges.{range_of};
ghost use Rattle.cf_range.specs.Put.{arm_put};
ghost use Rattle.cf_range.specs.Settled.{arm_uses, reads_well, bare, item_before, items_dropped, arm_dropped};

use crate::codes::range_of;
use crate::counts::{goes_in_arm, items_bind_one, may_go};
use crate::put::put_arm;
use crate::range::Range;
use crate::ranges::with_wholes;
use cf_tree::{Arm, Code, Item, NoMemory};
use std::alloc::Global;

/// The arm without lets whose value goes into their place. `ranges` are those of the variables outside it.
pub(crate) fn arm_dropped(alloc: Global, ranges: &[Range], arm: &Arm) -> Result<Arm, NoMemory>
    ensures { IfOk result (λ new. arm_tree new ≡ arm_dropped ranges.now (arm_tree arm.now)) }
{
    if !items_bind_one(&arm.items) {
        return arm.try_copy(alloc);
    }
    let inner = with_wholes(alloc, ranges, arm.bounds.len())?;
    lets_dropped(alloc, inner, &arm.items, arm)
}

// The arm with what is left of these items in the place of its own.
#[cycle(dropped)]
fn lets_dropped(
    alloc: Global,
    ranges: Vec<Range>,
    items: &[Item],
    arm: &Arm,
) -> Result<Arm, NoMemory>
    ensures { IfOk result (λ new. arm_tree new ≡ items_dropped ranges.items (item_trees items.now) (arm_tree arm.now)) }
{
    match items.split_first() {
        None => bare(alloc, arm),
        Some((item, more)) => first_dropped(alloc, ranges, item, more, arm),
    }
}

#[cycle(dropped)]
#[tactic(auto, using(crate::proofs::SettledLists::need_dropped, crate::proofs::SettledLists::let_dropped))]
fn first_dropped(
    alloc: Global,
    ranges: Vec<Range>,
    item: &Item,
    more: &[Item],
    arm: &Arm,
) -> Result<Arm, NoMemory>
    ensures { IfOk result (λ new. arm_tree new ≡ items_dropped ranges.items (item_more (item_tree item.now) (item_trees more.now)) (arm_tree arm.now)) }
{
    match item {
        Item::Need(code) => {
            let arm = lets_dropped(alloc, ranges, more, arm)?;
            let need = code.try_copy(alloc)?;
            item_before(arm, Item::Need(need))
        }
        Item::Let(code) => {
            let level = ranges.len();
            let may = may_go(&ranges, code);
            let inner = one_more(ranges, code)?;
            let arm = lets_dropped(alloc, inner, more, arm)?;
            let_before(alloc, may, level, code, arm)
        }
    }
}

// The ranges, and that of the code behind them.
fn one_more(ranges: Vec<Range>, code: &Code) -> Result<Vec<Range>, NoMemory>
    ensures { IfOk result (λ all. all.items ≡ ranges.items ++ range_of ranges.items (code_tree code.now) ∷ []) }
{
    let range = range_of(&ranges, code);
    let mut all = ranges;
    all.push(range)?;
    Ok(all)
}

// A copy of the arm without its items.
fn bare(alloc: Global, arm: &Arm) -> Result<Arm, NoMemory>
    ensures { IfOk result (λ new. arm_tree new ≡ bare (arm_tree arm.now)) }
{
    let copy = arm.try_copy(alloc)?;
    Ok(without_items(alloc, copy))
}

fn without_items(alloc: Global, arm: Arm) -> Arm
    ensures { arm_tree result ≡ bare (arm_tree arm) }
{
    Arm {
        bounds: arm.bounds,
        items: Vec::new(alloc),
        gives: arm.gives,
    }
}

// A let before an arm, or its value in its place.
fn let_before(
    alloc: Global,
    may: bool,
    level: usize,
    value: &Code,
    arm: Arm,
) -> Result<Arm, NoMemory>
    ensures { IfOk result (λ new. arm_tree new ≡ (if may && reads_well (arm_uses level (arm_tree arm)) (code_tree value.now)
        then arm_put level (code_tree value.now) (arm_tree arm) else item_before (let_item (code_tree value.now)) (arm_tree arm))) }
{
    if goes_in_arm(may, level, value, &arm) {
        put_arm(alloc, &arm, level, value)
    } else {
        let kept = value.try_copy(alloc)?;
        item_before(arm, Item::Let(kept))
    }
}

fn item_before(arm: Arm, item: Item) -> Result<Arm, NoMemory>
    ensures { IfOk result (λ new. arm_tree new ≡ item_before (item_tree item) (arm_tree arm)) }
{
    let mut items = arm.items;
    items.insert(0, item)?;
    Ok(Arm {
        bounds: arm.bounds,
        items,
        gives: arm.gives,
    })
}
