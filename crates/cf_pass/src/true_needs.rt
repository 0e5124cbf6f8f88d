//! Needs `true`, which are removed.
ghost use Rattle.std.specs.Prelude.{◌≡◌};
ghost use Rattle.cf_tree.specs.CodeView.{code_tree, item_tree, arm_tree, item_trees, arm_trees};
ghost use Rattle.cf_tree.specs.RelSize.{capped};
ghost use Rattle.cf_pass.specs.DropNeeds.{always_holds, other_items, arm_without, arms_without, without_needs, needs_in, needs_in_arm, needs_in_arms, needs_at};

use cf_tree::{Arm, Code, Item};

/// Removes each item `need true` of a solve, and answers how many it removed, at most `2^64 - 1`.
/// Another form stays, and so do the parts of a form.
pub(crate) fn drop_needs(code: &mut Code) -> u64
    ensures code { code_tree code.new ≡ without_needs (code_tree code.old) }
    ensures removed { result ≡ capped (needs_at (code_tree code.old)) }
{
    match code {
        Code::Solve { arms, .. } => drop_in_arms(arms),
        _ => 0,
    }
}

fn drop_in_arms(arms: &mut Vec<Arm>) -> u64
    ensures arms { arm_trees arms.new.items ≡ arms_without (arm_trees arms.old.items) }
    ensures removed { result ≡ capped (needs_in_arms (arm_trees arms.old.items)) }
{
    let mut removed: u64 = 0;
    for arm in arms.iter_mut() {
        removed = removed.saturating_add(drop_in_arm(arm));
    }
    removed
}

fn drop_in_arm(arm: &mut Arm) -> u64
    ensures arm { arm_tree arm.new ≡ arm_without (arm_tree arm.old) }
    ensures removed { result ≡ needs_in_arm (arm_tree arm.old) }
{
    drop_in_items(&mut arm.items)
}

fn drop_in_items(items: &mut Vec<Item>) -> u64
    ensures items { item_trees items.new.items ≡ other_items (item_trees items.old.items) }
    ensures removed { result ≡ needs_in (item_trees items.old.items) }
{
    let before = items.len();
    items.retain(|item| !always_holds(item));
    (before - items.len()) as u64
}

fn always_holds(item: &Item) -> bool
    ensures { result ≡ always_holds (item_tree item.now) }
{
    match item {
        Item::Need(Code::Truth(t)) => *t,
        _ => false,
    }
}
