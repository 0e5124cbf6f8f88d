//! Arms whose needs can never hold, which are removed.
ghost use Rattle.std.specs.Prelude.{◌≡◌, ◌-◌};
ghost use Rattle.cf_tree.specs.CodeView.{code_tree, item_tree, arm_tree, item_trees, arm_trees};
ghost use Rattle.cf_pass.specs.DropArms.{never_holds, some_never, is_dead, all_dead, live_arms, arms_left, without_arms, arm_count, dead_at};

use cf_tree::{Arm, Code, Item};

/// Removes each arm of a solve that holds an item `need false`, and answers how many it removed. Where every arm
/// holds one, the first arm stays. Another form stays, and so do the parts of a form.
pub(crate) fn drop_arms(code: &mut Code) -> u64
    ensures code { code_tree code.new ≡ without_arms (code_tree code.old) }
    ensures removed { result ≡ dead_at (code_tree code.old) }
{
    match code {
        Code::Solve { arms, .. } => drop_dead(arms),
        _ => 0,
    }
}

fn drop_dead(arms: &mut Vec<Arm>) -> u64
    ensures arms { arm_trees arms.new.items ≡ arms_left (arm_trees arms.old.items) }
    ensures removed { result ≡ arm_count (arm_trees arms.old.items) - arm_count (arms_left (arm_trees arms.old.items)) }
{
    let before = arms.len();
    keep_live(arms);
    (before - arms.len()) as u64
}

// The live arms stay, or else the first arm.
fn keep_live(arms: &mut Vec<Arm>)
    ensures { arm_trees arms.new.items ≡ arms_left (arm_trees arms.old.items) }
{
    if all_dead(arms) {
        arms.truncate(1);
    } else {
        arms.retain(|arm| !is_dead(arm));
    }
}

fn all_dead(arms: &[Arm]) -> bool
    ensures { result ≡ all_dead (arm_trees arms.now) }
{
    let mut rest = arms;
    while let Some((arm, more)) = rest.split_first() {
        if !is_dead(arm) {
            return false;
        }
        rest = more;
    }
    true
}

// Whether one of its items is `need false`.
fn is_dead(arm: &Arm) -> bool
    ensures { result ≡ is_dead (arm_tree arm.now) }
{
    some_never(&arm.items)
}

fn some_never(items: &[Item]) -> bool
    ensures { result ≡ some_never (item_trees items.now) }
{
    let mut rest = items;
    while let Some((item, more)) = rest.split_first() {
        if never_holds(item) {
            return true;
        }
        rest = more;
    }
    false
}

fn never_holds(item: &Item) -> bool
    ensures { result ≡ never_holds (item_tree item.now) }
{
    match item {
        Item::Need(Code::Truth(t)) => !*t,
        _ => false,
    }
}
