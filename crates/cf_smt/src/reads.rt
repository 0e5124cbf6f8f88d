//! Which variables codes and arms read.
ghost use Rattle.std.specs.Prelude.{◌≡◌};
ghost use Rattle.cf_tree.specs.CodeView.{code_tree, code_trees, item_tree, item_trees, arm_tree, arm_trees};
ghost use Rattle.cf_smt.specs.Reads.{arm_reads as read_in_arm, arms_read as read_in_arms, item_reads as read_in_item, items_read as read_in_items, reads as read_in, some_read as read_in_some};

use cf_tree::{Arm, Code, Item, code_over_list, code_over_one, code_over_three, code_over_two};

/// Whether a code reads the variable of a level.
#[cycle(reads)]
pub(crate) fn reads(level: u32, code: &Code) -> bool
    ensures { result ≡ read_in level (code_tree code.now) }
{
    match code {
        Code::Lit(_) | Code::Truth(_) => false,
        Code::Var(y) => *y == level,
        code_over_list!(parts) => some_read(level, parts),
        code_over_one!(a) => reads(level, a),
        code_over_two!(a, b) => reads(level, a) || reads(level, b),
        code_over_three!(a, b, c) => reads(level, a) || reads(level, b) || reads(level, c),
        Code::Solve { arms, .. } => arms_read(level, arms),
    }
}

#[cycle(reads)]
fn some_read(level: u32, codes: &[Code]) -> bool
    ensures { result ≡ read_in_some level (code_trees codes.now) }
{
    for code in codes {
        if reads(level, code) {
            return true;
        }
    }
    false
}

#[cycle(reads)]
fn item_reads(level: u32, item: &Item) -> bool
    ensures { result ≡ read_in_item level (item_tree item.now) }
{
    match item {
        Item::Let(code) => reads(level, code),
        Item::Need(code) => reads(level, code),
    }
}

#[cycle(reads)]
fn items_read(level: u32, items: &[Item]) -> bool
    ensures { result ≡ read_in_items level (item_trees items.now) }
{
    for item in items {
        if item_reads(level, item) {
            return true;
        }
    }
    false
}

#[cycle(reads)]
fn arm_reads(level: u32, arm: &Arm) -> bool
    ensures { result ≡ read_in_arm level (arm_tree arm.now) }
{
    items_read(level, &arm.items) || some_read(level, &arm.gives)
}

/// Whether an arm reads the variable of a level.
#[cycle(reads)]
pub(crate) fn arms_read(level: u32, arms: &[Arm]) -> bool
    ensures { result ≡ read_in_arms level (arm_trees arms.now) }
{
    for arm in arms {
        if arm_reads(level, arm) {
            return true;
        }
    }
    false
}
