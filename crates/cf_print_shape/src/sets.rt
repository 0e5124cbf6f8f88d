//! Programs in which a set stands.
ghost use Rattle.std.specs.Prelude.{◌≡◌};
ghost use Rattle.std.specs.List.{list_any};
ghost use Rattle.cf_tree.specs.CodeView.{code_tree, code_trees, item_tree, item_trees, arm_tree, arm_trees};
ghost use Rattle.cf_stmt.specs.BlockView.{block_tree};
ghost use Rattle.cf_print_shape.specs.Sets.{arm_uses_sets as arm_uses, arms_use_sets as arms_use, block_uses_sets as block_uses, is_set as is_set_base, item_uses_sets as item_uses, items_use_sets as items_use, use_sets as use_of, uses_sets as uses_of};

use cf_stmt::Block;
use cf_tree::{Arm, Base, Code, Item, code_leaf};

fn is_set(base: Base) -> bool
    ensures { result ≡ is_set_base base }
{
    match base {
        Base::Set => true,
        Base::Int | Base::Bool => false,
    }
}

/// Whether one of some bases is that of sets.
pub fn has_set(bases: &[Base]) -> bool
    ensures { result ≡ list_any is_set_base bases.now }
{
    for base in bases {
        if is_set(*base) {
            return true;
        }
    }
    false
}

/// Whether a set stands in a block.
#[cycle(block_uses_sets)]
pub fn block_uses_sets(block: &Block) -> bool
    ensures { result ≡ block_uses (block_tree block.now) }
{
    match block {
        Block::Give(code) => uses_sets(code),
        Block::Stop(_) | Block::Leave => false,
        Block::Bind(a, b)
        | Block::Part(a, b)
        | Block::Join(a, b)
        | Block::Arm {
            body: a,
            later: b,
            ..
        } => block_uses_sets(a) || block_uses_sets(b),
        Block::Test { test, yes, no } => {
            block_uses_sets(test) || block_uses_sets(yes) || block_uses_sets(no)
        }
    }
}

/// Whether an operation on sets, or one that makes a set, is in a code.
#[cycle(sets)]
pub fn uses_sets(code: &Code) -> bool
    ensures { result ≡ uses_of (code_tree code.now) }
{
    match code {
        code_leaf!() => false,
        Code::SetOf(_)
        | Code::Union(_)
        | Code::Inter(_)
        | Code::Diff(_, _)
        | Code::Subset(_, _)
        | Code::Card(_)
        | Code::Slice { .. }
        | Code::Fresh { .. } => true,
        Code::Tuple(parts) | Code::Sum(parts) | Code::Min(parts) | Code::Max(parts) => {
            use_sets(parts)
        }
        Code::Neg(a)
        | Code::Not(a)
        | Code::Div { of: a, .. }
        | Code::Mod { of: a, .. }
        | Code::Divides { of: a, .. } => uses_sets(a),
        Code::Sub(a, b)
        | Code::Mul(a, b)
        | Code::And(a, b)
        | Code::Or(a, b)
        | Code::Compare {
            left: a,
            right: b,
            ..
        }
        | Code::Let {
            value: a,
            body: b,
            ..
        } => uses_sets(a) || uses_sets(b),
        Code::If { test, yes, no } => uses_sets(test) || uses_sets(yes) || uses_sets(no),
        Code::Solve { arms, .. } => arms_use_sets(arms),
    }
}

#[cycle(sets)]
fn use_sets(codes: &[Code]) -> bool
    ensures { result ≡ use_of (code_trees codes.now) }
{
    for code in codes {
        if uses_sets(code) {
            return true;
        }
    }
    false
}

#[cycle(sets)]
fn item_uses_sets(item: &Item) -> bool
    ensures { result ≡ item_uses (item_tree item.now) }
{
    match item {
        Item::Let(code) => uses_sets(code),
        Item::Need(code) => uses_sets(code),
    }
}

#[cycle(sets)]
fn items_use_sets(items: &[Item]) -> bool
    ensures { result ≡ items_use (item_trees items.now) }
{
    for item in items {
        if item_uses_sets(item) {
            return true;
        }
    }
    false
}

#[cycle(sets)]
fn arm_uses_sets(arm: &Arm) -> bool
    ensures { result ≡ arm_uses (arm_tree arm.now) }
{
    items_use_sets(&arm.items) || use_sets(&arm.gives)
}

#[cycle(sets)]
fn arms_use_sets(arms: &[Arm]) -> bool
    ensures { result ≡ arms_use (arm_trees arms.now) }
{
    for arm in arms {
        if arm_uses_sets(arm) {
            return true;
        }
    }
    false
}
