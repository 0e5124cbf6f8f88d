//! Sizes and depths of target code.
ghost use Rattle.std.specs.Prelude.{◌≡◌};
ghost use Rattle.cf_tree.specs.RelSize.{capped};
ghost use Rattle.cf_tree.specs.CodeTree.{code_size, codes_size, item_size, items_size, arm_size, arms_size, code_depth, codes_depth, item_depth, items_depth, arm_depth, arms_depth};
ghost use Rattle.cf_tree.specs.CodeView.{code_tree, item_tree, arm_tree, code_trees, item_trees, arm_trees};

use crate::code::{Arm, Code, Item};
use crate::{code_leaf, code_over_list, code_over_one, code_over_three, code_over_two};

impl Code {
    /// How many nodes it has, but never more than the greatest number of 64 bits.
    #[cycle(size_code)]
    pub fn size(&self) -> u64
        ensures { result ≡ capped (code_size (code_tree self.now)) }
    {
        match self {
            code_leaf!() => 1,
            code_over_list!(parts) => codes_size(parts).saturating_add(1),
            code_over_one!(a) => a.size().saturating_add(1),
            code_over_two!(a, b) => a.size().saturating_add(b.size()).saturating_add(1),
            code_over_three!(a, b, c) => a
                .size()
                .saturating_add(b.size())
                .saturating_add(c.size())
                .saturating_add(1),
            Code::Solve { arms, .. } => arms_size(arms).saturating_add(1),
        }
    }

    /// How deep it is: 1 for a leaf. Never more than the greatest number of 64 bits.
    #[cycle(depth_code)]
    pub fn depth(&self) -> u64
        ensures { result ≡ capped (code_depth (code_tree self.now)) }
    {
        match self {
            code_leaf!() => 1,
            code_over_list!(parts) => codes_depth(parts).saturating_add(1),
            code_over_one!(a) => a.depth().saturating_add(1),
            code_over_two!(a, b) => a.depth().max(b.depth()).saturating_add(1),
            code_over_three!(a, b, c) => a.depth().max(b.depth()).max(c.depth()).saturating_add(1),
            Code::Solve { arms, .. } => arms_depth(arms).saturating_add(1),
        }
    }
}

impl Item {
    /// How many nodes its code has, but never more than the greatest number of 64 bits.
    #[cycle(size_code)]
    pub fn size(&self) -> u64
        ensures { result ≡ capped (item_size (item_tree self.now)) }
    {
        match self {
            Item::Let(code) => code.size(),
            Item::Need(code) => code.size(),
        }
    }

    /// The depth of its code, but never more than the greatest number of 64 bits.
    #[cycle(depth_code)]
    pub fn depth(&self) -> u64
        ensures { result ≡ capped (item_depth (item_tree self.now)) }
    {
        match self {
            Item::Let(code) => code.depth(),
            Item::Need(code) => code.depth(),
        }
    }
}

impl Arm {
    /// How many nodes its items and what it gives have, but never more than the greatest number of 64 bits.
    #[cycle(size_code)]
    pub fn size(&self) -> u64
        ensures { result ≡ capped (arm_size (arm_tree self.now)) }
    {
        items_size(&self.items).saturating_add(codes_size(&self.gives))
    }

    /// The depth of its deepest part, 0 where it has none, but never more than the greatest number of
    /// 64 bits.
    #[cycle(depth_code)]
    pub fn depth(&self) -> u64
        ensures { result ≡ capped (arm_depth (arm_tree self.now)) }
    {
        items_depth(&self.items).max(codes_depth(&self.gives))
    }
}

#[cycle(size_code)]
fn codes_size(codes: &[Code]) -> u64
    ensures { result ≡ capped (codes_size (code_trees codes.now)) }
{
    let mut total: u64 = 0;
    for code in codes {
        total = total.saturating_add(code.size());
    }
    total
}

#[cycle(size_code)]
fn items_size(items: &[Item]) -> u64
    ensures { result ≡ capped (items_size (item_trees items.now)) }
{
    let mut total: u64 = 0;
    for item in items {
        total = total.saturating_add(item.size());
    }
    total
}

#[cycle(size_code)]
pub(crate) fn arms_size(arms: &[Arm]) -> u64
    ensures { result ≡ capped (arms_size (arm_trees arms.now)) }
{
    let mut total: u64 = 0;
    for arm in arms {
        total = total.saturating_add(arm.size());
    }
    total
}

#[cycle(depth_code)]
fn codes_depth(codes: &[Code]) -> u64
    ensures { result ≡ capped (codes_depth (code_trees codes.now)) }
{
    let mut deepest: u64 = 0;
    for code in codes {
        deepest = deepest.max(code.depth());
    }
    deepest
}

#[cycle(depth_code)]
fn items_depth(items: &[Item]) -> u64
    ensures { result ≡ capped (items_depth (item_trees items.now)) }
{
    let mut deepest: u64 = 0;
    for item in items {
        deepest = deepest.max(item.depth());
    }
    deepest
}

#[cycle(depth_code)]
pub(crate) fn arms_depth(arms: &[Arm]) -> u64
    ensures { result ≡ capped (arms_depth (arm_trees arms.now)) }
{
    let mut deepest: u64 = 0;
    for arm in arms {
        deepest = deepest.max(arm.depth());
    }
    deepest
}
