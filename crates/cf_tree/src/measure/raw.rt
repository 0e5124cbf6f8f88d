//! Sizes and depths of source expressions as they are read.
ghost use Rattle.std.specs.Prelude.{◌≡◌};
ghost use Rattle.cf_tree.specs.RelSize.{capped};
ghost use Rattle.cf_tree.specs.RawTree.{raw_size, raws_size, raw_arm_size, raw_arms_size, given_size, aim_size, raw_depth, raws_depth, raw_arm_depth, raw_arms_depth, given_depth, aim_depth};
ghost use Rattle.cf_tree.specs.RawView.{raw_tree, raw_arm_tree, given_tree, aim_tree, raw_trees, raw_arm_trees};

use crate::raw::{Raw, RawAim, RawArm, RawGiven, RawNode};
use crate::{raw_leaf, raw_over_list, raw_over_number, raw_over_one, raw_over_two};

impl Raw {
    /// How many nodes it has, but never more than the greatest number of 64 bits.
    #[cycle(size_raw)]
    pub fn size(&self) -> u64
        ensures { result ≡ capped (raw_size (raw_tree self.now)) }
    {
        match &self.node {
            raw_leaf!() => 1,
            raw_over_list!(parts) | RawNode::Chain { parts, .. } => raws_size(parts).saturating_add(
                1,
            ),
            RawNode::Group(a) | raw_over_one!(a) | raw_over_number!(a) => a
                .size()
                .saturating_add(1),
            raw_over_two!(a, b) => a.size().saturating_add(b.size()).saturating_add(1),
            RawNode::If { test, yes, no } => test
                .size()
                .saturating_add(yes.size())
                .saturating_add(no.size())
                .saturating_add(1),
            RawNode::Choose {
                given,
                rel,
                aim,
                ..
            } => given
                .size()
                .saturating_add(rel.size())
                .saturating_add(aim.size())
                .saturating_add(1),
            RawNode::Match { of, arms, .. } => of
                .size()
                .saturating_add(arms_size(arms))
                .saturating_add(1),
        }
    }

    /// How deep it is: 1 for a leaf. Never more than the greatest number of 64 bits.
    #[cycle(depth_raw)]
    pub fn depth(&self) -> u64
        ensures { result ≡ capped (raw_depth (raw_tree self.now)) }
    {
        match &self.node {
            raw_leaf!() => 1,
            raw_over_list!(parts) | RawNode::Chain { parts, .. } => raws_depth(
                parts,
            ).saturating_add(1),
            RawNode::Group(a) | raw_over_one!(a) | raw_over_number!(a) => a
                .depth()
                .saturating_add(1),
            raw_over_two!(a, b) => a.depth().max(b.depth()).saturating_add(1),
            RawNode::If { test, yes, no } => test
                .depth()
                .max(yes.depth())
                .max(no.depth())
                .saturating_add(1),
            RawNode::Choose {
                given,
                rel,
                aim,
                ..
            } => given
                .depth()
                .max(rel.depth())
                .max(aim.depth())
                .saturating_add(1),
            RawNode::Match { of, arms, .. } => of.depth().max(arms_depth(arms)).saturating_add(1),
        }
    }
}

impl RawArm {
    /// How many nodes it has, but never more than the greatest number of 64 bits.
    #[cycle(size_raw)]
    pub fn size(&self) -> u64
        ensures { result ≡ capped (raw_arm_size (raw_arm_tree self.now)) }
    {
        self.body.size().saturating_add(1)
    }

    /// How deep it is: 1 for a leaf. Never more than the greatest number of 64 bits.
    #[cycle(depth_raw)]
    pub fn depth(&self) -> u64
        ensures { result ≡ capped (raw_arm_depth (raw_arm_tree self.now)) }
    {
        self.body.depth().max(1)
    }
}

impl RawGiven {
    #[cycle(size_raw)]
    fn size(&self) -> u64
        ensures { result ≡ capped (given_size (given_tree self.now)) }
    {
        match self {
            RawGiven::Always => 0,
            RawGiven::That { rel, .. } => rel.size(),
        }
    }

    #[cycle(depth_raw)]
    fn depth(&self) -> u64
        ensures { result ≡ capped (given_depth (given_tree self.now)) }
    {
        match self {
            RawGiven::Always => 0,
            RawGiven::That { rel, .. } => rel.depth(),
        }
    }
}

impl RawAim {
    #[cycle(size_raw)]
    fn size(&self) -> u64
        ensures { result ≡ capped (aim_size (aim_tree self.now)) }
    {
        match self {
            RawAim::Any => 0,
            RawAim::At { objective, .. } => objective.size(),
        }
    }

    #[cycle(depth_raw)]
    fn depth(&self) -> u64
        ensures { result ≡ capped (aim_depth (aim_tree self.now)) }
    {
        match self {
            RawAim::Any => 0,
            RawAim::At { objective, .. } => objective.depth(),
        }
    }
}

#[cycle(size_raw)]
fn raws_size(raws: &[Raw]) -> u64
    ensures { result ≡ capped (raws_size (raw_trees raws.now)) }
{
    let mut total: u64 = 0;
    for raw in raws {
        total = total.saturating_add(raw.size());
    }
    total
}

#[cycle(size_raw)]
fn arms_size(arms: &[RawArm]) -> u64
    ensures { result ≡ capped (raw_arms_size (raw_arm_trees arms.now)) }
{
    let mut total: u64 = 0;
    for arm in arms {
        total = total.saturating_add(arm.size());
    }
    total
}

#[cycle(depth_raw)]
fn raws_depth(raws: &[Raw]) -> u64
    ensures { result ≡ capped (raws_depth (raw_trees raws.now)) }
{
    let mut deepest: u64 = 0;
    for raw in raws {
        deepest = deepest.max(raw.depth());
    }
    deepest
}

#[cycle(depth_raw)]
fn arms_depth(arms: &[RawArm]) -> u64
    ensures { result ≡ capped (raw_arms_depth (raw_arm_trees arms.now)) }
{
    let mut deepest: u64 = 0;
    for arm in arms {
        deepest = deepest.max(arm.depth());
    }
    deepest
}
