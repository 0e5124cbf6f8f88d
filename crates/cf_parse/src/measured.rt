//! Trees with their depths.
ghost use Rattle.std.specs.Prelude.{◌≡◌};
ghost use Rattle.cf_tree.specs.RawTree.{raw_depth, raws_depth, raw_arm_depth, raw_arms_depth, given_depth, aim_depth};
ghost use Rattle.cf_tree.specs.RawView.{raw_tree, raw_trees, raw_arm_tree, raw_arm_trees, given_tree, aim_tree};

use cf_tree::{Order, Place, Raw, RawAim, RawArm, RawGiven};

/// A tree and its depth.
#[derive(Drop)]
pub struct Measured {
    pub raw: Raw,
    pub depth: u32,
    ghost measured: { depth ≡ raw_depth (raw_tree raw) },
}

/// A tree in a box, and its depth.
#[derive(Drop)]
pub struct Boxed {
    pub raw: Box<Raw>,
    pub depth: u32,
    ghost measured: { depth ≡ raw_depth (raw_tree raw.value) },
}

/// Trees and the depth of the deepest, or 0.
#[derive(Drop)]
pub struct MeasuredList {
    pub trees: Vec<Raw>,
    pub depth: u32,
    ghost measured: { depth ≡ raws_depth (raw_trees trees.items) },
}

/// An arm and its depth.
#[derive(Drop)]
pub struct MeasuredArm {
    pub arm: RawArm,
    pub depth: u32,
    ghost measured: { depth ≡ raw_arm_depth (raw_arm_tree arm) },
}

/// Arms and the depth of the deepest, or 0.
#[derive(Drop)]
pub struct MeasuredArms {
    pub arms: Vec<RawArm>,
    pub depth: u32,
    ghost measured: { depth ≡ raw_arms_depth (raw_arm_trees arms.items) },
}

/// What is given, and its depth, or 0.
#[derive(Drop)]
pub struct MeasuredGiven {
    pub given: RawGiven,
    pub depth: u32,
    ghost measured: { depth ≡ given_depth (given_tree given) },
}

/// What is aimed at, and its depth, or 0.
#[derive(Drop)]
pub struct MeasuredAim {
    pub aim: RawAim,
    pub depth: u32,
    ghost measured: { depth ≡ aim_depth (aim_tree aim) },
}

/// The orders of a chain with their places, and its parts.
#[derive(Drop)]
pub struct Links {
    pub orders: Vec<Order>,
    pub places: Vec<Place>,
    pub parts: MeasuredList,
}
