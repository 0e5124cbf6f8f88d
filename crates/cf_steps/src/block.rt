//! Blocks of a steps file.
use cf_elim::Act;
use cf_tree::{RawTarget, Text};

/// A truth variable of a choose's scope, by its name, with its value in a branch.
#[derive(Drop)]
pub struct NamedTruth {
    pub name: Text,
    pub value: bool,
}

/// The truth variables on which a choose branches, with their values in one branch; none where it has
/// but one branch.
#[derive(Drop)]
pub struct Head {
    pub truths: Vec<NamedTruth>,
}

/// The truth variables on which a choose branches, with their values in this branch, the steps of
/// each of its cases, and the target whose parameters are the choose's scope and whose
/// results are its outputs.
#[derive(Drop)]
pub struct Block {
    pub number: u32,
    pub truths: Vec<NamedTruth>,
    pub cases: Vec<Vec<Act>>,
    pub target: RawTarget,
}

/// The blocks of a steps file, in order.
#[derive(Drop)]
pub struct Blocks {
    pub list: Vec<Block>,
}
