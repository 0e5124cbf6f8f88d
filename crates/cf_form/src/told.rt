//! What is told of the chooses of a source.
use cf_tree::{Base, Rel};

/// A truth variable of the scope, by its level, with its value in a branch.
#[derive(Clone, Copy, Debug, PartialEq, Eq)]
pub struct TruthAt {
    pub level: u32,
    pub value: bool,
}

/// A choose for one choice of values of the truth variables of its scope that occur in it: these
/// values, its relation there, and the relation of its condition, if it has one.
#[derive(Drop)]
pub struct Branch {
    pub truths: Vec<TruthAt>,
    pub relation: Rel,
    pub given: Option<Rel>,
}

/// A choose of a source: its number, the bases of what it gives out, how many outputs are hidden,
/// the levels of its parameters, rising, and its branches, `true` first.
#[derive(Drop)]
pub struct ChooseInfo {
    pub number: u32,
    pub outputs: Vec<Base>,
    pub hidden: u32,
    pub parameters: Vec<u32>,
    pub branches: Vec<Branch>,
}
