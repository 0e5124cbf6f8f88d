//! What is claimed of a choose.
use cf_tree::{Arm, Rel, Text};

/// That arms solve the choose of this number in one of its branches, where its scope and its outputs are named so.
/// In the relation and in the arms the scope has the first levels; behind them the relation has the outputs, and an
/// arm its searches and its lets.
#[derive(Clone, Copy)]
pub struct Claim<'a> {
    pub number: u32,
    /// Which of its branches it is, from 0 on.
    pub branch: u32,
    pub scope: &'a [Text],
    pub outputs: &'a [Text],
    pub rel: &'a Rel,
    pub arms: &'a [Arm],
}
