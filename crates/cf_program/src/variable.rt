//! What a name of a variable stands for.
use cf_tree::Base;

/// A variable: its level, which is the number of variables bound outside it, and its base.
#[derive(Clone, Copy, Debug, PartialEq, Eq)]
pub struct Variable {
    pub level: u32,
    pub base: Base,
}
