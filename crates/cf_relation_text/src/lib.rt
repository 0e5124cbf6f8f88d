//! The printed form of a relation, by the grammar of sources.
#![tactic(auto)]

mod printing;
mod tier;
mod word;

pub use crate::printing::print_relation;
