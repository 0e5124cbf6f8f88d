//! Relations as problems of integer rows.
#![tactic(auto)]

mod conjunctions;
mod formulas;
mod reading;
mod whole;

pub use crate::reading::{RelationProblem, read};
pub use crate::whole::read_whole;
