//! The guide of a refutation: which facts are combined, what is split, and when to give up. Nothing of what it chooses
//! is relied on, and a model that it finds is to be tried.
#![tactic(auto)]

mod bounds;
mod branches;
mod cuts;
mod equations;
mod frame;
mod guide;
mod limits;
mod normal;
mod numbers;
mod plan;
mod point;
mod quotients;
mod rows;
mod splits;

pub use crate::guide::{Ending, Finder, Outcome};
pub use crate::limits::{Limit, Limits, MOST_DEPTH, MOST_FACTS};
