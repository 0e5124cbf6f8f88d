//! Equations: an unknown gives way to others, and an equation of one unknown is solved for it.
#![tactic(auto)]

mod end;
mod merge;
mod replace;
mod step;
mod unknowns;

pub use crate::merge::mix;
pub use crate::step::{Reduced, step_first};
pub use crate::unknowns::{Present, first_unknowns};
