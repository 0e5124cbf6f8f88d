//! What `check` says of a program beside its answers: outputs that nothing bounds, parameters that nothing
//! uses, the branches of `||`, and where what it speaks of stands.
#![tactic(auto)]

mod bounds;
mod factors;
mod ors;
mod spots;
mod unused;

pub use crate::bounds::nothing_bounds;
pub use crate::ors::{Or, OrBranch, Side, part_at};
pub use crate::spots::{Spot, spots_of};
pub use crate::unused::unused_params;
