//! Whether classes of numbers hold every number, or each one of another class.
#![tactic(auto)]

mod coverage;
mod inside;
mod period;
mod reach;

pub use crate::coverage::{Cover, MOST_RESIDUES, are_held, covers};
pub use crate::reach::{MOST_STEPS, is_out_of_reach};
