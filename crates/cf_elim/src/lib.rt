//! The whole elimination of a system.
#![tactic(auto)]

mod act;
mod acts;
mod bound;
mod case;
mod clean;
mod counts;
mod elimination;
mod equation;
mod fault;
pub mod laws;
mod output;
mod solved;
mod stage;

pub use crate::act::Act;
pub use crate::bound::dropped_within;
pub use crate::counts::within_counts;
pub use crate::elimination::eliminate;
pub use crate::equation::within_last;
pub use crate::fault::ElimFault;
pub use crate::output::{RunOutput, StepOutput};
pub use crate::solved::SolvedCase;
