//! One choose: its relation is solved for its outputs.
#![tactic(auto)]

mod arm_builder;
mod arms;
mod cases;
mod codes;
mod fault;
pub mod laws;
mod levels;
mod needs;
mod solved;
mod solving;

pub use crate::arm_builder::ArmBuilder;
pub use crate::arms::{arm, start};
pub use crate::codes::{divides_code, how_code, need_code, quotient_code, row_code};
pub use crate::fault::ChooseFault;
pub use crate::levels::layout;
pub use crate::solved::Solved;
pub use crate::solving::{counts, solve};
