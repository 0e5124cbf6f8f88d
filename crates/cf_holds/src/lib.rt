//! Whether a relation holds at values of its variables.
#![tactic(auto)]

mod bases;
mod fault;
mod numbers;
mod sets;
mod truth;

pub use crate::bases::have_bases;
pub use crate::fault::HoldFault;
pub use crate::truth::holds_at;
