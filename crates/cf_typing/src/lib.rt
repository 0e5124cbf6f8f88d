//! The typing of targets.
#![tactic(auto)]

mod bases;
mod fault;
mod form;
mod target;

pub use crate::fault::TargetFault;
pub use target::check_target;
