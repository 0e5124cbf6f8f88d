//! The block of a choose, written down: its steps and its target.
#![tactic(auto)]

pub mod laws;
mod proving;

pub use crate::proving::prove;
