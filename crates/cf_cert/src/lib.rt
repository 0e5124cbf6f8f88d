//! Steps of an elimination, applied and checked.
#![tactic(auto)]

mod apply;
mod arms;
mod blocks;
mod bounding;
mod cleaning;
mod counting;
mod ending;
mod fault;
mod follow;
mod judge;
pub mod laws;
mod marks;
mod mixing;
mod next;
mod verdict;

pub use crate::blocks::verify;
pub use crate::verdict::{Verdict, Why};
