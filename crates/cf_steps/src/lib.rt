//! Steps files: for each choose the steps of its elimination and the target that they lead to.
#![tactic(auto)]

mod block;
mod head;
pub mod laws;
mod number;
mod print;
mod source;
mod step;

pub use crate::block::{Block, Blocks, Head, NamedTruth};
pub use crate::print::print_block;
pub use cf_elim::Act;
pub use source::steps;
