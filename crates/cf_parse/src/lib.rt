//! Reads the program, or the target, that a list of tokens spells.
#![tactic(auto)]

mod lists;
mod measured;
mod node;
mod pattern;
mod reading;
mod sign;
mod source;
mod tier;
mod words;

pub use cf_reader::ParseFault;
pub use cf_target::target;
pub use source::program;
