//! Reads the target that a list of tokens spells, and targets that stand in other texts.
#![tactic(auto)]

mod code;
mod form;
mod inside;
mod level;
mod node;
mod number;
mod part;
mod source;

pub use source::{DEPTH_LIMIT, target, target_part};
