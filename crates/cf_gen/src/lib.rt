//! The generated workload: a source of a given size, and the lines of input that it is run on.
#![tactic(auto)]

mod draw;
mod input_lines;
mod source_text;

pub use crate::input_lines::lines;
pub use crate::source_text::source;
