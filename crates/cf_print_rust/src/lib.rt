//! Files of Rust: the function that is called, helpers, and filters.
#![tactic(auto)]

mod file;
mod filter;
mod helpers;
mod opening;
mod texts;

pub use crate::file::file_of;
pub use crate::opening::opening_of;
