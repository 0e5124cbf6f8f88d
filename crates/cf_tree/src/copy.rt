//! Equal copies of trees.
mod code;
mod expr;
mod raw;
mod rel;
mod whole;
pub mod words;
