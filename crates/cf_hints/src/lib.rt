//! The names that a source gives to what is printed of it. Nothing relies on them: where a name is missing, or is no
//! free one, the printer makes another.
#![tactic(auto)]

mod met;
mod names;

pub use crate::names::hints;
