//! Replies as JSON objects.
#![tactic(auto)]

mod object;
mod outcome;
mod pieces;
mod values;

pub use crate::object::{put_error, put_json};
pub use crate::outcome::as_late;
