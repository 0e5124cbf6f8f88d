//! What is told of a source of edition 3 that is refused: words, the line with a caret, and helps.
//!
//! Each text is a function of the source and of the fault alone. The rules tell a fault by its kind
//! and its place, so all else is found here, once, when a source is refused.
#![tactic(auto)]

mod bases;
mod bend;
mod bent;
mod bytes;
mod callees;
mod clash;
mod held;
mod kinds;
mod linear;
mod lines;
mod looks;
mod messages;
mod near;
mod numbers;
mod pieces;
mod places;
mod plain;
mod rows;
mod rules;
mod scope;
mod seen;
mod stop;
mod syntax;
mod telling;
mod types;
mod value;
mod valued;
mod words;
mod written;

pub use crate::bytes::bad_byte_words;
pub use crate::messages::message;
pub use crate::numbers::{function_place, number_place};
pub use crate::rules::rule_words;
pub use crate::syntax::syntax_words;
pub use crate::telling::{Refused, told};
pub use crate::words::FaultWords;
