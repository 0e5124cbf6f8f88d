//! The statements of a block, in each language.
#![tactic(auto)]

mod draft;
mod function;
mod inner;
mod laws;
mod lines;
mod naming;
mod parameters;
mod place;
mod printer;
mod searches;
mod statements;
mod values;
mod variables;

pub use crate::draft::Draft;
pub use crate::function::both;
pub use crate::laws::parameters_differ;
pub use crate::naming::{Role, names_for, pointers_for};
pub use crate::place::{Giving, Place};
pub use crate::printer::{Outputs, Printer};
pub use crate::statements::put_block;
