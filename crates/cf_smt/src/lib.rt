//! The chooses of a source as SMT-LIB text: each relation, what the arms need and give, and goals that solvers answer with `unsat`.
#![tactic(auto)]

mod arm;
mod claim;
mod claims;
mod code;
mod command;
mod form;
mod functions;
mod goals;
mod head;
mod lets;
mod names;
mod reads;
mod relation;
mod tuple;
mod word;
mod words;

pub use crate::claim::Claim;
pub use crate::claims::{ABOUT_CLAIM, ClaimFault, put_claim};
pub use crate::functions::ABOUT_FUNCTIONS;
pub use crate::goals::{ABOUT_GIVEN, ABOUT_NEEDS, ASKED};
pub use crate::head::{BEFORE_SOURCE, BEHIND_SOURCE, put_head};
pub use crate::words::SMT_WORDS;
