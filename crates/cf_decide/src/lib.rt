//! Whether a choose has outputs for every choice of its parameters, and whether they are the only ones. Inputs are tried
//! first; then a refutation of the question is searched for, and where the search ends at a model, its values are tried; then
//! outputs are guessed that another relation tells; and at last the question is eliminated.
#![tactic(auto)]

mod branches;
mod counts;
mod effort;
mod exchange;
mod existence;
mod guess;
mod narrow;
mod never;
mod samples;
mod scale;
mod searching;
mod second;
mod trials;
mod trying;
mod turns;
mod uniqueness;
mod witness;

pub use crate::branches::{MOST_BRANCHES, never_holds_with};
pub use crate::effort::Effort;
pub use crate::existence::decide_existence;
pub use crate::never::never_holds;
pub use crate::scale::MOST_VARIABLES;
pub use crate::uniqueness::decide_uniqueness;
