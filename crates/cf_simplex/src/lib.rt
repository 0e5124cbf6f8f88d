//! A rational simplex over rows that are to be at least 0. Nothing of what it finds is relied on: whoever asks
//! checks the factors of a conflict, and tries a point.
#![tactic(auto)]

mod effort;
mod numbers;
mod simplex;
mod tableau;

pub use crate::effort::{Effort, Stop};
pub use crate::numbers::{
    combination, common, opposite, plus, product, quotient, size, total, unit,
};
pub use crate::simplex::{Found, Part, Ratio, Simplex, Span};
