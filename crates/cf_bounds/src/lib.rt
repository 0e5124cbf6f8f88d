//! Bounds of unknowns: a system is cleaned, an unknown is picked, its side is searched, and it is dropped.
#![tactic(auto)]

mod cleaning;
mod dropping;
mod lists;
mod searching;
mod selection;

pub use crate::cleaning::{Cleaned, clean};
pub use crate::dropping::{Dropped, drop_output};
pub use crate::searching::{Searched, remainder_step};
pub use crate::selection::{Pick, select};
