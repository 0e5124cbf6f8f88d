//! Checks of sources against the rules on names, types, linearity and size; the typing of targets.
#![tactic(auto)]

mod bases;
mod build;
mod callees;
mod checking;
mod choose_where;
mod constants;
mod context;
mod form;
mod held;
mod linear;
mod memory;
mod name_set;
mod names;
mod number;
mod pattern;
mod reading;
mod scope;
mod sums;
mod value;
mod walk;

pub use crate::checking::{check, check_late, check_late_source, check_source};
pub use cf_typing::{TargetFault, check_target};
