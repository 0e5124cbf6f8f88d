//! Compiled programs as source code of other languages.
#![tactic(auto)]

mod emission;
mod files;
mod printing;
mod sets;

pub use crate::emission::{Emission, EmitFault, Hints};
pub use crate::printing::emitted;
