//! Whole programs: main's body with its calls unfolded and each choose replaced by its solved code.
#![tactic(auto)]

mod building;
mod choose_codes;
mod chooses;
mod codes;
mod fault;
mod rewrite;
mod same;
mod solves;

ghost use Rattle.cf_build.specs.Lowering.{LoweringKeepsChooses};

pub use crate::building::build;
pub use crate::chooses::numbered;
pub use crate::fault::BuildFault;
pub use crate::solves::{SolvedChoose, solve_all};

/// A program without its matches, each as the chooses that it stands for, has the chooses of the
/// program.
pub fn lowering_keeps_chooses()
    ensures { LoweringKeepsChooses }
{}
