//! Programs whose coefficients are inputs: each choose is eliminated where it is entered, on the numbers of its environment.
#![tactic(auto)]

mod at;
mod choose;
mod enter;
mod eval;
mod operate;
mod outcome;
mod pattern;
mod reply;
mod run;
mod stop;
mod values;

ghost use Rattle.cf_late.specs.ProgramLaw.{LateRunsAreAllowed};

pub use crate::outcome::LateOutcome;
pub use crate::reply::late_reply;
pub use crate::run::run_late;

/// On values of main's types of which no number is past 2^127 - 1, an outcome that a late program
/// comes to is one that its source allows.
pub fn late_runs_are_allowed()
    ensures { LateRunsAreAllowed }
{}

ghost use Rattle.cf_late.specs.Laws.{KnowingKeepsSolutions, KnowingKeepsTypes, KnowingIsLinear, LateChoosesAreAllowed};

/// A relation with the literals of the numbers in scope has the same solutions there; it is typed
/// where the relation is, and linear where the relation is once its scope is known.
pub fn knowing_keeps_facts()
    ensures solutions { KnowingKeepsSolutions }
    ensures types { KnowingKeepsTypes }
    ensures linear { KnowingIsLinear }
{}

/// An outcome that a choose comes to is one that its relation allows.
pub fn late_chooses_are_allowed()
    ensures { LateChoosesAreAllowed }
{}
