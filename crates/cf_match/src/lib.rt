//! Matches as the chooses that they stand for, and the classes of their patterns.
#![tactic(auto)]

mod arms;
mod class;
mod collect;
mod lowered;
mod lowering;
mod pattern;

ghost use Rattle.cf_match.specs.Laws.{LoweringKeepsOutcomes, LoweringKeepsTypes, LoweringLeavesNoMatch};

pub use crate::class::{Class, class_of};
pub use crate::lowered::{Lowered, MatchInfo, lower};
pub use crate::pattern::{last_level, numbers, pattern_relation};

/// A typed program with each match as the chooses that it stands for is a typed program without
/// matches, and each of its functions allows the same outcomes as before.
pub fn lowering_keeps_facts()
    ensures outcomes { LoweringKeepsOutcomes }
    ensures types { LoweringKeepsTypes }
    ensures no_match { LoweringLeavesNoMatch }
{}
