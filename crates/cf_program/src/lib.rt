//! Programs in which no rule is broken, and the rules that say which sources are such programs.
#![tactic(auto)]

mod fault;
mod linearity;
mod size;
mod source;
mod typed;
mod variable;

ghost use Rattle.cf_program.specs.Laws.{RulesKeepNames, RulesKeepSources, RulesKeepTypes};

pub use crate::fault::TypeFault;
pub use crate::linearity::Linearity;
pub use crate::size::{Passed, first_too_deep, first_too_heavy};
pub use crate::source::{LateSource, Source};
pub use crate::typed::{Late, Typed, TypedDefs};
pub use crate::variable::Variable;

/// A text of language 2 for which the rules give no fault is a typed program, with relations that
/// are linear by the rule that was asked, and one of edition 3 is a typed source; their names differ
/// where they stand together.
pub fn rules_keep_facts()
    ensures types { RulesKeepTypes }
    ensures sources { RulesKeepSources }
    ensures names { RulesKeepNames }
{}
