//! The forms of edition 3 as those of language 2: relations with calls, lets, tests, least and
//! greatest numbers and truth values, and chains and implications in ordinary code.
#![tactic(auto)]

mod alternatives;
mod atoms;
mod best;
mod branch;
mod chains;
mod choose;
mod chooses;
mod copies;
mod copy;
mod count;
mod expansion;
mod fault;
mod floor;
mod formed;
mod formed_late;
mod forming;
mod guarded;
mod join;
mod limits;
mod made;
mod plain;
mod polarity;
mod saturated;
mod telling;
mod told;
mod truths;
mod wide;

ghost use Rattle.cf_form.specs.Laws.{ConditionsAreHeld, FormingAllowsTheSame, FormingKeepsTypes, FormsToItself};

pub use crate::fault::FormFault;
pub use crate::formed::{Formed, FormedParts, form};
pub use crate::formed_late::{FormedLate, FormedLateParts, form_late};
pub use crate::limits::MOST_ALTERNATIVES;
pub use crate::told::{Branch, ChooseInfo, TruthAt};

/// A program of edition 3 whose forms are those of language 2 allows the same outcomes as before and
/// is typed, and a program without new forms is formed to itself.
pub fn forming_keeps_facts()
    ensures outcomes { FormingAllowsTheSame }
    ensures types { FormingKeepsTypes }
    ensures itself { FormsToItself }
{}

/// In each branch of each choose that is told of, the condition holds where the relation does.
pub fn conditions_are_held()
    ensures { ConditionsAreHeld }
{}
