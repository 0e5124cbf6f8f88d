//! Passes, which rewrite the code of a target.
#![tactic(auto)]

ghost use Rattle.cf_pass.specs.Laws.{FormsImprove};

mod dead_arms;
mod drop_arms;
mod drop_lets;
mod drop_needs;
mod falls;
mod fold;
mod folded;
mod literal;
mod marks;
mod pass;
mod rule;
mod true_needs;
mod unused_lets;
mod walk;

pub use drop_arms::DropArms;
pub use drop_lets::DropLets;
pub use drop_needs::DropNeeds;
pub use fold::Fold;
pub use pass::Pass;

/// What may take the place of a code: the same code, what may take the place of such a one, and each form over
/// parts that may take the places of its parts.
pub fn forms_improve()
    ensures { FormsImprove }
{}
