//! Target code as statements, and what these mean.
#![tactic(auto)]

mod block;
mod boxed;
mod expression;
mod guards;
mod made;
mod sums;
mod walk;

ghost use Rattle.cf_stmt.specs.Runs.{LeavesAtOnce, StatementsAnswer};

pub use crate::block::Block;
pub use crate::expression::DEEPEST;
pub use crate::made::statements;

/// To run a block is to stop at the first number past the limit: it is overflow where the greatest number
/// met is past, and else what the block gives.
pub fn leaves_at_once()
    ensures { LeavesAtOnce }
{}

/// The statements of a code run as the code answers.
pub fn statements_answer()
    ensures { StatementsAnswer }
{}
