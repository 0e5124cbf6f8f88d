//! What a late program comes to.
use cf_eval::Value;
use cf_linear::Refusal;

/// What a program gives on some values whose chooses are eliminated where they are entered.
#[derive(Drop)]
pub enum LateOutcome {
    /// The values of its main function.
    Values(Vec<Value>),
    /// The number of the choose that has no solution.
    NoSolution(u32),
    /// A number passes 2^127 - 1 on the way.
    Overflow,
    /// The number of the first choose on the way that is refused, and the first limit that it passes.
    Refused { number: u32, refusal: Refusal },
}
