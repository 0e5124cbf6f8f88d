//! What the questions of a choose answer.
use cf_eval::Value;
use cf_linear::Refusal;

/// Why a question is not decided.
#[derive(Clone, Copy, Debug, PartialEq, Eq)]
pub enum Doubt {
    /// The question passes a limit, and this one first.
    Refused(Refusal),
    /// The question passes no limit, and a number met in its run passes 2^127 - 1.
    Overflow,
}

/// Whether the outputs of a choose are the only ones.
#[derive(Drop)]
pub enum UniquenessAnswer {
    /// No two different solutions exist with the same parameters.
    Unique,
    /// Two different solutions, where the parameters have these values, in the order of their levels.
    Two {
        sample: Vec<Value>,
        first: Vec<Value>,
        second: Vec<Value>,
    },
    /// The question is not decided.
    Undecided(Doubt),
}

/// Whether a choose has outputs for every choice of its parameters.
#[derive(Drop)]
pub enum ExistenceAnswer {
    /// Outputs exist whatever values the parameters have.
    Always,
    /// No outputs exist where the parameters have these values, in the order of their levels.
    Missing(Vec<Value>),
    /// The question is not decided.
    Undecided(Doubt),
}
