//! How a question is answered.

/// By what an answer is looked for.
#[derive(Clone, Copy, Debug, PartialEq, Eq)]
pub enum Effort {
    /// By the elimination alone.
    Elimination,
    /// By inputs that are tried, by a refutation and by guesses, and by the elimination where these find nothing.
    Refutation,
}
