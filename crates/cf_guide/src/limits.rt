//! How much a question may cost, in numbers that no clock and no machine changes.

/// The most splits that lead to a node.
pub const MOST_DEPTH: u64 = 90;

/// The most facts of a node.
pub const MOST_FACTS: u32 = 600;

/// How many splits, pivots of the simplex and steps a question may take. A step is an entry of a row that
/// is made or looked at.
#[derive(Clone, Copy, Debug, PartialEq, Eq)]
pub struct Limits {
    pub splits: u64,
    pub pivots: u64,
    pub steps: u64,
}

impl Limits {
    /// Of a first try whether there always are outputs.
    pub fn first() -> Limits {
        Limits {
            splits: 1_200,
            pivots: 3_000,
            steps: 400_000,
        }
    }

    /// Of a second try, and whether outputs are the only ones.
    pub fn second() -> Limits {
        Limits {
            splits: 8_000,
            pivots: 20_000,
            steps: 3_000_000,
        }
    }

    /// Whether something never holds.
    pub fn never() -> Limits {
        Limits {
            splits: 100,
            pivots: 20_000,
            steps: 3_000_000,
        }
    }

    /// Whether a branch of an `||` never holds; of all branches of a choose together.
    pub fn branches() -> Limits {
        Limits {
            splits: 300,
            pivots: 3_000,
            steps: 600_000,
        }
    }
}

/// The limit that was met, with its number.
#[derive(Clone, Copy, Debug, PartialEq, Eq)]
pub enum Limit {
    Splits(u64),
    Pivots(u64),
    Steps(u64),
    /// So many facts of a node.
    Facts(u32),
    /// So many splits that lead to a node.
    Depth(u64),
    /// A number past 2^127 - 1.
    Past,
    /// An action that did not apply: the guide was wrong.
    Unfit,
}
