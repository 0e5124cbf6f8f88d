//! What leaving an arm comes to.

/// What comes next where an arm is left.
#[derive(Clone, Copy, Debug, PartialEq, Eq)]
pub enum Exit {
    /// What stands behind it.
    Falls,
    /// The next round of the search.
    GoesOn,
    /// No solution at this number.
    Ends(u32),
}
