//! Steps of an elimination.

/// One step of an elimination. Columns are numbered as in a `System`.
#[derive(Clone, Copy, Debug, PartialEq, Eq)]
pub enum Act {
    /// Rows without unknowns become needs, and the inequalities are tightened.
    Clean,
    /// `x = a * u + b * v` and `y = c * u + d * v`, for the new unknowns u and v.
    Mix {
        x: u32,
        y: u32,
        a: i128,
        b: i128,
        c: i128,
        d: i128,
    },
    /// The equation of that number, counted from 0, is solved for its one unknown.
    Last(u32),
    /// The bounds of the unknown with a coefficient above 1, on the lower or on the upper side, get
    /// search variables.
    Search {
        column: u32,
        lower: bool,
    },
    /// The unknown is dropped.
    Drop(u32),
}
