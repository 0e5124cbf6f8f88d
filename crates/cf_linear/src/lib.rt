//! Rows of coefficients, and the definitions of the elimination on them.
#![tactic(auto)]

mod columns;
mod copy;
mod merge_factors;
mod parts;
mod quotient;
mod reason;
mod refusal;
mod row;
mod searching;
mod side;
mod substitute;
mod system;
mod unknowns;
mod written;

pub use crate::columns::{first_free, has_bit, known_count, number_column, place, region_row};
pub use crate::merge_factors::{MergeFactors, factors};
pub use crate::parts::{common, divided, divides_known, has_unknown, known_part, unknown_part};
pub use crate::quotient::{division, size_of};
pub use crate::reason::{Reason, in_words, refusal_reason};
pub use crate::refusal::{
    LimitKind, MOST_CASES, MOST_COLUMNS, MOST_ROWS, MOST_SETS, MOST_TUPLES, Refusal, RowFault,
};
pub use crate::row::Row;
pub use crate::searching::{search_bound, search_column, search_equation};
pub use crate::side::Side;
pub use crate::system::{Back, Divided, How, Layout, Search, Step, System};
pub use crate::unknowns::{Unknowns, others};
pub use crate::written::{
    Guard, Written, above_quotient, below_quotient, plus, row_of, subtracted,
};
