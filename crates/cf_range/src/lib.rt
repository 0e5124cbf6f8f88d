//! Between which numbers target code gives, and which of its operations can never meet a number past the limit.
#![tactic(auto)]

ghost use Rattle.cf_range.specs.RangeLaws.{ValuesLieInRanges, NeedNoChecks, RangesAdd, TotalCodesEvaluate};

mod codes;
mod comparison;
mod counts;
mod dropping;
mod params;
mod put;
mod range;
mod ranges;
mod sets;
mod settle;
mod tidy;
mod total;

pub use crate::codes::{may_pass, range_of};
pub use crate::params::param_ranges;
pub use crate::range::Range;
pub use crate::tidy::tidied;
pub use crate::total::is_total;

/// Where no number that a code meets is past the limit, what it gives lies in its range.
pub fn values_lie_in_ranges()
    ensures { ValuesLieInRanges }
{}

/// An operation that may not pass meets nothing past the limit where its parts do not.
pub fn operations_need_no_checks()
    ensures { NeedNoChecks }
{}

/// Sums, differences and products of two numbers lie in the ranges that are made of theirs.
pub fn ranges_add()
    ensures { RangesAdd }
{}

/// A total code gives values, and meets nothing past the limit.
pub fn total_codes_evaluate()
    ensures { TotalCodesEvaluate }
{}
