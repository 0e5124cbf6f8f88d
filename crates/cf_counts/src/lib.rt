//! A relation over counts of regions, in the place of its sets.
#![tactic(auto)]

mod counting;
mod regions;
mod sums;

ghost use Rattle.cf_counts.specs.Counted.{CountsHold};

pub use crate::counting::{count_bases, over_counts};
pub use crate::regions::MOST_COUNTED_SETS;

/// Where a relation holds, it holds over the counts of the regions of its sets.
pub fn counts_hold()
    ensures { CountsHold }
{}
